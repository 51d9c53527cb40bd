//! The groups of each sector.

ghost use Rattle.std.specs.Prelude.{◌≡◌, ◌≤◌, ℕ, [], IfOk, OnOk, get_or, length, map};
ghost use Rattle.group_checker.specs.Members.{AreMembers, PutsGroup, PutsOne};

use face_groups::Group;
use sight_names::{Items, MOST_TRIANGLES, Memory};
use std::alloc::Global;

/// Puts the place of a group behind the others of the sector, if there is a list of it.
fn put(lists: &mut [Vec<u16>], sector: u16, place: u16) -> Result<(), Memory>
    ensures { OnOk result (PutsOne sector place (map (λ v. v.items) lists.old) (map (λ v. v.items) lists.new)) }
{
    if sector as usize >= lists.len() {
        return Ok(());
    }
    lists[sector as usize].push(place)?;
    Ok(())
}

/// Puts the place of the group behind the others of each of its sectors.
fn put_group(lists: &mut [Vec<u16>], group: &Group, place: u16) -> Result<(), Memory>
    ensures { OnOk result (PutsGroup group.now place (map (λ v. v.items) lists.old) (map (λ v. v.items) lists.new)) }
{
    for sector in group.as_slice() {
        put(lists, *sector, place)?;
    }
    Ok(())
}

/// So many empty lists.
fn no_places(alloc: Global, sectors: u16) -> Result<Vec<Vec<u16>>, Memory>
    ensures len { IfOk result (λ v. length v.items ≡ sectors) }
    ensures empty { IfOk result (λ v. (a : ℕ) → get_or (map (λ w. w.items) v.items) a [] ≡ []) }
{
    let mut lists = Vec::new(alloc);
    for _ in 0..sectors {
        lists.push(Vec::new(alloc))?;
    }
    Ok(lists)
}

/// The lists as groups.
fn as_groups(alloc: Global, lists: Vec<Vec<u16>>) -> Result<Vec<Group>, Memory>
    ensures { IfOk result (λ v. v.items ≡ map (λ w. w.items) lists.items) }
{
    let mut groups = Vec::new(alloc);
    for list in lists {
        groups.push(Items::of(list))?;
    }
    Ok(groups)
}

/// For each of so many sectors the places of the groups that contain it.
pub fn members_of(alloc: Global, groups: &[Group], sectors: u16) -> Result<Vec<Group>, Memory>
    requires { length groups.now ≤ MOST_TRIANGLES }
    ensures { IfOk result (λ v. AreMembers groups.now sectors v.items) }
{
    let mut lists = no_places(alloc, sectors)?;
    for (place, group) in groups.iter().enumerate() {
        put_group(lists.as_mut_slice(), group, place as u16)?;
    }
    let members = as_groups(alloc, lists)?;
    Ok(members)
}
