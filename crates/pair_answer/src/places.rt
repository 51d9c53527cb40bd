//! The groups of a sector, and those of them that passable lines connect with others.

ghost use Rattle.std.specs.Prelude.{◌≡◌, ◌<◌, ◌↔◌, Contains, IfOk, IsTrue, OnOk, length};
ghost use Rattle.pair_answer.specs.Numbers.{added, AreBelow};
ghost use Rattle.pair_answer.specs.Places.{ArePlacesOf, AreJoinedByComponent, IsJoined, ShareOne};

use face_groups::Group;
use sight_names::Memory;
use std::alloc::Global;

/// Whether the number is one of these.
pub fn has(numbers: &[u16], number: u16) -> bool
    ensures { IsTrue result ↔ Contains numbers.now number }
{
    numbers.contains(&number)
}

/// Whether the group contains the sector.
fn has_sector(group: &Group, sector: u16) -> bool
    ensures { IsTrue result ↔ Contains group.now sector }
{
    group.as_slice().contains(&sector)
}

/// Adds the number, if it is wanted.
pub fn add(numbers: &mut Vec<u16>, number: u16, wanted: bool) -> Result<(), Memory>
    ensures { OnOk result (numbers.new.items ≡ added wanted number numbers.old.items) }
{
    if wanted {
        numbers.push(number)?;
    }
    Ok(())
}

/// The places of those of so many groups that contain the sector.
pub fn places_of(
    alloc: Global,
    groups: &[Group],
    count: u16,
    sector: u16,
) -> Result<Vec<u16>, Memory>
    requires { count ≡ length groups.now }
    ensures { IfOk result (λ v. ArePlacesOf groups.now sector v.items) }
{
    let mut places = Vec::new(alloc);
    for place in 0..count {
        add(
            &mut places,
            place,
            has_sector(&groups[place as usize], sector),
        )?;
    }
    Ok(places)
}

/// Whether some number is one of both.
pub fn share_one(these: &[u16], those: &[u16]) -> bool
    ensures { IsTrue result ↔ ShareOne these.now those.now }
{
    for i in 0..these.len() {
        if has(those, these[i]) {
            return true;
        }
    }
    false
}

/// Whether passable lines connect the group with one of these.
fn is_joined(components: &[u16], group: u16, others: &[u16]) -> bool
    requires group { group < length components.now }
    requires others { AreBelow (length components.now) others.now }
    ensures { IsTrue result ↔ IsJoined components.now others.now group }
{
    for i in 0..others.len() {
        if components[others[i] as usize] == components[group as usize] {
            return true;
        }
    }
    false
}

/// Those of the groups that passable lines connect with some of the others.
pub fn joined(
    alloc: Global,
    components: &[u16],
    groups: &[u16],
    others: &[u16],
) -> Result<Vec<u16>, Memory>
    requires groups { AreBelow (length components.now) groups.now }
    requires others { AreBelow (length components.now) others.now }
    ensures { IfOk result (λ v. AreJoinedByComponent components.now groups.now others.now v.items) }
{
    let mut kept = Vec::new(alloc);
    for i in 0..groups.len() {
        add(
            &mut kept,
            groups[i],
            is_joined(components, groups[i], others),
        )?;
    }
    Ok(kept)
}
