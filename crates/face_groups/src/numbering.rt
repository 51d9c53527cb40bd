//! The groups in order, each once, and the group of each triangle by its place.

ghost use Rattle.std.specs.Prelude.{◌≡◌, ◌≤◌, ◌↔◌, ℕ, None, All, IfOk, IsTrue, OnOk, length, slice_index_or};
ghost use Rattle.sight_names.specs.Order.{Ascends};
ghost use Rattle.face_groups.specs.TriSectors.Classes.{IsBelow};
ghost use Rattle.face_groups.specs.declared.named_faces.NamedFace.{NamedFace};
ghost use Rattle.face_groups.specs.Namings.{NamingBefore, AreOnFaces};
ghost use Rattle.face_groups.specs.NamedFaces.{RiseAsLists, AreFacesBelow, IsLast, IsPutBehind, AreNumbered, AreListLabels};

use crate::lists::Group;
use crate::named_faces::{NamedFace, named_faces};
use crate::namings::Naming;
use crate::tri_sectors::labels_of;
use sight_names::{Items, Memory};
use std::alloc::Global;

/// Groups in order, and for each triangle the place of its face's group, None where no side names a sector.
#[derive(Drop)]
pub struct LabelledGroups {
    pub groups: Vec<Group>,
    pub labels: Vec<Option<u16>>,
}

/// Whether the group is this list.
fn is_list(group: &Group, sectors: &[u16]) -> bool
    ensures { IsTrue result ↔ (group.now ≡ sectors.now) }
{
    group.as_slice() == sectors
}

/// Whether the list is the last of the groups.
fn is_last(groups: &[Group], sectors: &[u16]) -> bool
    ensures { IsTrue result ↔ IsLast groups.now sectors.now }
{
    match groups.last() {
        Some(group) => is_list(group, sectors),
        None => false,
    }
}

/// Puts the list behind the groups, unless it is the last of them already.
fn put_behind(alloc: Global, groups: &mut Vec<Group>, sectors: &[u16]) -> Result<(), Memory>
    ensures { OnOk result (IsPutBehind sectors.now groups.old.items groups.new.items) }
{
    if is_last(groups.as_slice(), sectors) {
        return Ok(());
    }
    let group = sectors.to_vec(alloc)?;
    groups.push(Items::of(group))?;
    Ok(())
}

/// The lists of the faces, each once; writes the place of its list for each face.
fn number_all(
    alloc: Global,
    named: &[NamedFace],
    places: &mut [Option<u16>],
) -> Result<Vec<Group>, Memory>
    requires order { RiseAsLists named.now }
    requires below { AreFacesBelow (length places.old) named.now }
    requires few { length named.now ≤ 65535 }
    requires none { (f : ℕ) → slice_index_or places.old f None ≡ None }
    ensures { IfOk result (λ v. AreNumbered named.now v.items places.new) }
{
    let mut groups = Vec::new(alloc);
    for face in named {
        put_behind(alloc, &mut groups, face.sectors.as_slice())?;
        places[face.face as usize] = Some((groups.len() - 1) as u16);
    }
    Ok(groups)
}

/// The groups of these faces, and the labels of so many triangles.
pub fn labelled_groups(
    alloc: Global,
    namings: &[Naming],
    faces: &[u16],
    count: u16,
) -> Result<LabelledGroups, Memory>
    requires order { Ascends NamingBefore namings.now }
    requires count { length faces.now ≡ count }
    requires on { AreOnFaces faces.now namings.now }
    requires range { All (IsBelow (length faces.now)) faces.now }
    ensures { IfOk result (λ g. AreListLabels namings.now faces.now g.groups.items g.labels.items) }
{
    let named = named_faces(alloc, namings, count)?;
    let mut places = vec![in alloc; None; count as usize]?;
    let groups = number_all(alloc, named.as_slice(), places.as_mut_slice())?;
    let labels = labels_of(alloc, faces, places.as_slice())?;
    Ok(LabelledGroups { groups, labels })
}
