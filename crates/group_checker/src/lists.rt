//! The table of groups against the faces, and against the labels.

ghost use Rattle.std.specs.Prelude.{◌≡◌, ◌≤◌, ◌<◌, ◌↔◌, ℕ, Some, IfOk, IsTrue, length, slice_get};
ghost use Rattle.sight_names.specs.Mesh.{IsPlainMesh};
ghost use Rattle.sight_names.specs.Map.{map_of};
ghost use Rattle.mesh_shape.specs.Search.{IsSearch};
ghost use Rattle.cert_checker.specs.TreeJudge.Marks.{IsFlagSet};
ghost use Rattle.group_checker.specs.Lists.{AreGroupLabels, HasItsList, IsFirstListFault, IsGroupOf, IsListRight, IsUsedBelow, IsUsedGroup};

use crate::verdict::AnyFault;
use cert_checker::tree_judge::{mark, unmarked};
use face_groups::{Group, ShortList, faces};
use mesh_shape::{Labels, Mesh};
use sight_names::{MOST_TRIANGLES, Memory, Plan};
use std::alloc::Global;

/// Whether the group is this list.
fn is_list(group: &Group, names: &[u16]) -> bool
    ensures { IsTrue result ↔ (group.now ≡ names.now) }
{
    group.as_slice() == names
}

/// Whether the group at this place is the list.
fn is_list_at(groups: &[Group], place: u16, names: &[u16]) -> bool
    ensures { IsTrue result ↔ (slice_get groups.now place ≡ Some names.now) }
{
    match groups.get(place as usize) {
        Some(group) => is_list(group, names),
        None => false,
    }
}

/// Whether the group with this label, if there is one, is the list.
fn is_group_of(groups: &[Group], label: Option<u16>, names: &[u16]) -> bool
    ensures { IsTrue result ↔ IsGroupOf groups.now label names.now }
{
    match label {
        Some(place) => is_list_at(groups, place, names),
        None => true,
    }
}

/// The least triangle whose label's group isn't the list that it has here.
fn first_other_list(groups: &[Group], labels: &Labels, lists: &[ShortList]) -> Option<u16>
    requires len { length lists.now ≡ length labels.now }
    requires few { length lists.now ≤ MOST_TRIANGLES }
    ensures { IsSearch (HasItsList groups.now labels.now lists.now) result }
{
    for (k, names) in lists.iter().enumerate() {
        let label = labels.get(k as u16);
        if !is_group_of(groups, label, names.as_slice()) {
            return Some(k as u16);
        }
    }
    None
}

/// A mark for each of so many groups that is a label.
fn used(alloc: Global, count: u16, labels: &[Option<u16>]) -> Result<Vec<bool>, Memory>
    ensures len { IfOk result (λ v. length v.items ≡ count) }
    ensures marks { IfOk result (λ v. (f : ℕ) → f < count → IsFlagSet v.items f ↔ IsUsedBelow (length labels.now) labels.now f) }
{
    let mut marks = unmarked(alloc, count)?;
    for label in labels {
        mark(marks.as_mut_slice(), *label);
    }
    Ok(marks)
}

/// The first flag that isn't set.
fn first_unmarked(marks: &[bool]) -> Option<u16>
    requires { length marks.now ≤ 65535 }
    ensures { IsSearch (λ f. f < length marks.now → IsFlagSet marks.now f) result }
{
    for (f, marked) in marks.iter().enumerate() {
        if !*marked {
            return Some(f as u16);
        }
    }
    None
}

/// The least of so many groups that is no triangle's label.
fn first_unused(alloc: Global, count: u16, labels: &[Option<u16>]) -> Result<Option<u16>, Memory>
    ensures { IfOk result (IsSearch (IsUsedGroup count labels.now)) }
{
    let marks = used(alloc, count, labels)?;
    Ok(first_unmarked(marks.as_slice()))
}

/// The least triangle whose group isn't the list of its face.
fn first_wrong_list(
    alloc: Global,
    plan: &Plan,
    groups: &[Group],
    mesh: &Mesh,
    labels: &Labels,
) -> Result<Option<u16>, Memory>
    requires labels { AreGroupLabels (length groups.now) mesh.now.triangles labels.now }
    requires plain { IsPlainMesh (map_of plan.now) mesh.now.triangles }
    ensures { IfOk result (IsSearch (IsListRight (map_of plan.now) mesh.now.triangles groups.now labels.now)) }
{
    let lists = faces(alloc, plan, mesh)?;
    let _ = mesh.triangles();
    Ok(first_other_list(groups, labels, lists.as_slice()))
}

/// The first fault of the groups: a triangle whose group isn't the list of its face, or else a group that no triangle has.
pub fn group_fault(
    alloc: Global,
    plan: &Plan,
    groups: &[Group],
    mesh: &Mesh,
    labels: &Labels,
) -> Result<Option<AnyFault>, Memory>
    requires few { length groups.now ≤ MOST_TRIANGLES }
    requires labels { AreGroupLabels (length groups.now) mesh.now.triangles labels.now }
    requires plain { IsPlainMesh (map_of plan.now) mesh.now.triangles }
    ensures { IfOk result (IsFirstListFault (map_of plan.now) mesh.now.triangles groups.now labels.now) }
{
    let other = first_wrong_list(alloc, plan, groups, mesh, labels)?;
    match other {
        Some(triangle) => Ok(Some(AnyFault::Group { triangle })),
        None => {
            let unused = first_unused(alloc, groups.len() as u16, labels.as_slice())?;
            match unused {
                Some(group) => Ok(Some(AnyFault::Unused { group })),
                None => Ok(None),
            }
        }
    }
}
