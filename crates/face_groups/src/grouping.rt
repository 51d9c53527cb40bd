//! The groups of a map and its map of groups, from its mesh.

ghost use Rattle.std.specs.Prelude.{◌≡◌, ◌≤◌, All, IfOk, length};
ghost use Rattle.sight_names.specs.Map.{map_of};
ghost use Rattle.sight_names.specs.Mesh.{IsPlainMesh};
ghost use Rattle.sight_names.specs.Plan.{IsPlan};
ghost use Rattle.mesh_shape.specs.Fills.{FillsSides};
ghost use Rattle.face_groups.specs.TriSectors.Classes.{IsBelow};
ghost use Rattle.face_groups.specs.TriSectors.Faces.{AreMarkedFaces};
ghost use Rattle.face_groups.specs.Verdict.{IsGroupedVerdict, IsGroupsVerdict};

use crate::fault::GroupFault;
use crate::lists::Group;
use crate::namings::namings_of;
use crate::numbering::{LabelledGroups, labelled_groups};
use crate::regrouping::regrouped_map;
use crate::tri_sectors::faces::{faces_of, open_faces, walls_of};
use crate::tri_sectors::sides::first_open;
use mesh_shape::{Labels, Mesh};
use sight_names::{Items, Plan};
use std::alloc::Global;

/// The groups of a map in order, the map of groups, and the label of each triangle for it: the place of a group, None
/// where no side of the triangle's face names a sector.
#[derive(Drop)]
pub struct Grouped {
    pub groups: Items<Group>,
    pub plan: Plan,
    pub labels: Labels,
}

/// The groups of a map whose lines meet at ends, over its mesh.
///
/// # Errors
///
/// `Open` at the least side that names a sector and whose face reaches outside the convex hull of the points.
pub fn group_map(alloc: Global, plan: &Plan, mesh: &Mesh) -> Result<Grouped, GroupFault>
    ensures len { IfOk result (λ g. length g.labels ≡ length mesh.now.triangles) }
    ensures points { IfOk result (λ g. g.plan.points ≡ plan.now.points) }
    ensures sectors { IfOk result (λ g. g.plan.sectors ≡ length g.groups) }
    ensures few { IfOk result (λ g. length g.groups ≤ length mesh.now.triangles) }
    ensures verdict { IsPlainMesh (map_of plan.now) mesh.now.triangles → FillsSides (map_of plan.now) mesh.now.triangles → IsGroupsVerdict (map_of plan.now) mesh.now.triangles result }
{
    let walls = walls_of(alloc, plan, mesh)?;
    let faces = faces_of(alloc, mesh, walls.as_slice())?;
    let marks = open_faces(alloc, mesh, walls.as_slice(), faces.as_slice())?;
    group_faces(alloc, plan, mesh, faces.as_slice(), marks.as_slice())
}

/// The same, where the faces are known and the open ones marked.
fn group_faces(
    alloc: Global,
    plan: &Plan,
    mesh: &Mesh,
    faces: &[u16],
    marks: &[bool],
) -> Result<Grouped, GroupFault>
    requires marked { AreMarkedFaces (map_of plan.now) mesh.now.triangles faces.now marks.now }
    requires range { All (IsBelow (length mesh.now.triangles)) faces.now }
    ensures plan { IsPlan plan.now }
    ensures verdict { IsGroupedVerdict plan.now mesh.now.triangles faces.now marks.now result }
{
    if let Some(side) = first_open(plan, mesh, faces, marks) {
        return Err(GroupFault::Open { side });
    }
    let count = mesh.triangles().len() as u16;
    let namings = namings_of(alloc, plan, mesh, faces)?;
    let LabelledGroups { groups, labels } = labelled_groups(
        alloc,
        namings.as_slice(),
        faces,
        count,
    )?;
    let plan = regrouped_map(alloc, plan, mesh, labels.as_slice(), groups.len() as u16)?;
    Ok(Grouped {
        groups: Items::of(groups),
        plan,
        labels: Labels::of(labels),
    })
}
