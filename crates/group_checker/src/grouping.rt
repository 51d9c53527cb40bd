//! The map of groups and its mesh, by triangles that have groups.

ghost use Rattle.std.specs.Prelude.{◌≡◌, ◌≤◌, ◌<◌, All, IfOk, length};
ghost use Rattle.sight_names.specs.Map.{map_of};
ghost use Rattle.sight_names.specs.Mesh.{AreTriangles};
ghost use Rattle.sight_names.specs.Plan.{IsPlan};
ghost use Rattle.sight_names.specs.declared.names.Side.{Side as SideOf};
ghost use Rattle.cert_checker.specs.Apart.{triangles_in, labels_in};
ghost use Rattle.group_checker.specs.Grouping.{TellsGrouping};
ghost use Rattle.group_checker.specs.Lists.{AreGroupLabels};
ghost use Rattle.group_checker.specs.Meshes.{HasTriangleAt};

use crate::lists::group_fault;
use crate::meshes::{fault_with, first_bare_side};
use crate::verdict::AnyFault;
use cert_checker::mesh_over;
use cert_format::Labelled;
use face_groups::{Group, regrouped_map};
use mesh_shape::{Labels, Mesh, mesh_fault};
use sight_names::{CheckFault, MOST_TRIANGLES, Memory, Plan};
use std::alloc::Global;

/// The map of groups, a good mesh of it, and the groups of the triangles.
#[derive(Drop)]
pub struct GroupedMesh {
    pub plan: Plan,
    pub mesh: Mesh,
    pub labels: Labels,
}

/// The triangles are a good mesh of the map of groups, and the groups are those of the faces; or the first fault of mesh and
/// groups.
#[derive(Drop)]
pub enum MeshVerdict {
    Good(GroupedMesh),
    Broken(AnyFault),
}

/// Judges the mesh where each side that names a sector has its triangle, and then the groups.
fn judge_sided(
    alloc: Global,
    plan: &Plan,
    groups: &[Group],
    mesh: Mesh,
    labels: Labels,
) -> Result<MeshVerdict, Memory>
    requires plan { IsPlan plan.now }
    requires points { mesh.points ≡ length plan.now.points }
    requires few { length groups.now ≤ MOST_TRIANGLES }
    requires labels { AreGroupLabels (length groups.now) mesh.triangles labels }
    requires sides { (s : SideOf) → HasTriangleAt (map_of plan.now) mesh.triangles s }
    ensures { IfOk result (TellsGrouping plan.now mesh.triangles labels groups.now) }
{
    let grouped = regrouped_map(alloc, plan, &mesh, labels.as_slice(), groups.len() as u16)?;
    if let Some(fault) = mesh_fault(alloc, &grouped, &mesh, &labels) {
        return Ok(MeshVerdict::Broken(AnyFault::Check(CheckFault::Mesh(fault))));
    }
    let fault = group_fault(alloc, plan, groups, &mesh, &labels)?;
    match fault {
        Some(fault) => Ok(MeshVerdict::Broken(fault)),
        None => Ok(MeshVerdict::Good(GroupedMesh {
            plan: grouped,
            mesh,
            labels,
        })),
    }
}

/// Judges triangles whose sectors are places of groups: the map of groups with these triangles as its mesh, or the first fault
/// of mesh and groups.
pub fn judge_mesh(
    alloc: Global,
    plan: &Plan,
    labelled: &[Labelled],
    groups: &[Group],
) -> Result<MeshVerdict, Memory>
    requires triangles { AreTriangles (length plan.now.points) (triangles_in labelled.now) }
    requires few { length labelled.now ≤ MOST_TRIANGLES }
    requires few_groups { length groups.now ≤ MOST_TRIANGLES }
    requires sectors { All (λ one. one.sector < length groups.now) labelled.now }
    ensures { IfOk result (TellsGrouping plan.now (triangles_in labelled.now) (labels_in labelled.now) groups.now) }
{
    let (mesh, labels) = mesh_over(alloc, plan, labelled)?;
    let bare = first_bare_side(alloc, plan, &mesh)?;
    match bare {
        Some(side) => {
            let fault = fault_with(alloc, plan, &mesh, &labels, side);
            Ok(MeshVerdict::Broken(AnyFault::Check(CheckFault::Mesh(fault))))
        }
        None => judge_sided(alloc, plan, groups, mesh, labels),
    }
}
