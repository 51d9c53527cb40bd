//! The first rule of a mesh that is broken, where a side has no triangle.

ghost use Rattle.std.specs.Prelude.{◌≡◌, IfOk, length};
ghost use Rattle.sight_names.specs.Map.{map_of};
ghost use Rattle.mesh_shape.specs.Faults.{IsFirstSideAgainst};
ghost use Rattle.mesh_shape.specs.Search.{IsSideSearch};
ghost use Rattle.group_checker.specs.Meshes.{HasTriangleAt, IsFirstMeshFault, earlier_of};

use cert_checker::tree_judge::unmarked;
use face_groups::tri_sectors::sides::first_open;
use mesh_shape::{Labels, Mesh, mesh_fault};
use sight_names::{Memory, MeshFault, Plan, Side};
use std::alloc::Global;

/// The least side that names a sector and has no triangle: an open one, where no face counts as open.
pub fn first_bare_side(alloc: Global, plan: &Plan, mesh: &Mesh) -> Result<Option<Side>, Memory>
    ensures { IfOk result (IsSideSearch (HasTriangleAt (map_of plan.now) mesh.now.triangles)) }
{
    let count = mesh.triangles().len() as u16;
    let faces = vec![in alloc; 0; count as usize]?;
    let marks = unmarked(alloc, count)?;
    Ok(first_open(plan, mesh, faces.as_slice(), marks.as_slice()))
}

/// The fault, if its rule comes before that on sides; else that this side has no triangle.
fn earlier(fault: MeshFault, side: Side) -> MeshFault
    ensures { result ≡ earlier_of fault side }
{
    match fault {
        MeshFault::Flat { triangle } => MeshFault::Flat { triangle },
        MeshFault::Twice { triangle } => MeshFault::Twice { triangle },
        MeshFault::NoMate { triangle } => MeshFault::NoMate { triangle },
        _ => MeshFault::NoTriangle { side },
    }
}

/// The first rule of a mesh that is broken, where this is the least side without a triangle. The rules before that one don't
/// speak of what sides name.
pub fn fault_with(alloc: Global, plan: &Plan, mesh: &Mesh, labels: &Labels, side: Side) -> MeshFault
    requires points { mesh.now.points ≡ length plan.now.points }
    requires one_each { length labels.now ≡ length mesh.now.triangles }
    requires bare { IsFirstSideAgainst (HasTriangleAt (map_of plan.now) mesh.now.triangles) side }
    ensures { IsFirstMeshFault (map_of plan.now) (map_of plan.now) mesh.now.triangles labels.now result }
{
    match mesh_fault(alloc, plan, mesh, labels) {
        Some(fault) => earlier(fault, side),
        None => MeshFault::NoTriangle { side },
    }
}
