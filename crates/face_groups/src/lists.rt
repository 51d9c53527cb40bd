//! The list of each triangle: the sectors that sides name on its face.

ghost use Rattle.std.specs.Prelude.{◌≡◌, IfOk, length};
ghost use Rattle.sight_names.specs.Map.{map_of};
ghost use Rattle.sight_names.specs.Mesh.{IsPlainMesh};
ghost use Rattle.sight_names.specs.Order.{Ascends};
ghost use Rattle.face_groups.specs.Namings.{NamingBefore, AreListsOn};
ghost use Rattle.face_groups.specs.Verdict.{AreFaceNames};

use crate::namings::{Naming, namings_of, sectors_on};
use crate::short_list::ShortList;
use crate::tri_sectors::faces::{faces_of, walls_of};
use mesh_shape::Mesh;
use sight_names::{Items, Memory, Plan};
use std::alloc::Global;

/// The sectors of a group, ascending.
pub type Group = Items<u16>;

/// For each triangle the sectors that sides name on its face. Two triangles are on one face if a chain leads from the
/// one to the other across edges that are no lines.
pub fn faces(alloc: Global, plan: &Plan, mesh: &Mesh) -> Result<Vec<ShortList>, Memory>
    ensures len { IfOk result (λ v. length v.items ≡ length mesh.now.triangles) }
    ensures names { IsPlainMesh (map_of plan.now) mesh.now.triangles → IfOk result (λ v. AreFaceNames (map_of plan.now) mesh.now.triangles v.items) }
{
    let _ = plan.lines();
    let walls = walls_of(alloc, plan, mesh)?;
    let faces = faces_of(alloc, mesh, walls.as_slice())?;
    let namings = namings_of(alloc, plan, mesh, faces.as_slice())?;
    lists_on(alloc, namings.as_slice(), faces.as_slice())
}

/// The list of each face, in this order of faces.
fn lists_on(alloc: Global, namings: &[Naming], faces: &[u16]) -> Result<Vec<ShortList>, Memory>
    requires { Ascends NamingBefore namings.now }
    ensures { IfOk result (λ v. AreListsOn namings.now faces.now v.items) }
{
    let mut lists = Vec::new(alloc);
    for face in faces {
        let sectors = sectors_on(alloc, namings, *face)?;
        lists.push(ShortList::of(sectors))?;
    }
    Ok(lists)
}
