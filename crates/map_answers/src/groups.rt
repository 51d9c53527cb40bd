//! The audit of a map whose faces may have several names: its lines, then whether its faces are closed; and its groups.

ghost use Rattle.std.specs.Prelude.{◌≡◌, IfErr, IfOk, length};
ghost use Rattle.sight_names.specs.Map.{map_of};
ghost use Rattle.sight_names.specs.Mesh.{IsMeshOf, IsPlainMesh};
ghost use Rattle.sight_names.specs.Sound.{LinesMeetAtEnds};
ghost use Rattle.mesh_shape.specs.Fills.{FillsSides};
ghost use Rattle.map_answers.specs.Groups.{AreGroupsOverPlan, IsClosedRefusal};
ghost use Rattle.map_answers.specs.Sound.{HasSoundLines, IsAuditRefusal};

use crate::sight_status::{Flaw, Status};
use crate::sound::audit_lines_of;
use face_groups::{GroupFault, Grouped, group_map};
use mesh_shape::Mesh;
use sight_names::{Memory, Plan};
use std::alloc::Global;
use triangulate::greedy_mesh;

/// The mesh of a map, and the groups of sectors to which its faces belong, with the map of groups.
#[derive(Drop)]
pub struct MeshGroups {
    pub mesh: Mesh,
    pub grouped: Grouped,
}

/// The groups of a map whose lines meet at ends, over this mesh of it.
fn groups_over(alloc: Global, plan: &Plan, mesh: Mesh) -> Result<MeshGroups, Status>
    requires audited { LinesMeetAtEnds (map_of plan.now) }
    requires points { mesh.points ≡ length plan.now.points }
    requires mesh { IsMeshOf (map_of plan.now) mesh.triangles }
    requires plain { IsPlainMesh (map_of plan.now) mesh.triangles }
    requires fills { FillsSides (map_of plan.now) mesh.triangles }
    ensures groups { IfOk result (AreGroupsOverPlan plan.now) }
    ensures refusals { IfErr result (IsClosedRefusal (map_of plan.now)) }
{
    let _lines = plan.lines();
    match group_map(alloc, plan, &mesh) {
        Ok(grouped) => Ok(MeshGroups { mesh, grouped }),
        Err(GroupFault::Open { side }) => Err(Status::BadMap(Flaw::Open(side))),
        Err(GroupFault::Memory(ref memory)) => Err(Status::Memory(*memory)),
    }
}

/// The groups of a map whose lines meet at ends, exactly where each of its faces is closed.
pub fn audit_groups(alloc: Global, plan: &Plan) -> Result<MeshGroups, Status>
    requires { LinesMeetAtEnds (map_of plan.now) }
    ensures groups { IfOk result (AreGroupsOverPlan plan.now) }
    ensures refusals { IfErr result (IsClosedRefusal (map_of plan.now)) }
{
    match greedy_mesh(alloc, plan) {
        Ok(mesh) => groups_over(alloc, plan, mesh),
        Err(memory) => Err(Status::Memory(memory)),
    }
}

/// The whole audit of a map, and its groups.
pub fn audit_map(alloc: Global, plan: &Plan) -> Result<MeshGroups, Status>
    ensures lines { IfOk result (λ _. HasSoundLines (map_of plan.now)) }
    ensures groups { IfOk result (AreGroupsOverPlan plan.now) }
    ensures refusals { IfErr result (IsAuditRefusal (map_of plan.now)) }
{
    audit_lines_of(alloc, plan)?;
    audit_groups(alloc, plan)
}
