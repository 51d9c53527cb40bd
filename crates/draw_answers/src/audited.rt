//! The audit of a map that is drawn.

ghost use Rattle.std.specs.Prelude.{◌≡◌, IfErr, IfOk, length};
ghost use Rattle.sight_names.specs.Map.{map_of};
ghost use Rattle.map_answers.specs.Groups.{AreGroupsOverPlan};
ghost use Rattle.map_answers.specs.Sound.{HasSoundLines, IsAuditRefusal};

use map_answers::sight_status::Status;
use map_answers::{MeshGroups, audit_map};
use sight_names::Plan;
use std::alloc::Global;

/// How many sectors the plan has.
pub fn count_of(plan: &Plan) -> u16
    ensures { result ≡ plan.now.sectors }
{
    plan.sectors
}

/// The whole audit of a map, and its groups; their mesh is one over the points of the map, too.
pub fn groups_of(alloc: Global, plan: &Plan) -> Result<MeshGroups, Status>
    ensures lines { IfOk result (λ _. HasSoundLines (map_of plan.now)) }
    ensures groups { IfOk result (AreGroupsOverPlan plan.now) }
    ensures points { IfOk result (λ groups. groups.mesh.points ≡ length plan.now.points) }
    ensures refusals { IfErr result (IsAuditRefusal (map_of plan.now)) }
{
    let groups = audit_map(alloc, plan)?;
    let _ = groups.grouped.plan.points();
    Ok(groups)
}
