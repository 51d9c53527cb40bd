//! The map of groups, with its faces.

ghost use Rattle.std.specs.Prelude.{IfErr, IfOk};
ghost use Rattle.sight_names.specs.Map.{map_of};
ghost use Rattle.sight_names.specs.Sound.{LinesMeetAtEnds};
ghost use Rattle.group_job.specs.Built.{IsOpenFace};
ghost use Rattle.group_job.specs.Grouped.{IsMapOfGroups};

use crate::faces::Faces;
use cert_format::cert_groups::Group;
use face_groups::{GroupFault, Grouped, group_map};
use sight_names::{Items, Plan};
use std::alloc::Global;
use triangulate::{Alone, SegmentWorkers, greedy_mesh_by};

/// The groups of a map, its map of groups, and the mesh of that with its labels.
#[derive(Drop)]
pub struct MapOfGroups {
    pub groups: Items<Group>,
    pub plan: Plan,
    pub faces: Faces,
}

/// The groups of a map whose lines meet at ends, and its map of groups, over its mesh.
///
/// # Errors
///
/// `Open` at the least side that names a sector and whose face reaches outside the convex hull of the points.
pub fn map_of_groups(alloc: Global, plan: &Plan) -> Result<MapOfGroups, GroupFault>
    requires audited { LinesMeetAtEnds (map_of plan.now) }
    ensures grouped { IfOk result (IsMapOfGroups plan.now) }
    ensures fault { IfErr result (IsOpenFace (map_of plan.now)) }
{
    map_of_groups_by(&Alone, alloc, plan)
}

/// The same, its mesh by these workers.
///
/// # Errors
///
/// As `map_of_groups`.
pub fn map_of_groups_by<W: SegmentWorkers>(
    workers: &W,
    alloc: Global,
    plan: &Plan,
) -> Result<MapOfGroups, GroupFault>
    requires can { W.can_work workers.now }
    requires audited { LinesMeetAtEnds (map_of plan.now) }
    ensures grouped { IfOk result (IsMapOfGroups plan.now) }
    ensures fault { IfErr result (IsOpenFace (map_of plan.now)) }
{
    let _ = plan.lines();
    let mesh = greedy_mesh_by(workers, alloc, plan)?;
    let Grouped {
        groups,
        plan: grouped,
        labels,
    } = group_map(alloc, plan, &mesh)?;
    Ok(MapOfGroups {
        groups,
        plan: grouped,
        faces: Faces { mesh, labels },
    })
}
