//! The maps of groups that walks go over.

ghost use Rattle.std.specs.Prelude.{IfOk};
ghost use Rattle.group_job.specs.Faces.{AreFacesOf};

use group_job::{MapOfGroups, map_of_groups};
use map_audit::audit_lines;
use sight_names::Plan;
use std::alloc::Global;
use std::test::Fail;
use worked_maps::files::plan_named;

/// The map of groups of a map whose lines meet at ends and whose faces are closed.
pub fn groups_of(alloc: Global, plan: &Plan) -> Result<MapOfGroups, Fail>
    ensures { IfOk result (λ m. AreFacesOf m.plan m.faces) }
{
    let Ok(()) = audit_lines(alloc, plan) else {
        return Err("lines don't meet at ends".into());
    };
    let Ok(map) = map_of_groups(alloc, plan) else {
        return Err("a face is open".into());
    };
    Ok(map)
}

/// The same of the worked map of this name.
pub fn groups_named(alloc: Global, name: &str) -> Result<MapOfGroups, Fail>
    ensures { IfOk result (λ m. AreFacesOf m.plan m.faces) }
{
    let plan = plan_named(alloc, name)?;
    groups_of(alloc, &plan)
}
