//! The audit of the lines of a map.

ghost use Rattle.std.specs.Prelude.{IfErr, OnOk};
ghost use Rattle.sight_names.specs.Map.{map_of};
ghost use Rattle.map_answers.specs.Sound.{HasSoundLines, IsLineRefusal};

use crate::sight_status::{Flaw, Status};
use map_audit::audit_lines;
use sight_names::Plan;
use std::alloc::Global;

/// Whether the lines of the map meet at ends alone.
pub fn audit_lines_of(alloc: Global, plan: &Plan) -> Result<(), Status>
    ensures sound { OnOk result (HasSoundLines (map_of plan.now)) }
    ensures clash { IfErr result (IsLineRefusal (map_of plan.now)) }
{
    match audit_lines(alloc, plan) {
        Ok(()) => Ok(()),
        Err(fault) => Err(Status::BadMap(Flaw::Line(fault))),
    }
}
