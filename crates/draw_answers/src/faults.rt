//! The picture of a map's faults.

ghost use Rattle.std.specs.Prelude.{◌≡◌, IfErr, IfOk, List, ℕ, length, ⊤};
ghost use Rattle.sight_names.specs.Map.{map_of};
ghost use Rattle.map_answers.specs.declared.sight_status.status.Status.TheVariants as status;
ghost use Rattle.map_answers.specs.Groups.{AreGroupsOverPlan, seen};
ghost use Rattle.map_answers.specs.Sound.{IsAuditRefusal};
ghost use Rattle.map_answers.specs.SightStatus.Answer.{GivesCalled};
ghost use Rattle.draw_answers.specs.Drawn.{drawing, drawn_answer};
ghost use Rattle.draw_answers.specs.Faults.{AreMarksOf, DrawFaultsCalls, ShowsFlaw, flaw_drawing, plain_drawing};

use crate::audited::groups_of;
use crate::drawn::{Drawn, made};
use crate::lines::{fault_line, no_fault_line};
use crate::plan::faces_alone;
use fault_marks::{FaultMarks, marks_of_clashes, marks_of_open_faces};
use map_answers::MeshGroups;
use map_answers::sight_status::{Flaw, Status};
use map_picture::{Named, marked_picture};
use sight_names::{Memory, Plan};
use std::alloc::Global;

/// What is marked of a map that its audit refuses by this flaw.
fn marks_of(alloc: Global, plan: &Plan, which: Flaw) -> Result<FaultMarks, Memory>
    requires { IsAuditRefusal (map_of plan.now) (status.BadMap which) }
    ensures { IfOk result (AreMarksOf (map_of plan.now) which) }
{
    match which {
        Flaw::Line(_) => marks_of_clashes(alloc, plan),
        Flaw::Open(_) => marks_of_open_faces(alloc, plan),
    }
}

/// The plan with these marks, and the line of the fault.
fn drawn_marks(
    alloc: Global,
    plan: &Plan,
    map: &Named<'_>,
    which: Flaw,
    marks: &FaultMarks,
) -> Result<Drawn, Memory>
    ensures { IfOk result (λ d. drawing d ≡ flaw_drawing map.now (map_of plan.now) which marks.now) }
{
    let lines = marks.lines.as_slice();
    let faults = marks.faults.as_slice();
    let arrows = marks.arrows.as_slice();
    let picture = marked_picture(alloc, map, plan, marks.left_out, lines, faults, arrows)?;
    let line = fault_line(alloc, map.text, which)?;
    Ok(Drawn { picture, line })
}

/// The plan with its faults marked, and the line of the first one.
fn drawn_fault(alloc: Global, plan: &Plan, map: &Named<'_>, which: Flaw) -> Result<Drawn, Memory>
    requires { IsAuditRefusal (map_of plan.now) (status.BadMap which) }
    ensures { IfOk result (λ d. ShowsFlaw map.now (map_of plan.now) which (drawing d)) }
{
    let marks = marks_of(alloc, plan, which)?;
    drawn_marks(alloc, plan, map, which, &marks)
}

/// The plan alone, and the line of a map without a fault.
fn drawn_plain(
    alloc: Global,
    plan: &Plan,
    groups: &MeshGroups,
    map: &Named<'_>,
) -> Result<Drawn, Memory>
    requires groups { AreGroupsOverPlan plan.now groups.now }
    requires points { groups.now.mesh.points ≡ length plan.now.points }
    ensures { IfOk result (λ d. drawing d ≡ plain_drawing map.now (map_of plan.now) (seen groups.now)) }
{
    let picture = faces_alone(alloc, plan, groups, map)?;
    let line = no_fault_line(alloc, map.text)?;
    Ok(Drawn { picture, line })
}

/// The plan of a map that its audit refuses so.
fn drawn_refused(
    alloc: Global,
    plan: &Plan,
    map: &Named<'_>,
    refusal: Status,
) -> Result<Drawn, Status>
    requires { IsAuditRefusal (map_of plan.now) refusal }
    ensures judged { (out : List ℕ) → GivesCalled ⊤ (DrawFaultsCalls map.now out (map_of plan.now)) (drawn_answer out result) }
    ensures refusals { IfErr result (λ s. s ≡ status.Memory tt) }
{
    match refusal {
        Status::BadMap(which) => made(drawn_fault(alloc, plan, map, which)),
        Status::Memory(memory) => Err(Status::Memory(memory)),
        // an audit refuses by a fault of the map or by want of memory
        _ => unreachable!(),
    }
}

/// The picture of any map's plan, in which its faults are marked: the first thousand pairs of lines that clash, or where none do the
/// open sides, the torn corners with the ways round them, and the loose ends. The line is of the fault that an audit tells.
pub fn draw_faults(alloc: Global, plan: &Plan, map: &Named<'_>) -> Result<Drawn, Status>
    ensures judged { (out : List ℕ) → GivesCalled ⊤ (DrawFaultsCalls map.now out (map_of plan.now)) (drawn_answer out result) }
    ensures refusals { IfErr result (λ s. s ≡ status.Memory tt) }
{
    match groups_of(alloc, plan) {
        Ok(groups) => made(drawn_plain(alloc, plan, &groups, map)),
        Err(refusal) => drawn_refused(alloc, plan, map, refusal),
    }
}
