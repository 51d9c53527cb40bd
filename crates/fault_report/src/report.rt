//! The whole report.

ghost use Rattle.std.specs.Prelude.{◌≡◌, IfOk, string_bytes};
ghost use Rattle.sight_names.specs.Map.{map_of};
ghost use Rattle.sight_names.specs.Sound.{LinesMeetAtEnds};
ghost use Rattle.map_faults.specs.Clashes.{AreFirstClashes};
ghost use Rattle.fault_report.specs.Clashes.{AreClashesTold};
ghost use Rattle.fault_report.specs.Report.{AreLooseTold, FacesTold, IsFaultReport};
ghost use Rattle.fault_report.specs.Slips.{AreNamelessTold, AreSidelessTold};

use crate::clashes::told_clashes;
use crate::faces::told_faces;
use crate::kinds::{push_each, push_kind, push_rest};
use crate::slips::{nameless_of, sideless_of};
use map_faults::{Clashes, clashes_of, loose_ends_of};
use row_spelling::Spelling;
use sight_names::{Memory, Plan};
use std::alloc::Global;

/// What is told of clashes.
fn clash_text(
    alloc: Global,
    plan: &Plan,
    spelling: Spelling,
    clashes: &Clashes,
) -> Result<String, Memory>
    requires { AreFirstClashes (map_of plan.now) clashes.now.first clashes.now.count }
    ensures { IfOk result (λ text. AreClashesTold spelling plan.now clashes.now.count (string_bytes text)) }
{
    let told = told_clashes(alloc, plan, clashes.first.as_slice())?;
    let mut text = String::new(alloc);
    push_each(alloc, plan, spelling, &mut text, told.as_slice())?;
    let rest = clashes.count.saturating_sub(told.len() as u64);
    push_rest(alloc, spelling, &mut text, rest, "clashes")?;
    Ok(text)
}

/// What is told of faces where so many pairs of lines clash: nothing where some do.
fn face_text(alloc: Global, plan: &Plan, spelling: Spelling, count: u64) -> Result<String, Memory>
    requires { count ≡ 0 → LinesMeetAtEnds (map_of plan.now) }
    ensures { IfOk result (λ text. FacesTold spelling plan.now count (string_bytes text)) }
{
    if count == 0 {
        return told_faces(alloc, plan, spelling);
    }
    Ok(String::new(alloc))
}

/// What is told of loose ends.
fn loose_text(alloc: Global, plan: &Plan, spelling: Spelling) -> Result<String, Memory>
    ensures { IfOk result (λ text. AreLooseTold spelling plan.now (string_bytes text)) }
{
    let ends = loose_ends_of(alloc, plan)?;
    let mut text = String::new(alloc);
    push_kind(
        alloc,
        plan,
        spelling,
        &mut text,
        ends.as_slice(),
        "loose ends",
    )?;
    Ok(text)
}

/// What is told of lines without a side.
fn sideless_text(alloc: Global, plan: &Plan, spelling: Spelling) -> Result<String, Memory>
    ensures { IfOk result (λ text. AreSidelessTold spelling plan.now (string_bytes text)) }
{
    let lines = sideless_of(alloc, plan)?;
    let mut text = String::new(alloc);
    push_kind(
        alloc,
        plan,
        spelling,
        &mut text,
        lines.as_slice(),
        "lines without a side",
    )?;
    Ok(text)
}

/// What is told of sectors without a side.
fn nameless_text(alloc: Global, plan: &Plan, spelling: Spelling) -> Result<String, Memory>
    ensures { IfOk result (λ text. AreNamelessTold spelling plan.now (string_bytes text)) }
{
    let sectors = nameless_of(alloc, plan)?;
    let mut text = String::new(alloc);
    push_kind(
        alloc,
        plan,
        spelling,
        &mut text,
        sectors.as_slice(),
        "sectors without a side",
    )?;
    Ok(text)
}

/// Every fault of a map, each at its place, a line a fault, and likely slips. Of each kind the first `MOST_LINES` have lines, and
/// the others are counted.
pub fn report_of_faults(alloc: Global, plan: &Plan, spelling: Spelling) -> Result<String, Memory>
    ensures { IfOk result (λ text. IsFaultReport spelling plan.now (string_bytes text)) }
{
    let clashes = clashes_of(alloc, plan)?;
    let mut text = clash_text(alloc, plan, spelling, &clashes)?;
    text.push_str(&face_text(alloc, plan, spelling, clashes.count)?)?;
    text.push_str(&loose_text(alloc, plan, spelling)?)?;
    text.push_str(&sideless_text(alloc, plan, spelling)?)?;
    text.push_str(&nameless_text(alloc, plan, spelling)?)?;
    Ok(text)
}
