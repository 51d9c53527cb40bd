//! Loose ends: the points at which just one line ends.

ghost use Rattle.std.specs.Prelude.{◌≡◌, ◌<◌, ◌≢◌, IfOk, OnOk, length};
ghost use Rattle.map_faults.specs.LooseEnds.{AddsLoose, AreEnds, AreLooseEnds, NotesLine, NotesRecord, noted as noted_of};

use sight_names::{Line, Memory, Plan};
use std::alloc::Global;

/// A point at which just one line ends, and the line's record number.
#[derive(Clone, Copy)]
pub struct LooseEnd {
    pub point: u16,
    pub line: u16,
}

/// The lines that end at a point, as far as it matters.
#[derive(Clone, Copy)]
pub enum Ends {
    Nowhere,
    One(u16),
    More,
}

/// With one line more.
fn noted(ends: Ends, line: u16) -> Ends
    ensures { result ≡ noted_of line ends }
{
    match ends {
        Ends::Nowhere => Ends::One(line),
        _ => Ends::More,
    }
}

/// Notes the line at both its ends.
fn note_line(ends: &mut [Ends], number: u16, line: Line)
    requires first { line.a < length ends.old }
    requires second { line.b < length ends.old }
    requires differ { line.a ≢ line.b }
    ensures { NotesLine number line ends.old ends.new }
{
    ends[line.a as usize] = noted(ends[line.a as usize], number);
    ends[line.b as usize] = noted(ends[line.b as usize], number);
}

/// The same for a record of the plan.
fn note_record(plan: &Plan, ends: &mut [Ends], number: u16)
    requires { length ends.old ≡ length plan.now.points }
    ensures { NotesRecord plan.now number ends.old ends.new }
{
    if let Some(line) = plan.line(number) {
        note_line(ends, number, line);
    }
}

/// The lines that end at each point.
fn ends_of(alloc: Global, plan: &Plan) -> Result<Vec<Ends>, Memory>
    ensures { IfOk result (λ v. AreEnds plan.now v.items) }
{
    let mut ends = vec![in alloc; Ends::Nowhere; plan.points().len()]?;
    for number in 0..plan.lines().len() {
        note_record(plan, ends.as_mut_slice(), number as u16);
    }
    Ok(ends)
}

/// Adds the point, if just one line ends there.
fn add_if_loose(loose: &mut Vec<LooseEnd>, point: u16, ends: Ends) -> Result<(), Memory>
    ensures { OnOk result (AddsLoose point ends loose.old.items loose.new.items) }
{
    if let Ends::One(line) = ends {
        loose.push(LooseEnd { point, line })?;
    }
    Ok(())
}

/// The loose ends by what ends at each point.
fn loose_by(alloc: Global, plan: &Plan, ends: &[Ends]) -> Result<Vec<LooseEnd>, Memory>
    requires { AreEnds plan.now ends.now }
    ensures { IfOk result (λ v. AreLooseEnds plan.now v.items) }
{
    let _ = plan.points();
    let mut loose = Vec::new(alloc);
    for point in 0..ends.len() {
        add_if_loose(&mut loose, point as u16, ends[point])?;
    }
    Ok(loose)
}

/// The points at which just one line ends, ascending.
pub fn loose_ends_of(alloc: Global, plan: &Plan) -> Result<Vec<LooseEnd>, Memory>
    ensures { IfOk result (λ v. AreLooseEnds plan.now v.items) }
{
    let ends = ends_of(alloc, plan)?;
    loose_by(alloc, plan, ends.as_slice())
}
