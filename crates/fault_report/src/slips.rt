//! Likely slips: lines of which no side names a sector, and sectors that no side names.

ghost use Rattle.std.specs.Prelude.{◌≡◌, ◌↔◌, IfOk, IsTrue, OnOk, false, length, map, slice_index_or};
ghost use Rattle.sight_names.specs.Map.{map_of};
ghost use Rattle.fault_report.specs.Slips.{AddsIf, AreJustNumbers, AreMarks, IsNameless, IsSideless, Marks, MarksBoth};

use sight_names::{Memory, Plan, Side};
use std::alloc::Global;

/// A line of which no side names a sector, by its record number.
#[derive(Clone, Copy)]
pub struct Sideless {
    pub line: u16,
}

/// A sector that no side names.
#[derive(Clone, Copy)]
pub struct Nameless {
    pub sector: u16,
}

/// Whether the record has a line of which no side names a sector.
fn is_sideless(plan: &Plan, i: u16) -> bool
    ensures { IsTrue result ↔ IsSideless plan.now i }
{
    match plan.line(i) {
        Some(line) => line.right.is_none() && line.left.is_none(),
        None => false,
    }
}

/// Adds the record, if that holds of it.
fn add_sideless(found: &mut Vec<Sideless>, i: u16, holds: bool) -> Result<(), Memory>
    ensures { OnOk result (AddsIf (IsTrue holds) i (map (λ (s : Sideless). s.line) found.old.items) (map (λ (s : Sideless). s.line) found.new.items)) }
{
    if holds {
        found.push(Sideless { line: i })?;
    }
    Ok(())
}

/// The lines of which no side names a sector.
pub fn sideless_of(alloc: Global, plan: &Plan) -> Result<Vec<Sideless>, Memory>
    ensures { IfOk result (λ v. AreJustNumbers (IsSideless plan.now) (length plan.now.lines) (map (λ (s : Sideless). s.line) v.items)) }
{
    let mut found = Vec::new(alloc);
    for i in 0..plan.lines().len() {
        add_sideless(&mut found, i as u16, is_sideless(plan, i as u16))?;
    }
    Ok(found)
}

/// Marks the sector, where there is one.
fn mark(marks: &mut [bool], sector: Option<u16>)
    ensures { Marks sector marks.old marks.new }
{
    let Some(a) = sector else {
        return;
    };
    if (a as usize) < marks.len() {
        marks[a as usize] = true;
    }
}

/// Marks the sectors that the sides of this record name.
fn mark_both(plan: &Plan, marks: &mut [bool], i: u16)
    ensures { MarksBoth (map_of plan.now) i marks.old marks.new }
{
    let right = Side {
        line: i,
        left: false,
    };
    mark(marks, plan.sector_at(right));
    let left = Side {
        line: i,
        left: true,
    };
    mark(marks, plan.sector_at(left));
}

/// Whether some side names each sector.
fn marks_of(alloc: Global, plan: &Plan) -> Result<Vec<bool>, Memory>
    ensures { IfOk result (λ v. AreMarks (map_of plan.now) (length plan.now.lines) v.items) }
{
    let mut marks = vec![in alloc; false; plan.sectors as usize]?;
    for i in 0..plan.lines().len() {
        mark_both(plan, marks.as_mut_slice(), i as u16);
    }
    Ok(marks)
}

/// Whether the sector is marked.
fn is_marked(marks: &[bool], a: u16) -> bool
    ensures { result ≡ slice_index_or marks.now a false }
{
    match marks.get(a as usize) {
        Some(mark) => *mark,
        None => false,
    }
}

/// Adds the sector, if that holds of it.
fn add_nameless(found: &mut Vec<Nameless>, a: u16, holds: bool) -> Result<(), Memory>
    ensures { OnOk result (AddsIf (IsTrue holds) a (map (λ (s : Nameless). s.sector) found.old.items) (map (λ (s : Nameless). s.sector) found.new.items)) }
{
    if holds {
        found.push(Nameless { sector: a })?;
    }
    Ok(())
}

/// The sectors that no side names.
pub fn nameless_of(alloc: Global, plan: &Plan) -> Result<Vec<Nameless>, Memory>
    ensures { IfOk result (λ v. AreJustNumbers (IsNameless (map_of plan.now)) plan.now.sectors (map (λ (s : Nameless). s.sector) v.items)) }
{
    let marks = marks_of(alloc, plan)?;
    let mut found = Vec::new(alloc);
    for a in 0..plan.sectors {
        add_nameless(&mut found, a, !is_marked(marks.as_slice(), a))?;
    }
    Ok(found)
}
