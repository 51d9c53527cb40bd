//! The line of each fault, in words.

ghost use Rattle.std.specs.Prelude.{◌≡◌, ◌++◌, OnOk, string_bytes};
ghost use Rattle.fault_report.specs.Lines.{clash_line, clash_words, gap_line, loose_line, nameless_line, open_line, place_text, sector_text, sideless_line, tear_line, two};

use crate::clashes::Clash;
use crate::slips::{Nameless, Sideless};
use crate::words::{push_ends, push_index, push_point, push_side, push_spot, push_text, push_way};
use map_faults::{Gap, LooseEnd, Tear};
use sight_names::{LineFault, Plan, Side};
use std::alloc::{AllocError, Global};

/// Adds a text and two numbers with a blank between them.
fn push_two(alloc: Global, text: &mut String, word: &str, i: u16, j: u16) -> Result<(), AllocError>
    ensures { OnOk result (string_bytes text.new ≡ string_bytes text.old ++ (word.now ++ two i j)) }
{
    push_index(alloc, text, word, i)?;
    push_index(alloc, text, " ", j)
}

/// Adds what two lines share.
fn push_fault(alloc: Global, text: &mut String, fault: LineFault) -> Result<(), AllocError>
    ensures { OnOk result (string_bytes text.new ≡ string_bytes text.old ++ clash_words fault) }
{
    match fault {
        LineFault::Cross { i, j } => push_two(alloc, text, "cross ", i, j),
        LineFault::Touch { i, j } => push_two(alloc, text, "touch ", i, j),
        LineFault::Overlap { i, j } => push_two(alloc, text, "overlap ", i, j),
    }
}

/// Adds where a pair meets: the point, or where the first line goes.
fn push_place(
    alloc: Global,
    plan: &Plan,
    text: &mut String,
    clash: &Clash,
) -> Result<(), AllocError>
    ensures { OnOk result (string_bytes text.new ≡ string_bytes text.old ++ place_text plan.now clash.now.pair clash.now.at) }
{
    match clash.at {
        Some(at) => push_point(alloc, text, " at ", at),
        None => push_ends(alloc, plan, text, clash.pair.i),
    }
}

/// Adds the line of a pair that clashes.
pub fn push_clash(
    alloc: Global,
    plan: &Plan,
    text: &mut String,
    clash: &Clash,
) -> Result<(), AllocError>
    ensures { OnOk result (string_bytes text.new ≡ string_bytes text.old ++ clash_line plan.now clash.now) }
{
    push_fault(alloc, text, clash.fault)?;
    push_place(alloc, plan, text, clash)?;
    text.push_str("\n")
}

/// Adds the sector that a side names.
fn push_sector(alloc: Global, text: &mut String, sector: Option<u16>) -> Result<(), AllocError>
    ensures { OnOk result (string_bytes text.new ≡ string_bytes text.old ++ sector_text sector) }
{
    match sector {
        Some(a) => push_index(alloc, text, " of sector ", a),
        None => text.push_str(""),
    }
}

/// Adds the line of an open side.
pub fn push_open(
    alloc: Global,
    plan: &Plan,
    text: &mut String,
    side: Side,
) -> Result<(), AllocError>
    ensures { OnOk result (string_bytes text.new ≡ string_bytes text.old ++ open_line plan.now side) }
{
    push_side(alloc, text, "open ", side)?;
    push_sector(alloc, text, plan.sector_at(side))?;
    push_ends(alloc, plan, text, side.line)?;
    text.push_str("\n")
}

/// Adds the line of a torn corner.
pub fn push_tear(
    alloc: Global,
    plan: &Plan,
    text: &mut String,
    tear: &Tear,
) -> Result<(), AllocError>
    ensures { OnOk result (string_bytes text.new ≡ string_bytes text.old ++ tear_line plan.now tear.now) }
{
    push_spot(alloc, plan, text, "torn corner at ", tear.point)?;
    push_side(alloc, text, " by ", tear.side)?;
    push_text(text, "\n")
}

/// Adds the line of a gap.
pub fn push_gap(alloc: Global, plan: &Plan, text: &mut String, gap: &Gap) -> Result<(), AllocError>
    ensures { OnOk result (string_bytes text.new ≡ string_bytes text.old ++ gap_line plan.now gap.now) }
{
    text.push_str("gap")?;
    push_way(alloc, plan, text, gap.from, gap.to)?;
    text.push_str("\n")
}

/// Adds the line of a loose end.
pub fn push_loose(
    alloc: Global,
    plan: &Plan,
    text: &mut String,
    end: &LooseEnd,
) -> Result<(), AllocError>
    ensures { OnOk result (string_bytes text.new ≡ string_bytes text.old ++ loose_line plan.now end.now) }
{
    push_spot(alloc, plan, text, "loose end at ", end.point)?;
    push_index(alloc, text, " of line ", end.line)?;
    push_text(text, "\n")
}

/// Adds the line of a line without a side.
pub fn push_sideless(
    alloc: Global,
    plan: &Plan,
    text: &mut String,
    slip: &Sideless,
) -> Result<(), AllocError>
    ensures { OnOk result (string_bytes text.new ≡ string_bytes text.old ++ sideless_line plan.now slip.now) }
{
    push_index(alloc, text, "slip: line ", slip.line)?;
    text.push_str(" has no side")?;
    push_ends(alloc, plan, text, slip.line)?;
    text.push_str("\n")
}

/// Adds the line of a sector without a side.
pub fn push_nameless(
    alloc: Global,
    plan: &Plan,
    text: &mut String,
    slip: &Nameless,
) -> Result<(), AllocError>
    ensures { OnOk result (string_bytes text.new ≡ string_bytes text.old ++ nameless_line plan.now slip.now) }
{
    push_index(alloc, text, "slip: sector ", slip.sector)?;
    push_text(text, " has no side\n")
}
