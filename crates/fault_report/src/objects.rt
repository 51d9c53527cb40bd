//! The line of each fault, as a JSON object.

ghost use Rattle.std.specs.Prelude.{◌≡◌, ◌++◌, OnOk, string_bytes};
ghost use Rattle.std.specs.Fmt.{decimal, signed_decimal};
ghost use Rattle.fault_report.specs.Json.{at_json, clash_json, clash_member, ends_json, gap_json, loose_json, nameless_json, open_json, place_json, rest_json, sector_json, side_json, sideless_json, tear_json, two_json, way_json};

use crate::clashes::Clash;
use crate::slips::{Nameless, Sideless};
use crate::words::{push_count, push_index, push_side, push_signed, push_text, spot_of};
use map_faults::{Gap, LooseEnd, Tear};
use sight_names::{LineFault, Plan, Pt, Side};
use std::alloc::{AllocError, Global};

/// Adds a point.
#[tactic(auto, unfolding(crate::specs::Json::at_json))]
fn push_at(alloc: Global, text: &mut String, p: Pt) -> Result<(), AllocError>
    ensures { OnOk result (string_bytes text.new ≡ string_bytes text.old ++ at_json p) }
{
    push_signed(alloc, text, "[", p.x)?;
    push_signed(alloc, text, ",", p.y)?;
    push_text(text, "]")
}

/// Adds a text and a point.
fn push_member_at(alloc: Global, text: &mut String, word: &str, p: Pt) -> Result<(), AllocError>
    ensures { OnOk result (string_bytes text.new ≡ string_bytes text.old ++ (word.now ++ at_json p)) }
{
    push_text(text, word)?;
    push_at(alloc, text, p)
}

/// Adds from where to where one goes who goes between the points with these numbers.
#[tactic(auto, unfolding(crate::specs::Json::way_json))]
fn push_way(
    alloc: Global,
    plan: &Plan,
    text: &mut String,
    from: u16,
    to: u16,
) -> Result<(), AllocError>
    ensures { OnOk result (string_bytes text.new ≡ string_bytes text.old ++ way_json plan.now from to) }
{
    push_member_at(alloc, text, ",\"from\":", spot_of(plan, from))?;
    push_member_at(alloc, text, ",\"to\":", spot_of(plan, to))
}

/// Adds from where to where the line of this record goes; nothing where it has none.
#[tactic(auto, unfolding(crate::specs::Json::ends_json))]
fn push_ends(alloc: Global, plan: &Plan, text: &mut String, i: u16) -> Result<(), AllocError>
    ensures { OnOk result (string_bytes text.new ≡ string_bytes text.old ++ ends_json plan.now i) }
{
    match plan.line(i) {
        Some(line) => push_way(alloc, plan, text, line.a, line.b),
        None => text.push_str(""),
    }
}

/// Adds a text and a side.
#[tactic(auto, unfolding(crate::specs::Json::side_json))]
fn push_member_side(
    alloc: Global,
    text: &mut String,
    word: &str,
    side: Side,
) -> Result<(), AllocError>
    ensures { OnOk result (string_bytes text.new ≡ string_bytes text.old ++ (word.now ++ side_json side)) }
{
    push_text(text, word)?;
    push_side(alloc, text, "\"", side)?;
    push_text(text, "\"")
}

/// Adds two numbers.
#[tactic(auto, unfolding(crate::specs::Json::two_json))]
fn push_two(alloc: Global, text: &mut String, i: u16, j: u16) -> Result<(), AllocError>
    ensures { OnOk result (string_bytes text.new ≡ string_bytes text.old ++ two_json i j) }
{
    push_index(alloc, text, "[", i)?;
    push_index(alloc, text, ",", j)?;
    push_text(text, "]")
}

/// Adds a text and two numbers.
fn push_lines(
    alloc: Global,
    text: &mut String,
    word: &str,
    i: u16,
    j: u16,
) -> Result<(), AllocError>
    ensures { OnOk result (string_bytes text.new ≡ string_bytes text.old ++ (word.now ++ two_json i j)) }
{
    push_text(text, word)?;
    push_two(alloc, text, i, j)
}

/// Adds what two lines share.
fn push_fault(alloc: Global, text: &mut String, fault: LineFault) -> Result<(), AllocError>
    ensures { OnOk result (string_bytes text.new ≡ string_bytes text.old ++ clash_member fault) }
{
    match fault {
        LineFault::Cross { i, j } => push_lines(alloc, text, "\"cross\",\"lines\":", i, j),
        LineFault::Touch { i, j } => push_lines(alloc, text, "\"touch\",\"lines\":", i, j),
        LineFault::Overlap { i, j } => push_lines(alloc, text, "\"overlap\",\"lines\":", i, j),
    }
}

/// Adds where a pair meets: the point, or where the first line goes.
fn push_place(
    alloc: Global,
    plan: &Plan,
    text: &mut String,
    clash: &Clash,
) -> Result<(), AllocError>
    ensures { OnOk result (string_bytes text.new ≡ string_bytes text.old ++ place_json plan.now clash.now.pair clash.now.at) }
{
    match clash.at {
        Some(at) => push_member_at(alloc, text, ",\"at\":", at),
        None => push_ends(alloc, plan, text, clash.pair.i),
    }
}

/// Adds the object of a pair that clashes.
pub fn push_clash(
    alloc: Global,
    plan: &Plan,
    text: &mut String,
    clash: &Clash,
) -> Result<(), AllocError>
    ensures { OnOk result (string_bytes text.new ≡ string_bytes text.old ++ clash_json plan.now clash.now) }
{
    push_text(text, "{\"fault\":")?;
    push_fault(alloc, text, clash.fault)?;
    push_place(alloc, plan, text, clash)?;
    push_text(text, "}\n")
}

/// Adds the sector that a side names.
fn push_sector(alloc: Global, text: &mut String, sector: Option<u16>) -> Result<(), AllocError>
    ensures { OnOk result (string_bytes text.new ≡ string_bytes text.old ++ sector_json sector) }
{
    match sector {
        Some(a) => push_index(alloc, text, ",\"sector\":", a),
        None => text.push_str(""),
    }
}

/// Adds the object of an open side.
pub fn push_open(
    alloc: Global,
    plan: &Plan,
    text: &mut String,
    side: Side,
) -> Result<(), AllocError>
    ensures { OnOk result (string_bytes text.new ≡ string_bytes text.old ++ open_json plan.now side) }
{
    push_member_side(alloc, text, "{\"fault\":\"open\",\"side\":", side)?;
    push_sector(alloc, text, plan.sector_at(side))?;
    push_ends(alloc, plan, text, side.line)?;
    push_text(text, "}\n")
}

/// Adds the object of a torn corner.
pub fn push_tear(
    alloc: Global,
    plan: &Plan,
    text: &mut String,
    tear: &Tear,
) -> Result<(), AllocError>
    ensures { OnOk result (string_bytes text.new ≡ string_bytes text.old ++ tear_json plan.now tear.now) }
{
    let at = spot_of(plan, tear.point);
    push_member_at(alloc, text, "{\"fault\":\"torn corner\",\"at\":", at)?;
    push_member_side(alloc, text, ",\"by\":", tear.side)?;
    push_text(text, "}\n")
}

/// Adds the object of a gap.
pub fn push_gap(alloc: Global, plan: &Plan, text: &mut String, gap: &Gap) -> Result<(), AllocError>
    ensures { OnOk result (string_bytes text.new ≡ string_bytes text.old ++ gap_json plan.now gap.now) }
{
    push_text(text, "{\"fault\":\"gap\"")?;
    push_way(alloc, plan, text, gap.from, gap.to)?;
    push_text(text, "}\n")
}

/// Adds the object of a loose end.
pub fn push_loose(
    alloc: Global,
    plan: &Plan,
    text: &mut String,
    end: &LooseEnd,
) -> Result<(), AllocError>
    ensures { OnOk result (string_bytes text.new ≡ string_bytes text.old ++ loose_json plan.now end.now) }
{
    let at = spot_of(plan, end.point);
    push_member_at(alloc, text, "{\"fault\":\"loose end\",\"at\":", at)?;
    push_index(alloc, text, ",\"line\":", end.line)?;
    push_text(text, "}\n")
}

/// Adds the object of a line without a side.
pub fn push_sideless(
    alloc: Global,
    plan: &Plan,
    text: &mut String,
    slip: &Sideless,
) -> Result<(), AllocError>
    ensures { OnOk result (string_bytes text.new ≡ string_bytes text.old ++ sideless_json plan.now slip.now) }
{
    push_index(
        alloc,
        text,
        "{\"slip\":\"line without a side\",\"line\":",
        slip.line,
    )?;
    push_ends(alloc, plan, text, slip.line)?;
    push_text(text, "}\n")
}

/// Adds the object of a sector without a side.
pub fn push_nameless(
    alloc: Global,
    plan: &Plan,
    text: &mut String,
    slip: &Nameless,
) -> Result<(), AllocError>
    ensures { OnOk result (string_bytes text.new ≡ string_bytes text.old ++ nameless_json plan.now slip.now) }
{
    push_index(
        alloc,
        text,
        "{\"slip\":\"sector without a side\",\"sector\":",
        slip.sector,
    )?;
    push_text(text, "}\n")
}

/// Adds how many more there are, where there are more.
pub fn push_rest(alloc: Global, text: &mut String, n: u64, more: &str) -> Result<(), AllocError>
    ensures { OnOk result (string_bytes text.new ≡ string_bytes text.old ++ rest_json n more.now) }
{
    if n == 0 {
        return text.push_str("");
    }
    push_count(alloc, text, "{\"more\":", n)?;
    text.push_str(",\"of\":\"")?;
    text.push_str(more)?;
    text.push_str("\"}\n")
}
