//! Words of the report's lines.

ghost use Rattle.std.specs.Prelude.{◌≡◌, ◌++◌, OnOk, string_bytes};
ghost use Rattle.std.specs.Fmt.{decimal, signed_decimal};
ghost use Rattle.sight_names.specs.Texts.{side_text as the_side_text};
ghost use Rattle.fault_report.specs.Lines.{line_ends_text, point_text, rest_text, spot, way_text};

use sight_names::{Line, Plan, Pt, Side};
use std::alloc::{AllocError, Global};

/// Adds a text.
pub fn push_text(text: &mut String, word: &str) -> Result<(), AllocError>
    ensures { OnOk result (string_bytes text.new ≡ string_bytes text.old ++ word.now) }
{
    text.push_str(word)
}

/// Adds a text and a number.
pub fn push_count(alloc: Global, text: &mut String, word: &str, n: u64) -> Result<(), AllocError>
    ensures { OnOk result (string_bytes text.new ≡ string_bytes text.old ++ (word.now ++ decimal n)) }
{
    text.push_str(word)?;
    text.push_str(&n.to_string(alloc)?)
}

/// Adds a text and the number of a record.
pub fn push_index(alloc: Global, text: &mut String, word: &str, n: u16) -> Result<(), AllocError>
    ensures { OnOk result (string_bytes text.new ≡ string_bytes text.old ++ (word.now ++ decimal n)) }
{
    text.push_str(word)?;
    text.push_str(&n.to_string(alloc)?)
}

/// Adds a text and a coordinate.
pub fn push_signed(alloc: Global, text: &mut String, word: &str, n: i32) -> Result<(), AllocError>
    ensures { OnOk result (string_bytes text.new ≡ string_bytes text.old ++ (word.now ++ signed_decimal n)) }
{
    text.push_str(word)?;
    text.push_str(&n.to_string(alloc)?)
}

/// Adds a text and a point.
pub fn push_point(alloc: Global, text: &mut String, word: &str, p: Pt) -> Result<(), AllocError>
    ensures { OnOk result (string_bytes text.new ≡ string_bytes text.old ++ (word.now ++ point_text p)) }
{
    push_signed(alloc, text, word, p.x)?;
    push_signed(alloc, text, " ", p.y)
}

/// Adds a text and a side.
pub fn push_side(alloc: Global, text: &mut String, word: &str, side: Side) -> Result<(), AllocError>
    ensures { OnOk result (string_bytes text.new ≡ string_bytes text.old ++ (word.now ++ the_side_text side)) }
{
    text.push_str(word)?;
    text.push_str(&side.to_string(alloc)?)
}

/// The point with this number; the origin where there is none.
pub fn spot_of(plan: &Plan, k: u16) -> Pt
    ensures { result ≡ spot plan.now k }
{
    match plan.points().get(k as usize) {
        Some(p) => *p,
        None => Pt { x: 0, y: 0 },
    }
}

/// Adds a text and the point with this number.
pub fn push_spot(
    alloc: Global,
    plan: &Plan,
    text: &mut String,
    word: &str,
    k: u16,
) -> Result<(), AllocError>
    ensures { OnOk result (string_bytes text.new ≡ string_bytes text.old ++ (word.now ++ point_text (spot plan.now k))) }
{
    push_point(alloc, text, word, spot_of(plan, k))
}

/// Adds from where to where one goes who goes between the points with these numbers.
pub fn push_way(
    alloc: Global,
    plan: &Plan,
    text: &mut String,
    from: u16,
    to: u16,
) -> Result<(), AllocError>
    ensures { OnOk result (string_bytes text.new ≡ string_bytes text.old ++ way_text plan.now from to) }
{
    push_spot(alloc, plan, text, " from ", from)?;
    push_spot(alloc, plan, text, " to ", to)
}

/// Adds from where to where the line of this record goes; nothing where it has none.
pub fn push_ends(alloc: Global, plan: &Plan, text: &mut String, i: u16) -> Result<(), AllocError>
    ensures { OnOk result (string_bytes text.new ≡ string_bytes text.old ++ line_ends_text plan.now i) }
{
    match plan.line(i) {
        Some(line) => push_way(alloc, plan, text, line.a, line.b),
        None => text.push_str(""),
    }
}

/// Adds how many more there are, where there are more.
pub fn push_rest(alloc: Global, text: &mut String, n: u64, more: &str) -> Result<(), AllocError>
    ensures { OnOk result (string_bytes text.new ≡ string_bytes text.old ++ rest_text n more.now) }
{
    if n == 0 {
        return text.push_str("");
    }
    push_count(alloc, text, "and ", n)?;
    text.push_str(" more ")?;
    text.push_str(more)?;
    text.push_str("\n")
}
