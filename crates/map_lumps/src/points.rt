//! The points of a map, and its lines between point numbers.

ghost use Rattle.std.specs.Prelude.{◌≡◌, ◌++◌, ◌∷◌, [], ◌<◌, ◌≤◌, Some, Contains, IfOk, IfSome, OnOk, length, map, option_map, slice_get};
ghost use Rattle.sight_names.specs.declared.limits.TheConstants.{LARGE_POINTS};
ghost use Rattle.sight_names.specs.Map.{looked_up};
ghost use Rattle.sight_names.specs.Points.{in_order};
ghost use Rattle.map_lumps.specs.Records.{as_map_line, placed_ends, EndsAmong, EndsBelow, ArePointsInOrder};

use crate::records::PlacedLine;
use sight_names::{Line, Pt};
use std::alloc::{AllocError, Global};

/// The ends of the lines by x, then by y, each once.
pub fn points_of(alloc: Global, lines: &[Option<PlacedLine>]) -> Result<Vec<Pt>, AllocError>
    ensures { IfOk result (λ points. points.items ≡ in_order (placed_ends lines.now)) }
{
    let mut points = line_ends(alloc, lines)?;
    points.sort_unstable();
    points.dedup();
    Ok(points)
}

/// The ends of the lines, line by line.
fn line_ends(alloc: Global, lines: &[Option<PlacedLine>]) -> Result<Vec<Pt>, AllocError>
    ensures { IfOk result (λ ends. ends.items ≡ placed_ends lines.now) }
{
    let mut ends = Vec::new(alloc);
    for line in lines {
        push_ends(&mut ends, *line)?;
    }
    Ok(ends)
}

/// Adds the ends of a line, where there is one.
fn push_ends(ends: &mut Vec<Pt>, line: Option<PlacedLine>) -> Result<(), AllocError>
    ensures { OnOk result (ends.new.items ≡ ends.old.items ++ placed_ends (line ∷ [])) }
{
    if let Some(line) = line {
        ends.push(line.first)?;
        ends.push(line.second)?;
    }
    Ok(())
}

/// The lines between the numbers of their ends.
pub fn plan_lines(
    alloc: Global,
    points: &[Pt],
    lines: &[Option<PlacedLine>],
) -> Result<Vec<Option<Line>>, AllocError>
    requires few { length points.now ≤ LARGE_POINTS }
    requires order { ArePointsInOrder points.now }
    requires ends { EndsAmong points.now lines.now }
    ensures same { IfOk result (λ plan. map (option_map (looked_up points.now)) plan.items ≡ map (option_map as_map_line) lines.now) }
    ensures within { IfOk result (λ plan. EndsBelow (length points.now) plan.items) }
{
    let mut plan = Vec::new(alloc);
    for line in lines {
        plan.push(plan_entry(points, *line))?;
    }
    Ok(plan)
}

/// A line between the numbers of its ends, where there is one.
fn plan_entry(points: &[Pt], line: Option<PlacedLine>) -> Option<Line>
    requires few { length points.now ≤ LARGE_POINTS }
    requires order { ArePointsInOrder points.now }
    requires ends { EndsAmong points.now (line ∷ []) }
    ensures same { option_map (looked_up points.now) result ≡ option_map as_map_line line }
    ensures within { IfSome result (λ l. (l.a < length points.now) × (l.b < length points.now)) }
{
    let line = line?;
    Some(Line {
        a: number_of(points, line.first),
        b: number_of(points, line.second),
        solid: line.solid,
        right: line.right,
        left: line.left,
    })
}

/// The number of a point.
fn number_of(points: &[Pt], point: Pt) -> u16
    requires few { length points.now ≤ LARGE_POINTS }
    requires order { ArePointsInOrder points.now }
    requires there { Contains points.now point }
    ensures { slice_get points.now result ≡ Some point }
{
    match points.binary_search(&point) {
        Ok(place) => place as u16,
        Err(_) => unreachable!(),
    }
}
