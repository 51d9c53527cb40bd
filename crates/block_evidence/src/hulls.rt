//! Whether the hulls of left and right ends meet.

ghost use Rattle.std.specs.Prelude.{◌≡◌, ℕ, ◌<◌, ◌≤◌, length, Some as Given, slice_get, MatchOption, IfSome, IfNone};
ghost use Rattle.block_evidence.specs.Stuck.{AreStuck};
ghost use Rattle.block_evidence.specs.Parted.{PartsEnds};
ghost use Rattle.block_evidence.specs.Pairs.{IsLeftIn, IsRightIn, IsConeIn, Keeps, HasAt, HasAllAt};

use geom_exact::extreme_lines::{Cone, Cut, Extreme};
use sight_names::{EndAt, RIGHT_END};

/// The least code of a right end.

/// The first left end.
fn first_left(ends: &[EndAt]) -> Option<EndAt>
    ensures some { IfSome result (λ e. IsLeftIn ends.now e) }
    ensures none { IfNone result ((k : ℕ) → k < length ends.now → (e : EndAt) → slice_get ends.now k ≡ Given e → RIGHT_END ≤ e.code) }
{
    for k in 0..ends.len() {
        let end = ends[k];
        if end.code < RIGHT_END {
            return Some(end);
        }
    }
    None
}

/// The first right end.
fn first_right(ends: &[EndAt]) -> Option<EndAt>
    ensures some { IfSome result (λ e. IsRightIn ends.now e) }
    ensures none { IfNone result ((k : ℕ) → k < length ends.now → (e : EndAt) → slice_get ends.now k ≡ Given e → e.code < RIGHT_END) }
{
    for k in 0..ends.len() {
        let end = ends[k];
        if end.code >= RIGHT_END {
            return Some(end);
        }
    }
    None
}

/// The cone with the line to this left end from the end at place j, if that is a right one. None where the hulls meet.
fn with_end(cone: &Cone, ends: &[EndAt], left: EndAt, j: usize) -> Option<Cone>
    requires cone { IsConeIn ends.now cone.now }
    requires left { IsLeftIn ends.now left }
    requires place { j < length ends.now }
    ensures { MatchOption result (AreStuck ends.now) (λ c. IsConeIn ends.now c × Keeps cone.now c × HasAt ends.now left j c) }
{
    let right = ends[j];
    if right.code < RIGHT_END {
        return Some(*cone);
    }
    if cone.covers(left.at, right.at) {
        return Some(*cone);
    }
    cone.with(left, right)
}

/// The cone with the lines to this left end from all right ends. None where the hulls meet.
fn with_left(cone: &Cone, ends: &[EndAt], left: EndAt) -> Option<Cone>
    requires cone { IsConeIn ends.now cone.now }
    requires left { IsLeftIn ends.now left }
    ensures { MatchOption result (AreStuck ends.now) (λ c. IsConeIn ends.now c × Keeps cone.now c × ((j : ℕ) → j < length ends.now → HasAt ends.now left j c)) }
{
    let mut wide = *cone;
    for j in 0..ends.len() {
        wide = with_end(&wide, ends, left, j)?;
    }
    Some(wide)
}

/// The same from the end at place i, if that is a left one.
fn with_place(cone: &Cone, ends: &[EndAt], i: usize) -> Option<Cone>
    requires cone { IsConeIn ends.now cone.now }
    requires place { i < length ends.now }
    ensures { MatchOption result (AreStuck ends.now) (λ c. IsConeIn ends.now c × Keeps cone.now c × HasAllAt ends.now i c) }
{
    let left = ends[i];
    if left.code >= RIGHT_END {
        return Some(*cone);
    }
    with_left(cone, ends, left)
}

/// The cone of all lines from right ends to left ends. None where the hulls meet.
fn whole_cone(cone: &Cone, ends: &[EndAt]) -> Option<Cone>
    requires { IsConeIn ends.now cone.now }
    ensures { MatchOption result (AreStuck ends.now) (λ c. IsConeIn ends.now c × ((i : ℕ) → i < length ends.now → HasAllAt ends.now i c)) }
{
    let mut wide = *cone;
    for i in 0..ends.len() {
        wide = with_place(&wide, ends, i)?;
    }
    Some(wide)
}

/// A line that has the left ends strictly on its left and the right ends strictly on its right. None where the hulls
/// of the left and of the right ends share a point.
pub fn parting(ends: &[EndAt]) -> Option<Cut>
    ensures { MatchOption result (AreStuck ends.now) (λ cut. PartsEnds ends.now cut.a cut.b cut.c) }
{
    let Some(left) = first_left(ends) else {
        return Some(Cut { a: 0, b: 0, c: -1 });
    };
    let Some(right) = first_right(ends) else {
        return Some(Cut { a: 0, b: 0, c: 1 });
    };
    if left.at == right.at {
        return None;
    }
    let ray = Extreme::through(left, right);
    let cone = whole_cone(&Cone::Ray(ray), ends)?;
    Some(cone.cut())
}
