//! A quick test that shows four ends stuck: two segments share a point where the ends of each aren't on one side of the
//! other, and a triangle has a point that is on one side of all three edges. The turns are the weights of that point.

ghost use Rattle.std.specs.Prelude.{◌≡◌, ◌≤◌, ◌<◌, ◌^◌, ◌+ℤ◌, ◌-ℤ◌, ◌∷◌, [], unsigned_abs, IsTrue};
ghost use Rattle.block_evidence.specs.Stuck.{AreStuck, HullsMeet};
ghost use Rattle.block_evidence.specs.SignTests.{AreWeights, AreOpposite, HasZeroBetween};

use geom_exact::turn;
use sight_names::{EndAt, Pt, RIGHT_END};

/// Whether 0 is between the two numbers.
fn is_between(low: i64, high: i64) -> bool
    ensures { IsTrue result → HasZeroBetween low high }
{
    low <= 0 && 0 <= high
}

/// Whether none of the numbers is below 0, and one is above.
fn are_weights(l: i64, m: i64, n: i64) -> bool
    ensures { IsTrue result → AreWeights l m n }
{
    l >= 0 && m >= 0 && n >= 0 && (l > 0 || m > 0 || n > 0)
}

/// Whether none of the numbers is above 0, and one is below.
fn are_opposite(l: i64, m: i64, n: i64) -> bool
    ensures { IsTrue result → AreOpposite l m n }
{
    l <= 0 && m <= 0 && n <= 0 && (l < 0 || m < 0 || n < 0)
}

/// The turn of `q` at the segment from `r` to `s`, by those of `p` at it and of `r` and `s` at the segment from `p` to `q`.
#[inline(always)]
fn fourth_turn(of_p: i64, of_r: i64, of_s: i64) -> i64
    requires first { unsigned_abs of_p ≤ 2 ^ 53 }
    requires second { unsigned_abs of_r ≤ 2 ^ 53 }
    requires third { unsigned_abs of_s ≤ 2 ^ 53 }
    ensures value { result ≡ of_p +ℤ (of_r -ℤ of_s) }
    ensures bound { unsigned_abs result < 2 ^ 55 }
{
    of_p + (of_r - of_s)
}

/// Whether the segment from `p` to `q` and the segment from `r` to `s` share a point. False also where all four points
/// are on one line.
// all turns begin at `p`, so that they share its differences; the turn of `q` is told by the other three
#[inline(always)]
pub fn do_cross(p: Pt, q: Pt, r: Pt, s: Pt) -> bool
    ensures { IsTrue result → HullsMeet (p ∷ q ∷ []) (r ∷ s ∷ []) }
{
    let of_r = turn(p, q, r);
    let of_s = turn(p, q, s);
    let of_p = turn(p, r, s);
    let of_q = fourth_turn(of_p, of_r, of_s);
    if of_s < of_r {
        is_between(of_s, of_r) && is_between(of_p, of_q)
    } else if of_r < of_s {
        is_between(of_r, of_s) && is_between(of_q, of_p)
    } else {
        false
    }
}

/// Whether the triangle `a`, `b`, `c` has the point `p`. False also where all four points are on one line.
// all turns begin at `p`, so that they share its differences
#[inline(always)]
pub fn is_covered(p: Pt, a: Pt, b: Pt, c: Pt) -> bool
    ensures { IsTrue result → HullsMeet (p ∷ []) (a ∷ b ∷ c ∷ []) }
{
    let of_a = turn(p, b, c);
    let of_b = turn(p, c, a);
    let of_c = turn(p, a, b);
    are_weights(of_a, of_b, of_c) || are_opposite(of_a, of_b, of_c)
}

/// Whether four ends are seen at once to be stuck. `false` says nothing: it comes also where all of them are on one line,
/// and where a right end comes before a left one.
// in line with what finds the ends: a call would hand four of them over in memory, at each blocked node of a certificate
#[inline(always)]
pub fn are_stuck(a: EndAt, b: EndAt, c: EndAt, d: EndAt) -> bool
    ensures { IsTrue result → AreStuck (a ∷ b ∷ c ∷ d ∷ []) }
{
    if a.code >= RIGHT_END || d.code < RIGHT_END {
        return false;
    }
    match (b.code < RIGHT_END, c.code < RIGHT_END) {
        (true, true) => is_covered(d.at, a.at, b.at, c.at),
        (true, false) => do_cross(a.at, b.at, c.at, d.at),
        (false, true) => false,
        (false, false) => is_covered(a.at, b.at, c.at, d.at),
    }
}

/// Whether these are four ends that are seen at once to be stuck. `false` says nothing.
pub fn shows_stuck(ends: &[EndAt]) -> bool
    ensures { IsTrue result → AreStuck ends.now }
{
    match ends {
        [a, b, c, d] => are_stuck(*a, *b, *c, *d),
        _ => false,
    }
}
