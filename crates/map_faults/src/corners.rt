//! Where two lines meet, rounded down to whole units.

ghost use Rattle.std.specs.Prelude.{◌≡◌, ◌≢◌, ◌<◌, ◌≤◌, ◌+◌, ◌*◌, ◌^◌, ◌+ℤ◌, ◌-ℤ◌, MatchOption, Some, nat_abs, pos, option_and_then, slice_get};
ghost use Rattle.sight_names.specs.Map.{map_of};
ghost use Rattle.geom_exact.specs.Formulas.{turn_of};
ghost use Rattle.map_faults.specs.Corners.{AreCornersOf, IsMeanDown, IsOneCornerOf};

use geom_exact::turn;
use sight_names::{Plan, Pt};

/// How far the coordinate is above the least one.
fn raised(a: i32) -> u64
    requires { nat_abs a ≤ 2 ^ 25 }
    ensures value { pos result ≡ a +ℤ pos 33554432 }
    ensures bound { result ≤ 2 ^ 26 }
{
    (a as i64 + 33_554_432) as u64
}

/// The coordinate that is so far above the least one.
fn lowered(a: u64) -> i32
    requires { a ≤ 2 ^ 26 }
    ensures value { result ≡ pos a -ℤ pos 33554432 }
    ensures near { nat_abs result ≤ 2 ^ 25 }
{
    (a as i64 - 33_554_432) as i32
}

/// `m * a`, of a weight and a raised coordinate.
fn weighed(m: u64, a: u64) -> u128
    requires weight { m ≤ 2 ^ 53 }
    requires coordinate { a ≤ 2 ^ 26 }
    ensures value { result ≡ m * a }
    ensures bound { result ≤ 2 ^ 79 }
{
    m as u128 * a as u128
}

/// The mean of `a` and `b` with these weights, rounded down.
fn mean(m: u64, n: u64, a: u64, b: u64) -> u64
    requires some { 0 < m + n }
    requires first { m ≤ 2 ^ 53 }
    requires second { n ≤ 2 ^ 53 }
    requires from { a ≤ 2 ^ 26 }
    requires to { b ≤ 2 ^ 26 }
    ensures below { result * (m + n) ≤ m * a + n * b }
    ensures above { m * a + n * b < (result + 1) * (m + n) }
    ensures bound { result ≤ 2 ^ 26 }
{
    let sum = weighed(m, a) + weighed(n, b);
    (sum / (m + n) as u128) as u64
}

/// The same of two coordinates.
fn mean_down(m: u64, n: u64, a: i32, b: i32) -> i32
    requires some { 0 < m + n }
    requires first { m ≤ 2 ^ 53 }
    requires second { n ≤ 2 ^ 53 }
    requires from { nat_abs a ≤ 2 ^ 25 }
    requires to { nat_abs b ≤ 2 ^ 25 }
    ensures mean { IsMeanDown m n a b result }
    ensures near { nat_abs result ≤ 2 ^ 25 }
{
    lowered(mean(m, n, raised(a), raised(b)))
}

/// The common point of the segment from `p` to `q` and the one from `r` to `s`, rounded down; None where they are parallel.
fn corner_of(p: Pt, q: Pt, r: Pt, s: Pt) -> Option<Pt>
    ensures { MatchOption result (turn_of p q r ≡ turn_of p q s) (IsOneCornerOf p q r s) }
{
    if turn(p, q, r) == turn(p, q, s) {
        return None;
    }
    let first = turn(r, s, q).unsigned_abs();
    let second = turn(r, s, p).unsigned_abs();
    Some(Pt {
        x: mean_down(first, second, p.x, q.x),
        y: mean_down(first, second, p.y, q.y),
    })
}

/// The common point of the lines of records `i` and `j`, rounded down; None where one is no line, or they are parallel.
pub fn meeting_of(plan: &Plan, i: u16, j: u16) -> Option<Pt>
    ensures { AreCornersOf (map_of plan.now) i j result }
{
    let one = plan.line(i)?;
    let other = plan.line(j)?;
    corner_of(
        plan.place(one.a),
        plan.place(one.b),
        plan.place(other.a),
        plan.place(other.b),
    )
}
