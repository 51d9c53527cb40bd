//! Exact plane geometry on whole coordinates. No call takes memory, and nothing is rounded: sums and products
//! stay inside i64 and i128.
#![tactic(auto)]

pub mod extreme_lines;
pub mod line_spans;

ghost use Rattle.std.specs.Prelude.{◌≡◌, ◌≢◌, ◌≤◌, ◌<◌, ◌*◌, ◌^◌, ◌-ℤ◌, ◌*ℤ◌, ◌<ℤ◌, unsigned_abs, IsTrue, ◌↔◌, ◌⊎◌, pos};
ghost use Rattle.sight_names.specs.Ray.{IsInRange};
ghost use Rattle.geom_exact.specs.Formulas.{turn_of, reach_of, side_value, AreOnOneSide, AreOnTwoSides};
ghost use Rattle.geom_exact.specs.Common.{IsRelation, AreLaid, DoMeet};
ghost use Rattle.geom_exact.specs.Crossings.{IsSegmentCrossed, IsCrossOrder};

use sight_names::{Pt, Ray};
use std::cmp::Ordering;

/// What two segments have in common.
#[derive(Clone, Copy)]
pub enum Relation {
    /// No point.
    Apart,
    /// More than one point.
    Overlap,
    /// One point, an end of both.
    Ends,
    /// One point, an end of just one.
    Touch,
    /// One point, an end of neither.
    Cross,
}

/// The way from `a` to `b`.
fn difference(a: i32, b: i32) -> i64
    requires from { unsigned_abs a ≤ 2 ^ 25 }
    requires to { unsigned_abs b ≤ 2 ^ 25 }
    ensures value { result ≡ b -ℤ a }
    ensures bound { unsigned_abs result ≤ 2 ^ 26 }
{
    b as i64 - a as i64
}

/// `a * b`, of two differences of coordinates.
fn product(a: i64, b: i64) -> i64
    requires left { unsigned_abs a ≤ 2 ^ 26 }
    requires right { unsigned_abs b ≤ 2 ^ 26 }
    ensures value { result ≡ a *ℤ b }
    ensures bound { unsigned_abs result ≤ 2 ^ 52 }
{
    a * b
}

/// `a - b`, of two such products.
fn minus(a: i64, b: i64) -> i64
    requires left { unsigned_abs a ≤ 2 ^ 52 }
    requires right { unsigned_abs b ≤ 2 ^ 52 }
    ensures value { result ≡ a -ℤ b }
    ensures bound { unsigned_abs result ≤ 2 ^ 53 }
{
    a - b
}

/// Twice the signed area of the triangle `a`, `b`, `c`: above 0 where they stand counterclockwise, 0 where they
/// stand on one straight line.
pub fn turn(a: Pt, b: Pt, c: Pt) -> i64
    ensures value { result ≡ turn_of a b c }
    ensures bound { unsigned_abs result ≤ 2 ^ 53 }
{
    let along = difference(a.x, b.x);
    let rise = difference(a.y, b.y);
    let across = difference(a.x, c.x);
    let up = difference(a.y, c.y);
    minus(product(along, up), product(rise, across))
}

/// Whether both numbers are above 0 or both are below.
fn same_side(a: i64, b: i64) -> bool
    ensures { IsTrue result ↔ AreOnOneSide a b }
{
    (a > 0 && b > 0) || (a < 0 && b < 0)
}

/// How far `v` is along the direction from `p` to `q`, times its length.
fn reach(p: Pt, q: Pt, v: Pt) -> i64
    ensures { result ≡ reach_of p q v }
{
    let along = difference(p.x, q.x);
    let rise = difference(p.y, q.y);
    let across = difference(p.x, v.x);
    let up = difference(p.y, v.y);
    product(along, across) + product(rise, up)
}

/// The relation of two segments on one line, of which the second goes the way of the first.
fn relation_on_line(p: Pt, q: Pt, r: Pt, s: Pt) -> Relation
    requires { AreLaid p q r s }
    ensures { IsRelation p q r s result }
{
    let whole = reach(p, q, q);
    let near = reach(p, q, r);
    let far = reach(p, q, s);
    if far < 0 {
        return Relation::Apart;
    }
    if whole < near {
        return Relation::Apart;
    }
    if far == 0 {
        return Relation::Ends;
    }
    if near == whole {
        return Relation::Ends;
    }
    Relation::Overlap
}

/// What the segment from `p` to `q` and the segment from `r` to `s` have in common. A segment includes its ends.
pub fn seg_relation(p: Pt, q: Pt, r: Pt, s: Pt) -> Relation
    requires first { p ≢ q }
    requires second { r ≢ s }
    ensures { IsRelation p q r s result }
{
    let to_r = turn(p, q, r);
    let to_s = turn(p, q, s);
    if to_r == 0 && to_s == 0 {
        return relation_of_straight(p, q, r, s);
    }
    let to_p = turn(r, s, p);
    let to_q = turn(r, s, q);
    if same_side(to_r, to_s) {
        return Relation::Apart;
    }
    if same_side(to_p, to_q) {
        return Relation::Apart;
    }
    relation_of_meeting(p, q, r, s, either_zero(to_p, to_q), either_zero(to_r, to_s))
}

/// Whether one of the two numbers is 0.
fn either_zero(a: i64, b: i64) -> bool
    ensures { IsTrue result ↔ ((a ≡ pos 0) ⊎ (b ≡ pos 0)) }
{
    a == 0 || b == 0
}

/// The relation of two segments on one line.
fn relation_of_straight(p: Pt, q: Pt, r: Pt, s: Pt) -> Relation
    requires first { p ≢ q }
    requires second { r ≢ s }
    requires near { turn_of p q r ≡ pos 0 }
    requires far { turn_of p q s ≡ pos 0 }
    ensures { IsRelation p q r s result }
{
    if reach(p, q, r) < reach(p, q, s) {
        return relation_on_line(p, q, r, s);
    }
    relation_on_line(p, q, s, r)
}

/// The relation of two segments that have one common point, by whether it is an end of each.
fn relation_of_meeting(p: Pt, q: Pt, r: Pt, s: Pt, first: bool, second: bool) -> Relation
    requires meets { DoMeet p q r s }
    requires first_end { IsTrue first ↔ ((turn_of r s p ≡ pos 0) ⊎ (turn_of r s q ≡ pos 0)) }
    requires second_end { IsTrue second ↔ ((turn_of p q r ≡ pos 0) ⊎ (turn_of p q s ≡ pos 0)) }
    ensures { IsRelation p q r s result }
{
    match (first, second) {
        (true, true) => Relation::Ends,
        (true, false) => Relation::Touch,
        (false, true) => Relation::Touch,
        (false, false) => Relation::Cross,
    }
}

/// Whether `a` and `b` are at most 2^30 and `c` at most 2^57 in absolute value, so that all work with the ray is
/// exact.
pub fn in_range(ray: &Ray) -> bool
    ensures { IsTrue result ↔ IsInRange ray.now }
{
    ray.a.unsigned_abs() <= 1 << 30
        && ray.b.unsigned_abs() <= 1 << 30
        && ray.c.unsigned_abs() <= 1 << 57
}

/// A ray's coefficient times a coordinate.
fn scaled(a: i32, x: i32) -> i64
    requires of_ray { unsigned_abs a ≤ 2 ^ 30 }
    requires near { unsigned_abs x ≤ 2 ^ 25 }
    ensures value { result ≡ a *ℤ x }
    ensures bound { unsigned_abs result ≤ 2 ^ 55 }
{
    a as i64 * x as i64
}

/// `a*x + b*y + c` at the point: above 0 on the left of the ray, below 0 on its right.
pub fn side_of(ray: &Ray, p: Pt) -> i64
    requires { IsInRange ray.now }
    ensures value { result ≡ side_value ray.now p }
    ensures bound { unsigned_abs result ≤ 2 ^ 58 }
{
    scaled(ray.a, p.x) + scaled(ray.b, p.y) + ray.c
}

/// `a * b`, of a side and a turn.
fn long_product(a: i64, b: i64) -> i128
    requires left { unsigned_abs a ≤ 2 ^ 58 }
    requires right { unsigned_abs b ≤ 2 ^ 53 }
    ensures { result ≡ a *ℤ b }
{
    a as i128 * b as i128
}

/// Which crossing comes first along the ray: `Less` where its line crosses the segment from `l1` to `l2` before it
/// crosses the one from `m1` to `m2`, `Equal` where both are crossed at one point.
pub fn cross_order(ray: &Ray, l1: Pt, l2: Pt, m1: Pt, m2: Pt) -> Ordering
    requires range { IsInRange ray.now }
    requires first { AreOnTwoSides (side_value ray.now l1) (side_value ray.now l2) }
    requires second { AreOnTwoSides (side_value ray.now m1) (side_value ray.now m2) }
    ensures first_there { IsSegmentCrossed ray.now l1 l2 }
    ensures second_there { IsSegmentCrossed ray.now m1 m2 }
    ensures order { IsCrossOrder ray.now l1 l2 m1 m2 result }
{
    let from = side_of(ray, l1);
    let to = side_of(ray, l2);
    let near = long_product(to, turn(m1, m2, l1));
    let far = long_product(from, turn(m1, m2, l2));
    if same_side(from, side_of(ray, m1)) {
        far.cmp(&near)
    } else {
        near.cmp(&far)
    }
}

/// Whether `p` is strictly inside the counterclockwise triangle `a`, `b`, `c`; a point of an edge is not.
pub fn in_triangle(a: Pt, b: Pt, c: Pt, p: Pt) -> bool
    requires { pos 0 <ℤ turn_of a b c }
    ensures { IsTrue result ↔ ((pos 0 <ℤ turn_of a b p) × (pos 0 <ℤ turn_of b c p) × (pos 0 <ℤ turn_of c a p)) }
{
    is_left(a, b, p) && is_left(b, c, p) && is_left(c, a, p)
}

/// Whether `p` is strictly on the left of the line from `a` to `b`.
fn is_left(a: Pt, b: Pt, p: Pt) -> bool
    ensures { IsTrue result ↔ (pos 0 <ℤ turn_of a b p) }
{
    turn(a, b, p) > 0
}
