//! The lines that a ray crosses, and the first solid line with a point between two crossings.

ghost use Rattle.std.specs.Prelude.{◌≡◌, ◌<◌, MatchBool, MatchOption, length};
ghost use Rattle.sight_names.specs.Map.{map_of, looked_up};
ghost use Rattle.sight_names.specs.Plan.{IsPlanLine};
ghost use Rattle.sight_names.specs.Ray.{IsInRange};
ghost use Rattle.geom_exact.specs.Formulas.{AreOnOneSide, AreOnTwoSides, side_value};
ghost use Rattle.sight_ray.specs.CrossedLine.{IsCrossedLine, IsCrossedLineBetween, IsCrossedLineOf, AreOnBothSides, IsForward, IsHit, IsStretchClear, IsHitAt, IsFirstHit, AreClearBelow, IsClearAt, AreBeforeLine, ReachesStart, AreAfter, ReachesStop, IsMet, IsStretchPassed, AllBehind, AllInOrder};
ghost use Rattle.sight_ray.specs.RayFault.{IsSplit};

use geom_exact::{cross_order, side_of, turn};
use sight_names::{Line, Plan, Pt, Ray, Side};
use std::cmp::Ordering;

/// The ends of a crossed line, by the side of the ray on which they are.
#[derive(Clone, Copy)]
pub struct CrossedLine {
    pub left: Pt,
    pub right: Pt,
    pub first_left: bool,
}

/// The places of a line's ends.
fn ends_of(plan: &Plan, line: Line) -> (Pt, Pt)
    requires { IsPlanLine plan.now.sectors (length plan.now.points) line }
    ensures first { result.0 ≡ (looked_up plan.now.points line).first }
    ensures second { result.1 ≡ (looked_up plan.now.points line).second }
{
    (plan.place(line.a), plan.place(line.b))
}

/// The side's line, if its ends are strictly on different sides of the ray.
pub fn crossed_line_of(plan: &Plan, ray: &Ray, side: Side) -> Option<CrossedLine>
    requires { IsInRange ray.now }
    ensures { MatchOption result (¬ IsSplit (map_of plan.now) ray.now side) (λ g. IsCrossedLineOf (map_of plan.now) ray.now side g) }
{
    let line = plan.line(side.line)?;
    let (first, second) = ends_of(plan, line);
    crossed_line_between(ray, first, second)
}

/// The segment from `first` to `second`, if its ends are strictly on different sides of the ray.
fn crossed_line_between(ray: &Ray, first: Pt, second: Pt) -> Option<CrossedLine>
    requires { IsInRange ray.now }
    ensures { MatchOption result (¬ AreOnTwoSides (side_value ray.now first) (side_value ray.now second)) (λ g. IsCrossedLineBetween ray.now first second g) }
{
    let from = side_of(ray, first);
    let to = side_of(ray, second);
    if are_parted(from, to) {
        return Some(CrossedLine {
            left: first,
            right: second,
            first_left: true,
        });
    }
    if are_parted(to, from) {
        return Some(CrossedLine {
            left: second,
            right: first,
            first_left: false,
        });
    }
    None
}

/// Whether the first number is above 0 and the second below.
fn are_parted(left: i64, right: i64) -> bool
    ensures { MatchBool result (AreOnBothSides left right) (¬ AreOnBothSides left right) }
{
    left > 0 && right < 0
}

/// Whether the crossing with the first segment comes strictly behind that with the second.
fn is_behind(ray: &Ray, l1: Pt, l2: Pt, m1: Pt, m2: Pt) -> bool
    requires range { IsInRange ray.now }
    requires first { AreOnTwoSides (side_value ray.now l1) (side_value ray.now l2) }
    requires second { AreOnTwoSides (side_value ray.now m1) (side_value ray.now m2) }
    ensures { MatchBool result (AllBehind ray.now l1 l2 m1 m2) (AllInOrder ray.now l1 l2 m1 m2) }
{
    match cross_order(ray, l1, l2, m1, m2) {
        Ordering::Greater => true,
        _ => false,
    }
}

/// Whether the crossing with the first crossed line comes strictly behind that with the second.
pub fn is_backwards(ray: &Ray, start: CrossedLine, stop: CrossedLine) -> bool
    requires range { IsInRange ray.now }
    requires start_split { IsCrossedLine ray.now start }
    requires stop_split { IsCrossedLine ray.now stop }
    ensures { MatchBool result (AllBehind ray.now start.left start.right stop.left stop.right) (IsForward ray.now start stop) }
{
    is_behind(ray, start.left, start.right, stop.left, stop.right)
}

/// The least record number of a solid line that has a point of the stretch between the crossed lines.
pub fn first_hit(plan: &Plan, ray: &Ray, start: CrossedLine, stop: CrossedLine) -> Option<u16>
    requires range { IsInRange ray.now }
    requires start_split { IsCrossedLine ray.now start }
    requires stop_split { IsCrossedLine ray.now stop }
    requires forward { IsForward ray.now start stop }
    ensures { MatchOption result (AreClearBelow (map_of plan.now) ray.now start stop (length plan.now.lines)) (λ number. IsFirstHit (map_of plan.now) ray.now start stop number) }
{
    let count = plan.lines().len() as u16;
    for number in 0..count {
        if is_hit_at(plan, ray, start, stop, number) {
            return Some(number);
        }
    }
    None
}

/// Whether the line with this number is solid and has a point of the stretch.
fn is_hit_at(plan: &Plan, ray: &Ray, start: CrossedLine, stop: CrossedLine, number: u16) -> bool
    requires range { IsInRange ray.now }
    requires start_split { IsCrossedLine ray.now start }
    requires stop_split { IsCrossedLine ray.now stop }
    requires forward { IsForward ray.now start stop }
    ensures { MatchBool result (IsHitAt (map_of plan.now) ray.now start stop number) (IsClearAt (map_of plan.now) ray.now start stop number) }
{
    match plan.line(number) {
        Some(line) => {
            if !line.solid {
                return false;
            }
            let (p, q) = ends_of(plan, line);
            is_hit(ray, start, stop, p, q)
        }
        None => false,
    }
}

/// Whether the segment from `p` to `q` has a point of the stretch.
fn is_hit(ray: &Ray, start: CrossedLine, stop: CrossedLine, p: Pt, q: Pt) -> bool
    requires range { IsInRange ray.now }
    requires start_split { IsCrossedLine ray.now start }
    requires stop_split { IsCrossedLine ray.now stop }
    requires forward { IsForward ray.now start stop }
    ensures { MatchBool result (IsHit ray.now start stop p q) (IsStretchClear ray.now start stop p q) }
{
    let from = side_of(ray, p);
    let to = side_of(ray, q);
    if same_side(from, to) {
        return false;
    }
    if from == 0 {
        if to == 0 {
            return is_met(start, stop, p, q);
        }
        return is_met(start, stop, p, p);
    }
    if to == 0 {
        return is_met(start, stop, q, q);
    }
    is_between(ray, start, stop, p, q)
}

fn same_side(a: i64, b: i64) -> bool
    ensures { MatchBool result (AreOnOneSide a b) (¬ AreOnOneSide a b) }
{
    (a > 0 && b > 0) || (a < 0 && b < 0)
}

/// Whether the crossing with the segment from `p` to `q` is on the stretch.
fn is_between(ray: &Ray, start: CrossedLine, stop: CrossedLine, p: Pt, q: Pt) -> bool
    requires range { IsInRange ray.now }
    requires start_split { IsCrossedLine ray.now start }
    requires stop_split { IsCrossedLine ray.now stop }
    requires forward { IsForward ray.now start stop }
    requires split { AreOnTwoSides (side_value ray.now p) (side_value ray.now q) }
    ensures { MatchBool result (IsHit ray.now start stop p q) (IsStretchClear ray.now start stop p q) }
{
    if is_behind(ray, start.left, start.right, p, q) {
        return false;
    }
    !is_behind(ray, p, q, stop.left, stop.right)
}

/// Whether one of two points of the ray isn't before the first crossing, and one isn't behind the second.
fn is_met(start: CrossedLine, stop: CrossedLine, p: Pt, q: Pt) -> bool
    ensures { MatchBool result (IsMet start stop p q) (IsStretchPassed start stop p q) }
{
    if are_before(start, p, q) {
        return false;
    }
    !are_after(stop, p, q)
}

fn are_before(crossed_line: CrossedLine, p: Pt, q: Pt) -> bool
    ensures { MatchBool result (AreBeforeLine crossed_line p q) (ReachesStart crossed_line p q) }
{
    turn(crossed_line.left, crossed_line.right, p) < 0
        && turn(crossed_line.left, crossed_line.right, q) < 0
}

fn are_after(crossed_line: CrossedLine, p: Pt, q: Pt) -> bool
    ensures { MatchBool result (AreAfter crossed_line p q) (ReachesStop crossed_line p q) }
{
    turn(crossed_line.left, crossed_line.right, p) > 0
        && turn(crossed_line.left, crossed_line.right, q) > 0
}
