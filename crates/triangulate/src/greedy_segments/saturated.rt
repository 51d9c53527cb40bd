//! Points whose neighbours leave no room for a further segment.

ghost use Rattle.std.specs.Prelude.{ℕ, ◌≡◌, ◌<◌, ◌↔◌, pos, ◌<ℤ◌, IsTrue, length};
ghost use Rattle.std.specs.Bool.{OnTrue, OnFalse};
ghost use Rattle.geom_exact.specs.Formulas.{turn_of};
ghost use Rattle.sight_names.specs.Map.{map_of};
ghost use Rattle.sight_names.specs.Plan.{IsPlan};
ghost use Rattle.triangulate.specs.GreedySegments.Saturated.{HasNoneLeft, HasTriangleLeft, HasNeighbourRight, HasFaceLeft, HasFaceRight, IsBetweenHeights, IsEmptyTriangle};
ghost use Rattle.triangulate.specs.IncidentSegments.Kept.{edges_of};
ghost use Rattle.triangulate.specs.GreedySegments.Rounds.{IsSaturated};
ghost use Rattle.triangulate.specs.IncidentSegments.Neighbours.{IsNeighbour};
ghost use Rattle.triangulate.specs.GreedySegments.Searched.{AreSearched};
ghost use Rattle.sight_names.specs.Map.{Map};

use crate::greedy_segments::searched::{Corners, Searched};
use crate::incident_segments::{IncidentSegments, are_joined, next_left};
use geom_exact::{in_triangle, turn};
use sight_names::{Plan, Pt};

/// How far apart the points are at which `shows_left` looks.
const STRIDE: usize = 64;

/// Whether one of a few points of the map, spread over it, is strictly on the left of the way. Most sides with a point there
/// show it by these.
fn shows_left(plan: &Plan, from: Pt, to: Pt) -> bool {
    let points = plan.points();
    let mut behind = points.len();
    while behind > 0 {
        if turn(from, to, points[behind - 1]) > 0 {
            return true;
        }
        behind = behind.saturating_sub(STRIDE);
    }
    false
}

/// Whether a point of the map is strictly on the left of the way from `a` to `b`.
fn has_left(plan: &Plan, a: u16, b: u16) -> bool
    requires first { a < length plan.now.points }
    requires second { b < length plan.now.points }
    ensures { OnFalse result (HasNoneLeft (map_of plan.now) a b) }
{
    let (from, to) = (plan.place(a), plan.place(b));
    if shows_left(plan, from, to) {
        return true;
    }
    for point in plan.points() {
        if turn(from, to, *point) > 0 {
            return true;
        }
    }
    false
}

/// A range of y.
#[derive(Clone, Copy)]
struct Heights {
    low: i32,
    high: i32,
}

/// The range of y that the corners span.
fn heights_of(a: Pt, b: Pt, c: Pt) -> Heights
    ensures first { IsBetweenHeights a result }
    ensures second { IsBetweenHeights b result }
    ensures third { IsBetweenHeights c result }
{
    Heights {
        low: a.y.min(b.y).min(c.y),
        high: a.y.max(b.y).max(c.y),
    }
}

/// Whether the point's y is in the range. Both sides are looked at: mostly one of them says no, and which one is a toss.
fn is_between(p: Pt, heights: Heights) -> bool
    ensures { IsTrue result ↔ IsBetweenHeights p heights }
{
    (heights.low <= p.y) & (p.y <= heights.high)
}

/// Whether the point is strictly inside the triangle, whose corners stand counterclockwise and span this range of y.
fn is_inside(a: Pt, b: Pt, c: Pt, heights: Heights, p: Pt) -> bool
    requires turn { pos 0 <ℤ turn_of a b c }
    requires first { IsBetweenHeights a heights }
    requires second { IsBetweenHeights b heights }
    requires third { IsBetweenHeights c heights }
    ensures { IsTrue result ↔ ((pos 0 <ℤ turn_of a b p) × (pos 0 <ℤ turn_of b c p) × (pos 0 <ℤ turn_of c a p)) }
{
    is_between(p, heights) && in_triangle(a, b, c, p)
}

/// Whether a point of the map is strictly inside the triangle, or its corners don't stand counterclockwise.
fn is_filled(plan: &Plan, a: u16, b: u16, c: u16) -> bool
    requires first { a < length plan.now.points }
    requires second { b < length plan.now.points }
    requires third { c < length plan.now.points }
    ensures empty { OnFalse result (IsEmptyTriangle (map_of plan.now) a b c) }
    ensures plan { IsPlan plan.now }
{
    let (p, q, r) = (plan.place(a), plan.place(b), plan.place(c));
    if turn(p, q, r) <= 0 {
        return true;
    }
    let heights = heights_of(p, q, r);
    for k in a.min(b).min(c)..a.max(b).max(c) {
        if is_inside(p, q, r, heights, plan.place(k)) {
            return true;
        }
    }
    false
}

/// The corners of a triangle, turned so that the least comes first.
fn corners_of(a: u16, b: u16, c: u16) -> Corners
    ensures there { (m : Map) → IsEmptyTriangle m a b c → IsEmptyTriangle m result.a result.b result.c }
    ensures back { (m : Map) → IsEmptyTriangle m result.a result.b result.c → IsEmptyTriangle m a b c }
{
    if a < b && a < c {
        Corners { a, b, c }
    } else if b < c {
        Corners { a: b, b: c, c: a }
    } else {
        Corners { a: c, b: a, c: b }
    }
}

/// Whether the triangle is known to be empty, or a search shows it.
fn is_empty(plan: &Plan, searched: &Searched, a: u16, b: u16, c: u16) -> bool
    requires first { a < length plan.now.points }
    requires second { b < length plan.now.points }
    requires third { c < length plan.now.points }
    requires searched { AreSearched (map_of plan.now) searched.now.triangles.items }
    ensures empty { OnTrue result (IsEmptyTriangle (map_of plan.now) a b c) }
    ensures plan { IsPlan plan.now }
{
    let _lines = plan.lines();
    searched.has_triangle(corners_of(a, b, c)) || !is_filled(plan, a, b, c)
}

/// The same, and an empty one is kept.
fn finds_empty(plan: &Plan, searched: &mut Searched, a: u16, b: u16, c: u16) -> bool
    requires first { a < length plan.now.points }
    requires second { b < length plan.now.points }
    requires third { c < length plan.now.points }
    requires searched { AreSearched (map_of plan.now) searched.old.triangles.items }
    ensures empty { OnTrue result (IsEmptyTriangle (map_of plan.now) a b c) }
    ensures searched { AreSearched (map_of plan.now) searched.new.triangles.items }
{
    if !is_empty(plan, searched, a, b, c) {
        return false;
    }
    searched.keep_triangle(corners_of(a, b, c));
    true
}

/// Whether an empty triangle of kept segments lies on the left of the way from `a` to its neighbour `b`.
fn has_triangle_left(
    plan: &Plan,
    incident: &IncidentSegments,
    searched: &Searched,
    a: u16,
    b: u16,
) -> bool
    requires points { incident.now.points ≡ length plan.now.points }
    requires first { a < incident.now.points }
    requires second { b < incident.now.points }
    requires searched { AreSearched (map_of plan.now) searched.now.triangles.items }
    ensures triangle { OnTrue result (HasTriangleLeft (map_of plan.now) incident.now.segments a b) }
    ensures plan { OnTrue result (IsPlan plan.now) }
{
    match next_left(plan, incident, a, b) {
        Some(c) => are_joined(incident, b, c) && is_empty(plan, searched, a, b, c),
        None => false,
    }
}

/// Whether there is no room on the left of the way from `a` to its neighbour `b`: an empty triangle lies there, or no point. A
/// neighbour on the left is a point there, so points are searched only where there is none.
fn has_face_left(
    plan: &Plan,
    incident: &IncidentSegments,
    searched: &mut Searched,
    a: u16,
    b: u16,
) -> bool
    requires points { incident.now.points ≡ length plan.now.points }
    requires first { a < incident.now.points }
    requires second { b < incident.now.points }
    requires searched { AreSearched (map_of plan.now) searched.old.triangles.items }
    ensures searched { AreSearched (map_of plan.now) searched.new.triangles.items }
    ensures face { OnTrue result (HasFaceLeft (map_of plan.now) incident.now.segments a b) }
{
    match next_left(plan, incident, a, b) {
        Some(c) => are_joined(incident, b, c) && finds_empty(plan, searched, a, b, c),
        None => !has_left(plan, a, b),
    }
}

/// Whether there is no room on its right: a neighbour lies there, whose own left side has none, or no point.
fn has_face_right(plan: &Plan, incident: &IncidentSegments, a: u16, b: u16) -> bool
    requires points { incident.now.points ≡ length plan.now.points }
    requires first { a < incident.now.points }
    requires second { b < incident.now.points }
    ensures { OnTrue result (HasFaceRight (map_of plan.now) incident.now.segments a b) }
{
    if has_neighbour_right(plan, incident, a, b) {
        return true;
    }
    !has_left(plan, b, a)
}

/// Whether a neighbour of `a` is strictly on the right of the way to its neighbour `b`.
fn has_neighbour_right(plan: &Plan, incident: &IncidentSegments, a: u16, b: u16) -> bool
    requires points { incident.now.points ≡ length plan.now.points }
    requires first { a < incident.now.points }
    requires second { b < incident.now.points }
    ensures { OnTrue result (HasNeighbourRight (map_of plan.now) incident.now.segments a b) }
{
    let (from, to) = (plan.place(a), plan.place(b));
    let mut at = incident.last(a);
    while at > 0 {
        if turn(from, to, plan.place(incident.other(at - 1, a))) < 0 {
            return true;
        }
        at = incident.earlier(at - 1, a);
    }
    false
}

/// Whether the segment to each neighbour of the point has no room on its left.
fn have_left_faces(
    plan: &Plan,
    incident: &IncidentSegments,
    searched: &mut Searched,
    a: u16,
) -> bool
    requires points { incident.now.points ≡ length plan.now.points }
    requires at { a < incident.now.points }
    requires searched { AreSearched (map_of plan.now) searched.old.triangles.items }
    ensures searched { AreSearched (map_of plan.now) searched.new.triangles.items }
    ensures faces { OnTrue result ((v : ℕ) → IsNeighbour incident.now.segments a v → HasFaceLeft (map_of plan.now) incident.now.segments a v) }
{
    let mut at = incident.last(a);
    while at > 0 {
        if !has_face_left(plan, incident, searched, a, incident.other(at - 1, a)) {
            return false;
        }
        at = incident.earlier(at - 1, a);
    }
    true
}

/// Whether the segment to each neighbour of the point has no room on its right, where none has on its left.
fn have_right_faces(plan: &Plan, incident: &IncidentSegments, a: u16) -> bool
    requires points { incident.now.points ≡ length plan.now.points }
    requires at { a < incident.now.points }
    ensures { OnTrue result ((v : ℕ) → IsNeighbour incident.now.segments a v → HasFaceRight (map_of plan.now) incident.now.segments a v) }
{
    let mut at = incident.last(a);
    while at > 0 {
        if !has_face_right(plan, incident, a, incident.other(at - 1, a)) {
            return false;
        }
        at = incident.earlier(at - 1, a);
    }
    true
}

/// Whether the segment to some neighbour of the point has an empty triangle on its left.
fn has_triangle_at(plan: &Plan, incident: &IncidentSegments, searched: &Searched, a: u16) -> bool
    requires points { incident.now.points ≡ length plan.now.points }
    requires at { a < incident.now.points }
    requires searched { AreSearched (map_of plan.now) searched.now.triangles.items }
    ensures plan { OnTrue result (IsPlan plan.now) }
    ensures triangle { OnTrue result ((v : ℕ) × IsNeighbour incident.now.segments a v × HasTriangleLeft (map_of plan.now) incident.now.segments a v) }
{
    let mut at = incident.last(a);
    while at > 0 {
        let b = incident.other(at - 1, a);
        if has_triangle_left(plan, incident, searched, a, b) {
            return true;
        }
        at = incident.earlier(at - 1, a);
    }
    false
}

/// Whether the segments to all neighbours of the point have no room on either side, and some have a triangle on the left.
pub fn is_saturated(
    plan: &Plan,
    incident: &IncidentSegments,
    searched: &mut Searched,
    a: u16,
) -> bool
    requires points { incident.now.points ≡ length plan.now.points }
    requires at { a < incident.now.points }
    requires searched { AreSearched (map_of plan.now) searched.old.triangles.items }
    ensures searched { AreSearched (map_of plan.now) searched.new.triangles.items }
    ensures saturated { OnTrue result (IsSaturated (map_of plan.now) (edges_of incident.now.segments) a) }
{
    if !have_left_faces(plan, incident, searched, a) {
        return false;
    }
    if !have_right_faces(plan, incident, a) {
        return false;
    }
    has_triangle_at(plan, incident, searched, a)
}
