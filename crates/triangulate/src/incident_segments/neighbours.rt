//! The neighbours of a point: the other ends of the segments there.

ghost use Rattle.std.specs.Prelude.{◌≡◌, ◌<◌, ◌↔◌, IsTrue, IfSome, length};
ghost use Rattle.sight_names.specs.Map.{map_of};
ghost use Rattle.triangulate.specs.IncidentSegments.Neighbours.{IsNeighbour};
ghost use Rattle.triangulate.specs.IncidentSegments.Next.{IsNextLeft, IsNextRight, IsBestLeft, IsBestRight};

use crate::incident_segments::incident::IncidentSegments;
use geom_exact::turn;
use sight_names::{Plan, Pt};

/// Whether a segment joins the two points.
pub fn are_joined(incident: &IncidentSegments, u: u16, v: u16) -> bool
    requires { u < incident.now.points }
    ensures { IsTrue result ↔ IsNeighbour incident.now.segments u v }
{
    let mut at = incident.last(u);
    while at > 0 {
        if incident.other(at - 1, u) == v {
            return true;
        }
        at = incident.earlier(at - 1, u);
    }
    false
}

/// Of a neighbour `c` and the best one so far, the one that comes first counterclockwise from the direction of `b`,
/// among those strictly on the left of the way from `a` to `b`.
pub fn first_left(plan: &Plan, a: Pt, b: Pt, best: Option<u16>, c: u16) -> Option<u16>
    requires best { IfSome best (λ d. d < length plan.now.points) }
    requires next { c < length plan.now.points }
    ensures within { IfSome result (λ d. d < length plan.now.points) }
    ensures best { IsBestLeft (map_of plan.now) a b best c result }
{
    let end = plan.place(c);
    if turn(a, b, end) <= 0 {
        return best;
    }
    match best {
        Some(d) => {
            if turn(a, plan.place(d), end) < 0 {
                Some(c)
            } else {
                best
            }
        }
        None => Some(c),
    }
}

/// The same clockwise, among those strictly on the right.
pub fn first_right(plan: &Plan, a: Pt, b: Pt, best: Option<u16>, c: u16) -> Option<u16>
    requires best { IfSome best (λ d. d < length plan.now.points) }
    requires next { c < length plan.now.points }
    ensures within { IfSome result (λ d. d < length plan.now.points) }
    ensures best { IsBestRight (map_of plan.now) a b best c result }
{
    let end = plan.place(c);
    if turn(a, b, end) >= 0 {
        return best;
    }
    match best {
        Some(d) => {
            if turn(a, plan.place(d), end) > 0 {
                Some(c)
            } else {
                best
            }
        }
        None => Some(c),
    }
}

/// The first neighbour of `a` counterclockwise from the direction of `b`, among those strictly on the left.
pub fn next_left(plan: &Plan, incident: &IncidentSegments, a: u16, b: u16) -> Option<u16>
    requires points { incident.now.points ≡ length plan.now.points }
    requires first { a < incident.now.points }
    requires second { b < incident.now.points }
    ensures within { IfSome result (λ d. d < length plan.now.points) }
    ensures first { IsNextLeft (map_of plan.now) incident.now.segments a b result }
{
    let (from, to) = (plan.place(a), plan.place(b));
    let mut best = None;
    let mut at = incident.last(a);
    while at > 0 {
        best = first_left(plan, from, to, best, incident.other(at - 1, a));
        at = incident.earlier(at - 1, a);
    }
    best
}

/// The first neighbour of `a` clockwise from the direction of `b`, among those strictly on the right.
pub fn next_right(plan: &Plan, incident: &IncidentSegments, a: u16, b: u16) -> Option<u16>
    requires points { incident.now.points ≡ length plan.now.points }
    requires first { a < incident.now.points }
    requires second { b < incident.now.points }
    ensures within { IfSome result (λ d. d < length plan.now.points) }
    ensures first { IsNextRight (map_of plan.now) incident.now.segments a b result }
{
    let (from, to) = (plan.place(a), plan.place(b));
    let mut best = None;
    let mut at = incident.last(a);
    while at > 0 {
        best = first_right(plan, from, to, best, incident.other(at - 1, a));
        at = incident.earlier(at - 1, a);
    }
    best
}
