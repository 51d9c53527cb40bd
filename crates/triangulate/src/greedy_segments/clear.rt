//! Whether a pair of points is clear of the kept segments.

ghost use Rattle.std.specs.Prelude.{◌≡◌, ◌<◌, ◌≢◌, ◌↔◌, IsTrue, length};
ghost use Rattle.std.specs.Bool.{OnTrue, OnFalse};
ghost use Rattle.sight_names.specs.Map.{map_of};
ghost use Rattle.sight_names.specs.Plan.{IsPlan};
ghost use Rattle.sight_names.specs.Sound.{MeetAtEnds};
ghost use Rattle.triangulate.specs.IncidentSegments.Kept.{edges_of, MeetsEach, IsCrossedBy};
ghost use Rattle.triangulate.specs.GreedySegments.Crossed.{SegmentsMeet, IsSegmentCrossedAt};
ghost use Rattle.triangulate.specs.GreedySegments.Extents.{AreExtents};

use crate::greedy_segments::extents::{Extents, pair_extent_of};
use crate::incident_segments::{IncidentSegments, are_joined, first_left, first_right};
use geom_exact::turn;
use mesh_shape::meet_at_ends;
use sight_names::{Plan, Pt};

/// Whether each segment at `u` meets the segment from `i` to `j` at ends of both alone.
pub fn segments_meet(plan: &Plan, incident: &IncidentSegments, u: u16, i: u16, j: u16) -> bool
    requires points { incident.now.points ≡ length plan.now.points }
    requires at { u < incident.now.points }
    requires first { i < incident.now.points }
    requires second { j < incident.now.points }
    requires differ { i ≢ j }
    ensures meet { OnTrue result (SegmentsMeet (map_of plan.now) incident.now.segments u (record { from = i; to = j })) }
    ensures barred { OnFalse result (IsSegmentCrossedAt (map_of plan.now) incident.now.segments u (record { from = i; to = j })) }
    ensures plan { IsPlan plan.now }
{
    let (hub, from, to) = (plan.place(u), plan.place(i), plan.place(j));
    let mut at = incident.last(u);
    while at > 0 {
        let end = plan.place(incident.other(at - 1, u));
        if !is_met(from, to, hub, end) {
            return false;
        }
        at = incident.earlier(at - 1, u);
    }
    true
}

/// Whether the segments from `p` to `q` and from `r` to `s` meet at ends of both alone. Most lie one above the other, which
/// is seen without a product.
fn is_met(p: Pt, q: Pt, r: Pt, s: Pt) -> bool
    requires first { p ≢ q }
    requires second { r ≢ s }
    ensures { IsTrue result ↔ MeetAtEnds p q r s }
{
    if p.y < r.y && p.y < s.y && q.y < r.y && q.y < s.y {
        return true;
    }
    if r.y < p.y && r.y < q.y && s.y < p.y && s.y < q.y {
        return true;
    }
    meet_at_ends(p, q, r, s)
}

/// Whether the segments from `p` to `q` and from `p` to `s` have `p` alone in common. Off one line they do.
fn is_fan(p: Pt, q: Pt, s: Pt) -> bool
    requires first { p ≢ q }
    requires second { p ≢ s }
    ensures { IsTrue result ↔ MeetAtEnds p q p s }
{
    if turn(p, q, s) == 0 {
        return meet_at_ends(p, q, p, s);
    }
    true
}

/// Whether each segment at `u` meets the segment from `i` to `j` at ends of both alone, as those at `i` do.
fn segments_meet_beyond(plan: &Plan, incident: &IncidentSegments, u: u16, i: u16, j: u16) -> bool
    requires points { incident.now.points ≡ length plan.now.points }
    requires at { u < incident.now.points }
    requires first { i < incident.now.points }
    requires second { j < incident.now.points }
    requires differ { i ≢ j }
    requires near { SegmentsMeet (map_of plan.now) incident.now.segments i (record { from = i; to = j }) }
    ensures meet { OnTrue result (SegmentsMeet (map_of plan.now) incident.now.segments u (record { from = i; to = j })) }
    ensures barred { OnFalse result (IsSegmentCrossedAt (map_of plan.now) incident.now.segments u (record { from = i; to = j })) }
{
    if u == i {
        return true;
    }
    segments_meet(plan, incident, u, i, j)
}

/// Whether each kept segment meets the segment from `i` to `j` at ends of both alone, as those at `i` and `j` do. Segments whose point numbers are
/// all before `i` or all behind `j` are apart from it, and so are those of points whose extents lie above or below both.
pub fn is_clear(plan: &Plan, incident: &IncidentSegments, extents: &Extents, i: u16, j: u16) -> bool
    requires points { incident.now.points ≡ length plan.now.points }
    requires extents { AreExtents (map_of plan.now) incident.now.segments extents.now.extents.items }
    requires order { i < j }
    requires second { j < incident.now.points }
    requires near { SegmentsMeet (map_of plan.now) incident.now.segments i (record { from = i; to = j }) }
    requires far { SegmentsMeet (map_of plan.now) incident.now.segments j (record { from = i; to = j }) }
    ensures free { OnTrue result (MeetsEach (map_of plan.now) (edges_of incident.now.segments) (record { from = i; to = j })) }
    ensures barred { OnFalse result (IsCrossedBy (map_of plan.now) (edges_of incident.now.segments) (record { from = i; to = j })) }
{
    let kept = incident.segments();
    if kept.is_empty() {
        return true;
    }
    let pair_extent = pair_extent_of(plan, i, j);
    let mut u = extents.next(0, pair_extent);
    while u < j {
        if !segments_meet_beyond(plan, incident, u, i, j) {
            return false;
        }
        u = extents.next(u + 1, pair_extent);
    }
    true
}

/// Whether a segment joins `u` and `v` and meets the segment from `i` to `j` otherwise than at ends of both.
fn is_crossed_by(plan: &Plan, incident: &IncidentSegments, u: u16, v: u16, i: u16, j: u16) -> bool
    requires points { incident.now.points ≡ length plan.now.points }
    requires left { u < incident.now.points }
    requires right { v < incident.now.points }
    requires first { i < incident.now.points }
    requires second { j < incident.now.points }
    requires differ { i ≢ j }
    ensures { OnTrue result (IsCrossedBy (map_of plan.now) (edges_of incident.now.segments) (record { from = i; to = j })) }
{
    if u == v {
        return false;
    }
    if !are_joined(incident, u, v) {
        return false;
    }
    let (left, right, from, to) = (plan.place(u), plan.place(v), plan.place(i), plan.place(j));
    !meet_at_ends(from, to, left, right)
}

/// Whether the segments to the neighbours of `i` on both sides of the direction of `j`, or the segment between their ends, show that the
/// segment from `i` to `j` meets a kept one otherwise than at ends of both. Where they don't, it meets those at `i` at ends alone.
pub fn is_crossed(plan: &Plan, incident: &IncidentSegments, i: u16, j: u16) -> bool
    requires points { incident.now.points ≡ length plan.now.points }
    requires first { i < incident.now.points }
    requires second { j < incident.now.points }
    requires differ { i ≢ j }
    ensures crossed { OnTrue result (IsCrossedBy (map_of plan.now) (edges_of incident.now.segments) (record { from = i; to = j })) }
    ensures meet { OnFalse result (SegmentsMeet (map_of plan.now) incident.now.segments i (record { from = i; to = j })) }
{
    let (from, to) = (plan.place(i), plan.place(j));
    let (mut left, mut right) = (None, None);
    let mut at = incident.last(i);
    while at > 0 {
        let c = incident.other(at - 1, i);
        let end = plan.place(c);
        if !is_fan(from, to, end) {
            return true;
        }
        left = first_left(plan, from, to, left, c);
        right = first_right(plan, from, to, right, c);
        at = incident.earlier(at - 1, i);
    }
    match (left, right) {
        (Some(u), Some(v)) => is_crossed_by(plan, incident, u, v, i, j),
        _ => false,
    }
}
