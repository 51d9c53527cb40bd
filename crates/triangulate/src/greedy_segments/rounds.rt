//! The greedy segments, in rounds of rising length. A point whose neighbours leave no room is in no further segment, so its
//! pairs aren't made.

ghost use Rattle.std.specs.Prelude.{ℕ, ◌≡◌, ◌<◌, ◌≤◌, ◌⊎◌, ◌↔◌, ◌++◌, ◌*◌, ◌^◌, ◌-ℤ◌, nat_abs, IsTrue, IfSome, IfOk, OnOk, Contains, length};
ghost use Rattle.std.specs.Bool.{OnTrue};
ghost use Rattle.std.specs.List.Sorted.{IsPermutation};
ghost use Rattle.sight_names.specs.Map.{map_of};
ghost use Rattle.sight_names.specs.Plan.{IsPlan, IsPlanLine};
ghost use Rattle.sight_names.specs.Greedy.{square_length, line_edges, IsGreedy, IsPointPair};
ghost use Rattle.triangulate.specs.declared.greedy_segments.rounds.PointPair.{PointPair};
ghost use Rattle.triangulate.specs.IncidentSegments.Kept.{AreEdges, edges_of};
ghost use Rattle.triangulate.specs.GreedySegments.Pairs.{AreNumbers, ArePointPairsInOrder, ArePairsBetween, ArePairsFrom, AddsIfBetween, AddsPairs, IsReach, IsSquareBetween, IsPointWithin, pair_edge};
ghost use Rattle.triangulate.specs.GreedySegments.Extents.{AreExtents};
ghost use Rattle.triangulate.specs.GreedySegments.Searched.{AreSearched};
ghost use Rattle.triangulate.specs.GreedySegments.Rounds.{AddsIfUnsaturated, AreUnsaturated, KeepsClear, KeepsIfClear, edges_of_line};

use crate::greedy_segments::clear::{is_clear, is_crossed};
use crate::greedy_segments::extents::Extents;
use crate::greedy_segments::saturated::is_saturated;
use crate::greedy_segments::searched::Searched;
use crate::greedy_segments::workers::{Alone, SegmentWorkers};
use crate::incident_segments::{IncidentSegments, Segments};
use sight_names::{Line, Memory, Plan, Pt};
use std::alloc::Global;

/// A pair of points by the square of its length.
#[derive(Clone, Copy, PartialEq, Eq, PartialOrd, Ord)]
pub struct PointPair {
    pub square: u64,
    pub from: u16,
    pub to: u16,
}

/// The lines in record order, and then all pairs of points by squared length, first number and second number that share
/// with each segment kept so far nothing but an end of both.
pub fn greedy(alloc: Global, plan: &Plan) -> Result<Segments, Memory>
    ensures edges { IfOk result (AreEdges (length plan.now.points)) }
    ensures greedy { IfOk result (λ kept. IsGreedy (map_of plan.now) kept) }
{
    greedy_by(&Alone, alloc, plan)
}

/// The same by these workers.
pub fn greedy_by<W: SegmentWorkers>(
    workers: &W,
    alloc: Global,
    plan: &Plan,
) -> Result<Segments, Memory>
    requires can { W.can_work workers.now }
    ensures edges { IfOk result (AreEdges (length plan.now.points)) }
    ensures greedy { IfOk result (λ kept. IsGreedy (map_of plan.now) kept) }
{
    let mut incident = lines_of(alloc, plan)?;
    let mut extents = extents_of(alloc, plan, &incident)?;
    let mut searched = Searched::nothing(alloc)?;
    let mut unsaturated = all_points(alloc, plan)?;
    let longest = 3 * reach_of(plan) + 1;
    let mut low = 0u32;
    let mut high = 64u32;
    while low < longest {
        unsaturated = workers.find_unsaturated(
            alloc,
            plan,
            &incident,
            &mut searched,
            unsaturated.as_slice(),
        )?;
        let left = unsaturated.as_slice();
        let mut pairs = workers.find_pairs(alloc, plan, &incident, left, low, high)?;
        sort_pairs(&mut pairs);
        keep_clear_pairs(plan, &mut incident, &mut extents, pairs.as_slice())?;
        low = high;
        high += high / 2;
    }
    Ok(Segments::of(incident.into_segments()))
}

/// The lines of the plan, in record order.
fn lines_of(alloc: Global, plan: &Plan) -> Result<IncidentSegments, Memory>
    ensures points { IfOk result (λ w. w.points ≡ length plan.now.points) }
    ensures lines { IfOk result (λ w. edges_of w.segments ≡ line_edges (map_of plan.now)) }
    ensures plan { IfOk result (λ w. IsPlan plan.now) }
{
    let lines = plan.lines();
    let mut incident = IncidentSegments::new(alloc, plan.points().len() as u16)?;
    for line in lines {
        push_line(plan, &mut incident, *line)?;
    }
    Ok(incident)
}

/// Keeps the line, where there is one.
fn push_line(plan: &Plan, incident: &mut IncidentSegments, line: Option<Line>) -> Result<(), Memory>
    requires points { incident.old.points ≡ length plan.now.points }
    requires fits { IfSome line (IsPlanLine plan.now.sectors (length plan.now.points)) }
    ensures points { OnOk result (incident.new.points ≡ length plan.now.points) }
    ensures line { OnOk result (edges_of incident.new.segments ≡ edges_of incident.old.segments ++ edges_of_line line) }
{
    if let Some(line) = line {
        incident.push(line.a, line.b)?;
    }
    Ok(())
}

/// The extents of all points, by the segments so far.
fn extents_of(alloc: Global, plan: &Plan, incident: &IncidentSegments) -> Result<Extents, Memory>
    requires points { incident.now.points ≡ length plan.now.points }
    ensures { IfOk result (λ s. AreExtents (map_of plan.now) incident.now.segments s.extents.items) }
{
    let mut extents = Extents::of(alloc, plan)?;
    for segment in incident.segments() {
        extents.add(plan, segment.from, segment.to);
    }
    Ok(extents)
}

/// The greatest absolute value of a coordinate. No segment is three times as long.
fn reach_of(plan: &Plan) -> u32
    ensures bound { result ≤ 2 ^ 25 }
    ensures all { IsReach (map_of plan.now) result }
{
    let mut most = 0u32;
    for point in plan.points() {
        most = most.max(reach_of_point(*point));
    }
    most
}

/// The greater absolute value of the two coordinates.
fn reach_of_point(p: Pt) -> u32
    ensures bound { result ≤ 2 ^ 25 }
    ensures all { IsPointWithin result p }
{
    let across = p.x.unsigned_abs();
    let up = p.y.unsigned_abs();
    across.max(up)
}

/// All point numbers.
fn all_points(alloc: Global, plan: &Plan) -> Result<Vec<u16>, Memory>
    ensures numbers { IfOk result (λ v. AreNumbers (length plan.now.points) v.items) }
    ensures all { IfOk result (λ v. (k : ℕ) → k < length plan.now.points → Contains v.items k) }
{
    let mut numbers = Vec::new(alloc);
    for k in 0..plan.points().len() as u16 {
        numbers.push(k)?;
    }
    Ok(numbers)
}

/// The points that aren't closed.
pub fn unsaturated_points(
    alloc: Global,
    plan: &Plan,
    incident: &IncidentSegments,
    searched: &mut Searched,
    unsaturated: &[u16],
) -> Result<Vec<u16>, Memory>
    requires points { incident.now.points ≡ length plan.now.points }
    requires searched { AreSearched (map_of plan.now) searched.old.triangles.items }
    requires unsaturated { AreNumbers (length plan.now.points) unsaturated.now }
    ensures searched { AreSearched (map_of plan.now) searched.new.triangles.items }
    ensures left { IfOk result (λ v. AreUnsaturated (map_of plan.now) (edges_of incident.now.segments) (length plan.now.points) unsaturated.now v.items) }
{
    let mut others = Vec::new(alloc);
    for k in unsaturated {
        push_if_unsaturated(plan, incident, searched, &mut others, *k)?;
    }
    Ok(others)
}

/// Adds the point, unless it is closed.
fn push_if_unsaturated(
    plan: &Plan,
    incident: &IncidentSegments,
    searched: &mut Searched,
    others: &mut Vec<u16>,
    k: u16,
) -> Result<(), Memory>
    requires points { incident.now.points ≡ length plan.now.points }
    requires within { k < incident.now.points }
    requires searched { AreSearched (map_of plan.now) searched.old.triangles.items }
    ensures searched { AreSearched (map_of plan.now) searched.new.triangles.items }
    ensures adds { OnOk result (AddsIfUnsaturated (map_of plan.now) (edges_of incident.now.segments) k others.old.items others.new.items) }
{
    if is_saturated(plan, incident, searched, k) {
        return Ok(());
    }
    others.push(k)?;
    Ok(())
}

/// The square of the distance between two points.
fn square_of(p: Pt, q: Pt) -> u64
    ensures value { result ≡ square_length p q }
    ensures bound { result ≤ 2 ^ 53 }
{
    let across = difference(p.x, q.x);
    let up = difference(p.y, q.y);
    across * across + up * up
}

/// How far `b` is from `a`.
fn difference(a: i32, b: i32) -> u64
    requires from { nat_abs a ≤ 2 ^ 25 }
    requires to { nat_abs b ≤ 2 ^ 25 }
    ensures value { result ≡ nat_abs (b -ℤ a) }
    ensures bound { result ≤ 2 ^ 26 }
{
    b.abs_diff(a) as u64
}

/// Whether `q` is at least `high` on the right of `p`.
fn is_past(p: Pt, q: Pt, high: u32) -> bool
    requires high { high ≤ 2 ^ 28 }
    ensures { OnTrue result (high ≤ nat_abs (q.x -ℤ p.x)) }
{
    q.x as i64 >= p.x as i64 + high as i64
}

/// Whether `q` is at least `high` above `p`.
fn is_above(p: Pt, q: Pt, high: u32) -> bool
    requires high { high ≤ 2 ^ 28 }
    ensures { OnTrue result (high ≤ nat_abs (q.y -ℤ p.y)) }
{
    q.y as i64 >= p.y as i64 + high as i64
}

/// The pairs of unsaturated points at least `low` and less than `high` apart.
pub fn pairs_between(
    alloc: Global,
    plan: &Plan,
    unsaturated: &[u16],
    low: u32,
    high: u32,
) -> Result<Vec<PointPair>, Memory>
    requires unsaturated { AreNumbers (length plan.now.points) unsaturated.now }
    requires low { low ≤ 2 ^ 27 }
    requires high { high ≤ 2 ^ 28 }
    ensures { IfOk result (λ v. ArePairsBetween (map_of plan.now) unsaturated.now low high v.items) }
{
    pairs_from(alloc, plan, unsaturated, 0, unsaturated.len(), low, high)
}

/// The pairs of those unsaturated points that stand from `begin` on and before `end`, each with those behind it, as far as
/// they are at least `low` and less than `high` apart.
pub fn pairs_from(
    alloc: Global,
    plan: &Plan,
    unsaturated: &[u16],
    begin: usize,
    end: usize,
    low: u32,
    high: u32,
) -> Result<Vec<PointPair>, Memory>
    requires unsaturated { AreNumbers (length plan.now.points) unsaturated.now }
    requires within { end ≤ length unsaturated.now }
    requires low { low ≤ 2 ^ 27 }
    requires high { high ≤ 2 ^ 28 }
    ensures { IfOk result (λ v. ArePairsFrom (map_of plan.now) unsaturated.now low high begin end v.items) }
{
    let mut pairs = Vec::new(alloc);
    for at in begin..end {
        let later = &unsaturated[at + 1..];
        add_pairs(plan, &mut pairs, unsaturated[at], later, low, high)?;
    }
    Ok(pairs)
}

/// Adds the pairs of `from` with those later points, which ascend by x.
#[inline(never)]
fn add_pairs(
    plan: &Plan,
    pairs: &mut Vec<PointPair>,
    from: u16,
    later: &[u16],
    low: u32,
    high: u32,
) -> Result<(), Memory>
    requires from { from < length plan.now.points }
    requires later { AreNumbers (length plan.now.points) later.now }
    requires behind { (k : ℕ) → Contains later.now k → from < k }
    requires low { low ≤ 2 ^ 27 }
    requires high { high ≤ 2 ^ 28 }
    ensures { OnOk result (AddsPairs (map_of plan.now) from later.now low high pairs.old.items pairs.new.items) }
{
    let start = plan.place(from);
    for to in later {
        let end = plan.place(*to);
        if is_past(start, end, high) {
            return Ok(());
        }
        add_near(pairs, start, end, from, *to, low, high)?;
    }
    Ok(())
}

/// Adds the pair of two points at these places, unless its length isn't in the range. Most that are near enough by x are too
/// far by y.
fn add_near(
    pairs: &mut Vec<PointPair>,
    start: Pt,
    end: Pt,
    from: u16,
    to: u16,
    low: u32,
    high: u32,
) -> Result<(), Memory>
    requires low { low ≤ 2 ^ 27 }
    requires high { high ≤ 2 ^ 28 }
    ensures { OnOk result (AddsIfBetween low high (record { square = square_length start end; from = from; to = to }) pairs.old.items pairs.new.items) }
{
    if is_above(start, end, high) {
        return Ok(());
    }
    if is_above(end, start, high) {
        return Ok(());
    }
    let square = square_of(start, end);
    add_pair(pairs, PointPair { square, from, to }, low, high)
}

/// Adds the pair, unless its length isn't in the range.
fn add_pair(pairs: &mut Vec<PointPair>, pair: PointPair, low: u32, high: u32) -> Result<(), Memory>
    requires low { low ≤ 2 ^ 27 }
    requires high { high ≤ 2 ^ 28 }
    ensures { OnOk result (AddsIfBetween low high pair pairs.old.items pairs.new.items) }
{
    if !is_between(pair.square, low, high) {
        return Ok(());
    }
    pairs.push(pair)?;
    Ok(())
}

/// Whether the square is at least that of `low` and less than that of `high`.
fn is_between(square: u64, low: u32, high: u32) -> bool
    requires low { low ≤ 2 ^ 27 }
    requires high { high ≤ 2 ^ 28 }
    ensures { IsTrue result ↔ IsSquareBetween low high square }
{
    low as u64 * low as u64 <= square && square < high as u64 * high as u64
}

/// Sorts the pairs by length, then by the first number, then by the second.
fn sort_pairs(pairs: &mut Vec<PointPair>)
    ensures same { IsPermutation pairs.old.items pairs.new.items }
    ensures order { ArePointPairsInOrder pairs.new.items }
{
    pairs.sort_unstable();
}

/// Keeps each pair, in order, that meets all kept segments at ends of both alone.
fn keep_clear_pairs(
    plan: &Plan,
    incident: &mut IncidentSegments,
    extents: &mut Extents,
    pairs: &[PointPair],
) -> Result<(), Memory>
    requires plan { IsPlan plan.now }
    requires points { incident.old.points ≡ length plan.now.points }
    requires extents { AreExtents (map_of plan.now) incident.old.segments extents.old.extents.items }
    requires order { ArePointPairsInOrder pairs.now }
    requires pairs { (p : PointPair) → Contains pairs.now p → IsPointPair (map_of plan.now) (pair_edge p) }
    ensures points { OnOk result (incident.new.points ≡ length plan.now.points) }
    ensures extents { OnOk result (AreExtents (map_of plan.now) incident.new.segments extents.new.extents.items) }
    ensures keeps { OnOk result (KeepsClear (map_of plan.now) pairs.now (edges_of incident.old.segments) (edges_of incident.new.segments)) }
{
    for pair in pairs {
        keep_if_clear(plan, incident, extents, *pair)?;
    }
    Ok(())
}

/// Keeps the pair, if it meets all kept segments at ends of both alone.
fn keep_if_clear(
    plan: &Plan,
    incident: &mut IncidentSegments,
    extents: &mut Extents,
    pair: PointPair,
) -> Result<(), Memory>
    requires points { incident.old.points ≡ length plan.now.points }
    requires extents { AreExtents (map_of plan.now) incident.old.segments extents.old.extents.items }
    requires order { pair.from < pair.to }
    requires within { pair.to < length plan.now.points }
    ensures points { OnOk result (incident.new.points ≡ length plan.now.points) }
    ensures extents { OnOk result (AreExtents (map_of plan.now) incident.new.segments extents.new.extents.items) }
    ensures keeps { OnOk result (KeepsIfClear (map_of plan.now) (pair_edge pair) (edges_of incident.old.segments) (edges_of incident.new.segments)) }
{
    if is_crossed(plan, incident, pair.from, pair.to) {
        return Ok(());
    }
    if is_crossed(plan, incident, pair.to, pair.from) {
        return Ok(());
    }
    if !is_clear(plan, incident, extents, pair.from, pair.to) {
        return Ok(());
    }
    incident.push(pair.from, pair.to)?;
    extents.add(plan, pair.from, pair.to);
    Ok(())
}
