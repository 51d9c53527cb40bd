//! A round's work on the unsaturated points in parts, as tasks: what comes of a part depends on the segments alone that were
//! kept before the round.

ghost use Rattle.std.specs.Prelude.{◌≡◌, ℕ, ◌+◌, ◌*◌, ◌<◌, ◌≤◌, ◌^◌, IfOk, OnOk, Contains, drop, flat_map, length, take};
ghost use Rattle.sight_names.specs.Map.{map_of};
ghost use Rattle.sight_names.specs.Greedy.{IsPointPair};
ghost use Rattle.triangulate.specs.declared.greedy_segments.rounds.PointPair.{PointPair};
ghost use Rattle.triangulate.specs.IncidentSegments.Kept.{edges_of};
ghost use Rattle.triangulate.specs.GreedySegments.Pairs.{AreNumbers, pair_edge};
ghost use Rattle.triangulate.specs.GreedySegments.Rounds.{AddsIfUncrossed, AreUncrossedFrom, AreUnsaturated, LeavesUncrossed};

use crate::greedy_segments::clear::is_crossed;
use crate::greedy_segments::rounds::{PointPair, pairs_from, unsaturated_points};
use crate::greedy_segments::searched::Searched;
use crate::incident_segments::IncidentSegments;
use sight_names::{Memory, Plan};
use std::alloc::Global;
use task_crew::Tasks;

/// How many points one task looks at.
pub const PART: usize = 256;

/// In how many parts so many points come.
pub fn parts_of(count: usize) -> usize
    ensures enough { count ≤ result * PART }
    ensures within { (i : ℕ) → i < result → i * PART < count }
{
    count.div_ceil(PART)
}

/// So many of the numbers from this place on, or as many as there are.
fn numbers_at(numbers: &[u16], at: usize, count: usize) -> &[u16]
    ensures { result.now ≡ take count (drop at numbers.now) }
{
    let behind = &numbers[at.min(numbers.len())..];
    &behind[..count.min(behind.len())]
}

/// What stands in each of these lists, one after the other.
pub fn joined<T: Copy>(alloc: Global, parts: &[Vec<T>]) -> Result<Vec<T>, Memory>
    ensures { IfOk result (λ v. v.items ≡ flat_map (λ p. p.items) parts.now) }
{
    let mut all = Vec::new(alloc);
    for part in parts {
        all.extend_from_slice(part.as_slice())?;
    }
    Ok(all)
}

/// Unsaturated points, looked at again in parts.
#[derive(Drop)]
pub struct PointParts<'a> {
    pub plan: &'a Plan,
    pub incident: &'a IncidentSegments,
    pub unsaturated: &'a [u16],
}

impl<'a> Tasks for PointParts<'a> {
    ghost use Rattle.triangulate.specs.declared.greedy_segments.parts.TheConstants.{PART};

    type Tools = ();

    type Done = Vec<u16>;

    ghost can_do = { λ w i. (w.incident.now.points ≡ length w.plan.now.points) × AreNumbers (length w.plan.now.points) w.unsaturated.now × (i * PART < length w.unsaturated.now) };

    ghost is_done = { λ w i v. AreUnsaturated (map_of w.plan.now) (edges_of w.incident.now.segments) (length w.plan.now.points) (take PART (drop (i * PART) w.unsaturated.now)) v.items };

    fn tools(&self, alloc: Global) {
        let _ = alloc;
    }

    fn work(&self, alloc: Global, tools: &mut (), number: usize) -> Result<Vec<u16>, Memory> {
        let _ = tools;
        let mut searched = Searched::nothing(alloc)?;
        let part = numbers_at(self.unsaturated, number * PART, PART);
        unsaturated_points(alloc, self.plan, self.incident, &mut searched, part)
    }
}

/// Pairs of unsaturated points at least `low` and less than `high` apart, looked for in parts.
#[derive(Drop)]
pub struct PairParts<'a> {
    pub plan: &'a Plan,
    pub incident: &'a IncidentSegments,
    pub unsaturated: &'a [u16],
    pub low: u32,
    pub high: u32,
}

impl<'a> Tasks for PairParts<'a> {
    ghost use Rattle.triangulate.specs.declared.greedy_segments.parts.TheConstants.{PART};

    type Tools = ();

    type Done = Vec<PointPair>;

    ghost can_do = { λ w i. (w.incident.now.points ≡ length w.plan.now.points) × AreNumbers (length w.plan.now.points) w.unsaturated.now × (w.low ≤ 2 ^ 27) × (w.high ≤ 2 ^ 28) × (i * PART < length w.unsaturated.now) };

    ghost is_done = { λ w i v. AreUncrossedFrom (map_of w.plan.now) (edges_of w.incident.now.segments) w.unsaturated.now w.low w.high (i * PART) (i * PART + PART) v.items };

    fn tools(&self, alloc: Global) {
        let _ = alloc;
    }

    fn work(&self, alloc: Global, tools: &mut (), number: usize) -> Result<Vec<PointPair>, Memory> {
        let _ = tools;
        let _ = self.plan.lines();
        let points = self.unsaturated;
        let begin = number * PART;
        let end = begin + PART.min(points.len() - begin);
        let pairs = pairs_from(alloc, self.plan, points, begin, end, self.low, self.high)?;
        uncrossed(alloc, self.plan, self.incident, pairs.as_slice())
    }
}

/// Those pairs of which the segments at their ends don't show that a kept segment crosses them.
fn uncrossed(
    alloc: Global,
    plan: &Plan,
    incident: &IncidentSegments,
    pairs: &[PointPair],
) -> Result<Vec<PointPair>, Memory>
    requires points { incident.now.points ≡ length plan.now.points }
    requires pairs { (p : PointPair) → Contains pairs.now p → (p.from < p.to) × (p.to < length plan.now.points) }
    ensures { IfOk result (λ v. LeavesUncrossed (map_of plan.now) (edges_of incident.now.segments) pairs.now v.items) }
{
    let mut left = Vec::new(alloc);
    for pair in pairs {
        push_if_uncrossed(plan, incident, &mut left, *pair)?;
    }
    Ok(left)
}

/// Adds the pair, unless the segments at its ends show that a kept segment crosses it.
fn push_if_uncrossed(
    plan: &Plan,
    incident: &IncidentSegments,
    left: &mut Vec<PointPair>,
    pair: PointPair,
) -> Result<(), Memory>
    requires points { incident.now.points ≡ length plan.now.points }
    requires order { pair.from < pair.to }
    requires within { pair.to < length plan.now.points }
    ensures { OnOk result (AddsIfUncrossed (map_of plan.now) (edges_of incident.now.segments) pair left.old.items left.new.items) }
{
    if is_crossed(plan, incident, pair.from, pair.to) {
        return Ok(());
    }
    if is_crossed(plan, incident, pair.to, pair.from) {
        return Ok(());
    }
    left.push(pair)?;
    Ok(())
}
