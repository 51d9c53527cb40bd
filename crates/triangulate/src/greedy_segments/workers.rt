//! Who does a round's work on the unsaturated points.

ghost use denote.Param.Send.{IsSync};
ghost use Rattle.std.specs.Prelude.{◌≡◌, ◌≤◌, ◌^◌, IfOk, length};
ghost use Rattle.sight_names.specs.Map.{map_of};
ghost use Rattle.triangulate.specs.IncidentSegments.Kept.{edges_of};
ghost use Rattle.triangulate.specs.GreedySegments.Pairs.{AreNumbers};
ghost use Rattle.triangulate.specs.GreedySegments.Rounds.{AreUncrossed, AreUnsaturated};
ghost use Rattle.triangulate.specs.GreedySegments.Searched.{AreSearched};

use crate::greedy_segments::parts::{PairParts, PointParts, joined, parts_of};
use crate::greedy_segments::rounds::{PointPair, pairs_between, unsaturated_points};
use crate::greedy_segments::searched::Searched;
use crate::incident_segments::IncidentSegments;
use sight_names::{Memory, Plan};
use std::alloc::Global;
use std::thread::Threads;
use task_crew::shared;

/// With fewer points than this a round is done sooner than threads are started.
const FEW: usize = 512;

/// Those who look at the unsaturated points of a round. Which segments are kept doesn't depend on who they are.
pub trait SegmentWorkers {
    /// Whether they can work: threads share what all of them may look at.
    ghost can_work: { Self → Type 0 };

    /// Those of the points that are still unsaturated.
    fn find_unsaturated(
        &self,
        alloc: Global,
        plan: &Plan,
        incident: &IncidentSegments,
        searched: &mut Searched,
        unsaturated: &[u16],
    ) -> Result<Vec<u16>, Memory>
        requires can { can_work self.now }
        requires points { incident.now.points ≡ length plan.now.points }
        requires searched { AreSearched (map_of plan.now) searched.old.triangles.items }
        requires unsaturated { AreNumbers (length plan.now.points) unsaturated.now }
        ensures searched { AreSearched (map_of plan.now) searched.new.triangles.items }
        ensures left { IfOk result (λ v. AreUnsaturated (map_of plan.now) (edges_of incident.now.segments) (length plan.now.points) unsaturated.now v.items) };

    /// The pairs of these points that are at least `low` and less than `high` apart. Those that a kept segment crosses may be
    /// left out.
    fn find_pairs(
        &self,
        alloc: Global,
        plan: &Plan,
        incident: &IncidentSegments,
        unsaturated: &[u16],
        low: u32,
        high: u32,
    ) -> Result<Vec<PointPair>, Memory>
        requires can { can_work self.now }
        requires points { incident.now.points ≡ length plan.now.points }
        requires unsaturated { AreNumbers (length plan.now.points) unsaturated.now }
        requires low { low ≤ 2 ^ 27 }
        requires high { high ≤ 2 ^ 28 }
        ensures { IfOk result (λ v. AreUncrossed (map_of plan.now) (edges_of incident.now.segments) unsaturated.now low high v.items) };
}

/// One who works in the thread that calls.
#[derive(Drop)]
pub struct Alone;

impl SegmentWorkers for Alone {
    ghost can_work = { λ w. Unit {0} };

    fn find_unsaturated(
        &self,
        alloc: Global,
        plan: &Plan,
        incident: &IncidentSegments,
        searched: &mut Searched,
        unsaturated: &[u16],
    ) -> Result<Vec<u16>, Memory> {
        unsaturated_points(alloc, plan, incident, searched, unsaturated)
    }

    fn find_pairs(
        &self,
        alloc: Global,
        plan: &Plan,
        incident: &IncidentSegments,
        unsaturated: &[u16],
        low: u32,
        high: u32,
    ) -> Result<Vec<PointPair>, Memory> {
        let _ = incident;
        pairs_between(alloc, plan, unsaturated, low, high)
    }
}

/// So many workers, each in a thread where one can be had.
#[derive(Drop)]
pub struct InThreads<'a, R> {
    pub rt: &'a R,
    pub workers: u16,
}

impl<'a, R: Threads + Sync> SegmentWorkers for InThreads<'a, R> {
    ghost can_work = { λ w. IsSync R.row };

    fn find_unsaturated(
        &self,
        alloc: Global,
        plan: &Plan,
        incident: &IncidentSegments,
        searched: &mut Searched,
        unsaturated: &[u16],
    ) -> Result<Vec<u16>, Memory> {
        if self.workers <= 1 || unsaturated.len() < FEW {
            return unsaturated_points(alloc, plan, incident, searched, unsaturated);
        }
        let tasks = PointParts {
            plan,
            incident,
            unsaturated,
        };
        let count = parts_of(unsaturated.len());
        let parts = shared(self.rt, alloc, &tasks, count, usize::from(self.workers))?;
        joined(alloc, parts.as_slice())
    }

    fn find_pairs(
        &self,
        alloc: Global,
        plan: &Plan,
        incident: &IncidentSegments,
        unsaturated: &[u16],
        low: u32,
        high: u32,
    ) -> Result<Vec<PointPair>, Memory> {
        if self.workers <= 1 || unsaturated.len() < FEW {
            return pairs_between(alloc, plan, unsaturated, low, high);
        }
        let tasks = PairParts {
            plan,
            incident,
            unsaturated,
            low,
            high,
        };
        let count = parts_of(unsaturated.len());
        let parts = shared(self.rt, alloc, &tasks, count, usize::from(self.workers))?;
        joined(alloc, parts.as_slice())
    }
}
