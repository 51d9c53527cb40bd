//! Who walks.

ghost use denote.Param.Send.{IsSync};
ghost use Rattle.std.specs.Prelude.{◌≡◌, ℕ, ◌*◌, ◌<◌, ◌≤◌, Some, All, IfErr, IfOk, length, slice_get};
ghost use Rattle.sight_names.specs.Map.{map_of};
ghost use Rattle.sight_names.specs.Sound.{LinesMeetAtEnds};
ghost use Rattle.group_job.specs.Built.{IsOpenFace};
ghost use Rattle.group_job.specs.Grouped.{IsMapOfGroups};
ghost use Rattle.task_crew.specs.Done.{AreTasksDone};
ghost use Rattle.exact_checker.specs.Owning.{IsSized, owning_of};
ghost use Rattle.gate_floods.specs.RowJudge.Masks.{rows_of};
ghost use Rattle.row_trees.specs.Walkable.{Ground as GroundOf, IsWalkable};
ghost use Rattle.exact_job.specs.Trees.{IsOwnedWalk};

use crate::walk_tasks::OwnedWalks;
use face_groups::GroupFault;
use first_walk::Searchers;
use found_rays::RayJudges;
use group_job::{MapOfGroups, map_of_groups, map_of_groups_by};
use row_trees::Made;
use sight_names::{Memory, Plan};
use std::alloc::Global;
use std::thread::Threads;
use task_crew::{Alone, InThreads, Stage, in_turn, shared_told};

/// Those who walk, and who search and judge rays before that. What they give doesn't depend on who they are.
pub trait Walkers: RayJudges + Searchers {
    /// Whether they can walk: threads share what all of them may look at.
    ghost can_walk: { Self → Type 0 };

    /// The groups of a map whose lines meet at ends, and its map of groups, over its mesh.
    fn map_groups(&self, alloc: Global, plan: &Plan) -> Result<MapOfGroups, GroupFault>
        requires can { can_walk self.now }
        requires audited { LinesMeetAtEnds (map_of plan.now) }
        ensures grouped { IfOk result (IsMapOfGroups plan.now) }
        ensures fault { IfErr result (IsOpenFace (map_of plan.now)) };

    /// What is made of each group's walk with what it owns.
    fn walk_owned(&self, alloc: Global, walks: &OwnedWalks<'_>) -> Result<Vec<Made>, Memory>
        requires can { can_walk self.now }
        requires sized { IsSized (owning_of walks.now.known) }
        requires room { walks.now.known.count ≤ 64 * walks.now.masks.now.width }
        requires walkable { (g : GroundOf) × ((f : ℕ) → f < walks.now.known.count → IsWalkable g walks.now.terrain.now.edges.now walks.now.terrain.now.roots.now.roots.items walks.now.terrain.now.roots.now.first.items f) }
        ensures { IfOk result (λ v. AreTasksDone (IsOwnedWalk walks.now.terrain.now.edges.now (rows_of walks.now.masks.now) walks.now.terrain.now.roots.now.roots.items walks.now.terrain.now.roots.now.first.items (owning_of walks.now.known)) walks.now.known.count v.items) };
}

impl Walkers for Alone {
    ghost can_walk = { λ w. Unit {0} };

    fn map_groups(&self, alloc: Global, plan: &Plan) -> Result<MapOfGroups, GroupFault> {
        map_of_groups(alloc, plan)
    }

    fn walk_owned(&self, alloc: Global, walks: &OwnedWalks<'_>) -> Result<Vec<Made>, Memory> {
        in_turn(alloc, walks, usize::from(walks.known.count))
    }
}

impl<'a, R: Threads + Sync> Walkers for InThreads<'a, R> {
    ghost can_walk = { λ w. IsSync R.row };

    fn map_groups(&self, alloc: Global, plan: &Plan) -> Result<MapOfGroups, GroupFault> {
        let workers = triangulate::InThreads {
            rt: self.rt,
            workers: self.workers,
        };
        map_of_groups_by(&workers, alloc, plan)
    }

    fn walk_owned(&self, alloc: Global, walks: &OwnedWalks<'_>) -> Result<Vec<Made>, Memory> {
        let count = usize::from(walks.known.count);
        shared_told(
            self.rt,
            alloc,
            walks,
            count,
            self.workers,
            self.watcher,
            Stage::Trees,
        )
    }
}
