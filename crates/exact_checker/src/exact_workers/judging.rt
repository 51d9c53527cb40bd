//! Trees judged in threads, each by the row of what its group owns.

ghost use denote.Param.Send.{IsSync};
ghost use Rattle.std.specs.Prelude.{◌≡◌, ℕ, ◌*◌, ◌<◌, ◌≤◌, List, Some, IfOk, length, slice_get};
ghost use Rattle.block_evidence.specs.declared.sight_tree.Node.{Node as NodeOf};
ghost use Rattle.gate_floods.specs.RowJudge.Masks.{rows_of};
ghost use Rattle.exact_checker.specs.Owning.{owning_of, IsSized};
ghost use Rattle.exact_checker.specs.Judged.{AnswersFor, AnswersForEach};
ghost use Rattle.exact_checker.specs.ExactWorkers.Found.{IsFirstFound};

use crate::{Owning, TreeJudges, WrongNode, owned_row};
use block_evidence::sight_tree::Nodes;
use cert_checker::tree_judge::Terrain;
use gate_floods::row_judge::{Masks, RowWalk, judge_by_rows};
use sight_names::Memory;
use std::alloc::Global;
use std::thread::Threads;
use task_crew::{Tasks, shared};

/// The trees of all groups, and by what they are judged.
#[derive(Drop)]
pub struct TreeTasks<'a> {
    pub known: Owning<'a>,
    pub terrain: &'a Terrain<'a>,
    pub masks: &'a Masks<'a>,
    pub trees: &'a [Nodes],
}

/// The group with this number, of so many.
pub fn source_of(count: u16, number: usize) -> u16
    requires { number < count }
    ensures { result ≡ number }
{
    let _ = count;
    number as u16
}

impl<'a> Tasks for TreeTasks<'a> {
    type Tools = RowWalk;

    type Done = Option<u64>;

    ghost can_do = { λ w i. (i < w.known.count) × IsSized (owning_of w.known) × (w.known.count ≤ 64 * w.masks.now.width) × (length w.trees.now ≡ w.known.count) };

    ghost is_done = { λ w i wrong. (ns : List NodeOf) → slice_get w.trees.now i ≡ Some ns → AnswersFor w.terrain.now.edges.now (rows_of w.masks.now) w.terrain.now.roots.now.roots.items w.terrain.now.roots.now.first.items (owning_of w.known) i ns wrong };

    fn tools(&self, alloc: Global) -> RowWalk {
        RowWalk::new(alloc)
    }

    fn work(
        &self,
        alloc: Global,
        walk: &mut RowWalk,
        number: usize,
    ) -> Result<Option<u64>, Memory> {
        let source = source_of(self.known.count, number);
        let row = owned_row(alloc, self.known, self.masks.width, source)?;
        let trees = self.trees;
        let nodes = &trees[number];
        let wrong = judge_by_rows(
            walk,
            self.terrain,
            self.masks,
            row.as_slice(),
            source,
            nodes,
        )?;
        Ok(wrong)
    }
}

/// The first of so many trees of which a wrong node was found, with that node.
fn first_found(found: &[Option<u64>], count: u16) -> Option<WrongNode>
    requires { length found.now ≡ count }
    ensures { IsFirstFound found.now result }
{
    for source in 0..count {
        if let Some(node) = found[source as usize] {
            return Some(WrongNode { source, node });
        }
    }
    None
}

/// So many judges, each in a thread where one can be had.
#[derive(Drop)]
pub struct Judges<'a, R> {
    pub rt: &'a R,
    pub count: usize,
}

impl<'a, R: Threads + Sync> TreeJudges for Judges<'a, R> {
    ghost can_judge = { λ j. IsSync R.row };

    fn find_wrong(
        &self,
        alloc: Global,
        known: Owning<'_>,
        terrain: &Terrain<'_>,
        masks: &Masks<'_>,
        trees: &[Nodes],
    ) -> Result<Option<WrongNode>, Memory> {
        let tasks = TreeTasks {
            known,
            terrain,
            masks,
            trees,
        };
        let found = shared(self.rt, alloc, &tasks, usize::from(known.count), self.count)?;
        Ok(first_found(found.as_slice(), known.count))
    }
}
