//! Walks that any worker can do, since none depends on what another one finds.

ghost use Rattle.std.specs.Prelude.{◌*◌, ◌<◌, ◌≤◌, length};
ghost use Rattle.exact_checker.specs.Owning.{IsSized, owning_of};
ghost use Rattle.gate_floods.specs.RowJudge.Masks.{rows_of};
ghost use Rattle.row_trees.specs.Walkable.{Ground as GroundOf, IsWalkable};
ghost use Rattle.exact_job.specs.Trees.{IsOwnedWalk};

use cert_checker::tree_judge::Terrain;
use exact_checker::exact_workers::source_of;
use exact_checker::{Owning, owned_row};
use gate_floods::row_judge::Masks;
use row_trees::{Made, Walk, walk_by_row};
use sight_names::Memory;
use std::alloc::Global;
use task_crew::Tasks;

/// For each group the walk with what it owns.
#[derive(Drop)]
pub struct OwnedWalks<'a> {
    pub known: Owning<'a>,
    pub terrain: &'a Terrain<'a>,
    pub masks: &'a Masks<'a>,
}

impl<'a> Tasks for OwnedWalks<'a> {
    type Tools = Walk;

    type Done = Made;

    ghost can_do = { λ w i. (i < w.known.count) × IsSized (owning_of w.known) × (w.known.count ≤ 64 * w.masks.now.width) × ((g : GroundOf) × IsWalkable g w.terrain.now.edges.now w.terrain.now.roots.now.roots.items w.terrain.now.roots.now.first.items i) };

    ghost is_done = { λ w i made. IsOwnedWalk w.terrain.now.edges.now (rows_of w.masks.now) w.terrain.now.roots.now.roots.items w.terrain.now.roots.now.first.items (owning_of w.known) i made };

    fn tools(&self, alloc: Global) -> Walk {
        Walk::new(alloc)
    }

    fn work(&self, alloc: Global, walk: &mut Walk, number: usize) -> Result<Made, Memory> {
        let source = source_of(self.known.count, number);
        let row = owned_row(alloc, self.known, self.masks.width, source)?;
        walk_by_row(
            alloc,
            walk,
            self.terrain,
            self.masks,
            source,
            row.as_slice(),
        )
    }
}
