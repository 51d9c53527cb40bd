//! Parts of the trees judged in threads.

ghost use Rattle.std.specs.Prelude.{◌≡◌, ◌<◌, List, IfOk};
ghost use Rattle.sight_names.specs.Map.{Map};
ghost use Rattle.sight_names.specs.declared.names.Triangle.{Triangle};
ghost use Rattle.cert_checker.specs.TreeJudge.Part.{AreRootsOf, TellsPart};
ghost use Rattle.cert_checker.specs.TreeJudge.Whole.{HaveSourcesBelow};
ghost use Rattle.group_checker.specs.CheckWorkers.Joined.{TellParts};

use block_evidence::sight_tree::Tree;
use cert_checker::tree_judge::{Terrain, TreeVerdict, judge_part};
use rayon::prelude::*;
use sight_names::Memory;
use std::alloc::Global;
use std::thread::Threads;

/// Into how many parts of one size trees are cut at most. Each part has a table of its own.
const MOST_PARTS: usize = 16;

/// The trees of a map with more sectors stay in one part, since the table of a part has a bit for each pair of sectors. A
/// certificate has no more triangles than this.
const MOST_SECTORS: u16 = 8_192;

/// How many trees a part has; the last has what is left.
fn part_len(trees: usize, sectors: u16) -> usize
    ensures { 0 < result }
{
    if sectors > MOST_SECTORS {
        return trees.max(1);
    }
    trees.div_ceil(MOST_PARTS).max(1)
}

/// What is found of each part of the trees, in the order of the parts. They are judged in threads where some can be had.
pub fn judge_parts<R: Threads + Sync>(
    rt: &R,
    alloc: Global,
    sectors: u16,
    terrain: &Terrain<'_>,
    trees: &[Tree],
) -> Result<Vec<TreeVerdict>, Memory>
    ensures { (m : Map) (ts : List Triangle) → m.sectors ≡ sectors → AreRootsOf m ts terrain.now.edges.now terrain.now.roots.now → HaveSourcesBelow m.sectors trees.now → IfOk result (λ v. TellParts m ts terrain.now.edges.now trees.now v.items) }
{
    trees
        .par_chunks(part_len(trees.len(), sectors))
        .with_min_len(1)
        .map(
            |part: &[Tree]| -> Result<TreeVerdict, Memory>
                ensures { (m : Map) (ts : List Triangle) → m.sectors ≡ sectors → AreRootsOf m ts terrain.entry.now.edges.now terrain.entry.now.roots.now → HaveSourcesBelow m.sectors part.now → IfOk result (TellsPart m ts terrain.entry.now.edges.now part.now) }
            { judge_part(alloc, sectors, terrain, part) },
        )
        .collect::<Result<Vec<_>, Memory>>(rt, alloc)?
}
