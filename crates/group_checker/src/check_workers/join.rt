//! What was found of parts of the trees, put together in their order.

ghost use Rattle.std.specs.Prelude.{◌≡◌, ◌<◌, List, [], flat_map, min, IfOk, MatchOption};
ghost use Rattle.std.specs.List.{AllZip};
ghost use Rattle.sight_names.specs.Map.{Map};
ghost use Rattle.sight_names.specs.declared.names.Triangle.{Triangle};
ghost use Rattle.block_evidence.specs.declared.sight_tree.Tree.{Tree as WalkTree};
ghost use Rattle.mesh_shape.specs.declared.half_edges.table.HalfEdge.{HalfEdge as EdgeOf};
ghost use Rattle.cert_checker.specs.TreeJudge.Heard.{AreTreesNoted};
ghost use Rattle.cert_checker.specs.TreeJudge.Part.{TellsPart};
ghost use Rattle.cert_checker.specs.TreeJudge.Whole.{IsFirstWrongTree};
ghost use Rattle.group_checker.specs.CheckWorkers.Joined.{CopiesBit, SetsRow, TakesSource, TakesIn};

use cert_checker::pairs::holds;
use cert_checker::tree_judge::{Reach, TreeVerdict, mark, unmarked, unreached};
use reject_bits::Table;
use sight_names::Memory;
use std::alloc::Global;

/// Sets the bit of the pair where it is set in the other table.
fn copy_bit(table: &mut Table, more: &Table, a: u16, b: u16)
    requires from_here { a < table.old.n }
    requires to_here { b < table.old.n }
    requires from_there { a < more.now.n }
    requires to_there { b < more.now.n }
    ensures { CopiesBit a b more.now table.old table.new }
{
    if more.rejects(a, b) {
        table.set(a, b);
    }
}

/// Sets the bits of the source's pairs that are set in the other table.
fn set_row(table: &mut Table, more: &Table, source: u16)
    requires here { source < table.old.n }
    requires there { source < more.now.n }
    ensures { SetsRow source (min table.old.n more.now.n) more.now table.old table.new }
{
    for sector in 0..table.sectors().min(more.sectors()) {
        copy_bit(table, more, source, sector);
    }
}

/// Takes in what a part's tree of the source keeps from, if the part has one.
fn take_source(walked: &mut [bool], reached: &mut Table, part: &Reach, source: u16)
    requires here { source < reached.old.n }
    requires there { source < part.now.reached.n }
    ensures { TakesSource source part.now.walked.items part.now.reached walked.old walked.new reached.old reached.new }
{
    if holds(part.walked.as_slice(), source) {
        mark(walked, Some(source));
        set_row(reached, &part.reached, source);
    }
}

/// Takes in what the trees of a part keep from: the flags of their sources, and the bits of these sources' pairs.
fn take_in(walked: &mut [bool], reached: &mut Table, part: &Reach)
    ensures { TakesIn (min reached.old.n part.now.reached.n) part.now.walked.items part.now.reached walked.old walked.new reached.old reached.new }
{
    for source in 0..reached.sectors().min(part.reached.sectors()) {
        take_source(walked, reached, part, source);
    }
}

/// Takes in the parts in order, as far as their trees are whole: the source of the first tree that isn't, and its first
/// wrong node.
fn wrong_part(walked: &mut [bool], reached: &mut Table, parts: &[TreeVerdict]) -> Option<(u16, u64)>
    ensures { (m : Map) (ts : List Triangle) (xs : List EdgeOf) (lists : List (List WalkTree)) → AllZip (TellsPart m ts xs) lists parts.now → AreTreesNoted m ts xs [] walked.old reached.old
        → MatchOption result (AreTreesNoted m ts xs (flat_map (λ l. l) lists) walked.new reached.new) (λ w. IsFirstWrongTree m ts xs (flat_map (λ l. l) lists) w.0 w.1) }
{
    for part in parts {
        match part {
            TreeVerdict::Whole(reach) => take_in(walked, reached, reach),
            TreeVerdict::Wrong { source, node } => return Some((*source, *node)),
        }
    }
    None
}

/// What the parts tell of all their trees together, of a map with so many sectors.
pub fn join(alloc: Global, sectors: u16, parts: &[TreeVerdict]) -> Result<TreeVerdict, Memory>
    ensures { (m : Map) (ts : List Triangle) (xs : List EdgeOf) (lists : List (List WalkTree)) → m.sectors ≡ sectors → AllZip (TellsPart m ts xs) lists parts.now
        → IfOk result (TellsPart m ts xs (flat_map (λ l. l) lists)) }
{
    let mut walked = unmarked(alloc, sectors)?;
    let mut reached = unreached(alloc, sectors)?;
    match wrong_part(walked.as_mut_slice(), &mut reached, parts) {
        Some((source, node)) => Ok(TreeVerdict::Wrong { source, node }),
        None => Ok(TreeVerdict::Whole(Reach { walked, reached })),
    }
}
