//! A tree judged by a row, all its nodes at hand.

ghost use Rattle.std.specs.Prelude.{◌≡◌, ◌<◌, ℕ, List, Option, length, IfOk};
ghost use Rattle.sight_names.specs.Plan.{PlanParts};
ghost use Rattle.sight_names.specs.Map.{map_of};
ghost use Rattle.sight_names.specs.declared.names.Triangle.{Triangle};
ghost use Rattle.cert_format.specs.Parts.{CertParts};
ghost use Rattle.gate_floods.specs.Exact.{IsClaimedBlind, IsOwned};
ghost use Rattle.gate_floods.specs.RowJudge.Masks.{rows_of};
ghost use Rattle.gate_floods.specs.RowJudge.Judged.{tree_with, TellsTree};
ghost use Rattle.gate_floods.specs.RowJudge.Laws.{IsRowGround, TellsByRows};

use crate::row_judge::masks::Masks;
use crate::row_judge::walk::RowWalk;
use block_evidence::sight_tree::Nodes;
use cert_checker::tree_judge::Terrain;
use sight_names::Memory;

/// The least node of the source's tree that is missing, superfluous, blocked by ends that aren't ends of its sequence
/// or aren't stuck, or open though it enters what the row still has.
fn first_wrong(
    walk: &mut RowWalk,
    terrain: &Terrain<'_>,
    masks: &Masks<'_>,
    row: &[u64],
    source: u16,
    nodes: &Nodes,
) -> Result<Option<u64>, Memory>
    requires { length row.now ≡ masks.now.width }
    ensures { IfOk result (TellsTree terrain.now.edges.now (rows_of masks.now) row.now terrain.now.roots.now.roots.items terrain.now.roots.now.first.items (tree_with source nodes.now)) }
{
    walk.begin(terrain, masks, source, row)?;
    let count = nodes.len();
    for (number, node) in nodes.iter().enumerate() {
        if !walk.step(terrain, masks, node)? {
            return Ok(Some(number as u64));
        }
    }
    if walk.is_done(terrain, masks) {
        return Ok(None);
    }
    Ok(Some(count as u64))
}

/// None where the source's tree keeps by rows from what the source owns, which is what its first row has; else its first
/// wrong node. The walk's buffers are used again from tree to tree.
pub fn judge_by_rows(
    walk: &mut RowWalk,
    terrain: &Terrain<'_>,
    masks: &Masks<'_>,
    row: &[u64],
    source: u16,
    nodes: &Nodes,
) -> Result<Option<u64>, Memory>
    requires { length row.now ≡ masks.now.width }
    ensures { (p : PlanParts) (ts : List Triangle) (ls : List (Option ℕ)) (rank : ℕ → ℕ) (cert : CertParts) → IsRowGround p ts ls terrain.now.edges.now terrain.now.roots.now.roots.items terrain.now.roots.now.first.items (rows_of masks.now) (IsClaimedBlind (map_of p) cert) (IsOwned rank (IsClaimedBlind (map_of p) cert) source) row.now → source < p.sectors → IfOk result (TellsByRows (map_of p) ts ls terrain.now.edges.now (rows_of masks.now) (IsClaimedBlind (map_of p) cert) (IsOwned rank (IsClaimedBlind (map_of p) cert) source) row.now (tree_with source nodes.now)) }
{
    first_wrong(walk, terrain, masks, row, source, nodes)
}
