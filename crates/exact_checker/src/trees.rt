//! The trees of all groups, one after another, each by the row of what its group owns.

ghost use Rattle.std.specs.Prelude.{◌≡◌, ◌*◌, ◌≤◌, IfOk, length};
ghost use Rattle.sight_names.specs.Map.{map_of};
ghost use Rattle.certificates.specs.declared.cert_exact.cert.ExactParts.{ExactParts as PartsOf};
ghost use Rattle.gate_floods.specs.RowJudge.Masks.{rows_of};
ghost use Rattle.exact_checker.specs.Owning.{owning_of, IsSized};
ghost use Rattle.exact_checker.specs.Judged.{AnswersForEach, AreTreesOf, TellsTrees};

use crate::masking::edge_masks;
use crate::owning::{Owning, owned_row};
use crate::ranking::ranks_of;
use block_evidence::sight_tree::Nodes;
use cert_checker::tree_judge::{Roots, Terrain};
use face_groups::tri_sectors::components;
use gate_floods::gate_masks::Row;
use gate_floods::row_judge::{Masks, RowWalk, judge_by_rows};
use group_checker::GroupedMesh;
use mesh_shape::half_edges::HalfEdges;
use sight_names::Memory;
use std::alloc::Global;

/// The first node of the first tree that is wrong, and the tree's group.
#[derive(Clone, Copy)]
pub struct WrongNode {
    pub source: u16,
    pub node: u64,
}

/// The first wrong node of the first tree that doesn't answer for all that is asked with the row of what its group
/// owns.
fn wrong_node(
    alloc: Global,
    known: Owning<'_>,
    terrain: &Terrain<'_>,
    masks: &Masks<'_>,
    trees: &[Nodes],
) -> Result<Option<WrongNode>, Memory>
    requires sized { IsSized (owning_of known) }
    requires room { known.count ≤ 64 * masks.now.width }
    requires one_each { length trees.now ≡ known.count }
    ensures { IfOk result (AnswersForEach terrain.now.edges.now (rows_of masks.now) terrain.now.roots.now.roots.items terrain.now.roots.now.first.items (owning_of known.entry) trees.now) }
{
    let mut walk = RowWalk::new(alloc);
    for (number, nodes) in trees.iter().enumerate() {
        let source = number as u16;
        let row = owned_row(alloc, known, masks.width, source)?;
        let row = row.as_slice();
        if let Some(node) = judge_by_rows(&mut walk, terrain, masks, row, source, nodes)? {
            return Ok(Some(WrongNode { source, node }));
        }
    }
    Ok(None)
}

/// Those who judge trees. What they tell doesn't depend on who they are.
pub trait TreeJudges {
    /// Whether they can judge: threads share what all of them may look at.
    ghost can_judge: { Self → Type 0 };

    /// The first wrong node of the first tree that doesn't answer for all that is asked with the row of what its group owns.
    fn find_wrong(
        &self,
        alloc: Global,
        known: Owning<'_>,
        terrain: &Terrain<'_>,
        masks: &Masks<'_>,
        trees: &[Nodes],
    ) -> Result<Option<WrongNode>, Memory>
        requires can { can_judge self.now }
        requires sized { IsSized (owning_of known) }
        requires room { known.count ≤ 64 * masks.now.width }
        requires one_each { length trees.now ≡ known.count }
        ensures { IfOk result (AnswersForEach terrain.now.edges.now (rows_of masks.now) terrain.now.roots.now.roots.items terrain.now.roots.now.first.items (owning_of known.entry) trees.now) };
}

/// One judge, who takes the trees one after another.
#[derive(Drop)]
pub struct OneJudge;

impl TreeJudges for OneJudge {
    ghost can_judge = { λ j. Unit {0} };

    fn find_wrong(
        &self,
        alloc: Global,
        known: Owning<'_>,
        terrain: &Terrain<'_>,
        masks: &Masks<'_>,
        trees: &[Nodes],
    ) -> Result<Option<WrongNode>, Memory> {
        wrong_node(alloc, known, terrain, masks, trees)
    }
}

/// None where the tree of each group keeps from all that the group owns; else the first wrong node of the first tree
/// that doesn't.
pub fn judge_trees<J: TreeJudges>(
    judges: &J,
    alloc: Global,
    over: &GroupedMesh,
    edges: &HalfEdges,
    joined: &[Row],
    trees: &[Nodes],
) -> Result<Option<WrongNode>, Memory>
    requires can { J.can_judge judges.now }
    requires one_each { length trees.now ≡ over.now.plan.sectors }
    requires rows { length joined.now ≡ over.now.plan.sectors }
    requires few { length edges.now ≤ 3 * 65535 }
    ensures { (c : PartsOf) → AreTreesOf c over.now.plan over.now.mesh.triangles edges.now joined.now trees.now → IfOk result (TellsTrees (map_of over.now.plan) c) }
{
    let plan = &over.plan;
    let components = components(alloc, plan)?;
    let ranks = ranks_of(alloc, plan.sectors, joined)?;
    let roots = Roots::of(alloc, plan, &over.mesh, edges)?;
    let kept = edge_masks(alloc, plan, edges, joined)?;
    let terrain = Terrain {
        edges,
        roots: &roots,
    };
    let masks = Masks {
        width: kept.width,
        places: kept.places.as_slice(),
        words: kept.words.as_slice(),
    };
    let known = Owning {
        count: plan.sectors,
        components: components.as_slice(),
        ranks: ranks.as_slice(),
        joined,
    };
    judges.find_wrong(alloc, known, &terrain, &masks, trees)
}
