//! All trees of a certificate, one after another.

ghost use Rattle.std.specs.Prelude.{◌≡◌, ◌≤◌, List, length, IfOk, IfNone, IfSome};
ghost use Rattle.sight_names.specs.Map.{Map, map_of};
ghost use Rattle.sight_names.specs.Mesh.{IsGoodMesh};
ghost use Rattle.sight_names.specs.Plan.{IsPlan};
ghost use Rattle.sight_names.specs.declared.names.Triangle.{Triangle};
ghost use Rattle.cert_format.specs.Accepted.{triangles_of, labels_of};
ghost use Rattle.cert_checker.specs.TreeJudge.Marks.{HasNoMark};
ghost use Rattle.mesh_shape.specs.HalfEdges.HalfEdges.{AreHalfEdges};
ghost use Rattle.cert_checker.specs.TreeJudge.Path.{longest_of};
ghost use Rattle.cert_checker.specs.TreeJudge.Part.{AreRootsOf, TellsPart};
ghost use Rattle.cert_checker.specs.TreeJudge.Roots.{AreRootChains};
ghost use Rattle.cert_checker.specs.TreeJudge.Whole.{AreWholeOver, IsFirstWrongTree, HasNoBit, HaveSourcesBelow};
ghost use Rattle.cert_checker.specs.TreeJudge.Trees.{TellsTrees};

use crate::tree_judge::marks::mark;
use crate::tree_judge::roots::Roots;
use crate::tree_judge::trees::{Frame, Terrain, Wait, first_wrong, path_of, waits_of};
use block_evidence::sight_tree::Tree;
use cert_format::Cert;
use mesh_shape::Mesh;
use mesh_shape::half_edges::HalfEdges;
use reject_bits::Table;
use sight_names::{Memory, Plan};
use std::alloc::Global;

/// The sectors that have a tree, and for each of them the sectors that its open nodes enter.
#[derive(Drop)]
pub struct Reach {
    pub walked: Vec<bool>,
    pub reached: Table,
}

/// All trees are whole, or the first one that isn't, with its first wrong node.
#[derive(Drop)]
pub enum TreeVerdict {
    Whole(Reach),
    Wrong { source: u16, node: u64 },
}

/// So many flags, none of them set.
pub fn unmarked(alloc: Global, count: u16) -> Result<Vec<bool>, Memory>
    ensures { IfOk result (λ v. HasNoMark count v.items) }
{
    Ok(vec![in alloc; false; count as usize]?)
}

/// A table of so many sectors, no bit of which is set.
pub fn unreached(alloc: Global, count: u16) -> Result<Table, Memory>
    ensures sectors { IfOk result (λ t. t.n ≡ count) }
    ensures clear { IfOk result (λ t. HasNoBit t) }
{
    Table::clear(alloc, count)
}

/// The source of the first tree that isn't whole, and its least wrong node. Sources with a tree are marked, and what
/// they reach.
fn wrong_tree(
    terrain: &Terrain<'_>,
    path: &mut [Frame],
    waits: &mut [Wait],
    walked: &mut [bool],
    reached: &mut Table,
    trees: &[Tree],
) -> Option<(u16, u64)>
    ensures sectors { reached.new.n ≡ reached.old.n }
    ensures whole { (m : Map) (ts : List Triangle) → AreRootChains m ts terrain.now.edges.now terrain.now.roots.now.roots.items terrain.now.roots.now.first.items → HaveSourcesBelow m.sectors trees.now → IfNone result (AreWholeOver m ts terrain.now.edges.now trees.now walked.old walked.new reached.old reached.new) }
    ensures wrong { longest_of trees.now ≤ length path.old → longest_of trees.now ≤ length waits.old → (m : Map) (ts : List Triangle) → AreRootChains m ts terrain.now.edges.now terrain.now.roots.now.roots.items terrain.now.roots.now.first.items → HaveSourcesBelow m.sectors trees.now → IfSome result (λ w. IsFirstWrongTree m ts terrain.now.edges.now trees.now w.0 w.1) }
{
    for tree in trees {
        if let Some(node) = first_wrong(terrain, path, waits, reached, tree) {
            return Some((tree.source, node));
        }
        mark(walked, Some(tree.source));
    }
    None
}

/// Whether these trees of a map with so many sectors are whole, and what they keep from; or the first that isn't.
pub fn judge_part(
    alloc: Global,
    sectors: u16,
    terrain: &Terrain<'_>,
    trees: &[Tree],
) -> Result<TreeVerdict, Memory>
    ensures { (m : Map) (ts : List Triangle) → m.sectors ≡ sectors → AreRootsOf m ts terrain.now.edges.now terrain.now.roots.now → HaveSourcesBelow m.sectors trees.now → IfOk result (TellsPart m ts terrain.now.edges.now trees.now) }
{
    let mut path = path_of(alloc, trees)?;
    let mut waits = waits_of(alloc, path.len())?;
    let mut walked = unmarked(alloc, sectors)?;
    let mut reached = unreached(alloc, sectors)?;
    let path = path.as_mut_slice();
    let waits = waits.as_mut_slice();
    match wrong_tree(
        terrain,
        path,
        waits,
        walked.as_mut_slice(),
        &mut reached,
        trees,
    ) {
        Some((source, node)) => Ok(TreeVerdict::Wrong { source, node }),
        None => Ok(TreeVerdict::Whole(Reach { walked, reached })),
    }
}

/// Those who judge trees. What they tell doesn't depend on who they are.
pub trait TreeJudges {
    /// Whether they can judge: threads share what all of them may look at.
    ghost can_judge: { Self → Type 0 };

    /// Whether these trees of a map with so many sectors are whole, and what they keep from; or the first that isn't.
    fn judge_all(
        &self,
        alloc: Global,
        sectors: u16,
        terrain: &Terrain<'_>,
        trees: &[Tree],
    ) -> Result<TreeVerdict, Memory>
        requires can { can_judge self.now }
        ensures { (m : Map) (ts : List Triangle) → m.sectors ≡ sectors → AreRootsOf m ts terrain.now.edges.now terrain.now.roots.now → HaveSourcesBelow m.sectors trees.now → IfOk result (TellsPart m ts terrain.now.edges.now trees.now) };
}

/// One judge, who takes the trees one after another.
#[derive(Drop)]
pub struct OneJudge;

impl TreeJudges for OneJudge {
    ghost can_judge = { λ j. Unit {0} };

    fn judge_all(
        &self,
        alloc: Global,
        sectors: u16,
        terrain: &Terrain<'_>,
        trees: &[Tree],
    ) -> Result<TreeVerdict, Memory> {
        judge_part(alloc, sectors, terrain, trees)
    }
}

/// Whether all trees of the certificate are whole over its triangles, and what they keep from; or the first that isn't.
pub fn judge_trees<J: TreeJudges>(
    judges: &J,
    alloc: Global,
    plan: &Plan,
    cert: &Cert,
    mesh: &Mesh,
    edges: &HalfEdges,
) -> Result<TreeVerdict, Memory>
    requires can { J.can_judge judges.now }
    requires plan { IsPlan plan.now }
    requires sectors { cert.now.sizes.sectors ≡ plan.now.sectors }
    requires triangles { mesh.now.triangles ≡ triangles_of cert.now }
    requires good { IsGoodMesh (map_of plan.now) mesh.now.triangles (labels_of cert.now) }
    requires edges { AreHalfEdges plan.now mesh.now.triangles (labels_of cert.now) edges.now }
    ensures { IfOk result (TellsTrees (map_of plan.now) cert.now) }
{
    let roots = Roots::of(alloc, plan, mesh, edges)?;
    let terrain = Terrain {
        edges,
        roots: &roots,
    };
    judges.judge_all(alloc, plan.sectors, &terrain, cert.trees())
}
