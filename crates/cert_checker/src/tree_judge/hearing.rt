//! Trees that are judged as they come, node by node. No tree is kept.

ghost use Rattle.std.specs.Prelude.{◌≡◌, List, [], ◌++◌, Option, Some, None, option_map, IfOk};
ghost use Rattle.std.specs.Option.{option_to_list};
ghost use Rattle.sight_names.specs.Map.{Map, map_of};
ghost use Rattle.sight_names.specs.Plan.{PlanParts};
ghost use Rattle.sight_names.specs.declared.names.Triangle.{Triangle};
ghost use Rattle.block_evidence.specs.declared.sight_tree.Tree.{Tree as WalkTree};
ghost use Rattle.cert_format.specs.Parts.{CertParts};
ghost use Rattle.mesh_shape.specs.declared.half_edges.table.HalfEdge.{HalfEdge as EdgeOf};
ghost use Rattle.cert_checker.specs.TreeJudge.Heard.{HasHeardTrees, IsJudgeable};
ghost use Rattle.cert_checker.specs.TreeJudge.Trees.{TellsTrees};
ghost use Rattle.certificates.specs.CertParts.Nodes.{TakesNodes};
ghost use Rattle.cert_checker.specs.TreeJudge.Walked.{begun, with_node, with_nodes};

use crate::tree_judge::judge::{Reach, TreeVerdict, unmarked, unreached};
use crate::tree_judge::marks::mark;
use crate::tree_judge::roots::Roots;
use crate::tree_judge::steps::{Step, steps_of};
use crate::tree_judge::trees::Terrain;
use crate::tree_judge::walk::TreeWalk;
use block_evidence::sight_tree::Node;
use certificates::cert_parts::pass_nodes;
use mesh_shape::Mesh;
use mesh_shape::half_edges::HalfEdges;
use reject_bits::Table;
use sight_names::{Memory, Plan};
use std::alloc::Global;

/// A judge that hears trees one after another, each node by node. It keeps the path of one walk and no tree; nothing
/// behind the first wrong node is judged.
#[derive(Drop)]
pub struct TreeJudge {
    roots: Roots,
    steps: Vec<Step>,
    walked: Vec<bool>,
    reached: Table,
    /// Room for what a source has seen.
    seen: Vec<bool>,
    walk: TreeWalk,
    /// Whether a tree is open that has no wrong node so far.
    under_way: bool,
    /// How many nodes of it have come. The count stands still at its type's end.
    number: u64,
    /// The source of the first tree that isn't whole, and its first wrong node.
    wrong: Option<(u16, u64)>,
}

impl TreeJudge {
    /// No tree so far.
    pub fn new(
        alloc: Global,
        plan: &Plan,
        mesh: &Mesh,
        edges: &HalfEdges,
    ) -> Result<TreeJudge, Memory>
        ensures { IfOk result (HasHeardTrees (map_of plan.now) mesh.now.triangles edges.now [] None) }
    {
        let roots = Roots::of(alloc, plan, mesh, edges)?;
        let steps = steps_of(alloc, edges)?;
        let walked = unmarked(alloc, plan.sectors)?;
        let reached = unreached(alloc, plan.sectors)?;
        let seen = unmarked(alloc, plan.sectors)?;
        Ok(TreeJudge {
            roots,
            steps,
            walked,
            reached,
            seen,
            walk: TreeWalk::new(alloc),
            under_way: false,
            number: 0,
            wrong: None,
        })
    }

    /// Ends the open tree, if there is one.
    fn end(&mut self)
        ensures { (m : Map) (ts : List Triangle) (xs : List EdgeOf) (front : List WalkTree) (tree : Option WalkTree) → HasHeardTrees m ts xs front tree self.old → HasHeardTrees m ts xs (front ++ option_to_list tree) None self.new }
    {
        if !self.under_way {
            return;
        }
        self.under_way = false;
        let source = self.walk.source();
        if self.walk.is_done() {
            mark(self.walked.as_mut_slice(), Some(source));
        } else {
            self.wrong = Some((source, self.number));
        }
    }

    /// A tree begins; the one before it has ended. The half-edges are always the same.
    pub fn begin(&mut self, edges: &HalfEdges, source: u16)
        ensures { (m : Map) (ts : List Triangle) (front : List WalkTree) (tree : Option WalkTree) → HasHeardTrees m ts edges.now front tree self.old → HasHeardTrees m ts edges.now (front ++ option_to_list tree) (Some (begun source)) self.new }
    {
        self.end();
        if self.wrong.is_some() {
            return;
        }
        let terrain = Terrain {
            edges,
            roots: &self.roots,
        };
        self.walk.begin(&terrain, source);
        self.number = 0;
        self.under_way = true;
    }

    /// The next nodes of the open tree, of so many that are to come, from the bytes: what of those is behind them, and how many
    /// are left. Others than the usual ones, and now and then one that needs room, are left to `hear`.
    pub fn hear_nodes<'a>(
        &mut self,
        edges: &HalfEdges,
        bytes: &'a [u8],
        count: u64,
    ) -> (&'a [u8], u64)
        ensures { TakesNodes bytes.now count result.0.now result.1 (λ nodes. (m : Map) (ts : List Triangle) (front : List WalkTree) (tree : Option WalkTree) → HasHeardTrees m ts edges.now front tree self.old → HasHeardTrees m ts edges.now front (option_map (with_nodes nodes) tree) self.new) }
    {
        if !self.under_way {
            return pass_nodes(bytes, count);
        }
        let followed = self.walk.follow(
            &self.roots,
            self.steps.as_slice(),
            &mut self.reached,
            self.seen.as_mut_slice(),
            bytes,
            count,
        );
        let taken = count - followed.left;
        if followed.wrong {
            self.under_way = false;
            let number = self.number.saturating_add(taken - 1);
            self.wrong = Some((self.walk.source(), number));
            return (followed.rest, followed.left);
        }
        self.number = self.number.saturating_add(taken);
        (followed.rest, followed.left)
    }

    /// The next node of the open tree.
    pub fn hear(&mut self, edges: &HalfEdges, node: Node) -> Result<(), Memory>
        ensures { (m : Map) (ts : List Triangle) (front : List WalkTree) (tree : Option WalkTree) → HasHeardTrees m ts edges.now front tree self.old → IfOk result (λ _. HasHeardTrees m ts edges.now front (option_map (with_node node) tree) self.new) }
    {
        if !self.under_way {
            return Ok(());
        }
        let source = self.walk.source();
        let terrain = Terrain {
            edges,
            roots: &self.roots,
        };
        if self.walk.step(&terrain, &mut self.reached, node)? {
            self.number = self.number.saturating_add(1);
            return Ok(());
        }
        self.under_way = false;
        self.wrong = Some((source, self.number));
        Ok(())
    }

    /// Whether all trees that were heard are whole, and what they keep from; or the first that isn't.
    pub fn verdict(mut self) -> TreeVerdict
        ensures { (p : PlanParts) (c : CertParts) (ts : List Triangle) (xs : List EdgeOf) (front : List WalkTree) (tree : Option WalkTree) → IsJudgeable p c ts xs → c.trees ≡ front ++ option_to_list tree → HasHeardTrees (map_of p) ts xs front tree self → TellsTrees (map_of p) c result }
    {
        self.end();
        match self.wrong {
            Some((source, node)) => TreeVerdict::Wrong { source, node },
            None => TreeVerdict::Whole(Reach {
                walked: self.walked,
                reached: self.reached,
            }),
        }
    }
}
