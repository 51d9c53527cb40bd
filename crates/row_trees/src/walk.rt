//! A walk of a source by a row.

ghost use Rattle.std.specs.Prelude.{◌≡◌, ◌≢◌, ◌⊎◌, ◌+◌, ◌<◌, ◌++◌, ◌∷◌, [], ℕ, List, Some as Given, All, length, slice_get, true, false, IfOk, OnOk};
ghost use Rattle.sight_names.specs.Splitting.{EndPoints, IsSplittable};
ghost use Rattle.block_evidence.specs.declared.sight_tree.Node.TheVariants.{Open};
ghost use Rattle.mesh_shape.specs.declared.half_edges.table.HalfEdge.{HalfEdge as HalfEdgeOf};
ghost use Rattle.portal_walk.specs.Nodes.{IsNodeAnswered};
ghost use Rattle.portal_walk.specs.Walk.{half_edge_ends};
ghost use Rattle.stab_hull.specs.Answer.{IsBarredBy};
ghost use Rattle.gate_floods.specs.RowJudge.Asked.{AnswersFirstInRow, Pending, row_behind};
ghost use Rattle.gate_floods.specs.RowJudge.Judged.{AsksNothing, StandsAt};
ghost use Rattle.gate_floods.specs.RowJudge.Masks.{rows_of};
ghost use Rattle.gate_floods.specs.RowJudge.Words.{is_away, row_in_words};
ghost use Rattle.row_trees.specs.Going.{IsAfter, IsGoing, IsTried};
ghost use Rattle.row_trees.specs.Made.{AreFoundSeen, AreWanted, AreNodesMade, IsMadeSoFar};
ghost use Rattle.row_trees.specs.Thinner.{IsPresent};
ghost use Rattle.row_trees.specs.Walkable.{Ground, IsWalkable, Search, row_scene_of};

use crate::finding::{reached, wanted};
use crate::made::Made;
use crate::path::Path;
use crate::rows::{forget, skip, skip_unwanted};
use block_evidence::Evidence;
use block_evidence::sight_tree::{Node, Nodes};
use cert_checker::tree_judge::Terrain;
use gate_floods::row_judge::{Masks, RowWalk};
use mesh_shape::half_edges::HalfEdge;
use sight_names::Memory;
use stab_hull::Passed;
use std::alloc::Global;

/// A walk of a source as its judge would walk, the hull of the ends of its path, and the half-edge by which it left the source.
/// Its buffers are used again from source to source.
#[derive(Drop)]
pub struct Walk {
    judged: RowWalk,
    ends: Path,
    root: u32,
}

/// The half-edge by which one leaves the source who asks for a half-edge behind so many portals.
fn root_at(depth: usize, number: u32, root: u32) -> u32
    ensures { ((depth ≡ 0) × (result ≡ number)) ⊎ ((depth ≢ 0) × (result ≡ root)) }
{
    if depth == 0 { number } else { root }
}

/// Whether the walk's present row may have what was found since: a row with which it went on from behind so many portals
/// is without that.
#[inline(always)]
fn may_have_found(judged: &RowWalk, depth: usize, made: &Made) -> bool
    ensures some { result ≡ true → made.now.found.items ≢ [] }
    ensures none { result ≡ false → (depth < judged.now.follow.depth) ⊎ (made.now.found.items ≡ []) }
{
    judged.follow.depth <= depth && !made.found.is_empty()
}

/// Keeps the node while nothing was found.
#[inline(always)]
fn keep(made: &mut Made, node: Node) -> Result<(), Memory>
    requires answered { IsNodeAnswered node }
    ensures found { made.new.found.items ≡ made.old.found.items }
    ensures nodes { made.old.found.items ≡ [] → OnOk result (made.new.nodes ≡ made.old.nodes ++ node ∷ []) }
    ensures answered { All IsNodeAnswered made.old.nodes → IfOk result (λ _. All IsNodeAnswered made.new.nodes) }
{
    if !made.found.is_empty() {
        return Ok(());
    }
    made.nodes.push(node)?;
    Ok(())
}

impl Walk {
    /// A walk that asks for nothing.
    pub fn new(alloc: Global) -> Walk
        ensures { AsksNothing result.judged }
    {
        Walk {
            judged: RowWalk::new(alloc),
            ends: Path::new(alloc),
            root: 0,
        }
    }

    /// Goes through the half-edge that is asked, this one, as its judge would, and keeps the open node while nothing was found.
    #[inline(always)]
    fn enter(
        &mut self,
        terrain: &Terrain<'_>,
        masks: &Masks<'_>,
        number: u32,
        edge: &HalfEdge,
        made: &mut Made,
    ) -> Result<(), Memory>
        requires asked { self.old.judged.follow.asked ≡ Given number }
        requires there { slice_get terrain.now.edges.now number ≡ Given edge.now }
        requires away { is_away (row_behind (rows_of masks.now) self.old.judged.rows.items self.old.judged.follow.row number) edge.now.sector ≡ true }
        requires stands { (first : List ℕ) × (ps : List Pending) × StandsAt (rows_of masks.now) first terrain.now.roots.now.roots.items self.old.judged ps }
        ensures stands { (first : List ℕ) (ps qs : List Pending) → StandsAt (rows_of masks.now) first terrain.now.roots.now.roots.items self.old.judged ps → AnswersFirstInRow terrain.now.edges.now (rows_of masks.now) self.old.judged.source ps Open qs → IfOk result (λ _. StandsAt (rows_of masks.now) first terrain.now.roots.now.roots.items self.new.judged qs) }
        ensures source { self.new.judged.source ≡ self.old.judged.source }
        ensures ends { self.new.ends ≡ self.old.ends }
        ensures root { self.new.root ≡ self.old.root }
        ensures found { made.new.found.items ≡ made.old.found.items }
        ensures made { (row : List ℕ) (source : ℕ) → IsMadeSoFar terrain.now.edges.now (rows_of masks.now) row terrain.now.roots.now.roots.items terrain.now.roots.now.first.items source self.old.judged made.old → IfOk result (λ _. IsMadeSoFar terrain.now.edges.now (rows_of masks.now) row terrain.now.roots.now.roots.items terrain.now.roots.now.first.items source self.new.judged made.new) }
        ensures answered { All IsNodeAnswered made.old.nodes → IfOk result (λ _. All IsNodeAnswered made.new.nodes) }
    {
        self.judged.go(terrain, masks, number, edge)?;
        keep(made, Node::Open)
    }

    /// Finds the sector into which the half-edge leads whose portal is the last one of the hull, if it is wanted, and forgets it.
    #[inline(always)]
    fn find(
        &mut self,
        terrain: &Terrain<'_>,
        masks: &Masks<'_>,
        edge: &HalfEdge,
        made: &mut Made,
    ) -> Result<(), Memory>
        requires tried { (s : Search) × (n : ℕ) × (before : List EndPoints) × (self.old.ends ≡ before ++ half_edge_ends edge.now ∷ []) × IsTried (row_scene_of terrain.now masks.now) s self.old.root before self.old.judged made.old.found.items edge.now n }
        ensures tried { (s : Search) (n : ℕ) (before : List EndPoints) → self.old.ends ≡ before ++ half_edge_ends edge.now ∷ [] → IsTried (row_scene_of terrain.now masks.now) s self.old.root before self.old.judged made.old.found.items edge.now n → IfOk result (λ _. IsTried (row_scene_of terrain.now masks.now) s self.new.root before self.new.judged made.new.found.items edge.now n) }
        ensures away { IfOk result (λ _. is_away (row_in_words self.new.judged.rows.items masks.now.width self.new.judged.follow.row) edge.now.sector ≡ true) }
        ensures asked { self.new.judged.follow.asked ≡ self.old.judged.follow.asked }
        ensures ends { self.new.ends ≡ self.old.ends }
        ensures made { (row : List ℕ) (source : ℕ) → IsMadeSoFar terrain.now.edges.now (rows_of masks.now) row terrain.now.roots.now.roots.items terrain.now.roots.now.first.items source self.old.judged made.old → IfOk result (λ _. IsMadeSoFar terrain.now.edges.now (rows_of masks.now) row terrain.now.roots.now.roots.items terrain.now.roots.now.first.items source self.new.judged made.new) }
        ensures answered { All IsNodeAnswered made.old.nodes → IfOk result (λ _. All IsNodeAnswered made.new.nodes) }
    {
        let Some(to) = wanted(&self.judged, masks.width, edge) else {
            return Ok(());
        };
        let line = self.ends.line();
        let reached = reached(terrain.edges, self.root, edge, to, line);
        made.found.push(reached)?;
        forget(&mut self.judged, masks.width, to);
        Ok(())
    }

    /// Goes through the half-edge whose portal is the last one of the hull. A sector that is wanted is found there.
    #[inline(always)]
    fn go_through(
        &mut self,
        terrain: &Terrain<'_>,
        masks: &Masks<'_>,
        number: u32,
        edge: &HalfEdge,
        made: &mut Made,
    ) -> Result<(), Memory>
        requires asked { self.old.judged.follow.asked ≡ Given number }
        requires splittable { IsSplittable self.old.ends }
        requires tried { (s : Search) × (n : ℕ) × (before : List EndPoints) × (self.old.ends ≡ before ++ half_edge_ends edge.now ∷ []) × IsTried (row_scene_of terrain.now masks.now) s self.old.root before self.old.judged made.old.found.items edge.now n }
        ensures after { (s : Search) (n : ℕ) (before : List EndPoints) → self.old.ends ≡ before ++ half_edge_ends edge.now ∷ [] → IsTried (row_scene_of terrain.now masks.now) s self.old.root before self.old.judged made.old.found.items edge.now (n + 1) → IfOk result (λ _. IsAfter (row_scene_of terrain.now masks.now) s self.new.root self.new.ends self.new.judged made.new.found.items n (length before)) }
        ensures made { (row : List ℕ) (source : ℕ) → IsMadeSoFar terrain.now.edges.now (rows_of masks.now) row terrain.now.roots.now.roots.items terrain.now.roots.now.first.items source self.old.judged made.old → IfOk result (λ _. IsMadeSoFar terrain.now.edges.now (rows_of masks.now) row terrain.now.roots.now.roots.items terrain.now.roots.now.first.items source self.new.judged made.new) }
        ensures answered { All IsNodeAnswered made.old.nodes → IfOk result (λ _. All IsNodeAnswered made.new.nodes) }
    {
        self.find(terrain, masks, edge, made)?;
        self.enter(terrain, masks, number, edge, made)
    }

    /// Turns back before what is asked, since these ends block it. The judge needn't test them again, and once something was
    /// found it won't hear of them.
    #[inline(always)]
    fn turn_back(
        &mut self,
        terrain: &Terrain<'_>,
        masks: &Masks<'_>,
        evidence: Evidence,
        made: &mut Made,
    ) -> Result<(), Memory>
        requires tried { (s : Search) × (n : ℕ) × (edge : HalfEdgeOf) × IsBarredBy (self.old.ends ++ half_edge_ends edge ∷ []) evidence × IsTried (row_scene_of terrain.now masks.now) s self.old.root self.old.ends self.old.judged made.old.found.items edge n }
        ensures after { (s : Search) (n : ℕ) (edge : HalfEdgeOf) → IsBarredBy (self.old.ends ++ half_edge_ends edge ∷ []) evidence → IsTried (row_scene_of terrain.now masks.now) s self.old.root self.old.ends self.old.judged made.old.found.items edge (n + 1) → IfOk result (λ _. IsAfter (row_scene_of terrain.now masks.now) s self.new.root self.new.ends self.new.judged made.new.found.items n (length self.old.ends)) }
        ensures made { (row : List ℕ) (source : ℕ) → IsMadeSoFar terrain.now.edges.now (rows_of masks.now) row terrain.now.roots.now.roots.items terrain.now.roots.now.first.items source self.old.judged made.old → IfOk result (λ _. IsMadeSoFar terrain.now.edges.now (rows_of masks.now) row terrain.now.roots.now.roots.items terrain.now.roots.now.first.items source self.new.judged made.new) }
        ensures answered { All IsNodeAnswered made.old.nodes → IfOk result (λ _. All IsNodeAnswered made.new.nodes) }
    {
        keep(made, Node::Blocked(evidence))?;
        skip(&mut self.judged, terrain, masks);
        Ok(())
    }

    /// Goes through the half-edge, or turns back before it.
    #[inline(always)]
    fn try_edge(
        &mut self,
        terrain: &Terrain<'_>,
        masks: &Masks<'_>,
        number: u32,
        edge: &HalfEdge,
        made: &mut Made,
    ) -> Result<(), Memory>
        requires asked { self.old.judged.follow.asked ≡ Given number }
        requires tried { (s : Search) × (n : ℕ) × IsTried (row_scene_of terrain.now masks.now) s self.old.root self.old.ends self.old.judged made.old.found.items edge.now n }
        ensures after { (s : Search) (n : ℕ) → IsTried (row_scene_of terrain.now masks.now) s self.old.root self.old.ends self.old.judged made.old.found.items edge.now (n + 1) → IfOk result (λ _. IsAfter (row_scene_of terrain.now masks.now) s self.new.root self.new.ends self.new.judged made.new.found.items n (length self.old.ends)) }
        ensures made { (row : List ℕ) (source : ℕ) → IsMadeSoFar terrain.now.edges.now (rows_of masks.now) row terrain.now.roots.now.roots.items terrain.now.roots.now.first.items source self.old.judged made.old → IfOk result (λ _. IsMadeSoFar terrain.now.edges.now (rows_of masks.now) row terrain.now.roots.now.roots.items terrain.now.roots.now.first.items source self.new.judged made.new) }
        ensures answered { All IsNodeAnswered made.old.nodes → IfOk result (λ _. All IsNodeAnswered made.new.nodes) }
    {
        match self.ends.pass(edge.left_at, edge.right_at)? {
            Passed::Open => self.go_through(terrain, masks, number, edge, made),
            Passed::Stuck(evidence) => self.turn_back(terrain, masks, evidence, made),
        }
    }

    /// Goes on where nothing that is still wanted is left behind what is asked, if something was found and the walk has come
    /// back to so many portals at most: the row there may have what was found since.
    #[inline(always)]
    fn come_back(&mut self, terrain: &Terrain<'_>, masks: &Masks<'_>, depth: usize, made: &Made)
        requires after { (s : Search) × (n : ℕ) × IsAfter (row_scene_of terrain.now masks.now) s self.old.root self.old.ends self.old.judged made.now.found.items n depth }
        ensures going { (s : Search) (n : ℕ) → IsAfter (row_scene_of terrain.now masks.now) s self.old.root self.old.ends self.old.judged made.now.found.items n depth → IsGoing (row_scene_of terrain.now masks.now) s self.new.root self.new.ends self.new.judged made.now.found.items n }
        ensures present { (k : ℕ) → self.new.judged.follow.asked ≡ Given k → IsPresent masks.now.width self.new.judged }
        ensures made { (row : List ℕ) (source : ℕ) → IsMadeSoFar terrain.now.edges.now (rows_of masks.now) row terrain.now.roots.now.roots.items terrain.now.roots.now.first.items source self.old.judged made.now → IsMadeSoFar terrain.now.edges.now (rows_of masks.now) row terrain.now.roots.now.roots.items terrain.now.roots.now.first.items source self.new.judged made.now }
    {
        if may_have_found(&self.judged, depth, made) {
            skip_unwanted(&mut self.judged, terrain, masks);
        }
    }

    /// Answers for the half-edge that is asked.
    #[inline(always)]
    fn step(
        &mut self,
        terrain: &Terrain<'_>,
        masks: &Masks<'_>,
        number: u32,
        made: &mut Made,
    ) -> Result<(), Memory>
        requires asked { self.old.judged.follow.asked ≡ Given number }
        requires present { IsPresent masks.now.width self.old.judged }
        requires going { (s : Search) × (n : ℕ) × IsGoing (row_scene_of terrain.now masks.now) s self.old.root self.old.ends self.old.judged made.old.found.items n }
        ensures going { (s : Search) (n : ℕ) → IsGoing (row_scene_of terrain.now masks.now) s self.old.root self.old.ends self.old.judged made.old.found.items (n + 1) → IfOk result (λ _. IsGoing (row_scene_of terrain.now masks.now) s self.new.root self.new.ends self.new.judged made.new.found.items n) }
        ensures present { IfOk result (λ _. (k : ℕ) → self.new.judged.follow.asked ≡ Given k → IsPresent masks.now.width self.new.judged) }
        ensures made { (row : List ℕ) (source : ℕ) → IsMadeSoFar terrain.now.edges.now (rows_of masks.now) row terrain.now.roots.now.roots.items terrain.now.roots.now.first.items source self.old.judged made.old → IfOk result (λ _. IsMadeSoFar terrain.now.edges.now (rows_of masks.now) row terrain.now.roots.now.roots.items terrain.now.roots.now.first.items source self.new.judged made.new) }
        ensures answered { All IsNodeAnswered made.old.nodes → IfOk result (λ _. All IsNodeAnswered made.new.nodes) }
    {
        let edge = terrain.edges.get(number).unwrap();
        let depth = self.judged.follow.depth;
        self.root = root_at(depth, number, self.root);
        self.ends.cut(depth);
        self.try_edge(terrain, masks, number, edge, made)?;
        self.come_back(terrain, masks, depth, made);
        Ok(())
    }
}

/// Walks the source with this row of what is wanted.
// out of line, and all that it calls is in line: its registers are its own
#[inline(never)]
pub fn walk_by_row(
    alloc: Global,
    walk: &mut Walk,
    terrain: &Terrain<'_>,
    masks: &Masks<'_>,
    source: u16,
    row: &[u64],
) -> Result<Made, Memory>
    requires width { length row.now ≡ masks.now.width }
    requires walkable { (over : Ground) × IsWalkable over terrain.now.edges.now terrain.now.roots.now.roots.items terrain.now.roots.now.first.items source }
    ensures answered { IfOk result (λ made. All IsNodeAnswered made.nodes) }
    ensures made { IfOk result (AreNodesMade terrain.now.edges.now (rows_of masks.now) row.now terrain.now.roots.now.roots.items terrain.now.roots.now.first.items source) }
    ensures found { (over : Ground) → IsWalkable over terrain.now.edges.now terrain.now.roots.now.roots.items terrain.now.roots.now.first.items source → IfOk result (λ made. AreFoundSeen over.plan source made.found.items) }
    ensures wanted { IfOk result (λ made. AreWanted row.now source made.found.items) }
{
    let mut made = Made {
        nodes: Nodes::new(alloc),
        found: Vec::new(alloc),
    };
    walk.judged.begin(terrain, masks, source, row)?;
    'nodes: while let Some(number) = walk.judged.follow.asked {
        walk.step(terrain, masks, number, &mut made)?;
    }
    made.nodes.shrink_to_fit();
    Ok(made)
}
