//! The walk through the sequences of a source, whose nodes are a whole tree at its end.

ghost use Rattle.std.specs.Prelude.{◌≡◌, ◌<◌, ℕ, None, Ok, IfOk, OnErr, length, map, List, [], All, IfSome};
ghost use Rattle.sight_names.specs.Map.{map_of};
ghost use Rattle.sight_names.specs.Mesh.{IsGoodMesh};
ghost use Rattle.sight_names.specs.Plan.{IsPlan};
ghost use Rattle.sight_names.specs.Sequence.{roots};
ghost use Rattle.sight_names.specs.Sound.{LinesMeetAtEnds};
ghost use Rattle.sight_names.specs.Splitting.{SplitsEnds, IsSplittable};
ghost use Rattle.stab_hull.specs.Answer.{IsLineInRange};
ghost use Rattle.mesh_shape.specs.declared.half_edges.table.HalfEdge.{HalfEdge as HalfEdgeOf};
ghost use Rattle.portal_walk.specs.Terrain.{IsTerrain};

use crate::step::{Step, Went};
use crate::terrain::Terrain;
use crate::walk::Walk;
use block_evidence::sight_tree::Tree;
use mesh_shape::half_edges::HalfEdge;
use mesh_shape::{Labels, Mesh};
use sight_names::{Memory, Plan, Side};
use std::alloc::Global;
use std::marker::Model;

/// A walk through the sequences of one source.
#[derive(Drop)]
pub struct Walker<'a> {
    walk: Walk<'a>,
}

// between two steps what was answered, and any answers for what is still pending, are a whole tree
impl<'a> Model for Walker<'a> {
    ghost use Rattle.portal_walk.specs.Walk.{WalkParts};
    ghost use Rattle.portal_walk.specs.Whole.{IsWholeSoFar};

    ghost Value = { WalkParts };

    ghost view = { λ w. w.walk };

    ghost invariant = { λ w. IsWholeSoFar w.walk };
}

impl<'a> Walker<'a> {
    ghost use Rattle.sight_lift.specs.SequenceLaws.Ways.{root_alone};
    ghost use Rattle.block_evidence.specs.SightTree.WholeTree.{IsWholeTree};
    ghost use Rattle.portal_walk.specs.Nodes.{IsNodeAnswered};
    ghost use Rattle.portal_walk.specs.Sides.{IsExit};
    ghost use Rattle.portal_walk.specs.Walk.{Goes, IsTop, TakesStep, Rests, SameWalk, pending, sequences_left};

    /// A walk at its beginning, over the terrain of the map.
    pub fn over(
        alloc: Global,
        plan: &'a Plan,
        mesh: &'a Mesh,
        labels: &'a Labels,
        terrain: &'a Terrain,
        source: u16,
    ) -> Result<Walker<'a>, Memory>
        requires points { mesh.now.points ≡ length plan.now.points }
        requires audited { LinesMeetAtEnds (map_of plan.now) }
        requires good { IsGoodMesh (map_of plan.now) mesh.now.triangles labels.now }
        requires source { source < plan.now.sectors }
        requires terrain { IsTerrain plan.now mesh.now.triangles labels.now terrain.now }
        ensures plan { IfOk result (λ w. w.plan ≡ plan.now) }
        ensures rules { IfOk result (λ w. IsPlan w.plan) }
        ensures mesh { IfOk result (λ w. w.mesh ≡ mesh.now) }
        ensures labels { IfOk result (λ w. w.labels ≡ labels.now) }
        ensures source { IfOk result (λ w. w.source ≡ source) }
        ensures root { IfOk result (λ w. w.root ≡ None) }
        ensures pending { IfOk result (λ w. pending w ≡ map root_alone (roots (map_of plan.now) source)) }
        ensures nodes { IfOk result (λ w. w.nodes ≡ []) }
    {
        let walk = Walk::through(alloc, plan, mesh, labels, terrain, source)?;
        Ok(Walker { walk })
    }

    /// The next sequence in order that a line passes through, with such a line; or the next one that no line passes
    /// through though one passes through all of it but its last portal; or the end.
    ///
    /// # Errors
    ///
    /// After `Memory` the walk stands where it stood.
    pub fn next(&mut self) -> Result<Step, Memory>
        ensures walk { SameWalk self.old self.new }
        ensures step { IfOk result (TakesStep self.old self.new) }
        ensures memory { OnErr result (Rests self.old self.new) }
        ensures end { sequences_left self.old ≡ 0 → result ≡ Ok Step.End }
    {
        self.walk.next()
    }

    /// The same, of which its kind alone is told: `here` and `line` tell the rest.
    ///
    /// # Errors
    ///
    /// After `Memory` the walk stands where it stood.
    // in line, since whoever walks calls it for each sequence
    #[inline(always)]
    pub fn go(&mut self) -> Result<Went, Memory>
        ensures walk { SameWalk self.old self.new }
        ensures went { IfOk result (Goes self.old self.new) }
        ensures memory { OnErr result (Rests self.old self.new) }
        ensures end { sequences_left self.old ≡ 0 → result ≡ Ok Went.End }
    {
        self.walk.go()
    }

    /// The last portal of the sequence that the walk is at.
    pub fn here(&self) -> &HalfEdge
        requires { (edge : HalfEdgeOf) × IsTop self.now edge }
        ensures { IsTop self.now result.now }
    {
        self.walk.here()
    }

    /// A line that passes through the sequence that the walk is at.
    pub fn line(&self) -> (i32, i32, i64)
        requires there { 0 < length self.now.frames }
        requires splittable { IsSplittable self.now.ends }
        ensures splits { SplitsEnds self.now.ends result.0 result.1 result.2 }
        ensures range { IsLineInRange result.0 result.1 result.2 }
    {
        self.walk.line()
    }

    /// The side of the present root that names the source; None before the first step and after the end.
    pub fn root(&self) -> Option<Side>
        ensures root { result ≡ self.now.root }
        ensures exit { IfSome result (λ side. IsExit self.now.plan self.now.source side) }
    {
        self.walk.root()
    }

    /// All nodes that were answered, in order: a whole tree of the source.
    pub fn tree(self) -> Tree
        requires { sequences_left self ≡ 0 }
        ensures source { result.source ≡ self.entry.source }
        ensures nodes { result.nodes ≡ self.entry.nodes }
        ensures answered { All IsNodeAnswered result.nodes }
        ensures whole { (opened : List ℕ) × IsWholeTree (map_of self.entry.plan) self.entry.mesh.triangles self.entry.labels result opened }
    {
        self.walk.tree()
    }
}
