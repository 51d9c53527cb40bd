//! What a walk goes through: the half-edges of a map, seen from one source.

ghost use Rattle.std.specs.Prelude.{◌≡◌, Some, option_copied, slice_get};
ghost use Rattle.mesh_shape.specs.declared.half_edges.table.HalfEdge.{HalfEdge as HalfEdgeOf};
ghost use Rattle.portal_walk.specs.Ahead.{FindsAhead, ahead_by, kept_as};
ghost use Rattle.portal_walk.specs.Scene.{Finds, IsNumber, behind as behind_of};
ghost use Rattle.portal_walk.specs.Terrain.{IsTerrain};
ghost use Rattle.sight_names.specs.Map.{map_of};
ghost use Rattle.sight_names.specs.Mesh.{IsGoodMesh};
ghost use Rattle.sight_names.specs.Plan.{IsPlan};

use crate::ahead::{Ahead, NO_EDGE, is_in};
use crate::terrain::Terrain;
use mesh_shape::half_edges::{HalfEdge, HalfEdges};
use mesh_shape::{Labels, Mesh};
use sight_names::Plan;
use std::marker::Model;

/// The one or the other way out of a triangle that was entered.
#[derive(Clone, Copy)]
pub enum Way {
    Left,
    Right,
}

/// The half-edges over a plan, a mesh and its labels, and the source of a walk that enters those outside of it.
#[derive(Drop)]
pub struct Scene<'a> {
    plan: &'a Plan,
    mesh: &'a Mesh,
    labels: &'a Labels,
    source: u16,
    edges: &'a HalfEdges,
    lefts: &'a [Ahead],
    rights: &'a [Ahead],
}

impl<'a> Model for Scene<'a> {
    ghost use Rattle.std.specs.Prelude.{◌≤◌, ◌*◌, length};
    ghost use Rattle.sight_names.specs.declared.limits.TheConstants.{MOST_TRIANGLES};
    ghost use Rattle.portal_walk.specs.Ahead.{AreAhead};
    ghost use Rattle.portal_walk.specs.Scene.{SceneParts, IsScene};
    ghost use Rattle.portal_walk.specs.declared.scene.Way.TheVariants.{Left, Right};

    ghost Value = { SceneParts };

    ghost view = { λ s. record { plan = s.plan.now; mesh = s.mesh.now; labels = s.labels.now; source = s.source; edges = s.edges.now } };

    ghost invariant = { λ s. IsScene (record { plan = s.plan.now; mesh = s.mesh.now; labels = s.labels.now; source = s.source; edges = s.edges.now }) × AreAhead s.edges.now Left s.lefts.now × AreAhead s.edges.now Right s.rights.now × (length s.edges.now ≤ MOST_TRIANGLES * 3) };
}

/// The half-edge behind a way out of the triangle.
pub fn behind(edge: &HalfEdge, way: Way) -> Option<u32>
    ensures { result ≡ behind_of edge.now way }
{
    match way {
        Way::Left => edge.left_way,
        Way::Right => edge.right_way,
    }
}

impl<'a> Scene<'a> {
    /// The scene of a source.
    pub fn of(
        plan: &'a Plan,
        mesh: &'a Mesh,
        labels: &'a Labels,
        terrain: &'a Terrain,
        source: u16,
    ) -> Scene<'a>
        requires rules { IsPlan plan.now }
        requires good { IsGoodMesh (map_of plan.now) mesh.now.triangles labels.now }
        requires terrain { IsTerrain plan.now mesh.now.triangles labels.now terrain.now }
        ensures { result ≡ record { plan = plan.now; mesh = mesh.now; labels = labels.now; source = source; edges = terrain.now.edges } }
    {
        Scene {
            plan,
            mesh,
            labels,
            source,
            edges: terrain.edges(),
            lefts: terrain.lefts(),
            rights: terrain.rights(),
        }
    }

    /// The source.
    pub fn source(&self) -> u16
        ensures { result ≡ self.now.source }
    {
        self.source
    }

    /// The half-edge with this number.
    pub fn get(&self, number: u32) -> &HalfEdge
        requires { IsNumber self.now.mesh.triangles number }
        ensures { slice_get self.now.edges number ≡ Some result.now }
    {
        self.edges.get(number).unwrap()
    }

    /// What is kept of what is ahead by a way out of the triangle of the half-edge with this number.
    #[inline(always)]
    fn kept_ahead(&self, from: u32, way: Way) -> &Ahead
        requires { IsNumber self.now.mesh.triangles from }
        ensures { (x : HalfEdgeOf) → slice_get self.now.edges from ≡ Some x → result.now ≡ kept_as (ahead_by self.now.edges way (behind_of x way)) }
    {
        match way {
            Way::Left => &self.lefts[from as usize],
            Way::Right => &self.rights[from as usize],
        }
    }

    /// What is ahead by that way, be it a triangle of the source or not.
    #[inline(always)]
    fn ahead_in(&self, from: u32, way: Way) -> Option<&Ahead>
        requires { IsNumber self.now.mesh.triangles from }
        ensures { (x : HalfEdgeOf) → slice_get self.now.edges from ≡ Some x → option_copied result ≡ ahead_by self.now.edges way (behind_of x way) }
    {
        // of which there are few, as the invariant says
        let _ = &self.edges;
        let kept = self.kept_ahead(from, way);
        if kept.number == NO_EDGE {
            None
        } else {
            Some(kept)
        }
    }

    /// The same; None where one can't leave by this way.
    // all that a step needs is read in one place, which is lent: a copy of it would be taken apart again
    #[inline(always)]
    pub fn ahead(&self, from: u32, way: Way) -> Option<&Ahead>
        requires { IsNumber self.now.mesh.triangles from }
        ensures { FindsAhead self.now from way (option_copied result) }
    {
        let source = self.source;
        let ahead = self.ahead_in(from, way)?;
        if is_in(ahead, source) {
            None
        } else {
            Some(ahead)
        }
    }

    /// The number of the half-edge by the portal with these ends; None where one can't enter by it.
    pub fn at(&self, left: u16, right: u16) -> Option<u32>
        ensures { Finds self.now (record { left = left; right = right }) result }
    {
        let edges = self.edges;
        edges.outside(edges.entering(self.mesh, left, right), self.source)
    }
}
