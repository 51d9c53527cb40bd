//! What all walks of one map share.

ghost use Rattle.std.specs.Prelude.{◌≡◌, ◌<◌, length, IfOk, reverse};
ghost use Rattle.portal_walk.specs.Terrain.{IsTerrain};

use crate::ahead::{Ahead, all_ahead};
use crate::roots::Roots;
use crate::scene::Way;
use mesh_shape::half_edges::HalfEdges;
use mesh_shape::{Labels, Mesh};
use sight_names::{Memory, Plan};
use std::alloc::Global;
use std::marker::Model;

/// The half-edges of a map's mesh, and the roots of all its sectors: made once, and lent to each walk.
#[derive(Drop)]
pub struct Terrain {
    edges: HalfEdges,
    lefts: Vec<Ahead>,
    rights: Vec<Ahead>,
    roots: Roots,
}

impl Model for Terrain {
    ghost use Rattle.portal_walk.specs.Terrain.{TerrainParts};

    ghost Value = { TerrainParts };

    ghost view = { λ t. record { edges = t.edges; lefts = t.lefts.items; rights = t.rights.items; roots = t.roots } };
}

impl Terrain {
    /// The terrain of a plan, a mesh and its labels.
    ///
    /// # Errors
    ///
    /// `Memory` where there is none for it.
    pub fn of(alloc: Global, plan: &Plan, mesh: &Mesh, labels: &Labels) -> Result<Terrain, Memory>
        ensures { IfOk result (IsTerrain plan.now mesh.now.triangles labels.now) }
    {
        let edges = HalfEdges::of(alloc, plan, mesh, labels)?;
        // a mesh has few triangles
        let _triangles = mesh.triangles();
        let lefts = all_ahead(alloc, &edges, Way::Left)?;
        let rights = all_ahead(alloc, &edges, Way::Right)?;
        let roots = Roots::of(alloc, plan)?;
        Ok(Terrain {
            edges,
            lefts,
            rights,
            roots,
        })
    }

    /// What is ahead by the left way out of each half-edge's triangle.
    pub(crate) fn lefts(&self) -> &[Ahead]
        ensures { result.now ≡ self.now.lefts }
    {
        self.lefts.as_slice()
    }

    /// The same of the right way.
    pub(crate) fn rights(&self) -> &[Ahead]
        ensures { result.now ≡ self.now.rights }
    {
        self.rights.as_slice()
    }

    /// The half-edges.
    pub fn edges(&self) -> &HalfEdges
        ensures { result.now ≡ self.now.edges }
    {
        &self.edges
    }

    /// The roots.
    pub(crate) fn roots(&self) -> &Roots
        ensures { result.now ≡ self.now.roots }
    {
        &self.roots
    }
}
