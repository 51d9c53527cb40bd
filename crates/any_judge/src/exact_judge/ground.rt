//! What the trees of a certificate of version 3 are judged by.

ghost use Rattle.std.specs.Prelude.{◌≡◌, ◌*◌, ◌≤◌, ◌↔◌, ℕ, Some, IfOk, IsTrue, length, slice_get};
ghost use Rattle.sight_names.specs.declared.names.PairRay.{PairRay as RayOf};
ghost use Rattle.cert_checker.specs.Pairs.{IsPairWithin};
ghost use Rattle.certificates.specs.declared.cert_exact.cert.ExactParts.{ExactParts as PartsOf};
ghost use Rattle.gate_floods.specs.RowJudge.Masks.{rows_of};
ghost use Rattle.any_judge.specs.ExactJudge.Ground.{IsExactGroundOf, IsMeshOver, IsSizedGround, masks_in};

use cert_checker::tree_judge::Roots;
use exact_checker::{EdgeMasks, edge_masks, joined_rows, ranks_of};
use face_groups::tri_sectors::components;
use gate_floods::gate_masks::Row;
use gate_floods::row_judge::Masks;
use group_checker::GroupedMesh;
use mesh_shape::half_edges::HalfEdges;
use sight_names::{Memory, PairRay};
use std::alloc::Global;

/// Half-edges and roots of the mesh, the masks of gates, and of so many groups what tells which claims each owns.
#[derive(Drop)]
pub struct Ground {
    pub count: u16,
    pub edges: HalfEdges,
    pub roots: Roots,
    pub masks: EdgeMasks,
    pub components: Vec<u16>,
    pub ranks: Vec<u16>,
    pub joined: Vec<Row>,
}

impl Ground {
    /// Over the map of groups, by the rays, all of which have come.
    pub fn new(
        alloc: Global,
        over: &GroupedMesh,
        edges: HalfEdges,
        rays: &[PairRay],
    ) -> Result<Ground, Memory>
        requires few { length edges ≤ 3 * 65535 }
        requires within { (i : ℕ) (r : RayOf) → slice_get rays.now i ≡ Some r → IsPairWithin over.now.plan.sectors r.pair }
        ensures sized { IfOk result IsSizedGround }
        ensures ground { (c : PartsOf) → IsMeshOver c over.now.plan over.now.mesh.triangles edges → c.rays ≡ rays.now → IfOk result (IsExactGroundOf over.now.plan c) }
    {
        let plan = &over.plan;
        let joined = joined_rows(alloc, plan.sectors, rays)?;
        let components = components(alloc, plan)?;
        let ranks = ranks_of(alloc, plan.sectors, joined.as_slice())?;
        let roots = Roots::of(alloc, plan, &over.mesh, &edges)?;
        let masks = edge_masks(alloc, plan, &edges, joined.as_slice())?;
        Ok(Ground {
            count: plan.sectors,
            edges,
            roots,
            masks,
            components,
            ranks,
            joined,
        })
    }

    /// The masks as a walk looks at them.
    #[inline(always)]
    pub fn mask_rows(&self) -> Masks<'_>
        ensures { rows_of result ≡ masks_in self.now }
    {
        Masks {
            width: self.masks.width,
            places: self.masks.places.as_slice(),
            words: self.masks.words.as_slice(),
        }
    }

    /// Whether there is what each group needs, as there always is.
    pub fn is_sized(&self) -> bool
        ensures { IsTrue result ↔ IsSizedGround self.now }
    {
        let count = self.count as usize;
        self.components.len() == count
            && self.ranks.len() == count
            && self.joined.len() == count
            && count <= self.masks.width.saturating_mul(64)
    }
}
