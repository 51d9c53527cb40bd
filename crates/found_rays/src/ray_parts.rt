//! Rays judged in parts, as tasks.

ghost use Rattle.std.specs.Prelude.{◌≡◌, ℕ, ◌*◌, ◌<◌, ◌≤◌, ◌^◌, All, IsTrue, drop, length, take, slice_get, Some};
ghost use Rattle.found_rays.specs.Ground.{IsRayGround};
ghost use Rattle.found_rays.specs.Rays.{AreFoundIn, IsFoundRay};

use crate::judged::are_found;
use group_checker::GroupedMesh;
use mesh_shape::half_edges::HalfEdges;
use sight_names::{Memory, PairRay};
use std::alloc::Global;
use task_crew::Tasks;

/// How many rays one task judges.
pub const PART: usize = 512;

/// So many of the rays from this place on, or as many as there are.
fn rays_at(rays: &[PairRay], at: usize, count: usize) -> &[PairRay]
    ensures { result.now ≡ take count (drop at rays.now) }
{
    let behind = &rays[at.min(rays.len())..];
    &behind[..count.min(behind.len())]
}

/// In how many parts so many rays come.
pub fn parts_of(count: usize) -> usize
    ensures enough { count ≤ result * PART }
    ensures within { (i : ℕ) → i < result → i * PART < count }
{
    count.div_ceil(PART)
}

/// Rays of pairs of groups, and where they are judged.
#[derive(Drop)]
pub struct RayParts<'a> {
    pub over: &'a GroupedMesh,
    pub edges: &'a HalfEdges,
    pub rays: &'a [PairRay],
}

impl<'a> Tasks for RayParts<'a> {
    ghost use Rattle.found_rays.specs.declared.ray_parts.TheConstants.{PART};

    type Tools = ();

    type Done = bool;

    ghost can_do = { λ w i. IsRayGround w.over.now.plan w.over.now.mesh.triangles w.over.now.labels w.edges.now × (i * PART < length w.rays.now) };

    ghost is_done = { λ w i found. AreFoundIn w.over.now.plan w.rays.now i found };

    fn tools(&self, alloc: Global) {
        let _ = alloc;
    }

    fn work(&self, alloc: Global, tools: &mut (), number: usize) -> Result<bool, Memory> {
        let _ = alloc;
        let _ = tools;
        let rays = rays_at(self.rays, number * PART, PART);
        Ok(are_found(self.over, self.edges, rays))
    }
}
