//! Who judges rays.

ghost use denote.Param.Send.{IsSync};
ghost use Rattle.std.specs.Prelude.{◌≡◌, ℕ, ◌*◌, ◌<◌, ◌≤◌, IfOk, length};
ghost use Rattle.task_crew.specs.Done.{AreTasksDone};
ghost use Rattle.found_rays.specs.Ground.{IsRayGround};
ghost use Rattle.found_rays.specs.Rays.{ArePartsFound};

use crate::ray_parts::{RayParts, parts_of};
use sight_names::Memory;
use std::alloc::Global;
use std::thread::Threads;
use task_crew::{Alone, InThreads, in_turn, shared};

/// Those who judge rays. What they find doesn't depend on who they are.
pub trait RayJudges {
    /// Whether they can judge: threads share what all of them may look at.
    ghost can_judge: { Self → Type 0 };

    /// Whether all rays in each part are found to be sight rays, each from the smaller group of its pair to the larger.
    fn judge(&self, alloc: Global, parts: &RayParts<'_>) -> Result<Vec<bool>, Memory>
        requires can { can_judge self.now }
        requires ground { IsRayGround parts.now.over.now.plan parts.now.over.now.mesh.triangles parts.now.over.now.labels parts.now.edges.now }
        ensures { IfOk result (λ v. ArePartsFound parts.now.over.now.plan parts.now.rays.now v.items) };
}

impl RayJudges for Alone {
    ghost can_judge = { λ w. Unit {0} };

    fn judge(&self, alloc: Global, parts: &RayParts<'_>) -> Result<Vec<bool>, Memory> {
        in_turn(alloc, parts, parts_of(parts.rays.len()))
    }
}

impl<'a, R: Threads + Sync> RayJudges for InThreads<'a, R> {
    ghost can_judge = { λ w. IsSync R.row };

    fn judge(&self, alloc: Global, parts: &RayParts<'_>) -> Result<Vec<bool>, Memory> {
        let count = parts_of(parts.rays.len());
        shared(self.rt, alloc, parts, count, usize::from(self.workers))
    }
}
