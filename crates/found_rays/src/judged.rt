//! Which rays are sight rays of their pairs: what a search found counts only once it is judged here.

ghost use Rattle.std.specs.Prelude.{◌<◌, ◌↔◌, All, IfOk, IsTrue, OnOk, length};
ghost use Rattle.sight_names.specs.Map.{map_of};
ghost use Rattle.sight_names.specs.Order.{Ascends};
ghost use Rattle.sight_names.specs.Ray.{IsSightRay};
ghost use Rattle.cert_checker.specs.Rays.{AreSightRaysBelow};
ghost use Rattle.found_rays.specs.Ground.{IsRayGround};
ghost use Rattle.found_rays.specs.Rays.{AreFoundInOrder, IsFoundRay, RayBefore};

use crate::judges::RayJudges;
use crate::lines::on_few_lines;
use crate::ray_parts::RayParts;
use crate::rays::add;
use cert_checker::{fault_of_ray, ray_fault};
use group_checker::GroupedMesh;
use mesh_shape::half_edges::HalfEdges;
use sight_names::{Memory, PairRay};
use std::alloc::Global;

/// Whether the pair of each of the rays has the smaller group first.
fn have_ordered_pairs(rays: &[PairRay]) -> bool
    ensures { IsTrue result ↔ All (λ r. r.pair.a < r.pair.b) rays.now }
{
    for one in rays {
        if one.pair.a >= one.pair.b {
            return false;
        }
    }
    true
}

/// Whether all of these are found to be sight rays of their pairs.
fn are_sight_rays(over: &GroupedMesh, edges: &HalfEdges, rays: &[PairRay]) -> bool
    requires { IsRayGround over.now.plan over.now.mesh.triangles over.now.labels edges.now }
    ensures { IsTrue result → AreSightRaysBelow (map_of over.now.plan) rays.now (length rays.now) }
{
    ray_fault(&over.plan, &over.mesh, edges, rays).is_none()
}

/// Whether this one is.
fn is_sight_ray(over: &GroupedMesh, edges: &HalfEdges, one: &PairRay) -> bool
    requires { IsRayGround over.now.plan over.now.mesh.triangles over.now.labels edges.now }
    ensures { IsTrue result → IsSightRay (map_of over.now.plan) one.now.ray one.now.pair.a one.now.pair.b }
{
    fault_of_ray(&over.plan, &over.mesh, edges, one).is_none()
}

/// Whether all of these are found to be sight rays, each from the smaller group of its pair to the larger.
pub fn are_found(over: &GroupedMesh, edges: &HalfEdges, rays: &[PairRay]) -> bool
    requires { IsRayGround over.now.plan over.now.mesh.triangles over.now.labels edges.now }
    ensures { IsTrue result → All (IsFoundRay over.now.plan) rays.now }
{
    have_ordered_pairs(rays) && are_sight_rays(over, edges, rays)
}

/// Whether all of what was found of parts is true.
fn all_true(found: &[bool]) -> bool
    ensures { IsTrue result → All (λ b. IsTrue b) found.now }
{
    for one in found {
        if !*one {
            return false;
        }
    }
    true
}

/// The same of all these rays, judged in parts.
fn are_found_by<J: RayJudges>(
    judges: &J,
    alloc: Global,
    over: &GroupedMesh,
    edges: &HalfEdges,
    rays: &[PairRay],
) -> Result<bool, Memory>
    requires can { J.can_judge judges.now }
    requires ground { IsRayGround over.now.plan over.now.mesh.triangles over.now.labels edges.now }
    ensures { IfOk result (λ found. IsTrue found → All (IsFoundRay over.now.plan) rays.now) }
{
    let parts = RayParts { over, edges, rays };
    let found = judges.judge(alloc, &parts)?;
    Ok(all_true(found.as_slice()))
}

/// Whether this one is.
fn is_found(over: &GroupedMesh, edges: &HalfEdges, one: &PairRay) -> bool
    requires { IsRayGround over.now.plan over.now.mesh.triangles over.now.labels edges.now }
    ensures { IsTrue result → IsFoundRay over.now.plan one.now }
{
    one.pair.a < one.pair.b && is_sight_ray(over, edges, one)
}

/// Keeps the ray if it is found to be one, and its pair comes behind those of the others that are kept.
fn keep(
    over: &GroupedMesh,
    edges: &HalfEdges,
    one: &PairRay,
    kept: &mut Vec<PairRay>,
) -> Result<(), Memory>
    requires ground { IsRayGround over.now.plan over.now.mesh.triangles over.now.labels edges.now }
    requires kept { AreFoundInOrder over.now.plan kept.old.items }
    ensures { OnOk result (AreFoundInOrder over.now.plan kept.new.items) }
{
    if !is_found(over, edges, one) {
        return Ok(());
    }
    add(kept, *one)?;
    Ok(())
}

/// Those of the rays that are found to be sight rays of their pairs.
fn those_found(
    alloc: Global,
    over: &GroupedMesh,
    edges: &HalfEdges,
    rays: &[PairRay],
) -> Result<Vec<PairRay>, Memory>
    requires { IsRayGround over.now.plan over.now.mesh.triangles over.now.labels edges.now }
    ensures { IfOk result (λ v. AreFoundInOrder over.now.plan v.items) }
{
    let mut kept = Vec::new(alloc);
    for one in rays {
        keep(over, edges, one, &mut kept)?;
    }
    Ok(kept)
}

/// Rays for the pairs of these, on few lines where groups have many, without those that are no sight rays of their pairs. Many are
/// judged at once, since that is faster; one by one only where one of them is at fault.
pub fn judged<J: RayJudges>(
    judges: &J,
    alloc: Global,
    over: &GroupedMesh,
    edges: &HalfEdges,
    rays: Vec<PairRay>,
) -> Result<Vec<PairRay>, Memory>
    requires can { J.can_judge judges.now }
    requires ground { IsRayGround over.now.plan over.now.mesh.triangles over.now.labels edges.now }
    requires ascend { Ascends RayBefore rays.items }
    ensures { IfOk result (λ v. AreFoundInOrder over.now.plan v.items) }
{
    let rays = on_few_lines(alloc, over, edges, rays)?;
    let all = are_found_by(judges, alloc, over, edges, rays.as_slice())?;
    if all {
        Ok(rays)
    } else {
        those_found(alloc, over, edges, rays.as_slice())
    }
}
