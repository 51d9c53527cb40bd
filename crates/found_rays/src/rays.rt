//! Rays in the order of their pairs.

ghost use Rattle.std.specs.Prelude.{◌↔◌, IsFalse, IsTrue, IfOk, OnOk};
ghost use Rattle.std.specs.List.Sorted.{IsPermutation, IsSortedByKey};
ghost use Rattle.sight_names.specs.Order.{Ascends, PairBefore};
ghost use Rattle.pair_budget.specs.PairRays.{pair_cmp};
ghost use Rattle.found_rays.specs.Rays.{AreOneEach, IsRayAdded, IsBehindAll, IsBehindNot, RayBefore};

use sight_names::{Memory, Pair, PairRay};
use std::alloc::Global;

/// Whether the pair comes before the other one.
fn is_before(one: Pair, other: Pair) -> bool
    ensures { IsTrue result ↔ PairBefore one other }
{
    one.a < other.a || (one.a == other.a && one.b < other.b)
}

/// Whether the ray's pair comes behind those of all these rays.
fn is_behind(rays: &[PairRay], ray: PairRay) -> bool
    requires { Ascends RayBefore rays.now }
    ensures behind { IsTrue result → IsBehindAll rays.now ray }
    ensures not { IsFalse result → IsBehindNot rays.now ray }
{
    match rays.last() {
        Some(last) => is_before(last.pair, ray.pair),
        None => true,
    }
}

/// Adds the ray, if its pair comes behind those of these.
pub fn add(rays: &mut Vec<PairRay>, ray: PairRay) -> Result<(), Memory>
    requires { Ascends RayBefore rays.old.items }
    ensures { OnOk result (IsRayAdded ray rays.old.items rays.new.items) }
{
    if is_behind(rays.as_slice(), ray) {
        rays.push(ray)?;
    }
    Ok(())
}

/// The rays by their pairs.
fn sorted(mut rays: Vec<PairRay>) -> Result<Vec<PairRay>, Memory>
    ensures same { IfOk result (λ v. IsPermutation rays.items v.items) }
    ensures sorted { IfOk result (λ v. IsSortedByKey (λ r. r.pair) pair_cmp v.items) }
{
    rays.sort_by_key(|ray| ray.pair)?;
    Ok(rays)
}

/// Of these rays the first for each pair, by their pairs.
pub fn in_order(alloc: Global, found: Vec<PairRay>) -> Result<Vec<PairRay>, Memory>
    ensures { IfOk result (λ v. AreOneEach found.items v.items) }
{
    let all = sorted(found)?;
    let mut rays = Vec::new(alloc);
    for ray in all.as_slice() {
        add(&mut rays, *ray)?;
    }
    Ok(rays)
}
