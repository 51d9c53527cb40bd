//! Rays of a group that share a line: whoever follows them one after another follows it once.

ghost use Rattle.std.specs.Prelude.{◌≡◌, IfOk, map};
ghost use Rattle.sight_names.specs.Ray.{IsInRange};
ghost use Rattle.found_rays.specs.Lines.{pair_of_ray};

use geom_exact::{in_range, side_of};
use group_checker::GroupedMesh;
use mesh_shape::half_edges::{HalfEdge, HalfEdges};
use sight_names::{Memory, Pair, PairRay, Plan, Ray, Side};
use std::alloc::Global;

/// Rays are put on few lines where groups have so many on average. Elsewhere it takes longer than whoever checks them gains.
const MANY: usize = 100;

/// The value of the ray's line at the point with this number: above 0 on its left; 0 also where there is no such point.
#[inline(always)]
fn value_at(plan: &Plan, ray: &Ray, number: u16) -> i64
    requires { IsInRange ray.now }
{
    if (number as usize) < plan.points().len() {
        side_of(ray, plan.place(number))
    } else {
        0
    }
}

/// The half-edge by which the ray's line leads out of the triangle behind this one; None where it meets the third point.
#[inline(always)]
fn next_along(plan: &Plan, ray: &Ray, edge: &HalfEdge) -> Option<u32>
    requires { IsInRange ray.now }
{
    let value = value_at(plan, ray, edge.apex);
    if value > 0 {
        edge.right_way
    } else if value < 0 {
        edge.left_way
    } else {
        None
    }
}

/// The half-edge by which one leaves through the line at this side of it.
fn way_out(over: &GroupedMesh, edges: &HalfEdges, side: Side) -> Option<u32> {
    let line = over.plan.line(side.line)?;
    if side.left {
        edges.entering(&over.mesh, line.b, line.a)
    } else {
        edges.entering(&over.mesh, line.a, line.b)
    }
}

/// The ray along the same line to this side.
fn up_to(ray: &Ray, last: Side) -> Ray {
    Ray {
        first: ray.first,
        last,
        a: ray.a,
        b: ray.b,
        c: ray.c,
    }
}

/// Chooses the line for the ray to the group into which it leads at this side, if none was chosen.
fn offer(
    rays: &[PairRay],
    places: &[usize],
    one: &PairRay,
    to: u16,
    side: Side,
    chosen: &mut [Option<Ray>],
) {
    let Some(place) = places.get(to as usize) else {
        return;
    };
    let place = *place;
    if place >= rays.len() || place >= chosen.len() {
        return;
    }
    if rays[place].pair.a == one.pair.a && rays[place].pair.b == to && chosen[place].is_none() {
        chosen[place] = Some(up_to(&one.ray, side));
    }
}

/// Chooses the ray's line for all groups into which it leads and for whose rays none was chosen.
fn choose_along(
    over: &GroupedMesh,
    edges: &HalfEdges,
    rays: &[PairRay],
    places: &[usize],
    one: &PairRay,
    chosen: &mut [Option<Ray>],
)
    requires { IsInRange one.now.ray }
{
    let mut next = way_out(over, edges, one.ray.first);
    for _ in 0..edges.len() {
        let Some(number) = next else {
            return;
        };
        let Some(edge) = edges.get(number) else {
            return;
        };
        if let (Some(to), Some(side)) = (edge.sector, edge.entered) {
            offer(rays, places, one, to, side, chosen);
        }
        next = next_along(&over.plan, &one.ray, edge);
    }
}

/// Notes where the rays of this group are, which are the last of these.
fn note_places(rays: &[PairRay], group: u16, places: &mut [usize]) {
    let count = rays.len();
    for step in 0..count {
        let place = count - 1 - step;
        let Pair { a, b } = rays[place].pair;
        if a != group {
            return;
        }
        if (b as usize) < places.len() {
            places[b as usize] = place;
        }
    }
}

/// Whether no line was chosen for the ray at this place.
fn is_open(chosen: &[Option<Ray>], place: usize) -> bool {
    match chosen.get(place) {
        Some(other) => other.is_none(),
        None => false,
    }
}

/// For each of the rays the same or another one of its pair, so that they are on few lines. Nothing is claimed of them.
fn lines_of(
    alloc: Global,
    over: &GroupedMesh,
    edges: &HalfEdges,
    rays: &[PairRay],
) -> Result<Vec<Option<Ray>>, Memory> {
    let count = rays.len();
    let mut chosen = vec![in alloc; None; count]?;
    let mut places = vec![in alloc; 0; over.plan.sectors as usize]?;
    let mut group = None;
    for step in 0..count {
        let place = count - 1 - step;
        let one = rays[place];
        if group != Some(one.pair.a) {
            note_places(&rays[..=place], one.pair.a, places.as_mut_slice());
            group = Some(one.pair.a);
        }
        if in_range(&one.ray) && is_open(chosen.as_slice(), place) {
            choose_along(
                over,
                edges,
                rays,
                places.as_slice(),
                &one,
                chosen.as_mut_slice(),
            );
        }
    }
    Ok(chosen)
}

/// The ray that was chosen at this place, if one was, else this one.
fn chosen_at(chosen: &[Option<Ray>], place: usize, ray: Ray) -> Ray {
    match chosen.get(place) {
        Some(Some(other)) => *other,
        _ => ray,
    }
}

/// The rays with those that were chosen in their places.
fn moved(alloc: Global, rays: &[PairRay], chosen: &[Option<Ray>]) -> Result<Vec<PairRay>, Memory>
    ensures { IfOk result (λ v. map pair_of_ray v.items ≡ map pair_of_ray rays.now) }
{
    let mut all = Vec::new(alloc);
    for one in rays {
        let ray = chosen_at(chosen, all.len(), one.ray);
        all.push(PairRay {
            pair: one.pair,
            ray,
        })?;
    }
    Ok(all)
}

/// Rays for the same pairs, on few lines where groups have many. Nothing else is claimed of them.
pub fn on_few_lines(
    alloc: Global,
    over: &GroupedMesh,
    edges: &HalfEdges,
    rays: Vec<PairRay>,
) -> Result<Vec<PairRay>, Memory>
    ensures { IfOk result (λ v. map pair_of_ray v.items ≡ map pair_of_ray rays.items) }
{
    if rays.len() / MANY < over.plan.sectors as usize {
        return Ok(rays);
    }
    let chosen = lines_of(alloc, over, edges, rays.as_slice())?;
    moved(alloc, rays.as_slice(), chosen.as_slice())
}
