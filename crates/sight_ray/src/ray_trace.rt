//! The walk along a given ray: the triangles that it passes from one side to another, or what it hits on its way.

pub mod laws;

ghost use Rattle.std.specs.Prelude.{◌≡◌, ◌⊎◌, Some, IsSome, IsTrue, ◌↔◌, All, IfOk, MatchOption, MatchResult, option_and_then, option_map, slice_get};
ghost use Rattle.sight_names.specs.Map.{map_of};
ghost use Rattle.sight_names.specs.Mesh.{IsGoodMesh, label_of, triangle_at as triangle_of};
ghost use Rattle.sight_names.specs.Plan.{IsPlan};
ghost use Rattle.sight_names.specs.Points.{reverse_of};
ghost use Rattle.sight_names.specs.Ray.{IsInRange};
ghost use Rattle.sight_names.specs.Sequence.{entry_edge, root_portal};
ghost use Rattle.sight_ray.specs.RayTrace.First.{IsRayClear, IsFirstTraceFault};
ghost use Rattle.sight_ray.specs.RayTrace.CrossedEdges.{portal_crossed};
ghost use Rattle.sight_ray.specs.RayTrace.Trace.{CrossesPortal, HasLabelledTriangle, HasThirdPoint, IsBadRay, IsFirstPortal, IsLastPortal, IsLeastWall, IsPortalOpen, IsTipFault, IsTrace, IsTraceFault, IsTraceable, IsSolidPortal, IsWallFault, IsWayOut, opposite as opposite_of};

use crate::check_ray;
use geom_exact::side_of;
use mesh_shape::{Labels, Mesh};
use sight_names::{Line, Plan, Ray, RayFault, Side, TraceFault};
use std::alloc::Global;

/// An edge of the mesh as the ray crosses it: the point numbers of its ends on the left and on the right hand.
#[derive(Clone, Copy, PartialEq, Eq)]
struct CrossedEdge {
    left: u16,
    right: u16,
}

/// The triangles that the ray passes, from the one at its side `first` to the one at its side `last`, each entered
/// from the one before across an edge that is no solid line. The mesh with its labels is a good one of the plan's map.
///
/// # Errors
///
/// `BadRay` where the ray has a fault other than that a solid line blocks it. Else what the ray comes to first: a
/// solid line, or a point of the map.
pub fn trace(
    alloc: Global,
    plan: &Plan,
    mesh: &Mesh,
    labels: &Labels,
    ray: &Ray,
) -> Result<Vec<u16>, TraceFault>
    requires good { IsGoodMesh (map_of plan.now) mesh.now.triangles labels.now }
    ensures answer { MatchResult result (λ v. IsTrace (map_of plan.now) mesh.now.triangles ray.now v.items) (λ f. IsTraceFault (map_of plan.now) mesh.now.triangles ray.now f) }
    ensures labelled { IfOk result (λ v. All (λ k. IsSome (label_of labels.now k)) v.items) }
    ensures first { MatchResult result (λ _. IsRayClear (map_of plan.now) ray.now) (λ f. IsFirstTraceFault (map_of plan.now) ray.now f) }
{
    let first = crossed_edge_out(plan, ray.first);
    if let Err(fault) = unblocked(plan, ray) {
        return Err(TraceFault::BadRay(fault));
    }
    let Some(first) = first else { unreachable!() };
    let Some(last) = crossed_edge_out(plan, opposite(ray.last)) else {
        unreachable!()
    };
    walk(alloc, plan, mesh, labels, ray, first, last)
}

/// The other side of the same line.
fn opposite(side: Side) -> Side
    ensures { result ≡ opposite_of side }
{
    Side {
        line: side.line,
        left: !side.left,
    }
}

/// The ray's fault, where it has one other than Blocked.
fn unblocked(plan: &Plan, ray: &Ray) -> Result<(), RayFault>
    ensures { MatchResult result (λ _. IsTraceable (map_of plan.now) ray.now) (λ f. IsBadRay (map_of plan.now) ray.now f) }
{
    match check_ray(plan, ray) {
        Ok(_) => Ok(()),
        Err(RayFault::Blocked { .. }) => Ok(()),
        Err(RayFault::Range) => Err(RayFault::Range),
        Err(RayFault::BadSide { side }) => Err(RayFault::BadSide { side }),
        Err(RayFault::NotSplit { line }) => Err(RayFault::NotSplit { line }),
        Err(RayFault::WrongWay { line }) => Err(RayFault::WrongWay { line }),
        Err(RayFault::Backwards) => Err(RayFault::Backwards),
    }
}

/// The crossed edge that leads out of the side, across its line; None where there is no such line.
fn crossed_edge_out(plan: &Plan, side: Side) -> Option<CrossedEdge>
    ensures portal { root_portal (map_of plan.now) side ≡ option_map portal_crossed result }
    ensures plan { IsPlan plan.now }
{
    let line = line_of(plan, side.line)?;
    if side.left {
        Some(CrossedEdge {
            left: line.b,
            right: line.a,
        })
    } else {
        Some(CrossedEdge {
            left: line.a,
            right: line.b,
        })
    }
}

/// The line with this record number, None where there is none or it is passed over.
fn line_of(plan: &Plan, number: u16) -> Option<Line>
    ensures entry { result ≡ option_and_then (λ l. l) (slice_get plan.now.lines number) }
    ensures plan { IsPlan plan.now }
{
    match plan.lines().get(number as usize) {
        Some(entry) => *entry,
        None => None,
    }
}

/// Goes from crossed edge to crossed edge, from `first` to `last`. A line enters no triangle of a good mesh twice.
fn walk(
    alloc: Global,
    plan: &Plan,
    mesh: &Mesh,
    labels: &Labels,
    ray: &Ray,
    first: CrossedEdge,
    last: CrossedEdge,
) -> Result<Vec<u16>, TraceFault>
    requires plan { IsPlan plan.now }
    requires good { IsGoodMesh (map_of plan.now) mesh.now.triangles labels.now }
    requires traceable { IsTraceable (map_of plan.now) ray.now }
    requires range { IsInRange ray.now }
    requires first { IsFirstPortal (map_of plan.now) ray.now (portal_crossed first) }
    requires crossed { CrossesPortal (map_of plan.now) ray.now (portal_crossed first) }
    requires last { IsLastPortal (map_of plan.now) ray.now (portal_crossed last) }
    ensures answer { MatchResult result (λ v. IsTrace (map_of plan.now) mesh.now.triangles ray.now v.items) (λ f. IsTraceFault (map_of plan.now) mesh.now.triangles ray.now f) }
    ensures labelled { IfOk result (λ v. All (λ k. IsSome (label_of labels.now k)) v.items) }
{
    let start = behind(mesh, labels, back(first));
    let mut passed = Vec::new(alloc);
    passed.push(start)?;
    let mut crossed_edge = first;
    for _ in 0..mesh.triangles().len() {
        let triangle = enter(plan, mesh, labels, crossed_edge)?;
        passed.push(triangle)?;
        if crossed_edge == last {
            return Ok(passed);
        }
        crossed_edge = leave(plan, mesh, ray, crossed_edge)?;
    }
    unreachable!()
}

/// The crossed edge the other way.
fn back(crossed_edge: CrossedEdge) -> CrossedEdge
    ensures { entry_edge (portal_crossed result) ≡ reverse_of (entry_edge (portal_crossed crossed_edge)) }
{
    CrossedEdge {
        left: crossed_edge.right,
        right: crossed_edge.left,
    }
}

/// The triangle that the crossed edge leads into, where it is no solid line.
fn enter(
    plan: &Plan,
    mesh: &Mesh,
    labels: &Labels,
    crossed_edge: CrossedEdge,
) -> Result<u16, TraceFault>
    requires leads { IsPortalOpen (map_of plan.now) (portal_crossed crossed_edge) → HasLabelledTriangle mesh.now.triangles labels.now (portal_crossed crossed_edge) }
    ensures answer { MatchResult result (λ k. triangle_of mesh.now.triangles (entry_edge (portal_crossed crossed_edge)) ≡ Some k) (λ f. IsWallFault (map_of plan.now) (portal_crossed crossed_edge) f) }
    ensures passable { IfOk result (λ k. IsPortalOpen (map_of plan.now) (portal_crossed crossed_edge)) }
    ensures labelled { IfOk result (λ k. IsSome (label_of labels.now k)) }
{
    if let Some(line) = wall_at(plan, crossed_edge) {
        return Err(TraceFault::HitsSolid { line });
    }
    Ok(behind(mesh, labels, crossed_edge))
}

/// The labelled triangle behind the crossed edge.
fn behind(mesh: &Mesh, labels: &Labels, crossed_edge: CrossedEdge) -> u16
    requires leads { HasLabelledTriangle mesh.now.triangles labels.now (portal_crossed crossed_edge) }
    ensures triangle { triangle_of mesh.now.triangles (entry_edge (portal_crossed crossed_edge)) ≡ Some result }
    ensures labelled { IsSome (label_of labels.now result) }
{
    match mesh.triangle_at(crossed_edge.left, crossed_edge.right) {
        Some(k) if is_labelled(labels, k) => k,
        _ => unreachable!(),
    }
}

/// Whether the triangle has a label.
fn is_labelled(labels: &Labels, triangle: u16) -> bool
    ensures { IsTrue result ↔ IsSome (label_of labels.now triangle) }
{
    match labels.as_slice().get(triangle as usize) {
        Some(label) => label.is_some(),
        None => false,
    }
}

/// The least solid line that the crossed edge is.
fn wall_at(plan: &Plan, crossed_edge: CrossedEdge) -> Option<u16>
    ensures { MatchOption result (IsPortalOpen (map_of plan.now) (portal_crossed crossed_edge)) (IsLeastWall (map_of plan.now) (portal_crossed crossed_edge)) }
{
    for i in 0..plan.lines().len() {
        if is_wall(plan, i as u16, crossed_edge) {
            return Some(i as u16);
        }
    }
    None
}

/// Whether the crossed edge is the line with this record number, and the line is solid.
fn is_wall(plan: &Plan, number: u16, crossed_edge: CrossedEdge) -> bool
    ensures { IsTrue result ↔ IsSolidPortal (map_of plan.now) (portal_crossed crossed_edge) number }
{
    match line_of(plan, number) {
        Some(line) => line.solid && joins(line, crossed_edge),
        None => false,
    }
}

/// Whether the line goes between the ends of the crossed edge.
fn joins(line: Line, crossed_edge: CrossedEdge) -> bool
    ensures { IsTrue result ↔ (((line.a ≡ crossed_edge.left) × (line.b ≡ crossed_edge.right)) ⊎ ((line.a ≡ crossed_edge.right) × (line.b ≡ crossed_edge.left))) }
{
    (line.a == crossed_edge.left && line.b == crossed_edge.right)
        || (line.a == crossed_edge.right && line.b == crossed_edge.left)
}

/// The crossed edge through which the ray leaves the triangle that it entered through `crossed edge`.
fn leave(
    plan: &Plan,
    mesh: &Mesh,
    ray: &Ray,
    crossed_edge: CrossedEdge,
) -> Result<CrossedEdge, TraceFault>
    requires plan { IsPlan plan.now }
    requires range { IsInRange ray.now }
    requires crossed { CrossesPortal (map_of plan.now) ray.now (portal_crossed crossed_edge) }
    requires third { HasThirdPoint (map_of plan.now) mesh.now.triangles (portal_crossed crossed_edge) }
    ensures { MatchResult result (λ g. IsWayOut (map_of plan.now) mesh.now.triangles ray.now (portal_crossed crossed_edge) (portal_crossed g)) (λ f. IsTipFault (map_of plan.now) mesh.now.triangles ray.now (portal_crossed crossed_edge) f) }
{
    let Some(tip) = mesh.apex(crossed_edge.left, crossed_edge.right) else {
        unreachable!()
    };
    let side = side_of(ray, plan.place(tip));
    if side == 0 {
        return Err(TraceFault::HitsPoint { point: tip });
    }
    if side > 0 {
        return Ok(CrossedEdge {
            left: tip,
            right: crossed_edge.right,
        });
    }
    Ok(CrossedEdge {
        left: crossed_edge.left,
        right: tip,
    })
}
