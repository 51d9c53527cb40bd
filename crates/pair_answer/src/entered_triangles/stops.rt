//! The segments through which one could pass out of marked triangles.

ghost use Rattle.std.specs.Prelude.{◌≡◌, ◌<◌, ◌↔◌, IfOk, OnOk, IsTrue, Some, length};
ghost use Rattle.sight_names.specs.Map.{map_of};
ghost use Rattle.sight_names.specs.Mesh.{IsGoodMesh};
ghost use Rattle.sight_names.specs.Order.{Ascends};
ghost use Rattle.mesh_shape.specs.HalfEdges.HalfEdges.{AreHalfEdges};
ghost use Rattle.mesh_shape.specs.HalfEdges.Numbers.{edge};
ghost use Rattle.pair_answer.specs.EnteredTriangles.Marks.{IsNumberMarked};
ghost use Rattle.pair_answer.specs.EnteredTriangles.Stops.{AreStopsInOrder, ArePut, AreStopsOf, IsStopPut, LeavesAt, StopBefore, segment};

use map_picture::Stop;
use mesh_shape::half_edges::HalfEdges;
use mesh_shape::{Labels, Mesh};
use sight_names::{Memory, Plan, Triangle};
use std::alloc::Global;

/// The segment between two points.
fn segment_between(u: u16, v: u16) -> Stop
    ensures { result ≡ segment u v }
{
    if u < v {
        Stop { from: u, to: v }
    } else {
        Stop { from: v, to: u }
    }
}

/// Whether there is an unmarked triangle with this directed edge, and the edge is no solid line.
fn leaves_at(
    plan: &Plan,
    mesh: &Mesh,
    labels: &Labels,
    edges: &HalfEdges,
    marks: &[bool],
    left: u16,
    right: u16,
) -> bool
    requires edges { AreHalfEdges plan.now mesh.now.triangles labels.now edges.now }
    requires each { length marks.now ≡ length mesh.now.triangles }
    ensures { IsTrue result ↔ LeavesAt (map_of plan.now) mesh.now.triangles (IsNumberMarked marks.now) (edge left right) }
{
    let Some(number) = edges.entering(mesh, left, right) else {
        return false;
    };
    match edges.get(number) {
        Some(behind) => !marks[behind.triangle as usize],
        None => false,
    }
}

/// Puts the segment between two points of a marked triangle, of which the first comes first, at the end where one could
/// pass through it to an unmarked one.
fn put_stop(
    stops: &mut Vec<Stop>,
    plan: &Plan,
    mesh: &Mesh,
    labels: &Labels,
    edges: &HalfEdges,
    marks: &[bool],
    from: u16,
    to: u16,
) -> Result<(), Memory>
    requires edges { AreHalfEdges plan.now mesh.now.triangles labels.now edges.now }
    requires each { length marks.now ≡ length mesh.now.triangles }
    ensures { OnOk result (IsStopPut (map_of plan.now) mesh.now.triangles (IsNumberMarked marks.now) from to stops.old.items stops.new.items) }
{
    if !leaves_at(plan, mesh, labels, edges, marks, to, from) {
        return Ok(());
    }
    stops.push(segment_between(from, to))?;
    Ok(())
}

/// The same for the three edges of a marked triangle.
fn put_stops(
    stops: &mut Vec<Stop>,
    plan: &Plan,
    mesh: &Mesh,
    labels: &Labels,
    edges: &HalfEdges,
    marks: &[bool],
    t: Triangle,
) -> Result<(), Memory>
    requires edges { AreHalfEdges plan.now mesh.now.triangles labels.now edges.now }
    requires each { length marks.now ≡ length mesh.now.triangles }
    ensures { OnOk result (ArePut (map_of plan.now) mesh.now.triangles (IsNumberMarked marks.now) t stops.old.items stops.new.items) }
{
    put_stop(stops, plan, mesh, labels, edges, marks, t.p, t.q)?;
    put_stop(stops, plan, mesh, labels, edges, marks, t.q, t.r)?;
    put_stop(stops, plan, mesh, labels, edges, marks, t.r, t.p)
}

/// The stops of all marked triangles, by these.
fn all_stops(
    alloc: Global,
    plan: &Plan,
    mesh: &Mesh,
    labels: &Labels,
    edges: &HalfEdges,
    marks: &[bool],
) -> Result<Vec<Stop>, Memory>
    requires good { IsGoodMesh (map_of plan.now) mesh.now.triangles labels.now }
    requires edges { AreHalfEdges plan.now mesh.now.triangles labels.now edges.now }
    requires each { length marks.now ≡ length mesh.now.triangles }
    ensures { IfOk result (λ v. AreStopsOf (map_of plan.now) mesh.now.triangles (IsNumberMarked marks.now) v.items) }
{
    let triangles = mesh.triangles();
    let mut stops = Vec::new(alloc);
    for k in 0..triangles.len() {
        if marks[k] {
            put_stops(&mut stops, plan, mesh, labels, edges, marks, triangles[k])?;
        }
    }
    Ok(stops)
}

/// The stops in order, each once.
fn in_order(found: Vec<Stop>) -> Vec<Stop>
    ensures { AreStopsInOrder found.items result.items }
{
    let mut stops = found;
    stops.sort_unstable();
    stops.dedup();
    stops
}

/// The segments through which one could pass out of the marked triangles, in order, each once.
pub fn stops_of(
    alloc: Global,
    plan: &Plan,
    mesh: &Mesh,
    labels: &Labels,
    edges: &HalfEdges,
    marks: &[bool],
) -> Result<Vec<Stop>, Memory>
    requires good { IsGoodMesh (map_of plan.now) mesh.now.triangles labels.now }
    requires edges { AreHalfEdges plan.now mesh.now.triangles labels.now edges.now }
    requires each { length marks.now ≡ length mesh.now.triangles }
    ensures ascend { IfOk result (λ v. Ascends StopBefore v.items) }
    ensures stops { IfOk result (λ v. AreStopsOf (map_of plan.now) mesh.now.triangles (IsNumberMarked marks.now) v.items) }
{
    Ok(in_order(all_stops(alloc, plan, mesh, labels, edges, marks)?))
}
