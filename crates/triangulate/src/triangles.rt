//! The empty triangles of kept segments.

ghost use Rattle.std.specs.Prelude.{◌≡◌, ◌<◌, ◌≤◌, ◌*◌, IfOk, OnOk, Contains, length, map};
ghost use Rattle.sight_names.specs.declared.names.Triangle.{Triangle};
ghost use Rattle.sight_names.specs.Map.{map_of};
ghost use Rattle.sight_names.specs.Sound.{LinesMeetAtEnds};
ghost use Rattle.sight_names.specs.Greedy.{IsGreedy};
ghost use Rattle.sight_names.specs.Mesh.{IsMeshOf, IsPlainMesh, IsTriangle};
ghost use Rattle.triangulate.specs.IncidentSegments.Kept.{AreEdges, edge_of};
ghost use Rattle.triangulate.specs.Left.{AreLeftTriangles, AreTrianglesSorted, IsLeftAdded};
ghost use Rattle.mesh_shape.specs.Fills.{FillsHull, FillsSides};

use crate::greedy_segments::{Alone, SegmentWorkers, greedy_by};
use crate::incident_segments::{IncidentSegments, Segments, next_left};
use mesh_shape::Mesh;
use sight_names::{Memory, Plan, Triangle};
use std::alloc::Global;

/// All empty triangles of the greedy segments, in order: on the left of each segment the one to the first neighbour. There
/// are at most twice as many as points.
fn mesh_of(alloc: Global, plan: &Plan, segments: &Segments) -> Result<Mesh, Memory>
    requires audited { LinesMeetAtEnds (map_of plan.now) }
    requires greedy { IsGreedy (map_of plan.now) segments.now }
    ensures points { IfOk result (λ mesh. mesh.points ≡ length plan.now.points) }
    ensures mesh { IfOk result (λ mesh. IsMeshOf (map_of plan.now) mesh.triangles) }
    ensures plain { IfOk result (λ mesh. IsPlainMesh (map_of plan.now) mesh.triangles) }
    ensures fills { IfOk result (λ mesh. FillsHull (map_of plan.now) segments.now mesh.triangles) }
    ensures sides { IfOk result (λ mesh. FillsSides (map_of plan.now) mesh.triangles) }
    ensures few { IfOk result (λ mesh. length mesh.triangles ≤ 2 * length plan.now.points) }
{
    let count = plan.points().len() as u16;
    let incident = incident_of(alloc, count, segments)?;
    let found = triangles_of(alloc, plan, &incident)?;
    Mesh::of(alloc, count, in_order(found))
}

/// The mesh of a map whose lines meet at ends: the empty triangles of its greedy segments, at most twice as many as points.
pub fn greedy_mesh(alloc: Global, plan: &Plan) -> Result<Mesh, Memory>
    requires audited { LinesMeetAtEnds (map_of plan.now) }
    ensures points { IfOk result (λ mesh. mesh.points ≡ length plan.now.points) }
    ensures mesh { IfOk result (λ mesh. IsMeshOf (map_of plan.now) mesh.triangles) }
    ensures plain { IfOk result (λ mesh. IsPlainMesh (map_of plan.now) mesh.triangles) }
    ensures fills { IfOk result (λ mesh. FillsSides (map_of plan.now) mesh.triangles) }
    ensures few { IfOk result (λ mesh. length mesh.triangles ≤ 2 * length plan.now.points) }
{
    greedy_mesh_by(&Alone, alloc, plan)
}

/// The same mesh by these workers.
pub fn greedy_mesh_by<W: SegmentWorkers>(
    workers: &W,
    alloc: Global,
    plan: &Plan,
) -> Result<Mesh, Memory>
    requires can { W.can_work workers.now }
    requires audited { LinesMeetAtEnds (map_of plan.now) }
    ensures points { IfOk result (λ mesh. mesh.points ≡ length plan.now.points) }
    ensures mesh { IfOk result (λ mesh. IsMeshOf (map_of plan.now) mesh.triangles) }
    ensures plain { IfOk result (λ mesh. IsPlainMesh (map_of plan.now) mesh.triangles) }
    ensures fills { IfOk result (λ mesh. FillsSides (map_of plan.now) mesh.triangles) }
    ensures few { IfOk result (λ mesh. length mesh.triangles ≤ 2 * length plan.now.points) }
{
    let segments = greedy_by(workers, alloc, plan)?;
    mesh_of(alloc, plan, &segments)
}

/// The triangles in ascending order, each once.
fn in_order(found: Vec<Triangle>) -> Vec<Triangle>
    ensures { AreTrianglesSorted found.items result.items }
{
    let mut triangles = found;
    triangles.sort_unstable();
    triangles.dedup();
    triangles
}

/// The segments as a incident.
fn incident_of(alloc: Global, points: u16, segments: &Segments) -> Result<IncidentSegments, Memory>
    requires { AreEdges points segments.now }
    ensures points { IfOk result (λ w. w.points ≡ points) }
    ensures segments { IfOk result (λ w. map edge_of w.segments ≡ segments.now) }
{
    let mut incident = IncidentSegments::new(alloc, points)?;
    for segment in segments.as_slice() {
        incident.push(segment.from, segment.to)?;
    }
    Ok(incident)
}

/// The triangles on the left of the segments, in both directions, each at its least point.
fn triangles_of(
    alloc: Global,
    plan: &Plan,
    incident: &IncidentSegments,
) -> Result<Vec<Triangle>, Memory>
    requires { incident.now.points ≡ length plan.now.points }
    ensures left { IfOk result (λ v. AreLeftTriangles (map_of plan.now) incident.now.segments v.items) }
    ensures numbers { IfOk result (λ v. (t : Triangle) → Contains v.items t → IsTriangle incident.now.points t) }
{
    let mut triangles = Vec::new(alloc);
    for segment in incident.segments() {
        add_left(plan, incident, &mut triangles, segment.from, segment.to)?;
        add_left(plan, incident, &mut triangles, segment.to, segment.from)?;
    }
    Ok(triangles)
}

/// Adds the triangle on the left of the way from `a` to `b`, if there is one and `a` is its least point.
fn add_left(
    plan: &Plan,
    incident: &IncidentSegments,
    triangles: &mut Vec<Triangle>,
    a: u16,
    b: u16,
) -> Result<(), Memory>
    requires points { incident.now.points ≡ length plan.now.points }
    requires first { a < incident.now.points }
    requires second { b < incident.now.points }
    ensures { OnOk result (IsLeftAdded (map_of plan.now) incident.now.segments a b triangles.old.items triangles.new.items) }
{
    if a >= b {
        return Ok(());
    }
    let Some(c) = next_left(plan, incident, a, b) else {
        return Ok(());
    };
    if a < c {
        triangles.push(Triangle { p: a, q: b, r: c })?;
    }
    Ok(())
}
