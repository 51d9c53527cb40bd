//! Gaps: the segments of the hull that no line covers, through which faces reach the outside.

ghost use Rattle.std.specs.Prelude.{◌↔◌, IfOk, IsTrue, OnOk};
ghost use Rattle.sight_names.specs.Map.{map_of};
ghost use Rattle.sight_names.specs.Mesh.{IsPlainMesh};
ghost use Rattle.mesh_shape.specs.Fills.{FillsSides};
ghost use Rattle.mesh_shape.specs.HalfEdges.Numbers.{edge};
ghost use Rattle.map_faults.specs.Gaps.{AddsGap, AddsGaps, AreGapsBy, AreHullGaps, IsFreeOut};

use crate::edge_sides::{edge_sides_of, side_on};
use mesh_shape::Mesh;
use sight_names::{Memory, Plan, Side, Triangle};
use std::alloc::Global;

/// A directed edge of a triangle, by its ends.
#[derive(Clone, Copy, PartialEq, Eq)]
pub struct Gap {
    pub triangle: u16,
    pub from: u16,
    pub to: u16,
}

/// Whether the directed edge is no line and has no triangle behind it.
fn is_gap(mesh: &Mesh, sides: &[Option<Side>], from: u16, to: u16) -> bool
    ensures { IsTrue result ↔ IsFreeOut mesh.now.triangles sides.now (edge from to) }
{
    side_on(mesh, sides, from, to).is_none() && mesh.triangle_at(to, from).is_none()
}

/// Adds the edge of this triangle, if it is such a segment.
fn add_gap(
    mesh: &Mesh,
    sides: &[Option<Side>],
    gaps: &mut Vec<Gap>,
    triangle: u16,
    from: u16,
    to: u16,
) -> Result<(), Memory>
    ensures { OnOk result (AddsGap mesh.now.triangles sides.now triangle (edge from to) gaps.old.items gaps.new.items) }
{
    if is_gap(mesh, sides, from, to) {
        gaps.push(Gap { triangle, from, to })?;
    }
    Ok(())
}

/// The same for the three edges of a triangle.
fn add_gaps(
    mesh: &Mesh,
    sides: &[Option<Side>],
    gaps: &mut Vec<Gap>,
    k: u16,
    t: Triangle,
) -> Result<(), Memory>
    ensures { OnOk result (AddsGaps mesh.now.triangles sides.now k t gaps.old.items gaps.new.items) }
{
    add_gap(mesh, sides, gaps, k, t.p, t.q)?;
    add_gap(mesh, sides, gaps, k, t.q, t.r)?;
    add_gap(mesh, sides, gaps, k, t.r, t.p)
}

/// The gaps by what the sides of the edges are.
fn gaps_by(alloc: Global, mesh: &Mesh, sides: &[Option<Side>]) -> Result<Vec<Gap>, Memory>
    ensures { IfOk result (λ v. AreGapsBy mesh.now.triangles sides.now v.items) }
{
    let mut gaps = Vec::new(alloc);
    for (k, t) in mesh.triangles().iter().enumerate() {
        add_gaps(mesh, sides, &mut gaps, k as u16, *t)?;
    }
    Ok(gaps)
}

/// The segments of the hull that no line covers, of the mesh of a map whose lines meet at ends: each with the triangle at
/// it, through which that one's face reaches the outside.
pub fn gaps_of(alloc: Global, plan: &Plan, mesh: &Mesh) -> Result<Vec<Gap>, Memory>
    ensures { IsPlainMesh (map_of plan.now) mesh.now.triangles → FillsSides (map_of plan.now) mesh.now.triangles → IfOk result (λ v. AreHullGaps (map_of plan.now) mesh.now.triangles v.items) }
{
    let sides = edge_sides_of(alloc, plan, mesh)?;
    gaps_by(alloc, mesh, sides.as_slice())
}
