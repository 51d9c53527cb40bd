//! Torn corners: where one who turns round an end of a side that names a sector, from triangle to triangle across edges that
//! are no lines, comes to a side that names none, or out of the hull. A hole in a wall tears the corners at both its ends.

ghost use Rattle.std.specs.Prelude.{◌≡◌, ◌<◌, ◌↔◌, ◌⊎◌, ℕ, List, Some, None, IfOk, IsTrue, IsSome, OnOk, MatchOption, length, slice_get};
ghost use Rattle.sight_names.specs.Map.{map_of, Names};
ghost use Rattle.sight_names.specs.Mesh.{triangle_at};
ghost use Rattle.mesh_shape.specs.HalfEdges.Numbers.{edge};
ghost use Rattle.mesh_shape.specs.HalfEdges.Kinds.{edge_at};
ghost use Rattle.map_faults.specs.EdgeSides.{AreEdgeSides, side_by};
ghost use Rattle.map_faults.specs.Tears.{AddsTear, AddsTears, AreTears, AreTearsBy, DoesName, IsBorder, TurnsRound, IsTurnWithin};

use crate::edge_sides::{edge_sides_of, side_on};
use mesh_shape::Mesh;
use sight_names::{Line, Memory, Plan, Side};
use std::alloc::Global;

/// A torn corner: the point, round which one turns from the edge that comes to it from `from`, along this side, to the edge
/// that goes on to `to`. Of the two just one names a sector.
#[derive(Clone, Copy)]
pub struct Tear {
    pub side: Side,
    pub from: u16,
    pub point: u16,
    pub to: u16,
}

/// Whether the directed edge is a line, or has no triangle behind it.
fn is_border(mesh: &Mesh, sides: &[Option<Side>], from: u16, to: u16) -> bool
    ensures { IsTrue result ↔ IsBorder mesh.now.triangles sides.now (edge from to) }
{
    side_on(mesh, sides, from, to).is_some() || mesh.triangle_at(to, from).is_none()
}

/// The point to which the first border goes on from `point`, for one who turns round it from the edge that comes from `from`.
fn turned(mesh: &Mesh, sides: &[Option<Side>], from: u16, point: u16) -> Option<u16>
    ensures { MatchOption result ((ys : List ℕ) (w : ℕ) → ¬ IsTurnWithin mesh.now.triangles sides.now point from ys w) (λ w. (ys : List ℕ) × IsTurnWithin mesh.now.triangles sides.now point from ys w) }
{
    let mut at = from;
    for _ in 0..mesh.triangles().len() {
        let next = mesh.apex(at, point)?;
        if is_border(mesh, sides, point, next) {
            return Some(next);
        }
        at = next;
    }
    None
}

/// Whether the side names a sector.
fn names_sector(plan: &Plan, side: Side) -> bool
    ensures { IsTrue result ↔ DoesName (map_of plan.now) (Some side) }
{
    match plan.sector_at(side) {
        Some(_) => true,
        None => false,
    }
}

/// Whether there is a side and it names a sector.
fn does_name(plan: &Plan, side: Option<Side>) -> bool
    ensures { IsTrue result ↔ DoesName (map_of plan.now) side }
{
    match side {
        Some(side) => names_sector(plan, side),
        None => false,
    }
}

/// Adds the corner at the end of this side, which goes along this edge, if it is torn.
fn add_tear(
    plan: &Plan,
    mesh: &Mesh,
    sides: &[Option<Side>],
    tears: &mut Vec<Tear>,
    side: Side,
    from: u16,
    point: u16,
) -> Result<(), Memory>
    ensures { OnOk result (AddsTear (map_of plan.now) mesh.now.triangles sides.now side from point tears.old.items tears.new.items) }
{
    let Some(to) = turned(mesh, sides, from, point) else {
        return Ok(());
    };
    if names_sector(plan, side) == does_name(plan, side_on(mesh, sides, point, to)) {
        return Ok(());
    }
    tears.push(Tear {
        side,
        from,
        point,
        to,
    })?;
    Ok(())
}

/// The same for both sides of the line with this record number.
fn add_tears(
    plan: &Plan,
    mesh: &Mesh,
    sides: &[Option<Side>],
    tears: &mut Vec<Tear>,
    number: u16,
    line: Line,
) -> Result<(), Memory>
    ensures { OnOk result (AddsTears (map_of plan.now) mesh.now.triangles sides.now number line tears.old.items tears.new.items) }
{
    let right = Side {
        line: number,
        left: false,
    };
    add_tear(plan, mesh, sides, tears, right, line.b, line.a)?;
    let left = Side {
        line: number,
        left: true,
    };
    add_tear(plan, mesh, sides, tears, left, line.a, line.b)
}

/// The torn corners by what the sides of the edges are.
fn tears_by(
    alloc: Global,
    plan: &Plan,
    mesh: &Mesh,
    sides: &[Option<Side>],
) -> Result<Vec<Tear>, Memory>
    ensures { IfOk result (λ v. AreTearsBy plan.now mesh.now.triangles sides.now v.items) }
{
    let mut tears = Vec::new(alloc);
    for (i, line) in plan.lines().iter().enumerate() {
        if let Some(line) = line {
            add_tears(plan, mesh, sides, &mut tears, i as u16, *line)?;
        }
    }
    Ok(tears)
}

/// The torn corners of a map over its mesh, in the order of their sides.
pub fn tears_of(alloc: Global, plan: &Plan, mesh: &Mesh) -> Result<Vec<Tear>, Memory>
    ensures { IfOk result (λ v. AreTears plan.now mesh.now.triangles v.items) }
{
    let sides = edge_sides_of(alloc, plan, mesh)?;
    tears_by(alloc, plan, mesh, sides.as_slice())
}
