//! Arrows round torn corners: the way of one who turns from a side that names a sector to a side that names none, or out of the hull.

ghost use Rattle.std.specs.Prelude.{◌≡◌, ◌++◌, ℕ, List, Option, IfOk, OnOk};
ghost use Rattle.sight_names.specs.declared.names.Side.{Side};
ghost use Rattle.sight_names.specs.Map.{map_of};
ghost use Rattle.map_faults.specs.Tears.{AreTears, IsTear, IsTurnWithin};
ghost use Rattle.fault_marks.specs.Arrows.{AddsArrows, AreTornWith, arrows_round};

use map_faults::Tear;
use map_picture::Arrow;
use mesh_shape::Mesh;
use sight_names::{Memory, Plan};
use std::alloc::Global;

/// Adds an arrow for each triangle through which one turns round the corner.
fn add_turn(mesh: &Mesh, arrows: &mut Vec<Arrow>, tear: Tear) -> Result<(), Memory>
    ensures { (ss : List (Option Side)) (ys : List ℕ) → IsTurnWithin mesh.now.triangles ss tear.point tear.from ys tear.to → OnOk result (arrows.new.items ≡ arrows.old.items ++ arrows_round tear.point tear.from ys tear.to) }
{
    let mut from = tear.from;
    for _ in 0..mesh.triangles().len() {
        let Some(to) = mesh.apex(from, tear.point) else {
            return Ok(());
        };
        arrows.push(Arrow {
            from,
            point: tear.point,
            to,
        })?;
        if to == tear.to {
            return Ok(());
        }
        from = to;
    }
    Ok(())
}

/// The same where the corner is at a side that names a sector.
fn add_arrows(plan: &Plan, mesh: &Mesh, arrows: &mut Vec<Arrow>, tear: Tear) -> Result<(), Memory>
    ensures { (ss : List (Option Side)) → IsTear plan.now mesh.now.triangles ss tear → OnOk result (AddsArrows (map_of plan.now) mesh.now.triangles ss tear arrows.old.items arrows.new.items) }
{
    match plan.sector_at(tear.side) {
        Some(_) => add_turn(mesh, arrows, tear),
        None => Ok(()),
    }
}

/// The arrows of torn corners, one after the other.
pub fn arrows_of(
    alloc: Global,
    plan: &Plan,
    mesh: &Mesh,
    tears: &[Tear],
) -> Result<Vec<Arrow>, Memory>
    requires { AreTears plan.now mesh.now.triangles tears.now }
    ensures { IfOk result (λ v. AreTornWith plan.now mesh.now.triangles tears.now v.items) }
{
    let mut arrows = Vec::new(alloc);
    for tear in tears {
        add_arrows(plan, mesh, &mut arrows, *tear)?;
    }
    Ok(arrows)
}
