//! The triangles that sight out of some sources enters, and the segments at which it ends.

ghost use Rattle.std.specs.Prelude.{◌≡◌, ◌<◌, ℕ, Contains, IfOk, length};
ghost use Rattle.sight_names.specs.Map.{map_of};
ghost use Rattle.sight_names.specs.Mesh.{IsGoodMesh};
ghost use Rattle.sight_names.specs.Sound.{LinesMeetAtEnds};
ghost use Rattle.pair_answer.specs.EnteredTriangles.Answer.{IsEnteredWithin};

use crate::entered_triangles::marks::{mark_sources, numbers_of};
use crate::entered_triangles::stops::stops_of;
use crate::entered_triangles::walks::walk_all;
use map_picture::Stop;
use mesh_shape::{Labels, Mesh};
use portal_walk::Terrain;
use sight_names::{Budget, Memory, Plan};
use std::alloc::Global;

/// The triangles that sight out of some sources enters, in ascending order, and the segments at which it ends: those
/// through which one could pass from a triangle of a source, or an entered one, to one that is neither.
#[derive(Drop)]
pub struct Entered {
    pub triangles: Vec<u16>,
    pub stops: Vec<Stop>,
}

/// The triangles that sight out of the sources enters, and the segments at which it ends; None where the walk of a source
/// doesn't end within the budget.
pub fn entered_out_of(
    alloc: Global,
    plan: &Plan,
    mesh: &Mesh,
    labels: &Labels,
    budget: Budget,
    sources: &[u16],
) -> Result<Option<Entered>, Memory>
    requires points { mesh.now.points ≡ length plan.now.points }
    requires audited { LinesMeetAtEnds (map_of plan.now) }
    requires good { IsGoodMesh (map_of plan.now) mesh.now.triangles labels.now }
    requires sources { (a : ℕ) → Contains sources.now a → a < plan.now.sectors }
    ensures entered { IfOk result (IsEnteredWithin (map_of plan.now) mesh.now.triangles labels.now budget sources.now) }
{
    let _ = mesh.triangles();
    let terrain = Terrain::of(alloc, plan, mesh, labels)?;
    let Some(mut marks) = walk_all(alloc, plan, mesh, labels, &terrain, budget, sources)? else {
        return Ok(None);
    };
    let triangles = numbers_of(alloc, marks.as_slice())?;
    mark_sources(alloc, plan.sectors, labels, sources, marks.as_mut_slice())?;
    let stops = stops_of(alloc, plan, mesh, labels, terrain.edges(), marks.as_slice())?;
    Ok(Some(Entered { triangles, stops }))
}
