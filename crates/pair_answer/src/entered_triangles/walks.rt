//! The walks of the sources, and the triangles that they enter.

ghost use Rattle.std.specs.Prelude.{◌≡◌, ◌<◌, ℕ, Contains, IfOk, MatchOption, length, map};
ghost use Rattle.sight_names.specs.Map.{map_of};
ghost use Rattle.sight_names.specs.Mesh.{IsGoodMesh};
ghost use Rattle.sight_names.specs.Sequence.{roots};
ghost use Rattle.sight_names.specs.Sound.{LinesMeetAtEnds};
ghost use Rattle.portal_walk.specs.Terrain.{IsTerrain};
ghost use Rattle.sight_lift.specs.SequenceLaws.Ways.{root_alone};
ghost use Rattle.portal_walk.specs.Walk.{pending};
ghost use Rattle.pair_budget.specs.FoundSectors.{one_less};
ghost use Rattle.pair_answer.specs.EnteredTriangles.Walks.{AllEnded, IsOneSpent, IsMarkedByWalk};

use crate::entered_triangles::marks::mark;
use mesh_shape::{Labels, Mesh};
use portal_walk::{Terrain, Walker, Went};
use sight_names::{Budget, Memory, Plan};
use std::alloc::Global;

/// The budget that is left after one more sequence, None where that is one too many.
fn with_one_less(budget: Budget) -> Option<Budget>
    ensures { result ≡ one_less budget }
{
    match budget {
        Budget::Full => Some(Budget::Full),
        Budget::Of(0) => None,
        Budget::Of(n) => Some(Budget::Of(n - 1)),
    }
}

/// Goes on with a walk until it ends or the budget is spent, and marks the triangles that it enters; whether it ended.
fn walk_on(mut walker: Walker, budget: Budget, marks: &mut [bool]) -> Result<bool, Memory>
    requires pending { pending walker ≡ map root_alone (roots (map_of walker.plan) walker.source) }
    requires each { length marks.old ≡ length walker.mesh.triangles }
    ensures each { length marks.new ≡ length marks.old }
    ensures walked { IfOk result (IsMarkedByWalk (map_of walker.entry.plan) walker.entry.mesh.triangles walker.entry.labels budget walker.entry.source marks.old marks.new) }
{
    let mut left = budget;
    loop {
        match walker.go()? {
            Went::End => return Ok(true),
            Went::Blocked => {}
            Went::Open(_) => {
                let Some(less) = with_one_less(left) else {
                    return Ok(false);
                };
                left = less;
                mark(marks, walker.here().triangle);
            }
        }
    }
}

/// Walks a source within the budget, and marks the triangles that it enters; whether the walk ended.
fn walk_source(
    alloc: Global,
    plan: &Plan,
    mesh: &Mesh,
    labels: &Labels,
    terrain: &Terrain,
    budget: Budget,
    source: u16,
    marks: &mut [bool],
) -> Result<bool, Memory>
    requires points { mesh.now.points ≡ length plan.now.points }
    requires audited { LinesMeetAtEnds (map_of plan.now) }
    requires good { IsGoodMesh (map_of plan.now) mesh.now.triangles labels.now }
    requires terrain { IsTerrain plan.now mesh.now.triangles labels.now terrain.now }
    requires source { source < plan.now.sectors }
    requires each { length marks.old ≡ length mesh.now.triangles }
    ensures each { length marks.new ≡ length marks.old }
    ensures walked { IfOk result (IsMarkedByWalk (map_of plan.now) mesh.now.triangles labels.now budget source marks.old marks.new) }
{
    let walker = Walker::over(alloc, plan, mesh, labels, terrain, source)?;
    walk_on(walker, budget, marks)
}

/// Walks the sources in turn: a mark for each triangle that one of them enters, or None where a budget is spent.
pub fn walk_all(
    alloc: Global,
    plan: &Plan,
    mesh: &Mesh,
    labels: &Labels,
    terrain: &Terrain,
    budget: Budget,
    sources: &[u16],
) -> Result<Option<Vec<bool>>, Memory>
    requires points { mesh.now.points ≡ length plan.now.points }
    requires audited { LinesMeetAtEnds (map_of plan.now) }
    requires good { IsGoodMesh (map_of plan.now) mesh.now.triangles labels.now }
    requires terrain { IsTerrain plan.now mesh.now.triangles labels.now terrain.now }
    requires sources { (a : ℕ) → Contains sources.now a → a < plan.now.sectors }
    ensures { IfOk result (λ walked. MatchOption walked (IsOneSpent (map_of plan.now) mesh.now.triangles labels.now budget sources.now) (λ marks. AllEnded (map_of plan.now) mesh.now.triangles labels.now budget sources.now marks.items)) }
{
    let mut marks = vec![in alloc; false; mesh.triangles().len()]?;
    for i in 0..sources.len() {
        let ended = walk_source(
            alloc,
            plan,
            mesh,
            labels,
            terrain,
            budget,
            sources[i],
            marks.as_mut_slice(),
        )?;
        if !ended {
            return Ok(None);
        }
    }
    Ok(Some(marks))
}
