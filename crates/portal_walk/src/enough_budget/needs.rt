//! How great a budget each source needs.

ghost use Rattle.std.specs.Prelude.{◌≡◌, ◌≤◌, ◌<◌, ◌^◌, ◌↔◌, ℕ, IfOk, Some, length, slice_get};
ghost use Rattle.sight_names.specs.declared.names.Budget.TheVariants.{Of};
ghost use Rattle.sight_names.specs.Enough.{enough_of};
ghost use Rattle.sight_names.specs.Found.{Spent};
ghost use Rattle.sight_names.specs.Map.{map_of};
ghost use Rattle.sight_names.specs.Mesh.{IsGoodMesh};
ghost use Rattle.sight_names.specs.Sound.{LinesMeetAtEnds};
ghost use Rattle.portal_walk.specs.Terrain.{IsTerrain};
ghost use Rattle.portal_walk.specs.EnoughBudget.Need.{HasSequences, greatest};

use crate::{Terrain, Walker, Went};
use mesh_shape::{Labels, Mesh};
use sight_names::{Memory, Plan};
use std::alloc::Global;

/// The number of the source's stabbable sequences, by a walk to its end.
fn count_sequences(
    alloc: Global,
    plan: &Plan,
    mesh: &Mesh,
    labels: &Labels,
    terrain: &Terrain,
    source: u16,
) -> Result<u64, Memory>
    requires points { mesh.now.points ≡ length plan.now.points }
    requires audited { LinesMeetAtEnds (map_of plan.now) }
    requires good { IsGoodMesh (map_of plan.now) mesh.now.triangles labels.now }
    requires terrain { IsTerrain plan.now mesh.now.triangles labels.now terrain.now }
    requires source { source < plan.now.sectors }
    ensures number { IfOk result (HasSequences (map_of plan.now) mesh.now.triangles labels.now source) }
{
    enough_fits(plan, mesh);
    let mut walker = Walker::over(alloc, plan, mesh, labels, terrain, source)?;
    let mut count = 0u64;
    loop {
        match walker.go()? {
            Went::End => return Ok(count),
            Went::Blocked => {}
            Went::Open(_) => count += 1,
        }
    }
}

/// The budget that is enough is far below the greatest number, so no count of sequences passes that.
fn enough_fits(plan: &Plan, mesh: &Mesh)
    ensures { enough_of (map_of plan.now) mesh.now.triangles ≤ 2 ^ 58 }
{
    let _points = plan.points();
    let _triangles = mesh.triangles();
}

/// For each source the number of its stabbable sequences: the least budget that isn't spent there.
pub fn need(alloc: Global, plan: &Plan, mesh: &Mesh, labels: &Labels) -> Result<Vec<u64>, Memory>
    requires points { mesh.now.points ≡ length plan.now.points }
    requires audited { LinesMeetAtEnds (map_of plan.now) }
    requires good { IsGoodMesh (map_of plan.now) mesh.now.triangles labels.now }
    ensures each { IfOk result (λ ns. length ns.items ≡ plan.now.sectors) }
    ensures numbers { IfOk result (λ ns. (a n : ℕ) → slice_get ns.items a ≡ Some n → HasSequences (map_of plan.now) mesh.now.triangles labels.now a n) }
    ensures few { IfOk result (λ ns. (a n : ℕ) → slice_get ns.items a ≡ Some n → n ≤ enough_of (map_of plan.now) mesh.now.triangles) }
    ensures spent { IfOk result (λ ns. (a n budget : ℕ) → slice_get ns.items a ≡ Some n → Spent (map_of plan.now) mesh.now.triangles labels.now a (Of budget) ↔ (budget < n)) }
{
    let terrain = Terrain::of(alloc, plan, mesh, labels)?;
    let mut numbers = Vec::new(alloc);
    for source in 0..plan.sectors {
        numbers.push(count_sequences(alloc, plan, mesh, labels, &terrain, source)?)?;
    }
    Ok(numbers)
}

/// The greatest of the numbers, 0 where there is none.
pub fn most(numbers: &[u64]) -> u64
    ensures { result ≡ greatest numbers.now }
{
    let mut most = 0;
    for number in numbers {
        most = most.max(*number);
    }
    most
}
