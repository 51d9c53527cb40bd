//! The number itself.

ghost use Rattle.std.specs.Prelude.{◌≡◌, ◌≤◌, ◌^◌, ℕ, List, Option};
ghost use Rattle.sight_names.specs.declared.names.Budget.TheVariants.{Of};
ghost use Rattle.sight_names.specs.Map.{map_of};
ghost use Rattle.sight_names.specs.Mesh.{IsMeshOf};
ghost use Rattle.sight_names.specs.Found.{IsListed, Spent};
ghost use Rattle.sight_names.specs.Groups.{IsListedByGroups};
ghost use Rattle.sight_names.specs.Enough.{enough_of, passable_lines};
ghost use Rattle.portal_walk.specs.EnoughBudget.Passable.{is_open};

use mesh_shape::Mesh;
use sight_names::{LARGE_LINES, Line, Plan};

/// Whether the record is a line that isn't solid.
fn is_passable(entry: Option<Line>) -> bool
    ensures { result ≡ is_open entry }
{
    match entry {
        Some(line) => !line.solid,
        None => false,
    }
}

/// How many lines of the plan aren't solid.
fn count_passable(plan: &Plan) -> u64
    ensures count { result ≡ passable_lines (map_of plan.now) }
    ensures few { result ≤ LARGE_LINES }
{
    let mut count = 0;
    for entry in plan.lines() {
        if is_passable(*entry) {
            count += 1;
        }
    }
    count
}

/// The passable lines, times the points, times the points, times the triangles, but at least 1.
pub fn enough(plan: &Plan, mesh: &Mesh) -> u64
    requires mesh { IsMeshOf (map_of plan.now) mesh.now.triangles }
    ensures value { result ≡ enough_of (map_of plan.now) mesh.now.triangles }
    ensures fits { result ≤ 2 ^ 58 }
    ensures never_spent { (ls : List (Option ℕ)) (a : ℕ) → ¬ Spent (map_of plan.now) mesh.now.triangles ls a (Of result) }
    ensures never_listed { (a b : ℕ) → ¬ IsListed (map_of plan.now) (Of result) a b }
    ensures never_in_groups { (a b : ℕ) → ¬ IsListedByGroups (map_of plan.now) (Of result) a b }
{
    let points = plan.points().len() as u64;
    let triangles = mesh.triangles().len() as u64;
    let product = count_passable(plan) * points * points * triangles;
    product.max(1)
}
