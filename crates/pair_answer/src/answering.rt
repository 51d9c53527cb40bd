//! The answer for two sectors of a map with closed faces.

ghost use Rattle.std.specs.Prelude.{◌≡◌, ◌<◌, IfOk};
ghost use Rattle.sight_names.specs.Enough.{IsBudgetOf};
ghost use Rattle.sight_names.specs.Map.{map_of};
ghost use Rattle.sight_names.specs.Mesh.{IsMeshOf};
ghost use Rattle.pair_answer.specs.Answer.{AreGroupsOverShape, IsAnswerFor};

use crate::answer::PairAnswer;
use crate::between::walk_between;
use crate::places::{places_of, share_one};
use face_groups::Grouped;
use map_answers::missing;
use mesh_shape::Mesh;
use portal_walk::enough_budget::enough;
use sight_names::{Ask, Budget, Memory, Pair, Plan};
use std::alloc::Global;

/// How many sectors the plan has.
fn count_of(plan: &Plan) -> u16
    ensures { result ≡ plan.now.sectors }
{
    plan.sectors
}

/// The budget that is asked for.
pub fn budget_for(ask: Ask, plan: &Plan, mesh: &Mesh) -> Budget
    requires { IsMeshOf (map_of plan.now) mesh.now.triangles }
    ensures { IsBudgetOf (map_of plan.now) ask result }
{
    match ask {
        Ask::Of(n) => Budget::Of(n),
        Ask::Full => Budget::Full,
        Ask::Enough => Budget::Of(enough(plan, mesh)),
    }
}

/// The answer for two sectors of a map, over its groups: whether they see each other, as far as the walks of their groups
/// within the budget that is asked for tell.
pub fn pair_answer(
    alloc: Global,
    plan: &Plan,
    mesh: &Mesh,
    grouped: &Grouped,
    ask: Ask,
    pair: Pair,
) -> Result<PairAnswer, Memory>
    requires groups { AreGroupsOverShape plan.now mesh.now grouped.now }
    ensures answer { IfOk result (IsAnswerFor (map_of plan.now) ask pair) }
{
    let _ = plan.lines();
    if let Some(sector) = missing(plan, pair) {
        return Ok(PairAnswer::NoSector(sector));
    }
    let count = count_of(&grouped.plan);
    let from = places_of(alloc, grouped.groups.as_slice(), count, pair.a)?;
    let to = places_of(alloc, grouped.groups.as_slice(), count, pair.b)?;
    if share_one(from.as_slice(), to.as_slice()) {
        return Ok(PairAnswer::Touch);
    }
    let budget = budget_for(ask, &grouped.plan, mesh);
    walk_between(
        alloc,
        &grouped.plan,
        mesh,
        &grouped.labels,
        budget,
        from.as_slice(),
        to.as_slice(),
    )
}
