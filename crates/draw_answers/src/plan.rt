//! The picture of the plan alone.

ghost use Rattle.std.specs.Prelude.{◌≡◌, IfErr, IfOk, List, ℕ, length, ⊤};
ghost use Rattle.sight_names.specs.Map.{map_of};
ghost use Rattle.map_answers.specs.Groups.{AreGroupsOverPlan, seen};
ghost use Rattle.map_answers.specs.SightStatus.Answer.{GivesCalled};
ghost use Rattle.map_picture.specs.Bytes.{svg_of};
ghost use Rattle.map_picture.specs.Picture.{plan_picture as the_plan_picture};
ghost use Rattle.map_answers.specs.SightStatus.Status.{IsOfMapTest};
ghost use Rattle.draw_answers.specs.Drawn.{drawing, drawn_answer};
ghost use Rattle.draw_answers.specs.Plan.{DrawPlanCalls, plan_drawing};

use crate::audited::groups_of;
use crate::drawn::{Drawn, made};
use crate::lines::plan_line;
use map_answers::sight_status::Status;
use map_answers::{MeshGroups, count_lines};
use map_picture::{Named, plan_picture};
use sight_names::{Memory, Plan};
use std::alloc::Global;

/// The plan with the faces of its groups.
pub fn faces_alone(
    alloc: Global,
    plan: &Plan,
    groups: &MeshGroups,
    map: &Named<'_>,
) -> Result<Vec<u8>, Memory>
    requires groups { AreGroupsOverPlan plan.now groups.now }
    requires points { groups.now.mesh.points ≡ length plan.now.points }
    ensures { IfOk result (λ v. v.items ≡ svg_of (map_of plan.now) (the_plan_picture map.now (map_of plan.now) groups.now.grouped.groups groups.now.mesh.triangles groups.now.grouped.labels)) }
{
    let grouped = &groups.grouped;
    plan_picture(
        alloc,
        map,
        plan,
        &groups.mesh,
        &grouped.labels,
        grouped.groups.as_slice(),
    )
}

/// The plan, and its line.
fn drawn_plan(
    alloc: Global,
    plan: &Plan,
    groups: &MeshGroups,
    map: &Named<'_>,
) -> Result<Drawn, Memory>
    requires groups { AreGroupsOverPlan plan.now groups.now }
    requires points { groups.now.mesh.points ≡ length plan.now.points }
    ensures { IfOk result (λ d. drawing d ≡ plan_drawing map.now (map_of plan.now) (seen groups.now)) }
{
    let picture = faces_alone(alloc, plan, groups, map)?;
    let line = plan_line(alloc, map.text, count_lines(plan), plan.sectors)?;
    Ok(Drawn { picture, line })
}

/// The picture of a sound map's plan.
pub fn draw_plan(alloc: Global, plan: &Plan, map: &Named<'_>) -> Result<Drawn, Status>
    ensures judged { (out : List ℕ) → GivesCalled ⊤ (DrawPlanCalls map.now out (map_of plan.now)) (drawn_answer out result) }
    ensures refusals { IfErr result IsOfMapTest }
{
    let groups = groups_of(alloc, plan)?;
    made(drawn_plan(alloc, plan, &groups, map))
}
