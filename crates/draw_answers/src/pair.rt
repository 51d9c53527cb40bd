//! The picture of a pair of sectors.

ghost use Rattle.std.specs.Prelude.{◌≡◌, ◌<◌, All, IfErr, IfOk, List, ℕ, length};
ghost use Rattle.sight_names.specs.Groups.{HasClosedFaces};
ghost use Rattle.sight_names.specs.Map.{map_of};
ghost use Rattle.map_picture.specs.Picture.{JoinsSectors};
ghost use Rattle.map_answers.specs.SightStatus.Answer.{GivesCalled};
ghost use Rattle.map_answers.specs.Groups.{AreGroupsOverPlan, seen};
ghost use Rattle.pair_answer.specs.Answer.{IsAnswerFor};
ghost use Rattle.draw_answers.specs.Drawn.{IsOfDrawTest, drawing, drawn_answer};
ghost use Rattle.draw_answers.specs.Pair.{DrawPairCalls, IsPairIfMade, ShowsBlind, entered_drawing, sight_drawing, word_drawing};

use crate::audited::groups_of;
use crate::drawn::{Drawn, made};
use crate::entering::{Area, area_of_pair};
use crate::lines::{blind_line, word_line};
use map_answers::MeshGroups;
use map_answers::sight_status::{Status, Why};
use map_picture::{Named, blind_picture, pair_picture, sight_picture};
use pair_answer::{PairAnswer, budget_for, pair_answer};
use sight_names::{Ask, Memory, Pair, Plan, Ray};
use std::alloc::Global;

/// The faces of a pair, and its line that ends with this word.
fn drawn_word(
    alloc: Global,
    plan: &Plan,
    groups: &MeshGroups,
    map: &Named<'_>,
    pair: Pair,
    word: &str,
) -> Result<Drawn, Memory>
    requires groups { AreGroupsOverPlan plan.now groups.now }
    requires points { groups.now.mesh.points ≡ length plan.now.points }
    ensures { IfOk result (λ d. drawing d ≡ word_drawing map.now (map_of plan.now) pair (seen groups.now) word.now) }
{
    let grouped = &groups.grouped;
    let picture = pair_picture(
        alloc,
        map,
        plan,
        &groups.mesh,
        &grouped.labels,
        grouped.groups.as_slice(),
        pair,
    )?;
    let line = word_line(alloc, map.text, pair, word)?;
    Ok(Drawn { picture, line })
}

/// A pair of which one sees the other, with the ray.
fn drawn_sight(
    alloc: Global,
    plan: &Plan,
    groups: &MeshGroups,
    map: &Named<'_>,
    pair: Pair,
    ray: &Ray,
) -> Result<Drawn, Memory>
    requires groups { AreGroupsOverPlan plan.now groups.now }
    requires points { groups.now.mesh.points ≡ length plan.now.points }
    requires ray { JoinsSectors (map_of plan.now) ray.now }
    ensures { IfOk result (λ d. drawing d ≡ sight_drawing map.now (map_of plan.now) pair (seen groups.now) ray.now) }
{
    let grouped = &groups.grouped;
    let picture = sight_picture(
        alloc,
        map,
        plan,
        &groups.mesh,
        &grouped.labels,
        grouped.groups.as_slice(),
        pair,
        ray,
    )?;
    let line = word_line(alloc, map.text, pair, " sight\n")?;
    Ok(Drawn { picture, line })
}

/// A pair of which none sees the other, with what sight out of this one of them enters.
fn drawn_entered(
    alloc: Global,
    plan: &Plan,
    groups: &MeshGroups,
    map: &Named<'_>,
    pair: Pair,
    area: &Area,
) -> Result<Drawn, Memory>
    requires groups { AreGroupsOverPlan plan.now groups.now }
    requires points { groups.now.mesh.points ≡ length plan.now.points }
    requires triangles { All (λ k. k < length groups.now.mesh.triangles) area.now.entered.triangles.items }
    requires from { All (λ s. s.from < length plan.now.points) area.now.entered.stops.items }
    requires to { All (λ s. s.to < length plan.now.points) area.now.entered.stops.items }
    ensures { IfOk result (λ d. drawing d ≡ entered_drawing map.now (map_of plan.now) pair (seen groups.now) area.now.sector area.now.entered.triangles.items area.now.entered.stops.items) }
{
    let grouped = &groups.grouped;
    let entered = &area.entered;
    let picture = blind_picture(
        alloc,
        map,
        plan,
        &groups.mesh,
        &grouped.labels,
        grouped.groups.as_slice(),
        pair,
        area.sector,
        entered.triangles.as_slice(),
        entered.stops.as_slice(),
    )?;
    let line = blind_line(
        alloc,
        map.text,
        pair,
        area.sector,
        entered.triangles.len(),
        entered.stops.len(),
    )?;
    Ok(Drawn { picture, line })
}

/// A pair of which none sees the other.
fn drawn_blind(
    alloc: Global,
    plan: &Plan,
    groups: &MeshGroups,
    map: &Named<'_>,
    ask: Ask,
    pair: Pair,
) -> Result<Drawn, Memory>
    requires groups { AreGroupsOverPlan plan.now groups.now }
    requires points { groups.now.mesh.points ≡ length plan.now.points }
    ensures { IfOk result (λ d. ShowsBlind map.now (map_of plan.now) pair (seen groups.now) ask (drawing d)) }
{
    let budget = budget_for(ask, &groups.grouped.plan, &groups.mesh);
    let shown = area_of_pair(alloc, plan, groups, budget, pair)?;
    match shown {
        Some(area) => drawn_entered(alloc, plan, groups, map, pair, &area),
        None => drawn_word(alloc, plan, groups, map, pair, " blind\n"),
    }
}

/// What an answer for the pair calls for.
fn drawn_answer_of(
    alloc: Global,
    plan: &Plan,
    groups: &MeshGroups,
    map: &Named<'_>,
    ask: Ask,
    pair: Pair,
    answer: PairAnswer,
) -> Result<Drawn, Status>
    requires groups { AreGroupsOverPlan plan.now groups.now }
    requires points { groups.now.mesh.points ≡ length plan.now.points }
    requires answer { IsAnswerFor (map_of plan.now) ask pair answer }
    ensures shown { IsPairIfMade map.now (map_of plan.now) pair (seen groups.now) ask answer result }
    ensures refusals { IfErr result IsOfDrawTest }
{
    match answer {
        PairAnswer::Sight(ray) => made(drawn_sight(alloc, plan, groups, map, pair, &ray)),
        PairAnswer::Blind => made(drawn_blind(alloc, plan, groups, map, ask, pair)),
        PairAnswer::Touch => made(drawn_word(alloc, plan, groups, map, pair, " touch\n")),
        PairAnswer::Listed => made(drawn_word(alloc, plan, groups, map, pair, " listed\n")),
        PairAnswer::NoSector(sector) => Err(Status::No(Why::NoSector(sector))),
    }
}

/// The answer over the groups of a sound map.
fn answer_over(
    alloc: Global,
    plan: &Plan,
    groups: &MeshGroups,
    ask: Ask,
    pair: Pair,
) -> Result<PairAnswer, Memory>
    requires { AreGroupsOverPlan plan.now groups.now }
    ensures { IfOk result (IsAnswerFor (map_of plan.now) ask pair) }
{
    pair_answer(alloc, plan, &groups.mesh, &groups.grouped, ask, pair)
}

/// The picture of a sound map's plan with two sectors: the ray along which they see each other, or else what sight out of one of
/// them enters, as far as the budget that is asked for tells.
pub fn draw_pair(
    alloc: Global,
    plan: &Plan,
    map: &Named<'_>,
    ask: Ask,
    pair: Pair,
) -> Result<Drawn, Status>
    ensures judged { (out : List ℕ) → GivesCalled (¬ HasClosedFaces (map_of plan.now)) (DrawPairCalls map.now out ask pair (map_of plan.now)) (drawn_answer out result) }
    ensures refusals { IfErr result IsOfDrawTest }
{
    let groups = groups_of(alloc, plan)?;
    match answer_over(alloc, plan, &groups, ask, pair) {
        Ok(answer) => drawn_answer_of(alloc, plan, &groups, map, ask, pair, answer),
        Err(memory) => Err(Status::Memory(memory)),
    }
}
