//! The answer for two sectors of the map that four lumps spell.

ghost use Rattle.std.specs.Prelude.{◌≡◌, ◌≢◌, IfErr, IfOk, Ok};
ghost use Rattle.sight_names.specs.Map.{map_of};
ghost use Rattle.map_answers.specs.Groups.{AreGroupsOverPlan};
ghost use Rattle.doomsight_c.specs.Lumps.{of_lumps_given};
ghost use Rattle.pair_answer.specs.Answer.{IsAnswerFor};
ghost use Rattle.doomsight_c.specs.Said.{DeniesPair, IsPairAnswered, IsSaid, IsRefusalTold, of_sectors as of_sectors_said};

use crate::answer::{DoomsightAnswer, answer_of};
use crate::fault::{DoomsightFault, fault_of};
use crate::line::faults_tell_statuses;
use crate::lumps::plan_given;
use map_answers::sight_status::{Status, Why};
use map_answers::{MeshGroups, audit_map};
use pair_answer::laws::answers_tell_sight;
use pair_answer::{PairAnswer, pair_answer};
use sight_names::{Ask, Memory, Pair, Plan, Reading};
use std::alloc::Global;

/// The answer over the groups of a sound map.
fn answer_over(
    alloc: Global,
    plan: &Plan,
    groups: &MeshGroups,
    ask: Ask,
    pair: Pair,
) -> Result<PairAnswer, Memory>
    requires { AreGroupsOverPlan plan.now groups.now }
    ensures { IfOk result (IsAnswerFor (map_of plan.now) ask pair) }
{
    pair_answer(alloc, plan, &groups.mesh, &groups.grouped, ask, pair)
}

/// The answer of two sectors, or the no where a number is of no sector.
fn of_sectors(given: PairAnswer) -> Result<PairAnswer, Status>
    ensures { result ≡ of_sectors_said given }
{
    match given {
        PairAnswer::Sight(_) => Ok(given),
        PairAnswer::Touch => Ok(given),
        PairAnswer::Blind => Ok(given),
        PairAnswer::Listed => Ok(given),
        PairAnswer::NoSector(sector) => Err(Status::No(Why::NoSector(sector))),
    }
}

/// The answer for two sectors, where the map is sound and has both.
fn answer_audited(alloc: Global, plan: &Plan, ask: Ask, pair: Pair) -> Result<PairAnswer, Status>
    ensures answered { IfOk result (IsPairAnswered (map_of plan.now) ask pair) }
    ensures refused { IfErr result (DeniesPair (map_of plan.now) pair) }
{
    answers_tell_sight();
    let _ = plan.lines();
    let groups = audit_map(alloc, plan)?;
    match answer_over(alloc, plan, &groups, ask, pair) {
        Ok(given) => of_sectors(given),
        Err(memory) => Err(Status::Memory(memory)),
    }
}

/// The numbers of the answer, or of why there is none.
fn why_plan(
    alloc: Global,
    plan: &Plan,
    ask: Ask,
    pair: Pair,
) -> Result<DoomsightAnswer, DoomsightFault>
    ensures said { IfOk result (IsSaid (Ok (map_of plan.now)) ask pair) }
    ensures refused { IfErr result (IsRefusalTold (Ok (map_of plan.now)) pair) }
    ensures code { IfErr result (λ f. f.code ≢ 0) }
{
    faults_tell_statuses();
    match answer_audited(alloc, plan, ask, pair) {
        Ok(given) => Ok(answer_of(given)),
        Err(status) => Err(fault_of(&status)),
    }
}

/// The answer for two sectors of the map that the lumps spell, or why there is none.
pub fn why_lumps(
    alloc: Global,
    reading: Reading,
    linedefs: &[u8],
    sidedefs: &[u8],
    vertexes: &[u8],
    sectors: &[u8],
    ask: Ask,
    pair: Pair,
) -> Result<DoomsightAnswer, DoomsightFault>
    ensures said { IfOk result (IsSaid (of_lumps_given reading linedefs.now sidedefs.now vertexes.now sectors.now) ask pair) }
    ensures refused { IfErr result (IsRefusalTold (of_lumps_given reading linedefs.now sidedefs.now vertexes.now sectors.now) pair) }
    ensures code { IfErr result (λ f. f.code ≢ 0) }
{
    faults_tell_statuses();
    match plan_given(alloc, reading, linedefs, sidedefs, vertexes, sectors) {
        Ok(plan) => why_plan(alloc, &plan, ask, pair),
        Err(status) => Err(fault_of(&status)),
    }
}
