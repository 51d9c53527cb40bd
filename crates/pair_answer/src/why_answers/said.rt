//! The answer for two sectors of a map that was read.

ghost use Rattle.std.specs.Prelude.{◌≡◌, IfErr, IfOk, List, ℕ, string_bytes};
ghost use Rattle.sight_names.specs.Groups.{HasClosedFaces};
ghost use Rattle.sight_names.specs.Map.{map_of};
ghost use Rattle.map_answers.specs.SightStatus.Answer.{GivesCalled, line_answer};
ghost use Rattle.map_answers.specs.Groups.{AreGroupsOverPlan};
ghost use Rattle.pair_answer.specs.Answer.{IsAnswerFor};
ghost use Rattle.pair_answer.specs.WhyAnswers.Why.{IsOfWhyTest, IsSaidIfMade, SaysLine, WhyCalls};

use crate::why_answers::lines::{blind_line_of, listed_line_of, sight_line_of, touch_line_of};
use crate::{PairAnswer, pair_answer};
use map_answers::sight_status::{Status, Why};
use map_answers::{MeshGroups, audit_map};
use sight_names::{Ask, Memory, Pair, Plan};
use std::alloc::{AllocError, Global};

/// The line, or the want of memory.
fn made(line: Result<String, AllocError>) -> Result<String, Status>
    ensures { (text : List ℕ) → IfOk line (λ l. string_bytes l ≡ text) → SaysLine text result }
{
    match line {
        Ok(line) => Ok(line),
        Err(refused) => Err(Status::Memory(refused.into())),
    }
}

/// The line of an answer, or the no where a number is of no sector.
fn said(alloc: Global, pair: Pair, answer: PairAnswer) -> Result<String, Status>
    ensures said { IsSaidIfMade pair answer (line_answer result) }
    ensures refusals { IfErr result IsOfWhyTest }
{
    match answer {
        PairAnswer::Sight(ray) => made(sight_line_of(alloc, pair, ray)),
        PairAnswer::Blind => made(blind_line_of(alloc, pair)),
        PairAnswer::Touch => made(touch_line_of(alloc, pair)),
        PairAnswer::Listed => made(listed_line_of(alloc, pair)),
        PairAnswer::NoSector(sector) => Err(Status::No(Why::NoSector(sector))),
    }
}

/// The answer over the groups of a sound map.
fn answer_over(
    alloc: Global,
    plan: &Plan,
    groups: &MeshGroups,
    ask: Ask,
    pair: Pair,
) -> Result<PairAnswer, Memory>
    requires { AreGroupsOverPlan plan.now groups.now }
    ensures { IfOk result (IsAnswerFor (map_of plan.now) ask pair) }
{
    pair_answer(alloc, plan, &groups.mesh, &groups.grouped, ask, pair)
}

/// Whether the two sectors of the pair see each other, as far as the budget that is asked for tells, where the map is sound.
pub fn judge_why(alloc: Global, plan: &Plan, ask: Ask, pair: Pair) -> Result<String, Status>
    ensures judged { GivesCalled (¬ HasClosedFaces (map_of plan.now)) (WhyCalls ask pair (map_of plan.now)) (line_answer result) }
    ensures refusals { IfErr result IsOfWhyTest }
{
    let groups = audit_map(alloc, plan)?;
    match answer_over(alloc, plan, &groups, ask, pair) {
        Ok(answer) => said(alloc, pair, answer),
        Err(memory) => Err(Status::Memory(memory)),
    }
}
