//! Why the two sectors of a pair see each other.

ghost use Rattle.std.specs.Prelude.{◌≡◌, ◌<◌, IfErr, IfOk};
ghost use Rattle.sight_names.specs.Groups.{HasClosedFaces};
ghost use Rattle.sight_names.specs.Map.{map_of};
ghost use Rattle.sight_names.specs.Sees.{Sees};
ghost use Rattle.sight_names.specs.declared.names.Ask.TheVariants.{Full};
ghost use Rattle.map_answers.specs.Groups.{AreGroupsOverPlan};
ghost use Rattle.map_answers.specs.Sound.{IsAuditRefusal};
ghost use Rattle.pair_answer.specs.Answer.{IsAnswerFor};
ghost use Rattle.table_verdicts.specs.Verdict.{ShowsSightByAnswer, answer_of};

use crate::verdict::Shown;
use map_answers::sight_status::Status;
use map_answers::{MeshGroups, audit_map};
use pair_answer::{PairAnswer, pair_answer};
use sight_names::{Ask, Memory, Pair, Plan};
use std::alloc::Global;

/// What an answer shows.
fn shown_by(answer: PairAnswer) -> Shown
    requires { ShowsSightByAnswer answer }
    ensures { answer_of result ≡ answer }
{
    match answer {
        PairAnswer::Sight(ray) => Shown::Ray(ray),
        PairAnswer::Touch => Shown::Touch,
        PairAnswer::Blind => unreachable!(),
        PairAnswer::Listed => unreachable!(),
        PairAnswer::NoSector(_) => unreachable!(),
    }
}

/// The answer over the groups of a map with closed faces, for a pair of its sectors that see each other.
fn answer_over(
    alloc: Global,
    plan: &Plan,
    groups: &MeshGroups,
    pair: Pair,
) -> Result<PairAnswer, Memory>
    requires groups { AreGroupsOverPlan plan.now groups.now }
    requires row { pair.a < plan.now.sectors }
    requires column { pair.b < plan.now.sectors }
    requires sees { Sees (map_of plan.now) pair.a pair.b }
    ensures answer { IfOk result (IsAnswerFor (map_of plan.now) Full pair) }
    ensures shows { IfOk result ShowsSightByAnswer }
{
    pair_answer(alloc, plan, &groups.mesh, &groups.grouped, Ask::Full, pair)
}

/// Why the sectors of a pair see each other.
pub fn sight_of_pair(alloc: Global, plan: &Plan, pair: Pair) -> Result<Shown, Status>
    requires row { pair.a < plan.now.sectors }
    requires column { pair.b < plan.now.sectors }
    requires sees { Sees (map_of plan.now) pair.a pair.b }
    ensures shown { IfOk result (λ by. IsAnswerFor (map_of plan.now) Full pair (answer_of by)) }
    ensures refusals { IfErr result (IsAuditRefusal (map_of plan.now)) }
{
    let groups = audit_map(alloc, plan)?;
    match answer_over(alloc, plan, &groups, pair) {
        Ok(answer) => Ok(shown_by(answer)),
        Err(refused) => Err(Status::Memory(refused.into())),
    }
}
