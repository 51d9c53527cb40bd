//! What is said of one map's own REJECT.

ghost use Rattle.std.specs.Prelude.{◌≡◌, ◌≤◌, ◌<◌, IfErr, IfOk, Ok};
ghost use Rattle.sight_names.specs.Map.{map_of};
ghost use Rattle.map_answers.specs.Sound.{IsAuditRefusal};
ghost use Rattle.table_compare.specs.Counts.{IsFirstOf};
ghost use Rattle.table_verdicts.specs.Own.{IsAtFront};
ghost use Rattle.table_verdicts.specs.Verdict.{HasFirstWrong, IsVerdictOrMemory, IsWrong, JudgesReject};

use crate::own::{OwnTable, own_table};
use crate::sight_of_pair::sight_of_pair;
use crate::verdict::{Findings, FirstWrong, Verdict};
use map_answers::sight_status::Status;
use reject_bits::Table;
use sight_names::{Method, Pair, Plan};
use sight_workers::Gate;
use std::alloc::Global;
use std::thread::Threads;
use table_compare::compare;
use whole_wad::{Hooks, build};

/// The first wrong pair, with why its sectors see each other.
fn first_of(
    alloc: Global,
    plan: &Plan,
    reject: &[u8],
    first: Option<Pair>,
) -> Result<Option<FirstWrong>, Status>
    requires { IsFirstOf plan.now.sectors (IsWrong (map_of plan.now) reject.now) first }
    ensures first { IfOk result (HasFirstWrong (map_of plan.now) reject.now) }
    ensures refusals { IfErr result (IsAuditRefusal (map_of plan.now)) }
{
    let Some(pair) = first else {
        return Ok(None);
    };
    match sight_of_pair(alloc, plan, pair) {
        Ok(by) => Ok(Some(FirstWrong { pair, by })),
        Err(refusal) => Err(refusal),
    }
}

/// How the table at the front of a REJECT differs from that of the map.
fn judge_table<R: Threads + Sync, G: Gate + Sync>(
    rt: &R,
    alloc: Global,
    plan: &Plan,
    reject: &[u8],
    own: &Table,
    workers: u16,
    hooks: &Hooks<'_, G>,
) -> Result<Findings, Status>
    requires own { IsAtFront plan.now.sectors reject.now own.now }
    requires workers { (1 ≤ workers) × (workers ≤ 64) }
    ensures { JudgesReject (map_of plan.now) reject.now result }
{
    let built = build(rt, alloc, plan, workers, Method::Exact, hooks)?;
    let compared = compare(own, &built.table);
    let first = first_of(alloc, plan, reject, compared.first)?;
    Ok(Findings {
        wrong: compared.wrong,
        missing: compared.missing,
        first,
    })
}

/// What is said of a map's REJECT. Its length is looked at first, which no build is needed for.
pub fn verdict_of<R: Threads + Sync, G: Gate + Sync>(
    rt: &R,
    alloc: Global,
    plan: &Plan,
    reject: &[u8],
    workers: u16,
    hooks: &Hooks<'_, G>,
) -> Result<Verdict, Status>
    requires workers { (1 ≤ workers) × (workers ≤ 64) }
    ensures { IsVerdictOrMemory (Ok (map_of plan.now)) reject.now result }
{
    match own_table(alloc, plan.sectors, reject) {
        Ok(OwnTable::Short { found, expected }) => Ok(Verdict::Short { found, expected }),
        Ok(OwnTable::Whole(own)) => {
            let findings = judge_table(rt, alloc, plan, reject, &own, workers, hooks)?;
            Ok(Verdict::Judged(findings))
        }
        Err(refused) => Err(Status::Memory(refused.into())),
    }
}
