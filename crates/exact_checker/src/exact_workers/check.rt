//! The check in threads.

ghost use Rattle.std.specs.Prelude.{◌≡◌, ◌↔◌, IfOk};
ghost use Rattle.sight_names.specs.Map.{map_of};
ghost use Rattle.sight_names.specs.Sound.{LinesMeetAtEnds};
ghost use Rattle.group_checker.specs.Judged.{IsYesAny};
ghost use Rattle.gate_floods.specs.Exact.{IsAcceptedThree, TellsAll};
ghost use Rattle.exact_checker.specs.Judged.{IsThreeFor, JudgesThree};

use crate::check_exact_by;
use crate::exact_workers::judging::Judges;
use certificates::cert_exact::ExactParts;
use group_checker::AnyVerdict;
use reject_bits::Table;
use sight_names::{Memory, Plan};
use std::alloc::Global;
use std::thread::{Threads, available_parallelism};

/// More judges than this have never been of use.
const MOST_JUDGES: usize = 64;

/// As many judges as there are processors to be had.
fn judges_for<R: Threads>(rt: &R) -> usize {
    match available_parallelism(rt) {
        Ok(count) => count.get().min(MOST_JUDGES),
        Err(_) => 1,
    }
}

/// Judges the table by a certificate of version 3, its trees in threads where some can be had: yes with the totals exactly where
/// the certificate is accepted, or the first fault in order. On yes the table tells of each two sectors whether they see each
/// other.
pub fn check_exact_par<R: Threads + Sync>(
    rt: &R,
    alloc: Global,
    plan: &Plan,
    table: &Table,
    exact: &ExactParts,
) -> Result<AnyVerdict, Memory>
    requires audited { LinesMeetAtEnds (map_of plan.now) }
    requires table { table.now.n ≡ plan.now.sectors }
    requires cert { IsThreeFor plan.now exact.now }
    ensures exact { IfOk result (JudgesThree plan.now table.now exact.now) }
    ensures accepted { IfOk result (λ v. IsYesAny v ↔ IsAcceptedThree (map_of plan.now) table.now.bytes exact.now) }
    ensures sight { IfOk result (λ v. IsYesAny v → TellsAll (map_of plan.now) table.now) }
{
    let count = judges_for(rt);
    check_exact_by(&Judges { rt, count }, alloc, plan, table, exact)
}
