//! The table of one map.

ghost use Rattle.std.specs.Prelude.{◌≡◌, ◌≤◌, IfErr, IfOk, Ok};
ghost use Rattle.sight_names.specs.Map.{map_of};
ghost use Rattle.sight_names.specs.Sound.{LinesMeetAtEnds};
ghost use Rattle.certificates.specs.Grammar.{IsInOrder, sizes_of_certificate};
ghost use Rattle.any_judge.specs.Accepted.{IsAccepted};
ghost use Rattle.map_answers.specs.declared.sight_status.status.Status.TheVariants as status;
ghost use Rattle.whole_wad.specs.Sizes.{sizes_of_map};
ghost use Rattle.whole_wad.specs.Tables.{GetsOrMemory};

use crate::building::{Built, build, has_sizes_of_map};
use crate::hooks::Hooks;
use any_judge::check_par;
use group_checker::AnyVerdict;
use map_answers::sight_status::Status;
use reject_bits::Table;
use sight_names::{Items, Method, Pair, Plan};
use sight_workers::Gate;
use std::alloc::Global;
use std::thread::Threads;

/// A map's table, and the pairs whose budgets ran out.
#[derive(Drop)]
pub struct MapTable {
    pub table: Table,
    pub listed: Items<Pair>,
}

/// The table and the list of what was built, once its own certificate is judged, its trees in threads.
fn judged<R: Threads + Sync>(
    rt: &R,
    alloc: Global,
    plan: &Plan,
    built: Built,
) -> Result<MapTable, Status>
    requires audited { LinesMeetAtEnds (map_of plan.now) }
    requires sectors { built.table.n ≡ plan.now.sectors }
    requires sizes { sizes_of_certificate built.cert ≡ sizes_of_map (map_of plan.now) }
    requires in_order { IsInOrder built.cert }
    requires accepted { IsAccepted (map_of plan.now) built.table.bytes built.cert }
    ensures table { IfOk result (λ made. made.table ≡ built.table) }
    ensures listed { IfOk result (λ made. made.listed ≡ built.listed) }
    ensures refusals { IfErr result (λ s. s ≡ status.Memory tt) }
{
    has_sizes_of_map(plan);
    match check_par(rt, alloc, plan, &built.table, &built.cert) {
        Ok(AnyVerdict::Yes(_)) => Ok(MapTable {
            table: built.table,
            listed: built.listed,
        }),
        // what is built is accepted
        Ok(AnyVerdict::No(_)) => unreachable!(),
        Err(memory) => Err(Status::Memory(memory)),
    }
}

/// The table of a map by this method, or the first flaw for which it gets none.
pub fn table_of<R: Threads + Sync, G: Gate + Sync>(
    rt: &R,
    alloc: Global,
    plan: &Plan,
    workers: u16,
    method: Method,
    hooks: &Hooks<'_, G>,
) -> Result<MapTable, Status>
    requires workers { (1 ≤ workers) × (workers ≤ 64) }
    ensures { GetsOrMemory (Ok (map_of plan.now)) method result }
{
    let built = build(rt, alloc, plan, workers, method, hooks)?;
    judged(rt, alloc, plan, built)
}
