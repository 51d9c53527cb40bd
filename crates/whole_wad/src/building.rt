//! The table of one map, its list and its certificate.

ghost use Rattle.std.specs.Prelude.{◌≡◌, ◌≤◌, IfErr};
ghost use Rattle.sight_names.specs.Map.{map_of};
ghost use Rattle.sight_names.specs.declared.names.Method.TheVariants.{Exact, Within};
ghost use Rattle.cert_format.specs.Sizes.{sizes_of_plan};
ghost use Rattle.map_answers.specs.Sound.{HasSoundLines};
ghost use Rattle.reject_bits.specs.Parts.{IsTableWhole};
ghost use Rattle.whole_wad.specs.Built.{AreBytes, Builds, IsOfBuilding};
ghost use Rattle.whole_wad.specs.Sizes.{sizes_of_map};

use crate::hooks::Hooks;
use certificates::Certificate;
use exact_job::{Watcher, build_exact};
use face_groups::GroupFault;
use group_job::build_table;
use map_answers::audit_lines_of;
use map_answers::sight_status::{Flaw, Status};
use reject_bits::Table;
use sight_names::{Ask, Items, Method, Pair, Plan};
use sight_workers::Gate;
use std::alloc::Global;
use std::thread::Threads;

/// What is built of a map: the table of its sectors, the pairs whose budgets ran out, and the certificate.
#[derive(Drop)]
pub struct Built {
    pub table: Table,
    pub listed: Items<Pair>,
    pub cert: Certificate,
}

/// The sizes of a plan are those of its map.
pub fn has_sizes_of_map(plan: &Plan)
    ensures { sizes_of_plan plan.now ≡ sizes_of_map (map_of plan.now) }
{
    let _points = plan.points();
}

fn are_bytes(bytes: &[u8])
    ensures { AreBytes bytes.now }
{
    let _len = bytes.len();
}

/// A table has as many bytes as its sectors ask, and nothing behind the last pair's bit.
fn is_whole(table: &Table)
    ensures whole { IsTableWhole table.now }
    ensures bytes { AreBytes table.now.bytes }
{
    are_bytes(table.as_bytes());
}

/// Within a budget.
fn build_within<R: Threads + Sync, G: Gate + Sync>(
    rt: &R,
    alloc: Global,
    plan: &Plan,
    workers: u16,
    budget: Ask,
    gate: &G,
) -> Result<Built, Status>
    requires audited { HasSoundLines (map_of plan.now) }
    requires workers { (1 ≤ workers) × (workers ≤ 64) }
    ensures built { Builds (map_of plan.now) (Within budget) result }
    ensures refusals { IfErr result IsOfBuilding }
{
    has_sizes_of_map(plan);
    match build_table(rt, alloc, plan, workers, budget, gate) {
        Ok(built) => {
            is_whole(&built.table);
            Ok(Built {
                table: built.table,
                listed: built.listed,
                cert: Certificate::Listing(built.cert),
            })
        }
        Err(GroupFault::Open { side }) => Err(Status::BadMap(Flaw::Open(side))),
        Err(GroupFault::Memory(ref memory)) => Err(Status::Memory(*memory)),
    }
}

/// Every pair decided.
fn build_deciding<R: Threads + Sync>(
    rt: &R,
    alloc: Global,
    plan: &Plan,
    workers: u16,
    watcher: Option<&Watcher>,
) -> Result<Built, Status>
    requires audited { HasSoundLines (map_of plan.now) }
    requires workers { (1 ≤ workers) × (workers ≤ 64) }
    ensures built { Builds (map_of plan.now) Exact result }
    ensures refusals { IfErr result IsOfBuilding }
{
    has_sizes_of_map(plan);
    match build_exact(rt, alloc, plan, workers, watcher) {
        Ok(built) => {
            is_whole(&built.table);
            Ok(Built {
                table: built.table,
                listed: Items::of(Vec::new(alloc)),
                cert: Certificate::Exact(built.cert),
            })
        }
        Err(GroupFault::Open { side }) => Err(Status::BadMap(Flaw::Open(side))),
        Err(GroupFault::Memory(ref memory)) => Err(Status::Memory(*memory)),
    }
}

fn build_sound<R: Threads + Sync, G: Gate + Sync>(
    rt: &R,
    alloc: Global,
    plan: &Plan,
    workers: u16,
    method: Method,
    hooks: &Hooks<'_, G>,
) -> Result<Built, Status>
    requires audited { HasSoundLines (map_of plan.now) }
    requires workers { (1 ≤ workers) × (workers ≤ 64) }
    ensures built { Builds (map_of plan.now) method result }
    ensures refusals { IfErr result IsOfBuilding }
{
    match method {
        Method::Within(budget) => build_within(rt, alloc, plan, workers, budget, hooks.gate),
        Method::Exact => build_deciding(rt, alloc, plan, workers, hooks.watcher),
    }
}

/// The table and the certificate of a map, audited wholly, by so many workers. The workers meet the
/// hooks. How maps are built is said here alone.
pub fn build<R: Threads + Sync, G: Gate + Sync>(
    rt: &R,
    alloc: Global,
    plan: &Plan,
    workers: u16,
    method: Method,
    hooks: &Hooks<'_, G>,
) -> Result<Built, Status>
    requires workers { (1 ≤ workers) × (workers ≤ 64) }
    ensures built { Builds (map_of plan.now) method result }
    ensures refusals { IfErr result IsOfBuilding }
{
    audit_lines_of(alloc, plan)?;
    build_sound(rt, alloc, plan, workers, method, hooks)
}
