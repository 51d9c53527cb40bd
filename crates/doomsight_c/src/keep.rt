//! The build that is kept.

ghost use Rattle.std.specs.Prelude.{◌≢◌, IfErr, IfOk, Ok};
ghost use Rattle.sight_names.specs.Map.{map_of};
ghost use Rattle.certificates.specs.Grammar.{IsInOrder};
ghost use Rattle.doomsight_c.specs.Lumps.{of_lumps_given};
ghost use Rattle.map_answers.specs.Sound.{IsAuditRefusal};
ghost use Rattle.doomsight_c.specs.Keeping.{HoldsWhole, IsCalledFor, IsKept, KeptIsGiven};

use crate::build::build_alone;
use crate::counts::DoomsightCounts;
use crate::fault::{DoomsightFault, fault_of};
use crate::handle::DoomsightKept;
use crate::kept::spell_whole;
use crate::line::faults_tell_statuses;
use crate::lumps::plan_given;
use map_answers::sight_status::Status;
use sight_names::{Memory, Method, Plan, Reading};
use std::alloc::Global;
use whole_wad::Built;

/// Puts the whole of what was built behind a handle.
fn hold(alloc: Global, built: Built) -> Result<(DoomsightKept, DoomsightCounts), Memory>
    requires in_order { IsInOrder built.cert }
    ensures whole { IfOk result (λ r. HoldsWhole built r.0.value r.1) }
{
    let (kept, counts) = spell_whole(alloc, built)?;
    match Box::new(alloc, kept) {
        Ok(kept) => Ok((DoomsightKept::of(kept), counts)),
        Err(refused) => Err(refused.into()),
    }
}

/// Builds and keeps, or tells why the map has no table.
#[tactic(auto, using(crate::proofs::KeptBuilds::in_order_of, crate::proofs::KeptBuilds::kept_of))]
fn keep_audited(
    alloc: Global,
    plan: &Plan,
    method: Method,
) -> Result<(DoomsightKept, DoomsightCounts), Status>
    ensures kept { IfOk result (λ r. IsKept (Ok (map_of plan.now)) method r.0.value r.1) }
    ensures refused { IfErr result (IsAuditRefusal (map_of plan.now)) }
{
    let built = build_alone(alloc, plan, method)?;
    match hold(alloc, built) {
        Ok(held) => Ok(held),
        Err(memory) => Err(Status::Memory(memory)),
    }
}

fn keep_plan(
    alloc: Global,
    plan: &Plan,
    method: Method,
) -> Result<(DoomsightKept, DoomsightCounts), DoomsightFault>
    ensures kept { IfOk result (λ r. IsKept (Ok (map_of plan.now)) method r.0.value r.1) }
    ensures refused { IfErr result (IsCalledFor (Ok (map_of plan.now))) }
    ensures code { IfErr result (λ f. f.code ≢ 0) }
{
    faults_tell_statuses();
    match keep_audited(alloc, plan, method) {
        Ok(held) => Ok(held),
        Err(status) => Err(fault_of(&status)),
    }
}

/// The handle and the counts of the build of the map that the lumps spell, or why there is none.
pub fn keep_lumps(
    alloc: Global,
    reading: Reading,
    linedefs: &[u8],
    sidedefs: &[u8],
    vertexes: &[u8],
    sectors: &[u8],
    method: Method,
) -> Result<(DoomsightKept, DoomsightCounts), DoomsightFault>
    ensures kept { IfOk result (λ r. IsKept (of_lumps_given reading linedefs.now sidedefs.now vertexes.now sectors.now) method r.0.value r.1) }
    ensures refused { IfErr result (IsCalledFor (of_lumps_given reading linedefs.now sidedefs.now vertexes.now sectors.now)) }
    ensures code { IfErr result (λ f. f.code ≢ 0) }
{
    faults_tell_statuses();
    match plan_given(alloc, reading, linedefs, sidedefs, vertexes, sectors) {
        Ok(plan) => keep_plan(alloc, &plan, method),
        Err(status) => Err(fault_of(&status)),
    }
}

/// A kept build that is copied out is what the build into buffers gives: the table, the counts and, as far as there is room, the
/// certificate.
pub fn kept_is_given()
    ensures { KeptIsGiven }
{}
