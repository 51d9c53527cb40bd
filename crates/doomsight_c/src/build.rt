//! The build of the map that four lumps spell.

ghost use Rattle.std.specs.Prelude.{◌≡◌, ◌≢◌, IfErr, IfOk, Ok};
ghost use Rattle.sight_names.specs.Map.{map_of};
ghost use Rattle.sight_names.specs.declared.names.Method.TheVariants.{Exact, Within};
ghost use Rattle.doomsight_c.specs.Lumps.{of_lumps_given};
ghost use Rattle.map_answers.specs.Sound.{HasSoundLines};
ghost use Rattle.reject_bits.specs.Parts.{IsTableWhole};
ghost use Rattle.whole_wad.specs.Built.{AreBytes, Builds};
ghost use Rattle.doomsight_c.specs.Built.{IsBuiltFor, IsNoTable, table_size as size_of_table};

use crate::fault::{DoomsightFault, fault_of, wide};
use crate::line::faults_tell_statuses;
use crate::lumps::plan_given;
use certificates::Certificate;
use exact_job::build_exact_alone;
use face_groups::GroupFault;
use group_job::build_table_alone;
use map_answers::audit_lines_of;
use map_answers::sight_status::{Flaw, Status};
use reject_bits::Table;
use sight_names::{Ask, Items, Method, Plan, Reading};
use sight_workers::OpenGate;
use std::alloc::Global;
use whole_wad::{Built, has_sizes_of_map};

fn are_bytes(bytes: &[u8])
    ensures { AreBytes bytes.now }
{
    let _len = bytes.len();
}

/// A table has as many bytes as its sectors ask, and nothing behind the last pair's bit.
fn is_whole(table: &Table)
    ensures whole { IsTableWhole table.now }
    ensures bytes { AreBytes table.now.bytes }
{
    are_bytes(table.as_bytes());
}

/// Within a budget.
fn build_within(alloc: Global, plan: &Plan, budget: Ask) -> Result<Built, Status>
    requires audited { HasSoundLines (map_of plan.now) }
    ensures built { Builds (map_of plan.now) (Within budget) result }
{
    has_sizes_of_map(plan);
    match build_table_alone(alloc, plan, budget, &OpenGate) {
        Ok(built) => {
            is_whole(&built.table);
            Ok(Built {
                table: built.table,
                listed: built.listed,
                cert: Certificate::Listing(built.cert),
            })
        }
        Err(GroupFault::Open { side }) => Err(Status::BadMap(Flaw::Open(side))),
        Err(GroupFault::Memory(ref memory)) => Err(Status::Memory(*memory)),
    }
}

/// Every pair decided.
fn build_deciding(alloc: Global, plan: &Plan) -> Result<Built, Status>
    requires audited { HasSoundLines (map_of plan.now) }
    ensures built { Builds (map_of plan.now) Exact result }
{
    has_sizes_of_map(plan);
    match build_exact_alone(alloc, plan) {
        Ok(built) => {
            is_whole(&built.table);
            Ok(Built {
                table: built.table,
                listed: Items::of(Vec::new(alloc)),
                cert: Certificate::Exact(built.cert),
            })
        }
        Err(GroupFault::Open { side }) => Err(Status::BadMap(Flaw::Open(side))),
        Err(GroupFault::Memory(ref memory)) => Err(Status::Memory(*memory)),
    }
}

fn build_sound(alloc: Global, plan: &Plan, method: Method) -> Result<Built, Status>
    requires audited { HasSoundLines (map_of plan.now) }
    ensures built { Builds (map_of plan.now) method result }
{
    match method {
        Method::Within(budget) => build_within(alloc, plan, budget),
        Method::Exact => build_deciding(alloc, plan),
    }
}

/// What `whole_wad::build` builds by one worker, without a thread.
pub fn build_alone(alloc: Global, plan: &Plan, method: Method) -> Result<Built, Status>
    ensures built { Builds (map_of plan.now) method result }
{
    audit_lines_of(alloc, plan)?;
    build_sound(alloc, plan, method)
}

/// How many bytes the table of so many sectors has.
fn table_size(sectors: u16) -> usize
    ensures { result ≡ size_of_table sectors }
{
    (sectors as usize * sectors as usize).div_ceil(8)
}

/// The numbers of a buffer that isn't as long as the table.
fn unfit_for(plan: &Plan, room: usize) -> DoomsightFault
    requires { room ≢ size_of_table plan.now.sectors }
    ensures refused { IsNoTable (Ok (map_of plan.now)) room result }
    ensures code { result.code ≢ 0 }
{
    let _ = room;
    wide(2, 15, table_size(plan.sectors) as u64, 0)
}

/// The build for a buffer that is as long as the table.
fn build_fitting(
    alloc: Global,
    plan: &Plan,
    method: Method,
    room: usize,
) -> Result<Built, DoomsightFault>
    requires { room ≡ size_of_table plan.now.sectors }
    ensures built { IfOk result (IsBuiltFor (Ok (map_of plan.now)) method room) }
    ensures refused { IfErr result (IsNoTable (Ok (map_of plan.now)) room) }
    ensures code { IfErr result (λ f. f.code ≢ 0) }
{
    let _ = room;
    faults_tell_statuses();
    match build_alone(alloc, plan, method) {
        Ok(built) => Ok(built),
        Err(status) => Err(fault_of(&status)),
    }
}

fn build_plan(
    alloc: Global,
    plan: &Plan,
    method: Method,
    room: usize,
) -> Result<Built, DoomsightFault>
    ensures built { IfOk result (IsBuiltFor (Ok (map_of plan.now)) method room) }
    ensures refused { IfErr result (IsNoTable (Ok (map_of plan.now)) room) }
    ensures code { IfErr result (λ f. f.code ≢ 0) }
{
    if room != table_size(plan.sectors) {
        return Err(unfit_for(plan, room));
    }
    build_fitting(alloc, plan, method, room)
}

/// The table and the certificate of the map that the lumps spell, for a buffer with room for so many bytes, or why there is
/// none.
pub fn build_lumps(
    alloc: Global,
    reading: Reading,
    linedefs: &[u8],
    sidedefs: &[u8],
    vertexes: &[u8],
    sectors: &[u8],
    method: Method,
    room: usize,
) -> Result<Built, DoomsightFault>
    ensures built { IfOk result (IsBuiltFor (of_lumps_given reading linedefs.now sidedefs.now vertexes.now sectors.now) method room) }
    ensures refused { IfErr result (IsNoTable (of_lumps_given reading linedefs.now sidedefs.now vertexes.now sectors.now) room) }
    ensures code { IfErr result (λ f. f.code ≢ 0) }
{
    faults_tell_statuses();
    match plan_given(alloc, reading, linedefs, sidedefs, vertexes, sectors) {
        Ok(plan) => build_plan(alloc, &plan, method, room),
        Err(status) => Err(fault_of(&status)),
    }
}
