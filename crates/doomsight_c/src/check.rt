//! The check of a table by a certificate.

ghost use Rattle.std.specs.Prelude.{◌≡◌, ◌≢◌, IfErr, IfOk, Ok};
ghost use Rattle.sight_names.specs.Map.{map_of};
ghost use Rattle.sight_names.specs.Sound.{LinesMeetAtEnds};
ghost use Rattle.doomsight_c.specs.Lumps.{of_lumps_given};
ghost use Rattle.map_answers.specs.Sound.{HasSoundLines};
ghost use Rattle.any_judge.specs.CertFile.Judgement.{IsJudgement};
ghost use Rattle.doomsight_c.specs.Checked.{ChecksMap, IsUnproved, IsYes, TakesTableBytes, VerdictOf};

use crate::counts::{DoomsightCounts, counts_of_totals};
use crate::fault::{DoomsightFault, fault_of};
use crate::line::faults_tell_statuses;
use crate::lumps::plan_given;
use any_judge::Judge;
use cert_checker::Totals;
use cert_judge::Judged;
use group_checker::{AnyFault, AnyVerdict};
use map_answers::audit_lines_of;
use map_answers::sight_status::{Status, Why};
use reject_bits::Table;
use sight_names::{CertFault, Memory, Plan, Reading, TableFault};
use std::alloc::Global;

/// The table that the bytes spell.
fn table_of(alloc: Global, n: u16, bytes: &[u8]) -> Result<Table, Status>
    ensures { TakesTableBytes n bytes.now result }
{
    match Table::of_bytes(alloc, n, bytes) {
        Ok(table) => Ok(table),
        Err(TableFault::Memory(ref memory)) => Err(Status::Memory(*memory)),
        Err(fault) => Err(Status::No(Why::Table(fault))),
    }
}

/// What the bytes of a certificate of any version give.
fn judge_bytes(alloc: Global, plan: &Plan, table: &Table, cert: &[u8]) -> Result<Judged, Memory>
    requires audited { LinesMeetAtEnds (map_of plan.now) }
    requires table { table.now.n ≡ plan.now.sectors }
    ensures { IfOk result (IsJudgement plan.now table.now cert.now) }
{
    let mut judge = Judge::new(alloc, plan, table);
    judge.feed(cert)?;
    judge.end()
}

/// The totals of a yes, or its no.
fn totals_of(judged: Judged) -> Result<Totals, Status>
    ensures { VerdictOf judged result }
{
    match judged {
        Judged::Verdict(AnyVerdict::Yes(totals)) => Ok(totals),
        Judged::Verdict(AnyVerdict::No(AnyFault::Check(fault))) => {
            Err(Status::No(Why::Check(fault)))
        }
        Judged::Verdict(AnyVerdict::No(AnyFault::Group { triangle })) => {
            Err(Status::No(Why::Group(triangle)))
        }
        Judged::Verdict(AnyVerdict::No(AnyFault::Unused { group })) => {
            Err(Status::No(Why::Unused(group)))
        }
        Judged::Unread(CertFault::Memory(ref memory)) => Err(Status::Memory(*memory)),
        Judged::Unread(fault) => Err(Status::No(Why::Cert(fault))),
    }
}

fn check_sound(alloc: Global, plan: &Plan, reject: &[u8], cert: &[u8]) -> Result<Totals, Status>
    requires { HasSoundLines (map_of plan.now) }
    ensures { ChecksMap (map_of plan.now) reject.now cert.now result }
{
    let table = table_of(alloc, plan.sectors, reject)?;
    match judge_bytes(alloc, plan, &table, cert) {
        Ok(judged) => totals_of(judged),
        Err(memory) => Err(Status::Memory(memory)),
    }
}

fn check_plan(alloc: Global, plan: &Plan, reject: &[u8], cert: &[u8]) -> Result<Totals, Status>
    ensures { ChecksMap (map_of plan.now) reject.now cert.now result }
{
    match audit_lines_of(alloc, plan) {
        Ok(()) => check_sound(alloc, plan, reject, cert),
        Err(refusal) => Err(refusal),
    }
}

/// The counts of a yes, or the numbers of why it is none.
fn check_counted(
    alloc: Global,
    plan: &Plan,
    reject: &[u8],
    cert: &[u8],
) -> Result<DoomsightCounts, DoomsightFault>
    ensures yes { IfOk result (IsYes (Ok (map_of plan.now)) reject.now cert.now) }
    ensures no { IfErr result (IsUnproved (Ok (map_of plan.now)) reject.now cert.now) }
    ensures code { IfErr result (λ f. f.code ≢ 0) }
{
    faults_tell_statuses();
    match check_plan(alloc, plan, reject, cert) {
        Ok(totals) => Ok(counts_of_totals(totals, plan.sectors, cert.len() as u64)),
        Err(status) => Err(fault_of(&status)),
    }
}

/// Whether the table of these bytes is right for the map that the lumps spell, by the certificate of those: the counts of a
/// yes, or why it is none.
pub fn check_lumps(
    alloc: Global,
    reading: Reading,
    linedefs: &[u8],
    sidedefs: &[u8],
    vertexes: &[u8],
    sectors: &[u8],
    reject: &[u8],
    cert: &[u8],
) -> Result<DoomsightCounts, DoomsightFault>
    ensures yes { IfOk result (IsYes (of_lumps_given reading linedefs.now sidedefs.now vertexes.now sectors.now) reject.now cert.now) }
    ensures no { IfErr result (IsUnproved (of_lumps_given reading linedefs.now sidedefs.now vertexes.now sectors.now) reject.now cert.now) }
    ensures code { IfErr result (λ f. f.code ≢ 0) }
{
    faults_tell_statuses();
    match plan_given(alloc, reading, linedefs, sidedefs, vertexes, sectors) {
        Ok(plan) => check_counted(alloc, &plan, reject, cert),
        Err(status) => Err(fault_of(&status)),
    }
}
