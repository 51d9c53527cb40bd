//! The order `verify`: what each map's own REJECT says otherwise than the right table.

ghost use Rattle.std.specs.Prelude.{◌≡◌, ◌+◌, ◌≤◌, IfErr, IfOk, IsErr, All, Some, length, string_bytes};
ghost use Rattle.shelf_io.specs.Shelf.{Files, NoneFell};
ghost use Rattle.wad_dir.specs.Map.{entry_names};
ghost use Rattle.wad_dir.specs.Wad.{file_of, names_of_lumps};
ghost use Rattle.wad_dir.specs.AllMaps.All.{HasInOrder};
ghost use Rattle.wad_dir.specs.AllMaps.Maps.{maps_in_names};
ghost use Rattle.map_answers.specs.SightStatus.Answer.{GivesCalled};
ghost use Rattle.table_verdicts.specs.Tallies.{all_right, tally_line};
ghost use Rattle.sight_run.specs.Asked.{asked_in};
ghost use Rattle.sight_run.specs.Build.{report_roles, report_writes};
ghost use Rattle.sight_run.specs.Reply.{asked_seen, replied, reply_seen, roles_of, writes};
ghost use Rattle.sight_run.specs.Run.{Cause, IsOfAsked};
ghost use Rattle.sight_run.specs.Verify.{ShowsVerify, VerifyCalls};
ghost use Rattle.sight_run.specs.Words.{file_in};

use crate::asked::{ReadMaps, read_asked};
use crate::reply::{Reply, report_alone, spelling_in};
use map_answers::sight_status::Status;
use order_words::{ReportFile, Source, Text};
use shelf_io::Shelf;
use sight_names::{Items, Memory};
use sight_workers::Gate;
use std::alloc::{AllocError, Global};
use std::thread::Threads;
use table_verdicts::{WadVerdict, all_right, line_of, verify_wad};
use whole_wad::{Hooks, Notice};

/// The reply that writes the report where it is asked for, and puts the totals.
fn reply_of(
    alloc: Global,
    report: &Option<ReportFile>,
    verdict: WadVerdict,
) -> Result<Reply, AllocError>
    ensures reply { IfOk result (λ reply. replied reply ≡ record { writes = report_writes (file_in report.now) (string_bytes verdict.report); line = tally_line verdict.tally; right = all_right verdict.tally }) }
    ensures roles { IfOk result (λ reply. roles_of (writes reply) ≡ report_roles (file_in report.now)) }
{
    let line = line_of(alloc, verdict.tally)?;
    let right = all_right(verdict.tally);
    report_alone(alloc, report, verdict.report, line, right)
}

/// What is said of the maps that were read.
fn verdict_on<R: Threads + Sync, G: Gate + Sync, N: Notice>(
    rt: &R,
    alloc: Global,
    asked: &ReadMaps,
    large: bool,
    report: &Option<ReportFile>,
    workers: u16,
    hooks: &Hooks<'_, G>,
    notice: &N,
) -> Result<Reply, Memory>
    requires inside { All (λ entry. entry.at + entry.size ≤ length asked.now.bytes.items) asked.now.wad.entries }
    requires names { names_of_lumps (file_of asked.now.bytes.items asked.now.wad) ≡ entry_names asked.now.wad.entries }
    requires among { HasInOrder (maps_in_names (entry_names asked.now.wad.entries)) asked.now.maps.items }
    requires workers { (1 ≤ workers) × (workers ≤ 64) }
    ensures shows { IfOk result (λ reply. ShowsVerify report.now large (asked_seen asked.now) (replied reply)) }
    ensures roles { IfOk result (λ reply. roles_of (writes reply) ≡ report_roles (file_in report.now)) }
{
    let verdict = verify_wad(
        rt,
        alloc,
        &asked.bytes,
        &asked.wad,
        large,
        &asked.maps,
        workers,
        spelling_in(report),
        hooks,
        notice,
    )?;
    let reply = reply_of(alloc, report, verdict)?;
    Ok(reply)
}

/// What the order `verify` calls for. All files stay.
pub fn do_verify<R: Threads + Sync, S: Shelf, G: Gate + Sync, N: Notice>(
    rt: &R,
    alloc: Global,
    shelf: &mut S,
    source: &Source,
    only: &Option<Items<Text>>,
    report: &Option<ReportFile>,
    workers: u16,
    hooks: &Hooks<'_, G>,
    notice: &N,
) -> Result<Reply, Status>
    requires workers { (1 ≤ workers) × (workers ≤ 64) }
    ensures told { (files : Files) → (S.state shelf.old).files ≡ Some files →
        GivesCalled (IsErr (asked_in source.now.file only.now files)) (VerifyCalls source.now.file source.now.large only.now report.now files) (reply_seen result) }
    ensures files { (S.state shelf.new).files ≡ (S.state shelf.old).files }
    ensures begun { (S.state shelf.new).begun ≡ (S.state shelf.old).begun }
    ensures counts { NoneFell (S.state shelf.old) (S.state shelf.new) }
    ensures cause { Cause (S.state shelf.old) (S.state shelf.new) result }
    ensures refusals { IfErr result (IsOfAsked only.now) }
    ensures roles { IfOk result (λ reply. roles_of (writes reply) ≡ report_roles (file_in report.now)) }
{
    let asked = read_asked(alloc, shelf, source.file.as_str(), only, notice)?;
    match verdict_on(
        rt,
        alloc,
        &asked,
        source.large,
        report,
        workers,
        hooks,
        notice,
    ) {
        Ok(reply) => Ok(reply),
        Err(refused) => Err(Status::Memory(refused.into())),
    }
}
