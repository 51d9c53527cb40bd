//! The order `maps`: what each map of a WAD holds.

ghost use Rattle.std.specs.Prelude.{◌≡◌, ◌+◌, ◌≤◌, IfErr, IfOk, All, Some, is_none, length, string_bytes, true, ⊤};
ghost use Rattle.shelf_io.specs.Shelf.{Files, NoneFell};
ghost use Rattle.wad_dir.specs.Map.{entry_names};
ghost use Rattle.wad_dir.specs.Wad.{file_of, names_of_lumps};
ghost use Rattle.wad_dir.specs.AllMaps.All.{HasInOrder};
ghost use Rattle.wad_dir.specs.AllMaps.Maps.{maps_in_names};
ghost use Rattle.map_answers.specs.SightStatus.Answer.{GivesCalled};
ghost use Rattle.table_verdicts.specs.MapList.Totals.{list_line};
ghost use Rattle.sight_run.specs.Build.{report_roles, report_writes};
ghost use Rattle.sight_run.specs.Maps.{MapsCalls, asked_answer};
ghost use Rattle.sight_run.specs.Reply.{asked_seen, replied, reply_seen, roles_of, writes};
ghost use Rattle.sight_run.specs.Run.{Cause, IsOfAsked};
ghost use Rattle.sight_run.specs.Words.{file_in};

use crate::asked::{ReadMaps, read_asked};
use crate::reply::{Reply, report_alone, spelling_in};
use map_answers::sight_status::Status;
use order_words::{ReportFile, Source, Text};
use shelf_io::Shelf;
use sight_names::{Items, Memory};
use std::alloc::Global;
use table_verdicts::map_list::{list_maps, tally_line};
use whole_wad::Notice;

/// What is listed of the maps that were read.
fn list_on<N: Notice>(
    alloc: Global,
    asked: &ReadMaps,
    large: bool,
    report: &Option<ReportFile>,
    notice: &N,
) -> Result<Reply, Memory>
    requires inside { All (λ entry. entry.at + entry.size ≤ length asked.now.bytes.items) asked.now.wad.entries }
    requires names { names_of_lumps (file_of asked.now.bytes.items asked.now.wad) ≡ entry_names asked.now.wad.entries }
    requires among { HasInOrder (maps_in_names (entry_names asked.now.wad.entries)) asked.now.maps.items }
    ensures shows { IfOk result (λ reply. replied reply ≡ asked_answer report.now large (asked_seen asked.now)) }
    ensures roles { IfOk result (λ reply. roles_of (writes reply) ≡ report_roles (file_in report.now)) }
{
    let list = list_maps(
        alloc,
        &asked.bytes,
        &asked.wad,
        large,
        &asked.maps,
        spelling_in(report),
        notice,
    )?;
    let line = tally_line(alloc, list.tally)?;
    let reply = report_alone(alloc, report, list.report, line, true)?;
    Ok(reply)
}

/// What the order `maps` calls for. All files stay.
pub fn do_maps<S: Shelf, N: Notice>(
    alloc: Global,
    shelf: &mut S,
    source: &Source,
    only: &Option<Items<Text>>,
    report: &Option<ReportFile>,
    notice: &N,
) -> Result<Reply, Status>
    ensures told { (files : Files) → (S.state shelf.old).files ≡ Some files →
        GivesCalled ⊤ (MapsCalls source.now.file source.now.large only.now report.now files) (reply_seen result) }
    ensures files { (S.state shelf.new).files ≡ (S.state shelf.old).files }
    ensures begun { (S.state shelf.new).begun ≡ (S.state shelf.old).begun }
    ensures counts { NoneFell (S.state shelf.old) (S.state shelf.new) }
    ensures cause { Cause (S.state shelf.old) (S.state shelf.new) result }
    ensures refusals { IfErr result (IsOfAsked only.now) }
    ensures roles { IfOk result (λ reply. roles_of (writes reply) ≡ report_roles (file_in report.now)) }
    ensures right { IfOk result (λ reply. reply.right ≡ true) }
{
    let asked = read_asked(alloc, shelf, source.file.as_str(), only, notice)?;
    match list_on(alloc, &asked, source.large, report, notice) {
        Ok(reply) => Ok(reply),
        Err(refused) => Err(Status::Memory(refused.into())),
    }
}
