//! The order `all`: the table of each map of a WAD, or of those that are named, in the place of its REJECT, and a line on each where a
//! report is asked for.

ghost use Rattle.std.specs.Prelude.{◌≡◌, ◌+◌, ◌++◌, ◌≤◌, IfErr, IfOk, OnOk, All, Some, length, string_bytes, true, ⊤};
ghost use Rattle.shelf_io.specs.Shelf.{Files, NoneFell};
ghost use Rattle.wad_dir.specs.Map.{entry_names};
ghost use Rattle.wad_dir.specs.Wad.{file_of, names_of_lumps};
ghost use Rattle.wad_dir.specs.AllMaps.All.{HasInOrder};
ghost use Rattle.wad_dir.specs.AllMaps.Maps.{maps_in_names};
ghost use Rattle.map_answers.specs.SightStatus.Answer.{GivesCalled};
ghost use Rattle.sight_run.specs.All.{AllCalls, MapsCall, OnRead, all_roles, all_writes, cleared_words, of_unmade, build_tally_line, wad_in};
ghost use Rattle.sight_run.specs.Reply.{replied, reply_seen, roles_of, writes};
ghost use Rattle.sight_run.specs.Run.{Cause, IsOfAll, IsOfStop};
ghost use Rattle.sight_run.specs.Words.{file_in};

use crate::asked::asked_maps;
use crate::input::fetch_wad;
use crate::reply::{Bytes, Reply, push_output, spelling_in};
use map_answers::directory;
use map_answers::sight_status::{Bound, Role, Status, push_count};
use order_words::{ReportFile, Source, Text};
use refused_maps::Refused;
use shelf_io::Shelf;
use sight_names::{Items, Method, RewriteFault};
use sight_workers::Gate;
use std::alloc::{AllocError, Global};
use std::thread::Threads;
use wad_dir::Wad;
use whole_wad::{Hooks, Notice, Unmade, WholeWad, build_wad};

/// Adds how many maps got a clear table, where that is asked for.
fn push_cleared(
    alloc: Global,
    line: &mut String,
    refused: Refused,
    cleared: u64,
) -> Result<(), AllocError>
    ensures { OnOk result (string_bytes line.new ≡ string_bytes line.old ++ cleared_words refused cleared) }
{
    match refused {
        Refused::Clear => push_count(alloc, line, " cleared ", cleared),
        _ => Ok(()),
    }
}

fn line_of(alloc: Global, refused: Refused, whole: &WholeWad) -> Result<String, AllocError>
    ensures { IfOk result (λ line. string_bytes line ≡ build_tally_line refused whole.now.maps whole.now.built whole.now.refused whole.now.cleared) }
{
    let mut line = String::new(alloc);
    push_count(alloc, &mut line, "all maps ", whole.maps)?;
    push_count(alloc, &mut line, " built ", whole.built)?;
    push_count(alloc, &mut line, " refused ", whole.refused)?;
    push_cleared(alloc, &mut line, refused, whole.cleared)?;
    line.push_str("\n")?;
    Ok(line)
}

/// The reply that writes the WAD, and the report where it is asked for.
fn reply_of(
    alloc: Global,
    out: &str,
    report: &Option<ReportFile>,
    refused: Refused,
    whole: WholeWad,
) -> Result<Reply, AllocError>
    ensures reply { IfOk result (λ reply. replied reply ≡ record { writes = all_writes out.now whole.bytes.items (file_in report.now) (string_bytes whole.report); line = build_tally_line refused whole.maps whole.built whole.refused whole.cleared; right = true }) }
    ensures right { IfOk result (λ reply. reply.right ≡ true) }
    ensures roles { IfOk result (λ reply. roles_of (writes reply) ≡ all_roles (file_in report.now)) }
{
    let line = line_of(alloc, refused, &whole)?;
    let mut outputs = Vec::new(alloc);
    push_output(
        alloc,
        &mut outputs,
        Role::Wad,
        out,
        Bytes::Whole(whole.bytes),
    )?;
    if let Some(report) = report {
        push_output(
            alloc,
            &mut outputs,
            Role::Report,
            report.file.as_str(),
            Bytes::Whole(whole.report.into_bytes()),
        )?;
    }
    Ok(Reply {
        outputs,
        line,
        right: true,
    })
}

/// The status of a WAD of which nothing is made.
fn status_of(unmade: Unmade) -> Status
    ensures { result ≡ of_unmade unmade }
{
    match unmade {
        Unmade::Stopped(refusal) => refusal,
        Unmade::Unwritten(RewriteFault::TooManyLumps) => Status::Limit(Bound::Lumps),
        Unmade::Unwritten(RewriteFault::TooLong) => Status::Limit(Bound::OutputBytes),
        Unmade::Unwritten(RewriteFault::Memory(ref memory)) => Status::Memory(*memory),
    }
}

/// What comes of the maps of these names.
fn make_reply<R: Threads + Sync, G: Gate + Sync, N: Notice>(
    rt: &R,
    alloc: Global,
    bytes: &[u8],
    wad: &Wad,
    large: bool,
    maps: &[[u8; 8]],
    out: &str,
    report: &Option<ReportFile>,
    workers: u16,
    method: Method,
    refused: Refused,
    hooks: &Hooks<'_, G>,
    notice: &N,
) -> Result<Reply, Status>
    requires inside { All (λ entry. entry.at + entry.size ≤ length bytes.now) wad.now.entries }
    requires names { names_of_lumps (file_of bytes.now wad.now) ≡ entry_names wad.now.entries }
    requires among { HasInOrder (maps_in_names (entry_names wad.now.entries)) maps.now }
    requires workers { (1 ≤ workers) × (workers ≤ 64) }
    ensures called { GivesCalled ⊤ (MapsCall out.now report.now large maps.now method refused (file_of bytes.now wad.now)) (reply_seen result) }
    ensures refusals { IfErr result (IsOfStop refused) }
    ensures roles { IfOk result (λ reply. roles_of (writes reply) ≡ all_roles (file_in report.now)) }
    ensures right { IfOk result (λ reply. reply.right ≡ true) }
{
    let spelling = spelling_in(report);
    let whole = match build_wad(
        rt, alloc, bytes, wad, large, maps, workers, method, refused, spelling, hooks, notice,
    ) {
        Ok(whole) => whole,
        Err(unmade) => return Err(status_of(unmade)),
    };
    match reply_of(alloc, out, report, refused, whole) {
        Ok(reply) => Ok(reply),
        Err(refused) => Err(Status::Memory(refused.into())),
    }
}

/// What the order `all` calls for. All files stay.
pub fn do_all<R: Threads + Sync, S: Shelf, G: Gate + Sync, N: Notice>(
    rt: &R,
    alloc: Global,
    shelf: &mut S,
    source: &Source,
    out: &str,
    only: &Option<Items<Text>>,
    report: &Option<ReportFile>,
    workers: u16,
    method: Method,
    refused: Refused,
    hooks: &Hooks<'_, G>,
    notice: &N,
) -> Result<Reply, Status>
    requires workers { (1 ≤ workers) × (workers ≤ 64) }
    ensures told { (files : Files) → (S.state shelf.old).files ≡ Some files → GivesCalled ⊤ (OnRead (wad_in source.now.file files) (AllCalls out.now source.now.large only.now report.now method refused)) (reply_seen result) }
    ensures files { (S.state shelf.new).files ≡ (S.state shelf.old).files }
    ensures begun { (S.state shelf.new).begun ≡ (S.state shelf.old).begun }
    ensures counts { NoneFell (S.state shelf.old) (S.state shelf.new) }
    ensures cause { Cause (S.state shelf.old) (S.state shelf.new) result }
    ensures refusals { IfErr result (IsOfAll only.now refused) }
    ensures roles { IfOk result (λ reply. roles_of (writes reply) ≡ all_roles (file_in report.now)) }
    ensures right { IfOk result (λ reply. reply.right ≡ true) }
{
    let bytes = fetch_wad(alloc, shelf, source.file.as_str())?;
    let wad = directory(alloc, &bytes)?;
    let maps = asked_maps(alloc, &wad, only, notice)?;
    make_reply(
        rt,
        alloc,
        &bytes,
        &wad,
        source.large,
        &maps,
        out,
        report,
        workers,
        method,
        refused,
        hooks,
        notice,
    )
}
