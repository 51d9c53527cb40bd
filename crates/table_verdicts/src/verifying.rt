//! The REJECT of maps of a WAD, one by one.

ghost use Rattle.std.specs.Prelude.{◌≡◌, ◌+◌, ◌≤◌, length, map, All, IfOk, IsTrue, string_bytes};
ghost use Rattle.std.specs.List.{AllByRecursion};
ghost use Rattle.wad_dir.specs.Map.{entry_names};
ghost use Rattle.wad_dir.specs.Wad.{file_of, names_of_lumps};
ghost use Rattle.wad_dir.specs.AllMaps.All.{HasInOrder};
ghost use Rattle.wad_dir.specs.AllMaps.Maps.{is_map_name, maps_in_names};
ghost use Rattle.table_verdicts.specs.Report.{verdicts_report};
ghost use Rattle.table_verdicts.specs.Verdicts.{SaysOf, ShowsVerdicts};

use crate::json::row_of;
use crate::map_verdict::verdict_on;
use crate::report::line_of;
use crate::tally::{Tally, tally_up};
use crate::verdict::MapVerdict;
use row_spelling::Spelling;
use sight_names::Memory;
use sight_workers::Gate;
use std::alloc::Global;
use std::thread::Threads;
use wad_dir::Wad;
use whole_wad::{Fate, Hooks, Notice, tell_unread};

/// What is said of maps of a WAD: a line of text a map, and how many there are of each kind.
#[derive(Drop)]
pub struct WadVerdict {
    pub report: String,
    pub tally: Tally,
}

/// What is said of some maps, and the report on them.
#[derive(Drop)]
struct Said {
    verdicts: Vec<MapVerdict>,
    report: String,
}

/// Nothing is written, so no REJECT is kept that may be wrong by now.
fn tell<N: Notice>(notice: &N, verdict: &MapVerdict, line: &str) {
    match &verdict.said {
        Ok(_) => notice.tell(line),
        Err(refusal) => notice.refuse(line, *refusal, &Fate::KeptClear),
    }
}

/// What is said of the maps of these names, each told as it is done.
fn verify_maps<R: Threads + Sync, G: Gate + Sync, N: Notice>(
    rt: &R,
    alloc: Global,
    bytes: &[u8],
    wad: &Wad,
    large: bool,
    names: &[[u8; 8]],
    workers: u16,
    spelling: Spelling,
    hooks: &Hooks<'_, G>,
    notice: &N,
) -> Result<Said, Memory>
    requires inside { All (λ entry. entry.at + entry.size ≤ length bytes.now) wad.now.entries }
    requires names { names_of_lumps (file_of bytes.now wad.now) ≡ entry_names wad.now.entries }
    requires named { All (λ name. IsTrue (is_map_name name)) names.now }
    requires workers { (1 ≤ workers) × (workers ≤ 64) }
    ensures each { IfOk result (λ said. map (λ (v : MapVerdict). v.name) said.verdicts.items ≡ names.now) }
    ensures says { IfOk result (λ said. AllByRecursion (SaysOf (file_of bytes.now wad.now) large) said.verdicts.items) }
    ensures report { IfOk result (λ said. string_bytes said.report ≡ verdicts_report spelling said.verdicts.items) }
{
    let mut verdicts = Vec::with_capacity(alloc, names.len())?;
    let mut report = String::new(alloc);
    for name in names {
        let verdict = verdict_on(rt, alloc, bytes, wad, large, name, workers, hooks)?;
        let line = line_of(alloc, &verdict)?;
        tell(notice, &verdict, &line);
        let row = row_of(alloc, spelling, &verdict)?;
        report.push_str(&row)?;
        verdicts.push(verdict)?;
    }
    Ok(Said { verdicts, report })
}

/// What is said of the REJECT of each map of these names. The maps of UDMF are told first, and then the line of words of each as it
/// is done.
pub fn verify_wad<R: Threads + Sync, G: Gate + Sync, N: Notice>(
    rt: &R,
    alloc: Global,
    bytes: &[u8],
    wad: &Wad,
    large: bool,
    names: &[[u8; 8]],
    workers: u16,
    spelling: Spelling,
    hooks: &Hooks<'_, G>,
    notice: &N,
) -> Result<WadVerdict, Memory>
    requires inside { All (λ entry. entry.at + entry.size ≤ length bytes.now) wad.now.entries }
    requires names { names_of_lumps (file_of bytes.now wad.now) ≡ entry_names wad.now.entries }
    // They are some of the WAD's maps, in the order of their entries.
    requires among { HasInOrder (maps_in_names (entry_names wad.now.entries)) names.now }
    requires workers { (1 ≤ workers) × (workers ≤ 64) }
    ensures { IfOk result (ShowsVerdicts (file_of bytes.now wad.now) large names.now spelling) }
{
    tell_unread(alloc, wad, notice)?;
    let said = verify_maps(
        rt, alloc, bytes, wad, large, names, workers, spelling, hooks, notice,
    )?;
    Ok(WadVerdict {
        tally: tally_up(&said.verdicts),
        report: said.report,
    })
}
