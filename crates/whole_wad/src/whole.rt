//! Maps of a WAD, and the WAD with their tables.

ghost use Rattle.std.specs.Prelude.{◌≡◌, ◌+◌, ◌≤◌, ◌∷◌, ◌++◌, [], length, map, All, IfOk, IsTrue, OnOk, string_bytes};
ghost use Rattle.wad_dir.specs.Map.{entry_names};
ghost use Rattle.wad_dir.specs.Wad.{file_of, names_of_lumps};
ghost use Rattle.wad_dir.specs.AllMaps.All.{HasInOrder};
ghost use Rattle.wad_dir.specs.AllMaps.Maps.{is_map_name, maps_in_names};
ghost use Rattle.whole_wad.specs.Outcomes.{changes_of, tables_of};
ghost use Rattle.whole_wad.specs.Whole.{MakesWhole, TellsWhole, WritesOutcomes};

use crate::fate::Fate;
use crate::hooks::Hooks;
use crate::json::row_of;
use crate::notice::Notice;
use crate::outcomes::{MapOutcome, outcome_of, stop_of};
use crate::report::line_of;
use map_answers::sight_status::Status;
use refused_maps::Refused;
use reject_bits::Table;
use row_spelling::Spelling;
use sight_names::{Items, Memory, Method, RewriteFault};
use sight_workers::Gate;
use std::alloc::{AllocError, Global};
use std::collections::BTreeMap;
use std::thread::Threads;
use wad_dir::Wad;
use wad_dir::all_maps::{Change, fault_of, maps, text_of, udmf_maps, with_rejects};

/// A WAD with the tables of maps: its bytes, one line of text a map, and how many maps were asked for, have been built, are
/// refused, and of these got a clear table.
#[derive(Drop)]
pub struct WholeWad {
    pub bytes: Vec<u8>,
    pub report: String,
    pub maps: u64,
    pub built: u64,
    pub refused: u64,
    pub cleared: u64,
}

/// Why nothing is made of a WAD.
#[derive(Clone, Copy)]
pub enum Unmade {
    /// A map is refused so, which stops all.
    Stopped(Status),
    /// The new WAD isn't written.
    Unwritten(RewriteFault),
}

/// What came of some maps, and the report on them.
#[derive(Drop)]
struct Maps {
    outcomes: Vec<MapOutcome>,
    report: String,
}

/// What came of maps, or the refusal that stopped them.
#[derive(Drop)]
enum Told {
    All(Maps),
    Stopped(Status),
}

/// A name in upper case, padded with NUL.
fn upper_of(name: &[u8; 8]) -> [u8; 8] {
    let mut upper = [0; 8];
    for (slot, c) in upper.iter_mut().zip(name.iter()) {
        if *c == 0 {
            break;
        }
        *slot = c.to_ascii_uppercase();
    }
    upper
}

/// How many entries have each name, in upper case.
fn count_names(alloc: Global, wad: &Wad) -> Result<BTreeMap<[u8; 8], u32>, Memory> {
    let mut counts = BTreeMap::new(alloc);
    for entry in wad.entries.as_slice() {
        let name = upper_of(&entry.name);
        let before: u32 = match counts.get(&name) {
            Some(count) => *count,
            None => 0,
        };
        counts.insert(name, before.saturating_add(1))?;
    }
    Ok(counts)
}

/// Tells of which maps the name stands at several entries.
fn tell_repeated<N: Notice>(alloc: Global, wad: &Wad, notice: &N) -> Result<(), Memory> {
    let counts = count_names(alloc, wad)?;
    let names = maps(alloc, wad)?;
    for name in &names {
        if counts.get(name).is_some_and(|count| *count > 1) {
            notice.take_last(text_of(name));
        }
    }
    Ok(())
}

/// Tells which maps of UDMF aren't read, since they have no ENDMAP, and then of which maps the last of a name is taken.
pub fn tell_unread<N: Notice>(alloc: Global, wad: &Wad, notice: &N) -> Result<(), Memory> {
    let names = udmf_maps(alloc, wad)?;
    for name in &names {
        let name = text_of(name);
        if fault_of(wad, name).is_some() {
            notice.pass_over(name);
        }
    }
    tell_repeated(alloc, wad, notice)
}

fn tell<N: Notice>(notice: &N, outcome: &MapOutcome, line: &str) {
    match &outcome.made {
        Ok(_) => notice.tell(line),
        Err(refusal) => notice.refuse(line, *refusal, &outcome.fate),
    }
}

/// What comes of the maps of these names, each told as it is done.
fn tell_maps<R: Threads + Sync, G: Gate + Sync, N: Notice>(
    rt: &R,
    alloc: Global,
    bytes: &[u8],
    wad: &Wad,
    large: bool,
    names: &[[u8; 8]],
    workers: u16,
    method: Method,
    refused: Refused,
    spelling: Spelling,
    hooks: &Hooks<'_, G>,
    notice: &N,
) -> Result<Told, Memory>
    requires inside { All (λ entry. entry.at + entry.size ≤ length bytes.now) wad.now.entries }
    requires names { names_of_lumps (file_of bytes.now wad.now) ≡ entry_names wad.now.entries }
    requires named { All (λ name. IsTrue (is_map_name name)) names.now }
    requires workers { (1 ≤ workers) × (workers ≤ 64) }
    ensures { IfOk result (TellsWhole (file_of bytes.now wad.now) large names.now method refused spelling) }
{
    let mut outcomes = Vec::with_capacity(alloc, names.len())?;
    let mut report = String::new(alloc);
    for name in names {
        let outcome = outcome_of(
            rt, alloc, bytes, wad, large, name, workers, method, refused, hooks,
        )?;
        let line = line_of(alloc, &outcome)?;
        tell(notice, &outcome, &line);
        if let Some(refusal) = stop_of(refused, &outcome.made) {
            return Ok(Told::Stopped(refusal));
        }
        let row = row_of(alloc, spelling, &outcome)?;
        report.push_str(&row)?;
        outcomes.push(outcome)?;
    }
    Ok(Told::All(Maps { outcomes, report }))
}

fn push_table(
    alloc: Global,
    changes: &mut Vec<Change>,
    name: [u8; 8],
    table: &Table,
) -> Result<(), AllocError>
    ensures { OnOk result (changes.new.items ≡ changes.old.items ++ (record { name = name; table = table.now.bytes }) ∷ []) }
{
    let table = Vec::from_slice(alloc, table.as_bytes())?;
    changes.push(Change {
        name,
        table: Items::of(table),
    })?;
    Ok(())
}

/// Adds another REJECT for the map, where it got a table, or a clear one.
fn push_change(
    alloc: Global,
    changes: &mut Vec<Change>,
    outcome: &MapOutcome,
) -> Result<(), AllocError>
    ensures { OnOk result (changes.new.items ≡ changes.old.items ++ changes_of (outcome.now ∷ [])) }
{
    match (&outcome.made, &outcome.fate) {
        (Ok(made), _) => push_table(alloc, changes, outcome.name, &made.table),
        (Err(_), Fate::Cleared(table)) => push_table(alloc, changes, outcome.name, table),
        (Err(_), _) => Ok(()),
    }
}

/// Another REJECT for each map that got a table, or a clear one.
fn changes_in(alloc: Global, outcomes: &[MapOutcome]) -> Result<Vec<Change>, AllocError>
    ensures { IfOk result (λ changes. changes.items ≡ changes_of outcomes.now) }
{
    let mut changes = Vec::new(alloc);
    for outcome in outcomes {
        push_change(alloc, &mut changes, outcome)?;
    }
    Ok(changes)
}

/// One where the map got its table.
fn built_in(outcome: &MapOutcome) -> usize
    ensures count { result ≡ length (tables_of (outcome.now ∷ [])) }
    ensures few { result ≤ 1 }
{
    match outcome.made {
        Ok(_) => 1,
        Err(_) => 0,
    }
}

/// How many maps got their table.
fn count_built(outcomes: &[MapOutcome]) -> usize
    ensures { result ≡ length (tables_of outcomes.now) }
{
    let mut count = 0;
    for outcome in outcomes {
        count += built_in(outcome);
    }
    count
}

/// The WAD of what came of some of its maps, which are in order.
fn written(alloc: Global, bytes: &[u8], wad: &Wad, maps: Maps) -> Result<WholeWad, RewriteFault>
    requires inside { All (λ entry. entry.at + entry.size ≤ length bytes.now) wad.now.entries }
    requires among { HasInOrder (maps_in_names (entry_names wad.now.entries)) (map (λ (o : MapOutcome). o.name) maps.outcomes.items) }
    ensures { WritesOutcomes (file_of bytes.now wad.now) maps.outcomes.items (string_bytes maps.report) result }
{
    let changes = changes_in(alloc, &maps.outcomes)?;
    let new = with_rejects(alloc, bytes, wad, &changes)?;
    let built = count_built(&maps.outcomes);
    Ok(WholeWad {
        bytes: new,
        report: maps.report,
        maps: maps.outcomes.len() as u64,
        built: built as u64,
        refused: (maps.outcomes.len() - built) as u64,
        cleared: (changes.len() - built) as u64,
    })
}

/// The WAD in which each map of these names has its table by this method as its REJECT, all other lumps as they were. A map that is
/// above a limit, of the usual ones or of the larger ones, or isn't sound is refused, and the report says why. By what is chosen for
/// refused maps it keeps its REJECT, or gets a clear one where it was read, or nothing is made. The maps of UDMF without ENDMAP are told first, and
/// then the line of words of each map as it is done.
///
/// # Errors
///
/// `Stopped` with the first refusal, where that stops all. Else of `Unwritten` `TooManyLumps` where the new WAD would have more than
/// 65,536 lumps, else `TooLong` where it would have 2^31 bytes or more.
pub fn build_wad<R: Threads + Sync, G: Gate + Sync, N: Notice>(
    rt: &R,
    alloc: Global,
    bytes: &[u8],
    wad: &Wad,
    large: bool,
    names: &[[u8; 8]],
    workers: u16,
    method: Method,
    refused: Refused,
    spelling: Spelling,
    hooks: &Hooks<'_, G>,
    notice: &N,
) -> Result<WholeWad, Unmade>
    requires inside { All (λ entry. entry.at + entry.size ≤ length bytes.now) wad.now.entries }
    requires names { names_of_lumps (file_of bytes.now wad.now) ≡ entry_names wad.now.entries }
    // They are some of the WAD's maps, in the order of their entries.
    requires among { HasInOrder (maps_in_names (entry_names wad.now.entries)) names.now }
    requires workers { (1 ≤ workers) × (workers ≤ 64) }
    ensures { MakesWhole (file_of bytes.now wad.now) large names.now method refused spelling result }
{
    if let Err(memory) = tell_unread(alloc, wad, notice) {
        return Err(Unmade::Unwritten(RewriteFault::Memory(memory)));
    }
    match tell_maps(
        rt, alloc, bytes, wad, large, names, workers, method, refused, spelling, hooks, notice,
    ) {
        Ok(Told::Stopped(refusal)) => Err(Unmade::Stopped(refusal)),
        Ok(Told::All(maps)) => match written(alloc, bytes, wad, maps) {
            Ok(whole) => Ok(whole),
            Err(fault) => Err(Unmade::Unwritten(fault)),
        },
        Err(memory) => Err(Unmade::Unwritten(RewriteFault::Memory(memory))),
    }
}
