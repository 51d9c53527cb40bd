//! The maps of a WAD that an order asks for: all of them, or those of some names.

ghost use Rattle.std.specs.Prelude.{◌≡◌, ◌+◌, ◌≤◌, IfErr, IfOk, All, Some, filter, length};
ghost use Rattle.shelf_io.specs.Shelf.{Files, NoneFell};
ghost use Rattle.wad_dir.specs.Map.{entry_names, has_name};
ghost use Rattle.wad_dir.specs.Wad.{file_of, names_of_lumps};
ghost use Rattle.wad_dir.specs.AllMaps.All.{HasInOrder};
ghost use Rattle.wad_dir.specs.AllMaps.Asked.{first_fault};
ghost use Rattle.wad_dir.specs.AllMaps.Maps.{maps_in_names};
ghost use Rattle.map_answers.specs.SightStatus.Answer.{MakesAnswer};
ghost use Rattle.sight_run.specs.All.{maps_in};
ghost use Rattle.sight_run.specs.Asked.{IsOfNames, asked_in};
ghost use Rattle.sight_run.specs.Reply.{asked_seen};
ghost use Rattle.sight_run.specs.Run.{Cause, IsOfAsked};

use crate::input::fetch_wad;
use map_answers::directory;
use map_answers::sight_status::Status;
use order_words::{Source, Text};
use shelf_io::Shelf;
use sight_names::{Items, MapFault};
use std::alloc::{AllocError, Global};
use wad_dir::all_maps::{fault_of, maps};
use wad_dir::{Wad, is_same_name};
use whole_wad::Notice;

/// Why the first of these names that is none of a map's isn't one. The notice is told the name.
fn first_fault<N: Notice>(wad: &Wad, only: &[Text], notice: &N) -> Option<MapFault>
    ensures { result ≡ first_fault (entry_names wad.now.entries) only.now }
{
    for name in only {
        if let Some(fault) = fault_of(wad, name.as_str()) {
            notice.miss(name.as_str());
            return Some(fault);
        }
    }
    None
}

fn is_asked(map: &[u8; 8], only: &[Text]) -> bool
    ensures { result ≡ has_name map.now only.now }
{
    for name in only {
        if is_same_name(name.as_str().as_bytes(), map) {
            return true;
        }
    }
    false
}

/// Those of the maps that have one of these names.
fn asked_among(alloc: Global, maps: &[[u8; 8]], only: &[Text]) -> Result<Vec<[u8; 8]>, AllocError>
    ensures { IfOk result (λ asked. asked.items ≡ filter (λ map. has_name map only.now) maps.now) }
{
    let mut asked = Vec::new(alloc);
    for map in maps {
        if is_asked(map, only) {
            asked.push(*map)?;
        }
    }
    Ok(asked)
}

/// The names of the maps that are to be built, in the order of their entries.
pub fn asked_maps<N: Notice>(
    alloc: Global,
    wad: &Wad,
    only: &Option<Items<Text>>,
    notice: &N,
) -> Result<Vec<[u8; 8]>, Status>
    ensures maps { MakesAnswer (λ maps. maps.items) result (maps_in (entry_names wad.now.entries) only.now) }
    ensures refusals { IfErr result (IsOfNames only.now) }
{
    let all = match maps(alloc, wad) {
        Ok(all) => all,
        Err(memory) => return Err(Status::Memory(memory)),
    };
    let Some(only) = only else {
        return Ok(all);
    };
    let only = only.as_slice();
    if let Some(fault) = first_fault(wad, only, notice) {
        return Err(Status::NoMap(fault));
    }
    match asked_among(alloc, &all, only) {
        Ok(asked) => Ok(asked),
        Err(refused) => Err(Status::Memory(refused.into())),
    }
}

/// The bytes of a file, the WAD that they are, and the names of those of its maps that are asked for.
#[derive(Drop)]
pub struct ReadMaps {
    pub bytes: Vec<u8>,
    pub wad: Wad,
    pub maps: Vec<[u8; 8]>,
}

/// The maps that are asked for of the WAD in a file. All files stay.
pub fn read_asked<S: Shelf, N: Notice>(
    alloc: Global,
    shelf: &mut S,
    wad: &str,
    only: &Option<Items<Text>>,
    notice: &N,
) -> Result<ReadMaps, Status>
    ensures told { (files : Files) → (S.state shelf.old).files ≡ Some files → MakesAnswer asked_seen result (asked_in wad.now only.now files) }
    ensures files { (S.state shelf.new).files ≡ (S.state shelf.old).files }
    ensures begun { (S.state shelf.new).begun ≡ (S.state shelf.old).begun }
    ensures counts { NoneFell (S.state shelf.old) (S.state shelf.new) }
    ensures cause { Cause (S.state shelf.old) (S.state shelf.new) result }
    ensures refusals { IfErr result (IsOfAsked only.now) }
    ensures inside { IfOk result (λ asked. All (λ entry. entry.at + entry.size ≤ length asked.bytes.items) asked.wad.entries) }
    ensures names { IfOk result (λ asked. names_of_lumps (file_of asked.bytes.items asked.wad) ≡ entry_names asked.wad.entries) }
    ensures among { IfOk result (λ asked. HasInOrder (maps_in_names (entry_names asked.wad.entries)) asked.maps.items) }
{
    let bytes = fetch_wad(alloc, shelf, wad)?;
    let wad = directory(alloc, &bytes)?;
    let maps = asked_maps(alloc, &wad, only, notice)?;
    Ok(ReadMaps { bytes, wad, maps })
}
