//! A WAD with another REJECT for each of some of its maps.

ghost use Rattle.std.specs.Prelude.{◌≡◌, ◌+◌, ◌≤◌, ◌<◌, ◌++◌, length, All, IfOk, OnOk, IsOk};
ghost use Rattle.std.specs.BTreeMap.{get};
ghost use Rattle.std.specs.Cmp.Lexicographic.{slice_cmp};
ghost use Rattle.std.specs.Option.{ForSome};
ghost use Rattle.std.specs.Ordering.{nat_cmp};
ghost use Rattle.wad_dir.specs.Kept.{reject_then};
ghost use Rattle.wad_dir.specs.Map.{entry_names, spot_of};
ghost use Rattle.wad_dir.specs.Wad.{file_of};
ghost use Rattle.wad_dir.specs.WadRewrite.Lumps.{view, views};
ghost use Rattle.wad_dir.specs.WadRewrite.Rewrite.{WritesWad, printed};
ghost use Rattle.wad_dir.specs.AllMaps.All.{HasInOrder, names_changed, with_all};
ghost use Rattle.wad_dir.specs.AllMaps.Maps.{maps_in_names};
ghost use Rattle.wad_dir.specs.AllMaps.Places.{AreLast};
ghost use Rattle.wad_dir.specs.AllMaps.Spliced.{AreSpaced, piece, place_behind_reject, reject_with, spliced};

use crate::all_maps::parts::Change;
use crate::all_maps::places::{find_at, last_places};
use crate::wad_rewrite::{OutputLump, lumps_of, reject_lump, write_wad};
use crate::{Entry, MapSpot, Wad};
use sight_names::{MOST_LUMPS, Memory, RewriteFault};
use std::alloc::{AllocError, Global};
use std::collections::BTreeMap;

/// The spot of a map that is there.
fn spot_there(entries: &[Entry], places: &BTreeMap<[u8; 8], usize>, name: &[u8; 8]) -> MapSpot
    requires few { length entries.now ≤ MOST_LUMPS }
    requires last { AreLast (entry_names entries.now) (get (slice_cmp nat_cmp) places.now) }
    requires there { IsOk (spot_of (entry_names entries.now) name.now) }
    ensures { spot_of (entry_names entries.now) name.now ≡ Ok result }
{
    find_at(entries, places, name).unwrap()
}

/// The place of the REJECT of the map at the spot, or where one is put in.
fn reject_place(spot: &MapSpot) -> usize
    ensures { result ≡ reject_then spot.now }
{
    match spot.reject {
        Some(place) => place as usize,
        None => spot.sectors as usize + 1,
    }
}

/// The place of the first lump behind the REJECT of the map at the spot, or behind its SECTORS.
fn place_behind(spot: &MapSpot) -> usize
    ensures { result ≡ place_behind_reject spot.now }
{
    match spot.reject {
        Some(place) => place as usize + 1,
        None => spot.sectors as usize + 1,
    }
}

/// The REJECT of the map at the spot with these bytes.
fn reject_of<'a>(lumps: &[OutputLump<'a>], spot: &MapSpot, table: &'a [u8]) -> OutputLump<'a>
    requires { ForSome spot.now.reject (λ k. k < length lumps.now) }
    ensures { view result ≡ reject_with (views lumps.now) spot.now table.now }
{
    match spot.reject {
        Some(place) => OutputLump {
            name: lumps[place as usize].name,
            bytes: table,
        },
        None => reject_lump(table),
    }
}

/// Adds the lumps from a place on up to the REJECT of the map at the spot, and this REJECT with these bytes.
fn push_piece<'a>(
    out: &mut Vec<OutputLump<'a>>,
    lumps: &[OutputLump<'a>],
    done: usize,
    spot: &MapSpot,
    table: &'a [u8],
) -> Result<(), AllocError>
    requires begins { done ≤ reject_then spot.now }
    requires ends { place_behind_reject spot.now ≤ length lumps.now }
    ensures { OnOk result (views out.new.items ≡ views out.old.items ++ piece (views lumps.now) done spot.now table.now) }
{
    let place = reject_place(spot);
    let reject = reject_of(lumps, spot, table);
    out.extend_from_slice(&lumps[done..place])?;
    out.push(reject)?;
    Ok(())
}

/// The lumps, which are those of the entries in order, with all changes.
fn spliced<'a>(
    alloc: Global,
    lumps: &[OutputLump<'a>],
    entries: &[Entry],
    changes: &'a [Change],
) -> Result<Vec<OutputLump<'a>>, Memory>
    requires few { length entries.now ≤ MOST_LUMPS }
    requires spaced { AreSpaced (entry_names entries.now) (length lumps.now) 0 changes.now }
    ensures { IfOk result (λ out. views out.items ≡ spliced (entry_names entries.now) (views lumps.now) 0 changes.now) }
{
    let places = last_places(alloc, entries)?;
    let mut out = Vec::with_capacity(alloc, lumps.len())?;
    let mut done = 0;
    for change in changes {
        let spot = spot_there(entries, &places, &change.name);
        push_piece(&mut out, lumps, done, &spot, change.table.as_slice())?;
        done = place_behind(&spot);
    }
    out.extend_from_slice(&lumps[done..])?;
    Ok(out)
}

/// The WAD with all changes, each of which gives a map of the WAD another REJECT: in place of the one that it has, or
/// right behind its SECTORS. The maps that are changed stand in the order of their entries. Every other name and lump
/// stays, in order, and so does the kind. What the output would be between two changes doesn't count.
pub fn with_rejects(
    alloc: Global,
    bytes: &[u8],
    wad: &Wad,
    changes: &[Change],
) -> Result<Vec<u8>, RewriteFault>
    requires inside { All (λ entry. entry.at + entry.size ≤ length bytes.now) wad.now.entries }
    requires among { HasInOrder (maps_in_names (entry_names wad.now.entries)) (names_changed changes.now) }
    ensures { WritesWad (λ v. v.items) result (printed (with_all (file_of bytes.now wad.now) changes.now)) }
{
    let entries = wad.entries.as_slice();
    let lumps = lumps_of(alloc, bytes, entries)?;
    let out = spliced(alloc, &lumps, entries, changes)?;
    write_wad(alloc, wad.kind, &out)
}
