//! The maps of a WAD.

ghost use Rattle.std.specs.Prelude.{◌≡◌, ◌+◌, ◌≤◌, length, drop, slice_get, All, IfOk, IsOk, IsTrue};
ghost use Rattle.std.specs.BTreeMap.{get};
ghost use Rattle.std.specs.Cmp.Lexicographic.{slice_cmp};
ghost use Rattle.std.specs.List.{list_all};
ghost use Rattle.std.specs.Ordering.{nat_cmp};
ghost use Rattle.wad_dir.specs.Map.{begins_with_textmap, entry_names, key_of, spot_of};
ghost use Rattle.wad_dir.specs.AllMaps.Maps.{is_map, is_map_name, is_udmf, is_visible, maps_in_names, udmf_maps_of};
ghost use Rattle.wad_dir.specs.AllMaps.Places.{AreLast};

use crate::all_maps::places::{find_at, last_places, told};
use crate::{Entry, Wad, is_map_lump, is_same_name};
use sight_names::{MOST_LUMPS, Memory};
use std::alloc::Global;
use std::collections::BTreeMap;

fn are_visible(name: &[u8]) -> bool
    ensures { result ≡ list_all is_visible (key_of name.now) }
{
    for c in name {
        if *c == 0 {
            return true;
        }
        let upper = c.to_ascii_uppercase();
        if upper < 0x21 || upper > 0x7e {
            return false;
        }
    }
    true
}

#[tactic(auto, unfolding(crate::specs::AllMaps::Maps::is_map_name))]
pub fn is_map_name(name: &[u8]) -> bool
    ensures { result ≡ is_map_name name.now }
{
    !is_same_name(name, b"")
        && are_visible(name)
        && !is_same_name(name, b"BEHAVIOR")
        && !is_same_name(name, b"TEXTMAP")
        && !is_same_name(name, b"ENDMAP")
        && !is_map_lump(name)
}

/// Whether the entry of that name at the place is the marker of a map.
fn is_map(
    entries: &[Entry],
    places: &BTreeMap<[u8; 8], usize>,
    place: usize,
    name: &[u8; 8],
) -> bool
    requires few { length entries.now ≤ MOST_LUMPS }
    requires last { AreLast (entry_names entries.now) (get (slice_cmp nat_cmp) places.now) }
    requires there { slice_get (entry_names entries.now) place ≡ Some name.now }
    ensures { result ≡ is_map (entry_names entries.now) name.now (drop (place + 1) (entry_names entries.now)) }
{
    if !is_map_name(name) {
        return false;
    }
    match find_at(entries, places, name) {
        Ok(spot) => spot.marker as usize == place,
        Err(_) => false,
    }
}

/// The names of the maps of a WAD, in the order of their entries: of each entry that is the last of its name, whose name
/// a map can have, and of which `wad_dir::find_map` answers Ok. Names are in upper case, padded with NUL.
pub fn maps(alloc: Global, wad: &Wad) -> Result<Vec<[u8; 8]>, Memory>
    ensures maps { IfOk result (λ maps. maps.items ≡ maps_in_names (entry_names wad.now.entries)) }
    // What callers need of it.
    ensures named { IfOk result (λ maps. All (λ name. IsTrue (is_map_name name)) maps.items) }
    ensures found { IfOk result (λ maps. All (λ name. IsOk (spot_of (entry_names wad.now.entries) name)) maps.items) }
{
    let entries = wad.entries.as_slice();
    let places = last_places(alloc, entries)?;
    let mut maps = Vec::new(alloc);
    for (k, entry) in entries.iter().enumerate() {
        if is_map(entries, &places, k, &entry.name) {
            maps.push(told(&entry.name))?;
        }
    }
    Ok(maps)
}

fn is_textmap_next(rest: &[Entry]) -> bool
    ensures { result ≡ begins_with_textmap (entry_names rest.now) }
{
    match rest {
        [] => false,
        [entry, ..] => is_same_name(&entry.name, b"TEXTMAP"),
    }
}

/// Whether the entry of that name at the place is the marker of a map of UDMF.
fn is_udmf(
    entries: &[Entry],
    places: &BTreeMap<[u8; 8], usize>,
    place: usize,
    name: &[u8; 8],
) -> bool
    requires last { AreLast (entry_names entries.now) (get (slice_cmp nat_cmp) places.now) }
    requires there { slice_get (entry_names entries.now) place ≡ Some name.now }
    ensures { result ≡ is_udmf name.now (drop (place + 1) (entry_names entries.now)) }
{
    if !is_map_name(name) {
        return false;
    }
    let Some(last) = places.get(&told(name)) else {
        return false;
    };
    if *last != place {
        return false;
    }
    let (_, behind) = entries.split_at(place + 1);
    is_textmap_next(behind)
}

/// The names of the maps of UDMF, whether they are read or have no ENDMAP, in the order of their entries: of each entry that is the last of its
/// name, whose name a map can have, and right behind which TEXTMAP stands. Names are in upper case, padded with NUL.
pub fn udmf_maps(alloc: Global, wad: &Wad) -> Result<Vec<[u8; 8]>, Memory>
    ensures maps { IfOk result (λ maps. maps.items ≡ udmf_maps_of (entry_names wad.now.entries)) }
    // What callers need of it.
    ensures named { IfOk result (λ maps. All (λ name. IsTrue (is_map_name name)) maps.items) }
{
    let entries = wad.entries.as_slice();
    let places = last_places(alloc, entries)?;
    let mut maps = Vec::new(alloc);
    for (k, entry) in entries.iter().enumerate() {
        if is_udmf(entries, &places, k, &entry.name) {
            maps.push(told(&entry.name))?;
        }
    }
    Ok(maps)
}
