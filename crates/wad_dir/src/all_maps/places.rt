//! Names as they are told, and the place of the last entry of each.

ghost use Rattle.std.specs.Prelude.{◌≡◌, ◌≤◌, length, IfOk};
ghost use Rattle.std.specs.BTreeMap.{get};
ghost use Rattle.std.specs.Cmp.Lexicographic.{slice_cmp};
ghost use Rattle.std.specs.Ordering.{nat_cmp};
ghost use Rattle.wad_dir.specs.Map.{entry_names, spot_of};
ghost use Rattle.wad_dir.specs.AllMaps.Maps.{told};
ghost use Rattle.wad_dir.specs.AllMaps.Places.{AreLast};

use crate::{Entry, MapSpot};
use sight_names::{MOST_LUMPS, MapFault, Memory};
use std::alloc::Global;
use std::collections::BTreeMap;

/// A name in upper case, padded with NUL.
pub fn told(name: &[u8; 8]) -> [u8; 8]
    ensures { result ≡ told name.now }
{
    let mut upper = [0; 8];
    for (k, c) in name.iter().enumerate() {
        if *c == 0 {
            return upper;
        }
        upper[k] = c.to_ascii_uppercase();
    }
    upper
}

/// The place of the last entry of each name, under the name as it is told.
pub fn last_places(alloc: Global, entries: &[Entry]) -> Result<BTreeMap<[u8; 8], usize>, Memory>
    ensures { IfOk result (λ places. AreLast (entry_names entries.now) (get (slice_cmp nat_cmp) places)) }
{
    let mut places = BTreeMap::new(alloc);
    for (k, entry) in entries.iter().enumerate() {
        places.insert(told(&entry.name), k)?;
    }
    Ok(places)
}

/// What `wad_dir::find_map` answers of this name, by its place.
pub fn find_at(
    entries: &[Entry],
    places: &BTreeMap<[u8; 8], usize>,
    name: &[u8; 8],
) -> Result<MapSpot, MapFault>
    requires few { length entries.now ≤ MOST_LUMPS }
    requires last { AreLast (entry_names entries.now) (get (slice_cmp nat_cmp) places.now) }
    ensures { result ≡ spot_of (entry_names entries.now) name.now }
{
    let Some(place) = places.get(&told(name)) else {
        return Err(MapFault::NoMarker);
    };
    let marker = *place;
    let (_, after) = entries.split_at(marker + 1);
    crate::spot_after(marker, after)
}
