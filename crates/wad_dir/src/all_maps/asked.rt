//! A map that is asked for by its name.

ghost use Rattle.std.specs.Prelude.{◌≡◌};
ghost use Rattle.wad_dir.specs.Map.{entry_names};
ghost use Rattle.wad_dir.specs.AllMaps.Asked.{fault_of_name};

use crate::all_maps::markers::is_map_name;
use crate::{Wad, find_map};
use sight_names::MapFault;

/// Why no map that `maps` gives has this name: `wad_dir::find_map` finds none, or the name is that of one of a map's lumps,
/// which is `NoMarker`. None where one has it.
pub fn fault_of(wad: &Wad, name: &str) -> Option<MapFault>
    ensures { result ≡ fault_of_name (entry_names wad.now.entries) name.now }
{
    match find_map(wad, name) {
        Ok(_) => {
            if is_map_name(name.as_bytes()) {
                None
            } else {
                Some(MapFault::NoMarker)
            }
        }
        Err(fault) => Some(fault),
    }
}
