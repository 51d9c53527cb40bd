//! The directory of a WAD, and the place of a map in it.
#![tactic(auto)]

pub mod all_maps;
mod directory;
mod laws;
mod map;
mod parts;
pub mod wad_rewrite;

pub use directory::{lump, read_wad};
pub use laws::{prints_its_length, reads_what_is_printed};
pub use map::{find_map, is_map_lump, is_same_name, spot_after};
pub use parts::{Entry, Kind, MapSpot, Wad};
