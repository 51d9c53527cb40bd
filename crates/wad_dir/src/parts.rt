//! What a WAD's directory holds, and where a map lies in it.

ghost use Rattle.std.specs.Prelude.{◌≤◌, length};
ghost use Rattle.sight_names.specs.declared.limits.TheConstants.{MOST_LUMPS};

use sight_names::{Items, MapFormat};

/// Whether a WAD is a game's own or an addition to one.
#[derive(Clone, Copy, PartialEq, Eq)]
pub enum Kind {
    Iwad,
    Pwad,
}

/// The name of a lump, padded with NUL, and where its bytes lie. One of no bytes stands at 0.
#[derive(Clone, Copy)]
pub struct Entry {
    pub name: [u8; 8],
    pub at: u32,
    pub size: u32,
}

/// The directory of a WAD, of at most 65,536 entries.
#[derive(Drop)]
pub struct Wad {
    pub kind: Kind,
    pub entries: Items<Entry>,
    pub ghost few: { length entries ≤ MOST_LUMPS },
}

/// Where the lumps of a map stand in the directory, and the format of the map: Hexen's where the entry right behind its
/// lumps is BEHAVIOR, else Doom's. A map of UDMF is a text, which spells the four lumps; it has the place of TEXTMAP for all
/// four.
#[derive(Clone, Copy)]
pub struct MapSpot {
    pub marker: u32,
    pub linedefs: u32,
    pub sidedefs: u32,
    pub vertexes: u32,
    pub sectors: u32,
    pub reject: Option<u32>,
    pub format: MapFormat,
    pub text: bool,
}
