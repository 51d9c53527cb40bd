//! What is listed of a map.

use map_answers::sight_status::Status;

/// The format of a map; of one of UDMF also the decimal places of the unit in which its points are told.
#[derive(Clone, Copy)]
pub enum ListedFormat {
    Doom,
    Hexen,
    Udmf { places: u8 },
}

/// How great a map is, and what its REJECT holds.
#[derive(Clone, Copy)]
pub struct MapSizes {
    pub format: ListedFormat,
    /// How many lines it has, without the records that are passed over.
    pub lines: u64,
    pub points: u64,
    pub sectors: u64,
    /// How many bytes its REJECT has, 0 where there is none.
    pub found: u64,
    /// How many a table of its sectors has.
    pub expected: u64,
    /// How many bits of its table are set; none where the REJECT has too few bytes for one.
    pub set: Option<u64>,
}

/// What is listed of a map besides its name.
#[derive(Drop)]
pub enum Said {
    Read(MapSizes),
    Refused(Status),
}

/// What is listed of one map. The name is in upper case, padded with NUL.
#[derive(Drop)]
pub struct MapEntry {
    pub name: [u8; 8],
    pub said: Said,
}
