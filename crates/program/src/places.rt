//! What standard error says of a map of UDMF that is refused, for one who mends it in an editor: the row and the column of the fault
//! of its text, or that it has no ENDMAP. The WAD is read once more for it.

use map_answers::directory;
use order_words::{Order, Text};
use shelf_io::{Shelf, fetch};
use sight_names::{Items, MOST_BYTES};
use sight_run::Status;
use std::alloc::{AllocError, Global};
use udmf_map::TextFault;
use wad_dir::all_maps::{text_of, udmf_maps};
use wad_dir::{Entry, Wad, find_map, is_same_name};

/// A map, and the byte of its text for which it is refused.
#[derive(Drop)]
pub struct BadByte {
    pub map: String,
    pub at: usize,
}

/// A place in a text. Rows and columns are counted from 1; a row ends with a line feed, a column is a byte.
#[derive(Clone, Copy, PartialEq, Eq)]
pub struct TextPlace {
    pub row: usize,
    pub column: usize,
}

/// The byte of its text for which a map is refused; none where it is refused for something else.
pub fn byte_of(refusal: &Status) -> Option<usize> {
    let Status::BadText(fault) = refusal else {
        return None;
    };
    match *fault {
        TextFault::Text { at } | TextFault::Namespace { at } | TextFault::Value { at } => Some(at),
        _ => None,
    }
}

/// The place of a byte of the text, or of its end.
pub fn place_in(text: &[u8], at: usize) -> TextPlace {
    let mut place = TextPlace { row: 1, column: 1 };
    for byte in text.get(..at).unwrap_or(text) {
        if *byte == b'\n' {
            place.row = place.row.saturating_add(1);
            place.column = 1;
        } else {
            place.column = place.column.saturating_add(1);
        }
    }
    place
}

/// A WAD that is read once more.
#[derive(Drop)]
pub struct WadAgain {
    bytes: Vec<u8>,
    wad: Wad,
}

impl WadAgain {
    /// The WAD in a file; none where it can't be read.
    pub fn read<S: Shelf>(alloc: Global, shelf: &mut S, file: &str) -> Option<WadAgain> {
        let Ok(bytes) = fetch(alloc, shelf, file, MOST_BYTES as u64) else {
            return None;
        };
        match directory(alloc, &bytes) {
            Ok(wad) => Some(WadAgain { bytes, wad }),
            Err(_) => None,
        }
    }

    /// The place of a byte of the text of the map of this name; none where it has no text.
    pub fn place(&self, map: &str, at: usize) -> Option<TextPlace> {
        let Ok(spot) = find_map(&self.wad, map) else {
            return None;
        };
        if !spot.text {
            return None;
        }
        match self.wad.entries.as_slice().get(spot.linedefs as usize) {
            Some(entry) => Some(place_in(self.body(entry), at)),
            None => None,
        }
    }

    fn body(&self, entry: &Entry) -> &[u8] {
        let behind = self.bytes.get(entry.at as usize..).unwrap_or(&[]);
        behind.get(..entry.size as usize).unwrap_or(&[])
    }

    /// Those of the maps that are asked for that are of UDMF and have no ENDMAP; none where there is no memory to look for them.
    pub fn without_end(&self, alloc: Global, order: &Order) -> Result<Vec<String>, AllocError> {
        let mut found = Vec::new(alloc);
        let Ok(names) = udmf_maps(alloc, &self.wad) else {
            return Ok(found);
        };
        for name in &names {
            let name = text_of(name);
            if asks_for(order, name) && find_map(&self.wad, name).is_err() {
                found.push(String::from_str(alloc, name)?)?;
            }
        }
        Ok(found)
    }
}

/// The map that the order is about; none where it is about maps of a WAD, or makes one.
pub fn map_of(order: &Order) -> Option<&Text> {
    match order {
        Order::Zero { map, .. }
        | Order::Ray { map, .. }
        | Order::Audit { map, .. }
        | Order::Trace { map, .. }
        | Order::Check { map, .. }
        | Order::Build { map, .. }
        | Order::Need { map, .. }
        | Order::Sound { map, .. }
        | Order::Why { map, .. }
        | Order::Draw { map, .. } => Some(map),
        Order::Verify { .. } | Order::All { .. } | Order::Maps { .. } | Order::Grid { .. } => None,
    }
}

fn has_name(only: &Option<Items<Text>>, name: &str) -> bool {
    match only {
        Some(only) => only.as_slice().iter().any(|text| is_same_name(
            text.as_str().as_bytes(),
            name.as_bytes(),
        )),
        None => false,
    }
}

// Whether the order names the map of this name.
fn asks_for(order: &Order, name: &str) -> bool {
    match order {
        Order::Verify { only, .. } | Order::All { only, .. } | Order::Maps { only, .. } => {
            has_name(only, name)
        }
        _ => match map_of(order) {
            Some(map) => is_same_name(map.as_str().as_bytes(), name.as_bytes()),
            None => false,
        },
    }
}
