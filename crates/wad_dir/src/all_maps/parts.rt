//! Another REJECT for a map.

use sight_names::Items;

/// The name of a map, in upper case and padded with NUL, and the bytes that its REJECT is to have.
#[derive(Drop)]
pub struct Change {
    pub name: [u8; 8],
    pub table: Items<u8>,
}
