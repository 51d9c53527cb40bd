//! Maps of Hexen's format: their LINEDEFS records have 16 bytes, where those of Doom's have 14.

mod laws;
mod turned;

pub use laws::{is_read_the_same, spells_the_same};
pub use turned::to_hexen;
