//! The masks of a map's gates: behind each passable line that leads out of a sector, what a flood over further gates
//! comes to, less what the sector behind the line isn't joined with. A walk that keeps a row of what it is to find is
//! told by them where nothing is left.

pub mod flood;
mod following;
pub mod gate;
pub mod gates;
pub mod laws;
mod masks;
pub mod words;

pub use masks::{Masks, Row};
