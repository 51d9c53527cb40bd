//! The map that a text of UDMF spells: the records of its blocks, and the four lumps of the same map.
#![tactic(auto)]

mod blocks;
mod checks;
mod faults;
mod grid;
pub mod laws;
mod lumps;
mod places;
mod reading;
mod values;

pub use blocks::{Block, Linedef, Vertex};
pub use faults::TextFault;
pub use lumps::{FourLumps, lumps_of_text, text_places};
pub use places::{Place, place_of};
pub use reading::{Namespace, Records, read_text};
pub use values::Coordinate;
