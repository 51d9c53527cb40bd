//! Searches for lines of sight from groups of sectors over a mesh, each behind each gate for what may be seen there, by a row of bits
//! for each gate. Nothing is proved of what they find: whoever takes it for rays judges it.
#![tactic(auto)]

mod cells;
mod cones;
mod marks;
mod scene;
mod scout;
mod searches;
mod seeds;
mod traces;
mod tracks;
pub mod words;

pub use cells::{Cells, short};
pub use scene::{Scene, first_of};
pub use scout::Searched;
pub use searches::{Sought, WantedWalks};
pub use seeds::{Seeds, numbers_for};
pub use traces::Trace;
pub use tracks::{Step, Track, Tracks};
