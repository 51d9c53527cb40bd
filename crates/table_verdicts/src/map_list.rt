//! What maps of a WAD hold: of each its format, how great it is, and what its REJECT has. No map is audited or built.

mod entry;
mod json;
mod line;
mod listing;
mod named;
mod sizes;
mod tally;
mod unit;

pub use entry::{ListedFormat, MapEntry, MapSizes, Said};
pub use listing::{MapList, list_maps};
pub use tally::{ListTally, tally_line};
pub use unit::places_of;
