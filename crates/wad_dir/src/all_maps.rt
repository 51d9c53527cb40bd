//! Every map of a WAD: which there are, and the WAD with another REJECT for each of some of them.

mod asked;
mod changes;
mod laws;
mod markers;
mod names;
mod parts;
mod places;

pub use asked::fault_of;
pub use changes::with_rejects;
pub use laws::{each_asked_is_there, each_change_is_made, each_table_is_there};
pub use markers::{maps, udmf_maps};
pub use names::text_of;
pub use parts::Change;
