//! Where a noise passes from sector to sector.
#![tactic(auto)]

mod count;
mod doors;
mod flags;
mod path;
mod search;
mod state;

pub use count::{Heard, count_heard};
pub use flags::dampers;
pub use path::noise;
