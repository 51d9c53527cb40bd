//! Which triangles of a good mesh sight out of some sources enters, and at which segments it ends.

mod entered;
pub mod laws;
mod marks;
mod stops;
mod walks;

pub use entered::{Entered, entered_out_of};
