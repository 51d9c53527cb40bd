//! A walk of a source by a row of what is wanted: behind a gate the row is thinned out by the gate's mask, and a way
//! behind which nothing would be left isn't walked. It ends with a ray for each wanted sector that it came to; where it came to
//! none, its nodes are a tree that a judge of rows accepts.
#![tactic(auto)]

mod finding;
mod made;
mod path;
mod rows;
mod walk;

pub use made::Made;
pub use walk::{Walk, walk_by_row};
