//! The portal sequences of a source that a line passes through, one by one in order: by root, then depth first, the
//! left way first.
#![tactic(auto)]

mod ahead;
pub mod enough_budget;
mod path;
mod roots;
mod scene;
mod step;
mod terrain;
mod walk;
mod walker;

pub use step::{Step, Went};
pub use terrain::Terrain;
pub use walker::Walker;
