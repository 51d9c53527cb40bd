//! The build of a map with closed faces that decides every pair, and lists none.
//!
//! A first walk of all groups finds rays, by what is known so far of what each group sees; each of them is judged. Then each
//! group is walked with what it owns of the pairs that have no ray: where none of these walks finds anything, their nodes show
//! that no such pair sees.
#![tactic(auto)]

mod build;
mod settling;
mod table;
mod trees;
mod walk_tasks;
mod walkers;

pub use build::{ExactBuilt, build_exact, build_exact_alone};
pub use task_crew::{Stage, Steps, Watcher};
