//! Listeners of a build: they hear what is found of each pair of sectors, and write reports of it.
#![tactic(auto)]

mod finding;
mod first_set;
mod lines;
mod listener;
pub mod pair_findings;
mod report;
mod telling;
mod totals;
mod words;

pub use finding::{Finding, Keep, Kind};
pub use first_set::FirstSet;
pub use lines::Lines;
pub use listener::Listener;
pub use report::{pieces, words_of};
pub use telling::tell;
pub use totals::Totals;
