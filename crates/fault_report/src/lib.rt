//! The report of every fault of a map, each at its place: a line a fault, in plain words.
#![tactic(auto)]

mod clashes;
mod faces;
mod kinds;
mod lines;
mod objects;
mod report;
mod slips;
mod words;

pub use clashes::Clash;
pub use kinds::MOST_LINES;
pub use report::report_of_faults;
pub use slips::{Nameless, Sideless};
