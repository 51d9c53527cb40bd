//! The build of a map, and maps of a WAD built, one by one: their tables, the new WAD, and the lines of the report.
#![tactic(auto)]

mod building;
mod fate;
mod hooks;
mod json;
mod laws;
mod notice;
mod outcomes;
mod report;
mod tables;
mod whole;

pub use building::{Built, build, has_sizes_of_map};
pub use exact_job::{Stage, Steps, Watcher};
pub use fate::{Fate, reject_named};
pub use hooks::Hooks;
pub use laws::{builds_have_one_table, outcomes_are_one};
pub use notice::{NoNotice, Notice};
pub use outcomes::MapOutcome;
pub use tables::MapTable;
pub use whole::{Unmade, WholeWad, build_wad, tell_unread};
