//! Numbered tasks, done one after another or by several workers in threads. What is made of a task depends on its number alone,
//! so that nobody can tell from what is made who did which task.
#![tactic(auto)]

mod crew;
mod hand;
mod slots;
mod steps;
mod tasks;
mod told;
mod workers;

pub use crew::{in_turn, shared};
pub use steps::{Stage, Steps, Watcher, tell_end};
pub use tasks::Tasks;
pub use told::shared_told;
pub use workers::{Alone, InThreads};
