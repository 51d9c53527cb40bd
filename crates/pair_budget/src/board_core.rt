//! The machine of a board as one thread sees it: each event is one step on one word.

mod engine;
mod event;
mod laws;
mod worker_log;

pub use engine::Core;
pub use event::{Event, Reply};
pub use laws::{hands_out_once, looks_grow, looks_truly, marks_truly};
