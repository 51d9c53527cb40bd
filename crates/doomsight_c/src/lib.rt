//! Tables built and judged for C programs, over buffers that the caller owns. No call starts a thread or reads a file, and none
//! keeps anything but the build that a handle of the caller's owns.
#![tactic(auto)]

mod answer;
mod asked;
mod audit;
mod build;
mod check;
mod counts;
mod ears;
mod exports;
mod fault;
mod flaw;
mod handle;
mod keep;
mod keeping;
mod kept;
mod line;
mod loose;
mod lumps;
mod piece;
mod spell;
mod tell;
mod udmf;
mod why;

pub use answer::DoomsightAnswer;
pub use counts::DoomsightCounts;
pub use fault::DoomsightFault;
pub use flaw::{DoomsightFlaw, DoomsightFlawCounts};
pub use handle::DoomsightKept;
pub use keep::kept_is_given;
pub use line::faults_tell_statuses;
pub use lumps::{texts_are_near, vertices_are_as_spelled};
pub use udmf::DoomsightLumpSizes;
