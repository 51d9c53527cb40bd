//! The REJECT that each map of a WAD has, beside the table in which a bit is set exactly where two sectors don't see each other.
#![tactic(auto)]

mod json;
mod judging;
pub mod map_list;
mod map_verdict;
mod own;
mod report;
mod sight_of_pair;
mod tally;
mod verdict;
mod verifying;

pub use tally::{Tally, all_right, line_of};
pub use verdict::{Findings, FirstWrong, MapVerdict, Shown, Verdict};
pub use verifying::{WadVerdict, verify_wad};
