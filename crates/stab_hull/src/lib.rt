//! Lines that split the left ends of portals strictly from the right ones.
#![tactic(auto)]

mod bars;
mod chain;
mod frame;
mod hull;
mod onward;
mod sleeve;
mod slope;
mod step;
mod track;
mod turning;

use block_evidence::Evidence;
pub use onward::Told;
pub use sleeve::Sleeve;
pub use track::Track;

/// Whether a line splits the ends and those of one more portal.
#[derive(Clone, Copy)]
pub enum Passed {
    /// One does.
    Open,
    /// None does, as two to four stuck ends show.
    Stuck(Evidence),
}
