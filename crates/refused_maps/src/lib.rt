//! What is done where a map of a WAD is refused.
#![tactic(auto)]

/// What is done where a map gets no table.
#[derive(Clone, Copy, PartialEq, Eq)]
pub enum Refused {
    /// It keeps its REJECT.
    Keep,
    /// It gets a REJECT in which no bit is set, where its sectors can be counted; else it keeps its own.
    Clear,
    /// Nothing is written.
    Stop,
}
