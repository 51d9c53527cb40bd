//! Gates of a map, what a flood over gates finds beyond one, and trees whose walks ask no gate behind which nothing is
//! left to find: why certificates of such trees, in which no pair is listed, tell all of sight.
//!
//! A law is the contract of a function with an empty body: whoever wants it in a proof calls nothing, and cites the
//! lemma that proves it.
#![tactic(auto)]

pub mod gate_masks;
pub mod laws;
pub mod row_judge;
