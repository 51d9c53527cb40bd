//! Made maps: a square of rooms joined by corridors.
#![tactic(auto)]

mod lines;
mod lumps;
mod maker;
mod points;

pub use maker::grid;
