//! The greedy segments of a map: its lines, then all pairs of points by length whose segments meet no kept segment but at an
//! end of both.

mod clear;
mod extents;
mod parts;
mod rounds;
mod saturated;
mod searched;
mod workers;

pub use rounds::{greedy, greedy_by};
pub use workers::{Alone, InThreads, SegmentWorkers};
