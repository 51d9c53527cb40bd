//! The greedy triangulation of a map: the empty triangles between its greedy segments.
#![tactic(auto)]

pub mod greedy_segments;
pub mod group_laws;
pub mod incident_segments;
pub mod laws;
mod triangles;

pub use crate::greedy_segments::{Alone, InThreads, SegmentWorkers, greedy};
pub use crate::incident_segments::{Segment, Segments};
pub use laws::mesh_laws;
pub use triangles::{greedy_mesh, greedy_mesh_by};
