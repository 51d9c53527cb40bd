//! Segments between points, and the segments at each point: its neighbours, and the first of them on either side of a way.

mod incident;
mod neighbours;
mod segments;

pub use incident::IncidentSegments;
pub use neighbours::{are_joined, first_left, first_right, next_left, next_right};
pub use segments::{Segment, Segments};
