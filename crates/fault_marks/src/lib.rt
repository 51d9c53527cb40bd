//! What a picture of a map's faults marks: its clashes, or where lines don't clash its open faces.
#![tactic(auto)]

mod arrows;
mod marks;

pub use marks::{FaultMarks, marks_of_clashes, marks_of_open_faces};
