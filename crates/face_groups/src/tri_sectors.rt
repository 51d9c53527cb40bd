//! The sectors of a mesh's triangles, and which sectors passable lines connect.

mod classes;
mod connected;
pub mod faces;
mod labelling;
pub mod sides;

pub use connected::components;
pub use labelling::{label, labels_of};
