//! The triangles of a map, each with its sector or with none.

use mesh_shape::{Labels, Mesh};

/// The mesh of a map, and the sector of each of its triangles.
#[derive(Drop)]
pub struct Faces {
    pub mesh: Mesh,
    pub labels: Labels,
}
