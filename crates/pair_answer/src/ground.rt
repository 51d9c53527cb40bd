//! Over what the sources are walked.

use mesh_shape::{Labels, Mesh};
use portal_walk::Terrain;
use sight_names::{Budget, Plan};

/// A plan with its mesh, the labels of its triangles and its terrain, and the budget of each source.
#[derive(Clone, Copy)]
pub struct Ground<'a> {
    pub plan: &'a Plan,
    pub mesh: &'a Mesh,
    pub labels: &'a Labels,
    pub terrain: &'a Terrain,
    pub budget: Budget,
}
