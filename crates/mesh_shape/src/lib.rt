//! Triangles between the points of a map, their labels, and the first rule of a good mesh that they break.
#![tactic(auto)]

mod chains;
pub mod half_edges;
pub mod labels;
pub mod laws;
pub mod meets;
pub mod mesh;
pub mod rules;

pub use labels::Labels;
pub use laws::good_mesh_laws;
pub use meets::meet_at_ends;
pub use mesh::Mesh;
pub use rules::mesh_fault;
