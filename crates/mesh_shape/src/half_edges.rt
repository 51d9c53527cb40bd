//! What lies on the directed edges of triangles: the half-edges of a mesh, as one who walks through it enters them.

mod kinds;
mod table;

pub use kinds::EdgeKind;
pub use table::{HalfEdge, HalfEdges};
