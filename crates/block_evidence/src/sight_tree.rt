//! The trees of walks: for each sequence that a walk came to an open node, or the ends that block it.

mod nodes;

use crate::Evidence;
pub use nodes::{Nodes, NodesIter};

/// What a walk found of one sequence.
#[derive(Clone, Copy, PartialEq, Eq)]
pub enum Node {
    Open,
    Blocked(Evidence),
}

/// A source, and the nodes of its walk in order.
#[derive(Drop)]
pub struct Tree {
    pub source: u16,
    pub nodes: Nodes,
}
