//! What a walk by a row made.

use block_evidence::sight_tree::Nodes;
use pair_budget::Reached;

/// The nodes that were answered before anything was found, and each wanted sector that the walk came to, with a sight ray.
#[derive(Drop)]
pub struct Made {
    pub nodes: Nodes,
    pub found: Vec<Reached>,
}
