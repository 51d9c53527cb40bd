//! The certificate of version 3.

use block_evidence::sight_tree::Nodes;
use cert_format::cert_groups::Group;
use cert_format::{Labelled, Sizes};
use sight_names::{Items, PairRay};

/// A certificate for a map of these sizes: groups of sectors, triangles labelled with groups, rays for pairs of groups, and
/// the nodes of each group's tree, kept as the certificate spells them.
#[derive(Drop)]
pub struct ExactParts {
    pub sizes: Sizes,
    pub groups: Items<Group>,
    pub triangles: Items<Labelled>,
    pub rays: Items<PairRay>,
    pub trees: Items<Nodes>,
}

/// How many groups, triangles and rays there are.
#[derive(Clone, Copy)]
pub struct CountsThree {
    pub groups: u16,
    pub triangles: u32,
    pub rays: u32,
}
