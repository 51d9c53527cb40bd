//! The parts of a certificate.

use block_evidence::sight_tree::Node;
use cert_format::Labelled;
use sight_names::{Pair, PairRay};

/// A part of a certificate, as a reader meets it: behind the head of a tree come so many nodes of it.
#[derive(Clone, Copy, PartialEq, Eq)]
pub enum Part {
    Triangle(Labelled),
    Ray(PairRay),
    Listed(Pair),
    Tree { source: u16, nodes: u64 },
    Node(Node),
}
