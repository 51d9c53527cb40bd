//! The parts of a certificate of version 3.

use block_evidence::sight_tree::Node;
use cert_format::Labelled;
use sight_names::PairRay;

/// A part of a certificate of version 3, as a reader meets it. How many bytes a tree takes is for the reader alone. Trees have
/// no head: a node says of which group's tree it is.
#[derive(Clone, Copy)]
pub enum Part {
    Triangle(Labelled),
    Ray(PairRay),
    Length,
    Node { source: usize, node: Node },
}
