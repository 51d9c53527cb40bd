//! Certificates that list no pair: version 3 of the format.
//!
//! Behind the header and the groups of sectors come triangles and rays as in version 2, then how many bytes the tree of each
//! group takes, and then the nodes of all trees. Each certificate has one spelling.

mod cert;
pub mod fields;
mod front;
mod laws;
mod printer;
mod ranges;
mod spelled;
mod tree_pieces;

pub use cert::{CountsThree, ExactParts};
pub use laws::{one_spelling, reads_what_is_spelled};
pub use printer::ExactPrinter;
