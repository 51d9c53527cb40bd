//! The bytes of a certificate: a header, labelled triangles, rays, listed pairs and trees, each certificate in one
//! spelling.
#![tactic(auto)]

mod cert;
pub mod cert_groups;
pub mod fields;
mod laws;
mod limit;
pub mod pieces;
pub mod ranges;
pub mod reading;
pub mod records;
pub mod spelled;
mod writing;

pub use cert::{Cert, Counts, Labelled, Sizes};
pub use laws::one_spelling;
pub use limit::most_triangles;
pub use pieces::Printer;
pub use writing::print;
