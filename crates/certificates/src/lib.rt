//! Certificates of all versions: those that list pairs, of version 1 and 2, and those that list none, of version 3.
#![tactic(auto)]

pub mod cert_exact;
pub mod cert_parts;
mod certificate;
pub mod exact_parts;
mod printer;
mod reading;

pub use certificate::Certificate;
pub use printer::Printer;
pub use reading::{read, read_any};
