//! A REJECT table judged by a certificate of any version: by the whole certificate, or by its bytes in pieces.
#![tactic(auto)]

pub mod cert_file;
mod course;
mod exact_judge;
mod judge;
mod opening;
mod versed;
mod whole;

pub use judge::Judge;
pub use whole::{check, check_par};
