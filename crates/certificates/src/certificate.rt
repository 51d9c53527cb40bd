//! A certificate of any version.

use crate::cert_exact::ExactParts;
use cert_format::cert_groups::AnyCert;

/// A certificate of any version.
#[derive(Drop)]
pub enum Certificate {
    /// One that lists the pairs whose budgets ran out, of version 1 or 2.
    Listing(AnyCert),
    /// One in which every pair is decided, of version 3.
    Exact(ExactParts),
}
