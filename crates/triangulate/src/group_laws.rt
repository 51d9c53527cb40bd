//! The laws of groups of sectors, where a face may have several names.
//!
//! A law is the contract of a function with an empty body: whoever wants it in a proof calls nothing, and cites the
//! lemma that proves it.

pub mod laws;
