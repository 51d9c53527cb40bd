//! Lemmas on points, segments, paths and sight over the definitions of sight_names, and the laws that the definitions obey.
//!
//! A law is the contract of a function with an empty body: whoever wants it in a proof calls nothing, and cites the
//! lemma that proves it.

pub mod laws;
pub mod worked;
