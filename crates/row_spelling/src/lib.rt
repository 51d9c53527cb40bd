//! How the rows of a report are spelled: each as a line of words, or as a line that is a JSON object.
#![tactic(auto)]

mod quoted;

pub use quoted::push_quoted;

/// How each row of a report is spelled.
#[derive(Clone, Copy, PartialEq, Eq)]
pub enum Spelling {
    /// As a line of words.
    Text,
    /// As a line that is a JSON object (RFC 8259).
    Json,
}
