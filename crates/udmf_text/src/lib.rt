//! What a text of UDMF spells.
#![tactic(auto)]

pub mod laws;
mod parts;
pub mod text_numbers;
pub mod text_tokens;

pub use parts::{Found, Given, Part, Stage, next_part};
