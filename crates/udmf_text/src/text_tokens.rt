//! The tokens of a text: what stands between them, and one token from the front of a text. A text is its bytes.

mod between;
pub mod laws;
mod next;
mod token;

pub use between::{Gap, behind_gap};
pub use next::{Placed, next_token};
pub use token::{Kind, Taken, take_token};
