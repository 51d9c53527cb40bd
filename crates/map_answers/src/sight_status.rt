//! How a run ends: the status, its number, and the line that tells it.

mod status;
mod texts;

pub use status::{Bound, Flaw, Role, Status, Why, code, done_as};
pub use texts::{
    line_of, push_clash, push_count, push_count_line, push_number, push_pair_line, push_reason,
    push_text, put_line, put_refusal,
};
