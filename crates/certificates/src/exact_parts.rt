//! The parts of a certificate of version 3, one by one, from bytes in pieces of any cut. What takes memory here is how many
//! bytes each tree takes, the groups, which come before the parts, and the bytes of a record that is cut.

mod awaited;
mod beginning;
mod front;
mod part;
mod reader;
mod taking;
mod trees;

pub use beginning::{Beginning, beginning_of};
pub use part::Part;
pub use reader::Reader;
