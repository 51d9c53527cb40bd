//! The parts of a certificate, one by one, from bytes in pieces of any cut. Nothing here takes memory but the groups of
//! version 2, which come before the parts.

mod awaited;
mod beginning;
mod gathered;
mod kept;
mod part;
mod reader;
mod records;

pub use beginning::{Beginning, beginning_of};
pub(crate) use gathered::{Gathered, gather};
pub use part::Part;
pub use reader::Reader;
pub use records::{node_of, pass_nodes, usual_node};
