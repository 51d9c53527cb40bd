//! A WAD written anew with another REJECT.

mod laws;
mod lumps;
mod rewrite;

pub use laws::rewritten_is_read;
pub use lumps::OutputLump;
pub use rewrite::{lumps_of, reject_lump, with_reject, write_wad};
