//! Files and text as the program sees them: the traits `Shelf` and `Sink`, fakes in memory, and
//! thin adapters over std.
#![tactic(auto)]

mod begun;
mod disk;
mod memory;
mod place;
mod refused;
mod shelf;
mod transfer;

pub use disk::{DiskRefusal, DiskShelf, StdSink, is_standard_output};
pub use memory::{Fails, File, MemShelf, MemSink};
pub use refused::memory_in;
pub use shelf::{SameFault, Shelf, Sink};
pub use transfer::{fetch, store};

/// The most bytes that one read or one append moves.
pub const PIECE: usize = 65_536;
