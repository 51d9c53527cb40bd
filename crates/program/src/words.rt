//! The words behind the program's name.

use shelf_io::memory_in;
use sight_names::Memory;
use std::alloc::AllocError;
use std::env::{self, Env};

/// Why there are no words.
#[derive(Clone, Copy)]
pub enum NoWords {
    /// One of them isn't UTF-8.
    NotText,
    Memory(Memory),
}

impl From<AllocError> for NoWords {
    fn from(refused: AllocError) -> NoWords {
        NoWords::Memory(refused.into())
    }
}

/// The words behind the program's name.
pub fn words_of(rt: &(impl Env + AllocGlobal)) -> Result<Vec<String>, NoWords> {
    match env::args(rt) {
        Ok(args) => Ok(args.skip(1).collect(rt.alloc())?),
        Err(fault) => match memory_in(&fault) {
            Some(memory) => Err(NoWords::Memory(memory)),
            None => Err(NoWords::NotText),
        },
    }
}
