//! Want of memory as clap tells it.

ghost use Rattle.std.specs.Prelude.{◌≢◌, ◌≡◌, MatchOption};
ghost use Rattle.clap.specs.Values.{kind_of};
ghost use Rattle.clap.specs.declared.error.kind.ErrorKind.TheVariants.{OutOfMemory};

use clap::Error;
use clap::error::ErrorKind;
use sight_names::Memory;
use std::alloc::AllocError;

/// Want of memory, where that is why a parse failed. Of what was refused clap's error keeps its kind alone, so here a refusal
/// is made of clap's word.
pub fn memory_in(error: &Error) -> Option<Memory>
    ensures { MatchOption result (kind_of error.now ≢ OutOfMemory) (λ _. kind_of error.now ≡ OutOfMemory) }
{
    match error.kind() {
        ErrorKind::OutOfMemory => Some(AllocError.into()),
        _ => None,
    }
}
