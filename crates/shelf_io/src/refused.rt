//! Want of memory as calls of the system tell it.

ghost use Rattle.std.specs.Prelude.{◌≡◌, ◌≢◌, MatchOption};
ghost use Rattle.std.specs.IoError.{error_kind};
ghost use Rattle.std.specs.declared.io.ErrorKind.TheVariants.{OutOfMemory};

use sight_names::Memory;
use std::alloc::AllocError;
use std::io::{self, ErrorKind};

/// Want of memory, where that is why a call of the system failed. Of what was refused the error keeps its kind alone, so here a
/// refusal is made of the system's word.
pub fn memory_in(error: &io::Error) -> Option<Memory>
    ensures { MatchOption result (error_kind error.now ≢ OutOfMemory) (λ _. error_kind error.now ≡ OutOfMemory) }
{
    match error.kind() {
        ErrorKind::OutOfMemory => Some(AllocError.into()),
        _ => None,
    }
}
