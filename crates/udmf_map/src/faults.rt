//! Why a text is no map.

ghost use Rattle.std.specs.Prelude.{◌≡◌};
ghost use Rattle.udmf_map.specs.declared.faults.TextFault.TheVariants.{Memory as NoRoom};

use sight_names::Memory;
use std::alloc::{AllocError, AllocFailed};

/// Why a text is no map. A byte is counted from the front of the text, from 0.
#[derive(Clone, Copy)]
pub enum TextFault {
    /// No token begins there, or one that can't stand there; or the text ends there, and an item isn't whole.
    Text { at: usize },
    /// The first item there isn't the namespace, or another one there is; or the namespace there isn't read.
    Namespace { at: usize },
    /// The value there isn't of the kind that its key takes.
    Value { at: usize },
    TooManyVertices { count: usize },
    TooManySides { count: usize },
    /// The line may show a far place.
    Portal { line: usize },
    /// The vertex, of which a line is, isn't on the grid.
    OffGrid { vertex: usize },
    Memory(Memory),
}

impl From<AllocError> for TextFault {
    ghost from_gives = { λ _ e. e ≡ NoRoom tt };

    fn from(refused: AllocError) -> Self {
        TextFault::Memory(refused.into())
    }
}

impl<T: Drop> From<AllocFailed<T>> for TextFault {
    ghost from_gives = { λ _ e. e ≡ NoRoom tt };

    fn from(refused: AllocFailed<T>) -> Self {
        TextFault::Memory(refused.into())
    }
}
