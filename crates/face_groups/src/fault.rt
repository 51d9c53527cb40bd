//! Why a map has no groups.

ghost use Rattle.std.specs.Prelude.{◌≡◌};
ghost use Rattle.face_groups.specs.declared.fault.GroupFault.TheVariants.{Memory as NoRoomForGroups};

use sight_names::{Memory, Side};
use std::alloc::{AllocError, AllocFailed};

/// Why the faces of a map have no groups.
#[derive(Clone, Copy, Debug, thiserror::Error)]
pub enum GroupFault {
    #[error("open {side}")]
    Open { side: Side },
    #[error("memory")]
    Memory(Memory),
}

impl From<AllocError> for GroupFault {
    ghost from_gives = { λ _ e. e ≡ NoRoomForGroups tt };

    fn from(refused: AllocError) -> Self {
        GroupFault::Memory(refused.into())
    }
}

impl<T: Drop> From<AllocFailed<T>> for GroupFault {
    ghost from_gives = { λ _ e. e ≡ NoRoomForGroups tt };

    fn from(refused: AllocFailed<T>) -> Self {
        GroupFault::Memory(refused.into())
    }
}

impl From<Memory> for GroupFault {
    ghost from_gives = { λ _ e. e ≡ NoRoomForGroups tt };

    fn from(memory: Memory) -> Self {
        GroupFault::Memory(memory)
    }
}
