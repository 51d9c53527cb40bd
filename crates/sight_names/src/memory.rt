//! A refused allocation becomes the answer `Memory` of each call that takes memory, so that `?` passes it on.

ghost use Rattle.std.specs.Prelude.{◌≡◌};
ghost use Rattle.sight_names.specs.declared.faults.BuildFault.TheVariants.{Memory as NoRoomToBuild};
ghost use Rattle.sight_names.specs.declared.faults.CertFault.TheVariants.{Memory as NoRoomForCert};
ghost use Rattle.sight_names.specs.declared.faults.FetchFault.TheVariants.{Memory as NoRoomForFile};
ghost use Rattle.sight_names.specs.declared.faults.LabelFault.TheVariants.{Memory as NoRoomForLabels};
ghost use Rattle.sight_names.specs.declared.faults.LumpFault.TheVariants.{Memory as NoRoomForPlan};
ghost use Rattle.sight_names.specs.declared.faults.OrderFault.TheVariants.{Memory as NoRoomForOrder};
ghost use Rattle.sight_names.specs.declared.faults.RewriteFault.TheVariants.{Memory as NoRoomToRewrite};
ghost use Rattle.sight_names.specs.declared.faults.TableFault.TheVariants.{Memory as NoRoomForTable};
ghost use Rattle.sight_names.specs.declared.faults.TraceFault.TheVariants.{Memory as NoRoomToTrace};
ghost use Rattle.sight_names.specs.declared.faults.WadFault.TheVariants.{Memory as NoRoomForWad};

use crate::faults::{
    BuildFault, CertFault, FetchFault, LabelFault, LumpFault, OrderFault, RewriteFault, TableFault,
    TraceFault, WadFault,
};
use crate::names::Memory;
use std::alloc::{AllocError, AllocFailed};

impl From<AllocError> for BuildFault {
    ghost from_gives = { λ _ e. e ≡ NoRoomToBuild tt };

    fn from(refused: AllocError) -> Self {
        BuildFault::Memory(refused.into())
    }
}

impl<T: Drop> From<AllocFailed<T>> for BuildFault {
    ghost from_gives = { λ _ e. e ≡ NoRoomToBuild tt };

    fn from(refused: AllocFailed<T>) -> Self {
        BuildFault::Memory(refused.into())
    }
}

impl From<Memory> for BuildFault {
    ghost from_gives = { λ _ e. e ≡ NoRoomToBuild tt };

    fn from(memory: Memory) -> Self {
        BuildFault::Memory(memory)
    }
}

impl From<AllocError> for CertFault {
    ghost from_gives = { λ _ e. e ≡ NoRoomForCert tt };

    fn from(refused: AllocError) -> Self {
        CertFault::Memory(refused.into())
    }
}

impl<T: Drop> From<AllocFailed<T>> for CertFault {
    ghost from_gives = { λ _ e. e ≡ NoRoomForCert tt };

    fn from(refused: AllocFailed<T>) -> Self {
        CertFault::Memory(refused.into())
    }
}

impl From<Memory> for CertFault {
    ghost from_gives = { λ _ e. e ≡ NoRoomForCert tt };

    fn from(memory: Memory) -> Self {
        CertFault::Memory(memory)
    }
}

impl From<AllocError> for FetchFault {
    ghost from_gives = { λ _ e. e ≡ NoRoomForFile tt };

    fn from(refused: AllocError) -> Self {
        FetchFault::Memory(refused.into())
    }
}

impl<T: Drop> From<AllocFailed<T>> for FetchFault {
    ghost from_gives = { λ _ e. e ≡ NoRoomForFile tt };

    fn from(refused: AllocFailed<T>) -> Self {
        FetchFault::Memory(refused.into())
    }
}

impl From<Memory> for FetchFault {
    ghost from_gives = { λ _ e. e ≡ NoRoomForFile tt };

    fn from(memory: Memory) -> Self {
        FetchFault::Memory(memory)
    }
}

impl From<AllocError> for LabelFault {
    ghost from_gives = { λ _ e. e ≡ NoRoomForLabels tt };

    fn from(refused: AllocError) -> Self {
        LabelFault::Memory(refused.into())
    }
}

impl<T: Drop> From<AllocFailed<T>> for LabelFault {
    ghost from_gives = { λ _ e. e ≡ NoRoomForLabels tt };

    fn from(refused: AllocFailed<T>) -> Self {
        LabelFault::Memory(refused.into())
    }
}

impl From<Memory> for LabelFault {
    ghost from_gives = { λ _ e. e ≡ NoRoomForLabels tt };

    fn from(memory: Memory) -> Self {
        LabelFault::Memory(memory)
    }
}

impl From<AllocError> for LumpFault {
    ghost from_gives = { λ _ e. e ≡ NoRoomForPlan tt };

    fn from(refused: AllocError) -> Self {
        LumpFault::Memory(refused.into())
    }
}

impl<T: Drop> From<AllocFailed<T>> for LumpFault {
    ghost from_gives = { λ _ e. e ≡ NoRoomForPlan tt };

    fn from(refused: AllocFailed<T>) -> Self {
        LumpFault::Memory(refused.into())
    }
}

impl From<Memory> for LumpFault {
    ghost from_gives = { λ _ e. e ≡ NoRoomForPlan tt };

    fn from(memory: Memory) -> Self {
        LumpFault::Memory(memory)
    }
}

impl From<AllocError> for OrderFault {
    ghost from_gives = { λ _ e. e ≡ NoRoomForOrder tt };

    fn from(refused: AllocError) -> Self {
        OrderFault::Memory(refused.into())
    }
}

impl<T: Drop> From<AllocFailed<T>> for OrderFault {
    ghost from_gives = { λ _ e. e ≡ NoRoomForOrder tt };

    fn from(refused: AllocFailed<T>) -> Self {
        OrderFault::Memory(refused.into())
    }
}

impl From<Memory> for OrderFault {
    ghost from_gives = { λ _ e. e ≡ NoRoomForOrder tt };

    fn from(memory: Memory) -> Self {
        OrderFault::Memory(memory)
    }
}

impl From<AllocError> for RewriteFault {
    ghost from_gives = { λ _ e. e ≡ NoRoomToRewrite tt };

    fn from(refused: AllocError) -> Self {
        RewriteFault::Memory(refused.into())
    }
}

impl<T: Drop> From<AllocFailed<T>> for RewriteFault {
    ghost from_gives = { λ _ e. e ≡ NoRoomToRewrite tt };

    fn from(refused: AllocFailed<T>) -> Self {
        RewriteFault::Memory(refused.into())
    }
}

impl From<Memory> for RewriteFault {
    ghost from_gives = { λ _ e. e ≡ NoRoomToRewrite tt };

    fn from(memory: Memory) -> Self {
        RewriteFault::Memory(memory)
    }
}

impl From<AllocError> for TableFault {
    ghost from_gives = { λ _ e. e ≡ NoRoomForTable tt };

    fn from(refused: AllocError) -> Self {
        TableFault::Memory(refused.into())
    }
}

impl<T: Drop> From<AllocFailed<T>> for TableFault {
    ghost from_gives = { λ _ e. e ≡ NoRoomForTable tt };

    fn from(refused: AllocFailed<T>) -> Self {
        TableFault::Memory(refused.into())
    }
}

impl From<Memory> for TableFault {
    ghost from_gives = { λ _ e. e ≡ NoRoomForTable tt };

    fn from(memory: Memory) -> Self {
        TableFault::Memory(memory)
    }
}

impl From<AllocError> for TraceFault {
    ghost from_gives = { λ _ e. e ≡ NoRoomToTrace tt };

    fn from(refused: AllocError) -> Self {
        TraceFault::Memory(refused.into())
    }
}

impl<T: Drop> From<AllocFailed<T>> for TraceFault {
    ghost from_gives = { λ _ e. e ≡ NoRoomToTrace tt };

    fn from(refused: AllocFailed<T>) -> Self {
        TraceFault::Memory(refused.into())
    }
}

impl From<Memory> for TraceFault {
    ghost from_gives = { λ _ e. e ≡ NoRoomToTrace tt };

    fn from(memory: Memory) -> Self {
        TraceFault::Memory(memory)
    }
}

impl From<AllocError> for WadFault {
    ghost from_gives = { λ _ e. e ≡ NoRoomForWad tt };

    fn from(refused: AllocError) -> Self {
        WadFault::Memory(refused.into())
    }
}

impl<T: Drop> From<AllocFailed<T>> for WadFault {
    ghost from_gives = { λ _ e. e ≡ NoRoomForWad tt };

    fn from(refused: AllocFailed<T>) -> Self {
        WadFault::Memory(refused.into())
    }
}

impl From<Memory> for WadFault {
    ghost from_gives = { λ _ e. e ≡ NoRoomForWad tt };

    fn from(memory: Memory) -> Self {
        WadFault::Memory(memory)
    }
}
