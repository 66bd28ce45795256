ghost use Rattle.std.specs.Prelude.{◌≡◌};
ghost use Rattle.druid_broker_scatter.specs.declared.fault.GatherFault.TheVariants.{Memory};

use std::alloc::{AllocError, AllocFailed};
use thiserror::Error;

/// Why a query was not planned, or not gathered.
#[derive(Clone, Copy, Debug, PartialEq, Eq, Drop, Error)]
pub enum GatherFault {
    /// G9: out of memory.
    #[error("G9: out of memory")]
    Memory,
}

impl From<AllocError> for GatherFault {
    ghost from_gives = { λ _ fault. fault ≡ Memory };

    fn from(_error: AllocError) -> GatherFault {
        GatherFault::Memory
    }
}

impl<T: Drop> From<AllocFailed<T>> for GatherFault {
    ghost from_gives = { λ _ fault. fault ≡ Memory };

    fn from(_error: AllocFailed<T>) -> GatherFault {
        GatherFault::Memory
    }
}
