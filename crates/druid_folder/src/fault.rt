ghost use Rattle.std.specs.Prelude.{◌≡◌};
ghost use Rattle.druid_folder.specs.declared.fault.StoreFault.TheVariants.{Memory};

use std::alloc::{AllocError, AllocFailed};
use thiserror::Error;

/// Why a call on a folder gave no answer.
#[derive(Clone, Copy, Debug, PartialEq, Eq, Drop, Error)]
pub enum StoreFault {
    /// O1: the device failed.
    #[error("O1: the device failed")]
    Device,
    /// O2: the file of the incarnation has no number.
    #[error("O2: a bad incarnation number")]
    BadNumber,
    /// O3: there is no number after the last one, 2^64 - 1.
    #[error("O3: the last incarnation number")]
    AtEnd,
    /// O4: no file can have the name.
    #[error("O4: no name of a file")]
    BadName,
    /// O9: out of memory.
    #[error("O9: out of memory")]
    Memory,
}

impl From<AllocError> for StoreFault {
    ghost from_gives = { λ _ e. e ≡ Memory };

    fn from(_: AllocError) -> StoreFault {
        StoreFault::Memory
    }
}

impl<T: Drop> From<AllocFailed<T>> for StoreFault {
    ghost from_gives = { λ _ e. e ≡ Memory };

    fn from(_: AllocFailed<T>) -> StoreFault {
        StoreFault::Memory
    }
}
