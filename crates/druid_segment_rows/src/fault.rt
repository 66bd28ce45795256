ghost use Rattle.std.specs.Prelude.{◌≡◌};
ghost use Rattle.druid_segment_rows.specs.declared.fault.RowFault.TheVariants.{Memory};

use std::alloc::{AllocError, AllocFailed};
use thiserror::Error;

/// Why a descriptor, a schema and rows make no segment.
#[derive(Clone, Copy, Debug, PartialEq, Eq, Drop, Error)]
pub enum RowFault {
    /// U5: the descriptor is a tombstone, which has no rows.
    #[error("U5: a tombstone")]
    Tombstone,
    /// U1: a name of the schema is no field name, or stands twice.
    #[error("U1: a bad schema")]
    BadSchema,
    /// U4: there are too many dimensions, metrics or rows, a value is too long, or the whole text is.
    #[error("U4: too long")]
    TooLong,
    /// U3: a row has another number of values than the schema has fields.
    #[error("U3: a row of another shape")]
    RowShape,
    /// U2: a row lies outside the interval of the segment.
    #[error("U2: a row outside the interval")]
    RowOutside,
    /// U9: out of memory.
    #[error("U9: out of memory")]
    Memory,
}

impl From<AllocError> for RowFault {
    ghost from_gives = { λ _ fault. fault ≡ Memory };

    fn from(_error: AllocError) -> RowFault {
        RowFault::Memory
    }
}

impl<T: Drop> From<AllocFailed<T>> for RowFault {
    ghost from_gives = { λ _ fault. fault ≡ Memory };

    fn from(_error: AllocFailed<T>) -> RowFault {
        RowFault::Memory
    }
}
