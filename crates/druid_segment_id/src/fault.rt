ghost use Rattle.std.specs.Prelude.{◌≡◌};
ghost use Rattle.druid_segment_id.specs.declared.fault.IdFault.TheVariants.{Memory};

use std::alloc::AllocError;
use thiserror::Error;

/// Why a text is no name, no version or no identifier.
#[derive(Clone, Copy, Debug, PartialEq, Eq, Drop, Error)]
pub enum IdFault {
    /// I1: no name of a data source.
    #[error("I1: not a name")]
    BadName,
    /// I2: no version.
    #[error("I2: not a version")]
    BadVersion,
    /// I3: the text does not begin with the source and `_`.
    #[error("I3: another source")]
    OtherSource,
    /// I4: what follows the source has not the parts of an identifier.
    #[error("I4: not the parts of an identifier")]
    BadParts,
    /// I5: no start, no end, or the start is not before the end.
    #[error("I5: not an interval")]
    BadInterval,
    /// I6: no partition number.
    #[error("I6: not a partition number")]
    BadPartition,
    /// I9: out of memory.
    #[error("I9: out of memory")]
    Memory,
}

impl From<AllocError> for IdFault {
    ghost from_gives = { λ _ fault. fault ≡ Memory };

    fn from(_error: AllocError) -> IdFault {
        IdFault::Memory
    }
}
