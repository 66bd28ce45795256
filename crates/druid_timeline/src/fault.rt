use std::alloc::{AllocError, AllocFailed};
use thiserror::Error;

/// Why a timeline does not take a segment, or does not give one up.
#[derive(Clone, Copy, Debug, PartialEq, Eq, Drop, Error)]
pub enum TimelineFault {
    /// L2: the segment is of another data source.
    #[error("L2: another source")]
    OtherSource,
    /// L1: the node serves that segment already.
    #[error("L1: already there")]
    AlreadyThere,
    /// L3: the node does not serve that segment.
    #[error("L3: not there")]
    NotThere,
    /// L9: memory was refused.
    #[error("L9: out of memory")]
    Memory,
}

impl From<AllocError> for TimelineFault {
    ghost use Rattle.std.specs.Prelude.{◌≡◌};
    ghost use Rattle.druid_timeline.specs.declared.fault.TimelineFault.TheVariants as faults;

    ghost from_gives = { λ _ e. e ≡ faults.Memory };

    fn from(_error: AllocError) -> TimelineFault {
        TimelineFault::Memory
    }
}

impl<T: Drop> From<AllocFailed<T>> for TimelineFault {
    ghost use Rattle.std.specs.Prelude.{◌≡◌};
    ghost use Rattle.druid_timeline.specs.declared.fault.TimelineFault.TheVariants as faults;

    ghost from_gives = { λ _ e. e ≡ faults.Memory };

    fn from(_failed: AllocFailed<T>) -> TimelineFault {
        TimelineFault::Memory
    }
}
