ghost use Rattle.std.specs.Prelude.{◌≡◌};
ghost use Rattle.druid_sync_history.specs.declared.fault.HistoryFault.TheVariants.{Memory};

use std::alloc::AllocError;
use thiserror::Error;

/// Why a node records no change.
#[derive(Clone, Copy, Debug, PartialEq, Eq, Drop, Error)]
pub enum HistoryFault {
    /// H1: a segment or a tombstone of that identifier is served.
    #[error("H1: served already")]
    Served,
    /// H2: no such segment or tombstone is served.
    #[error("H2: not served")]
    NotServed,
    /// H3: 200,000 segments and tombstones are served.
    #[error("H3: too many segments")]
    Full,
    /// H4: there were 2^64 - 1 changes.
    #[error("H4: too many changes")]
    CountAtEnd,
    /// H9: out of memory.
    #[error("H9: out of memory")]
    Memory,
}

impl From<AllocError> for HistoryFault {
    ghost from_gives = { λ _ fault. fault ≡ Memory };

    fn from(_error: AllocError) -> HistoryFault {
        HistoryFault::Memory
    }
}
