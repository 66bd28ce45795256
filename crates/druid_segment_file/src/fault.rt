//! Why a segment was not read, or not written.
ghost use Rattle.std.specs.Prelude.{◌≡◌};
ghost use Rattle.druid_segment_file.specs.declared.fault.FileFault.TheVariants.{Memory};

use std::alloc::{AllocError, AllocFailed};
use thiserror::Error;

/// Why a segment was not read, or not written.
#[derive(Clone, Copy, Debug, PartialEq, Eq, Drop, Error)]
pub enum FileFault {
    /// F1: the file begins with neither `DSG1` nor `DSG2`.
    #[error("F1: not a segment file")]
    Magic,
    /// F2: the file ends inside a part.
    #[error("F2: a cut file")]
    Cut,
    /// F3: a part breaks a rule.
    #[error("F3: a bad field")]
    Field,
    /// F4: a row lies outside the interval of the segment.
    #[error("F4: a row outside the interval")]
    RowOutside,
    /// F5: a count or a length passes its limit, or more bytes are needed than a file may have.
    #[error("F5: too long")]
    TooLong,
    /// F6: a byte follows the last part.
    #[error("F6: bytes after the last row")]
    Trailing,
    /// F7: the reader failed.
    #[error("F7: a read failed")]
    Read,
    /// F8: the writer failed.
    #[error("F8: a write failed")]
    Write,
    /// F9: out of memory.
    #[error("F9: out of memory")]
    Memory,
}

impl From<AllocError> for FileFault {
    ghost from_gives = { λ _ fault. fault ≡ Memory };

    fn from(_error: AllocError) -> FileFault {
        FileFault::Memory
    }
}

impl<T: Drop> From<AllocFailed<T>> for FileFault {
    ghost from_gives = { λ _ fault. fault ≡ Memory };

    fn from(_error: AllocFailed<T>) -> FileFault {
        FileFault::Memory
    }
}
