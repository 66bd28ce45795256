//! Why a message was not read or not written.
ghost use Rattle.std.specs.Prelude.{◌≡◌};
ghost use Rattle.druid_http_message.specs.declared.fault.WireFault.TheVariants.{Memory};

use std::alloc::{AllocError, AllocFailed};
use thiserror::Error;

/// Why a message was not read or not written.
#[derive(Clone, Copy, Debug, PartialEq, Eq, Drop, Error)]
pub enum WireFault {
    /// X1: the input ends before the head or the body is whole.
    #[error("X1: the message is cut off")]
    Cut,
    /// X2: the reader failed, or an exchange waited longer than it may.
    #[error("X2: the message could not be read")]
    Read,
    /// X3: the writer failed.
    #[error("X3: the message could not be written")]
    Write,
    /// X4: no head of a message.
    #[error("X4: not a head of a message")]
    BadHead,
    /// X5: a head that passes a limit.
    #[error("X5: the head is too long")]
    HeadTooLong,
    /// X6: the length of the body is not said.
    #[error("X6: no length of the body")]
    NoLength,
    /// X7: a body that passes the limit.
    #[error("X7: the body is too long")]
    BodyTooLong,
    /// X8: no connection.
    #[error("X8: no connection")]
    Connect,
    /// X9: out of memory.
    #[error("X9: out of memory")]
    Memory,
}

impl From<AllocError> for WireFault {
    ghost from_gives = { λ _ fault. fault ≡ Memory };

    fn from(_error: AllocError) -> WireFault {
        WireFault::Memory
    }
}

impl<T: Drop> From<AllocFailed<T>> for WireFault {
    ghost from_gives = { λ _ fault. fault ≡ Memory };

    fn from(_error: AllocFailed<T>) -> WireFault {
        WireFault::Memory
    }
}
