//! Calls of a device that were interrupted.
ghost use Rattle.std.specs.Prelude.{◌≡◌, ◌↔◌, IsTrue};
ghost use Rattle.std.specs.IoError.{error_kind};

use std::io::{Error, ErrorKind};

/// How often a call that is interrupted each time is made, one time after another, before it counts as failed.
pub const MAX_TRIES: u32 = 1_000;

/// Whether the call may be retried.
pub fn is_interrupted(error: &Error) -> bool
    ensures { IsTrue result ↔ (error_kind error.now ≡ ErrorKind.Interrupted) }
{
    error.kind() == ErrorKind::Interrupted
}
