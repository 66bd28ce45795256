ghost use Rattle.std.specs.Prelude.{◌≡◌, Some};
ghost use Rattle.druid_replay.specs.Faults.{line_of, fault_text};

use std::error::Error;
use std::fmt;

/// Why a run ends before the end of its input. Lines count from 1.
#[derive(Clone, Copy, Debug, PartialEq, Eq, Drop)]
pub enum ReplayFault {
    /// The line is no command there.
    BadCommand(u64),
    /// A read or a write failed, or memory ran out.
    Device(u64),
}

impl ReplayFault {
    /// The number of the line.
    pub fn line(&self) -> u64
        ensures { result ≡ line_of self.now }
    {
        match self {
            ReplayFault::BadCommand(line) | ReplayFault::Device(line) => *line,
        }
    }
}

impl fmt::Display for ReplayFault {
    ghost output = { λ fault. Some (fault_text fault) };

    fn fmt<W: fmt::Write>(&self, f: &mut fmt::Formatter<W>) -> fmt::Result {
        match *self {
            ReplayFault::BadCommand(line) => write!(f, "line {line}: bad command"),
            ReplayFault::Device(line) => write!(f, "line {line}: device"),
        }
    }
}

impl Error for ReplayFault {}
