//! How the program ends.
ghost use Rattle.std.specs.Prelude.{◌≡◌};
ghost use Rattle.druid_program.specs.Exits.{status_of, exit_of_replay, exit_of_serve};

use druid_replay::ReplayFault;
use druid_serve_base::ServeFault;
use std::io;

/// How the program ends.
#[derive(Clone, Copy, Debug, PartialEq, Eq, Drop)]
pub enum Exit {
    /// All was done.
    Done,
    /// What was handed in is refused.
    Refused,
    /// The words ask for nothing that the program does.
    Usage,
    /// A device failed, or memory ran out.
    Device,
}

impl Exit {
    /// The exit status: 0, 1, 2 or 3, in the order above.
    pub fn status(self) -> u8
        ensures { result ≡ status_of self }
    {
        match self {
            Exit::Done => 0,
            Exit::Refused => 1,
            Exit::Usage => 2,
            Exit::Device => 3,
        }
    }
}

impl From<ReplayFault> for Exit {
    ghost from_gives = { λ fault exit. exit ≡ exit_of_replay fault };

    fn from(fault: ReplayFault) -> Exit {
        match fault {
            ReplayFault::BadCommand(_) => Exit::Refused,
            ReplayFault::Device(_) => Exit::Device,
        }
    }
}

impl From<ServeFault> for Exit {
    ghost from_gives = { λ fault exit. exit ≡ exit_of_serve fault };

    fn from(fault: ServeFault) -> Exit {
        match fault {
            ServeFault::BadConfig | ServeFault::BadFolder => Exit::Refused,
            ServeFault::Device => Exit::Device,
        }
    }
}

/// How a run of the program ends.
#[derive(Drop)]
pub struct Ending {
    /// The exit status.
    pub status: u8,
    /// Whether standard error took the lines that say why.
    pub reported: io::Result<()>,
}
