//! What happens in a cluster, and is logged.
ghost use Rattle.std.specs.Prelude.{◌≡◌};
ghost use Rattle.druid_telemetry_log.specs.Events.{level_of};

use crate::level::Level;
use druid_segment_descriptor::Mark;

/// What happened.
#[derive(Clone, Copy, Drop)]
pub enum Event<'a> {
    /// A node loaded the segment of a file.
    Loaded {
        /// The file's name.
        file: &'a str,
    },
    /// A node dropped the segment of a file that is gone.
    Dropped {
        /// The file's name.
        file: &'a str,
    },
    /// A node refused a file.
    Refused {
        /// The file's name.
        file: &'a str,
        /// The fault, such as `N2: F4`.
        code: &'a str,
    },
    /// A turn of a broker with a node failed, and the one before had not.
    Lost {
        /// The node's name.
        node: &'a str,
        /// The fault, such as `K1: X8`.
        code: &'a str,
    },
    /// A turn of a broker with a node did not fail, after some that had.
    Found {
        /// The node's name.
        node: &'a str,
        /// How many turns had failed.
        failed: u64,
    },
    /// A node shows a mark that is below the one that a broker holds of it.
    Fell {
        /// The node's name.
        node: &'a str,
        /// The mark that the broker holds.
        held: Mark,
        /// The mark that the node shows.
        shown: Mark,
    },
    /// Exchanges of a broker with a node met a limit of 16 MiB.
    Oversize {
        /// The node's name.
        node: &'a str,
        /// `TooLarge` where the node's answer did, `X7` where the question did.
        code: &'a str,
        /// How many, since this was logged last.
        exchanges: u64,
    },
    /// A connection ended.
    Answered {
        /// The name of its route.
        route: &'a str,
        /// The status that was written, 0 where none was.
        status: u16,
        /// The milliseconds that it took.
        milliseconds: u64,
        /// The bytes that were written.
        bytes: u64,
    },
    /// Lines were lost, since the queue was full or memory ran out.
    Missed {
        /// How many.
        lines: u64,
    },
}

impl Event<'_> {
    /// From which level on it is logged.
    pub fn level(&self) -> Level
        ensures { result ≡ level_of self.now }
    {
        match self {
            Event::Loaded { .. } => Level::Info,
            Event::Dropped { .. } => Level::Info,
            Event::Refused { .. } => Level::Info,
            Event::Lost { .. } => Level::Info,
            Event::Found { .. } => Level::Info,
            Event::Fell { .. } => Level::Info,
            Event::Oversize { .. } => Level::Info,
            Event::Answered { .. } => Level::Debug,
            Event::Missed { .. } => Level::Info,
        }
    }
}
