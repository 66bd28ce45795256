//! Why a run ends before the end of its input: which field of the line, or which device.
ghost use Rattle.std.specs.Prelude.{◌≡◌};
ghost use Rattle.druid_replay.specs.declared.fault.ReplayFault.TheVariants.{BadCommand, Device};
ghost use Rattle.druid_replay.specs.declared.reason.Reason.TheVariants.{Line as ForLine};

use crate::fault::ReplayFault;
use thiserror::Error;

/// A key at which the number of a broker stands.
#[derive(Clone, Copy, Debug, PartialEq, Eq, Drop, Error)]
pub enum BrokerKey {
    /// `broker`.
    #[error("broker")]
    Broker,
    /// `from`.
    #[error("from")]
    From,
    /// `into`.
    #[error("into")]
    Into,
    /// `left`.
    #[error("left")]
    Left,
    /// `right`.
    #[error("right")]
    Right,
}

/// Why a line is no command there: the first of its fields that is wrong.
#[derive(Clone, Copy, Debug, PartialEq, Eq, Drop, Error)]
pub enum BadLine {
    /// It is longer than a line may be.
    #[error("the line: more than 16777216 bytes")]
    TooLong,
    /// It is no JSON in UTF-8.
    #[error("the line: not JSON in UTF-8")]
    NotJson,
    /// It asks for another thing than brokers, and no brokers stand.
    #[error("do: not \"brokers\", which comes first")]
    NotBrokers,
    /// It asks for nothing that can be asked of brokers that stand.
    #[error("do: not \"reply\", \"lookup\", \"marks\", \"join\" or \"equal\"")]
    NoCommand,
    /// `count` is no number.
    #[error("count: not a number")]
    Count,
    /// `nodes` is no list of texts.
    #[error("nodes: not a list of texts")]
    Nodes,
    /// `count`, or how many `nodes` there are, is not within its limits.
    #[error("count, nodes: not 1 to 64 brokers over 1 to 64 nodes")]
    OutOfRange,
    /// No number stands at the key.
    #[error("{0}: not a number")]
    NoNumber(BrokerKey),
    /// The broker at the key is not there.
    #[error("{0}: not a broker that is there")]
    NoBroker(BrokerKey),
    /// `node` is no such number.
    #[error("node: not a number from 0 to 65535")]
    Node,
    /// There is no `reply`.
    #[error("reply: not there")]
    Reply,
    /// `interval` is no text.
    #[error("interval: not a text")]
    Interval,
    /// `source` is no text.
    #[error("source: not a text")]
    Source,
}

/// What ended a run.
#[derive(Clone, Copy, Debug, PartialEq, Eq, Drop, Error)]
pub enum Reason {
    /// A line that is no command there.
    #[error("{0}")]
    Line(BadLine),
    /// A read of standard input.
    #[error("standard input: a read failed")]
    Input,
    /// A write to standard output.
    #[error("standard output: a write failed")]
    Output,
    /// Memory, for a line, for an answer or for its text.
    #[error("out of memory")]
    Memory,
    /// There are more lines than can be counted.
    #[error("standard input: more than 18446744073709551615 lines")]
    TooManyLines,
}

/// Why a run ends before the end of its input: its fault, and what ended it.
#[derive(Clone, Copy, Debug, PartialEq, Eq, Drop)]
pub struct ReplayStop {
    /// The fault.
    pub fault: ReplayFault,
    /// What ended it.
    pub reason: Reason,
}

impl ReplayStop {
    // The end at a bad line.
    pub(crate) fn bad(line: u64, bad: BadLine) -> ReplayStop
        ensures fault { result.fault ≡ BadCommand line }
        ensures reason { result.reason ≡ ForLine bad }
    {
        ReplayStop {
            fault: ReplayFault::BadCommand(line),
            reason: Reason::Line(bad),
        }
    }

    // The end at a line where a device failed.
    pub(crate) fn device(line: u64, reason: Reason) -> ReplayStop
        ensures { result.fault ≡ Device line }
    {
        ReplayStop {
            fault: ReplayFault::Device(line),
            reason,
        }
    }
}
