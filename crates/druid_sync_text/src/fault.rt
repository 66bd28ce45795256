//! Why bytes are no reply, and a query string no ask.
ghost use Rattle.std.specs.Prelude.{◌≡◌};
ghost use Rattle.druid_sync_text.specs.FirstFault.{of_reply};

use druid_segment_descriptor::ReplyFault;
use thiserror::Error;

/// Why bytes are no reply of a data node.
#[derive(Clone, Copy, Debug, PartialEq, Eq, Drop, Error)]
pub enum SyncFault {
    /// Y1: no JSON in UTF-8.
    #[error("Y1: not JSON")]
    NotJson,
    /// Y2: JSON that has not the form of a reply.
    #[error("Y2: not a reply")]
    Shape,
    /// Y5: a snapshot of more than 200,000 segments, a page of more than 20,000, or a delta of more than 1,000 changes.
    #[error("Y5: too many segments or changes")]
    TooMany,
    /// Y3: a delta whose marks are not as far apart as it has changes.
    #[error("Y3: a delta of another length")]
    LengthOfDelta,
    /// Y4: an identifier stands twice in a snapshot.
    #[error("Y4: a doubled segment")]
    DoubledSegment,
    /// Y7: no page of 2 to 10, whose segments rise, and of which all but the last are full.
    #[error("Y7: a bad page")]
    BadPage,
    /// Y9: out of memory.
    #[error("Y9: out of memory")]
    Memory,
}

impl From<ReplyFault> for SyncFault {
    ghost from_gives = { λ fault answered. answered ≡ of_reply fault };

    fn from(fault: ReplyFault) -> SyncFault {
        match fault {
            ReplyFault::TooMany => SyncFault::TooMany,
            ReplyFault::LengthOfDelta => SyncFault::LengthOfDelta,
            ReplyFault::DoubledSegment => SyncFault::DoubledSegment,
            ReplyFault::BadPage => SyncFault::BadPage,
            ReplyFault::Memory => SyncFault::Memory,
        }
    }
}

/// Why a query string is no ask.
#[derive(Clone, Copy, Debug, PartialEq, Eq, Drop, Error)]
pub enum AskFault {
    /// Y6: `counter` and `hash` tell no mark, or `page` no page.
    #[error("Y6: not a mark")]
    BadCounter,
}
