//! Why a node did not do what it was asked to.
ghost use Rattle.std.specs.Prelude.{◌≡◌};
ghost use Rattle.druid_node.specs.declared.fault.NodeFault.TheVariants.{Memory};

use druid_http_message::WireFault;
use druid_segment_descriptor::Mark;
use druid_segment_file::FileFault;
use druid_sync_history::HistoryFault;
use std::alloc::{AllocError, AllocFailed};
use thiserror::Error;

/// Why a node did not do what it was asked to.
#[derive(Clone, Copy, Debug, PartialEq, Eq, Drop, Error)]
pub enum NodeFault {
    /// N1: the device of the folder failed.
    #[error("N1: the device failed")]
    Device,
    /// N2: the bytes of the file are no segment.
    #[error("N2: {0}")]
    File(FileFault),
    /// N3: the file has another name than its segment gives it.
    #[error("N3: a segment under another name")]
    NameDiffers,
    /// N4: the history does not take the change.
    #[error("N4: {0}")]
    History(HistoryFault),
    /// N5: no request was read, or no whole response was written.
    #[error("N5: {0}")]
    Wire(WireFault),
    /// N6: the folder has no file of that name.
    #[error("N6: no such file")]
    NoFile,
    /// N7: a tombstone of another partition than 0.
    #[error("N7: a tombstone of another partition than 0")]
    NotPartitionZero,
    /// N8: its state is older than the mark that the caller has seen. It tells the state's mark.
    #[error("N8: older than what was seen")]
    Stale(Mark),
    /// N9: out of memory.
    #[error("N9: out of memory")]
    Memory,
}

impl From<AllocError> for NodeFault {
    ghost from_gives = { λ _ fault. fault ≡ Memory };

    fn from(_error: AllocError) -> NodeFault {
        NodeFault::Memory
    }
}

impl<T: Drop> From<AllocFailed<T>> for NodeFault {
    ghost from_gives = { λ _ fault. fault ≡ Memory };

    fn from(_error: AllocFailed<T>) -> NodeFault {
        NodeFault::Memory
    }
}
