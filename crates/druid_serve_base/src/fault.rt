//! Why a data node, or anything else of a cluster, does not start. Brokers, sockets and threads
//! fail by `DeviceFailed`, so that the start of a data node alone calls a folder bad, and the
//! reader of a config alone a config.
ghost use Rattle.std.specs.Prelude.{◌≡◌, ⊤, Some, IfSome};
ghost use Rattle.druid_serve_base.specs.Faults.{of_store, of_node, NamesFile};
ghost use Rattle.druid_serve_base.specs.declared.fault.ClusterFault.TheVariants.{Device};
ghost use Rattle.druid_serve_base.specs.declared.fault.Cause.TheVariants.{Tombstone};

use druid_folder::StoreFault;
use druid_node::NodeFault;
use std::alloc::{AllocError, AllocFailed, Global};

/// Why a cluster whose config was read is not served.
#[derive(Clone, Copy, Debug, PartialEq, Eq, Drop)]
pub enum ClusterFault {
    /// A segment file or an incarnation file is refused at the start.
    BadFolder,
    /// A device failed, or memory ran out.
    Device,
}

impl From<AllocError> for ClusterFault {
    ghost from_gives = { λ _ fault. fault ≡ Device };

    fn from(_error: AllocError) -> ClusterFault {
        ClusterFault::Device
    }
}

impl<T: Drop> From<AllocFailed<T>> for ClusterFault {
    ghost from_gives = { λ _ fault. fault ≡ Device };

    fn from(_error: AllocFailed<T>) -> ClusterFault {
        ClusterFault::Device
    }
}

impl From<DeviceFailed> for ClusterFault {
    ghost from_gives = { λ _ fault. fault ≡ Device };

    fn from(_failed: DeviceFailed) -> ClusterFault {
        ClusterFault::Device
    }
}

impl From<StoreFault> for ClusterFault {
    ghost from_gives = { λ fault reported. reported ≡ of_store fault };

    fn from(fault: StoreFault) -> ClusterFault {
        match fault {
            StoreFault::BadNumber | StoreFault::AtEnd | StoreFault::BadName =>
                ClusterFault::BadFolder,
            StoreFault::Device | StoreFault::Memory => ClusterFault::Device,
        }
    }
}

impl From<NodeFault> for ClusterFault {
    ghost from_gives = { λ fault reported. reported ≡ of_node fault };

    fn from(fault: NodeFault) -> ClusterFault {
        match fault {
            NodeFault::File(_)
            | NodeFault::NameDiffers
            | NodeFault::History(_)
            | NodeFault::NoFile
            | NodeFault::NotPartitionZero
            | NodeFault::Stale(_) => ClusterFault::BadFolder,
            NodeFault::Device | NodeFault::Wire(_) | NodeFault::Memory => ClusterFault::Device,
        }
    }
}

/// A device failed, or memory ran out: all that can keep threads and sockets from their start.
#[derive(Clone, Copy, Drop)]
pub struct DeviceFailed;

impl From<AllocError> for DeviceFailed {
    ghost from_gives = { λ _ _. ⊤ };

    fn from(_error: AllocError) -> DeviceFailed {
        DeviceFailed
    }
}

impl<T: Drop> From<AllocFailed<T>> for DeviceFailed {
    ghost from_gives = { λ _ _. ⊤ };

    fn from(_error: AllocFailed<T>) -> DeviceFailed {
        DeviceFailed
    }
}

/// What kept a data node from its start.
#[derive(Debug, Drop)]
pub enum Cause {
    /// The segment file of that name.
    File(String, NodeFault),
    /// The file that keeps the incarnation.
    Incarnation(StoreFault),
    /// The names of the folder's files.
    Names(StoreFault),
    /// The tombstone at a place of the node's list, from 0.
    Tombstone(usize, NodeFault),
    /// The folder, which another server has.
    Owner,
    /// The socket that listens.
    Listener,
    /// The socket of the status address.
    Status,
    /// Memory, or a thread.
    Memory,
}

/// Why a data node does not start: its fault, and what kept it, where memory was there to say it.
#[derive(Debug, Drop)]
pub struct StartFault {
    /// The fault.
    pub fault: ClusterFault,
    /// What kept the node from its start.
    pub cause: Option<Cause>,
}

impl StartFault {
    /// The fault of a device.
    pub fn device(cause: Cause) -> StartFault
        ensures fault { result.fault ≡ Device }
        ensures cause { result.cause ≡ Some cause }
    {
        StartFault {
            fault: ClusterFault::Device,
            cause: Some(cause),
        }
    }

    /// The fault of a call on a folder.
    pub fn of_store(fault: StoreFault, cause: Cause) -> StartFault
        ensures fault { result.fault ≡ of_store fault }
        ensures cause { result.cause ≡ Some cause }
    {
        StartFault {
            fault: fault.into(),
            cause: Some(cause),
        }
    }

    /// The fault of a segment file.
    pub fn of_file(alloc: Global, name: &str, fault: &NodeFault) -> StartFault
        ensures fault { result.fault ≡ of_node fault.now }
        ensures cause { IfSome result.cause (NamesFile name.now fault.now) }
    {
        StartFault {
            fault: (*fault).into(),
            cause: file_cause(alloc, name, fault),
        }
    }

    /// The fault of the tombstone at a place of its list.
    pub fn of_tombstone(place: usize, fault: &NodeFault) -> StartFault
        ensures fault { result.fault ≡ of_node fault.now }
        ensures cause { result.cause ≡ Some (Tombstone place fault.now) }
    {
        StartFault {
            fault: (*fault).into(),
            cause: Some(Cause::Tombstone(place, *fault)),
        }
    }
}

// A segment file, where memory is there for its name.
fn file_cause(alloc: Global, name: &str, fault: &NodeFault) -> Option<Cause>
    ensures { IfSome result (NamesFile name.now fault.now) }
{
    match String::from_str(alloc, name) {
        Ok(name) => Some(Cause::File(name, *fault)),
        Err(_) => None,
    }
}

impl From<AllocError> for StartFault {
    ghost from_gives = { λ _ start. start.fault ≡ Device };

    fn from(_error: AllocError) -> StartFault {
        StartFault::device(Cause::Memory)
    }
}

impl<T: Drop> From<AllocFailed<T>> for StartFault {
    ghost from_gives = { λ _ start. start.fault ≡ Device };

    fn from(_error: AllocFailed<T>) -> StartFault {
        StartFault::device(Cause::Memory)
    }
}

impl From<DeviceFailed> for StartFault {
    ghost from_gives = { λ _ start. start.fault ≡ Device };

    fn from(_failed: DeviceFailed) -> StartFault {
        StartFault::device(Cause::Memory)
    }
}
