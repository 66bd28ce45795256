//! Why a cluster is not served, and what kept it.
ghost use Rattle.std.specs.Prelude.{◌≡◌};
ghost use Rattle.druid_serve_base.specs.Ends.{of_cluster, of_config};
ghost use Rattle.druid_serve_base.specs.declared.fault.ClusterFault.TheVariants.{Device};
ghost use Rattle.druid_serve_base.specs.declared.serve_fault.ServeFault.TheVariants.{BadConfig};

use crate::{Cause, ClusterFault, DeviceFailed, ServeFault, StartFault};
use druid_serve_config::{BrokerConfig, ConfigFault, NodeConfig, bad_field_in};
use std::alloc::{AllocError, AllocFailed, Global};
use std::io;
use std::io::ErrorKind;

/// Why a cluster is not served, a `ServeFault`, or a `ClusterFault` once its config was read: and the text of what kept it, where
/// memory was there for it.
#[derive(Drop)]
pub struct Stop<F> {
    /// The fault.
    pub fault: F,
    /// What kept the cluster.
    pub reason: Option<String>,
}

impl Stop<ClusterFault> {
    // A device failed, and this says which.
    fn device(reason: Option<String>) -> Stop<ClusterFault>
        ensures { result.fault ≡ Device }
    {
        Stop {
            fault: ClusterFault::Device,
            reason,
        }
    }

    /// The node at a place does not start.
    pub fn at_node(
        alloc: Global,
        place: usize,
        node: &NodeConfig,
        start: StartFault,
    ) -> Stop<ClusterFault>
        ensures { result.fault ≡ start.fault }
    {
        Stop {
            fault: start.fault,
            reason: match start.cause {
                Some(cause) => node_reason(alloc, place, node, &cause),
                None => None,
            },
        }
    }

    /// The broker at a place does not listen.
    pub fn at_broker(alloc: Global, place: usize, broker: &BrokerConfig) -> Stop<ClusterFault>
        ensures { result.fault ≡ Device }
    {
        let (listen, key) = (
            broker.listen(),
            listen_key(broker.address(), broker.listen()),
        );
        Stop::device(format!(in alloc; "brokers[{place}].{key}: listening on {listen}").ok())
    }

    /// The broker at a place does not listen at its status address.
    pub fn at_broker_status(alloc: Global, place: usize, address: &str) -> Stop<ClusterFault>
        ensures { result.fault ≡ Device }
    {
        Stop::device(format!(in alloc; "brokers[{place}].status: listening on {address}").ok())
    }

    /// The output was not written or flushed.
    pub fn at_output(alloc: Global, error: &io::Error) -> Stop<ClusterFault>
        ensures { result.fault ≡ Device }
    {
        let text = if error.kind() == ErrorKind::OutOfMemory {
            "out of memory"
        } else {
            "standard output: a write failed"
        };
        Stop::device(String::from_str(alloc, text).ok())
    }
}

// The key of a config that says where a server listens.
fn listen_key(address: &str, listen: &str) -> &'static str {
    if listen == address {
        "address"
    } else {
        "listen"
    }
}

// What kept the node at a place from its start.
fn node_reason(alloc: Global, place: usize, node: &NodeConfig, cause: &Cause) -> Option<String> {
    let (folder, listen) = (node.folder(), node.listen());
    let key = listen_key(node.address(), listen);
    let text = match cause {
        Cause::File(name, fault) => {
            format!(in alloc; "nodes[{place}].folder: {folder}/{name}: {fault}")
        }
        Cause::Incarnation(fault) => {
            format!(in alloc; "nodes[{place}].folder: {folder}/incarnation: {fault}")
        }
        Cause::Names(fault) => format!(in alloc; "nodes[{place}].folder: {folder}: {fault}"),
        Cause::Tombstone(at, fault) => format!(in alloc;
            "nodes[{place}].tombstones[{at}]: {fault}"
        ),
        Cause::Owner => format!(in alloc; "nodes[{place}].folder: {folder}: another server has it"),
        Cause::Listener => format!(in alloc; "nodes[{place}].{key}: listening on {listen}"),
        Cause::Status => format!(in alloc;
            "nodes[{place}].status: listening on {}",
            node.status().unwrap_or("")
        ),
        Cause::Memory => format!(in alloc; "nodes[{place}]: out of memory, or no thread"),
    };
    text.ok()
}

impl From<AllocError> for Stop<ClusterFault> {
    ghost from_gives = { λ _ stop. stop.fault ≡ Device };

    fn from(_error: AllocError) -> Stop<ClusterFault> {
        Stop::device(None)
    }
}

impl<T: Drop> From<AllocFailed<T>> for Stop<ClusterFault> {
    ghost from_gives = { λ _ stop. stop.fault ≡ Device };

    fn from(_error: AllocFailed<T>) -> Stop<ClusterFault> {
        Stop::device(None)
    }
}

impl From<DeviceFailed> for Stop<ClusterFault> {
    ghost from_gives = { λ _ stop. stop.fault ≡ Device };

    fn from(_failed: DeviceFailed) -> Stop<ClusterFault> {
        Stop::device(None)
    }
}

impl Stop<ServeFault> {
    /// Of a fault, and a text that says why.
    pub fn new(alloc: Global, fault: ServeFault, text: &str) -> Stop<ServeFault>
        ensures { result.fault ≡ fault }
    {
        Stop {
            fault,
            reason: String::from_str(alloc, text).ok(),
        }
    }

    /// Of a text that names no part of a cluster.
    pub fn at_part(alloc: Global, text: &str) -> Stop<ServeFault>
        ensures { result.fault ≡ BadConfig }
    {
        Stop {
            fault: ServeFault::BadConfig,
            reason: format!(in alloc;
                "DRUID_CLUSTER_PART: {text}: names of nodes and broker:N, with commas between"
            ).ok(),
        }
    }

    /// Of bytes that were not read as a config.
    pub fn at_config(alloc: Global, bytes: &[u8], fault: ConfigFault) -> Stop<ServeFault>
        ensures { result.fault ≡ of_config fault }
    {
        let reason = match fault {
            ConfigFault::Refused => config_reason(alloc, bytes),
            ConfigFault::Memory => String::from_str(alloc, "the config: out of memory").ok(),
        };
        Stop {
            fault: fault.into(),
            reason,
        }
    }
}

impl From<Stop<ClusterFault>> for Stop<ServeFault> {
    ghost from_gives = { λ stop served. served.fault ≡ of_cluster stop.fault };

    fn from(stop: Stop<ClusterFault>) -> Stop<ServeFault> {
        Stop {
            fault: stop.fault.into(),
            reason: stop.reason,
        }
    }
}

// Which field of bytes is wrong, that are no config.
fn config_reason(alloc: Global, bytes: &[u8]) -> Option<String> {
    match bad_field_in(alloc, bytes) {
        Ok(Some(bad)) => format!(in alloc; "{bad}").ok(),
        _ => None,
    }
}
