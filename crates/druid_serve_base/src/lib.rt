//! What the servers of a cluster share: sockets and those who connect to them, why a start failed,
//! and the queries of a config.
#![tactic(auto)]

mod client;
mod fault;
mod front;
mod gate;
mod handover;
mod host;
mod serve_fault;
mod sockets;
mod status;
mod stop;
mod telemetry;

pub use client::ask;
pub use fault::{Cause, ClusterFault, DeviceFailed, StartFault};
pub use front::Source;
pub use gate::Gate;
pub use handover::Handover;
pub use host::Host;
pub use serve_fault::ServeFault;
pub use sockets::{PEER_SECONDS, answer_each, limit, listen};
pub use status::{
    STATUS_SECONDS, Status, StatusAnswer, answer_status, serve_status_one, start_status,
};
pub use stop::Stop;
pub use telemetry::{Taken, Telemetry};
