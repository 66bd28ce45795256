//! What happens, and what is on its way.
ghost use Rattle.std.specs.Prelude.{◌≡◌};
ghost use Rattle.druid_laws_world.specs.declared.event.SimFault.TheVariants.{Memory};

use druid_segment_descriptor::{Ask, Change, NodeNo, Reply};
use std::alloc::{AllocError, AllocFailed};
use thiserror::Error;

/// What a broker asks a node for.
#[derive(Clone, Copy, Debug, PartialEq, Eq)]
pub enum AskKind {
    /// What it would ask next: the whole, where it was never synced, and else what comes after its mark.
    Next,
    /// The whole.
    Whole,
    /// A page, counted from 0, at the mark of the pages that came.
    Page(u16),
}

/// An event. Nodes and brokers are named by their places, and packets by their numbers, from 0 in the order in which
/// they were put.
#[derive(Debug, Drop)]
pub enum Event {
    /// The node's history records the change.
    Record {
        /// The node.
        node: NodeNo,
        /// The change.
        change: Change,
    },
    /// The node begins its next incarnation, with an empty history.
    Restart {
        /// The node.
        node: NodeNo,
    },
    /// The broker puts a request to the node.
    Ask {
        /// The broker that asks.
        broker: usize,
        /// The node.
        node: NodeNo,
        /// What it asks for.
        kind: AskKind,
    },
    /// The node puts its reply to the request, by its history now.
    Answer {
        /// The request.
        packet: usize,
    },
    /// A broker puts what it has of the node as a reply for another broker.
    Seed {
        /// The broker that tells.
        peer: usize,
        /// The broker that gets it.
        broker: usize,
        /// The node.
        node: NodeNo,
        /// The page of it, counted from 0, where it is too large for one message; of 0 the whole is sent where it is not.
        page: u16,
    },
    /// The broker that asked applies the reply, or puts a page to those that came, and applies what they give once all have. Where it
    /// refuses it, all stays as it was.
    Deliver {
        /// The reply.
        packet: usize,
    },
    /// The packet is cut off on its way, and nothing changes.
    Cut {
        /// The packet.
        packet: usize,
    },
    /// The broker does not reach the node, and nothing changes.
    Fail {
        /// The broker.
        broker: usize,
        /// The node.
        node: NodeNo,
    },
}

/// What was put on its way. It may arrive late, again or never.
#[derive(Debug, Drop)]
pub enum Packet {
    /// What a broker asks a node.
    Request {
        /// The broker that asks.
        broker: usize,
        /// The node that is asked.
        node: NodeNo,
        /// What it asks for.
        ask: Ask,
    },
    /// What a broker is reported of a node.
    Reply {
        /// The broker that gets it.
        broker: usize,
        /// The node that it is about.
        node: NodeNo,
        /// The reply.
        reply: Reply,
    },
}

/// Why an event cannot happen. All stays as it was.
#[derive(Clone, Copy, Debug, PartialEq, Eq, Drop, Error)]
pub enum SimFault {
    /// E1: there is no such node.
    #[error("E1: no such node")]
    NoSuchNode,
    /// E2: there is no such broker.
    #[error("E2: no such broker")]
    NoSuchBroker,
    /// E3: there is no such packet, or it is not of the kind.
    #[error("E3: no such packet")]
    NoSuchPacket,
    /// E4: the node's history does not take the change, the node is at its last incarnation, or the peer was never synced
    /// with the node.
    #[error("E4: refused")]
    Refused,
    /// E5: no page of the node came to the broker.
    #[error("E5: no pages came")]
    NoAssembly,
    /// E9: out of memory.
    #[error("E9: out of memory")]
    Memory,
}

impl From<AllocError> for SimFault {
    ghost from_gives = { λ _ fault. fault ≡ Memory };

    fn from(_error: AllocError) -> SimFault {
        SimFault::Memory
    }
}

impl<T: Drop> From<AllocFailed<T>> for SimFault {
    ghost from_gives = { λ _ fault. fault ≡ Memory };

    fn from(_error: AllocFailed<T>) -> SimFault {
        SimFault::Memory
    }
}
