//! Why there is no inventory, why a reply is not applied and inventories are not joined; and what a
//! reply did.
ghost use Rattle.std.specs.Prelude.{◌≡◌};
ghost use Rattle.druid_inventory.specs.declared.fault.InventoryFault.TheVariants as new_fault;
ghost use Rattle.druid_inventory.specs.declared.fault.ApplyFault.TheVariants as apply_fault;
ghost use Rattle.druid_inventory.specs.declared.fault.JoinFault.TheVariants as join_fault;

use druid_segment_descriptor::NodeNo;
use std::alloc::AllocError;
use thiserror::Error;

/// Why there is no inventory of a list of nodes, or no entry of a node.
#[derive(Clone, Copy, Debug, PartialEq, Eq, Drop, Error)]
pub enum InventoryFault {
    /// V1: a name stands twice in the list.
    #[error("V1: a doubled node")]
    DoubledNode,
    /// V2: the list has no such node.
    #[error("V2: an unknown node")]
    UnknownNode,
    /// V3: the node was never synced.
    #[error("V3: a node that was never synced")]
    NotSynced,
    /// V9: out of memory.
    #[error("V9: out of memory")]
    Memory,
}

impl From<AllocError> for InventoryFault {
    ghost from_gives = { λ _ fault. fault ≡ new_fault.Memory };

    fn from(_error: AllocError) -> InventoryFault {
        InventoryFault::Memory
    }
}

/// Why a reply is not applied. The inventory stays as it was.
#[derive(Clone, Copy, Debug, PartialEq, Eq, Drop, Error)]
pub enum ApplyFault {
    /// A1: the list has no such node.
    #[error("A1: an unknown node")]
    UnknownNode,
    /// A3: the delta is of another incarnation of the node.
    #[error("A3: another incarnation")]
    OtherIncarnation,
    /// A2: the delta begins after the mark that is held.
    #[error("A2: a gap")]
    Gap,
    /// A4: a load of a segment whose identifier is held, or a drop of one that is not held as it is.
    #[error("A4: not a strict change: {index}")]
    NotStrict {
        /// The place of the change in the delta, from 0.
        index: usize,
    },
    /// A6: a load onto 200,000 segments.
    #[error("A6: too many segments")]
    TooMany,
    /// A5: the mark is the one held, and the set is another.
    #[error("A5: a conflict")]
    Conflict,
    /// A7: a page tells of another snapshot than the pages of its mark that have come. No reply that is applied gives it.
    #[error("A7: the pages of a snapshot differ")]
    PageConflict,
    /// A9: out of memory.
    #[error("A9: out of memory")]
    Memory,
}

impl From<AllocError> for ApplyFault {
    ghost from_gives = { λ _ fault. fault ≡ apply_fault.Memory };

    fn from(_error: AllocError) -> ApplyFault {
        ApplyFault::Memory
    }
}

/// Why two inventories are not joined.
#[derive(Clone, Copy, Debug, PartialEq, Eq, Drop, Error)]
pub enum JoinFault {
    /// J1: the inventories are of other nodes, or have them in another order.
    #[error("J1: other nodes")]
    OtherNodes,
    /// J2: at one mark of this node they have other sets; it is the least such node.
    #[error("J2: a conflict at node {0}")]
    Conflict(NodeNo),
    /// J9: out of memory.
    #[error("J9: out of memory")]
    Memory,
}

impl From<AllocError> for JoinFault {
    ghost from_gives = { λ _ fault. fault ≡ join_fault.Memory };

    fn from(_error: AllocError) -> JoinFault {
        JoinFault::Memory
    }
}

/// What a reply did to the entry of its node.
#[derive(Clone, Copy, Debug, PartialEq, Eq, Hash)]
pub enum Outcome {
    /// The entry moved to a later mark.
    Moved,
    /// The entry had it already.
    AlreadyHave,
    /// The node has to be asked for all that it serves.
    AskWhole,
    /// The node has to be asked for the pages of a snapshot, of which this was one.
    AskPages,
}
