//! Shard specs, descriptors of segments, and the values that brokers learn them by.
#![tactic(auto)]

mod change;
mod descriptor;
mod items;
mod laws;
mod limits;
mod mark;
mod reply;
mod sets;

pub use change::{Ask, Cause, Change};
pub use descriptor::{Descriptor, Shard};
pub use items::Items;
pub use laws::{changes_change_one_segment, replays_go_on};
pub use limits::{MAX_CHANGES, MAX_CORE, MAX_PAGE, MAX_PAGES, MAX_SEGMENTS};
pub use mark::Mark;
pub use reply::{Body, Changes, Descriptors, Reply, ReplyFault};
pub use sets::{apply_change, find_segment};

/// The place of a data node in the list of nodes, from 0.
pub type NodeNo = u16;
