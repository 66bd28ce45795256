//! What a broker knows of the data nodes: a mark and a set of segments for each, and the timelines
//! over them.
#![tactic(auto)]

mod advance;
mod answer;
mod assembly;
mod changes;
mod changing_timeline;
mod fault;
mod inventory;
mod join;
mod known;
mod laws;
mod merge;
mod plan;
mod replies;
mod reply_rules;
mod shared_timeline;
mod strict_changes;
mod timelines;
mod transactions;

pub use assembly::Assembly;
pub use fault::{ApplyFault, InventoryFault, JoinFault, Outcome};
pub use inventory::{Inventory, MAX_NODES};
pub use laws::{marks_never_fall, one_join, one_step};
