//! The history of a node: which changes it records, and what it answers to the brokers that follow
//! it.
#![tactic(auto)]

mod fault;
mod history;
mod laws;
mod segments;

pub use fault::HistoryFault;
pub use history::History;
pub use laws::deltas_reach_the_node;
