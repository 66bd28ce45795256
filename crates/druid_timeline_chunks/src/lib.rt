//! The chunks of one data source, found by interval, each with its members.
#![tactic(auto)]

mod chunk;
mod chunks;
mod log;
mod order;
mod overlap;
mod place;
mod transaction;
mod undo;

pub use chunk::Chunk;
pub use chunks::Chunks;
pub use transaction::Transaction;
