//! The texts of sync: what a node answers to a broker that follows it, and what a broker asks.
#![tactic(auto)]

mod ask;
mod fault;
mod laws;
mod reply_reader;
mod reply_writer;

pub use ask::{ask_target, ask_target_at, read_ask};
pub use fault::{AskFault, SyncFault};
pub use laws::{asks_are_read_back, replies_are_read_back};
pub use reply_reader::{read_reply, reply_of};
pub use reply_writer::reply_text;
