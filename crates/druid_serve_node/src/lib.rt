//! A data node, served: its folder, its sockets and its threads.
//!
//! Of its parts private contracts say this. A node starts in the incarnation that the start wrote
//! to its folder (`IsStarted`), and only where each segment file, as an honest folder reads, is a
//! segment under its own name (`HoldsSegments`). Where the raise of the incarnation, the load of
//! the files or the placing of a tombstone fails, what is named is one of its own (`IsOfRaise`,
//! `IsOfLoad`, `IsOfPlacing`). What a worker answers is from a mark that is not below what it has
//! seen, nor below that which the node had after the loads of its start (`serve_since`).
#![tactic(auto)]

mod known_files;
mod latest_mark;
mod loader;
mod node;
mod owner;
mod reporter;
mod segment_files;
mod status;
mod watch;
mod worker;

pub use known_files::{FileState, KnownFiles};
pub use loader::{EndOfLoads, Loading};
pub use node::{start_node, start_owner};
pub use reporter::Reporter;
pub use watch::Watch;
