//! Links to servers: over sockets, and in memory.
#![tactic(auto)]

mod link;
mod log;
mod memory_link;
mod tcp_link;
mod timer;

pub use link::{Link, MAX_EXCHANGE};
pub use memory_link::MemoryLink;
pub use tcp_link::{EXCHANGE_SECONDS, TcpLink};
pub use timer::{Timer, receive_some, send_all};
