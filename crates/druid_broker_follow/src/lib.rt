//! How a broker follows data nodes, and how it is seeded by other brokers.
#![tactic(auto)]

mod exchange;
mod fault;
mod observer;
mod pages;
mod rest;
mod shared;
mod syncer;
mod turn_count;
mod turns;

pub use fault::TurnFault;
pub use observer::{Marks, Observe, Turned, Unobserved};
pub use rest::{MAX_REST, next_rest};
pub use shared::{observed_turn, shared_turn};
pub use syncer::{follow, follow_observed, follow_on, follow_on_observed};
pub use turn_count::TurnCount;
pub use turns::{fetch, fetch_entry, seed_turn, sync_turn};
