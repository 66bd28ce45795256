//! The world of events: nodes whose histories grow, brokers that follow them, and packets between
//! them that may come late, again or never. What holds of all its runs.
#![tactic(auto)]

mod arrivals;
mod event;
mod laws;
mod node;
mod sim;

pub use event::{AskKind, Event, Packet, SimFault};
pub use laws::{
    each_mark_has_a_set, join_is_a_join, marks_never_fall, one_next, same_marks_same_inventory,
    worlds_grow,
};
pub use sim::{MAX_BROKERS, Sim};
