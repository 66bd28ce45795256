//! What a query says of how it is to be answered: its context.
#![tactic(auto)]

mod timeout;

pub use timeout::timeout_of;
