//! The sentences that a user of a cluster relies on, over the definitions of all crates. They are
//! facts about definitions, and no code stands on them.
#![tactic(auto)]

mod laws;

pub use laws::{
    asks_are_answered, fetched_replies_are_honest, kept_exchanges_are_of_the_call,
    kept_exchanges_are_of_the_query, nodes_are_honest, queries_are_exact, readers_agree,
};
