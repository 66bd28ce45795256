//! The headline, met: over two data nodes, each after a link of its own, and a broker that followed them, what the broker answers to
//! a query is what is defined over the world of their histories. No premise on what was exchanged is left. Over a
//! socket the one premise is that the exchanges of the call were honest.
#![tactic(auto)]

mod fetch;
mod followed_nodes;
mod laws;
mod node_link;
mod nodes;
mod query;
#[cfg(test)]
mod sockets;
#[cfg(test)]
mod two_nodes;

pub use fetch::fetch_over_socket;
pub use laws::{answers_are_exact, fetches_are_honest};
pub use node_link::NodeLink;
pub use query::ask_two;
