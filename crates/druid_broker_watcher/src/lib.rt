//! What is logged and counted of a broker's turns with a node.
#![tactic(auto)]

mod turns;

pub use turns::TurnWatcher;
