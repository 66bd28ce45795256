//! The members of a chunk: which nodes hold which of its partitions.
#![tactic(auto)]

mod members;
mod replicas;
mod roster;
mod slot;

pub use members::Members;
