//! The number that rises with each start of a program, kept in a folder.
#![tactic(auto)]

mod incarnation;

pub use incarnation::{next_incarnation, one_number};
