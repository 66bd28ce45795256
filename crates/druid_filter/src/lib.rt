//! Which rows are asked for, by the values of their dimensions.
#![tactic(auto)]

mod filter;

pub use filter::Filter;
