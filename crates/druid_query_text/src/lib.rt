//! The texts of queries and subqueries, which share the readers and writers of their parts.
#![tactic(auto)]

mod aggregator;
mod dimension;
mod distinct;
mod fields;
mod filter;
mod interval;
mod item;
mod laws;
mod parts;
mod query;
mod subquery;

pub use laws::{
    filters_are_read_back, queries_are_read_back, subqueries_are_read_back,
    subqueries_ask_for_pieces,
};
pub use query::{query_of, query_text, query_value, read_query};
pub use subquery::{read_subquery, subquery_of, subquery_text, subquery_value};
