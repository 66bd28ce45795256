//! Queries, and what they are asked of.
#![tactic(auto)]

mod aggregator;
mod dimension;
mod fault;
mod limits;
mod names;
mod query;
mod query_type;
mod segment_slice;
mod subquery;

pub use aggregator::{Aggregator, AggregatorKind};
pub use dimension::Dimension;
pub use fault::QueryFault;
pub use limits::{
    MAX_AGGREGATORS, MAX_DIMENSIONS, MAX_INTERVALS, MAX_LABEL, MAX_LEVELS, MAX_MEMBERS, MAX_VALUE,
    MAX_VALUES,
};
pub use names::{is_label, is_short};
pub use query::Query;
pub use query_type::QueryType;
pub use segment_slice::SegmentSlice;
pub use subquery::SubQuery;
