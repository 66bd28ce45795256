//! Instants, intervals and sets of instants, and their texts.
#![tactic(auto)]

mod civil;
mod display;
mod fault;
mod granularity;
mod instant;
mod interval;
mod interval_set;
mod laws;
mod parser;

pub use fault::TimeFault;
pub use granularity::Granularity;
pub use instant::Instant;
pub use interval::Interval;
pub use interval_set::IntervalSet;
pub use laws::{
    buckets_count_from_1970, calendar_is_exact, one_list_of_parts, texts_are_read_back,
    texts_keep_order,
};
