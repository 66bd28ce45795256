//! What a query tells of the rows of a segment.
#![tactic(auto)]

mod cells;
mod code_filter;
mod column;
mod field_sources;
mod group_array;
mod group_map;
mod key;
mod laws;
mod parts;
mod scan;
mod slices;
mod texts;

pub use laws::rows_are_counted_once;
pub use parts::partial_on_threads;
pub use scan::{partial_of, partial_over};
pub use slices::partial_of_slices;
pub use texts::Slice;
