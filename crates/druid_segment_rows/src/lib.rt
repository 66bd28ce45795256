//! Schemas, rows and segments. Rows are kept by columns, and contracts see rows.
#![tactic(auto)]

mod builder;
mod column;
mod column_builder;
mod fault;
mod filter;
mod laws;
mod limits;
mod number_cache;
mod numbering;
mod numbers;
mod row;
mod row_ref;
mod schema;
mod segment;
mod table;
mod table_builder;
mod texts;

pub use builder::SegmentBuilder;
pub use column::Column;
pub use druid_filter::Filter;
pub use fault::RowFault;
pub use filter::matches;
pub use laws::values_have_one_dictionary;
pub use limits::{MAX_FIELDS, MAX_NAME, MAX_ROWS, MAX_TEXT, MAX_VALUE};
pub use numbers::Numbers;
pub use row::Row;
pub use schema::Schema;
pub use segment::Segment;
pub use texts::Texts;
