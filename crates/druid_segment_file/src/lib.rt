//! Segments in files, in the layouts `DSG1` and, by columns, `DSG2`.
#![tactic(auto)]

mod byte_parts;
mod column_builder;
mod columns;
mod columns_room;
mod columns_writer;
mod cursor;
mod fault;
mod fields;
mod head;
mod laws;
mod layout;
mod reader;
mod rows;
mod writer;

pub use columns_writer::write_columns;
pub use fault::FileFault;
pub use laws::{
    cut_files_are_cut, faults_stay, lengths_agree, longer_files_have_trailing_bytes,
    one_column_spelling, spellings_are_read_back,
};
pub use reader::{read_segment, segment_of};
pub use writer::write_segment;
