//! The texts of partial results: partials, results and node answers.
#![tactic(auto)]

mod answer_reader;
mod answer_writer;
mod fault;
mod missing;
mod partial_reader;
mod partial_writer;
mod piece_ref;
mod results;
mod shortfall;
mod text_laws;
mod tokens;
mod whole_answer;

pub use answer_reader::{answer_of, read_node_answer};
pub use answer_writer::node_answer_text;
pub use fault::PartialFault;
pub use partial_reader::read_partial;
pub use partial_writer::partial_text;
pub use results::result_text;
pub use shortfall::shortfall_text;
pub use text_laws::{node_answers_are_read_back, one_reading, partials_are_read_back};

/// What a node answers of the segment slices that it was asked for. Its text is read back where each that is missing was asked for.
pub type NodeAnswer = druid_partial::Answer;
