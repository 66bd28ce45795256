//! Streams: a line, read part by part, and a text, written to its end. What a writer got of a text
//! that was cut short is defined here once (`AppendsFront`). A link over a socket, which looks at
//! the clock before each call, has loops of its own.
#![tactic(auto)]

mod interrupted;
mod lines;
mod writer;

pub use interrupted::{MAX_TRIES, is_interrupted};
pub use lines::{Next, Part, next_line, next_part};
pub use writer::write_text;
