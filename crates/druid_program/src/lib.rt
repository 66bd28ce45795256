//! The program but for its handles: what its words ask for, how it ends, and what it reports, under
//! one contract (`run`). `druid_replay` and `druid_serve` know no words, and print nothing of why
//! they end.
#![tactic(auto)]

mod config_file;
mod environment;
mod exit;
mod log;
mod program;
mod report;
mod words;

pub use environment::Environment;
pub use exit::{Ending, Exit};
pub use log::start_log;
pub use program::{run, serve_config};
pub use words::{asks_for_explanation, asks_for_replay, asks_for_serve};
