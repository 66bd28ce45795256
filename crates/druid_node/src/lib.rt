//! A data node: the segments that it holds, its history, and what it answers over HTTP.
#![tactic(auto)]

mod answer;
mod basis;
mod data_node;
mod exchange;
mod fault;
mod held;
mod incarnation;
mod laws;
mod loaded_file;
mod question;
mod response;
mod routes;
mod seen_mark;
mod state;

pub use data_node::{DataNode, decode_file};
pub use fault::NodeFault;
pub use incarnation::Incarnation;
pub use laws::rows_are_counted_once;
pub use loaded_file::LoadedFile;
pub use state::NodeState;
