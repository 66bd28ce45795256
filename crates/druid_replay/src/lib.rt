//! A cluster of brokers: the commands of `druid_cluster replay`, and whole runs of them.
#![tactic(auto)]

mod answer;
mod answer_writer;
mod brokers;
mod command;
mod execution;
mod fault;
mod laws;
mod pieces;
mod reason;
mod run;

pub use fault::ReplayFault;
pub use laws::{
    bad_lines_break_a_rule, each_line_is_bad_or_answered, no_answered_line_is_bad, one_node_list,
    one_run,
};
pub use reason::{BadLine, BrokerKey, Reason, ReplayStop};
pub use run::{replay, replay_explained};
