//! A cluster, served: data nodes over folders and brokers that follow them, over sockets and
//! threads.
//!
//! Of its parts private contracts say this. A broker's publisher, views and receipts are of one
//! `open`, with a link for each node and a view for each syncer and each worker. Over all turns of
//! a syncer and all that a worker answers, the list that its view has seen only grows. What a
//! worker hands to a front thread is the text of one response to just the bytes of the job, with
//! the replicas in the order of the worker's turn, those on some nodes last.
#![tactic(auto)]

mod broker;
mod cluster;
mod links;
mod live_cluster;
mod status;
mod worker;

pub use cluster::serve;
pub use druid_serve_base::{PEER_SECONDS, ServeFault};
