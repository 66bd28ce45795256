//! Requests of HTTP, and why a message is not read or not written: what servers, links and readers
//! share.
#![tactic(auto)]

mod fault;
mod request;

pub use fault::WireFault;
pub use request::Request;
