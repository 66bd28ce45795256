//! Pages: how a set of segments that is too large for one message is cut, and put together again.
//! Replies are not known here, so histories cut pages without the crate of inventories.
#![tactic(auto)]

mod assembly;
mod fault;
mod laws;
mod pages;
mod parts;

pub use assembly::Assembly;
pub use fault::PageFault;
pub use laws::{pages_are_taken_in_one_way, pages_fit_replies, pages_give_their_set};
pub use pages::{page_of, pages_of};
