//! Descriptors and marks as JSON and back.
#![tactic(auto)]

mod descriptor_json;
mod descriptor_ref;
mod fault;
mod laws;
mod mark_json;
mod shared_texts;

pub use descriptor_json::{descriptor_value, shard_value};
pub use descriptor_ref::{DescriptorRef, read_descriptor};
pub use fault::ShardFault;
pub use laws::descriptors_are_read_back;
pub use mark_json::mark_value;
pub use shared_texts::SharedTexts;
