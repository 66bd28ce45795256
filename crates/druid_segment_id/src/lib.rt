//! Segment identifiers: names, versions, the identifiers' texts and order, groups and their ranks.
#![tactic(auto)]

mod count;
mod fault;
mod group;
mod identifier;
mod laws;
mod meter;
mod name;
mod order;
mod parser;
mod text;
mod text_parts;
mod version;

pub use fault::IdFault;
pub use group::{GroupKey, Rank};
pub use identifier::SegmentId;
pub use laws::{
    identifiers_are_read_back, identifiers_go_by_their_texts, one_text, ranks_are_total,
};
pub use meter::Meter;
pub use name::{MAX_NAME, Name};
pub use version::{MAX_VERSION, Version};
