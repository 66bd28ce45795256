//! An inventory that one publisher owns, and views in other threads read without waiting. What is
//! shown stands in two places, of which readers look at one (`left_right`); which front of the list
//! of replies a thread has is known by `logbook`.
#![tactic(auto)]

mod book;
mod fault;
mod laws;
mod publication;
mod publisher;
mod receipt;
mod rule;
mod shown;
mod start;
mod view;

pub use book::Opened;
pub use fault::PublishFault;
pub use laws::{folds_go_on, folds_keep_names, marks_never_fall};
pub use publication::Publication;
pub use publisher::Publisher;
pub use receipt::Receipt;
pub use start::{MAX_PLACES, open};
pub use view::View;
