//! Folders of files: what their calls do, and what a stop may leave.
#![tactic(auto)]

mod fault;
mod folder;
mod name;

pub use fault::StoreFault;
pub use folder::{Folder, MAX_FILE};
pub use name::is_file_name;
