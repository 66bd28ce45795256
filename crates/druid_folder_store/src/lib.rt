//! Folders of files on a disk or in memory.
#![tactic(auto)]

mod device;
mod disk;
mod log;
mod memory;
mod name;
mod record;

pub use device::{Device, honest_model};
pub use disk::DiskFolder;
pub use memory::MemoryFolder;
