use thiserror::Error;

/// Why a page is not taken.
#[derive(Clone, Copy, Debug, PartialEq, Eq, Drop, Error)]
pub enum PageFault {
    /// It tells of another snapshot than the pages of its mark that have come.
    #[error("the pages of a snapshot differ")]
    Conflict,
    /// Out of memory.
    #[error("out of memory")]
    Memory,
}
