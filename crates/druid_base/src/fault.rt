use thiserror::Error;

/// Why bytes were not parsed as JSON.
#[derive(Clone, Copy, Debug, PartialEq, Eq, Drop, Error)]
pub enum JsonFault {
    /// No JSON in UTF-8.
    #[error("not JSON")]
    NotJson,
    /// Out of memory.
    #[error("out of memory")]
    Memory,
}
