use thiserror::Error;

/// Why bytes are no partial or no answer of a node.
#[derive(Clone, Copy, Debug, PartialEq, Eq, Drop, Error)]
pub enum PartialFault {
    /// P1: no JSON in UTF-8.
    #[error("P1: not JSON")]
    NotJson,
    /// P2: another shape than what the query asks for.
    #[error("P2: another shape")]
    Shape,
    /// P9: out of memory.
    #[error("P9: out of memory")]
    Memory,
}
