use thiserror::Error;

/// Why bytes are no config.
#[derive(Clone, Copy, Debug, PartialEq, Eq, Drop, Error)]
pub enum ConfigFault {
    /// No JSON in UTF-8, or JSON that is no config.
    #[error("bad config")]
    Refused,
    /// Memory was refused.
    #[error("device")]
    Memory,
}
