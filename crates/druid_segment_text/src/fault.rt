use thiserror::Error;

/// Why a JSON value is no descriptor.
#[derive(Clone, Copy, Debug, PartialEq, Eq, Drop, Error)]
pub enum ShardFault {
    /// S1: the shard spec is of another type than `numbered`.
    #[error("S1: not a numbered shard spec")]
    ShardType,
    /// S2: the shard spec is no object, or a number of it is out of range.
    #[error("S2: a bad shard spec")]
    BadShard,
    /// S3: the field of this key is absent, or is not what it has to be.
    #[error("S3: a bad field: {0}")]
    BadField(&'static str),
    /// S4: `tombstone` is neither a boolean nor null, or is true of a segment that is not the whole of its chunk in one
    /// partition of size 0.
    #[error("S4: a bad tombstone")]
    BadTombstone,
    /// S9: out of memory.
    #[error("S9: out of memory")]
    Memory,
}
