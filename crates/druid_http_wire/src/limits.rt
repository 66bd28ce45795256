//! Limits of messages.

/// The most bytes of a head, from the first byte that is read to the end of the empty line: blank lines before it count too.
pub const MAX_HEAD: usize = 16_384;

/// The most fields of a head.
pub const MAX_FIELDS: usize = 64;

/// The most bytes of a body.
pub const MAX_BODY: usize = 16_777_216;
