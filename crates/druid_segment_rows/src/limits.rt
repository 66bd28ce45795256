//! Limits of segments.

/// The most bytes of the name of a field.
pub const MAX_NAME: usize = 100;

/// The most bytes of the value of a dimension.
pub const MAX_VALUE: usize = 1_024;

/// The most dimensions of a segment, and the most metrics.
pub const MAX_FIELDS: usize = 64;

/// The most rows of a segment.
pub const MAX_ROWS: usize = 100_000;

/// The most bytes of the text of a segment.
pub const MAX_TEXT: usize = 16_777_216;
