//! What a query may have at most.

/// The most intervals.
pub const MAX_INTERVALS: usize = 1_000;

/// The most dimensions.
pub const MAX_DIMENSIONS: usize = 16;

/// The most aggregators.
pub const MAX_AGGREGATORS: usize = 16;

/// The most filters in all, those inside others included.
pub const MAX_MEMBERS: usize = 1_000;

/// How deep filters may nest; one alone is 1 deep.
pub const MAX_LEVELS: usize = 50;

/// The most values that one filter asks for.
pub const MAX_VALUES: usize = 1_000;

/// The most bytes of a name.
pub const MAX_LABEL: usize = 100;

/// The most bytes of a value in a filter.
pub const MAX_VALUE: usize = 1_024;
