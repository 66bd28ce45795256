//! Limits of descriptors and replies.

/// The most core partitions that a numbered shard spec names.
pub const MAX_CORE: u16 = 32_768;

/// The most segments that a node serves.
pub const MAX_SEGMENTS: usize = 200_000;

/// The most segments of a page: a snapshot that has more is sent in pages.
pub const MAX_PAGE: usize = 20_000;

/// The most pages of a snapshot.
pub const MAX_PAGES: u16 = 10;

/// The most changes that a delta has, and that a node keeps of its history.
pub const MAX_CHANGES: usize = 1_000;
