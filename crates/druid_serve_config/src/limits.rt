//! Limits of a config.

/// The most nodes, and the most brokers.
pub const MAX_SERVERS: usize = 64;

/// The most workers of a server.
pub const MAX_WORKERS: u16 = 16;

/// The most changes that a node keeps.
pub const MAX_KEPT: u16 = 1_000;

/// The most connections from outside, and the most turns.
pub const MAX_COUNT: u64 = 1_000_000;

/// The longest rest between two turns of a syncer, and between two looks of a node at its folder, in milliseconds: an hour.
pub const MAX_REST: u64 = 3_600_000;

/// The longest patience with a node, in milliseconds: an hour.
pub const MAX_PATIENCE: u64 = 3_600_000;

/// The patience of a config that names none, in milliseconds.
pub const USUAL_PATIENCE: u64 = 30_000;

/// The most front threads of a server.
pub const MAX_FRONT: u16 = 256;

/// The most threads that one query takes of a node.
pub const MAX_THREADS: u16 = 16;

/// The last port.
pub const MAX_PORT: u64 = 65_535;

/// The greatest of the four numbers of an IPv4 address.
pub const MAX_OCTET: u64 = 255;
