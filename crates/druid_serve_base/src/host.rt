//! The machine that a cluster is served on.
use std::sync::Wait;
use std::thread::Threads;
use std::time::Clock;

/// A handle of a server: it waits, starts threads and reads clocks. What it has of files and sockets is named beside it, and so is that
/// threads copy and share it, since of a concrete link over the handle that is not found by a supertrait.
pub trait Host: Wait + Threads + Clock {}

impl<R: Wait + Threads + Clock> Host for R {}
