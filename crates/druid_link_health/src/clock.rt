//! The time of notes.
use std::time::Clock;

/// The milliseconds of the monotonic clock, whose start is the system's. 0 where it cannot be read: what is noted then is of no
/// later time, and no node is due.
pub fn monotonic_millis<C: Clock>(clock: &C) -> u64 {
    match clock.monotonic() {
        Ok(time) => time
            .as_secs()
            .saturating_mul(1_000)
            .saturating_add(time.subsec_millis() as u64),
        Err(_) => 0,
    }
}
