//! Where a chunk stands among those of its data source: by the length class of its interval, then
//! by start and by end.
ghost use Rattle.std.specs.Prelude.{◌≡◌, ◌↔◌, ◌<◌, ◌+◌, ◌-◌, ◌^◌, IsTrue};
ghost use Rattle.druid_time.specs.Extent.{IsExtent};
ghost use Rattle.druid_time.specs.Instant.{IsInstant, instant_count};
ghost use Rattle.druid_timeline_chunks.specs.Places.{length_class, place_below, place_of};

use druid_time::{Instant, Interval};
use std::marker::Model;

// The first instant, 0000-01-01T00:00:00.000Z, in milliseconds since 1970.
const FIRST_MS: i64 = -62_167_219_200_000;

// The milliseconds from the first instant to this one.
pub(crate) fn since_first(instant: Instant) -> u64
    ensures value { result ≡ instant }
    ensures range { IsInstant instant }
{
    (instant.ms() - FIRST_MS) as u64
}

// The length class of an interval: the base-2 logarithm of its length in milliseconds, rounded down.
pub(crate) fn class_of(interval: Interval) -> u32
    ensures value { result ≡ length_class interval }
    ensures below { result < 63 }
    ensures bound { interval.end - interval.start < 2 ^ (result + 1) }
    ensures valid { IsExtent interval }
{
    let length = since_first(interval.end()) - since_first(interval.start());
    63 - length.leading_zeros()
}

// A contract sees the number of the place.
#[derive(Drop)]
pub(crate) struct ChunkPlace {
    class: u32,
    start: u64,
    end: u64,
}

impl Model for ChunkPlace {
    ghost use Rattle.std.specs.Prelude.{ℕ, ◌<◌};
    ghost use Rattle.druid_time.specs.Instant.{instant_count};
    ghost use Rattle.druid_timeline_chunks.specs.Places.{place_below};

    ghost Value = { ℕ };

    ghost view = { λ a. place_below instant_count a.class a.start a.end };

    ghost invariant = { λ a. (a.start < instant_count) × (a.end < instant_count) };
}

impl ChunkPlace {
    // The place of an interval.
    pub(crate) fn of(interval: Interval) -> ChunkPlace
        ensures value { result ≡ place_of interval }
        ensures valid { IsExtent interval }
    {
        ChunkPlace {
            class: class_of(interval),
            start: since_first(interval.start()),
            end: since_first(interval.end()),
        }
    }

    // The place from which the intervals of that class stand that start then or later.
    pub(crate) fn from(class: u32, start: u64) -> ChunkPlace
        requires { start < instant_count }
        ensures { result ≡ place_below instant_count class start 0 }
    {
        ChunkPlace {
            class,
            start,
            end: 0,
        }
    }

    // Whether it comes before another.
    pub(crate) fn is_before(&self, other: &ChunkPlace) -> bool
        ensures { IsTrue result ↔ (self.now < other.now) }
    {
        if self.class != other.class {
            return self.class < other.class;
        }
        if self.start != other.start {
            return self.start < other.start;
        }
        self.end < other.end
    }
}
