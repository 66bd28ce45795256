//! Instants, kept without a sign: they count from the year 0.
ghost use Rattle.std.specs.Prelude.{◌≡◌, ◌<◌, ◌↔◌, ℤ, pos, neg_ℤ, ◌≤ℤ◌, IsSome, IfSome, IfOk};
ghost use Rattle.druid_time.specs.Instant.{IsInstant, unix_ms};
ghost use Rattle.druid_time.specs.Granularity.{bucket_at};
ghost use Rattle.druid_time.specs.Texts.{instant_text, instant_at};

use crate::civil::Civil;
use crate::parser::has_form;
use crate::{Granularity, TimeFault};
use std::marker::Model;

// The first instant, 0000-01-01T00:00:00.000Z, in milliseconds since 1970.
const FIRST_MS: i64 = -62_167_219_200_000;

// The last instant, 9999-12-31T23:59:59.999Z, in milliseconds since 1970.
const LAST_MS: i64 = 253_402_300_799_999;

/// A whole millisecond of the years 0000 to 9999, in UTC.
///
/// A contract sees the milliseconds since 0000-01-01T00:00:00.000Z.
#[derive(Clone, Copy, Debug, PartialEq, Eq, PartialOrd, Ord, Hash)]
pub struct Instant {
    since_year_zero: u64,
}

impl Model for Instant {
    ghost use Rattle.std.specs.Prelude.{ℕ, ◌<◌};
    ghost use Rattle.druid_time.specs.Instant.{IsInstant};

    ghost Value = { ℕ };

    ghost view = { λ a. a.since_year_zero };

    ghost invariant = { λ a. IsInstant a.since_year_zero };

    ghost inverse = { λ t. record { since_year_zero = t } };
}

impl Instant {
    /// The instant that many milliseconds after 1970-01-01T00:00:00.000Z, or before it.
    ///
    /// # Errors
    ///
    /// None outside the years 0000 to 9999.
    pub fn new(ms: i64) -> Option<Instant>
        ensures valid { IsSome result
            ↔ ((neg_ℤ (pos 62167219200000) ≤ℤ ms) × (ms ≤ℤ pos 253402300799999)) }
        ensures value { IfSome result (λ t. unix_ms t ≡ ms) }
        ensures range { IfSome result IsInstant }
    {
        if ms < FIRST_MS || ms > LAST_MS {
            return None;
        }
        Some(Instant {
            since_year_zero: (ms - FIRST_MS) as u64,
        })
    }

    /// The milliseconds since 1970-01-01T00:00:00.000Z, negative before it.
    pub fn ms(&self) -> i64
        ensures value { result ≡ unix_ms self.now }
        ensures range { IsInstant self.now }
    {
        self.since_year_zero as i64 + FIRST_MS
    }

    /// The instant that a text names, in UTC: `YYYY-MM-DD`, and `THH:MM`, `:SS` and `.mmm` may
    /// follow one after another, and where there is a time a `Z` at the end. What is left out is 0.
    ///
    /// # Errors
    ///
    /// C1 of any other text; C2 where there is no such day or time.
    pub fn parse(text: &str) -> Result<Instant, TimeFault>
        ensures value { result ≡ instant_at text.now }
        ensures range { IfOk result IsInstant }
    {
        let bytes = text.as_bytes();
        if !has_form(bytes) {
            return Err(TimeFault::NotATime);
        }
        match Civil::read(bytes).instant() {
            Some(since_year_zero) => Ok(Instant { since_year_zero }),
            None => Err(TimeFault::OutOfRange),
        }
    }

    /// Writes it as `YYYY-MM-DDTHH:MM:SS.mmmZ`, in UTC.
    pub fn write(&self, out: &mut [u8; 24])
        ensures { out.new ≡ instant_text self.now }
    {
        *out = Civil::of_instant(self.since_year_zero).text();
    }

    /// The start of the bucket that it falls into: the greatest multiple of the bucket's length,
    /// counted from 1970-01-01T00:00:00.000Z in both directions, that is not above it.
    ///
    /// # Errors
    ///
    /// None of `All` alone.
    pub fn bucket(self, granularity: Granularity) -> Option<Instant>
        ensures value { result ≡ bucket_at granularity self }
        ensures range { IfSome result IsInstant }
    {
        let length = granularity.length()?;
        let since_year_zero = self.since_year_zero - self.since_year_zero % length;
        Some(Instant { since_year_zero })
    }
}
