//! Intervals of instants, and their texts.
ghost use Rattle.std.specs.Prelude.{◌≡◌, ◌<◌, ◌↔◌, max, IsTrue, IsSome, IfSome, IfOk, SomeIff, string_bytes};
ghost use Rattle.druid_time.specs.Extent.{IsExtent, Has, Share, IsMeet, common};
ghost use Rattle.druid_time.specs.Instant.{IsInstant};
ghost use Rattle.druid_time.specs.Texts.{extent_at, extent_text};

use crate::{Instant, TimeFault};
use std::alloc::{AllocError, Global};
use std::marker::Model;

/// The instants from a start, included, to a later end, left out.
#[derive(Clone, Copy, Debug, PartialEq, Eq, Hash)]
pub struct Interval {
    start: Instant,
    end: Instant,
}

impl Model for Interval {
    ghost use Rattle.druid_time.specs.Extent.{Extent, IsExtent};

    ghost Value = { Extent };

    ghost view = { λ a. record { start = a.start; end = a.end } };

    ghost invariant = { λ a. IsExtent (record { start = a.start; end = a.end }) };

    ghost inverse = { λ e. record { start = e.start; end = e.end } };
}

impl Interval {
    /// The interval between two instants.
    ///
    /// # Errors
    ///
    /// None where the start is not before the end.
    pub fn new(start: Instant, end: Instant) -> Option<Interval>
        ensures value { SomeIff result (start < end) (record { start = start; end = end }) }
        ensures valid { IfSome result IsExtent }
    {
        let _ = end.ms();
        if start < end {
            Some(Interval { start, end })
        } else {
            None
        }
    }

    /// The interval that a text names: two instants, as `Instant::parse` reads them, with one `/`
    /// between.
    ///
    /// # Errors
    ///
    /// C1 where there is not exactly one `/`; then C1 or C2 of the start, then of the end; then C3.
    pub fn parse(text: &str) -> Result<Interval, TimeFault>
        ensures value { result ≡ extent_at text.now }
        ensures valid { IfOk result IsExtent }
    {
        let Some((start, end)) = text.split_once('/') else {
            return Err(TimeFault::NotATime);
        };
        if end.as_bytes().contains(&b'/') {
            return Err(TimeFault::NotATime);
        }
        let start = Instant::parse(start)?;
        let end = Instant::parse(end)?;
        Interval::new(start, end).ok_or(TimeFault::Empty)
    }

    /// The first instant.
    pub fn start(&self) -> Instant
        ensures value { result ≡ self.now.start }
        ensures valid { IsExtent self.now }
    {
        self.start
    }

    /// The first instant that lies after it.
    pub fn end(&self) -> Instant
        ensures value { result ≡ self.now.end }
        ensures valid { IsExtent self.now }
    {
        self.end
    }

    /// The printed form: the start and the end, with `/` between.
    ///
    /// # Errors
    ///
    /// Out of memory.
    pub fn text(&self, alloc: Global) -> Result<String, AllocError>
        ensures { IfOk result (λ text. string_bytes text ≡ extent_text self.now) }
    {
        format!(in alloc; "{self}")
    }

    /// Whether the instant lies in it.
    pub fn contains(&self, instant: Instant) -> bool
        ensures { IsTrue result ↔ Has self.now instant }
    {
        self.start <= instant && instant < self.end
    }

    /// Whether the two have an instant in common.
    pub fn overlaps(&self, other: &Interval) -> bool
        ensures value { IsTrue result ↔ IsSome (common self.now other.now) }
        ensures shared { IsTrue result ↔ Share self.now other.now }
    {
        self.start.max(other.start) < self.end.min(other.end)
    }

    /// The instants that both have.
    ///
    /// # Errors
    ///
    /// None where there are none.
    pub fn clip(&self, other: &Interval) -> Option<Interval>
        ensures value { result ≡ common self.now other.now }
        ensures shared { IsSome result ↔ Share self.now other.now }
        ensures instants { IfSome result (IsMeet self.now other.now) }
        ensures valid { IfSome result IsExtent }
    {
        Interval::new(self.start.max(other.start), self.end.min(other.end))
    }

    // The same start, and the later of the two ends.
    pub(crate) fn extended_to(&self, other: &Interval) -> Interval
        ensures { result ≡ record { start = self.now.start; end = max self.now.end other.now.end } }
    {
        Interval {
            start: self.start,
            end: self.end.max(other.end),
        }
    }
}
