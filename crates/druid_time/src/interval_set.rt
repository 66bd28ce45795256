//! Sets of instants: sorted intervals with gaps between them.
ghost use Rattle.std.specs.Prelude.{◌≡◌, ◌<◌, ◌↔◌, ℕ, length, vec_len, IsTrue, IfOk};
ghost use Rattle.std.specs.List.Sorted.{IsNonDecreasingBy};
ghost use Rattle.druid_time.specs.Extent.{AnyHas, AreParts, SameInstants};

use crate::{Instant, Interval};
use std::alloc::{AllocError, Global};
use std::marker::Model;

/// A set of instants, kept as the intervals that it is made of.
///
/// A contract sees these parts: they stand in their order, with gaps between.
#[derive(Clone, Debug, Drop)]
pub struct IntervalSet {
    parts: Vec<Interval>,
}

impl Model for IntervalSet {
    ghost use Rattle.std.specs.Prelude.{List};
    ghost use Rattle.druid_time.specs.Extent.{Extent, AreParts};

    ghost Value = { List Extent };

    ghost view = { λ a. a.parts.items };

    ghost invariant = { λ a. AreParts a.parts.items };
}

impl IntervalSet {
    /// The instants that lie in one of the intervals, which may stand in any order and overlap.
    ///
    /// # Errors
    ///
    /// Out of memory.
    pub fn of(alloc: Global, intervals: &[Interval]) -> Result<IntervalSet, AllocError>
        ensures parts { IfOk result AreParts }
        ensures instants { IfOk result (λ s. SameInstants s intervals.now) }
    {
        let mut sorted = Vec::from_slice(alloc, intervals)?;
        sorted.sort_unstable_by_key(|interval| interval.start());
        let parts = merge_sorted(alloc, &sorted)?;
        Ok(IntervalSet { parts })
    }

    /// Whether the instant lies in the set.
    pub fn contains(&self, instant: Instant) -> bool
        ensures { IsTrue result ↔ AnyHas self.now instant }
    {
        let after = self.parts.partition_point(|part| part.end() <= instant);
        after < self.parts.len() && self.parts[after].contains(instant)
    }

    /// The parts in their order: no two touch or overlap.
    pub fn parts(&self) -> &[Interval]
        ensures value { result.now ≡ self.now }
        ensures valid { AreParts self.now }
    {
        &self.parts
    }
}

// The parts of the set of the instants that lie in one of the intervals, which are sorted by their
// starts.
fn merge_sorted(alloc: Global, sorted: &[Interval]) -> Result<Vec<Interval>, AllocError>
    requires { IsNonDecreasingBy (λ e. e.start) sorted.now }
    ensures parts { IfOk result (λ v. AreParts v.items) }
    ensures instants { IfOk result (λ v. SameInstants v.items sorted.now) }
{
    let mut done = Vec::new(alloc);
    let Some((first, rest)) = sorted.split_first() else {
        return Ok(done);
    };
    // What it ensures is that the interval is not empty.
    let _ = first.end();
    let mut last = *first;
    for next in rest {
        if next.start() <= last.end() {
            last = last.extended_to(next);
        } else {
            done.push(last)?;
            last = *next;
        }
    }
    done.push(last)?;
    Ok(done)
}
