//! What is visible in one part of some chunks, by a sweep over the instants where the best of them
//! changes.
ghost use Rattle.std.specs.Prelude.{◌≡◌, ◌<◌, ◌≤◌, ◌+◌, ◌*◌, ◌↔◌, ◌⊎◌, ℕ, List, min, drop, length, map, IsTrue, OnOk, MatchOption, option_copied, Contains};
ghost use Rattle.druid_time.specs.Extent.{Has, IsExtent};
ghost use Rattle.druid_segment_id.specs.Group.{Group};
ghost use Rattle.druid_timeline.specs.Candidates.{IsBestOf};
ghost use Rattle.druid_timeline.specs.Pieces.{AreRuns, Shows, shown_at};
ghost use Rattle.druid_timeline.specs.Skyline.{StartInOrder, StartLater};
ghost use Rattle.druid_timeline.specs.Stretches.{EndBy};

use crate::skyline::{advance, best_of};
use druid_segment_id::{GroupKey, Meter};
use druid_time::{Instant, Interval};
use std::alloc::{AllocError, Global};

// Whether a stretch of a chunk goes on where the last run ends, which is of that chunk.
fn goes_on(last: &(Interval, GroupKey), stretch: Interval, key: &GroupKey) -> bool
    ensures same { IsTrue result ↔ ((last.now.0.end ≡ stretch.start) × (last.now.1 ≡ key.now)) }
    ensures valid { IsExtent stretch }
{
    last.0.end() == stretch.start() && last.1 == *key
}

// The run with the end of a stretch that goes on where it ends.
fn extend_run(last: (Interval, GroupKey), stretch: Interval) -> (Interval, GroupKey)
    requires { last.0.end ≡ stretch.start }
    ensures { result ≡ (record { start = last.0.start; end = stretch.end }, last.1) }
{
    let whole = Interval::new(last.0.start(), stretch.end()).unwrap();
    (whole, last.1)
}

// Adds a stretch of a chunk after the runs: it is joined to the last one where that goes on.
pub(crate) fn push_run(
    runs: &mut Vec<(Interval, GroupKey)>,
    stretch: Interval,
    key: &GroupKey,
) -> Result<(), AllocError>
    requires runs { AreRuns (map shown_at runs.old.items) }
    requires ends { EndBy (map shown_at runs.old.items) stretch.start }
    ensures runs { OnOk result (AreRuns (map shown_at runs.new.items)) }
    ensures shows { OnOk result ((t : ℕ) (g : Group) → Shows (map shown_at runs.new.items) t g
        ↔ (Shows (map shown_at runs.old.items) t g ⊎ ((key.now ≡ g) × Has stretch t))) }
{
    let Some(last) = runs.pop() else {
        runs.push((stretch, key.clone()?))?;
        return Ok(());
    };
    if goes_on(&last, stretch, key) {
        runs.push_reserved(extend_run(last, stretch));
        return Ok(());
    }
    runs.push_reserved(last);
    runs.push((stretch, key.clone()?))?;
    Ok(())
}

// Adds what lies between two instants after the runs, if anything, as a stretch of a chunk.
pub(crate) fn push_between(
    runs: &mut Vec<(Interval, GroupKey)>,
    from: Instant,
    to: Instant,
    key: &GroupKey,
) -> Result<(), AllocError>
    requires runs { AreRuns (map shown_at runs.old.items) }
    requires ends { EndBy (map shown_at runs.old.items) from }
    ensures runs { OnOk result (AreRuns (map shown_at runs.new.items)) }
    ensures shows { OnOk result ((t : ℕ) (g : Group) → Shows (map shown_at runs.new.items) t g
        ↔ (Shows (map shown_at runs.old.items) t g ⊎ ((key.now ≡ g) × ((from ≤ t) × (t < to))))) }
{
    match Interval::new(from, to) {
        Some(stretch) => push_run(runs, stretch, key),
        None => Ok(()),
    }
}

// The same of a chunk, if there is one.
fn push_best(
    runs: &mut Vec<(Interval, GroupKey)>,
    from: Instant,
    to: Instant,
    best: Option<&GroupKey>,
) -> Result<(), AllocError>
    requires runs { AreRuns (map shown_at runs.old.items) }
    requires ends { EndBy (map shown_at runs.old.items) from }
    ensures runs { OnOk result (AreRuns (map shown_at runs.new.items)) }
    ensures shows { OnOk result ((t : ℕ) (g : Group) → Shows (map shown_at runs.new.items) t g
        ↔ (Shows (map shown_at runs.old.items) t g
        ⊎ (MatchOption (option_copied best.entry) ⊥ (λ b. b ≡ g) × ((from ≤ t) × (t < to))))) }
{
    match best {
        Some(key) => push_between(runs, from, to, key),
        None => Ok(()),
    }
}

// The earlier of two instants.
fn earlier(one: Instant, other: Instant) -> Instant
    ensures { result ≡ min one other }
{
    one.min(other)
}

// Where the best chunk may change next, at an end at the latest: where it ends, or the next candidate starts.
fn next_bound(best: Option<&GroupKey>, sorted: &[&GroupKey], place: usize, end: Instant) -> Instant
    requires { StartInOrder (map (λ c. c.now) sorted.now) }
    ensures high { result ≤ end }
    ensures best { MatchOption (option_copied best.entry) (Unit {0}) (λ b. result ≤ b.interval.end) }
    ensures next { (g : Group) → Contains (drop place (map (λ c. c.now) sorted.now)) g → result ≤ g.interval.start }
    ensures onward { (from : ℕ) → from < end
        → MatchOption (option_copied best.entry) (Unit {0}) (λ b. from < b.interval.end)
        → StartLater (drop place (map (λ c. c.now) sorted.now)) from → from < result }
{
    let mut to = end;
    if let Some(key) = best {
        let ends = key.interval().end();
        to = earlier(to, ends);
    }
    if place < sorted.len() {
        let next = sorted[place].interval().start();
        to = earlier(to, next);
    }
    to
}

// Adds what is visible in a part, which lies after the runs, of candidates in the order of their starts. Each of them is
// compared with the best of those that end no sooner, with those that it covers, which then are gone, and with one more:
// with three on the average.
pub(crate) fn add_best(
    alloc: Global,
    runs: &mut Vec<(Interval, GroupKey)>,
    sorted: &[&GroupKey],
    part: Interval,
    meter: &mut Meter,
) -> Result<(), AllocError>
    requires order { StartInOrder (map (λ c. c.now) sorted.now) }
    requires runs { AreRuns (map shown_at runs.old.items) }
    requires ends { EndBy (map shown_at runs.old.items) part.start }
    ensures runs { OnOk result (AreRuns (map shown_at runs.new.items)) }
    ensures shows { OnOk result ((t : ℕ) (g : Group) → Shows (map shown_at runs.new.items) t g
        ↔ (Shows (map shown_at runs.old.items) t g ⊎ (Has part t × IsBestOf (map (λ c. c.now) sorted.now) t g))) }
    ensures counted { (meter.old ≤ meter.new) × (meter.new ≤ meter.old + 3 * length sorted.now) }
{
    let mut sky = Vec::new(alloc);
    let mut place = 0;
    let mut from = part.start();
    let stop = part.end();
    while from < stop {
        place = advance(&mut sky, sorted, place, from, meter)?;
        let best = best_of(&sky);
        let to = next_bound(best, sorted, place, stop);
        push_best(runs, from, to, best)?;
        from = to;
    }
    Ok(())
}
