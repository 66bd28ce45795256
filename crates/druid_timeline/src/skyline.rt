//! The skyline of the chunks that a sweep has passed: those that may be the best at an instant to
//! come. Towards its back the rank rises and the end falls, so the best one is the last, and the
//! ends are searched by halving.
ghost use Rattle.std.specs.Prelude.{◌≡◌, ◌≤◌, ◌<◌, ◌+◌, ◌-◌, ◌*◌, ◌++◌, ◌↔◌, ◌⊎◌, List, [], ◌∷◌, length, map, take, drop, IsTrue, IfOk, OnOk, MatchOption, option_copied, Contains};
ghost use Rattle.std.specs.List.{AllWithin};
ghost use Rattle.druid_segment_id.specs.Group.{Group, Outranks};
ghost use Rattle.druid_timeline.specs.Skyline.{StartInOrder, StartLater, EndLater, IsSkyline, IsCovered, IsTop, IsSkylineOf};

use druid_segment_id::{GroupKey, Meter};
use druid_time::Instant;
use std::alloc::AllocError;

// Whether a chunk outranks another.
pub(crate) fn beats(key: &GroupKey, other: &GroupKey, meter: &mut Meter) -> bool
    ensures answer { IsTrue result ↔ Outranks key.now other.now }
    ensures counted { meter.new ≡ meter.old + 1 }
{
    key.rank().beats(&other.rank(), meter)
}

// The first that ends before an instant.
fn first_ending_before(sky: &[&GroupKey], instant: Instant) -> usize
    requires { IsSkyline (map (λ c. c.now) sky.now) }
    ensures bound { result ≤ length sky.now }
    ensures before { (g : Group) → Contains (take result (map (λ c. c.now) sky.now)) g → instant ≤ g.interval.end }
    ensures rest { (g : Group) → Contains (drop result (map (λ c. c.now) sky.now)) g → g.interval.end < instant }
{
    sky.partition_point(|key| instant <= key.interval().end())
}

// The first that has ended at an instant.
fn first_ended(sky: &[&GroupKey], instant: Instant) -> usize
    requires { IsSkyline (map (λ c. c.now) sky.now) }
    ensures bound { result ≤ length sky.now }
    ensures before { (g : Group) → Contains (take result (map (λ c. c.now) sky.now)) g → instant < g.interval.end }
    ensures rest { (g : Group) → Contains (drop result (map (λ c. c.now) sky.now)) g → g.interval.end ≤ instant }
{
    sky.partition_point(|key| instant < key.interval().end())
}

// Whether a chunk outranks all of the skyline before a place.
fn beats_before(sky: &[&GroupKey], place: usize, key: &GroupKey, meter: &mut Meter) -> bool
    requires order { IsSkyline (map (λ c. c.now) sky.now) }
    requires within { place ≤ length sky.now }
    ensures best { IsTrue result → (g : Group) → Contains (take place (map (λ c. c.now) sky.now)) g → Outranks key.now g }
    ensures beaten { (IsTrue result → ⊥) → (g : Group) × Contains (take place (map (λ c. c.now) sky.now)) g
        × ((key.now ≡ g) ⊎ Outranks g key.now) }
    ensures counted { (meter.old ≤ meter.new) × (meter.new ≤ meter.old + 1) }
{
    if place == 0 {
        return true;
    }
    beats(key, sky[place - 1], meter)
}

// The first from a place on that a chunk does not outrank.
fn first_better(sky: &[&GroupKey], place: usize, key: &GroupKey, meter: &mut Meter) -> usize
    requires order { IsSkyline (map (λ c. c.now) sky.now) }
    requires within { place ≤ length sky.now }
    ensures low { place ≤ result }
    ensures high { result ≤ length sky.now }
    ensures beaten { AllWithin (λ g. Outranks key.now g) (map (λ c. c.now) sky.now) place result }
    ensures rest { (g : Group) → Contains (drop result (map (λ c. c.now) sky.now)) g → Outranks key.now g → ⊥ }
    ensures counted { (meter.old ≤ meter.new) × (meter.new ≤ meter.old + (result - place) + 1) }
{
    let mut to = place;
    while to < sky.len() {
        if !beats(key, sky[to], meter) {
            return to;
        }
        to += 1;
    }
    to
}

// Takes out those from one place to another.
fn take_out(sky: &mut Vec<&GroupKey>, from: usize, to: usize)
    requires { (from ≤ to) × (to ≤ length sky.old.items) }
    ensures { sky.new.items ≡ take from sky.old.items ++ drop to sky.old.items }
{
    let mut end = to;
    while from < end {
        end -= 1;
        sky.remove(end);
    }
}

// Puts a chunk in place of those from one place to another.
fn replace<'a>(
    sky: &mut Vec<&'a GroupKey>,
    from: usize,
    to: usize,
    key: &'a GroupKey,
) -> Result<(), AllocError>
    requires within { (from ≤ to) × (to ≤ length sky.old.items) }
    ensures { OnOk result (map (λ c. c.now) sky.new.items
        ≡ take from (map (λ c. c.now) sky.old.items) ++ key.now ∷ drop to (map (λ c. c.now) sky.old.items)) }
{
    take_out(sky, from, to);
    sky.insert(from, key)?;
    Ok(())
}

// Takes a chunk into the skyline, unless one that is as good does not end sooner. What it then covers goes.
fn take_in<'a>(
    sky: &mut Vec<&'a GroupKey>,
    key: &'a GroupKey,
    meter: &mut Meter,
) -> Result<(), AllocError>
    requires { IsSkyline (map (λ c. c.now) sky.old.items) }
    ensures order { OnOk result (IsSkyline (map (λ c. c.now) sky.new.items)) }
    ensures among { OnOk result ((g : Group) → Contains (map (λ c. c.now) sky.new.items) g
        → Contains (map (λ c. c.now) sky.old.items) g ⊎ (g ≡ key.now)) }
    ensures covered { OnOk result (IsCovered (map (λ c. c.now) sky.new.items) key.now) }
    ensures kept { OnOk result ((g : Group) → IsCovered (map (λ c. c.now) sky.old.items) g
        → IsCovered (map (λ c. c.now) sky.new.items) g) }
    ensures counted { (meter.old ≤ meter.new) × (meter.new ≤ meter.old + length sky.old.items + 2) }
    ensures paid { OnOk result (meter.new + length sky.new.items ≤ meter.old + length sky.old.items + 3) }
{
    let place = first_ending_before(sky, key.interval().end());
    if !beats_before(sky, place, key, meter) {
        return Ok(());
    }
    let to = first_better(sky, place, key, meter);
    replace(sky, place, to, key)
}

// Takes in those from a place on that start at the instant or before, and gives the place after them.
fn take_started<'a>(
    sky: &mut Vec<&'a GroupKey>,
    sorted: &[&'a GroupKey],
    start: usize,
    to: Instant,
    meter: &mut Meter,
) -> Result<usize, AllocError>
    requires order { StartInOrder (map (λ c. c.now) sorted.now) }
    requires split { IsSkylineOf (map (λ c. c.now) sorted.now) (drop start (map (λ c. c.now) sorted.now))
        (map (λ c. c.now) sky.old.items) to }
    requires within { start ≤ length sorted.now }
    ensures split { IfOk result (λ place. IsSkylineOf (map (λ c. c.now) sorted.now)
        (drop place (map (λ c. c.now) sorted.now)) (map (λ c. c.now) sky.new.items) to) }
    ensures later { IfOk result (λ place. StartLater (drop place (map (λ c. c.now) sorted.now)) to) }
    ensures within { IfOk result (λ place. place ≤ length sorted.now) }
    ensures counted { (meter.old ≤ meter.new)
        × (meter.new ≤ meter.old + length sky.old.items + 3 * (length sorted.now - start)) }
    ensures paid { IfOk result (λ place. meter.new + length sky.new.items + 3 * (length sorted.now - place)
        ≤ meter.old + length sky.old.items + 3 * (length sorted.now - start)) }
{
    let mut place = start;
    while place < sorted.len() {
        let candidate = sorted[place];
        if to < candidate.interval().start() {
            return Ok(place);
        }
        take_in(sky, candidate, meter)?;
        place += 1;
    }
    Ok(place)
}

// Lets go of those that end at the instant or before.
fn let_go(sky: &mut Vec<&GroupKey>, to: Instant)
    requires { IsSkyline (map (λ c. c.now) sky.old.items) }
    ensures order { IsSkyline (map (λ c. c.now) sky.new.items) }
    ensures among { (g : Group) → Contains (map (λ c. c.now) sky.new.items) g → Contains (map (λ c. c.now) sky.old.items) g }
    ensures later { EndLater (map (λ c. c.now) sky.new.items) to }
    ensures gone { (g : Group) → Contains (map (λ c. c.now) sky.old.items) g
        → Contains (map (λ c. c.now) sky.new.items) g ⊎ (g.interval.end ≤ to) }
    ensures few { length sky.new.items ≤ length sky.old.items }
{
    let place = first_ended(sky, to);
    sky.truncate(place);
}

// Moves on to an instant: those before the place that it gives have been passed, and the others start later.
pub(crate) fn advance<'a>(
    sky: &mut Vec<&'a GroupKey>,
    sorted: &[&'a GroupKey],
    start: usize,
    to: Instant,
    meter: &mut Meter,
) -> Result<usize, AllocError>
    requires order { StartInOrder (map (λ c. c.now) sorted.now) }
    requires split { IsSkylineOf (map (λ c. c.now) sorted.now) (drop start (map (λ c. c.now) sorted.now))
        (map (λ c. c.now) sky.old.items) to }
    requires within { start ≤ length sorted.now }
    ensures split { IfOk result (λ place. IsSkylineOf (map (λ c. c.now) sorted.now)
        (drop place (map (λ c. c.now) sorted.now)) (map (λ c. c.now) sky.new.items) to) }
    ensures later { IfOk result (λ place. StartLater (drop place (map (λ c. c.now) sorted.now)) to) }
    ensures onward { OnOk result (EndLater (map (λ c. c.now) sky.new.items) to) }
    ensures within { IfOk result (λ place. place ≤ length sorted.now) }
    ensures counted { (meter.old ≤ meter.new)
        × (meter.new ≤ meter.old + length sky.old.items + 3 * (length sorted.now - start)) }
    ensures paid { IfOk result (λ place. meter.new + length sky.new.items + 3 * (length sorted.now - place)
        ≤ meter.old + length sky.old.items + 3 * (length sorted.now - start)) }
{
    let place = take_started(sky, sorted, start, to, meter)?;
    let_go(sky, to);
    Ok(place)
}

// The best of the skyline.
pub(crate) fn best_of<'a>(sky: &[&'a GroupKey]) -> Option<&'a GroupKey>
    requires { IsSkyline (map (λ c. c.now) sky.now) }
    ensures { MatchOption (option_copied result) (map (λ c. c.now) sky.now ≡ []) (IsTop (map (λ c. c.now) sky.now)) }
{
    if sky.is_empty() {
        return None;
    }
    Some(sky[sky.len() - 1])
}
