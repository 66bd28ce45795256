//! The complete chunks that are visible at no instant. They are sorted by interval, and versions of
//! one interval then put in their places, on the meter: each is moved once for each that belongs
//! before it.
ghost use Rattle.std.specs.Prelude.{◌≡◌, ◌↔◌, ◌≤◌, ℕ, List, IsTrue, IfOk, Contains, length};
ghost use Rattle.std.specs.HashSet as set;
ghost use Rattle.std.specs.List.{IsDistinct, insert};
ghost use Rattle.std.specs.List.Sorted.{IsPermutation, IsSorted, IsStrictlySortedBy};
ghost use Rattle.druid_timeline_chunks.specs.Chunks.{AreChunks, IsCompleteOf};
ghost use Rattle.druid_time.specs.Extent.{Extent};
ghost use Rattle.druid_segment_id.specs.Group.{Group, same_group};
ghost use Rattle.druid_timeline.specs.Overshadowed.{interval_cmp, place_cmp};

use druid_segment_id::{GroupKey, Meter};
use druid_time::Interval;
use druid_timeline_chunks::Chunks;
use std::alloc::{AllocError, Global};
use std::cmp::Ordering;
use std::collections::HashSet;

// The chunks that runs show.
fn shown_in(alloc: Global, runs: &[(Interval, GroupKey)]) -> Result<HashSet<GroupKey>, AllocError>
    ensures { IfOk result (λ shown. (g : Group) → IsTrue (set.contains same_group shown g)
        ↔ ((run : Extent × Group) × Contains runs.now run × (run.1 ≡ g))) }
{
    let mut shown = HashSet::new(alloc);
    for run in runs {
        let key = run.1.clone()?;
        shown.insert(key)?;
    }
    Ok(shown)
}

// The complete chunks that are not among the seen ones, not in order.
fn unseen_in(
    alloc: Global,
    chunks: &Chunks,
    seen: &HashSet<GroupKey>,
) -> Result<Vec<GroupKey>, AllocError>
    ensures all { IfOk result (λ v. (g : Group) → Contains v.items g
        ↔ (IsCompleteOf chunks.now g × (IsTrue (set.contains same_group seen.now g) → ⊥))) }
    ensures once { IfOk result (λ v. IsDistinct same_group v.items) }
    ensures chunks { AreChunks chunks.now }
{
    let mut unseen = Vec::new(alloc);
    for chunk in chunks.as_slice() {
        let key = chunk.key();
        if chunk.members().is_complete() && !seen.contains(key) {
            let copy = key.clone()?;
            unseen.push(copy)?;
        }
    }
    Ok(unseen)
}

// The order of two chunks by start, then by end.
fn interval_order(one: &GroupKey, other: &GroupKey) -> Ordering
    ensures { result ≡ interval_cmp one.now.interval other.now.interval }
{
    let (mine, theirs) = (one.interval(), other.interval());
    let start = mine.start().cmp(&theirs.start());
    start.then(mine.end().cmp(&theirs.end()))
}

// The order of two chunks by start, then by end, then by version, which only their ranks can tell.
fn place_order(one: &GroupKey, other: &GroupKey, meter: &mut Meter) -> Ordering
    ensures order { result ≡ place_cmp one.now other.now }
    ensures counted { meter.old ≤ meter.new }
{
    let by_interval = interval_order(one, other);
    if by_interval != Ordering::Equal {
        return by_interval;
    }
    if one.rank().beats(&other.rank(), meter) {
        return Ordering::Greater;
    }
    if other.rank().beats(&one.rank(), meter) {
        return Ordering::Less;
    }
    Ordering::Equal
}

// Where a chunk belongs among others that are sorted by their places.
fn place_among(sorted: &[GroupKey], key: &GroupKey, meter: &mut Meter) -> usize
    ensures within { result ≤ length sorted.now }
    ensures sorted { IsSorted place_cmp sorted.now → IsSorted place_cmp (insert sorted.now result key.now) }
    ensures counted { meter.old ≤ meter.new }
{
    let mut low = 0;
    let mut high = sorted.len();
    while low < high {
        let middle = low + (high - low) / 2;
        if place_order(&sorted[middle], key, meter) == Ordering::Less {
            low = middle + 1;
        } else {
            high = middle;
        }
    }
    low
}

// The chunks sorted by their places: each is put in its place among those before it.
fn sorted_by_place(
    alloc: Global,
    keys: Vec<GroupKey>,
    meter: &mut Meter,
) -> Result<Vec<GroupKey>, AllocError>
    ensures permutation { IfOk result (λ sorted. IsPermutation keys.items sorted.items) }
    ensures sorted { IfOk result (λ sorted. IsSorted place_cmp sorted.items) }
    ensures counted { meter.old ≤ meter.new }
{
    let mut sorted = Vec::with_capacity(alloc, keys.len())?;
    for key in keys {
        let place = place_among(&sorted, &key, meter);
        sorted.insert(place, key)?;
    }
    Ok(sorted)
}

// The complete chunks that no run shows, by start, then by end, then by version.
pub(crate) fn overshadowed_in(
    alloc: Global,
    chunks: &Chunks,
    runs: &[(Interval, GroupKey)],
    meter: &mut Meter,
) -> Result<Vec<GroupKey>, AllocError>
    ensures all { IfOk result (λ v. (g : Group) → Contains v.items g ↔ (IsCompleteOf chunks.now g
        × ((run : Extent × Group) × Contains runs.now run × (run.1 ≡ g) → ⊥))) }
    ensures sorted { IfOk result (λ v. IsStrictlySortedBy place_cmp v.items) }
    ensures chunks { IfOk result (λ _. AreChunks chunks.now) }
    ensures counted { meter.old ≤ meter.new }
{
    let seen = shown_in(alloc, runs)?;
    let mut unseen = unseen_in(alloc, chunks, &seen)?;
    // The standard library's sort says nothing of what its closure has counted, so it takes the intervals alone. Then
    // each chunk belongs at the end, or among versions of its own interval.
    unseen.sort_unstable_by(interval_order);
    let sorted = sorted_by_place(alloc, unseen, meter)?;
    Ok(sorted)
}
