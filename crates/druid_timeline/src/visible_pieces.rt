//! What is visible of all chunks of a source, by one sweep.
ghost use Rattle.std.specs.Prelude.{◌≡◌, ◌≤◌, ◌+◌, ◌*◌, ◌↔◌, ℕ, List, length, map, IfOk, Contains, MatchOption};
ghost use Rattle.std.specs.List.{IsDistinct};
ghost use Rattle.druid_time.specs.Extent.{Has};
ghost use Rattle.druid_segment_id.specs.Group.{Group, same_group};
ghost use Rattle.druid_timeline_chunks.specs.Chunks.{AreChunks, IsCompleteOf};
ghost use Rattle.druid_timeline.specs.Chunks.{held_in};
ghost use Rattle.druid_timeline.specs.Holding.{HasComplete};
ghost use Rattle.druid_timeline.specs.Pieces.{ArePieces, shown_at};
ghost use Rattle.druid_timeline.specs.Skyline.{StartInOrder};

use crate::overlay::widened;
use crate::sweep::add_best;
use druid_segment_id::{GroupKey, Meter};
use druid_time::Interval;
use druid_timeline_chunks::Chunks;
use std::alloc::{AllocError, Global};

// The complete chunks, each once.
fn complete_in<'a>(alloc: Global, chunks: &'a Chunks) -> Result<Vec<&'a GroupKey>, AllocError>
    ensures all { IfOk result (λ found. (g : Group) → Contains (map (λ c. c.now) found.items) g ↔ IsCompleteOf chunks.now g) }
    ensures once { IfOk result (λ found. IsDistinct same_group (map (λ c. c.now) found.items)) }
    ensures chunks { AreChunks chunks.now }
{
    let mut found = Vec::new(alloc);
    for chunk in chunks.as_slice() {
        if chunk.members().is_complete() {
            found.push(chunk.key())?;
        }
    }
    Ok(found)
}

// The same in the order of their starts.
fn sorted_complete<'a>(alloc: Global, chunks: &'a Chunks) -> Result<Vec<&'a GroupKey>, AllocError>
    ensures all { IfOk result (λ found. (g : Group) → Contains (map (λ c. c.now) found.items) g ↔ IsCompleteOf chunks.now g) }
    ensures sorted { IfOk result (λ found. StartInOrder (map (λ c. c.now) found.items)) }
    ensures few { IfOk result (λ found. (complete : List Group) → HasComplete (held_in chunks.now) complete
        → length found.items ≤ length complete) }
    ensures chunks { AreChunks chunks.now }
{
    let mut found = complete_in(alloc, chunks)?;
    found.sort_unstable_by_key(|key| key.interval().start());
    Ok(found)
}

// An interval with all instants of the chunks' intervals. None where there are no chunks.
fn hull_over(keys: &[&GroupKey]) -> Option<Interval>
    ensures { (g : Group) → Contains (map (λ c. c.now) keys.now) g → (t : ℕ) → Has g.interval t
        → MatchOption result ⊥ (λ hull. Has hull t) }
{
    let mut hull = None;
    for place in 0..keys.len() {
        hull = widened(hull, keys[place].interval());
    }
    hull
}

// The visible pieces of what the chunks hold.
pub(crate) fn runs_of(
    alloc: Global,
    chunks: &Chunks,
    meter: &mut Meter,
) -> Result<Vec<(Interval, GroupKey)>, AllocError>
    ensures pieces { IfOk result (λ runs. ArePieces (held_in chunks.now) (map shown_at runs.items)) }
    ensures counted { meter.old ≤ meter.new }
    ensures bound { (complete : List Group) → HasComplete (held_in chunks.now) complete
        → meter.new ≤ meter.old + 3 * length complete }
{
    let sorted = sorted_complete(alloc, chunks)?;
    let mut runs = Vec::new(alloc);
    let Some(part) = hull_over(&sorted) else {
        return Ok(runs);
    };
    add_best(alloc, &mut runs, &sorted, part, meter)?;
    Ok(runs)
}
