//! The chunks that share an instant with a part of time: of each length class that occurs, only
//! those that start near it are looked at.
ghost use Rattle.std.specs.Prelude.{◌≡◌, ◌≤◌, ◌<◌, ◌+◌, ◌-◌, ◌^◌, ◌↔◌, IsTrue, IfOk, length, map, take};
ghost use Rattle.std.specs.List.{AllWithin};
ghost use Rattle.druid_time.specs.Extent.{Share, IsExtent};
ghost use Rattle.druid_segment_id.specs.Group.{group_of};
ghost use Rattle.druid_timeline_chunks.specs.Chunks.{AreOverlapsOf, Overlaps};
ghost use Rattle.druid_timeline_chunks.specs.Places.{AreInOrder};

use crate::Chunk;
use crate::order::first_from;
use crate::place::{ChunkPlace, class_of, since_first};
use druid_segment_id::{GroupKey, SegmentId};
use druid_time::Interval;
use std::alloc::{AllocError, Global};

// The first start that an interval of a length class may have if it shares an instant with this one, in milliseconds
// from the first instant.
fn first_start(own: Interval, class: u32) -> u64
    requires { class < 63 }
    ensures value { result ≡ own.start + 1 - 2 ^ (class + 1) }
    ensures valid { IsExtent own }
{
    let _end = own.end();
    let length: u64 = 1 << (class + 1);
    (since_first(own.start()) + 1).saturating_sub(length)
}

// Of the chunks of the length class of the one at an index, those that start early enough and late enough to share an
// instant with an interval: from the first index to the second. The third is that of the next class.
fn near(items: &[Chunk], from: usize, own: Interval) -> (usize, usize, usize)
    requires ordered { AreInOrder items.now }
    requires within { from < length items.now }
    ensures low { from ≤ result.0 }
    ensures high { result.0 ≤ result.1 }
    ensures next { result.1 ≤ result.2 }
    ensures onward { from < result.2 }
    ensures end { result.2 ≤ length items.now }
    ensures early { AllWithin (λ chunk. Share own chunk.0.interval → ⊥) items.now from result.0 }
    ensures late { AllWithin (λ chunk. Share own chunk.0.interval → ⊥) items.now result.1 result.2 }
{
    let class = class_of(items[from].key().interval());
    let early = first_from(items, &ChunkPlace::from(class, first_start(own, class)));
    let late = first_from(items, &ChunkPlace::from(class, since_first(own.end())));
    let next = first_from(items, &ChunkPlace::from(class + 1, 0));
    let low = from.max(early);
    let high = low.max(late);
    (low, high, high.max(next))
}

// Whether a chunk is complete, is not that of a segment, and shares an instant with a part.
fn is_overlap(chunk: &Chunk, id: &SegmentId, part: Interval) -> bool
    ensures { IsTrue result ↔ Overlaps (group_of id.now) part chunk.now }
{
    let key = chunk.key();
    let interval = key.interval();
    if !part.overlaps(&interval) {
        return false;
    }
    if interval == id.interval() && key.version() == id.version() {
        return false;
    }
    chunk.members().is_complete()
}

// Adds the keys of those between two indices that are not a segment's chunk and overlap a part.
fn add_overlaps<'a>(
    items: &'a [Chunk],
    id: &SegmentId,
    part: Interval,
    low: usize,
    high: usize,
    mut found: Vec<&'a GroupKey>,
) -> Result<Vec<&'a GroupKey>, AllocError>
    requires ordered { AreInOrder items.now }
    requires order { low ≤ high }
    requires end { high ≤ length items.now }
    requires found { AreOverlapsOf (take low items.now) (group_of id.now) part (map (λ key. key.now) found.items) }
    ensures { IfOk result (λ all.
        AreOverlapsOf (take high items.now) (group_of id.now) part (map (λ key. key.now) all.items)) }
{
    for i in low..high {
        let chunk = &items[i];
        if !is_overlap(chunk, id, part) {
            continue;
        }
        found.push(chunk.key())?;
    }
    Ok(found)
}

// The keys of the chunks other than a segment's that overlap a part.
pub(crate) fn overlaps_in<'a>(
    alloc: Global,
    items: &'a [Chunk],
    id: &SegmentId,
    part: Interval,
) -> Result<Vec<&'a GroupKey>, AllocError>
    requires { AreInOrder items.now }
    ensures { IfOk result (λ found. AreOverlapsOf items.now (group_of id.now) part (map (λ key. key.now) found.items)) }
{
    let mut found = Vec::new(alloc);
    let mut from = 0;
    while from < items.len() {
        let (low, high, next) = near(items, from, part);
        found = add_overlaps(items, id, part, low, high, found)?;
        from = next;
    }
    Ok(found)
}
