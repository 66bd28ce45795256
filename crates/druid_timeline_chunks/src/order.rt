//! Halving over chunks in the order of their places.
ghost use Rattle.std.specs.Prelude.{◌≡◌, ◌≤◌, ◌<◌, IfOk, IfErr, OnErr, MatchOption, Contains, length, nat_lt};
ghost use Rattle.std.specs.List.{AllWithin, HoldsAt};
ghost use Rattle.std.specs.List.Sorted.{IsNonDecreasingBy};
ghost use Rattle.druid_timeline_chunks.specs.Chunks.{HasNoChunk};
ghost use Rattle.druid_timeline_chunks.specs.Places.{chunk_place, place_of};

use crate::Chunk;
use crate::place::ChunkPlace;
use druid_segment_id::Version;
use druid_time::Interval;

// The index of the first chunk that does not stand before a place; the number of chunks where all do.
pub(crate) fn first_from(items: &[Chunk], place: &ChunkPlace) -> usize
    requires { IsNonDecreasingBy chunk_place items.now }
    ensures within { result ≤ length items.now }
    ensures before { AllWithin (λ chunk. chunk_place chunk < place.now) items.now 0 result }
    ensures after { AllWithin (λ chunk. place.now ≤ chunk_place chunk) items.now result (length items.now) }
{
    items.partition_point(
        |chunk: &Chunk| -> bool
            ensures { result ≡ nat_lt (chunk_place chunk.now) place.entry.now }
        { ChunkPlace::of(chunk.key().interval()).is_before(place) },
    )
}

// The index of the chunk of an interval and a version; where there is none, the index that a new one would have.
pub(crate) fn seek(items: &[Chunk], interval: Interval, version: &Version) -> Result<usize, usize>
    requires { IsNonDecreasingBy chunk_place items.now }
    ensures within { IfOk result (λ i. i < length items.now) }
    ensures found { IfOk result (HoldsAt (λ chunk. chunk.0 ≡ record { interval = interval; version = version.now }) items.now) }
    ensures absent { OnErr result (HasNoChunk items.now (record { interval = interval; version = version.now })) }
    ensures end { IfErr result (λ i. i ≤ length items.now) }
    ensures before { IfErr result (λ i. AllWithin (λ chunk. chunk_place chunk ≤ place_of interval) items.now 0 i) }
    ensures after { IfErr result (λ i. AllWithin (λ chunk. place_of interval ≤ chunk_place chunk)
        items.now i (length items.now)) }
{
    let first = first_from(items, &ChunkPlace::of(interval));
    for i in first..items.len() {
        let key = items[i].key();
        if key.interval() != interval {
            return Err(i);
        }
        if key.version() == version {
            return Ok(i);
        }
    }
    Err(items.len())
}

// The chunk of an interval and a version.
pub(crate) fn find_in<'a>(
    items: &'a [Chunk],
    interval: Interval,
    version: &Version,
) -> Option<&'a Chunk>
    requires { IsNonDecreasingBy chunk_place items.now }
    ensures { MatchOption result
        (HasNoChunk items.now (record { interval = interval; version = version.now }))
        (λ chunk. Contains items.now chunk.now × (chunk.now.0 ≡ record { interval = interval; version = version.now })) }
{
    match seek(items, interval, version) {
        Ok(i) => Some(&items[i]),
        Err(_) => None,
    }
}
