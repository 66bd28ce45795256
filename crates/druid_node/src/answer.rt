//! What a node tells of the pieces that it is asked for.
ghost use Rattle.std.specs.Prelude.{◌≡◌, ◌<◌, ◌≤◌, List, length, take, slice_index_or, All, IfOk};
ghost use Rattle.std.specs.List.{flat_map};
ghost use Rattle.druid_query.specs.Asked.{Asked};
ghost use Rattle.druid_partial.specs.Groups.{Group, IsResult};
ghost use Rattle.druid_partial.specs.Partials.{kinds_of};
ghost use Rattle.druid_query.specs.Query.{Query};
ghost use Rattle.druid_node.specs.Answers.{missing, IsAnswerOf};
ghost use Rattle.druid_node.specs.Placed.{Placed, counted_at, IsWithin};
ghost use Rattle.druid_partial_scan.specs.Once.{counted_groups};
ghost use Rattle.druid_partial_scan.specs.SliceGroups.{slice_groups};

use crate::held::Held;
use druid_partial_scan::{Slice, partial_of_slices, partial_on_threads};
use druid_partial_text::NodeAnswer;
use druid_query::{SegmentSlice, SubQuery};
use druid_time::Interval;
use std::alloc::{AllocError, Global};
use std::thread::Threads;

// A thread is started for so many rows: to count them takes longer than to start it.
const ROWS_OF_THREAD: usize = 2_000;

// A piece of the segment at a place among those that are held.
type Placed = (usize, Interval);

// The pieces whose segment is held, with its place.
fn placed_in(alloc: Global, held: &Held, asked: &[SegmentSlice]) -> Result<Vec<Placed>, AllocError>
    ensures reported { IfOk result (λ placed. (query : Query) → flat_map (counted_at query held.now) placed.items ≡ counted_groups query held.now asked.now) }
    ensures within { IfOk result (λ placed. All (IsWithin held.now) placed.items) }
{
    let mut placed = Vec::new(alloc);
    for slice in asked {
        if let Some(place) = held.place(slice.id()) {
            placed.push((place, slice.interval()))?;
        }
    }
    Ok(placed)
}

// How many of the first pieces are of one segment.
fn run_of(pieces: &[Placed]) -> usize
    requires { 0 < length pieces.now }
    ensures some { 0 < result }
    ensures inside { result ≤ length pieces.now }
    ensures one { (d : Placed) → All (λ piece. piece.0 ≡ (slice_index_or pieces.now 0 d).0) (take result pieces.now) }
{
    let place = pieces[0].0;
    for index in 1..pieces.len() {
        if pieces[index].0 != place {
            return index;
        }
    }
    pieces.len()
}

// The intervals of pieces of the segment at that place.
fn slice_at<'a>(
    alloc: Global,
    held: &'a Held,
    place: usize,
    pieces: &[Placed],
) -> Result<Slice<'a>, AllocError>
    requires place { place < length held.now }
    requires one { All (λ piece. piece.0 ≡ place) pieces.now }
    ensures { IfOk result (λ slice. (query : Query) → slice_groups query slice ≡ flat_map (counted_at query held.now) pieces.now) }
{
    let mut intervals = Vec::with_capacity(alloc, pieces.len())?;
    for (_, piece) in pieces {
        intervals.push(*piece)?;
    }
    Ok((held.at(place), intervals))
}

// The segments of these pieces, each with the intervals of its pieces that stand together.
fn slices_of<'a>(
    alloc: Global,
    held: &'a Held,
    pieces: &[Placed],
) -> Result<Vec<Slice<'a>>, AllocError>
    requires { All (IsWithin held.now) pieces.now }
    ensures { IfOk result (λ slices. (query : Query)
        → flat_map (slice_groups query) slices.items ≡ flat_map (counted_at query held.now) pieces.now) }
{
    let mut slices = Vec::new(alloc);
    let mut rest = pieces;
    while !rest.is_empty() {
        let place = rest[0].0;
        let (front, back) = rest.split_at(run_of(rest));
        slices.push(slice_at(alloc, held, place, front)?)?;
        rest = back;
    }
    Ok(slices)
}

// The pieces whose segment is held, in order by segment and by time.
fn sorted_in(alloc: Global, held: &Held, asked: &[SegmentSlice]) -> Result<Vec<Placed>, AllocError>
    ensures counted { IfOk result (λ placed. (query : Query) (groups : List Group)
        → IsResult (kinds_of query) (flat_map (counted_at query held.now) placed.items) groups
        → IsResult (kinds_of query) (counted_groups query held.now asked.now) groups) }
    ensures within { IfOk result (λ placed. All (IsWithin held.now) placed.items) }
{
    let mut placed = placed_in(alloc, held, asked)?;
    placed.sort_unstable_by_key(|(place, piece)| (*place, piece.start()));
    Ok(placed)
}

// The segments that are asked for and held, in order, each with the intervals of its pieces.
fn slices_asked<'a>(
    alloc: Global,
    held: &'a Held,
    asked: &[SegmentSlice],
) -> Result<Vec<Slice<'a>>, AllocError>
    ensures { IfOk result (λ slices. (query : Query) (groups : List Group)
        → IsResult (kinds_of query) (flat_map (slice_groups query) slices.items) groups
        → IsResult (kinds_of query) (counted_groups query held.now asked.now) groups) }
{
    let placed = sorted_in(alloc, held, asked)?;
    slices_of(alloc, held, &placed)
}

// How many of so many threads are worth their start for these slices, of which each segment's rows count whole.
fn threads_for(slices: &[Slice<'_>], threads: usize) -> usize {
    let mut rows = 0usize;
    for slice in slices {
        rows = rows.saturating_add(slice.0.len());
    }
    threads.min(slices.len()).min(rows / ROWS_OF_THREAD + 1)
}

// The pieces whose segment is not held.
fn missing_of(
    alloc: Global,
    held: &Held,
    asked: &[SegmentSlice],
) -> Result<Vec<SegmentSlice>, AllocError>
    ensures { IfOk result (λ pieces. pieces.items ≡ missing held.now asked.now) }
{
    let mut pieces = Vec::new(alloc);
    for piece in asked {
        if !held.holds(piece.id()) {
            pieces.push(piece.clone()?)?;
        }
    }
    Ok(pieces)
}

// What these segments answer.
pub(crate) fn answer_of(
    alloc: Global,
    held: &Held,
    sub: &SubQuery,
) -> Result<NodeAnswer, AllocError>
    ensures { IfOk result (IsAnswerOf held.now sub.now) }
{
    let slices = slices_asked(alloc, held, sub.asked())?;
    let partial = partial_of_slices(alloc, sub.query(), &slices)?;
    let missing = missing_of(alloc, held, sub.asked())?;
    Ok(NodeAnswer::new(partial, missing))
}

// The same, counted on so many threads at most: on one more for each 2,000 rows, and on no more than there are segments.
pub(crate) fn answer_in_parts<R: Threads>(
    rt: &R,
    alloc: Global,
    held: &Held,
    sub: &SubQuery,
    threads: usize,
) -> Result<NodeAnswer, AllocError>
    ensures { IfOk result (IsAnswerOf held.now sub.now) }
{
    let slices = slices_asked(alloc, held, sub.asked())?;
    let threads = threads_for(&slices, threads);
    let partial = partial_on_threads(rt, alloc, sub.query(), &slices, threads)?;
    let missing = missing_of(alloc, held, sub.asked())?;
    Ok(NodeAnswer::new(partial, missing))
}
