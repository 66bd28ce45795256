//! What several segments tell a query, counted on several threads.
ghost use Rattle.std.specs.Prelude.{◌≡◌, IfOk, IfSome};
ghost use Rattle.std.specs.List.{flat_map};
ghost use Rattle.druid_time.specs.declared.granularity.Granularity.TheVariants as granularity;
ghost use Rattle.druid_partial.specs.Groups.{IsResult};
ghost use Rattle.druid_partial.specs.Partials.{kinds_of, IsPartialFor};
ghost use Rattle.druid_partial_scan.specs.Slices.{CanTally, AreTallied};
ghost use Rattle.druid_partial_scan.specs.SliceGroups.{slice_groups};

use crate::group_array::Cells;
use crate::key::Key;
use crate::slices::{partial_in, partial_in_halves, pays, room_for, rows_asked, tally};
use crate::texts::{Slice, lists_of, texts_over};
use druid_partial::{Partial, kinds_of, merge};
use druid_query::Query;
use std::alloc::{AllocError, Global};
use std::thread::{Threads, join};

// How many of so many threads have rows for a quarter of the room of an array each.
fn threads_over(slices: &[Slice<'_>], room: usize, threads: usize) -> usize {
    threads.min(rows_asked(slices).saturating_add(64) / (room / 4).max(1))
}

// The groups of all rows, each in its cell, counted on so many threads at most, this one among them. Each counts its part of the
// slices into an array of its own, and this one, which starts the others, joins the arrays cell by cell. None where a segment
// has a text that is not among these.
fn tally_in_parts<'a, R: Threads>(
    rt: &R,
    alloc: Global,
    query: &'a Query,
    slices: &[Slice<'a>],
    lists: &[&[&str]],
    room: usize,
    threads: usize,
) -> Result<Option<Cells<Key>>, AllocError>
    requires { CanTally query.now lists.now room }
    ensures { IfOk result (AreTallied query.now lists.now slices.now) }
{
    if threads <= 1 {
        return tally(alloc, query, slices, lists, room);
    }
    let rest = threads - 1;
    let (front, back) = slices.split_at(slices.len() / threads);
    let (left, right) = join(
        rt,
        || -> Result<Option<Cells<Key>>, AllocError>
            requires { CanTally query.now lists.now room }
            ensures { IfOk result (AreTallied query.entry.now lists.entry.now front.entry.now) }
        { tally(alloc, query, front, lists, room) },
        || -> Result<Option<Cells<Key>>, AllocError>
            requires { CanTally query.now lists.now room }
            ensures { IfOk result (AreTallied query.entry.now lists.entry.now back.entry.now) }
        { tally_in_parts(rt, alloc, query, back, lists, room, rest) },
    );
    let Some(mut cells) = left? else {
        return Ok(None);
    };
    let Some(others) = right? else {
        return Ok(None);
    };
    let kinds = kinds_of(alloc, query)?;
    cells.join_cells(&kinds, others);
    Ok(Some(cells))
}

// What all slices tell, counted at once. None where that does not pay.
fn partial_at_once<'a, R: Threads>(
    rt: &R,
    alloc: Global,
    query: &'a Query,
    slices: &[Slice<'a>],
    threads: usize,
) -> Result<Option<Partial>, AllocError>
    requires { query.now.granularity ≡ granularity.All }
    ensures result { IfOk result (λ found. IfSome found (λ partial.
        IsResult (kinds_of query.now) (flat_map (slice_groups query.now) slices.now) partial.groups)) }
    ensures of_query { IfOk result (λ found. IfSome found (IsPartialFor query.now)) }
{
    let texts = texts_over(alloc, query, slices)?;
    let lists = lists_of(alloc, &texts)?;
    let Some(room) = room_for(&lists, slices) else {
        return Ok(None);
    };
    let threads = threads_over(slices, room, threads);
    let Some(cells) = tally_in_parts(rt, alloc, query, slices, &lists, room, threads)? else {
        return Ok(None);
    };
    let partial = partial_in(alloc, query, cells)?;
    Ok(Some(partial))
}

// What slices tell, each counted alone, on so many threads at most, this one among them. Each of the others counts and merges
// its part, and this one, which starts them, merges what they counted.
fn partial_in_parts<R: Threads>(
    rt: &R,
    alloc: Global,
    query: &Query,
    slices: &[Slice<'_>],
    threads: usize,
) -> Result<Partial, AllocError>
    ensures result { IfOk result (λ partial.
        IsResult (kinds_of query.now) (flat_map (slice_groups query.now) slices.now) partial.groups) }
    ensures of_query { IfOk result (IsPartialFor query.now) }
{
    if threads <= 1 {
        return partial_in_halves(alloc, query, slices);
    }
    let rest = threads - 1;
    let (front, back) = slices.split_at(slices.len() / threads);
    let (left, right) = join(
        rt,
        || -> Result<Partial, AllocError>
            ensures { IfOk result (λ partial. IsResult (kinds_of query.entry.now) (flat_map (slice_groups query.entry.now) front.entry.now) partial.groups
                × IsPartialFor query.entry.now partial) }
        { partial_in_halves(alloc, query, front) },
        || -> Result<Partial, AllocError>
            ensures { IfOk result (λ partial. IsResult (kinds_of query.entry.now) (flat_map (slice_groups query.entry.now) back.entry.now) partial.groups
                × IsPartialFor query.entry.now partial) }
        { partial_in_parts(rt, alloc, query, back, rest) },
    );
    match merge(alloc, left?, right?) {
        Ok(both) => Ok(both),
        Err(_) => Err(AllocError),
    }
}

/// What `partial_of_slices` tells, counted on so many threads at most, this one among them. What is counted at once is counted over
/// one list of texts, into an array for each thread, on as many as have rows for its room; else each thread counts its part of the
/// slices, and what they tell is merged.
///
/// # Errors
///
/// Out of memory.
pub fn partial_on_threads<R: Threads>(
    rt: &R,
    alloc: Global,
    query: &Query,
    slices: &[Slice<'_>],
    threads: usize,
) -> Result<Partial, AllocError>
    ensures result { IfOk result (λ partial.
        IsResult (kinds_of query.now) (flat_map (slice_groups query.now) slices.now) partial.groups) }
    ensures of_query { IfOk result (IsPartialFor query.now) }
{
    if pays(query, slices) {
        if let Some(partial) = partial_at_once(rt, alloc, &*query, &*slices, threads)? {
            return Ok(partial);
        }
    }
    partial_in_parts(rt, alloc, query, slices, threads)
}
