//! What several segments tell a query. Where it has one bucket, the rows of all are counted into
//! one array of groups, or one for each thread.
ghost use Rattle.std.specs.Prelude.{◌≡◌, ◌<◌, ◌^◌, length, All, IfOk, IfSome, IsTrue};
ghost use Rattle.std.specs.List.{flat_map};
ghost use Rattle.druid_time.specs.declared.granularity.Granularity.TheVariants as granularity;
ghost use Rattle.druid_partial.specs.Groups.{AreWords, Group, IsResult};
ghost use Rattle.druid_partial.specs.Partials.{kinds_of, IsPartial, IsPartialFor};
ghost use Rattle.druid_partial_scan.specs.Scans.{HasRoom};
ghost use Rattle.druid_partial_scan.specs.Slices.{texts_in, room_over, groups_held, present, IsRising, Adds, IsTally};
ghost use Rattle.druid_partial_scan.specs.SliceGroups.{slice_groups};

use crate::code_filter::dimension_of;
use crate::group_array::Cells;
use crate::key::Key;
use crate::scan::{Scan, partial_over};
use crate::texts::{Slice, are_rising, lists_of, room_over, texts_over};
use druid_partial::{Group, Partial, kinds_of, merge};
use druid_query::Query;
use druid_time::Granularity;
use std::alloc::{AllocError, Global};

// How many rows lie in the intervals.
pub(crate) fn rows_asked(slices: &[Slice<'_>]) -> usize {
    let mut rows: usize = 0;
    for slice in slices {
        for piece in &slice.1 {
            let (start, end) = slice.0.places_in(*piece);
            rows = rows.saturating_add(end - start);
        }
    }
    rows
}

// How many texts the segments have of the query's dimensions.
fn texts_held(query: &Query, slices: &[Slice<'_>]) -> usize {
    let mut texts: usize = 0;
    for slice in slices {
        for dimension in query.dimensions() {
            if let Some(place) = dimension_of(slice.0, dimension.dimension()) {
                texts = texts.saturating_add(slice.0.values(place).len());
            }
        }
    }
    texts
}

fn has_one_bucket(query: &Query) -> bool
    ensures { IsTrue result → query.now.granularity ≡ granularity.All }
{
    match query.granularity() {
        Granularity::All => true,
        Granularity::Second | Granularity::Minute | Granularity::Hour | Granularity::Day => false,
    }
}

// Whether it pays to put the texts of all segments together: there is one bucket, and a row at
// least for each text.
pub(crate) fn pays(query: &Query, slices: &[Slice<'_>]) -> bool
    ensures { IsTrue result → query.now.granularity ≡ granularity.All }
{
    if slices.len() < 2 || rows_asked(slices) < texts_held(query, slices) {
        return false;
    }
    has_one_bucket(query)
}

// Adds the rows of a slice. Not all, where its segment has a text that is not among these.
fn add_slice<'a>(
    alloc: Global,
    query: &'a Query,
    slice: &Slice<'a>,
    lists: &[&[&str]],
    cells: &mut Cells<Key>,
) -> Result<bool, AllocError>
    requires one { query.now.granularity ≡ granularity.All }
    requires long { length lists.now ≡ length query.now.dimensions }
    requires rising { All IsRising (texts_in lists.now) }
    requires room { HasRoom query.now (room_over (texts_in lists.now) 1) cells.now }
    requires small { room_over (texts_in lists.now) 1 < 2 ^ 64 }
    ensures room { IfOk result (λ done. IsTrue done → HasRoom query.now (room_over (texts_in lists.now) 1) cells.new) }
    ensures adds { IfOk result (λ done. IsTrue done
        → Adds query.now (texts_in lists.now) (slice_groups query.now slice.now) (groups_held cells.old.groups) (groups_held cells.new.groups)) }
{
    let Some(scan) = Scan::over(alloc, query, slice.0, lists)? else {
        return Ok(false);
    };
    scan.add_pieces(alloc, &slice.1, cells)?;
    Ok(true)
}

// Adds the rows of all slices.
fn add_slices<'a>(
    alloc: Global,
    query: &'a Query,
    slices: &[Slice<'a>],
    lists: &[&[&str]],
    cells: &mut Cells<Key>,
) -> Result<bool, AllocError>
    requires one { query.now.granularity ≡ granularity.All }
    requires long { length lists.now ≡ length query.now.dimensions }
    requires rising { All IsRising (texts_in lists.now) }
    requires room { HasRoom query.now (room_over (texts_in lists.now) 1) cells.now }
    requires small { room_over (texts_in lists.now) 1 < 2 ^ 64 }
    ensures room { IfOk result (λ done. IsTrue done → HasRoom query.now (room_over (texts_in lists.now) 1) cells.new) }
    ensures adds { IfOk result (λ done. IsTrue done
        → Adds query.now (texts_in lists.now) (flat_map (slice_groups query.now) slices.now) (groups_held cells.old.groups) (groups_held cells.new.groups)) }
{
    for slice in slices {
        let done = add_slice(alloc, query, slice, lists, cells)?;
        if !done {
            return Ok(false);
        }
    }
    Ok(true)
}

// How many cells codes of these texts make. None where an array of so many does not pay for the rows.
pub(crate) fn room_for(lists: &[&[&str]], slices: &[Slice<'_>]) -> Option<usize>
    ensures room { IfSome result (λ room. room ≡ room_over (texts_in lists.now) 1) }
    ensures rising { IfSome result (λ room. All IsRising (texts_in lists.now)) }
{
    let room = room_over(lists)?;
    // An array costs its room.
    if room / 4 > rows_asked(slices).saturating_add(64) {
        return None;
    }
    if !are_rising(lists) {
        return None;
    }
    Some(room)
}

// The groups of all rows, each in its cell. None where a segment has a text that is not among these.
pub(crate) fn tally<'a>(
    alloc: Global,
    query: &'a Query,
    slices: &[Slice<'a>],
    lists: &[&[&str]],
    room: usize,
) -> Result<Option<Cells<Key>>, AllocError>
    requires one { query.now.granularity ≡ granularity.All }
    requires long { length lists.now ≡ length query.now.dimensions }
    requires rising { All IsRising (texts_in lists.now) }
    requires room { room ≡ room_over (texts_in lists.now) 1 }
    ensures { IfOk result (λ found. IfSome found (IsTally query.now (texts_in lists.now) (flat_map (slice_groups query.now) slices.now))) }
{
    let mut cells = Cells::new(alloc, room, query.aggregations().len())?;
    let done = add_slices(alloc, query, slices, lists, &mut cells)?;
    if done {
        return Ok(Some(cells));
    }
    Ok(None)
}

// The groups that are in cells.
fn closed(alloc: Global, mut cells: Cells<Key>) -> Result<Vec<Group>, AllocError>
    requires { All (λ group. AreWords group.numbers) (present (groups_held cells.groups)) }
    ensures { IfOk result (λ groups. groups.items ≡ present (groups_held cells.groups)) }
{
    let mut groups = Vec::new(alloc);
    for cell in 0..cells.room() {
        if let Some((key, numbers)) = cells.take(alloc, cell)? {
            groups.push(key.group(numbers))?;
        }
    }
    Ok(groups)
}

// The partial of the groups that are in cells.
pub(crate) fn partial_in(
    alloc: Global,
    query: &Query,
    cells: Cells<Key>,
) -> Result<Partial, AllocError>
    requires { IsPartial (record { kinds = kinds_of query.now; groups = present (groups_held cells.groups) }) }
    ensures { IfOk result (λ partial. partial ≡ record { kinds = kinds_of query.now; groups = present (groups_held cells.groups) }) }
{
    let groups = closed(alloc, cells)?;
    let kinds = kinds_of(alloc, query)?;
    Ok(Partial::new(kinds, groups))
}

// What all slices tell, counted at once. None where that does not pay.
fn partial_at_once<'a>(
    alloc: Global,
    query: &'a Query,
    slices: &[Slice<'a>],
) -> Result<Option<Partial>, AllocError>
    requires { query.now.granularity ≡ granularity.All }
    ensures result { IfOk result (λ found. IfSome found (λ partial.
        IsResult (kinds_of query.now) (flat_map (slice_groups query.now) slices.now) partial.groups)) }
    ensures of_query { IfOk result (λ found. IfSome found (IsPartialFor query.now)) }
{
    let texts = texts_over(alloc, query, slices)?;
    let lists = lists_of(alloc, &texts)?;
    let Some(room) = room_for(&lists, slices) else {
        return Ok(None);
    };
    let Some(cells) = tally(alloc, query, slices, &lists, room)? else {
        return Ok(None);
    };
    let partial = partial_in(alloc, query, cells)?;
    Ok(Some(partial))
}

fn partial_of_slice(alloc: Global, query: &Query, slice: &Slice<'_>) -> Result<Partial, AllocError>
    ensures result { IfOk result (λ partial.
        IsResult (kinds_of query.now) (slice_groups query.now slice.now) partial.groups) }
    ensures of_query { IfOk result (IsPartialFor query.now) }
{
    partial_over(alloc, query, slice.0, &slice.1)
}

// What slices tell, each counted alone. They are halved, so that merges move each group a
// logarithmic number of times.
pub(crate) fn partial_in_halves(
    alloc: Global,
    query: &Query,
    slices: &[Slice<'_>],
) -> Result<Partial, AllocError>
    ensures result { IfOk result (λ partial.
        IsResult (kinds_of query.now) (flat_map (slice_groups query.now) slices.now) partial.groups) }
    ensures of_query { IfOk result (IsPartialFor query.now) }
{
    if slices.is_empty() {
        return Partial::empty(alloc, query);
    }
    if slices.len() == 1 {
        return partial_of_slice(alloc, query, &slices[0]);
    }
    let (front, back) = slices.split_at(slices.len() / 2);
    let left = partial_in_halves(alloc, query, front)?;
    let right = partial_in_halves(alloc, query, back)?;
    match merge(alloc, left, right) {
        Ok(both) => Ok(both),
        Err(_) => Err(AllocError),
    }
}

/// What the query tells of the rows of these segments that lie in the intervals of each and pass
/// its filter: a row that lies in two of them counts twice. Where it has one bucket, and the rows
/// of several segments are not few beside their texts and the cells that these make, all are
/// counted at once, each text is copied once for each group, and nothing is merged; else each
/// segment is counted alone, and what they tell is merged.
///
/// # Errors
///
/// Out of memory.
pub fn partial_of_slices(
    alloc: Global,
    query: &Query,
    slices: &[Slice<'_>],
) -> Result<Partial, AllocError>
    ensures result { IfOk result (λ partial.
        IsResult (kinds_of query.now) (flat_map (slice_groups query.now) slices.now) partial.groups) }
    ensures of_query { IfOk result (IsPartialFor query.now) }
{
    if pays(query, slices) {
        if let Some(partial) = partial_at_once(alloc, &*query, &*slices)? {
            return Ok(partial);
        }
    }
    partial_in_halves(alloc, query, slices)
}
