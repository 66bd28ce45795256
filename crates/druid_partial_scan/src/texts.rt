//! The texts of a query's dimensions in several segments, and codes by them.
ghost use Rattle.std.specs.Prelude.{◌≡◌, ◌<◌, ◌≤◌, ℕ, Some, map, length, slice_get, All, IfOk, IfSome, IsTrue};
ghost use Rattle.druid_segment_rows.specs.Columns.{AreCodes};
ghost use Rattle.druid_partial_scan.specs.Places.{IsPlace};
ghost use Rattle.druid_partial_scan.specs.Slices.{borrowed_texts, texts_in, values_in, room_over, IsRising, IsCoded, AreCoded};

use crate::code_filter::dimension_of;
use crate::column::Column;
use druid_query::Query;
use druid_segment_rows::{Segment, Texts};
use druid_time::Interval;
use std::alloc::{AllocError, Global};
use std::cmp::Ordering;

/// A segment, and the intervals that are asked of it.
pub type Slice<'a> = (&'a Segment, Vec<Interval>);

// The texts of two sorted lists in one, each once.
fn merged<'a>(
    alloc: Global,
    left: &[&'a str],
    right: &[&'a str],
) -> Result<Vec<&'a str>, AllocError> {
    let mut texts = Vec::with_capacity(alloc, left.len().max(right.len()))?;
    let mut i = 0;
    let mut j = 0;
    while i < left.len() && j < right.len() {
        match left[i].cmp(right[j]) {
            Ordering::Less => {
                texts.push(left[i])?;
                i += 1;
            }
            Ordering::Equal => {
                texts.push(left[i])?;
                i += 1;
                j += 1;
            }
            Ordering::Greater => {
                texts.push(right[j])?;
                j += 1;
            }
        }
    }
    while i < left.len() {
        texts.push(left[i])?;
        i += 1;
    }
    while j < right.len() {
        texts.push(right[j])?;
        j += 1;
    }
    Ok(texts)
}

// A segment's texts of the dimension of that name.
fn own_texts<'a>(
    alloc: Global,
    segment: &'a Segment,
    name: &str,
) -> Result<Vec<&'a str>, AllocError> {
    let Some(place) = dimension_of(segment, name) else {
        return Ok(Vec::new(alloc));
    };
    let values = segment.values(place);
    let mut texts = Vec::with_capacity(alloc, values.len())?;
    for place in 0..values.len() {
        texts.push(values.get(place))?;
    }
    Ok(texts)
}

// The texts that the segments have of the dimension of that name. The slices are halved, so that
// each text is compared a logarithmic number of times.
fn texts_named<'a>(
    alloc: Global,
    slices: &[Slice<'a>],
    name: &str,
) -> Result<Vec<&'a str>, AllocError> {
    if slices.is_empty() {
        return Ok(Vec::new(alloc));
    }
    if slices.len() == 1 {
        return own_texts(alloc, slices[0].0, name);
    }
    let (front, back) = slices.split_at(slices.len() / 2);
    let left = texts_named(alloc, front, name)?;
    let right = texts_named(alloc, back, name)?;
    merged(alloc, &left, &right)
}

// The texts of each of the query's dimensions.
pub(crate) fn texts_over<'a>(
    alloc: Global,
    query: &Query,
    slices: &[Slice<'a>],
) -> Result<Vec<Vec<&'a str>>, AllocError>
    ensures { IfOk result (λ lists. length lists.items ≡ length query.now.dimensions) }
{
    let mut lists = Vec::with_capacity(alloc, query.dimensions().len())?;
    for dimension in query.dimensions() {
        lists.push(texts_named(alloc, slices, dimension.dimension())?)?;
    }
    Ok(lists)
}

// The same lists, borrowed: of a thread's closure that captures vectors of borrowed texts, its caller knows nothing.
pub(crate) fn lists_of<'b, 'a>(
    alloc: Global,
    texts: &'b [Vec<&'a str>],
) -> Result<Vec<&'b [&'a str]>, AllocError>
    ensures { IfOk result (λ lists. length lists.items ≡ length texts.now) }
{
    let mut lists = Vec::with_capacity(alloc, texts.len())?;
    for list in texts {
        lists.push(list.as_slice())?;
    }
    Ok(lists)
}

// Whether each text is above the one before it.
fn is_rising(texts: &[&str]) -> bool
    ensures { IsTrue result → IsRising (borrowed_texts texts.now) }
{
    for place in 1..texts.len() {
        if texts[place - 1].cmp(texts[place]) != Ordering::Less {
            return false;
        }
    }
    true
}

// Whether those of each list are.
pub(crate) fn are_rising(lists: &[&[&str]]) -> bool
    ensures { IsTrue result → All IsRising (texts_in lists.now) }
{
    for texts in lists {
        if !is_rising(texts) {
            return false;
        }
    }
    true
}

// How many numbers codes of these texts make. None where that is more than a word.
pub(crate) fn room_over(lists: &[&[&str]]) -> Option<usize>
    ensures { IfSome result (λ room. room ≡ room_over (texts_in lists.now) 1) }
{
    let mut room: usize = 1;
    for texts in lists {
        room = room.checked_mul(texts.len() + 1)?;
    }
    Some(room)
}

// A place at which all texts before, from the first on, are below the text, and those after are
// not: where texts rise. The step from the first is doubled, and then halved.
fn place_from(texts: &[&str], first: usize, text: &str) -> usize {
    let mut low = first;
    let mut step = 1;
    while low < texts.len() && step < texts.len() - low && texts[low + step] < text {
        low += step;
        step *= 2;
    }
    let mut high = texts.len().min(low.saturating_add(step).saturating_add(1));
    while low < high {
        let middle = low + (high - low) / 2;
        if texts[middle] < text {
            low = middle + 1;
        } else {
            high = middle;
        }
    }
    low
}

// The place of a text, looked for from one on.
fn found_from(texts: &[&str], first: usize, text: &str) -> Option<usize>
    ensures there { IfSome result (λ place. slice_get (borrowed_texts texts.now) place ≡ Some text.now) }
    ensures inside { IfSome result (λ place. place < length texts.now) }
{
    if is_at(texts, first, text) {
        return Some(first);
    }
    let place = place_from(texts, first, text);
    if is_at(texts, place, text) {
        return Some(place);
    }
    None
}

// Whether the text is at that place.
fn is_at(texts: &[&str], place: usize, text: &str) -> bool
    ensures there { IsTrue result → slice_get (borrowed_texts texts.now) place ≡ Some text.now }
    ensures inside { IsTrue result → place < length texts.now }
{
    if place >= texts.len() {
        return false;
    }
    texts[place] == text
}

// For each code of a segment's own texts the code of the same text among those of all. None where
// one is not there.
fn table_of(alloc: Global, texts: &[&str], own: &Texts) -> Result<Option<Vec<usize>>, AllocError>
    ensures { IfOk result (λ found. IfSome found (λ table.
        AreCodes (borrowed_texts texts.now) (values_in own.now) table.items)) }
{
    let mut table = Vec::with_capacity(alloc, own.len() + 1)?;
    table.push(0)?;
    let mut first = 0;
    for code in 0..own.len() {
        let Some(place) = found_from(texts, first, own.get(code)) else {
            return Ok(None);
        };
        table.push(place + 1)?;
        first = place + 1;
    }
    Ok(Some(table))
}

// A dimension's codes by these texts. None where the segment has another.
fn coded_column<'a>(
    alloc: Global,
    segment: &'a Segment,
    texts: &[&str],
    place: Option<usize>,
) -> Result<Option<Column<'a>>, AllocError>
    requires { IsPlace segment.now.fields place }
    ensures { IfOk result (λ found. IfSome found (IsCoded segment.now (borrowed_texts texts.now) place)) }
{
    let size = texts.len() + 1;
    let Some(place) = place else {
        return Ok(Some(Column::new(size, None)));
    };
    match table_of(alloc, texts, segment.values(place))? {
        Some(table) => Ok(Some(Column::through(size, segment.codes(place), table))),
        None => Ok(None),
    }
}

// The codes of these dimensions by the texts of each. None where the segment has another text.
pub(crate) fn coded_columns<'a>(
    alloc: Global,
    segment: &'a Segment,
    lists: &[&[&str]],
    places: &[Option<usize>],
) -> Result<Option<Vec<Column<'a>>>, AllocError>
    requires places { All (IsPlace segment.now.fields) places.now }
    requires long { length lists.now ≡ length places.now }
    ensures { IfOk result (λ found. IfSome found (λ columns. AreCoded segment.now (texts_in lists.now) places.now columns.items)) }
{
    let mut columns = Vec::with_capacity(alloc, places.len())?;
    for index in 0..places.len() {
        let Some(column) = coded_column(alloc, segment, lists[index], places[index])? else {
            return Ok(None);
        };
        columns.push(column)?;
    }
    Ok(Some(columns))
}
