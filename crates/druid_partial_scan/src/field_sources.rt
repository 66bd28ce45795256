//! Where the fields that a query names stand in a segment. Of a name that stands twice in a schema,
//! which no segment has, the first place counts.
ghost use Rattle.std.specs.Prelude.{◌≡◌, ◌<◌, length, map, All, IfOk, option_map, option_and_then};
ghost use Rattle.druid_segment_rows.specs.Rows.{texts_of, nullable_texts_of};
ghost use Rattle.druid_segment_rows.specs.Segment.{row_at};
ghost use Rattle.druid_partial_scan.specs.Cells.{IsColumn, AreColumns};
ghost use Rattle.druid_partial_scan.specs.Scans.{AreFrom, AreNumbers};
ghost use Rattle.druid_partial_scan.specs.Places.{place_in, at_place, places_of, source_at, source_of, sources_of, IsSource, IsPlace};

use crate::cells::NumberColumn;
use crate::column::Column;
use druid_base::copy_text;
use druid_query::{Aggregator, AggregatorKind, Query};
use druid_segment_rows::{Schema, Segment};
use std::alloc::{AllocError, Global};

// Where a number of a row comes from.
#[derive(Clone, Copy)]
pub(crate) enum NumberSource {
    // Each row is one.
    One,
    // There is no such metric.
    Null,
    // The metric at that place.
    Metric(usize),
}

pub(crate) fn place_of(names: &[String], name: &str) -> Option<usize>
    ensures { result ≡ place_in (texts_of names.now) name.now }
{
    for place in 0..names.len() {
        if names[place].as_str() == name {
            return Some(place);
        }
    }
    None
}

// The places of the query's dimensions. None for one that the segment has not.
pub(crate) fn places_of(
    alloc: Global,
    query: &Query,
    schema: &Schema,
) -> Result<Vec<Option<usize>>, AllocError>
    ensures { IfOk result (λ places. places.items ≡ places_of query.now schema.now) }
{
    let names = schema.dimensions();
    query
        .dimensions()
        .iter()
        .map(|dimension| place_of(names, dimension.dimension()))
        .collect(alloc)
}

// Where the number of a field comes from.
fn field_source(schema: &Schema, field: Option<&str>) -> NumberSource
    ensures { result ≡ source_at (option_and_then (place_in schema.now.metrics) (option_map (λ s. s.now) field.entry)) }
{
    let Some(name) = field else {
        return NumberSource::Null;
    };
    match place_of(schema.metrics(), name) {
        Some(place) => NumberSource::Metric(place),
        None => NumberSource::Null,
    }
}

// Where the number that an aggregator takes of a row comes from.
fn source_of(schema: &Schema, aggregator: &Aggregator) -> NumberSource
    ensures { result ≡ source_of schema.now aggregator.now }
{
    match aggregator.kind() {
        AggregatorKind::Count => NumberSource::One,
        AggregatorKind::LongSum | AggregatorKind::LongMin | AggregatorKind::LongMax => {
            field_source(schema, aggregator.field())
        }
    }
}

// Where the numbers of the query's aggregators come from.
pub(crate) fn sources_of(
    alloc: Global,
    query: &Query,
    schema: &Schema,
) -> Result<Vec<NumberSource>, AllocError>
    ensures { IfOk result (λ sources. sources.items ≡ sources_of query.now schema.now) }
{
    query
        .aggregations()
        .iter()
        .map(|aggregator| source_of(schema, aggregator))
        .collect(alloc)
}

// A row's value at a place.
pub(crate) fn value_at(segment: &Segment, row: usize, place: Option<usize>) -> Option<&str>
    requires row { row < length segment.now.rows }
    requires place { IsPlace segment.now.fields place }
    ensures { option_map (λ text. text.now) result ≡ at_place (row_at segment.now row).dimensions place }
{
    segment.dimension(row, place?)
}

// A row's values at these places.
pub(crate) fn values_at<'a>(
    alloc: Global,
    segment: &'a Segment,
    row: usize,
    places: &[Option<usize>],
) -> Result<Vec<Option<&'a str>>, AllocError>
    requires row { row < length segment.now.rows }
    requires places { All (IsPlace segment.now.fields) places.now }
    ensures { IfOk result (λ values. map (option_map (λ text. text.now)) values.items
        ≡ map (at_place (row_at segment.now row).dimensions) places.now) }
{
    let mut values = Vec::with_capacity(alloc, places.len())?;
    for place in places {
        values.push(value_at(segment, row, *place))?;
    }
    Ok(values)
}

// The codes of a dimension.
fn column_of<'a>(segment: &'a Segment, place: Option<usize>) -> Column<'a>
    requires { IsPlace segment.now.fields place }
    ensures { IsColumn segment.now place result }
{
    match place {
        Some(place) => Column::new(segment.values(place).len() + 1, Some(segment.codes(place))),
        None => Column::new(1, None),
    }
}

// The codes of these dimensions.
pub(crate) fn columns_of<'a>(
    alloc: Global,
    segment: &'a Segment,
    places: &[Option<usize>],
) -> Result<Vec<Column<'a>>, AllocError>
    requires { All (IsPlace segment.now.fields) places.now }
    ensures { IfOk result (λ columns. AreColumns segment.now places.now columns.items) }
{
    let mut columns = Vec::with_capacity(alloc, places.len())?;
    for place in places {
        columns.push(column_of(segment, *place))?;
    }
    Ok(columns)
}

// The numbers of a source.
fn numbers_from<'a>(segment: &'a Segment, source: NumberSource) -> NumberColumn<'a>
    requires { IsSource segment.now.fields source }
    ensures { AreFrom segment.now source result }
{
    match source {
        NumberSource::One => NumberColumn::One,
        NumberSource::Null => NumberColumn::Null,
        NumberSource::Metric(place) => NumberColumn::Metric(segment.numbers(place)),
    }
}

// The numbers of these sources.
pub(crate) fn numbers_of<'a>(
    alloc: Global,
    segment: &'a Segment,
    sources: &[NumberSource],
) -> Result<Vec<NumberColumn<'a>>, AllocError>
    requires { All (IsSource segment.now.fields) sources.now }
    ensures { IfOk result (λ numbers. AreNumbers segment.now sources.now numbers.items) }
{
    let mut numbers = Vec::with_capacity(alloc, sources.len())?;
    for source in sources {
        numbers.push(numbers_from(segment, *source))?;
    }
    Ok(numbers)
}

// Copies of a row's values at these places.
pub(crate) fn texts_at(
    alloc: Global,
    segment: &Segment,
    row: usize,
    places: &[Option<usize>],
) -> Result<Vec<Option<String>>, AllocError>
    requires row { row < length segment.now.rows }
    requires places { All (IsPlace segment.now.fields) places.now }
    ensures { IfOk result (λ texts. nullable_texts_of texts.items ≡ map (at_place (row_at segment.now row).dimensions) places.now) }
{
    let mut texts = Vec::with_capacity(alloc, places.len())?;
    for place in places {
        texts.push(copy_text(alloc, value_at(segment, row, *place))?)?;
    }
    Ok(texts)
}
