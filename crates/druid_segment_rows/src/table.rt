//! Rows by columns.
ghost use Rattle.std.specs.Prelude.{◌≡◌, ◌↔◌, ◌*◌, List, ℕ, ◌<◌, ◌≤◌, length, map, slice_index_or, None, All, IsTrue, IfOk};
ghost use Rattle.std.specs.List.Sorted.{IsNonDecreasing};
ghost use Rattle.std.specs.Option.{option_map};
ghost use Rattle.druid_time.specs.Extent.{Has};
ghost use Rattle.druid_segment_rows.specs.Rows.{no_row, texts_of, nullable_texts_of};
ghost use Rattle.druid_segment_rows.specs.Columns.{column, IsDictionary, AreCodes, across, AreLong};
ghost use Rattle.druid_segment_rows.specs.Table.{table_of};

use crate::Row;
use crate::column::Column;
use crate::numbers::Numbers;
use crate::texts::Texts;
use druid_base::copy_text;
use druid_time::{Instant, Interval};
use std::alloc::{AllocError, Global};
use std::marker::Model;

// Rows that have the same number of values, by columns, and whether their instants never fall.
#[derive(Debug, Drop)]
pub(crate) struct Table {
    alloc: Global,
    times: Vec<Instant>,
    dimensions: Vec<Column>,
    metrics: Vec<Numbers>,
    is_rising: bool,
}

impl Model for Table {
    ghost use Rattle.std.specs.Prelude.{◌*◌, ◌↔◌, IsTrue, length};
    ghost use Rattle.std.specs.List.Sorted.{IsNonDecreasing};
    ghost use Rattle.druid_segment_rows.specs.Columns.{AreLong};
    ghost use Rattle.druid_segment_rows.specs.Table.{Table, table_of};

    ghost Value = { Table };

    ghost view = { λ a. table_of a.times.items a.dimensions.items a.metrics.items };

    ghost invariant = { λ a. AreLong (length a.times.items) a.dimensions.items
        × AreLong (length a.times.items) a.metrics.items
        × (IsTrue a.is_rising ↔ IsNonDecreasing a.times.items) };
}

impl Table {
    // The table of these columns.
    pub(crate) fn new(
        alloc: Global,
        times: Vec<Instant>,
        dimensions: Vec<Column>,
        metrics: Vec<Numbers>,
    ) -> Table
        requires texts { AreLong (length times.items) dimensions.items }
        requires numbers { AreLong (length times.items) metrics.items }
        ensures { result ≡ table_of times.items dimensions.items metrics.items }
    {
        let is_rising = never_fall(&times);
        Table {
            alloc,
            times,
            dimensions,
            metrics,
            is_rising,
        }
    }

    // How many rows there are.
    pub(crate) fn len(&self) -> usize
        ensures { result ≡ length self.now.rows }
    {
        self.times.len()
    }

    // The instant of the row at that place.
    pub(crate) fn time(&self, row: usize) -> Instant
        requires { row < length self.now.rows }
        ensures { result ≡ (slice_index_or self.now.rows row no_row).time }
    {
        self.times[row]
    }

    // The number or null of each row for that metric.
    pub(crate) fn numbers(&self, metric: usize) -> &Numbers
        requires { metric < self.now.metrics }
        ensures { result.now ≡ map (λ row. slice_index_or row.metrics metric None) self.now.rows }
    {
        &self.metrics[metric]
    }

    fn dimension_column(&self, dimension: usize) -> &Column
        requires { dimension < self.now.dimensions }
        ensures { result.now ≡ column dimension self.now.rows }
    {
        &self.dimensions[dimension]
    }

    // The value of a row for the dimension at that place. None for null.
    #[tactic(auto, using(crate::proofs::TableLemmas::cell_steps))]
    pub(crate) fn dimension(&self, row: usize, dimension: usize) -> Option<&str>
        requires row { row < length self.now.rows }
        requires dimension { dimension < self.now.dimensions }
        ensures { option_map (λ text. text.now) result
            ≡ slice_index_or (slice_index_or self.now.rows row no_row).dimensions dimension None }
    {
        self.dimension_column(dimension).get(row)
    }

    // The value of a row for the metric at that place. None for null.
    #[tactic(auto, using(crate::proofs::TableLemmas::cell_steps))]
    pub(crate) fn metric(&self, row: usize, metric: usize) -> Option<i64>
        requires row { row < length self.now.rows }
        requires metric { metric < self.now.metrics }
        ensures { result ≡ slice_index_or (slice_index_or self.now.rows row no_row).metrics metric None }
    {
        self.numbers(metric).get(row)
    }

    // The texts that rows have for that dimension, each once, in order.
    pub(crate) fn values(&self, dimension: usize) -> &Texts
        requires { dimension < self.now.dimensions }
        ensures { IsDictionary (column dimension self.now.rows) result.now }
    {
        self.dimension_column(dimension).values()
    }

    // A code for each row's value for that dimension.
    pub(crate) fn codes(&self, dimension: usize) -> &[u32]
        requires { dimension < self.now.dimensions }
        ensures { (texts : List (List ℕ)) → IsDictionary (column dimension self.now.rows) texts
            → AreCodes texts (column dimension self.now.rows) result.now }
    {
        self.dimension_column(dimension).codes()
    }

    // The instant of each row.
    pub(crate) fn times(&self) -> &[Instant]
        ensures { result.now ≡ map (λ row. row.time) self.now.rows }
    {
        &self.times
    }

    // Whether no row's instant is below that of the row before it.
    pub(crate) fn is_rising(&self) -> bool
        ensures { IsTrue result ↔ IsNonDecreasing (map (λ row. row.time) self.now.rows) }
    {
        self.is_rising
    }

    // The place of the first row of the interval, and the place after its last, or wider.
    pub(crate) fn places_in(&self, interval: Interval) -> (usize, usize)
        ensures order { result.0 ≤ result.1 }
        ensures end { result.1 ≤ length self.now.rows }
        ensures all { (place : ℕ) → place < length self.now.rows → Has interval (slice_index_or self.now.rows place no_row).time
            → (result.0 ≤ place) × (place < result.1) }
    {
        if self.is_rising {
            places_among(&self.times, interval)
        } else {
            (0, self.times.len())
        }
    }

    // A copy of the row at that place.
    pub(crate) fn row(&self, row: usize) -> Result<Row, AllocError>
        requires { row < length self.now.rows }
        ensures { IfOk result (λ copy. copy ≡ slice_index_or self.now.rows row no_row) }
    {
        let dimensions = texts_across(self.alloc, &self.dimensions, row)?;
        let metrics = numbers_across(self.alloc, &self.metrics, row)?;
        Ok(Row::new(self.time(row), dimensions, metrics))
    }
}

// Whether no instant is below the one before it.
fn never_fall(times: &[Instant]) -> bool
    ensures { IsTrue result ↔ IsNonDecreasing times.now }
{
    times.is_sorted()
}

// A copy of what each column has at that place.
fn texts_across(
    alloc: Global,
    columns: &[Column],
    row: usize,
) -> Result<Vec<Option<String>>, AllocError>
    requires { All (λ column. row < length column) columns.now }
    ensures { IfOk result (λ values. nullable_texts_of values.items ≡ across columns.now row) }
{
    let mut values = Vec::with_capacity(alloc, columns.len())?;
    for column in columns {
        values.push(copy_text(alloc, column.get(row))?)?;
    }
    Ok(values)
}

// The number or null that each column has at that place.
fn numbers_across(
    alloc: Global,
    columns: &[Numbers],
    row: usize,
) -> Result<Vec<Option<i64>>, AllocError>
    requires { All (λ column. row < length column) columns.now }
    ensures { IfOk result (λ values. values.items ≡ across columns.now row) }
{
    let mut values = Vec::with_capacity(alloc, columns.len())?;
    for column in columns {
        values.push(column.get(row))?;
    }
    Ok(values)
}

// Where the instants that lie in the interval stand, where none falls: the place of the first, and the place after
// the last.
fn places_among(times: &[Instant], interval: Interval) -> (usize, usize)
    requires { IsNonDecreasing times.now }
    ensures order { result.0 ≤ result.1 }
    ensures end { result.1 ≤ length times.now }
    ensures all { (place : ℕ) → place < length times.now → Has interval (slice_index_or times.now place 0)
        → (result.0 ≤ place) × (place < result.1) }
{
    let start = place_from(times, interval.start());
    let end = place_from(times, interval.end());
    (start, end)
}

// The place of the first instant that is not below that one.
fn place_from(times: &[Instant], from: Instant) -> usize
    requires { IsNonDecreasing times.now }
    ensures bound { result ≤ length times.now }
    ensures below { (place : ℕ) → place < result → slice_index_or times.now place 0 < from }
    ensures from { (place : ℕ) → result ≤ place → place < length times.now → from ≤ slice_index_or times.now place 0 }
{
    times.partition_point(|time| *time < from)
}
