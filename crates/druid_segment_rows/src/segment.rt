//! Segments. `Segment::new` judges all rows before it keeps any.
ghost use Rattle.std.specs.Prelude.{◌≡◌, ◌↔◌, ◌*◌, true, false, List, ℕ, ◌-◌, ◌<◌, ◌≤◌, ◌==◌, length, map, sum, slice_index_or, None, All, IsTrue, SomeIff, IfOk, OnSome, OnOk, OnErr, IsOk, IsErrOf, IsOkUnless};
ghost use Rattle.std.specs.List.Sorted.{IsNonDecreasing};
ghost use Rattle.std.specs.Option.{option_map};
ghost use Rattle.druid_time.specs.Extent.{Has};
ghost use Rattle.druid_segment_rows.specs.Rows.{IsSchema, HasShape, IsInside, HasShortValues, AreWords, HasWords, texts_of};
ghost use Rattle.druid_segment_rows.specs.Columns.{column, IsDictionary, AreCodes, rows_in, AreLong};
ghost use Rattle.druid_segment_rows.specs.Segment.{Segment, IsWithinLimits, HaveShape, AreInside, HaveWords, IsSegment, row_at, segment_of, with_row, row_length, head_length, text_length, max_text};

use crate::column::Column;
use crate::limits::{MAX_FIELDS, MAX_ROWS, MAX_TEXT};
use crate::numbers::Numbers;
use crate::table::Table;
use crate::table_builder::table_of_rows;
use crate::texts::Texts;
use crate::{Row, RowFault, Schema};
use druid_segment_descriptor::Descriptor;
use druid_time::{Instant, Interval};
use std::alloc::{AllocError, Global};
use std::marker::Model;

// The bytes of a text that stand before the rows, besides the source, the version and the names.
const FIXED_HEAD: usize = 38;

/// A segment: its descriptor, its schema and its rows, which never change. How the rows are kept is private.
#[derive(Debug, Drop)]
pub struct Segment {
    pub(crate) descriptor: Descriptor,
    pub(crate) schema: Schema,
    pub(crate) table: Table,
}

impl Model for Segment {
    ghost use Rattle.std.specs.Prelude.{◌≡◌, length};
    ghost use Rattle.druid_segment_rows.specs.Segment.{Segment, IsSegment, HaveWords, segment_of};

    ghost Value = { Segment };

    ghost view = { λ a. segment_of a.descriptor a.schema a.table.rows };

    ghost invariant = { λ a. IsSegment (segment_of a.descriptor a.schema a.table.rows)
        × HaveWords (segment_of a.descriptor a.schema a.table.rows)
        × (a.table.dimensions ≡ length a.schema.dimensions)
        × (a.table.metrics ≡ length a.schema.metrics) };
}

// The room that the head of a segment leaves in its text. None where it is longer.
fn room_after_head(descriptor: &Descriptor, schema: &Schema) -> Option<usize>
    ensures { SomeIff result (head_length descriptor.now schema.now ≤ max_text)
        (max_text - head_length descriptor.now schema.now) }
{
    let id = descriptor.id();
    let texts = id.source().as_str().len() + id.version().len();
    schema.room_after(MAX_TEXT - FIXED_HEAD - texts)
}

// The bytes that are left after rows; None where there are too few.
#[tactic(auto, using(crate::proofs::LengthLemmas::sum_rows, std::proofs::lemmas::List::Sums::sum_by_more_le, std::proofs::lemmas::Grind::common_steps))]
fn room_after_rows(rows: &[Row], mut room: usize) -> Option<usize>
    ensures value { SomeIff result (sum (map row_length rows.now) ≤ room) (room - sum (map row_length rows.now)) }
    ensures words { OnSome result (All HasWords rows.now) }
{
    for row in rows {
        room = row.as_row_ref().room_after(room)?;
    }
    Some(room)
}

fn have_short_values(rows: &[Row]) -> bool
    ensures { IsTrue result ↔ All HasShortValues rows.now }
{
    rows.iter().all(|row| row.as_row_ref().has_short_values())
}

// The room that is left in the text of a segment. None where a limit is passed.
fn room_left(descriptor: &Descriptor, schema: &Schema, rows: &[Row]) -> Option<usize>
    ensures value { SomeIff result (IsWithinLimits (segment_of descriptor.now schema.now rows.now))
        (max_text - text_length (segment_of descriptor.now schema.now rows.now)) }
    ensures words { OnSome result (HaveWords (segment_of descriptor.now schema.now rows.now)) }
{
    if schema.dimensions().len() > MAX_FIELDS || schema.metrics().len() > MAX_FIELDS {
        return None;
    }
    if rows.len() > MAX_ROWS || !have_short_values(rows) {
        return None;
    }
    room_after_rows(rows, room_after_head(descriptor, schema)?)
}

fn have_shape(schema: &Schema, rows: &[Row]) -> bool
    ensures { IsTrue result ↔ All (HasShape schema.now) rows.now }
{
    rows.iter().all(|row| schema.fits(&row.as_row_ref()))
}

fn are_inside(interval: Interval, rows: &[Row]) -> bool
    ensures { IsTrue result ↔ All (IsInside interval) rows.now }
{
    rows.iter().all(|row| interval.contains(row.time()))
}

// The room that is left in the text of a segment of these rows, or why they make none. Does not allocate.
pub(crate) fn judge(
    descriptor: &Descriptor,
    schema: &Schema,
    rows: &[Row],
) -> Result<usize, RowFault>
    ensures valid { OnOk result (IsSegment (segment_of descriptor.now schema.now rows.now)) }
    ensures words { OnOk result (HaveWords (segment_of descriptor.now schema.now rows.now)) }
    ensures room { IfOk result (λ room. room ≡ max_text - text_length (segment_of descriptor.now schema.now rows.now)) }
    ensures accepts { IsSegment (segment_of descriptor.now schema.now rows.now) → IsOk result }
    ensures tombstone { IsErrOf result RowFault.Tombstone ↔ (descriptor.now.tombstone ≡ true) }
    ensures bad_schema { IsErrOf result RowFault.BadSchema
        ↔ ((descriptor.now.tombstone ≡ false) × (¬ IsSchema schema.now)) }
    ensures too_long { IsErrOf result RowFault.TooLong
        ↔ ((descriptor.now.tombstone ≡ false)
        × IsSchema schema.now
        × (¬ IsWithinLimits (segment_of descriptor.now schema.now rows.now))) }
    ensures row_shape { IsErrOf result RowFault.RowShape
        ↔ ((descriptor.now.tombstone ≡ false)
        × IsSchema schema.now
        × IsWithinLimits (segment_of descriptor.now schema.now rows.now)
        × (¬ HaveShape (segment_of descriptor.now schema.now rows.now))) }
    ensures row_outside { IsErrOf result RowFault.RowOutside
        ↔ ((descriptor.now.tombstone ≡ false)
        × IsSchema schema.now
        × IsWithinLimits (segment_of descriptor.now schema.now rows.now)
        × HaveShape (segment_of descriptor.now schema.now rows.now)
        × (¬ AreInside (segment_of descriptor.now schema.now rows.now))) }
{
    if descriptor.is_tombstone() {
        return Err(RowFault::Tombstone);
    }
    if !schema.is_valid() {
        return Err(RowFault::BadSchema);
    }
    let Some(room) = room_left(descriptor, schema, rows) else {
        return Err(RowFault::TooLong);
    };
    if !have_shape(schema, rows) {
        return Err(RowFault::RowShape);
    }
    if !are_inside(descriptor.id().interval(), rows) {
        return Err(RowFault::RowOutside);
    }
    Ok(room)
}

// For the proof: each number that is read is of 64 bits.
fn read_metrics(columns: &[Numbers])
    ensures { All AreWords columns.now }
{
    for column in columns {
        column.read();
    }
}

impl Segment {
    /// The segment of these rows, in this order.
    ///
    /// # Errors
    ///
    /// U5; then U1; then U4 of more than 64 dimensions, 64 metrics or 100,000 rows, of a value of
    /// more than 1,024 bytes, or where the text of the segment has more than 16,777,216; then U3;
    /// then U2; U9 last.
    pub fn new(
        alloc: Global,
        descriptor: Descriptor,
        schema: Schema,
        rows: Vec<Row>,
    ) -> Result<Segment, RowFault>
        ensures value { IfOk result (λ segment. segment ≡ segment_of descriptor schema rows.items) }
        ensures valid { IfOk result IsSegment }
        ensures words { IfOk result HaveWords }
        ensures accepts { IsSegment (segment_of descriptor schema rows.items)
            → IsOkUnless result RowFault.Memory }
        ensures tombstone { IsErrOf result RowFault.Tombstone ↔ (descriptor.tombstone ≡ true) }
        ensures bad_schema { IsErrOf result RowFault.BadSchema
            ↔ ((descriptor.tombstone ≡ false) × (¬ IsSchema schema)) }
        ensures too_long { IsErrOf result RowFault.TooLong
            ↔ ((descriptor.tombstone ≡ false)
            × IsSchema schema
            × (¬ IsWithinLimits (segment_of descriptor schema rows.items))) }
        ensures row_shape { IsErrOf result RowFault.RowShape
            ↔ ((descriptor.tombstone ≡ false)
            × IsSchema schema
            × IsWithinLimits (segment_of descriptor schema rows.items)
            × (¬ HaveShape (segment_of descriptor schema rows.items))) }
        ensures row_outside { IsErrOf result RowFault.RowOutside
            ↔ ((descriptor.tombstone ≡ false)
            × IsSchema schema
            × IsWithinLimits (segment_of descriptor schema rows.items)
            × HaveShape (segment_of descriptor schema rows.items)
            × (¬ AreInside (segment_of descriptor schema rows.items))) }
    {
        match judge(&descriptor, &schema, &rows) {
            Ok(_) => Ok(Segment::of_judged(alloc, descriptor, schema, rows)?),
            Err(fault) => Err(fault),
        }
    }

    // The segment of rows that make one.
    fn of_judged(
        alloc: Global,
        descriptor: Descriptor,
        schema: Schema,
        rows: Vec<Row>,
    ) -> Result<Segment, AllocError>
        requires valid { IsSegment (segment_of descriptor schema rows.items) }
        requires words { HaveWords (segment_of descriptor schema rows.items) }
        ensures value { IfOk result (λ segment. segment ≡ segment_of descriptor schema rows.items) }
    {
        let (dimensions, metrics) = (schema.dimensions().len(), schema.metrics().len());
        let table = table_of_rows(alloc, dimensions, metrics, rows)?;
        Ok(Segment {
            descriptor,
            schema,
            table,
        })
    }

    /// The segment of these columns: the row at each place has the instant there, and what each column has there.
    /// Does not allocate.
    pub fn of_columns(
        alloc: Global,
        descriptor: Descriptor,
        schema: Schema,
        times: Vec<Instant>,
        dimensions: Vec<Column>,
        metrics: Vec<Numbers>,
    ) -> Segment
        requires valid { IsSegment (segment_of descriptor schema (rows_in times.items dimensions.items metrics.items)) }
        requires texts { AreLong (length times.items) dimensions.items }
        requires numbers { AreLong (length times.items) metrics.items }
        requires dimensions { length dimensions.items ≡ length schema.dimensions }
        requires metrics { length metrics.items ≡ length schema.metrics }
        ensures { result ≡ segment_of descriptor schema (rows_in times.items dimensions.items metrics.items) }
    {
        read_metrics(&metrics);
        let table = Table::new(alloc, times, dimensions, metrics);
        Segment {
            descriptor,
            schema,
            table,
        }
    }

    /// The bytes that the text of a segment may have after its head, which is what stands up to the number of rows.
    pub fn room_after_head(&self) -> usize
        ensures room { result ≡ max_text - head_length self.now.descriptor self.now.fields }
        ensures head { head_length self.now.descriptor self.now.fields ≤ max_text }
    {
        room_after_head(&self.descriptor, &self.schema).unwrap_or(0)
    }

    /// What is announced of it.
    pub fn descriptor(&self) -> &Descriptor
        ensures value { result.now ≡ self.now.descriptor }
        ensures valid { IsSegment self.now }
        ensures words { HaveWords self.now }
    {
        &self.descriptor
    }

    /// The names of the fields of its rows.
    pub fn schema(&self) -> &Schema
        ensures value { result.now ≡ self.now.fields }
        ensures valid { IsSegment self.now }
        ensures words { HaveWords self.now }
    {
        &self.schema
    }

    /// The number of its rows.
    pub fn len(&self) -> usize
        ensures value { result ≡ length self.now.rows }
        ensures valid { IsSegment self.now }
        ensures words { HaveWords self.now }
    {
        self.table.len()
    }

    /// Whether it has no rows.
    pub fn is_empty(&self) -> bool
        ensures { result ≡ (length self.now.rows == 0) }
    {
        self.table.len() == 0
    }

    /// The instant of the row at that place.
    pub fn time(&self, row: usize) -> Instant
        requires { row < length self.now.rows }
        ensures { result ≡ (row_at self.now row).time }
    {
        self.table.time(row)
    }

    /// The value that a row has for the dimension at that place of the schema. None for null.
    pub fn dimension(&self, row: usize, dimension: usize) -> Option<&str>
        requires row { row < length self.now.rows }
        requires dimension { dimension < length self.now.fields.dimensions }
        ensures { option_map (λ text. text.now) result
            ≡ slice_index_or (row_at self.now row).dimensions dimension None }
    {
        self.table.dimension(row, dimension)
    }

    /// The value that a row has for the metric at that place of the schema. None for null.
    pub fn metric(&self, row: usize, metric: usize) -> Option<i64>
        requires row { row < length self.now.rows }
        requires metric { metric < length self.now.fields.metrics }
        ensures { result ≡ slice_index_or (row_at self.now row).metrics metric None }
    {
        self.table.metric(row, metric)
    }

    /// The texts that rows have for the dimension at that place, each once, rising by their bytes.
    pub fn values(&self, dimension: usize) -> &Texts
        requires { dimension < length self.now.fields.dimensions }
        ensures { IsDictionary (column dimension self.now.rows) result.now }
    {
        self.table.values(dimension)
    }

    /// A code for each row: 0 where its value for that dimension is null, and k where it is the k-th of `values`.
    pub fn codes(&self, dimension: usize) -> &[u32]
        requires { dimension < length self.now.fields.dimensions }
        ensures { (texts : List (List ℕ)) → IsDictionary (column dimension self.now.rows) texts
            → AreCodes texts (column dimension self.now.rows) result.now }
    {
        self.table.codes(dimension)
    }

    /// The instant of each row.
    pub fn times(&self) -> &[Instant]
        ensures { result.now ≡ map (λ row. row.time) self.now.rows }
    {
        self.table.times()
    }

    /// The number or null of each row for the metric at that place.
    pub fn numbers(&self, metric: usize) -> &Numbers
        requires { metric < length self.now.fields.metrics }
        ensures { result.now ≡ map (λ row. slice_index_or row.metrics metric None) self.now.rows }
    {
        self.table.numbers(metric)
    }

    /// Whether no row's instant is below that of the row before it.
    pub fn is_rising(&self) -> bool
        ensures { IsTrue result ↔ IsNonDecreasing (map (λ row. row.time) self.now.rows) }
    {
        self.table.is_rising()
    }

    /// Where the rows of the interval stand: the place of the first, and the place after the last. Found by halving
    /// where instants rise; else all places.
    pub fn places_in(&self, interval: Interval) -> (usize, usize)
        ensures order { result.0 ≤ result.1 }
        ensures end { result.1 ≤ length self.now.rows }
        ensures all { (place : ℕ) → place < length self.now.rows → Has interval (row_at self.now place).time
            → (result.0 ≤ place) × (place < result.1) }
    {
        self.table.places_in(interval)
    }

    /// A copy of the row at that place.
    ///
    /// # Errors
    ///
    /// Out of memory.
    pub fn row(&self, row: usize) -> Result<Row, AllocError>
        requires { row < length self.now.rows }
        ensures { IfOk result (λ copy. copy ≡ row_at self.now row) }
    {
        self.table.row(row)
    }
}
