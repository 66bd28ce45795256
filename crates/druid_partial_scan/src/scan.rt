//! What a segment tells a query.
ghost use Rattle.std.specs.Prelude.{◌≡◌, ◌≢◌, ◌+◌, ◌<◌, ◌≤◌, ◌^◌, ◌∷◌, ◌++◌, [], ℕ, List, set, length, All, Some, None, IfOk, IfSome, OnOk, IsTrue, slice_index_or};
ghost use Rattle.druid_time.specs.Extent.{Extent};
ghost use Rattle.druid_segment_rows.specs.Segment.{Segment, row_at};
ghost use Rattle.druid_query.specs.Query.{Query};
ghost use Rattle.druid_partial.specs.Groups.{AreWords, Group, IsResult};
ghost use Rattle.druid_partial.specs.Joined.{merged};
ghost use Rattle.std.specs.List.{flat_map};
ghost use Rattle.druid_partial.specs.Partials.{bucket_of, earliest, kinds_of, IsPartialFor};
ghost use Rattle.druid_partial_scan.specs.Rows.{is_asked, counted_by};
ghost use Rattle.druid_partial_scan.specs.Entries.{groups_of};
ghost use Rattle.druid_partial_scan.specs.Cells.{room_from, cells_in, is_there, joined_with, AreColumns};
ghost use Rattle.druid_partial_scan.specs.Places.{places_of};
ghost use Rattle.druid_partial_scan.specs.Slices.{texts_in, groups_held, AreCoded, IsRising, IsOver, Adds, Texts};
ghost use Rattle.druid_partial_scan.specs.Scans.{counted_at, bucket_at, cell_at, groups_in, groups_by, IsKept, IsJoined, IsJoinedBy, AreEntries, AreKept, AreCounted, AreUpto, AreCells, ComeBefore, HasRoom, HaveBucket, BucketsRise};

use crate::cells::{NumberColumn, Sparse, enter_row, numbers_at};
use crate::code_filter::{CodeFilter, constant_of, filter_of, holds};
use crate::column::{Column, cell_of, room_of};
use crate::field_sources::{columns_of, numbers_of, places_of, sources_of, texts_at, values_at};
use crate::group_array::Cells;
use crate::group_map::{GroupMap, add};
use crate::key::{Key, KeyRef};
use crate::texts::coded_columns;
use druid_partial::{Group, Partial, earliest, kinds_of, merge};
use druid_query::{AggregatorKind, Query};
use druid_segment_rows::Segment;
use druid_time::{Granularity, Instant, Interval};
use std::alloc::{AllocError, Global};
use std::collections::BTreeMap;
use std::marker::Model;

// A query over a segment. The names of the query are looked up once, and so are the columns of the segment.
#[derive(Drop)]
pub(crate) struct Scan<'a> {
    query: &'a Query,
    segment: &'a Segment,
    times: &'a [Instant],
    first: Instant,
    places: Vec<Option<usize>>,
    columns: Vec<Column<'a>>,
    numbers: Vec<NumberColumn<'a>>,
    kinds: Vec<AggregatorKind>,
    code_filter: Option<CodeFilter<'a>>,
}

impl<'a> Model for Scan<'a> {
    ghost use Rattle.std.specs.Coded.{codes};
    ghost use Rattle.druid_filter.specs.FilterCode.{coded_condition};
    ghost use Rattle.druid_partial_scan.specs.Scans.{Scan, IsScan};

    ghost Value = { Scan };

    ghost coded = { Prim.hlevel (codes, coded_condition) };

    ghost view = { λ a. record { query = a.query.now; segment = a.segment.now; columns = a.columns.items } };

    ghost invariant = { λ a. IsScan a.query.now a.segment.now a.times.now a.first a.places.items a.columns.items a.numbers.items a.kinds.items a.code_filter };
}

fn bucket_of(query: &Query, first: Instant, time: Instant) -> Instant
    requires { first ≡ earliest query.now.intervals }
    ensures { result ≡ bucket_of query.now time }
{
    match time.bucket(query.granularity()) {
        Some(bucket) => bucket,
        None => first,
    }
}

fn time_at(times: &[Instant], row: usize) -> Instant
    requires { row < length times.now }
    ensures { result ≡ slice_index_or times.now row 0 }
{
    times[row]
}

impl<'a> Scan<'a> {
    // The scan with these columns.
    fn with(
        alloc: Global,
        query: &'a Query,
        segment: &'a Segment,
        places: Vec<Option<usize>>,
        columns: Vec<Column<'a>>,
    ) -> Result<Scan<'a>, AllocError>
        requires places { places.items ≡ places_of query.now segment.now.fields }
        requires columns { AreColumns segment.now (places_of query.now segment.now.fields) columns.items }
        ensures query { IfOk result (λ scan. scan.query ≡ query.now) }
        ensures segment { IfOk result (λ scan. scan.segment ≡ segment.now) }
        ensures columns { IfOk result (λ scan. scan.columns ≡ columns.entry.items) }
    {
        let sources = sources_of(alloc, query, segment.schema())?;
        let numbers = numbers_of(alloc, segment, &sources)?;
        let kinds = kinds_of(alloc, query)?;
        let code_filter = filter_of(alloc, query, segment)?;
        Ok(Scan {
            query,
            segment,
            times: segment.times(),
            first: earliest(query),
            places,
            columns,
            numbers,
            kinds,
            code_filter,
        })
    }

    fn new(alloc: Global, query: &'a Query, segment: &'a Segment) -> Result<Scan<'a>, AllocError>
        ensures query { IfOk result (λ scan. scan.query ≡ query.now) }
        ensures segment { IfOk result (λ scan. scan.segment ≡ segment.now) }
    {
        let places = places_of(alloc, query, segment.schema())?;
        let columns = columns_of(alloc, segment, &places)?;
        Scan::with(alloc, query, segment, places, columns)
    }

    // The scan by codes of these texts of the query's dimensions. None where the segment has another text.
    pub(crate) fn over(
        alloc: Global,
        query: &'a Query,
        segment: &'a Segment,
        lists: &[&[&str]],
    ) -> Result<Option<Scan<'a>>, AllocError>
        requires long { length lists.now ≡ length query.now.dimensions }
        requires rising { All IsRising (texts_in lists.now) }
        ensures query { IfOk result (λ found. IfSome found (λ scan. scan.query ≡ query.now)) }
        ensures segment { IfOk result (λ found. IfSome found (λ scan. scan.segment ≡ segment.now)) }
        ensures coded { IfOk result (λ found. IfSome found (λ scan.
            AreCoded segment.now (texts_in lists.now) (places_of query.now segment.now.fields) scan.columns)) }
    {
        let places = places_of(alloc, query, segment.schema())?;
        let Some(columns) = coded_columns(alloc, segment, lists, &places)? else {
            return Ok(None);
        };
        let scan = Scan::with(alloc, query, segment, places, columns)?;
        Ok(Some(scan))
    }

    fn time(&self, row: usize) -> Instant
        requires { row < length self.now.segment.rows }
        ensures { result ≡ (row_at self.now.segment row).time }
    {
        time_at(self.times, row)
    }

    // Whether the query asks for a row. Its instant is looked at first.
    fn asks(&self, interval: Interval, row: usize) -> bool
        requires { row < length self.now.segment.rows }
        ensures { result ≡ is_asked self.now.query interval self.now.segment.fields (row_at self.now.segment row) }
    {
        if !interval.contains(self.time(row)) {
            return false;
        }
        match &self.code_filter {
            Some(code_filter) => holds(code_filter, row),
            None => true,
        }
    }

    // Whether it is seen without a row that none passes.
    pub(crate) fn passes_none(&self) -> bool
        ensures { IsTrue result → (pieces : List Extent) → flat_map (counted_by self.now.query self.now.segment) pieces ≡ [] }
    {
        let Some(code_filter) = &self.code_filter else {
            return false;
        };
        match constant_of(code_filter) {
            Some(answer) => !answer,
            None => false,
        }
    }

    fn bucket(&self, row: usize) -> Instant
        requires { row < length self.now.segment.rows }
        ensures { result ≡ bucket_at self.now row }
    {
        bucket_of(self.query, self.first, self.time(row))
    }

    // Whether no row's bucket is below that of a row before it.
    fn buckets_rise(&self) -> bool
        ensures { IsTrue result → BucketsRise self.now }
    {
        match self.query.granularity() {
            Granularity::All => true,
            Granularity::Second | Granularity::Minute | Granularity::Hour | Granularity::Day => {
                self.segment.is_rising()
            }
        }
    }

    // The place after the last row that has that bucket, from one that has it to the place after others.
    fn last_of(&self, bucket: Instant, from: usize, to: usize) -> usize
        requires order { from < to }
        requires end { to ≤ length self.now.segment.rows }
        requires first { bucket_at self.now from ≡ bucket }
        ensures after { from < result }
        ensures inside { result ≤ to }
        ensures there { result ≤ length self.now.segment.rows }
        ensures last { (row : ℕ) → row + 1 ≡ result → bucket_at self.now row ≡ bucket }
        ensures next { result < to → bucket_at self.now result ≢ bucket }
    {
        let mut low = from;
        let mut high = to;
        while high - low > 1 {
            let middle = low + (high - low) / 2;
            if self.bucket(middle) == bucket {
                low = middle;
            } else {
                high = middle;
            }
        }
        high
    }

    // The place after the rows that have the bucket of a row and follow it, by steps that double and then by halving.
    fn run_end(&self, from: usize, end: usize) -> usize
        requires rise { BucketsRise self.now }
        requires from { from < end }
        requires end { end ≤ length self.now.segment.rows }
        ensures after { from < result }
        ensures inside { result ≤ end }
        ensures same { HaveBucket self.now (bucket_at self.now from) from result }
        ensures next { result < end → bucket_at self.now result ≢ bucket_at self.now from }
    {
        let bucket = self.bucket(from);
        let mut low = from;
        let mut step: usize = 1;
        while step < end - low && self.bucket(low + step) == bucket {
            low += step;
            step = step.saturating_add(step);
        }
        let high = if step < end - low { low + step } else { end };
        self.last_of(bucket, low, high)
    }

    // The key that a row tells.
    fn key(&self, alloc: Global, row: usize) -> Result<KeyRef<'a>, AllocError>
        requires { row < length self.now.segment.rows }
        ensures { IfOk result (λ key. key ≡ (counted_at self.now row).key) }
    {
        let bucket = self.bucket(row);
        let values = values_at(alloc, self.segment, row, &self.places)?;
        Ok(KeyRef::new(bucket, values))
    }

    // The numbers that a row tells.
    fn numbers(&self, alloc: Global, row: usize) -> Result<Vec<Option<i64>>, AllocError>
        requires { row < length self.now.segment.rows }
        ensures value { IfOk result (λ numbers. numbers.items ≡ (counted_at self.now row).numbers) }
        ensures words { IfOk result (λ numbers. AreWords numbers.items) }
    {
        numbers_at(alloc, &self.numbers, row)
    }

    // Joins what a row tells.
    fn count_row(
        &self,
        alloc: Global,
        row: usize,
        found: &mut GroupMap<'a>,
    ) -> Result<(), AllocError>
        requires { row < length self.now.segment.rows }
        ensures reported { OnOk result (groups_of found.new.entries
            ≡ merged (kinds_of self.now.query) (counted_at self.now row ∷ []) (groups_of found.old.entries)) }
        ensures words { OnOk result (AreWords (counted_at self.now row).numbers) }
    {
        let key = self.key(alloc, row)?;
        let numbers = self.numbers(alloc, row)?;
        add(&self.kinds, found, key, numbers)
    }

    // What the rows from one place to another tell, in order.
    fn tally_keys(
        &self,
        alloc: Global,
        interval: Interval,
        from: usize,
        to: usize,
    ) -> Result<GroupMap<'a>, AllocError>
        requires order { from ≤ to }
        requires end { to ≤ length self.now.segment.rows }
        ensures { IfOk result (λ found. (groups : List Group) → ComeBefore self.now groups from to
            → AreUpto self.now interval from groups → AreUpto self.now interval to (groups ++ groups_of found.entries)) }
    {
        let mut found = BTreeMap::new(alloc);
        for row in from..to {
            if self.asks(interval, row) {
                self.count_row(alloc, row, &mut found)?;
            }
        }
        Ok(found)
    }

    // Adds the groups of the rows from one place to another, which come after those that are there.
    fn add_keys(
        &self,
        alloc: Global,
        interval: Interval,
        from: usize,
        to: usize,
        groups: &mut Vec<Group>,
    ) -> Result<(), AllocError>
        requires order { from ≤ to }
        requires end { to ≤ length self.now.segment.rows }
        requires before { ComeBefore self.now groups.now.items from to }
        requires upto { AreUpto self.now interval from groups.now.items }
        ensures { OnOk result (AreUpto self.now interval to groups.new.items) }
    {
        let found = self.tally_keys(alloc, interval, from, to)?;
        add_found(alloc, found, groups)
    }

    // The number of a row's cell.
    fn cell_at(&self, row: usize) -> usize
        requires row { row < length self.now.segment.rows }
        requires small { room_from self.now.columns 1 < 2 ^ 64 }
        ensures value { result ≡ cell_at self.now row }
        ensures inside { result < room_from self.now.columns 1 }
        ensures columns { AreColumns self.now.segment (places_of self.now.query self.now.segment.fields) self.now.columns }
    {
        cell_of(&self.columns, row)
    }

    // Joins a row to the group of its cell. False where there is none.
    fn join<K: Drop>(&self, cell: usize, row: usize, cells: &mut Cells<K>) -> bool
        requires row { row < length self.now.segment.rows }
        requires room { HasRoom self.now.query (room_from self.now.columns 1) cells.now }
        requires cell { cell < room_from self.now.columns 1 }
        ensures room { HasRoom self.now.query (room_from self.now.columns 1) cells.new }
        ensures there { result ≡ is_there (slice_index_or cells.old.groups cell None) }
        ensures groups { cells.new.groups ≡ set cells.old.groups cell
            (joined_with (kinds_of self.now.query) (counted_at self.now row).numbers (slice_index_or cells.old.groups cell None)) }
        ensures words { AreWords (counted_at self.now row).numbers }
    {
        cells.join(&self.kinds, &self.numbers, cell, row)
    }

    // Puts a group of one row into its cell.
    fn fill<K: Drop>(&self, cell: usize, row: usize, kept: K, cells: &mut Cells<K>)
        requires row { row < length self.now.segment.rows }
        requires room { HasRoom self.now.query (room_from self.now.columns 1) cells.now }
        requires cell { cell < room_from self.now.columns 1 }
        ensures room { HasRoom self.now.query (room_from self.now.columns 1) cells.new }
        ensures groups { cells.new.groups ≡ set cells.old.groups cell (Some (kept, (counted_at self.now row).numbers)) }
    {
        cells.put(&self.numbers, cell, row, kept);
    }

    // Joins a row to the group of its cell.
    fn put(&self, row: usize, cells: &mut Cells<usize>)
        requires row { row < length self.now.segment.rows }
        requires room { HasRoom self.now.query (room_from self.now.columns 1) cells.now }
        requires small { room_from self.now.columns 1 < 2 ^ 64 }
        ensures room { HasRoom self.now.query (room_from self.now.columns 1) cells.new }
        ensures joined { IsJoined self.now row (cells_in cells.old.groups) (cells_in cells.new.groups) }
        ensures words { AreWords (counted_at self.now row).numbers }
    {
        let cell = self.cell_at(row);
        if self.join(cell, row, cells) {
            return;
        }
        self.fill(cell, row, row, cells);
    }

    // What the rows of one bucket from one place to another tell, in their cells.
    fn tally_cells(
        &self,
        alloc: Global,
        interval: Interval,
        from: usize,
        to: usize,
        room: usize,
    ) -> Result<Cells<usize>, AllocError>
        requires order { from ≤ to }
        requires end { to ≤ length self.now.segment.rows }
        requires bucket { HaveBucket self.now (bucket_at self.now from) from to }
        requires room { room ≡ room_from self.now.columns 1 }
        ensures cells { IfOk result (λ cells. AreCells self.now (bucket_at self.now from) (cells_in cells.groups)) }
        ensures groups { IfOk result (λ cells. (groups : List Group) → ComeBefore self.now groups from to
            → AreUpto self.now interval from groups → AreUpto self.now interval to (groups ++ groups_in self.now (cells_in cells.groups))) }
    {
        let mut cells = Cells::new(alloc, room, self.numbers.len())?;
        for row in from..to {
            if self.asks(interval, row) {
                self.put(row, &mut cells);
            }
        }
        Ok(cells)
    }

    // The group of a row, with these numbers.
    fn group(
        &self,
        alloc: Global,
        row: usize,
        numbers: Vec<Option<i64>>,
    ) -> Result<Group, AllocError>
        requires row { row < length self.now.segment.rows }
        requires words { AreWords numbers.items }
        ensures { IfOk result (λ group. group ≡ record { key = (counted_at self.now row).key; numbers = numbers.items }) }
    {
        let values = texts_at(alloc, self.segment, row, &self.places)?;
        Ok(Group::new(self.bucket(row), values, numbers))
    }

    // Adds the groups that are in cells.
    fn add_groups(
        &self,
        alloc: Global,
        mut cells: Cells<usize>,
        groups: &mut Vec<Group>,
    ) -> Result<(), AllocError>
        requires { All (IsKept self.now) (cells_in cells.groups) }
        ensures { OnOk result (groups.new.items ≡ groups.old.items ++ groups_in self.now (cells_in cells.groups)) }
    {
        for cell in 0..cells.room() {
            if let Some((row, numbers)) = cells.take(alloc, cell)? {
                groups.push(self.group(alloc, row, numbers)?)?;
            }
        }
        Ok(())
    }

    // Adds the groups of the rows of one bucket from one place to another, which come after those that are there.
    fn add_cells(
        &self,
        alloc: Global,
        interval: Interval,
        from: usize,
        to: usize,
        room: usize,
        groups: &mut Vec<Group>,
    ) -> Result<(), AllocError>
        requires order { from ≤ to }
        requires end { to ≤ length self.now.segment.rows }
        requires bucket { HaveBucket self.now (bucket_at self.now from) from to }
        requires room { room ≡ room_from self.now.columns 1 }
        requires before { ComeBefore self.now groups.now.items from to }
        requires upto { AreUpto self.now interval from groups.now.items }
        ensures { OnOk result (AreUpto self.now interval to groups.new.items) }
    {
        let cells = self.tally_cells(alloc, interval, from, to, room)?;
        self.add_groups(alloc, cells, groups)
    }

    // Joins a row to the group of its cell.
    fn enter(&self, alloc: Global, row: usize, cells: &mut Sparse) -> Result<(), AllocError>
        requires row { row < length self.now.segment.rows }
        requires small { room_from self.now.columns 1 < 2 ^ 64 }
        ensures joined { OnOk result (IsJoinedBy self.now row cells.old.entries cells.new.entries) }
        ensures words { AreWords (counted_at self.now row).numbers }
    {
        let cell = self.cell_at(row);
        enter_row(alloc, &self.kinds, &self.numbers, cells, cell, row)
    }

    // What the rows of one bucket from one place to another tell, by the numbers of their cells.
    fn tally_sparse(
        &self,
        alloc: Global,
        interval: Interval,
        from: usize,
        to: usize,
    ) -> Result<Sparse, AllocError>
        requires order { from ≤ to }
        requires end { to ≤ length self.now.segment.rows }
        requires bucket { HaveBucket self.now (bucket_at self.now from) from to }
        requires small { room_from self.now.columns 1 < 2 ^ 64 }
        ensures cells { IfOk result (λ cells. AreEntries self.now (bucket_at self.now from) cells.entries) }
        ensures groups { IfOk result (λ cells. (groups : List Group) → ComeBefore self.now groups from to
            → AreUpto self.now interval from groups → AreUpto self.now interval to (groups ++ groups_by self.now cells.entries)) }
    {
        let mut cells = BTreeMap::new(alloc);
        for row in from..to {
            if self.asks(interval, row) {
                self.enter(alloc, row, &mut cells)?;
            }
        }
        Ok(cells)
    }

    // Adds the groups that are in cells.
    fn add_entries(
        &self,
        alloc: Global,
        mut cells: Sparse,
        groups: &mut Vec<Group>,
    ) -> Result<(), AllocError>
        requires { AreKept self.now cells.entries }
        ensures { OnOk result (groups.new.items ≡ groups.old.items ++ groups_by self.now cells.entries) }
    {
        while let Some((_, cell)) = cells.pop_first() {
            let (row, numbers) = cell.into_parts();
            groups.push(self.group(alloc, row, numbers)?)?;
        }
        Ok(())
    }

    // Adds the groups of the rows of one bucket from one place to another, which come after those that are there.
    fn add_sparse(
        &self,
        alloc: Global,
        interval: Interval,
        from: usize,
        to: usize,
        groups: &mut Vec<Group>,
    ) -> Result<(), AllocError>
        requires order { from ≤ to }
        requires end { to ≤ length self.now.segment.rows }
        requires bucket { HaveBucket self.now (bucket_at self.now from) from to }
        requires small { room_from self.now.columns 1 < 2 ^ 64 }
        requires before { ComeBefore self.now groups.now.items from to }
        requires upto { AreUpto self.now interval from groups.now.items }
        ensures { OnOk result (AreUpto self.now interval to groups.new.items) }
    {
        let cells = self.tally_sparse(alloc, interval, from, to)?;
        self.add_entries(alloc, cells, groups)
    }

    // The key of a row, with texts of its own.
    fn own_key(&self, alloc: Global, row: usize) -> Result<Key, AllocError>
        requires { row < length self.now.segment.rows }
        ensures { IfOk result (λ key. key ≡ (counted_at self.now row).key) }
    {
        let values = texts_at(alloc, self.segment, row, &self.places)?;
        Ok(Key::new(self.bucket(row), values))
    }

    // Joins a row to the group of its cell, among those of several segments.
    fn put_open(&self, alloc: Global, row: usize, cells: &mut Cells<Key>) -> Result<(), AllocError>
        requires row { row < length self.now.segment.rows }
        requires room { HasRoom self.now.query (room_from self.now.columns 1) cells.now }
        requires small { room_from self.now.columns 1 < 2 ^ 64 }
        ensures room { OnOk result (HasRoom self.now.query (room_from self.now.columns 1) cells.new) }
        ensures adds { OnOk result ((texts : Texts) → IsOver texts self.now
            → Adds self.now.query texts (counted_at self.now row ∷ []) (groups_held cells.old.groups) (groups_held cells.new.groups)) }
    {
        let cell = self.cell_at(row);
        if self.join(cell, row, cells) {
            return Ok(());
        }
        let key = self.own_key(alloc, row)?;
        self.fill(cell, row, key, cells);
        Ok(())
    }

    // Adds the rows that lie in an interval.
    fn add_piece(
        &self,
        alloc: Global,
        interval: Interval,
        cells: &mut Cells<Key>,
    ) -> Result<(), AllocError>
        requires room { HasRoom self.now.query (room_from self.now.columns 1) cells.now }
        requires small { room_from self.now.columns 1 < 2 ^ 64 }
        ensures room { OnOk result (HasRoom self.now.query (room_from self.now.columns 1) cells.new) }
        ensures adds { OnOk result ((texts : Texts) → IsOver texts self.now
            → Adds self.now.query texts (counted_by self.now.query self.now.segment interval) (groups_held cells.old.groups) (groups_held cells.new.groups)) }
    {
        let (start, end) = self.segment.places_in(interval);
        for row in start..end {
            if self.asks(interval, row) {
                self.put_open(alloc, row, cells)?;
            }
        }
        Ok(())
    }

    // Adds those that lie in these intervals.
    pub(crate) fn add_pieces(
        &self,
        alloc: Global,
        pieces: &[Interval],
        cells: &mut Cells<Key>,
    ) -> Result<(), AllocError>
        requires room { HasRoom self.now.query (room_from self.now.columns 1) cells.now }
        requires small { room_from self.now.columns 1 < 2 ^ 64 }
        ensures room { OnOk result (HasRoom self.now.query (room_from self.now.columns 1) cells.new) }
        ensures adds { OnOk result ((texts : Texts) → IsOver texts self.now
            → Adds self.now.query texts (flat_map (counted_by self.now.query self.now.segment) pieces.now) (groups_held cells.old.groups) (groups_held cells.new.groups)) }
    {
        if self.passes_none() {
            return Ok(());
        }
        for interval in pieces {
            self.add_piece(alloc, *interval, cells)?;
        }
        Ok(())
    }

    // Adds the groups of the rows of one bucket from one place to another, which come after those that are there.
    fn add_run(
        &self,
        alloc: Global,
        interval: Interval,
        from: usize,
        to: usize,
        groups: &mut Vec<Group>,
    ) -> Result<(), AllocError>
        requires order { from ≤ to }
        requires end { to ≤ length self.now.segment.rows }
        requires bucket { HaveBucket self.now (bucket_at self.now from) from to }
        requires before { ComeBefore self.now groups.now.items from to }
        requires upto { AreUpto self.now interval from groups.now.items }
        ensures { OnOk result (AreUpto self.now interval to groups.new.items) }
    {
        let Some(room) = room_of(&self.columns) else {
            return self.add_keys(alloc, interval, from, to, groups);
        };
        // An array costs its room, and each row of a map a search.
        if room / 4 <= (to - from).saturating_add(64) {
            return self.add_cells(alloc, interval, from, to, room, groups);
        }
        self.add_sparse(alloc, interval, from, to, groups)
    }

    // The groups of all rows that the query asks for.
    fn tally(&self, alloc: Global, interval: Interval) -> Result<Vec<Group>, AllocError>
        ensures { IfOk result (λ groups. AreCounted self.now.query (counted_by self.now.query self.now.segment interval) groups.items) }
    {
        let (start, end) = self.segment.places_in(interval);
        let mut groups = Vec::new(alloc);
        if !self.buckets_rise() {
            self.add_keys(alloc, interval, start, end, &mut groups)?;
            return Ok(groups);
        }
        let mut at = start;
        while at < end {
            let to = self.run_end(at, end);
            self.add_run(alloc, interval, at, to, &mut groups)?;
            at = to;
        }
        Ok(groups)
    }

    // What the rows that lie in one interval tell.
    fn partial(&self, alloc: Global, interval: Interval) -> Result<Partial, AllocError>
        ensures result { IfOk result (λ partial.
            IsResult (kinds_of self.now.query) (counted_by self.now.query self.now.segment interval) partial.groups) }
        ensures of_query { IfOk result (IsPartialFor self.now.query) }
    {
        let groups = self.tally(alloc, interval)?;
        let kinds = kinds_of(alloc, self.query)?;
        Ok(Partial::new(kinds, groups))
    }

    // What the rows that lie in these intervals tell. They are halved, so that merges move each group a logarithmic
    // number of times.
    fn partial_of_all(&self, alloc: Global, pieces: &[Interval]) -> Result<Partial, AllocError>
        ensures result { IfOk result (λ partial.
            IsResult (kinds_of self.now.query) (flat_map (counted_by self.now.query self.now.segment) pieces.now) partial.groups) }
        ensures of_query { IfOk result (IsPartialFor self.now.query) }
    {
        if pieces.is_empty() {
            return Partial::empty(alloc, self.query);
        }
        if pieces.len() == 1 {
            return self.partial(alloc, pieces[0]);
        }
        let (front, back) = pieces.split_at(pieces.len() / 2);
        let left = self.partial_of_all(alloc, front)?;
        let right = self.partial_of_all(alloc, back)?;
        match merge(alloc, left, right) {
            Ok(both) => Ok(both),
            Err(_) => Err(AllocError),
        }
    }
}

// Adds the groups that were found. Each text is copied once for each group.
fn add_found(
    alloc: Global,
    mut found: GroupMap<'_>,
    groups: &mut Vec<Group>,
) -> Result<(), AllocError>
    requires { All (λ group. AreWords group.numbers) (groups_of found.entries) }
    ensures { OnOk result (groups.new.items ≡ groups.old.items ++ groups_of found.entry.entries) }
{
    while let Some((key, numbers)) = found.pop_first() {
        let values = key.texts(alloc)?;
        groups.push(Group::new(key.bucket(), values, numbers))?;
    }
    Ok(())
}

/// What the query tells of the rows of the segment that lie in the interval and pass its filter. Where
/// instants rise, or there is one bucket, a row of a group that is there allocates nothing and costs one step, or,
/// where the dimensions have many values beside the rows of its bucket, the logarithm of the number of groups; else
/// it costs that and a key. No row is read where the segment has no value that the filter lets pass.
///
/// # Errors
///
/// Out of memory.
pub fn partial_of(
    alloc: Global,
    query: &Query,
    segment: &Segment,
    interval: Interval,
) -> Result<Partial, AllocError>
    ensures result { IfOk result (λ partial.
        IsResult (kinds_of query.now) (counted_by query.now segment.now interval) partial.groups) }
    ensures of_query { IfOk result (IsPartialFor query.now) }
{
    partial_over(alloc, query, segment, &[interval])
}

/// The same of several intervals, each of them for itself: a row that lies in two of them counts twice. The names of the query
/// and the values of its filter are looked up once for all.
///
/// # Errors
///
/// Out of memory.
pub fn partial_over(
    alloc: Global,
    query: &Query,
    segment: &Segment,
    pieces: &[Interval],
) -> Result<Partial, AllocError>
    ensures result { IfOk result (λ partial.
        IsResult (kinds_of query.now) (flat_map (counted_by query.now segment.now) pieces.now) partial.groups) }
    ensures of_query { IfOk result (IsPartialFor query.now) }
{
    let scan = Scan::new(alloc, query, segment)?;
    if scan.passes_none() {
        return Partial::empty(alloc, query);
    }
    scan.partial_of_all(alloc, pieces)
}
