//! Numbers that aggregators take of rows, and groups by the numbers that the codes of their values make.
ghost use Rattle.std.specs.Prelude.{◌≡◌, ◌<◌, map, length, All, Some, None, IfOk, IfSome, OnOk, FitsSigned, slice_index_or};
ghost use Rattle.std.specs.Int.{w64};
ghost use Rattle.druid_partial_scan.specs.Cells.{number_from, HasNumber, join_into, with_row, IsEntered};

use druid_partial::join_number;
use druid_query::AggregatorKind;
use std::alloc::{AllocError, Global};
use std::collections::BTreeMap;
use std::marker::Model;

// The number that an aggregator takes of each row.
#[derive(Drop)]
pub(crate) enum NumberColumn<'a> {
    // Each row is one.
    One,
    // There are none.
    Null,
    // Those of a metric.
    Metric(&'a druid_segment_rows::Numbers),
}

// A group: a row of it, and what the aggregators tell of its rows so far.
#[derive(Drop)]
pub(crate) struct Cell {
    row: usize,
    numbers: Vec<Option<i64>>,
}

impl Model for Cell {
    ghost use Rattle.druid_partial_scan.specs.Cells.{Cell};

    ghost Value = { Cell };

    ghost view = { λ a. record { row = a.row; numbers = a.numbers.items } };
}

pub(crate) fn number_at(numbers: &NumberColumn<'_>, row: usize) -> Option<i64>
    requires { HasNumber row numbers.now }
    ensures { result ≡ number_from row numbers.now }
{
    match numbers {
        NumberColumn::One => Some(1),
        NumberColumn::Null => None,
        NumberColumn::Metric(numbers) => numbers.get(row),
    }
}

// A row's numbers.
pub(crate) fn numbers_at(
    alloc: Global,
    columns: &[NumberColumn<'_>],
    row: usize,
) -> Result<Vec<Option<i64>>, AllocError>
    requires { All (HasNumber row) columns.now }
    ensures { IfOk result (λ numbers. numbers.items ≡ map (number_from row) columns.now) }
{
    let mut numbers = Vec::with_capacity(alloc, columns.len())?;
    for column in columns {
        numbers.push(number_at(column, row))?;
    }
    Ok(numbers)
}

// Joins a row's numbers to those that are there.
pub(crate) fn join_row(
    kinds: &[AggregatorKind],
    columns: &[NumberColumn<'_>],
    row: usize,
    numbers: &mut [Option<i64>],
)
    requires { All (HasNumber row) columns.now }
    ensures { numbers.new ≡ join_into kinds.now (map (number_from row) columns.now) numbers.old }
{
    let len = kinds.len().min(columns.len()).min(numbers.len());
    for place in 0..len {
        numbers[place] = join_number(
            kinds[place],
            number_at(&columns[place], row),
            numbers[place],
        );
    }
}

impl Cell {
    // Joins a row to the group.
    fn join(&mut self, kinds: &[AggregatorKind], columns: &[NumberColumn<'_>], row: usize)
        requires { All (HasNumber row) columns.now }
        ensures { self.new ≡ with_row kinds.now row (map (number_from row) columns.now) (Some self.old) }
    {
        join_row(kinds, columns, row, &mut self.numbers);
    }

    // A row of the group, and what the aggregators tell of all.
    pub(crate) fn into_parts(self) -> (usize, Vec<Option<i64>>)
        ensures row { result.0 ≡ self.row }
        ensures numbers { result.1.items ≡ self.numbers }
    {
        (self.row, self.numbers)
    }
}

// Groups by the numbers of their cells, where these are too many for an array.
pub(crate) type Sparse = BTreeMap<usize, Cell>;

// Joins a row to the group of a cell.
pub(crate) fn enter_row(
    alloc: Global,
    kinds: &[AggregatorKind],
    columns: &[NumberColumn<'_>],
    cells: &mut Sparse,
    cell: usize,
    row: usize,
) -> Result<(), AllocError>
    requires { All (HasNumber row) columns.now }
    ensures { OnOk result (IsEntered kinds.now row (map (number_from row) columns.now) cell cells.old.entries cells.new.entries) }
{
    // For the proof: reading it exposes the invariant of its type.
    let _ = cells.len();
    if let Some(group) = cells.get_mut(&cell) {
        group.join(kinds, columns, row);
        return Ok(());
    }
    let numbers = numbers_at(alloc, columns, row)?;
    cells.insert(cell, Cell { row, numbers })?;
    Ok(())
}
