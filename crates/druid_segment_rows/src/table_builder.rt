//! Rows by columns, as they come.
ghost use Rattle.std.specs.Prelude.{◌≡◌, ℕ, [], ◌∷◌, ◌++◌, ◌≤◌, length, map, take, replicate, vec_capacity, All, IfOk, OnOk, OnErr};
ghost use Rattle.std.specs.Option.{option_map};
ghost use Rattle.druid_segment_rows.specs.Rows.{texts_by};
ghost use Rattle.druid_segment_rows.specs.Columns.{AreLong};
ghost use Rattle.druid_segment_rows.specs.Table.{HasWidths, with_values, with_one_more};

use crate::Row;
use crate::column::Column;
use crate::column_builder::ColumnBuilder;
use crate::numbers::Numbers;
use crate::row_ref::RowRef;
use crate::table::Table;
use druid_time::Instant;
use std::alloc::{AllocError, Global};
use std::convert::AsStr;
use std::marker::Model;

// Rows as they come, by columns. It has the room that the columns of the table take.
#[derive(Debug, Drop)]
pub(crate) struct TableBuilder {
    alloc: Global,
    times: Vec<Instant>,
    dimensions: Vec<ColumnBuilder>,
    metrics: Vec<Numbers>,
    columns: Vec<Column>,
}

impl Model for TableBuilder {
    ghost use Rattle.std.specs.Prelude.{◌≡◌, ◌*◌, ◌≤◌, [], length, vec_capacity};
    ghost use Rattle.druid_segment_rows.specs.Columns.{AreLong};
    ghost use Rattle.druid_segment_rows.specs.Table.{Table, table_of};

    ghost Value = { Table };

    ghost view = { λ a. table_of a.times.items a.dimensions.items a.metrics.items };

    ghost invariant = { λ a. AreLong (length a.times.items) a.dimensions.items
        × AreLong (length a.times.items) a.metrics.items
        × (a.columns.items ≡ [])
        × (length a.dimensions.items ≤ vec_capacity a.columns) };
}

fn empty_dimensions(alloc: Global, len: usize) -> Result<Vec<ColumnBuilder>, AllocError>
    ensures { IfOk result (λ columns. columns.items ≡ replicate len []) }
{
    let mut columns = Vec::with_capacity(alloc, len)?;
    for _column in 0..len {
        columns.push(ColumnBuilder::new(alloc))?;
    }
    Ok(columns)
}

fn empty_metrics(alloc: Global, len: usize) -> Result<Vec<Numbers>, AllocError>
    ensures { IfOk result (λ columns. columns.items ≡ replicate len []) }
{
    let mut columns = Vec::with_capacity(alloc, len)?;
    for _column in 0..len {
        columns.push(Numbers::new(alloc))?;
    }
    Ok(columns)
}

fn push_text<T: AsStr>(column: &mut ColumnBuilder, value: &Option<T>) -> Result<(), AllocError>
    ensures ok { OnOk result (column.new ≡ column.old ++ option_map T.text value.entry.now ∷ []) }
    ensures err { OnErr result (column.new ≡ column.old) }
{
    match value {
        Some(text) => column.push(Some(text.as_str())),
        None => column.push(None),
    }
}

// Adds a value to each column. A refusal may leave some of them in place.
fn push_texts<T: AsStr>(
    columns: &mut [ColumnBuilder],
    values: &[Option<T>],
) -> Result<(), AllocError>
    requires { length values.now ≡ length columns.old }
    ensures ok { OnOk result (columns.new ≡ with_values columns.old (texts_by T.text values.entry.now)) }
    ensures err { OnErr result ((rows : ℕ) → AreLong rows columns.old → map (take rows) columns.new ≡ columns.old) }
{
    for place in 0..columns.len() {
        push_text(&mut columns[place], &values[place])?;
    }
    Ok(())
}

// Keeps that many of the first values of each column.
fn cut_texts(columns: &mut [ColumnBuilder], rows: usize)
    ensures { columns.new ≡ map (take rows) columns.old }
{
    for place in 0..columns.len() {
        columns[place].truncate(rows);
    }
}

// Adds a value to each column, or to none.
fn extend_texts<T: AsStr>(
    columns: &mut [ColumnBuilder],
    values: &[Option<T>],
    rows: usize,
) -> Result<(), AllocError>
    requires width { length values.now ≡ length columns.old }
    requires long { AreLong rows columns.old }
    ensures ok { OnOk result (columns.new ≡ with_values columns.old (texts_by T.text values.entry.now)) }
    ensures err { OnErr result (columns.new ≡ columns.old) }
{
    let Ok(()) = push_texts(columns, values) else {
        cut_texts(columns, rows);
        return Err(AllocError);
    };
    Ok(())
}

// Adds a value to each column. A refusal may leave some of them in place.
fn push_numbers(columns: &mut [Numbers], values: &[Option<i64>]) -> Result<(), AllocError>
    requires { length values.now ≡ length columns.old }
    ensures ok { OnOk result (columns.new ≡ with_values columns.old values.entry.now) }
    ensures err { OnErr result ((rows : ℕ) → AreLong rows columns.old → map (take rows) columns.new ≡ columns.old) }
{
    for place in 0..columns.len() {
        columns[place].push(values[place])?;
    }
    Ok(())
}

// Keeps that many of the first values of each column.
fn cut_numbers(columns: &mut [Numbers], rows: usize)
    ensures { columns.new ≡ map (take rows) columns.old }
{
    for place in 0..columns.len() {
        columns[place].truncate(rows);
    }
}

// Adds a value to each column, or to none.
fn extend_numbers(
    columns: &mut [Numbers],
    values: &[Option<i64>],
    rows: usize,
) -> Result<(), AllocError>
    requires width { length values.now ≡ length columns.old }
    requires long { AreLong rows columns.old }
    ensures ok { OnOk result (columns.new ≡ with_values columns.old values.entry.now) }
    ensures err { OnErr result (columns.new ≡ columns.old) }
{
    let Ok(()) = push_numbers(columns, values) else {
        cut_numbers(columns, rows);
        return Err(AllocError);
    };
    Ok(())
}

// Adds the values of a row to the columns, or none of them.
fn extend<T: AsStr>(
    dimensions: &mut [ColumnBuilder],
    metrics: &mut [Numbers],
    row: &RowRef<'_, T>,
    rows: usize,
) -> Result<(), AllocError>
    requires widths { HasWidths (length dimensions.old) (length metrics.old) row.now }
    requires texts { AreLong rows dimensions.old }
    requires numbers { AreLong rows metrics.old }
    ensures texts { OnOk result (dimensions.new ≡ with_values dimensions.old row.now.dimensions) }
    ensures numbers { OnOk result (metrics.new ≡ with_values metrics.old row.now.metrics) }
    ensures same_texts { OnErr result (dimensions.new ≡ dimensions.old) }
    ensures same_numbers { OnErr result (metrics.new ≡ metrics.old) }
{
    extend_texts(dimensions, row.dimensions(), rows)?;
    let Ok(()) = extend_numbers(metrics, row.metrics(), rows) else {
        cut_texts(dimensions, rows);
        return Err(AllocError);
    };
    Ok(())
}

// Puts the finished columns in the place of no columns.
fn finish_dimensions(
    dimensions: Vec<ColumnBuilder>,
    columns: &mut Vec<Column>,
) -> Result<(), AllocError>
    requires none { columns.old.items ≡ [] }
    requires room { length dimensions.items ≤ vec_capacity columns.old }
    ensures { OnOk result (columns.new.items ≡ dimensions.items) }
{
    for column in dimensions {
        columns.push_reserved(column.finish()?);
    }
    Ok(())
}

fn shrink_metrics(metrics: &mut [Numbers])
    ensures { metrics.new ≡ metrics.old }
{
    for place in 0..metrics.len() {
        metrics[place].shrink();
    }
}

impl TableBuilder {
    // No rows, of that many values of each kind.
    pub(crate) fn new(
        alloc: Global,
        dimensions: usize,
        metrics: usize,
    ) -> Result<TableBuilder, AllocError>
        ensures { IfOk result (λ table. table ≡ record { dimensions = dimensions; metrics = metrics; rows = [] }) }
    {
        Ok(TableBuilder {
            alloc,
            times: Vec::new(alloc),
            dimensions: empty_dimensions(alloc, dimensions)?,
            metrics: empty_metrics(alloc, metrics)?,
            columns: Vec::with_capacity(alloc, dimensions)?,
        })
    }

    // How many rows there are.
    pub(crate) fn len(&self) -> usize
        ensures { result ≡ length self.now.rows }
    {
        self.times.len()
    }

    // Adds a row after the others, or nothing.
    pub(crate) fn push<T: AsStr>(&mut self, row: &RowRef<'_, T>) -> Result<(), AllocError>
        requires { HasWidths self.old.dimensions self.old.metrics row.now }
        ensures ok { OnOk result (self.new ≡ with_one_more self.old row.now) }
        ensures err { OnErr result (self.new ≡ self.old) }
    {
        let rows = self.times.len();
        self.times.reserve(1)?;
        extend(&mut self.dimensions, &mut self.metrics, row, rows)?;
        self.times.push_reserved(row.time());
        Ok(())
    }

    // The table of these rows.
    pub(crate) fn finish(self) -> Result<Table, AllocError>
        ensures { IfOk result (λ table. table ≡ self) }
    {
        let TableBuilder {
            alloc,
            mut times,
            dimensions,
            mut metrics,
            mut columns,
        } = self;
        times.shrink_to_fit();
        finish_dimensions(dimensions, &mut columns)?;
        shrink_metrics(&mut metrics);
        Ok(Table::new(alloc, times, columns, metrics))
    }
}

// The table of these rows, of that many values of each kind. It takes them one by one, so that each is kept once only.
pub(crate) fn table_of_rows(
    alloc: Global,
    dimensions: usize,
    metrics: usize,
    rows: Vec<Row>,
) -> Result<Table, AllocError>
    requires { All (HasWidths dimensions metrics) rows.items }
    ensures { IfOk result
        (λ table. table ≡ record { dimensions = dimensions; metrics = metrics; rows = rows.items }) }
{
    let mut table = TableBuilder::new(alloc, dimensions, metrics)?;
    for row in rows {
        table.push(&row.as_row_ref())?;
    }
    table.finish()
}
