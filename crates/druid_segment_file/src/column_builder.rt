//! Columns that were judged are read again, and kept.
ghost use Rattle.std.specs.Prelude.{◌≡◌, ◌≤◌, List, ℤ, Option, map, Ok, IsOk, IfOk};
ghost use Rattle.druid_segment_rows.specs.Segment.{max_rows};
ghost use Rattle.druid_segment_file.specs.ColumnBytes.{Coded};
ghost use Rattle.druid_segment_file.specs.Parts.{each_at, row_time_at};
ghost use Rattle.druid_segment_file.specs.ColumnReader.{value_texts_at, code_at, dimension_at, metric_at, columns_at, decoded};
ghost use Rattle.druid_segment_file.specs.Reader.{TakesAs};
ghost use Rattle.druid_segment_file.specs.Builder.{Keeps, AreKept, present_value_at};

use crate::FileFault;
use crate::cursor::Cursor;
use crate::rows::Shape;
use druid_segment_rows::{Column, Numbers, Texts};
use druid_time::{Instant, Interval};
use std::alloc::{AllocError, Global};

// The columns of a segment.
#[derive(Drop)]
pub(crate) struct Columns {
    pub(crate) times: Vec<Instant>,
    pub(crate) dimensions: Vec<Column>,
    pub(crate) metrics: Vec<Numbers>,
}

impl<'a> Cursor<'a> {
    // The instants of that many rows.
    fn times(
        &mut self,
        alloc: Global,
        interval: Interval,
        rows: usize,
    ) -> Result<Vec<Instant>, AllocError>
        requires { IsOk (each_at (row_time_at self.old.short interval) rows self.old.rest) }
        ensures { IfOk result (λ times. Keeps self.old self.new times.items
            (each_at (row_time_at self.old.short interval) rows self.old.rest)) }
    {
        let mut times = Vec::with_capacity(alloc, rows)?;
        for _ in 0..rows {
            let time = match self.row_time(interval) {
                Ok(time) => time,
                Err(_) => unreachable!(),
            };
            times.push(time)?;
        }
        Ok(times)
    }

    // That many texts of a dictionary.
    fn value_texts(&mut self, alloc: Global, count: usize) -> Result<Texts, AllocError>
        requires { IsOk (value_texts_at self.old.short count None self.old.rest) }
        ensures { IfOk result (λ values. Keeps self.old self.new values
            (value_texts_at self.old.short count None self.old.rest)) }
    {
        let mut values = Texts::new(alloc);
        let mut last = None;
        for _ in 0..count {
            let text = match self.value_text(last) {
                Ok(text) => text,
                Err(_) => unreachable!(),
            };
            values.push(text)?;
            last = Some(text);
        }
        Ok(values)
    }

    // The codes of that many rows.
    fn codes(&mut self, alloc: Global, count: usize, rows: usize) -> Result<Vec<u32>, AllocError>
        requires { IsOk (each_at (code_at self.old.short count) rows self.old.rest) }
        ensures { IfOk result (λ codes. Keeps self.old self.new codes.items
            (each_at (code_at self.old.short count) rows self.old.rest)) }
    {
        let mut codes = Vec::with_capacity(alloc, rows)?;
        for _ in 0..rows {
            let code = match self.code(count) {
                Ok(code) => code,
                Err(_) => unreachable!(),
            };
            codes.push(code)?;
        }
        Ok(codes)
    }

    fn dimension(&mut self, alloc: Global, rows: usize) -> Result<Column, AllocError>
        requires { IsOk (dimension_at self.old.short rows self.old.rest) }
        ensures { IfOk result (λ column. (coded : Coded)
            × Keeps self.old self.new coded (dimension_at self.old.short rows self.old.rest) × (column ≡ decoded coded)) }
    {
        let count = match self.u32() {
            Ok(count) => count as usize,
            Err(_) => unreachable!(),
        };
        let values = self.value_texts(alloc, count)?;
        let codes = self.codes(alloc, count, rows)?;
        Ok(Column::new(values, codes))
    }

    // That many dimensions.
    fn dimensions(
        &mut self,
        alloc: Global,
        dimensions: usize,
        rows: usize,
    ) -> Result<Vec<Column>, AllocError>
        requires { IsOk (each_at (dimension_at self.old.short rows) dimensions self.old.rest) }
        ensures { IfOk result (λ columns. (all : List Coded)
            × Keeps self.old self.new all (each_at (dimension_at self.old.short rows) dimensions self.old.rest)
            × (columns.items ≡ map decoded all)) }
    {
        let mut columns = Vec::with_capacity(alloc, dimensions)?;
        for _ in 0..dimensions {
            columns.push(self.dimension(alloc, rows)?)?;
        }
        Ok(columns)
    }

    // The number of a row that has one.
    fn present(&mut self, mark: bool) -> Result<Option<i64>, FileFault>
        ensures { TakesAs (λ value. value) self.old self.new result (present_value_at self.old.short mark self.old.rest) }
    {
        if !mark {
            return Ok(None);
        }
        Ok(Some(self.i64()?))
    }

    fn metric(&mut self, alloc: Global, rows: usize) -> Result<Numbers, AllocError>
        requires few { rows ≤ max_rows }
        requires judged { IsOk (metric_at self.old.short rows self.old.rest) }
        ensures { IfOk result (λ numbers. Keeps self.old self.new numbers
            (metric_at self.old.short rows self.old.rest)) }
    {
        let mut marks = self.again();
        if let Err(_) = self.count_marks(rows) {
            unreachable!();
        }
        let mut numbers = Numbers::with_capacity(alloc, rows)?;
        for _ in 0..rows {
            let mark = match marks.mark() {
                Ok(mark) => mark,
                Err(_) => unreachable!(),
            };
            let number = match self.present(mark) {
                Ok(number) => number,
                Err(_) => unreachable!(),
            };
            numbers.push(number)?;
        }
        Ok(numbers)
    }

    // That many metrics.
    fn metrics(
        &mut self,
        alloc: Global,
        metrics: usize,
        rows: usize,
    ) -> Result<Vec<Numbers>, AllocError>
        requires few { rows ≤ max_rows }
        requires judged { IsOk (each_at (metric_at self.old.short rows) metrics self.old.rest) }
        ensures { IfOk result (λ columns. Keeps self.old self.new columns.items
            (each_at (metric_at self.old.short rows) metrics self.old.rest)) }
    {
        let mut columns = Vec::with_capacity(alloc, metrics)?;
        for _ in 0..metrics {
            columns.push(self.metric(alloc, rows)?)?;
        }
        Ok(columns)
    }

    // The columns of that many rows.
    pub(crate) fn columns(
        &mut self,
        alloc: Global,
        shape: Shape,
        rows: usize,
    ) -> Result<Columns, AllocError>
        requires few { rows ≤ max_rows }
        requires judged { IsOk (columns_at self.old.short shape rows self.old.rest) }
        ensures { IfOk result (λ columns. AreKept self.old self.new shape rows
            columns.times.items columns.dimensions.items columns.metrics.items) }
    {
        let times = self.times(alloc, shape.interval, rows)?;
        let dimensions = self.dimensions(alloc, shape.dimensions, rows)?;
        let metrics = self.metrics(alloc, shape.metrics, rows)?;
        Ok(Columns {
            times,
            dimensions,
            metrics,
        })
    }
}
