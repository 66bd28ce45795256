//! Readers of rows.
ghost use Rattle.std.specs.Prelude.{◌≡◌, ◌≤◌, ℕ, List, ok_or, length, Ok, IsOk, IfOk, OnOk};
ghost use Rattle.std.specs.Option.{option_map};
ghost use Rattle.druid_segment_rows.specs.Rows.{row_of};
ghost use Rattle.druid_segment_rows.specs.Segment.{max_fields};
ghost use Rattle.druid_segment_file.specs.Parts.{instant_of, instant_in, row_time_at, text_value_at, number_value_at, each_at, values_at};
ghost use Rattle.druid_segment_file.specs.Reader.{Gives, TakesAs};
ghost use Rattle.druid_segment_file.specs.Builder.{Skips, HasRoom, with_read};
ghost use Rattle.druid_segment_file.specs.Borrowed.{bytes_of, values_borrowed};

use crate::FileFault;
use crate::cursor::Cursor;
use crate::head::instant_of;
use arrayvec::ArrayVec;
use druid_segment_rows::{MAX_FIELDS, RowFault, SegmentBuilder};
use druid_time::{Instant, Interval};
use std::alloc::AllocError;
use std::marker::Model;

// How a row is read: the interval that it lies in, and how many dimensions and metrics it has.
#[derive(Clone, Copy)]
pub(crate) struct Shape {
    pub(crate) interval: Interval,
    pub(crate) dimensions: usize,
    pub(crate) metrics: usize,
}

impl Model for Shape {
    ghost use Rattle.std.specs.Prelude.{◌≤◌};
    ghost use Rattle.druid_segment_rows.specs.Segment.{max_fields};
    ghost use Rattle.druid_segment_file.specs.Parts.{Shape};

    ghost Value = { Shape };

    ghost view = { λ a. record { interval = a.interval; dimensions = a.dimensions; metrics = a.metrics } };

    ghost inverse = { λ s. record { interval = s.interval; dimensions = s.dimensions; metrics = s.metrics } };

    ghost invariant = { λ a. (a.dimensions ≤ max_fields) × (a.metrics ≤ max_fields) };
}

// The texts of a row, which lie in the bytes of the segment.
type Texts<'a> = ArrayVec<Option<&'a str>, MAX_FIELDS>;

// The numbers of a row.
type Numbers = ArrayVec<Option<i64>, MAX_FIELDS>;

// The values of one row after the other. They do not allocate.
#[derive(Drop)]
pub(crate) struct RowValues<'a> {
    texts: Texts<'a>,
    numbers: Numbers,
}

impl RowValues<'_> {
    // No values.
    pub(crate) fn new() -> Self {
        RowValues {
            texts: ArrayVec::new(),
            numbers: ArrayVec::new(),
        }
    }
}

// The instant that many milliseconds after the start of 1970, if it lies in the interval.
fn row_time(ms: i64, interval: Interval) -> Result<Instant, FileFault>
    ensures { Gives result (ok_or (instant_in interval (instant_of ms)) FileFault.RowOutside) }
{
    let Some(time) = instant_of(ms) else {
        return Err(FileFault::RowOutside);
    };
    if !interval.contains(time) {
        return Err(FileFault::RowOutside);
    }
    Ok(time)
}

impl<'a> Cursor<'a> {
    #[tactic(auto, unfolding(crate::specs::Parts::row_time_at))]
    pub(crate) fn row_time(&mut self, interval: Interval) -> Result<Instant, FileFault>
        ensures { TakesAs (λ time. time) self.old self.new result (row_time_at self.old.short interval self.old.rest) }
    {
        row_time(self.i64()?, interval)
    }

    // A text, or null.
    #[tactic(auto, unfolding(crate::specs::Parts::text_value_at, crate::specs::Parts::byte_at))]
    fn text_value(&mut self) -> Result<Option<&'a str>, FileFault>
        ensures { TakesAs (option_map bytes_of) self.old self.new result (text_value_at self.old.short self.old.rest) }
    {
        match self.byte()? {
            0 => Ok(None),
            1 => Ok(Some(self.text()?)),
            _ => Err(FileFault::Field),
        }
    }

    // A number, or null.
    #[tactic(auto, unfolding(crate::specs::Parts::number_value_at, crate::specs::Parts::byte_at))]
    fn number_value(&mut self) -> Result<Option<i64>, FileFault>
        ensures { TakesAs (λ value. value) self.old self.new result (number_value_at self.old.short self.old.rest) }
    {
        match self.byte()? {
            0 => Ok(None),
            1 => Ok(Some(self.i64()?)),
            _ => Err(FileFault::Field),
        }
    }

    fn texts(&mut self, count: usize, texts: &mut Texts<'a>) -> Result<(), FileFault>
        requires { count ≤ max_fields }
        ensures { TakesAs (λ _. values_borrowed texts.new.items) self.old self.new result
            (each_at (text_value_at self.old.short) count self.old.rest) }
    {
        texts.clear();
        for _ in 0..count {
            let value = self.text_value()?;
            texts.push(value);
        }
        Ok(())
    }

    fn numbers(&mut self, count: usize, numbers: &mut Numbers) -> Result<(), FileFault>
        requires { count ≤ max_fields }
        ensures { TakesAs (λ _. numbers.new.items) self.old self.new result
            (each_at (number_value_at self.old.short) count self.old.rest) }
    {
        numbers.clear();
        for _ in 0..count {
            let value = self.number_value()?;
            numbers.push(value);
        }
        Ok(())
    }

    // The instant of a row. Its values are put into the place for them.
    #[tactic(auto, unfolding(crate::specs::Parts::values_at))]
    fn row(&mut self, shape: Shape, values: &mut RowValues<'a>) -> Result<Instant, FileFault>
        ensures { TakesAs (λ time. row_of time (values_borrowed values.new.texts.items) values.new.numbers.items)
            self.old self.new result (values_at self.old.short shape self.old.rest) }
    {
        let time = match self.row_time(shape.interval) {
            Ok(time) => time,
            Err(fault) => return Err(fault),
        };
        self.texts(shape.dimensions, &mut values.texts)?;
        self.numbers(shape.metrics, &mut values.numbers)?;
        Ok(time)
    }

    // Passes over that many rows. Each is judged, and none kept.
    pub(crate) fn skip_rows(&mut self, shape: Shape, count: usize) -> Result<(), FileFault>
        ensures { Skips self.old self.new result (each_at (values_at self.old.short shape) count self.old.rest) }
    {
        let mut values = RowValues::new();
        for _ in 0..count {
            if let Err(fault) = self.row(shape, &mut values) {
                return Err(fault);
            }
        }
        Ok(())
    }
}

// What is reported of a fault of values that were judged: memory ran out.
pub(crate) fn want_of_memory(fault: RowFault) -> AllocError
    requires { fault ≡ RowFault.Memory }
{
    match fault {
        RowFault::Memory => AllocError,
        _ => unreachable!(),
    }
}

// Adds rows that were judged, one by one, so that they do not stand in memory twice.
pub(crate) fn with_rows(
    mut builder: SegmentBuilder,
    shape: Shape,
    count: usize,
    bytes: &[u8],
    short: FileFault,
) -> Result<SegmentBuilder, AllocError>
    requires room { HasRoom builder shape count (length bytes.now) }
    requires judged { IsOk (each_at (values_at short shape) count bytes.now) }
    ensures { IfOk result (λ made. (after : List ℕ)
        × (with_read builder (each_at (values_at short shape) count bytes.now) ≡ Ok (made, after))) }
{
    let mut cursor = Cursor::new(bytes, short);
    let mut values = RowValues::new();
    for _ in 0..count {
        let time = match cursor.row(shape, &mut values) {
            Ok(time) => time,
            Err(_) => unreachable!(),
        };
        match builder.push_values(time, values.texts.as_slice(), values.numbers.as_slice()) {
            Ok(()) => {}
            Err(fault) => return Err(want_of_memory(fault)),
        }
    }
    Ok(builder)
}
