//! Rows whose values are borrowed, which are judged before they are copied.
ghost use Rattle.std.specs.Prelude.{◌≡◌, ◌↔◌, ◌-◌, ◌≤◌, length, map, sum, IsTrue, IfSome, OnSome, SomeIff, FitsSigned};
ghost use Rattle.std.specs.Int.{w64};
ghost use Rattle.std.specs.Option.{option_map};
ghost use Rattle.druid_segment_rows.specs.Rows.{texts_by, max_value, AreShort, HasShortValues, AreWords, HasWords};
ghost use Rattle.druid_segment_rows.specs.Segment.{text_value_length, number_value_length, row_length};

use crate::limits::MAX_VALUE;
use druid_time::Instant;
use std::convert::AsStr;
use std::marker::Model;

// A row whose values are borrowed.
#[derive(Debug, Drop)]
pub(crate) struct RowRef<'a, T: AsStr> {
    time: Instant,
    dimensions: &'a [Option<T>],
    metrics: &'a [Option<i64>],
}

impl<'a, T: AsStr> Model for RowRef<'a, T> {
    ghost use Rattle.druid_segment_rows.specs.Rows.{Row, texts_by};

    ghost Value = { Row };

    ghost view = { λ a. record {
      time = a.time;
      dimensions = texts_by T.text a.dimensions.now;
      metrics = a.metrics.now;
    } };
}

impl<'a, T: AsStr> RowRef<'a, T> {
    // The row of these values.
    pub(crate) fn new(
        time: Instant,
        dimensions: &'a [Option<T>],
        metrics: &'a [Option<i64>],
    ) -> RowRef<'a, T>
        ensures { result ≡ record { time = time; dimensions = texts_by T.text dimensions.now; metrics = metrics.now } }
    {
        RowRef {
            time,
            dimensions,
            metrics,
        }
    }

    pub(crate) fn time(&self) -> Instant
        ensures { result ≡ self.now.time }
    {
        self.time
    }

    // A text or null for each dimension.
    pub(crate) fn dimensions(&self) -> &'a [Option<T>]
        ensures { texts_by T.text result.now ≡ self.now.dimensions }
    {
        self.dimensions
    }

    // A number or null for each metric.
    pub(crate) fn metrics(&self) -> &'a [Option<i64>]
        ensures { result.now ≡ self.now.metrics }
    {
        self.metrics
    }

    // Whether no value of a dimension is too long for a segment.
    pub(crate) fn has_short_values(&self) -> bool
        ensures { IsTrue result ↔ HasShortValues self.now }
    {
        are_short(self.dimensions)
    }

    // The room that it leaves of this room in the text of a segment. None where it is longer.
    pub(crate) fn room_after(&self, room: usize) -> Option<usize>
        ensures value { SomeIff result (row_length self.now ≤ room) (room - row_length self.now) }
        ensures words { OnSome result (HasWords self.now) }
    {
        let room = room.checked_sub(8)?;
        let room = room_after_texts(self.dimensions, room)?;
        room_after_numbers(self.metrics, room)
    }
}

fn is_short<T: AsStr>(value: &Option<T>) -> bool
    ensures { IsTrue result ↔ IfSome (option_map T.text value.now) (λ text. length text ≤ max_value) }
{
    match value {
        Some(text) => text.as_str().len() <= MAX_VALUE,
        None => true,
    }
}

// Whether none of these texts is too long for a segment.
fn are_short<T: AsStr>(values: &[Option<T>]) -> bool
    ensures { IsTrue result ↔ AreShort (texts_by T.text values.now) }
{
    for value in values {
        if !is_short(value) {
            return false;
        }
    }
    true
}

fn room_after_text<T: AsStr>(value: &Option<T>, room: usize) -> Option<usize>
    ensures { SomeIff result (text_value_length (option_map T.text value.now) ≤ room)
        (room - text_value_length (option_map T.text value.now)) }
{
    match value {
        Some(text) => room.checked_sub(3)?.checked_sub(text.as_str().len()),
        None => room.checked_sub(1),
    }
}

#[tactic(auto, using(crate::proofs::LengthLemmas::sum_texts, std::proofs::lemmas::List::Sums::sum_by_more_le, std::proofs::lemmas::Grind::common_steps))]
fn room_after_texts<T: AsStr>(values: &[Option<T>], mut room: usize) -> Option<usize>
    ensures { SomeIff result (sum (map text_value_length (texts_by T.text values.now)) ≤ room)
        (room - sum (map text_value_length (texts_by T.text values.now))) }
{
    for value in values {
        room = room_after_text(value, room)?;
    }
    Some(room)
}

fn number_length(value: Option<i64>) -> usize
    ensures value { result ≡ number_value_length value }
    ensures word { IfSome value (FitsSigned w64) }
{
    match value {
        Some(_) => 9,
        None => 1,
    }
}

#[tactic(auto, using(crate::proofs::LengthLemmas::sum_numbers, std::proofs::lemmas::List::Sums::sum_by_more_le, std::proofs::lemmas::Grind::common_steps))]
fn room_after_numbers(values: &[Option<i64>], mut room: usize) -> Option<usize>
    ensures value { SomeIff result (sum (map number_value_length values.now) ≤ room)
        (room - sum (map number_value_length values.now)) }
    ensures words { OnSome result (AreWords values.now) }
{
    for value in values {
        room = room.checked_sub(number_length(*value))?;
    }
    Some(room)
}
