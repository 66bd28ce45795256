//! What room the spelling of a segment by columns leaves, found without writing it.
ghost use Rattle.std.specs.Prelude.{◌≡◌, ◌↔◌, ◌+◌, ◌-◌, ◌*◌, ◌≤◌, List, length, IsTrue, SomeIff};
ghost use Rattle.std.specs.List.{flat_map, range_with_len};
ghost use Rattle.druid_segment_rows.specs.Segment.{max_rows, max_text, number_value_length};
ghost use Rattle.druid_segment_file.specs.ColumnBytes.{Coded, AreCoded, value, dimension, metric, numbers_of, column_spelling};

use druid_segment_rows::{Numbers, Segment, Texts};

// The room that texts, each after its length, leave of this room. None where they are longer.
#[tactic(auto, using(crate::proofs::ColumnRoomLemmas::length_values, std::proofs::lemmas::List::Sums::sum_by_more_le, std::proofs::lemmas::Grind::common_steps))]
fn room_after_values(texts: &Texts, mut room: usize) -> Option<usize>
    ensures { SomeIff result (length (flat_map value texts.now) ≤ room)
        (room - length (flat_map value texts.now)) }
{
    for place in 0..texts.len() {
        room = room.checked_sub(2 + texts.get(place).len())?;
    }
    Some(room)
}

// The room that a dictionary of these texts and a code for each row leave of this room. None where they are longer.
fn room_after_dimension(texts: &Texts, rows: usize, room: usize) -> Option<usize>
    requires { rows ≤ max_rows }
    ensures { SomeIff result (4 + 4 * rows + length (flat_map value texts.now) ≤ room)
        (room - (4 + 4 * rows + length (flat_map value texts.now))) }
{
    room_after_values(texts, room.checked_sub(4 + 4 * rows)?)
}

// The room that the dimensions leave of this room. None where they are longer.
fn room_after_dimensions(segment: &Segment, mut room: usize) -> Option<usize>
    ensures { (dimensions : List Coded) → AreCoded segment.now dimensions
        → SomeIff result (length (flat_map dimension dimensions) ≤ room)
        (room - length (flat_map dimension dimensions)) }
{
    for place in 0..segment.schema().dimensions().len() {
        room = room_after_dimension(segment.values(place), segment.len(), room)?;
    }
    Some(room)
}

fn number_length(number: Option<i64>) -> usize
    ensures { result ≡ number_value_length number }
{
    match number {
        Some(_) => 9,
        None => 1,
    }
}

// The room that the marks of these numbers, and those that there are, leave of this room. None where they are longer.
#[tactic(auto, using(crate::proofs::ColumnRoomLemmas::length_metric, std::proofs::lemmas::List::Sums::sum_by_more_le, std::proofs::lemmas::Grind::common_steps))]
fn room_after_numbers(numbers: &Numbers, mut room: usize) -> Option<usize>
    ensures { SomeIff result (length (metric numbers.now) ≤ room) (room - length (metric numbers.now)) }
{
    for row in 0..numbers.len() {
        room = room.checked_sub(number_length(numbers.get(row)))?;
    }
    Some(room)
}

// The room that the metrics leave of this room. None where they are longer.
fn room_after_metrics(segment: &Segment, mut room: usize) -> Option<usize>
    ensures { SomeIff result
        (length (flat_map (λ place. metric (numbers_of segment.now.rows place)) (range_with_len 0 (length segment.now.fields.metrics))) ≤ room)
        (room - length (flat_map (λ place. metric (numbers_of segment.now.rows place)) (range_with_len 0 (length segment.now.fields.metrics)))) }
{
    for place in 0..segment.schema().metrics().len() {
        room = room_after_numbers(segment.numbers(place), room)?;
    }
    Some(room)
}

// The room that the spelling of a segment leaves. None where it is longer than the text of a segment may be.
fn room_left(segment: &Segment) -> Option<usize>
    ensures { (dimensions : List Coded) → AreCoded segment.now dimensions
        → SomeIff result (length (column_spelling segment.now dimensions) ≤ max_text)
        (max_text - length (column_spelling segment.now dimensions)) }
{
    let room = segment.room_after_head().checked_sub(8 * segment.len())?;
    room_after_metrics(segment, room_after_dimensions(segment, room)?)
}

// Whether the spelling of a segment is no longer than the text of a segment may be.
pub(crate) fn is_short(segment: &Segment) -> bool
    ensures { (dimensions : List Coded) → AreCoded segment.now dimensions
        → IsTrue result ↔ (length (column_spelling segment.now dimensions) ≤ max_text) }
{
    room_left(segment).is_some()
}
