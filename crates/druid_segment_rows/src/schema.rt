//! The names of the fields of rows. Each two are compared, which is quadratic and takes no memory,
//! so that U1 comes before out of memory; a segment has 128 names at most.
ghost use Rattle.std.specs.Prelude.{◌≡◌, ◌↔◌, ℕ, ◌+◌, ◌-◌, ◌<◌, ◌≤◌, ◌++◌, [], length, IsTrue, All, SomeIff};
ghost use Rattle.std.specs.List.{list_all};
ghost use Rattle.druid_segment_rows.specs.Names.{is_field_byte, is_field_name, IsFieldName};
ghost use Rattle.druid_segment_rows.specs.Rows.{texts_of, IsSchema, HasShape};
ghost use Rattle.druid_segment_rows.specs.Segment.{names_length};

use crate::limits::MAX_NAME;
use crate::row_ref::RowRef;
use druid_base::{TextList, are_distinct};
use std::convert::AsStr;
use std::marker::Model;

/// The names of the dimensions and of the metrics of a segment's rows. A schema keeps any names; a segment takes only
/// a schema whose names are field names and distinct.
#[derive(Debug, Drop)]
pub struct Schema {
    dimensions: Vec<String>,
    metrics: Vec<String>,
}

impl Model for Schema {
    ghost use Rattle.druid_segment_rows.specs.Rows.{Schema, texts_of};

    ghost Value = { Schema };

    ghost view = { λ a. record {
      dimensions = texts_of a.dimensions.items;
      metrics = texts_of a.metrics.items;
    } };
}

fn is_field_byte(byte: u8) -> bool
    ensures { result ≡ is_field_byte byte }
{
    byte.is_ascii_alphanumeric() || byte == b'_'
}

fn are_field_bytes(bytes: &[u8]) -> bool
    ensures test { result ≡ list_all is_field_byte bytes.now }
    ensures all { IsTrue result ↔ All (λ b. IsTrue (is_field_byte b)) bytes.now }
{
    bytes.iter().all(|byte| is_field_byte(*byte))
}

fn are_field_names(names: &[String]) -> bool
    ensures { IsTrue result ↔ All IsFieldName (texts_of names.now) }
{
    names.iter().all(|name| Schema::accepts(name))
}

impl Schema {
    /// Whether the text is a field name: 1 to 100 bytes of `A-Z a-z 0-9 _`. Does not allocate.
    pub fn accepts(name: &str) -> bool
        ensures test { result ≡ is_field_name name.now }
        ensures names { IsTrue result ↔ IsFieldName name.now }
    {
        let bytes = name.as_bytes();
        1 <= bytes.len() && bytes.len() <= MAX_NAME && are_field_bytes(bytes)
    }

    /// These names, in this order.
    pub fn new(dimensions: Vec<String>, metrics: Vec<String>) -> Schema
        ensures { result ≡ record {
          dimensions = texts_of dimensions.items;
          metrics = texts_of metrics.items;
        } }
    {
        Schema {
            dimensions,
            metrics,
        }
    }

    /// The names of the dimensions.
    pub fn dimensions(&self) -> &[String]
        ensures { texts_of result.now ≡ self.now.dimensions }
    {
        &self.dimensions
    }

    /// The names of the metrics.
    pub fn metrics(&self) -> &[String]
        ensures { texts_of result.now ≡ self.now.metrics }
    {
        &self.metrics
    }

    // Whether its names are field names and distinct. Does not allocate.
    pub(crate) fn is_valid(&self) -> bool
        ensures { IsTrue result ↔ IsSchema self.now }
    {
        if !are_field_names(&self.dimensions) || !are_field_names(&self.metrics) {
            return false;
        }
        are_distinct(self)
    }

    // Whether the row has a value for each field.
    pub(crate) fn fits<T: AsStr>(&self, row: &RowRef<'_, T>) -> bool
        ensures { IsTrue result ↔ HasShape self.now row.now }
    {
        row.dimensions().len() == self.dimensions.len() && row.metrics().len() == self.metrics.len()
    }

    // The room that its names leave of this room. None where they are longer.
    pub(crate) fn room_after(&self, room: usize) -> Option<usize>
        ensures { SomeIff result
            (names_length self.now.dimensions + names_length self.now.metrics ≤ room)
            (room - (names_length self.now.dimensions + names_length self.now.metrics)) }
    {
        room_after_names(&self.metrics, room_after_names(&self.dimensions, room)?)
    }
}

// The names of its fields, the dimensions before the metrics.
impl TextList for Schema {
    ghost texts = { λ schema. schema.dimensions ++ schema.metrics };

    fn count(&self) -> usize {
        self.dimensions.len() + self.metrics.len()
    }

    fn text(&self, place: usize) -> &str {
        match self.dimensions.get(place) {
            Some(name) => name,
            None => &self.metrics[place - self.dimensions.len()],
        }
    }
}

// The room that a count and these names, each with its length, leave of this room. None where they are longer.
#[tactic(auto, using(crate::proofs::LengthLemmas::sum_names, std::proofs::lemmas::List::Sums::sum_by_more_le, std::proofs::lemmas::Grind::common_steps))]
fn room_after_names(names: &[String], room: usize) -> Option<usize>
    ensures { SomeIff result (names_length (texts_of names.now) ≤ room) (room - names_length (texts_of names.now)) }
{
    let mut room = room.checked_sub(1)?;
    for name in names {
        room = room.checked_sub(1 + name.len())?;
    }
    Some(room)
}
