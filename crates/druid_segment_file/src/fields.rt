//! Readers of the names of the fields.
ghost use Rattle.std.specs.Prelude.{◌≡◌, ◌++◌, ◌≤◌, [], length, map, bytes_eq, IfOk};
ghost use Rattle.std.specs.List.{list_any};
ghost use Rattle.druid_segment_rows.specs.Rows.{texts_of};
ghost use Rattle.druid_segment_rows.specs.Segment.{max_fields};
ghost use Rattle.druid_segment_file.specs.Parts.{accepted, is_new_name, field_name_at, field_names_at, names_at, fields_at};
ghost use Rattle.druid_segment_file.specs.Reader.{GivesAs, TakesAs};
ghost use Rattle.druid_segment_file.specs.Borrowed.{texts_borrowed};

use crate::FileFault;
use crate::cursor::{Cursor, at_most};
use arrayvec::ArrayVec;
use druid_segment_rows::{MAX_FIELDS, MAX_NAME, Schema};
use std::alloc::{AllocError, Global};
use std::marker::Model;
use std::str;

// Names that lie in the bytes of a segment.
type Names<'a> = ArrayVec<&'a str, MAX_FIELDS>;

// The names of the dimensions and of the metrics.
#[derive(Drop)]
pub(crate) struct FieldNames<'a> {
    dimensions: Names<'a>,
    metrics: Names<'a>,
}

impl<'a> Model for FieldNames<'a> {
    ghost use Rattle.druid_segment_rows.specs.Rows.{Schema};
    ghost use Rattle.druid_segment_file.specs.Borrowed.{texts_borrowed};

    ghost Value = { Schema };

    ghost view = { λ a. record {
      dimensions = texts_borrowed a.dimensions.items;
      metrics = texts_borrowed a.metrics.items;
    } };
}

fn is_among(name: &str, names: &[&str]) -> bool
    ensures { result ≡ list_any (bytes_eq name.now) (texts_borrowed names.now) }
{
    names.iter().any(|other| name == *other)
}

// Whether it is a field name, and none of the names before it: first the others, and then these.
#[tactic(auto, using(crate::proofs::FieldLemmas::among_both))]
fn is_new_name(name: &str, others: &[&str], names: &[&str]) -> bool
    ensures { result ≡ is_new_name (texts_borrowed others.now ++ texts_borrowed names.now) name.now }
{
    if !Schema::accepts(name) {
        return false;
    }
    !is_among(name, others) && !is_among(name, names)
}

#[tactic(auto, using(crate::proofs::FieldLemmas::no_new_name), unfolding(crate::specs::Parts::accepted))]
fn field_name_of<'a>(text: &'a [u8], others: &[&str], names: &[&str]) -> Result<&'a str, FileFault>
    ensures { GivesAs (λ name. name.now) result
        (accepted (is_new_name (texts_borrowed others.now ++ texts_borrowed names.now)) text.now) }
{
    let Ok(text) = str::from_utf8(text) else {
        return Err(FileFault::Field);
    };
    if !is_new_name(text, others, names) {
        return Err(FileFault::Field);
    }
    Ok(text)
}

fn strings(alloc: Global, names: &[&str]) -> Result<Vec<String>, AllocError>
    ensures { IfOk result (λ strings. texts_of strings.items ≡ texts_borrowed names.now) }
{
    let mut strings = Vec::with_capacity(alloc, names.len())?;
    for name in names {
        strings.push(String::from_str(alloc, name)?)?;
    }
    Ok(strings)
}

impl<'a> Cursor<'a> {
    #[tactic(auto, unfolding(crate::specs::Parts::field_name_at))]
    fn field_name(&mut self, others: &[&str], names: &[&str]) -> Result<&'a str, FileFault>
        ensures { TakesAs (λ name. name.now) self.old self.new result
            (field_name_at self.old.short (texts_borrowed others.now ++ texts_borrowed names.now) self.old.rest) }
    {
        field_name_of(self.short_text(MAX_NAME)?, others, names)
    }

    fn field_names(&mut self, count: usize, others: &[&str]) -> Result<Names<'a>, FileFault>
        requires { count ≤ max_fields }
        ensures { TakesAs (λ names. texts_borrowed names.items) self.old self.new result
            (field_names_at self.old.short count (texts_borrowed others.now) self.old.rest) }
    {
        let mut names = Names::new();
        for _ in 0..count {
            let name = self.field_name(others, names.as_slice())?;
            names.push(name);
        }
        Ok(names)
    }

    // Names after their number, which is one byte. None of them is one of the others.
    #[tactic(auto, unfolding(crate::specs::Parts::names_at, crate::specs::Parts::at_most))]
    fn names(&mut self, others: &[&str]) -> Result<Names<'a>, FileFault>
        ensures { TakesAs (λ names. texts_borrowed names.items) self.old self.new result
            (names_at self.old.short (texts_borrowed others.now) self.old.rest) }
    {
        let count = usize::from(self.byte()?);
        if count > MAX_FIELDS {
            return Err(FileFault::TooLong);
        }
        self.field_names(count, others)
    }

    #[tactic(auto, unfolding(crate::specs::Parts::fields_at))]
    pub(crate) fn fields(&mut self) -> Result<FieldNames<'a>, FileFault>
        ensures { TakesAs (λ fields. fields) self.old self.new result (fields_at self.old.short self.old.rest) }
    {
        let dimensions = self.names(&[])?;
        let metrics = self.names(&dimensions)?;
        Ok(FieldNames {
            dimensions,
            metrics,
        })
    }
}

impl FieldNames<'_> {
    // The names of the dimensions.
    pub(crate) fn dimensions(&self) -> &[&str]
        ensures value { texts_borrowed result.now ≡ self.now.dimensions }
        ensures few { length result.now ≤ max_fields }
    {
        &self.dimensions
    }

    // The names of the metrics.
    pub(crate) fn metrics(&self) -> &[&str]
        ensures value { texts_borrowed result.now ≡ self.now.metrics }
        ensures few { length result.now ≤ max_fields }
    {
        &self.metrics
    }

    // The schema of these names.
    pub(crate) fn schema(&self, alloc: Global) -> Result<Schema, AllocError>
        ensures { IfOk result (λ schema. schema ≡ self.now) }
    {
        let dimensions = strings(alloc, &self.dimensions)?;
        let metrics = strings(alloc, &self.metrics)?;
        Ok(Schema::new(dimensions, metrics))
    }
}
