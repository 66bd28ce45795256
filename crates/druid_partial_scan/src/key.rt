//! Where rows stand in a result.
ghost use Rattle.std.specs.Prelude.{◌≡◌, Some, refl, map, IfOk, option_map};
ghost use Rattle.std.specs.Ordering.{eq_by_cmp};
ghost use Rattle.druid_segment_rows.specs.Rows.{nullable_texts_of};
ghost use Rattle.druid_partial.specs.Groups.{AreWords, key_cmp};
ghost use Rattle.druid_partial.specs.Orders as order;

use druid_base::copy_text;
use druid_partial::Group;
use druid_time::Instant;
use std::alloc::{AllocError, Global};
use std::cmp::Ordering;
use std::marker::Model;

// Where a row stands in a result: its bucket, and its values of the query's dimensions, borrowed from the segment.
#[derive(Drop)]
pub(crate) struct KeyRef<'a> {
    bucket: Instant,
    values: Vec<Option<&'a str>>,
}

impl<'a> Model for KeyRef<'a> {
    ghost use Rattle.std.specs.Prelude.{map, option_map};
    ghost use Rattle.druid_partial.specs.Groups.{Key};

    ghost Value = { Key };

    ghost view = { λ a. record {
      bucket = a.bucket;
      values = map (option_map (λ text. text.now)) a.values.items;
    } };
}

impl<'a> PartialEq for KeyRef<'a> {
    ghost eq = { eq_by_cmp key_cmp };

    ghost laws = { order.same_key-per };

    fn eq(&self, other: &KeyRef<'a>) -> bool {
        self.cmp(other) == Ordering::Equal
    }
}

impl<'a> Eq for KeyRef<'a> {
    ghost laws = { order.same_key-equiv };
}

impl<'a> PartialOrd for KeyRef<'a> {
    ghost partial_cmp = { λ a b. Some (key_cmp a b) };

    ghost laws = { order.key_cmp-po };

    fn partial_cmp(&self, other: &KeyRef<'a>) -> Option<Ordering> {
        Some(self.cmp(other))
    }
}

impl<'a> Ord for KeyRef<'a> {
    ghost cmp = { key_cmp };

    ghost total = { order.key_cmp-total };

    ghost matches_partial_cmp = { λ a b. refl };

    ghost matches_eq = { λ a b. refl };

    fn cmp(&self, other: &KeyRef<'a>) -> Ordering {
        match self.bucket.cmp(&other.bucket) {
            Ordering::Equal => self.values.cmp(&other.values),
            order => order,
        }
    }
}

impl<'a> KeyRef<'a> {
    // The key of these parts.
    pub(crate) fn new(bucket: Instant, values: Vec<Option<&'a str>>) -> KeyRef<'a>
        ensures { result ≡ record { bucket = bucket; values = map (option_map (λ text. text.now)) values.entry.items } }
    {
        KeyRef { bucket, values }
    }

    pub(crate) fn bucket(&self) -> Instant
        ensures { result ≡ self.now.bucket }
    {
        self.bucket
    }

    // Its values, copied.
    pub(crate) fn texts(&self, alloc: Global) -> Result<Vec<Option<String>>, AllocError>
        ensures { IfOk result (λ texts. nullable_texts_of texts.items ≡ self.now.values) }
    {
        let mut texts = Vec::with_capacity(alloc, self.values.len())?;
        for value in &self.values {
            texts.push(copy_text(alloc, *value)?)?;
        }
        Ok(texts)
    }
}

// The same with texts of its own, so that no segment is looked into for them again.
#[derive(Drop)]
pub(crate) struct Key {
    bucket: Instant,
    values: Vec<Option<String>>,
}

impl Model for Key {
    ghost use Rattle.druid_filter.specs.Values.{nullable_texts_of};
    ghost use Rattle.druid_partial.specs.Groups.{Key};

    ghost Value = { Key };

    ghost view = { λ a. record { bucket = a.bucket; values = nullable_texts_of a.values.items } };
}

impl Key {
    // The key of these parts.
    pub(crate) fn new(bucket: Instant, values: Vec<Option<String>>) -> Key
        ensures { result ≡ record { bucket = bucket; values = nullable_texts_of values.items } }
    {
        Key { bucket, values }
    }

    // The group of that key, with these numbers.
    pub(crate) fn group(self, numbers: Vec<Option<i64>>) -> Group
        requires { AreWords numbers.items }
        ensures { result ≡ record { key = self; numbers = numbers.items } }
    {
        Group::new(self.bucket, self.values, numbers)
    }
}
