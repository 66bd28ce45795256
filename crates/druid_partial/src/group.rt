//! Groups of rows in a result.
ghost use Rattle.std.specs.Prelude.{◌≡◌};
ghost use Rattle.druid_filter.specs.Values.{nullable_texts_of};
ghost use Rattle.druid_partial.specs.Groups.{key_cmp, AreWords};
ghost use Rattle.druid_partial.specs.Joined.{join_groups};

use crate::numbers::join_numbers;
use druid_query::AggregatorKind;
use druid_time::Instant;
use std::cmp::Ordering;
use std::marker::Model;

/// The rows of a result that share a bucket and their values of the query's dimensions, and what each aggregator tells of
/// them.
#[derive(Debug, Drop)]
pub struct Group {
    bucket: Instant,
    values: Vec<Option<String>>,
    numbers: Vec<Option<i64>>,
}

impl Model for Group {
    ghost use Rattle.druid_filter.specs.Values.{nullable_texts_of};
    ghost use Rattle.druid_partial.specs.Groups.{Group, AreWords};

    ghost Value = { Group };

    ghost view = { λ a. record {
      key = record { bucket = a.bucket; values = nullable_texts_of a.values.items };
      numbers = a.numbers.items;
    } };

    ghost invariant = { λ a. AreWords a.numbers.items };
}

impl Group {
    /// The group of these parts: a text or null for each dimension, and a number or null for each aggregator.
    pub fn new(bucket: Instant, values: Vec<Option<String>>, numbers: Vec<Option<i64>>) -> Group
        requires { AreWords numbers.items }
        ensures { result ≡ record {
          key = record { bucket = bucket; values = nullable_texts_of values.items };
          numbers = numbers.items;
        } }
    {
        Group {
            bucket,
            values,
            numbers,
        }
    }

    /// The first instant of its bucket; where there is one bucket, the earliest that the query asks for.
    pub fn bucket(&self) -> Instant
        ensures value { result ≡ self.now.key.bucket }
        ensures words { AreWords self.now.numbers }
    {
        self.bucket
    }

    /// A text or null for each dimension of the query.
    pub fn values(&self) -> &[Option<String>]
        ensures { nullable_texts_of result.now ≡ self.now.key.values }
    {
        &self.values
    }

    /// A number or null for each aggregator of the query.
    pub fn numbers(&self) -> &[Option<i64>]
        ensures { result.now ≡ self.now.numbers }
    {
        &self.numbers
    }

    // Joins a group of the same key to it.
    pub(crate) fn join(&mut self, kinds: &[AggregatorKind], other: &Group)
        ensures { self.new ≡ join_groups kinds.now self.old other.now }
    {
        join_numbers(kinds, &mut self.numbers, &other.numbers);
    }

    /// How it stands to another in the order of a result.
    pub fn cmp_key(&self, other: &Group) -> Ordering
        ensures { result ≡ key_cmp self.now.key other.now.key }
    {
        match self.bucket.cmp(&other.bucket) {
            Ordering::Equal => self.values.cmp(&other.values),
            order => order,
        }
    }
}
