//! What a query tells of rows, one after another, by no code of the product.
use crate::condition::{Step, passes};
use druid_partial::Group;
use druid_query::{Aggregator, AggregatorKind, Query};
use druid_segment_rows::{Row, Schema, Segment};
use druid_time::Interval;
use std::alloc::Global;
use std::collections::BTreeMap;
use std::fmt::Write;
use std::process::Abort;

/// The numbers of each group, by its bucket and its values as a text that keeps their order.
pub(crate) type Plain = BTreeMap<String, Vec<Option<i64>>>;

/// A query, how many milliseconds its buckets have, and the steps of its filter.
#[derive(Drop)]
pub(crate) struct Drawn {
    pub(crate) query: Query,
    pub(crate) length: i64,
    pub(crate) steps: Vec<Step>,
}

fn place_of(names: &[String], name: &str) -> Option<usize> {
    names.iter().position(|other| other.as_str() == name)
}

/// A row's value of the dimension of that name. None is null.
pub(crate) fn value_of<'a>(schema: &Schema, row: &'a Row, name: &str) -> Option<&'a str> {
    match row.dimensions().get(place_of(schema.dimensions(), name)?) {
        Some(Some(text)) => Some(text.as_str()),
        _ => None,
    }
}

fn number(schema: &Schema, row: &Row, aggregator: &Aggregator) -> Option<i64> {
    let Some(name) = aggregator.field() else {
        return Some(1);
    };
    let place = place_of(schema.metrics(), name)?;
    row.metrics().get(place).copied().flatten()
}

fn joined(kind: AggregatorKind, old: Option<i64>, new: Option<i64>) -> Option<i64> {
    match (old, new) {
        (Some(old), Some(new)) => Some(match kind {
            AggregatorKind::Count | AggregatorKind::LongSum => old.wrapping_add(new),
            AggregatorKind::LongMin => old.min(new),
            AggregatorKind::LongMax => old.max(new),
        }),
        (Some(number), None) | (None, Some(number)) => Some(number),
        (None, None) => None,
    }
}

fn push_value(rt: &impl Abort, key: &mut String, value: Option<&str>) {
    match value {
        Some(text) => write!(key, "\u{1}{text}\0").expect(rt, "memory"),
        None => key.push_str("\0").expect(rt, "memory"),
    }
}

fn bucket(ms: i64, length: i64) -> i64 {
    match ms.checked_rem(length) {
        Some(over) => ms.wrapping_sub(over),
        None => 1_704_067_200_000,
    }
}

fn key(rt: &impl Abort, alloc: Global, drawn: &Drawn, schema: &Schema, row: &Row) -> String {
    let bucket = bucket(row.time().ms(), drawn.length);
    let mut key = format!(in alloc; "{bucket}").expect(rt, "memory");
    for dimension in drawn.query.dimensions() {
        push_value(rt, &mut key, value_of(schema, row, dimension.dimension()));
    }
    key
}

fn add(
    rt: &impl Abort,
    alloc: Global,
    plain: &mut Plain,
    query: &Query,
    schema: &Schema,
    row: &Row,
    key: String,
) {
    let mut numbers = Vec::new(alloc);
    for (place, aggregator) in query.aggregations().iter().enumerate() {
        let old = plain
            .get(key.as_str())
            .and_then(|old| old.get(place).copied().flatten());
        let new = number(schema, row, aggregator);
        numbers
            .push(joined(aggregator.kind(), old, new))
            .expect(rt, "memory");
    }
    let kept: Result<_, _> = plain.insert(key, numbers);
    kept.expect(rt, "memory");
}

/// Adds the rows of a segment that lie in the interval and pass.
pub(crate) fn add_rows(
    rt: &impl Abort,
    alloc: Global,
    plain: &mut Plain,
    drawn: &Drawn,
    segment: &Segment,
    interval: Interval,
) {
    let schema = segment.schema();
    for place in 0..segment.len() {
        let row = segment.row(place).expect(rt, "memory");
        if interval.contains(row.time()) && passes(rt, alloc, &drawn.steps, schema, &row) {
            let key = key(rt, alloc, drawn, schema, &row);
            add(rt, alloc, plain, &drawn.query, schema, &row, key);
        }
    }
}

fn key_of(rt: &impl Abort, alloc: Global, group: &Group) -> String {
    let bucket = group.bucket().ms();
    let mut key = format!(in alloc; "{bucket}").expect(rt, "memory");
    for value in group.values() {
        push_value(rt, &mut key, value.as_deref());
    }
    key
}

/// How many groups there are, where both have the same.
pub(crate) fn same_groups(
    rt: &impl Abort,
    alloc: Global,
    plain: &Plain,
    groups: &[Group],
) -> Option<usize> {
    for ((key, numbers), group) in plain.iter().zip(groups) {
        if *key != key_of(rt, alloc, group) || numbers.as_slice() != group.numbers() {
            return None;
        }
    }
    (plain.len() == groups.len()).then_some(groups.len())
}
