//! Queries of each size up to the limits are read, copied, written and answered where memory serves.
use crate::partial::{query, reported};
use druid_partial_text::result_text;
use druid_query::Query;
use druid_query_text::{query_text, read_query};
use std::alloc::Global;
use std::fmt::Write;
use std::process::Abort;

// Sizes around which code may change its way.
const SIZES: [usize; 7] = [1, 2, 3, 5, 17, 65, 1_000];

// The parts of so many items, with commas or spaces between them.
fn listed<R: Abort, F: Fn(&R, &mut String, usize)>(
    rt: &R,
    alloc: Global,
    count: usize,
    between: &str,
    push: F,
) -> String
    requires { F.IsAlwaysCallable push }
{
    let mut text = String::new(alloc);
    for number in 0..count {
        if number > 0 {
            text.push_str(between).expect(rt, "memory");
        }
        push(rt, &mut text, number);
    }
    text
}

// The begin of the second of that number, in its minute and its second.
fn push_second(rt: &impl Abort, text: &mut String, number: usize) {
    let (minute, second) = (number / 60, number % 60);
    write!(
        text,
        "\"2024-01-01T00:{minute:02}:{second:02}.000Z/2024-01-01T00:{minute:02}:{second:02}.999Z\""
    )
    .expect(rt, "memory");
}

fn push_value(rt: &impl Abort, text: &mut String, number: usize) {
    write!(text, "\"v{number}\"").expect(rt, "memory");
}

// The row of the second of that number, of that value.
fn push_row(rt: &impl Abort, text: &mut String, number: usize) {
    write!(text, "{number}000/v{number}/1").expect(rt, "memory");
}

fn push_name(rt: &impl Abort, text: &mut String, number: usize) {
    write!(text, "\"d{number}\"").expect(rt, "memory");
}

fn push_bare_name(rt: &impl Abort, text: &mut String, number: usize) {
    write!(text, "d{number}").expect(rt, "memory");
}

fn push_x(rt: &impl Abort, text: &mut String, _number: usize) {
    text.push_str("x").expect(rt, "memory");
}

// Whether a query is written, read and copied as it is.
fn is_kept(rt: &impl Abort, alloc: Global, query: &Query) -> bool {
    let text = query_text(alloc, query).expect(rt, "memory");
    let read = read_query(alloc, text.as_str().as_bytes()).expect(rt, "a query");
    let copy = read.clone().expect(rt, "memory");
    query_text(alloc, &copy).expect(rt, "memory") == text
}

// How often the aggregator `n` counted one row.
fn ones(rt: &impl Abort, alloc: Global, query: &Query, rows: &str) -> usize {
    let partial = reported(rt, alloc, query, rows, false);
    let text = result_text(alloc, query, &partial).expect(rt, "memory");
    text.as_str().split("\"n\":1").count().saturating_sub(1)
}

// Whether so many intervals by seconds, with as many values in a filter, give as many rows of the result.
fn counts_seconds(rt: &impl Abort, alloc: Global, count: usize) -> bool {
    let intervals = listed(rt, alloc, count, ",", push_second);
    let values = listed(rt, alloc, count, ",", push_value);
    let text = format!(in alloc;
        "@,\"granularity\":\"second\",\"intervals\":[{intervals}],\"filter\":{{\"type\":\"in\",\"dimension\":\"d\",\"values\":[{values}]}},\"aggregations\":[{{\"type\":\"count\",\"name\":\"n\"}}]}}"
    );
    let asked = query(rt, alloc, text.expect(rt, "memory").as_str());
    let rows = listed(rt, alloc, count, " ", push_row);
    let rows = format!(in alloc; "d:m {rows}").expect(rt, "memory");
    is_kept(rt, alloc, &asked) && ones(rt, alloc, &asked, rows.as_str()) == count
}

// Whether a row is counted by so many dimensions.
fn counts_dimensions(rt: &impl Abort, alloc: Global, count: usize) -> bool {
    let dimensions = listed(rt, alloc, count, ",", push_name);
    let text = format!(in alloc;
        "#,\"dimensions\":[{dimensions}],\"aggregations\":[{{\"type\":\"count\",\"name\":\"n\"}}]}}"
    );
    let asked = query(rt, alloc, text.expect(rt, "memory").as_str());
    let names = listed(rt, alloc, count, ",", push_bare_name);
    let values = listed(rt, alloc, count, "/", push_x);
    let rows = format!(in alloc; "{names}:m 0/{values}/1").expect(rt, "memory");
    is_kept(rt, alloc, &asked) && ones(rt, alloc, &asked, rows.as_str()) == 1
}

#[test]
fn calls_succeed_with_memory(rt: HostRuntime) {
    for count in SIZES {
        assert!(rt; counts_seconds(&rt, rt.alloc(), count), "{count}");
    }
    for count in [1usize, 2, 3, 4, 5, 15, 16] {
        assert!(rt; counts_dimensions(&rt, rt.alloc(), count), "{count}");
    }
}
