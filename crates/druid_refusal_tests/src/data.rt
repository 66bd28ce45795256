//! Rows, segments, messages, and what queries tell of segments.
ghost use Rattle.druid_partial.specs.Partials.{IsPartialFor};

use crate::marks::{assert_call, begin, end};
use crate::texts::{asked_query, text_of};
use crate::values::{day, descriptor};
use druid_http_message::{Request, WireFault};
use druid_http_wire::{read_request, read_response, request_bytes};
use druid_partial::{Partial, kinds_of, merge};
use druid_partial_scan::{partial_of, partial_of_slices, partial_on_threads, partial_over};
use druid_partial_text::{partial_text, result_text, shortfall_text};
use druid_query::Query;
use druid_segment_descriptor::Descriptor;
use druid_segment_rows::{Numbers, Row, RowFault, Schema, Segment, SegmentBuilder, Texts};
use druid_time::Instant;
use http::Method;
use std::alloc::{AllocError, Global};
use std::process::Abort;
use std::thread::Threads;

fn schema(rt: &impl Abort, alloc: Global) -> Schema {
    let dimensions = vec![in alloc; text_of(rt, alloc, "d")].expect(rt, "memory");
    let metrics = vec![in alloc; text_of(rt, alloc, "m")].expect(rt, "memory");
    Schema::new(dimensions, metrics)
}

fn row(rt: &impl Abort, alloc: Global, time: &str, value: &str) -> Row {
    let time = Instant::parse(time).expect(rt, "an instant");
    let values = vec![in alloc; Some(text_of(rt, alloc, value))].expect(rt, "memory");
    Row::new(
        time,
        values,
        vec![in alloc; Some(5_i64)].expect(rt, "memory"),
    )
}

fn rows(rt: &impl Abort, alloc: Global) -> Vec<Row> {
    let first = row(rt, alloc, "2024-01-01T10:00", "a");
    let second = row(rt, alloc, "2024-01-01T11:00", "b");
    vec![in alloc; first, second].expect(rt, "memory")
}

/// A segment of two rows.
pub(crate) fn segment(rt: &impl Abort, alloc: Global) -> Segment {
    segment_with(rt, alloc, descriptor(rt, alloc, "v1", 0))
}

/// One with that descriptor.
pub(crate) fn segment_with(rt: &impl Abort, alloc: Global, descriptor: Descriptor) -> Segment {
    Segment::new(alloc, descriptor, schema(rt, alloc), rows(rt, alloc)).expect(rt, "a segment")
}

// Whether it is the second of `rows`.
fn is_second(rt: &impl Abort, row: &Row) -> bool {
    let time = Instant::parse("2024-01-01T11:00").expect(rt, "an instant");
    let is_b = match row.dimensions() {
        [Some(value)] => value.as_str() == "b",
        _ => false,
    };
    row.time() == time && is_b && row.metrics() == [Some(5_i64)].as_slice()
}

fn segments(rt: &impl Abort, alloc: Global) {
    let (descriptor, schema) = (descriptor(rt, alloc, "v1", 0), schema(rt, alloc));
    let rows = rows(rt, alloc);
    begin(rt, alloc);
    let made = end(rt, alloc, Segment::new(alloc, descriptor, schema, rows));
    assert_call(
        rt,
        "Segment::new",
        match &made {
            Ok(segment) => segment.len() == 2,
            Err(fault) => *fault == RowFault::Memory,
        },
    );
    let segment = segment(rt, alloc);
    if segment.len() == 2 {
        begin(rt, alloc);
        let row = end(rt, alloc, segment.row(1));
        assert_call(
            rt,
            "Segment::row",
            match &row {
                Ok(row) => is_second(rt, row),
                Err(_) => segment.len() == 2,
            },
        );
    }
}

// Pushes a row of which the builder has none yet, or one with another value.
fn pushes(rt: &impl Abort, alloc: Global, builder: &mut SegmentBuilder, value: &str) {
    let time = Instant::parse("2024-01-01T10:00").expect(rt, "an instant");
    let row = row(rt, alloc, "2024-01-01T10:00", value);
    begin(rt, alloc);
    let reported = end(rt, alloc, builder.push(&row));
    assert_call(
        rt,
        "SegmentBuilder::push",
        match reported {
            Ok(()) => true,
            Err(fault) => fault == RowFault::Memory && builder.push(&row).is_ok(),
        },
    );
    begin(rt, alloc);
    let reported = end(rt, alloc, builder.push_values(time, &[Some("x")], &[None]));
    assert_call(
        rt,
        "SegmentBuilder::push_values",
        match reported {
            Ok(()) => true,
            Err(fault) => fault == RowFault::Memory
                && builder.push_values(time, &[Some("x")], &[None]).is_ok(),
        },
    );
}

fn builders(rt: &impl Abort, alloc: Global) {
    let (first, schemas) = (descriptor(rt, alloc, "v1", 0), schema(rt, alloc));
    begin(rt, alloc);
    let made = end(rt, alloc, SegmentBuilder::new(alloc, first, schemas));
    assert_call(
        rt,
        "SegmentBuilder::new",
        match made {
            Ok(builder) => builder.finish().expect(rt, "memory").is_empty(),
            Err(fault) => fault == RowFault::Memory,
        },
    );
    let (second, schemas) = (descriptor(rt, alloc, "v1", 1), schema(rt, alloc));
    let mut builder = SegmentBuilder::new(alloc, second, schemas).expect(rt, "a builder");
    pushes(rt, alloc, &mut builder, "a");
    pushes(rt, alloc, &mut builder, "b");
    begin(rt, alloc);
    let finished = end(rt, alloc, builder.finish());
    assert_call(
        rt,
        "SegmentBuilder::finish",
        match finished {
            Ok(segment) => segment.len() == 4,
            Err(_) => true,
        },
    );
}

fn push_text(rt: &impl Abort, alloc: Global, texts: &mut Texts, text: &str) {
    begin(rt, alloc);
    let reported = end(rt, alloc, texts.push(text));
    assert_call(
        rt,
        "Texts::push",
        match reported {
            Ok(()) => true,
            Err(_) => texts.push(text).is_ok(),
        },
    );
}

fn texts(rt: &impl Abort, alloc: Global) {
    let mut texts = Texts::new(alloc);
    push_text(rt, alloc, &mut texts, "a");
    push_text(rt, alloc, &mut texts, "");
    push_text(rt, alloc, &mut texts, "caf\u{e9}");
    assert_call(rt, "then Texts::len", texts.len() == 3);
    if texts.len() == 3 {
        let found = (texts.get(0), texts.get(1), texts.get(2));
        assert_call(rt, "then Texts::get", found == ("a", "", "caf\u{e9}"));
    }
}

fn push_number(rt: &impl Abort, alloc: Global, numbers: &mut Numbers, value: Option<i64>) {
    begin(rt, alloc);
    let reported = end(rt, alloc, numbers.push(value));
    assert_call(
        rt,
        "Numbers::push",
        match reported {
            Ok(()) => true,
            Err(_) => numbers.push(value).is_ok(),
        },
    );
}

// A metric of three rows.
fn numbers(rt: &impl Abort, alloc: Global) {
    begin(rt, alloc);
    let made = end(rt, alloc, Numbers::with_capacity(alloc, 3));
    assert_call(
        rt,
        "Numbers::with_capacity",
        match made {
            Ok(numbers) => numbers.len() == 0,
            Err(_) => true,
        },
    );
    let mut numbers = Numbers::with_capacity(alloc, 0).expect(rt, "memory");
    push_number(rt, alloc, &mut numbers, Some(7));
    push_number(rt, alloc, &mut numbers, None);
    push_number(rt, alloc, &mut numbers, Some(-5));
    assert_call(rt, "then Numbers::len", numbers.len() == 3);
    if numbers.len() == 3 {
        let values = (numbers.get(0), numbers.get(1), numbers.get(2));
        assert_call(rt, "then Numbers::get", values == (Some(7), None, Some(-5)));
    }
}

// A request and a response with one body, of which nothing else is after it.
fn messages(rt: &impl Abort, alloc: Global, request: &[u8], response: &[u8]) {
    let mut reader = request;
    begin(rt, alloc);
    let read = end(rt, alloc, read_request(alloc, &mut reader));
    assert_call(
        rt,
        "read_request",
        match &read {
            Ok(read) => read.body() == b"[]".as_slice(),
            Err(fault) => *fault == WireFault::Memory,
        },
    );
    let mut reader = response;
    begin(rt, alloc);
    let read = end(rt, alloc, read_response(alloc, &mut reader));
    assert_call(
        rt,
        "read_response",
        match &read {
            Ok((_, body)) => body.as_slice() == b"true".as_slice(),
            Err(fault) => *fault == WireFault::Memory,
        },
    );
    let request = Request::new(Method::GET, text_of(rt, alloc, "/"), Vec::new(alloc));
    begin(rt, alloc);
    let bytes = end(rt, alloc, request_bytes(alloc, &request));
    assert_call(
        rt,
        "request_bytes",
        match &bytes {
            Ok(bytes) => bytes.starts_with(b"GET / HTTP/1.1\r\n"),
            Err(_) => true,
        },
    );
}

fn partials(rt: &impl Abort, alloc: Global, query: &Query, segment: &Segment) {
    begin(rt, alloc);
    let empty = end(rt, alloc, Partial::empty(alloc, query));
    assert_call(
        rt,
        "Partial::empty",
        match &empty {
            Ok(empty) => empty.groups().is_empty(),
            Err(_) => true,
        },
    );
    let day = day(rt);
    begin(rt, alloc);
    let reported = end(rt, alloc, partial_of(alloc, query, segment, day));
    assert_call(
        rt,
        "partial_of",
        match &reported {
            Ok(reported) => reported.groups().len() == 2,
            Err(_) => segment.len() == 2,
        },
    );
    begin(rt, alloc);
    let over = end(rt, alloc, partial_over(alloc, query, segment, &[day, day]));
    assert_call(
        rt,
        "partial_over",
        match &over {
            Ok(over) => over.groups().len() == 2,
            Err(_) => segment.len() == 2,
        },
    );
    begin(rt, alloc);
    let kinds = end(rt, alloc, kinds_of(alloc, query));
    assert_call(
        rt,
        "kinds_of",
        match &kinds {
            Ok(kinds) => kinds.len() == 2,
            Err(_) => true,
        },
    );
}

// Whether both groups are there, or memory ran out and the segment is as it was.
fn is_counted(reported: &Result<Partial, AllocError>, segment: &Segment) -> bool {
    match reported {
        Ok(reported) => reported.groups().len() == 2,
        Err(_) => segment.len() == 2,
    }
}

// As many rows as texts, so that all are counted at once.
fn slices<R: Abort + Threads>(rt: &R, alloc: Global, query: &Query, segment: &Segment) {
    let front = vec![in alloc; day(rt)].expect(rt, "memory");
    let back = vec![in alloc; day(rt)].expect(rt, "memory");
    let slices = vec![in alloc; (segment, front), (segment, back)].expect(rt, "memory");
    begin(rt, alloc);
    let reported = end(rt, alloc, partial_of_slices(alloc, query, &slices));
    assert_call(rt, "partial_of_slices", is_counted(&reported, segment));
    begin(rt, alloc);
    let reported = end(rt, alloc, partial_on_threads(rt, alloc, query, &slices, 1));
    assert_call(rt, "partial_on_threads", is_counted(&reported, segment));
}

/// What a query tells of a segment.
pub(crate) fn partial_for(
    rt: &impl Abort,
    alloc: Global,
    query: &Query,
    segment: &Segment,
) -> Partial
    ensures { IsPartialFor query.now result }
{
    partial_of(alloc, query, segment, day(rt)).expect(rt, "memory")
}

fn merges(rt: &impl Abort, alloc: Global, query: &Query, segment: &Segment) {
    let left = partial_for(rt, alloc, query, segment);
    let right = partial_for(rt, alloc, query, segment);
    begin(rt, alloc);
    let both = end(rt, alloc, merge(alloc, left, right));
    assert_call(
        rt,
        "merge",
        match &both {
            Ok(both) => both.groups().len() == 2,
            Err(back) => back.left.groups().len() == 2 && back.right.groups().len() == 2,
        },
    );
}

fn results(rt: &impl Abort, alloc: Global, query: &Query, segment: &Segment) {
    let partial = partial_for(rt, alloc, query, segment);
    begin(rt, alloc);
    let text = end(rt, alloc, partial_text(alloc, &partial));
    assert_call(
        rt,
        "partial_text",
        match &text {
            Ok(text) => text.as_str()
                == "[[1704067200000,[\"a\"],[1,5]],[1704067200000,[\"b\"],[1,5]]]",
            Err(_) => true,
        },
    );
    begin(rt, alloc);
    let text = end(rt, alloc, result_text(alloc, query, &partial));
    assert_call(
        rt,
        "result_text",
        match &text {
            Ok(text) => text
                .as_str()
                .starts_with("[{\"event\":{\"d\":\"a\",\"n\":1,\"s\":5}"),
            Err(_) => true,
        },
    );
    begin(rt, alloc);
    let text = end(rt, alloc, shortfall_text(alloc, query, &[], &partial));
    assert_call(
        rt,
        "shortfall_text",
        match &text {
            Ok(text) => text
                .as_str()
                .starts_with("{\"error\":\"SegmentsMissing\",\"missing\":[],"),
            Err(_) => true,
        },
    );
}

#[test]
fn of_segments(rt: HostRuntime) {
    segments(&rt, rt.alloc());
    numbers(&rt, rt.alloc());
    builders(&rt, rt.alloc());
}

#[test]
fn of_messages(rt: HostRuntime) {
    let request = b"POST / HTTP/1.1\r\nContent-Length: 2\r\n\r\n[]";
    let response = b"HTTP/1.1 200 OK\r\nContent-Length: 4\r\n\r\ntrue";
    messages(&rt, rt.alloc(), request, response);
}

#[test]
fn of_partials(rt: HostRuntime) {
    let segment = segment(&rt, rt.alloc());
    let query = asked_query(&rt, rt.alloc());
    partials(&rt, rt.alloc(), &query, &segment);
    slices(&rt, rt.alloc(), &query, &segment);
    merges(&rt, rt.alloc(), &query, &segment);
    results(&rt, rt.alloc(), &query, &segment);
}
