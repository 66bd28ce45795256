//! A node answers a query with the same bytes on any number of threads: drawn segments, pieces and queries.
use crate::columns::{load, query, segment};
use crate::drawn::{AGGREGATIONS, Draws, push_row};
use crate::node::{First, Layout, node_of};
use druid_node::DataNode;
use druid_segment_descriptor::Mark;
use druid_segment_rows::Segment;
use std::alloc::Global;
use std::fmt::Write;
use std::process::Abort;
use std::sync::Wait;
use std::thread::Threads;

const RUNS: u64 = 3;

const SEGMENTS: u64 = 6;

// So many rows at most of a segment that most queries here are worth several threads.
const ROWS: u64 = 1_600;

// What is compared with one thread.
const THREADS: [usize; 3] = [2, 3, 16];

const QUERIES: [&str; 4] = [
    "\"queryType\":\"timeseries\",\"granularity\":\"hour\"",
    "\"queryType\":\"groupBy\",\"dimensions\":[\"d\"]",
    "\"queryType\":\"groupBy\",\"dimensions\":[\"e\",\"f\",\"d\"]",
    "\"queryType\":\"groupBy\",\"granularity\":\"minute\",\"dimensions\":[\"d\",\"e\"]",
];

// What may follow the other keys of a query.
const FILTERS: [&str; 7] = [
    "",
    ",\"filter\":{\"type\":\"selector\",\"dimension\":\"d\",\"value\":\"a\"}",
    ",\"filter\":{\"type\":\"selector\",\"dimension\":\"e\",\"value\":null}",
    ",\"filter\":{\"type\":\"selector\",\"dimension\":\"f\",\"value\":null}",
    ",\"filter\":{\"type\":\"in\",\"dimension\":\"d\",\"values\":[\"z\",null,\"\u{e9}\"]}",
    ",\"filter\":{\"type\":\"not\",\"field\":{\"type\":\"in\",\"dimension\":\"e\",\"values\":[\"\",\"b\"]}}",
    ",\"filter\":{\"type\":\"or\",\"fields\":[{\"type\":\"and\",\"fields\":[{\"type\":\"selector\",\"dimension\":\"d\",\"value\":\"a\"},{\"type\":\"selector\",\"dimension\":\"e\",\"value\":\"b\"}]},{\"type\":\"selector\",\"dimension\":\"m\",\"value\":\"1\"},{\"type\":\"selector\",\"dimension\":\"d\",\"value\":\"\"}]}",
];

// The milliseconds of a row after midnight: they rise, or do not.
fn ms(draws: &mut Draws, rises: bool, row: u64) -> u64 {
    if rises {
        row.wrapping_mul(53_999)
    } else {
        draws.below(86_400_000)
    }
}

// A segment as `columns` has it, of that partition.
fn drawn_segment(rt: &impl Abort, alloc: Global, draws: &mut Draws, partition: u64) -> Segment {
    let mut text = format!(in alloc; "v1/0-24/{partition} d,e:m,n").expect(rt, "memory");
    let rises = draws.below(4) > 0;
    for row in 0..draws.below(ROWS) {
        let ms = ms(draws, rises, row);
        push_row(rt, draws, &mut text, ms);
    }
    segment(rt, alloc, text.as_str())
}

fn drawn_segments(rt: &impl Abort, alloc: Global, draws: &mut Draws) -> Vec<Segment> {
    let mut segments = Vec::new(alloc);
    for partition in 0..SEGMENTS {
        segments
            .push(drawn_segment(rt, alloc, draws, partition))
            .expect(rt, "memory");
    }
    segments
}

// Hours of these segments, and of one that is not held.
fn drawn_pieces(rt: &impl Abort, alloc: Global, draws: &mut Draws) -> String {
    let mut pieces = String::new(alloc);
    for hour in 0..24u64 {
        let end = hour.wrapping_add(1);
        for partition in 0..=SEGMENTS {
            if draws.below(4) > 0 {
                write!(pieces, "v1/0-24/{partition}/{hour}-{end} ").expect(rt, "memory");
            }
        }
    }
    pieces
}

fn drawn_message(rt: &impl Abort, alloc: Global, draws: &mut Draws) -> String {
    let pieces = drawn_pieces(rt, alloc, draws);
    let (kind, filter) = (draws.one(&QUERIES, ""), draws.one(&FILTERS, ""));
    let aggregations = AGGREGATIONS.strip_suffix("}").expect(rt, "an end");
    let rest = format!(in alloc; "{kind}{filter}{aggregations}").expect(rt, "memory");
    let body = query(rt, alloc, pieces.as_str(), rest.as_str());
    let length = body.len();
    let message = format!(in alloc;
        "POST /druid/v2/ HTTP/1.1\r\nContent-Length: {length}\r\n\r\n{body}"
    );
    message.expect(rt, "memory")
}

fn node<R: Abort + Wait>(
    rt: &R,
    alloc: Global,
    segments: &[Segment],
    threads: usize,
) -> DataNode<First> {
    let node = node_of(rt, alloc, threads);
    for segment in segments {
        load(rt, alloc, Layout::ByColumns, &node, segment);
    }
    node
}

// What a node of these segments answers.
fn answer<R: Abort + Wait + Threads>(
    rt: &R,
    alloc: Global,
    segments: &[Segment],
    threads: usize,
    message: &str,
) -> Vec<u8> {
    let node = node(rt, alloc, segments, threads);
    let (mut reader, mut written) = (message.as_bytes(), Vec::new(alloc));
    let served = node.serve_one(rt, &mut reader, &mut written, &mut Mark::never());
    assert!(rt; served == Ok(200));
    written
}

// How many bytes the answer to a drawn query has. None where it is another on more threads than one.
fn answered<R: Abort + Wait + Threads>(rt: &R, alloc: Global, seed: u64) -> Option<usize> {
    let mut draws = Draws::new(seed);
    let segments = drawn_segments(rt, alloc, &mut draws);
    let message = drawn_message(rt, alloc, &mut draws);
    let wanted = answer(rt, alloc, &segments, 1, message.as_str());
    for threads in THREADS {
        if answer(rt, alloc, &segments, threads, message.as_str()) != wanted {
            return None;
        }
    }
    Some(wanted.len())
}

#[test]
fn threads_answer_alike(rt: HostRuntime) {
    let mut all = 0usize;
    for seed in 0..RUNS {
        let answered = answered(&rt, rt.alloc(), seed);
        assert!(rt; answered.is_some(), "at {seed}");
        all = all.wrapping_add(answered.unwrap_or(0));
    }
    // Most have groups.
    assert!(rt; all > 5_000, "{all}");
}
