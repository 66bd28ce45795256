//! Drawn segments of one query, counted at once, on several threads, one by one and merged, and row by row.
ghost use Rattle.druid_partial.specs.Partials.{IsPartialFor};

use crate::drawn::{Draws, GRANULARITIES, INTERVALS, KINDS, NUMBERS, drawn_query, ms};
use crate::partial::{both, segment};
use crate::plain::{Drawn, Plain, add_rows, same_groups};
use druid_partial::Partial;
use druid_partial_scan::{Slice, partial_of_slices, partial_on_threads, partial_over};
use druid_query::Query;
use druid_segment_rows::Segment;
use druid_time::Interval;
use std::alloc::Global;
use std::collections::BTreeMap;
use std::fmt::Write;
use std::process::Abort;
use std::thread::Threads;

// How many draws a test makes.
const DRAWS: u64 = 1_000;

const WIDE: u64 = 100;

const THREADS: [usize; 3] = [2, 3, 16];

// ---- What is drawn

// The names of a segment's dimensions and of its metrics, and how many there are of each.
const SCHEMAS: [(&str, u64, u64); 6] = [
    ("d,e:m,n", 2, 2),
    ("d,e:m,n", 2, 2),
    ("e,d:n,m", 2, 2),
    ("d:m", 1, 1),
    ("g,e:n,f", 2, 2),
    ("f,d:m", 2, 1),
];

const LETTERS: [&str; 8] = ["a", "b", "c", "\u{e9}", "k", "z", "ab", "aa"];

// How the dictionaries of segments are beside each other.
#[derive(Clone, Copy)]
enum Sharing {
    // Each has the same texts.
    Same,
    // Some texts of one are those of the next.
    Partly,
    // They have no text in common.
    Apart,
}

const SHARINGS: [Sharing; 3] = [Sharing::Same, Sharing::Partly, Sharing::Apart];

// Adds a value of the segment of that number.
fn push_value(
    rt: &impl Abort,
    draws: &mut Draws,
    text: &mut String,
    sharing: Sharing,
    number: u64,
) {
    let drawn = draws.below(6);
    match (sharing, drawn) {
        (_, 0) => write!(text, "/-").expect(rt, "memory"),
        (Sharing::Same, 1) | (Sharing::Partly, 1) => write!(text, "/").expect(rt, "memory"),
        (Sharing::Apart, _) => write!(text, "/{number}{drawn}").expect(rt, "memory"),
        (Sharing::Same, _) => {
            let letter = draws.one(&LETTERS, "");
            write!(text, "/{letter}").expect(rt, "memory");
        }
        (Sharing::Partly, _) => {
            let place = number.wrapping_add(drawn) as usize;
            let letter = LETTERS.get(place).copied().unwrap_or("y");
            write!(text, "/{letter}").expect(rt, "memory");
        }
    }
}

// Adds a row with so many values and numbers.
fn push_row(
    rt: &impl Abort,
    draws: &mut Draws,
    text: &mut String,
    counts: (u64, u64),
    sharing: Sharing,
    number: u64,
) {
    for _ in 0..counts.0 {
        push_value(rt, draws, text, sharing, number);
    }
    for _ in 0..counts.1 {
        let metric = draws.one(&NUMBERS, "");
        write!(text, "/{metric}").expect(rt, "memory");
    }
}

// The segment of that number, of a schema.
fn drawn_segment(
    rt: &impl Abort,
    alloc: Global,
    draws: &mut Draws,
    schema: (&str, u64, u64),
    sharing: Sharing,
    number: u64,
) -> Segment {
    let (names, dimensions, metrics) = schema;
    let mut text = String::from_str(alloc, names).expect(rt, "memory");
    let order = draws.below(4);
    for row in 0..draws.below(20) {
        let ms = ms(draws, order, row);
        write!(text, " {ms}").expect(rt, "memory");
        push_row(rt, draws, &mut text, (dimensions, metrics), sharing, number);
    }
    segment(rt, alloc, text.as_str())
}

fn drawn_segments(rt: &impl Abort, alloc: Global, draws: &mut Draws) -> Vec<Segment> {
    let sharing = draws.one(&SHARINGS, Sharing::Same);
    let mut segments = Vec::new(alloc);
    for number in 0..draws.below(6) {
        let schema = draws.one(&SCHEMAS, ("d:m", 1, 1));
        segments
            .push(drawn_segment(rt, alloc, draws, schema, sharing, number))
            .expect(rt, "memory");
    }
    segments
}

fn drawn_intervals(rt: &impl Abort, alloc: Global, draws: &mut Draws) -> Vec<Interval> {
    let mut intervals = Vec::new(alloc);
    for _ in 0..draws.below(4) {
        let interval = Interval::parse(draws.one(&INTERVALS, "")).expect(rt, "an interval");
        intervals.push(interval).expect(rt, "memory");
    }
    intervals
}

// Intervals of each of these segments.
fn drawn_slices<'a>(
    rt: &impl Abort,
    alloc: Global,
    draws: &mut Draws,
    segments: &'a [Segment],
) -> Vec<Slice<'a>> {
    let mut slices = Vec::new(alloc);
    for segment in segments {
        let intervals = drawn_intervals(rt, alloc, draws);
        slices.push((segment, intervals)).expect(rt, "memory");
    }
    slices
}

// ---- What is compared

fn plain_of(rt: &impl Abort, alloc: Global, drawn: &Drawn, slices: &[Slice<'_>]) -> Plain {
    let mut plain = BTreeMap::new(alloc);
    for slice in slices {
        for interval in &slice.1 {
            add_rows(rt, alloc, &mut plain, drawn, slice.0, *interval);
        }
    }
    plain
}

// What each of the slices tells, merged with those before it.
fn merged(rt: &impl Abort, alloc: Global, query: &Query, slices: &[Slice<'_>]) -> Partial
    ensures { IsPartialFor query.now result }
{
    let mut whole = Partial::empty(alloc, query).expect(rt, "memory");
    for slice in slices {
        let next = partial_over(alloc, query, slice.0, &slice.1).expect(rt, "memory");
        whole = both(rt, alloc, query, whole, next);
    }
    whole
}

// How many groups these slices have. None where they have others in one of the four ways.
fn groups_of<R: Abort + Threads>(
    rt: &R,
    alloc: Global,
    drawn: &Drawn,
    slices: &[Slice<'_>],
    threads: usize,
) -> Option<usize> {
    let plain = plain_of(rt, alloc, drawn, slices);
    let merged = merged(rt, alloc, &drawn.query, slices);
    let whole = partial_of_slices(alloc, &drawn.query, slices).expect(rt, "memory");
    let joined = partial_on_threads(rt, alloc, &drawn.query, slices, threads).expect(rt, "memory");
    same_groups(rt, alloc, &plain, merged.groups())?;
    same_groups(rt, alloc, &plain, whole.groups())?;
    same_groups(rt, alloc, &plain, joined.groups())
}

fn groups<R: Abort + Threads>(rt: &R, alloc: Global, seed: u64) -> Option<usize> {
    let mut draws = Draws::new(seed);
    let segments = drawn_segments(rt, alloc, &mut draws);
    let slices = drawn_slices(rt, alloc, &mut draws, &segments);
    // Where there is one bucket, as most have here, all are counted at once.
    let granularity = match draws.below(3) {
        0 => draws.one(&GRANULARITIES, ("all", 0)),
        _ => ("all", 0),
    };
    let kind = draws.one(&KINDS, "@");
    let drawn = drawn_query(rt, alloc, &mut draws, kind, granularity);
    let threads = draws.one(&THREADS, 2);
    groups_of(rt, alloc, &drawn, &slices, threads)
}

// ---- Many dimensions

// How many dimensions a segment has. Codes of 16 make a number that is too large for an array, or
// for a word.
const COUNTS: [u64; 4] = [1, 2, 3, 64];

// How many of them a query has at most.
const ASKED: u64 = 16;

// So many names of dimensions, the first of that number, with marks around each.
fn many_names(rt: &impl Abort, alloc: Global, mark: &str, first: u64, count: u64) -> String {
    let mut names = String::new(alloc);
    for place in 0..count {
        let between = if place == 0 { "" } else { "," };
        let number = first.wrapping_add(place);
        write!(names, "{between}{mark}d{number}{mark}").expect(rt, "memory");
    }
    names
}

fn wide_segments(rt: &impl Abort, alloc: Global, draws: &mut Draws, count: u64) -> Vec<Segment> {
    let names = many_names(rt, alloc, "", 0, count);
    let schema = format!(in alloc; "{names}:m").expect(rt, "memory");
    let sharing = draws.one(&SHARINGS, Sharing::Same);
    let mut segments = Vec::new(alloc);
    for number in 0..3u64 {
        let schema = (schema.as_str(), count, 1);
        segments
            .push(drawn_segment(rt, alloc, draws, schema, sharing, number))
            .expect(rt, "memory");
    }
    segments
}

fn wide_groups<R: Abort + Threads>(rt: &R, alloc: Global, seed: u64) -> Option<usize> {
    let mut draws = Draws::new(seed);
    let count = draws.one(&COUNTS, 1);
    let segments = wide_segments(rt, alloc, &mut draws, count);
    let slices = drawn_slices(rt, alloc, &mut draws, &segments);
    // Those that the segments have, or some after them.
    let first = draws.below(count);
    let names = many_names(rt, alloc, "\"", first, ASKED);
    let kind = format!(in alloc; "#,\"dimensions\":[{names}]").expect(rt, "memory");
    let drawn = drawn_query(rt, alloc, &mut draws, kind.as_str(), ("all", 0));
    let threads = draws.one(&THREADS, 2);
    groups_of(rt, alloc, &drawn, &slices, threads)
}

// ---- The tests

// Asserts that the draws of that number are counted alike in all ways.
fn assert_alike<R: Abort + Threads>(rt: &R, alloc: Global, number: u64) {
    let first = number.wrapping_mul(DRAWS);
    let mut all = 0usize;
    for seed in first..first.wrapping_add(DRAWS) {
        let groups = groups(rt, alloc, seed);
        assert!(rt; groups.is_some(), "at {seed}");
        all = all.wrapping_add(groups.unwrap_or(0));
    }
    // Most have several.
    assert!(rt; all > 2_000, "{all}");
}

#[test]
fn slices_0(rt: HostRuntime) {
    assert_alike(&rt, rt.alloc(), 0);
}

#[test]
fn slices_1(rt: HostRuntime) {
    assert_alike(&rt, rt.alloc(), 1);
}

#[test]
fn slices_2(rt: HostRuntime) {
    assert_alike(&rt, rt.alloc(), 2);
}

#[test]
fn slices_3(rt: HostRuntime) {
    assert_alike(&rt, rt.alloc(), 3);
}

#[test]
fn slices_4(rt: HostRuntime) {
    assert_alike(&rt, rt.alloc(), 4);
}

#[test]
fn slices_5(rt: HostRuntime) {
    assert_alike(&rt, rt.alloc(), 5);
}

#[test]
fn slices_6(rt: HostRuntime) {
    assert_alike(&rt, rt.alloc(), 6);
}

#[test]
fn slices_7(rt: HostRuntime) {
    assert_alike(&rt, rt.alloc(), 7);
}

#[test]
fn slices_8(rt: HostRuntime) {
    assert_alike(&rt, rt.alloc(), 8);
}

#[test]
fn slices_9(rt: HostRuntime) {
    assert_alike(&rt, rt.alloc(), 9);
}

#[test]
fn wide_slices(rt: HostRuntime) {
    let mut all = 0usize;
    for seed in 0..WIDE {
        let groups = wide_groups(&rt, rt.alloc(), seed);
        assert!(rt; groups.is_some(), "at {seed}");
        all = all.wrapping_add(groups.unwrap_or(0));
    }
    assert!(rt; all > 200, "{all}");
}
