//! Drawn segments, written by columns and read again, and drawn queries over them, beside a plain computation row by row.
use crate::condition::{drawn_steps, steps_text};
use crate::node::{Layout, file_of};
use crate::partial::{query, segment};
use crate::plain::{Drawn, add_rows, same_groups};
use druid_partial_scan::partial_of;
use druid_segment_file::read_segment;
use druid_segment_rows::Segment;
use druid_time::Interval;
use std::alloc::Global;
use std::collections::BTreeMap;
use std::fmt::Write;
use std::process::Abort;

const RUNS: u64 = 300;

// ---- What is drawn

/// Numbers that look random, the same in each run of the test.
#[derive(Drop)]
pub(crate) struct Draws {
    state: u64,
}

impl Draws {
    /// Those of that seed.
    pub(crate) fn new(seed: u64) -> Draws {
        Draws { state: seed }
    }

    /// A number below a bound.
    pub(crate) fn below(&mut self, bound: u64) -> u64 {
        self.state = self
            .state
            .wrapping_mul(6364136223846793005)
            .wrapping_add(1442695040888963407);
        (self.state >> 33).checked_rem(bound).unwrap_or(0)
    }

    /// One of these.
    pub(crate) fn one<T: Copy>(&mut self, items: &[T], other: T) -> T {
        let place = self.below(items.len() as u64) as usize;
        items.get(place).copied().unwrap_or(other)
    }
}

const VALUES: [&str; 5] = ["-", "", "a", "b", "\u{e9}"];

/// The numbers of rows; some sums of them wrap.
pub(crate) const NUMBERS: [&str; 6] = [
    "-",
    "0",
    "1",
    "-4",
    "9223372036854775807",
    "-9223372036854775808",
];

/// The names of granularities, and how many milliseconds their buckets have: none where there is
/// one bucket.
pub(crate) const GRANULARITIES: [(&str, i64); 5] = [
    ("all", 0),
    ("second", 1_000),
    ("minute", 60_000),
    ("hour", 3_600_000),
    ("day", 86_400_000),
];

/// The kinds of queries, with their dimensions.
pub(crate) const KINDS: [&str; 6] = [
    "@",
    "#",
    "#,\"dimensions\":[\"d\"]",
    "#,\"dimensions\":[\"e\",\"d\"]",
    "#,\"dimensions\":[\"f\",\"d\"]",
    "#,\"dimensions\":[\"m\",\"e\"]",
];

/// The last key of a query, and its end.
pub(crate) const AGGREGATIONS: &str =
    ",\"aggregations\":[{\"type\":\"count\",\"name\":\"c\"},{\"type\":\"longSum\",\"name\":\"s\",\"fieldName\":\"m\"},{\"type\":\"longMin\",\"name\":\"i\",\"fieldName\":\"m\"},{\"type\":\"longMax\",\"name\":\"x\",\"fieldName\":\"n\"},{\"type\":\"longSum\",\"name\":\"z\",\"fieldName\":\"f\"}]}";

/// Intervals of the first day.
pub(crate) const INTERVALS: [&str; 4] = [
    "2024-01-01/2024-01-02",
    "2023-12-31/2024-01-03",
    "2024-01-01T00:00:01/2024-01-01T12:00",
    "2024-01-01T00:00:02/2024-01-01T18:00",
];

/// The milliseconds of a row after midnight: they rise, fall, do neither, or rise in a few seconds.
pub(crate) fn ms(draws: &mut Draws, order: u64, row: u64) -> u64 {
    match order {
        0 => row.wrapping_mul(1_799_999),
        1 => 86_399_999u64.wrapping_sub(row.wrapping_mul(1_799_999)),
        2 => draws.below(48).wrapping_mul(1_799_999),
        _ => (row / 3)
            .wrapping_mul(1_000)
            .wrapping_add((row % 3).wrapping_mul(499)),
    }
}

/// Adds a row at that millisecond of the day.
pub(crate) fn push_row(rt: &impl Abort, draws: &mut Draws, text: &mut String, ms: u64) {
    let (d, e) = (draws.one(&VALUES, ""), draws.one(&VALUES, ""));
    let (m, n) = (draws.one(&NUMBERS, ""), draws.one(&NUMBERS, ""));
    write!(text, " {ms}/{d}/{e}/{m}/{n}").expect(rt, "memory");
}

fn drawn_segment(rt: &impl Abort, alloc: Global, draws: &mut Draws) -> Segment {
    let mut text = String::from_str(alloc, "d,e:m,n").expect(rt, "memory");
    let order = draws.below(4);
    for row in 0..draws.below(49) {
        let ms = ms(draws, order, row);
        push_row(rt, draws, &mut text, ms);
    }
    let segment = segment(rt, alloc, text.as_str());
    let bytes = file_of(rt, alloc, Layout::ByColumns, &segment);
    read_segment(alloc, &mut bytes.as_slice()).expect(rt, "a segment")
}

/// A query with one of these kinds and dimensions, of a granularity that is one of these.
pub(crate) fn drawn_query(
    rt: &impl Abort,
    alloc: Global,
    draws: &mut Draws,
    kind: &str,
    granularity: (&str, i64),
) -> Drawn {
    let steps = drawn_steps(rt, alloc, draws);
    let filter = steps_text(rt, alloc, &steps);
    let (granularity, length) = granularity;
    let text = format!(in alloc; "{kind},\"granularity\":\"{granularity}\"{filter}{AGGREGATIONS}");
    Drawn {
        query: query(rt, alloc, text.expect(rt, "memory").as_str()),
        length,
        steps,
    }
}

// The number of groups that a drawn query has in a drawn segment. None where a plain computation
// has others.
fn groups(rt: &impl Abort, alloc: Global, seed: u64) -> Option<usize> {
    let mut draws = Draws::new(seed);
    let segment = drawn_segment(rt, alloc, &mut draws);
    let granularity = draws.one(&GRANULARITIES, ("all", 0));
    let kind = draws.one(&KINDS, "@");
    let drawn = drawn_query(rt, alloc, &mut draws, kind, granularity);
    let interval = Interval::parse(draws.one(&INTERVALS, "")).expect(rt, "an interval");
    let mut plain = BTreeMap::new(alloc);
    add_rows(rt, alloc, &mut plain, &drawn, &segment, interval);
    let partial = partial_of(alloc, &drawn.query, &segment, interval).expect(rt, "memory");
    same_groups(rt, alloc, &plain, partial.groups())
}

#[test]
fn drawn_queries(rt: HostRuntime) {
    let mut all = 0usize;
    for seed in 0..RUNS {
        let groups = groups(&rt, rt.alloc(), seed);
        assert!(rt; groups.is_some(), "at {seed}");
        all = all.wrapping_add(groups.unwrap_or(0));
    }
    // Most have several.
    assert!(rt; all > 600, "{all}");
}
