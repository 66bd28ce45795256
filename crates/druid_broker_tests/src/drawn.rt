//! Drawn clusters: what a broker answers is what a plain computation over all rows gives.
ghost use Rattle.std.specs.Prelude.{◌<◌};

use crate::broker::answer_of;
use crate::cluster::Handle;
use crate::plain::{HOURS, Plain, PlainChunk, PlainQuery, PlainRow, PlainSegment, query_text};
use std::alloc::Global;
use std::process::Abort;

const CLUSTERS: u64 = 300;

/// Numbers that look random, the same in each run of the test.
#[derive(Drop)]
pub(crate) struct Draws {
    state: u64,
}

impl Draws {
    /// The draws of a seed.
    pub(crate) fn new(seed: u64) -> Draws {
        Draws { state: seed }
    }

    /// A number below a bound.
    pub(crate) fn below(&mut self, bound: usize) -> usize
        requires { 0 < bound }
        ensures { result < bound }
    {
        self.state = self
            .state
            .wrapping_mul(6364136223846793005)
            .wrapping_add(1442695040888963407);
        (self.state >> 33) as usize % bound
    }

    fn is_one_in(&mut self, bound: usize) -> bool
        requires { 0 < bound }
    {
        self.below(bound) == 0
    }
}

// The hours of chunks, which overlap in many ways.
fn hours_of(kind: usize) -> (usize, usize) {
    match kind {
        0 => (0, 12),
        1 => (0, 6),
        2 => (6, 12),
        3 => (3, 9),
        4 => (2, 4),
        _ => (4, 11),
    }
}

fn drawn_number(draws: &mut Draws) -> Option<i64> {
    match draws.below(6) {
        0 => None,
        1 => Some(i64::MAX),
        2 => Some(-1),
        3 => Some(i64::MIN),
        n => Some(n as i64),
    }
}

fn drawn_row(draws: &mut Draws, chunk: PlainChunk) -> PlainRow {
    let length = chunk.end.saturating_sub(chunk.start).max(1);
    PlainRow {
        hour: chunk.start.saturating_add(draws.below(length)),
        late: draws.is_one_in(2),
        value: draws.below(4),
        number: drawn_number(draws),
    }
}

// Of each of three nodes whether it serves a segment; one does.
fn drawn_nodes(draws: &mut Draws) -> [bool; 3] {
    let mut nodes = [draws.is_one_in(2), draws.is_one_in(2), draws.is_one_in(2)];
    nodes[draws.below(3)] = true;
    nodes
}

// A segment of a chunk, or a tombstone in the place of its only core partition.
fn drawn_segment(
    rt: &impl Abort,
    alloc: Global,
    draws: &mut Draws,
    place: usize,
    chunk: PlainChunk,
    partition: u16,
) -> PlainSegment {
    let nodes = drawn_nodes(draws);
    let is_tombstone = partition == 0 && chunk.core == 1 && draws.is_one_in(2);
    let count = if is_tombstone { 0 } else { draws.below(5) };
    let mut rows = Vec::new(alloc);
    for _ in 0..count {
        rows.push(drawn_row(draws, chunk)).expect(rt, "memory");
    }
    PlainSegment {
        chunk: place,
        partition,
        is_tombstone,
        nodes,
        rows,
    }
}

// A chunk that is not there yet.
fn drawn_chunk(draws: &mut Draws, chunks: &[PlainChunk]) -> Option<PlainChunk> {
    let (start, end) = hours_of(draws.below(6));
    let version = draws.below(3) as u64;
    if chunks.iter().any(|c| c.version == version && c.start == start && c.end == end) {
        return None;
    }
    Some(PlainChunk {
        version,
        start,
        end,
        core: draws.below(4) as u16,
    })
}

// Draws the segments of a chunk. Now and then a core partition is not there.
fn draw_segments(
    rt: &impl Abort,
    alloc: Global,
    draws: &mut Draws,
    segments: &mut Vec<PlainSegment>,
    place: usize,
    chunk: PlainChunk,
) {
    for partition in 0..4_u16 {
        if partition < chunk.core && !draws.is_one_in(12) || draws.is_one_in(4) {
            let segment = drawn_segment(rt, alloc, draws, place, chunk, partition);
            segments.push(segment).expect(rt, "memory");
        }
    }
}

// Of each of three nodes whether it fails; one or two do.
fn drawn_failing(draws: &mut Draws) -> [bool; 3] {
    let mut failing = [false; 3];
    failing[draws.below(3)] = true;
    if draws.is_one_in(2) {
        failing[draws.below(3)] = true;
    }
    failing
}

fn drawn_cluster(rt: &impl Abort, alloc: Global, draws: &mut Draws) -> Plain {
    let mut chunks = Vec::new(alloc);
    let mut segments = Vec::new(alloc);
    for _ in 0..5 {
        if let Some(chunk) = drawn_chunk(draws, &chunks) {
            draw_segments(rt, alloc, draws, &mut segments, chunks.len(), chunk);
            chunks.push(chunk).expect(rt, "memory");
        }
    }
    Plain {
        chunks,
        segments,
        failing: drawn_failing(draws),
    }
}

fn drawn_query(draws: &mut Draws) -> PlainQuery {
    let start = draws.below(HOURS);
    let left = HOURS.saturating_sub(start).max(1);
    PlainQuery {
        start,
        end: start.saturating_add(1).saturating_add(draws.below(left)),
        by_hour: draws.is_one_in(2),
        by_value: draws.is_one_in(2),
    }
}

// Whether a broker over a drawn cluster answers the query so.
fn is_answered<R: Handle>(
    rt: R,
    alloc: Global,
    plain: &Plain,
    query: PlainQuery,
    turn: u64,
    wanted: &str,
) -> bool {
    let nodes = plain.text(&rt, alloc);
    let asked = query_text(&rt, alloc, query);
    let reported = answer_of(rt, alloc, nodes.as_str(), asked.as_str(), turn);
    reported.as_str() == wanted
}

// Asserts that a broker over a drawn cluster answers as it should, and gives whether something was missing.
fn is_short<R: Handle>(rt: R, alloc: Global, seed: u64) -> bool {
    let mut draws = Draws::new(seed);
    let plain = drawn_cluster(&rt, alloc, &mut draws);
    let query = drawn_query(&mut draws);
    let wanted = plain.answer(&rt, alloc, query);
    let same = is_answered(rt, alloc, &plain, query, seed, wanted.as_str());
    assert!(rt; same, "at {seed}");
    wanted.as_str().starts_with("503")
}

#[test]
fn drawn_clusters(rt: HostRuntime) {
    let mut short = 0_u64;
    for seed in 0..CLUSTERS {
        if is_short(&rt, rt.alloc(), seed) {
            short = short.wrapping_add(1);
        }
    }
    assert!(rt; short > 30 && short < 270);
}
