//! Drawn clusters, kept plainly, and what a query answers over all their rows by a plain computation: instant by instant (here an
//! hour), all chunks at each.
use crate::tables::printed;
use std::alloc::Global;
use std::process::Abort;

/// The hours of the day that clusters have.
pub(crate) const HOURS: usize = 12;

/// The values of the dimension, in their order.
pub(crate) const VALUES: [Option<&str>; 4] = [None, Some(""), Some("a"), Some("b")];

/// A row: at the start or at the end of an hour, a value by its place, and a number.
#[derive(Clone, Copy, Drop)]
pub(crate) struct PlainRow {
    pub(crate) hour: usize,
    pub(crate) late: bool,
    pub(crate) value: usize,
    pub(crate) number: Option<i64>,
}

/// A segment, or a tombstone, and of each of three nodes whether it serves it.
#[derive(Drop)]
pub(crate) struct PlainSegment {
    pub(crate) chunk: usize,
    pub(crate) partition: u16,
    pub(crate) is_tombstone: bool,
    pub(crate) nodes: [bool; 3],
    pub(crate) rows: Vec<PlainRow>,
}

/// A chunk: its version, its hours, and how many core partitions it has.
#[derive(Clone, Copy, Drop)]
pub(crate) struct PlainChunk {
    pub(crate) version: u64,
    pub(crate) start: usize,
    pub(crate) end: usize,
    pub(crate) core: u16,
}

/// A cluster of three nodes, and of each whether it fails.
#[derive(Drop)]
pub(crate) struct Plain {
    pub(crate) chunks: Vec<PlainChunk>,
    pub(crate) segments: Vec<PlainSegment>,
    pub(crate) failing: [bool; 3],
}

/// What is asked: from which hour to which, by hours or in one bucket, and by the dimension or not.
#[derive(Clone, Copy, Drop)]
pub(crate) struct PlainQuery {
    pub(crate) start: usize,
    pub(crate) end: usize,
    pub(crate) by_hour: bool,
    pub(crate) by_value: bool,
}

// What is reported of a group.
#[derive(Clone, Copy, Drop)]
struct Reported {
    count: i64,
    sum: Option<i64>,
    least: Option<i64>,
    greatest: Option<i64>,
}

const NOTHING: Reported = Reported {
    count: 0,
    sum: None,
    least: None,
    greatest: None,
};

// The number beside another.
fn sum(reported: Option<i64>, number: i64) -> i64 {
    reported.unwrap_or(0).wrapping_add(number)
}

// What is counted with one row more.
fn with_row(reported: Reported, row: PlainRow) -> Reported {
    let count = reported.count.wrapping_add(1);
    let Some(number) = row.number else {
        return Reported { count, ..reported };
    };
    Reported {
        count,
        sum: Some(sum(reported.sum, number)),
        least: Some(reported.least.unwrap_or(number).min(number)),
        greatest: Some(reported.greatest.unwrap_or(number).max(number)),
    }
}

// An hour in two digits.
fn digits(rt: &impl Abort, alloc: Global, hour: usize) -> String {
    let zero = if hour < 10 { "0" } else { "" };
    format!(in alloc; "{zero}{hour}").expect(rt, "memory")
}

// An interval of hours as it is printed.
fn interval(rt: &impl Abort, alloc: Global, start: usize, end: usize) -> String {
    let start = digits(rt, alloc, start);
    let end = digits(rt, alloc, end);
    format!(in alloc; "2024-01-01T{start}:00:00.000Z/2024-01-01T{end}:00:00.000Z").expect(
        rt, "memory",
    )
}

// A number, or what stands for none.
fn number(rt: &impl Abort, alloc: Global, number: Option<i64>, none: &str) -> String {
    match number {
        Some(number) => printed(rt, alloc, &number),
        None => printed(rt, alloc, &none),
    }
}

// Adds a part to a text, after what stands between two.
fn push_part(rt: &impl Abort, text: &mut String, between: &str, part: &str) {
    if !text.as_str().is_empty() {
        text.push_str(between).expect(rt, "memory");
    }
    text.push_str(part).expect(rt, "memory");
}

// What a result row tells of a group, with this text in the place of its value.
fn fields(rt: &impl Abort, alloc: Global, reported: Reported, value: &str) -> String {
    let least = number(rt, alloc, reported.least, "null");
    let greatest = number(rt, alloc, reported.greatest, "null");
    let sum = number(rt, alloc, reported.sum, "null");
    let count = reported.count;
    format!(in alloc; "\"a\":{least},\"b\":{greatest},{value}\"n\":{count},\"s\":{sum}").expect(
        rt, "memory",
    )
}

// The field of a group's value.
fn value_field(rt: &impl Abort, alloc: Global, value: Option<&str>) -> String {
    match value {
        Some(text) => format!(in alloc; "\"d\":\"{text}\",").expect(rt, "memory"),
        None => printed(rt, alloc, &"\"d\":null,"),
    }
}

// The result row of a group without a value.
fn result_row(rt: &impl Abort, alloc: Global, hour: &str, reported: Reported) -> String {
    let fields = fields(rt, alloc, reported, "");
    format!(in alloc;
        "{{\"result\":{{{fields}}},\"timestamp\":\"2024-01-01T{hour}:00:00.000Z\"}}"
    ).expect(rt, "memory")
}

// The result row of a group with one.
fn event_row(
    rt: &impl Abort,
    alloc: Global,
    hour: &str,
    reported: Reported,
    value: Option<&str>,
) -> String {
    let value = value_field(rt, alloc, value);
    let fields = fields(rt, alloc, reported, value.as_str());
    format!(in alloc;
        "{{\"event\":{{{fields}}},\"timestamp\":\"2024-01-01T{hour}:00:00.000Z\",\"version\":\"v1\"}}"
    ).expect(rt, "memory")
}

// The result row of a group.
fn row(
    rt: &impl Abort,
    alloc: Global,
    query: PlainQuery,
    place: usize,
    reported: Reported,
) -> String {
    let hour = digits(rt, alloc, place / 4);
    if query.by_value {
        event_row(rt, alloc, hour.as_str(), reported, VALUES[place % 4])
    } else {
        result_row(rt, alloc, hour.as_str(), reported)
    }
}

// A piece of a chunk that no node answers.
fn piece(
    rt: &impl Abort,
    alloc: Global,
    chunk: PlainChunk,
    partition: u16,
    start: usize,
    end: usize,
) -> String {
    let version = chunk.version;
    let whole = interval(rt, alloc, chunk.start, chunk.end);
    let piece = interval(rt, alloc, start, end);
    format!(in alloc;
        "{{\"chunk\":\"{whole}\",\"itvl\":\"{piece}\",\"part\":{partition},\"ver\":\"v{version}\"}}"
    ).expect(rt, "memory")
}

impl Plain {
    // Whether a segment of the chunk with that partition is served.
    fn has(&self, chunk: usize, partition: u16) -> bool {
        self.segments
            .iter()
            .any(|s| s.chunk == chunk && s.partition == partition)
    }

    fn is_complete(&self, chunk: usize, core: u16) -> bool {
        if !self.segments.iter().any(|s| s.chunk == chunk) {
            return false;
        }
        for partition in 0..core {
            if !self.has(chunk, partition) {
                return false;
            }
        }
        true
    }

    // The chunk that is visible in an hour: of the complete ones with that hour the greatest by version, start and end.
    fn visible(&self, hour: usize) -> Option<usize> {
        let mut best: Option<(usize, PlainChunk)> = None;
        for (place, chunk) in self.chunks.iter().enumerate() {
            if chunk.start <= hour && hour < chunk.end && self.is_complete(place, chunk.core) {
                best = match best {
                    Some((_, other))
                        if (chunk.version, chunk.start, chunk.end)
                            < (other.version, other.start, other.end) => { best }
                    _ => Some((place, *chunk)),
                };
            }
        }
        match best {
            Some((place, _)) => Some(place),
            None => None,
        }
    }

    // Whether a node that serves the segment answers.
    fn is_answered(&self, segment: &PlainSegment) -> bool {
        for node in 0..3 {
            if segment.nodes[node] && !self.failing[node] {
                return true;
            }
        }
        false
    }

    // The place of the group of a row, if it is asked for and shown: four for each hour.
    fn place(&self, query: PlainQuery, segment: &PlainSegment, row: PlainRow) -> Option<usize> {
        let asked = query.start <= row.hour && row.hour < query.end;
        let shown = self.visible(row.hour) == Some(segment.chunk);
        if !asked || !shown || !self.is_answered(segment) {
            return None;
        }
        let bucket = if query.by_hour { row.hour } else { query.start };
        let value = if query.by_value { row.value } else { 0 };
        Some(bucket.saturating_mul(4).saturating_add(value))
    }

    // Adds the rows of a segment to what is reported of the groups.
    fn add_rows(&self, groups: &mut [Reported], query: PlainQuery, segment: &PlainSegment) {
        for row in &segment.rows {
            if let Some(place) = self.place(query, segment, *row)
                && let Some(reported) = groups.get_mut(place)
            {
                *reported = with_row(*reported, *row);
            }
        }
    }

    // What is reported of each group, by its place.
    fn groups(&self, rt: &impl Abort, alloc: Global, query: PlainQuery) -> Vec<Reported> {
        let mut groups = vec![in alloc; NOTHING; HOURS.saturating_mul(4)].expect(rt, "memory");
        for segment in &self.segments {
            self.add_rows(&mut groups, query, segment);
        }
        groups
    }

    // The rows of the result.
    fn rows(&self, rt: &impl Abort, alloc: Global, query: PlainQuery) -> String {
        let mut text = String::new(alloc);
        for (place, reported) in self.groups(rt, alloc, query).iter().enumerate() {
            if reported.count > 0 {
                let row = row(rt, alloc, query, place, *reported);
                push_part(rt, &mut text, ",", row.as_str());
            }
        }
        text
    }

    // The hour after the last of a run of one chunk.
    fn run_end(&self, chunk: usize, start: usize, end: usize) -> usize {
        for hour in start..end {
            if self.visible(hour) != Some(chunk) {
                return hour;
            }
        }
        end
    }

    // Whether no node answers that partition of a chunk, which is served. A tombstone has no rows that an answer could lack.
    fn is_missing(&self, chunk: usize, partition: u16) -> bool {
        self.segments.iter().any(|s| s.chunk == chunk
            && s.partition == partition
            && !s.is_tombstone
            && !self.is_answered(s))
    }

    // Adds the pieces of a run that no node answers.
    fn push_missing(
        &self,
        rt: &impl Abort,
        alloc: Global,
        text: &mut String,
        chunk: usize,
        start: usize,
        end: usize,
    ) {
        let whole = *self.chunks.get(chunk).expect(rt, "a chunk");
        for partition in 0..8_u16 {
            if self.is_missing(chunk, partition) {
                let piece = piece(rt, alloc, whole, partition, start, end);
                push_part(rt, text, ",", piece.as_str());
            }
        }
    }

    // The pieces that no node answers, run by run.
    fn missing(&self, rt: &impl Abort, alloc: Global, query: PlainQuery) -> String {
        let mut text = String::new(alloc);
        let mut next = query.start;
        for hour in query.start..query.end {
            if hour >= next {
                next = hour.saturating_add(1);
                if let Some(chunk) = self.visible(hour) {
                    next = self.run_end(chunk, hour, query.end);
                    self.push_missing(rt, alloc, &mut text, chunk, hour, next);
                }
            }
        }
        text
    }

    /// What a broker answers to the query.
    pub(crate) fn answer(&self, rt: &impl Abort, alloc: Global, query: PlainQuery) -> String {
        let rows = self.rows(rt, alloc, query);
        let missing = self.missing(rt, alloc, query);
        answer_text(rt, alloc, rows.as_str(), missing.as_str())
    }
}

// An answer with these rows, and with these pieces missing.
fn answer_text(rt: &impl Abort, alloc: Global, rows: &str, missing: &str) -> String {
    if missing.is_empty() {
        return format!(in alloc; "200 [{rows}]").expect(rt, "memory");
    }
    format!(in alloc;
        "503 {{\"error\":\"SegmentsMissing\",\"missing\":[{missing}],\"partial\":[{rows}]}}"
    ).expect(rt, "memory")
}

/// The text of the query, as the tables of other tests shorten it.
pub(crate) fn query_text(rt: &impl Abort, alloc: Global, query: PlainQuery) -> String {
    let kind = if query.by_value { "#" } else { "@" };
    let granularity = if query.by_hour { "hour" } else { "all" };
    let interval = interval(rt, alloc, query.start, query.end);
    format!(in alloc;
        "{kind},\"granularity\":\"{granularity}\",\"intervals\":\"{interval}\",\"dimensions\":[\"d\"],\"aggregations\":[{{\"type\":\"count\",\"name\":\"n\"}},{{\"type\":\"longSum\",\"name\":\"s\",\"fieldName\":\"m\"}},{{\"type\":\"longMin\",\"name\":\"a\",\"fieldName\":\"m\"}},{{\"type\":\"longMax\",\"name\":\"b\",\"fieldName\":\"m\"}}]}}"
    ).expect(rt, "memory")
}

// A row, as those tables have it.
fn row_text(rt: &impl Abort, alloc: Global, row: PlainRow) -> String {
    let late = if row.late { 3_599_999 } else { 0 };
    let ms = row.hour.saturating_mul(3_600_000).saturating_add(late);
    let value = VALUES[row.value % 4].unwrap_or("-");
    let number = number(rt, alloc, row.number, "-");
    format!(in alloc; " {ms}/{value}/{number}").expect(rt, "memory")
}

// A segment without its rows, as those tables have it.
fn head_text(rt: &impl Abort, alloc: Global, chunk: PlainChunk, segment: &PlainSegment) -> String {
    let version = chunk.version;
    let start = chunk.start;
    let end = chunk.end;
    let core = chunk.core;
    let partition = segment.partition;
    if segment.is_tombstone {
        return format!(in alloc; "tombstone v{version}/{start}/{end}/{partition}").expect(
            rt, "memory",
        );
    }
    format!(in alloc; "v{version}/{start}/{end}/{partition}/{core} d:m").expect(rt, "memory")
}

// A segment, as those tables have it.
fn segment_text(
    rt: &impl Abort,
    alloc: Global,
    chunk: PlainChunk,
    segment: &PlainSegment,
) -> String {
    let mut text = head_text(rt, alloc, chunk, segment);
    for row in &segment.rows {
        text.push_str(row_text(rt, alloc, *row).as_str())
            .expect(rt, "memory");
    }
    text
}

impl Plain {
    // The segments of a node, as those tables have them.
    fn segments_text(&self, rt: &impl Abort, alloc: Global, node: usize) -> String {
        let mut text = String::new(alloc);
        for segment in &self.segments {
            if *segment.nodes.get(node).expect(rt, "a node") {
                let chunk = *self.chunks.get(segment.chunk).expect(rt, "a chunk");
                let segment = segment_text(rt, alloc, chunk, segment);
                push_part(rt, &mut text, " + ", segment.as_str());
            }
        }
        text
    }

    // A node, as those tables have it.
    fn node_text(&self, rt: &impl Abort, alloc: Global, node: usize) -> String {
        let text = self.segments_text(rt, alloc, node);
        if text.as_str().is_empty() {
            return printed(rt, alloc, &".");
        }
        text
    }

    /// The cluster, as those tables have it.
    pub(crate) fn text(&self, rt: &impl Abort, alloc: Global) -> String {
        let mut text = String::new(alloc);
        for node in 0..3_usize {
            let mark = if self.failing[node] { "!" } else { "" };
            push_part(rt, &mut text, " | ", mark);
            let node = self.node_text(rt, alloc, node);
            text.push_str(node.as_str()).expect(rt, "memory");
        }
        text
    }
}
