//! What a data node answers over several segments, from files of either layout: worked rows, and pieces in any order.
use crate::node::{First, LAYOUTS, Layout, empty_node, file_of};
use crate::partial::segment_of;
use crate::queries::is_answered;
use druid_folder::Folder;
use druid_folder_store::MemoryFolder;
use druid_node::DataNode;
use druid_segment_descriptor::{Descriptor, Mark};
use druid_segment_id::{Name, SegmentId, Version};
use druid_segment_rows::Segment;
use druid_time::Interval;
use std::alloc::Global;
use std::process::Abort;
use std::sync::Wait;
use std::thread::Threads;

// In what follows a segment of 2024-01-01 is its version, its hours and its partition, `v1/10-12/0`, and a piece the same
// and its own hours. Rows stand as in `partial`.

// The segments of row `no-row-twice`.
const TWICE: &str =
    "v1/0-24/0 d:m 35999999/a/1 36000000/a/1 43199999/a/1 43200000/a/1 + v2/10-12/0 d:m 36000000/a/1 43199999/a/1";

// Numbers that overflow where they are added.
const WRAPPING: &str = "v1/0-24/0 d:m 0/x/9223372036854775807 + v1/0-24/1 d:m 0/x/1";

// Each number is another power of two, so that a sum tells which rows are in it. The instants of the first do not rise.
const MANY: &str =
    "v1/0-24/0 d:m 3600000/a/1 7200000/a/2 7199999/a/4 10800000/a/8 18000000/b/16 21600000/a/32 72000000/a/64 86399999/a/128 71999999/a/256 + v1/0-24/1 d:m 43200000/a/512 46800000/b/1024 50400000/a/2048 + v2/6-12/0 d:m 21600000/a/4096 28800000/a/8192 32400000/-/16384 39600000/a/32768";

const MANY_PIECES: &str =
    "v1/0-24/0/0-2 v2/6-12/0/6-8 v9/0-24/3/12-24 v1/0-24/1/0-24 v1/0-24/0/20-24 v9/0-24/3/0-12 v1/0-24/0/3-6 v2/6-12/0/9-12 v1/0-24/7/0-24";

const MISSING: &str = "v9/0-24/3/12-24 v9/0-24/3/0-12 v1/0-24/7/0-24";

const COUNT: &str =
    "\"queryType\":\"timeseries\",\"aggregations\":[{\"type\":\"count\",\"name\":\"n\"}]";

const SUM: &str =
    "\"queryType\":\"timeseries\",\"aggregations\":[{\"type\":\"longSum\",\"name\":\"s\",\"fieldName\":\"m\"}]";

const OF_NO_ROW: &str =
    "\"queryType\":\"timeseries\",\"aggregations\":[{\"type\":\"longMin\",\"name\":\"a\",\"fieldName\":\"f\"},{\"type\":\"longSum\",\"name\":\"b\",\"fieldName\":\"f\"}]";

const BY_VALUE: &str =
    "\"queryType\":\"groupBy\",\"dimensions\":[\"d\"],\"aggregations\":[{\"type\":\"count\",\"name\":\"n\"}]";

const FILTERED: &str =
    "\"queryType\":\"timeseries\",\"filter\":{\"type\":\"selector\",\"dimension\":\"d\",\"value\":\"a\"},\"aggregations\":[{\"type\":\"count\",\"name\":\"n\"},{\"type\":\"longSum\",\"name\":\"s\",\"fieldName\":\"m\"}]";

const GROUPED: &str =
    "\"queryType\":\"groupBy\",\"dimensions\":[\"d\"],\"aggregations\":[{\"type\":\"count\",\"name\":\"n\"},{\"type\":\"longSum\",\"name\":\"s\",\"fieldName\":\"m\"}]";

// The segments of a node, the pieces that it is asked for, the query, the pieces that are missing, and the rows.
const ANSWERS: [[&str; 5]; 9] = [
    [
        TWICE,
        "v1/0-24/0/0-10 v2/10-12/0/10-12 v1/0-24/0/12-24",
        COUNT,
        "",
        "[[1704067200000,[],[4]]]",
    ],
    [
        WRAPPING,
        "v1/0-24/0/0-24 v1/0-24/1/0-24",
        SUM,
        "",
        "[[1704067200000,[],[-9223372036854775808]]]",
    ],
    [
        WRAPPING,
        "v1/0-24/1/0-24 v1/0-24/0/0-24",
        SUM,
        "",
        "[[1704067200000,[],[-9223372036854775808]]]",
    ],
    [
        WRAPPING,
        "v1/0-24/0/0-24 v1/0-24/1/0-24",
        OF_NO_ROW,
        "",
        "[[1704067200000,[],[null,null]]]",
    ],
    [
        "v1/0-24/0 d:m 0/-/1 0//1 0/a/1",
        "v1/0-24/0/0-24",
        BY_VALUE,
        "",
        "[[1704067200000,[null],[1]],[1704067200000,[\"\"],[1]],[1704067200000,[\"a\"],[1]]]",
    ],
    [
        "v1/0-24/0 d:m 0/a/1 0//1 + v1/0-24/1 e:m 5/x/1",
        "v1/0-24/0/0-24 v1/0-24/1/0-24",
        BY_VALUE,
        "",
        "[[1704067200000,[null],[1]],[1704067200000,[\"\"],[1]],[1704067200000,[\"a\"],[1]]]",
    ],
    [
        MANY,
        MANY_PIECES,
        FILTERED,
        MISSING,
        "[[1704067200000,[],[9,39629]]]",
    ],
    [
        MANY,
        MANY_PIECES,
        GROUPED,
        MISSING,
        "[[1704067200000,[null],[1,16384]],[1704067200000,[\"a\"],[9,39629]],[1704067200000,[\"b\"],[2,1040]]]",
    ],
    [MANY, MISSING, FILTERED, MISSING, "[]"],
];

// The instant of an hour of the day, or of its end.
fn hour(rt: &impl Abort, alloc: Global, digits: &str) -> String {
    let text = match digits {
        "24" => String::from_str(alloc, "2024-01-02T00:00:00.000Z"),
        _ => format!(in alloc; "2024-01-01T{digits:0>2}:00:00.000Z"),
    };
    text.expect(rt, "memory")
}

fn hours(rt: &impl Abort, alloc: Global, text: &str) -> String {
    let (start, end) = text.split_once("-").expect(rt, "two hours");
    let start = hour(rt, alloc, start);
    let end = hour(rt, alloc, end);
    format!(in alloc; "{start}/{end}").expect(rt, "memory")
}

fn descriptor(rt: &impl Abort, alloc: Global, text: &str) -> Descriptor {
    let mut words = text.split('/');
    let version = words.next().expect(rt, "a version");
    let interval = hours(rt, alloc, words.next().expect(rt, "hours"));
    let partition = words.next().expect(rt, "a partition");
    let id = SegmentId::new(
        Name::new(alloc, "w").expect(rt, "a name"),
        Interval::parse(interval.as_str()).expect(rt, "an interval"),
        Version::new(alloc, version).expect(rt, "a version"),
        partition.parse().expect(rt, "a partition"),
    );
    Descriptor::new(id, 1, 0).expect(rt, "a descriptor")
}

/// The segment of a text, as the rows above have it.
pub(crate) fn segment(rt: &impl Abort, alloc: Global, text: &str) -> Segment {
    let (head, rows) = text.split_once(" ").expect(rt, "rows");
    segment_of(rt, alloc, descriptor(rt, alloc, head), rows)
}

fn file_name(rt: &impl Abort, alloc: Global, segment: &Segment) -> String {
    let mut name = segment.descriptor().id().text(alloc).expect(rt, "memory");
    name.push_str(".seg").expect(rt, "memory");
    name
}

/// Loads the segment from its file.
pub(crate) fn load<R: Abort + Wait>(
    rt: &R,
    alloc: Global,
    layout: Layout,
    node: &DataNode<First>,
    segment: &Segment,
) {
    let mut folder = MemoryFolder::new(alloc);
    let name = file_name(rt, alloc, segment);
    let bytes = file_of(rt, alloc, layout, segment);
    folder.write(name.as_str(), &bytes).expect(rt, "a write");
    node.load_file(rt, &mut folder, name.as_str(), &mut Mark::never())
        .expect(rt, "a segment");
}

fn node<R: Abort + Wait>(rt: &R, alloc: Global, layout: Layout, segments: &str) -> DataNode<First> {
    let node = empty_node(rt, alloc);
    for text in segments.split(" + ") {
        load(rt, alloc, layout, &node, &segment(rt, alloc, text));
    }
    node
}

fn piece(rt: &impl Abort, alloc: Global, text: &str) -> String {
    let mut words = text.split('/');
    let version = words.next().expect(rt, "a version");
    let chunk = hours(rt, alloc, words.next().expect(rt, "hours"));
    let partition = words.next().expect(rt, "a partition");
    let own = hours(rt, alloc, words.next().expect(rt, "hours"));
    format!(in alloc;
        "{{\"chunk\":\"{chunk}\",\"itvl\":\"{own}\",\"part\":{partition},\"ver\":\"{version}\"}}"
    ).expect(rt, "memory")
}

fn pieces(rt: &impl Abort, alloc: Global, text: &str) -> String {
    let mut all = String::new(alloc);
    for one in text.split_terminator(' ') {
        if !all.is_empty() {
            all.push_str(",").expect(rt, "memory");
        }
        all.push_str(piece(rt, alloc, one).as_str())
            .expect(rt, "memory");
    }
    all
}

/// A subquery of these pieces.
pub(crate) fn query(rt: &impl Abort, alloc: Global, asked: &str, query: &str) -> String {
    let pieces = pieces(rt, alloc, asked);
    format!(in alloc;
        "{{\"dataSource\":\"w\",\"granularity\":\"all\",\"intervals\":{{\"type\":\"segments\",\"segments\":[{pieces}]}},\"queryIntervals\":[\"2024-01-01/2024-01-02\"],{query}}}"
    ).expect(rt, "memory")
}

fn answer(rt: &impl Abort, alloc: Global, missing: &str, rows: &str) -> String {
    let missing = pieces(rt, alloc, missing);
    format!(in alloc; "200 {{\"missing\":[{missing}],\"rows\":{rows}}}").expect(rt, "memory")
}

fn is_row<R: Abort + Wait + Threads>(
    rt: &R,
    alloc: Global,
    layout: Layout,
    row: &[&str; 5],
) -> bool {
    let [segments, asked, kind, missing, rows] = row;
    let node = node(rt, alloc, layout, segments);
    let body = query(rt, alloc, asked, kind);
    let wanted = answer(rt, alloc, missing, rows);
    is_answered(rt, alloc, &node, body.as_str(), wanted.as_str())
}

#[test]
fn worked_rows(rt: HostRuntime) {
    for row in &ANSWERS {
        for layout in LAYOUTS {
            assert!(rt; is_row(&rt, rt.alloc(), layout, row), "{}", row[1]);
        }
    }
}
