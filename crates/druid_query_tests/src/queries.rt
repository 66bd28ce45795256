//! Queries to a data node.
use crate::node::{First, LAYOUTS, Layout, answers, node};
use crate::printed::filled;
use druid_node::DataNode;
use druid_segment_descriptor::Mark;
use std::alloc::Global;
use std::process::Abort;
use std::sync::Wait;
use std::thread::Threads;

// A query of the source `w`, or of another, over pieces of a day of 1970: its kind, what follows its source, and the pieces.
fn query(rt: &impl Abort, alloc: Global, source: &str, more: &str, pieces: &str) -> String {
    format!(in alloc;
        "{{\"queryType\":\"timeseries\",\"dataSource\":\"{source}\",\"granularity\":\"all\",\"intervals\":{{\"type\":\"segments\",\"segments\":[{pieces}]}},\"queryIntervals\":[\"1970-01-01/1970-01-02\"],{more}\"aggregations\":[{{\"type\":\"count\",\"name\":\"n\"}},{{\"type\":\"longSum\",\"name\":\"s\",\"fieldName\":\"m\"}}]}}"
    ).expect(rt, "memory")
}

// A piece of a partition, by its ends after midnight.
fn piece(rt: &impl Abort, alloc: Global, text: &str) -> String {
    let (part, ends) = text.split_once(" ").expect(rt, "a partition");
    let (start, end) = ends.split_once(" ").expect(rt, "two ends");
    format!(in alloc;
        "{{\"chunk\":\"1970-01-01T00:00:00.000Z/1970-01-02T00:00:00.000Z\",\"itvl\":\"1970-01-01T{start}.000Z/{end}.000Z\",\"part\":{part},\"ver\":\"v\"}}"
    ).expect(rt, "memory")
}

// The pieces of a list, whose members `,` parts.
fn pieces(rt: &impl Abort, alloc: Global, text: &str) -> String {
    let mut all = String::new(alloc);
    for one in text.split_terminator(',') {
        if !all.is_empty() {
            all.push_str(",").expect(rt, "memory");
        }
        all.push_str(piece(rt, alloc, one).as_str())
            .expect(rt, "memory");
    }
    all
}

/// Whether a node answers the query so.
pub(crate) fn is_answered<R: Abort + Wait + Threads>(
    rt: &R,
    alloc: Global,
    node: &DataNode<First>,
    body: &str,
    wanted: &str,
) -> bool {
    let length = body.len();
    let message = format!(in alloc;
        "POST /druid/v2/ HTTP/1.1\r\nContent-Length: {length}\r\n\r\n{body}"
    );
    let message = message.expect(rt, "memory");
    answers(
        rt,
        alloc,
        node,
        message.as_bytes(),
        wanted,
        &mut Mark::never(),
    )
}

// The source, the pieces, the pieces that are missing, and the rows.
const ASKED: &str = "w;0 00:00:00 1970-01-02T00:00:00;;[[0,[],[1,5]]]
w;0 00:00:01 1970-01-01T00:00:02;;[[0,[],[1,5]]]
w;0 00:00:00 1970-01-01T00:00:01;;[]
w;0 00:00:02 1970-01-02T00:00:00;;[]
w;0 00:00:00 1970-01-01T00:00:01,0 00:00:01 1970-01-01T00:00:02,0 00:00:02 1970-01-02T00:00:00;;[[0,[],[1,5]]]
w;0 00:00:00 1970-01-02T00:00:00,1 00:00:00 1970-01-02T00:00:00;1 00:00:00 1970-01-02T00:00:00;[[0,[],[1,5]]]
w;2 00:00:00 1970-01-01T00:00:01,0 00:00:00 1970-01-02T00:00:00,1 00:00:00 1970-01-02T00:00:00;2 00:00:00 1970-01-01T00:00:01,1 00:00:00 1970-01-02T00:00:00;[[0,[],[1,5]]]
w;1 00:00:00 1970-01-02T00:00:00;1 00:00:00 1970-01-02T00:00:00;[]
x;0 00:00:00 1970-01-02T00:00:00;0 00:00:00 1970-01-02T00:00:00;[]";

// The answer that a row has: the pieces that are missing, and the rows.
fn reported(rt: &impl Abort, alloc: Global, missing: &str, rows: &str) -> String {
    let missing = pieces(rt, alloc, missing);
    format!(in alloc; "200 {{\"missing\":[{missing}],\"rows\":{rows}}}").expect(rt, "memory")
}

fn is_asked<R: Abort + Wait + Threads>(
    rt: &R,
    alloc: Global,
    node: &DataNode<First>,
    row: &str,
) -> bool {
    let mut columns = row.split(';');
    let source = columns.next().expect(rt, "a source");
    let asked = columns.next().expect(rt, "pieces");
    let missing = columns.next().expect(rt, "what is missing");
    let rows = columns.next().expect(rt, "rows");
    let body = query(rt, alloc, source, "", pieces(rt, alloc, asked).as_str());
    let wanted = reported(rt, alloc, missing, rows);
    is_answered(rt, alloc, node, body.as_str(), wanted.as_str())
}

#[test]
fn pieces_are_answered(rt: HostRuntime) {
    for layout in LAYOUTS {
        let node = node(&rt, rt.alloc(), layout);
        for row in ASKED.lines() {
            assert!(rt; is_asked(&rt, rt.alloc(), &node, row), "{row}");
        }
    }
}

// The source, what else the query has, its pieces, and the answer.
const REFUSED: &str = "w;;;400 {\"error\":\"Q3\",\"field\":\"intervals\"}
w/x;;0 00:00:00 1970-01-02T00:00:00;400 {\"error\":\"Q3\",\"field\":\"dataSource\"}
aaaaaaaaaaaaaaaaaaaaaaaaaaaaaaaaaaaaaaaaaaaaaaaaaaaaaaaaaaaaaaaaaaaaaaaaaaaaaaaaaaaaaaaaaaaaaaaaaaaaa;;0 00:00:00 1970-01-02T00:00:00;400 {\"error\":\"Q5\"}
w;\"filter\":7,;0 00:00:00 1970-01-02T00:00:00;400 {\"error\":\"Q3\",\"field\":\"filter\"}
w;\"descending\":true,;0 00:00:00 1970-01-02T00:00:00;400 {\"error\":\"Q3\",\"field\":\"descending\"}
w;\"limit\":7,;0 00:00:00 1970-01-02T00:00:00;400 {\"error\":\"Q3\",\"field\":\"limit\"}
w;;0 00:00:00 1970-01-03T00:00:00;400 {\"error\":\"Q4\"}
w;;0 00:00:01 1970-01-01T00:00:01;400 {\"error\":\"Q4\"}
w;;0 00:00:00 1970-01-02T00:00:00,0 00:00:00 1970-01-02T00:00:00;400 {\"error\":\"Q4\"}
w;;0 00:00:00 1970-01-01T00:00:02,1 00:00:00 1970-01-02T00:00:00,0 00:00:01 1970-01-02T00:00:00;400 {\"error\":\"Q4\"}";

fn is_refused<R: Abort + Wait + Threads>(
    rt: &R,
    alloc: Global,
    node: &DataNode<First>,
    row: &str,
) -> bool {
    let mut columns = row.split(';');
    let source = columns.next().expect(rt, "a source");
    let more = columns.next().expect(rt, "what else it has");
    let asked = columns.next().expect(rt, "pieces");
    let wanted = columns.next().expect(rt, "an answer");
    let body = query(rt, alloc, source, more, pieces(rt, alloc, asked).as_str());
    is_answered(rt, alloc, node, body.as_str(), wanted)
}

#[test]
fn subqueries_are_refused(rt: HostRuntime) {
    let node = node(&rt, rt.alloc(), Layout::ByRows);
    for row in REFUSED.lines() {
        assert!(rt; is_refused(&rt, rt.alloc(), &node, row), "{row}");
    }
}

// What a query has after its type, and its answer: a name that stands twice, and the values of a dimension. `@` stands for
// the keys that are common to both.
const OTHERS: &str =
    "\"timeseries\",@,\"aggregations\":[{\"type\":\"count\",\"name\":\"n\"},{\"type\":\"count\",\"name\":\"n\"}]} = 400 {\"error\":\"Q6\"}
\"groupBy\",@,\"dimensions\":[{\"type\":\"default\",\"dimension\":\"d\",\"outputName\":\"e\"}],\"aggregations\":[{\"type\":\"longMax\",\"name\":\"n\",\"fieldName\":\"m\"}]} = 200 {\"missing\":[],\"rows\":[[0,[\"x\"],[5]]]}";

const COMMON: &str =
    "\"dataSource\":\"w\",\"granularity\":\"all\",\"intervals\":{\"type\":\"segments\",\"segments\":[{\"chunk\":\"1970-01-01/1970-01-02\",\"itvl\":\"1970-01-01/1970-01-02\",\"part\":0,\"ver\":\"v\"}]},\"queryIntervals\":[\"1970-01-01/1970-01-02\"]";

fn is_reported<R: Abort + Wait + Threads>(
    rt: &R,
    alloc: Global,
    node: &DataNode<First>,
    row: &str,
) -> bool {
    let (text, wanted) = row.split_once(" = ").expect(rt, "a row");
    let text = filled(rt, alloc, text, '@', COMMON);
    let body = format!(in alloc; "{{\"queryType\":{text}").expect(rt, "memory");
    is_answered(rt, alloc, node, body.as_str(), wanted)
}

#[test]
fn other_queries(rt: HostRuntime) {
    let node = node(&rt, rt.alloc(), Layout::ByRows);
    for row in OTHERS.lines() {
        assert!(rt; is_reported(&rt, rt.alloc(), &node, row), "{row}");
    }
}
