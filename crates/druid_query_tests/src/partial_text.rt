//! Partials, read and written again, and the results that they are written as.
use crate::printed::{assert_prints, printed};
use druid_partial_text::{PartialFault, partial_text, read_partial, result_text, shortfall_text};
use druid_query::{Query, SegmentSlice};
use druid_query_slice_text::read_asked;
use druid_query_text::read_query;
use druid_segment_id::Name;
use serde_json::Value;
use std::alloc::Global;
use std::process::Abort;

// The queries of the tables below. `T` is a `timeseries` by hours that counts rows, sums f, and tells its least value; `G`
// is a `groupBy` in one bucket that counts the rows of each d and e, which it calls `z` and `a`.
const BY_HOUR: &str =
    "{\"queryType\":\"timeseries\",\"dataSource\":\"w\",\"granularity\":\"hour\",\"intervals\":\"2024-01-01/2024-01-02\",\"aggregations\":[{\"type\":\"count\",\"name\":\"n\"},{\"type\":\"longSum\",\"name\":\"s\",\"fieldName\":\"f\"},{\"type\":\"longMin\",\"name\":\"a\",\"fieldName\":\"f\"}]}";

const BY_VALUES: &str =
    "{\"queryType\":\"groupBy\",\"dataSource\":\"w\",\"granularity\":\"all\",\"intervals\":[\"1970-01-01T00:00:01/1970-01-02\",\"1970-01-01/1970-01-01T00:00:00.001\"],\"dimensions\":[{\"type\":\"default\",\"dimension\":\"d\",\"outputName\":\"z\"},{\"type\":\"default\",\"dimension\":\"e\",\"outputName\":\"a\"}],\"aggregations\":[{\"type\":\"count\",\"name\":\"n\"}]}";

// A query, the text of a partial, and the text that is written of it, or the fault.
const PARTIALS: &str = "T [] = []
T [[1704067200000,[],[2,5,null]]] = [[1704067200000,[],[2,5,null]]]
T [[3600000,[],[1,-9223372036854775808,0]],[-3600000,[],[-1,9223372036854775807,1]],[0,[],[0,null,null]]] = [[-3600000,[],[-1,9223372036854775807,1]],[0,[],[0,null,null]],[3600000,[],[1,-9223372036854775808,0]]]
T {} = P2: another shape
T null = P2: another shape
T [7] = P2: another shape
T [[]] = P2: another shape
T [[0,[]]] = P2: another shape
T [[0,[],[1,2,3],[]]] = P2: another shape
T [[0,[],[1,2]]] = P2: another shape
T [[0,[],[1,2,3,4]]] = P2: another shape
T [[0,[null],[1,2,3]]] = P2: another shape
T [[1,[],[1,2,3]]] = P2: another shape
T [[0.0,[],[1,2,3]]] = P2: another shape
T [[\"0\",[],[1,2,3]]] = P2: another shape
T [[253402300800000,[],[1,2,3]]] = P2: another shape
T [[0,[],[null,2,3]]] = P2: another shape
T [[0,[],[1,2,3.5]]] = P2: another shape
T [[0,[],[1,2,9223372036854775808]]] = P2: another shape
T [[0,[],[1,2,\"3\"]]] = P2: another shape
T [[0,[],[1,2,3]],[3600000,[],[1,2,3]],[0,[],[4,5,6]]] = P2: another shape
G [[0,[\"x\",null],[1]],[0,[null,\"y\"],[2]],[0,[\"\",\"y\"],[3]],[0,[\"x\",\"\"],[4]]] = [[0,[null,\"y\"],[2]],[0,[\"\",\"y\"],[3]],[0,[\"x\",null],[1]],[0,[\"x\",\"\"],[4]]]
G [[0,[\"\\u0001\\\"\\\\/\\n\",\"\\u00e9\"],[1]]] = [[0,[\"\\u0001\\\"\\\\/\\n\",\"é\"],[1]]]
G [[1000,[\"x\",null],[1]]] = P2: another shape
G [[0,[\"x\"],[1]]] = P2: another shape
G [[0,[\"x\",7],[1]]] = P2: another shape
G [[0,[\"x\",null],[1]],[0,[\"x\",null],[1]]] = P2: another shape";

// A query, the text of a partial, and the text of the result that it is.
const RESULTS: &str = "T [] = []
T [[1704067200000,[],[2,5,null]],[0,[],[1,-1,-1]]] = [{\"result\":{\"a\":-1,\"n\":1,\"s\":-1},\"timestamp\":\"1970-01-01T00:00:00.000Z\"},{\"result\":{\"a\":null,\"n\":2,\"s\":5},\"timestamp\":\"2024-01-01T00:00:00.000Z\"}]
G [[0,[\"x\",null],[1]],[0,[null,\"\\\"\"],[2]]] = [{\"event\":{\"a\":\"\\\"\",\"n\":2,\"z\":null},\"timestamp\":\"1970-01-01T00:00:00.000Z\",\"version\":\"v1\"},{\"event\":{\"a\":null,\"n\":1,\"z\":\"x\"},\"timestamp\":\"1970-01-01T00:00:00.000Z\",\"version\":\"v1\"}]";

// The query of that letter.
fn query_named(rt: &impl Abort, alloc: Global, name: &str) -> Query {
    let text = if name == "T" { BY_HOUR } else { BY_VALUES };
    read_query(alloc, text.as_bytes()).expect(rt, "a query")
}

fn value(rt: &impl Abort, alloc: Global, text: &str) -> Value {
    Value::from_str(alloc, text).expect(rt, "JSON")
}

fn written(rt: &impl Abort, alloc: Global, query: &Query, text: &str) -> String {
    match read_partial(alloc, query, &value(rt, alloc, text)) {
        Ok(partial) => partial_text(alloc, &partial).expect(rt, "memory"),
        Err(fault) => printed(rt, alloc, &fault),
    }
}

fn reported(rt: &impl Abort, alloc: Global, query: &Query, text: &str) -> String {
    match read_partial(alloc, query, &value(rt, alloc, text)) {
        Ok(partial) => result_text(alloc, query, &partial).expect(rt, "memory"),
        Err(fault) => printed(rt, alloc, &fault),
    }
}

// A piece of a segment.
const MISSED: &str =
    "{\"chunk\":\"2024-01-01T00:00:00.000Z/2024-01-02T00:00:00.000Z\",\"itvl\":\"2024-01-01T01:00:00.000Z/2024-01-01T02:00:00.000Z\",\"part\":0,\"ver\":\"v\"}";

fn missed(rt: &impl Abort, alloc: Global) -> SegmentSlice {
    let source = Name::new(alloc, "w").expect(rt, "a name");
    let read = read_asked(alloc, &source, &value(rt, alloc, MISSED)).expect(rt, "memory");
    read.expect(rt, "a piece")
}

// What is reported of a partial where that piece is missing.
fn reported_short(rt: &impl Abort, alloc: Global, query: &Query, text: &str) -> String {
    let partial = read_partial(alloc, query, &value(rt, alloc, text)).expect(rt, "a partial");
    let missing = [missed(rt, alloc)];
    shortfall_text(alloc, query, &missing, &partial).expect(rt, "memory")
}

// What a row has: a query, the text of a partial, and what is wanted of it.
fn columns<'a>(rt: &impl Abort, alloc: Global, row: &'a str) -> (Query, &'a str, &'a str) {
    let (given, wanted) = row.split_once(" = ").expect(rt, "a row");
    let (name, text) = given.split_once(" ").expect(rt, "a query");
    (query_named(rt, alloc, name), text, wanted)
}

fn is_written(rt: &impl Abort, alloc: Global, row: &str) -> bool {
    let (query, text, wanted) = columns(rt, alloc, row);
    written(rt, alloc, &query, text).as_str() == wanted
}

fn is_reported(rt: &impl Abort, alloc: Global, row: &str) -> bool {
    let (query, text, wanted) = columns(rt, alloc, row);
    reported(rt, alloc, &query, text).as_str() == wanted
}

fn is_reported_short(rt: &impl Abort, alloc: Global, row: &str) -> bool {
    let (query, text, rows) = columns(rt, alloc, row);
    let wanted = format!(in alloc;
        "{{\"error\":\"SegmentsMissing\",\"missing\":[{MISSED}],\"partial\":{rows}}}"
    );
    reported_short(rt, alloc, &query, text) == wanted.expect(rt, "memory")
}

#[test]
fn partials_and_results(rt: HostRuntime) {
    for row in PARTIALS.lines() {
        assert!(rt; is_written(&rt, rt.alloc(), row), "{row}");
    }
    for row in RESULTS.lines() {
        assert!(rt; is_reported(&rt, rt.alloc(), row), "{row}");
        assert!(rt; is_reported_short(&rt, rt.alloc(), row), "{row}");
    }
}

const TEXTS_OF_FAULTS: [(PartialFault, &str); 2] = [
    (PartialFault::NotJson, "P1: not JSON"),
    (PartialFault::Memory, "P9: out of memory"),
];

#[test]
fn faults_print_this(rt: HostRuntime) {
    assert_prints(&rt, rt.alloc(), &TEXTS_OF_FAULTS);
}
