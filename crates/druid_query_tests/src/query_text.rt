//! Queries, read and written again.
use crate::printed::printed;
use druid_query_text::{query_of, query_text, read_query};
use serde_json::Value;
use std::alloc::Global;
use std::process::Abort;

// Texts of queries, and the text of the query that each is, or its fault. `@` stands for the keys of a `timeseries` that is
// in order, and `#` for those of a `groupBy`; a later key of the same name counts.
const QUERIES: &str = "[ = Q1: not JSON
 = Q1: not JSON
[] = Q2: no query of a known type
\"timeseries\" = Q2: no query of a known type
{} = Q2: no query of a known type
{\"queryType\":\"topN\"} = Q2: no query of a known type
{\"queryType\":7} = Q2: no query of a known type
{\"queryType\":\"timeseries\"} = Q3: dataSource has another shape
@,\"dataSource\":null} = Q3: dataSource has another shape
@,\"dataSource\":\"a/b\"} = Q3: dataSource has another shape
@,\"dataSource\":\"\"} = Q5: a limit is passed
@,\"dataSource\":{\"type\":\"union\",\"name\":\"w\"}} = Q3: dataSource has another shape
@,\"dataSource\":{\"type\":\"table\"}} = Q3: dataSource has another shape
@,\"granularity\":\"none\"} = Q3: granularity has another shape
@,\"granularity\":{\"type\":\"ALL\"}} = Q3: granularity has another shape
@,\"granularity\":null} = Q3: granularity has another shape
@,\"intervals\":\"2024-01-01/P1D\"} = Q4: not an interval
@,\"intervals\":[]} = Q3: intervals has another shape
@,\"intervals\":[\"x\",7]} = Q3: intervals has another shape
@,\"intervals\":[\"2024-01-01/2024-01-02\",\"x\"]} = Q4: not an interval
@,\"intervals\":{\"type\":\"intervals\",\"intervals\":\"2024-01-01/2024-01-02\"}} = Q3: intervals has another shape
@,\"intervals\":{\"type\":\"segments\",\"intervals\":[\"2024-01-01/2024-01-02\"]}} = Q3: intervals has another shape
@,\"intervals\":\"2024-01-02/2024-01-02\"} = Q4: not an interval
@,\"filter\":{}} = Q3: filter has another shape
@,\"filter\":\"x\"} = Q3: filter has another shape
@,\"filter\":{\"type\":\"selector\",\"dimension\":\"d\"}} = Q3: filter has another shape
@,\"filter\":{\"type\":\"bound\",\"dimension\":\"d\"}} = Q3: filter has another shape
@,\"filter\":{\"type\":\"in\",\"dimension\":\"d\",\"values\":[7]}} = Q3: filter has another shape
@,\"filter\":{\"type\":\"not\",\"field\":null}} = Q3: filter has another shape
@,\"filter\":{\"type\":\"and\",\"fields\":[{\"type\":\"or\"}]}} = Q3: filter has another shape
@,\"filter\":{\"type\":\"selector\",\"dimension\":\"\",\"value\":null}} = Q5: a limit is passed
@,\"filter\":{\"type\":\"and\",\"fields\":[{\"type\":\"selector\",\"dimension\":\"\",\"value\":null},7]}} = Q3: filter has another shape
#,\"dimensions\":null} = Q3: dimensions has another shape
#,\"dimensions\":[{\"dimension\":\"d\"}]} = Q3: dimensions has another shape
#,\"dimensions\":[{\"type\":\"default\",\"dimension\":\"d\",\"outputName\":null}]} = Q3: dimensions has another shape
#,\"dimensions\":[\"\"]} = Q5: a limit is passed
@,\"aggregations\":null} = Q3: aggregations has another shape
@,\"aggregations\":[{\"type\":\"doubleSum\",\"name\":\"n\",\"fieldName\":\"f\"}]} = Q3: aggregations has another shape
@,\"aggregations\":[{\"type\":\"longSum\",\"name\":\"n\"}]} = Q3: aggregations has another shape
@,\"aggregations\":[{\"type\":\"count\",\"name\":\"\"}]} = Q5: a limit is passed
@,\"descending\":true} = Q3: descending has another shape
@,\"descending\":0} = Q3: descending has another shape
@,\"postAggregations\":7} = Q3: postAggregations has another shape
@,\"virtualColumns\":7} = Q3: virtualColumns has another shape
@,\"having\":7} = Q3: having has another shape
@,\"limitSpec\":7} = Q3: limitSpec has another shape
@,\"limit\":7} = Q3: limit has another shape
@,\"subtotalsSpec\":7} = Q3: subtotalsSpec has another shape
@,\"having\":7,\"limit\":7,\"aggregations\":[{\"type\":\"count\",\"name\":\"n\"},{\"type\":\"count\",\"name\":\"n\"}]} = Q3: having has another shape
@,\"aggregations\":[{\"type\":\"count\",\"name\":\"n\"},{\"type\":\"longSum\",\"name\":\"n\",\"fieldName\":\"f\"}]} = Q6: a doubled name
#,\"dimensions\":[\"n\"],\"aggregations\":[{\"type\":\"count\",\"name\":\"n\"}]} = Q6: a doubled name
#,\"dimensions\":[\"d\",{\"type\":\"default\",\"dimension\":\"e\",\"outputName\":\"d\"}]} = Q6: a doubled name
@} = {\"aggregations\":[],\"dataSource\":\"w\",\"filter\":null,\"granularity\":\"all\",\"intervals\":[\"2024-01-01T00:00:00.000Z/2024-01-02T00:00:00.000Z\"],\"queryType\":\"timeseries\"}
@,\"context\":{\"timeout\":1},\"postAggregations\":[],\"having\":{},\"limit\":null,\"descending\":false,\"dimensions\":7,\"filter\":null} = {\"aggregations\":[],\"dataSource\":\"w\",\"filter\":null,\"granularity\":\"all\",\"intervals\":[\"2024-01-01T00:00:00.000Z/2024-01-02T00:00:00.000Z\"],\"queryType\":\"timeseries\"}
@,\"dataSource\":{\"type\":\"table\",\"name\":\"w\"},\"granularity\":\"HOUR\"} = {\"aggregations\":[],\"dataSource\":\"w\",\"filter\":null,\"granularity\":\"hour\",\"intervals\":[\"2024-01-01T00:00:00.000Z/2024-01-02T00:00:00.000Z\"],\"queryType\":\"timeseries\"}
@,\"granularity\":{\"type\":\"all\"},\"intervals\":{\"type\":\"intervals\",\"intervals\":[\"2024-01-01/2024-01-02\"]}} = {\"aggregations\":[],\"dataSource\":\"w\",\"filter\":null,\"granularity\":\"all\",\"intervals\":[\"2024-01-01T00:00:00.000Z/2024-01-02T00:00:00.000Z\"],\"queryType\":\"timeseries\"}
@,\"intervals\":[\"2024-01-01T00:00Z/2024-01-02\",\"2024-01-01/2024-01-02\"]} = {\"aggregations\":[],\"dataSource\":\"w\",\"filter\":null,\"granularity\":\"all\",\"intervals\":[\"2024-01-01T00:00:00.000Z/2024-01-02T00:00:00.000Z\",\"2024-01-01T00:00:00.000Z/2024-01-02T00:00:00.000Z\"],\"queryType\":\"timeseries\"}
@,\"aggregations\":[{\"type\":\"longMin\",\"name\":\"m\",\"fieldName\":\"f\"},{\"type\":\"count\",\"name\":\"n\",\"fieldName\":7}]} = {\"aggregations\":[{\"fieldName\":\"f\",\"name\":\"m\",\"type\":\"longMin\"},{\"name\":\"n\",\"type\":\"count\"}],\"dataSource\":\"w\",\"filter\":null,\"granularity\":\"all\",\"intervals\":[\"2024-01-01T00:00:00.000Z/2024-01-02T00:00:00.000Z\"],\"queryType\":\"timeseries\"}
#} = {\"aggregations\":[],\"dataSource\":\"w\",\"dimensions\":[],\"filter\":null,\"granularity\":\"all\",\"intervals\":[\"2024-01-01T00:00:00.000Z/2024-01-02T00:00:00.000Z\"],\"queryType\":\"groupBy\"}
#,\"dimensions\":[\"d\",{\"type\":\"default\",\"dimension\":\"e\"},{\"type\":\"default\",\"dimension\":\"d\",\"outputName\":\"x\"}]} = {\"aggregations\":[],\"dataSource\":\"w\",\"dimensions\":[{\"dimension\":\"d\",\"outputName\":\"d\",\"type\":\"default\"},{\"dimension\":\"e\",\"outputName\":\"e\",\"type\":\"default\"},{\"dimension\":\"d\",\"outputName\":\"x\",\"type\":\"default\"}],\"filter\":null,\"granularity\":\"all\",\"intervals\":[\"2024-01-01T00:00:00.000Z/2024-01-02T00:00:00.000Z\"],\"queryType\":\"groupBy\"}
@,\"filter\":{\"fields\":[{\"dimension\":\"d\",\"type\":\"selector\",\"value\":null},{\"field\":{\"dimension\":\"e\",\"type\":\"in\",\"values\":[\"\",null,\"x\"]},\"type\":\"not\"},{\"fields\":[],\"type\":\"or\"}],\"type\":\"and\"}} = {\"aggregations\":[],\"dataSource\":\"w\",\"filter\":{\"fields\":[{\"dimension\":\"d\",\"type\":\"selector\",\"value\":null},{\"field\":{\"dimension\":\"e\",\"type\":\"in\",\"values\":[\"\",null,\"x\"]},\"type\":\"not\"},{\"fields\":[],\"type\":\"or\"}],\"type\":\"and\"},\"granularity\":\"all\",\"intervals\":[\"2024-01-01T00:00:00.000Z/2024-01-02T00:00:00.000Z\"],\"queryType\":\"timeseries\"}";

// Texts at the limits: what stands in front, an item and how often it stands, what is between two, what stands after, and
// `taken` or the fault.
const LIMITS: &str = "@,\"intervals\":[|\"2024-01-01/2024-01-02\"|1000|,|]}|taken
@,\"intervals\":[|\"2024-01-01/2024-01-02\"|1001|,|]}|Q5: a limit is passed
@,\"filter\":{\"type\":\"or\",\"fields\":[|{\"type\":\"or\",\"fields\":[]}|999|,|]}}|taken
@,\"filter\":{\"type\":\"or\",\"fields\":[|{\"type\":\"or\",\"fields\":[]}|1000|,|]}}|Q5: a limit is passed
@,\"filter\":{\"type\":\"in\",\"dimension\":\"d\",\"values\":[|null|1000|,|]}}|taken
@,\"filter\":{\"type\":\"in\",\"dimension\":\"d\",\"values\":[|null|1001|,|]}}|Q5: a limit is passed
#,\"dimensions\":[|\"d\"|16|,|]}|Q6: a doubled name
#,\"dimensions\":[|\"d\"|17|,|]}|Q5: a limit is passed
@,\"aggregations\":[|{\"type\":\"count\",\"name\":\"n\"}|16|,|]}|Q6: a doubled name
@,\"aggregations\":[|{\"type\":\"count\",\"name\":\"n\"}|17|,|]}|Q5: a limit is passed
#,\"dimensions\":[\"|d|100||\"]}|taken
#,\"dimensions\":[\"|d|101||\"]}|Q5: a limit is passed
@,\"dataSource\":\"|d|100||\"}|taken
@,\"dataSource\":\"|d|101||\"}|Q5: a limit is passed
@,\"dataSource\":\"|/|101||\"}|Q5: a limit is passed
@,\"filter\":{\"type\":\"selector\",\"dimension\":\"d\",\"value\":\"|x|1024||\"}}|taken
@,\"filter\":{\"type\":\"selector\",\"dimension\":\"d\",\"value\":\"|x|1025||\"}}|Q5: a limit is passed";

// How many filters stand round one, each inside the next, and `taken` or the fault.
const DEEP: &str = "49 taken
50 Q5: a limit is passed";

const COMMON: &str =
    "{\"dataSource\":\"w\",\"granularity\":\"all\",\"intervals\":\"2024-01-01/2024-01-02\",\"queryType\":";

fn reported(rt: &impl Abort, alloc: Global, text: &str) -> String {
    match read_query(alloc, text.as_bytes()) {
        Ok(query) => query_text(alloc, &query).expect(rt, "memory"),
        Err(fault) => printed(rt, alloc, &fault),
    }
}

// The same of JSON that was read before.
fn reported_of(rt: &impl Abort, alloc: Global, text: &str) -> String {
    let value = Value::from_str(alloc, text).expect(rt, "JSON");
    match query_of(alloc, &value) {
        Ok(query) => query_text(alloc, &query).expect(rt, "memory"),
        Err(fault) => printed(rt, alloc, &fault),
    }
}

// A text after the keys that are common to all, with that type.
fn typed(rt: &impl Abort, alloc: Global, kind: &str, rest: &str) -> String {
    format!(in alloc; "{COMMON}\"{kind}\"{rest}").expect(rt, "memory")
}

// The text that a row has.
fn spelled(rt: &impl Abort, alloc: Global, text: &str) -> String {
    if let Some(rest) = text.strip_prefix("@") {
        return typed(rt, alloc, "timeseries", rest);
    }
    match text.strip_prefix("#") {
        Some(rest) => typed(rt, alloc, "groupBy", rest),
        None => String::from_str(alloc, text).expect(rt, "memory"),
    }
}

fn is_reported(rt: &impl Abort, alloc: Global, row: &str) -> bool {
    let (text, wanted) = row.split_once(" = ").expect(rt, "a row");
    let text = spelled(rt, alloc, text);
    reported(rt, alloc, text.as_str()).as_str() == wanted
}

// The same of a row whose text is JSON.
fn is_reported_of(rt: &impl Abort, alloc: Global, row: &str) -> bool {
    let (text, wanted) = row.split_once(" = ").expect(rt, "a row");
    let text = spelled(rt, alloc, text);
    reported_of(rt, alloc, text.as_str()).as_str() == wanted
}

// What is reported of a text: `taken`, where it is a query that is written and read again, or its fault.
fn is_taken(rt: &impl Abort, alloc: Global, text: &str, wanted: &str) -> bool {
    let once = reported(rt, alloc, text);
    if wanted != "taken" {
        return once.as_str() == wanted;
    }
    once.starts_with("{") && reported(rt, alloc, once.as_str()) == once
}

fn repeated(rt: &impl Abort, alloc: Global, item: &str, count: u64, between: &str) -> String {
    let mut text = String::new(alloc);
    for place in 0..count {
        if place > 0 {
            text.push_str(between).expect(rt, "memory");
        }
        text.push_str(item).expect(rt, "memory");
    }
    text
}

fn number(rt: &impl Abort, digits: &str) -> u64 {
    digits.parse().expect(rt, "a number")
}

// The text of a row at a limit: what stands in front, an item and how often it stands, what is between two, and what stands
// after.
fn limited(rt: &impl Abort, alloc: Global, row: &str) -> String {
    let mut parts = row.split("|");
    let front = parts.next().expect(rt, "a front");
    let item = parts.next().expect(rt, "an item");
    let count = parts.next().expect(rt, "a count");
    let between = parts.next().expect(rt, "what is between");
    let back = parts.next().expect(rt, "a back");
    let front = spelled(rt, alloc, front);
    let items = repeated(rt, alloc, item, number(rt, count), between);
    format!(in alloc; "{front}{items}{back}").expect(rt, "memory")
}

fn is_limited(rt: &impl Abort, alloc: Global, row: &str) -> bool {
    let (parts, wanted) = row.rsplit_once("|").expect(rt, "a row");
    let text = limited(rt, alloc, parts);
    is_taken(rt, alloc, text.as_str(), wanted)
}

// A query whose filter stands in that many others.
fn deep(rt: &impl Abort, alloc: Global, count: u64) -> String {
    let front = spelled(rt, alloc, "@,\"filter\":");
    let opened = repeated(rt, alloc, "{\"type\":\"not\",\"field\":", count, "");
    let closed = repeated(rt, alloc, "}", count, "");
    format!(in alloc; "{front}{opened}{{\"type\":\"or\",\"fields\":[]}}{closed}}}").expect(
        rt, "memory",
    )
}

fn is_deep(rt: &impl Abort, alloc: Global, row: &str) -> bool {
    let (count, wanted) = row.split_once(" ").expect(rt, "a row");
    let text = deep(rt, alloc, number(rt, count));
    is_taken(rt, alloc, text.as_str(), wanted)
}

#[test]
fn queries(rt: HostRuntime) {
    for row in QUERIES.lines() {
        assert!(rt; is_reported(&rt, rt.alloc(), row), "{row}");
    }
    // Of the first two the text is no JSON.
    for row in QUERIES.lines().skip(2) {
        assert!(rt; is_reported_of(&rt, rt.alloc(), row), "{row}");
    }
}

#[test]
fn limits(rt: HostRuntime) {
    for row in LIMITS.lines() {
        assert!(rt; is_limited(&rt, rt.alloc(), row), "{row}");
    }
    for row in DEEP.lines() {
        assert!(rt; is_deep(&rt, rt.alloc(), row), "{row}");
    }
}
