//! Answers of nodes, read and written again.
use crate::printed::{filled, printed};
use druid_partial_text::{answer_of, node_answer_text, read_node_answer};
use druid_query_text::read_subquery;
use serde_json::Value;
use std::alloc::Global;
use std::process::Abort;

// A count by hours of two pieces of one segment and one of another.
const ASKED: &str =
    "{\"queryType\":\"timeseries\",\"dataSource\":\"w\",\"granularity\":\"hour\",\"intervals\":{\"type\":\"segments\",\"segments\":[{\"chunk\":\"2024-01-01/2024-01-02\",\"itvl\":\"2024-01-01T00:00/2024-01-01T01:00\",\"part\":0,\"ver\":\"v\"},{\"chunk\":\"2024-01-01/2024-01-02\",\"itvl\":\"2024-01-01T02:00/2024-01-01T03:00\",\"part\":0,\"ver\":\"v\"},{\"chunk\":\"2024-01-01/2024-01-02\",\"itvl\":\"2024-01-01/2024-01-02\",\"part\":1,\"ver\":\"v\"}]},\"queryIntervals\":[\"2024-01-01/2024-01-02\"],\"aggregations\":[{\"type\":\"count\",\"name\":\"n\"}]}";

// Answers, and the text that is written of each, or the fault. `@` stands for the third piece as it is written, and `#` for
// one that was not asked for.
const ANSWERS: &str = "[ = P1: not JSON
[] = P2: another shape
{} = P2: another shape
{\"missing\":[]} = P2: another shape
{\"rows\":[]} = P2: another shape
{\"missing\":null,\"rows\":[]} = P2: another shape
{\"missing\":[7],\"rows\":[]} = P2: another shape
{\"missing\":[],\"rows\":[[0,[],[null]]]} = P2: another shape
{\"missing\":[],\"rows\":[[0]]} = P2: another shape
{\"missing\":[#],\"rows\":[]} = P2: another shape
{\"missing\":[@,#],\"rows\":[]} = P2: another shape
{\"missing\":[#,@],\"rows\":[]} = P2: another shape
{\"missing\":[@,7],\"rows\":[]} = P2: another shape
{\"missing\":[@],\"rows\":[[0,[],[1]],[0,[],[2]]]} = P2: another shape
{\"missing\":[#],\"rows\":[[0,[],[1]],[0,[],[2]]]} = P2: another shape
{\"missing\":[#],\"rows\":[[0,[],[null]]]} = P2: another shape
{\"missing\":[7],\"rows\":[[0,[],[1]],[0,[],[2]]]} = P2: another shape
{\"rows\":[[0,[],[1]]],\"more\":7,\"missing\":[]} = {\"missing\":[],\"rows\":[[0,[],[1]]]}
{\"missing\":[@],\"rows\":[]} = {\"missing\":[@],\"rows\":[]}
{\"missing\":[@,@],\"rows\":[[3600000,[],[1]],[0,[],[2]]]} = {\"missing\":[@,@],\"rows\":[[0,[],[2]],[3600000,[],[1]]]}";

const THIRD: &str =
    "{\"chunk\":\"2024-01-01T00:00:00.000Z/2024-01-02T00:00:00.000Z\",\"itvl\":\"2024-01-01T00:00:00.000Z/2024-01-02T00:00:00.000Z\",\"part\":1,\"ver\":\"v\"}";

const OTHER: &str =
    "{\"chunk\":\"2024-01-01T00:00:00.000Z/2024-01-02T00:00:00.000Z\",\"itvl\":\"2024-01-01T01:00:00.000Z/2024-01-01T02:00:00.000Z\",\"part\":0,\"ver\":\"v\"}";

// A text with the pieces in the places of their letters.
fn spelled(rt: &impl Abort, alloc: Global, text: &str) -> String {
    let text = filled(rt, alloc, text, '@', THIRD);
    filled(rt, alloc, text.as_str(), '#', OTHER)
}

fn written(rt: &impl Abort, alloc: Global, text: &str) -> String {
    let sub = read_subquery(alloc, ASKED.as_bytes()).expect(rt, "a subquery");
    match read_node_answer(alloc, &sub, text.as_bytes()) {
        Ok(answer) => node_answer_text(alloc, &answer).expect(rt, "memory"),
        Err(fault) => printed(rt, alloc, &fault),
    }
}

// The same of JSON that was read before.
fn written_of(rt: &impl Abort, alloc: Global, text: &str) -> String {
    let sub = read_subquery(alloc, ASKED.as_bytes()).expect(rt, "a subquery");
    let value = Value::from_str(alloc, text).expect(rt, "JSON");
    match answer_of(alloc, &sub, &value) {
        Ok(answer) => node_answer_text(alloc, &answer).expect(rt, "memory"),
        Err(fault) => printed(rt, alloc, &fault),
    }
}

fn is_written(rt: &impl Abort, alloc: Global, row: &str) -> bool {
    let (given, wanted) = row.split_once(" = ").expect(rt, "a row");
    let text = spelled(rt, alloc, given);
    written(rt, alloc, text.as_str()) == spelled(rt, alloc, wanted)
}

// The same of a row whose text is JSON.
fn is_written_of(rt: &impl Abort, alloc: Global, row: &str) -> bool {
    let (given, wanted) = row.split_once(" = ").expect(rt, "a row");
    let text = spelled(rt, alloc, given);
    written_of(rt, alloc, text.as_str()) == spelled(rt, alloc, wanted)
}

#[test]
fn answers_written_again(rt: HostRuntime) {
    for row in ANSWERS.lines() {
        assert!(rt; is_written(&rt, rt.alloc(), row), "{row}");
    }
    // Of the first the text is no JSON.
    for row in ANSWERS.lines().skip(1) {
        assert!(rt; is_written_of(&rt, rt.alloc(), row), "{row}");
    }
}
