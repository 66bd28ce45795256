//! Queries and subqueries whose filters are at a limit, and beyond it.
use crate::broker::answer_of;
use crate::cluster::{Handle, message_of, reported_response, set_up};
use crate::tables::{assert_holds, assert_reported, halves};
use druid_link::Link;
use std::alloc::Global;
use std::process::Abort;

// A filter: what stands before, how often, what stands so often, what stands in the middle, and what as often after. The answer of a
// broker to a count of the rows that pass it.
const FILTERS: &str =
    r#"{"type":"in","dimension":"d","values":[ ~ 999 ~ "a", ~ "a"]} ~  = 200 [{"result":{"n":1},"timestamp":"2024-01-01T00:00:00.000Z"}]
{"type":"in","dimension":"d","values":[ ~ 1000 ~ "a", ~ "a"]} ~  = 400 {"error":"Q5"}
{"type":"or","fields":[ ~ 998 ~ {"type":"selector","dimension":"d","value":"b"}, ~ {"type":"selector","dimension":"d","value":"a"}]} ~  = 200 [{"result":{"n":1},"timestamp":"2024-01-01T00:00:00.000Z"}]
{"type":"or","fields":[ ~ 999 ~ {"type":"selector","dimension":"d","value":"b"}, ~ {"type":"selector","dimension":"d","value":"a"}]} ~  = 400 {"error":"Q5"}
 ~ 49 ~ {"type":"not","field": ~ {"type":"selector","dimension":"d","value":"b"} ~ } = 200 [{"result":{"n":1},"timestamp":"2024-01-01T00:00:00.000Z"}]
 ~ 50 ~ {"type":"not","field": ~ {"type":"selector","dimension":"d","value":"b"} ~ } = 400 {"error":"Q5"}"#;

const NODE: &str = "v1/0/24/0/1 d:m 0/a/1";

// The filter of a line.
fn filter(rt: &impl Abort, alloc: Global, text: &str) -> String {
    let (front, rest) = halves(rt, text, " ~ ");
    let (count, rest) = halves(rt, rest, " ~ ");
    let (part, rest) = halves(rt, rest, " ~ ");
    let (middle, after) = halves(rt, rest, " ~ ");
    let count = count.parse::<usize>().expect(rt, "a number");
    let parts = part.repeat(alloc, count).expect(rt, "memory");
    let ends = after.repeat(alloc, count).expect(rt, "memory");
    format!(in alloc; "{front}{parts}{middle}{ends}").expect(rt, "memory")
}

// A count of what passes a filter.
fn count(rt: &impl Abort, alloc: Global, filter: &str) -> String {
    format!(in alloc;
        "@,\"filter\":{filter},\"aggregations\":[{{\"type\":\"count\",\"name\":\"n\"}}]}}"
    ).expect(rt, "memory")
}

// The same, asked of a node.
fn subquery(rt: &impl Abort, alloc: Global, filter: &str) -> String {
    let piece =
        "{\"chunk\":\"2024-01-01/2024-01-02\",\"itvl\":\"2024-01-01/2024-01-02\",\"part\":0,\"ver\":\"v1\"}";
    format!(in alloc;
        "{{\"queryType\":\"timeseries\",\"dataSource\":\"w\",\"granularity\":\"all\",\"intervals\":{{\"type\":\"segments\",\"segments\":[{piece}]}},\"queryIntervals\":[\"2024-01-01/2024-01-02\"],\"filter\":{filter},\"aggregations\":[{{\"type\":\"count\",\"name\":\"n\"}}]}}"
    ).expect(rt, "memory")
}

fn node_answer<R: Handle>(rt: R, alloc: Global, subquery: &str) -> String {
    let message = message_of(&rt, alloc, subquery);
    let mut setup = set_up(rt, alloc, NODE);
    let link = setup.links.get_mut(0).expect(&rt, "a link");
    let bytes = link
        .exchange(alloc, message.as_bytes())
        .expect(&rt, "an answer");
    reported_response(&rt, alloc, &bytes)
}

// Whether a node answers with the status that the broker does, and refuses for the same.
fn is_answered_alike<R: Handle>(rt: R, alloc: Global, filter: &str, wanted: &str) -> bool {
    let subquery = subquery(&rt, alloc, filter);
    let reported = node_answer(rt, alloc, subquery.as_str());
    if wanted.starts_with("400") {
        return reported.as_str() == wanted;
    }
    reported.as_str() == "200 {\"missing\":[],\"rows\":[[1704067200000,[],[1]]]}"
}

// Asserts that the filter of a line is answered so.
fn assert_filter<R: Handle>(rt: R, alloc: Global, line: &str) {
    let (text, wanted) = halves(&rt, line, " = ");
    let filter = filter(&rt, alloc, text);
    let asked = count(&rt, alloc, filter.as_str());
    assert_reported(
        &rt,
        line,
        answer_of(rt, alloc, NODE, asked.as_str(), 0),
        wanted,
    );
    assert_holds(
        &rt,
        line,
        is_answered_alike(rt, alloc, filter.as_str(), wanted),
    );
}

#[test]
fn filters(rt: HostRuntime) {
    for line in FILTERS.lines() {
        assert_filter(&rt, rt.alloc(), line);
    }
}
