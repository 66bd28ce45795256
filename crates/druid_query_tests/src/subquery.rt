//! Subqueries, read and written again.
use crate::printed::{filled, printed};
use druid_query::SubQuery;
use druid_query_text::{read_subquery, subquery_of, subquery_text, subquery_value};
use std::alloc::Global;
use std::process::Abort;

// In each row `~` stands for the printed interval of 2024-01-01. A later key of the same name counts.

// Pieces, and what is answered where they are asked for: `taken`, where the subquery is written as it stands and read again, or
// the fault.
const PIECES: &str = "# = Q3: intervals has another shape
7 = Q3: intervals has another shape
{\"itvl\":\"~\",\"part\":0,\"ver\":\"v\"} = Q3: intervals has another shape
{\"chunk\":7,\"itvl\":\"~\",\"part\":0,\"ver\":\"v\"} = Q3: intervals has another shape
{\"chunk\":\"~\",\"part\":0,\"ver\":\"v\"} = Q3: intervals has another shape
{\"chunk\":\"~\",\"itvl\":\"~\",\"ver\":\"v\"} = Q3: intervals has another shape
{\"chunk\":\"~\",\"itvl\":\"~\",\"part\":65536,\"ver\":\"v\"} = Q3: intervals has another shape
{\"chunk\":\"~\",\"itvl\":\"~\",\"part\":-1,\"ver\":\"v\"} = Q3: intervals has another shape
{\"chunk\":\"~\",\"itvl\":\"~\",\"part\":1.0,\"ver\":\"v\"} = Q3: intervals has another shape
{\"chunk\":\"~\",\"itvl\":\"~\",\"part\":\"0\",\"ver\":\"v\"} = Q3: intervals has another shape
{\"chunk\":\"~\",\"itvl\":\"~\",\"part\":0} = Q3: intervals has another shape
{\"chunk\":\"~\",\"itvl\":\"~\",\"part\":0,\"ver\":\"\"} = Q3: intervals has another shape
{\"chunk\":\"~\",\"itvl\":\"~\",\"part\":0,\"ver\":\"a_b\"} = Q3: intervals has another shape
{\"chunk\":\"x\",\"itvl\":\"~\",\"part\":0,\"ver\":\"v\"},7 = Q3: intervals has another shape
{\"chunk\":\"x\",\"itvl\":\"~\",\"part\":0,\"ver\":\"v\"} = Q4: not an interval
{\"chunk\":\"~\",\"itvl\":\"2024-01-01/P1D\",\"part\":0,\"ver\":\"v\"} = Q4: not an interval
{\"chunk\":\"~\",\"itvl\":\"2024-01-01/2024-01-03\",\"part\":0,\"ver\":\"v\"} = Q4: not an interval
{\"chunk\":\"~\",\"itvl\":\"2023-12-31/2024-01-02\",\"part\":0,\"ver\":\"v\"} = Q4: not an interval
{\"chunk\":\"~\",\"itvl\":\"~\",\"part\":0,\"ver\":\"v\"},{\"chunk\":\"~\",\"itvl\":\"~\",\"part\":0,\"ver\":\"v\"} = Q4: not an interval
{\"chunk\":\"2024-01-01/2024-01-02\",\"itvl\":\"2024-01-01/2024-01-01T12:00\",\"part\":0,\"ver\":\"v\"},{\"chunk\":\"~\",\"itvl\":\"2024-01-01T11:59/2024-01-02\",\"part\":0,\"ver\":\"v\"} = Q4: not an interval
{\"chunk\":\"~\",\"itvl\":\"2024-01-01T08:00/2024-01-01T12:00\",\"part\":0,\"ver\":\"v\"},{\"chunk\":\"~\",\"itvl\":\"2024-01-01/2024-01-01T08:00\",\"part\":0,\"ver\":\"v\"},{\"chunk\":\"~\",\"itvl\":\"~\",\"part\":0,\"ver\":\"w\"},{\"chunk\":\"~\",\"itvl\":\"2024-01-01T11:59/2024-01-02\",\"part\":0,\"ver\":\"v\"} = Q4: not an interval
{\"chunk\":\"~\",\"itvl\":\"~\",\"part\":65535,\"ver\":\"v\"} = taken
{\"chunk\":\"~\",\"itvl\":\"2024-01-01T12:00:00.000Z/2024-01-02T00:00:00.000Z\",\"part\":0,\"ver\":\"v\"},{\"chunk\":\"~\",\"itvl\":\"2024-01-01T00:00:00.000Z/2024-01-01T12:00:00.000Z\",\"part\":0,\"ver\":\"v\"} = taken
{\"chunk\":\"~\",\"itvl\":\"~\",\"part\":0,\"ver\":\"v\"},{\"chunk\":\"~\",\"itvl\":\"~\",\"part\":1,\"ver\":\"v\"} = taken
{\"chunk\":\"~\",\"itvl\":\"~\",\"part\":0,\"ver\":\"v\"},{\"chunk\":\"~\",\"itvl\":\"~\",\"part\":0,\"ver\":\"w\"} = taken
{\"chunk\":\"~\",\"itvl\":\"~\",\"part\":0,\"ver\":\"v\"},{\"chunk\":\"2024-01-01T00:00:00.000Z/2024-01-03T00:00:00.000Z\",\"itvl\":\"~\",\"part\":0,\"ver\":\"v\"} = taken";

// What follows a subquery that is in order, and its fault.
const REFUSED: &str = ",\"queryType\":\"topN\",\"dataSource\":7} = Q2: no query of a known type
,\"dataSource\":\"a/b\",\"granularity\":7} = Q3: dataSource has another shape
,\"granularity\":\"none\",\"intervals\":7} = Q3: granularity has another shape
,\"intervals\":\"~\",\"queryIntervals\":7} = Q3: intervals has another shape
,\"intervals\":null} = Q3: intervals has another shape
,\"intervals\":[\"~\"]} = Q3: intervals has another shape
,\"intervals\":{\"type\":\"intervals\",\"intervals\":[\"~\"]}} = Q3: intervals has another shape
,\"intervals\":{\"segments\":[{\"chunk\":\"~\",\"itvl\":\"~\",\"part\":0,\"ver\":\"v\"}]}} = Q3: intervals has another shape
,\"intervals\":{\"type\":\"segments\"}} = Q3: intervals has another shape
,\"intervals\":{\"type\":\"segments\",\"segments\":{\"chunk\":\"~\",\"itvl\":\"~\",\"part\":0,\"ver\":\"v\"}}} = Q3: intervals has another shape
,\"intervals\":{\"type\":\"segments\",\"segments\":[{\"chunk\":\"~\",\"itvl\":\"~\",\"part\":0,\"ver\":\"v\"},{\"chunk\":\"~\",\"itvl\":\"~\",\"part\":0,\"ver\":\"v\"}]},\"queryIntervals\":7,\"filter\":{}} = Q4: not an interval
,\"queryIntervals\":null,\"filter\":{}} = Q3: queryIntervals has another shape
,\"queryIntervals\":\"~\"} = Q3: queryIntervals has another shape
,\"queryIntervals\":{\"type\":\"intervals\",\"intervals\":[\"~\"]}} = Q3: queryIntervals has another shape
,\"queryIntervals\":[]} = Q3: queryIntervals has another shape
,\"queryIntervals\":[\"x\",7]} = Q3: queryIntervals has another shape
,\"queryIntervals\":[\"~\",\"x\"],\"filter\":{}} = Q4: not an interval
,\"filter\":{},\"aggregations\":7} = Q3: filter has another shape
,\"queryType\":\"groupBy\",\"dimensions\":null,\"aggregations\":7} = Q3: dimensions has another shape
,\"aggregations\":7,\"descending\":true} = Q3: aggregations has another shape
,\"descending\":true,\"having\":7} = Q3: descending has another shape
,\"subtotalsSpec\":7} = Q3: subtotalsSpec has another shape
,\"queryType\":\"groupBy\",\"dimensions\":[\"n\"],\"aggregations\":[{\"type\":\"count\",\"name\":\"n\"}]} = Q6: a doubled name";

// What follows a subquery that is in order, and its text.
const WRITTEN: &str =
    "} = {\"aggregations\":[],\"dataSource\":\"w\",\"filter\":null,\"granularity\":\"all\",\"intervals\":{\"segments\":[{\"chunk\":\"~\",\"itvl\":\"~\",\"part\":0,\"ver\":\"v\"}],\"type\":\"segments\"},\"queryIntervals\":[\"~\"],\"queryType\":\"timeseries\"}
,\"queryType\":\"groupBy\",\"dimensions\":[\"d\"],\"granularity\":\"DAY\",\"filter\":{\"type\":\"selector\",\"dimension\":\"e\",\"value\":null},\"aggregations\":[{\"type\":\"count\",\"name\":\"n\"}],\"queryIntervals\":[\"2024-01-01/2024-01-02\",\"2030-01-01/2030-01-02\"],\"context\":7} = {\"aggregations\":[{\"name\":\"n\",\"type\":\"count\"}],\"dataSource\":\"w\",\"dimensions\":[{\"dimension\":\"d\",\"outputName\":\"d\",\"type\":\"default\"}],\"filter\":{\"dimension\":\"e\",\"type\":\"selector\",\"value\":null},\"granularity\":\"day\",\"intervals\":{\"segments\":[{\"chunk\":\"~\",\"itvl\":\"~\",\"part\":0,\"ver\":\"v\"}],\"type\":\"segments\"},\"queryIntervals\":[\"~\",\"2030-01-01T00:00:00.000Z/2030-01-02T00:00:00.000Z\"],\"queryType\":\"groupBy\"}";

const DAY: &str = "2024-01-01T00:00:00.000Z/2024-01-02T00:00:00.000Z";

const ONE: &str = "{\"chunk\":\"~\",\"itvl\":\"~\",\"part\":0,\"ver\":\"v\"}";

const FRONT: &str =
    "{\"aggregations\":[],\"dataSource\":\"w\",\"filter\":null,\"granularity\":\"all\",\"intervals\":{\"segments\":[";

const MIDDLE: &str = "],\"type\":\"segments\"},\"queryIntervals\":[";

const BACK: &str = "],\"queryType\":\"timeseries\"";

fn reported(rt: &impl Abort, alloc: Global, text: &str) -> String {
    match read_subquery(alloc, text.as_bytes()) {
        Ok(subquery) => subquery_text(alloc, &subquery).expect(rt, "memory"),
        Err(fault) => printed(rt, alloc, &fault),
    }
}

fn spelled(rt: &impl Abort, alloc: Global, text: &str) -> String {
    filled(rt, alloc, text, '~', DAY)
}

// A subquery for those pieces, with these intervals of its own.
fn asking(rt: &impl Abort, alloc: Global, pieces: &str, intervals: &str, back: &str) -> String {
    let text = format!(in alloc; "{FRONT}{pieces}{MIDDLE}{intervals}{BACK}{back}");
    spelled(rt, alloc, text.expect(rt, "memory").as_str())
}

// Whether a text is reported so: `taken`, where it is written as it stands, or its fault.
fn is_reported(rt: &impl Abort, alloc: Global, text: &str, wanted: &str) -> bool {
    let wanted = if wanted == "taken" { text } else { wanted };
    reported(rt, alloc, text).as_str() == wanted
}

fn are_pieces_reported(rt: &impl Abort, alloc: Global, row: &str) -> bool {
    let (pieces, wanted) = row.split_once(" = ").expect(rt, "a row");
    let pieces = if pieces == "#" { "" } else { pieces };
    let text = asking(rt, alloc, pieces, "\"~\"", "}");
    is_reported(rt, alloc, text.as_str(), wanted)
}

fn is_row_reported(rt: &impl Abort, alloc: Global, row: &str) -> bool {
    let (back, wanted) = row.split_once(" = ").expect(rt, "a row");
    let text = asking(rt, alloc, ONE, "\"~\"", back);
    let wanted = spelled(rt, alloc, wanted);
    is_reported(rt, alloc, text.as_str(), wanted.as_str())
}

// A piece of a segment of that partition.
fn numbered_piece(rt: &impl Abort, alloc: Global, partition: u64) -> String {
    format!(in alloc;
        "{{\"chunk\":\"~\",\"itvl\":\"~\",\"part\":{partition},\"ver\":\"v\"}}"
    ).expect(rt, "memory")
}

// That many pieces of segments that differ by their partitions.
fn numbered(rt: &impl Abort, alloc: Global, count: u64) -> String {
    let mut text = String::new(alloc);
    for place in 0..count {
        if place > 0 {
            text.push_str(",").expect(rt, "memory");
        }
        let piece = numbered_piece(rt, alloc, place);
        text.push_str(piece.as_str()).expect(rt, "memory");
    }
    text
}

fn intervals(rt: &impl Abort, alloc: Global, count: u64) -> String {
    let mut text = String::from_str(alloc, "\"~\"").expect(rt, "memory");
    for _ in 1..count {
        text.push_str(",\"~\"").expect(rt, "memory");
    }
    text
}

fn are_many_reported(
    rt: &impl Abort,
    alloc: Global,
    pieces: u64,
    back: &str,
    count: u64,
    wanted: &str,
) -> bool {
    let mut asked = numbered(rt, alloc, pieces);
    asked.push_str(back).expect(rt, "memory");
    let own = intervals(rt, alloc, count);
    let text = asking(rt, alloc, asked.as_str(), own.as_str(), "}");
    is_reported(rt, alloc, text.as_str(), wanted)
}

pub(crate) fn subquery(rt: &impl Abort, alloc: Global) -> SubQuery {
    let text = asking(rt, alloc, ONE, "\"~\"", "}");
    read_subquery(alloc, text.as_bytes()).expect(rt, "a subquery")
}

// Whether a subquery that is made of its parts is written as the same text, and its JSON is read again.
fn is_made_again(rt: &impl Abort, alloc: Global) -> bool {
    let first = subquery(rt, alloc);
    let value = subquery_value(alloc, &first).expect(rt, "memory");
    let again = subquery_of(alloc, &value).expect(rt, "a subquery");
    subquery_text(alloc, &again).expect(rt, "memory")
        == subquery_text(alloc, &first).expect(rt, "memory")
}

#[test]
fn subqueries(rt: HostRuntime) {
    for row in PIECES.lines() {
        assert!(rt; are_pieces_reported(&rt, rt.alloc(), row), "{row}");
    }
    for table in [REFUSED, WRITTEN] {
        for row in table.lines() {
            assert!(rt; is_row_reported(&rt, rt.alloc(), row), "{row}");
        }
    }
}

#[test]
fn refused_and_made_again(rt: HostRuntime) {
    assert!(rt; is_reported(&rt, rt.alloc(), "[", "Q1: not JSON"));
    assert!(rt; is_reported(&rt, rt.alloc(), "[]", "Q2: no query of a known type"));
    assert!(rt; is_made_again(&rt, rt.alloc()));
}

#[test]
fn limits(rt: HostRuntime) {
    // Pieces are not counted against the limit of intervals.
    assert!(rt; are_many_reported(&rt, rt.alloc(), 1_001, "", 1_000, "taken"));
    assert!(rt; are_many_reported(&rt, rt.alloc(), 1, "", 1_001, "Q5: a limit is passed"));
    let doubled = ",{\"chunk\":\"~\",\"itvl\":\"~\",\"part\":500,\"ver\":\"v\"}";
    assert!(rt;
        are_many_reported(
            &rt,
            rt.alloc(),
            1_001,
            doubled,
            1_001,
            "Q4: not an interval"
        )
    );
}
