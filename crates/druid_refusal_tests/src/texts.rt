//! Queries, subqueries and answers of nodes, and their texts.
use crate::marks::{assert_call, begin, copy_of, end};
use druid_http_wire::Response;
use druid_partial::Partial;
use druid_partial_text::{
    NodeAnswer, PartialFault, answer_of, node_answer_text, read_node_answer, read_partial,
};
use druid_query::{Aggregator, AggregatorKind, Dimension, Query, QueryFault, SubQuery};
use druid_query_context::timeout_of;
use druid_query_slice_text::{asked_value, asked_values, read_asked};
use druid_query_text::{
    query_of, query_text, query_value, read_query, read_subquery, subquery_of, subquery_text,
    subquery_value,
};
use http::StatusCode;
use serde_json::Value;
use std::alloc::{AllocError, Global};
use std::process::Abort;

/// A text of one's own.
pub(crate) fn text_of(rt: &impl Abort, alloc: Global, text: &str) -> String {
    String::from_str(alloc, text).expect(rt, "memory")
}

const QUERY: &str =
    "{\"aggregations\":[{\"name\":\"n\",\"type\":\"count\"},{\"fieldName\":\"m\",\"name\":\"s\",\"type\":\"longSum\"}],\"dataSource\":\"w\",\"dimensions\":[{\"dimension\":\"d\",\"outputName\":\"d\",\"type\":\"default\"}],\"filter\":{\"field\":{\"fields\":[{\"dimension\":\"d\",\"type\":\"in\",\"values\":[\"x\",null]},{\"dimension\":\"e\",\"type\":\"selector\",\"value\":\"y\"}],\"type\":\"or\"},\"type\":\"not\"},\"granularity\":\"all\",\"intervals\":[\"2024-01-01T00:00:00.000Z/2024-01-02T00:00:00.000Z\"],\"queryType\":\"groupBy\"}";

const SUBQUERY: &str =
    "{\"queryType\":\"timeseries\",\"dataSource\":\"w\",\"granularity\":\"all\",\"intervals\":{\"type\":\"segments\",\"segments\":[{\"chunk\":\"2024-01-01/2024-01-02\",\"itvl\":\"2024-01-01/2024-01-01T12:00\",\"part\":0,\"ver\":\"v1\"},{\"chunk\":\"2024-01-01/2024-01-02\",\"itvl\":\"2024-01-01T13:00/2024-01-02\",\"part\":0,\"ver\":\"v1\"}]},\"queryIntervals\":[\"2024-01-01/2024-01-02\"],\"aggregations\":[{\"type\":\"count\",\"name\":\"n\"}]}";

// The subquery as it is written.
const SUBQUERY_TEXT: &str =
    "{\"aggregations\":[{\"name\":\"n\",\"type\":\"count\"}],\"dataSource\":\"w\",\"filter\":null,\"granularity\":\"all\",\"intervals\":{\"segments\":[{\"chunk\":\"2024-01-01T00:00:00.000Z/2024-01-02T00:00:00.000Z\",\"itvl\":\"2024-01-01T00:00:00.000Z/2024-01-01T12:00:00.000Z\",\"part\":0,\"ver\":\"v1\"},{\"chunk\":\"2024-01-01T00:00:00.000Z/2024-01-02T00:00:00.000Z\",\"itvl\":\"2024-01-01T13:00:00.000Z/2024-01-02T00:00:00.000Z\",\"part\":0,\"ver\":\"v1\"}],\"type\":\"segments\"},\"queryIntervals\":[\"2024-01-01T00:00:00.000Z/2024-01-02T00:00:00.000Z\"],\"queryType\":\"timeseries\"}";

// Its first piece as it is written.
const ASKED_TEXT: &str =
    "{\"chunk\":\"2024-01-01T00:00:00.000Z/2024-01-02T00:00:00.000Z\",\"itvl\":\"2024-01-01T00:00:00.000Z/2024-01-01T12:00:00.000Z\",\"part\":0,\"ver\":\"v1\"}";

const ANSWER: &str =
    "{\"missing\":[{\"chunk\":\"2024-01-01T00:00:00.000Z/2024-01-02T00:00:00.000Z\",\"itvl\":\"2024-01-01T13:00:00.000Z/2024-01-02T00:00:00.000Z\",\"part\":0,\"ver\":\"v1\"}],\"rows\":[[1704067200000,[],[3]]]}";

/// A query for the rows of each value of `d`.
pub(crate) fn asked_query(rt: &impl Abort, alloc: Global) -> Query {
    read_query(alloc, QUERY.as_bytes()).expect(rt, "a query")
}

/// A subquery for two pieces of a segment.
pub(crate) fn subquery(rt: &impl Abort, alloc: Global) -> SubQuery {
    read_subquery(alloc, SUBQUERY.as_bytes()).expect(rt, "a subquery")
}

fn value(rt: &impl Abort, alloc: Global, text: &str) -> Value {
    Value::from_str(alloc, text).expect(rt, "JSON")
}

/// Whether a value, where there is one, prints as this text.
pub(crate) fn prints(
    rt: &impl Abort,
    alloc: Global,
    value: &Result<Value, AllocError>,
    text: &str,
) -> bool {
    match value {
        Ok(value) => value.to_string(alloc).expect(rt, "memory").as_str() == text,
        Err(_) => true,
    }
}

fn parts(rt: &impl Abort, alloc: Global) {
    begin(rt, alloc);
    let made = end(rt, alloc, Dimension::new(alloc, "page", "p"));
    assert_call(
        rt,
        "Dimension::new",
        match &made {
            Ok(made) => made.output_name() == "p",
            Err(_) => true,
        },
    );
    begin(rt, alloc);
    let made = end(
        rt,
        alloc,
        Aggregator::new(alloc, "g", AggregatorKind::LongMax, Some("f")),
    );
    assert_call(
        rt,
        "Aggregator::new",
        match &made {
            Ok(made) => made.field() == Some("f"),
            Err(_) => true,
        },
    );
    begin(rt, alloc);
    let made = end(
        rt,
        alloc,
        Response::of_field(alloc, StatusCode::BAD_REQUEST, "Q3", "filter"),
    );
    assert_call(
        rt,
        "Response::of_field",
        match &made {
            Ok(made) => made.status() == StatusCode::BAD_REQUEST,
            Err(_) => true,
        },
    );
}

fn queries_read(rt: &impl Abort, alloc: Global, value: &Value) {
    begin(rt, alloc);
    let read = end(rt, alloc, query_of(alloc, value));
    assert_call(
        rt,
        "query_of",
        match &read {
            Ok(query) => query.dimensions().len() == 1,
            Err(fault) => *fault == QueryFault::Memory,
        },
    );
    begin(rt, alloc);
    let read = end(rt, alloc, read_query(alloc, QUERY.as_bytes()));
    assert_call(
        rt,
        "read_query",
        match &read {
            Ok(query) => query.dimensions().len() == 1,
            Err(fault) => *fault == QueryFault::Memory,
        },
    );
}

fn queries_written(rt: &impl Abort, alloc: Global, query: &Query) {
    let copy = copy_of(rt, alloc, query);
    assert_call(
        rt,
        "Query::clone",
        match &copy {
            Ok(copy) => copy.aggregations().len() == 2,
            Err(_) => query.aggregations().len() == 2,
        },
    );
    begin(rt, alloc);
    let text = end(rt, alloc, query_text(alloc, query));
    assert_call(
        rt,
        "query_text",
        match &text {
            Ok(text) => text.as_str() == QUERY,
            Err(_) => true,
        },
    );
    begin(rt, alloc);
    let value = end(rt, alloc, query_value(alloc, query));
    assert_call(rt, "query_value", prints(rt, alloc, &value, QUERY));
}

fn subqueries_read(rt: &impl Abort, alloc: Global, value: &Value) {
    begin(rt, alloc);
    let read = end(rt, alloc, subquery_of(alloc, value));
    assert_call(
        rt,
        "subquery_of",
        match &read {
            Ok(sub) => sub.asked().len() == 2,
            Err(fault) => *fault == QueryFault::Memory,
        },
    );
    begin(rt, alloc);
    let read = end(rt, alloc, read_subquery(alloc, SUBQUERY.as_bytes()));
    assert_call(
        rt,
        "read_subquery",
        match &read {
            Ok(sub) => sub.asked().len() == 2,
            Err(fault) => *fault == QueryFault::Memory,
        },
    );
}

fn subqueries_written(rt: &impl Abort, alloc: Global, sub: &SubQuery) {
    begin(rt, alloc);
    let text = end(rt, alloc, subquery_text(alloc, sub));
    assert_call(
        rt,
        "subquery_text",
        match &text {
            Ok(text) => text.as_str() == SUBQUERY_TEXT,
            Err(_) => true,
        },
    );
    begin(rt, alloc);
    let value = end(rt, alloc, subquery_value(alloc, sub));
    assert_call(
        rt,
        "subquery_value",
        prints(rt, alloc, &value, SUBQUERY_TEXT),
    );
    begin(rt, alloc);
    let values = end(rt, alloc, asked_values(alloc, sub.asked()));
    assert_call(
        rt,
        "asked_values",
        match &values {
            Ok(values) => values.len() == 2,
            Err(_) => sub.asked().len() == 2,
        },
    );
}

fn pieces(rt: &impl Abort, alloc: Global, sub: &SubQuery) {
    let Some(asked) = sub.asked().first() else {
        return;
    };
    let copy = copy_of(rt, alloc, asked);
    assert_call(
        rt,
        "SegmentSlice::clone",
        match &copy {
            Ok(copy) => *copy == *asked,
            Err(_) => true,
        },
    );
    begin(rt, alloc);
    let value = end(rt, alloc, asked_value(alloc, asked));
    assert_call(rt, "asked_value", prints(rt, alloc, &value, ASKED_TEXT));
    let value = asked_value(alloc, asked).expect(rt, "memory");
    begin(rt, alloc);
    let read = end(rt, alloc, read_asked(alloc, sub.query().source(), &value));
    assert_call(
        rt,
        "read_asked",
        match &read {
            Ok(read) => read.is_some(),
            Err(_) => true,
        },
    );
}

fn answers_read(rt: &impl Abort, alloc: Global, sub: &SubQuery, value: &Value) {
    begin(rt, alloc);
    let read = end(rt, alloc, answer_of(alloc, sub, value));
    assert_call(
        rt,
        "answer_of",
        match &read {
            Ok(answer) => answer.missing().len() == 1,
            Err(fault) => *fault == PartialFault::Memory,
        },
    );
    begin(rt, alloc);
    let read = end(rt, alloc, read_node_answer(alloc, sub, ANSWER.as_bytes()));
    assert_call(
        rt,
        "read_node_answer",
        match &read {
            Ok(answer) => answer.missing().len() == 1,
            Err(fault) => *fault == PartialFault::Memory,
        },
    );
}

fn partials_read(rt: &impl Abort, alloc: Global, sub: &SubQuery, answer: &NodeAnswer) {
    let rows = value(rt, alloc, "[[1704067200000,[],[3]]]");
    begin(rt, alloc);
    let read: Result<Partial, PartialFault> = end(
        rt,
        alloc,
        read_partial(alloc, sub.query(), &rows),
    );
    assert_call(
        rt,
        "read_partial",
        match &read {
            Ok(partial) => partial.groups().len() == 1,
            Err(fault) => *fault == PartialFault::Memory,
        },
    );
    begin(rt, alloc);
    let text = end(rt, alloc, node_answer_text(alloc, answer));
    assert_call(
        rt,
        "node_answer_text",
        match &text {
            Ok(text) => text.as_str() == ANSWER,
            Err(_) => answer.missing().len() == 1,
        },
    );
}

fn contexts(rt: &impl Abort, alloc: Global) {
    begin(rt, alloc);
    let timeout = end(
        rt,
        alloc,
        timeout_of(alloc, b"{\"context\":{\"timeout\":250}}"),
    );
    assert_call(
        rt,
        "timeout_of",
        match timeout {
            Ok(timeout) => timeout == Some(250),
            Err(AllocError) => true,
        },
    );
}

#[test]
fn of_queries(rt: HostRuntime) {
    contexts(&rt, rt.alloc());
    parts(&rt, rt.alloc());
    queries_read(&rt, rt.alloc(), &value(&rt, rt.alloc(), QUERY));
    queries_written(&rt, rt.alloc(), &asked_query(&rt, rt.alloc()));
}

#[test]
fn of_subqueries(rt: HostRuntime) {
    let sub = subquery(&rt, rt.alloc());
    subqueries_read(&rt, rt.alloc(), &value(&rt, rt.alloc(), SUBQUERY));
    subqueries_written(&rt, rt.alloc(), &sub);
    pieces(&rt, rt.alloc(), &sub);
}

#[test]
fn of_answers(rt: HostRuntime) {
    let sub = subquery(&rt, rt.alloc());
    answers_read(&rt, rt.alloc(), &sub, &value(&rt, rt.alloc(), ANSWER));
    let answer = read_node_answer(rt.alloc(), &sub, ANSWER.as_bytes()).expect(&rt, "an answer");
    partials_read(&rt, rt.alloc(), &sub, &answer);
}
