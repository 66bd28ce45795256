//! Parts of queries, copies, and faults as they are printed.
use crate::printed::assert_prints;
use druid_query::{Aggregator, AggregatorKind, Dimension, QueryFault};
use druid_query_text::{query_text, read_query};
use std::alloc::Global;
use std::process::Abort;

const QUERY: &str =
    "{\"aggregations\":[],\"dataSource\":\"w\",\"filter\":null,\"granularity\":\"all\",\"intervals\":[\"2024-01-01T00:00:00.000Z/2024-01-02T00:00:00.000Z\"],\"queryType\":\"timeseries\"}";

fn assert_parts(rt: &impl Abort, alloc: Global) {
    let dimension = Dimension::new(alloc, "page", "p").expect(rt, "memory");
    assert!(rt; dimension.dimension() == "page" && dimension.output_name() == "p");
    let kind = AggregatorKind::LongMax;
    let greatest = Aggregator::new(alloc, "g", kind, Some("f")).expect(rt, "memory");
    assert!(rt; greatest.name() == "g" && greatest.field() == Some("f"));
}

// A copy of a query is written as the query is.
fn assert_copied(rt: &impl Abort, alloc: Global) {
    let query = read_query(alloc, QUERY.as_bytes()).expect(rt, "a query");
    let copy = query.clone().expect(rt, "memory");
    let text = query_text(alloc, &copy).expect(rt, "memory");
    assert!(rt; text.as_str() == QUERY, "{text}");
}

#[test]
fn parts_and_copies(rt: HostRuntime) {
    assert_parts(&rt, rt.alloc());
    assert_copied(&rt, rt.alloc());
}

const WANT_OF_MEMORY: [(QueryFault, &str); 1] = [(QueryFault::Memory, "Q9: out of memory")];

#[test]
fn want_of_memory_prints_this(rt: HostRuntime) {
    assert_prints(&rt, rt.alloc(), &WANT_OF_MEMORY);
}
