//! A query over two small nodes: no row counts twice.
ghost use Rattle.std.specs.Prelude.{◌≡◌, ℕ, List, map, length};
ghost use Rattle.druid_inventory.specs.Entry.{fresh};

use crate::query::ask_two;
use druid_http_wire::response_of;
use druid_inventory::Inventory;
use druid_inventory_views::Opened;
use druid_node::NodeState;
use druid_segment_descriptor::Descriptor;
use druid_segment_id::{Name, SegmentId, Version};
use druid_segment_rows::{Row, Schema, Segment};
use druid_time::{Instant, Interval};
use http::StatusCode;
use std::alloc::Global;
use std::marker::Brand;
use std::process::Abort;
use std::sync::Wait;
use std::thread::Threads;

const QUERY: &str =
    "{\"queryType\":\"timeseries\",\"dataSource\":\"w\",\"granularity\":\"all\",\"intervals\":\"2024-01-01/2024-01-02\",\"aggregations\":[{\"type\":\"count\",\"name\":\"n\"}]}";

const ROWS: &str = "[{\"result\":{\"n\":4},\"timestamp\":\"2024-01-01T00:00:00.000Z\"}]";

// An instant of the first day of 2024, by its milliseconds.
fn instant(rt: &impl Abort, ms: i64) -> Instant {
    let start = Instant::parse("2024-01-01").expect(rt, "a day").ms();
    Instant::new(start.saturating_add(ms)).expect(rt, "an instant")
}

// The name of a segment of the source `w`, by its version and the milliseconds of its chunk.
fn segment_id(rt: &impl Abort, alloc: Global, version: &str, start: i64, end: i64) -> SegmentId {
    let interval = Interval::new(instant(rt, start), instant(rt, end)).expect(rt, "an interval");
    let source = Name::new(alloc, "w").expect(rt, "a name");
    let version = Version::new(alloc, version).expect(rt, "a version");
    SegmentId::new(source, interval, version, 0)
}

// A segment with a row at each of these milliseconds of the day.
fn segment(rt: &impl Abort, alloc: Global, id: SegmentId, times: &[i64]) -> Segment {
    let descriptor = Descriptor::new(id, 1, 0).expect(rt, "a descriptor");
    let schema = Schema::new(Vec::new(alloc), Vec::new(alloc));
    let mut rows = Vec::new(alloc);
    for time in times {
        let row = Row::new(instant(rt, *time), Vec::new(alloc), Vec::new(alloc));
        rows.push(row).expect(rt, "memory");
    }
    Segment::new(alloc, descriptor, schema, rows).expect(rt, "a segment")
}

// A node that serves one segment.
fn node(rt: &impl Abort, alloc: Global, segment: Segment) -> NodeState {
    let mut state = NodeState::new(alloc, 1, 1000).expect(rt, "a node");
    state.load(segment).expect(rt, "a load");
    state
}

// A node with `v1` of the day.
pub(crate) fn left(rt: &impl Abort, alloc: Global) -> NodeState {
    let id = segment_id(rt, alloc, "v1", 0, 86_400_000);
    let times = [35_999_999, 36_000_000, 43_199_999, 43_200_000];
    node(rt, alloc, segment(rt, alloc, id, &times))
}

// A node with `v2` of two of its hours.
fn right(rt: &impl Abort, alloc: Global) -> NodeState {
    let id = segment_id(rt, alloc, "v2", 36_000_000, 43_200_000);
    node(rt, alloc, segment(rt, alloc, id, &[36_000_000, 43_199_999]))
}

// An inventory of two nodes, neither of which was synced.
pub(crate) fn inventory(rt: &impl Abort, alloc: Global) -> Inventory
    ensures { (names : List (List ℕ)) × (length names ≡ 2) × (result ≡ map fresh names) }
{
    let first = Name::new(alloc, "n0").expect(rt, "a name");
    let second = Name::new(alloc, "n1").expect(rt, "a name");
    let names = vec![in alloc; first, second].expect(rt, "memory");
    Inventory::new(alloc, names).expect(rt, "an inventory")
}

// What a broker over two nodes writes for a request.
fn asked<R: Threads + Wait + Sync + Copy + Drop>(
    rt: &R,
    alloc: Global,
    list: Opened,
    inventory: Inventory,
    left: NodeState,
    right: NodeState,
    request: &[u8],
) -> Option<Vec<u8>>
    requires { (names : List (List ℕ)) × (length names ≡ 2) × (inventory ≡ map fresh names) }
{
    ask_two::<Brand, R>(rt, alloc, list, inventory, left, right, request)
}

// The message that posts a query.
fn message(rt: &impl Abort, alloc: Global, query: &str) -> String {
    let length = query.len();
    format!(in alloc; "POST /druid/v2/ HTTP/1.1\r\nContent-Length: {length}\r\n\r\n{query}").expect(
        rt, "memory",
    )
}

// Whether these bytes are a response of status 200 with that body.
fn is_answer(bytes: &[u8], wanted: &[u8]) -> bool {
    match response_of(bytes) {
        Ok((status, body)) => status == StatusCode::OK && body == wanted,
        Err(_) => false,
    }
}

#[test]
fn no_row_counts_twice(rt: HostRuntime) {
    let alloc = rt.alloc();
    let written = asked(
        &rt,
        alloc,
        Opened::new(),
        inventory(&rt, alloc),
        left(&rt, alloc),
        right(&rt, alloc),
        message(&rt, alloc, QUERY).as_bytes(),
    )
    .expect(&rt, "an answer");
    assert!(rt; is_answer(&written, ROWS.as_bytes()), "another answer");
}
