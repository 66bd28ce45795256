//! Data nodes, and what they answer.
use crate::data::segment;
use crate::marks::{assert_call, begin, end};
use crate::texts::{subquery, text_of};
use crate::values::segment as segment_id;
use druid_folder::{Folder, StoreFault};
use druid_folder_store::MemoryFolder;
use druid_http_message::{Request, WireFault};
use druid_node::{DataNode, Incarnation, NodeFault, NodeState};
use druid_segment_descriptor::{Ask, Body, Mark, Reply};
use druid_segment_file::write_segment;
use druid_segment_id::SegmentId;
use druid_serve_base::Telemetry;
use druid_serve_node::{KnownFiles, Reporter, Watch};
use druid_telemetry_log::{Level, open};
use druid_telemetry_metrics::NodeMeter;
use http::Method;
use std::alloc::{AllocError, Global};
use std::process::Abort;
use std::sync::{Arc, Wait};
use std::thread::Threads;
use std::time::Clock;

// The incarnation of the nodes here.
struct First;

impl Incarnation for First {
    ghost number = { 1 };
}

/// The file of the segment.
pub(crate) const FILE: &str = "w_2024-01-01T00:00:00.000Z_2024-01-02T00:00:00.000Z_v1.seg";

// Whether a call moved the node to a count, or was refused memory and left it at the one before.
fn moves(reported: Result<(), NodeFault>, state: &NodeState, count: u64) -> bool {
    match reported {
        Ok(()) => state.mark() == Mark::new(1, count),
        Err(fault) => fault == NodeFault::Memory
            && state.mark() == Mark::new(1, count.saturating_sub(1)),
    }
}

fn edits(rt: &impl Abort, alloc: Global, state: &mut NodeState, id: &SegmentId) {
    let one = segment(rt, alloc);
    begin(rt, alloc);
    let reported = end(rt, alloc, state.load(one));
    assert_call(rt, "NodeState::load", moves(reported, state, 1));
    let _ = state.load(segment(rt, alloc));
    begin(rt, alloc);
    let reported = end(rt, alloc, state.drop_segment(id));
    assert_call(rt, "NodeState::drop_segment", moves(reported, state, 2));
    let _ = state.drop_segment(id);
    state.load(segment(rt, alloc)).expect(rt, "a load");
}

// Places a tombstone on a node without segments.
fn places(rt: &impl Abort, alloc: Global, state: &mut NodeState, id: &SegmentId) {
    let id = id.clone().expect(rt, "memory");
    begin(rt, alloc);
    let reported = end(rt, alloc, state.place_tombstone(id));
    assert_call(rt, "NodeState::place_tombstone", moves(reported, state, 1));
}

fn make_state(rt: &impl Abort, alloc: Global) {
    begin(rt, alloc);
    let made = end(rt, alloc, NodeState::new(alloc, 1, 2));
    assert_call(
        rt,
        "NodeState::new",
        match &made {
            Ok(state) => state.mark() == Mark::new(1, 0),
            Err(fault) => *fault == NodeFault::Memory,
        },
    );
}

// Whether a reply is the snapshot of one segment after three changes.
fn is_served(reply: &Reply) -> bool {
    match reply.body() {
        Body::Snapshot { at, segments } => *at == Mark::new(1, 3) && segments.as_slice().len() == 1,
        _ => false,
    }
}

fn answers(rt: &impl Abort, alloc: Global, state: &mut NodeState) {
    let sub = subquery(rt, alloc);
    begin(rt, alloc);
    let answer = end(rt, alloc, state.answer(&sub));
    assert_call(
        rt,
        "NodeState::answer",
        match &answer {
            Ok(answer) => answer.missing().is_empty() && answer.partial().groups().len() == 1,
            Err(fault) => *fault == NodeFault::Memory,
        },
    );
    begin(rt, alloc);
    let reply = end(rt, alloc, state.since(&Ask::Whole));
    assert_call(
        rt,
        "NodeState::since",
        match &reply {
            Ok(reply) => is_served(reply),
            Err(fault) => *fault == NodeFault::Memory,
        },
    );
    let target = text_of(rt, alloc, "/druid-internal/v1/segments");
    let request = Request::new(Method::GET, target, Vec::new(alloc));
    begin(rt, alloc);
    let response = end(rt, alloc, state.respond(&request));
    assert_call(
        rt,
        "NodeState::respond",
        match &response {
            Ok((status, _)) => status.as_u16() == 200,
            Err(fault) => *fault == NodeFault::Memory,
        },
    );
}

fn folder(rt: &impl Abort, alloc: Global) -> MemoryFolder {
    let mut bytes = Vec::new(alloc);
    write_segment(alloc, &segment(rt, alloc), &mut bytes).expect(rt, "a file");
    let mut folder = MemoryFolder::new(alloc);
    folder.write(FILE, &bytes).expect(rt, "memory");
    folder
}

// Whether a call moved a node to a count, or was refused memory.
fn is_seen(reported: Result<(), NodeFault>, seen: Mark, count: u64) -> bool {
    match reported {
        Ok(()) => seen == Mark::new(1, count),
        Err(fault) => fault == NodeFault::Memory && seen.count() < count,
    }
}

fn loads<R: Abort + Wait>(rt: &R, alloc: Global, node: &DataNode<First>, id: &SegmentId) {
    let mut seen = Mark::never();
    let mut folder = folder(rt, alloc);
    begin(rt, alloc);
    let reported = end(rt, alloc, node.load_file(rt, &mut folder, FILE, &mut seen));
    assert_call(rt, "DataNode::load_file", is_seen(reported, seen, 1));
    let _ = node.load_file(rt, &mut folder, FILE, &mut seen);
    begin(rt, alloc);
    let reported = end(rt, alloc, node.drop_segment(rt, id, &mut seen));
    assert_call(rt, "DataNode::drop_segment", is_seen(reported, seen, 2));
    let _ = node.drop_segment(rt, id, &mut seen);
    let id = id.clone().expect(rt, "memory");
    begin(rt, alloc);
    let reported = end(rt, alloc, node.place_tombstone(rt, id, &mut seen));
    assert_call(rt, "DataNode::place_tombstone", is_seen(reported, seen, 3));
}

fn serves<R: Abort + Wait + Threads>(rt: &R, alloc: Global, node: &DataNode<First>) {
    let mut written = Vec::with_capacity(alloc, 100_000).expect(rt, "memory");
    let mut seen = Mark::never();
    let mut reader = b"GET /druid-internal/v1/segments HTTP/1.1\r\n\r\n".as_slice();
    begin(rt, alloc);
    let reported = end(
        rt,
        alloc,
        node.serve_one(rt, &mut reader, &mut written, &mut seen),
    );
    let text = std::str::from_utf8(&written).expect(rt, "a text");
    assert_call(
        rt,
        "DataNode::serve_one",
        match reported {
            Ok(500) => text.ends_with("{\"error\":\"Memory\"}"),
            Ok(status) => status == 200 && text.ends_with("\"resetCounter\":false}"),
            Err(fault) => fault == NodeFault::Wire(WireFault::Memory) && text.is_empty(),
        },
    );
}

// Tries the file at a look, and at the next what memory was refused for.
fn tries<R: Abort + Wait + Clock>(
    rt: &R,
    alloc: Global,
    node: &DataNode<First>,
    folder: &mut MemoryFolder,
    watch: &mut Watch,
    reporter: &mut Reporter,
) {
    let names = vec![in alloc; text_of(rt, alloc, FILE)].expect(rt, "memory");
    begin(rt, alloc);
    let tried = end(
        rt,
        alloc,
        watch.try_due(rt, node, folder, 1, &names, reporter),
    );
    let seen = watch.seen();
    let again = watch.try_due(rt, node, folder, 2, &names, reporter);
    assert_call(
        rt,
        "Watch::try_due",
        again.is_ok()
            && watch.seen() == Mark::new(1, 1)
            && match tried {
                Ok(()) => seen == Mark::new(1, 0) || seen == Mark::new(1, 1),
                Err(AllocError) => seen == Mark::new(1, 0),
            },
    );
}

// Looks, and once more, which does what memory was refused for: then the node is at that count.
fn look_at<R: Abort + Wait + Clock>(
    rt: &R,
    alloc: Global,
    node: &DataNode<First>,
    folder: &mut MemoryFolder,
    watch: &mut Watch,
    reporter: &mut Reporter,
    look: u64,
    count: u64,
) {
    let before = watch.seen();
    begin(rt, alloc);
    let looked = end(
        rt,
        alloc,
        watch.look(rt, alloc, node, folder, look, reporter),
    );
    let seen = watch.seen();
    let again = watch.look(rt, alloc, node, folder, look.saturating_add(1), reporter);
    assert_call(
        rt,
        "Watch::look",
        again.is_ok()
            && watch.seen() == Mark::new(1, count)
            && match looked {
                Ok(()) => seen == before || seen == Mark::new(1, count),
                Err(fault) => fault == StoreFault::Memory && seen == before,
            },
    );
}

// A reporter of a node, whose log is quiet.
fn reporter(rt: &impl Abort, alloc: Global) -> Reporter {
    let (log, _lines) = open(alloc, Level::Off).expect(rt, "memory");
    let log = Arc::new(alloc, log).expect(rt, "memory");
    let telemetry = Telemetry::new(alloc, "n0", &log).expect(rt, "memory");
    let meter = NodeMeter::new(alloc).expect(rt, "memory");
    let meter = Arc::new(alloc, meter).expect(rt, "memory");
    Reporter::new(alloc, telemetry, &meter).expect(rt, "memory")
}

// The file is there, is gone, and is there again.
fn looks<R: Abort + Wait + Clock>(rt: &R, alloc: Global, node: &DataNode<First>) {
    let mut folder = folder(rt, alloc);
    let mut watch = Watch::new(KnownFiles::new(alloc), Mark::new(1, 0));
    let mut reporter = reporter(rt, alloc);
    tries(rt, alloc, node, &mut folder, &mut watch, &mut reporter);
    folder.remove(FILE).expect(rt, "memory");
    look_at(
        rt,
        alloc,
        node,
        &mut folder,
        &mut watch,
        &mut reporter,
        3,
        2,
    );
    look_at(
        rt,
        alloc,
        node,
        &mut self::folder(rt, alloc),
        &mut watch,
        &mut reporter,
        5,
        3,
    );
}

fn of_state(rt: &impl Abort, alloc: Global, id: &SegmentId) {
    let mut state = NodeState::new(alloc, 1, 5).expect(rt, "a node");
    edits(rt, alloc, &mut state, id);
    answers(rt, alloc, &mut state);
    let mut state = NodeState::new(alloc, 1, 5).expect(rt, "a node");
    places(rt, alloc, &mut state, id);
}

#[test]
fn of_states(rt: HostRuntime) {
    make_state(&rt, rt.alloc());
    of_state(&rt, rt.alloc(), &segment_id(&rt, rt.alloc(), "v1", 0));
}

#[test]
fn of_nodes(rt: HostRuntime) {
    let state = NodeState::new(rt.alloc(), 1, 5).expect(&rt, "a node");
    let node = DataNode::new(state, 1);
    loads(
        &rt,
        rt.alloc(),
        &node,
        &segment_id(&rt, rt.alloc(), "v1", 0),
    );
    serves(&rt, rt.alloc(), &node);
}

#[test]
fn of_looks(rt: HostRuntime) {
    let state = NodeState::new(rt.alloc(), 1, 5).expect(&rt, "a node");
    looks(&rt, rt.alloc(), &DataNode::new(state, 1));
}
