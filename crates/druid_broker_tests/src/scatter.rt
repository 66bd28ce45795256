//! In which order replicas are asked, and how often.
ghost use Rattle.std.specs.Prelude.{◌≡◌, ◌≤◌, length};
ghost use Rattle.druid_broker_scatter.specs.Rounds.{AreLinked};

use crate::broker::{counted, query};
use crate::cluster::{
    Cluster, Failure, Handle, Server, Setup, followed, inventory, made_by_all, made_by_two, set,
    set_up,
};
use crate::follow::link;
use crate::published::SNAPSHOT;
use crate::tables::{assert_reported, halves};
use druid_broker_follow::fetch_entry;
use druid_broker_scatter::{Answer, Pick, Plan, Rotate, gather, plan};
use druid_inventory::Inventory;
use druid_inventory_views::Publication;
use druid_link::{Link, MemoryLink};
use druid_query::{Query, SegmentSlice};
use druid_query_text::read_query;
use druid_segment_descriptor::NodeNo;
use std::alloc::Global;
use std::marker::Brand;
use std::process::Abort;

// Asserts that nodes are in this order at a turn.
fn assert_rotated(rt: &impl Abort, alloc: Global, turn: u64, nodes: &[NodeNo], wanted: &[NodeNo]) {
    let mut nodes = nodes.to_vec(alloc).expect(rt, "memory");
    Rotate.order(turn, &mut nodes);
    assert!(rt; nodes.as_slice() == wanted, "at {turn}");
}

#[test]
fn rotation(rt: HostRuntime) {
    assert_rotated(&rt, rt.alloc(), 1, &[0, 2, 5], &[2, 5, 0]);
    assert_rotated(&rt, rt.alloc(), 3, &[0, 2, 5], &[0, 2, 5]);
    assert_rotated(&rt, rt.alloc(), u64::MAX, &[0, 2], &[2, 0]);
    assert_rotated(&rt, rt.alloc(), 7, &[], &[]);
}

// How many exchanges each link of two makes for a count at a turn.
fn made<R: Handle, J: Publication>(
    alloc: Global,
    cluster: &mut Cluster<R, J>,
    turn: u64,
) -> (u64, u64) {
    made_by_two(cluster);
    counted(alloc, cluster, turn);
    made_by_two(cluster)
}

// The same at the first two turns.
fn made_in_turn<R: Handle, J: Publication>(rt: R, alloc: Global, setup: Setup<R>) -> [(u64, u64); 2]
    requires book { setup.list ≡ J.book }
    requires opening { setup.inventory ≡ J.opening }
{
    let mut cluster: Cluster<R, J> = followed(rt, alloc, setup, 2);
    let first = made(alloc, &mut cluster, 0);
    [first, made(alloc, &mut cluster, 1)]
}

fn made_over<R: Handle>(rt: R, alloc: Global, nodes: &str) -> [(u64, u64); 2] {
    let setup = set_up(rt, alloc, nodes);
    made_in_turn::<R, Brand>(rt, alloc, setup)
}

// One request for each node and round, to the first of the turned replicas.
#[test]
fn one_request_a_round(rt: HostRuntime) {
    let replicas = "v1/0/24/0/1 d:m 0/a/1 | v1/0/24/0/1 d:m 0/a/1";
    assert!(rt; made_over(&rt, rt.alloc(), replicas) == [(1, 0), (0, 1)]);
    let parts = "v1/0/24/0/3 d:m 0/a/1 + v1/0/24/1/3 d:m 0/a/1 + v2/6/12/0/1 d:m | v1/0/24/2/3 d:m";
    assert!(rt; made_over(&rt, rt.alloc(), parts) == [(1, 1), (1, 1)]);
}

// Which of three replicas fail, marked by `!`, and how often each of them is asked for a count at the turns 0 to 5.
const IN_TURN: &str = "... = 1 0 0, 0 1 0, 0 0 1, 1 0 0, 0 1 0, 0 0 1
!.. = 1 1 0, 0 1 0, 0 0 1, 1 1 0, 0 1 0, 0 0 1
.!. = 1 0 0, 0 1 1, 0 0 1, 1 0 0, 0 1 1, 0 0 1
..! = 1 0 0, 0 1 0, 1 0 1, 1 0 0, 0 1 0, 1 0 1
!!. = 1 1 1, 0 1 1, 0 0 1, 1 1 1, 0 1 1, 0 0 1
.!! = 1 0 0, 1 1 1, 1 0 1, 1 0 0, 1 1 1, 1 0 1
!.! = 1 1 0, 0 1 0, 1 1 1, 1 1 0, 0 1 0, 1 1 1
!!! = 1 1 1, 1 1 1, 1 1 1, 1 1 1, 1 1 1, 1 1 1";

// How often each replica is asked at six turns.
fn asked_in_turn<R: Handle, J: Publication>(alloc: Global, cluster: &mut Cluster<R, J>) -> String {
    let rt = cluster.rt;
    let mut text = String::new(alloc);
    made_by_all(alloc, cluster);
    for turn in 0..6_u64 {
        counted(alloc, cluster, turn);
        let made = made_by_all(alloc, cluster);
        let between = if turn == 0 { "" } else { ", " };
        let one = format!(in alloc; "{between}{made}").expect(&rt, "memory");
        text.push_str(one.as_str()).expect(&rt, "memory");
    }
    text
}

// The same over these parts, of which the marked replicas fail.
fn asked_over<R: Handle, J: Publication>(
    rt: R,
    alloc: Global,
    setup: Setup<R>,
    marks: Vec<u8>,
) -> String
    requires book { setup.list ≡ J.book }
    requires opening { setup.inventory ≡ J.opening }
{
    let mut cluster: Cluster<R, J> = followed(rt, alloc, setup, 3);
    for (place, mark) in marks.iter().enumerate() {
        if *mark == b'!' {
            set(&mut cluster, place, Server::Failing(Failure::Connect));
        }
    }
    asked_in_turn(alloc, &mut cluster)
}

fn asked_of_three<R: Handle>(rt: R, alloc: Global, marks: &str) -> String {
    let one = "v1/0/24/0/1 d:m 0/a/1";
    let three = format!(in alloc; "{one} | {one} | {one}").expect(&rt, "memory");
    let setup = set_up(rt, alloc, three.as_str());
    let marks = marks.as_bytes().to_vec(alloc).expect(&rt, "memory");
    asked_over::<R, Brand>(rt, alloc, setup, marks)
}

#[test]
fn three_replicas(rt: HostRuntime) {
    for line in IN_TURN.lines() {
        let (marks, wanted) = halves(&rt, line, " = ");
        assert_reported(&rt, line, asked_of_three(&rt, rt.alloc(), marks), wanted);
    }
}

// The inventory once a node reported that it serves the only segment.
fn with_node(rt: &impl Abort, alloc: Global, inventory: &Inventory, node: NodeNo) -> Inventory {
    let mut peer = link(rt, alloc, SNAPSHOT);
    let reply = fetch_entry(alloc, &mut peer, node).expect(rt, "a reply");
    let (new, _) = inventory.apply(node, &reply).expect(rt, "a step");
    new
}

// An inventory of two nodes that serve it.
fn of_two(rt: &impl Abort, alloc: Global) -> Inventory {
    let first = with_node(rt, alloc, &inventory(rt, alloc, 2), 0);
    with_node(rt, alloc, &first, 1)
}

/// A count over a part of the day.
pub(crate) fn count(rt: &impl Abort, alloc: Global) -> Query {
    let text = query(
        rt,
        alloc,
        "@,\"intervals\":[\"2024-01-01T06:00/2024-01-01T12:00\"],\"aggregations\":[{\"type\":\"count\",\"name\":\"n\"}]}",
    );
    read_query(alloc, text.as_bytes()).expect(rt, "a query")
}

/// A piece: the identifier of its segment, and its interval.
pub(crate) fn piece_text(rt: &impl Abort, alloc: Global, slice: &SegmentSlice) -> String {
    let id = slice.id().text(alloc).expect(rt, "memory");
    let interval = slice.interval();
    format!(in alloc; "{id} {interval}").expect(rt, "memory")
}

/// The piece that a count asks for.
pub(crate) const PIECE: &str =
    "w_2024-01-01T00:00:00.000Z_2024-01-02T00:00:00.000Z_v1 2024-01-01T06:00:00.000Z/2024-01-01T12:00:00.000Z";

// A pair of a plan is the piece of the segment, on both nodes.
#[test]
fn planned(rt: HostRuntime) {
    let plan = plan(
        rt.alloc(),
        &of_two(&rt, rt.alloc()),
        &count(&rt, rt.alloc()),
    )
    .expect(&rt, "a plan");
    let pair = plan.pairs().first().expect(&rt, "a pair");
    assert!(rt; plan.pairs().len() == 1 && pair.nodes() == [0, 1].as_slice());
    assert_reported(
        &rt,
        "the piece",
        piece_text(&rt, rt.alloc(), pair.asked()),
        PIECE,
    );
}

// The plan of a query, whose nodes are below a count.
fn linked_plan(
    rt: &impl Abort,
    alloc: Global,
    inventory: &Inventory,
    query: &Query,
    count: usize,
) -> Plan
    requires { length inventory.now ≤ count }
    ensures { AreLinked count result }
{
    let Ok(plan) = plan(alloc, inventory, query) else {
        panic!(rt; "no plan");
    };
    plan
}

/// What is gathered over these links at a turn.
pub(crate) fn gathered<R: Handle, L: Link + Send>(
    rt: R,
    alloc: Global,
    inventory: &Inventory,
    query: &Query,
    turn: u64,
    links: &mut [L],
) -> Answer {
    if links.len() < inventory.node_count() as usize {
        panic!(rt; "fewer links than nodes");
    }
    let plan = linked_plan(&rt, alloc, inventory, query, links.len());
    gather(&rt, alloc, query, &plan, turn, &Rotate, links).expect(&rt, "an answer")
}

// The first of the pieces that are missing, or else the bucket and the number of the first group.
fn answer_text(rt: &impl Abort, alloc: Global, answer: &Answer) -> String {
    if let Some(piece) = answer.missing().first() {
        return piece_text(rt, alloc, piece);
    }
    let group = answer.partial().groups().first().expect(rt, "a group");
    let bucket = group.bucket();
    let number = group.numbers().first().expect(rt, "a number").unwrap_or(0);
    format!(in alloc; "{bucket} {number}").expect(rt, "memory")
}

/// What is gathered over two links, of which the second is asked first.
pub(crate) fn gather_text<R: Handle>(
    rt: R,
    alloc: Global,
    first: MemoryLink,
    second: MemoryLink,
) -> String {
    let mut links = vec![in alloc; first, second].expect(&rt, "memory");
    let inventory = of_two(&rt, alloc);
    let answer = gathered(rt, alloc, &inventory, &count(&rt, alloc), 1, &mut links);
    answer_text(&rt, alloc, &answer)
}

// What is gathered where two nodes answer so.
fn reported_of<R: Handle>(rt: R, alloc: Global, first: &str, second: &str) -> String {
    gather_text(rt, alloc, link(&rt, alloc, first), link(&rt, alloc, second))
}

// What two nodes answer, of which the second is asked first, and what is gathered.
const GATHERED: &str =
    "200 {\"missing\":[],\"rows\":[[1704088800000,[],[9]]]} | 200 {\"missing\":[],\"rows\":[[1704088800000,[],[7]]]} = 2024-01-01T06:00:00.000Z 7
 | 200 {\"missing\":[],\"rows\":[[1704088800000,[],[7]]]} = 2024-01-01T06:00:00.000Z 7
200 {\"missing\":[],\"rows\":[[1704088800000,[],[9]]]} |  = 2024-01-01T06:00:00.000Z 9
 |  = w_2024-01-01T00:00:00.000Z_2024-01-02T00:00:00.000Z_v1 2024-01-01T06:00:00.000Z/2024-01-01T12:00:00.000Z";

// Asserts that what is gathered is as a line says.
fn assert_gathered<R: Handle>(rt: R, alloc: Global, line: &str) {
    let (nodes, wanted) = halves(&rt, line, " = ");
    let (first, second) = halves(&rt, nodes, " | ");
    assert_reported(&rt, line, reported_of(rt, alloc, first, second), wanted);
}

#[test]
fn gathers(rt: HostRuntime) {
    for line in GATHERED.lines() {
        assert_gathered(&rt, rt.alloc(), line);
    }
}
