//! Plans, what is gathered, turns, and what a broker answers.
ghost use Rattle.std.specs.Prelude.{◌≡◌, ◌≤◌, IsTrue, length};
ghost use Rattle.druid_broker_scatter.specs.Rounds.{AreLinked};

use crate::marks::{assert_call, begin, end};
use crate::replies::{inventory, is_at, is_reply};
use crate::values::segment;
use druid_broker::{Routes, serve_one};
use druid_broker_follow::{TurnFault, fetch, fetch_entry, seed_turn, shared_turn, sync_turn};
use druid_broker_scatter::{GatherFault, Plan, Rotate, gather, plan};
use druid_http_message::WireFault;
use druid_http_wire::response_of;
use druid_inventory::{Inventory, Outcome};
use druid_inventory_views::{Opened, Publication, Publisher, Receipt, View, open};
use druid_link::{Link, MemoryLink};
use druid_query::Query;
use druid_query_text::read_query;
use druid_segment_descriptor::{Descriptor, Mark, Reply};
use std::alloc::Global;
use std::marker::Brand;
use std::process::Abort;
use std::sync::{Mutex, Wait};
use std::thread::Threads;

/// What brokers do with the handle.
pub(crate) trait Handle: Abort + Wait + Threads + Copy + Drop + Send + Sync {}

impl<R: Abort + Wait + Threads + Copy + Drop + Send + Sync> Handle for R {}

const QUERY: &str =
    "{\"queryType\":\"timeseries\",\"dataSource\":\"w\",\"granularity\":\"all\",\"intervals\":\"2024-01-01/2024-01-02\",\"aggregations\":[{\"type\":\"count\",\"name\":\"n\"}]}";

const ANSWER: &str = "{\"missing\":[],\"rows\":[[1704067200000,[],[3]]]}";

// A reply of a node that serves the first partition of `v1`, and has done so many changes.
const REPLY: &str =
    "{\"counter\":{\"counter\":~,\"hash\":1},\"from\":null,\"requests\":[{\"action\":\"load\",\"dataSource\":\"w\",\"interval\":\"2024-01-01/2024-01-02\",\"shardSpec\":{\"partitionNum\":0,\"partitions\":1,\"type\":\"numbered\"},\"size\":0,\"version\":\"v1\"}],\"resetCause\":null,\"resetCounter\":false}";

// The reply of count 2 as it is written.
const ANSWERED: &[u8] =
    b"{\"counter\":{\"counter\":2,\"hash\":1},\"from\":null,\"requests\":[{\"action\":\"load\",\"dataSource\":\"w\",\"interval\":\"2024-01-01T00:00:00.000Z/2024-01-02T00:00:00.000Z\",\"shardSpec\":{\"partitionNum\":0,\"partitions\":1,\"type\":\"numbered\"},\"size\":0,\"version\":\"v1\"}],\"resetCause\":null,\"resetCounter\":false}";

// A link that gives one response of status 200.
fn link(rt: &impl Abort, alloc: Global, body: &str) -> MemoryLink {
    let length = body.len();
    let text = format!(in alloc; "HTTP/1.1 200 OK\r\nContent-Length: {length}\r\n\r\n{body}");
    let bytes = text.expect(rt, "memory").into_bytes();
    MemoryLink::new(vec![in alloc; bytes].expect(rt, "memory"), 64)
}

// A link to such a node.
fn node_link(rt: &impl Abort, alloc: Global, count: &str) -> MemoryLink {
    let body = REPLY.replace(alloc, "~", count).expect(rt, "memory");
    link(rt, alloc, body.as_str())
}

fn query(rt: &impl Abort, alloc: Global) -> Query {
    read_query(alloc, QUERY.as_bytes()).expect(rt, "a query")
}

// An inventory of one node that serves a segment.
fn serving(rt: &impl Abort, alloc: Global) -> Inventory {
    let one = Descriptor::new(segment(rt, alloc, "v1", 0), 1, 0).expect(rt, "a descriptor");
    let segments = vec![in alloc; one].expect(rt, "memory");
    let reply = Reply::snapshot(Mark::new(1, 1), segments).expect(rt, "a snapshot");
    let (new, _) = inventory(rt, alloc).apply(0, &reply).expect(rt, "a step");
    new
}

fn plans(rt: &impl Abort, alloc: Global, inventory: &Inventory, query: &Query) {
    begin(rt, alloc);
    let made = end(rt, alloc, plan(alloc, inventory, query));
    assert_call(
        rt,
        "plan",
        match &made {
            Ok(plan) => plan.pairs().len() == 1,
            Err(fault) => *fault == GatherFault::Memory,
        },
    );
}

// The plan of a query, whose nodes are below a count.
fn linked_plan(
    rt: &impl Abort,
    alloc: Global,
    inventory: &Inventory,
    query: &Query,
    count: usize,
) -> Plan
    requires { length inventory.now ≤ count }
    ensures { AreLinked count result }
{
    let Ok(plan) = plan(alloc, inventory, query) else {
        panic!(rt; "no plan");
    };
    plan
}

fn gathers<R: Handle, L: Link + Send>(
    rt: R,
    alloc: Global,
    inventory: &Inventory,
    query: &Query,
    links: &mut [L],
) {
    if links.len() < inventory.node_count() as usize {
        panic!(rt; "fewer links than nodes");
    }
    let plan = linked_plan(&rt, alloc, inventory, query, links.len());
    begin(&rt, alloc);
    let answer = end(
        &rt,
        alloc,
        gather(&rt, alloc, query, &plan, 0, &Rotate, links),
    );
    assert_call(
        &rt,
        "gather",
        match &answer {
            Ok(answer) => answer.missing().is_empty() && answer.partial().groups().len() == 1,
            Err(fault) => *fault == GatherFault::Memory,
        },
    );
}

fn fetches(rt: &impl Abort, alloc: Global, inventory: &Inventory) {
    if inventory.node_count() == 0 {
        panic!(rt; "no node");
    }
    let mut node = node_link(rt, alloc, "2");
    begin(rt, alloc);
    let reply = end(rt, alloc, fetch(alloc, inventory, 0, &mut node));
    assert_call(
        rt,
        "fetch",
        match &reply {
            Ok(reply) => is_reply(rt, alloc, reply, ANSWERED),
            Err(fault) => *fault == TurnFault::Memory,
        },
    );
    let mut peer = node_link(rt, alloc, "2");
    begin(rt, alloc);
    let reply = end(rt, alloc, fetch_entry(alloc, &mut peer, 0));
    assert_call(
        rt,
        "fetch_entry",
        match &reply {
            Ok(reply) => is_reply(rt, alloc, reply, ANSWERED),
            Err(fault) => *fault == TurnFault::Memory,
        },
    );
}

// Whether a turn moved the node to a count, or was refused memory and left it at the one before.
fn moves<R: Handle, J: Publication>(
    reported: &Result<(Outcome, Receipt<J>), TurnFault>,
    publisher: &Publisher<J, R>,
    count: u64,
) -> bool {
    match reported {
        Ok((outcome, _)) => *outcome == Outcome::Moved && is_at(publisher.inventory(), count),
        Err(fault) => *fault == TurnFault::Memory
            && is_at(publisher.inventory(), count.saturating_sub(1)),
    }
}

fn syncs<R: Handle, J: Publication>(rt: R, alloc: Global, publisher: &mut Publisher<J, R>) {
    if publisher.inventory().node_count() == 0 {
        panic!(rt; "no node");
    }
    let mut node = node_link(&rt, alloc, "1");
    begin(&rt, alloc);
    let reported = end(&rt, alloc, sync_turn(alloc, 0, &mut node, publisher));
    assert_call(&rt, "sync_turn", moves(&reported, publisher, 1));
}

fn seeds<R: Handle, J: Publication>(rt: R, alloc: Global, publisher: &mut Publisher<J, R>) {
    if publisher.inventory().node_count() == 0 {
        panic!(rt; "no node");
    }
    let mut first = node_link(&rt, alloc, "1");
    let _ = sync_turn(alloc, 0, &mut first, publisher);
    let mut peer = node_link(&rt, alloc, "2");
    begin(&rt, alloc);
    let reported = end(&rt, alloc, seed_turn(alloc, 0, &mut peer, publisher));
    assert_call(&rt, "seed_turn", moves(&reported, publisher, 2));
}

fn turns_of_broker<R: Handle, J: Publication>(
    rt: R,
    alloc: Global,
    list: Opened,
    inventory: Inventory,
)
    requires book { list ≡ J.book }
    requires opening { inventory ≡ J.opening }
{
    let (mut publisher, mut views) = open::<J, R>(alloc, rt, list, inventory, 1).expect(
        &rt, "memory",
    );
    let mut view = views.pop().expect(&rt, "a view");
    syncs(rt, alloc, &mut publisher);
    seeds(rt, alloc, &mut publisher);
    // Views read as long as the publisher is there.
    let publisher = Mutex::new(publisher);
    shares(rt, alloc, &publisher, &mut view);
    serves(rt, alloc, &mut view);
    drop(publisher);
}

// Whether there are so many nodes that a view reads of.
#[tactic(auto, using(druid_inventory::proofs::JoinLemmas::fewer_names))]
fn reaches<J: Publication>(view: &mut View<J>, links: usize) -> bool
    ensures linked { IsTrue result → length J.opening ≤ links }
    ensures some { IsTrue result → 1 ≤ length J.opening }
{
    let Ok(found) = view.read() else {
        return false;
    };
    if links < found.node_count() as usize || found.node_count() == 0 {
        return false;
    }
    true
}

fn shares<R: Handle, J: Publication>(
    rt: R,
    alloc: Global,
    publisher: &Mutex<Publisher<J, R>>,
    view: &mut View<J>,
) {
    if !reaches(view, 1) {
        panic!(rt; "no node");
    }
    let mut node = node_link(&rt, alloc, "3");
    begin(&rt, alloc);
    let reported = end(
        &rt,
        alloc,
        shared_turn(&rt, alloc, 0, view, &mut node, publisher),
    );
    assert_call(
        &rt,
        "shared_turn",
        match &reported {
            Ok(outcome) => *outcome == Outcome::Moved,
            Err(fault) => *fault == TurnFault::Memory,
        },
    );
}

// Whether a broker answered, or wrote that it had no memory, or wrote nothing since it had none to read the request.
fn is_served(reported: Result<u16, WireFault>, written: &[u8]) -> bool {
    match reported {
        Ok(code) => match response_of(written) {
            Ok((_, body)) => code == 200
                || code == 500 && body == b"{\"error\":\"Memory\"}".as_slice(),
            Err(_) => false,
        },
        Err(fault) => fault == WireFault::Memory && written.is_empty(),
    }
}

fn serves<R: Handle, J: Publication>(rt: R, alloc: Global, view: &mut View<J>) {
    let length = QUERY.len();
    let message = format!(in alloc;
        "POST /druid/v2/ HTTP/1.1\r\nContent-Length: {length}\r\n\r\n{QUERY}"
    );
    let message = message.expect(&rt, "memory");
    let mut links = vec![in alloc; link(&rt, alloc, ANSWER)].expect(&rt, "memory");
    let routes = Routes::new(alloc).expect(&rt, "memory");
    let mut written = Vec::with_capacity(alloc, 10_000).expect(&rt, "memory");
    if !reaches(view, links.len()) {
        panic!(rt; "fewer links than nodes");
    }
    let mut reader = message.as_bytes();
    begin(&rt, alloc);
    let reported = serve_one(
        &rt,
        alloc,
        &routes,
        &mut reader,
        &mut written,
        view,
        0,
        &Rotate,
        &mut links,
    );
    let reported = end(&rt, alloc, reported);
    assert_call(&rt, "serve_one", is_served(reported, &written));
}

fn of_broker<R: Handle>(rt: R, alloc: Global) {
    let inventory = inventory(&rt, alloc);
    turns_of_broker::<R, Brand>(rt, alloc, Opened::new(), inventory);
}

#[test]
fn of_plans(rt: HostRuntime) {
    let (inventory, query) = (serving(&rt, rt.alloc()), query(&rt, rt.alloc()));
    plans(&rt, rt.alloc(), &inventory, &query);
    let mut links = vec![in rt.alloc(); link(&rt, rt.alloc(), ANSWER)].expect(&rt, "memory");
    gathers(&rt, rt.alloc(), &inventory, &query, &mut links);
    fetches(&rt, rt.alloc(), &inventory);
}

#[test]
fn of_turns(rt: HostRuntime) {
    of_broker(&rt, rt.alloc());
}
