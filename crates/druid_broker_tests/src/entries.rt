//! Turns of one node among three: each moves the entry of its own node alone, and what a plain list has of the other nodes stays.
ghost use Rattle.std.specs.Prelude.{◌≡◌};

use crate::cluster::{Handle, inventory};
use crate::follow::{link, mark_text, outcome_of};
use crate::hostile_turns::whole_line;
use crate::tables::{all_replaced, assert_reported, halves, printed};
use crate::turns::has_node;
use druid_broker_follow::{Unobserved, observed_turn, shared_turn};
use druid_inventory::Inventory;
use druid_inventory_views::{Opened, Publication, Publisher, View, open};
use druid_segment_descriptor::{Descriptor, NodeNo};
use std::alloc::Global;
use std::marker::Brand;
use std::process::Abort;
use std::sync::Mutex;

// Turns of a broker with three nodes, one after another: the node, and its replies as in `hostile_turns.rt`; beside the signs there
// `#` stands for the load of a segment of the source `x`, and `|` for its drop. Then what the turn reports, the entry that is then
// held of the node, and the data sources of all entries. An entry is a mark and its segments, each with its partition, core count and
// size.
const TURNS: &str = r#"1 404 {} = K4: status 404 = 0 0 = sources
1 200 {"counter":{"counter":3,"hash":1},"from":null,"requests":[@],% = Moved = 1 3 w ~ v1 0 1 0 = sources w
0 200 [ = K2: Y1: not JSON = 0 0 = sources w
2 200 {"counter":{"counter":7,"hash":4},"from":null,"requests":[#,@],% = Moved = 4 7 w ~ v1 0 1 0 x ~ v1 0 2 5 = sources w x
1 200 {"counter":{"counter":4,"hash":1},"from":{"counter":3,"hash":1},"requests":[$],% = Moved = 1 4 w ~ v1 0 1 0 w 2024-01-01T10:00:00.000Z/2024-01-01T12:00:00.000Z v2 0 1 0 = sources w x
1 200 {"counter":{"counter":4,"hash":1},"from":{"counter":4,"hash":1},"requests":[],% = AlreadyHave = 1 4 w ~ v1 0 1 0 w 2024-01-01T10:00:00.000Z/2024-01-01T12:00:00.000Z v2 0 1 0 = sources w x
0 200 {"counter":{"counter":1,"hash":1},"from":null,"requests":[#],% = Moved = 1 1 x ~ v1 0 2 5 = sources w x
2 200 {"counter":{"counter":8,"hash":4},"from":{"counter":7,"hash":4},"requests":[*],% = Moved = 4 8 x ~ v1 0 2 5 = sources w x
1 200 {"counter":{"counter":9,"hash":1},"from":{"counter":8,"hash":1},"requests":[@],% = K3: A2: a gap = 1 4 w ~ v1 0 1 0 w 2024-01-01T10:00:00.000Z/2024-01-01T12:00:00.000Z v2 0 1 0 = sources w x
1 200 {"counter":{"counter":0,"hash":5},"from":null,"requests":[],?;200 {"counter":{"counter":0,"hash":5},"from":null,"requests":[],% = Moved = 5 0 = sources x
0 200 {"counter":{"counter":2,"hash":1},"from":{"counter":1,"hash":1},"requests":[|],% = Moved = 1 2 = sources x
2  = K1: X1: the message is cut off = 4 8 x ~ v1 0 2 5 = sources x
2 200 {"counter":{"counter":9,"hash":4},"from":{"counter":8,"hash":4},"requests":[|],% = Moved = 4 9 = sources"#;

// The signs of these lines beside those of `hostile_turns.rt`.
const SIGNS: [(&str, &str); 2] = [
    (
        "#",
        "{\"action\":\"load\",\"dataSource\":\"x\",\"interval\":\"2024-01-01/2024-01-02\",\"shardSpec\":{\"partitionNum\":0,\"partitions\":2,\"type\":\"numbered\"},\"size\":5,\"version\":\"v1\"}",
    ),
    (
        "|",
        "{\"action\":\"drop\",\"dataSource\":\"x\",\"interval\":\"2024-01-01/2024-01-02\",\"shardSpec\":{\"partitionNum\":0,\"partitions\":2,\"type\":\"numbered\"},\"size\":5,\"version\":\"v1\"}",
    ),
];

fn segment_text(rt: &impl Abort, alloc: Global, held: &Descriptor) -> String {
    let id = held.id();
    let (source, interval) = (id.source().as_str(), id.interval());
    let version = id.version().text(alloc).expect(rt, "memory");
    let (partition, core, size) = (id.partition(), held.core(), held.size());
    format!(in alloc; " {source} {interval} {version} {partition} {core} {size}").expect(
        rt, "memory",
    )
}

fn entry_text(rt: &impl Abort, alloc: Global, inventory: &Inventory, node: NodeNo) -> String {
    let mut text = mark_text(rt, alloc, inventory, node);
    for held in inventory.segments(node).expect(rt, "a node") {
        let segment = segment_text(rt, alloc, held);
        text.push_str(segment.as_str()).expect(rt, "memory");
    }
    text
}

// All that an inventory has: the entries, and then the data sources.
fn whole_text(rt: &impl Abort, alloc: Global, inventory: &Inventory) -> String {
    let mut text = String::new(alloc);
    for node in 0..inventory.node_count() {
        let entry = entry_text(rt, alloc, inventory, node);
        text.push_str(entry.as_str()).expect(rt, "memory");
        text.push_str("; ").expect(rt, "memory");
    }
    text.push_str("sources").expect(rt, "memory");
    for source in inventory.sources().ok().expect(rt, "memory") {
        text.push_str(" ").expect(rt, "memory");
        text.push_str(source.as_str()).expect(rt, "memory");
    }
    text
}

// The same of a plain list of entries.
fn wanted_text(rt: &impl Abort, alloc: Global, entries: &[String], sources: &str) -> String {
    let mut text = String::new(alloc);
    for entry in entries {
        text.push_str(entry.as_str()).expect(rt, "memory");
        text.push_str("; ").expect(rt, "memory");
    }
    text.push_str(sources).expect(rt, "memory");
    text
}

// Three nodes that were never synced.
fn fresh_entries(rt: &impl Abort, alloc: Global) -> Vec<String> {
    let mut entries = Vec::new(alloc);
    for _ in 0..3 {
        entries
            .push(printed(rt, alloc, &"0 0"))
            .expect(rt, "memory");
    }
    entries
}

// What a turn reports, by either call.
fn reported<R: Handle, J: Publication>(
    rt: R,
    alloc: Global,
    publisher: &Mutex<Publisher<J, R>>,
    view: &mut View<J>,
    observed: bool,
    node: NodeNo,
    replies: &str,
) -> String {
    let mut link = link(&rt, alloc, replies);
    if !has_node(view, node) {
        panic!(rt; "no node");
    }
    let turn = if observed {
        observed_turn(
            &rt,
            alloc,
            node,
            view,
            &mut link,
            publisher,
            &mut Unobserved,
        )
    } else {
        shared_turn(&rt, alloc, node, view, &mut link, publisher)
    };
    match turn {
        Ok(outcome) => printed(&rt, alloc, &outcome_of(outcome)),
        Err(fault) => printed(&rt, alloc, &fault),
    }
}

// Asserts what a turn reports, and what is published and read after it.
fn assert_line<R: Handle, J: Publication>(
    rt: R,
    alloc: Global,
    publisher: &Mutex<Publisher<J, R>>,
    view: &mut View<J>,
    observed: bool,
    entries: &mut Vec<String>,
    line: &str,
) {
    let line = whole_line(&rt, alloc, all_replaced(&rt, alloc, line, &SIGNS).as_str());
    let (turn, wanted) = halves(&rt, line.as_str(), " = ");
    let (node, replies) = halves(&rt, turn, " ");
    let (outcome, wanted) = halves(&rt, wanted, " = ");
    let (entry, sources) = halves(&rt, wanted, " = ");
    let node = node.parse::<NodeNo>().expect(&rt, "a number");
    let reported = reported(rt, alloc, publisher, view, observed, node, replies);
    assert_reported(&rt, turn, reported, outcome);
    *entries.get_mut(node as usize).expect(&rt, "a node") = printed(&rt, alloc, &entry);
    let wanted = wanted_text(&rt, alloc, entries, sources);
    let published = whole_text(&rt, alloc, publisher.lock(&rt).inventory());
    assert_reported(&rt, turn, published, wanted.as_str());
    let read = whole_text(&rt, alloc, &view.read().ok().expect(&rt, "a reading"));
    assert_reported(&rt, turn, read, wanted.as_str());
}

fn assert_lines<R: Handle, J: Publication>(
    rt: R,
    alloc: Global,
    list: Opened,
    inventory: Inventory,
    observed: bool,
)
    requires book { list ≡ J.book }
    requires opening { inventory ≡ J.opening }
{
    let (publisher, mut views) = open::<J, R>(alloc, rt, list, inventory, 1).expect(&rt, "memory");
    let mut view = views.pop().expect(&rt, "a view");
    let publisher = Mutex::new(publisher);
    let mut entries = fresh_entries(&rt, alloc);
    for line in TURNS.lines() {
        assert_line(
            rt,
            alloc,
            &publisher,
            &mut view,
            observed,
            &mut entries,
            line,
        );
    }
}

fn assert_entries<R: Handle>(rt: R, alloc: Global, observed: bool) {
    let inventory = inventory(&rt, alloc, 3);
    assert_lines::<R, Brand>(rt, alloc, Opened::new(), inventory, observed);
}

#[test]
fn entries_of_three_nodes(rt: HostRuntime) {
    assert_entries(&rt, rt.alloc(), false);
    assert_entries(&rt, rt.alloc(), true);
}
