//! Histories, the texts of sync, inventories, and the world of events.
use crate::marks::{assert_call, begin, copy_of, end};
use crate::texts::prints;
use crate::values::{descriptor, name};
use druid_inventory::{ApplyFault, Assembly, Inventory, InventoryFault, JoinFault, Outcome};
use druid_laws_world::{AskKind, Event, Sim, SimFault};
use druid_segment_descriptor::{Ask, Body, Change, Mark, Reply};
use druid_segment_text::mark_value;
use druid_sync_history::{History, HistoryFault};
use druid_sync_pages::page_of;
use druid_sync_text::{SyncFault, ask_target, ask_target_at, read_reply, reply_of, reply_text};
use serde_json::Value;
use std::alloc::Global;
use std::process::Abort;
use std::str;

// A reply of a node that has loaded the first partition of `v1`.
const REPLY: &[u8] =
    b"{\"counter\":{\"counter\":1,\"hash\":1},\"from\":{\"counter\":0,\"hash\":1},\"requests\":[{\"action\":\"load\",\"dataSource\":\"w\",\"interval\":\"2024-01-01T00:00:00.000Z/2024-01-02T00:00:00.000Z\",\"shardSpec\":{\"partitionNum\":0,\"partitions\":2,\"type\":\"numbered\"},\"size\":7,\"version\":\"v1\"}],\"resetCause\":null,\"resetCounter\":false}";

// A snapshot of that node.
const SNAPSHOT: &[u8] =
    b"{\"counter\":{\"counter\":1,\"hash\":1},\"from\":null,\"requests\":[{\"action\":\"load\",\"dataSource\":\"w\",\"interval\":\"2024-01-01T00:00:00.000Z/2024-01-02T00:00:00.000Z\",\"shardSpec\":{\"partitionNum\":0,\"partitions\":2,\"type\":\"numbered\"},\"size\":7,\"version\":\"v1\"}],\"resetCause\":null,\"resetCounter\":false}";

// The snapshot of that node before all.
const NOTHING: &[u8] =
    b"{\"counter\":{\"counter\":0,\"hash\":1},\"from\":null,\"requests\":[],\"resetCause\":null,\"resetCounter\":false}";

// A snapshot of a node that has loaded the first partition of `v2` instead.
const LATER: &[u8] =
    b"{\"counter\":{\"counter\":2,\"hash\":1},\"from\":null,\"requests\":[{\"action\":\"load\",\"dataSource\":\"w\",\"interval\":\"2024-01-01T00:00:00.000Z/2024-01-02T00:00:00.000Z\",\"shardSpec\":{\"partitionNum\":0,\"partitions\":2,\"type\":\"numbered\"},\"size\":7,\"version\":\"v2\"}],\"resetCause\":null,\"resetCounter\":false}";

/// Whether a reply is written so.
pub(crate) fn is_reply(rt: &impl Abort, alloc: Global, reply: &Reply, text: &[u8]) -> bool {
    let written = reply_text(alloc, reply).expect(rt, "memory");
    written.as_str().as_bytes() == text
}

fn load_once(rt: &impl Abort, alloc: Global) -> History {
    let mut history = History::new(alloc, 1, 10).expect(rt, "a history");
    let change = Change::Load(descriptor(rt, alloc, "v1", 0));
    begin(rt, alloc);
    let recorded = end(rt, alloc, history.record(change));
    assert_call(
        rt,
        "History::record",
        match recorded {
            Ok(()) => history.mark() == Mark::new(1, 1),
            Err(fault) => fault == HistoryFault::Memory && history.mark() == Mark::new(1, 0),
        },
    );
    history
}

fn histories(rt: &impl Abort, alloc: Global) {
    begin(rt, alloc);
    let made = end(rt, alloc, History::new(alloc, 1, 10));
    assert_call(
        rt,
        "History::new",
        match &made {
            Ok(history) => history.mark() == Mark::new(1, 0),
            Err(fault) => *fault == HistoryFault::Memory,
        },
    );
    let mut history = load_once(rt, alloc);
    let mark = history.mark();
    begin(rt, alloc);
    let set = end(rt, alloc, history.set());
    assert_call(
        rt,
        "History::set",
        match &set {
            Ok(set) => set.len() as u64 == mark.count(),
            Err(_) => history.mark() == mark,
        },
    );
    begin(rt, alloc);
    let delta = end(rt, alloc, history.since(&Ask::Whole));
    assert_call(
        rt,
        "History::since",
        match &delta {
            Ok(reply) => is_reply(
                rt,
                alloc,
                reply,
                if mark.count() == 0 { NOTHING } else { SNAPSHOT },
            ),
            Err(_) => history.mark() == mark,
        },
    );
}

fn value(rt: &impl Abort, alloc: Global) -> Value {
    let text = str::from_utf8(REPLY).expect(rt, "a text");
    Value::from_str(alloc, text).expect(rt, "JSON")
}

fn replies(rt: &impl Abort, alloc: Global, value: &Value) {
    begin(rt, alloc);
    let read = end(rt, alloc, reply_of(alloc, value));
    assert_call(
        rt,
        "reply_of",
        match &read {
            Ok(reply) => is_reply(rt, alloc, reply, REPLY),
            Err(fault) => *fault == SyncFault::Memory,
        },
    );
    begin(rt, alloc);
    let read = end(rt, alloc, read_reply(alloc, REPLY));
    assert_call(
        rt,
        "read_reply",
        match &read {
            Ok(reply) => is_reply(rt, alloc, reply, REPLY),
            Err(fault) => *fault == SyncFault::Memory,
        },
    );
}

fn reply(rt: &impl Abort, alloc: Global) -> Reply {
    read_reply(alloc, REPLY).expect(rt, "a reply")
}

fn sync_texts(rt: &impl Abort, alloc: Global) {
    let reply = reply(rt, alloc);
    begin(rt, alloc);
    let text = end(rt, alloc, reply_text(alloc, &reply));
    assert_call(
        rt,
        "reply_text",
        match &text {
            Ok(text) => text.as_str().as_bytes() == REPLY,
            Err(_) => true,
        },
    );
    begin(rt, alloc);
    let value = end(rt, alloc, mark_value(alloc, Mark::new(1, 5)));
    let text = "{\"counter\":5,\"hash\":1}";
    assert_call(rt, "mark_value", prints(rt, alloc, &value, text));
    begin(rt, alloc);
    let target = end(rt, alloc, ask_target(alloc, &Ask::Since(Mark::new(1, 5))));
    assert_call(
        rt,
        "ask_target",
        match &target {
            Ok(target) => target.as_str() == "/druid-internal/v1/segments?counter=5&hash=1",
            Err(_) => true,
        },
    );
    let ask = Ask::Page(Mark::new(1, 5), 2);
    begin(rt, alloc);
    let target = end(rt, alloc, ask_target_at(alloc, "/inventory/3", &ask));
    assert_call(
        rt,
        "ask_target_at",
        match &target {
            Ok(target) => target.as_str() == "/inventory/3?counter=5&hash=1&page=2",
            Err(_) => true,
        },
    );
}

fn cut_page(rt: &impl Abort, alloc: Global) {
    let set = vec![in alloc; descriptor(rt, alloc, "v1", 0)].expect(rt, "memory");
    begin(rt, alloc);
    let page = end(rt, alloc, page_of(alloc, &set, 0));
    assert_call(
        rt,
        "page_of",
        match &page {
            Ok(page) => page.len() == 1,
            Err(_) => set.len() == 1,
        },
    );
}

// Puts a page to none that came.
fn take_page(rt: &impl Abort, alloc: Global, page: &Reply) {
    let mut assembly = Assembly::new(alloc);
    if let Body::Page { .. } = page.body() {
        begin(rt, alloc);
        let given = end(rt, alloc, assembly.take(page));
        assert_call(
            rt,
            "inventory::Assembly::take",
            match &given {
                Ok(given) => given.is_none(),
                Err(fault) => *fault == ApplyFault::Memory,
            },
        );
    }
}

fn pages(rt: &impl Abort, alloc: Global) {
    cut_page(rt, alloc);
    let last = vec![in alloc; descriptor(rt, alloc, "v1", 0)].expect(rt, "memory");
    let page = Reply::page(Mark::new(1, 5), 1, 2, last).expect(rt, "a page");
    take_page(rt, alloc, &page);
}

/// An inventory of one node, of which nothing is known.
pub(crate) fn inventory(rt: &impl Abort, alloc: Global) -> Inventory {
    let names = vec![in alloc; name(rt, alloc)].expect(rt, "memory");
    Inventory::new(alloc, names).expect(rt, "an inventory")
}

fn make_inventory(rt: &impl Abort, alloc: Global) {
    let names = vec![in alloc; name(rt, alloc)].expect(rt, "memory");
    begin(rt, alloc);
    let made = end(rt, alloc, Inventory::new(alloc, names));
    assert_call(
        rt,
        "Inventory::new",
        match &made {
            Ok(made) => made.node_count() == 1,
            Err(fault) => *fault == InventoryFault::Memory,
        },
    );
}

/// Whether the mark of the node has this count.
pub(crate) fn is_at(inventory: &Inventory, count: u64) -> bool {
    match inventory.mark(0) {
        Some(mark) => mark.count() == count,
        None => false,
    }
}

// Applies a reply to an inventory, and then again to its own.
fn steps(rt: &impl Abort, alloc: Global, inventory: &mut Inventory) {
    let reply = snapshot(rt, alloc, "v1", 1);
    begin(rt, alloc);
    let applied = end(rt, alloc, inventory.apply(0, &reply));
    assert_call(
        rt,
        "Inventory::apply",
        is_at(inventory, 0)
            && match &applied {
                Ok((new, outcome)) => *outcome == Outcome::Moved && is_at(new, 1),
                Err(fault) => *fault == ApplyFault::Memory,
            },
    );
    begin(rt, alloc);
    let advanced = end(rt, alloc, inventory.advance(0, &reply));
    assert_call(
        rt,
        "Inventory::advance",
        match advanced {
            Ok(outcome) => outcome == Outcome::Moved && is_at(inventory, 1),
            Err(fault) => fault == ApplyFault::Memory && is_at(inventory, 0),
        },
    );
    let _ = inventory.advance(0, &reply);
    let reply = snapshot(rt, alloc, "v2", 2);
    begin(rt, alloc);
    let advanced = end(rt, alloc, inventory.advance(0, &reply));
    assert_call(
        rt,
        "Inventory::advance",
        match advanced {
            Ok(outcome) => outcome == Outcome::Moved && is_at(inventory, 2),
            Err(fault) => fault == ApplyFault::Memory && is_at(inventory, 1),
        },
    );
    let _ = inventory.advance(0, &reply);
}

/// A snapshot of a node that serves the first partition of a version.
pub(crate) fn snapshot(rt: &impl Abort, alloc: Global, version: &str, count: u64) -> Reply {
    let segments = vec![in alloc; descriptor(rt, alloc, version, 0)].expect(rt, "memory");
    Reply::snapshot(Mark::new(1, count), segments).expect(rt, "a snapshot")
}

fn reads(rt: &impl Abort, alloc: Global, inventory: &Inventory) {
    begin(rt, alloc);
    let sources = end(rt, alloc, inventory.sources());
    assert_call(
        rt,
        "Inventory::sources",
        match &sources {
            Ok(sources) => sources.len() == 1,
            Err(_) => is_at(inventory, 2),
        },
    );
    begin(rt, alloc);
    let entry = end(rt, alloc, inventory.entry(0));
    assert_call(
        rt,
        "Inventory::entry",
        match &entry {
            Ok(reply) => is_reply(rt, alloc, reply, LATER),
            Err(fault) => *fault == InventoryFault::Memory,
        },
    );
    begin(rt, alloc);
    let entry = end(rt, alloc, inventory.entry_page(0, &Ask::Whole));
    assert_call(
        rt,
        "Inventory::entry_page",
        match &entry {
            Ok(reply) => is_reply(rt, alloc, reply, LATER),
            Err(fault) => *fault == InventoryFault::Memory,
        },
    );
    let copy = copy_of(rt, alloc, inventory);
    assert_call(
        rt,
        "Inventory::clone",
        match &copy {
            Ok(copy) => *copy == *inventory,
            Err(_) => is_at(inventory, 2),
        },
    );
}

fn joins(rt: &impl Abort, alloc: Global, later: &Inventory, earlier: &Inventory) {
    begin(rt, alloc);
    let join = end(rt, alloc, earlier.join(later));
    assert_call(
        rt,
        "Inventory::join",
        match &join {
            Ok(join) => *join == *later,
            Err(fault) => *fault == JoinFault::Memory && is_at(earlier, 0),
        },
    );
}

fn worlds(rt: &impl Abort, alloc: Global) {
    begin(rt, alloc);
    let made = end(rt, alloc, Sim::new(alloc, 1, 2, 2));
    assert_call(
        rt,
        "Sim::new",
        match &made {
            Ok(sim) => sim.broker(1).is_some() && sim.broker(2).is_none(),
            Err(fault) => *fault == SimFault::Memory,
        },
    );
}

// Makes an event, where memory is refused a second time.
fn step(rt: &impl Abort, alloc: Global, sim: &mut Sim, event: Event, again: Event) {
    begin(rt, alloc);
    let stepped = end(rt, alloc, sim.step(event));
    assert_call(
        rt,
        "Sim::step",
        match stepped {
            Ok(()) => true,
            Err(fault) => fault == SimFault::Memory && sim.step(again).is_ok(),
        },
    );
}

fn load(rt: &impl Abort, alloc: Global) -> Event {
    let change = Change::Load(descriptor(rt, alloc, "v1", 0));
    Event::Record { node: 0, change }
}

fn ask() -> Event {
    Event::Ask {
        broker: 0,
        node: 0,
        kind: AskKind::Whole,
    }
}

fn seed() -> Event {
    Event::Seed {
        peer: 0,
        broker: 1,
        node: 0,
        page: 0,
    }
}

fn run(rt: &impl Abort, alloc: Global) {
    let mut sim = Sim::new(alloc, 1, 2, 2).expect(rt, "a world");
    step(rt, alloc, &mut sim, load(rt, alloc), load(rt, alloc));
    step(rt, alloc, &mut sim, ask(), ask());
    step(
        rt,
        alloc,
        &mut sim,
        Event::Answer { packet: 0 },
        Event::Answer { packet: 0 },
    );
    step(
        rt,
        alloc,
        &mut sim,
        Event::Deliver { packet: 1 },
        Event::Deliver { packet: 1 },
    );
    step(rt, alloc, &mut sim, seed(), seed());
    let same = sim.broker(0).expect(rt, "a broker").mark(0) == Some(Mark::new(1, 1));
    assert_call(rt, "then Sim::broker", same);
}

#[test]
fn of_histories(rt: HostRuntime) {
    histories(&rt, rt.alloc());
    let value = value(&rt, rt.alloc());
    replies(&rt, rt.alloc(), &value);
    sync_texts(&rt, rt.alloc());
    pages(&rt, rt.alloc());
}

#[test]
fn of_inventories(rt: HostRuntime) {
    make_inventory(&rt, rt.alloc());
    let opening = inventory(&rt, rt.alloc());
    let mut later = inventory(&rt, rt.alloc());
    steps(&rt, rt.alloc(), &mut later);
    reads(&rt, rt.alloc(), &later);
    joins(&rt, rt.alloc(), &later, &opening);
}

#[test]
fn of_worlds(rt: HostRuntime) {
    worlds(&rt, rt.alloc());
    run(&rt, rt.alloc());
}
