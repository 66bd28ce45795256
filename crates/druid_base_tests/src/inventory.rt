use crate::rows::{change, descriptor, mark_reported, name, parsed, push_partitions};
use crate::sweeps::assert_alike;
use crate::tables::{assert_printed, assert_reported, assert_rows, printed};
use druid_inventory::{ApplyFault, Inventory, InventoryFault, JoinFault, Outcome};
use druid_segment_descriptor::{Cause, Change, Descriptor, Mark, NodeNo, Reply};
use std::alloc::Global;
use std::process::Abort;

// Replies of node 0, one after another, and beside each what it does: the outcome, the mark after it, and the set that
// is held there, or the refusal. A snapshot has its mark and its partitions; a delta has its incarnation, the counts that
// it begins and ends at, and its changes.
const DELTAS: &str = "snapshot 1 4 0 1 = Moved 1 4: 0 1
delta 1 4 6 +2 +3 = Moved 1 6: 0 1 2 3
delta 1 4 6 +2 +3 = AlreadyHave 1 6: 0 1 2 3
delta 1 5 8 +3 -0 +4 = Moved 1 8: 1 2 3 4
delta 1 9 10 +5 = A2: a gap
delta 1 8 10 +5 -9 = A4: not a strict change: 1
delta 1 7 10 +0 +5 +5 = A4: not a strict change: 2
delta 1 8 9 +4 = A4: not a strict change: 0
delta 1 8 8 = AlreadyHave 1 8: 1 2 3 4
delta 2 8 9 +5 = A3: another incarnation
reset 1 9 = AskWhole 1 8: 1 2 3 4
delta 1 8 9 -1 = Moved 1 9: 2 3 4";

const SNAPSHOTS: &str = "delta 1 0 1 +0 = A3: another incarnation
snapshot 1 900 0 = Moved 1 900: 0
snapshot 1 900 0 = AlreadyHave 1 900: 0
snapshot 1 899 0 1 = AlreadyHave 1 900: 0
snapshot 2 0 = Moved 2 0:
delta 1 900 901 +1 = A3: another incarnation
snapshot 1 901 0 = AlreadyHave 2 0:
snapshot 2 0 0 = A5: a conflict
reset 2 0 = AskWhole 2 0:
delta 2 0 1 +0 = Moved 2 1: 0";

// The snapshots of nodes 0 and 1 that two brokers have, and what they are together, from either side: of each node the
// mark and the set, or the refusal. A line without a snapshot is a node that was never synced.
const JOINS: &str = "1 5 0 1,1 2 2;1 3 0,1 7 3 = 1 5: 0 1,1 7: 3
1 5 0 1,;,1 7 3 = 1 5: 0 1,1 7: 3
1 5 0 1,1 2 2;, = 1 5: 0 1,1 2: 2
1 5 0 1,1 2 2;1 5 0 1,1 2 2 = 1 5: 0 1,1 2: 2
1 9 0 1,;2 0,1 1 1 = 2 0:,1 1: 1
1 5 0,1 2 2;1 5 1,1 2 2 = J2: a conflict at node 0
1 5 0,1 2 2;1 6 0,1 2 3 = J2: a conflict at node 1
1 5 0,1 2 2;1 5 1,1 2 3 = J2: a conflict at node 0";

// The nodes `n0` and another, never synced.
fn made(rt: &impl Abort, alloc: Global, other: &str) -> Result<Inventory, InventoryFault> {
    let names = vec![in alloc; name(rt, alloc, "n0"), name(rt, alloc, other)];
    Inventory::new(alloc, names.expect(rt, "memory"))
}

fn nodes(rt: &impl Abort, alloc: Global, other: &str) -> Inventory {
    made(rt, alloc, other).expect(rt, "a doubled node")
}

// A number at the front of a text, and what follows it.
fn number<'a>(rt: &impl Abort, text: &'a str) -> (u64, &'a str) {
    let (number, rest) = text.split_once(' ').unwrap_or((text, ""));
    (parsed(rt, number), rest)
}

// Two numbers at the front of a text, and what follows them.
fn two_numbers<'a>(rt: &impl Abort, text: &'a str) -> (u64, u64, &'a str) {
    let (first, text) = number(rt, text);
    let (second, rest) = number(rt, text);
    (first, second, rest)
}

fn segments(rt: &impl Abort, alloc: Global, row: &str) -> Vec<Descriptor> {
    let mut segments = Vec::new(alloc);
    for partition in row.split_whitespace() {
        segments
            .push(descriptor(rt, alloc, parsed(rt, partition)))
            .expect(rt, "memory");
    }
    segments
}

fn changes(rt: &impl Abort, alloc: Global, row: &str) -> Vec<Change> {
    let mut changes = Vec::new(alloc);
    for text in row.split_whitespace() {
        changes.push(change(rt, alloc, text)).expect(rt, "memory");
    }
    changes
}

fn snapshot(rt: &impl Abort, alloc: Global, row: &str) -> Reply {
    let (incarnation, count, row) = two_numbers(rt, row);
    let segments = segments(rt, alloc, row);
    let at = Mark::new(incarnation.max(1), count);
    Reply::snapshot(at, segments).expect(rt, "a snapshot")
}

fn delta(rt: &impl Abort, alloc: Global, row: &str) -> Reply {
    let (incarnation, from, row) = two_numbers(rt, row);
    let (to, row) = number(rt, row);
    let changes = changes(rt, alloc, row);
    let from = Mark::new(incarnation.max(1), from);
    let to = Mark::new(incarnation.max(1), to);
    Reply::delta(from, to, changes).expect(rt, "a delta")
}

fn reset(rt: &impl Abort, row: &str) -> Reply {
    let (incarnation, count, _) = two_numbers(rt, row);
    let at = Mark::new(incarnation.max(1), count);
    Reply::reset(Cause::TooOld, at)
}

fn reply(rt: &impl Abort, alloc: Global, row: &str) -> Reply {
    let (kind, row) = row.split_once(' ').expect(rt, "no kind");
    match kind {
        "snapshot" => snapshot(rt, alloc, row),
        "delta" => delta(rt, alloc, row),
        _ => reset(rt, row),
    }
}

// The mark of a node, and the partitions that it serves there.
fn entry_reported(rt: &impl Abort, alloc: Global, inventory: &Inventory, node: NodeNo) -> String {
    let mut reported = mark_reported(rt, alloc, inventory.mark(node).expect(rt, "no node"));
    reported.push(':').expect(rt, "memory");
    push_partitions(
        rt,
        &mut reported,
        inventory.segments(node).expect(rt, "no node"),
    );
    reported
}

fn name_of(outcome: Outcome) -> &'static str {
    match outcome {
        Outcome::Moved => "Moved",
        Outcome::AlreadyHave => "AlreadyHave",
        Outcome::AskWhole => "AskWhole",
        Outcome::AskPages => "AskPages",
    }
}

fn outcome_reported(
    rt: &impl Abort,
    alloc: Global,
    inventory: &Inventory,
    outcome: Outcome,
) -> String {
    let entry = entry_reported(rt, alloc, inventory, 0);
    format!(in alloc; "{} {entry}", name_of(outcome)).expect(rt, "memory")
}

// What a reply does to the inventory, which is the new one after that. The old one stays what another is, which shares
// nothing with it.
fn take(
    rt: &impl Abort,
    alloc: Global,
    inventory: &mut Inventory,
    other: &Inventory,
    reply: &Reply,
) -> String {
    let applied = inventory.apply(0, reply);
    assert_alike(rt, alloc, inventory, other);
    match applied {
        Ok((next, outcome)) => {
            *inventory = next;
            outcome_reported(rt, alloc, inventory, outcome)
        }
        Err(fault) => printed(rt, alloc, &fault),
    }
}

// The same in place.
fn take_in_place(
    rt: &impl Abort,
    alloc: Global,
    inventory: &mut Inventory,
    reply: &Reply,
) -> String {
    match inventory.advance(0, reply) {
        Ok(outcome) => outcome_reported(rt, alloc, inventory, outcome),
        Err(fault) => printed(rt, alloc, &fault),
    }
}

// Asserts that the replies, one after another, do as the rows say, of an inventory that is shared and of one that is not.
fn assert_replies(rt: &impl Abort, alloc: Global, rows: &str) {
    let mut inventory = nodes(rt, alloc, "n1");
    let mut alone = nodes(rt, alloc, "n1");
    for row in rows.lines() {
        let (text, wanted) = row.split_once(" = ").expect(rt, "no row");
        let reply = reply(rt, alloc, text);
        let reported = take(rt, alloc, &mut inventory, &alone, &reply);
        assert_reported(rt, text, reported, wanted);
        let reported = take_in_place(rt, alloc, &mut alone, &reply);
        assert_reported(rt, text, reported, wanted);
        assert_alike(rt, alloc, &inventory, &alone);
    }
}

// The inventory after that reply of a node.
fn applied(rt: &impl Abort, inventory: &Inventory, node: NodeNo, reply: &Reply) -> Inventory {
    let (next, _) = inventory.apply(node, reply).expect(rt, "a refused reply");
    next
}

// Takes a snapshot of a node, or nothing where the text is empty.
fn sync(rt: &impl Abort, alloc: Global, inventory: &mut Inventory, node: NodeNo, row: &str) {
    if !row.is_empty() {
        *inventory = applied(rt, inventory, node, &snapshot(rt, alloc, row));
    }
}

// A broker that took these snapshots of nodes 0 and 1.
fn broker(rt: &impl Abort, alloc: Global, row: &str) -> Inventory {
    let (first, second) = row.split_once(',').expect(rt, "one node");
    let mut inventory = nodes(rt, alloc, "n1");
    sync(rt, alloc, &mut inventory, 0, first);
    sync(rt, alloc, &mut inventory, 1, second);
    inventory
}

fn both_reported(rt: &impl Abort, alloc: Global, both: &Inventory) -> String {
    let first = entry_reported(rt, alloc, both, 0);
    let second = entry_reported(rt, alloc, both, 1);
    format!(in alloc; "{first},{second}").expect(rt, "memory")
}

fn join_reported(rt: &impl Abort, alloc: Global, left: &Inventory, right: &Inventory) -> String {
    match left.join(right) {
        Ok(both) => both_reported(rt, alloc, &both),
        Err(fault) => printed(rt, alloc, &fault),
    }
}

// What two brokers are together, which is the same from either side.
fn joined(rt: &impl Abort, alloc: Global, brokers: &str) -> String {
    let (left, right) = brokers.split_once(';').expect(rt, "one broker");
    let (left, right) = (broker(rt, alloc, left), broker(rt, alloc, right));
    let there = join_reported(rt, alloc, &left, &right);
    let back = join_reported(rt, alloc, &right, &left);
    assert_reported(rt, brokers, back, there.as_str());
    there
}

// What a reply of a node makes of an inventory that was never synced.
fn alone(rt: &impl Abort, alloc: Global, node: NodeNo, reply: &Reply) -> String {
    let synced = applied(rt, &nodes(rt, alloc, "n1"), node, reply);
    entry_reported(rt, alloc, &synced, node)
}

// What the entry of a node is, or the refusal.
fn entry_of(rt: &impl Abort, alloc: Global, inventory: &Inventory, node: NodeNo) -> String {
    match inventory.entry(node) {
        Ok(reply) => alone(rt, alloc, node, &reply),
        Err(fault) => printed(rt, alloc, &fault),
    }
}

// What the entry of a node is at a broker that took a snapshot of node 0 alone.
fn entry_of_text(rt: &impl Abort, alloc: Global, node: &str) -> String {
    let inventory = broker(rt, alloc, "1 5 0 1,");
    entry_of(rt, alloc, &inventory, parsed(rt, node))
}

// What brokers over `n0` and `n1` and over `n0` and `n2` are together.
fn other_nodes_joined(rt: &impl Abort, alloc: Global) -> String {
    let (left, right) = (nodes(rt, alloc, "n1"), nodes(rt, alloc, "n2"));
    join_reported(rt, alloc, &left, &right)
}

// Whether `n0` and `n0` are refused.
fn is_doubled(rt: &impl Abort, alloc: Global) -> bool {
    made(rt, alloc, "n0").err() == Some(InventoryFault::DoubledNode)
}

fn is_its_copy(rt: &impl Abort, inventory: &Inventory) -> bool {
    &inventory.clone().expect(rt, "memory") == inventory
}

#[test]
fn copies_sources_and_entries(rt: HostRuntime) {
    let inventory = broker(&rt, rt.alloc(), "1 5 0 1,");
    assert!(rt; is_its_copy(&rt, &inventory));
    assert!(rt; inventory.sources().expect(&rt, "memory").len() == 1);
    let entries = "0 = 1 5: 0 1
1 = V3: a node that was never synced
2 = V2: an unknown node";
    assert_rows(&rt, rt.alloc(), entries, entry_of_text);
}

#[test]
fn replies_do_as_reported(rt: HostRuntime) {
    assert_replies(&rt, rt.alloc(), DELTAS);
    assert_replies(&rt, rt.alloc(), SNAPSHOTS);
}

#[test]
fn joins_from_either_side(rt: HostRuntime) {
    assert_rows(&rt, rt.alloc(), JOINS, joined);
}

#[test]
fn other_nodes_and_doubled_ones(rt: HostRuntime) {
    let reported = other_nodes_joined(&rt, rt.alloc());
    assert_reported(&rt, "n1 and n2", reported, "J1: other nodes");
    assert!(rt; is_doubled(&rt, rt.alloc()));
}

#[test]
fn faults_have_these_texts(rt: HostRuntime) {
    let of_nodes = [
        (InventoryFault::DoubledNode, "V1: a doubled node"),
        (InventoryFault::Memory, "V9: out of memory"),
    ];
    assert_printed(&rt, rt.alloc(), &of_nodes);
    let of_replies = [
        (ApplyFault::UnknownNode, "A1: an unknown node"),
        (ApplyFault::TooMany, "A6: too many segments"),
        (ApplyFault::Memory, "A9: out of memory"),
    ];
    assert_printed(&rt, rt.alloc(), &of_replies);
    assert_printed(&rt, rt.alloc(), &[(JoinFault::Memory, "J9: out of memory")]);
}
