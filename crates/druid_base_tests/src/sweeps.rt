//! Drawn snapshots, whose timelines are swept where much changes, beside the same by a delta for each change. Two sources
//! take turns, of which the name of one begins with that of the other.
use crate::drawn::Draws;
use crate::edits::{Served, Table, draw_served};
use crate::rows::name;
use druid_inventory::{Inventory, Outcome};
use druid_segment_descriptor::{Change, Descriptor, Mark, NodeNo, Reply};
use druid_segment_id::Meter;
use std::alloc::Global;
use std::process::Abort;

// Of each of the tables that are drawn.
const SNAPSHOTS: u64 = 120;

const TABLES: u64 = 4;

// More is held never.
const MOST_HELD: usize = 60;

const SOURCES: [&str; 2] = ["wiki", "wiki_1970"];

// Two nodes, never synced.
fn fresh(rt: &impl Abort, alloc: Global) -> Inventory {
    let names = vec![in alloc; name(rt, alloc, "n0"), name(rt, alloc, "n1")];
    Inventory::new(alloc, names.expect(rt, "memory")).expect(rt, "an inventory")
}

fn source_of(served: &Served) -> &'static str {
    SOURCES[(served.chunk() % 2) as usize]
}

fn descriptor(rt: &impl Abort, alloc: Global, table: &Table, served: Served) -> Descriptor {
    table.descriptor(rt, alloc, source_of(&served), served)
}

fn is_one_segment(one: &Served, other: &Served) -> bool {
    one.chunk() == other.chunk() && one.partition() == other.partition()
}

// A load of what is not held, or a drop of what is.
fn draw_change(
    rt: &impl Abort,
    alloc: Global,
    draws: &mut Draws,
    held: &mut Vec<Served>,
    table: &Table,
) -> Change {
    let drawn = draw_served(draws);
    let place = held.iter().position(|it| is_one_segment(it, &drawn));
    let near = draws.below(80) as usize;
    let gone = match place {
        Some(place) => place,
        None if near < held.len() || held.len() >= MOST_HELD => near % held.len().max(1),
        None => held.len(),
    };
    if gone < held.len() {
        let served = held.remove(gone);
        return Change::Drop(descriptor(rt, alloc, table, served));
    }
    held.push(drawn).expect(rt, "memory");
    Change::Load(descriptor(rt, alloc, table, drawn))
}

// All that is held, at a mark.
fn snapshot(rt: &impl Abort, alloc: Global, count: u64, held: &[Served], table: &Table) -> Reply {
    let mut segments = Vec::new(alloc);
    for served in held {
        segments
            .push(descriptor(rt, alloc, table, *served))
            .expect(rt, "memory");
    }
    Reply::snapshot(Mark::new(1, count), segments).expect(rt, "a snapshot")
}

// The inventory after a reply of a node.
fn applied(rt: &impl Abort, inventory: &Inventory, node: NodeNo, reply: &Reply) -> Inventory {
    let (next, outcome) = inventory.apply(node, reply).expect(rt, "a refused reply");
    assert!(rt; outcome == Outcome::Moved);
    next
}

// Makes a change of what node 0 holds.
fn step(rt: &impl Abort, alloc: Global, inventory: &mut Inventory, count: u64, change: Change) {
    let changes = vec![in alloc; change].expect(rt, "memory");
    let (from, to) = (Mark::new(1, count), Mark::new(1, count.wrapping_add(1)));
    let delta = Reply::delta(from, to, changes).expect(rt, "a delta");
    let outcome = inventory.advance(0, &delta).expect(rt, "a refused delta");
    assert!(rt; outcome == Outcome::Moved);
}

// Asserts that two inventories are equal, and that of each source they show and hide the same.
pub(crate) fn assert_alike(rt: &impl Abort, alloc: Global, one: &Inventory, other: &Inventory) {
    assert!(rt; one == other);
    for source in SOURCES {
        let source = name(rt, alloc, source);
        let shown = one.timeline(&source).map(|it| it.runs());
        assert!(rt; shown == other.timeline(&source).map(|it| it.runs()));
        if let (Some(one), Some(other)) = (one.timeline(&source), other.timeline(&source)) {
            let mut meter = Meter::new();
            let hidden = one.overshadowed(&mut meter).expect(rt, "memory");
            assert!(rt; hidden == other.overshadowed(&mut meter).expect(rt, "memory"));
        }
    }
}

// Takes drawn snapshots and the same change by change, and compares after each; a peer knows another node.
fn follow(rt: &impl Abort, alloc: Global, seed: u64) {
    let mut draws = Draws::new(seed);
    let table = Table::new(rt, alloc, &mut draws);
    let mut held: Vec<Served> = Vec::new(alloc);
    let mut count = 0_u64;
    let begun = snapshot(rt, alloc, count, &held, &table);
    let mut swept = applied(rt, &fresh(rt, alloc), 0, &begun);
    let mut edited = applied(rt, &fresh(rt, alloc), 0, &begun);
    for _snapshot in 0..SNAPSHOTS {
        let most = if draws.below(2) == 0 { 2 } else { 40 };
        for _change in 0..=draws.below(most) {
            let change = draw_change(rt, alloc, &mut draws, &mut held, &table);
            step(rt, alloc, &mut edited, count, change);
            count = count.wrapping_add(1);
        }
        let reply = snapshot(rt, alloc, count, &held, &table);
        let next = applied(rt, &swept, 0, &reply);
        assert_alike(rt, alloc, &next, &edited);
        let peer = applied(rt, &fresh(rt, alloc), 1, &reply);
        let both = next.join(&peer).expect(rt, "a join");
        assert_alike(rt, alloc, &both, &applied(rt, &edited, 1, &reply));
        swept = next;
    }
}

#[test]
fn snapshots_are_their_changes(rt: HostRuntime) {
    for seed in 0..TABLES {
        follow(&rt, rt.alloc(), seed);
    }
}
