//! That calls succeed where memory serves, at each size up to the limits, and what is one beyond them is refused.
use crate::rows::{descriptor, first_segments, interval, name, numbered};
use druid_inventory::{ApplyFault, Inventory, Outcome};
use druid_laws_world::{AskKind, Event, Sim};
use druid_segment_descriptor::{Ask, Body, Change, Descriptor, Mark, Reply, ReplyFault};
use druid_segment_id::{Meter, Name, SegmentId, Version};
use druid_sync_history::History;
use druid_sync_text::{SyncFault, read_reply, reply_text};
use druid_time::{Instant, Interval, IntervalSet};
use druid_timeline::Timeline;
use std::alloc::Global;
use std::process::Abort;

// Sizes around which code may change its way.
const SIZES: [u16; 8] = [0, 1, 2, 3, 5, 17, 65, 1_000];

// Asserts that something holds at each of the sizes between a least one and a limit, and at the limit.
fn assert_sizes<R: Abort, F: Fn(&R, Global, u16) -> bool>(
    rt: &R,
    alloc: Global,
    least: u16,
    limit: u16,
    holds: F,
)
    requires { F.IsAlwaysCallable holds }
{
    for size in SIZES {
        let is_beyond = size < least || limit < size;
        assert!(rt; is_beyond || holds(rt, alloc, size), "{size}");
    }
    assert!(rt; holds(rt, alloc, limit), "{limit}");
}

// So many partitions of one chunk.
fn partitions(rt: &impl Abort, alloc: Global, count: u16) -> Vec<Descriptor> {
    let mut segments = Vec::new(alloc);
    for partition in 0..count {
        segments
            .push(descriptor(rt, alloc, partition))
            .expect(rt, "memory");
    }
    segments
}

fn loads(rt: &impl Abort, alloc: Global, count: u16) -> Vec<Change> {
    let mut changes = Vec::new(alloc);
    for segment in partitions(rt, alloc, count) {
        changes.push(Change::Load(segment)).expect(rt, "memory");
    }
    changes
}

fn snapshot(rt: &impl Abort, alloc: Global, mark: Mark, count: u16) -> Reply {
    let segments = partitions(rt, alloc, count);
    assert!(rt; 1 <= mark.incarnation());
    Reply::snapshot(mark, segments).expect(rt, "a snapshot")
}

// Nodes `n0` and so on.
fn nodes(rt: &impl Abort, alloc: Global, count: u16) -> Vec<Name> {
    let mut names = Vec::new(alloc);
    for number in 0..count {
        let text = format!(in alloc; "n{number}").expect(rt, "memory");
        names
            .push(name(rt, alloc, text.as_str()))
            .expect(rt, "memory");
    }
    names
}

// What a broker of so many nodes knows first.
fn fresh(rt: &impl Abort, alloc: Global, count: u16) -> Inventory {
    let names = nodes(rt, alloc, count);
    assert!(rt; !names.is_empty() && names.len() <= 64);
    Inventory::new(alloc, names).expect(rt, "an inventory")
}

// Whether a reply is written, and read back as it was.
fn is_read_back(rt: &impl Abort, alloc: Global, reply: &Reply) -> bool {
    let text = reply_text(alloc, reply).expect(rt, "memory");
    let read = read_reply(alloc, text.as_str().as_bytes()).expect(rt, "a reply");
    reply_text(alloc, &read).expect(rt, "memory") == text
}

// Whether a broker takes the snapshots of three incarnations, the last two with so many segments.
fn follows_restarts(rt: &impl Abort, alloc: Global, count: u16) -> bool {
    let mut inventory = fresh(rt, alloc, 1);
    for (incarnation, held) in [(1, 2), (2, count), (3, count)] {
        let reply = snapshot(rt, alloc, Mark::new(incarnation, 4), held);
        let (next, outcome) = inventory.apply(0, &reply).expect(rt, "a refused snapshot");
        assert!(rt; outcome == Outcome::Moved);
        inventory = next;
    }
    true
}

// Whether a broker takes a delta of so many loads.
fn takes_delta(rt: &impl Abort, alloc: Global, count: u16) -> bool {
    let (from, to) = (Mark::new(1, 7), Mark::new(1, 7 + count as u64));
    let (inventory, _) = fresh(rt, alloc, 1)
        .apply(0, &snapshot(rt, alloc, from, 0))
        .expect(rt, "a refused snapshot");
    let delta = Reply::delta(from, to, loads(rt, alloc, count)).expect(rt, "a delta");
    let (next, _) = inventory.apply(0, &delta).expect(rt, "a refused delta");
    is_read_back(rt, alloc, &delta)
        && next.mark(0) == Some(to)
        && next.segments(0).expect(rt, "a node").len() == count as usize
}

// So many changes of one segment: loads and drops in turn.
fn turns(rt: &impl Abort, alloc: Global, count: u16) -> Vec<Change> {
    let mut changes = Vec::new(alloc);
    for number in 0..count {
        let segment = descriptor(rt, alloc, 0);
        let change = if number % 2 == 0 {
            Change::Load(segment)
        } else {
            Change::Drop(segment)
        };
        changes.push(change).expect(rt, "memory");
    }
    changes
}

// Whether a broker takes a delta of so many changes of one segment, and holds what the last one leaves.
fn takes_turns(rt: &impl Abort, alloc: Global, count: u16) -> bool {
    let (from, to) = (Mark::new(1, 7), Mark::new(1, 7 + count as u64));
    let (mut inventory, _) = fresh(rt, alloc, 1)
        .apply(0, &snapshot(rt, alloc, from, 0))
        .expect(rt, "a refused snapshot");
    let delta = Reply::delta(from, to, turns(rt, alloc, count)).expect(rt, "a delta");
    let (next, _) = inventory.apply(0, &delta).expect(rt, "a refused delta");
    inventory.advance(0, &delta).expect(rt, "a refused delta");
    let held = (count % 2) as usize;
    next == inventory
        && next.segments(0).expect(rt, "a node").len() == held
        && next.sources().expect(rt, "memory").len() == held
}

// Whether a node that keeps so many changes answers with as many.
fn answers_kept(rt: &impl Abort, alloc: Global, count: u16) -> bool {
    assert!(rt; 1 <= count && count <= 1_000);
    let mut history = History::new(alloc, 3, count as usize).expect(rt, "memory");
    for change in loads(rt, alloc, count) {
        history.record(change).expect(rt, "a refused load");
    }
    let reply = history
        .since(&Ask::Since(Mark::new(3, 0)))
        .expect(rt, "memory");
    match reply.body() {
        Body::Delta { changes, .. } => changes.as_slice().len() == count as usize,
        _ => false,
    }
}

// The minute of that number of the first day of 2024.
fn minute(rt: &impl Abort, number: u16) -> Interval {
    let start = 1_704_067_200_000 + 60_000 * number as i64;
    let (start, end) = (Instant::new(start), Instant::new(start + 60_000));
    let (start, end) = (start.expect(rt, "an instant"), end.expect(rt, "an instant"));
    Interval::new(start, end).expect(rt, "an interval")
}

// A timeline of so many minutes, each visible.
fn minutes_served(rt: &impl Abort, alloc: Global, count: u16) -> Timeline {
    let mut timeline = Timeline::new(alloc, name(rt, alloc, "wiki"));
    for number in 0..count {
        let version = Version::new(alloc, "v1").expect(rt, "a version");
        let id = SegmentId::new(name(rt, alloc, "wiki"), minute(rt, number), version, 0);
        let segment = Descriptor::new(id, 1, 7).expect(rt, "a descriptor");
        timeline
            .add(&segment, 0, &mut Meter::new())
            .expect(rt, "a refused segment");
    }
    timeline
}

// So many minutes, of which none touches another.
fn every_other_minute(rt: &impl Abort, alloc: Global, count: u16) -> IntervalSet {
    let mut intervals = Vec::new(alloc);
    for number in 0..count {
        intervals
            .push(minute(rt, number.saturating_mul(2)))
            .expect(rt, "memory");
    }
    IntervalSet::of(alloc, &intervals).expect(rt, "memory")
}

// Whether a lookup of the day gives so many pieces, and a lookup of every other minute half of them.
fn finds_pieces(rt: &impl Abort, alloc: Global, count: u16) -> bool {
    let timeline = minutes_served(rt, alloc, count);
    let day = [interval(rt, "2024-01-01/2024-01-02")];
    let day = IntervalSet::of(alloc, &day).expect(rt, "memory");
    let half = every_other_minute(rt, alloc, count.div_ceil(2));
    let all = timeline.lookup(&day).expect(rt, "memory").len();
    let some = timeline.lookup(&half).expect(rt, "memory").len();
    half.parts().len() == some && all == count as usize && some == count.div_ceil(2) as usize
}

// Whether there is a broker of so many nodes, and an inventory is joined with itself.
fn knows_nodes(rt: &impl Abort, alloc: Global, count: u16) -> bool {
    let inventory = fresh(rt, alloc, count);
    let joined = inventory.join(&inventory).expect(rt, "a join");
    joined.node_count() == count && joined == inventory
}

// Whether a simulation of so many nodes and brokers runs: each node starts again, and each broker asks it.
fn simulates(rt: &impl Abort, alloc: Global, count: u16) -> bool {
    assert!(rt; 1 <= count && count <= 64);
    let servers = count as usize;
    let mut sim = Sim::new(alloc, servers, servers, 1_000).expect(rt, "memory");
    for node in 0..count {
        sim.step(Event::Restart { node }).expect(rt, "a restart");
        sim.step(Event::Restart { node }).expect(rt, "a restart");
        let broker = node as usize;
        let kind = AskKind::Next;
        let ask = Event::Ask { broker, node, kind };
        sim.step(ask).expect(rt, "an ask");
    }
    true
}

#[test]
fn calls_succeed_with_memory(rt: HostRuntime) {
    assert_sizes(&rt, rt.alloc(), 0, 1_000, follows_restarts);
    assert_sizes(&rt, rt.alloc(), 0, 1_000, takes_delta);
    assert_sizes(&rt, rt.alloc(), 0, 1_000, takes_turns);
    assert_sizes(&rt, rt.alloc(), 1, 1_000, answers_kept);
    assert_sizes(&rt, rt.alloc(), 0, 1_000, finds_pieces);
    assert_sizes(&rt, rt.alloc(), 1, 64, knows_nodes);
    assert_sizes(&rt, rt.alloc(), 1, 64, simulates);
}

// A text of so many letters.
fn letters(rt: &impl Abort, alloc: Global, count: usize) -> String {
    let mut text = String::new(alloc);
    for _ in 0..count {
        text.push_str("v").expect(rt, "memory");
    }
    text
}

#[test]
fn longest_texts(rt: HostRuntime) {
    let alloc = rt.alloc();
    for count in 1..=101usize {
        let text = letters(&rt, alloc, count);
        let named = Name::new(alloc, text.as_str());
        assert!(&rt; named.is_ok() == (count <= 100), "{count}");
        let version = Version::new(alloc, text.as_str());
        assert!(&rt; version.is_ok() == (count <= 64), "{count}");
    }
}

#[test]
fn one_beyond(rt: HostRuntime) {
    let alloc = rt.alloc();
    let (from, to) = (Mark::new(1, 0), Mark::new(1, 1_001));
    let delta = Reply::delta(from, to, loads(&rt, alloc, 1_001));
    assert!(&rt; delta.err() == Some(ReplyFault::TooMany));
    let snapshot = Reply::snapshot(from, first_segments(&rt, alloc, 200_001));
    assert!(&rt; snapshot.err() == Some(ReplyFault::TooMany));
    assert!(&rt; read_reply(alloc, b"\xff").err() == Some(SyncFault::NotJson));
}

// A broker that knows 200,000 segments of a node after a change.
fn full(rt: &impl Abort, alloc: Global) -> Inventory {
    let snapshot = Reply::snapshot(Mark::new(1, 1), first_segments(rt, alloc, 200_000));
    let snapshot = snapshot.expect(rt, "a snapshot");
    let (inventory, _) = fresh(rt, alloc, 1)
        .apply(0, &snapshot)
        .expect(rt, "a refused snapshot");
    inventory
}

// What it makes of two changes after that.
fn two_changes(
    rt: &impl Abort,
    alloc: Global,
    inventory: &Inventory,
    first: Change,
    second: Change,
) -> Result<Outcome, ApplyFault> {
    let mut changes = Vec::new(alloc);
    changes.push(first).expect(rt, "memory");
    changes.push(second).expect(rt, "memory");
    let delta = Reply::delta(Mark::new(1, 1), Mark::new(1, 3), changes).expect(rt, "a delta");
    match inventory.apply(0, &delta) {
        Ok((_, outcome)) => Ok(outcome),
        Err(fault) => Err(fault),
    }
}

#[test]
fn too_many_held(rt: HostRuntime) {
    let alloc = rt.alloc();
    let inventory = full(&rt, alloc);
    let load = || Change::Load(numbered(&rt, alloc, 200_000));
    let drop = || Change::Drop(numbered(&rt, alloc, 0));
    let refused = two_changes(&rt, alloc, &inventory, load(), drop());
    assert!(&rt; refused == Err(ApplyFault::TooMany));
    let moved = two_changes(&rt, alloc, &inventory, drop(), load());
    assert!(&rt; moved == Ok(Outcome::Moved));
}
