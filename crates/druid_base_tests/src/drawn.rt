//! Runs of drawn events: whatever comes late, twice or never, brokers at equal marks are equal, and each has what a plain
//! replay of the node's changes gives.
ghost use Rattle.std.specs.Prelude.{◌<◌};

use crate::rows::descriptor;
use druid_inventory::Inventory;
use druid_laws_world::{AskKind, Event, Sim, SimFault};
use druid_segment_descriptor::{Change, Descriptor, Mark, NodeNo};
use std::alloc::Global;
use std::process::Abort;

const RUNS: u64 = 1000;

const EVENTS: usize = 100;

// Runs in which node 0 begins with so many segments that it is followed in pages.
const PAGED_RUNS: u64 = 12;

const PAGED_EVENTS: usize = 600;

const NODES: NodeNo = 3;

const BROKERS: usize = 4;

const PARTITIONS: u16 = 6;

// Numbers that look random, the same in each run of the test.
#[derive(Drop)]
pub(crate) struct Draws {
    state: u64,
}

impl Draws {
    pub(crate) fn new(seed: u64) -> Draws {
        Draws { state: seed }
    }

    // A number below a bound.
    pub(crate) fn below(&mut self, bound: u64) -> u64
        requires { 0 < bound }
        ensures { result < bound }
    {
        self.state = self
            .state
            .wrapping_mul(6364136223846793005)
            .wrapping_add(1442695040888963407);
        (self.state >> 33) % bound
    }

    // One of three nodes; where there are pages, node 0 four times in five.
    fn node(&mut self, paged: bool) -> NodeNo {
        if paged && self.below(5) < 4 {
            return 0;
        }
        self.below(3) as NodeNo
    }

    // A node that starts again: where there are pages, not the one that has them.
    fn restarting(&mut self, paged: bool) -> NodeNo {
        if paged {
            return 1;
        }
        self.below(3) as NodeNo
    }

    // The whole once in four times, and else what comes next; where there are pages, one of them as often as both.
    fn kind(&mut self, paged: bool) -> AskKind {
        if paged && self.below(2) == 0 {
            return AskKind::Page(self.below(3) as u16);
        }
        if self.below(4) == 0 {
            AskKind::Whole
        } else {
            AskKind::Next
        }
    }

    fn broker(&mut self) -> usize {
        self.below(4) as usize
    }

    // One of the last packets, or the one after them, which is not there.
    fn packet(&mut self, packets: usize) -> usize {
        packets.saturating_sub(self.below(5) as usize)
    }
}

// An event, without what it is about.
#[derive(Clone, Copy)]
enum Drawn {
    Record {
        node: NodeNo,
        load: bool,
        partition: u16,
    },
    Restart {
        node: NodeNo,
    },
    Ask {
        broker: usize,
        node: NodeNo,
        kind: AskKind,
    },
    Answer {
        packet: usize,
    },
    Seed {
        peer: usize,
        broker: usize,
        node: NodeNo,
        page: u16,
    },
    Deliver {
        packet: usize,
    },
    Cut {
        packet: usize,
    },
    Fail {
        broker: usize,
        node: NodeNo,
    },
}

fn draw(draws: &mut Draws, packets: usize, paged: bool) -> Drawn {
    match draws.below(32) {
        0..=6 => Drawn::Record {
            node: draws.node(paged),
            load: draws.below(5) < 3,
            partition: draws.below(6) as u16,
        },
        7..=12 => Drawn::Ask {
            broker: draws.broker(),
            node: draws.node(paged),
            kind: draws.kind(paged),
        },
        13..=19 => Drawn::Answer {
            packet: draws.packet(packets),
        },
        20..=27 => Drawn::Deliver {
            packet: draws.packet(packets),
        },
        28 => Drawn::Seed {
            peer: draws.broker(),
            broker: draws.broker(),
            node: draws.node(paged),
            page: draws.below(3) as u16,
        },
        29 => Drawn::Cut {
            packet: draws.packet(packets),
        },
        30 => Drawn::Fail {
            broker: draws.broker(),
            node: draws.node(paged),
        },
        _ => Drawn::Restart {
            node: draws.restarting(paged),
        },
    }
}

fn change(rt: &impl Abort, alloc: Global, load: bool, partition: u16) -> Change {
    let segment = descriptor(rt, alloc, partition);
    if load {
        Change::Load(segment)
    } else {
        Change::Drop(segment)
    }
}

fn event(rt: &impl Abort, alloc: Global, drawn: Drawn) -> Event {
    match drawn {
        Drawn::Record {
            node,
            load,
            partition,
        } => Event::Record {
            node,
            change: change(rt, alloc, load, partition),
        },
        Drawn::Restart { node } => Event::Restart { node },
        Drawn::Ask { broker, node, kind } => Event::Ask { broker, node, kind },
        Drawn::Answer { packet } => Event::Answer { packet },
        Drawn::Seed {
            peer,
            broker,
            node,
            page,
        } => Event::Seed {
            peer,
            broker,
            node,
            page,
        },
        Drawn::Deliver { packet } => Event::Deliver { packet },
        Drawn::Cut { packet } => Event::Cut { packet },
        Drawn::Fail { broker, node } => Event::Fail { broker, node },
    }
}

// A change of a node that was recorded: of which incarnation, and the partition that it loads or drops.
#[derive(Clone, Copy, Drop)]
struct Reported {
    node: NodeNo,
    incarnation: u64,
    load: bool,
    partition: u16,
}

// What there was in a run, kept plainly.
#[derive(Drop)]
struct Plain {
    // So many loads came first at node 0: of the partitions from `BALLAST` on.
    ballast: u64,
    // All that nodes may load, by the text of the identifiers.
    segments: Vec<Descriptor>,
    reported: Vec<Reported>,
    restarts: Vec<NodeNo>,
    packets: usize,
}

// The incarnation of a node after some restarts.
fn incarnation_of(restarts: &[NodeNo], node: NodeNo) -> u64 {
    let mut incarnation = 1_u64;
    for restarted in restarts {
        if *restarted == node {
            incarnation = incarnation.wrapping_add(1);
        }
    }
    incarnation
}

// Keeps an event that happened.
fn keep(rt: &impl Abort, plain: &mut Plain, drawn: Drawn) {
    match drawn {
        Drawn::Record {
            node,
            load,
            partition,
        } => {
            let reported = Reported {
                node,
                incarnation: incarnation_of(&plain.restarts, node),
                load,
                partition,
            };
            plain.reported.push(reported).expect(rt, "memory");
        }
        Drawn::Restart { node } => plain.restarts.push(node).expect(rt, "memory"),
        Drawn::Ask { .. } | Drawn::Answer { .. } | Drawn::Seed { .. } => {
            plain.packets = plain.packets.wrapping_add(1);
        }
        Drawn::Deliver { .. } | Drawn::Cut { .. } | Drawn::Fail { .. } => {}
    }
}

// The first partition that no drawn event is of.
const BALLAST: u16 = 100;

fn bit(partition: u16) -> u64 {
    1_u64.wrapping_shl(partition as u32)
}

// What a node serves: the drawn partitions, as bits, and whether the others.
#[derive(Clone, Copy)]
struct Held {
    bits: u64,
    ballast: bool,
}

impl Held {
    fn has(&self, segment: &Descriptor) -> bool {
        let partition = segment.id().partition();
        if partition < BALLAST {
            self.bits & bit(partition) != 0
        } else {
            self.ballast
        }
    }
}

// What a node served at a mark, by a plain replay; None where it did not come to it while there were events.
fn replayed(plain: &Plain, node: NodeNo, mark: Mark) -> Option<Held> {
    let mut bits = 0_u64;
    let mut left = mark.count();
    let ballast = node == 0 && mark.incarnation() == 1;
    if ballast {
        left = left.checked_sub(plain.ballast)?;
    }
    for change in &plain.reported {
        if left > 0 && change.node == node && change.incarnation == mark.incarnation() {
            left -= 1;
            bits = if change.load {
                bits | bit(change.partition)
            } else {
                bits & !bit(change.partition)
            };
        }
    }
    if left == 0 {
        Some(Held { bits, ballast })
    } else {
        None
    }
}

fn mark_of(rt: &impl Abort, inventory: &Inventory, node: NodeNo) -> Mark {
    inventory.mark(node).expect(rt, "no node")
}

// Whether what is known of each node is what it served at that mark.
fn is_true(rt: &impl Abort, plain: &Plain, inventory: &Inventory) -> bool {
    for node in 0..NODES {
        let segments = inventory.segments(node).expect(rt, "no node");
        let Some(held) = replayed(plain, node, mark_of(rt, inventory, node)) else {
            return false;
        };
        let served = plain.segments.iter().filter(|it| held.has(it));
        if !segments.iter().eq(served) {
            return false;
        }
    }
    true
}

fn have_equal_marks(first: &Inventory, second: &Inventory) -> bool {
    for node in 0..NODES {
        if first.mark(node) != second.mark(node) {
            return false;
        }
    }
    true
}

// Whether the two are equal where their marks are, and what they are together is true.
fn agree(rt: &impl Abort, plain: &Plain, first: &Inventory, second: &Inventory) -> bool {
    if have_equal_marks(first, second) != (first == second) {
        return false;
    }
    let joined = first.join(second).expect(rt, "no join");
    is_true(rt, plain, &joined)
}

// Makes an event, where it can happen.
fn make(rt: &impl Abort, alloc: Global, sim: &mut Sim, plain: &mut Plain, drawn: Drawn) {
    match sim.step(event(rt, alloc, drawn)) {
        Ok(()) => keep(rt, plain, drawn),
        Err(fault) => assert!(rt; fault != SimFault::Memory),
    }
}

// Makes the events of a run.
fn run(
    rt: &impl Abort,
    alloc: Global,
    draws: &mut Draws,
    events: usize,
    sim: &mut Sim,
    plain: &mut Plain,
) {
    let paged = plain.ballast > 0;
    for _event in 0..events {
        let drawn = draw(draws, plain.packets, paged);
        make(rt, alloc, sim, plain, drawn);
    }
}

// Broker 0 asks node 0 for the whole and then for each page that there may be, and gets what it answers.
fn follow_in_pages(rt: &impl Abort, alloc: Global, sim: &mut Sim, plain: &mut Plain) {
    let (broker, node) = (0, 0);
    for kind in [
        AskKind::Whole,
        AskKind::Page(0),
        AskKind::Page(1),
        AskKind::Page(2),
    ] {
        let packet = plain.packets;
        make(rt, alloc, sim, plain, Drawn::Ask { broker, node, kind });
        make(rt, alloc, sim, plain, Drawn::Answer { packet });
        let packet = packet.wrapping_add(1);
        make(rt, alloc, sim, plain, Drawn::Deliver { packet });
    }
}

fn broker_of<'a>(rt: &impl Abort, sim: &'a Sim, broker: usize) -> &'a Inventory {
    sim.broker(broker).expect(rt, "no broker")
}

// Whether all that a broker knows is true, and agrees with what the others know.
fn is_true_beside_others(rt: &impl Abort, sim: &Sim, plain: &Plain, first: &Inventory) -> bool {
    for j in 0..BROKERS {
        if !agree(rt, plain, first, broker_of(rt, sim, j)) {
            return false;
        }
    }
    is_true(rt, plain, first)
}

// Whether all that the brokers know after a run is true.
fn are_true(rt: &impl Abort, sim: &Sim, plain: &Plain) -> bool {
    for i in 0..BROKERS {
        if !is_true_beside_others(rt, sim, plain, broker_of(rt, sim, i)) {
            return false;
        }
    }
    true
}

// In how many entries nodes were synced, in how many of these they had changes, and in how many more than a page has segments.
#[derive(Clone, Copy, Drop)]
struct Entries {
    synced: u64,
    changed: u64,
    paged: u64,
}

fn no_entries() -> Entries {
    Entries {
        synced: 0,
        changed: 0,
        paged: 0,
    }
}

impl Entries {
    fn count(&mut self, mark: Mark) {
        if mark != Mark::never() {
            self.synced = self.synced.wrapping_add(1);
        }
        if mark.count() > 0 {
            self.changed = self.changed.wrapping_add(1);
        }
        if mark.count() > 20_000 {
            self.paged = self.paged.wrapping_add(1);
        }
    }

    // Counts the entries of all brokers.
    fn count_all(&mut self, rt: &impl Abort, sim: &Sim) {
        for i in 0..BROKERS {
            let inventory = broker_of(rt, sim, i);
            for node in 0..NODES {
                self.count(mark_of(rt, inventory, node));
            }
        }
    }
}

// The number that puts the partitions of a chunk in the order of their identifiers' texts, which end in their digits; of 0 there
// are none.
fn place(partition: u16) -> u64 {
    let (mut digits, mut absent) = (u64::from(partition), 0_u64);
    for _digit in 1..5 {
        if digits < 10_000 {
            digits = digits.wrapping_mul(10);
            absent = absent.wrapping_add(1);
        }
    }
    digits.wrapping_mul(10).saturating_sub(absent)
}

fn fresh_plain(rt: &impl Abort, alloc: Global, ballast: u16) -> Plain {
    let mut partitions = Vec::new(alloc);
    for partition in 0..PARTITIONS {
        partitions.push(partition).expect(rt, "memory");
    }
    for number in 0..ballast {
        let partition = BALLAST.wrapping_add(number);
        partitions.push(partition).expect(rt, "memory");
    }
    partitions.sort_unstable_by_key(|partition| place(*partition));
    let mut segments = Vec::new(alloc);
    for partition in &partitions {
        let segment = descriptor(rt, alloc, *partition);
        segments.push(segment).expect(rt, "memory");
    }
    Plain {
        ballast: u64::from(ballast),
        segments,
        reported: Vec::new(alloc),
        restarts: Vec::new(alloc),
        packets: 0,
    }
}

// Whether all is true after a drawn run; counts how much brokers came to know.
fn drawn_run(rt: &impl Abort, alloc: Global, seed: u64, entries: &mut Entries) -> bool {
    let mut draws = Draws::new(seed);
    let mut sim = Sim::new(alloc, 3, 4, 5).expect(rt, "memory");
    let mut plain = fresh_plain(rt, alloc, 0);
    run(rt, alloc, &mut draws, EVENTS, &mut sim, &mut plain);
    entries.count_all(rt, &sim);
    are_true(rt, &sim, &plain)
}

// The same where node 0 first loads 20,001 segments or some more, and at last a broker asks it for all of its pages.
fn paged_run(rt: &impl Abort, alloc: Global, seed: u64, entries: &mut Entries) -> bool {
    let mut draws = Draws::new(seed);
    let mut sim = Sim::new(alloc, 3, 4, 5).expect(rt, "memory");
    let ballast = 20_001 + draws.below(25_000) as u16;
    let mut plain = fresh_plain(rt, alloc, ballast);
    for number in 0..ballast {
        let change = change(rt, alloc, true, BALLAST.wrapping_add(number));
        sim.step(Event::Record { node: 0, change })
            .expect(rt, "a refused load");
    }
    run(rt, alloc, &mut draws, PAGED_EVENTS, &mut sim, &mut plain);
    follow_in_pages(rt, alloc, &mut sim, &mut plain);
    entries.count_all(rt, &sim);
    are_true(rt, &sim, &plain)
}

#[test]
fn brokers_at_equal_marks_are_equal(rt: HostRuntime) {
    let mut entries = no_entries();
    for seed in 0..RUNS {
        assert!(rt; drawn_run(&rt, rt.alloc(), seed, &mut entries), "at {seed}");
    }
    // of 12 entries in each of 1,000 runs
    assert!(rt; entries.synced > 3000 && entries.changed > 2000);
}

#[test]
fn brokers_that_follow_in_pages_are_equal(rt: HostRuntime) {
    let mut entries = no_entries();
    for seed in 0..PAGED_RUNS {
        assert!(rt; paged_run(&rt, rt.alloc(), seed, &mut entries), "at {seed}");
    }
    // of 4 entries in each run, of which broker 0 has one
    assert!(rt; entries.paged > PAGED_RUNS / 2);
}
