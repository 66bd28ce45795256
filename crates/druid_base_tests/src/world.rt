use crate::rows::{change, mark_reported, parsed, push_partitions};
use crate::tables::{assert_printed, assert_reported, owned, printed};
use druid_inventory::Inventory;
use druid_laws_world::{AskKind, Event, Sim, SimFault};
use std::alloc::Global;
use std::process::Abort;

// A run of one node and two brokers, where two changes are kept: an event, what it is answered, and what broker 0 has
// of the node after it. Then broker 1 has the same.
const RUN: &str = "record 0 +0 = ok = 0 0
ask 0 0 = ok = 0 0
answer 0 = ok = 0 0
deliver 1 = ok = 1 1 0
record 0 +1 = ok = 1 1 0
ask 0 0 = ok = 1 1 0
answer 2 = ok = 1 1 0
cut 3 = ok = 1 1 0
deliver 3 = ok = 1 2 0 1
deliver 3 = ok = 1 2 0 1
deliver 1 = ok = 1 2 0 1
seed 0 1 0 = ok = 1 2 0 1
deliver 4 = ok = 1 2 0 1
answer 1 = E3: no such packet = 1 2 0 1";

// What comes after it: what was asked for is too old, is asked for whole, and is of another incarnation.
const LATER: &str = "fail 0 0 = ok = 1 2 0 1
record 0 -0 = ok = 1 2 0 1
record 0 +4 = ok = 1 2 0 1
record 0 +2 = ok = 1 2 0 1
ask 0 0 = ok = 1 2 0 1
answer 5 = ok = 1 2 0 1
deliver 6 = ok = 1 2 0 1
whole 0 0 = ok = 1 2 0 1
answer 7 = ok = 1 2 0 1
deliver 8 = ok = 1 5 1 2 4
restart 0 = ok = 1 5 1 2 4
ask 0 0 = ok = 1 5 1 2 4
answer 9 = ok = 1 5 1 2 4
deliver 10 = ok = 1 5 1 2 4
whole 0 0 = ok = 1 5 1 2 4
answer 11 = ok = 1 5 1 2 4
deliver 12 = ok = 2 0
deliver 8 = ok = 2 0";

// Node 0 of one loads partition 0, broker 0 of two asks it, and these events cannot happen then.
const REFUSED: &str = "record 0 +0 = ok
ask 0 0 = ok
record 1 +0 = E1: no such node
restart 1 = E1: no such node
ask 0 1 = E1: no such node
ask 9 1 = E1: no such node
ask 2 0 = E2: no such broker
page 2 0 = E2: no such broker
page 0 0 = E5: no pages came
seed 0 1 1 = E1: no such node
seed 9 9 1 = E1: no such node
seed 2 1 0 = E2: no such broker
seed 0 2 0 = E2: no such broker
fail 0 1 = E1: no such node
fail 2 0 = E2: no such broker
answer 1 = E3: no such packet
deliver 0 = E3: no such packet
deliver 1 = E3: no such packet
cut 1 = E3: no such packet
record 0 +0 = E4: refused
record 0 -1 = E4: refused
seed 0 1 0 = E4: refused";

// Each kind of event, in an order in which it can happen.
const EACH: &str = "record 0 +0 = ok
ask 0 0 = ok
answer 0 = ok
deliver 1 = ok
seed 0 1 0 = ok
deliver 2 = ok
record 0 -0 = ok
restart 0 = ok
cut 2 = ok
fail 1 0 = ok";

// An event of two words.
fn short_event(rt: &impl Abort, word: &str, number: &str) -> Event {
    let packet = parsed(rt, number);
    match word {
        "answer" => Event::Answer { packet },
        "deliver" => Event::Deliver { packet },
        "cut" => Event::Cut { packet },
        "restart" => Event::Restart {
            node: parsed(rt, number),
        },
        _ => panic!(rt; "no event"),
    }
}

// An event of three words, or a seed of four.
fn long_event(rt: &impl Abort, alloc: Global, word: &str, first: &str, second: &str) -> Event {
    match word {
        "record" => Event::Record {
            node: parsed(rt, first),
            change: change(rt, alloc, second),
        },
        "ask" => ask(rt, first, second, AskKind::Next),
        "whole" => ask(rt, first, second, AskKind::Whole),
        "page" => ask(rt, first, second, AskKind::Page(0)),
        "fail" => Event::Fail {
            broker: parsed(rt, first),
            node: parsed(rt, second),
        },
        _ => seed(rt, first, second),
    }
}

fn ask(rt: &impl Abort, broker: &str, node: &str, kind: AskKind) -> Event {
    Event::Ask {
        broker: parsed(rt, broker),
        node: parsed(rt, node),
        kind,
    }
}

fn seed(rt: &impl Abort, peer: &str, rest: &str) -> Event {
    let (broker, node) = rest.split_once(' ').expect(rt, "no seed");
    Event::Seed {
        peer: parsed(rt, peer),
        broker: parsed(rt, broker),
        node: parsed(rt, node),
        page: 0,
    }
}

fn event(rt: &impl Abort, alloc: Global, text: &str) -> Event {
    let (word, rest) = text.split_once(' ').expect(rt, "no event");
    match rest.split_once(' ') {
        Some((first, second)) => long_event(rt, alloc, word, first, second),
        None => short_event(rt, word, rest),
    }
}

// What an event is answered.
fn stepped(rt: &impl Abort, alloc: Global, sim: &mut Sim, text: &str) -> String {
    match sim.step(event(rt, alloc, text)) {
        Ok(()) => owned(rt, alloc, "ok"),
        Err(fault) => printed(rt, alloc, &fault),
    }
}

// The mark of node 0 and its partitions.
fn reported(rt: &impl Abort, alloc: Global, inventory: &Inventory) -> String {
    let mut text = mark_reported(rt, alloc, inventory.mark(0).expect(rt, "no node"));
    push_partitions(rt, &mut text, inventory.segments(0).expect(rt, "no node"));
    text
}

fn broker<'a>(rt: &impl Abort, sim: &'a Sim, broker: usize) -> &'a Inventory {
    sim.broker(broker).expect(rt, "no broker")
}

fn known(rt: &impl Abort, alloc: Global, sim: &Sim, number: usize) -> String {
    reported(rt, alloc, broker(rt, sim, number))
}

fn new_sim(rt: &impl Abort, alloc: Global) -> Sim {
    Sim::new(alloc, 1, 2, 2).expect(rt, "memory")
}

fn are_equal(rt: &impl Abort, sim: &Sim) -> bool {
    broker(rt, sim, 0) == broker(rt, sim, 1)
}

// Asserts that an event is answered so, and broker 0 has that after it.
fn assert_event(rt: &impl Abort, alloc: Global, sim: &mut Sim, row: &str) {
    let (text, wanted) = row.split_once(" = ").expect(rt, "no row");
    let (answer, held) = wanted.split_once(" = ").expect(rt, "no row");
    assert_reported(rt, row, stepped(rt, alloc, sim, text), answer);
    assert_reported(rt, row, known(rt, alloc, sim, 0), held);
}

fn assert_run(rt: &impl Abort, alloc: Global, sim: &mut Sim, rows: &str) {
    for row in rows.lines() {
        assert_event(rt, alloc, sim, row);
    }
}

#[test]
fn simulated_run(rt: HostRuntime) {
    let mut sim = new_sim(&rt, rt.alloc());
    assert_run(&rt, rt.alloc(), &mut sim, RUN);
    assert!(rt; are_equal(&rt, &sim));
    assert_run(&rt, rt.alloc(), &mut sim, LATER);
    assert!(rt; !are_equal(&rt, &sim));
    assert!(rt; sim.broker(2).is_none());
}

// Asserts what these events are answered, one after another.
fn assert_answers(rt: &impl Abort, alloc: Global, sim: &mut Sim, rows: &str) {
    for row in rows.lines() {
        let (text, wanted) = row.split_once(" = ").expect(rt, "no row");
        assert_reported(rt, text, stepped(rt, alloc, sim, text), wanted);
    }
}

#[test]
fn refusals(rt: HostRuntime) {
    let mut sim = new_sim(&rt, rt.alloc());
    assert_answers(&rt, rt.alloc(), &mut sim, REFUSED);
}

// Each call that may answer out of memory is made, and its answer is another.
#[test]
fn calls_succeed_with_memory(rt: HostRuntime) {
    let mut sim = new_sim(&rt, rt.alloc());
    assert_reported(&rt, "broker 0", known(&rt, rt.alloc(), &sim, 0), "0 0");
    assert_answers(&rt, rt.alloc(), &mut sim, EACH);
    assert_reported(&rt, "broker 1", known(&rt, rt.alloc(), &sim, 1), "1 1 0");
    assert_printed(&rt, rt.alloc(), &[(SimFault::Memory, "E9: out of memory")]);
}
