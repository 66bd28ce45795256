//! Which nodes failed lately, as it is noted and seen.
use crate::link::REQUEST;
use druid_http_message::WireFault;
use druid_link::{Link, MemoryLink};
use druid_link_health::{Asker, Ceiling, Counts, Health, MonitoredLink, Oversize, Snapshot};
use std::alloc::Global;
use std::process::Abort;
use std::sync::Arc;
use std::thread::{Threads, join};
use std::time::Clock;

// Of three nodes, whose exchanges may take 200 milliseconds: so a node that ails is tried after a second.
fn three_nodes(rt: &impl Abort, alloc: Global) -> Health {
    Health::new(alloc, 3, 200).expect(rt, "memory")
}

// What is noted and seen of them.
#[derive(Clone, Copy)]
enum Step {
    // An exchange with a node ended so at that time.
    Ends(Asker, u16, Result<(), WireFault>, u64),
    // A query's own deadline cut an exchange with a node short.
    Cut(u16),
    // A query sees at that time that these ail, and tries those.
    Sees(u64, u64, u64),
    // So does a query that asks no node.
    SeesAlone(u64, u64, u64),
    // So does a query whose exchange with the node fails at that time.
    SeesFailing(u64, u64, u64, u16),
    // So does a query whose own deadline cuts its exchange with the node short.
    SeesCut(u64, u64, u64, u16),
}

fn is_seen(snapshot: &Snapshot, ailing: u64, tried: u64) -> bool {
    snapshot.ailing() == ailing && snapshot.tried() == tried
}

// Whether what is seen is that.
fn take(health: &Health, step: Step) -> bool {
    match step {
        Step::Ends(asker, node, ended, now) => {
            health.note(node, asker, ended, now);
            true
        }
        Step::Cut(node) => {
            health.note_cut(node, Err(WireFault::Read));
            true
        }
        Step::Sees(now, ailing, tried) => is_seen(&health.snapshot(now), ailing, tried),
        Step::SeesAlone(now, ailing, tried) => {
            let snapshot = health.snapshot(now);
            let seen = is_seen(&snapshot, ailing, tried);
            health.release(snapshot);
            seen
        }
        Step::SeesFailing(now, ailing, tried, node) => {
            let snapshot = health.snapshot(now);
            let seen = is_seen(&snapshot, ailing, tried);
            health.note(node, Asker::Query, Err(WireFault::Read), now);
            health.release(snapshot);
            seen
        }
        Step::SeesCut(now, ailing, tried, node) => {
            let snapshot = health.snapshot(now);
            let seen = is_seen(&snapshot, ailing, tried);
            health.note_cut(node, Err(WireFault::Read));
            health.release(snapshot);
            seen
        }
    }
}

fn assert_steps(rt: &impl Abort, alloc: Global, steps: &[Step]) {
    let health = three_nodes(rt, alloc);
    for (place, step) in steps.iter().enumerate() {
        assert!(rt; take(&health, *step), "step {place}");
    }
}

const QUERY: Asker = Asker::Query;

const SYNCER: Asker = Asker::Syncer;

// A query's failure lasts until a query succeeds. One query tries the node after each second.
const TRIES: [Step; 12] = [
    Step::Sees(0, 0, 0),
    Step::Ends(QUERY, 1, Err(WireFault::Read), 10),
    Step::Sees(10, 2, 0),
    Step::Sees(1_009, 2, 0),
    Step::Sees(1_010, 0, 2),
    Step::Sees(1_010, 2, 0),
    Step::Sees(2_009, 2, 0),
    Step::Sees(2_010, 0, 2),
    Step::Ends(QUERY, 1, Ok(()), 2_020),
    Step::Sees(2_020, 0, 0),
    Step::Ends(QUERY, 2, Err(WireFault::Connect), 2_030),
    Step::Sees(2_030, 4, 0),
];

// A syncer's failure counts, and a syncer that succeeds clears what syncers noted alone.
const SYNCERS: [Step; 13] = [
    Step::Ends(SYNCER, 0, Err(WireFault::Write), 3_000),
    Step::Sees(3_000, 1, 0),
    Step::Ends(SYNCER, 0, Ok(()), 3_001),
    Step::Sees(3_001, 0, 0),
    Step::Ends(QUERY, 0, Err(WireFault::Read), 4_000),
    Step::Ends(SYNCER, 0, Ok(()), 4_100),
    Step::Sees(4_100, 1, 0),
    Step::Ends(SYNCER, 0, Err(WireFault::Read), 4_200),
    Step::Ends(SYNCER, 0, Ok(()), 4_300),
    Step::Sees(5_199, 1, 0),
    Step::Sees(5_200, 0, 1),
    Step::Ends(QUERY, 0, Ok(()), 5_300),
    Step::Sees(5_300, 0, 0),
];

// What was noted late sets nothing back. A query that did without the node leaves its try to the next.
const RELEASES: [Step; 9] = [
    Step::Ends(QUERY, 2, Err(WireFault::Read), 6_000),
    Step::Ends(QUERY, 2, Err(WireFault::Read), 5_500),
    Step::Sees(6_999, 4, 0),
    Step::SeesAlone(7_000, 0, 4),
    Step::SeesAlone(7_000, 0, 4),
    Step::SeesFailing(7_000, 0, 4, 2),
    Step::Sees(7_000, 4, 0),
    Step::Sees(7_999, 4, 0),
    Step::Sees(8_000, 0, 4),
];

// A node that answers too much is there, out of memory says nothing, and a node beyond is passed over.
const OTHERS: [Step; 9] = [
    Step::Ends(QUERY, 0, Err(WireFault::Memory), 10),
    Step::Sees(10, 0, 0),
    Step::Ends(QUERY, 0, Err(WireFault::BodyTooLong), 20),
    Step::Sees(20, 0, 0),
    Step::Ends(QUERY, 0, Err(WireFault::Read), 30),
    Step::Ends(QUERY, 0, Err(WireFault::Memory), 40),
    Step::Sees(40, 1, 0),
    Step::Ends(QUERY, 0, Err(WireFault::BodyTooLong), 50),
    Step::Sees(50, 0, 0),
];

// What a query's own deadline cut short says nothing of a node. But where that query was to try it, the node rests then.
const CUTS: [Step; 8] = [
    Step::Cut(0),
    Step::Sees(10, 0, 0),
    Step::Ends(QUERY, 0, Err(WireFault::Read), 20),
    Step::Cut(0),
    Step::Sees(1_019, 1, 0),
    Step::SeesCut(1_020, 0, 1, 0),
    Step::Sees(2_019, 1, 0),
    Step::Sees(2_020, 0, 1),
];

#[test]
fn cut_exchanges_say_nothing(rt: HostRuntime) {
    assert_steps(&rt, rt.alloc(), &CUTS);
}

#[test]
fn ailing_nodes_are_tried(rt: HostRuntime) {
    assert_steps(&rt, rt.alloc(), &TRIES);
}

#[test]
fn syncers_clear_their_own(rt: HostRuntime) {
    assert_steps(&rt, rt.alloc(), &SYNCERS);
}

#[test]
fn tries_that_were_not_made(rt: HostRuntime) {
    assert_steps(&rt, rt.alloc(), &RELEASES);
}

#[test]
fn faults_that_are_no_failures(rt: HostRuntime) {
    assert_steps(&rt, rt.alloc(), &OTHERS);
}

// What met a limit is taken once, of each node apart; a node beyond is passed over.
#[test]
fn ceilings_are_taken(rt: HostRuntime) {
    let health = three_nodes(&rt, rt.alloc());
    health.note_ceiling(0, Ceiling::Answer);
    health.note_ceiling(0, Ceiling::Answer);
    health.note_ceiling(0, Ceiling::Question);
    health.note_ceiling(2, Ceiling::Question);
    health.note_ceiling(3, Ceiling::Answer);
    let first = Oversize {
        answers: 2,
        questions: 1,
    };
    let last = Oversize {
        answers: 0,
        questions: 1,
    };
    for (node, wanted) in [(0, Some(first)), (1, None), (2, Some(last)), (3, None)] {
        assert!(rt; health.take_oversize(node) == wanted, "node {node}");
        assert!(rt; health.take_oversize(node).is_none(), "node {node} again");
    }
}

// What a link notes of an answer of these bytes, as how many answers and questions met a limit.
fn ceilings_of<C: Clock + Drop>(
    rt: &impl Abort,
    alloc: Global,
    clock: C,
    answer: &str,
) -> (u64, u64) {
    let health = Arc::new(alloc, three_nodes(rt, alloc))
        .ok()
        .expect(rt, "memory");
    let reply = String::from_str(alloc, answer)
        .expect(rt, "memory")
        .into_bytes();
    let mut replies = Vec::new(alloc);
    replies.push(reply).ok().expect(rt, "memory");
    let shared = Arc::try_clone(&health).ok().expect(rt, "memory");
    let mut link = MonitoredLink::new(MemoryLink::new(replies, 1), clock, 1, QUERY, shared);
    for _ in 0..2 {
        let _ = link.exchange(alloc, REQUEST);
    }
    health
        .take_oversize(1)
        .map_or((0, 0), |met| (met.answers, met.questions))
}

#[test]
fn links_note_ceilings(rt: HostRuntime) {
    let answers = [
        ("{\"error\":\"TooLarge\"}", (1, 0)),
        ("HTTP/1.1 400 Bad Request {\"error\":\"X7\"}", (0, 1)),
        ("{\"error\":\"X6\"}", (0, 0)),
        ("{\"error\":\"TooLarge\"} ", (0, 0)),
    ];
    for (answer, wanted) in answers {
        let noted = ceilings_of(&rt, rt.alloc(), &rt, answer);
        assert!(rt; noted == wanted, "{answer}");
    }
}

// The last of 64 nodes, the greatest times, and nodes beyond.
#[test]
fn the_last_node(rt: HostRuntime) {
    let health = Health::new(rt.alloc(), 64, 30_000).expect(&rt, "memory");
    health.note(63, QUERY, Err(WireFault::Read), u64::MAX);
    health.note(64, QUERY, Err(WireFault::Read), 0);
    assert!(rt; is_seen(&health.snapshot(0), 1 << 63, 0), "at the start");
    assert!(rt;
        is_seen(&health.snapshot(u64::MAX), 0, 1 << 63),
        "at the end"
    );
    assert!(rt;
        health.ails(63) == Some(true) && health.ails(62) == Some(false),
        "others ail"
    );
    assert!(rt;
        health.ails(64).is_none() && health.counts(64).is_none(),
        "a node beyond"
    );
}

// The pause is as long as an exchange may take, where that is more than a second.
#[test]
fn pause_of_the_patience(rt: HostRuntime) {
    let health = Health::new(rt.alloc(), 1, 30_000).expect(&rt, "memory");
    health.note(0, QUERY, Err(WireFault::Read), 0);
    assert!(rt; is_seen(&health.snapshot(29_999), 1, 0), "too soon");
    assert!(rt; is_seen(&health.snapshot(30_000), 0, 1), "too late");
}

// ---- links

// A link to a node over replies in memory, of which two come.
fn monitored<C: Clock>(
    rt: &impl Abort,
    alloc: Global,
    clock: C,
    asker: Asker,
    health: &Arc<Health, Global>,
) -> MonitoredLink<MemoryLink, C> {
    let health = Arc::try_clone(health).ok().expect(rt, "memory");
    MonitoredLink::new(MemoryLink::new(Vec::new(alloc), 2), clock, 1, asker, health)
}

fn counts(succeeded: u64, reads: u64) -> Counts {
    Counts {
        succeeded,
        failed: [0, reads, 0, 0, 0, 0, 0, 0, 0],
    }
}

#[test]
fn exchanges_are_noted(rt: HostRuntime) {
    let health = Arc::new(rt.alloc(), three_nodes(&rt, rt.alloc()))
        .ok()
        .expect(&rt, "memory");
    let mut link = monitored(&rt, rt.alloc(), &rt, QUERY, &health);
    for _ in 0..5 {
        let _ = link.exchange(rt.alloc(), REQUEST);
    }
    assert!(rt; health.counts(1) == Some(counts(2, 3)), "other counts");
    assert!(rt;
        health.counts(0) == Some(counts(0, 0)),
        "another node's counts"
    );
    assert!(rt;
        health.ails(1) == Some(true) && health.ails(0) == Some(false),
        "others ail"
    );
    assert!(rt; link.faults() == 3, "other faults");
    let mut syncer = monitored(&rt, rt.alloc(), &rt, SYNCER, &health);
    let _ = syncer.exchange(rt.alloc(), REQUEST);
    assert!(rt; health.ails(1) == Some(true), "a syncer cleared it");
    let mut worker = monitored(&rt, rt.alloc(), &rt, QUERY, &health);
    let _ = worker.exchange(rt.alloc(), REQUEST);
    assert!(rt; health.ails(1) == Some(false), "nobody cleared it");
}

// A link without replies, each of whose exchanges is X2, and which is hastened before.
fn fails_hastened<C: Clock + Drop>(
    rt: &impl Abort,
    alloc: Global,
    clock: C,
    health: &Arc<Health, Global>,
    millis: Option<u64>,
) {
    let mut link = monitored(rt, alloc, clock, QUERY, health);
    for _ in 0..2 {
        let _ = link.exchange(alloc, REQUEST);
    }
    link.hasten(Some(0));
    link.hasten(millis);
    let _ = link.exchange(alloc, REQUEST);
}

// An exchange that fails once its query's deadline is over is counted, and says nothing; one that fails before it, or of a query
// that says no time, is the node's failure.
#[test]
fn hastened_exchanges(rt: HostRuntime) {
    let health = Arc::new(rt.alloc(), three_nodes(&rt, rt.alloc()))
        .ok()
        .expect(&rt, "memory");
    fails_hastened(&rt, rt.alloc(), &rt, &health, Some(0));
    assert!(rt; health.ails(1) == Some(false), "the deadline was over");
    fails_hastened(&rt, rt.alloc(), &rt, &health, Some(60_000));
    assert!(rt; health.ails(1) == Some(true), "the deadline was far");
    let again = Arc::new(rt.alloc(), three_nodes(&rt, rt.alloc()))
        .ok()
        .expect(&rt, "memory");
    fails_hastened(&rt, rt.alloc(), &rt, &again, None);
    assert!(rt; again.ails(1) == Some(true), "no deadline");
    assert!(rt; health.counts(1) == Some(counts(4, 2)), "other counts");
}

// ---- threads

// How many of four queries at the same time try the node.
fn tries_at_once<R: Threads + Sync>(rt: &R, health: &Health, now: u64) -> u64 {
    let look = || health.snapshot(now).tried();
    let two = || {
        let (a, b) = join(
            rt,
            || health.snapshot(now).tried(),
            || health.snapshot(now).tried(),
        );
        a.saturating_add(b)
    };
    let (a, b) = join(rt, two, || look().saturating_add(look()));
    a.saturating_add(b)
}

// One of all queries that look at the same time tries the node, and no note is lost.
#[test]
fn one_of_many_tries(rt: HostRuntime) {
    let health = Health::new(rt.alloc(), 1, 0).expect(&rt, "memory");
    health.note(0, QUERY, Err(WireFault::Read), 0);
    for round in 1..200u64 {
        assert!(rt;
            tries_at_once(&rt, &health, round * 1_000) == 1,
            "round {round}"
        );
    }
}

fn note_often(health: &Health, ended: Result<(), WireFault>) {
    for now in 0..10_000u64 {
        health.note(0, QUERY, ended, now);
    }
}

#[test]
fn notes_of_many_threads(rt: HostRuntime) {
    let health = Health::new(rt.alloc(), 1, 0).expect(&rt, "memory");
    join(
        &rt,
        || note_often(&health, Ok(())),
        || note_often(&health, Err(WireFault::Read)),
    );
    assert!(rt;
        health.counts(0) == Some(counts(10_000, 10_000)),
        "other counts"
    );
    health.note(0, QUERY, Err(WireFault::Read), 10_000);
    assert!(rt; health.ails(0) == Some(true), "it is well");
    health.note(0, QUERY, Ok(()), 10_001);
    assert!(rt; health.ails(0) == Some(false), "it ails");
}
