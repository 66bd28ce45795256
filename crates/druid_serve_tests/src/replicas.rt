//! A replica that keeps silent: one query waits for it, the next ones go to the other first, and once it answers again it has its share.
use crate::folders::{NEWER_FILE, OLDER_FILE, file_bytes, put};
use crate::host::Host;
use crate::live_clusters::{ASK, NEWER, answered, link_to};
use crate::relay::{Relay, relayed_config, start_relay};
use crate::serve::{Place, assert_served, clear, place_of, served};
use druid_link_health::monotonic_millis;
use std::alloc::Global;
use std::net::{Net, TcpListener, TcpStream};
use std::process::Abort;
use std::sync::atomic::Ordering;
use std::thread;
use std::time::Duration;

// How many milliseconds an exchange with a node may take. A node that failed is tried again after as many.
const PATIENCE: u64 = 3_000;

// The least time from when a query began that found the node silent to when the next query comes there, in milliseconds: the patience
// and a pause, less what clocks may differ by. Where failures are not remembered the next comes after the patience and two queries.
const LEAST_BETWEEN: u64 = 5_900;

// How many queries are asked while the node keeps silent: fewer where the machine is so busy that they take as many milliseconds.
const QUERIES: u64 = 50;

const MOST_MILLISECONDS: u64 = 15_000;

// How many once it answers again, and how many of them it gets at least, where every second one is its share.
const LATER_QUERIES: u64 = 10;

const LEAST_SHARE: u64 = 3;

// How often a query looks whether the node is asked again, 10 milliseconds apart.
const LOOKS: u64 = 2_000;

// A place whose two nodes have the same segments.
fn place<R: Host + Net<Listener = TcpListener, Stream = TcpStream>>(
    rt: &R,
    alloc: Global,
) -> Place {
    let place = place_of(rt, alloc, "replicas");
    let (older, newer) = (
        file_bytes(rt, alloc, OLDER_FILE),
        file_bytes(rt, alloc, NEWER_FILE),
    );
    put(rt, alloc, place.newer.as_str(), OLDER_FILE, &older);
    put(rt, alloc, place.older.as_str(), NEWER_FILE, &newer);
    place
}

// Each node is followed by one turn, so that queries alone find the node silent.
fn patient_config(rt: &impl Abort, alloc: Global, place: &Place, relay: &str) -> String {
    let turns = format!(in alloc; "\"patience\":{PATIENCE},\"turns\":1").expect(rt, "memory");
    relayed_config(rt, alloc, place, relay)
        .replace(alloc, "\"turns\":1", turns.as_str())
        .expect(rt, "memory")
}

// A query: when it began, in milliseconds, and whether it came to the relay.
#[derive(Drop)]
struct Asked {
    began: u64,
    is_relayed: bool,
}

// Asks the second broker, whose one worker takes turns with the nodes. The answer is whole, whichever of them gave it.
fn ask<R: Host + Net<Listener = TcpListener, Stream = TcpStream>>(
    rt: &R,
    alloc: Global,
    place: &Place,
    relay: &Relay,
) -> Asked {
    let before = relay.queries.load(Ordering::SeqCst);
    let began = monotonic_millis(rt);
    let mut link = link_to(rt, alloc, place.other.as_str());
    let answer = answered(rt, alloc, &mut link, ASK);
    assert!(rt; answer.as_str().ends_with(NEWER), "{answer}");
    Asked {
        began,
        is_relayed: before < relay.queries.load(Ordering::SeqCst),
    }
}

// One of two queries finds the node silent, and waits for it: when that one began.
fn find_silent<R: Host + Net<Listener = TcpListener, Stream = TcpStream>>(
    rt: &R,
    alloc: Global,
    place: &Place,
    relay: &Relay,
) -> u64 {
    for _ in 0..2_u8 {
        let asked = ask(rt, alloc, place, relay);
        if asked.is_relayed {
            let waited = monotonic_millis(rt).saturating_sub(asked.began);
            assert!(rt; PATIENCE / 2 < waited, "{waited} ms");
            return asked.began;
        }
    }
    panic!(rt; "the silent node was not asked")
}

// Of the queries that follow none comes to the node before a pause is over.
fn ask_others<R: Host + Net<Listener = TcpListener, Stream = TcpStream>>(
    rt: &R,
    alloc: Global,
    place: &Place,
    relay: &Relay,
    found: u64,
) {
    let mut found = found;
    let first = monotonic_millis(rt);
    for number in 0..QUERIES {
        let asked = ask(rt, alloc, place, relay);
        if asked.is_relayed {
            let passed = relay.last.load(Ordering::SeqCst).saturating_sub(found);
            assert!(rt; LEAST_BETWEEN <= passed, "query {number} after {passed} ms");
            found = asked.began;
        }
        if MOST_MILLISECONDS < asked.began.saturating_sub(first) {
            return;
        }
    }
}

// Asks until a query comes to the node again.
fn try_again<R: Host + Net<Listener = TcpListener, Stream = TcpStream>>(
    rt: &R,
    alloc: Global,
    place: &Place,
    relay: &Relay,
) {
    for _ in 0..LOOKS {
        if ask(rt, alloc, place, relay).is_relayed {
            return;
        }
        thread::sleep(rt, Duration::from_millis(10));
    }
    panic!(rt; "the node was not asked again")
}

// How many of the queries that follow come to the node.
fn share<R: Host + Net<Listener = TcpListener, Stream = TcpStream>>(
    rt: &R,
    alloc: Global,
    place: &Place,
    relay: &Relay,
) -> u64 {
    let mut count = 0u64;
    for _ in 0..LATER_QUERIES {
        if ask(rt, alloc, place, relay).is_relayed {
            count = count.saturating_add(1);
        }
    }
    count
}

// All answers are whole; while the node keeps silent it is asked once a pause, and then as often as the other.
#[test]
fn a_silent_replica(rt: HostRuntime) {
    let alloc = rt.alloc();
    let place = place(&rt, alloc);
    let (relay, address) = start_relay(&rt, alloc, place.second.as_str(), None);
    let text = patient_config(&rt, alloc, &place, address.as_str());
    assert_served(&rt, served(&rt, alloc, text.as_str()));
    relay.is_silent.store(true, Ordering::SeqCst);
    let found = find_silent(&rt, alloc, &place, &relay);
    ask_others(&rt, alloc, &place, &relay, found);
    relay.is_silent.store(false, Ordering::SeqCst);
    try_again(&rt, alloc, &place, &relay);
    let count = share(&rt, alloc, &place, &relay);
    assert!(&rt; LEAST_SHARE <= count, "{count}");
    clear(&rt, &place);
}
