//! What stands between brokers and a node: it passes on what they ask, keeps silent, or refuses queries in the node's place.
use crate::host::{Host, address_of, listener};
use crate::live_clusters::link_to;
use crate::serve::{Place, config};
use druid_http_wire::{Missing, missing_of};
use druid_link::Link;
use druid_link_health::monotonic_millis;
use std::alloc::Global;
use std::io::{Read, Write};
use std::net::{Net, TcpListener, TcpStream};
use std::process::Abort;
use std::sync::Arc;
use std::sync::atomic::{AtomicBool, AtomicU64, Ordering};
use std::thread;

// How many parts a request is read in at most.
const MAX_PARTS: u64 = 1_000;

/// A relay of a node.
#[derive(Drop)]
pub(crate) struct Relay {
    node: String,
    // What queries are answered with, where the node is not to answer them.
    refusal: Option<&'static [u8]>,
    /// Whether it keeps silent.
    pub(crate) is_silent: AtomicBool,
    /// How many queries came.
    pub(crate) queries: AtomicU64,
    /// When the last one came, in milliseconds.
    pub(crate) last: AtomicU64,
}

// Reads a request. None where it does not come whole.
fn read_whole(alloc: Global, stream: &mut TcpStream) -> Option<Vec<u8>> {
    let mut bytes = Vec::new(alloc);
    let mut part = [0u8; 4_096];
    for _ in 0..MAX_PARTS {
        let count = stream.read(&mut part).ok()?;
        if count == 0 {
            return None;
        }
        bytes.extend_from_slice(&part[..count]).ok()?;
        if missing_of(&bytes) == Missing::Nothing {
            return Some(bytes);
        }
    }
    None
}

// Answers what the node answers to a request. A connection is closed without an answer where the node gives none.
fn pass_on<R: Host + Net<Listener = TcpListener, Stream = TcpStream>>(
    rt: &R,
    alloc: Global,
    node: &str,
    request: &[u8],
    stream: TcpStream,
) {
    let mut stream = stream;
    if let Ok(answer) = link_to(rt, alloc, node).exchange(alloc, request) {
        let _ = stream.write_all(&answer);
    }
}

// Takes a connection. One on which nothing is to be said is kept.
fn take<R: Host + Net<Listener = TcpListener, Stream = TcpStream>>(
    rt: &R,
    alloc: Global,
    relay: &Relay,
    stream: TcpStream,
    kept: &mut Vec<TcpStream>,
) {
    let mut stream = stream;
    let Some(request) = read_whole(alloc, &mut stream) else {
        return;
    };
    let is_query = request.as_slice().starts_with(b"POST ");
    if is_query {
        relay.last.store(monotonic_millis(rt), Ordering::SeqCst);
        relay.queries.fetch_add(1, Ordering::SeqCst);
    }
    if relay.is_silent.load(Ordering::SeqCst) {
        kept.push(stream).expect(rt, "memory");
        return;
    }
    match relay.refusal {
        Some(refusal) if is_query => drop(stream.write_all(refusal)),
        _ => pass_on(rt, alloc, relay.node.as_str(), &request, stream),
    }
}

// Takes the connections of a relay, for ever.
fn take_all<R: Host + Net<Listener = TcpListener, Stream = TcpStream>>(
    rt: &R,
    alloc: Global,
    relay: &Relay,
    listener: &TcpListener,
) {
    let mut kept = Vec::new(alloc);
    for stream in listener.incoming() {
        if let Ok(stream) = stream {
            take(rt, alloc, relay, stream, &mut kept);
        }
    }
}

/// Starts a relay of the node at an address, which answers queries by that refusal where there is one, and gives its own address.
pub(crate) fn start_relay<R: Host + Net<Listener = TcpListener, Stream = TcpStream>>(
    rt: &R,
    alloc: Global,
    node: &str,
    refusal: Option<&'static [u8]>,
) -> (Arc<Relay, Global>, String) {
    let relay = Relay {
        node: String::from_str(alloc, node).expect(rt, "memory"),
        refusal,
        is_silent: AtomicBool::new(false),
        queries: AtomicU64::new(0),
        last: AtomicU64::new(0),
    };
    let relay = Arc::new(alloc, relay).expect(rt, "memory");
    let listener = listener(rt);
    let address = address_of(rt, alloc, &listener);
    let (host, taken) = (*rt, Arc::try_clone(&relay).expect(rt, "memory"));
    thread::spawn(rt, move || take_all(&host, alloc, &taken, &listener)).expect(rt, "a thread");
    (relay, address)
}

/// The config of a place whose second node is reached by way of a relay.
pub(crate) fn relayed_config(rt: &impl Abort, alloc: Global, place: &Place, relay: &str) -> String {
    let second = &place.second;
    let direct = format!(in alloc; "\"address\":\"{second}\"").expect(rt, "memory");
    let relayed = format!(in alloc; "\"address\":\"{relay}\",\"listen\":\"{second}\"").expect(
        rt, "memory",
    );
    config(rt, alloc, place, 0)
        .replace(alloc, direct.as_str(), relayed.as_str())
        .expect(rt, "memory")
}
