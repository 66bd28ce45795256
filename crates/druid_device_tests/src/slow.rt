//! Clients that are slow, while others ask.
use crate::socket_front::{Host, connected, started};
use std::alloc::Global;
use std::io::{Read, Write};
use std::net::{Net, TcpListener, TcpStream};
use std::process::Abort;
use std::thread;
use std::thread::{join, map_indices};
use std::time::{Clock, Duration, Instant};

// How many clients keep silent, send a byte now and then, and read nothing of their answers.
const SILENT: usize = 40;

const DRIPPING: usize = 40;

const DEAF: usize = 10;

// How many front threads there are: fewer than slow clients.
const THREADS: u16 = 32;

// How many clients ask, each so often.
const ASKING: usize = 4;

const QUERIES: usize = 25;

// A query may take twice its time alone, or so many milliseconds where that is less.
const FLOOR: u64 = 2_000;

// How often the dripping clients send a byte, so many milliseconds apart.
const DRIPS: usize = 100;

const DRIP_MILLISECONDS: u64 = 20;

const QUERY: &[u8] = b"POST / HTTP/1.1\r\nContent-Length: 3\r\n\r\nabc";

// Asks once, and tells whether it was answered.
fn is_answered(alloc: Global, stream: &mut TcpStream) -> bool {
    let mut bytes = Vec::new(alloc);
    stream.write_all(QUERY).is_ok()
        && stream.read_to_end(&mut bytes).is_ok()
        && bytes.as_slice().ends_with(b"\r\n\r\nabc")
}

// How many milliseconds a query takes.
fn time_of_query<R: Host + Net<Listener = TcpListener, Stream = TcpStream>>(
    rt: &R,
    alloc: Global,
    address: &str,
) -> u64 {
    let start = Instant::now(rt).expect(rt, "a clock");
    let mut stream = connected(rt, address);
    assert!(rt; is_answered(alloc, &mut stream), "no answer");
    let elapsed = start.elapsed(rt).expect(rt, "a clock");
    u64::try_from(elapsed.as_millis()).unwrap_or(u64::MAX)
}

// How many the slowest of several takes, one after another.
fn slowest<R: Host + Net<Listener = TcpListener, Stream = TcpStream>>(
    rt: &R,
    alloc: Global,
    address: &str,
) -> u64 {
    let mut longest = 0;
    for _ in 0..QUERIES {
        longest = longest.max(time_of_query(rt, alloc, address));
    }
    longest
}

// The same of several clients at once.
fn slowest_of_all<R: Host + Net<Listener = TcpListener, Stream = TcpStream>>(
    rt: &R,
    alloc: Global,
    address: &str,
) -> u64 {
    let times = map_indices(rt, alloc, ASKING, &|_| slowest(rt, alloc, address));
    let mut longest = 0;
    for time in times.expect(rt, "memory") {
        longest = longest.max(time);
    }
    longest
}

// So many clients, each of which sends this.
fn clients<R: Host + Net<Listener = TcpListener, Stream = TcpStream>>(
    rt: &R,
    alloc: Global,
    address: &str,
    count: usize,
    sent: &[u8],
) -> Vec<TcpStream> {
    let mut streams = Vec::new(alloc);
    for _ in 0..count {
        let mut stream = connected(rt, address);
        let _ = stream.write_all(sent);
        streams.push(stream).expect(rt, "memory");
    }
    streams
}

// Each client sends a byte now and then; whose connection was closed connects again.
fn drip<R: Host + Net<Listener = TcpListener, Stream = TcpStream>>(
    rt: &R,
    address: &str,
    streams: &mut [TcpStream],
) {
    for _ in 0..DRIPS {
        for stream in streams.iter_mut() {
            if stream.write_all(b"x").is_err() {
                *stream = connected(rt, address);
            }
        }
        thread::sleep(rt, Duration::from_millis(DRIP_MILLISECONDS));
    }
}

// How many milliseconds the slowest query takes beside slow clients.
fn slowest_beside<R: Host + Net<Listener = TcpListener, Stream = TcpStream>>(
    rt: &R,
    alloc: Global,
    address: &str,
) -> u64 {
    let deaf = clients(rt, alloc, address, DEAF, b"GET /large HTTP/1.1\r\n\r\n");
    // The worker makes their answers first, which takes it a while.
    let _ = time_of_query(rt, alloc, address);
    let silent = clients(rt, alloc, address, SILENT, b"");
    let mut dripping = clients(rt, alloc, address, DRIPPING, b"POST /");
    let (_, longest) = join(
        rt,
        || drip(rt, address, &mut dripping),
        || slowest_of_all(rt, alloc, address),
    );
    drop(silent);
    drop(deaf);
    longest
}

// Slow clients, more than there are front threads, cost nobody else.
#[test]
fn slow_clients(rt: HostRuntime) {
    let alloc = rt.alloc();
    let address = started(&rt, alloc, THREADS);
    let alone = slowest_of_all(&rt, alloc, address.as_str());
    let beside = slowest_beside(&rt, alloc, address.as_str());
    let most = alone.saturating_mul(2).max(FLOOR);
    assert!(rt; beside <= most, "{beside} ms, and {alone} alone");
}
