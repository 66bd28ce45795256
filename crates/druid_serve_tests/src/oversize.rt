//! What met a limit of 16 MiB is in the log, once for each exchange with a node.
use crate::host::Host;
use crate::live_clusters::pair;
use crate::relay::{relayed_config, start_relay};
use crate::serve::{clear, place_of};
use druid_program::{Environment, serve_config};
use druid_telemetry_log::{Level, open, write_lines};
use std::alloc::Global;
use std::io::{BufRead, BufReader};
use std::net::{Net, TcpListener, TcpStream};
use std::process::Abort;
use std::sync::Arc;
use std::thread;
use std::time::Duration;

// How many lines are read of a log at most, and for how many seconds each is waited for.
const LINES: u64 = 100;

const SECONDS: u64 = 50;

// What a node answers to a query whose answer, or which itself, is too long, and the code that the log has of it.
const LIMITS: [(&[u8], &str); 2] = [
    (
        b"HTTP/1.1 500 Internal Server Error\r\ncontent-length: 20\r\n\r\n{\"error\":\"TooLarge\"}",
        "TooLarge",
    ),
    (
        b"HTTP/1.1 400 Bad Request\r\ncontent-length: 14\r\n\r\n{\"error\":\"X7\"}",
        "X7",
    ),
];

// The lines of a log up to the first of what met a limit. The log goes on: threads that are left
// have it.
fn lines_of(rt: &impl Abort, alloc: Global, log: &TcpStream) -> String {
    let limit = Some(Duration::from_secs(SECONDS));
    log.set_read_timeout(limit).expect(rt, "a limit");
    let mut reader = BufReader::new(alloc, log).expect(rt, "memory");
    let mut text = String::new(alloc);
    for _ in 0..LINES {
        reader.read_line(&mut text).expect(rt, "a line");
        if text.as_str().contains("\"event\":\"oversize\"") {
            return text;
        }
    }
    text
}

// What a cluster logs whose second node answers its config's query so.
fn log_of<R: Host + Net<Listener = TcpListener, Stream = TcpStream>>(
    rt: &R,
    alloc: Global,
    refusal: &'static [u8],
) -> String {
    let place = place_of(rt, alloc, "oversize");
    let (_relay, address) = start_relay(rt, alloc, place.second.as_str(), Some(refusal));
    let config = relayed_config(rt, alloc, &place, address.as_str());
    let (log, lines) = open(alloc, Level::Info).expect(rt, "memory");
    let lines = lines.expect(rt, "an open log");
    let (mut written, other_end) = pair(rt, alloc);
    let host = *rt;
    thread::spawn(rt, move || write_lines(&host, alloc, &lines, &mut written)).expect(
        rt, "a thread",
    );
    let environment = Environment::new(false, None, Arc::new(alloc, log).expect(rt, "memory"));
    let (mut out, mut errors) = (Vec::new(alloc), Vec::new(alloc));
    let bytes = config.as_bytes();
    let ending = serve_config(rt, alloc, bytes, &environment, &mut out, &mut errors);
    assert!(rt; out.as_slice().starts_with(b"503\n"), "{}", ending.status);
    let text = lines_of(rt, alloc, &other_end);
    clear(rt, &place);
    text
}

#[test]
fn limits_that_nodes_report(rt: HostRuntime) {
    let alloc = rt.alloc();
    for (refusal, code) in LIMITS {
        let text = log_of(&rt, alloc, refusal);
        let wanted = format!(in alloc;
            "\"code\":\"{code}\",\"event\":\"oversize\",\"exchanges\":1,\"node\":\"n1\",\"server\":\"broker:1\"}}\n"
        ).expect(&rt, "memory");
        assert!(&rt; text.as_str().contains(wanted.as_str()), "{text}");
    }
}
