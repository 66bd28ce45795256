//! Requests, and what comes back.
use crate::socket_front::{Host, connected, started};
use std::alloc::Global;
use std::io::{Read, Write};
use std::net::{Net, TcpListener, TcpStream};
use std::process::Abort;
use std::thread;
use std::time::{Clock, Duration};

// The body of an answer, or all of it where it has none.
fn body_of(answer: &str) -> &str {
    match answer.split_once("\r\n\r\n") {
        Some((_, body)) => body,
        None => answer,
    }
}

// Sends a request in pieces, some time apart, and gives the body of all that comes until the connection is closed.
fn answered<R: Host + Net<Listener = TcpListener, Stream = TcpStream>>(
    rt: &R,
    alloc: Global,
    address: &str,
    pieces: &str,
) -> String {
    let mut stream = connected(rt, address);
    for piece in pieces.split('~') {
        let piece = piece.replace(alloc, "|", "\r\n").expect(rt, "memory");
        stream.write_all(piece.as_bytes()).expect(rt, "a request");
        thread::sleep(rt, Duration::from_millis(20));
    }
    let mut bytes = Vec::new(alloc);
    stream.read_to_end(&mut bytes).expect(rt, "an answer");
    let text = String::from_utf8_lossy(alloc, &bytes).expect(rt, "memory");
    String::from_str(alloc, body_of(text.as_str())).expect(rt, "memory")
}

fn assert_answered<R: Host + Net<Listener = TcpListener, Stream = TcpStream>>(
    rt: &R,
    alloc: Global,
    address: &str,
    row: &str,
) {
    let (pieces, wanted) = row.split_once(" = ").expect(rt, "no row");
    let body = answered(rt, alloc, address, pieces);
    assert!(rt; body.as_str() == wanted, "{row}: {body}");
}

// A request comes in pieces, here at each `~`; its body comes back, or the number of its fault. A job that is let go has no answer.
#[test]
fn answers(rt: HostRuntime) {
    let alloc = rt.alloc();
    let address = started(&rt, alloc, 2);
    let rows = "POST / HTTP/1.1|Content-Length: 3||abc = abc
POST / HTTP/1.1|Content-Length: 3||abcdef = abc
POST / HTTP/1.1|Content-Length: 6||~abc~def = abcdef
~||PO~ST / HTTP/1.1|Content-Len~gth: 2||~xy = xy
GET / HTTP/1.1|| = \nGET / HTTP/2.7|| = {\"error\":\"X4\"}
POST / HTTP/1.1|~| = {\"error\":\"X6\"}
POST / HTTP/1.1|Content-Length: 16777217|| = {\"error\":\"X7\"}
GET /none HTTP/1.1|| = ";
    for row in rows.lines() {
        assert_answered(&rt, alloc, address.as_str(), row);
    }
}

// A head of more than 16,384 bytes is refused once they are there, before it ends.
#[test]
fn long_heads(rt: HostRuntime) {
    let alloc = rt.alloc();
    let address = started(&rt, alloc, 1);
    let field = "x".repeat(alloc, 16_385).expect(&rt, "memory");
    let row = format!(in alloc; "GET / HTTP/1.1|{field} = {{\"error\":\"X5\"}}").expect(
        &rt, "memory",
    );
    assert_answered(&rt, alloc, address.as_str(), row.as_str());
}

// A head that does not come within its 5 seconds is closed without an answer, though a byte came lately, and no sooner.
#[test]
fn unfinished_heads(rt: HostRuntime) {
    let alloc = rt.alloc();
    let address = started(&rt, alloc, 1);
    let start = std::time::Instant::now(&rt).expect(&rt, "a clock");
    let body = answered(&rt, alloc, address.as_str(), "GET / HTTP/1.1|x: ~y");
    let elapsed = start.elapsed(&rt).expect(&rt, "a clock");
    assert!(rt; body.is_empty(), "{body}");
    assert!(rt; elapsed >= Duration::from_millis(4_900), "too soon");
}
