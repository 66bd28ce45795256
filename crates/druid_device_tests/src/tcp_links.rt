//! Links over sockets of this machine.
use crate::link::{REQUEST, exchanged_for};
use crate::printed::printed;
use crate::table::{assert_reported, assert_row, halves, is_reported};
use crate::wire::{large, patterned};
use druid_http_message::WireFault;
use druid_link::{Link, MAX_EXCHANGE, TcpLink};
use std::alloc::Global;
use std::io::{Read, Write};
use std::net::{Net, TcpListener, TcpStream};
use std::process::Abort;
use std::thread::{Threads, join};
use std::time::{Clock, Duration};
use std::{io, thread};

// How many milliseconds an exchange may take with a server that does not end it in that time.
const LIMIT: u64 = 1_000;

// Writes a byte now and then, for longer than an exchange may take.
fn drip<C: Clock>(clock: &C, socket: &mut TcpStream) -> io::Result<()> {
    for _ in 0..12 {
        socket.write_all(b"x")?;
        thread::sleep(clock, Duration::from_millis(LIMIT / 6));
    }
    Ok(())
}

// What a server does after it was called and has read a request, before it closes.
fn serve<C: Clock>(clock: &C, socket: &mut TcpStream, row: &str) -> io::Result<()> {
    let mut request = [0; 18];
    socket.read_exact(&mut request)?;
    match row {
        "answers" => socket.write_all(b"one"),
        "stalls" => {
            thread::sleep(clock, Duration::from_millis(LIMIT * 2));
            Ok(())
        }
        "drips" => drip(clock, socket),
        _ => Ok(()),
    }
}

fn serve_once<C: Clock>(clock: &C, listener: &TcpListener, row: &str) -> io::Result<()> {
    let (mut socket, _) = listener.accept()?;
    match row {
        "reads nothing" => {
            thread::sleep(clock, Duration::from_millis(LIMIT * 2));
            Ok(())
        }
        _ => serve(clock, &mut socket, row),
    }
}

// A listener of this machine.
fn listening<N: Net<Listener = TcpListener, Stream = TcpStream> + Abort>(net: &N) -> TcpListener {
    TcpListener::bind(net, "127.0.0.1:0").expect(net, "a listener")
}

fn address_of(rt: &impl Abort, alloc: Global, listener: &TcpListener) -> String {
    let address = listener.local_addr().expect(rt, "an address");
    printed(rt, alloc, &address)
}

// A link to a server that does what the row says.
fn linked<N: Net + Clock + Drop>(net: N, address: String, row: &str) -> TcpLink<N> {
    let limit = match row {
        "stalls" | "drips" | "reads nothing" => LIMIT,
        _ => LIMIT * 20,
    };
    TcpLink::new(net, address).with_limit(Duration::from_millis(limit))
}

// What is sent to a server that does what the row says: more than the sockets hold where it reads nothing.
fn request_for(rt: &impl Abort, alloc: Global, row: &str) -> Vec<u8> {
    match row {
        "reads nothing" => large(rt, alloc, MAX_EXCHANGE),
        _ => REQUEST.to_vec(alloc).expect(rt, "memory"),
    }
}

// What an exchange of this request gives, and how often the device has failed then.
fn reported<L: Link>(rt: &impl Abort, alloc: Global, link: &mut L, request: &[u8]) -> String {
    let came = exchanged_for(rt, alloc, link, request);
    let faults = printed(rt, alloc, &link.faults());
    format!(in alloc; "{came}, {faults}").expect(rt, "memory")
}

// What an exchange tells with a server that is gone.
fn reported_alone<R: Net<Listener = TcpListener, Stream = TcpStream> + Clock + Abort>(
    rt: &R,
    alloc: Global,
) -> String {
    let address = address_of(rt, alloc, &listening(rt));
    reported(rt, alloc, &mut linked(rt, address, "is gone"), REQUEST)
}

// What an exchange tells with a server that is there.
fn reported_beside<
    R: Net<Listener = TcpListener, Stream = TcpStream> + Clock + Threads + Abort + Sync,
>(rt: &R, alloc: Global, row: &str) -> String {
    let listener = listening(rt);
    let mut link = linked(rt, address_of(rt, alloc, &listener), row);
    let request = request_for(rt, alloc, row);
    let (_served, reported) = join(
        rt,
        || serve_once(rt, &listener, row).is_ok(),
        || reported(rt, alloc, &mut link, &request),
    );
    reported
}

// What an exchange tells with a server that does what the row says.
fn reported_with<
    R: Net<Listener = TcpListener, Stream = TcpStream> + Clock + Threads + Abort + Sync,
>(rt: &R, alloc: Global, row: &str) -> String {
    match row {
        "is gone" => reported_alone(rt, alloc),
        _ => reported_beside(rt, alloc, row),
    }
}

#[test]
fn links_over_sockets(rt: HostRuntime) {
    let rows = "answers = one, 0
closes = , 0
stalls = X2: the message could not be read, 1
drips = X2: the message could not be read, 1
reads nothing = X2: the message could not be read, 1
is gone = X8: no connection, 1";
    for row in rows.lines() {
        let (server, wanted) = halves(&rt, row, " = ");
        assert_row(
            &rt,
            row,
            is_reported(reported_with(&rt, rt.alloc(), server), wanted),
        );
    }
}

#[test]
fn an_address_that_is_none(rt: HostRuntime) {
    let address = printed(&rt, rt.alloc(), &"nowhere");
    let reported = reported(&rt, rt.alloc(), &mut TcpLink::new(&rt, address), REQUEST);
    assert_reported(&rt, reported, "X8: no connection, 1");
}

fn read_in_pieces(socket: &mut TcpStream, bytes: &mut [u8], piece: usize) -> io::Result<()> {
    for part in bytes.chunks_mut(piece.max(1)) {
        socket.read_exact(part)?;
    }
    Ok(())
}

fn write_in_pieces(socket: &mut TcpStream, bytes: &[u8], piece: usize) -> io::Result<()> {
    for part in bytes.chunks(piece.max(1)) {
        socket.write_all(part)?;
    }
    Ok(())
}

// Reads a request of as many bytes as this has, and answers it, in pieces of so many bytes: whether that is what was sent.
fn serve_in_pieces(
    listener: &TcpListener,
    received: &mut [u8],
    answer: &[u8],
    piece: usize,
) -> io::Result<()> {
    let (mut socket, _) = listener.accept()?;
    read_in_pieces(&mut socket, received, piece)?;
    write_in_pieces(&mut socket, answer, piece)
}

// What came: the answer, other bytes, or a fault.
fn came_of(
    rt: &impl Abort,
    alloc: Global,
    came: Result<Vec<u8>, WireFault>,
    answer: &[u8],
) -> String {
    match came {
        Ok(bytes) if bytes.as_slice() == answer => printed(rt, alloc, &"the answer"),
        Ok(bytes) => printed(rt, alloc, &bytes.len()),
        Err(fault) => printed(rt, alloc, &fault),
    }
}

// What an exchange tells of a request and an answer of so many bytes, in pieces of so many.
fn reported_of_sizes<
    R: Net<Listener = TcpListener, Stream = TcpStream> + Clock + Threads + Abort + Sync,
>(rt: &R, alloc: Global, sizes: (usize, usize, usize)) -> String {
    let listener = listening(rt);
    let mut link = linked(rt, address_of(rt, alloc, &listener), "answers");
    let (request, answer) = (patterned(rt, alloc, sizes.0), patterned(rt, alloc, sizes.1));
    let mut received = large(rt, alloc, sizes.0);
    let (_served, came) = join(
        rt,
        || serve_in_pieces(&listener, &mut received, &answer, sizes.2).is_ok(),
        || link.exchange(alloc, &request),
    );
    assert_row(
        rt,
        "another request",
        received.as_slice() == request.as_slice(),
    );
    came_of(rt, alloc, came, &answer)
}

// The bytes of a request, those of its answer, those of each piece, and what comes.
const SIZES: [((usize, usize, usize), &str); 7] = [
    ((1, 1, 1), "the answer"),
    ((7, 0, 7), "the answer"),
    ((16_384, 16_385, 1), "the answer"),
    ((16_385, 65_537, 7), "the answer"),
    ((1_000_000, 16_384, 65_537), "the answer"),
    ((16_793_600, 16_793_600, 65_537), "the answer"),
    ((1, 16_793_601, 65_537), "X7: the body is too long"),
];

#[test]
fn requests_and_answers_are_whole(rt: HostRuntime) {
    for (sizes, wanted) in &SIZES {
        assert_reported(&rt, reported_of_sizes(&rt, rt.alloc(), *sizes), wanted);
    }
}
