//! Servers that answer one connection while another waits, and how long they wait for one.
use crate::host::Host;
use crate::serve::{assert_served, clear, config, place_of, served, served_at};
use druid_serve_base::{PEER_SECONDS, limit};
use std::alloc::Global;
use std::io;
use std::io::{Read, Write};
use std::net::{Net, TcpListener, TcpStream};
use std::process::Abort;
use std::time::Duration;

// Asks a server how it is on a connection, and gives all that comes until the server closes it.
fn health_on(alloc: Global, stream: &mut TcpStream) -> io::Result<Vec<u8>> {
    stream.write_all(b"GET /status/health HTTP/1.1\r\n\r\n")?;
    let mut bytes = Vec::new(alloc);
    stream.read_to_end(&mut bytes)?;
    Ok(bytes)
}

// Whether it was answered that all is well.
fn is_answered(alloc: Global, stream: &mut TcpStream) -> bool {
    match health_on(alloc, stream) {
        Ok(bytes) => bytes.as_slice().ends_with(b"\r\n\r\ntrue"),
        Err(_) => false,
    }
}

// Whether a server of two workers answers a connection while an older one says nothing, and that one too, once it asks. A
// single worker waits for the older one until it gives it up.
fn answers_beside<N: Net<Stream = TcpStream> + Abort>(
    net: &N,
    alloc: Global,
    address: &str,
) -> bool {
    let mut silent = TcpStream::connect(net, address).expect(net, "a connection");
    let mut other = TcpStream::connect(net, address).expect(net, "a connection");
    let is_first = is_answered(alloc, &mut other);
    is_answered(alloc, &mut silent) && is_first
}

#[test]
fn workers_of_a_broker(rt: HostRuntime) {
    let place = place_of(&rt, rt.alloc(), "workers");
    assert_served(&rt, served_at(&rt, rt.alloc(), &place));
    assert!(rt; answers_beside(&rt, rt.alloc(), place.broker.as_str()));
    clear(&rt, &place);
}

// A body of 20 MB, of which a server reads no more than its limit.
fn large_body(rt: &impl Abort, alloc: Global) -> Vec<u8> {
    let mut bytes = Vec::new(alloc);
    bytes
        .extend_from_slice(b"POST /druid/v2 HTTP/1.1\r\nContent-Length: 20000000\r\n\r\n")
        .expect(rt, "memory");
    let len = bytes.len().saturating_add(20_000_000);
    bytes.resize(len, b' ').expect(rt, "memory");
    bytes
}

// A client that writes all of a request before it reads gets the refusal, though the server did not read it whole.
#[test]
fn refusals_of_large_requests_arrive(rt: HostRuntime) {
    let alloc = rt.alloc();
    let place = place_of(&rt, alloc, "large");
    assert_served(&rt, served_at(&rt, alloc, &place));
    let request = large_body(&rt, alloc);
    for address in [&place.broker, &place.second] {
        let mut stream = TcpStream::connect(&rt, address.as_str()).expect(&rt, "a connection");
        stream.write_all(&request).expect(&rt, "a request");
        let mut answer = Vec::new(alloc);
        stream.read_to_end(&mut answer).expect(&rt, "an answer");
        assert!(&rt;
            answer.as_slice().starts_with(b"HTTP/1.1 400 "),
            "{address}"
        );
    }
    clear(&rt, &place);
}

#[test]
fn workers_of_nodes(rt: HostRuntime) {
    let place = place_of(&rt, rt.alloc(), "workers");
    assert_served(&rt, served_at(&rt, rt.alloc(), &place));
    for address in [&place.first, &place.second] {
        assert!(rt;
            answers_beside(&rt, rt.alloc(), address.as_str()),
            "{address}"
        );
    }
    clear(&rt, &place);
}

// A single worker gives up a client that says nothing, and answers the next one: of a node and of a broker at once, since
// that takes as long as the limit.
#[test]
fn silent_clients(rt: HostRuntime) {
    let place = place_of(&rt, rt.alloc(), "silent");
    let config = config(&rt, rt.alloc(), &place, 0);
    let config = config
        .replace(rt.alloc(), "\"workers\":2", "\"workers\":1")
        .expect(&rt, "memory");
    assert_served(&rt, served(&rt, rt.alloc(), config.as_str()));
    let addresses = [place.second.as_str(), place.other.as_str()];
    let silent = addresses.map(|address| TcpStream::connect(&rt, address).expect(
        &rt,
        "a connection",
    ));
    for address in addresses {
        let mut other = TcpStream::connect(&rt, address).expect(&rt, "a connection");
        assert!(rt; is_answered(rt.alloc(), &mut other), "{address}");
    }
    drop(silent);
    clear(&rt, &place);
}

// A connection to a listener of this machine.
fn connection<N: Net<Listener = TcpListener, Stream = TcpStream> + Abort>(net: &N) -> TcpStream {
    let listener = TcpListener::bind(net, "127.0.0.1:0").expect(net, "a listener");
    let address = listener.local_addr().expect(net, "an address");
    TcpStream::connect(net, address).expect(net, "a connection")
}

// Reads and writes wait for whoever connected as long as that, and no longer.
#[test]
fn limited_connections(rt: HostRuntime) {
    let stream = connection(&rt);
    assert!(rt; limit(&stream));
    let limit = Some(Duration::from_secs(PEER_SECONDS));
    assert!(rt;
        stream.read_timeout().expect(&rt, "a limit") == limit,
        "of reads"
    );
    assert!(rt;
        stream.write_timeout().expect(&rt, "a limit") == limit,
        "of writes"
    );
}
