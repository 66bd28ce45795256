//! Servers with front threads answer as those without, and soon, whatever their clients do.
use crate::folders::{LONG_FILE, long_bytes, put};
use crate::host::Host;
use crate::serve::{Place, assert_served, clear, config, place_of, served};
use std::alloc::Global;
use std::io::{Read, Write};
use std::net::{Net, TcpListener, TcpStream};
use std::process::Abort;
use std::sync::Wait;
use std::thread;
use std::thread::join;
use std::time::{Clock, Duration, Instant};

// So many clients of a server keep silent, so many send a byte now and then, and so many ask for more than a socket holds and read
// nothing of it. It has fewer front threads, and one worker.
const SILENT: usize = 40;

const DRIPPING: usize = 40;

const DEAF: usize = 10;

const FRONT: &str = "\"front\":8,\"workers\":1";

// How often those send a byte, a tenth of a second apart.
const DRIPS: u64 = 20;

// An answer comes within so many seconds beside them. A worker that waited for one of them itself would do so for 30.
const MOST_SECONDS: u64 = 20;

// A place whose first node has a segment of long texts beside its own.
fn place<R: Host + Net<Listener = TcpListener, Stream = TcpStream>>(
    rt: &R,
    alloc: Global,
) -> Place {
    let place = place_of(rt, alloc, "fronts");
    let bytes = long_bytes(rt, alloc);
    put(rt, alloc, place.older.as_str(), LONG_FILE, &bytes);
    place
}

// A request as it is sent, of one whose lines end with `|`.
fn sent(rt: &impl Abort, alloc: Global, request: &str) -> String {
    request.replace(alloc, "|", "\r\n").expect(rt, "memory")
}

fn connected<N: Net<Stream = TcpStream> + Abort>(net: &N, address: &str) -> TcpStream {
    TcpStream::connect(net, address).expect(net, "a connection")
}

// So many connections on which that is said first, unless they were closed by then.
fn connections<N: Net<Stream = TcpStream> + Abort>(
    net: &N,
    alloc: Global,
    address: &str,
    count: usize,
    first: &str,
) -> Vec<TcpStream> {
    let mut streams = Vec::new(alloc);
    for _ in 0..count {
        let mut stream = connected(net, address);
        let _ = stream.write_all(first.as_bytes());
        streams.push(stream).expect(net, "memory");
    }
    streams
}

// The slow clients of a server.
#[derive(Drop)]
struct Slow {
    silent: Vec<TcpStream>,
    dripping: Vec<TcpStream>,
    deaf: Vec<TcpStream>,
}

// Those of a server: the deaf ones ask this.
fn slow_clients<N: Net<Stream = TcpStream> + Abort>(
    net: &N,
    alloc: Global,
    address: &str,
    request: &str,
) -> Slow {
    let request = sent(net, alloc, request);
    Slow {
        silent: connections(net, alloc, address, SILENT, ""),
        dripping: connections(net, alloc, address, DRIPPING, "P"),
        deaf: connections(net, alloc, address, DEAF, request.as_str()),
    }
}

// Sends a byte on each connection that was not closed.
fn drip_on(streams: &[TcpStream]) {
    for mut stream in streams {
        let _ = stream.write(b"x");
    }
}

// Sends a byte now and then.
fn drip<R: Wait + Clock>(rt: &R, first: &Slow, second: &Slow) {
    for _ in 0..DRIPS {
        drip_on(&first.dripping);
        drip_on(&second.dripping);
        thread::sleep(rt, Duration::from_millis(100));
    }
}

// All that comes for a request, until the connection is closed.
fn answer_of<N: Net<Stream = TcpStream> + Abort>(
    net: &N,
    alloc: Global,
    address: &str,
    request: &str,
) -> String {
    let request = sent(net, alloc, request);
    let mut stream = connected(net, address);
    stream
        .write_all(request.as_bytes())
        .expect(net, "a request");
    let mut bytes = Vec::new(alloc);
    stream.read_to_end(&mut bytes).expect(net, "an answer");
    String::from_utf8_lossy(alloc, &bytes).expect(net, "memory")
}

// Asserts that a server answers so, and soon.
fn assert_soon<R: Host + Net<Listener = TcpListener, Stream = TcpStream>>(
    rt: &R,
    alloc: Global,
    address: &str,
    request: &str,
    wanted: &str,
) {
    let start = Instant::now(rt).expect(rt, "a clock");
    let answer = answer_of(rt, alloc, address, request);
    let elapsed = start.elapsed(rt).expect(rt, "a clock");
    let seconds = elapsed.as_secs();
    assert!(rt;
        answer.as_str() == wanted && seconds < MOST_SECONDS,
        "{request}: {seconds} s, {answer}"
    );
}

// Asserts that four clients at once are answered so, and soon.
fn assert_all_soon<R: Host + Net<Listener = TcpListener, Stream = TcpStream>>(
    rt: &R,
    alloc: Global,
    address: &str,
    request: &str,
    wanted: &str,
) {
    let two = || {
        join(
            rt,
            || assert_soon(rt, alloc, address, request, wanted),
            || assert_soon(rt, alloc, address, request, wanted),
        );
    };
    join(rt, || two(), || two());
}

// What the deaf clients of a broker and of a node ask.
const LONG_QUERY: &str =
    "POST /druid/v2 HTTP/1.1|Content-Length: 152||{\"queryType\":\"groupBy\",\"dataSource\":\"wiki\",\"granularity\":\"second\",\"intervals\":\"2024-02-01/2024-02-02\",\"dimensions\":[\"d\"],\"aggregations\":[],\"context\":{}}";

const LONG_SUBQUERY: &str =
    "POST /druid/v2 HTTP/1.1|Content-Length: 276||{\"queryType\":\"groupBy\",\"dataSource\":\"wiki\",\"granularity\":\"second\",\"intervals\":{\"type\":\"segments\",\"segments\":[{\"chunk\":\"2024-02-01/2024-02-02\",\"itvl\":\"2024-02-01/2024-02-02\",\"part\":0,\"ver\":\"v1\"}]},\"queryIntervals\":[\"2024-02-01/2024-02-02\"],\"dimensions\":[\"d\"],\"aggregations\":[]}";

// Asserts that a server of the first place answers a request beside slow clients as that of the second does alone, and with that end.
fn assert_alike<R: Host + Net<Listener = TcpListener, Stream = TcpStream>>(
    rt: &R,
    alloc: Global,
    places: (&Place, &Place),
    is_broker: bool,
    request: &str,
    end: &str,
) {
    let (first, second) = places;
    let (address, alone) = if is_broker {
        (first.broker.as_str(), second.broker.as_str())
    } else {
        (first.first.as_str(), second.first.as_str())
    };
    let wanted = answer_of(rt, alloc, alone, request);
    assert!(rt; wanted.as_str().ends_with(end), "{request}: {wanted}");
    let brokers = slow_clients(rt, alloc, first.broker.as_str(), LONG_QUERY);
    let nodes = slow_clients(rt, alloc, first.first.as_str(), LONG_SUBQUERY);
    join(
        rt,
        || drip(rt, &brokers, &nodes),
        || assert_all_soon(rt, alloc, address, request, wanted.as_str()),
    );
}

// Requests to a broker, or to a node, and how their answers end.
const ROWS: [(bool, &str, &str); 5] = [
    (
        true,
        "POST /druid/v2 HTTP/1.1|Content-Length: 147||{\"aggregations\":[{\"name\":\"n\",\"type\":\"count\"}],\"dataSource\":\"wiki\",\"granularity\":\"all\",\"intervals\":\"2024-01-01/2024-01-02\",\"queryType\":\"timeseries\"}",
        "[{\"result\":{\"n\":5},\"timestamp\":\"2024-01-01T00:00:00.000Z\"}]",
    ),
    (
        false,
        "POST /druid/v2 HTTP/1.1|Content-Length: 284||{\"queryType\":\"timeseries\",\"dataSource\":\"wiki\",\"granularity\":\"all\",\"intervals\":{\"type\":\"segments\",\"segments\":[{\"chunk\":\"2024-01-01/2024-01-02\",\"itvl\":\"2024-01-01/2024-01-02\",\"part\":0,\"ver\":\"v1\"}]},\"queryIntervals\":[\"2024-01-01/2024-01-02\"],\"aggregations\":[{\"type\":\"count\",\"name\":\"n\"}]}",
        "{\"missing\":[],\"rows\":[[1704067200000,[],[4]]]}",
    ),
    (
        true,
        "POST /druid/v2 HTTP/1.1|Content-Length: 2||{}",
        "{\"error\":\"Q2\"}",
    ),
    (false, "GET /nowhere HTTP/1.1||", "{\"error\":\"NoRoute\"}"),
    (true, "POST /druid/v2 HTTP/1.1||", "{\"error\":\"X6\"}"),
];

// Each answer beside slow clients is that of a server without front threads and slow clients, byte for byte.
#[test]
fn slow_clients_hold_nobody(rt: HostRuntime) {
    let alloc = rt.alloc();
    let (first, second) = (place(&rt, alloc), place(&rt, alloc));
    let fronted = config(&rt, alloc, &first, 0)
        .replace(alloc, "\"workers\":2", FRONT)
        .expect(&rt, "memory");
    assert_served(&rt, served(&rt, alloc, fronted.as_str()));
    let plain = config(&rt, alloc, &second, 0);
    assert_served(&rt, served(&rt, alloc, plain.as_str()));
    for (is_broker, request, end) in ROWS {
        assert_alike(&rt, alloc, (&first, &second), is_broker, request, end);
    }
    clear(&rt, &first);
    clear(&rt, &second);
}
