//! Clusters that go on: files come and go while clients ask.
use crate::folders::NEWER_FILE;
use crate::host::{Host, address_of, environment, listener};
use crate::serve::{Place, assert_served, clear, config, place_of, served};
use druid_link::{Link, TcpLink};
use druid_program::serve_config;
use std::alloc::Global;
use std::io::{BufRead, BufReader};
use std::net::{Net, TcpListener, TcpStream};
use std::process::Abort;
use std::sync::atomic::{AtomicBool, AtomicU64, Ordering};
use std::thread::join;
use std::time::{Clock, Duration};
use std::{fs, str, thread};

// How often a file goes and comes.
const CYCLES: u64 = 200;

/// How often a client looks for what is to come, 2 milliseconds apart, before it gives up.
pub(crate) const MAX_LOOKS: u64 = 20_000;

/// The config of a place, whose nodes look at their folders and whose brokers ask them each 5 milliseconds.
pub(crate) fn live_config(rt: &impl Abort, alloc: Global, place: &Place) -> String {
    let text = config(rt, alloc, place, 0);
    let text = text
        .replace(alloc, "\"loads\":", "\"watch\":5,\"loads\":")
        .expect(rt, "memory");
    text.replace(alloc, "\"turns\":1", "\"turns\":1,\"every\":5")
        .expect(rt, "memory")
}

/// A request of the row's query: of the older segment's rows four are visible where the newer one is not served, and else two, and
/// the three of that.
pub(crate) const ASK: &[u8] =
    b"POST /druid/v2 HTTP/1.1\r\ncontent-length: 147\r\n\r\n{\"aggregations\":[{\"name\":\"n\",\"type\":\"count\"}],\"dataSource\":\"wiki\",\"granularity\":\"all\",\"intervals\":\"2024-01-01/2024-01-02\",\"queryType\":\"timeseries\"}";

const OLDER: &str = "[{\"result\":{\"n\":4},\"timestamp\":\"2024-01-01T00:00:00.000Z\"}]";

pub(crate) const NEWER: &str =
    "[{\"result\":{\"n\":5},\"timestamp\":\"2024-01-01T00:00:00.000Z\"}]";

/// What a link answers.
pub(crate) fn answered<L: Link>(
    rt: &impl Abort,
    alloc: Global,
    link: &mut L,
    request: &[u8],
) -> String {
    let answer = link.exchange(alloc, request).expect(rt, "an answer");
    let text = str::from_utf8(&answer).expect(rt, "a text");
    String::from_str(alloc, text).expect(rt, "memory")
}

pub(crate) fn link_to<R: Net + Clock + Copy + Abort>(
    rt: &R,
    alloc: Global,
    address: &str,
) -> TcpLink<R> {
    TcpLink::new(*rt, String::from_str(alloc, address).expect(rt, "memory"))
}

/// Asks until the answer ends with that text.
pub(crate) fn wait_for<R: Net + Clock + Copy + Abort>(
    rt: &R,
    alloc: Global,
    address: &str,
    request: &[u8],
    wanted: &str,
) {
    let mut link = link_to(rt, alloc, address);
    for _ in 0..MAX_LOOKS {
        if answered(rt, alloc, &mut link, request)
            .as_str()
            .ends_with(wanted)
        {
            return;
        }
        thread::sleep(rt, Duration::from_millis(2));
    }
    panic!(rt; "never {wanted}")
}

// Moves the newer segment's file out of its folder's names and back, again and again, each time once the broker shows the last move.
fn move_file<R: Host + Net<Listener = TcpListener, Stream = TcpStream>>(
    rt: &R,
    alloc: Global,
    place: &Place,
) {
    let folder = place.newer.as_str();
    let there = format!(in alloc; "{folder}/{NEWER_FILE}").expect(rt, "memory");
    let away = format!(in alloc; "{folder}/away").expect(rt, "memory");
    for _ in 0..CYCLES {
        fs::rename(rt, there.as_str(), away.as_str()).expect(rt, "a file");
        wait_for(rt, alloc, place.broker.as_str(), ASK, OLDER);
        fs::rename(rt, away.as_str(), there.as_str()).expect(rt, "a file");
        wait_for(rt, alloc, place.broker.as_str(), ASK, NEWER);
    }
}

// How many answers of each version clients saw, and whether the file moves no more.
#[derive(Drop)]
struct Seen {
    older: AtomicU64,
    newer: AtomicU64,
    done: AtomicBool,
}

// Counts an answer, which is of one version, or says what is missing: the newer segment, between its drop by the node and the
// broker's next turn.
fn count(rt: &impl Abort, seen: &Seen, answer: &str) {
    if answer.ends_with(OLDER) {
        seen.older.fetch_add(1, Ordering::SeqCst);
    } else if answer.ends_with(NEWER) {
        seen.newer.fetch_add(1, Ordering::SeqCst);
    } else {
        assert!(rt; answer.contains("\"SegmentsMissing\""), "{answer}");
    }
}

// Asks a broker until the file moves no more.
fn keep_asking<R: Net + Clock + Copy + Abort>(rt: &R, alloc: Global, address: &str, seen: &Seen) {
    let mut link = link_to(rt, alloc, address);
    for _ in 0..10_000_000 {
        if seen.done.load(Ordering::SeqCst) {
            return;
        }
        count(rt, seen, answered(rt, alloc, &mut link, ASK).as_str());
    }
}

// Four clients of two brokers.
fn ask_brokers<R: Host + Net<Listener = TcpListener, Stream = TcpStream>>(
    rt: &R,
    alloc: Global,
    place: &Place,
    seen: &Seen,
) {
    let (broker, other) = (place.broker.as_str(), place.other.as_str());
    let two = |address: &str| {
        join(
            rt,
            || keep_asking(rt, alloc, address, seen),
            || keep_asking(rt, alloc, address, seen),
        );
    };
    join(rt, || two(broker), || two(other));
}

// What the node at an address says that it serves.
fn served_by<R: Net + Clock + Copy + Abort>(rt: &R, alloc: Global, address: &str) -> String {
    let mut link = link_to(rt, alloc, address);
    let answer = answered(
        rt,
        alloc,
        &mut link,
        b"GET /druid-internal/v1/segments HTTP/1.1\r\n\r\n",
    );
    let (_, body) = answer.as_str().split_once("\r\n\r\n").expect(rt, "a body");
    String::from_str(alloc, body).expect(rt, "memory")
}

// All that the broker at an address answers of a node, once it stands at that mark of it.
fn known_at<R: Net + Clock + Copy + Abort>(
    rt: &R,
    alloc: Global,
    address: &str,
    node: u8,
    mark: &str,
) -> String {
    let mut link = link_to(rt, alloc, address);
    let ask = format!(in alloc; "GET /druid-internal/v1/inventory/{node} HTTP/1.1\r\n\r\n").expect(
        rt, "memory",
    );
    for _ in 0..MAX_LOOKS {
        let answer = answered(rt, alloc, &mut link, ask.as_bytes());
        if answer.as_str().contains(mark) {
            return answer;
        }
        thread::sleep(rt, Duration::from_millis(2));
    }
    panic!(rt; "never {mark}")
}

// Asserts that both brokers, once they stand at each node's mark, answer the same bytes of it, and what it says itself.
fn assert_agree<R: Net + Clock + Copy + Abort>(rt: &R, alloc: Global, place: &Place) {
    for (node, address) in [(0u8, &place.first), (1, &place.second)] {
        let said = served_by(rt, alloc, address.as_str());
        let (mark, _) = said.as_str().split_once(",\"from\":").expect(rt, "a mark");
        let first = known_at(rt, alloc, place.broker.as_str(), node, mark);
        let second = known_at(rt, alloc, place.other.as_str(), node, mark);
        assert!(rt;
            first.as_str() == second.as_str() && first.as_str().ends_with(said.as_str()),
            "{node}: {first} {second}"
        );
    }
}

// Each answer is of one version while the newer one's file goes and comes, and both are seen. Before and after, both brokers know the
// same of each node, byte for byte.
#[test]
fn a_version_comes_and_goes(rt: HostRuntime) {
    let alloc = rt.alloc();
    let place = place_of(&rt, alloc, "live");
    let text = live_config(&rt, alloc, &place);
    assert_served(&rt, served(&rt, alloc, text.as_str()));
    assert_agree(&rt, alloc, &place);
    let seen = Seen {
        older: AtomicU64::new(0),
        newer: AtomicU64::new(0),
        done: AtomicBool::new(false),
    };
    join(
        &rt,
        || {
            move_file(&rt, alloc, &place);
            seen.done.store(true, Ordering::SeqCst);
        },
        || ask_brokers(&rt, alloc, &place, &seen),
    );
    let (older, newer) = (
        seen.older.load(Ordering::SeqCst),
        seen.newer.load(Ordering::SeqCst),
    );
    assert!(rt; CYCLES <= older && CYCLES <= newer, "{older} {newer}");
    assert_agree(&rt, alloc, &place);
    clear(&rt, &place);
}

/// A connection to a listener, and its other end.
pub(crate) fn pair<R: Net<Listener = TcpListener, Stream = TcpStream> + Abort>(
    rt: &R,
    alloc: Global,
) -> (TcpStream, TcpStream) {
    let listener = listener(rt);
    let address = address_of(rt, alloc, &listener);
    let stream = TcpStream::connect(rt, address.as_str()).expect(rt, "a connection");
    let (other, _) = listener.accept().expect(rt, "a connection");
    (stream, other)
}

// What a cluster without an end says of itself.
fn lines_of(rt: &impl Abort, alloc: Global, place: &Place) -> String {
    let (first, second) = (&place.first, &place.second);
    let (broker, other) = (&place.broker, &place.other);
    let (older, newer) = (&place.older, &place.newer);
    format!(in alloc;
        "node n0: listens on {first}, serves the folder {older}\nnode n1: listens on {second}, serves the folder {newer}\nbroker: listens on {broker}, asks 2 nodes\nbroker: listens on {other}, asks 2 nodes\n"
    ).expect(rt, "memory")
}

/// The lines that come over a connection, as many as that.
pub(crate) fn read_lines(rt: &impl Abort, alloc: Global, stream: &TcpStream, count: u64) -> String {
    let mut reader = BufReader::new(alloc, stream).expect(rt, "memory");
    let mut text = String::new(alloc);
    for _ in 0..count {
        reader.read_line(&mut text).expect(rt, "a line");
    }
    text
}

// It serves on, says where, and no other program takes its folders.
#[test]
fn a_cluster_without_an_end(rt: HostRuntime) {
    let alloc = rt.alloc();
    let place = place_of(&rt, alloc, "endless");
    let text = live_config(&rt, alloc, &place);
    let text = text
        .replace(alloc, "\"connections\":0,", "")
        .expect(&rt, "memory");
    let config = String::from_str(alloc, text.as_str()).expect(&rt, "memory");
    let (mut errors, other_end) = pair(&rt, alloc);
    let environment = environment(&rt, alloc, false);
    let serving = move || {
        let mut out = Vec::new(alloc);
        let bytes = config.as_bytes();
        let ending = serve_config(&rt, alloc, bytes, &environment, &mut out, &mut errors);
        ending.status
    };
    thread::spawn(&rt, serving).expect(&rt, "a thread");
    let lines = read_lines(&rt, alloc, &other_end, 4);
    let wanted = lines_of(&rt, alloc, &place);
    assert!(&rt; lines.as_str() == wanted.as_str(), "{lines}");
    wait_for(&rt, alloc, place.broker.as_str(), ASK, NEWER);
    let second = served(&rt, alloc, text.as_str());
    assert!(&rt; second.as_str() == "3\ndevice\n", "{second}");
    let started = format!(in alloc; "{}/incarnation", place.older).expect(&rt, "memory");
    let started = fs::read_to_string(&rt, started.as_str()).expect(&rt, "a file");
    assert!(&rt; started.as_str() == "1\n", "{started}");
    clear(&rt, &place);
}
