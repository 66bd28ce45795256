//! What an operator does and sees: parts of a cluster, status addresses, the log.
use crate::folders::NEWER_FILE;
use crate::host::{Host, address_of, listener, quiet_log};
use crate::live_clusters::{
    ASK, MAX_LOOKS, NEWER, answered, link_to, live_config, pair, read_lines, wait_for,
};
use crate::serve::{Place, clear, place_of};
use druid_link::Link;
use druid_program::{Environment, serve_config};
use druid_telemetry_log::{Level, Log, open, write_lines};
use std::alloc::Global;
use std::net::{Net, TcpListener, TcpStream};
use std::process::Abort;
use std::sync::Arc;
use std::time::Duration;
use std::{str, thread};

const HEALTH: &[u8] = b"GET /status/health HTTP/1.1\r\n\r\n";

// The text, owned.
fn text_of(rt: &impl Abort, alloc: Global, text: &str) -> String {
    String::from_str(alloc, text).expect(rt, "memory")
}

// What a part of a cluster comes to: the status, a line feed, what was printed and what was written to the error writer.
fn served_part<R: Host + Net<Listener = TcpListener, Stream = TcpStream>>(
    rt: &R,
    alloc: Global,
    config: &str,
    part: &str,
    log: Arc<Log, Global>,
) -> String {
    let environment = Environment::new(false, Some(text_of(rt, alloc, part)), log);
    let (mut out, mut errors) = (Vec::new(alloc), Vec::new(alloc));
    let bytes = config.as_bytes();
    let ending = serve_config(rt, alloc, bytes, &environment, &mut out, &mut errors);
    let status = ending.status;
    let printed = str::from_utf8(&out).expect(rt, "a text");
    let reported = str::from_utf8(&errors).expect(rt, "a text");
    format!(in alloc; "{status}\n{printed}{reported}").expect(rt, "memory")
}

// Waits until a server answers at an address.
fn wait_until_up<R: Host + Net<Listener = TcpListener, Stream = TcpStream>>(
    rt: &R,
    alloc: Global,
    address: &str,
) {
    let mut link = link_to(rt, alloc, address);
    for _ in 0..MAX_LOOKS {
        if link.exchange(alloc, HEALTH).is_ok() {
            return;
        }
        thread::sleep(rt, Duration::from_millis(2));
    }
    panic!(rt; "no server at {address}");
}

// Serves a part for ever, on a thread of its own, and waits until it is healthy at an address.
fn start_part<R: Host + Net<Listener = TcpListener, Stream = TcpStream>>(
    rt: &R,
    alloc: Global,
    config: &str,
    part: &str,
    log: Arc<Log, Global>,
    address: &str,
) {
    let rt = *rt;
    let (config, part) = (text_of(&rt, alloc, config), text_of(&rt, alloc, part));
    let serving = move || drop(served_part(&rt, alloc, config.as_str(), part.as_str(), log));
    thread::spawn(&rt, serving).expect(&rt, "a thread");
    wait_until_up(&rt, alloc, address);
}

// Nodes and a broker of one config, each served by itself: the broker's query is answered over both nodes.
#[test]
fn parts(rt: HostRuntime) {
    let alloc = rt.alloc();
    let place = place_of(&rt, alloc, "parts");
    let config = live_config(&rt, alloc, &place);
    for (part, address) in [("n0", &place.first), ("n1", &place.second)] {
        let log = quiet_log(&rt, alloc);
        start_part(&rt, alloc, config.as_str(), part, log, address.as_str());
    }
    let log = quiet_log(&rt, alloc);
    let came = served_part(&rt, alloc, config.as_str(), "broker:1", log);
    let wanted = format!(in alloc; "0\n200\n{NEWER}\n").expect(&rt, "memory");
    assert!(&rt; came.as_str() == wanted.as_str(), "{came}");
    clear(&rt, &place);
}

#[test]
fn no_parts(rt: HostRuntime) {
    let alloc = rt.alloc();
    let place = place_of(&rt, alloc, "no_parts");
    let config = live_config(&rt, alloc, &place);
    for part in [
        "",
        "n2",
        "n0,",
        "broker:2",
        "broker:01",
        "broker:",
        "n0,n1,broker:2",
    ] {
        let log = quiet_log(&rt, alloc);
        let came = served_part(&rt, alloc, config.as_str(), part, log);
        assert!(&rt; came.as_str() == "1\nbad config\n", "{part}: {came}");
    }
    clear(&rt, &place);
}

// The config of a place whose first node and first broker have status addresses.
fn config_with_status(
    rt: &impl Abort,
    alloc: Global,
    place: &Place,
    node: &str,
    broker: &str,
) -> String {
    let text = live_config(rt, alloc, place);
    let named = format!(in alloc; "\"status\":\"{node}\",\"name\":\"n0\"").expect(rt, "memory");
    let text = text
        .replace(alloc, "\"name\":\"n0\"", named.as_str())
        .expect(rt, "memory");
    let address = format!(in alloc; "\"address\":\"{}\"", place.broker).expect(rt, "memory");
    let both = format!(in alloc; "{address},\"status\":\"{broker}\"").expect(rt, "memory");
    let text = text
        .replace(alloc, address.as_str(), both.as_str())
        .expect(rt, "memory");
    text.replace(alloc, "\"connections\":0,", "")
        .expect(rt, "memory")
}

// Asserts what an address answers: the status, and a text that is in the answer.
fn assert_answers<R: Host + Net<Listener = TcpListener, Stream = TcpStream>>(
    rt: &R,
    alloc: Global,
    address: &str,
    rows: &[(&str, &str, &str)],
) {
    for (request, status, wanted) in rows {
        let text = format!(in alloc; "{request} HTTP/1.1\r\ncontent-length: 0\r\n\r\n").expect(
            rt, "memory",
        );
        let mut link = link_to(rt, alloc, address);
        let answer = answered(rt, alloc, &mut link, text.as_bytes());
        let begun = format!(in alloc; "HTTP/1.1 {status} ").expect(rt, "memory");
        assert!(rt;
            answer.as_str().starts_with(begun.as_str()) && answer.as_str().contains(wanted),
            "{request}: {answer}"
        );
    }
}

// Serves a place for ever, on a thread of its own, and gives the status addresses of its first node and of its first broker.
fn start_with_status<R: Host + Net<Listener = TcpListener, Stream = TcpStream>>(
    rt: &R,
    alloc: Global,
    place: &Place,
) -> (String, String) {
    let (node, broker) = (listener(rt), listener(rt));
    let (node_at, broker_at) = (address_of(rt, alloc, &node), address_of(rt, alloc, &broker));
    drop((node, broker));
    let config = config_with_status(rt, alloc, place, node_at.as_str(), broker_at.as_str());
    let log = quiet_log(rt, alloc);
    start_part(
        rt,
        alloc,
        config.as_str(),
        "n0,n1,broker:0,broker:1",
        log,
        place.broker.as_str(),
    );
    wait_for(rt, alloc, place.broker.as_str(), ASK, NEWER);
    (node_at, broker_at)
}

// Requests to a status address, each with the status of its answer and a text that is in it.
const OF_BOTH: [(&str, &str, &str); 4] = [
    ("GET /status/health", "200", "true"),
    ("POST /status/health", "405", "Method"),
    ("POST /metrics", "405", "Method"),
    ("GET /druid/v2/datasources", "404", "NoRoute"),
];

const OF_NODE: [(&str, &str, &str); 4] = [
    (
        "GET /metrics",
        "200",
        "druid_cluster_node_segments{server=\"n0\"} 1\n",
    ),
    (
        "GET /metrics",
        "200",
        "druid_cluster_node_rows{server=\"n0\"} 4\n",
    ),
    (
        "GET /metrics",
        "200",
        "druid_cluster_answers_total{server=\"n0\",route=\"query\",status=\"200\"}",
    ),
    ("GET /druid/broker/v1/loadstatus", "404", "NoRoute"),
];

const OF_BROKER: [(&str, &str, &str); 4] = [
    (
        "GET /druid/broker/v1/loadstatus",
        "200",
        "{\"inventoryInitialized\":true}",
    ),
    (
        "GET /metrics",
        "200",
        "druid_cluster_followed_incarnation{server=\"broker:0\",node=\"n1\"} 1\n",
    ),
    (
        "GET /metrics",
        "200",
        "druid_cluster_exchanges_total{server=\"broker:0\",node=\"n0\",end=\"answered\"}",
    ),
    (
        "GET /metrics",
        "200",
        "druid_cluster_turns_total{server=\"broker:0\",node=\"n0\",end=\"Moved\"} 1\n",
    ),
];

#[test]
fn status_addresses(rt: HostRuntime) {
    let alloc = rt.alloc();
    let place = place_of(&rt, alloc, "status");
    let (node_at, broker_at) = start_with_status(&rt, alloc, &place);
    for (address, rows) in [(&node_at, OF_NODE), (&broker_at, OF_BROKER)] {
        assert_answers(&rt, alloc, address.as_str(), &OF_BOTH);
        assert_answers(&rt, alloc, address.as_str(), &rows);
    }
    clear(&rt, &place);
}

// Whether a server does not answer within a fifth of a second.
fn hangs<R: Host + Net<Listener = TcpListener, Stream = TcpStream>>(
    rt: &R,
    alloc: Global,
    address: &str,
) -> bool {
    let mut link = link_to(rt, alloc, address);
    link.hasten(Some(200));
    link.exchange(alloc, HEALTH).is_err()
}

// Clients that keep silent hold all workers of a node and of a broker, so that nobody else is answered there: at their status addresses
// everybody is.
#[test]
fn status_while_workers_hang(rt: HostRuntime) {
    let alloc = rt.alloc();
    let place = place_of(&rt, alloc, "hanging");
    let (node_at, broker_at) = start_with_status(&rt, alloc, &place);
    let held = [&place.first, &place.first, &place.broker, &place.broker];
    let silent = held.map(|address| TcpStream::connect(&rt, address.as_str()).expect(
        &rt,
        "a connection",
    ));
    assert!(&rt; hangs(&rt, alloc, place.first.as_str()), "the node");
    assert!(&rt; hangs(&rt, alloc, place.broker.as_str()), "the broker");
    let health = ("GET /status/health", "200", "true");
    let synced = (
        "GET /druid/broker/v1/loadstatus",
        "200",
        "{\"inventoryInitialized\":true}",
    );
    assert_answers(&rt, alloc, node_at.as_str(), &[health]);
    assert_answers(&rt, alloc, broker_at.as_str(), &[health, synced]);
    drop(silent);
    clear(&rt, &place);
}

// The files of the start and of `loads` are logged, the one that is not there with its fault.
#[test]
fn logged_files(rt: HostRuntime) {
    let alloc = rt.alloc();
    let place = place_of(&rt, alloc, "logged");
    let config = live_config(&rt, alloc, &place);
    let (log, lines) = open(alloc, Level::Info).expect(&rt, "memory");
    let lines = lines.expect(&rt, "an open log");
    let (mut out, other_end) = pair(&rt, alloc);
    let host = rt;
    thread::spawn(&rt, move || write_lines(&host, alloc, &lines, &mut out)).expect(&rt, "a thread");
    let log = Arc::new(alloc, log).expect(&rt, "memory");
    start_part(
        &rt,
        alloc,
        config.as_str(),
        "n1",
        log,
        place.second.as_str(),
    );
    let text = read_lines(&rt, alloc, &other_end, 2);
    let loaded = format!(in alloc;
        "\"event\":\"loaded\",\"file\":\"{NEWER_FILE}\",\"server\":\"n1\"}}\n"
    ).expect(&rt, "memory");
    let refused =
        "\"code\":\"N6\",\"event\":\"refused\",\"file\":\"none.seg\",\"server\":\"n1\"}\n";
    assert!(&rt;
        text.as_str().contains(loaded.as_str()) && text.as_str().ends_with(refused),
        "{text}"
    );
    clear(&rt, &place);
}
