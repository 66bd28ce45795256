//! Clusters that are served.
use crate::folders::{
    LATER_FILE, NEWER_FILE, OLDER_FILE, edge_bytes, fewer_bytes, file_bytes, fresh_folder, put,
};
use crate::host::{Host, address_of, environment, listener};
use druid_link::{Link, TcpLink};
use druid_program::{run, serve_config};
use druid_serve_base::Handover;
use std::alloc::Global;
use std::io::{ErrorKind, Write};
use std::net::{Net, TcpListener, TcpStream};
use std::process::Abort;
use std::sync::Wait;
use std::sync::atomic::{AtomicU64, Ordering};
use std::thread::join;
use std::time::Clock;
use std::{fs, io, str};

/// Where the two nodes and the two brokers of a test are, and over which folders the nodes stand.
#[derive(Drop)]
pub(crate) struct Place {
    /// The first node.
    pub(crate) first: String,
    /// The second node.
    pub(crate) second: String,
    /// The first broker.
    pub(crate) broker: String,
    /// The second broker.
    pub(crate) other: String,
    /// The folder of the first node.
    pub(crate) older: String,
    /// The folder of the second node.
    pub(crate) newer: String,
}

// A new folder of a test with this file.
fn folder_with<R: Host>(rt: &R, alloc: Global, test: &str, file: &str) -> String {
    let name = format!(in alloc; "druid_serve_{test}").expect(rt, "memory");
    let folder = fresh_folder(rt, alloc, name.as_str());
    put(
        rt,
        alloc,
        folder.as_str(),
        file,
        &file_bytes(rt, alloc, file),
    );
    folder
}

/// A place with folders of the row's two segments.
pub(crate) fn place_of<R: Host + Net<Listener = TcpListener, Stream = TcpStream>>(
    rt: &R,
    alloc: Global,
    test: &str,
) -> Place {
    let older = folder_with(rt, alloc, test, OLDER_FILE);
    let newer = folder_with(rt, alloc, test, NEWER_FILE);
    put(rt, alloc, newer.as_str(), "other", b"no segment");
    // (all four listen at once: the port of one that is dropped could be given to the next)
    let (first, second) = (listener(rt), listener(rt));
    let (broker, other) = (listener(rt), listener(rt));
    Place {
        first: address_of(rt, alloc, &first),
        second: address_of(rt, alloc, &second),
        broker: address_of(rt, alloc, &broker),
        other: address_of(rt, alloc, &other),
        older,
        newer,
    }
}

/// The row's query.
pub(crate) const QUERY: &str =
    "{\"aggregations\":[{\"name\":\"n\",\"type\":\"count\"}],\"dataSource\":\"wiki\",\"granularity\":\"all\",\"intervals\":\"2024-01-01/2024-01-02\",\"queryType\":\"timeseries\"}";

// The same as a member of a config.
const QUERY_OF_BOTH: &str =
    "\"query\":{\"aggregations\":[{\"name\":\"n\",\"type\":\"count\"}],\"dataSource\":\"wiki\",\"granularity\":\"all\",\"intervals\":\"2024-01-01/2024-01-02\",\"queryType\":\"timeseries\"}";

/// A config of two nodes and two brokers: the query is posted to the second, and no query to the first.
pub(crate) fn config(rt: &impl Abort, alloc: Global, place: &Place, connections: u64) -> String {
    let (first, second) = (&place.first, &place.second);
    let (broker, other) = (&place.broker, &place.other);
    let (older, newer) = (&place.older, &place.newer);
    format!(in alloc;
        "{{\"brokers\":[{{\"address\":\"{broker}\",\"workers\":2}},{{\"address\":\"{other}\",\"workers\":1}}],\"connections\":{connections},\"kept\":10,\"nodes\":[{{\"address\":\"{first}\",\"folder\":\"{older}\",\"loads\":[],\"name\":\"n0\",\"workers\":2}},{{\"address\":\"{second}\",\"folder\":\"{newer}\",\"loads\":[\"none.seg\",\"{NEWER_FILE}\",\"other\"],\"name\":\"n1\",\"workers\":2}}],\"queries\":[{{\"broker\":1,\"query\":{QUERY}}},{{\"broker\":0,\"query\":{{}}}}],\"turns\":1}}"
    ).expect(rt, "memory")
}

/// What a config comes to: the status, a line feed, what was printed and what was written to the error writer.
pub(crate) fn served<R: Host + Net<Listener = TcpListener, Stream = TcpStream>>(
    rt: &R,
    alloc: Global,
    config: &str,
) -> String {
    let mut out = Vec::new(alloc);
    let mut errors = Vec::new(alloc);
    let environment = environment(rt, alloc, false);
    let bytes = config.as_bytes();
    let ending = serve_config(rt, alloc, bytes, &environment, &mut out, &mut errors);
    assert!(rt; ending.reported.is_ok());
    let status = ending.status;
    let printed = str::from_utf8(&out).expect(rt, "a text");
    let reported = str::from_utf8(&errors).expect(rt, "a text");
    format!(in alloc; "{status}\n{printed}{reported}").expect(rt, "memory")
}

/// What the config of a place comes to.
pub(crate) fn served_at<R: Host + Net<Listener = TcpListener, Stream = TcpStream>>(
    rt: &R,
    alloc: Global,
    place: &Place,
) -> String {
    served(rt, alloc, config(rt, alloc, place, 0).as_str())
}

fn assert_reported(rt: &impl Abort, reported: String, wanted: &str) {
    assert!(rt; reported.as_str() == wanted, "{reported}");
}

/// Asserts that a cluster was served, whose first query was answered.
pub(crate) fn assert_served(rt: &impl Abort, reported: String) {
    assert!(rt; reported.as_str().starts_with("0\n200\n"), "{reported}");
}

// The text of a file of a folder.
fn text_in<R: Host>(rt: &R, alloc: Global, folder: &str, name: &str) -> String {
    let path = format!(in alloc; "{folder}/{name}").expect(rt, "memory");
    fs::read_to_string(rt, path.as_str()).expect(rt, "a file")
}

/// Removes the folders of a place.
pub(crate) fn clear<R: Host>(rt: &R, place: &Place) {
    fs::remove_dir_all(rt, place.older.as_str()).expect(rt, "a folder");
    fs::remove_dir_all(rt, place.newer.as_str()).expect(rt, "a folder");
}

// The files that keep the incarnations of a place.
fn incarnations<R: Host>(rt: &R, alloc: Global, place: &Place) -> String {
    let older = text_in(rt, alloc, place.older.as_str(), "incarnation");
    let newer = text_in(rt, alloc, place.newer.as_str(), "incarnation");
    format!(in alloc; "{older}{newer}").expect(rt, "memory")
}

// What is reported of a config that is served: the answers to its queries are printed. Five rows are visible: of the older
// segment the two outside the newer one, and the three of that.
const SERVED: &str =
    "0\n200\n[{\"result\":{\"n\":5},\"timestamp\":\"2024-01-01T00:00:00.000Z\"}]\n400\n{\"error\":\"Q2\"}\n";

// What a node answers to an ask for what it changed since its incarnation 8 began.
fn changes_of<R: Net + Clock + Copy + Abort>(rt: &R, alloc: Global, address: &str) -> String {
    let address = String::from_str(alloc, address).expect(rt, "memory");
    let mut link = TcpLink::new(*rt, address);
    let request = b"GET /druid-internal/v1/segments?counter=0&hash=8 HTTP/1.1\r\n\r\n";
    let answer = link.exchange(alloc, request).expect(rt, "an answer");
    let text = str::from_utf8(&answer).expect(rt, "a text");
    String::from_str(alloc, text).expect(rt, "memory")
}

#[test]
fn served_cluster(rt: HostRuntime) {
    let place = place_of(&rt, rt.alloc(), "cluster");
    put(&rt, rt.alloc(), place.newer.as_str(), "incarnation", b"7\n");
    let later = file_bytes(&rt, rt.alloc(), LATER_FILE);
    put(&rt, rt.alloc(), place.newer.as_str(), LATER_FILE, &later);
    assert_reported(&rt, served_at(&rt, rt.alloc(), &place), SERVED);
    assert_reported(&rt, incarnations(&rt, rt.alloc(), &place), "1\n8\n");
    let answer = changes_of(&rt, rt.alloc(), place.second.as_str());
    let delta = "{\"counter\":{\"counter\":2,\"hash\":8},\"from\":{\"counter\":0,\"hash\":8},";
    assert!(rt; answer.as_str().contains(delta), "{answer}");
    clear(&rt, &place);
}

// What is reported where both brokers were asked for the row's query by one worker each: the first answer of each is by the first
// node. A second answer of one of them would be by the second node, whose copy of the older segment has one row that counts.
const BOTH: &str =
    "0\n200\n[{\"result\":{\"n\":5},\"timestamp\":\"2024-01-01T00:00:00.000Z\"}]\n200\n[{\"result\":{\"n\":5},\"timestamp\":\"2024-01-01T00:00:00.000Z\"}]\n";

#[test]
fn queries_to_their_brokers(rt: HostRuntime) {
    let alloc = rt.alloc();
    let place = place_of(&rt, alloc, "brokers");
    let fewer = fewer_bytes(&rt, alloc);
    put(&rt, alloc, place.newer.as_str(), OLDER_FILE, &fewer);
    let text = config(&rt, alloc, &place, 0);
    let text = text
        .replace(alloc, "\"workers\":2", "\"workers\":1")
        .expect(&rt, "memory");
    let text = text
        .replace(alloc, "\"query\":{}", QUERY_OF_BOTH)
        .expect(&rt, "memory");
    assert_reported(&rt, served(&rt, alloc, text.as_str()), BOTH);
    clear(&rt, &place);
}

// What is reported where one worker answers that query twice: the second time at the next turn, so by the second node first.
const TWICE: &str =
    "0\n200\n[{\"result\":{\"n\":5},\"timestamp\":\"2024-01-01T00:00:00.000Z\"}]\n200\n[{\"result\":{\"n\":4},\"timestamp\":\"2024-01-01T00:00:00.000Z\"}]\n";

#[test]
fn turns_of_a_worker(rt: HostRuntime) {
    let alloc = rt.alloc();
    let place = place_of(&rt, alloc, "turns");
    let fewer = fewer_bytes(&rt, alloc);
    put(&rt, alloc, place.newer.as_str(), OLDER_FILE, &fewer);
    let text = config(&rt, alloc, &place, 0);
    let text = text
        .replace(alloc, "\"broker\":0", "\"broker\":1")
        .expect(&rt, "memory");
    let text = text
        .replace(alloc, "\"query\":{}", QUERY_OF_BOTH)
        .expect(&rt, "memory");
    assert_reported(&rt, served(&rt, alloc, text.as_str()), TWICE);
    clear(&rt, &place);
}

// What the program ends with for `serve` and a path: its status, what was printed and what was reported.
fn run_with<R: Host + Net<Listener = TcpListener, Stream = TcpStream>>(
    rt: &R,
    alloc: Global,
    path: &str,
) -> String {
    let mut words = Vec::new(alloc);
    for word in ["serve", path] {
        let word = String::from_str(alloc, word).expect(rt, "memory");
        words.push(word).expect(rt, "memory");
    }
    let (mut out, mut errors) = (Vec::new(alloc), Vec::new(alloc));
    let mut input = b"".as_slice();
    let ending = run(
        rt,
        alloc,
        Ok(words),
        &environment(rt, alloc, false),
        &mut input,
        &mut out,
        &mut errors,
    );
    let status = ending.status;
    let printed = str::from_utf8(&out).expect(rt, "a text");
    let reported = str::from_utf8(&errors).expect(rt, "a text");
    format!(in alloc; "{status}\n{printed}{reported}").expect(rt, "memory")
}

fn spaces(rt: &impl Abort, alloc: Global, digits: &str) -> Vec<u8> {
    let count: usize = digits.parse().expect(rt, "a number");
    let mut bytes = Vec::new(alloc);
    bytes.resize(count, b' ').expect(rt, "memory");
    bytes
}

// A config is read of its path, and no more than 16 MiB of it.
#[test]
fn configs_of_paths(rt: HostRuntime) {
    let alloc = rt.alloc();
    let place = place_of(&rt, alloc, "paths");
    let good = config(&rt, alloc, &place, 0);
    let folder = place.older.as_str();
    put(&rt, alloc, folder, "good", good.as_str().as_bytes());
    put(&rt, alloc, folder, "bad", b"{}");
    put(&rt, alloc, folder, "long", &spaces(&rt, alloc, "16777217"));
    for row in ["good", "bad", "long", "none"] {
        let path = format!(in alloc; "{folder}/{row}").expect(&rt, "memory");
        let wanted = match row {
            "good" => SERVED,
            "none" => "3\ndevice\n",
            _ => "1\nbad config\n",
        };
        assert_reported(&rt, run_with(&rt, alloc, path.as_str()), wanted);
    }
    clear(&rt, &place);
}

/// A writer that takes nothing, or all and does not flush.
#[derive(Drop)]
pub(crate) struct Full {
    /// Whether it takes all.
    pub(crate) takes: bool,
}

impl Write for Full {
    fn write(&mut self, buf: &[u8]) -> io::Result<usize> {
        if self.takes {
            Ok(buf.len())
        } else {
            Err(ErrorKind::StorageFull.into())
        }
    }

    fn flush(&mut self) -> io::Result<()> {
        Err(ErrorKind::StorageFull.into())
    }
}

#[test]
fn full_output(rt: HostRuntime) {
    for takes in [false, true] {
        let place = place_of(&rt, rt.alloc(), "full");
        let config = config(&rt, rt.alloc(), &place, 0);
        let mut errors = Vec::new(rt.alloc());
        let mut out = Full { takes };
        let ending = serve_config(
            &rt,
            rt.alloc(),
            config.as_bytes(),
            &environment(&rt, rt.alloc(), false),
            &mut out,
            &mut errors,
        );
        assert!(rt; ending.status == 3 && errors.as_slice() == b"device\n".as_slice());
        clear(&rt, &place);
    }
}

// A config of two nodes and one broker, to which the query is posted after one turn.
fn one_broker(rt: &impl Abort, alloc: Global, place: &Place) -> String {
    let (first, second, broker) = (&place.first, &place.second, &place.broker);
    let (older, newer) = (&place.older, &place.newer);
    format!(in alloc;
        "{{\"brokers\":[{{\"address\":\"{broker}\",\"workers\":1}}],\"connections\":0,\"kept\":10,\"nodes\":[{{\"address\":\"{first}\",\"folder\":\"{older}\",\"loads\":[],\"name\":\"n0\",\"workers\":1}},{{\"address\":\"{second}\",\"folder\":\"{newer}\",\"loads\":[],\"name\":\"n1\",\"workers\":1}}],\"queries\":[{{\"broker\":0,\"query\":{QUERY}}}],\"turns\":1}}"
    ).expect(rt, "memory")
}

// What is reported where both segments have a row at each end of the newer one's hours, which count once, and the older one a row on
// either side of them.
const EDGES: &str = "0\n200\n[{\"result\":{\"n\":4},\"timestamp\":\"2024-01-01T00:00:00.000Z\"}]\n";

#[test]
fn no_row_counts_twice(rt: HostRuntime) {
    let alloc = rt.alloc();
    let place = place_of(&rt, alloc, "edges");
    let edges = edge_bytes(&rt, alloc);
    put(&rt, alloc, place.newer.as_str(), NEWER_FILE, &edges);
    let text = one_broker(&rt, alloc, &place);
    assert_reported(&rt, served(&rt, alloc, text.as_str()), EDGES);
    clear(&rt, &place);
}

#[test]
fn no_config(rt: HostRuntime) {
    for text in ["", "{", "no JSON", "[]", "{}"] {
        let reported = served(&rt, rt.alloc(), text);
        assert!(rt; reported.as_str() == "1\nbad config\n", "{text}");
    }
}

// What the config of a place comes to, once a file of a folder has these bytes: the first node's where the name begins with a
// slash.
fn reported_with<R: Host + Net<Listener = TcpListener, Stream = TcpStream>>(
    rt: &R,
    alloc: Global,
    name: &str,
    text: &str,
) -> String {
    let place = place_of(rt, alloc, "refused");
    match name.strip_prefix('/') {
        Some(name) => put(rt, alloc, place.older.as_str(), name, text.as_bytes()),
        None => put(rt, alloc, place.newer.as_str(), name, text.as_bytes()),
    }
    let reported = served_at(rt, alloc, &place);
    clear(rt, &place);
    reported
}

// The same of a row, in whose text `|` stands for a line feed.
fn reported_of<R: Host + Net<Listener = TcpListener, Stream = TcpStream>>(
    rt: &R,
    alloc: Global,
    row: &str,
) -> String {
    let (name, text) = row.split_once(":").expect(rt, "no row");
    let text = text.replace(alloc, "|", "\n").expect(rt, "memory");
    reported_with(rt, alloc, name, text.as_str())
}

#[test]
fn refused_folders(rt: HostRuntime) {
    let rows = "z.seg:DSG
z.seg:
.seg:DSG1
incarnation:
incarnation:7
incarnation:07|
incarnation:18446744073709551615|
/incarnation:x
/a.seg:x";
    for row in rows.lines() {
        let reported = reported_of(&rt, rt.alloc(), row);
        assert!(rt; reported.as_str() == "1\nbad folder\n", "{row}");
    }
}

#[test]
fn file_under_another_name(rt: HostRuntime) {
    let place = place_of(&rt, rt.alloc(), "name");
    let bytes = file_bytes(&rt, rt.alloc(), NEWER_FILE);
    put(&rt, rt.alloc(), place.older.as_str(), "a.seg", &bytes);
    assert_reported(&rt, served_at(&rt, rt.alloc(), &place), "1\nbad folder\n");
    clear(&rt, &place);
}

// The first fault decides: the first node's folder before the second node's address, and the other way round.
#[test]
fn failing_devices(rt: HostRuntime) {
    let alloc = rt.alloc();
    let place = place_of(&rt, alloc, "devices");
    let _taken = TcpListener::bind(&rt, place.first.as_str()).expect(&rt, "a listener");
    put(&rt, alloc, place.newer.as_str(), "z.seg", b"x");
    assert_reported(&rt, served_at(&rt, alloc, &place), "3\ndevice\n");
    put(&rt, alloc, place.older.as_str(), "z.seg", b"x");
    assert_reported(&rt, served_at(&rt, alloc, &place), "1\nbad folder\n");
    clear(&rt, &place);
    assert_reported(&rt, served_at(&rt, alloc, &place), "3\ndevice\n");
}

// Whether a server says that it is there.
fn is_there<L: Link>(alloc: Global, link: &mut L) -> bool {
    link.exchange(alloc, b"GET /status/health HTTP/1.1\r\n\r\n")
        .is_ok()
}

// Asks each server so many times whether it is there.
fn ask_each<L: Link>(alloc: Global, links: &mut [L], times: u64) {
    for _ in 0..times {
        for link in links.iter_mut() {
            is_there(alloc, link);
        }
    }
}

// A link to each of two servers.
fn links_to<R: Host + Net<Listener = TcpListener, Stream = TcpStream>>(
    rt: &R,
    alloc: Global,
    addresses: [&String; 2],
) -> Vec<TcpLink<R>> {
    let mut links = Vec::new(alloc);
    for address in addresses {
        let address = String::from_str(alloc, address.as_str()).expect(rt, "memory");
        links.push(TcpLink::new(*rt, address)).expect(rt, "memory");
    }
    links
}

// What the thread that serves a cluster and the one that asks its brokers tell each other.
#[derive(Drop)]
struct Signals {
    // A query of the config is answered: the brokers answer, and count nothing yet.
    early: Handover<()>,
    // They were asked so early.
    asked: Handover<()>,
    // All queries of the config are answered: connections count.
    counts: Handover<()>,
    // How many connections began that count.
    begun: AtomicU64,
}

// A writer that takes nothing before the brokers were asked early, and tells when it is flushed: by then the brokers count connections.
#[derive(Drop)]
struct Held<'a, R: Wait> {
    rt: &'a R,
    signals: &'a Signals,
    printed: Vec<u8>,
}

impl<R: Wait> Write for Held<'_, R> {
    fn write(&mut self, buf: &[u8]) -> io::Result<usize> {
        if self.printed.is_empty() {
            self.signals.early.give(self.rt, ());
            self.signals.asked.take(self.rt);
        }
        self.printed.write(buf)
    }

    fn flush(&mut self) -> io::Result<()> {
        self.signals.counts.give(self.rt, ());
        Ok(())
    }
}

// Serves a cluster to its end, and gives how many connections that count had begun by then.
fn begun_by_the_end<R: Host + Net<Listener = TcpListener, Stream = TcpStream>>(
    rt: &R,
    alloc: Global,
    config: &str,
    signals: &Signals,
) -> u64 {
    let mut out = Held {
        rt,
        signals,
        printed: Vec::new(alloc),
    };
    let mut errors = Vec::new(alloc);
    let environment = environment(rt, alloc, false);
    let bytes = config.as_bytes();
    let ending = serve_config(rt, alloc, bytes, &environment, &mut out, &mut errors);
    let begun = signals.begun.load(Ordering::SeqCst);
    assert!(rt; ending.status == 0 && out.printed.as_slice().starts_with(b"200\n"));
    begun
}

// How often each node is asked while a cluster goes on. No broker counts that, and one that waits for no more ends meanwhile.
const EXCHANGES: u64 = 100;

// Asks each broker that many times early, and then as often as the config says, the last time only after the nodes. Gives how often
// one answered that counted.
fn ask_brokers<R: Host + Net<Listener = TcpListener, Stream = TcpStream>>(
    rt: &R,
    alloc: Global,
    place: &Place,
    signals: &Signals,
    early: u64,
    connections: u64,
) -> u64 {
    let mut brokers = links_to(rt, alloc, [&place.broker, &place.other]);
    let mut nodes = links_to(rt, alloc, [&place.first, &place.second]);
    signals.early.take(rt);
    ask_each(alloc, &mut brokers, early);
    signals.asked.give(rt, ());
    signals.counts.take(rt);
    let mut answered = 0u64;
    for number in 1..=connections {
        for broker in brokers.iter_mut() {
            if number == connections {
                ask_each(alloc, &mut nodes, EXCHANGES);
            }
            signals.begun.fetch_add(1, Ordering::SeqCst);
            if is_there(alloc, broker) {
                answered = answered.saturating_add(1);
            }
        }
    }
    answered
}

// Asserts that a cluster whose brokers were asked that often early goes on until each of them was asked as often as the config says,
// and that each answered that.
fn assert_counted<R: Host + Net<Listener = TcpListener, Stream = TcpStream>>(
    rt: &R,
    alloc: Global,
    test: &str,
    early: u64,
    connections: u64,
) {
    let place = place_of(rt, alloc, test);
    let config = config(rt, alloc, &place, connections);
    let signals = Signals {
        early: Handover::new(),
        asked: Handover::new(),
        counts: Handover::new(),
        begun: AtomicU64::new(0),
    };
    let (begun, answered) = join(
        rt,
        || begun_by_the_end(rt, alloc, config.as_str(), &signals),
        || ask_brokers(rt, alloc, &place, &signals, early, connections),
    );
    let wanted = connections.saturating_mul(2);
    assert!(rt;
        begun == wanted && answered == wanted,
        "{begun} {answered} of {wanted}"
    );
    clear(rt, &place);
}

// As many connections as the config says are answered, and enough; none that came before all its queries were answered counts.
#[test]
fn connections_from_outside(rt: HostRuntime) {
    assert_counted(&rt, rt.alloc(), "outside", 5, 5);
}

// Each broker answered one query of the config.
#[test]
fn queries_of_the_config_do_not_count(rt: HostRuntime) {
    assert_counted(&rt, rt.alloc(), "counted", 0, 1);
}
