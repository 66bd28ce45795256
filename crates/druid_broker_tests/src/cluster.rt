//! Clusters in memory: data nodes, each after a link of its own, and a broker that follows them.
ghost use Rattle.std.specs.Prelude.{◌≡◌, ◌⊎◌, ◌≤◌, IsTrue, length, IfOk, IfErr, IsErrAnd};
ghost use Rattle.druid_link.specs.Links.{IsLinkFault, came_of, faults_after};

use druid_broker::{Routes, serve_one};
use druid_broker_follow::sync_turn;
use druid_broker_scatter::Rotate;
use druid_http_message::WireFault;
use druid_http_wire::response_of;
use druid_inventory::{Inventory, MAX_NODES};
use druid_inventory_views::{Opened, Publication, Publisher, View, open};
use druid_link::{Link, MAX_EXCHANGE};
use druid_node::{DataNode, Incarnation, NodeState};
use druid_segment_descriptor::{Descriptor, Mark, NodeNo};
use druid_segment_id::{Name, SegmentId, Version};
use druid_segment_rows::{Row, Schema, Segment};
use druid_time::{Instant, Interval};
use std::alloc::Global;
use std::fmt::Debug;
use std::process::Abort;
use std::str;
use std::str::{FromStr, Split};
use std::sync::Wait;
use std::thread::Threads;

/// What clusters do with the handle.
pub(crate) trait Handle: Abort + Wait + Threads + Copy + Drop + Send + Sync {}

impl<R: Abort + Wait + Threads + Copy + Drop + Send + Sync> Handle for R {}

/// The incarnation of the nodes here.
pub(crate) struct First;

impl Incarnation for First {
    ghost number = { 1 };
}

/// How a link fails.
#[derive(Clone, Copy, Debug, Drop)]
pub(crate) enum Failure {
    /// X2.
    Read,
    /// X3.
    Write,
    /// X7.
    BodyTooLong,
    /// X8.
    Connect,
    /// X9.
    Memory,
}

// Fails so, and counts it where it is the device that fails.
fn fail(failure: Failure, faults: &mut u64) -> Result<Vec<u8>, WireFault>
    ensures fails { IsErrAnd result IsLinkFault }
    ensures counted { faults.new ≡ faults_after (came_of result) faults.old }
{
    match failure {
        Failure::BodyTooLong => return Err(WireFault::BodyTooLong),
        Failure::Memory => return Err(WireFault::Memory),
        Failure::Read | Failure::Write | Failure::Connect => {}
    }
    *faults = faults.saturating_add(1);
    match failure {
        Failure::Write => Err(WireFault::Write),
        Failure::Connect => Err(WireFault::Connect),
        _ => Err(WireFault::Read),
    }
}

/// What follows a link.
#[derive(Drop)]
pub(crate) enum Server {
    /// A data node.
    Node(DataNode<First>),
    /// Nothing: each exchange fails so.
    Failing(Failure),
    /// A server that answers these bytes to each request.
    Bytes(Vec<u8>),
}

/// A link of a test. It counts its exchanges.
#[derive(Drop)]
pub(crate) struct TestLink<R: Handle> {
    rt: R,
    server: Server,
    // What was seen of the node after it.
    seen: Mark,
    made: u64,
    // Whether the first exchange that is made fails, and whether the second does.
    failing: [bool; 2],
    faults: u64,
}

/// What a data node writes for a request. What was written before a fault comes back all the same.
pub(crate) fn answer_of(
    rt: &(impl Wait + Threads),
    alloc: Global,
    node: &DataNode<First>,
    request: &[u8],
    seen: &mut Mark,
) -> Result<Vec<u8>, WireFault>
    ensures bound { IfOk result (λ bytes. length bytes.items ≤ MAX_EXCHANGE) }
    ensures fault { IfErr result (λ fault. fault ≡ WireFault.BodyTooLong) }
{
    let mut reader = request;
    let mut written = Vec::new(alloc);
    drop(node.serve_one(rt, &mut reader, &mut written, seen));
    if MAX_EXCHANGE < written.len() {
        return Err(WireFault::BodyTooLong);
    }
    Ok(written)
}

/// A copy of bytes, as a link gives them.
pub(crate) fn copy_of(alloc: Global, bytes: &[u8]) -> Result<Vec<u8>, WireFault>
    ensures bound { IfOk result (λ bytes. length bytes.items ≤ MAX_EXCHANGE) }
    ensures fault { IfErr result (λ fault. (fault ≡ WireFault.BodyTooLong) ⊎ (fault ≡ WireFault.Memory)) }
{
    if MAX_EXCHANGE < bytes.len() {
        return Err(WireFault::BodyTooLong);
    }
    Ok(bytes.to_vec(alloc)?)
}

impl<R: Handle> Link for TestLink<R> {
    ghost exchanges = { λ link request came next. Unit {0} };

    ghost faults = { λ link. link.faults };

    fn exchange(&mut self, alloc: Global, request: &[u8]) -> Result<Vec<u8>, WireFault> {
        let number = self.made as usize;
        self.made = self.made.saturating_add(1);
        if number < 2 && self.failing[number] {
            return fail(Failure::Read, &mut self.faults);
        }
        match &self.server {
            Server::Node(node) => answer_of(&self.rt, alloc, node, request, &mut self.seen),
            Server::Bytes(bytes) => copy_of(alloc, bytes),
            Server::Failing(failure) => fail(*failure, &mut self.faults),
        }
    }

    fn hasten(&mut self, _millis: Option<u64>) {}

    fn faults(&self) -> u64 {
        self.faults
    }
}

impl<R: Handle> TestLink<R> {
    /// A link to that.
    pub(crate) fn new(rt: R, server: Server) -> TestLink<R> {
        TestLink {
            rt,
            server,
            seen: Mark::never(),
            made: 0,
            failing: [false, false],
            faults: 0,
        }
    }

    /// Lets the first and the second exchange from now on fail, or not.
    pub(crate) fn fail_in_turn(&mut self, failing: [bool; 2]) {
        self.made = 0;
        self.failing = failing;
    }

    /// Puts something else after it.
    pub(crate) fn set(&mut self, server: Server) {
        self.server = server;
        self.seen = Mark::never();
    }

    /// How many exchanges were made since the last time that this was asked.
    pub(crate) fn take_made(&mut self) -> u64 {
        let made = self.made;
        self.made = 0;
        made
    }
}

/// What a cluster is made of: a list with nothing published, an inventory of its nodes, and link k to node k.
#[derive(Drop)]
pub(crate) struct Setup<R: Handle> {
    pub(crate) list: Opened,
    pub(crate) inventory: Inventory,
    pub(crate) links: Vec<TestLink<R>>,
}

/// A broker, a view of what it publishes, and link k to node k of its list.
#[derive(Drop)]
pub(crate) struct Cluster<R: Handle, J: Publication> {
    pub(crate) rt: R,
    pub(crate) publisher: Publisher<J, R>,
    pub(crate) view: View<J>,
    pub(crate) links: Vec<TestLink<R>>,
}

// An instant of the first day of 2024, by its milliseconds.
fn instant(rt: &impl Abort, ms: i64) -> Instant {
    let start = Instant::parse("2024-01-01").expect(rt, "a day").ms();
    Instant::new(start.saturating_add(ms)).expect(rt, "an instant")
}

// An interval of that day, by its hours.
fn hours(rt: &impl Abort, start: i64, end: i64) -> Interval {
    let start = instant(rt, start.saturating_mul(3_600_000));
    let end = instant(rt, end.saturating_mul(3_600_000));
    Interval::new(start, end).expect(rt, "an interval")
}

// The next of the words of a text.
fn next<'a>(rt: &impl Abort, words: &mut Split<'a, char>) -> &'a str {
    words.next().expect(rt, "a word")
}

// What a number's word says.
fn parsed<N: FromStr>(rt: &impl Abort, word: &str) -> N
where
    N::Err: Debug,
{
    word.parse().expect(rt, "a number")
}

fn text_of(rt: &impl Abort, alloc: Global, word: &str) -> String {
    String::from_str(alloc, word).expect(rt, "memory")
}

fn names(rt: &impl Abort, alloc: Global, words: &str) -> Vec<String> {
    let mut names = Vec::new(alloc);
    for word in words.split(',') {
        names.push(text_of(rt, alloc, word)).expect(rt, "memory");
    }
    names
}

// The only value of a row.
fn values(rt: &impl Abort, alloc: Global, word: &str) -> Vec<Option<String>> {
    let value = match word {
        "-" => None,
        _ => Some(text_of(rt, alloc, word)),
    };
    vec![in alloc; value].expect(rt, "memory")
}

// The only number of a row.
fn numbers(rt: &impl Abort, alloc: Global, word: &str) -> Vec<Option<i64>> {
    let number = match word {
        "-" => None,
        _ => Some(parsed(rt, word)),
    };
    vec![in alloc; number].expect(rt, "memory")
}

// A row: the milliseconds of the day, a value and a number.
fn row(rt: &impl Abort, alloc: Global, text: &str) -> Row {
    let mut words = text.split('/');
    let time = instant(rt, parsed(rt, next(rt, &mut words)));
    let values = values(rt, alloc, next(rt, &mut words));
    let numbers = numbers(rt, alloc, next(rt, &mut words));
    Row::new(time, values, numbers)
}

fn version(rt: &impl Abort, alloc: Global, word: &str) -> Version {
    Version::new(alloc, word).expect(rt, "a version")
}

fn name(rt: &impl Abort, alloc: Global, word: &str) -> Name {
    Name::new(alloc, word).expect(rt, "a name")
}

// The name of a segment of the source `w`: its version, the hours of its chunk and its partition.
fn segment_id(rt: &impl Abort, alloc: Global, words: &mut Split<'_, char>) -> SegmentId {
    let version = version(rt, alloc, next(rt, words));
    let start = parsed(rt, next(rt, words));
    let end = parsed(rt, next(rt, words));
    let partition = parsed(rt, next(rt, words));
    SegmentId::new(
        name(rt, alloc, "w"),
        hours(rt, start, end),
        version,
        partition,
    )
}

// The descriptor of a segment: its name, and how many core partitions the chunk has.
fn descriptor(rt: &impl Abort, alloc: Global, text: &str) -> Descriptor {
    let mut words = text.split('/');
    let id = segment_id(rt, alloc, &mut words);
    let core = parsed(rt, next(rt, &mut words));
    Descriptor::new(id, core, 0).expect(rt, "a descriptor")
}

// A schema: the names of its dimensions and those of its metrics.
fn schema(rt: &impl Abort, alloc: Global, text: &str) -> Schema {
    let (dimensions, metrics) = text.split_once(":").expect(rt, "a schema");
    Schema::new(names(rt, alloc, dimensions), names(rt, alloc, metrics))
}

/// A segment of the source `w`: its descriptor, the names of its dimension and of its metric, and its rows.
pub(crate) fn segment(rt: &impl Abort, alloc: Global, text: &str) -> Segment {
    let mut words = text.split(' ');
    let descriptor = descriptor(rt, alloc, next(rt, &mut words));
    let schema = schema(rt, alloc, next(rt, &mut words));
    let mut rows = Vec::new(alloc);
    for word in words {
        rows.push(row(rt, alloc, word)).expect(rt, "memory");
    }
    Segment::new(alloc, descriptor, schema, rows).expect(rt, "a segment")
}

// Loads a segment, places a tombstone, or drops what is served under an identifier.
fn record(rt: &impl Abort, alloc: Global, state: &mut NodeState, text: &str)
    ensures { state.new.history.incarnation ≡ state.old.history.incarnation }
{
    if let Some(text) = text.strip_prefix("tombstone ") {
        let id = segment_id(rt, alloc, &mut text.split('/'));
        state.place_tombstone(id).expect(rt, "a tombstone");
        return;
    }
    if let Some(text) = text.strip_prefix("drop ") {
        let id = segment_id(rt, alloc, &mut text.split('/'));
        state.drop_segment(&id).expect(rt, "a drop");
        return;
    }
    state.load(segment(rt, alloc, text)).expect(rt, "a load");
}

/// A data node with segments and tombstones, between which `+` stands, as `drop` and a name that is dropped; `.` is none. It keeps
/// so many changes, at most 1,000.
pub(crate) fn node_that_keeps(
    rt: &impl Abort,
    alloc: Global,
    text: &str,
    changes: usize,
) -> DataNode<First> {
    let mut state = NodeState::new(alloc, 1, changes.clamp(1, 1_000)).expect(rt, "a node");
    for one in text.split(" + ") {
        if one != "." {
            record(rt, alloc, &mut state, one);
        }
    }
    DataNode::new(state, 1)
}

// Follows a node, and tells the view of it.
fn follow_node<R: Handle, J: Publication>(
    alloc: Global,
    cluster: &mut Cluster<R, J>,
    node: NodeNo,
) {
    let rt = cluster.rt;
    if node >= cluster.publisher.inventory().node_count() {
        panic!(rt; "more links than nodes");
    }
    let link = cluster.links.get_mut(node as usize).expect(&rt, "a link");
    let (_, receipt) = sync_turn(alloc, node, link, &mut cluster.publisher).expect(&rt, "a turn");
    cluster.view.learn(&receipt);
}

// Follows the first nodes.
fn follow<R: Handle, J: Publication>(alloc: Global, cluster: &mut Cluster<R, J>, count: usize) {
    let count = count.min(cluster.links.len());
    for node in 0..64_u16 {
        if (node as usize) < count {
            follow_node(alloc, cluster, node);
        }
    }
}

fn node_name(rt: &impl Abort, alloc: Global, place: usize) -> Name {
    let text = format!(in alloc; "n{place}").expect(rt, "memory");
    name(rt, alloc, text.as_str())
}

fn node_names(rt: &impl Abort, alloc: Global, count: usize) -> Vec<Name> {
    let mut names = Vec::new(alloc);
    for place in 0..count {
        names.push(node_name(rt, alloc, place)).expect(rt, "memory");
    }
    names
}

/// An inventory of so many nodes, of which nothing is known.
pub(crate) fn inventory(rt: &impl Abort, alloc: Global, count: usize) -> Inventory {
    let names = node_names(rt, alloc, count);
    if names.is_empty() || MAX_NODES < names.len() {
        panic!(rt; "no list of nodes");
    }
    Inventory::new(alloc, names).expect(rt, "an inventory")
}

// A link to a data node.
fn node_link<R: Handle>(rt: R, alloc: Global, text: &str) -> TestLink<R> {
    TestLink::new(rt, Server::Node(node_that_keeps(&rt, alloc, text, 1_000)))
}

/// The parts of a cluster of nodes, between which `|` stands.
pub(crate) fn set_up<R: Handle>(rt: R, alloc: Global, text: &str) -> Setup<R> {
    let mut links = Vec::new(alloc);
    for one in text.split(" | ") {
        links.push(node_link(rt, alloc, one)).expect(&rt, "memory");
    }
    Setup {
        list: Opened::new(),
        inventory: inventory(&rt, alloc, links.len()),
        links,
    }
}

/// A cluster of these parts, whose broker has followed the first nodes.
pub(crate) fn followed<R: Handle, J: Publication>(
    rt: R,
    alloc: Global,
    setup: Setup<R>,
    count: usize,
) -> Cluster<R, J>
    requires book { setup.list ≡ J.book }
    requires opening { setup.inventory ≡ J.opening }
{
    let (publisher, mut views) = open::<J, R>(alloc, rt, setup.list, setup.inventory, 1).expect(
        &rt, "memory",
    );
    let view = views.pop().expect(&rt, "a view");
    let mut cluster = Cluster {
        rt,
        publisher,
        view,
        links: setup.links,
    };
    follow(alloc, &mut cluster, count);
    cluster
}

/// Whether so many links are enough for the nodes that a view reads of.
#[tactic(auto, using(druid_inventory::proofs::JoinLemmas::fewer_names))]
pub(crate) fn reaches<J: Publication>(view: &mut View<J>, links: usize) -> bool
    ensures { IsTrue result → length J.opening ≤ links }
{
    let Ok(found) = view.read() else {
        return false;
    };
    if links < found.node_count() as usize {
        return false;
    }
    true
}

/// Whether there is a link to each node that the view of a cluster reads of.
pub(crate) fn is_linked<R: Handle, J: Publication>(cluster: &mut Cluster<R, J>) -> bool
    ensures { IsTrue result → length J.opening ≤ length cluster.new.links.items }
{
    let links = cluster.links.len();
    reaches(&mut cluster.view, links)
}

/// Serves a message at a turn, over links to all nodes.
pub(crate) fn try_linked<R: Handle, J: Publication, L: Link + Send>(
    rt: R,
    alloc: Global,
    view: &mut View<J>,
    links: &mut [L],
    turn: u64,
    message: &[u8],
    written: &mut Vec<u8>,
) -> Result<u16, WireFault>
    requires { length J.opening ≤ length links.old }
{
    let routes = Routes::new(alloc).expect(&rt, "routes");
    let mut reader = message;
    serve_one(
        &rt,
        alloc,
        &routes,
        &mut reader,
        written,
        view,
        turn,
        &Rotate,
        links,
    )
}

/// What the broker makes of a message at a turn, and writes.
pub(crate) fn try_message<R: Handle, J: Publication>(
    alloc: Global,
    cluster: &mut Cluster<R, J>,
    turn: u64,
    message: &[u8],
    written: &mut Vec<u8>,
) -> Result<u16, WireFault> {
    let rt = cluster.rt;
    if !is_linked(cluster) {
        panic!(rt; "fewer links than nodes");
    }
    let Cluster { view, links, .. } = cluster;
    try_linked(rt, alloc, view, links, turn, message, written)
}

/// What the broker answers to a message once its publisher is gone.
pub(crate) fn answered_alone<R: Handle, J: Publication>(
    alloc: Global,
    cluster: Cluster<R, J>,
    message: &[u8],
) -> String {
    let mut cluster = cluster;
    if !is_linked(&mut cluster) {
        panic!(cluster.rt; "fewer links than nodes");
    }
    let Cluster {
        rt,
        publisher,
        mut view,
        mut links,
    } = cluster;
    drop(publisher);
    let mut written = Vec::new(alloc);
    try_linked(rt, alloc, &mut view, &mut links, 0, message, &mut written).expect(&rt, "an answer");
    reported_response(&rt, alloc, &written)
}

/// What the broker writes for a message, at a turn.
pub(crate) fn written<R: Handle, J: Publication>(
    alloc: Global,
    cluster: &mut Cluster<R, J>,
    turn: u64,
    message: &[u8],
) -> Vec<u8> {
    let mut written = Vec::new(alloc);
    try_message(alloc, cluster, turn, message, &mut written).expect(&cluster.rt, "an answer");
    written
}

fn code_and_body(rt: &impl Abort, alloc: Global, code: u16, body: &[u8]) -> String {
    let body = str::from_utf8(body).expect(rt, "a text");
    format!(in alloc; "{code} {body}").expect(rt, "memory")
}

/// A response: `200 true`.
pub(crate) fn reported_response(rt: &impl Abort, alloc: Global, bytes: &[u8]) -> String {
    match response_of(bytes) {
        Ok((status, body)) => code_and_body(rt, alloc, status.as_u16(), body),
        Err(_) => panic!(rt; "no response"),
    }
}

/// What the broker answers to a message, at a turn: `200 true`.
pub(crate) fn answered<R: Handle, J: Publication>(
    alloc: Global,
    cluster: &mut Cluster<R, J>,
    turn: u64,
    message: &[u8],
) -> String {
    let bytes = written(alloc, cluster, turn, message);
    reported_response(&cluster.rt, alloc, &bytes)
}

/// The message that posts a query.
pub(crate) fn message_of(rt: &impl Abort, alloc: Global, query: &str) -> String {
    let length = query.len();
    format!(in alloc; "POST /druid/v2/ HTTP/1.1\r\nContent-Length: {length}\r\n\r\n{query}").expect(
        rt, "memory",
    )
}

/// What it answers to a query.
pub(crate) fn posted<R: Handle, J: Publication>(
    alloc: Global,
    cluster: &mut Cluster<R, J>,
    turn: u64,
    query: &str,
) -> String {
    let message = message_of(&cluster.rt, alloc, query);
    answered(alloc, cluster, turn, message.as_bytes())
}

/// A link of a cluster.
pub(crate) fn link_at<R: Handle, J: Publication>(
    cluster: &mut Cluster<R, J>,
    place: usize,
) -> &mut TestLink<R> {
    let rt = cluster.rt;
    cluster.links.get_mut(place).expect(&rt, "a link")
}

/// Puts something else after a link.
pub(crate) fn set<R: Handle, J: Publication>(
    cluster: &mut Cluster<R, J>,
    place: usize,
    server: Server,
) {
    link_at(cluster, place).set(server);
}

/// How often each link was asked since the last time that this was asked: `1 0 2`.
pub(crate) fn made_by_all<R: Handle, J: Publication>(
    alloc: Global,
    cluster: &mut Cluster<R, J>,
) -> String {
    let rt = cluster.rt;
    let mut text = String::new(alloc);
    for link in &mut cluster.links {
        let made = link.take_made();
        let between = if text.as_str().is_empty() { "" } else { " " };
        let one = format!(in alloc; "{between}{made}").expect(&rt, "memory");
        text.push_str(one.as_str()).expect(&rt, "memory");
    }
    text
}

/// How many exchanges each of the first two links made since the last time that this was asked.
pub(crate) fn made_by_two<R: Handle, J: Publication>(cluster: &mut Cluster<R, J>) -> (u64, u64) {
    let first = link_at(cluster, 0).take_made();
    (first, link_at(cluster, 1).take_made())
}
