//! A node that loads and drops a newer version, syncers that follow it and publish, and queriers, each in a thread of its own.
ghost use Rattle.std.specs.Prelude.{◌≡◌};

use crate::broker::query;
use crate::cluster::{
    First, Handle, answer_of, inventory, message_of, node_that_keeps, reaches, reported_response,
    segment, try_linked,
};
use crate::readers::mark_read;
use crate::tables::assert_holds;
use crate::turns::has_node;
use druid_broker_follow::shared_turn;
use druid_folder::Folder;
use druid_folder_store::MemoryFolder;
use druid_http_message::WireFault;
use druid_inventory::Inventory;
use druid_inventory_views::{Opened, Publication, Publisher, View, open};
use druid_link::Link;
use druid_node::DataNode;
use druid_segment_descriptor::Mark;
use druid_segment_file::write_segment;
use druid_segment_rows::Segment;
use std::alloc::Global;
use std::marker::Brand;
use std::process::Abort;
use std::sync::atomic::{AtomicU64, Ordering};
use std::sync::{Arc, Mutex};
use std::thread::{JoinHandle, spawn};

// How often the newer version comes and goes, and how many turns each syncer takes, at most: queriers end it long before.
const MOST_LOADS: u64 = 100_000_000;

// How many threads there are beside the loader's, and how many of them are syncers; the others are queriers.
const THREADS: u16 = 8;

const SYNCERS: usize = 4;

const QUERIERS: u64 = 4;

// How many queries each querier posts at least, and at most until it saw the answers of both versions.
const QUERIES: u64 = 150;

const MOST_QUERIES: u64 = 1_000_000;

const OLDER: &str = "v1/0/24/0/1 d:m 35999999/a/1 36000000/a/1 43199999/a/1 43200000/a/1";

const NEWER: &str = "v2/10/12/0/1 d:m 36000000/a/1 40000000/a/1 43199999/a/1";

const FILE: &str = "w_2024-01-01T10:00:00.000Z_2024-01-01T12:00:00.000Z_v2.seg";

const COUNT: &str = "@,\"aggregations\":[{\"type\":\"count\",\"name\":\"n\"}]}";

// What is answered of the older version alone, and of the newer over it.
const OF_OLDER: &str = "200 [{\"result\":{\"n\":4},\"timestamp\":\"2024-01-01T00:00:00.000Z\"}]";

const OF_NEWER: &str = "200 [{\"result\":{\"n\":5},\"timestamp\":\"2024-01-01T00:00:00.000Z\"}]";

// What is answered where the newer version was dropped since it was planned.
const SHORT: &str =
    "503 {\"error\":\"SegmentsMissing\",\"missing\":[{\"chunk\":\"2024-01-01T10:00:00.000Z/2024-01-01T12:00:00.000Z\",\"itvl\":\"2024-01-01T10:00:00.000Z/2024-01-01T12:00:00.000Z\",\"part\":0,\"ver\":\"v2\"}],\"partial\":[{\"result\":{\"n\":2},\"timestamp\":\"2024-01-01T00:00:00.000Z\"}]}";

// What a lawful answer is of.
enum Seen {
    Older,
    Newer,
    Short,
}

type SharedNode = Arc<DataNode<First>, Global>;

type SharedPublisher<J, R> = Arc<Mutex<Publisher<J, R>>, Global>;

// A link to a node that others have links to as well.
#[derive(Drop)]
struct SharedLink<R: Handle> {
    rt: R,
    node: SharedNode,
    seen: Mark,
    faults: u64,
}

impl<R: Handle> Link for SharedLink<R> {
    ghost exchanges = { λ link request came next. Unit {0} };

    ghost faults = { λ link. link.faults };

    fn exchange(&mut self, alloc: Global, request: &[u8]) -> Result<Vec<u8>, WireFault> {
        answer_of(&self.rt, alloc, &self.node, request, &mut self.seen)
    }

    fn hasten(&mut self, _millis: Option<u64>) {}

    fn faults(&self) -> u64 {
        self.faults
    }
}

fn link_to<R: Handle>(rt: R, node: &SharedNode) -> SharedLink<R> {
    SharedLink {
        rt,
        node: Arc::try_clone(node).ok().expect(&rt, "memory"),
        seen: Mark::never(),
        faults: 0,
    }
}

// Links to all nodes, of which there is one.
fn links_to<R: Handle>(rt: R, alloc: Global, node: &SharedNode) -> Vec<SharedLink<R>> {
    let mut links = Vec::new(alloc);
    links.push(link_to(rt, node)).expect(&rt, "memory");
    links
}

// The mark that a view reads after a syncer's turn, if it is not below that of the reply, and not below the one that was published
// before the turn.
fn take_turn<R: Handle, J: Publication>(
    rt: R,
    alloc: Global,
    publisher: &Mutex<Publisher<J, R>>,
    view: &mut View<J>,
    link: &mut SharedLink<R>,
) -> Option<Mark> {
    if !has_node(view, 0) {
        return None;
    }
    let published = publisher.lock(&rt).inventory().mark(0)?;
    shared_turn(&rt, alloc, 0, view, link, publisher).ok()?;
    let read = mark_read(view)?;
    if read < published || read < link.seen {
        return None;
    }
    Some(read)
}

// Whether each turn of a syncer is published and read back, and its view reads no mark below an earlier one, until no querier asks.
fn sync_all<R: Handle, J: Publication>(
    rt: R,
    alloc: Global,
    node: &SharedNode,
    publisher: &Mutex<Publisher<J, R>>,
    view: &mut View<J>,
    asking: &AtomicU64,
) -> bool {
    let mut link = link_to(rt, node);
    let mut last = Mark::never();
    for _ in 0..MOST_LOADS {
        if asking.load(Ordering::SeqCst) == 0 {
            return true;
        }
        match take_turn(rt, alloc, publisher, view, &mut link) {
            Some(mark) if mark >= last => last = mark,
            _ => return false,
        }
    }
    false
}

// Which of the three lawful answers a count gets: that of the older version, that of the newer, or that without the newer alone.
fn version_answered<R: Handle, J: Publication, L: Link + Send>(
    rt: R,
    alloc: Global,
    view: &mut View<J>,
    links: &mut [L],
    turn: u64,
    message: &[u8],
) -> Option<Seen> {
    if !reaches(view, links.len()) {
        return None;
    }
    let mut written = Vec::new(alloc);
    if try_linked(rt, alloc, view, links, turn, message, &mut written).is_err() {
        return None;
    }
    match reported_response(&rt, alloc, &written).as_str() {
        OF_OLDER => Some(Seen::Older),
        OF_NEWER => Some(Seen::Newer),
        SHORT => Some(Seen::Short),
        _ => None,
    }
}

// Whether all queries of a querier are answered so, of both versions in the end, and its view reads no mark below an earlier one.
fn query_all<R: Handle, J: Publication>(
    rt: R,
    alloc: Global,
    node: &SharedNode,
    view: &mut View<J>,
) -> bool {
    let query = query(&rt, alloc, COUNT);
    let message = message_of(&rt, alloc, query.as_str());
    let mut links = links_to(rt, alloc, node);
    let mut last = Mark::never();
    let (mut older, mut newer) = (false, false);
    for turn in 0..MOST_QUERIES {
        match version_answered(rt, alloc, view, &mut links, turn, message.as_bytes()) {
            Some(Seen::Older) => older = true,
            Some(Seen::Newer) => newer = true,
            Some(Seen::Short) => {}
            None => return false,
        }
        match mark_read(view) {
            Some(mark) if mark >= last => last = mark,
            _ => return false,
        }
        if older && newer && QUERIES <= turn {
            return true;
        }
    }
    false
}

// A folder with the file of the newer version.
fn folder_of(rt: &impl Abort, alloc: Global, segment: &Segment) -> MemoryFolder {
    let mut bytes = Vec::new(alloc);
    write_segment(alloc, segment, &mut bytes).expect(rt, "a file");
    let mut folder = MemoryFolder::new(alloc);
    folder.write(FILE, &bytes).expect(rt, "memory");
    folder
}

// Whether the newer version comes and goes each time, until no querier asks.
fn load_all<R: Handle>(rt: R, alloc: Global, node: &DataNode<First>, asking: &AtomicU64) -> bool {
    let segment = segment(&rt, alloc, NEWER);
    let mut folder = folder_of(&rt, alloc, &segment);
    let mut seen = Mark::never();
    for _ in 0..MOST_LOADS {
        if asking.load(Ordering::SeqCst) == 0 {
            return true;
        }
        let loaded = node.load_file(&rt, &mut folder, FILE, &mut seen);
        let dropped = node.drop_segment(&rt, segment.descriptor().id(), &mut seen);
        if loaded.is_err() || dropped.is_err() {
            return false;
        }
    }
    false
}

// Starts the thread of a number: a syncer, or, after those, a querier.
fn start<R: Handle + 'static, J: Publication + Send + Sync + 'static>(
    rt: R,
    alloc: Global,
    number: usize,
    node: &SharedNode,
    publisher: &SharedPublisher<J, R>,
    asking: &Arc<AtomicU64, Global>,
    view: View<J>,
) -> JoinHandle<bool> {
    let node = Arc::try_clone(node).ok().expect(&rt, "memory");
    let publisher = Arc::try_clone(publisher).ok().expect(&rt, "memory");
    let asking = Arc::try_clone(asking).ok().expect(&rt, "memory");
    let mut view = view;
    let job = move || {
        if number < SYNCERS {
            return sync_all(rt, alloc, &node, &publisher, &mut view, &asking);
        }
        let answered = query_all(rt, alloc, &node, &mut view);
        asking.fetch_sub(1, Ordering::SeqCst);
        answered
    };
    spawn(&rt, job).ok().expect(&rt, "a thread")
}

// Takes a turn for each view, so that it reads the older version.
fn sync_each<R: Handle, J: Publication>(
    rt: R,
    alloc: Global,
    node: &SharedNode,
    publisher: &Mutex<Publisher<J, R>>,
    views: &mut [View<J>],
) {
    for view in views {
        let mark = take_turn(rt, alloc, publisher, view, &mut link_to(rt, node));
        assert!(rt; mark == Some(Mark::new(1, 1)), "another mark");
    }
}

// Starts a thread for each view.
fn start_all<R: Handle + 'static, J: Publication + Send + Sync + 'static>(
    rt: R,
    alloc: Global,
    node: &SharedNode,
    publisher: &SharedPublisher<J, R>,
    asking: &Arc<AtomicU64, Global>,
    views: Vec<View<J>>,
) -> Vec<JoinHandle<bool>> {
    let mut threads = Vec::new(alloc);
    for (number, view) in views.into_iter().enumerate() {
        let thread = start(rt, alloc, number, node, publisher, asking, view);
        threads.push(thread).ok().expect(&rt, "memory");
    }
    threads
}

// Whether all threads end with true.
fn join_all<R: Handle>(rt: R, threads: Vec<JoinHandle<bool>>) -> bool {
    let mut all = true;
    for thread in threads {
        all = thread.join(&rt) && all;
    }
    all
}

// Whether the loads, the syncers and the queriers all see what they should.
fn all_see<R: Handle + 'static, J: Publication + Send + Sync + 'static>(
    rt: R,
    alloc: Global,
    list: Opened,
    inventory: Inventory,
) -> bool
    requires book { list ≡ J.book }
    requires opening { inventory ≡ J.opening }
{
    let (publisher, mut views) = open::<J, R>(alloc, rt, list, inventory, THREADS).expect(
        &rt, "memory",
    );
    let publisher = Arc::new(alloc, Mutex::new(publisher))
        .ok()
        .expect(&rt, "memory");
    let node = node_that_keeps(&rt, alloc, OLDER, 10);
    let node: SharedNode = Arc::new(alloc, node).ok().expect(&rt, "memory");
    sync_each(rt, alloc, &node, &publisher, &mut views);
    let asking = Arc::new(alloc, AtomicU64::new(QUERIERS))
        .ok()
        .expect(&rt, "memory");
    let threads = start_all(rt, alloc, &node, &publisher, &asking, views);
    let loaded = load_all(rt, alloc, &node, &asking);
    join_all(rt, threads) && loaded
}

fn are_seen<R: Handle + 'static>(rt: R, alloc: Global) -> bool {
    let inventory = inventory(&rt, alloc, 1);
    all_see::<R, Brand>(rt, alloc, Opened::new(), inventory)
}

#[test]
fn all_at_once(rt: HostRuntime) {
    assert_holds(&rt, "threads", are_seen(rt, rt.alloc()));
}
