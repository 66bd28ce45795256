//! Replicas that hang, over sockets of this machine: who is asked first, and how long a query waits.
ghost use Rattle.std.specs.Prelude.{◌≡◌};

use crate::broker::query;
use crate::cluster::{
    Cluster, First, Handle, Setup, followed, message_of, node_that_keeps, reaches,
    reported_response, set_up,
};
use crate::tables::{assert_holds, printed};
use druid_broker::{Routes, serve_one};
use druid_broker_scatter::AilingLast;
use druid_inventory_views::{Publication, View};
use druid_link::{Link, TcpLink};
use druid_link_health::{Asker, Counts, Health, MonitoredLink, monotonic_millis};
use druid_node::DataNode;
use druid_segment_descriptor::Mark;
use std::alloc::Global;
use std::io::BufReader;
use std::marker::Brand;
use std::net::{Net, TcpListener, TcpStream};
use std::process::Abort;
use std::sync::atomic::{AtomicBool, Ordering};
use std::sync::{Arc, Wait};
use std::thread;
use std::thread::{Threads, join};
use std::time::{Clock, Duration};

// How many milliseconds an exchange may take, where nothing else is said.
const LIMIT: u64 = 200;

const SEGMENT: &str = "v1/0/24/0/1 d:m 0/a/1";

const COUNT: &str = "@,\"aggregations\":[{\"type\":\"count\",\"name\":\"n\"}]}";

const HURRIED: &str =
    "@,\"context\":{\"timeout\":50},\"aggregations\":[{\"type\":\"count\",\"name\":\"n\"}]}";

const WHOLE: &str = "200 [{\"result\":{\"n\":1},\"timestamp\":\"2024-01-01T00:00:00.000Z\"}]";

// What is answered where no replica answers.
const SHORT: &str =
    "503 {\"error\":\"SegmentsMissing\",\"missing\":[{\"chunk\":\"2024-01-01T00:00:00.000Z/2024-01-02T00:00:00.000Z\",\"itvl\":\"2024-01-01T00:00:00.000Z/2024-01-02T00:00:00.000Z\",\"part\":0,\"ver\":\"v1\"}],\"partial\":[]}";

// Where a replica listens.
#[derive(Drop)]
struct Site {
    listener: TcpListener,
    address: String,
}

// Two replicas: where they listen, the node after both, whether they are to end, and what a broker remembers of them.
#[derive(Drop)]
struct Replicas {
    first: Site,
    second: Site,
    node: DataNode<First>,
    done: AtomicBool,
    health: Arc<Health, Global>,
}

// A site whose connections are made, and answered once it is served.
fn make_site<N: Net<Listener = TcpListener, Stream = TcpStream> + Abort>(
    net: &N,
    alloc: Global,
) -> Site {
    let listener = TcpListener::bind(net, "127.0.0.1:0").expect(net, "a listener");
    let address = listener.local_addr().expect(net, "an address");
    let address = printed(net, alloc, &address);
    Site { listener, address }
}

fn two_replicas<R: Handle + Net<Listener = TcpListener, Stream = TcpStream>>(
    rt: R,
    alloc: Global,
) -> Replicas {
    let health = Health::new(alloc, 2, LIMIT).expect(&rt, "memory");
    Replicas {
        first: make_site(&rt, alloc),
        second: make_site(&rt, alloc),
        node: node_that_keeps(&rt, alloc, SEGMENT, 10),
        done: AtomicBool::new(false),
        health: Arc::new(alloc, health).ok().expect(&rt, "memory"),
    }
}

// Answers the connections to a replica until all are to end.
fn serve<R: Handle>(rt: R, alloc: Global, site: &Site, node: &DataNode<First>, done: &AtomicBool) {
    for _ in 0..10_000 {
        let Ok((socket, _)) = site.listener.accept() else {
            return;
        };
        if done.load(Ordering::SeqCst) {
            return;
        }
        let Ok(mut reader) = BufReader::new(alloc, &socket) else {
            return;
        };
        let (mut seen, mut writer) = (Mark::never(), &socket);
        drop(node.serve_one(&rt, &mut reader, &mut writer, &mut seen));
    }
}

// Lets a server end: it looks whether it is to once it was called.
fn end<R: Handle + Net<Listener = TcpListener, Stream = TcpStream>>(
    rt: R,
    site: &Site,
    done: &AtomicBool,
) {
    done.store(true, Ordering::SeqCst);
    drop(TcpStream::connect(&rt, site.address.as_str()));
}

// A link to a replica, which notes its exchanges.
fn link_to<R: Handle + Net + Clock>(
    rt: R,
    alloc: Global,
    health: &Arc<Health, Global>,
    node: u16,
    address: &str,
    limit: u64,
) -> MonitoredLink<TcpLink<R>, R> {
    let address = printed(&rt, alloc, &address);
    let link = TcpLink::new(rt, address).with_limit(Duration::from_millis(limit));
    let health = Arc::try_clone(health).ok().expect(&rt, "memory");
    MonitoredLink::new(link, rt, node, Asker::Query, health)
}

fn links_to<R: Handle + Net + Clock>(
    rt: R,
    alloc: Global,
    replicas: &Replicas,
    limit: u64,
) -> Vec<MonitoredLink<TcpLink<R>, R>> {
    let Replicas {
        first,
        second,
        health,
        ..
    } = replicas;
    let mut links = Vec::new(alloc);
    links
        .push(link_to(rt, alloc, health, 0, first.address.as_str(), limit))
        .ok()
        .expect(&rt, "memory");
    links
        .push(link_to(rt, alloc, health, 1, second.address.as_str(), limit))
        .ok()
        .expect(&rt, "memory");
    links
}

// What a worker answers to a query, at a turn.
fn answered<R: Handle + Clock, J: Publication, L: Link + Send>(
    rt: R,
    alloc: Global,
    view: &mut View<J>,
    links: &mut [L],
    health: &Health,
    turn: u64,
    text: &str,
) -> String {
    if !reaches(view, links.len()) {
        panic!(rt; "fewer links than nodes");
    }
    let query = query(&rt, alloc, text);
    let message = message_of(&rt, alloc, query.as_str());
    let routes = Routes::new(alloc).expect(&rt, "routes");
    let snapshot = health.snapshot(monotonic_millis(&rt));
    let pick = AilingLast::new(snapshot.ailing());
    let (mut reader, mut written) = (message.as_bytes(), Vec::new(alloc));
    serve_one(
        &rt,
        alloc,
        &routes,
        &mut reader,
        &mut written,
        view,
        turn,
        &pick,
        links,
    )
    .expect(&rt, "an answer");
    health.release(snapshot);
    reported_response(&rt, alloc, &written)
}

// Whether each query from one turn to before another is answered so.
fn are_answered<R: Handle + Clock, J: Publication, L: Link + Send>(
    rt: R,
    alloc: Global,
    view: &mut View<J>,
    links: &mut [L],
    health: &Health,
    turns: (u64, u64),
) -> bool {
    for turn in turns.0..turns.1 {
        let answer = answered(rt, alloc, view, links, health, turn, COUNT);
        if answer.as_str() != WHOLE {
            return false;
        }
    }
    true
}

// How many milliseconds went by since the clock gave this.
fn passed<C: Clock>(clock: &C, start: u64) -> u64 {
    monotonic_millis(clock).saturating_sub(start)
}

fn has_counts(health: &Health, node: u16, succeeded: u64, reads: u64) -> bool {
    health.counts(node)
        == Some(Counts {
            succeeded,
            failed: [0, reads, 0, 0, 0, 0, 0, 0, 0],
        })
}

// Node 0 hangs: the first query waits for it, and the fifty after it ask the other replica first.
fn hangs<
    R: Net<Listener = TcpListener, Stream = TcpStream>
        + Clock
        + Abort
        + Wait
        + Threads
        + Copy
        + Drop
        + Send
        + Sync,
    J: Publication,
>(rt: R, alloc: Global, view: &mut View<J>, replicas: &Replicas) -> bool {
    let mut links = links_to(rt, alloc, replicas, LIMIT);
    let health = &*replicas.health;
    let start = monotonic_millis(&rt);
    let first = are_answered(rt, alloc, view, &mut links, health, (0, 1));
    let waited = passed(&rt, start);
    let rest = are_answered(rt, alloc, view, &mut links, health, (1, 51));
    first && rest && LIMIT <= waited && has_counts(health, 0, 0, 1) && has_counts(health, 1, 51, 0)
}

// Node 0 answers again: after a pause it is tried, and has its turns then. (The first turn asks node 1 first, and leaves the try.)
fn recovers<
    R: Net<Listener = TcpListener, Stream = TcpStream>
        + Clock
        + Abort
        + Wait
        + Threads
        + Copy
        + Drop
        + Send
        + Sync,
    J: Publication,
>(rt: R, alloc: Global, view: &mut View<J>, replicas: &Replicas) -> bool {
    let mut links = links_to(rt, alloc, replicas, LIMIT * 100);
    let health = &*replicas.health;
    thread::sleep(&rt, Duration::from_millis(1_100));
    are_answered(rt, alloc, view, &mut links, health, (51, 71))
        && has_counts(health, 0, 10, 1)
        && has_counts(health, 1, 61, 0)
}

// Both hang: a query that says 50 milliseconds is answered by then, without what they serve, and neither ails for that.
fn hurries<
    R: Net<Listener = TcpListener, Stream = TcpStream>
        + Clock
        + Abort
        + Wait
        + Threads
        + Copy
        + Drop
        + Send
        + Sync,
    J: Publication,
>(rt: R, alloc: Global, view: &mut View<J>, replicas: &Replicas) -> bool {
    let mut links = links_to(rt, alloc, replicas, LIMIT * 100);
    let start = monotonic_millis(&rt);
    let answer = answered(rt, alloc, view, &mut links, &replicas.health, 0, HURRIED);
    let waited = passed(&rt, start);
    let health = &*replicas.health;
    let are_well = health.ails(0) == Some(false) && health.ails(1) == Some(false);
    answer.as_str() == SHORT && 50 <= waited && waited < LIMIT * 50 && are_well
}

// Whether it recovers, once the first replica is served as well.
fn recovers_served<
    R: Handle + Net<Listener = TcpListener, Stream = TcpStream> + Clock,
    J: Publication,
>(rt: R, alloc: Global, view: &mut View<J>, replicas: &Replicas) -> bool {
    let Replicas {
        first,
        node,
        done,
        ..
    } = replicas;
    let ((), recovered) = join(
        &rt,
        || serve(rt, alloc, first, node, done),
        || {
            let recovered = recovers(rt, alloc, view, replicas);
            end(rt, first, done);
            recovered
        },
    );
    recovered
}

// Whether a replica that hangs is asked last, and has its turns once it answers, while the second is served.
fn is_spared<R: Handle + Net<Listener = TcpListener, Stream = TcpStream> + Clock, J: Publication>(
    rt: R,
    alloc: Global,
    view: &mut View<J>,
    replicas: &Replicas,
) -> bool {
    let Replicas {
        second,
        node,
        done,
        ..
    } = replicas;
    let ((), spared) = join(
        &rt,
        || serve(rt, alloc, second, node, done),
        || {
            let spared = hangs(rt, alloc, view, replicas)
                && recovers_served(rt, alloc, view, replicas);
            end(rt, second, done);
            spared
        },
    );
    spared
}

// What is asked of a cluster of two replicas of a segment.
#[derive(Clone, Copy)]
enum Trial {
    Spared,
    Hurried,
}

fn holds<R: Handle + Net<Listener = TcpListener, Stream = TcpStream> + Clock, J: Publication>(
    rt: R,
    alloc: Global,
    setup: Setup<R>,
    trial: Trial,
) -> bool
    requires book { setup.list ≡ J.book }
    requires opening { setup.inventory ≡ J.opening }
{
    let mut cluster: Cluster<R, J> = followed(rt, alloc, setup, 2);
    let replicas = two_replicas(rt, alloc);
    match trial {
        Trial::Spared => is_spared(rt, alloc, &mut cluster.view, &replicas),
        Trial::Hurried => hurries(rt, alloc, &mut cluster.view, &replicas),
    }
}

fn held<R: Handle + Net<Listener = TcpListener, Stream = TcpStream> + Clock>(
    rt: R,
    alloc: Global,
    trial: Trial,
) -> bool {
    let nodes = format!(in alloc; "{SEGMENT} | {SEGMENT}").expect(&rt, "memory");
    let setup = set_up(rt, alloc, nodes.as_str());
    holds::<R, Brand>(rt, alloc, setup, trial)
}

#[test]
fn hanging_replica_is_asked_last(rt: HostRuntime) {
    assert_holds(&rt, "a replica hangs", held(&rt, rt.alloc(), Trial::Spared));
}

#[test]
fn query_that_says_its_time(rt: HostRuntime) {
    assert_holds(&rt, "both hang", held(&rt, rt.alloc(), Trial::Hurried));
}
