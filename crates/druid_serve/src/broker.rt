//! A broker, and the threads of it that follow the nodes.
ghost use Rattle.std.specs.Prelude.{◌≡◌, ◌<◌, ◌≤◌, ◌+◌, List, IfOk, OnOk, length, vec_len};
ghost use Rattle.std.specs.Arc.{arc_value};
ghost use Rattle.druid_serve_config.specs.Limits.{max_workers};
ghost use Rattle.druid_inventory.specs.Entry.{max_nodes};
ghost use Rattle.druid_broker_follow.specs.Turns.{Turn, MakesTurns, count_of};
ghost use Rattle.druid_serve.specs.Links.{IsLinkAt, opening_of};

use crate::links::{NodeLink, NodeList, link_to};
use crate::status::{BrokerStatus, FollowedNode};
use crate::worker::{Shared, Worker, start_worker, worker_of};
use druid_broker_follow::{TurnCount, follow_observed, follow_on_observed};
use druid_broker_watcher::TurnWatcher;
use druid_inventory::Inventory;
use druid_inventory_views::{Opened, Publication, View, open};
use druid_link::Link;
use druid_link_health::{Asker, Health};
use druid_segment_descriptor::NodeNo;
use druid_serve_base::{DeviceFailed, Gate, Handover, Host, Source, Telemetry, start_status};
use druid_serve_config::NodeConfig;
use druid_telemetry_log::Log;
use druid_telemetry_metrics::FollowMeter;
use std::alloc::{AllocError, Global};
use std::net::{Net, TcpListener, TcpStream};
use std::sync::{Arc, Mutex, Wait};
use std::thread;
use std::time::Clock;

/// A broker that stands.
#[derive(Drop)]
pub(crate) struct Broker {
    /// Where the connections that it answers are counted.
    pub(crate) gate: Arc<Gate, Global>,
    /// What tells when its syncers have made their first turns.
    pub(crate) syncers: Vec<Arc<Handover<EndOfTurns>, Global>>,
}

/// What the first turns of a syncer gave: only a syncer's thread gives one, once they are made.
#[derive(Drop)]
pub(crate) struct EndOfTurns {
    count: TurnCount,
}

/// How a syncer makes its turns.
#[derive(Clone, Copy, Drop)]
pub(crate) struct Pace {
    /// How many it makes first.
    pub(crate) turns: u64,
    /// How long it rests before each one after these, in milliseconds: None where it makes no more.
    pub(crate) every: Option<u64>,
    /// How many milliseconds an exchange with a node may take.
    pub(crate) patience: u64,
}

// What follows a node.
#[derive(Drop)]
struct Syncer<R: Wait + Clock + Drop, J: Publication, L: Link> {
    node: NodeNo,
    view: View<J>,
    link: L,
    watcher: TurnWatcher<R>,
    publisher: Shared<J, R>,
    ghost there: { node < length J.opening },
}

// Makes the first turns of a syncer.
fn first_turns<R: Wait + Clock + Drop, J: Publication, L: Link>(
    rt: &R,
    alloc: Global,
    turns: u64,
    syncer: &mut Syncer<R, J, L>,
) -> EndOfTurns
    ensures { (gave : List Turn) × MakesTurns L.exchanges J.opening syncer.old.node gave syncer.old.view syncer.new.view syncer.old.link syncer.new.link
        × (length gave ≡ turns) × (result.count ≡ count_of gave) }
{
    let Syncer {
        node,
        view,
        link,
        watcher,
        publisher,
    } = syncer;
    EndOfTurns {
        count: follow_observed(rt, alloc, *node, turns, view, link, publisher, watcher),
    }
}

// Makes turns for ever, one after another.
fn later_turns<R: Wait + Clock + Drop, J: Publication, L: Link>(
    rt: &R,
    alloc: Global,
    every: u64,
    syncer: &mut Syncer<R, J, L>,
)
    ensures { (gave : List Turn) × MakesTurns L.exchanges J.opening syncer.old.node gave syncer.old.view syncer.new.view syncer.old.link syncer.new.link }
{
    let Syncer {
        node,
        view,
        link,
        watcher,
        publisher,
    } = syncer;
    follow_on_observed(
        rt,
        alloc,
        *node,
        every,
        view,
        link,
        publisher,
        watcher,
        || false,
    );
}

// Follows a node: makes the first turns, hands over what they gave, and goes on where the cluster does.
fn follow_node<R: Wait + Clock + Drop, J: Publication, L: Link + Drop>(
    rt: &R,
    alloc: Global,
    pace: Pace,
    syncer: Syncer<R, J, L>,
    end: &Handover<EndOfTurns>,
) {
    let mut syncer = syncer;
    end.give(rt, first_turns(rt, alloc, pace.turns, &mut syncer));
    if let Some(every) = pace.every {
        later_turns(rt, alloc, every, &mut syncer);
    }
}

// Starts the thread that follows a node of a cluster, over the link to that node.
fn start_syncer<
    R: Net<Listener = TcpListener, Stream = TcpStream> + Host + Copy + Send + Sync + 'static,
    J: Publication + Send + Sync + 'static,
    C: NodeList,
>(
    rt: &R,
    alloc: Global,
    pace: Pace,
    syncer: Syncer<R, J, NodeLink<R>>,
) -> Result<Arc<Handover<EndOfTurns>, Global>, DeviceFailed>
    requires own { IsLinkAt pace.patience C.nodes syncer.node syncer.link }
{
    let rt = *rt;
    let end = Arc::new(alloc, Handover::new())?;
    let ended = Arc::try_clone(&end)?;
    match thread::spawn(&rt, move || follow_node(&rt, alloc, pace, syncer, &ended)) {
        Ok(thread) => {
            drop(thread);
            Ok(end)
        }
        Err(_) => Err(DeviceFailed),
    }
}

/// What a broker is made of.
#[derive(Drop)]
pub(crate) struct BrokerParts {
    /// What it knows first of the nodes.
    pub(crate) inventory: Inventory,
    /// Where it listens.
    pub(crate) listener: Arc<TcpListener, Global>,
    /// How many threads answer, 1 to 16.
    pub(crate) workers: u16,
    /// How many front threads wait for its clients: 0 where its workers do.
    pub(crate) front: u16,
    /// How its syncers make their turns.
    pub(crate) pace: Pace,
    /// What it tells of itself, and where.
    pub(crate) telemetry: Telemetry,
    pub(crate) log: Arc<Log, Global>,
    /// Where it answers how it is, if it does.
    pub(crate) status: Option<TcpListener>,
    ghost some: { 1 ≤ workers },
    ghost few: { workers ≤ max_workers },
}

// A publisher of what a broker of a cluster knows first, with a view for each node and for each worker.
fn open_views<J: Publication, C: NodeList, R: Wait + Drop + Copy>(
    rt: &R,
    alloc: Global,
    opened: Opened,
    inventory: Inventory,
    workers: u16,
) -> Result<(Shared<J, R>, Vec<View<J>>), DeviceFailed>
    requires book { opened ≡ J.book }
    requires opening { inventory ≡ J.opening }
    requires fresh { inventory ≡ opening_of C.nodes }
    requires some { 1 ≤ workers }
    requires few { workers ≤ max_workers }
    ensures { IfOk result (λ shared. vec_len shared.1 ≡ length J.opening + workers) }
{
    let places = inventory.node_count() + workers;
    match open::<J, R>(alloc, *rt, opened, inventory, places) {
        Ok((publisher, views)) => Ok((Arc::new(alloc, Mutex::new(publisher))?, views)),
        Err(_) => Err(DeviceFailed),
    }
}

// What a broker's turns with nodes are reported by: the broker's name, where it is logged, and the nodes with what is counted of each.
#[derive(Drop)]
struct TurnReport<'a> {
    server: &'a str,
    log: &'a Arc<Log, Global>,
    nodes: &'a [FollowedNode],
}

// The nodes that a broker follows, of which nothing was counted.
fn followed_nodes(alloc: Global, nodes: &[NodeConfig]) -> Result<Vec<FollowedNode>, AllocError>
    ensures { IfOk result (λ followed. vec_len followed ≡ length nodes.now) }
{
    let mut followed = Vec::with_capacity(alloc, nodes.len())?;
    for place in 0..nodes.len() {
        followed.push(FollowedNode {
            name: String::from_str(alloc, nodes[place].name().as_str())?,
            meter: Arc::new(alloc, FollowMeter::new(alloc)?)?,
        })?;
    }
    Ok(followed)
}

// What sees the turns with the node of that number.
fn watcher_of<R: Wait + Clock + Copy + Drop>(
    rt: &R,
    alloc: Global,
    report: &TurnReport<'_>,
    node: usize,
) -> Result<TurnWatcher<R>, AllocError>
    requires { node < length report.now.nodes.now }
{
    let followed = &report.nodes[node];
    Ok(TurnWatcher::new(
        *rt,
        alloc,
        String::from_str(alloc, report.server)?,
        followed.name.clone()?,
        Arc::try_clone(report.log)?,
        Arc::try_clone(&followed.meter)?,
    ))
}

// What follows the node of that number, over this view.
#[tactic(auto, using(crate::proofs::LinkLemmas::link_at))]
fn syncer_of<R: Net + Clock + Wait + Copy + Drop, J: Publication>(
    rt: &R,
    alloc: Global,
    health: &Arc<Health, Global>,
    report: &TurnReport<'_>,
    nodes: &[NodeConfig],
    publisher: &Shared<J, R>,
    node: usize,
    view: View<J>,
) -> Result<Syncer<R, J, NodeLink<R>>, DeviceFailed>
    requires node { node < length nodes.now }
    requires nodes { length nodes.now ≤ max_nodes }
    requires there { length nodes.now ≡ length J.opening }
    requires report { length report.now.nodes.now ≡ length nodes.now }
    ensures { IfOk result (λ syncer. IsLinkAt (arc_value health.now).patience nodes.now syncer.node syncer.link) }
{
    let number = node as NodeNo;
    let link = link_to(rt, alloc, health, number, &nodes[node], Asker::Syncer)?;
    Ok(Syncer {
        node: number,
        view,
        link,
        watcher: watcher_of(rt, alloc, report, node)?,
        publisher: Arc::try_clone(publisher)?,
    })
}

// Starts a syncer for each node, which takes a view.
fn start_syncers<
    R: Net<Listener = TcpListener, Stream = TcpStream> + Host + Copy + Send + Sync + 'static,
    J: Publication + Send + Sync + 'static,
    C: NodeList,
>(
    rt: &R,
    alloc: Global,
    pace: Pace,
    health: &Arc<Health, Global>,
    report: &TurnReport<'_>,
    nodes: &[NodeConfig],
    publisher: &Shared<J, R>,
    views: &mut Vec<View<J>>,
) -> Result<Vec<Arc<Handover<EndOfTurns>, Global>>, DeviceFailed>
    requires patience { (arc_value health.now).patience ≡ pace.patience }
    requires cluster { nodes.now ≡ C.nodes }
    requires nodes { length nodes.now ≤ max_nodes }
    requires there { length nodes.now ≡ length J.opening }
    requires views { length nodes.now ≤ vec_len views.old }
    requires report { length report.now.nodes.now ≡ length nodes.now }
    ensures views { OnOk result (length nodes.now + vec_len views.new ≡ vec_len views.old) }
    ensures each { IfOk result (λ syncers. vec_len syncers ≡ length nodes.now) }
{
    let mut syncers = Vec::new(alloc);
    for node in 0..nodes.len() {
        let Some(view) = views.pop() else {
            unreachable!()
        };
        let syncer = syncer_of(rt, alloc, health, report, nodes, publisher, node, view)?;
        syncers.push(start_syncer::<R, J, C>(rt, alloc, pace, syncer)?)?;
    }
    Ok(syncers)
}

// What threads of a broker share: how its nodes do, what is counted of its turns with them and of its connections.
#[derive(Drop)]
struct BrokerCounts {
    gate: Arc<Gate, Global>,
    health: Arc<Health, Global>,
    followed: Arc<Vec<FollowedNode>, Global>,
}

// Nothing was counted yet of these nodes, so many; exchanges with them may take so many milliseconds.
fn counted_of(
    alloc: Global,
    nodes: &[NodeConfig],
    count: u16,
    patience: u64,
) -> Result<BrokerCounts, DeviceFailed>
    requires { count ≤ max_nodes }
    ensures followed { IfOk result (λ counted. vec_len (arc_value counted.followed) ≡ length nodes.now) }
    ensures patience { IfOk result (λ counted. (arc_value counted.health).patience ≡ patience) }
{
    let health = Health::new(alloc, count, patience)?;
    Ok(BrokerCounts {
        gate: Arc::new(alloc, Gate::new())?,
        health: Arc::new(alloc, health)?,
        followed: Arc::new(alloc, followed_nodes(alloc, nodes)?)?,
    })
}

// Opens what comes to a broker, and starts a worker over each of these views.
fn start_workers<
    R: Net<Listener = TcpListener, Stream = TcpStream> + Host + Copy + Send + Sync + 'static,
    J: Publication + Send + Sync + 'static,
    C: NodeList,
>(
    rt: &R,
    alloc: Global,
    front: u16,
    listener: Arc<TcpListener, Global>,
    views: Vec<View<J>>,
    nodes: &[NodeConfig],
    publisher: &Shared<J, R>,
    telemetry: &Telemetry,
    counted: &BrokerCounts,
) -> Result<(), DeviceFailed>
    requires cluster { nodes.now ≡ C.nodes }
    requires nodes { length nodes.now ≤ max_nodes }
    requires there { length nodes.now ≡ length J.opening }
{
    let BrokerCounts {
        gate,
        health,
        followed,
    } = counted;
    let source = Source::open(rt, alloc, front, listener, gate)?;
    for view in views {
        let worker = worker_of(rt, alloc, view, health, nodes, publisher)?;
        start_worker::<R, J, C, Worker<R, J>>(
            rt, alloc, worker, telemetry, gate, followed, &source,
        )?;
    }
    Ok(())
}

// Starts the thread that answers at a broker's status address, where it has one.
fn start_status_of<
    R: Net<Listener = TcpListener, Stream = TcpStream> + Host + Copy + Send + Sync + 'static,
>(
    rt: &R,
    alloc: Global,
    listener: Option<TcpListener>,
    status: BrokerStatus,
) -> Result<(), DeviceFailed> {
    let Some(listener) = listener else {
        return Ok(());
    };
    start_status(rt, alloc, listener, status)?;
    Ok(())
}

/// Starts the threads of a broker: one that follows each node, its front, where it has one, and its workers.
pub(crate) fn start_broker<
    R: Net<Listener = TcpListener, Stream = TcpStream> + Host + Copy + Send + Sync + 'static,
    J: Publication + Send + Sync + 'static,
    C: NodeList,
>(
    rt: &R,
    alloc: Global,
    list: Opened,
    parts: BrokerParts,
    nodes: &[NodeConfig],
) -> Result<Broker, DeviceFailed>
    requires book { list ≡ J.book }
    requires opening { parts.inventory ≡ J.opening }
    requires cluster { nodes.now ≡ C.nodes }
    requires fresh { parts.inventory ≡ opening_of nodes.now }
    requires nodes { length nodes.now ≡ length parts.inventory }
    ensures { IfOk result (λ broker. vec_len broker.syncers ≡ length nodes.now) }
{
    let count = parts.inventory.node_count();
    let BrokerParts {
        inventory,
        listener,
        workers,
        front,
        pace,
        telemetry,
        log,
        status,
    } = parts;
    let counted = counted_of(alloc, nodes, count, pace.patience)?;
    let (publisher, mut views) = open_views::<J, C, R>(rt, alloc, list, inventory, workers)?;
    let report = TurnReport {
        server: telemetry.name(),
        log: &log,
        nodes: &counted.followed,
    };
    let syncers = start_syncers::<R, J, C>(
        rt,
        alloc,
        pace,
        &counted.health,
        &report,
        nodes,
        &publisher,
        &mut views,
    )?;
    start_workers::<R, J, C>(
        rt, alloc, front, listener, views, nodes, &publisher, &telemetry, &counted,
    )?;
    let BrokerCounts {
        gate,
        health,
        followed,
    } = counted;
    let shown = BrokerStatus {
        telemetry,
        nodes: followed,
        health,
    };
    start_status_of(rt, alloc, status, shown)?;
    Ok(Broker { gate, syncers })
}
