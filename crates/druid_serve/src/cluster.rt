//! A cluster, from its config to its end.
ghost use Rattle.std.specs.Prelude.{◌≡◌, ◌<◌, ◌≤◌, ℕ, List, Err, All, IfOk, IfErr, OnOk, length, vec_len, map, filter, count_by, option_map};
ghost use Rattle.std.specs.List.{range_with_len};
ghost use Rattle.std.specs.Io.KnownBytes.{Appends, Keeps};
ghost use Rattle.druid_segment_descriptor.specs.Reply.{max_changes};
ghost use Rattle.druid_inventory.specs.Entry.{max_nodes};
ghost use Rattle.druid_serve.specs.Links.{opening_of};
ghost use Rattle.druid_serve_base.specs.Printed.{ArePrinted};
ghost use Rattle.druid_serve_config.specs.Configs.{reported_of};
ghost use Rattle.druid_serve_config.specs.Limits.{max_workers};
ghost use Rattle.druid_serve_config.specs.Parts.{has_node, has_broker};
ghost use Rattle.druid_serve.specs.Served.{named, IsPart, RefusesPart, IsConfig, IsServed, PrintsIf, ServesAs};

use crate::broker::{Broker, BrokerParts, EndOfTurns, Pace, start_broker};
use crate::links::NodeList;
use crate::live_cluster::serve_on;
use druid_inventory::Inventory;
use druid_inventory_views::Opened;
use druid_serve_base::{
    ClusterFault, DeviceFailed, Gate, Handover, Host, ServeFault, Stop, Telemetry, ask, listen,
};
use druid_serve_config::{
    BrokerConfig, Config, NodeConfig, Part, QueryConfig, names_in, read_config,
};
use druid_serve_node::{EndOfLoads, Loading, start_node, start_owner};
use druid_telemetry_log::Log;
use std::alloc::{AllocError, Global};
use std::fs::File;
use std::io::Write;
use std::marker::Brand;
use std::net::{Net, TcpListener, TcpStream};
use std::rt::Files;
use std::sync::{Arc, Wait};
use std::time::Clock;

// Starts the nodes of a part, one after another, and gives what tells when each has loaded what comes later. Where the cluster goes
// on, a node owns its address before it raises its incarnation.
fn start_nodes<
    R: Files<File = File>
        + Net<Listener = TcpListener, Stream = TcpStream>
        + AllocGlobal
        + Host
        + Copy
        + Send
        + Sync
        + 'static,
>(
    rt: &R,
    alloc: Global,
    nodes: &[NodeConfig],
    part: &Part<'_>,
    kept: usize,
    goes_on: bool,
    log: &Arc<Log, Global>,
) -> Result<Vec<Loading>, Stop<ClusterFault>>
where
    R::Dir: Send,
    requires some { 1 ≤ kept }
    requires few { kept ≤ max_changes }
    ensures { IfOk result (λ loaders. vec_len loaders ≡ count_by (has_node part.now) nodes.now) }
{
    let mut loaders = Vec::new(alloc);
    for place in 0..nodes.len() {
        let node = &nodes[place];
        if part.has_node(node) {
            let started = if goes_on {
                start_owner::<R, Brand, Brand>(rt, alloc, node, kept, log)
            } else {
                start_node::<R, Brand, Brand>(rt, alloc, node, kept, log)
            };
            match started {
                Ok(loader) => loaders.push(loader)?,
                Err(start) => return Err(Stop::at_node(alloc, place, node, start)),
            }
        }
    }
    Ok(loaders)
}

// A broker of a config that listens: its place among them, and where it listens.
#[derive(Drop)]
struct Listening {
    place: usize,
    listener: Arc<TcpListener, Global>,
    // Where it answers how it is, if it does.
    status: Option<TcpListener>,
    workers: u16,
    // How many front threads wait for its clients.
    front: u16,
    ghost some: { 1 ≤ workers },
    ghost few: { workers ≤ max_workers },
}

// Where the broker at a place answers how it is, if it does.
fn status_listener<R: Net<Listener = TcpListener, Stream = TcpStream>>(
    rt: &R,
    alloc: Global,
    place: usize,
    broker: &BrokerConfig,
) -> Result<Option<TcpListener>, Stop<ClusterFault>> {
    let Some(address) = broker.status() else {
        return Ok(None);
    };
    match listen(rt, address) {
        Ok(listener) => Ok(Some(listener)),
        Err(_) => Err(Stop::at_broker_status(alloc, place, address)),
    }
}

// The listeners of the brokers of a part.
fn listen_all<R: Net<Listener = TcpListener, Stream = TcpStream>>(
    rt: &R,
    alloc: Global,
    brokers: &[BrokerConfig],
    part: &Part<'_>,
) -> Result<Vec<Listening>, Stop<ClusterFault>>
    ensures { IfOk result (λ listening. map (λ l. l.place) listening.items
        ≡ filter (has_broker part.now) (range_with_len 0 (length brokers.now))) }
{
    let mut listening = Vec::new(alloc);
    for place in 0..brokers.len() {
        let broker = &brokers[place];
        if part.has_broker(place) {
            let Ok(listener) = listen(rt, broker.listen()) else {
                return Err(Stop::at_broker(alloc, place, broker));
            };
            listening.push(Listening {
                place,
                listener: Arc::new(alloc, listener)?,
                status: status_listener(rt, alloc, place, broker)?,
                workers: broker.workers(),
                front: broker.front(),
            })?;
        }
    }
    Ok(listening)
}

// What a broker knows first of the nodes.
#[tactic(auto, using(crate::proofs::LinkLemmas::opening_length))]
fn fresh(alloc: Global, nodes: &[NodeConfig]) -> Result<Inventory, DeviceFailed>
    requires some { 1 ≤ length nodes.now }
    requires few { length nodes.now ≤ max_nodes }
    ensures opening { IfOk result (λ inventory. inventory ≡ opening_of nodes.now) }
    ensures nodes { IfOk result (λ inventory. length inventory ≡ length nodes.now) }
{
    match Inventory::new(alloc, names_in(alloc, nodes)?) {
        Ok(inventory) => Ok(inventory),
        // No name stands twice, so memory ran out.
        Err(_) => Err(DeviceFailed),
    }
}

// Starts a broker: its publisher, views and receipts are of this list, which begins with its inventory.
fn start_one<
    R: Net<Listener = TcpListener, Stream = TcpStream> + Host + Copy + Send + Sync + 'static,
    C: NodeList,
>(
    rt: &R,
    alloc: Global,
    list: Opened,
    parts: BrokerParts,
    nodes: &[NodeConfig],
) -> Result<Broker, DeviceFailed>
    requires cluster { nodes.now ≡ C.nodes }
    requires fresh { parts.inventory ≡ opening_of nodes.now }
    requires nodes { length nodes.now ≡ length parts.inventory }
    ensures { IfOk result (λ broker. vec_len broker.syncers ≡ length nodes.now) }
{
    start_broker::<R, Brand, C>(rt, alloc, list, parts, nodes)
}

// What the broker at a place tells of itself.
fn telemetry_of(
    alloc: Global,
    place: usize,
    log: &Arc<Log, Global>,
) -> Result<Telemetry, AllocError> {
    let name = format!(in alloc; "broker:{place}")?;
    Telemetry::new(alloc, name.as_str(), log)
}

// What a broker that listens starts with.
fn parts_of(
    alloc: Global,
    listening: Listening,
    pace: Pace,
    nodes: &[NodeConfig],
    log: &Arc<Log, Global>,
) -> Result<BrokerParts, DeviceFailed>
    requires some { 1 ≤ length nodes.now }
    requires few { length nodes.now ≤ max_nodes }
    ensures opening { IfOk result (λ parts. parts.inventory ≡ opening_of nodes.now) }
    ensures nodes { IfOk result (λ parts. length parts.inventory ≡ length nodes.now) }
{
    let inventory = fresh(alloc, nodes)?;
    let telemetry = telemetry_of(alloc, listening.place, log)?;
    let log = Arc::try_clone(log)?;
    let Listening {
        listener,
        status,
        workers,
        front,
        ..
    } = listening;
    Ok(BrokerParts {
        inventory,
        listener,
        workers,
        front,
        pace,
        telemetry,
        log,
        status,
    })
}

// Starts the brokers of a part after their listeners: all of them over the cluster's one list of nodes.
#[tactic(auto, using(crate::proofs::PartLemmas::many))]
fn start_brokers<
    R: Net<Listener = TcpListener, Stream = TcpStream> + Host + Copy + Send + Sync + 'static,
    C: NodeList,
>(
    rt: &R,
    alloc: Global,
    brokers: &[BrokerConfig],
    part: &Part<'_>,
    pace: Pace,
    nodes: &[NodeConfig],
    log: &Arc<Log, Global>,
) -> Result<Vec<Broker>, Stop<ClusterFault>>
    requires cluster { nodes.now ≡ C.nodes }
    requires some { 1 ≤ length nodes.now }
    requires few { length nodes.now ≤ max_nodes }
    ensures { IfOk result (λ standing. vec_len standing
        ≡ length (filter (has_broker part.now) (range_with_len 0 (length brokers.now)))) }
{
    let listening = listen_all(rt, alloc, brokers, part)?;
    let mut standing = Vec::with_capacity(alloc, listening.len())?;
    let mut listening = listening;
    // The last broker first; what is started is the same.
    while let Some(last) = listening.pop() {
        let parts = parts_of(alloc, last, pace, nodes, log)?;
        standing.push(start_one::<R, C>(rt, alloc, Opened::new(), parts, nodes)?)?;
    }
    Ok(standing)
}

// Waits until the syncers of a broker have made their first turns, and gives what these gave.
fn turns_of<R: Wait>(
    rt: &R,
    alloc: Global,
    syncers: Vec<Arc<Handover<EndOfTurns>, Global>>,
) -> Result<Vec<EndOfTurns>, AllocError>
    ensures { IfOk result (λ ends. vec_len ends ≡ vec_len syncers) }
{
    let mut ends = Vec::with_capacity(alloc, syncers.len())?;
    let mut syncers = syncers;
    while let Some(syncer) = syncers.pop() {
        ends.push(syncer.take(rt))?;
    }
    Ok(ends)
}

// Waits until each node has loaded what comes later, and gives what shows it.
fn ends_of<R: Wait>(
    rt: &R,
    alloc: Global,
    loaders: Vec<Loading>,
) -> Result<Vec<EndOfLoads>, AllocError>
    ensures { IfOk result (λ ends. vec_len ends ≡ vec_len loaders) }
{
    let mut ends = Vec::with_capacity(alloc, loaders.len())?;
    let mut loaders = loaders;
    while let Some(loader) = loaders.pop() {
        ends.push(loader.join(rt))?;
    }
    Ok(ends)
}

// A cluster whose nodes have loaded, and whose brokers have followed them.
#[derive(Drop)]
struct Settled {
    // What the loader of each node ended with.
    loads: Vec<EndOfLoads>,
    // What the first turns of each broker's syncers gave.
    turns: Vec<Vec<EndOfTurns>>,
    // Where each broker counts connections.
    gates: Vec<Arc<Gate, Global>>,
}

// Waits until the nodes have loaded and the brokers have followed them.
fn settle<R: Wait>(
    rt: &R,
    alloc: Global,
    loaders: Vec<Loading>,
    standing: Vec<Broker>,
) -> Result<Settled, DeviceFailed>
    ensures loads { IfOk result (λ settled. vec_len settled.loads ≡ vec_len loaders) }
    ensures turns { IfOk result (λ settled. vec_len settled.turns ≡ vec_len standing) }
{
    let mut gates = Vec::with_capacity(alloc, standing.len())?;
    let mut turns = Vec::with_capacity(alloc, standing.len())?;
    let loads = ends_of(rt, alloc, loaders)?;
    let mut standing = standing;
    // The last broker first; what is waited for is the same.
    while let Some(broker) = standing.pop() {
        turns.push(turns_of(rt, alloc, broker.syncers)?)?;
        gates.push(broker.gate)?;
    }
    Ok(Settled {
        loads,
        turns,
        gates,
    })
}

// Posts a query and prints its answer, where its broker is of the part.
fn ask_one<R: Net + Clock + Copy, W: Write>(
    rt: &R,
    alloc: Global,
    config: &Config,
    part: &Part<'_>,
    query: &QueryConfig,
    out: &mut W,
) -> Result<(), Stop<ClusterFault>>
    requires there { query.now.broker < length config.now.brokers }
    ensures { OnOk result (PrintsIf (has_broker part.now query.now.broker) (W.contents out.old) (W.contents out.new)) }
{
    if !part.has_broker(query.broker()) {
        return Ok(());
    }
    let broker = &config.brokers()[query.broker()];
    match ask(rt, alloc, query.text(), broker.address(), out) {
        Ok(()) => Ok(()),
        Err(error) => Err(Stop::at_output(alloc, &error)),
    }
}

// Posts the queries to brokers of a part to a cluster whose nodes have loaded, and prints their answers.
fn ask_all<R: Net + Clock + Copy, W: Write>(
    rt: &R,
    alloc: Global,
    config: &Config,
    part: &Part<'_>,
    settled: &Settled,
    out: &mut W,
) -> Result<(), Stop<ClusterFault>>
    requires loads { vec_len settled.now.loads ≡ count_by (has_node part.now) config.now.nodes }
    requires turns { vec_len settled.now.turns
        ≡ length (filter (has_broker part.now) (range_with_len 0 (length config.now.brokers))) }
    ensures { OnOk result ((text : List ℕ) × ArePrinted (count_by (λ q. has_broker part.now q.broker) config.now.queries) text
        × Appends (W.contents out.old) (W.contents out.new) text) }
{
    let queries = config.queries();
    for place in 0..queries.len() {
        ask_one(rt, alloc, config, part, &queries[place], out)?;
    }
    Ok(())
}

// Waits until each broker answered so many connections from outside. What was printed is there before.
fn wait_for_others<R: Wait, W: Write>(
    rt: &R,
    alloc: Global,
    gates: &[Arc<Gate, Global>],
    connections: u64,
    out: &mut W,
) -> Result<(), Stop<ClusterFault>>
    ensures { OnOk result (Keeps (W.contents out.old) (W.contents out.new)) }
{
    for gate in gates {
        gate.open(rt);
    }
    if let Err(error) = out.flush() {
        return Err(Stop::at_output(alloc, &error));
    }
    for gate in gates {
        gate.wait(rt, connections);
    }
    Ok(())
}

// How the syncers of a cluster make their turns.
fn pace_of(config: &Config) -> Pace
    ensures { result ≡ record { turns = config.now.turns; every = config.now.every; patience = config.now.patience } }
{
    Pace {
        turns: config.turns(),
        every: config.every(),
        patience: config.patience(),
    }
}

// Serves a part of a cluster to its end. One without an end, or without brokers, says where it listens once its queries are answered,
// and then serves until the program is ended.
fn serve_part<
    R: Files<File = File>
        + Net<Listener = TcpListener, Stream = TcpStream>
        + AllocGlobal
        + Host
        + Copy
        + Send
        + Sync
        + 'static,
    W: Write,
    E: Write,
>(
    rt: &R,
    alloc: Global,
    config: &Config,
    part: &Part<'_>,
    log: &Arc<Log, Global>,
    out: &mut W,
    errors: &mut E,
) -> Result<(), Stop<ClusterFault>>
where
    R::Dir: Send,
    ensures quiet { E.contents errors.new ≡ E.contents errors.old }
    ensures printed { OnOk result ((text : List ℕ) × ArePrinted (count_by (λ q. has_broker part.now q.broker) config.now.queries) text
        × Appends (W.contents out.old) (W.contents out.new) text) }
{
    let (nodes, pace) = (config.nodes(), pace_of(config));
    let goes_on = pace.every.is_some();
    let loaders = start_nodes(rt, alloc, nodes, part, config.kept(), goes_on, log)?;
    let standing = start_brokers::<R, Brand>(rt, alloc, config.brokers(), part, pace, nodes, log)?;
    let settled = settle(rt, alloc, loaders, standing)?;
    ask_all(rt, alloc, config, part, &settled, out)?;
    if config.is_endless() || settled.gates.is_empty() {
        return serve_on(rt, alloc, config, part, out, errors);
    }
    wait_for_others(rt, alloc, &settled.gates, config.connections(), out)
}

// The part of a cluster that a text names: all of it where there is no text.
fn part_in<'a>(
    alloc: Global,
    config: &Config,
    text: Option<&'a str>,
) -> Result<Part<'a>, Stop<ServeFault>>
    ensures ok { IfOk result (λ part. (part ≡ named (option_map (λ t. t.now) text.entry)) × IsPart (reported_of config.now) (option_map (λ t. t.now) text.entry)) }
    ensures err { IfErr result (λ stop. RefusesPart stop.fault (reported_of config.now) (option_map (λ t. t.now) text.entry)) }
{
    let Some(text) = text else {
        return Ok(Part::whole());
    };
    match Part::named(alloc, config, text) {
        Ok(Some(part)) => Ok(part),
        Ok(None) => Err(Stop::at_part(alloc, text)),
        Err(_) => Err(Stop::new(alloc, ServeFault::Device, "the part: out of memory")),
    }
}

/// Serves the cluster of a config, or the part of it that a text names, prints the answers to the
/// queries whose brokers are of the part, and ends once each of its brokers answered the
/// connections from outside that the config asks for. A cluster without an end, or a part without
/// brokers, then says on the error writer, in a line a server, where it listens and what it serves,
/// and does not return. The threads that still wait for connections are left. Events go to the log.
/// Ok only where the bytes are a config and the text is a part of it, and of each of these queries
/// something was printed, in their order.
///
/// # Errors
///
/// `BadConfig` where the bytes are no config, or the text is no part of it: nothing is printed.
/// Then `BadFolder` or `Device`: which is tested.
pub fn serve<
    R: Files<File = File>
        + Net<Listener = TcpListener, Stream = TcpStream>
        + AllocGlobal
        + Host
        + Copy
        + Send
        + Sync
        + 'static,
    W: Write,
    E: Write,
>(
    rt: &R,
    alloc: Global,
    config: &[u8],
    part: Option<&str>,
    log: &Arc<Log, Global>,
    out: &mut W,
    errors: &mut E,
) -> Result<(), Stop<ServeFault>>
where
    R::Dir: Send,
    ensures quiet { E.contents errors.new ≡ E.contents errors.old }
    ensures ok { OnOk result (IsServed config.now (option_map (λ t. t.now) part.entry) (W.contents out.old) (W.contents out.new)) }
    ensures err { IfErr result (λ stop. ServesAs config.now (option_map (λ t. t.now) part.entry) (Err stop.fault)) }
    ensures nothing { (IsConfig config.now (option_map (λ t. t.now) part.entry) → ⊥) → W.contents out.new ≡ W.contents out.old }
{
    let cluster = match read_config(alloc, config) {
        Ok(cluster) => cluster,
        Err(fault) => return Err(Stop::at_config(alloc, config, fault)),
    };
    let part = match part_in(alloc, &cluster, part) {
        Ok(part) => part,
        Err(stop) => return Err(stop),
    };
    match serve_part(rt, alloc, &cluster, &part, log, out, errors) {
        Ok(()) => Ok(()),
        Err(stop) => Err(stop.into()),
    }
}
