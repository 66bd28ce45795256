//! The families of a cluster's servers, out of what they counted. Of 56 pairs of route and status
//! a server uses a dozen, so those that are 0 are left out.
ghost use Rattle.std.specs.Prelude.{◌≡◌, ◌++◌, ◌*◌, ◌-◌, ◌^◌, min, IfOk, OnOk, flat_map, map};
ghost use Rattle.druid_telemetry_metrics.specs.declared.family.Number.TheVariants.{Whole, Micros};
ghost use Rattle.druid_telemetry_metrics.specs.Families.{label, sample, counted_sample, family, single, answers_of, route_answers, server_families, buckets, server_histogram, node_families, ended, turn_ends, exchange_ends, followed_sample, broker_families};

use crate::family::{Bucket, Family, Histogram, Kind, Label, Number, Sample, Spread};
use crate::meter::{BOUNDS, Readings, number_at};
use crate::route::{ROUTES, Route, STATUSES, status_text};
use std::alloc::{AllocError, Global};
use std::marker::Model;

/// How the turns of a broker with a node end, in the order of their places: what the reply made, or the fault.
pub const TURN_ENDS: [&str; 11] = [
    "Moved",
    "AlreadyHave",
    "AskWhole",
    "AskPages",
    "K1",
    "K2",
    "K3",
    "K4",
    "K5",
    "K6",
    "K9",
];

/// How exchanges with a node end, in the order of their places: with bytes that came back, or with a fault.
pub const EXCHANGE_ENDS: [&str; 10] = [
    "answered", "X1", "X2", "X3", "X4", "X5", "X6", "X7", "X8", "X9",
];

/// What a node tells of its state.
#[derive(Clone, Copy, Debug, PartialEq, Eq, Drop)]
pub struct NodeState {
    /// Its incarnation.
    pub incarnation: u64,
    /// The count of its mark.
    pub changes: u64,
    /// The segments that it loaded and did not drop.
    pub segments: u64,
    /// Their rows.
    pub rows: u64,
    /// The bytes of their files.
    pub bytes: u64,
}

/// What a broker tells of a node that it follows.
#[derive(Drop)]
pub struct Followed<'a> {
    /// The node's name.
    pub node: &'a str,
    /// The incarnation of the mark that is held of it, 0 where it was never synced.
    pub incarnation: u64,
    /// The count of that mark.
    pub changes: u64,
    /// When a turn with it last did not fail, in milliseconds since 1970; 0 where none has.
    pub heard: u64,
    /// How many turns ended each way of `TURN_ENDS`.
    pub turns: Vec<u64>,
    /// How many exchanges ended each way of `EXCHANGE_ENDS`.
    pub exchanges: Vec<u64>,
}

impl<'a> Model for Followed<'a> {
    ghost use Rattle.druid_telemetry_metrics.specs.Families as specs;

    ghost Value = { specs.Followed };

    ghost view = { λ a. record { node = a.node.now; incarnation = a.incarnation; changes = a.changes; heard = a.heard; turns = a.turns.items; exchanges = a.exchanges.items } };
}

// A number of a server, with what else tells it apart: names and values of labels.
fn sample<'a>(
    alloc: Global,
    server: &'a str,
    others: &[(&'a str, &'a str)],
    number: Number,
) -> Result<Sample<'a>, AllocError>
    ensures { IfOk result (λ one. one ≡ sample server.now (map (λ p. label p.0.now p.1.now) others.now) number) }
{
    let mut labels = Vec::new(alloc);
    labels.push(Label::new("server", server))?;
    for (name, value) in others {
        labels.push(Label::new(name, value))?;
    }
    Ok(Sample::new(labels, number))
}

// Puts a count of a server, where it is not 0.
fn push_count<'a>(
    alloc: Global,
    server: &'a str,
    others: &[(&'a str, &'a str)],
    count: u64,
    samples: &mut Vec<Sample<'a>>,
) -> Result<(), AllocError>
    ensures { OnOk result (samples.new.items ≡ samples.old.items ++ counted_sample server.now (map (λ p. label p.0.now p.1.now) others.now) count) }
{
    if count > 0 {
        samples.push(sample(alloc, server, others, Number::Whole(count))?)?;
    }
    Ok(())
}

// A family of one number.
fn single<'a>(
    alloc: Global,
    name: &'a str,
    help: &'a str,
    kind: Kind,
    server: &'a str,
    number: u64,
) -> Result<Family<'a>, AllocError>
    ensures { IfOk result (λ one. one ≡ single name.now help.now kind server.now number) }
{
    let mut samples = Vec::new(alloc);
    samples.push(sample(alloc, server, &[], Number::Whole(number))?)?;
    Ok(Family::new(name, help, kind, samples))
}

// The answers of a route, by these statuses.
fn push_answers<'a>(
    alloc: Global,
    server: &'a str,
    route: Route,
    statuses: &[Option<u16>],
    readings: &Readings,
    samples: &mut Vec<Sample<'a>>,
) -> Result<(), AllocError>
    ensures { OnOk result (samples.new.items ≡ samples.old.items ++ flat_map (answers_of server.now readings.now.answers route) statuses.now) }
{
    for status in statuses {
        let others = [("route", route.text()), ("status", status_text(*status))];
        push_count(
            alloc,
            server,
            &others,
            readings.answers(route, *status),
            samples,
        )?;
    }
    Ok(())
}

// The answers of these routes.
fn answers<'a>(
    alloc: Global,
    server: &'a str,
    routes: &[Route],
    readings: &Readings,
) -> Result<Vec<Sample<'a>>, AllocError>
    ensures { IfOk result (λ samples. samples.items ≡ flat_map (route_answers server.now readings.now.answers) routes.now) }
{
    let mut samples = Vec::new(alloc);
    for route in routes {
        push_answers(alloc, server, *route, &STATUSES, readings, &mut samples)?;
    }
    Ok(samples)
}

// What a server tells of its connections.
pub(crate) fn server_families<'a>(
    alloc: Global,
    server: &'a str,
    readings: &Readings,
) -> Result<Vec<Family<'a>>, AllocError>
    ensures { IfOk result (λ families. families.items ≡ server_families server.now readings.now) }
{
    let mut families = Vec::new(alloc);
    families.push(single(
        alloc,
        "druid_cluster_connections_total",
        "Connections that were taken.",
        Kind::Counter,
        server,
        readings.connections(),
    )?)?;
    families.push(Family::new(
        "druid_cluster_answers_total",
        "Connections that ended, by route and by the status that was written.",
        Kind::Counter,
        answers(alloc, server, &ROUTES, readings)?,
    ))?;
    families.push(single(
        alloc,
        "druid_cluster_written_bytes_total",
        "Bytes that were written to connections.",
        Kind::Counter,
        server,
        readings.bytes(),
    )?)?;
    Ok(families)
}

// The buckets of durations.
fn buckets_of(alloc: Global, durations: &[u64]) -> Result<Vec<Bucket>, AllocError>
    ensures { IfOk result (λ found. found.items ≡ buckets durations.now) }
{
    let mut buckets = Vec::new(alloc);
    for (bound, count) in BOUNDS.iter().zip(durations) {
        buckets.push(Bucket::new(*bound, *count))?;
    }
    Ok(buckets)
}

// How long the answers of a server took.
pub(crate) fn server_histogram<'a>(
    alloc: Global,
    server: &'a str,
    readings: &Readings,
) -> Result<Histogram<'a>, AllocError>
    ensures { IfOk result (λ one. one ≡ server_histogram server.now readings.now) }
{
    let mut labels = Vec::new(alloc);
    labels.push(Label::new("server", server))?;
    let durations = readings.durations();
    let buckets = buckets_of(alloc, durations)?;
    let over = number_at(durations, BOUNDS.len());
    let mut spreads = Vec::new(alloc);
    spreads.push(Spread::new(labels, buckets, over, readings.micros()))?;
    Ok(Histogram::new(
        "druid_cluster_answer_seconds",
        "How long connections took, from their first byte to their last.",
        spreads,
    ))
}

// What a node tells of its state.
pub(crate) fn node_families<'a>(
    alloc: Global,
    server: &'a str,
    state: &NodeState,
) -> Result<Vec<Family<'a>>, AllocError>
    ensures { IfOk result (λ families. families.items ≡ node_families server.now state.now) }
{
    let rows = [
        (
            "druid_cluster_node_incarnation",
            "The incarnation of the node.",
            state.incarnation,
        ),
        (
            "druid_cluster_node_changes",
            "The count of the node's mark: its loads and drops in this incarnation.",
            state.changes,
        ),
        (
            "druid_cluster_node_segments",
            "Segments that the node loaded and did not drop.",
            state.segments,
        ),
        (
            "druid_cluster_node_rows",
            "Rows of the segments that the node holds.",
            state.rows,
        ),
        (
            "druid_cluster_node_file_bytes",
            "Bytes of the segment files that the node holds.",
            state.bytes,
        ),
    ];
    let mut families = Vec::new(alloc);
    for (name, help, number) in rows {
        families.push(single(alloc, name, help, Kind::Gauge, server, number)?)?;
    }
    Ok(families)
}

// What ended each way of a node; of those that are not 0.
fn push_ended<'a>(
    alloc: Global,
    server: &'a str,
    node: &'a str,
    ends: &[&'a str],
    counts: &[u64],
    samples: &mut Vec<Sample<'a>>,
) -> Result<(), AllocError>
    ensures { OnOk result (samples.new.items ≡ samples.old.items ++ ended server.now node.now (map (λ end. end.now) ends.now) counts.now) }
{
    for (end, count) in ends.iter().zip(counts) {
        let others = [("node", node), ("end", *end)];
        push_count(alloc, server, &others, *count, samples)?;
    }
    Ok(())
}

// The turns with nodes, by how they ended.
fn turns<'a>(
    alloc: Global,
    server: &'a str,
    nodes: &[Followed<'a>],
) -> Result<Vec<Sample<'a>>, AllocError>
    ensures { IfOk result (λ samples. samples.items ≡ flat_map (λ f. ended server.now f.node turn_ends f.turns) nodes.now) }
{
    let mut samples = Vec::new(alloc);
    for followed in nodes {
        push_ended(
            alloc,
            server,
            followed.node,
            &TURN_ENDS,
            &followed.turns,
            &mut samples,
        )?;
    }
    Ok(samples)
}

// The exchanges with nodes, by how they ended.
fn exchanges<'a>(
    alloc: Global,
    server: &'a str,
    nodes: &[Followed<'a>],
) -> Result<Vec<Sample<'a>>, AllocError>
    ensures { IfOk result (λ samples. samples.items ≡ flat_map (λ f. ended server.now f.node exchange_ends f.exchanges) nodes.now) }
{
    let mut samples = Vec::new(alloc);
    for followed in nodes {
        push_ended(
            alloc,
            server,
            followed.node,
            &EXCHANGE_ENDS,
            &followed.exchanges,
            &mut samples,
        )?;
    }
    Ok(samples)
}

// The incarnations of the marks that are held.
fn incarnations<'a>(
    alloc: Global,
    server: &'a str,
    nodes: &[Followed<'a>],
) -> Result<Vec<Sample<'a>>, AllocError>
    ensures { IfOk result (λ samples. samples.items ≡ map (followed_sample server.now (λ f. Whole f.incarnation)) nodes.now) }
{
    let mut samples = Vec::new(alloc);
    for followed in nodes {
        let node = [("node", followed.node)];
        samples.push(sample(alloc, server, &node, Number::Whole(followed.incarnation))?)?;
    }
    Ok(samples)
}

// The counts of the marks that are held.
fn changes<'a>(
    alloc: Global,
    server: &'a str,
    nodes: &[Followed<'a>],
) -> Result<Vec<Sample<'a>>, AllocError>
    ensures { IfOk result (λ samples. samples.items ≡ map (followed_sample server.now (λ f. Whole f.changes)) nodes.now) }
{
    let mut samples = Vec::new(alloc);
    for followed in nodes {
        let node = [("node", followed.node)];
        samples.push(sample(alloc, server, &node, Number::Whole(followed.changes))?)?;
    }
    Ok(samples)
}

// When the nodes were heard.
fn heard<'a>(
    alloc: Global,
    server: &'a str,
    nodes: &[Followed<'a>],
) -> Result<Vec<Sample<'a>>, AllocError>
    ensures { IfOk result (λ samples. samples.items ≡ map (followed_sample server.now (λ f. Micros (min (1000 * f.heard) (2 ^ 64 - 1)))) nodes.now) }
{
    let mut samples = Vec::new(alloc);
    for followed in nodes {
        let node = [("node", followed.node)];
        samples.push(sample(
            alloc,
            server,
            &node,
            Number::Micros(followed.heard.saturating_mul(1_000)),
        )?)?;
    }
    Ok(samples)
}

// What a broker tells of the nodes that it follows.
pub(crate) fn broker_families<'a>(
    alloc: Global,
    server: &'a str,
    nodes: &[Followed<'a>],
) -> Result<Vec<Family<'a>>, AllocError>
    ensures { IfOk result (λ families. families.items ≡ broker_families server.now nodes.now) }
{
    let mut families = Vec::new(alloc);
    families.push(Family::new(
        "druid_cluster_turns_total",
        "Turns with a node that is followed, by how they ended.",
        Kind::Counter,
        turns(alloc, server, nodes)?,
    ))?;
    families.push(Family::new(
        "druid_cluster_exchanges_total",
        "Exchanges with a node, of turns and of queries, by how they ended.",
        Kind::Counter,
        exchanges(alloc, server, nodes)?,
    ))?;
    families.push(Family::new(
        "druid_cluster_followed_incarnation",
        "The incarnation of the mark that is held of a node, 0 where it was never synced.",
        Kind::Gauge,
        incarnations(alloc, server, nodes)?,
    ))?;
    families.push(Family::new(
        "druid_cluster_followed_changes",
        "The count of the mark that is held of a node.",
        Kind::Gauge,
        changes(alloc, server, nodes)?,
    ))?;
    families.push(Family::new(
        "druid_cluster_followed_heard_timestamp_seconds",
        "When a turn with a node last did not fail, in seconds since 1970; 0 where none has.",
        Kind::Gauge,
        heard(alloc, server, nodes)?,
    ))?;
    Ok(families)
}
