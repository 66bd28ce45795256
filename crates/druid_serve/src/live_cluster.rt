//! A cluster without an end.
ghost use Rattle.std.specs.Prelude.{◌≡◌, OnOk};

use druid_serve_base::{ClusterFault, Stop};
use druid_serve_config::{BrokerConfig, Config, NodeConfig, Part};
use std::alloc::Global;
use std::io::Write;
use std::sync::Wait;
use std::time::{Clock, Duration};
use std::{io, thread};

// How long the thread rests that has nothing left to do, in seconds, before it rests again.
const IDLE_SECONDS: u64 = 3_600;

// Says where a node listens, and which folder it serves.
fn say_node<E: Write>(node: &NodeConfig, errors: &mut E) -> io::Result<()> {
    let (name, address, folder) = (node.name().as_str(), node.listen(), node.folder());
    writeln!(
        errors,
        "node {name}: listens on {address}, serves the folder {folder}"
    )
}

// Says where a broker listens, and how many nodes it asks.
fn say_broker<E: Write>(broker: &BrokerConfig, nodes: usize, errors: &mut E) -> io::Result<()> {
    let address = broker.listen();
    writeln!(errors, "broker: listens on {address}, asks {nodes} nodes")
}

// Says it of each node of a part.
fn say_nodes<E: Write>(nodes: &[NodeConfig], part: &Part<'_>, errors: &mut E) -> io::Result<()> {
    for node in nodes {
        if part.has_node(node) {
            say_node(node, errors)?;
        }
    }
    Ok(())
}

// Says it of each broker of a part, all of which ask so many nodes.
fn say_brokers<E: Write>(
    brokers: &[BrokerConfig],
    part: &Part<'_>,
    nodes: usize,
    errors: &mut E,
) -> io::Result<()> {
    for place in 0..brokers.len() {
        if part.has_broker(place) {
            say_broker(&brokers[place], nodes, errors)?;
        }
    }
    Ok(())
}

// Says where the servers of a part listen and what they serve, a line each.
fn say_all<E: Write>(config: &Config, part: &Part<'_>, errors: &mut E) -> io::Result<()> {
    say_nodes(config.nodes(), part, errors)?;
    say_brokers(config.brokers(), part, config.nodes().len(), errors)?;
    errors.flush()
}

// Serves until the program is ended.
fn rest_for_ever<R: Wait + Clock>(rt: &R)
    ensures { ⊥ }
{
    for _ in rt.forever() {
        thread::sleep(rt, Duration::from_secs(IDLE_SECONDS));
    }
    unreachable!()
}

/// Says where a part of a cluster that does not end listens, once what was printed is there, and serves it until the program is ended: so it
/// returns only where the output is not flushed, and then nothing was said.
pub(crate) fn serve_on<R: Wait + Clock, W: Write, E: Write>(
    rt: &R,
    alloc: Global,
    config: &Config,
    part: &Part<'_>,
    out: &mut W,
    errors: &mut E,
) -> Result<(), Stop<ClusterFault>>
    ensures never { OnOk result ⊥ }
    ensures quiet { E.contents errors.new ≡ E.contents errors.old }
{
    if let Err(error) = out.flush() {
        return Err(Stop::at_output(alloc, &error));
    }
    // A cluster serves whether or not anybody reads where it listens.
    drop(say_all(config, part, errors));
    rest_for_ever(rt);
    unreachable!()
}
