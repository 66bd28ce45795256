//! The pages of metrics that servers answer.
ghost use Rattle.std.specs.Prelude.{◌≡◌, IfOk};
ghost use Rattle.druid_telemetry_metrics.specs.Families.{server_page, node_page, broker_page};

use crate::families::{
    Followed, NodeState, broker_families, node_families, server_families, server_histogram,
};
use crate::family::Family;
use crate::meter::Readings;
use crate::text::render;
use std::alloc::{AllocError, Global};

// The page of a server, with families of its own.
fn page<'a>(
    alloc: Global,
    server: &'a str,
    readings: &Readings,
    own: Vec<Family<'a>>,
) -> Result<Vec<u8>, AllocError>
    ensures { IfOk result (λ text. text.items ≡ server_page server.now readings.now own.entry.items) }
{
    let mut families = server_families(alloc, server, readings)?;
    let mut own = own;
    families.append(&mut own)?;
    let histogram = server_histogram(alloc, server, readings)?;
    render(alloc, &families, &[histogram])
}

/// The page of a node, by what it counted and its state, in the text of [`render`]: what a server
/// tells of its connections, `druid_cluster_connections_total`, `druid_cluster_answers_total` by
/// route and status (of those that are not 0) and `druid_cluster_written_bytes_total`; then
/// `druid_cluster_node_incarnation`, `_node_changes`, `_node_segments`, `_node_rows` and
/// `_node_file_bytes`; then `druid_cluster_answer_seconds`, a histogram.
///
/// # Errors
///
/// Out of memory.
pub fn node_page(
    alloc: Global,
    server: &str,
    readings: &Readings,
    state: &NodeState,
) -> Result<Vec<u8>, AllocError>
    ensures { IfOk result (λ text. text.items ≡ node_page server.now readings.now state.now) }
{
    let own = node_families(alloc, server, state)?;
    page(alloc, server, readings, own)
}

/// The page of a broker, by what it counted and the nodes that it follows, as that of a node is;
/// its own families are `druid_cluster_turns_total` and `druid_cluster_exchanges_total` by how they
/// ended (of those that are not 0), `druid_cluster_followed_incarnation`, `_followed_changes` and
/// `_followed_heard_timestamp_seconds`.
///
/// # Errors
///
/// Out of memory.
pub fn broker_page<'a>(
    alloc: Global,
    server: &'a str,
    readings: &Readings,
    nodes: &[Followed<'a>],
) -> Result<Vec<u8>, AllocError>
    ensures { IfOk result (λ text. text.items ≡ broker_page server.now readings.now nodes.now) }
{
    let own = broker_families(alloc, server, nodes)?;
    page(alloc, server, readings, own)
}
