//! Links to the nodes of a config.
ghost use Rattle.std.specs.Prelude.{◌≡◌, ◌≤◌, IfOk, length, vec_len};
ghost use Rattle.std.specs.Arc.{arc_value};
ghost use Rattle.druid_inventory.specs.Entry.{max_nodes};
ghost use Rattle.druid_serve.specs.Links.{IsFresh, AreFresh};

use druid_link::TcpLink;
use druid_link_health::{Asker, Health, MonitoredLink};
use druid_segment_descriptor::NodeNo;
use druid_serve_config::NodeConfig;
use std::alloc::{AllocError, Global};
use std::marker::Brand;
use std::net::Net;
use std::sync::Arc;
use std::time::{Clock, Duration};

/// The nodes of a cluster. Threads know what they begin with by its type alone, so the list is a matter of types.
pub(crate) trait NodeList {
    ghost use Rattle.std.specs.Prelude.{List};
    ghost use Rattle.druid_serve_config.specs.Configs.{Node};

    ghost nodes: { List Node };
}

// No cluster has this list: a program picks it at the call that starts its brokers.
impl NodeList for Brand {
    ghost use Rattle.std.specs.Prelude.{[]};

    ghost nodes = { [] };
}

/// A link to a node, whose exchanges are noted.
pub(crate) type NodeLink<R> = MonitoredLink<TcpLink<R>, R>;

// A link to the node with that number, over which nothing was exchanged, for who asks over it: its exchanges are noted there, and may
// take as long as its patience.
pub(crate) fn link_to<R: Net + Clock + Copy>(
    rt: &R,
    alloc: Global,
    health: &Arc<Health, Global>,
    number: NodeNo,
    node: &NodeConfig,
    asker: Asker,
) -> Result<NodeLink<R>, AllocError>
    ensures { IfOk result (IsFresh (arc_value health.now).patience number node.now) }
{
    let link = TcpLink::new(*rt, String::from_str(alloc, node.address())?).with_limit(
        Duration::from_millis(health.patience()),
    );
    let health = Arc::try_clone(health)?;
    Ok(MonitoredLink::new(link, *rt, number, asker, health))
}

// A link to each of these nodes, in their order, for queries.
#[tactic(auto, using(crate::proofs::LinkLemmas::link_at, crate::proofs::LinkLemmas::one_link))]
pub(crate) fn links_to<R: Net + Clock + Copy>(
    rt: &R,
    alloc: Global,
    health: &Arc<Health, Global>,
    nodes: &[NodeConfig],
) -> Result<Vec<NodeLink<R>>, AllocError>
    requires { length nodes.now ≤ max_nodes }
    ensures { IfOk result (λ links. AreFresh (arc_value health.now).patience nodes.now links.items) }
{
    let mut links = Vec::with_capacity(alloc, nodes.len())?;
    for place in 0..nodes.len() {
        links.push(link_to(
            rt,
            alloc,
            health,
            place as NodeNo,
            &nodes[place],
            Asker::Query,
        )?)?;
    }
    Ok(links)
}
