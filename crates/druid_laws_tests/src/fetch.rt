//! A fetch over a socket.
ghost use Rattle.std.specs.Prelude.{◌≡◌, ◌<◌, ◌++◌, List, Some, IfOk, length, slice_get};
ghost use Rattle.druid_inventory.specs.Entry.{Entry, ask_of};
ghost use Rattle.druid_link.specs.Exchanged.{Exchanged};
ghost use Rattle.druid_broker_follow.specs.Turns.{ask_request};
ghost use Rattle.druid_laws_world.specs.World.{Life, IsHonest, IsLife, eras_of};
ghost use Rattle.druid_laws_headline.specs.Headline.{HasText, HasWords, WereHonest};

use druid_broker_follow::{TurnFault, fetch};
use druid_inventory::Inventory;
use druid_laws_headline::{fetched_replies_are_honest, kept_exchanges_are_of_the_call};
use druid_link::TcpLink;
use druid_segment_descriptor::{NodeNo, Reply};
use std::alloc::Global;
use std::net::Net;
use std::time::Clock;

/// Fetches what changed of a node over a socket. What comes is honest in any life of the node in which the exchanges of this call were
/// honest, which the link keeps.
pub fn fetch_over_socket<N: Net + Clock>(
    alloc: Global,
    inventory: &Inventory,
    node: NodeNo,
    link: &mut TcpLink<N>,
) -> Result<Reply, TurnFault>
    requires { node < length inventory.now }
    ensures { IfOk result (λ reply. (made : List Exchanged) × (link.new.made ≡ made ++ link.old.made)
        × ((life : Life) (entry : Entry) → IsLife life → HasWords life → slice_get inventory.now node ≡ Some entry
        → HasText (ask_of entry.mark) → WereHonest ask_request life made → IsHonest (eras_of life) reply)) }
{
    kept_exchanges_are_of_the_call();
    fetched_replies_are_honest::<TcpLink<N>>();
    fetch(alloc, inventory, node, link)
}
