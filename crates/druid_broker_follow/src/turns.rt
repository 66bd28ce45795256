//! Turns: what a broker asks of a node or of another broker, and what it makes of the answer.
ghost use Rattle.std.specs.Prelude.{◌≡◌, ◌↔◌, ◌<◌, IsTrue, IfOk, IfErr, OnErr, Ok, length, string_bytes};
ghost use Rattle.druid_segment_descriptor.specs.declared.change.Ask.TheVariants.{Whole};
ghost use Rattle.druid_broker_follow.specs.Turns.{entry_request, entry_target, IsAsked, StartsAgain, IsFetched, IsFetchedFrom, Publishes, TakesTurn, FailsTurn};
ghost use Rattle.druid_broker_follow.specs.Refused.{RefusesTurn};

use crate::TurnFault;
use crate::exchange::ask_once;
use crate::pages::{ask_all, follow_pages};
use druid_inventory::{Inventory, Outcome};
use druid_inventory_views::{Publication, PublishFault, Publisher, Receipt};
use druid_link::Link;
use druid_segment_descriptor::{Ask, Body, NodeNo, Reply};
use std::alloc::{AllocError, Global};
use std::sync::Wait;

// Whether the node has to be asked for all, once it gave this reply.
fn starts_again(ask: &Ask, reply: &Reply) -> bool
    ensures { IsTrue result ↔ StartsAgain ask.now (Ok reply.now) }
{
    match ask {
        Ask::Whole => false,
        Ask::Since(_) => match reply.body() {
            Body::Delta { .. } => false,
            Body::Snapshot { .. } => false,
            Body::Page { .. } => false,
            Body::Reset { .. } => true,
        },
        Ask::Page(..) => false,
    }
}

// Asks a node, and for all where the reply says to start again.
fn ask_node<L: Link>(alloc: Global, ask: &Ask, link: &mut L) -> Result<Reply, TurnFault>
    ensures { IsFetched L.exchanges ask.now link.old link.new result }
{
    let path = "/druid-internal/v1/segments";
    let reply = match ask_once(alloc, path, ask, link) {
        Ok(reply) => reply,
        Err(fault) => return Err(fault),
    };
    if starts_again(ask, &reply) {
        return ask_all(alloc, path, link);
    }
    follow_pages(alloc, path, reply, link)
}

/// Asks a node for what changed after its mark in the inventory, or for all where it was never
/// synced. A reset is followed: all is asked for then, once, in the same call. Page 0 of a snapshot
/// is followed by its other pages, in order, and the snapshot that they are is given; so there are
/// at most 11 exchanges.
///
/// # Errors
///
/// Of each exchange K1 where the link fails or what comes back is no response, then K4, then K2
/// with Y1 to Y5 or Y7; K5; K3 with A7; K9, which may come in place of K2. The link has made its
/// exchanges, and none where K9 came for the first request.
pub fn fetch<L: Link>(
    alloc: Global,
    inventory: &Inventory,
    node: NodeNo,
    link: &mut L,
) -> Result<Reply, TurnFault>
    requires { node < length inventory.now }
    ensures { IsFetchedFrom L.exchanges inventory.now node link.old link.new result }
{
    let Some(ask) = inventory.next_ask(node) else {
        unreachable!()
    };
    ask_node(alloc, &ask, link)
}

fn entry_target(alloc: Global, node: NodeNo) -> Result<String, AllocError>
    ensures { IfOk result (λ text. string_bytes text ≡ entry_target node) }
{
    format!(in alloc; "/druid-internal/v1/inventory/{node}")
}

/// Asks a peer broker for what it knows of a node, `GET /druid-internal/v1/inventory/{node}`. Pages
/// are followed as in `fetch`, in at most 10 exchanges.
///
/// # Errors
///
/// Those of `fetch`.
pub fn fetch_entry<L: Link>(alloc: Global, peer: &mut L, node: NodeNo) -> Result<Reply, TurnFault>
    ensures { IsAsked L.exchanges (entry_request node) Whole peer.old peer.new result }
{
    match entry_target(alloc, node) {
        Ok(path) => ask_all(alloc, &path, peer),
        Err(_) => Err(TurnFault::Memory),
    }
}

// Publishes a reply of a node.
#[tactic(auto, using(crate::proofs::TurnLemmas::refused_at))]
pub(crate) fn publish_reply<J: Publication, R: Wait + Drop>(
    node: NodeNo,
    reply: &Reply,
    publisher: &mut Publisher<J, R>,
) -> Result<(Outcome, Receipt<J>), TurnFault>
    requires { node < length publisher.old.inventory }
    ensures ok { IfOk result (λ r. Publishes publisher.old node reply.now r.0 publisher.new) }
    ensures receipt { IfOk result (λ r. r.1 ≡ publisher.new.published) }
    ensures err { IfErr result (RefusesTurn publisher.old.inventory node reply.now) }
    ensures unchanged { OnErr result (publisher.new ≡ publisher.old) }
{
    match publisher.publish(node, reply) {
        Ok(published) => Ok(published),
        Err(PublishFault::Apply(fault)) => Err(TurnFault::Apply(fault)),
        Err(PublishFault::Memory) => Err(TurnFault::Memory),
        Err(PublishFault::NoReading) => unreachable!(),
    }
}

// Asks a node for what changed after its mark in what is published.
fn fetch_change<J: Publication, R: Wait + Drop, L: Link>(
    alloc: Global,
    publisher: &Publisher<J, R>,
    node: NodeNo,
    link: &mut L,
) -> Result<Reply, TurnFault>
    requires { node < length publisher.now.inventory }
    ensures { IsFetchedFrom L.exchanges publisher.now.inventory node link.old link.new result }
{
    fetch(alloc, publisher.inventory(), node, link)
}

/// Fetches what changed of a node, page by page where it is sent so, in at most 11 exchanges, and
/// publishes it; the receipt tells what is published then.
///
/// # Errors
///
/// Those of `fetch`; then K3 with A3, A2, A4, A6 or A5; K9 last. Leaves what is published; the link
/// as `fetch` does.
pub fn sync_turn<J: Publication, R: Wait + Drop, L: Link>(
    alloc: Global,
    node: NodeNo,
    link: &mut L,
    publisher: &mut Publisher<J, R>,
) -> Result<(Outcome, Receipt<J>), TurnFault>
    requires { node < length publisher.old.inventory }
    ensures ok { IfOk result (λ r. TakesTurn (IsFetchedFrom L.exchanges publisher.old.inventory node link.old link.new)
        publisher.old node r.0 publisher.new) }
    ensures receipt { IfOk result (λ r. r.1 ≡ publisher.new.published) }
    ensures err { IfErr result (FailsTurn (IsFetchedFrom L.exchanges publisher.old.inventory node link.old link.new) publisher.old.inventory node) }
    ensures unchanged { OnErr result (publisher.new ≡ publisher.old) }
{
    match fetch_change(alloc, publisher, node, link) {
        Ok(reply) => publish_reply(node, &reply, publisher),
        Err(fault) => Err(fault),
    }
}

/// Fetches what a peer broker knows of a node, page by page where it is sent so, in at most 10
/// exchanges, and publishes it as a reply of that node.
///
/// # Errors
///
/// Those of `sync_turn`.
pub fn seed_turn<J: Publication, R: Wait + Drop, L: Link>(
    alloc: Global,
    node: NodeNo,
    peer: &mut L,
    publisher: &mut Publisher<J, R>,
) -> Result<(Outcome, Receipt<J>), TurnFault>
    requires { node < length publisher.old.inventory }
    ensures ok { IfOk result (λ r. TakesTurn (IsAsked L.exchanges (entry_request node) Whole peer.old peer.new)
        publisher.old node r.0 publisher.new) }
    ensures receipt { IfOk result (λ r. r.1 ≡ publisher.new.published) }
    ensures err { IfErr result (FailsTurn (IsAsked L.exchanges (entry_request node) Whole peer.old peer.new) publisher.old.inventory node) }
    ensures unchanged { OnErr result (publisher.new ≡ publisher.old) }
{
    match fetch_entry(alloc, peer, node) {
        Ok(reply) => publish_reply(node, &reply, publisher),
        Err(fault) => Err(fault),
    }
}
