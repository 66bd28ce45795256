//! A run of events, one after another.
ghost use Rattle.std.specs.Prelude.{◌≡◌, ◌↔◌, ◌≤◌, ◌<◌, length, unwrap_or, Some, None, IfOk, IfErr, IfSome, OnOk, OnErr, IsErrOf, MatchOption, option_map, replicate, slice_get, vec_len, map, List, Option};
ghost use Rattle.druid_segment_descriptor.specs.Reply.{max_changes};
ghost use Rattle.druid_sync_pages.specs.Assembly.{Parts};
ghost use Rattle.druid_inventory.specs.Entry.{Entry, IsAnswerOf, max_nodes, fresh};
ghost use Rattle.druid_laws_world.specs.World.{IsInventoryOf};
ghost use Rattle.druid_laws_world.specs.Node.{AnswersIn, DeliversIn, ReportsEntry, ask_at, seed_mark, mark_of};
ghost use Rattle.druid_laws_world.specs.Run.{State, IsReached, Next, Reports, refusal, parts_at, with_packet, opening, newborn, node_name, node_names};
ghost use Rattle.druid_laws_world.specs.declared.event.Event.{Event as Happening};
ghost use Rattle.druid_laws_world.specs.declared.event.Event.TheVariants as events;

use crate::arrivals::Arrivals;
use crate::node::Node;
use crate::{AskKind, Event, Packet, SimFault};
use druid_inventory::{Inventory, InventoryFault};
use druid_segment_descriptor::{Ask, Change, Mark, NodeNo, Reply};
use druid_segment_id::{IdFault, Name};
use std::alloc::Global;
use std::marker::Model;

/// The most brokers.
pub const MAX_BROKERS: usize = 64;

/// Nodes, brokers, and the packets between them, after some events.
///
/// A contract sees the state of a run: all incarnations of the nodes with all their changes, every packet that was ever
/// put, the inventory of each broker, and the pages of each node that came to it. It is always a state that a run from the opening comes to, so that the laws of
/// all runs hold of it.
#[derive(Debug, Drop)]
pub struct Sim {
    nodes: Vec<Node>,
    packets: Vec<Packet>,
    brokers: Vec<Inventory>,
    assemblies: Vec<Arrivals>,
}

impl Model for Sim {
    ghost use Rattle.druid_laws_world.specs.Run.{State, IsReached};

    ghost Value = { State };

    ghost view = { λ a. record { world = a.nodes.items; packets = a.packets.items; brokers = a.brokers.items; assemblies = a.assemblies.items } };

    ghost invariant = { λ a. IsReached (record { world = a.nodes.items; packets = a.packets.items; brokers = a.brokers.items; assemblies = a.assemblies.items }) };
}

fn node_name(alloc: Global, node: usize) -> Result<Name, SimFault>
    requires { node < max_nodes }
    ensures ok { IfOk result (λ name. name ≡ node_name node) }
    ensures memory { IfErr result (λ fault. fault ≡ SimFault.Memory) }
{
    let text = format!(in alloc; "n{node}")?;
    match Name::new(alloc, &text) {
        Ok(name) => Ok(name),
        Err(IdFault::BadName) => unreachable!(),
        Err(_) => Err(SimFault::Memory),
    }
}

fn node_names(alloc: Global, nodes: usize) -> Result<Vec<Name>, SimFault>
    requires { nodes ≤ max_nodes }
    ensures ok { IfOk result (λ names. names.items ≡ node_names nodes) }
    ensures len { IfOk result (λ names. vec_len names ≡ nodes) }
    ensures memory { IfErr result (λ fault. fault ≡ SimFault.Memory) }
{
    let mut names = Vec::with_capacity(alloc, nodes)?;
    for node in 0..nodes {
        names.push(node_name(alloc, node)?)?;
    }
    Ok(names)
}

// That many nodes at their first start.
fn newborn_nodes(alloc: Global, nodes: usize, kept: usize) -> Result<Vec<Node>, SimFault>
    requires some { 1 ≤ kept }
    requires few { kept ≤ max_changes }
    ensures ok { IfOk result (λ made. made.items ≡ replicate nodes (newborn kept)) }
    ensures memory { IfErr result (λ fault. fault ≡ SimFault.Memory) }
{
    let mut made = Vec::with_capacity(alloc, nodes)?;
    for _node in 0..nodes {
        made.push(Node::newborn(alloc, kept)?)?;
    }
    Ok(made)
}

// The inventory of that many nodes, none of which was synced.
fn fresh_inventory(alloc: Global, nodes: usize) -> Result<Inventory, SimFault>
    requires some { 1 ≤ nodes }
    requires few { nodes ≤ max_nodes }
    ensures ok { IfOk result (λ inventory. inventory ≡ map fresh (node_names nodes)) }
    ensures memory { IfErr result (λ fault. fault ≡ SimFault.Memory) }
{
    let names = node_names(alloc, nodes)?;
    match Inventory::new(alloc, names) {
        Ok(inventory) => Ok(inventory),
        Err(InventoryFault::DoubledNode) => unreachable!(),
        Err(_) => Err(SimFault::Memory),
    }
}

// The inventories of that many brokers that were never synced.
fn fresh_inventories(
    alloc: Global,
    nodes: usize,
    brokers: usize,
) -> Result<Vec<Inventory>, SimFault>
    requires some { 1 ≤ nodes }
    requires few { nodes ≤ max_nodes }
    ensures ok { IfOk result (λ made. made.items ≡ replicate brokers (map fresh (node_names nodes))) }
    ensures memory { IfErr result (λ fault. fault ≡ SimFault.Memory) }
{
    let mut made = Vec::with_capacity(alloc, brokers)?;
    for _broker in 0..brokers {
        made.push(fresh_inventory(alloc, nodes)?)?;
    }
    Ok(made)
}

// No pages, of that many nodes at each of that many brokers.
fn no_arrivals(alloc: Global, nodes: usize, brokers: usize) -> Result<Vec<Arrivals>, SimFault>
    ensures ok { IfOk result (λ made. made.items ≡ replicate brokers (replicate nodes None)) }
    ensures memory { IfErr result (λ fault. fault ≡ SimFault.Memory) }
{
    let mut made = Vec::with_capacity(alloc, brokers)?;
    for _broker in 0..brokers {
        made.push(Arrivals::new(alloc, nodes)?)?;
    }
    Ok(made)
}

fn entry_of(inventory: &Inventory, node: NodeNo, ask: &Ask) -> Result<Reply, SimFault>
    requires { node < length inventory.now }
    ensures ok { IfOk result (IsAnswerOf inventory.now node ask.now) }
    ensures reported { IfErr result (ReportsEntry inventory.now node ask.now) }
{
    match inventory.entry_page(node, ask) {
        Ok(reply) => Ok(reply),
        Err(InventoryFault::NotSynced) => Err(SimFault::Refused),
        Err(InventoryFault::Memory) => Err(SimFault::Memory),
        Err(InventoryFault::UnknownNode | InventoryFault::DoubledNode) => unreachable!(),
    }
}

// What a peer asks for to get a page of what another knows up to a mark.
fn seed_ask(mark: Mark, page: u16) -> Ask
    ensures { result ≡ seed_mark mark page }
{
    if page == 0 {
        Ask::Whole
    } else {
        Ask::Page(mark, page)
    }
}

// What a broker asks that would ask this next, and to which pages of this mark came.
fn ask_of_kind(kind: AskKind, next: Ask, at: Option<Mark>) -> Option<Ask>
    ensures { result ≡ ask_at kind next at }
{
    match kind {
        AskKind::Next => Some(next),
        AskKind::Whole => Some(Ask::Whole),
        AskKind::Page(page) => match at {
            Some(at) => Some(Ask::Page(at, page)),
            None => None,
        },
    }
}

fn packet_at(packets: &Vec<Packet>, packet: usize) -> Option<&Packet>
    ensures { option_map (λ sent. sent.now) result ≡ slice_get packets.now.items packet }
{
    packets.get(packet)
}

// A node's reply to what is asked is put.
fn answer_in(
    nodes: &mut Vec<Node>,
    packets: &mut Vec<Packet>,
    broker: usize,
    node: NodeNo,
    ask: Ask,
) -> Result<(), SimFault>
    requires { node < length nodes.old.items }
    ensures ok { OnOk result
        (AnswersIn nodes.old.items packets.old.items broker node ask nodes.new.items packets.new.items) }
    ensures nodes { OnErr result (nodes.new.items ≡ nodes.old.items) }
    ensures packets { OnErr result (packets.new.items ≡ packets.old.items) }
    ensures memory { IfErr result (λ fault. fault ≡ SimFault.Memory) }
{
    packets.reserve(1)?;
    let reply = nodes[node as usize].since(&ask)?;
    match packets.push(Packet::Reply {
        broker,
        node,
        reply,
    }) {
        Ok(()) => Ok(()),
        Err(_) => unreachable!(),
    }
}

// A broker takes a reply of a node.
fn deliver_in(
    brokers: &mut Vec<Inventory>,
    assemblies: &mut Vec<Arrivals>,
    broker: usize,
    node: NodeNo,
    reply: &Reply,
) -> Result<(), SimFault>
    requires broker { broker < length brokers.old.items }
    requires assembly { broker < length assemblies.old.items }
    requires inventory { (inventory : List Entry) → slice_get brokers.old.items broker ≡ Some inventory → node < length inventory }
    requires pages { (pages : List (Option Parts)) → slice_get assemblies.old.items broker ≡ Some pages → node < length pages }
    ensures ok { OnOk result
        (DeliversIn brokers.old.items assemblies.old.items broker node reply.now brokers.new.items assemblies.new.items) }
    ensures brokers { OnErr result (brokers.new.items ≡ brokers.old.items) }
    ensures assemblies { OnErr result (assemblies.new.items ≡ assemblies.old.items) }
    ensures memory { IfErr result (λ fault. fault ≡ SimFault.Memory) }
{
    assemblies[broker].take(&mut brokers[broker], node, reply)
}

impl Sim {
    /// Nodes `n0`, `n1` and so on in their first incarnation, which keep the last `kept` of their
    /// changes, and brokers that were never synced.
    ///
    /// # Errors
    ///
    /// E9.
    pub fn new(alloc: Global, nodes: usize, brokers: usize, kept: usize) -> Result<Sim, SimFault>
        requires some_nodes { 1 ≤ nodes }
        requires few_nodes { nodes ≤ max_nodes }
        requires some_brokers { 1 ≤ brokers }
        requires few_brokers { brokers ≤ 64 }
        requires some_kept { 1 ≤ kept }
        requires few_kept { kept ≤ max_changes }
        ensures ok { IfOk result (λ sim. sim ≡ opening nodes brokers kept) }
        ensures memory { IfErr result (λ fault. fault ≡ SimFault.Memory) }
    {
        let made = newborn_nodes(alloc, nodes, kept)?;
        let inventories = fresh_inventories(alloc, nodes, brokers)?;
        let assemblies = no_arrivals(alloc, nodes, brokers)?;
        Ok(Sim {
            nodes: made,
            packets: Vec::new(alloc),
            brokers: inventories,
            assemblies,
        })
    }

    /// Makes the event happen. It takes no time in the number of events before it.
    ///
    /// # Errors
    ///
    /// E1; then E2; then E3; then E4, or E5 of an ask for a page; E9 last. Leaves all as it was.
    pub fn step(&mut self, event: Event) -> Result<(), SimFault>
        ensures ok { OnOk result (Next self.old event self.new) }
        ensures no_node { IsErrOf result SimFault.NoSuchNode ↔ (refusal self.old event ≡ Some SimFault.NoSuchNode) }
        ensures no_broker { IsErrOf result SimFault.NoSuchBroker ↔ (refusal self.old event ≡ Some SimFault.NoSuchBroker) }
        ensures no_packet { IsErrOf result SimFault.NoSuchPacket ↔ (refusal self.old event ≡ Some SimFault.NoSuchPacket) }
        ensures refused { IsErrOf result SimFault.Refused ↔ (refusal self.old event ≡ Some SimFault.Refused) }
        ensures no_assembly { IsErrOf result SimFault.NoAssembly ↔ (refusal self.old event ≡ Some SimFault.NoAssembly) }
        ensures memory { IsErrOf result SimFault.Memory → (new : State) × Next self.old event new }
        ensures unchanged { OnErr result (self.new ≡ self.old) }
    {
        self.happen(event)
    }

    // Makes the event happen.
    fn happen(&mut self, event: Event) -> Result<(), SimFault>
        ensures ok { OnOk result (Next self.old event self.new) }
        ensures reported { IfErr result (Reports self.old event) }
        ensures unchanged { OnErr result (self.new ≡ self.old) }
    {
        match event {
            Event::Record { node, change } => self.record(node, change),
            Event::Restart { node } => self.restart(node),
            Event::Ask { broker, node, kind } => self.ask(broker, node, kind),
            Event::Answer { packet } => self.answer(packet),
            Event::Seed {
                peer,
                broker,
                node,
                page,
            } => self.seed(peer, broker, node, page),
            Event::Deliver { packet } => self.deliver(packet),
            Event::Cut { packet } => self.cut(packet),
            Event::Fail { broker, node } => self.fail(broker, node),
        }
    }

    fn node(&self, node: NodeNo) -> Option<&Node>
        ensures value { option_map (λ at. at.now) result ≡ slice_get self.now.world node }
        ensures reached { IsReached self.now }
    {
        self.nodes.get(node as usize)
    }

    fn packet(&self, packet: usize) -> Option<&Packet>
        ensures value { option_map (λ sent. sent.now) result ≡ slice_get self.now.packets packet }
        ensures reached { IsReached self.now }
    {
        self.packets.get(packet)
    }

    // What a broker knows.
    fn inventory(&self, broker: usize) -> Option<&Inventory>
        ensures value { option_map (λ inventory. inventory.now) result ≡ slice_get self.now.brokers broker }
        ensures reached { IsReached self.now }
    {
        self.brokers.get(broker)
    }

    // The mark of the pages of a node that came to a broker.
    fn mark_of_pages(&self, broker: usize, node: NodeNo) -> Option<Mark>
        ensures { (pages : Option Parts) → parts_at self.now broker node ≡ Some pages → result ≡ mark_of pages }
    {
        match self.assemblies.get(broker) {
            Some(arrivals) => match arrivals.of(node) {
                Some(arrived) => arrived.at(),
                None => None,
            },
            None => None,
        }
    }

    // Records a change of a node.
    #[tactic(auto, unfolding(crate::specs::Run::refusal))]
    fn record(&mut self, node: NodeNo, change: Change) -> Result<(), SimFault>
        ensures ok { OnOk result (Next self.old (events.Record node change) self.new) }
        ensures reported { IfErr result (Reports self.old (events.Record node change)) }
        ensures unchanged { OnErr result (self.new ≡ self.old) }
    {
        let Some(at) = self.node(node) else {
            return Err(SimFault::NoSuchNode);
        };
        if !at.takes(&change) {
            return Err(SimFault::Refused);
        }
        self.nodes[node as usize].record(change)
    }

    // Restarts a node.
    #[tactic(auto, unfolding(crate::specs::Run::refusal))]
    fn restart(&mut self, node: NodeNo) -> Result<(), SimFault>
        ensures ok { OnOk result (Next self.old (events.Restart node) self.new) }
        ensures reported { IfErr result (Reports self.old (events.Restart node)) }
        ensures unchanged { OnErr result (self.new ≡ self.old) }
    {
        let Some(at) = self.node(node) else {
            return Err(SimFault::NoSuchNode);
        };
        if at.incarnation() == u64::MAX {
            return Err(SimFault::Refused);
        }
        self.nodes[node as usize].restart()
    }

    // Puts a packet, as some event does.
    fn put(&mut self, packet: Packet) -> Result<(), SimFault>
        requires { (event : Happening) × Next self.old event (with_packet self.old packet) }
        ensures ok { OnOk result (self.new ≡ with_packet self.old packet) }
        ensures memory { IfErr result (λ fault. fault ≡ SimFault.Memory) }
        ensures unchanged { OnErr result (self.new ≡ self.old) }
    {
        match self.packets.push(packet) {
            Ok(()) => Ok(()),
            Err(_) => Err(SimFault::Memory),
        }
    }

    // Puts what a broker asks a node.
    fn ask(&mut self, broker: usize, node: NodeNo, kind: AskKind) -> Result<(), SimFault>
        ensures ok { OnOk result (Next self.old (events.Ask broker node kind) self.new) }
        ensures reported { IfErr result (Reports self.old (events.Ask broker node kind)) }
        ensures unchanged { OnErr result (self.new ≡ self.old) }
    {
        match self.request(broker, node, kind) {
            Ok(packet) => self.put(packet),
            Err(fault) => Err(fault),
        }
    }

    // What a broker asks a node.
    #[tactic(auto, unfolding(crate::specs::Run::refusal))]
    fn request(&self, broker: usize, node: NodeNo, kind: AskKind) -> Result<Packet, SimFault>
        ensures ok { IfOk result (λ packet. Next self.now (events.Ask broker node kind) (with_packet self.now packet)) }
        ensures reported { IfErr result (Reports self.now (events.Ask broker node kind)) }
    {
        let Some(_) = self.node(node) else {
            return Err(SimFault::NoSuchNode);
        };
        let Some(inventory) = self.inventory(broker) else {
            return Err(SimFault::NoSuchBroker);
        };
        let Some(next) = inventory.next_ask(node) else {
            unreachable!();
        };
        match ask_of_kind(kind, next, self.mark_of_pages(broker, node)) {
            Some(ask) => Ok(Packet::Request { broker, node, ask }),
            None => Err(SimFault::NoAssembly),
        }
    }

    // Puts a node's reply to a request.
    #[tactic(auto, unfolding(crate::specs::Run::refusal))]
    fn answer(&mut self, packet: usize) -> Result<(), SimFault>
        ensures ok { OnOk result (Next self.old (events.Answer packet) self.new) }
        ensures reported { IfErr result (Reports self.old (events.Answer packet)) }
        ensures unchanged { OnErr result (self.new ≡ self.old) }
    {
        let Some(Packet::Request { broker, node, ask }) = packet_at(&self.packets, packet) else {
            return Err(SimFault::NoSuchPacket);
        };
        let broker = *broker;
        let node = *node;
        let ask = *ask;
        answer_in(&mut self.nodes, &mut self.packets, broker, node, ask)
    }

    // Puts what a broker has of a node as a reply for another broker.
    fn seed(&mut self, peer: usize, broker: usize, node: NodeNo, page: u16) -> Result<(), SimFault>
        ensures ok { OnOk result (Next self.old (events.Seed peer broker node page) self.new) }
        ensures reported { IfErr result (Reports self.old (events.Seed peer broker node page)) }
        ensures unchanged { OnErr result (self.new ≡ self.old) }
    {
        match self.entry(peer, broker, node, page) {
            Ok(entry) => self.put(entry),
            Err(fault) => Err(fault),
        }
    }

    // What a broker has of a node, as a reply for another broker.
    #[tactic(auto, unfolding(crate::specs::Run::refusal))]
    fn entry(&self, peer: usize, broker: usize, node: NodeNo, page: u16) -> Result<Packet, SimFault>
        ensures ok { IfOk result (λ packet. Next self.now (events.Seed peer broker node page) (with_packet self.now packet)) }
        ensures reported { IfErr result (Reports self.now (events.Seed peer broker node page)) }
    {
        let Some(_) = self.node(node) else {
            return Err(SimFault::NoSuchNode);
        };
        let Some(inventory) = self.inventory(peer) else {
            return Err(SimFault::NoSuchBroker);
        };
        let Some(_) = self.inventory(broker) else {
            return Err(SimFault::NoSuchBroker);
        };
        let Some(mark) = inventory.mark(node) else {
            unreachable!();
        };
        match entry_of(inventory, node, &seed_ask(mark, page)) {
            Ok(reply) => Ok(Packet::Reply {
                broker,
                node,
                reply,
            }),
            Err(fault) => Err(fault),
        }
    }

    // The broker takes a reply.
    #[tactic(auto, unfolding(crate::specs::Run::refusal))]
    fn deliver(&mut self, packet: usize) -> Result<(), SimFault>
        ensures ok { OnOk result (Next self.old (events.Deliver packet) self.new) }
        ensures reported { IfErr result (Reports self.old (events.Deliver packet)) }
        ensures unchanged { OnErr result (self.new ≡ self.old) }
    {
        let Some(
            Packet::Reply {
                broker,
                node,
                reply,
            },
        ) = packet_at(&self.packets, packet)
        else {
            return Err(SimFault::NoSuchPacket);
        };
        deliver_in(
            &mut self.brokers,
            &mut self.assemblies,
            *broker,
            *node,
            reply,
        )
    }

    // A packet is cut off on its way.
    #[tactic(auto, unfolding(crate::specs::Run::refusal))]
    fn cut(&self, packet: usize) -> Result<(), SimFault>
        ensures ok { OnOk result (Next self.now (events.Cut packet) self.now) }
        ensures reported { IfErr result (Reports self.now (events.Cut packet)) }
    {
        let Some(_) = self.packet(packet) else {
            return Err(SimFault::NoSuchPacket);
        };
        Ok(())
    }

    // A broker does not reach a node.
    #[tactic(auto, unfolding(crate::specs::Run::refusal))]
    fn fail(&self, broker: usize, node: NodeNo) -> Result<(), SimFault>
        ensures ok { OnOk result (Next self.now (events.Fail broker node) self.now) }
        ensures reported { IfErr result (Reports self.now (events.Fail broker node)) }
    {
        let Some(_) = self.node(node) else {
            return Err(SimFault::NoSuchNode);
        };
        let Some(_) = self.inventory(broker) else {
            return Err(SimFault::NoSuchBroker);
        };
        Ok(())
    }

    /// What a broker knows, which is what each node serves at its mark. The timelines in it are
    /// over these sets, by `Inventory::timeline`.
    ///
    /// # Errors
    ///
    /// None where there is no such broker.
    pub fn broker(&self, broker: usize) -> Option<&Inventory>
        ensures value { option_map (λ inventory. inventory.now) result ≡ slice_get self.now.brokers broker }
        ensures true_of_the_world { IfSome result (λ inventory. IsInventoryOf self.now.world inventory.now) }
        ensures reached { IsReached self.now }
    {
        self.inventory(broker)
    }
}
