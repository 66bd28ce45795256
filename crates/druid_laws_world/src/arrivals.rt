//! The pages of nodes that came to a broker.
ghost use Rattle.std.specs.Prelude.{◌≡◌, ◌↔◌, ◌<◌, Option, None, Some, IsTrue, length, replicate, option_map, slice_get, IfOk, IfErr, IfSome, OnOk, OnErr};
ghost use Rattle.druid_sync_pages.specs.Assembly.{Parts};
ghost use Rattle.druid_inventory.specs.Assembly.{IsPageReply, OfPage, TakesReply};
ghost use Rattle.druid_laws_world.specs.Run.{Applies, AppliesGiven, Delivers, TakesPage};
ghost use Rattle.druid_laws_world.specs.Node.{DeliversAt, GivesOrRefuses, mark_of, later_mark};

use crate::SimFault;
use druid_inventory::{ApplyFault, Assembly, Inventory};
use druid_segment_descriptor::{Body, Mark, NodeNo, Reply};
use std::alloc::{AllocError, Global};
use std::marker::Model;

// The mark of a page.
fn mark_of_page(reply: &Reply) -> Mark
    requires { IsPageReply reply.now }
    ensures { OfPage reply.now (λ p. result ≡ p.at) }
{
    match reply.body() {
        Body::Page { at, .. } => *at,
        Body::Delta { .. } => unreachable!(),
        Body::Snapshot { .. } => unreachable!(),
        Body::Reset { .. } => unreachable!(),
    }
}

fn is_page(reply: &Reply) -> bool
    ensures { IsTrue result ↔ IsPageReply reply.now }
{
    match reply.body() {
        Body::Page { .. } => true,
        Body::Delta { .. } => false,
        Body::Snapshot { .. } => false,
        Body::Reset { .. } => false,
    }
}

// Applies a reply of a node. Where it is refused, the inventory stays.
fn apply_to(inventory: &mut Inventory, node: NodeNo, reply: &Reply) -> Result<(), SimFault>
    requires { node < length inventory.old }
    ensures ok { OnOk result (Applies inventory.old node reply.now inventory.new) }
    ensures unchanged { OnErr result (inventory.new ≡ inventory.old) }
    ensures memory { IfErr result (λ fault. fault ≡ SimFault.Memory) }
{
    match inventory.apply(node, reply) {
        Ok((after, _)) => {
            *inventory = after;
            Ok(())
        }
        Err(ApplyFault::Memory) => Err(SimFault::Memory),
        Err(_) => Ok(()),
    }
}

// The later of the mark of the pages that came, if any did, and that of a page.
fn later(at: Option<Mark>, mark: Mark) -> Option<Mark>
    ensures { result ≡ later_mark at mark }
{
    match at {
        Some(at) if mark < at => Some(at),
        _ => Some(mark),
    }
}

// The pages of a node that came, and their mark.
#[derive(Debug, Drop)]
struct Marked {
    pages: Assembly,
    at: Option<Mark>,
}

impl Model for Marked {
    ghost Value = { Option Parts };

    ghost view = { λ a. a.pages };

    ghost invariant = { λ a. a.at ≡ mark_of a.pages };
}

impl Clone for Marked {
    ghost is_clone = { λ marked copy. copy ≡ marked };

    fn clone(&self) -> Result<Marked, AllocError> {
        Ok(Marked {
            pages: self.pages.clone()?,
            at: self.at,
        })
    }
}

impl Marked {
    // None.
    fn new(alloc: Global) -> Marked
        ensures { result ≡ None }
    {
        Marked {
            pages: Assembly::new(alloc),
            at: None,
        }
    }

    fn at(&self) -> Option<Mark>
        ensures { result ≡ mark_of self.now }
    {
        self.at
    }

    // Takes a page, and gives the snapshot once all have come. None where it is refused, and then nothing changes.
    fn take(&mut self, reply: &Reply) -> Result<Option<Option<Reply>>, SimFault>
        requires { IsPageReply reply.now }
        ensures ok { IfOk result (λ given. GivesOrRefuses self.old reply.now given self.new) }
        ensures unchanged { OnErr result (self.new ≡ self.old) }
        ensures memory { IfErr result (λ fault. fault ≡ SimFault.Memory) }
    {
        match self.pages.take(reply) {
            Ok(Some(snapshot)) => {
                self.at = None;
                Ok(Some(Some(snapshot)))
            }
            Ok(None) => {
                self.at = later(self.at, mark_of_page(reply));
                Ok(Some(None))
            }
            Err(ApplyFault::Memory) => Err(SimFault::Memory),
            Err(_) => Ok(None),
        }
    }
}

// Takes a page that gives nothing, which another copy of the pages has taken.
fn take_again(pages: &mut Marked, reply: &Reply) -> Result<(), SimFault>
    requires page { IsPageReply reply.now }
    requires takes { (left : Option Parts) × TakesReply pages.old reply.now None left }
    ensures ok { OnOk result (TakesReply pages.old reply.now None pages.new) }
    ensures unchanged { OnErr result (pages.new ≡ pages.old) }
    ensures memory { IfErr result (λ fault. fault ≡ SimFault.Memory) }
{
    match pages.take(reply) {
        Ok(_) => Ok(()),
        Err(fault) => Err(fault),
    }
}

// Applies what a page gave where another copy of the pages has taken it, or takes it where it gave nothing.
fn settle(
    alloc: Global,
    pages: &mut Marked,
    inventory: &mut Inventory,
    node: NodeNo,
    reply: &Reply,
    given: &Option<Reply>,
) -> Result<(), SimFault>
    requires page { IsPageReply reply.now }
    requires node { node < length inventory.old }
    requires takes { (left : Option Parts) × TakesReply pages.old reply.now given.now left }
    ensures takes { OnOk result (TakesReply pages.old reply.now given.now pages.new) }
    ensures applies { OnOk result (AppliesGiven inventory.old node given.now inventory.new) }
    ensures pages { OnErr result (pages.new ≡ pages.old) }
    ensures inventory { OnErr result (inventory.new ≡ inventory.old) }
    ensures memory { IfErr result (λ fault. fault ≡ SimFault.Memory) }
{
    match given {
        Some(snapshot) => {
            apply_to(inventory, node, snapshot)?;
            *pages = Marked::new(alloc);
            Ok(())
        }
        None => take_again(pages, reply),
    }
}

// Takes a page, the spare copy first, and applies what the pages give once all have come. Where
// memory runs out, the spare may have taken it.
fn take_with(
    alloc: Global,
    pages: &mut Marked,
    spare: &mut Marked,
    inventory: &mut Inventory,
    node: NodeNo,
    reply: &Reply,
) -> Result<(), SimFault>
    requires page { IsPageReply reply.now }
    requires node { node < length inventory.old }
    requires alike { spare.old ≡ pages.old }
    ensures ok { OnOk result (TakesPage inventory.old pages.old node reply.now inventory.new pages.new) }
    ensures alike { OnOk result (spare.new ≡ pages.new) }
    ensures pages { OnErr result (pages.new ≡ pages.old) }
    ensures inventory { OnErr result (inventory.new ≡ inventory.old) }
    ensures memory { IfErr result (λ fault. fault ≡ SimFault.Memory) }
{
    match spare.take(reply)? {
        Some(given) => settle(alloc, pages, inventory, node, reply, &given),
        None => Ok(()),
    }
}

// The pages of a node that came to a broker, and a spare copy, which takes each page first: a page
// counts once nothing can fail any more. Where memory ran out in between there is no spare, and
// the next page makes one.
#[derive(Debug, Drop)]
pub(crate) struct Arrived {
    alloc: Global,
    pages: Marked,
    spare: Option<Marked>,
}

impl Model for Arrived {
    ghost Value = { Option Parts };

    ghost view = { λ a. a.pages };

    ghost invariant = { λ a. IfSome a.spare (λ spare. spare ≡ a.pages) };
}

// Takes a page, and applies what the pages give once all have come.
fn take_in(
    alloc: Global,
    pages: &mut Marked,
    spare: &mut Option<Marked>,
    inventory: &mut Inventory,
    node: NodeNo,
    reply: &Reply,
) -> Result<(), SimFault>
    requires page { IsPageReply reply.now }
    requires node { node < length inventory.old }
    requires alike { IfSome spare.old (λ spare. spare ≡ pages.old) }
    ensures ok { OnOk result (TakesPage inventory.old pages.old node reply.now inventory.new pages.new) }
    ensures alike { IfSome spare.new (λ spare. spare ≡ pages.new) }
    ensures pages { OnErr result (pages.new ≡ pages.old) }
    ensures inventory { OnErr result (inventory.new ≡ inventory.old) }
    ensures memory { IfErr result (λ fault. fault ≡ SimFault.Memory) }
{
    let mut copy = match spare.take() {
        Some(copy) => copy,
        None => pages.clone()?,
    };
    take_with(alloc, pages, &mut copy, inventory, node, reply)?;
    *spare = Some(copy);
    Ok(())
}

impl Arrived {
    // None.
    pub(crate) fn new(alloc: Global) -> Arrived
        ensures { result ≡ None }
    {
        Arrived {
            alloc,
            pages: Marked::new(alloc),
            spare: None,
        }
    }

    // Their mark.
    pub(crate) fn at(&self) -> Option<Mark>
        ensures { result ≡ mark_of self.now }
    {
        self.pages.at()
    }

    // Takes a page, and applies what the pages give once all have come.
    fn take_page(
        &mut self,
        inventory: &mut Inventory,
        node: NodeNo,
        reply: &Reply,
    ) -> Result<(), SimFault>
        requires page { IsPageReply reply.now }
        requires node { node < length inventory.old }
        ensures ok { OnOk result (TakesPage inventory.old self.old node reply.now inventory.new self.new) }
        ensures unchanged { OnErr result (self.new ≡ self.old) }
        ensures inventory { OnErr result (inventory.new ≡ inventory.old) }
        ensures memory { IfErr result (λ fault. fault ≡ SimFault.Memory) }
    {
        take_in(
            self.alloc,
            &mut self.pages,
            &mut self.spare,
            inventory,
            node,
            reply,
        )
    }

    // Takes a reply of the node: a page is put to those that came, and another one is applied.
    fn take(
        &mut self,
        inventory: &mut Inventory,
        node: NodeNo,
        reply: &Reply,
    ) -> Result<(), SimFault>
        requires { node < length inventory.old }
        ensures ok { OnOk result (Delivers inventory.old self.old node reply.now inventory.new self.new) }
        ensures unchanged { OnErr result (self.new ≡ self.old) }
        ensures inventory { OnErr result (inventory.new ≡ inventory.old) }
        ensures memory { IfErr result (λ fault. fault ≡ SimFault.Memory) }
    {
        if is_page(reply) {
            return self.take_page(inventory, node, reply);
        }
        apply_to(inventory, node, reply)
    }
}

// The pages of each node that came to a broker.
#[derive(Debug, Drop)]
pub(crate) struct Arrivals {
    nodes: Vec<Arrived>,
}

impl Model for Arrivals {
    ghost use Rattle.std.specs.Prelude.{List, Option};
    ghost use Rattle.druid_sync_pages.specs.Assembly.{Parts};

    ghost Value = { List (Option Parts) };

    ghost view = { λ a. a.nodes.items };
}

// None of so many nodes.
fn none_arrived(alloc: Global, nodes: usize) -> Result<Vec<Arrived>, SimFault>
    ensures ok { IfOk result (λ made. made.items ≡ replicate nodes None) }
    ensures memory { IfErr result (λ fault. fault ≡ SimFault.Memory) }
{
    let mut made = Vec::with_capacity(alloc, nodes)?;
    for _node in 0..nodes {
        made.push(Arrived::new(alloc))?;
    }
    Ok(made)
}

impl Arrivals {
    // None of so many nodes.
    pub(crate) fn new(alloc: Global, nodes: usize) -> Result<Arrivals, SimFault>
        ensures ok { IfOk result (λ arrivals. arrivals ≡ replicate nodes None) }
        ensures memory { IfErr result (λ fault. fault ≡ SimFault.Memory) }
    {
        let made = none_arrived(alloc, nodes)?;
        Ok(Arrivals { nodes: made })
    }

    // The pages of a node.
    pub(crate) fn of(&self, node: NodeNo) -> Option<&Arrived>
        ensures { option_map (λ arrived. arrived.now) result ≡ slice_get self.now node }
    {
        self.nodes.get(node as usize)
    }

    // Takes a reply of a node: a page is put to those that came, and another one is applied.
    pub(crate) fn take(
        &mut self,
        inventory: &mut Inventory,
        node: NodeNo,
        reply: &Reply,
    ) -> Result<(), SimFault>
        requires node { node < length inventory.old }
        requires there { node < length self.old }
        ensures ok { OnOk result (DeliversAt inventory.old self.old node reply.now inventory.new self.new) }
        ensures unchanged { OnErr result (self.new ≡ self.old) }
        ensures inventory { OnErr result (inventory.new ≡ inventory.old) }
        ensures memory { IfErr result (λ fault. fault ≡ SimFault.Memory) }
    {
        self.nodes[node as usize].take(inventory, node, reply)
    }
}
