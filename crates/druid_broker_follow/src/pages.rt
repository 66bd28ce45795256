//! The pages of a snapshot, asked for one after another over one link. Where one is lost nothing is
//! kept: the next turn begins with page 0, which the node answers from the set that it froze.
ghost use Rattle.std.specs.Prelude.{◌≡◌, ◌⊎◌, ◌↔◌, ◌-◌, ◌≤◌, ◌∷◌, [], ℕ, IsTrue, IfOk, IfErr, Some};
ghost use Rattle.druid_segment_descriptor.specs.Mark.{Point};
ghost use Rattle.druid_segment_descriptor.specs.declared.change.Ask.TheVariants.{Whole};
ghost use Rattle.druid_inventory.specs.Assembly.{IsPageReply, TakesReply, RefusesReply};
ghost use Rattle.druid_inventory.specs.declared.fault.ApplyFault.{ApplyFault};
ghost use Rattle.druid_broker_follow.specs.Turns.{IsPageAt, Completes, FollowsPages, IsAsked};
ghost use Rattle.druid_broker_follow.specs.Pages.{request_at, place_of, segments_of, turn_fault, GetsPage, LosesPage, PutsPage, RefusesPut, first_pages};

use crate::TurnFault;
use crate::exchange::ask_once;
use druid_inventory::{ApplyFault, Assembly};
use druid_link::Link;
use druid_segment_descriptor::{Ask, Body, Mark, Reply};
use std::alloc::Global;

// What a reply that is a page says: its mark, its number, and of how many it is.
fn place_of(reply: &Reply) -> Option<(Mark, u16, u16)>
    ensures { result ≡ place_of reply.now }
{
    match reply.body() {
        Body::Page { at, page, of, .. } => Some((*at, *page, *of)),
        Body::Delta { .. } => None,
        Body::Snapshot { .. } => None,
        Body::Reset { .. } => None,
    }
}

// Whether a reply is that page of the snapshot at that mark.
fn is_page_at(reply: &Reply, at: Mark, page: u16) -> bool
    ensures { IsTrue result ↔ IsPageAt at page reply.now }
{
    match place_of(reply) {
        Some((mark, number, _)) => mark == at && number == page,
        None => false,
    }
}

// Asks for a page. K5 where the reply is another.
fn ask_page<L: Link>(
    alloc: Global,
    path: &str,
    at: Mark,
    page: u16,
    link: &mut L,
) -> Result<Reply, TurnFault>
    ensures ok { IfOk result (GetsPage L.exchanges (request_at path.now) at page link.old link.new) }
    ensures err { IfErr result (LosesPage L.exchanges (request_at path.now) at page link.old link.new) }
{
    let reply = match ask_once(alloc, path, &Ask::Page(at, page), link) {
        Ok(reply) => reply,
        Err(fault) => return Err(fault),
    };
    if !is_page_at(&reply, at, page) {
        return Err(TurnFault::PageLost);
    }
    Ok(reply)
}

// What is reported of a page that is refused.
fn refusal_of(fault: ApplyFault) -> TurnFault
    ensures { result ≡ turn_fault fault }
{
    match fault {
        ApplyFault::Memory => TurnFault::Memory,
        fault => TurnFault::Apply(fault),
    }
}

// Puts a page to those that have come.
fn put_page(assembly: &mut Assembly, reply: &Reply) -> Result<Option<Reply>, TurnFault>
    requires { IsPageReply reply.now }
    ensures ok { IfOk result (λ given. TakesReply assembly.old reply.now given assembly.new) }
    ensures err { IfErr result (λ fault. (refusal : ApplyFault) × RefusesReply assembly.old reply.now refusal × (fault ≡ turn_fault refusal)) }
{
    match assembly.take(reply) {
        Ok(given) => Ok(given),
        Err(fault) => Err(refusal_of(fault)),
    }
}

// Asks for a page, and puts it to those that have come.
fn add_page<L: Link>(
    alloc: Global,
    path: &str,
    at: Mark,
    page: u16,
    assembly: &mut Assembly,
    link: &mut L,
) -> Result<Option<Reply>, TurnFault>
    ensures ok { IfOk result (PutsPage L.exchanges (request_at path.now) at page assembly.old assembly.new link.old link.new) }
    ensures err { IfErr result (λ fault. LosesPage L.exchanges (request_at path.now) at page link.old link.new fault
        ⊎ RefusesPut L.exchanges (request_at path.now) at page assembly.old link.old link.new fault) }
{
    let reply = match ask_page(alloc, path, at, page, link) {
        Ok(reply) => reply,
        Err(fault) => return Err(fault),
    };
    put_page(assembly, &reply)
}

// A page is one of several.
fn is_one_of_several(reply: &Reply)
    ensures { (at : Point) (page of : ℕ) → place_of reply.now ≡ Some (at, page, of) → 2 ≤ of }
{
    let _ = reply.body();
}

// An assembly into which page 0 was put.
#[tactic(auto, using(crate::proofs::PageLemmas::begin_keeps))]
fn begin(alloc: Global, first: &Reply, at: Mark, of: u16) -> Result<Assembly, TurnFault>
    requires { place_of first.now ≡ Some (at, 0, of) }
    ensures ok { IfOk result (λ assembly. assembly ≡ Some (first_pages at (segments_of first.now ∷ []) (of - 1))) }
    ensures err { IfErr result (λ fault. fault ≡ TurnFault.Memory) }
    ensures several { 2 ≤ of }
{
    is_one_of_several(first);
    let mut assembly = Assembly::new(alloc);
    match put_page(&mut assembly, first) {
        Ok(None) => Ok(assembly),
        Ok(Some(_)) => unreachable!(),
        Err(fault) => Err(fault),
    }
}

// Asks for the pages after page 0, in order, and gives the snapshot.
#[tactic(auto, using(crate::proofs::PageLemmas::have_first, crate::proofs::PageLemmas::some_lack))]
fn complete<L: Link>(
    alloc: Global,
    path: &str,
    at: Mark,
    of: u16,
    first: &Reply,
    link: &mut L,
) -> Result<Reply, TurnFault>
    requires { place_of first.now ≡ Some (at, 0, of) }
    ensures { Completes L.exchanges (request_at path.now) at of (segments_of first.now) link.old link.new result }
{
    let mut assembly = match begin(alloc, first, at, of) {
        Ok(assembly) => assembly,
        Err(fault) => return Err(fault),
    };
    for page in 1..of {
        match add_page(alloc, path, at, page, &mut assembly, link) {
            Ok(None) => {}
            Ok(Some(snapshot)) => return Ok(snapshot),
            Err(fault) => return Err(fault),
        }
    }
    unreachable!()
}

/// Follows page 0 by the others. K5 for another page, which was not asked for.
#[tactic(auto, using(crate::proofs::PageLemmas::follows_none, crate::proofs::PageLemmas::follows_other, crate::proofs::PageLemmas::follows_first))]
pub(crate) fn follow_pages<L: Link>(
    alloc: Global,
    path: &str,
    reply: Reply,
    link: &mut L,
) -> Result<Reply, TurnFault>
    ensures { FollowsPages L.exchanges (request_at path.now) reply link.old link.new result }
{
    let Some((at, page, of)) = place_of(&reply) else {
        return Ok(reply);
    };
    if page != 0 {
        return Err(TurnFault::PageLost);
    }
    complete(alloc, path, at, of, &reply, link)
}

/// Asks at a path for all, and for the pages of it.
pub(crate) fn ask_all<L: Link>(alloc: Global, path: &str, link: &mut L) -> Result<Reply, TurnFault>
    ensures { IsAsked L.exchanges (request_at path.now) Whole link.old link.new result }
{
    match ask_once(alloc, path, &Ask::Whole, link) {
        Ok(reply) => follow_pages(alloc, path, reply, link),
        Err(fault) => Err(fault),
    }
}
