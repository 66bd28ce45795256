//! A turn of one of the threads that share a publisher.
ghost use Rattle.std.specs.Prelude.{◌≡◌, ◌++◌, ◌∷◌, ◌<◌, [], IfOk, IfErr, OnErr, Ok, length};
ghost use Rattle.std.specs.Arc.{arc_value};
ghost use mathlib.Core.List.{IsPrefix};
ghost use Rattle.druid_inventory.specs.Entry.{Entry};
ghost use Rattle.druid_inventory.specs.Step.{StepsAt};
ghost use Rattle.druid_inventory_views.specs.Fold.{Published, fold_of};
ghost use Rattle.druid_segment_descriptor.specs.declared.reply.Body.{Body};
ghost use Rattle.druid_broker_follow.specs.Shown.{marks_at};
ghost use Rattle.druid_broker_follow.specs.Turns.{IsUnread, IsFetchedFrom, TakesSharedTurn, FailsSharedTurn};
ghost use Rattle.druid_broker_follow.specs.Refused.{RefusesTurn};

use crate::TurnFault;
use crate::observer::{Marks, Observe, Turned, marks_at};
use crate::turns::{fetch, publish_reply};
use druid_inventory::{Inventory, Outcome};
use druid_inventory_views::{Publication, PublishFault, Publisher, Receipt, View};
use druid_link::Link;
use druid_segment_descriptor::{NodeNo, Reply};
use std::alloc::Global;
use std::sync::{Arc, Mutex, Wait};

// What the view reads.
fn read_by<J: Publication>(view: &mut View<J>) -> Result<Arc<Inventory, Global>, TurnFault>
    ensures prefix { IsPrefix view.old view.new }
    ensures ok { IfOk result (λ found. arc_value found ≡ fold_of J.opening view.new) }
    ensures nodes { IfOk result (λ found. length (arc_value found) ≡ length J.opening) }
    ensures err { IfErr result IsUnread }
    ensures stays { OnErr result (view.new ≡ view.old) }
{
    match view.read() {
        Ok(inventory) => Ok(inventory),
        Err(PublishFault::NoReading) => Err(TurnFault::NoReading),
        // No read applies a reply, so memory ran out.
        Err(_) => Err(TurnFault::Memory),
    }
}

// The same once all that is published was shown again. Where memory runs out for that again, the read tells.
fn read_again<W: Wait, J: Publication, R: Wait + Drop>(
    rt: &W,
    view: &mut View<J>,
    publisher: &Mutex<Publisher<J, R>>,
) -> Result<Arc<Inventory, Global>, TurnFault>
    ensures prefix { IsPrefix view.old view.new }
    ensures ok { IfOk result (λ found. arc_value found ≡ fold_of J.opening view.new) }
    ensures nodes { IfOk result (λ found. length (arc_value found) ≡ length J.opening) }
    ensures err { IfErr result IsUnread }
    ensures stays { OnErr result (view.new ≡ view.old) }
{
    let _ = publisher.lock(rt).show_again();
    read_by(view)
}

// What the view reads. Where it has no reading, all that is published is shown again, and it reads once more: so a broker that
// follows one node, which publishes nothing without a reading, does not stay without one.
fn read_shown<W: Wait, J: Publication, R: Wait + Drop>(
    rt: &W,
    view: &mut View<J>,
    publisher: &Mutex<Publisher<J, R>>,
) -> Result<Arc<Inventory, Global>, TurnFault>
    ensures prefix { IsPrefix view.old view.new }
    ensures ok { IfOk result (λ found. arc_value found ≡ fold_of J.opening view.new) }
    ensures nodes { IfOk result (λ found. length (arc_value found) ≡ length J.opening) }
    ensures err { IfErr result IsUnread }
    ensures stays { OnErr result (view.new ≡ view.old) }
{
    match read_by(view) {
        Ok(inventory) => Ok(inventory),
        Err(TurnFault::NoReading) => read_again(rt, view, publisher),
        Err(fault) => Err(fault),
    }
}

// What a publisher has is what its list makes of the opening inventory.
fn inventory_is_fold<J: Publication, R: Wait + Drop>(publisher: &Publisher<J, R>)
    ensures fold { publisher.now.inventory ≡ fold_of J.opening publisher.now.published }
{
    let _ = publisher.inventory();
}

// Publishes a reply of a node, and tells what is published then: with it, or, where it is refused, that by which it was refused.
fn publish_newer<J: Publication, R: Wait + Drop>(
    node: NodeNo,
    reply: &Reply,
    publisher: &mut Publisher<J, R>,
) -> (Result<Outcome, TurnFault>, Receipt<J>)
    requires { node < length J.opening }
    ensures ok { IfOk result.0 (λ outcome. (before : Published) × (entry : Entry) × StepsAt (fold_of J.opening before) node reply.now outcome entry
        × (result.1 ≡ before ++ (node, reply.now) ∷ [])) }
    ensures err { IfErr result.0 (RefusesTurn (fold_of J.opening result.1) node reply.now) }
{
    inventory_is_fold(publisher);
    match publish_reply(node, reply, publisher) {
        Ok(published) => (Ok(published.0), published.1),
        Err(fault) => (Err(fault), publisher.receipt()),
    }
}

// The same under the lock.
fn publish_locked<W: Wait, J: Publication, R: Wait + Drop>(
    rt: &W,
    node: NodeNo,
    reply: &Reply,
    publisher: &Mutex<Publisher<J, R>>,
) -> (Result<Outcome, TurnFault>, Receipt<J>)
    requires { node < length J.opening }
    ensures ok { IfOk result.0 (λ outcome. (before : Published) × (entry : Entry) × StepsAt (fold_of J.opening before) node reply.now outcome entry
        × (result.1 ≡ before ++ (node, reply.now) ∷ [])) }
    ensures err { IfErr result.0 (RefusesTurn (fold_of J.opening result.1) node reply.now) }
{
    let mut publisher = publisher.lock(rt);
    publish_newer(node, reply, &mut publisher)
}

// A turn, which also gives the marks of the node where it sent a reply.
fn marked_turn<W: Wait, J: Publication, R: Wait + Drop, L: Link>(
    rt: &W,
    alloc: Global,
    node: NodeNo,
    view: &mut View<J>,
    link: &mut L,
    publisher: &Mutex<Publisher<J, R>>,
    marks: &mut Option<Marks>,
) -> Result<Outcome, TurnFault>
    requires { node < length J.opening }
    ensures ok { IfOk result (TakesSharedTurn L.exchanges J.opening node view.old view.new link.old link.new) }
    ensures err { IfErr result (FailsSharedTurn L.exchanges J.opening node view.old view.new link.old link.new) }
    ensures view { IsPrefix view.old view.new }
    ensures marks { IfOk result (λ _. (read : Published) × (reply : Body) × IsFetchedFrom L.exchanges (fold_of J.opening read) node link.old link.new (Ok reply)
        × (marks.new ≡ marks_at (fold_of J.opening read) node reply)) }
{
    let inventory = match read_shown(rt, view, publisher) {
        Ok(inventory) => inventory,
        Err(fault) => return Err(fault),
    };
    let reply = match fetch(alloc, &inventory, node, link) {
        Ok(reply) => reply,
        Err(fault) => return Err(fault),
    };
    *marks = marks_at(&inventory, node, &reply);
    let turned = publish_locked(rt, node, &reply, publisher);
    view.learn(&turned.1);
    turned.0
}

/// A turn of one of the threads that share a publisher: fetches what changed of a node by what the
/// view reads, page by page where it is sent so, in at most 11 exchanges, while nothing waits for
/// the publisher; publishes it under the lock; and tells the view what is published then, where it
/// is refused too.
///
/// # Errors
///
/// K6 where the view has no reading, also once all was shown again, or K9: then the view and the
/// link are as they were; then those of `sync_turn`, with the link as there, and the view has seen
/// what it read and what is published. What is published stays (read in the code).
pub fn shared_turn<W: Wait, J: Publication, R: Wait + Drop, L: Link>(
    rt: &W,
    alloc: Global,
    node: NodeNo,
    view: &mut View<J>,
    link: &mut L,
    publisher: &Mutex<Publisher<J, R>>,
) -> Result<Outcome, TurnFault>
    requires { node < length J.opening }
    ensures ok { IfOk result (TakesSharedTurn L.exchanges J.opening node view.old view.new link.old link.new) }
    ensures err { IfErr result (FailsSharedTurn L.exchanges J.opening node view.old view.new link.old link.new) }
    ensures view { IsPrefix view.old view.new }
{
    let mut marks = None;
    marked_turn(rt, alloc, node, view, link, publisher, &mut marks)
}

/// The same, and shows what it gave, and the marks of the node, to an observer.
///
/// # Errors
///
/// Those of `shared_turn`.
pub fn observed_turn<W: Wait, J: Publication, R: Wait + Drop, L: Link, O: Observe>(
    rt: &W,
    alloc: Global,
    node: NodeNo,
    view: &mut View<J>,
    link: &mut L,
    publisher: &Mutex<Publisher<J, R>>,
    observer: &mut O,
) -> Result<Outcome, TurnFault>
    requires { node < length J.opening }
    ensures ok { IfOk result (TakesSharedTurn L.exchanges J.opening node view.old view.new link.old link.new) }
    ensures err { IfErr result (FailsSharedTurn L.exchanges J.opening node view.old view.new link.old link.new) }
    ensures view { IsPrefix view.old view.new }
{
    let mut marks = None;
    let outcome = marked_turn(rt, alloc, node, view, link, publisher, &mut marks);
    observer.turn(&Turned { outcome, marks });
    outcome
}
