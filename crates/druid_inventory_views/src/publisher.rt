//! A publisher, the one owner of an inventory. What is late is seen by what is shown: where more
//! than that changed something, a publish or `show_again` shows all, and no mark has to be kept
//! that a failed show sets.
ghost use Rattle.std.specs.Prelude.{◌≡◌, ◌≢◌, ◌↔◌, ◌⊎◌, ◌++◌, ◌∷◌, [], None, IfOk, IfErr, OnOk, OnErr, IsErrOf, slice_get, slice_set};
ghost use Rattle.std.specs.Arc.{arc_value};
ghost use mathlib.Core.List.{IsPrefix};
ghost use Rattle.left_right.specs.Sides.{view};
ghost use Rattle.druid_inventory.specs.Entry.{Entry};
ghost use Rattle.druid_inventory.specs.Step.{StepsAt, RefusedAt};
ghost use Rattle.druid_inventory.specs.declared.fault.ApplyFault.{ApplyFault};
ghost use Rattle.druid_inventory.specs.declared.fault.Outcome.TheVariants.{Moved};
ghost use Rattle.druid_inventory_views.specs.Faults.{publish_fault, ReportsPublish};
ghost use Rattle.druid_inventory_views.specs.Places.{known, IsAlike};
ghost use Rattle.druid_inventory_views.specs.Fold.{fold_of, step_by};

use crate::book::Head;
use crate::fault::PublishFault;
use crate::publication::Publication;
use crate::receipt::Receipt;
use crate::rule::{Known, Looks, OneOpening};
use crate::shown::Shown;
use core::mem::replace_with;
use druid_inventory::{ApplyFault, Inventory, Outcome};
use druid_segment_descriptor::{NodeNo, Reply};
use left_right::writer::Writer;
use std::alloc::{AllocError, Global};
use std::marker::Model;
use std::sync::{Arc, Wait};

/// The place of a publisher.
pub type WriterPlace = Writer<Shown, Shown, Known, OneOpening>;

// As many as are counted.
const MOST: u64 = 1 << 62;

// Shows it to the views. Where memory runs out they are shown what they were, and what is shown next stands in its stead.
fn show<J: Publication, R: Wait>(
    rt: &R,
    writer: WriterPlace,
    shown: Shown,
) -> (WriterPlace, Result<(), AllocError>)
    requires place { view writer.desk.place ≡ known J.book J.opening }
    requires book { shown.seen.book ≡ J.book }
    requires fold { arc_value shown.inventory ≡ fold_of J.opening shown.seen.log }
    ensures place { view result.0.desk.place ≡ known J.book J.opening }
    ensures shown { IfOk result.1 (λ _. IsAlike result.0.desk.shown.value shown) }
    ensures stays { IfErr result.1 (λ _. result.0.desk.shown.value ≡ writer.desk.shown.value) }
    ensures either { (result.0.desk.shown.value.seen.log ≡ shown.seen.log)
        ⊎ (result.0.desk.shown.value.seen.log ≡ writer.desk.shown.value.seen.log) }
{
    let mut writer = writer;
    match writer.append(shown) {
        Ok(()) => writer.publish_as::<Looks, R>(rt),
        Err(_) => (writer, Err(AllocError)),
    }
}

// The same of a place that stays where it is.
fn show_in_place<J: Publication, R: Wait>(rt: &R, writer: &mut WriterPlace, shown: Shown)
    requires place { view writer.old.desk.place ≡ known J.book J.opening }
    requires book { shown.seen.book ≡ J.book }
    requires fold { arc_value shown.inventory ≡ fold_of J.opening shown.seen.log }
    ensures place { view writer.new.desk.place ≡ known J.book J.opening }
    ensures either { (writer.new.desk.shown.value.seen.log ≡ shown.seen.log)
        ⊎ (writer.new.desk.shown.value.seen.log ≡ writer.old.desk.shown.value.seen.log) }
{
    let _ = replace_with(writer, rt, |writer, rt| show::<J, R>(rt, writer, shown));
}

// Shows the views an inventory with all that was published, where more than they are shown changed something. So none that has seen
// all of it lacks a reading.
fn show_late<J: Publication, R: Wait>(
    rt: &R,
    writer: WriterPlace,
    seen: &Receipt<J>,
    inventory: &Arc<Inventory, Global>,
) -> (WriterPlace, Result<(), AllocError>)
    requires place { view writer.desk.place ≡ known J.book J.opening }
    requires fold { arc_value inventory.now ≡ fold_of J.opening seen.now }
    requires begins { IsPrefix writer.desk.shown.value.seen.log seen.now }
    ensures place { view result.0.desk.place ≡ known J.book J.opening }
    ensures begins { IsPrefix result.0.desk.shown.value.seen.log seen.now }
    ensures shown { IfOk result.1
        (λ _. fold_of J.opening result.0.desk.shown.value.seen.log ≡ fold_of J.opening seen.now) }
    ensures stays { IfErr result.1 (λ _. result.0.desk.shown.value ≡ writer.desk.shown.value) }
{
    if seen.moved() <= writer.published().count {
        return (writer, Ok(()));
    }
    match Arc::try_clone(inventory) {
        Ok(inventory) => show::<J, R>(rt, writer, seen.show_with(inventory)),
        Err(_) => (writer, Err(AllocError)),
    }
}

// Out of memory is B9, and why else a reply is not applied B1.
#[tactic(auto, using(crate::proofs::FaultLemmas::not_memory))]
fn fault_of(fault: ApplyFault) -> PublishFault
    ensures { result ≡ publish_fault fault }
{
    match fault {
        ApplyFault::Memory => PublishFault::Memory,
        fault => PublishFault::Apply(fault),
    }
}

/// The owner of an inventory. A contract sees what it published, the inventory, and what views are shown: a beginning of what it
/// published.
///
/// It keeps the handle that it was opened with, since it waits for readers when it publishes and when it is dropped.
pub struct Publisher<J: Publication, R: Wait + Drop> {
    alloc: Global,
    rt: R,
    head: Head<J>,
    seen: Receipt<J>,
    inventory: Arc<Inventory, Global>,
    writer: WriterPlace,
}

impl<J: Publication, R: Wait + Drop> Model for Publisher<J, R> {
    ghost use Rattle.std.specs.Prelude.{◌≡◌};
    ghost use Rattle.std.specs.Arc.{arc_value};
    ghost use mathlib.Core.List.{IsPrefix};
    ghost use Rattle.left_right.specs.Sides as sides;
    ghost use Rattle.druid_inventory_views.specs.Places.{known};
    ghost use Rattle.druid_inventory_views.specs.Fold.{fold_of, PublisherValue};

    ghost Value = { PublisherValue };

    ghost view = { λ a. record {
      published = a.seen;
      inventory = arc_value a.inventory;
      shown = a.writer.desk.shown.value.seen.log;
    } };

    ghost invariant = { λ a. (arc_value a.inventory ≡ fold_of J.opening a.seen)
        × (sides.view a.writer.desk.place ≡ known J.book J.opening)
        × IsPrefix a.writer.desk.shown.value.seen.log a.seen };
}

impl<J: Publication, R: Wait + Drop> Drop for Publisher<J, R> {
    fn drop(self) {
        let Self {
            alloc: _,
            rt,
            head: _head,
            seen: _seen,
            inventory: _inventory,
            writer,
        } = self;
        drop(writer.take(&rt));
    }
}

// The inventory, to be shared, and an owner more of it.
fn share(
    alloc: Global,
    inventory: Inventory,
) -> Result<(Arc<Inventory, Global>, Arc<Inventory, Global>), AllocError>
    ensures mine { IfOk result (λ r. arc_value r.0 ≡ inventory) }
    ensures theirs { IfOk result (λ r. arc_value r.1 ≡ inventory) }
{
    let mine = Arc::new(alloc, inventory)?;
    let theirs = Arc::try_clone(&mine)?;
    Ok((mine, theirs))
}

impl<J: Publication, R: Wait + Drop> Publisher<J, R> {
    // The publisher of an inventory, with nothing published.
    pub(crate) fn new(
        alloc: Global,
        rt: R,
        named: (Head<J>, Receipt<J>),
        inventory: Arc<Inventory, Global>,
        writer: WriterPlace,
    ) -> Publisher<J, R>
        requires published { named.1 ≡ [] }
        requires inventory { arc_value inventory ≡ J.opening }
        requires place { view writer.desk.place ≡ known J.book J.opening }
        requires shown { writer.desk.shown.value.seen.log ≡ [] }
        ensures published { result.published ≡ [] }
        ensures inventory { result.inventory ≡ J.opening }
        ensures shown { result.shown ≡ [] }
    {
        let (head, seen) = named;
        Publisher {
            alloc,
            rt,
            head,
            seen,
            inventory,
            writer,
        }
    }

    /// Publishes a reply of a node, in one step: it is what was published last, and the inventory
    /// what it makes of the one before. The receipt is for all that is published then.
    ///
    /// A reply that moves no entry is published, and what is shown stays. Else it waits for those that still read what was
    /// shown before. Room for what is shown is made by `open`; should memory be refused after the step all the same, the
    /// reply is published, and shown with the next one, whatever that is, or by `show_again`.
    ///
    /// # Errors
    ///
    /// B1 with what `Inventory::apply` refuses, in its order; B9 last, also where as much is
    /// published as can be counted. Leaves all as it was.
    pub fn publish(
        &mut self,
        node: NodeNo,
        reply: &Reply,
    ) -> Result<(Outcome, Receipt<J>), PublishFault>
        ensures ok { IfOk result (λ r. (entry : Entry) × StepsAt self.old.inventory node reply.now r.0 entry
            × (self.new.inventory ≡ slice_set self.old.inventory node entry)) }
        ensures published { OnOk result (self.new.published ≡ self.old.published ++ (node, reply.now) ∷ []) }
        ensures receipt { IfOk result (λ r. r.1 ≡ self.new.published) }
        ensures fold { self.new.inventory ≡ fold_of J.opening self.new.published }
        ensures shown { OnOk result ((fold_of J.opening self.new.shown ≡ self.new.inventory)
            ⊎ (self.new.shown ≡ self.old.shown)) }
        ensures stays { OnErr result (self.new ≡ self.old) }
        ensures fault { IfErr result (ReportsPublish self.old.inventory node reply.now) }
        ensures unknown { IsErrOf result (PublishFault.Apply ApplyFault.UnknownNode) ↔ (slice_get self.old.inventory node ≡ None) }
        ensures refused { (fault : ApplyFault) → fault ≢ ApplyFault.UnknownNode → fault ≢ ApplyFault.Memory
            → IsErrOf result (PublishFault.Apply fault) ↔ RefusedAt self.old.inventory node reply.now fault }
    {
        self.apply_reply(node, reply)
    }

    // The same, with the fault made in one place.
    #[tactic(auto, using(crate::proofs::FoldLemmas::made_by))]
    fn apply_reply(
        &mut self,
        node: NodeNo,
        reply: &Reply,
    ) -> Result<(Outcome, Receipt<J>), PublishFault>
        ensures ok { IfOk result (λ r. (entry : Entry) × StepsAt self.old.inventory node reply.now r.0 entry
            × (self.new.inventory ≡ slice_set self.old.inventory node entry)) }
        ensures published { OnOk result (self.new.published ≡ self.old.published ++ (node, reply.now) ∷ []) }
        ensures receipt { IfOk result (λ r. r.1 ≡ self.new.published) }
        ensures fold { self.new.inventory ≡ fold_of J.opening self.new.published }
        ensures shown { OnOk result ((fold_of J.opening self.new.shown ≡ self.new.inventory)
            ⊎ (self.new.shown ≡ self.old.shown)) }
        ensures stays { OnErr result (self.new ≡ self.old) }
        ensures fault { IfErr result (ReportsPublish self.old.inventory node reply.now) }
    {
        let (inventory, outcome) = match self.inventory.apply(node, reply) {
            Ok(made) => made,
            Err(fault) => return Err(fault_of(fault)),
        };
        match self.add_made(node, reply, inventory, outcome) {
            Ok(receipt) => Ok((outcome, receipt)),
            Err(_) => Err(PublishFault::Memory),
        }
    }

    // Publishes a reply of a node that has this outcome and makes this of the inventory.
    fn add_made(
        &mut self,
        node: NodeNo,
        reply: &Reply,
        inventory: Inventory,
        outcome: Outcome,
    ) -> Result<Receipt<J>, AllocError>
        requires made { inventory ≡ step_by self.old.inventory (node, reply.now) }
        requires left { outcome ≢ Moved → inventory ≡ self.old.inventory }
        ensures inventory { OnOk result (self.new.inventory ≡ inventory) }
        ensures published { OnOk result (self.new.published ≡ self.old.published ++ (node, reply.now) ∷ []) }
        ensures receipt { IfOk result (λ receipt. receipt ≡ self.new.published) }
        ensures fold { self.new.inventory ≡ fold_of J.opening self.new.published }
        ensures shown { OnOk result ((fold_of J.opening self.new.shown ≡ self.new.inventory)
            ⊎ (self.new.shown ≡ self.old.shown)) }
        ensures stays { OnErr result (self.new ≡ self.old) }
    {
        match outcome {
            Outcome::Moved => self.add(node, reply, inventory),
            _ => self.add_still(node, reply),
        }
    }

    // The list with a reply of a node that leaves the inventory, in one step.
    #[tactic(auto, using(crate::proofs::FoldLemmas::fold_more))]
    fn still_step(&self, node: NodeNo, reply: &Reply) -> Result<Receipt<J>, AllocError>
        requires { step_by self.now.inventory (node, reply.now) ≡ self.now.inventory }
        ensures published { IfOk result (λ seen. seen ≡ self.now.published ++ (node, reply.now) ∷ []) }
        ensures fold { IfOk result (λ seen. self.now.inventory ≡ fold_of J.opening seen) }
    {
        let mut seen = self.seen.again();
        if seen.len() >= MOST || !seen.add_still(&self.head, node, reply) {
            return Err(AllocError);
        }
        Ok(seen)
    }

    // Publishes a reply of a node that leaves the inventory. What is shown stays, unless it is late.
    fn add_still(&mut self, node: NodeNo, reply: &Reply) -> Result<Receipt<J>, AllocError>
        requires { step_by self.old.inventory (node, reply.now) ≡ self.old.inventory }
        ensures inventory { self.new.inventory ≡ self.old.inventory }
        ensures published { OnOk result (self.new.published ≡ self.old.published ++ (node, reply.now) ∷ []) }
        ensures receipt { IfOk result (λ receipt. receipt ≡ self.new.published) }
        ensures fold { self.new.inventory ≡ fold_of J.opening self.new.published }
        ensures shown { OnOk result ((fold_of J.opening self.new.shown ≡ self.new.inventory)
            ⊎ (self.new.shown ≡ self.old.shown)) }
        ensures stays { OnErr result (self.new ≡ self.old) }
    {
        let seen = self.still_step(node, reply)?;
        self.seen = seen.again();
        // Where memory runs out again, the next publish tries once more.
        let _ = self.show_again();
        Ok(seen)
    }

    // Adds a reply of a node that makes this of the inventory, in one step, with what views are shown then.
    #[tactic(auto, using(crate::proofs::FoldLemmas::fold_more))]
    fn step(
        &self,
        node: NodeNo,
        reply: &Reply,
        inventory: Arc<Inventory, Global>,
    ) -> Result<(Receipt<J>, Shown), AllocError>
        requires { arc_value inventory ≡ step_by self.now.inventory (node, reply.now) }
        ensures published { IfOk result (λ r. r.0 ≡ self.now.published ++ (node, reply.now) ∷ []) }
        ensures fold { IfOk result (λ r. arc_value inventory ≡ fold_of J.opening r.0) }
        ensures book { IfOk result (λ r. r.1.seen.book ≡ J.book) }
        ensures shown { IfOk result (λ r. arc_value r.1.inventory ≡ fold_of J.opening r.1.seen.log) }
        ensures log { IfOk result (λ r. r.1.seen.log ≡ r.0) }
    {
        let mut seen = self.seen.again();
        if seen.len() >= MOST || !seen.add(&self.head, node, reply) {
            return Err(AllocError);
        }
        let shown = seen.show_with(inventory);
        Ok((seen, shown))
    }

    // Publishes a reply of a node that makes this of the inventory. All that may be refused comes before the step.
    fn add(
        &mut self,
        node: NodeNo,
        reply: &Reply,
        inventory: Inventory,
    ) -> Result<Receipt<J>, AllocError>
        requires { inventory ≡ step_by self.old.inventory (node, reply.now) }
        ensures inventory { OnOk result (self.new.inventory ≡ inventory) }
        ensures published { OnOk result (self.new.published ≡ self.old.published ++ (node, reply.now) ∷ []) }
        ensures receipt { IfOk result (λ receipt. receipt ≡ self.new.published) }
        ensures fold { self.new.inventory ≡ fold_of J.opening self.new.published }
        ensures shown { OnOk result ((fold_of J.opening self.new.shown ≡ self.new.inventory)
            ⊎ (self.new.shown ≡ self.old.shown)) }
        ensures stays { OnErr result (self.new ≡ self.old) }
    {
        let (mine, theirs) = share(self.alloc, inventory)?;
        let (seen, shown) = self.step(node, reply, theirs)?;
        // Where memory runs out, the next publish shows it.
        show_in_place::<J, R>(&self.rt, &mut self.writer, shown);
        self.seen = seen.again();
        self.inventory = mine;
        Ok(seen)
    }

    /// Shows the views all that is published, where memory ran out when it was to be shown; else it
    /// does nothing. So a view that had no reading has one again. It waits for those that still
    /// read what was shown before. What is published stays.
    ///
    /// # Errors
    ///
    /// B9. Leaves all as it was.
    pub fn show_again(&mut self) -> Result<(), PublishFault>
        ensures published { self.new.published ≡ self.old.published }
        ensures inventory { self.new.inventory ≡ self.old.inventory }
        ensures shown { OnOk result (fold_of J.opening self.new.shown ≡ self.new.inventory) }
        ensures stays { OnErr result (self.new ≡ self.old) }
        ensures fault { IfErr result (λ fault. fault ≡ PublishFault.Memory) }
    {
        let Publisher {
            rt,
            seen,
            inventory,
            writer,
            ..
        } = self;
        let done = replace_with(writer, &*rt, |writer, rt| {
            show_late::<J, R>(rt, writer, seen, inventory)
        });
        match done {
            Ok(()) => Ok(()),
            Err(_) => Err(PublishFault::Memory),
        }
    }

    /// A receipt for all that is published. Does not allocate.
    pub fn receipt(&self) -> Receipt<J>
        ensures { result ≡ self.now.published }
    {
        self.seen.again()
    }

    /// The inventory: the fold of what was published. Does not allocate.
    pub fn inventory(&self) -> &Inventory
        ensures now { result.now ≡ self.now.inventory }
        ensures fold { self.now.inventory ≡ fold_of J.opening self.now.published }
    {
        &self.inventory
    }
}
