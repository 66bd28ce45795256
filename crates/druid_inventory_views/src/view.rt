//! A view of what is published.
ghost use Rattle.std.specs.Prelude.{◌≡◌, ◌⊎◌, IfOk, IfErr, OnErr, length};
ghost use Rattle.std.specs.Arc.{arc_value};
ghost use mathlib.Core.List.{IsPrefix};
ghost use Rattle.left_right.specs.Sides.{view};
ghost use Rattle.druid_inventory.specs.Join.{names_of};
ghost use Rattle.druid_inventory_views.specs.Places.{known};
ghost use Rattle.druid_inventory_views.specs.Fold.{fold_of};
ghost use Rattle.druid_inventory_views.specs.declared.fault.PublishFault.{PublishFault};

use crate::fault::PublishFault;
use crate::publication::Publication;
use crate::receipt::Receipt;
use crate::rule::{Known, Looks, OneOpening};
use crate::shown::Shown;
use core::mem::replace_with;
use druid_inventory::Inventory;
use left_right::reader::Reader;
use std::alloc::Global;
use std::marker::Model;
use std::sync::Arc;

/// The place of a view.
pub type ReaderPlace = Reader<Shown, Known, OneOpening>;

// What is shown, and its list, or a longer one that was seen, unless something changed beyond what is shown.
#[tactic(auto, using(crate::proofs::FoldLemmas::names_of_fold, crate::proofs::FoldLemmas::fold_still))]
fn load_shown<J: Publication>(
    shown: &Shown,
    seen: &Receipt<J>,
) -> Result<(Arc<Inventory, Global>, Receipt<J>), PublishFault>
    requires book { shown.now.seen.book ≡ J.book }
    requires fold { arc_value shown.now.inventory ≡ fold_of J.opening shown.now.seen.log }
    ensures prefix { IfOk result (λ r. IsPrefix seen.now r.1) }
    ensures fold { IfOk result (λ r. arc_value r.0 ≡ fold_of J.opening r.1) }
    ensures names { IfOk result (λ r. names_of (arc_value r.0) ≡ names_of J.opening) }
    ensures fault { IfErr result (λ fault. (fault ≡ PublishFault.NoReading) ⊎ (fault ≡ PublishFault.Memory)) }
{
    let found = Receipt::of(shown.count, &shown.seen);
    let longer = seen.longer(&found);
    if found.len() < longer.moved() {
        return Err(PublishFault::NoReading);
    }
    match Arc::try_clone(&shown.inventory) {
        Ok(inventory) => Ok((inventory, longer)),
        Err(_) => Err(PublishFault::Memory),
    }
}

// The same of what a place reads, which is what it was afterwards.
fn read_by<J: Publication>(
    place: ReaderPlace,
    seen: &Receipt<J>,
) -> (
    ReaderPlace,
    Result<(Arc<Inventory, Global>, Receipt<J>), PublishFault>,
)
    requires { view place.place ≡ known J.book J.opening }
    ensures place { view result.0.place ≡ known J.book J.opening }
    ensures prefix { IfOk result.1 (λ r. IsPrefix seen.now r.1) }
    ensures fold { IfOk result.1 (λ r. arc_value r.0 ≡ fold_of J.opening r.1) }
    ensures names { IfOk result.1 (λ r. names_of (arc_value r.0) ≡ names_of J.opening) }
    ensures fault { IfErr result.1 (λ fault. (fault ≡ PublishFault.NoReading) ⊎ (fault ≡ PublishFault.Memory)) }
{
    match place.enter_as::<Looks>() {
        Ok(reading) => {
            let found = load_shown(reading.get(), seen);
            (reading.leave(), found)
        }
        Err(place) => (place, Err(PublishFault::NoReading)),
    }
}

/// A reader of what is published. A contract sees the list that it has seen.
#[derive(Drop)]
pub struct View<J: Publication> {
    place: ReaderPlace,
    seen: Receipt<J>,
}

impl<J: Publication> Model for View<J> {
    ghost use Rattle.std.specs.Prelude.{◌≡◌};
    ghost use Rattle.left_right.specs.Sides as sides;
    ghost use Rattle.druid_inventory_views.specs.Places.{known};
    ghost use Rattle.druid_inventory_views.specs.Fold.{Published};

    ghost Value = { Published };

    ghost view = { λ a. a.seen };

    ghost invariant = { λ a. sides.view a.place.place ≡ known J.book J.opening };
}

impl<J: Publication> View<J> {
    pub(crate) fn new(place: ReaderPlace, seen: Receipt<J>) -> View<J>
        requires { view place.place ≡ known J.book J.opening }
        ensures { result ≡ seen }
    {
        View { place, seen }
    }

    /// What is published, without waiting.
    ///
    /// # Errors
    ///
    /// B3 where the publisher is gone, or where what the view has seen changed something that is
    /// not shown: it learned of a publish for which memory ran out when it was to be shown, and
    /// neither another publish nor `Publisher::show_again` came since. B9 where the owners of the
    /// inventory are too many to be counted. (When either comes no clause says: it is tested.)
    /// Leaves what the view has seen.
    pub fn read(&mut self) -> Result<Arc<Inventory, Global>, PublishFault>
        ensures prefix { IfOk result (λ _. IsPrefix self.old self.new) }
        ensures fold { IfOk result (λ found. arc_value found ≡ fold_of J.opening self.new) }
        ensures names { IfOk result (λ found. names_of (arc_value found) ≡ names_of J.opening) }
        ensures stays { OnErr result (self.new ≡ self.old) }
        ensures fault { IfErr result (λ fault. (fault ≡ PublishFault.NoReading) ⊎ (fault ≡ PublishFault.Memory)) }
    {
        let View { place, seen } = self;
        match replace_with(place, &*seen, |place, seen| read_by(place, seen)) {
            Ok((found, now)) => {
                *seen = now;
                Ok(found)
            }
            Err(fault) => Err(fault),
        }
    }

    /// How many replies it has seen. Does not allocate.
    pub fn count(&self) -> u64
        ensures { result ≡ length self.now }
    {
        self.seen.len()
    }

    /// Learns what a receipt tells. Does not allocate.
    pub fn learn(&mut self, receipt: &Receipt<J>)
        ensures one { (self.new ≡ self.old) ⊎ (self.new ≡ receipt.now) }
        ensures this { IsPrefix self.old self.new }
        ensures that { IsPrefix receipt.now self.new }
    {
        self.seen = self.seen.longer(receipt);
    }
}
