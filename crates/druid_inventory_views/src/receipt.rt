//! A beginning of the list of what is published.
ghost use Rattle.std.specs.Prelude.{◌≡◌, ◌<◌, ◌^◌, ◌++◌, ◌∷◌, ◌⊎◌, [], length, MatchBool};
ghost use Rattle.std.specs.Arc.{arc_value};
ghost use mathlib.Core.List.{IsPrefix};
ghost use Rattle.druid_inventory_views.specs.Fold.{IsStill, fold_of, step_by};

use crate::book::{Add, Addition, Counted, Head, Nothing, Pair};
use crate::publication::Publication;
use crate::shown::Shown;
use druid_inventory::Inventory;
use druid_segment_descriptor::{NodeNo, Reply};
use logbook::{Offer, Seen};
use std::alloc::Global;
use std::marker::{Model, PhantomData};
use std::sync::Arc;

/// That something was published. A contract sees all that was published then.
#[derive(Drop)]
pub struct Receipt<J: Publication> {
    count: u64,
    // What was published after the first so many left the inventory as it was.
    moved: u64,
    seen: Seen<Pair, u64, Counted>,
    of: PhantomData<J>,
}

impl<J: Publication> Model for Receipt<J> {
    ghost use Rattle.std.specs.Prelude.{◌≡◌, length};
    ghost use Rattle.druid_inventory_views.specs.Fold.{IsStill, Published};

    ghost Value = { Published };

    ghost view = { λ a. a.seen.log };

    ghost invariant = { λ a. (a.count ≡ length a.seen.log) × (a.seen.book ≡ J.book)
        × IsStill J.opening a.seen.log a.moved };
}

impl<J: Publication> Receipt<J> {
    pub(crate) fn of(count: u64, seen: &Seen<Pair, u64, Counted>) -> Receipt<J>
        requires counted { count ≡ length seen.now.log }
        requires book { seen.now.book ≡ J.book }
        ensures { result ≡ seen.now.log }
    {
        Receipt {
            count,
            moved: count,
            seen: seen.again(),
            of: PhantomData,
        }
    }

    // How much was published.
    pub(crate) fn len(&self) -> u64
        ensures { result ≡ length self.now }
    {
        self.count
    }

    // After how much of it nothing changed any more.
    pub(crate) fn moved(&self) -> u64
        ensures { IsStill J.opening self.now result }
    {
        self.moved
    }

    // The same.
    pub(crate) fn again(&self) -> Receipt<J>
        ensures { result ≡ self.now }
    {
        Receipt {
            count: self.count,
            moved: self.moved,
            seen: self.seen.again(),
            of: PhantomData,
        }
    }

    // What views are shown of it, with its inventory.
    pub(crate) fn show_with(&self, inventory: Arc<Inventory, Global>) -> Shown
        ensures inventory { arc_value result.inventory ≡ arc_value inventory }
        ensures published { result.seen.log ≡ self.now }
        ensures book { result.seen.book ≡ J.book }
    {
        Shown {
            inventory,
            count: self.count,
            seen: self.seen.again(),
        }
    }

    // The longer of two, which the other begins.
    pub(crate) fn longer(&self, other: &Receipt<J>) -> Receipt<J>
        ensures one { (result ≡ self.now) ⊎ (result ≡ other.now) }
        ensures this { IsPrefix self.now result }
        ensures that { IsPrefix other.now result }
    {
        let mut both = self.seen.again();
        both.learn(&other.seen);
        if self.count < other.count {
            other.again()
        } else {
            self.again()
        }
    }

    // Adds a reply of a node to all that it has, in one step, and says whether it did. It did not where the list is longer.
    pub(crate) fn add(&mut self, head: &Head<J>, node: NodeNo, reply: &Reply) -> bool
        requires { length self.old < 2 ^ 62 }
        ensures { MatchBool result (self.new ≡ self.old ++ (node, reply.now) ∷ []) (IsPrefix self.old self.new) }
    {
        let addition = Addition { node, reply };
        let mut offer: Offer<Pair, u64, Counted, Nothing> = self
            .seen
            .plain::<Nothing, Addition, Add>(&addition);
        let mut pen = self.seen.no_pen();
        let count = self.count;
        let found = head
            .word
            .compare_exchange::<Add, Nothing>(
                count,
                count + 1,
                &mut self.seen,
                &mut offer,
                &mut pen,
            );
        self.count = if found == count { count + 1 } else { found };
        self.moved = self.count;
        found == count
    }

    // The same of a reply that changes nothing.
    pub(crate) fn add_still(&mut self, head: &Head<J>, node: NodeNo, reply: &Reply) -> bool
        requires few { length self.old < 2 ^ 62 }
        requires still { step_by (fold_of J.opening self.old) (node, reply.now) ≡ fold_of J.opening self.old }
        ensures { MatchBool result (self.new ≡ self.old ++ (node, reply.now) ∷ []) (IsPrefix self.old self.new) }
    {
        let moved = self.moved;
        if !self.add(head, node, reply) {
            return false;
        }
        self.moved = moved;
        true
    }
}
