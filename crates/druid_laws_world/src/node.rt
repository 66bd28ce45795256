//! A node and all that ever happened to it: a real node forgets, which its `History` does here too.
//! How many changes it keeps stands with each node; `Sim::new` gives all the same.
ghost use Rattle.std.specs.Prelude.{◌≡◌, ◌≤◌, ◌<◌, ◌+◌, true, ◌++◌, [], ◌∷◌, List, None, Some, IfOk, OnOk, OnErr, IfErr};
ghost use Rattle.druid_segment_descriptor.specs.Reply.{max_changes};
ghost use Rattle.druid_segment_descriptor.specs.declared.change.Change.{Change as Event};
ghost use Rattle.druid_sync_history.specs.Kept.{StandsFor, frozen_after, refusal};
ghost use Rattle.druid_laws_world.specs.Run.{newborn, takes, recorded, restarted, last_incarnation};
ghost use Rattle.druid_laws_world.specs.Node.{Answers};

use crate::SimFault;
use druid_segment_descriptor::{Ask, Change, Reply};
use druid_sync_history::History;
use std::alloc::{AllocError, Global};
use std::marker::Model;
use std::mem;

// An incarnation that ended, and its changes.
#[derive(Debug, Drop)]
pub(crate) struct Ended {
    incarnation: u64,
    changes: Vec<Change>,
}

impl Model for Ended {
    ghost use Rattle.druid_laws_world.specs.World.{Era};

    ghost Value = { Era };

    ghost view = { λ a. record { incarnation = a.incarnation; changes = a.changes.items } };
}

// A node: all changes of the incarnations that ended and of the one that goes on, and the history that it answers with.
#[derive(Debug, Drop)]
pub(crate) struct Node {
    alloc: Global,
    ended: Vec<Ended>,
    changes: Vec<Change>,
    kept: usize,
    history: History,
}

impl Model for Node {
    ghost use Rattle.druid_laws_world.specs.World.{Life};
    ghost use Rattle.druid_laws_world.specs.Node.{IsFollowed};

    ghost Value = { Life };

    ghost use Rattle.druid_sync_history.specs.Kept.{frozen_count};

    ghost view = { λ a. record { ended = a.ended.items; last = record { incarnation = a.history.incarnation; changes = a.changes.items }; kept = a.kept; frozen = frozen_count a.history.frozen } };

    ghost invariant = { λ a. IsFollowed a.history a.changes.items a.kept };
}

// Records a change that the history takes.
fn record_in(history: &mut History, change: Change) -> Result<(), SimFault>
    requires { refusal history.old change ≡ None }
    ensures place { OnOk result ((history.new.incarnation ≡ history.old.incarnation) × (history.new.limit ≡ history.old.limit)) }
    ensures stands { OnOk result ((changes : List Event) → StandsFor history.old changes
        → StandsFor history.new (changes ++ change ∷ [])) }
    ensures frozen { OnOk result
        (history.new.frozen ≡ frozen_after history.old.limit (history.old.count + 1) history.old.frozen) }
    ensures unchanged { OnErr result (history.new ≡ history.old) }
    ensures memory { IfErr result (λ fault. fault ≡ SimFault.Memory) }
{
    match history.record(change) {
        Ok(()) => Ok(()),
        Err(_) => Err(SimFault::Memory),
    }
}

impl Node {
    // A node at its first start, which keeps that many changes.
    pub(crate) fn newborn(alloc: Global, kept: usize) -> Result<Node, SimFault>
        requires some { 1 ≤ kept }
        requires few { kept ≤ max_changes }
        ensures ok { IfOk result (λ node. node ≡ newborn kept) }
        ensures memory { IfErr result (λ fault. fault ≡ SimFault.Memory) }
    {
        let Ok(history) = History::new(alloc, 1, kept) else {
            return Err(SimFault::Memory);
        };
        Ok(Node {
            alloc,
            ended: Vec::new(alloc),
            changes: Vec::new(alloc),
            kept,
            history,
        })
    }

    // Whether its history takes the change. Does not allocate.
    pub(crate) fn takes(&self, change: &Change) -> bool
        ensures { result ≡ takes self.now change.now }
    {
        self.history.accepts(change)
    }

    // Records a change that its history takes.
    pub(crate) fn record(&mut self, change: Change) -> Result<(), SimFault>
        requires { takes self.old change ≡ true }
        ensures ok { OnOk result (self.new ≡ recorded self.old change) }
        ensures unchanged { OnErr result (self.new ≡ self.old) }
        ensures memory { IfErr result (λ fault. fault ≡ SimFault.Memory) }
    {
        self.changes.reserve(1)?;
        let copy = change.clone()?;
        record_in(&mut self.history, change)?;
        match self.changes.push(copy) {
            Ok(()) => Ok(()),
            Err(_) => unreachable!(),
        }
    }

    // The number of its incarnation.
    pub(crate) fn incarnation(&self) -> u64
        ensures value { result ≡ self.now.last.incarnation }
        ensures keeps_some { 1 ≤ self.now.kept }
        ensures keeps_few { self.now.kept ≤ max_changes }
    {
        self.history.mark().incarnation()
    }

    // Begins the next incarnation.
    pub(crate) fn restart(&mut self) -> Result<(), SimFault>
        requires { self.old.last.incarnation < last_incarnation }
        ensures ok { OnOk result (self.new ≡ restarted self.old) }
        ensures unchanged { OnErr result (self.new ≡ self.old) }
        ensures memory { IfErr result (λ fault. fault ≡ SimFault.Memory) }
    {
        self.ended.reserve(1)?;
        let incarnation = self.incarnation();
        let Ok(history) = History::new(self.alloc, incarnation + 1, self.kept) else {
            return Err(SimFault::Memory);
        };
        self.history = history;
        let changes = mem::replace(&mut self.changes, Vec::new(self.alloc));
        let Ok(()) = self.ended.push(Ended {
            incarnation,
            changes,
        })
        else {
            unreachable!();
        };
        Ok(())
    }

    // Its reply to what is asked, by its history now. It may freeze a set for it.
    pub(crate) fn since(&mut self, ask: &Ask) -> Result<Reply, AllocError>
        ensures ok { IfOk result (λ reply. Answers self.old ask.now reply self.new) }
        ensures unchanged { OnErr result (self.new ≡ self.old) }
    {
        self.history.since(ask)
    }
}
