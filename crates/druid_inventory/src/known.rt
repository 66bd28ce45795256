//! What is known of one node.
ghost use Rattle.std.specs.Prelude.{◌≡◌, ◌≢◌, ◌↔◌, ◌≤◌, length, List, Some, IsTrue, IfOk, OnOk, OnErr};
ghost use Rattle.druid_segment_descriptor.specs.Described.{Described};
ghost use Rattle.druid_segment_descriptor.specs.Mark.{never};
ghost use Rattle.druid_segment_descriptor.specs.Reply.{max_changes};
ghost use Rattle.druid_segment_descriptor.specs.Replay.{IsSegmentSet, replay_from};
ghost use Rattle.druid_segment_descriptor.specs.declared.reply.Body.TheVariants.{Snapshot};
ghost use Rattle.druid_inventory.specs.Entry.{Entry, fresh};
ghost use Rattle.druid_inventory.specs.Equality.{same_entry, same_entry-per};
ghost use Rattle.druid_inventory.specs.Moves.{Moves};
ghost use Rattle.druid_inventory.specs.Step.{moved_to};
ghost use Rattle.druid_inventory.specs.Timelines.{AreTimelines, ServesWith};

use crate::changes::advance_set;
use crate::replies::snapshot_of;
use crate::timelines::Timelines;
use druid_segment_descriptor::{Change, Descriptor, Mark, NodeNo, Reply};
use druid_segment_id::Name;
use std::alloc::{AllocError, Global};
use std::marker::Model;

// A node's name, how far its history has been followed, and what it serves at that mark, by identifier.
#[derive(Debug, Drop)]
pub(crate) struct KnownNode {
    name: Name,
    mark: Mark,
    set: Vec<Descriptor>,
}

impl Model for KnownNode {
    ghost use Rattle.druid_inventory.specs.Entry.{Entry};
    ghost use Rattle.druid_inventory.specs.Timelines.{IsEntry};

    ghost Value = { Entry };

    ghost view = { λ a. record { name = a.name; mark = a.mark; set = a.set.items } };

    ghost invariant = { λ a. IsEntry (record { name = a.name; mark = a.mark; set = a.set.items }) };
}

impl KnownNode {
    // A node that was never synced.
    pub(crate) fn fresh(alloc: Global, name: Name) -> KnownNode
        ensures { result ≡ fresh name }
    {
        KnownNode {
            name,
            mark: Mark::never(),
            set: Vec::new(alloc),
        }
    }

    // The node at another mark, with another set.
    pub(crate) fn with_set(&self, at: Mark, set: Vec<Descriptor>) -> Result<KnownNode, AllocError>
        requires set { IsSegmentSet set.items }
        requires incarnation { 1 ≤ at.incarnation }
        ensures { IfOk result (λ known. known ≡ moved_to self.now at set.items) }
    {
        Ok(KnownNode {
            name: self.name.clone()?,
            mark: at,
            set,
        })
    }

    // Moves to another mark, by changes of the set, and edits the timelines by them.
    pub(crate) fn advance(
        &mut self,
        timelines: &mut Timelines,
        alloc: Global,
        node: NodeNo,
        to: Mark,
        changes: &[Change],
    ) -> Result<(), AllocError>
        requires incarnation { 1 ≤ to.incarnation }
        requires few { length changes.now ≤ max_changes }
        requires made { (t : List Described) × (replay_from self.old.set changes.now ≡ Some t) }
        requires over { (entries : List Entry) × AreTimelines (ServesWith entries node self.old.set) timelines.old }
        ensures ok { OnOk result (Moves self.old self.new to changes.now) }
        ensures err { OnErr result (self.new ≡ self.old) }
        ensures over { (entries : List Entry) → AreTimelines (ServesWith entries node self.old.set) timelines.old
            → AreTimelines (ServesWith entries node self.new.set) timelines.new }
    {
        advance_set(&mut self.set, timelines, alloc, node, changes)?;
        self.mark = to;
        Ok(())
    }

    // The node's name.
    pub(crate) fn name(&self) -> &Name
        ensures { result.now ≡ self.now.name }
    {
        &self.name
    }

    // How far the node's history has been followed.
    pub(crate) fn mark(&self) -> Mark
        ensures { result ≡ self.now.mark }
    {
        self.mark
    }

    // How far the history of the node, which was synced, has been followed.
    pub(crate) fn synced_mark(&self) -> Mark
        requires { self.now.mark ≢ never }
        ensures value { result ≡ self.now.mark }
        ensures valid { 1 ≤ result.incarnation }
    {
        self.mark
    }

    // What the node serves at its mark.
    pub(crate) fn set(&self) -> &[Descriptor]
        ensures value { result.now ≡ self.now.set }
        ensures valid { IsSegmentSet self.now.set }
    {
        self.set.as_slice()
    }

    // Whether the node was synced.
    pub(crate) fn is_synced(&self) -> bool
        ensures { IsTrue result ↔ (self.now.mark ≢ never) }
    {
        self.mark != Mark::never()
    }

    // All that the node serves at its mark.
    pub(crate) fn snapshot(&self, alloc: Global) -> Result<Reply, AllocError>
        requires { self.now.mark ≢ never }
        ensures { IfOk result (λ reply. reply ≡ Snapshot self.now.mark self.now.set) }
    {
        let set = copy_of(alloc, &self.set)?;
        Ok(snapshot_of(self.mark, set))
    }
}

impl Clone for KnownNode {
    ghost is_clone = { λ known copy. copy ≡ known };

    fn clone(&self) -> Result<KnownNode, AllocError> {
        Ok(KnownNode {
            name: self.name.clone()?,
            mark: self.mark,
            set: self.set.clone()?,
        })
    }
}

impl PartialEq for KnownNode {
    ghost eq = { same_entry };

    ghost laws = { same_entry-per };

    #[tactic(auto, using(crate::proofs::JoinLemmas::equality_facts))]
    fn eq(&self, other: &KnownNode) -> bool
        ensures value { result ≡ same_entry self.now other.now }
        ensures same { IsTrue result ↔ (self.now ≡ other.now) }
    {
        self.name == other.name && self.mark == other.mark && self.set == other.set
    }
}

pub(crate) fn copy_of(alloc: Global, set: &[Descriptor]) -> Result<Vec<Descriptor>, AllocError>
    ensures { IfOk result (λ copy. copy.items ≡ set.now) }
{
    let mut copy = Vec::with_capacity(alloc, set.len())?;
    for descriptor in set {
        copy.push(descriptor.clone()?)?;
    }
    Ok(copy)
}

// Whether the sets are equal.
pub(crate) fn are_same(a: &[Descriptor], b: &[Descriptor]) -> bool
    ensures { IsTrue result ↔ (a.now ≡ b.now) }
{
    if a.len() != b.len() {
        return false;
    }
    for i in 0..a.len() {
        if a[i] != b[i] {
            return false;
        }
    }
    true
}
