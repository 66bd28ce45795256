//! The nodes that hold one partition. A delta copies the map of a chunk that others share, so a
//! partition of one node is that node and what it states, in the map itself.
ghost use Rattle.std.specs.Prelude.{◌≡◌, ◌≤◌, ℕ, ◌↔◌, ◌⊎◌, [], ◌∷◌, IsTrue, IfOk, IsOkAnd, OnErr, Contains, map};
ghost use Rattle.std.specs.List.Sorted.{IsStrictlyIncreasing};
ghost use Rattle.druid_timeline_members.specs.Members.{core_count};
ghost use Rattle.druid_timeline_members.specs.Slots as specs;
ghost use Rattle.druid_timeline_members.specs.Slots.{Replica, Serves, EachOnce, member_at};

use crate::replicas::Statement;
use crate::roster::Roster;
use druid_segment_descriptor::NodeNo;
use std::alloc::{AllocError, Global};
use std::marker::Model;
use std::slice;

// The nodes that hold one partition: nearly always one, which needs no memory of its own.
#[derive(Debug, Drop)]
pub(crate) struct Slot {
    holders: Holders,
}

#[derive(Debug, Drop)]
enum Holders {
    One(NodeNo, Statement),
    Several(Box<Roster>),
}

impl Model for Slot {
    ghost use Rattle.std.specs.Prelude.{List};
    ghost use Rattle.druid_timeline_members.specs.Slots.{Replica};

    ghost Value = { List Replica };

    ghost use Rattle.druid_timeline_members.specs.Holders.{replicas_of};

    ghost view = { λ a. replicas_of a.holders };
}

// A roster of two nodes.
fn roster_of(
    alloc: Global,
    first: (NodeNo, Statement),
    second: (NodeNo, Statement),
) -> Result<Box<Roster>, AllocError>
    requires { first.0 ≡ second.0 → ⊥ }
    ensures { IfOk result (λ roster. (x : Replica) → Contains roster.value x ↔ ((x ≡ second) ⊎ Contains (first ∷ []) x)) }
{
    let mut roster = Roster::new(alloc);
    roster.add(first.0, first.1)?;
    roster.add(second.0, second.1)?;
    Ok(Box::new(alloc, roster)?)
}

impl Slot {
    // One node.
    pub(crate) fn of(node: NodeNo, stated: Statement) -> Slot
        ensures { result ≡ (node, stated) ∷ [] }
    {
        Slot {
            holders: Holders::One(node, stated),
        }
    }

    // The nodes.
    pub(crate) fn nodes(&self) -> &[NodeNo]
        ensures value { result.now ≡ map (λ r. r.0) self.now }
        ensures once { EachOnce self.now }
        ensures rising { IsStrictlyIncreasing result.now }
    {
        match &self.holders {
            Holders::One(node, _) => slice::from_ref(node),
            Holders::Several(roster) => roster.nodes(),
        }
    }

    // The nodes that hold the partition as no tombstone.
    pub(crate) fn serving(&self) -> &[NodeNo]
        ensures nodes { (n : ℕ) → Contains result.now n ↔ Serves self.now n }
        ensures rising { IsStrictlyIncreasing result.now }
    {
        match &self.holders {
            Holders::One(node, stated) => {
                if stated.serves {
                    slice::from_ref(node)
                } else {
                    &[]
                }
            }
            Holders::Several(roster) => roster.serving(),
        }
    }

    // Adds a node with what it states. False where it is there already.
    pub(crate) fn add(
        &mut self,
        alloc: Global,
        node: NodeNo,
        stated: Statement,
    ) -> Result<bool, AllocError>
        ensures held { IfOk result (λ added. IsTrue added ↔ (Contains (map (λ r. r.0) self.old) node → ⊥)) }
        ensures added { IsOkAnd result IsTrue → (x : Replica) → Contains self.new x ↔ ((x ≡ (node, stated)) ⊎ Contains self.old x) }
        ensures same { IfOk result (λ added. IsTrue added ⊎ (self.new ≡ self.old)) }
        ensures err { OnErr result (self.new ≡ self.old) }
        ensures absent { OnErr result (Contains (map (λ r. r.0) self.old) node → ⊥) }
    {
        match &mut self.holders {
            Holders::One(other, theirs) => {
                if *other == node {
                    return Ok(false);
                }
                let roster = roster_of(alloc, (*other, *theirs), (node, stated))?;
                self.holders = Holders::Several(roster);
                Ok(true)
            }
            Holders::Several(roster) => roster.add(node, stated),
        }
    }

    // Takes a node out that is not the only one. False where it is not there.
    pub(crate) fn remove(&mut self, node: NodeNo) -> bool
        requires { ((x : Replica) → Contains self.old x → x.0 ≡ node) → ⊥ }
        ensures held { IsTrue result ↔ Contains (map (λ r. r.0) self.old) node }
        ensures removed { (x : Replica) → Contains self.new x ↔ (Contains self.old x × (x.0 ≡ node → ⊥)) }
        ensures one { IsTrue result → (stated : specs.Statement)
            × ((x : Replica) → Contains self.old x ↔ ((x ≡ (node, stated)) ⊎ Contains self.new x)) }
    {
        let Holders::Several(roster) = &mut self.holders else {
            return false;
        };
        roster.remove(node)
    }

    // Whether there is no other node than this.
    pub(crate) fn is_only(&self, node: NodeNo) -> bool
        ensures value { IsTrue result ↔ ((x : Replica) → Contains self.now x → x.0 ≡ node) }
        ensures once { EachOnce self.now }
    {
        match &self.holders {
            Holders::One(other, _) => *other == node,
            Holders::Several(roster) => roster.is_only(node),
        }
    }

    // The greatest number of core partitions that a node names.
    pub(crate) fn core(&self) -> u16
        ensures { (p : ℕ) → result ≡ core_count (map (member_at p) self.now) }
    {
        match &self.holders {
            Holders::One(_, stated) => stated.core,
            Holders::Several(roster) => roster.core(),
        }
    }

    // The greatest number of core partitions that another node names.
    pub(crate) fn core_without(&self, node: NodeNo) -> u16
        ensures most { (r : Replica) → Contains self.now r → (r.0 ≡ node → ⊥) → r.1.core ≤ result }
        ensures some { (result ≡ 0)
            ⊎ ((r : Replica) × Contains self.now r × (r.0 ≡ node → ⊥) × (r.1.core ≡ result)) }
    {
        match &self.holders {
            Holders::One(other, stated) => { if *other == node { 0 } else { stated.core } }
            Holders::Several(roster) => roster.core_without(node),
        }
    }
}

impl Clone for Slot {
    ghost is_clone = { λ slot copy. copy ≡ slot };

    fn clone(&self) -> Result<Slot, AllocError> {
        let holders = match &self.holders {
            Holders::One(node, stated) => Holders::One(*node, *stated),
            Holders::Several(roster) => Holders::Several(roster.clone()?),
        };
        Ok(Slot { holders })
    }
}
