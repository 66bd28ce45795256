//! The nodes that hold one partition, where there are several. Those that serve rows stand in a
//! second list, so that both are lent without memory.
ghost use Rattle.std.specs.Prelude.{◌≡◌, ◌≤◌, ℕ, ◌↔◌, ◌⊎◌, [], IsTrue, IfOk, IsOkAnd, OnOk, OnErr, Contains, map};
ghost use Rattle.std.specs.List.Sorted.{IsStrictlyIncreasing};
ghost use Rattle.druid_timeline_members.specs.Members.{core_count};
ghost use Rattle.druid_timeline_members.specs.Slots as specs;
ghost use Rattle.druid_timeline_members.specs.Slots.{Replica, Serves, EachOnce, member_at};

use crate::replicas::{Replicas, Statement, place_of};
use druid_segment_descriptor::NodeNo;
use std::alloc::{AllocError, Global};
use std::marker::Model;

// The nodes that hold one partition, and a list of those that hold it as no tombstone.
#[derive(Debug, Drop)]
pub(crate) struct Roster {
    replicas: Replicas,
    serving: Vec<NodeNo>,
}

impl Model for Roster {
    ghost use Rattle.std.specs.Prelude.{List, ℕ, ◌↔◌, Contains};
    ghost use Rattle.std.specs.List.Sorted.{IsStrictlyIncreasing};
    ghost use Rattle.druid_timeline_members.specs.Slots.{Replica, Serves};

    ghost Value = { List Replica };

    ghost view = { λ a. a.replicas };

    ghost invariant = { λ a. IsStrictlyIncreasing a.serving.items
        × ((n : ℕ) → Contains a.serving.items n ↔ Serves a.replicas n) };
}

// Puts a node among rising ones, at its place, where it serves and is not there.
fn insert_node(nodes: &mut Vec<NodeNo>, node: NodeNo, serves: bool) -> Result<(), AllocError>
    requires { IsStrictlyIncreasing nodes.old.items }
    ensures rising { IsStrictlyIncreasing nodes.new.items }
    ensures all { OnOk result ((n : ℕ) → Contains nodes.new.items n
        ↔ (((n ≡ node) × IsTrue serves) ⊎ Contains nodes.old.items n)) }
    ensures err { OnErr result (nodes.new.items ≡ nodes.old.items) }
{
    if !serves {
        return Ok(());
    }
    if let Err(at) = place_of(nodes, node) {
        nodes.insert(at, node)?;
    }
    Ok(())
}

// A copy of the nodes.
fn copy_of(nodes: &Vec<NodeNo>) -> Result<Vec<NodeNo>, AllocError>
    ensures { IfOk result (λ v. v.items ≡ nodes.now.items) }
{
    nodes.clone()
}

// Takes a node out of rising ones.
fn remove_node(nodes: &mut Vec<NodeNo>, node: NodeNo)
    requires { IsStrictlyIncreasing nodes.old.items }
    ensures rising { IsStrictlyIncreasing nodes.new.items }
    ensures all { (n : ℕ) → Contains nodes.new.items n ↔ (Contains nodes.old.items n × (n ≡ node → ⊥)) }
{
    if let Ok(at) = place_of(nodes, node) {
        nodes.remove(at);
    }
}

impl Roster {
    // No node.
    pub(crate) fn new(alloc: Global) -> Roster
        ensures { result ≡ [] }
    {
        Roster {
            replicas: Replicas::new(alloc),
            serving: Vec::new(alloc),
        }
    }

    // The nodes.
    pub(crate) fn nodes(&self) -> &[NodeNo]
        ensures value { result.now ≡ map (λ r. r.0) self.now }
        ensures once { EachOnce self.now }
        ensures rising { IsStrictlyIncreasing result.now }
    {
        self.replicas.nodes()
    }

    // The nodes that hold the partition as no tombstone.
    pub(crate) fn serving(&self) -> &[NodeNo]
        ensures nodes { (n : ℕ) → Contains result.now n ↔ Serves self.now n }
        ensures rising { IsStrictlyIncreasing result.now }
    {
        self.serving.as_slice()
    }

    // Adds a node with what it states. False where it is there already.
    pub(crate) fn add(&mut self, node: NodeNo, stated: Statement) -> Result<bool, AllocError>
        ensures held { IfOk result (λ added. IsTrue added ↔ (Contains (map (λ r. r.0) self.old) node → ⊥)) }
        ensures added { IsOkAnd result IsTrue → (x : Replica) → Contains self.new x ↔ ((x ≡ (node, stated)) ⊎ Contains self.old x) }
        ensures same { IfOk result (λ added. IsTrue added ⊎ (self.new ≡ self.old)) }
        ensures err { OnErr result (self.new ≡ self.old) }
        ensures absent { OnErr result (Contains (map (λ r. r.0) self.old) node → ⊥) }
    {
        if self.replicas.holds(node) {
            return Ok(false);
        }
        insert_node(&mut self.serving, node, stated.serves)?;
        match self.replicas.add(node, stated) {
            Ok(added) => Ok(added),
            Err(refused) => {
                remove_node(&mut self.serving, node);
                Err(refused)
            }
        }
    }

    // Takes a node out. False where it is not there.
    pub(crate) fn remove(&mut self, node: NodeNo) -> bool
        ensures held { IsTrue result ↔ Contains (map (λ r. r.0) self.old) node }
        ensures removed { (x : Replica) → Contains self.new x ↔ (Contains self.old x × (x.0 ≡ node → ⊥)) }
        ensures one { IsTrue result → (stated : specs.Statement)
            × ((x : Replica) → Contains self.old x ↔ ((x ≡ (node, stated)) ⊎ Contains self.new x)) }
    {
        remove_node(&mut self.serving, node);
        self.replicas.remove(node)
    }

    // Whether there is no other node than this.
    pub(crate) fn is_only(&self, node: NodeNo) -> bool
        ensures value { IsTrue result ↔ ((x : Replica) → Contains self.now x → x.0 ≡ node) }
        ensures once { EachOnce self.now }
    {
        self.replicas.is_only(node)
    }

    // The greatest number of core partitions that a node names.
    pub(crate) fn core(&self) -> u16
        ensures { (p : ℕ) → result ≡ core_count (map (member_at p) self.now) }
    {
        self.replicas.core()
    }

    // The greatest number of core partitions that another node names.
    pub(crate) fn core_without(&self, node: NodeNo) -> u16
        ensures most { (r : Replica) → Contains self.now r → (r.0 ≡ node → ⊥) → r.1.core ≤ result }
        ensures some { (result ≡ 0)
            ⊎ ((r : Replica) × Contains self.now r × (r.0 ≡ node → ⊥) × (r.1.core ≡ result)) }
    {
        self.replicas.core_without(node)
    }
}

impl Clone for Roster {
    ghost is_clone = { λ roster copy. copy ≡ roster };

    fn clone(&self) -> Result<Roster, AllocError> {
        Ok(Roster {
            replicas: self.replicas.clone()?,
            serving: copy_of(&self.serving)?,
        })
    }
}
