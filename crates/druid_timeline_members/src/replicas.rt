//! What each of several nodes states of one partition.
ghost use Rattle.std.specs.Prelude.{◌≡◌, ℕ, ◌≤◌, ◌↔◌, ◌⊎◌, ◌<◌, [], IsTrue, IfOk, IfErr, IsOkAnd, OnOk, OnErr, insert, get_or, Contains, map, length};
ghost use Rattle.std.specs.List.{zip};
ghost use Rattle.std.specs.List.Sorted.{IsStrictlyIncreasing};
ghost use Rattle.druid_timeline_members.specs.Members.{core_count};
ghost use Rattle.druid_timeline_members.specs.Slots as slots;
ghost use Rattle.druid_timeline_members.specs.Slots.{Replica, EachOnce, stated_of, member_at};

use druid_segment_descriptor::{Descriptor, NodeNo};
use std::alloc::{AllocError, Global};
use std::marker::Model;

// What a node states of a partition that it holds: the number of core partitions, and whether it serves rows of it.
#[derive(Clone, Copy, Debug)]
pub(crate) struct Statement {
    pub(crate) core: u16,
    pub(crate) serves: bool,
}

impl Model for Statement {
    ghost use Rattle.druid_timeline_members.specs.Slots as slots;

    ghost Value = { slots.Statement };

    ghost view = { λ a. record { core = a.core; serves = a.serves } };

    ghost inverse = { λ s. record { core = s.core; serves = s.serves } };
}

impl Statement {
    // What a node states with a descriptor.
    pub(crate) fn of(descriptor: &Descriptor) -> Statement
        ensures { result ≡ stated_of descriptor.now }
    {
        Statement {
            core: descriptor.core(),
            serves: !descriptor.is_tombstone(),
        }
    }
}

// The nodes that hold one partition, rising, and beside each what it states.
#[derive(Debug, Drop)]
pub(crate) struct Replicas {
    nodes: Vec<NodeNo>,
    stated: Vec<Statement>,
}

impl Model for Replicas {
    ghost use Rattle.std.specs.Prelude.{◌≡◌, List, length};
    ghost use Rattle.druid_timeline_members.specs.Slots.{Replica};
    ghost use Rattle.std.specs.List.{zip};
    ghost use Rattle.std.specs.List.Sorted.{IsStrictlyIncreasing};

    ghost Value = { List Replica };

    ghost view = { λ a. zip a.nodes.items a.stated.items };

    ghost invariant = { λ a. (length a.nodes.items ≡ length a.stated.items) × IsStrictlyIncreasing a.nodes.items };
}

// The place of a node among these; if it is not there, the place that it would have.
pub(crate) fn place_of(nodes: &[NodeNo], node: NodeNo) -> Result<usize, usize>
    requires { IsStrictlyIncreasing nodes.now }
    ensures found { OnOk result (Contains nodes.now node) }
    ensures place { IfOk result (λ i. (i < length nodes.now) × (get_or nodes.now i 0 ≡ node)) }
    ensures absent { OnErr result (Contains nodes.now node → ⊥) }
    ensures within { IfErr result (λ i. i ≤ length nodes.now) }
    ensures rising { IfErr result (λ i. IsStrictlyIncreasing (insert nodes.now i node)) }
{
    for (i, other) in nodes.iter().enumerate() {
        if *other == node {
            return Ok(i);
        }
        if *other > node {
            return Err(i);
        }
    }
    Err(nodes.len())
}

// The greatest number of core partitions that another of these nodes names.
fn core_of_others(nodes: &[NodeNo], stated: &[Statement], node: NodeNo) -> u16
    requires { length nodes.now ≡ length stated.now }
    ensures most { (r : Replica) → Contains (zip nodes.now stated.now) r → (r.0 ≡ node → ⊥) → r.1.core ≤ result }
    ensures some { (result ≡ 0)
        ⊎ ((r : Replica) × Contains (zip nodes.now stated.now) r × (r.0 ≡ node → ⊥) × (r.1.core ≡ result)) }
{
    let mut core: u16 = 0;
    for i in 0..nodes.len() {
        if nodes[i] != node {
            let own = stated[i];
            core = core.max(own.core);
        }
    }
    core
}

impl Replicas {
    // No node.
    pub(crate) fn new(alloc: Global) -> Replicas
        ensures { result ≡ [] }
    {
        Replicas {
            nodes: Vec::new(alloc),
            stated: Vec::new(alloc),
        }
    }

    // The nodes.
    pub(crate) fn nodes(&self) -> &[NodeNo]
        ensures value { result.now ≡ map (λ r. r.0) self.now }
        ensures once { EachOnce self.now }
        ensures rising { IsStrictlyIncreasing result.now }
    {
        self.nodes.as_slice()
    }

    // Whether a node is there.
    pub(crate) fn holds(&self, node: NodeNo) -> bool
        ensures { IsTrue result ↔ Contains (map (λ r. r.0) self.now) node }
    {
        match place_of(&self.nodes, node) {
            Ok(_) => true,
            Err(_) => false,
        }
    }

    // Adds a node with what it states. False where it is there already.
    pub(crate) fn add(&mut self, node: NodeNo, stated: Statement) -> Result<bool, AllocError>
        ensures held { IfOk result (λ added. IsTrue added ↔ (Contains (map (λ r. r.0) self.old) node → ⊥)) }
        ensures added { IsOkAnd result IsTrue → (x : Replica) → Contains self.new x ↔ ((x ≡ (node, stated)) ⊎ Contains self.old x) }
        ensures same { IfOk result (λ added. IsTrue added ⊎ (self.new ≡ self.old)) }
        ensures err { OnErr result (self.new ≡ self.old) }
    {
        let Err(at) = place_of(&self.nodes, node) else {
            return Ok(false);
        };
        self.nodes.insert(at, node)?;
        let Ok(()) = self.stated.insert(at, stated) else {
            self.nodes.remove(at);
            return Err(AllocError);
        };
        Ok(true)
    }

    // Takes a node out. False where it is not there.
    pub(crate) fn remove(&mut self, node: NodeNo) -> bool
        ensures held { IsTrue result ↔ Contains (map (λ r. r.0) self.old) node }
        ensures removed { (x : Replica) → Contains self.new x ↔ (Contains self.old x × (x.0 ≡ node → ⊥)) }
        ensures one { IsTrue result → (stated : slots.Statement)
            × ((x : Replica) → Contains self.old x ↔ ((x ≡ (node, stated)) ⊎ Contains self.new x)) }
    {
        let Ok(at) = place_of(&self.nodes, node) else {
            return false;
        };
        // For the proof: reading it exposes the invariant of its type.
        let _ = self.stated.len();
        self.nodes.remove(at);
        self.stated.remove(at);
        true
    }

    // Whether there is no other node than this.
    pub(crate) fn is_only(&self, node: NodeNo) -> bool
        ensures value { IsTrue result ↔ ((x : Replica) → Contains self.now x → x.0 ≡ node) }
        ensures once { EachOnce self.now }
    {
        for other in &self.nodes {
            if *other != node {
                return false;
            }
        }
        true
    }

    // The greatest number of core partitions that a node names.
    pub(crate) fn core(&self) -> u16
        ensures { (p : ℕ) → result ≡ core_count (map (member_at p) self.now) }
    {
        let mut core: u16 = 0;
        for stated in &self.stated {
            core = core.max(stated.core);
        }
        core
    }

    // The greatest number of core partitions that another node names.
    pub(crate) fn core_without(&self, node: NodeNo) -> u16
        ensures most { (r : Replica) → Contains self.now r → (r.0 ≡ node → ⊥) → r.1.core ≤ result }
        ensures some { (result ≡ 0)
            ⊎ ((r : Replica) × Contains self.now r × (r.0 ≡ node → ⊥) × (r.1.core ≡ result)) }
    {
        core_of_others(&self.nodes, &self.stated, node)
    }
}

impl Clone for Replicas {
    ghost is_clone = { λ replicas copy. copy ≡ replicas };

    fn clone(&self) -> Result<Replicas, AllocError> {
        Ok(Replicas {
            nodes: self.nodes.clone()?,
            stated: self.stated.clone()?,
        })
    }
}
