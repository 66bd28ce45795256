//! The members of one chunk, a set of nodes and partitions. A removal may not fail, so the map of
//! partitions is not cut into shared parts: it would have to copy one.
ghost use Rattle.std.specs.Prelude.{◌≡◌, ℕ, ◌↔◌, ◌≤◌, ◌<◌, ◌⊎◌, [], List, IsTrue, IsSome, is_some, IfOk, IsOkAnd, OnErr, Contains, unwrap_or, map, Some};
ghost use Rattle.std.specs.Ordering.{nat_cmp};
ghost use Rattle.std.specs.BTreeMap as tree;
ghost use Rattle.std.specs.List.Sorted.{IsStrictlyIncreasing};
ghost use Rattle.druid_timeline_members.specs.Slots as specs;
ghost use Rattle.druid_timeline_members.specs.Slots.{Replica, Serves, NoneEmpty, SlotMap, IsAlone, member_at, members_in, kept_below};
ghost use Rattle.druid_timeline_members.specs.Members.{Member, member_of, core_count, IsAt, IsComplete, HasMember, HoldsPlace, ServesPlace, HasPartition, Adds, RemovesPlace, RemovesOne, AllAt, SameMembers, ServedOnce};

use crate::replicas::Statement;
use crate::slot::Slot;
use druid_segment_descriptor::{Descriptor, NodeNo};
use std::alloc::{AllocError, Global};
use std::collections::BTreeMap;
use std::marker::Model;

/// The members of one chunk: which node holds which of its partitions, the number of core partitions that each names, and
/// whether it serves rows of it: a tombstone has none. The caller keeps one for each chunk.
#[derive(Debug, Drop)]
pub struct Members {
    alloc: Global,
    slots: BTreeMap<u16, Slot>,
    core: u16,
    // How many of the core partitions are there.
    within: u16,
    has_member: bool,
}

impl Model for Members {
    ghost use Rattle.std.specs.Prelude.{List, ◌≡◌, ◌↔◌, IsTrue};
    ghost use Rattle.druid_timeline_members.specs.Members.{Member, HasMember, core_count};
    ghost use Rattle.druid_timeline_members.specs.Slots.{members_in, NoneEmpty, kept_below};

    ghost Value = { List Member };

    ghost view = { λ a. members_in a.slots.entries };

    ghost invariant = { λ a. (a.core ≡ core_count (members_in a.slots.entries))
        × (IsTrue a.has_member ↔ HasMember (members_in a.slots.entries))
        × NoneEmpty a.slots
        × (a.within ≡ kept_below a.slots a.core) };
}

// Adds a node with what it states to a partition. False where it is there already.
fn add_member(
    alloc: Global,
    slots: &mut BTreeMap<u16, Slot>,
    partition: u16,
    node: NodeNo,
    stated: Statement,
) -> Result<bool, AllocError>
    ensures held { IfOk result (λ added. IsTrue added
        ↔ (Contains (map (λ r. r.0) (unwrap_or (tree.get nat_cmp slots.old partition) [])) node → ⊥)) }
    ensures added { IsOkAnd result IsTrue → (r : Replica)
        → Contains (unwrap_or (tree.get nat_cmp slots.new partition) []) r
        ↔ ((r ≡ (node, stated)) ⊎ Contains (unwrap_or (tree.get nat_cmp slots.old partition) []) r) }
    ensures same { IfOk result (λ added. IsTrue added
        ⊎ (unwrap_or (tree.get nat_cmp slots.new partition) [] ≡ unwrap_or (tree.get nat_cmp slots.old partition) [])) }
    ensures err { OnErr result
        (unwrap_or (tree.get nat_cmp slots.new partition) [] ≡ unwrap_or (tree.get nat_cmp slots.old partition) []) }
    ensures absent { OnErr result
        (Contains (map (λ r. r.0) (unwrap_or (tree.get nat_cmp slots.old partition) [])) node → ⊥) }
    ensures others { (q : ℕ) → (q ≡ partition → ⊥) → tree.get nat_cmp slots.new q ≡ tree.get nat_cmp slots.old q }
    ensures ordered { tree.IsOrdered nat_cmp slots.new }
    ensures was_ordered { tree.IsOrdered nat_cmp slots.old }
    ensures none_empty { NoneEmpty slots.old → NoneEmpty slots.new }
{
    // For the proof: reading it exposes the invariant of its type.
    let _ = slots.len();
    if let Some(slot) = slots.get_mut(&partition) {
        return slot.add(alloc, node, stated);
    }
    slots.insert(partition, Slot::of(node, stated))?;
    Ok(true)
}

// Takes a node out of a partition. False where it is not there. No partition stays without a node.
fn remove_member(slots: &mut BTreeMap<u16, Slot>, partition: u16, node: NodeNo) -> bool
    requires { NoneEmpty slots.old }
    ensures held { IsTrue result
        ↔ Contains (map (λ r. r.0) (unwrap_or (tree.get nat_cmp slots.old partition) [])) node }
    ensures removed { (r : Replica) → Contains (unwrap_or (tree.get nat_cmp slots.new partition) []) r
        ↔ (Contains (unwrap_or (tree.get nat_cmp slots.old partition) []) r × (r.0 ≡ node → ⊥)) }
    ensures one { IsTrue result → (stated : specs.Statement) × ((r : Replica)
        → Contains (unwrap_or (tree.get nat_cmp slots.old partition) []) r
        ↔ ((r ≡ (node, stated)) ⊎ Contains (unwrap_or (tree.get nat_cmp slots.new partition) []) r)) }
    ensures others { (q : ℕ) → (q ≡ partition → ⊥) → tree.get nat_cmp slots.new q ≡ tree.get nat_cmp slots.old q }
    ensures ordered { tree.IsOrdered nat_cmp slots.new }
    ensures was_ordered { tree.IsOrdered nat_cmp slots.old }
    ensures none_empty { NoneEmpty slots.new }
{
    // For the proof: reading it exposes the invariant of its type.
    let _ = slots.len();
    let Some(slot) = slots.get_mut(&partition) else {
        return false;
    };
    if slot.is_only(node) {
        slots.remove(&partition);
        return true;
    }
    slot.remove(node)
}

// The greatest number of core partitions that a member names. It is at most `bound`, so nothing is looked at after
// the first member that names as many.
fn core_of(slots: &BTreeMap<u16, Slot>, bound: u16) -> u16
    requires { core_count (members_in slots.now.entries) ≤ bound }
    ensures { result ≡ core_count (members_in slots.now.entries) }
{
    let mut core: u16 = 0;
    for (_, slot) in slots.iter() {
        core = core.max(slot.core());
        if core == bound {
            return core;
        }
    }
    core
}

// The greatest number of core partitions that a node names with a partition, but for one place.
fn core_beside(slot: &Slot, partition: u16, at: u16, node: NodeNo) -> u16
    ensures most { (r : Replica) → Contains slot.now r → (IsAt at node (member_at partition r) → ⊥) → r.1.core ≤ result }
    ensures some { (result ≡ 0)
        ⊎ ((r : Replica) × Contains slot.now r × (IsAt at node (member_at partition r) → ⊥) × (r.1.core ≡ result)) }
{
    if partition == at {
        slot.core_without(node)
    } else {
        slot.core()
    }
}

// The greatest number of core partitions that a member names, but for one place. It is at most `bound`, so nothing is
// looked at after the first member that names as many.
fn core_without(slots: &BTreeMap<u16, Slot>, at: u16, node: NodeNo, bound: u16) -> u16
    requires { core_count (members_in slots.now.entries) ≤ bound }
    ensures { (left : List Member) → RemovesPlace (members_in slots.now.entries) left at node → result ≡ core_count left }
{
    let mut core: u16 = 0;
    for (partition, slot) in slots.iter() {
        core = core.max(core_beside(slot, *partition, at, node));
        if core == bound {
            return core;
        }
    }
    core
}

// How many of the partitions below a bound are there.
fn count_below(slots: &BTreeMap<u16, Slot>, bound: u16) -> u16
    ensures { result ≡ kept_below slots.now bound }
{
    let mut count: u16 = 0;
    for (partition, _) in slots.iter() {
        if *partition < bound {
            count = count.saturating_add(1);
        }
    }
    count
}

// How many of the core partitions are there after a change of one partition, which `was` there or not, where as many
// as `within` were there of those below the core count `before`. All are counted only where the core count changed.
fn within_after(
    slots: &BTreeMap<u16, Slot>,
    partition: u16,
    was: bool,
    within: u16,
    before: u16,
    core: u16,
) -> u16
    ensures { (old : SlotMap) → ((q : ℕ) → (q ≡ partition → ⊥) → tree.get nat_cmp slots.now q ≡ tree.get nat_cmp old q)
        → was ≡ is_some (tree.get nat_cmp old partition) → within ≡ kept_below old before
        → result ≡ kept_below slots.now core }
{
    if before != core {
        return count_below(slots, core);
    }
    let is = slots.contains_key(&partition);
    if is == was {
        return within;
    }
    if partition >= core {
        return within;
    }
    if is {
        within.saturating_add(1)
    } else {
        within.saturating_sub(1)
    }
}

// How many of the partitions below one bound are there, where as many as `within` are below another.
fn count_within(slots: &BTreeMap<u16, Slot>, within: u16, before: u16, bound: u16) -> u16
    requires { within ≡ kept_below slots.now before }
    ensures { result ≡ kept_below slots.now bound }
{
    if bound == before {
        return within;
    }
    count_below(slots, bound)
}

// Whether all partitions below a bound are there, or are this one, where as many as `within` are there.
fn are_all_but(slots: &BTreeMap<u16, Slot>, partition: u16, within: u16, bound: u16) -> bool
    requires { within ≡ kept_below slots.now bound }
    ensures { IsTrue result
        ↔ ((q : ℕ) → q < bound → (q ≡ partition) ⊎ IsSome (tree.get nat_cmp slots.now q)) }
{
    if partition < bound && !slots.contains_key(&partition) {
        return within.saturating_add(1) == bound;
    }
    within == bound
}

// A copy of the slots.
fn copy_of(slots: &BTreeMap<u16, Slot>) -> Result<BTreeMap<u16, Slot>, AllocError>
    ensures { IfOk result (tree.IsUnchanged slots.now) }
{
    slots.clone()
}

// The keys of a map, in order.
fn keys_of(alloc: Global, slots: &BTreeMap<u16, Slot>) -> Result<Vec<u16>, AllocError>
    ensures { IfOk result (λ v. v.items ≡ tree.keys slots.now) }
{
    slots.keys().copied().collect(alloc)
}

impl Members {
    /// No members.
    pub fn new(alloc: Global) -> Members
        ensures { result ≡ [] }
    {
        Members {
            alloc,
            slots: BTreeMap::new(alloc),
            core: 0,
            within: 0,
            has_member: false,
        }
    }

    /// Adds the partition of a descriptor, held by a node.
    ///
    /// # Errors
    ///
    /// False where the node holds that partition already; then out of memory. Leaves the same set of
    /// members.
    pub fn add(&mut self, descriptor: &Descriptor, node: NodeNo) -> Result<bool, AllocError>
        ensures held { IfOk result (λ added. IsTrue added
            ↔ (HoldsPlace self.old descriptor.now.id.partition node → ⊥)) }
        ensures added { IsOkAnd result IsTrue → Adds self.old self.new (member_of node descriptor.now) }
        ensures same { IfOk result (λ added. IsTrue added ⊎ SameMembers self.old self.new) }
        ensures err { OnErr result (SameMembers self.old self.new) }
        ensures absent { OnErr result (HoldsPlace self.old descriptor.now.id.partition node → ⊥) }
    {
        let partition = descriptor.id().partition();
        let core = descriptor.core();
        let was = self.slots.contains_key(&partition);
        let stated = Statement::of(descriptor);
        let added = add_member(self.alloc, &mut self.slots, partition, node, stated)?;
        if added {
            let before = self.core;
            self.core = self.core.max(core);
            self.within = within_after(&self.slots, partition, was, self.within, before, self.core);
            self.has_member = true;
        }
        Ok(added)
    }

    /// Takes a partition from what a node holds. Does not allocate.
    ///
    /// # Errors
    ///
    /// False where the node does not hold it. Leaves the same set of members.
    pub fn remove(&mut self, partition: u16, node: NodeNo) -> bool
        ensures held { IsTrue result ↔ HoldsPlace self.old partition node }
        ensures removed { RemovesPlace self.old self.new partition node }
        ensures one { IsTrue result → RemovesOne self.old self.new partition node }
        ensures same { IsTrue result ⊎ SameMembers self.old self.new }
    {
        let was = self.slots.contains_key(&partition);
        let removed = remove_member(&mut self.slots, partition, node);
        if removed {
            let before = self.core;
            self.core = core_of(&self.slots, before);
            self.within = within_after(&self.slots, partition, was, self.within, before, self.core);
            self.has_member = !self.slots.is_empty();
        }
        removed
    }

    /// Whether there is no member.
    pub fn is_empty(&self) -> bool
        ensures { IsTrue result ↔ (HasMember self.now → ⊥) }
    {
        !self.has_member
    }

    /// Whether no member would be left without the one of this partition that this node holds.
    pub fn is_only(&self, partition: u16, node: NodeNo) -> bool
        ensures { IsTrue result ↔ AllAt self.now partition node }
    {
        for (other, slot) in self.slots.iter() {
            if *other != partition || !slot.is_only(node) {
                return false;
            }
        }
        true
    }

    /// The greatest number of core partitions that a member names, and 0 without members.
    pub fn core(&self) -> u16
        ensures { result ≡ core_count self.now }
    {
        self.core
    }

    /// The nodes that hold a partition, rising.
    pub fn replicas(&self, partition: u16) -> &[NodeNo]
        ensures rising { IsStrictlyIncreasing result.now }
        ensures nodes { (n : ℕ) → Contains result.now n ↔ HoldsPlace self.now partition n }
        ensures once { ServedOnce self.now partition }
    {
        // For the proof: reading it exposes the invariant of its type.
        let _ = self.slots.len();
        match self.slots.get(&partition) {
            Some(slot) => slot.nodes(),
            None => &[],
        }
    }

    /// The nodes that hold a partition as no tombstone, rising.
    pub fn served(&self, partition: u16) -> &[NodeNo]
        ensures rising { IsStrictlyIncreasing result.now }
        ensures nodes { (n : ℕ) → Contains result.now n ↔ ServesPlace self.now partition n }
    {
        // For the proof: reading it exposes the invariant of its type.
        let _ = self.slots.len();
        match self.slots.get(&partition) {
            Some(slot) => slot.serving(),
            None => &[],
        }
    }

    /// The partitions that a node holds, rising.
    ///
    /// # Errors
    ///
    /// Out of memory.
    pub fn partitions(&self) -> Result<Vec<u16>, AllocError>
        ensures rising { IfOk result (λ v. IsStrictlyIncreasing v.items) }
        ensures all { IfOk result (λ v. (p : ℕ) → Contains v.items p ↔ HasPartition self.now p) }
    {
        // For the proof: reading it exposes the invariant of its type.
        let _ = self.slots.len();
        let keys = keys_of(self.alloc, &self.slots)?;
        Ok(keys)
    }

    /// Whether there is a member and each core partition is some member's. It looks at no partition.
    pub fn is_complete(&self) -> bool
        ensures { IsTrue result ↔ IsComplete self.now }
    {
        // For the proof: reading it exposes the invariant of its type.
        let _ = self.slots.len();
        if self.within != self.core {
            return false;
        }
        self.has_member
    }
}

impl Members {
    /// Whether the chunk would be complete with one member more, of this descriptor. It does not allocate.
    pub fn is_complete_with(&self, descriptor: &Descriptor) -> bool
        ensures { (new : List Member) (node : ℕ) → Adds self.now new (member_of node descriptor.now)
            → IsTrue result ↔ IsComplete new }
    {
        let partition = descriptor.id().partition();
        let core = self.core.max(descriptor.core());
        // For the proof: reading it exposes the invariant of its type.
        let _ = self.slots.len();
        let within = count_within(&self.slots, self.within, self.core, core);
        are_all_but(&self.slots, partition, within, core)
    }

    // Whether a partition is there, and is this node's alone.
    fn is_alone(&self, partition: u16, node: NodeNo) -> bool
        ensures { IsTrue result ↔ IsAlone self.now partition node }
    {
        // For the proof: reading it exposes the invariant of its type.
        let _ = self.slots.len();
        match self.slots.get(&partition) {
            Some(slot) => slot.is_only(node),
            None => false,
        }
    }

    // Whether a partition lies below a bound, and is this node's alone.
    fn is_alone_below(&self, partition: u16, node: NodeNo, bound: u16) -> bool
        ensures { IsTrue result ↔ ((partition < bound) × IsAlone self.now partition node) }
    {
        if partition < bound {
            self.is_alone(partition, node)
        } else {
            false
        }
    }

    /// Whether the chunk would be complete without this partition of this node. It does not allocate.
    pub fn is_complete_without(&self, partition: u16, node: NodeNo) -> bool
        ensures { (left : List Member) → RemovesPlace self.now left partition node → IsTrue result ↔ IsComplete left }
    {
        if self.is_only(partition, node) {
            return false;
        }
        // For the proof: reading it exposes the invariant of its type.
        let _ = self.slots.len();
        let core = core_without(&self.slots, partition, node, self.core);
        if self.is_alone_below(partition, node, core) {
            return false;
        }
        count_within(&self.slots, self.within, self.core, core) == core
    }
}

impl Clone for Members {
    ghost is_clone = { λ members copy. copy ≡ members };

    fn clone(&self) -> Result<Members, AllocError> {
        Ok(Members {
            alloc: self.alloc,
            slots: copy_of(&self.slots)?,
            core: self.core,
            within: self.within,
            has_member: self.has_member,
        })
    }
}
