//! The chunks of a data source, in the order of their places.
ghost use Rattle.std.specs.Prelude.{◌≡◌, ◌↔◌, ◌≤◌, ℕ, List, [], length, map, vec_capacity, Contains, IsTrue, IsOk, IfOk, OnOk, OnErr, MatchOption};
ghost use Rattle.std.specs.List.{IsDistinct};
ghost use Rattle.std.specs.List.Sorted.{IsStrictlyIncreasing};
ghost use Rattle.druid_segment_id.specs.Group.{Group, group_of, same_group};
ghost use Rattle.druid_timeline_members.specs.Members.{Member, member_of, HoldsPlace, ServesPlace, IsComplete, Adds, RemovesPlace, RemovesOne, AllAt, SameMembers};
ghost use Rattle.druid_timeline_chunks.specs.Chunks.{AreChunks, members_at, HasNoChunk, IsOverlapOf};
ghost use Rattle.druid_timeline_chunks.specs.Places.{AreInOrder};

use crate::Chunk;
use crate::order::{find_in, seek};
use crate::overlap::overlaps_in;
use druid_segment_descriptor::{Descriptor, NodeNo};
use druid_segment_id::{GroupKey, SegmentId};
use druid_time::Interval;
use druid_timeline_members::Members;
use std::alloc::{AllocError, Global};
use std::marker::Model;

/// The chunks of one data source of which something is held, each with its members. Chunks are found by interval
/// without a walk over all of them.
///
/// A contract sees the list of the chunks.
#[derive(Debug, Drop)]
pub struct Chunks {
    alloc: Global,
    items: Vec<Chunk>,
}

impl Model for Chunks {
    ghost use Rattle.std.specs.Prelude.{List};
    ghost use Rattle.druid_timeline_chunks.specs.Chunks.{Chunk};
    ghost use Rattle.druid_timeline_chunks.specs.Places.{AreInOrder};

    ghost Value = { List Chunk };

    ghost view = { λ a. a.items.items };

    ghost invariant = { λ a. AreInOrder a.items.items };
}

impl Chunks {
    /// No chunks.
    pub fn new(alloc: Global) -> Chunks
        ensures { result ≡ [] }
    {
        Chunks {
            alloc,
            items: Vec::new(alloc),
        }
    }

    // The chunks of a vector that has them in order.
    pub(crate) fn of_ordered(alloc: Global, items: Vec<Chunk>) -> Chunks
        requires { AreInOrder items.items }
        ensures { result ≡ items.items }
    {
        Chunks { alloc, items }
    }

    // Where the chunks allocate.
    pub(crate) fn alloc(&self) -> Global {
        self.alloc
    }

    // Moves the chunks into an empty vector that has room for them.
    pub(crate) fn move_into(self, room: Vec<Chunk>) -> Vec<Chunk>
        requires empty { room.items ≡ [] }
        requires room { length self ≤ vec_capacity room }
        ensures value { result.items ≡ self }
        ensures ordered { AreInOrder self }
        ensures capacity { vec_capacity room ≤ vec_capacity result }
    {
        let mut all = room;
        let mut items = self.items;
        let _ = all.append(&mut items);
        all
    }

    /// The chunks.
    pub fn as_slice(&self) -> &[Chunk]
        ensures value { result.now ≡ self.now }
        ensures chunks { AreChunks self.now }
    {
        &self.items
    }

    /// Whether there is no chunk.
    pub fn is_empty(&self) -> bool
        ensures { IsTrue result ↔ (self.now ≡ []) }
    {
        self.items.is_empty()
    }

    // The chunks, in the order of their places.
    fn ordered(&self) -> &[Chunk]
        ensures value { result.now ≡ self.now }
        ensures ordered { AreInOrder self.now }
    {
        &self.items
    }

    /// The chunk of a group.
    ///
    /// # Errors
    ///
    /// None where no chunk is of it.
    pub fn find(&self, key: &GroupKey) -> Option<&Chunk>
        ensures found { MatchOption result (HasNoChunk self.now key.now)
            (λ chunk. Contains self.now chunk.now × (chunk.now.0 ≡ key.now)) }
        ensures chunks { AreChunks self.now }
    {
        find_in(self.ordered(), key.interval(), key.version())
    }

    // The chunk of a segment, if there is one.
    fn chunk_of(&self, id: &SegmentId) -> Option<&Chunk>
        ensures found { MatchOption result (members_at self.now (group_of id.now) ≡ [])
            (λ chunk. chunk.now.1 ≡ members_at self.now (group_of id.now)) }
        ensures chunks { AreChunks self.now }
    {
        find_in(self.ordered(), id.interval(), id.version())
    }

    /// Whether a node serves a segment. It does not allocate.
    pub fn holds(&self, id: &SegmentId, node: NodeNo) -> bool
        ensures held { IsTrue result ↔ HoldsPlace (members_at self.now (group_of id.now)) id.now.partition node }
        ensures chunks { AreChunks self.now }
    {
        self.replicas(id).contains(&node)
    }

    /// Whether the chunk of a segment is there and complete. It does not allocate.
    pub fn is_complete(&self, id: &SegmentId) -> bool
        ensures complete { IsTrue result ↔ IsComplete (members_at self.now (group_of id.now)) }
        ensures chunks { AreChunks self.now }
    {
        match self.chunk_of(id) {
            Some(chunk) => chunk.members().is_complete(),
            None => false,
        }
    }

    /// Whether the chunk of a segment would be complete with one member more, of this descriptor. It does not allocate.
    pub fn is_complete_with(&self, descriptor: &Descriptor) -> bool
        ensures complete { (new : List Member) (node : ℕ)
            → Adds (members_at self.now (group_of descriptor.now.id)) new (member_of node descriptor.now)
            → IsTrue result ↔ IsComplete new }
        ensures chunks { AreChunks self.now }
    {
        match self.chunk_of(descriptor.id()) {
            Some(chunk) => chunk.members().is_complete_with(descriptor),
            None => Members::new(self.alloc).is_complete_with(descriptor),
        }
    }

    /// Whether the chunk of a segment would be complete without this partition of this node. It does not allocate.
    pub fn is_complete_without(&self, id: &SegmentId, node: NodeNo) -> bool
        ensures complete { (new : List Member)
            → RemovesPlace (members_at self.now (group_of id.now)) new id.now.partition node
            → IsTrue result ↔ IsComplete new }
        ensures chunks { AreChunks self.now }
    {
        match self.chunk_of(id) {
            Some(chunk) => chunk.members().is_complete_without(id.partition(), node),
            None => false,
        }
    }

    /// The nodes that hold a segment, rising. It does not allocate.
    pub fn replicas(&self, id: &SegmentId) -> &[NodeNo]
        ensures rising { IsStrictlyIncreasing result.now }
        ensures nodes { (n : ℕ) → Contains result.now n
            ↔ HoldsPlace (members_at self.now (group_of id.now)) id.now.partition n }
        ensures chunks { AreChunks self.now }
    {
        match self.chunk_of(id) {
            Some(chunk) => chunk.members().replicas(id.partition()),
            None => &[],
        }
    }

    /// The nodes that hold a segment as no tombstone, rising. It does not allocate.
    pub fn served(&self, id: &SegmentId) -> &[NodeNo]
        ensures rising { IsStrictlyIncreasing result.now }
        ensures nodes { (n : ℕ) → Contains result.now n
            ↔ ServesPlace (members_at self.now (group_of id.now)) id.now.partition n }
        ensures chunks { AreChunks self.now }
    {
        match self.chunk_of(id) {
            Some(chunk) => chunk.members().served(id.partition()),
            None => &[],
        }
    }

    /// The complete chunks other than that of a segment which share an instant with a part, each once.
    ///
    /// # Errors
    ///
    /// Out of memory.
    pub fn overlapping(&self, id: &SegmentId, part: Interval) -> Result<Vec<&GroupKey>, AllocError>
        ensures all { IfOk result (λ found. (g : Group) → Contains (map (λ key. key.now) found.items) g
            ↔ IsOverlapOf self.now (group_of id.now) part g) }
        ensures once { IfOk result (λ found. IsDistinct same_group (map (λ key. key.now) found.items)) }
        ensures chunks { AreChunks self.now }
    {
        overlaps_in(self.alloc, self.ordered(), id, part)
    }

    /// Adds a segment, held by a node that does not hold it yet.
    ///
    /// # Errors
    ///
    /// Out of memory. Leaves the same set of members at each group.
    pub fn add(&mut self, descriptor: &Descriptor, node: NodeNo) -> Result<(), AllocError>
        requires { HoldsPlace (members_at self.old (group_of descriptor.now.id)) descriptor.now.id.partition node → ⊥ }
        ensures added { OnOk result (Adds (members_at self.old (group_of descriptor.now.id))
            (members_at self.new (group_of descriptor.now.id)) (member_of node descriptor.now)) }
        ensures err { OnErr result (SameMembers (members_at self.old (group_of descriptor.now.id))
            (members_at self.new (group_of descriptor.now.id))) }
        ensures others { (q : Group) → (q ≡ group_of descriptor.now.id → ⊥)
            → members_at self.new q ≡ members_at self.old q }
        ensures was { AreChunks self.old }
        ensures chunks { AreChunks self.new }
    {
        let id = descriptor.id();
        match seek(&self.items, id.interval(), id.version()) {
            Ok(i) => {
                let chunk = &mut self.items[i];
                chunk.add(descriptor, node)
            }
            Err(i) => {
                let chunk = Chunk::with_first(self.alloc, descriptor, node)?;
                self.items.insert(i, chunk)?;
                Ok(())
            }
        }
    }

    /// Takes a segment from what a node serves that serves it. A chunk that would be left without
    /// members goes.
    ///
    /// # Errors
    ///
    /// Out of memory, but never where no member would be left. Leaves the same set of members at
    /// each group.
    pub fn remove(&mut self, id: &SegmentId, node: NodeNo) -> Result<(), AllocError>
        requires { HoldsPlace (members_at self.old (group_of id.now)) id.now.partition node }
        ensures removed { OnOk result (RemovesPlace (members_at self.old (group_of id.now))
            (members_at self.new (group_of id.now)) id.now.partition node) }
        ensures one { OnOk result (RemovesOne (members_at self.old (group_of id.now))
            (members_at self.new (group_of id.now)) id.now.partition node) }
        ensures err { OnErr result (SameMembers (members_at self.old (group_of id.now))
            (members_at self.new (group_of id.now))) }
        ensures whole { AllAt (members_at self.old (group_of id.now)) id.now.partition node → IsOk result }
        ensures others { (q : Group) → (q ≡ group_of id.now → ⊥) → members_at self.new q ≡ members_at self.old q }
        ensures was { AreChunks self.old }
        ensures chunks { AreChunks self.new }
    {
        let Ok(i) = seek(&self.items, id.interval(), id.version()) else {
            unreachable!()
        };
        let only = self.items[i].is_only(id.partition(), node);
        if only {
            self.items.remove(i);
            return Ok(());
        }
        let chunk = &mut self.items[i];
        chunk.remove(id.partition(), node)
    }
}

impl Clone for Chunks {
    ghost is_clone = { λ chunks copy. copy ≡ chunks };

    fn clone(&self) -> Result<Chunks, AllocError> {
        Ok(Chunks {
            alloc: self.alloc,
            items: self.items.clone()?,
        })
    }
}
