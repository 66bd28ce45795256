//! Edits of chunks that can be taken back all at once.
ghost use Rattle.std.specs.Prelude.{◌≡◌, OnOk, OnErr};
ghost use Rattle.druid_segment_id.specs.Group.{Group, group_of};
ghost use Rattle.druid_timeline_members.specs.Members.{member_of, HoldsPlace, Adds, RemovesPlace, RemovesOne, SameMembers};
ghost use Rattle.druid_timeline_chunks.specs.Chunks.{AreChunks, members_at};
ghost use Rattle.druid_timeline_chunks.specs.Edits.{HasRoom, chunks_before};

use crate::Chunks;
use crate::log::UndoLog;
use druid_segment_descriptor::{Descriptor, NodeNo};
use druid_segment_id::SegmentId;
use std::alloc::AllocError;
use std::marker::Model;

/// Chunks under edits, which are committed or rolled back together. The chunks are edited in place: of each chunk, the
/// first edit saves a copy, which shares its members until they change. Each edit sees to the room for a roll back, which
/// so does not allocate.
///
/// A contract sees the members of each group as they were before the edits, and the chunks as they are.
#[derive(Debug, Drop)]
pub struct Transaction {
    chunks: Chunks,
    log: UndoLog,
}

impl Model for Transaction {
    ghost use Rattle.druid_timeline_chunks.specs.Edits.{Edited, HasRoom, chunks_before};

    ghost Value = { Edited };

    ghost view = { λ a. record { before = chunks_before a.log.saved a.chunks; now = a.chunks } };

    ghost invariant = { λ a. HasRoom a.chunks a.log };
}

// Adds a segment, after its group's chunk is saved.
fn add_logged(
    chunks: &mut Chunks,
    log: &mut UndoLog,
    descriptor: &Descriptor,
    node: NodeNo,
) -> Result<(), AllocError>
    requires room { HasRoom chunks.old log.old }
    requires new { HoldsPlace (members_at chunks.old (group_of descriptor.now.id)) descriptor.now.id.partition node → ⊥ }
    ensures room { HasRoom chunks.new log.new }
    ensures added { OnOk result (Adds (members_at chunks.old (group_of descriptor.now.id))
        (members_at chunks.new (group_of descriptor.now.id)) (member_of node descriptor.now)) }
    ensures err { OnErr result (SameMembers (members_at chunks.old (group_of descriptor.now.id))
        (members_at chunks.new (group_of descriptor.now.id))) }
    ensures others { (q : Group) → (q ≡ group_of descriptor.now.id → ⊥)
        → members_at chunks.new q ≡ members_at chunks.old q }
    ensures before { (g : Group) → members_at (chunks_before log.new.saved chunks.new) g
        ≡ members_at (chunks_before log.old.saved chunks.old) g }
    ensures was { AreChunks chunks.old }
    ensures chunks { AreChunks chunks.new }
{
    log.save(chunks, descriptor.id())?;
    chunks.add(descriptor, node)
}

// Takes a segment from what a node serves, after its group's chunk is saved.
fn remove_logged(
    chunks: &mut Chunks,
    log: &mut UndoLog,
    id: &SegmentId,
    node: NodeNo,
) -> Result<(), AllocError>
    requires room { HasRoom chunks.old log.old }
    requires there { HoldsPlace (members_at chunks.old (group_of id.now)) id.now.partition node }
    ensures room { HasRoom chunks.new log.new }
    ensures removed { OnOk result (RemovesPlace (members_at chunks.old (group_of id.now))
        (members_at chunks.new (group_of id.now)) id.now.partition node) }
    ensures one { OnOk result (RemovesOne (members_at chunks.old (group_of id.now))
        (members_at chunks.new (group_of id.now)) id.now.partition node) }
    ensures err { OnErr result (SameMembers (members_at chunks.old (group_of id.now))
        (members_at chunks.new (group_of id.now))) }
    ensures others { (q : Group) → (q ≡ group_of id.now → ⊥) → members_at chunks.new q ≡ members_at chunks.old q }
    ensures before { (g : Group) → members_at (chunks_before log.new.saved chunks.new) g
        ≡ members_at (chunks_before log.old.saved chunks.old) g }
    ensures was { AreChunks chunks.old }
    ensures chunks { AreChunks chunks.new }
{
    log.save(chunks, id)?;
    chunks.remove(id, node)
}

impl Transaction {
    /// Begins edits of chunks.
    pub fn begin(chunks: Chunks) -> Transaction
        ensures before { (g : Group) → members_at result.before g ≡ members_at chunks g }
        ensures now { result.now ≡ chunks }
    {
        let log = UndoLog::new(chunks.alloc());
        Transaction { chunks, log }
    }

    /// The chunks as they are.
    pub fn chunks(&self) -> &Chunks
        ensures { result.now ≡ self.now.now }
    {
        &self.chunks
    }

    /// Adds a segment, served by a node that does not serve it yet.
    ///
    /// # Errors
    ///
    /// Out of memory. Leaves the same set of members at each group, and what a roll back gives.
    pub fn add(&mut self, descriptor: &Descriptor, node: NodeNo) -> Result<(), AllocError>
        requires { HoldsPlace (members_at self.old.now (group_of descriptor.now.id)) descriptor.now.id.partition node → ⊥ }
        ensures added { OnOk result (Adds (members_at self.old.now (group_of descriptor.now.id))
            (members_at self.new.now (group_of descriptor.now.id)) (member_of node descriptor.now)) }
        ensures err { OnErr result (SameMembers (members_at self.old.now (group_of descriptor.now.id))
            (members_at self.new.now (group_of descriptor.now.id))) }
        ensures others { (q : Group) → (q ≡ group_of descriptor.now.id → ⊥)
            → members_at self.new.now q ≡ members_at self.old.now q }
        ensures before { (g : Group) → members_at self.new.before g ≡ members_at self.old.before g }
        ensures was { AreChunks self.old.now }
        ensures chunks { AreChunks self.new.now }
    {
        add_logged(&mut self.chunks, &mut self.log, descriptor, node)
    }

    /// Takes a segment from what a node serves that serves it.
    ///
    /// # Errors
    ///
    /// Out of memory. Leaves the same set of members at each group, and what a roll back gives.
    pub fn remove(&mut self, id: &SegmentId, node: NodeNo) -> Result<(), AllocError>
        requires { HoldsPlace (members_at self.old.now (group_of id.now)) id.now.partition node }
        ensures removed { OnOk result (RemovesPlace (members_at self.old.now (group_of id.now))
            (members_at self.new.now (group_of id.now)) id.now.partition node) }
        ensures one { OnOk result (RemovesOne (members_at self.old.now (group_of id.now))
            (members_at self.new.now (group_of id.now)) id.now.partition node) }
        ensures err { OnErr result (SameMembers (members_at self.old.now (group_of id.now))
            (members_at self.new.now (group_of id.now))) }
        ensures others { (q : Group) → (q ≡ group_of id.now → ⊥) → members_at self.new.now q ≡ members_at self.old.now q }
        ensures before { (g : Group) → members_at self.new.before g ≡ members_at self.old.before g }
        ensures was { AreChunks self.old.now }
        ensures chunks { AreChunks self.new.now }
    {
        remove_logged(&mut self.chunks, &mut self.log, id, node)
    }

    /// Ends the edits, and the chunks stay as they are.
    pub fn commit(self) -> Chunks
        ensures { result ≡ self.now }
    {
        self.chunks
    }

    /// Ends the edits, and the chunks are as they were. Does not allocate.
    pub fn roll_back(self) -> Chunks
        ensures { (g : Group) → members_at result g ≡ members_at self.before g }
    {
        self.log.put_back(self.chunks)
    }
}
