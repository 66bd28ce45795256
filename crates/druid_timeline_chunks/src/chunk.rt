//! One chunk with its members, which copies share.
ghost use Rattle.std.specs.Prelude.{◌≡◌, ◌↔◌, [], IsTrue, IfOk, OnOk, OnErr};
ghost use Rattle.druid_segment_id.specs.Group.{group_of};
ghost use Rattle.druid_timeline_members.specs.Members.{member_of, HoldsPlace, Adds, RemovesPlace, RemovesOne, AllAt, SameMembers, ServedOnce};

use druid_segment_descriptor::{Descriptor, NodeNo};
use druid_segment_id::GroupKey;
use druid_timeline_members::Members;
use std::alloc::{AllocError, Global};
use std::marker::Model;
use std::sync::Arc;

// A key and its members.
#[derive(Debug, Drop)]
struct Contents {
    key: GroupKey,
    members: Members,
}

impl Model for Contents {
    ghost use Rattle.druid_timeline_chunks.specs.Chunks.{Chunk};

    ghost Value = { Chunk };

    ghost view = { λ a. (a.key, a.members) };
}

impl Contents {
    // Adds a segment, served by a node that does not serve it yet.
    fn add(&mut self, descriptor: &Descriptor, node: NodeNo) -> Result<(), AllocError>
        requires { HoldsPlace self.old.1 descriptor.now.id.partition node → ⊥ }
        ensures key { self.new.0 ≡ self.old.0 }
        ensures added { OnOk result (Adds self.old.1 self.new.1 (member_of node descriptor.now)) }
        ensures err { OnErr result (SameMembers self.old.1 self.new.1) }
    {
        self.members.add(descriptor, node)?;
        Ok(())
    }

    // Takes a partition from what a node serves that serves it. It does not allocate.
    fn remove(&mut self, partition: u16, node: NodeNo)
        requires { HoldsPlace self.old.1 partition node }
        ensures key { self.new.0 ≡ self.old.0 }
        ensures removed { RemovesPlace self.old.1 self.new.1 partition node }
        ensures one { RemovesOne self.old.1 self.new.1 partition node }
    {
        self.members.remove(partition, node);
    }
}

impl Clone for Contents {
    ghost is_clone = { λ contents copy. copy ≡ contents };

    fn clone(&self) -> Result<Contents, AllocError> {
        Ok(Contents {
            key: self.key.clone()?,
            members: self.members.clone()?,
        })
    }
}

/// One chunk of a data source: the key of its group, and its members. Copies share both until one of them is edited.
///
/// A contract sees the group and the members.
#[derive(Debug, Drop)]
pub struct Chunk {
    contents: Arc<Contents, Global>,
}

impl Model for Chunk {
    ghost use Rattle.std.specs.Arc.{arc_value};
    ghost use Rattle.druid_timeline_chunks.specs.Chunks.{Chunk};

    ghost Value = { Chunk };

    ghost view = { λ a. arc_value a.contents };
}

impl Chunk {
    // The key and the members, borrowed.
    fn contents(&self) -> &Contents
        ensures { result.now ≡ self.now }
    {
        &self.contents
    }

    /// The key of its group.
    pub fn key(&self) -> &GroupKey
        ensures { result.now ≡ self.now.0 }
    {
        &self.contents().key
    }

    /// Its members.
    pub fn members(&self) -> &Members
        ensures { result.now ≡ self.now.1 }
    {
        &self.contents().members
    }
}

impl Chunk {
    // The chunk of a segment, with this segment alone.
    pub(crate) fn with_first(
        alloc: Global,
        descriptor: &Descriptor,
        node: NodeNo,
    ) -> Result<Chunk, AllocError>
        ensures key { IfOk result (λ chunk. chunk.0 ≡ group_of descriptor.now.id) }
        ensures added { IfOk result (λ chunk. Adds [] chunk.1 (member_of node descriptor.now)) }
    {
        let key = descriptor.id().group()?;
        let mut members = Members::new(alloc);
        members.add(descriptor, node)?;
        let contents = Arc::new(alloc, Contents { key, members })?;
        Ok(Chunk { contents })
    }

    // Whether it has no member but that of this partition which this node serves.
    pub(crate) fn is_only(&self, partition: u16, node: NodeNo) -> bool
        ensures only { IsTrue result ↔ AllAt self.now.1 partition node }
        ensures once { ServedOnce self.now.1 partition }
    {
        let members = self.members();
        // For the proof: it tells that a node serves a partition once.
        let _ = members.replicas(partition);
        members.is_only(partition, node)
    }

    // Adds a segment, served by a node that does not serve it yet. What copies share is copied first.
    pub(crate) fn add(&mut self, descriptor: &Descriptor, node: NodeNo) -> Result<(), AllocError>
        requires { HoldsPlace self.old.1 descriptor.now.id.partition node → ⊥ }
        ensures key { self.new.0 ≡ self.old.0 }
        ensures added { OnOk result (Adds self.old.1 self.new.1 (member_of node descriptor.now)) }
        ensures err { OnErr result (SameMembers self.old.1 self.new.1) }
    {
        let contents = Arc::make_mut(&mut self.contents)?;
        contents.add(descriptor, node)
    }

    // Takes a partition from what a node serves that serves it. What copies share is copied first.
    pub(crate) fn remove(&mut self, partition: u16, node: NodeNo) -> Result<(), AllocError>
        requires { HoldsPlace self.old.1 partition node }
        ensures key { self.new.0 ≡ self.old.0 }
        ensures removed { OnOk result (RemovesPlace self.old.1 self.new.1 partition node) }
        ensures one { OnOk result (RemovesOne self.old.1 self.new.1 partition node) }
        ensures err { OnErr result (SameMembers self.old.1 self.new.1) }
    {
        let contents = Arc::make_mut(&mut self.contents)?;
        contents.remove(partition, node);
        Ok(())
    }
}

impl Clone for Chunk {
    ghost is_clone = { λ chunk copy. copy ≡ chunk };

    fn clone(&self) -> Result<Chunk, AllocError> {
        Ok(Chunk {
            contents: Arc::try_clone(&self.contents)?,
        })
    }
}
