//! The segments and tombstones that a node serves, by identifier.
ghost use Rattle.std.specs.Prelude.{◌≡◌, [], length, IsTrue, IsOk, IfOk, OnOk, OnErr};
ghost use Rattle.std.specs.Option.{option_copied};
ghost use Rattle.druid_segment_descriptor.specs.Replay.{IsSegmentSet, is_strict, has_room, after, with_segment, without_segment};
ghost use Rattle.druid_segment_descriptor.specs.declared.change.Change.TheVariants.{Load, Drop as Dropped};
ghost use Rattle.druid_sync_history.specs.Kept.{IsDrop, described_named};

use druid_segment_descriptor::{Change, Descriptor};
use druid_segment_id::SegmentId;
use std::alloc::{AllocError, Global};
use std::collections::BTreeMap;
use std::marker::Model;

// The segments and tombstones that a node serves, by identifier. A contract sees the list of their descriptors in this order.
#[derive(Debug, Drop)]
pub(crate) struct Segments {
    entries: BTreeMap<SegmentId, Descriptor>,
}

impl Model for Segments {
    ghost use Rattle.std.specs.Prelude.{List};
    ghost use Rattle.std.specs.BTreeMap.{values};
    ghost use Rattle.druid_segment_descriptor.specs.Described.{Described};
    ghost use Rattle.druid_sync_history.specs.Segments.{IsKeyed};

    ghost Value = { List Described };

    ghost view = { λ a. values a.entries };

    ghost invariant = { λ a. IsKeyed a.entries.entries };
}

impl Segments {
    pub(crate) fn new(alloc: Global) -> Segments
        ensures { result ≡ [] }
    {
        Segments {
            entries: BTreeMap::new(alloc),
        }
    }

    // How many there are.
    pub(crate) fn len(&self) -> usize
        ensures value { result ≡ length self.now }
        ensures set { IsSegmentSet self.now }
    {
        self.entries.len()
    }

    // Whether none of them has the identifier of that segment.
    pub(crate) fn lacks(&self, segment: &Descriptor) -> bool
        ensures { result ≡ is_strict self.now (Load segment.now) }
    {
        // For the proof: reading it exposes the invariant of its type.
        let _ = self.entries.len();
        !self.entries.contains_key(segment.id())
    }

    pub(crate) fn holds(&self, segment: &Descriptor) -> bool
        ensures { result ≡ is_strict self.now (Dropped segment.now) }
    {
        // For the proof: reading it exposes the invariant of its type.
        let _ = self.entries.len();
        match self.entries.get(segment.id()) {
            Some(held) => held == segment,
            None => false,
        }
    }

    // The segment of that identifier.
    pub(crate) fn find(&self, id: &SegmentId) -> Option<&Descriptor>
        ensures value { option_copied result ≡ described_named id.now self.now }
        ensures set { IsSegmentSet self.now }
    {
        // For the proof: reading it exposes the invariant of its type.
        let _ = self.entries.len();
        self.entries.get(id)
    }

    // What the change makes of the set.
    pub(crate) fn apply(&mut self, change: &Change) -> Result<(), AllocError>
        requires strict { IsTrue (is_strict self.old change.now) }
        requires room { IsTrue (has_room self.old change.now) }
        ensures changed { OnOk result (self.new ≡ after self.old change.now) }
        ensures unchanged { OnErr result (self.new ≡ self.old) }
        ensures drops { IsDrop change.now → IsOk result }
    {
        match change {
            Change::Load(segment) => self.insert(segment.clone()?),
            Change::Drop(segment) => {
                self.remove(segment);
                Ok(())
            }
        }
    }

    // Puts one more at its place.
    fn insert(&mut self, segment: Descriptor) -> Result<(), AllocError>
        requires strict { IsTrue (is_strict self.old (Load segment)) }
        requires room { IsTrue (has_room self.old (Load segment)) }
        ensures inserted { OnOk result (self.new ≡ with_segment segment self.old) }
        ensures unchanged { OnErr result (self.new ≡ self.old) }
    {
        let id = segment.id().clone()?;
        self.entries.insert(id, segment)?;
        Ok(())
    }

    // Takes one out.
    fn remove(&mut self, segment: &Descriptor)
        requires { IsTrue (is_strict self.old (Dropped segment.now)) }
        ensures { self.new ≡ without_segment segment.now self.old }
    {
        // For the proof: reading it exposes the invariant of its type.
        let _ = self.entries.len();
        self.entries.remove(segment.id());
    }

    // Copies of them all, by identifier.
    pub(crate) fn to_vec(&self, alloc: Global) -> Result<Vec<Descriptor>, AllocError>
        ensures value { IfOk result (λ copies. copies.items ≡ self.now) }
        ensures set { IsSegmentSet self.now }
    {
        let mut copies = Vec::new(alloc);
        for segment in self.entries.values() {
            copies.push(segment.clone()?)?;
        }
        Ok(copies)
    }
}
