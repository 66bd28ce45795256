//! Edits of a timeline that can be taken back all at once.
ghost use Rattle.std.specs.Prelude.{◌≡◌, ◌≤◌, ◌+◌, ◌*◌, ◌↔◌, ◌⊎◌, List, [], ◌∷◌, IsTrue, length, IfErr, OnOk, OnErr, IsErrOf};
ghost use Rattle.druid_segment_id.specs.Group.{Group, group_of};
ghost use Rattle.druid_timeline_chunks.specs.Chunks.{members_at};
ghost use Rattle.druid_timeline.specs.Edited.{HasOthers};
ghost use Rattle.druid_timeline.specs.Holding.{held_of, members_of, IsCompleteIn, IsHeld, IsServed, AddsHeld, RemovesHeld, RemovesOneHeld, SameHeld};
ghost use Rattle.druid_timeline.specs.Pieces.{Shown, ArePieces, cut};

use crate::edit::Edit;
use crate::undo::{add_logged, remove_logged, take_back};
use crate::{Timeline, TimelineFault};
use druid_segment_descriptor::{Descriptor, NodeNo};
use druid_segment_id::{GroupKey, Meter, Name, SegmentId};
use druid_time::Interval;
use std::alloc::{AllocError, Global};
use std::marker::Model;

/// A timeline under edits, which are committed or rolled back together; a roll back does not allocate.
///
/// A contract sees the members of each chunk as they were before the edits, and the timeline as it is.
#[derive(Debug, Drop)]
pub struct Transaction {
    alloc: Global,
    source: Name,
    chunks: druid_timeline_chunks::Transaction,
    runs: Vec<(Interval, GroupKey)>,
    // What takes the runs back, the latest last.
    log: Vec<Edit>,
}

impl Model for Transaction {
    ghost use Rattle.std.specs.Prelude.{map, vec_capacity};
    ghost use Rattle.druid_timeline.specs.Chunks.{held_in};
    ghost use Rattle.druid_timeline.specs.Exchanges.{TakesBack};
    ghost use Rattle.druid_timeline.specs.Pieces.{ArePieces, shown_at};
    ghost use Rattle.druid_timeline.specs.Transactions.{Edited};

    ghost Value = { Edited };

    ghost view = { λ a. record { before = a.chunks.before; now = record { source = a.source; held = held_in a.chunks.now } } };

    ghost invariant = { λ a. ArePieces (held_in a.chunks.now) (map shown_at a.runs.items)
        × TakesBack a.chunks.before a.runs.items (vec_capacity a.runs) a.log.items };
}

impl Transaction {
    /// Begins edits of a timeline.
    pub fn begin(timeline: Timeline) -> Transaction
        ensures before { (g : Group) → members_at result.before g ≡ members_of timeline.held g }
        ensures now { result.now ≡ timeline }
    {
        let Timeline {
            alloc,
            source,
            chunks,
            runs,
        } = timeline;
        // For the proof: it tells that each group stands once.
        let _ = chunks.as_slice();
        Transaction {
            alloc,
            source,
            chunks: druid_timeline_chunks::Transaction::begin(chunks),
            runs,
            log: Vec::new(alloc),
        }
    }

    // Whether the segment is of this source.
    fn is_source_of(&self, id: &SegmentId) -> bool
        ensures { IsTrue result ↔ (id.now.source ≡ self.now.now.source) }
    {
        id.source() == &self.source
    }

    // Whether a node serves the segment of this identifier, of whichever source.
    fn is_held(&self, id: &SegmentId, node: NodeNo) -> bool
        ensures { IsTrue result ↔ IsHeld self.now.now.held node id.now }
    {
        self.chunks.chunks().holds(id, node)
    }

    /// Adds a segment of this source that the node does not serve yet.
    ///
    /// It counts no comparison where the completeness of the segment's chunk does not turn. Where the chunk was not
    /// complete, it counts at most one for each visible piece inside its interval, and where k other complete chunks
    /// overlap it, at most 3 * k + 1, whatever the answer.
    ///
    /// # Errors
    ///
    /// Out of memory. Leaves the source, as a set what is held, and what a roll back gives.
    pub fn add_absent(
        &mut self,
        descriptor: &Descriptor,
        node: NodeNo,
        meter: &mut Meter,
    ) -> Result<(), AllocError>
        requires source { descriptor.now.id.source ≡ self.old.now.source }
        requires absent { IsHeld self.old.now.held node descriptor.now.id → ⊥ }
        ensures added { OnOk result (AddsHeld self.old.now.held self.new.now.held (held_of node descriptor.now)) }
        ensures err { OnErr result (SameHeld self.old.now.held self.new.now.held) }
        ensures source { self.new.now.source ≡ self.old.now.source }
        ensures before { (g : Group) → members_at self.new.before g ≡ members_at self.old.before g }
        ensures counted { meter.old ≤ meter.new }
        ensures bound { (others : List Group) → HasOthers self.old.now.held (group_of descriptor.now.id) others
            → meter.new ≤ meter.old + 3 * length others + 1 }
        ensures level { OnOk result ((IsCompleteIn self.old.now.held (group_of descriptor.now.id)
            ↔ IsCompleteIn self.new.now.held (group_of descriptor.now.id)) → meter.new ≡ meter.old) }
        ensures met { (IsCompleteIn self.old.now.held (group_of descriptor.now.id) → ⊥)
            → (pieces : List Shown) → ArePieces self.old.now.held pieces
            → meter.new ≤ meter.old + length (cut ((group_of descriptor.now.id).interval ∷ []) pieces) }
    {
        add_logged(
            self.alloc,
            &mut self.chunks,
            &mut self.runs,
            &mut self.log,
            descriptor,
            node,
            meter,
        )
    }

    /// Adds a segment that a node serves. It counts what `add_absent` counts, and nothing at L2 and
    /// L1.
    ///
    /// # Errors
    ///
    /// L2; then L1; L9 last. Leaves the source, as a set what is held, and what a roll back gives.
    pub fn add(
        &mut self,
        descriptor: &Descriptor,
        node: NodeNo,
        meter: &mut Meter,
    ) -> Result<(), TimelineFault>
        ensures other_source { IsErrOf result TimelineFault.OtherSource
            ↔ (descriptor.now.id.source ≡ self.old.now.source → ⊥) }
        ensures there { IsErrOf result TimelineFault.AlreadyThere
            ↔ ((descriptor.now.id.source ≡ self.old.now.source) × IsHeld self.old.now.held node descriptor.now.id) }
        ensures not_there { IsErrOf result TimelineFault.NotThere → ⊥ }
        ensures added { OnOk result (AddsHeld self.old.now.held self.new.now.held (held_of node descriptor.now)) }
        ensures err { OnErr result (SameHeld self.old.now.held self.new.now.held) }
        ensures source { self.new.now.source ≡ self.old.now.source }
        ensures before { (g : Group) → members_at self.new.before g ≡ members_at self.old.before g }
        ensures counted { meter.old ≤ meter.new }
        ensures uncounted { IfErr result (λ fault. (fault ≡ TimelineFault.Memory) ⊎ (meter.new ≡ meter.old)) }
        ensures bound { (others : List Group) → HasOthers self.old.now.held (group_of descriptor.now.id) others
            → meter.new ≤ meter.old + 3 * length others + 1 }
        ensures level { OnOk result ((IsCompleteIn self.old.now.held (group_of descriptor.now.id)
            ↔ IsCompleteIn self.new.now.held (group_of descriptor.now.id)) → meter.new ≡ meter.old) }
        ensures met { (IsCompleteIn self.old.now.held (group_of descriptor.now.id) → ⊥)
            → (pieces : List Shown) → ArePieces self.old.now.held pieces
            → meter.new ≤ meter.old + length (cut ((group_of descriptor.now.id).interval ∷ []) pieces) }
    {
        let id = descriptor.id();
        if !self.is_source_of(id) {
            return Err(TimelineFault::OtherSource);
        }
        if self.is_held(id, node) {
            return Err(TimelineFault::AlreadyThere);
        }
        self.add_absent(descriptor, node, meter)?;
        Ok(())
    }

    /// Removes a segment of this source that the node serves. It counts as `add_absent` does.
    ///
    /// # Errors
    ///
    /// Out of memory. Leaves the source, as a set what is held, and what a roll back gives.
    pub fn remove_present(
        &mut self,
        id: &SegmentId,
        node: NodeNo,
        meter: &mut Meter,
    ) -> Result<(), AllocError>
        requires { IsServed self.old.now node id.now }
        ensures removed { OnOk result (RemovesHeld self.old.now.held self.new.now.held node id.now) }
        ensures one { OnOk result (RemovesOneHeld self.old.now.held self.new.now.held node id.now) }
        ensures err { OnErr result (SameHeld self.old.now.held self.new.now.held) }
        ensures source { self.new.now.source ≡ self.old.now.source }
        ensures before { (g : Group) → members_at self.new.before g ≡ members_at self.old.before g }
        ensures counted { meter.old ≤ meter.new }
        ensures bound { (others : List Group) → HasOthers self.old.now.held (group_of id.now) others
            → meter.new ≤ meter.old + 3 * length others + 1 }
        ensures level { OnOk result ((IsCompleteIn self.old.now.held (group_of id.now)
            ↔ IsCompleteIn self.new.now.held (group_of id.now)) → meter.new ≡ meter.old) }
        ensures met { (IsCompleteIn self.old.now.held (group_of id.now) → ⊥)
            → (pieces : List Shown) → ArePieces self.old.now.held pieces
            → meter.new ≤ meter.old + length (cut ((group_of id.now).interval ∷ []) pieces) }
    {
        remove_logged(
            self.alloc,
            &mut self.chunks,
            &mut self.runs,
            &mut self.log,
            id,
            node,
            meter,
        )
    }

    /// Removes a segment that a node serves. It counts what `remove_present` counts, and nothing at
    /// L3.
    ///
    /// # Errors
    ///
    /// L3, of another source too; L9 last. Leaves the source, as a set what is held, and what a
    /// roll back gives.
    pub fn remove(
        &mut self,
        id: &SegmentId,
        node: NodeNo,
        meter: &mut Meter,
    ) -> Result<(), TimelineFault>
        ensures not_there { IsErrOf result TimelineFault.NotThere ↔ (IsServed self.old.now node id.now → ⊥) }
        ensures fault { IfErr result (λ fault. (fault ≡ TimelineFault.NotThere) ⊎ (fault ≡ TimelineFault.Memory)) }
        ensures removed { OnOk result (RemovesHeld self.old.now.held self.new.now.held node id.now) }
        ensures one { OnOk result (RemovesOneHeld self.old.now.held self.new.now.held node id.now) }
        ensures err { OnErr result (SameHeld self.old.now.held self.new.now.held) }
        ensures source { self.new.now.source ≡ self.old.now.source }
        ensures before { (g : Group) → members_at self.new.before g ≡ members_at self.old.before g }
        ensures counted { meter.old ≤ meter.new }
        ensures uncounted { IfErr result (λ fault. (fault ≡ TimelineFault.Memory) ⊎ (meter.new ≡ meter.old)) }
        ensures bound { (others : List Group) → HasOthers self.old.now.held (group_of id.now) others
            → meter.new ≤ meter.old + 3 * length others + 1 }
        ensures level { OnOk result ((IsCompleteIn self.old.now.held (group_of id.now)
            ↔ IsCompleteIn self.new.now.held (group_of id.now)) → meter.new ≡ meter.old) }
        ensures met { (IsCompleteIn self.old.now.held (group_of id.now) → ⊥)
            → (pieces : List Shown) → ArePieces self.old.now.held pieces
            → meter.new ≤ meter.old + length (cut ((group_of id.now).interval ∷ []) pieces) }
    {
        if !self.is_source_of(id) {
            return Err(TimelineFault::NotThere);
        }
        if !self.is_held(id, node) {
            return Err(TimelineFault::NotThere);
        }
        self.remove_present(id, node, meter)?;
        Ok(())
    }

    /// Ends the edits, and the timeline stays as it is.
    pub fn commit(self) -> Timeline
        ensures { result ≡ self.now }
    {
        Timeline {
            alloc: self.alloc,
            source: self.source,
            chunks: self.chunks.commit(),
            runs: self.runs,
        }
    }

    /// Ends the edits, and the timeline is as it was before them. Does not allocate.
    pub fn roll_back(self) -> Timeline
        ensures source { result.source ≡ self.now.source }
        ensures before { (g : Group) → members_of result.held g ≡ members_at self.before g }
    {
        let Transaction {
            alloc,
            source,
            chunks,
            mut runs,
            log,
        } = self;
        take_back(&mut runs, log);
        let chunks = chunks.roll_back();
        // For the proof: it tells that each group stands once.
        let _ = chunks.as_slice();
        Timeline {
            alloc,
            source,
            chunks,
            runs,
        }
    }
}
