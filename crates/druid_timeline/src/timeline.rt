//! A timeline keeps its visible pieces (`runs`) beside its chunks, and edits both. What an edit
//! replaces is made first, and all that allocates comes before anything changes: so nothing has to
//! be undone, which a removal could not do without memory. It counts on the meter even where memory
//! is refused after it.
ghost use Rattle.std.specs.Prelude.{◌≡◌, ◌≤◌, ◌+◌, ◌*◌, ◌↔◌, ◌⊎◌, ℕ, List, [], ◌∷◌, All, Contains, IsTrue, IfOk, IfErr, OnOk, OnErr, IsErrOf, length, map, MatchOption};
ghost use Rattle.std.specs.List.Sorted.{IsStrictlyIncreasing, IsStrictlySortedBy};
ghost use Rattle.druid_time.specs.Extent.{AnyHas};
ghost use Rattle.druid_segment_id.specs.Group.{Group, group_of};
ghost use Rattle.druid_timeline.specs.Edited.{HasOthers};
ghost use Rattle.druid_timeline.specs.Holding.{held_of, members_of, AreGroupsOf, HoldsNothing, IsCompleteIn, IsHeld, IsServed, ServesRows, AddsHeld, RemovesHeld, RemovesOneHeld, SameHeld};
ghost use Rattle.druid_timeline.specs.Overshadowed.{IsOvershadowed, place_cmp};
ghost use Rattle.druid_timeline.specs.Pieces.{Shown, ArePieces, ArePiecesIn, ArePartitions, cut, shown_at, shown_of};
ghost use Rattle.druid_timeline.specs.Visible.{IsVisible, NothingVisible};

use crate::lookup::{chunk_at, pieces_in};
use crate::overshadowed::overshadowed_in;
use crate::turn::{add_segment, remove_segment};
use crate::{Piece, TimelineFault};
use druid_segment_descriptor::{Descriptor, NodeNo};
use druid_segment_id::{GroupKey, Meter, Name, SegmentId};
use druid_time::{Instant, Interval, IntervalSet};
use druid_timeline_chunks::Chunks;
use std::alloc::{AllocError, Global};
use std::marker::Model;

/// What nodes serve of one data source, and by that which version of the data is visible at each instant.
///
/// A contract sees the source, and what is held of it as a set.
#[derive(Debug, Drop)]
pub struct Timeline {
    pub(crate) alloc: Global,
    pub(crate) source: Name,
    pub(crate) chunks: Chunks,
    pub(crate) runs: Vec<(Interval, GroupKey)>,
}

impl Model for Timeline {
    ghost use Rattle.std.specs.Prelude.{map};
    ghost use Rattle.druid_timeline.specs.Holding.{Serving};
    ghost use Rattle.druid_timeline.specs.Chunks.{held_in};
    ghost use Rattle.druid_timeline.specs.Pieces.{ArePieces, shown_at};

    ghost Value = { Serving };

    ghost view = { λ a. record { source = a.source; held = held_in a.chunks } };

    ghost invariant = { λ a. ArePieces (held_in a.chunks) (map shown_at a.runs.items) };
}

impl Timeline {
    /// A timeline of a data source of which nothing is held.
    pub fn new(alloc: Global, source: Name) -> Timeline
        ensures { result ≡ record { source = source; held = [] } }
    {
        Timeline {
            alloc,
            source,
            chunks: Chunks::new(alloc),
            runs: Vec::new(alloc),
        }
    }

    /// The data source.
    pub fn source(&self) -> &Name
        ensures { result.now ≡ self.now.source }
    {
        &self.source
    }

    // Whether the segment is of this source.
    fn is_source_of(&self, id: &SegmentId) -> bool
        ensures { IsTrue result ↔ (id.now.source ≡ self.now.source) }
    {
        id.source() == &self.source
    }

    // Whether a node serves the segment of this identifier, of whichever source.
    fn is_held(&self, id: &SegmentId, node: NodeNo) -> bool
        ensures { IsTrue result ↔ IsHeld self.now.held node id.now }
    {
        self.chunks.holds(id, node)
    }

    /// Whether no node serves a segment of the source.
    pub fn is_empty(&self) -> bool
        ensures { IsTrue result ↔ HoldsNothing self.now.held }
    {
        // For the proof: it tells that no chunk is without members.
        let _ = self.chunks.as_slice();
        self.chunks.is_empty()
    }

    /// How many chunks there are of which something is held. Does not allocate.
    pub fn chunk_count(&self) -> usize
        ensures { (groups : List Group) × AreGroupsOf self.now.held groups × (result ≡ length groups) }
    {
        self.chunks.as_slice().len()
    }

    /// Adds a segment of this source that the node does not serve yet.
    ///
    /// It counts no comparison where the completeness of the segment's chunk does not turn. Where the chunk was not
    /// complete, it counts at most one for each visible piece inside its interval, and where k other complete chunks
    /// overlap it, at most 3 * k + 1, whatever the answer.
    ///
    /// # Errors
    ///
    /// Out of memory. Leaves the source, and as a set what is held.
    pub fn add_absent(
        &mut self,
        descriptor: &Descriptor,
        node: NodeNo,
        meter: &mut Meter,
    ) -> Result<(), AllocError>
        requires source { descriptor.now.id.source ≡ self.old.source }
        requires absent { IsHeld self.old.held node descriptor.now.id → ⊥ }
        ensures added { OnOk result (AddsHeld self.old.held self.new.held (held_of node descriptor.now)) }
        ensures err { OnErr result (SameHeld self.old.held self.new.held) }
        ensures source { self.new.source ≡ self.old.source }
        ensures counted { meter.old ≤ meter.new }
        ensures bound { (others : List Group) → HasOthers self.old.held (group_of descriptor.now.id) others
            → meter.new ≤ meter.old + 3 * length others + 1 }
        ensures level { OnOk result ((IsCompleteIn self.old.held (group_of descriptor.now.id)
            ↔ IsCompleteIn self.new.held (group_of descriptor.now.id)) → meter.new ≡ meter.old) }
        ensures met { (IsCompleteIn self.old.held (group_of descriptor.now.id) → ⊥)
            → (pieces : List Shown) → ArePieces self.old.held pieces
            → meter.new ≤ meter.old + length (cut ((group_of descriptor.now.id).interval ∷ []) pieces) }
    {
        add_segment(
            self.alloc,
            &mut self.chunks,
            &mut self.runs,
            descriptor,
            node,
            meter,
        )
    }

    /// Adds a segment that a node serves. It counts what `add_absent` counts, and nothing at L2 and
    /// L1.
    ///
    /// # Errors
    ///
    /// L2; then L1; L9 last. Leaves the source, and as a set what is held.
    pub fn add(
        &mut self,
        descriptor: &Descriptor,
        node: NodeNo,
        meter: &mut Meter,
    ) -> Result<(), TimelineFault>
        ensures other_source { IsErrOf result TimelineFault.OtherSource
            ↔ (descriptor.now.id.source ≡ self.old.source → ⊥) }
        ensures there { IsErrOf result TimelineFault.AlreadyThere
            ↔ ((descriptor.now.id.source ≡ self.old.source) × IsHeld self.old.held node descriptor.now.id) }
        ensures not_there { IsErrOf result TimelineFault.NotThere → ⊥ }
        ensures added { OnOk result (AddsHeld self.old.held self.new.held (held_of node descriptor.now)) }
        ensures err { OnErr result (SameHeld self.old.held self.new.held) }
        ensures source { self.new.source ≡ self.old.source }
        ensures counted { meter.old ≤ meter.new }
        ensures uncounted { IfErr result (λ fault. (fault ≡ TimelineFault.Memory) ⊎ (meter.new ≡ meter.old)) }
        ensures bound { (others : List Group) → HasOthers self.old.held (group_of descriptor.now.id) others
            → meter.new ≤ meter.old + 3 * length others + 1 }
        ensures level { OnOk result ((IsCompleteIn self.old.held (group_of descriptor.now.id)
            ↔ IsCompleteIn self.new.held (group_of descriptor.now.id)) → meter.new ≡ meter.old) }
        ensures met { (IsCompleteIn self.old.held (group_of descriptor.now.id) → ⊥)
            → (pieces : List Shown) → ArePieces self.old.held pieces
            → meter.new ≤ meter.old + length (cut ((group_of descriptor.now.id).interval ∷ []) pieces) }
    {
        let id = descriptor.id();
        let is_own = self.is_source_of(id);
        if !is_own {
            return Err(TimelineFault::OtherSource);
        }
        if self.is_held(id, node) {
            return Err(TimelineFault::AlreadyThere);
        }
        self.add_absent(descriptor, node, meter)?;
        Ok(())
    }

    /// Removes a segment of this source that the node serves. It counts as `add_absent` does.
    ///
    /// # Errors
    ///
    /// Out of memory. Leaves the source, and as a set what is held.
    pub fn remove_present(
        &mut self,
        id: &SegmentId,
        node: NodeNo,
        meter: &mut Meter,
    ) -> Result<(), AllocError>
        requires { IsServed self.old node id.now }
        ensures removed { OnOk result (RemovesHeld self.old.held self.new.held node id.now) }
        ensures one { OnOk result (RemovesOneHeld self.old.held self.new.held node id.now) }
        ensures err { OnErr result (SameHeld self.old.held self.new.held) }
        ensures source { self.new.source ≡ self.old.source }
        ensures counted { meter.old ≤ meter.new }
        ensures bound { (others : List Group) → HasOthers self.old.held (group_of id.now) others
            → meter.new ≤ meter.old + 3 * length others + 1 }
        ensures level { OnOk result ((IsCompleteIn self.old.held (group_of id.now)
            ↔ IsCompleteIn self.new.held (group_of id.now)) → meter.new ≡ meter.old) }
        ensures met { (IsCompleteIn self.old.held (group_of id.now) → ⊥)
            → (pieces : List Shown) → ArePieces self.old.held pieces
            → meter.new ≤ meter.old + length (cut ((group_of id.now).interval ∷ []) pieces) }
    {
        remove_segment(
            self.alloc,
            &mut self.chunks,
            &mut self.runs,
            id,
            node,
            meter,
        )
    }

    /// Removes a segment that a node serves. It counts what `remove_present` counts, and nothing at
    /// L3.
    ///
    /// # Errors
    ///
    /// L3, of another source too; L9 last. Leaves the source, and as a set what is held.
    pub fn remove(
        &mut self,
        id: &SegmentId,
        node: NodeNo,
        meter: &mut Meter,
    ) -> Result<(), TimelineFault>
        ensures not_there { IsErrOf result TimelineFault.NotThere ↔ (IsServed self.old node id.now → ⊥) }
        ensures fault { IfErr result (λ fault. (fault ≡ TimelineFault.NotThere) ⊎ (fault ≡ TimelineFault.Memory)) }
        ensures removed { OnOk result (RemovesHeld self.old.held self.new.held node id.now) }
        ensures one { OnOk result (RemovesOneHeld self.old.held self.new.held node id.now) }
        ensures err { OnErr result (SameHeld self.old.held self.new.held) }
        ensures source { self.new.source ≡ self.old.source }
        ensures counted { meter.old ≤ meter.new }
        ensures uncounted { IfErr result (λ fault. (fault ≡ TimelineFault.Memory) ⊎ (meter.new ≡ meter.old)) }
        ensures bound { (others : List Group) → HasOthers self.old.held (group_of id.now) others
            → meter.new ≤ meter.old + 3 * length others + 1 }
        ensures level { OnOk result ((IsCompleteIn self.old.held (group_of id.now)
            ↔ IsCompleteIn self.new.held (group_of id.now)) → meter.new ≡ meter.old) }
        ensures met { (IsCompleteIn self.old.held (group_of id.now) → ⊥)
            → (pieces : List Shown) → ArePieces self.old.held pieces
            → meter.new ≤ meter.old + length (cut ((group_of id.now).interval ∷ []) pieces) }
    {
        if !self.is_source_of(id) {
            return Err(TimelineFault::NotThere);
        }
        if !self.is_held(id, node) {
            return Err(TimelineFault::NotThere);
        }
        self.remove_present(id, node, meter)?;
        Ok(())
    }

    /// The visible pieces of all instants, in order, each with its chunk. Does not allocate.
    pub fn runs(&self) -> &[(Interval, GroupKey)]
        ensures { ArePieces self.now.held (map shown_at result.now) }
    {
        &self.runs
    }

    /// The chunk that is visible at an instant. Does not allocate.
    ///
    /// # Errors
    ///
    /// None where no chunk is.
    pub fn at(&self, instant: Instant) -> Option<&GroupKey>
        ensures { MatchOption result (NothingVisible self.now.held instant)
            (λ key. IsVisible self.now.held instant key.now) }
    {
        chunk_at(&self.runs, instant)
    }

    /// The visible pieces, cut by the parts of a set, in order, each with all partitions of its chunk.
    ///
    /// # Errors
    ///
    /// Out of memory.
    pub fn lookup(&self, set: &IntervalSet) -> Result<Vec<Piece>, AllocError>
        ensures pieces { IfOk result (λ found.
            ArePiecesIn (AnyHas set.now) self.now.held (map shown_of found.items)) }
        ensures parts { IfOk result (λ found.
            All (λ piece. ArePartitions (members_of self.now.held piece.group) piece.parts) found.items) }
    {
        pieces_in(self.alloc, &self.chunks, &self.runs, set.parts())
    }

    /// The complete chunks that are visible at no instant, each once: by start, then by end, then by rising version.
    ///
    /// # Errors
    ///
    /// Out of memory. The meter may have counted, and is not set back.
    pub fn overshadowed(&self, meter: &mut Meter) -> Result<Vec<GroupKey>, AllocError>
        ensures all { IfOk result (λ v. (g : Group) → Contains v.items g ↔ IsOvershadowed self.now.held g) }
        ensures sorted { IfOk result (λ v. IsStrictlySortedBy place_cmp v.items) }
        ensures counted { meter.old ≤ meter.new }
    {
        overshadowed_in(self.alloc, &self.chunks, &self.runs, meter)
    }

    /// The nodes that hold a segment, rising; none where it is of another source.
    ///
    /// # Errors
    ///
    /// Out of memory.
    pub fn replicas(&self, id: &SegmentId) -> Result<Vec<NodeNo>, AllocError>
        ensures rising { IfOk result (λ v. IsStrictlyIncreasing v.items) }
        ensures nodes { IfOk result (λ v. (n : ℕ) → Contains v.items n ↔ IsServed self.now n id.now) }
    {
        if !self.is_source_of(id) {
            return Ok(Vec::new(self.alloc));
        }
        Vec::from_slice(self.alloc, self.chunks.replicas(id))
    }

    /// The nodes that hold a segment as no tombstone, rising; none where it is of another source.
    ///
    /// # Errors
    ///
    /// Out of memory.
    pub fn served(&self, id: &SegmentId) -> Result<Vec<NodeNo>, AllocError>
        ensures rising { IfOk result (λ v. IsStrictlyIncreasing v.items) }
        ensures nodes { IfOk result (λ v. (n : ℕ) → Contains v.items n ↔ ServesRows self.now n id.now) }
    {
        if !self.is_source_of(id) {
            return Ok(Vec::new(self.alloc));
        }
        Vec::from_slice(self.alloc, self.chunks.served(id))
    }

    /// A timeline of equal holding.
    ///
    /// # Errors
    ///
    /// Out of memory.
    pub fn try_clone(&self) -> Result<Timeline, AllocError>
        ensures { IfOk result (λ copy. copy ≡ self.now) }
    {
        Ok(Timeline {
            alloc: self.alloc,
            source: self.source.clone()?,
            chunks: self.chunks.clone()?,
            runs: self.runs.clone()?,
        })
    }
}

impl Clone for Timeline {
    ghost is_clone = { λ timeline copy. copy ≡ timeline };

    fn clone(&self) -> Result<Timeline, AllocError> {
        self.try_clone()
    }
}
