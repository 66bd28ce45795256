//! What is held of a source while much of it changes: what is visible is made once, after all
//! edits.
ghost use Rattle.std.specs.Prelude.{◌≡◌, ◌≤◌, ◌+◌, ◌*◌, ◌↔◌, List, [], length, IsTrue, IfOk, OnOk, OnErr};
ghost use Rattle.druid_segment_id.specs.Group.{Group};
ghost use Rattle.druid_timeline.specs.Holding.{held_of, HoldsNothing, HasComplete, IsHeld, IsServed, AddsHeld, RemovesHeld, RemovesOneHeld, SameHeld};

use crate::Timeline;
use crate::visible_pieces::runs_of;
use druid_segment_descriptor::{Descriptor, NodeNo};
use druid_segment_id::{Meter, Name, SegmentId};
use druid_timeline_chunks::Chunks;
use std::alloc::{AllocError, Global};
use std::marker::Model;

/// What nodes serve of one data source, without what is visible of it: edits compare no ranks, and one sweep after them
/// makes the timeline.
///
/// A contract sees the source, and what is held of it as a set.
#[derive(Debug, Drop)]
pub struct Holding {
    alloc: Global,
    source: Name,
    chunks: Chunks,
}

impl Model for Holding {
    ghost use Rattle.druid_timeline.specs.Holding.{Serving};
    ghost use Rattle.druid_timeline.specs.Chunks.{held_in};

    ghost Value = { Serving };

    ghost view = { λ a. record { source = a.source; held = held_in a.chunks } };
}

impl Holding {
    /// Nothing held of a data source.
    pub fn new(alloc: Global, source: Name) -> Holding
        ensures { result ≡ record { source = source; held = [] } }
    {
        Holding {
            alloc,
            source,
            chunks: Chunks::new(alloc),
        }
    }

    /// What is held of a timeline. Copies share the chunks.
    ///
    /// # Errors
    ///
    /// Out of memory.
    pub fn of(timeline: &Timeline) -> Result<Holding, AllocError>
        ensures { IfOk result (λ holding. holding ≡ timeline.now) }
    {
        Ok(Holding {
            alloc: timeline.alloc,
            source: timeline.source.clone()?,
            chunks: timeline.chunks.clone()?,
        })
    }

    /// Whether no node serves a segment of the source.
    pub fn is_empty(&self) -> bool
        ensures { IsTrue result ↔ HoldsNothing self.now.held }
    {
        // For the proof: it tells that no chunk is without members.
        let _ = self.chunks.as_slice();
        self.chunks.is_empty()
    }

    /// Adds a segment of this source that the node does not serve yet.
    ///
    /// # Errors
    ///
    /// Out of memory. Leaves the source, and as a set what is held.
    pub fn add_absent(&mut self, descriptor: &Descriptor, node: NodeNo) -> Result<(), AllocError>
        requires source { descriptor.now.id.source ≡ self.old.source }
        requires absent { IsHeld self.old.held node descriptor.now.id → ⊥ }
        ensures added { OnOk result (AddsHeld self.old.held self.new.held (held_of node descriptor.now)) }
        ensures err { OnErr result (SameHeld self.old.held self.new.held) }
        ensures source { self.new.source ≡ self.old.source }
    {
        // For the proof: it tells that each group stands once.
        let _ = self.chunks.as_slice();
        self.chunks.add(descriptor, node)
    }

    /// Removes a segment of this source that the node serves.
    ///
    /// # Errors
    ///
    /// Out of memory. Leaves the source, and as a set what is held.
    pub fn remove_present(&mut self, id: &SegmentId, node: NodeNo) -> Result<(), AllocError>
        requires { IsServed self.old node id.now }
        ensures removed { OnOk result (RemovesHeld self.old.held self.new.held node id.now) }
        ensures one { OnOk result (RemovesOneHeld self.old.held self.new.held node id.now) }
        ensures err { OnErr result (SameHeld self.old.held self.new.held) }
        ensures source { self.new.source ≡ self.old.source }
    {
        // For the proof: it tells that each group stands once.
        let _ = self.chunks.as_slice();
        self.chunks.remove(id, node)
    }

    /// The timeline of what is held, by one sweep. Where n chunks are complete, it counts at most 3 * n comparisons,
    /// whatever the answer.
    ///
    /// # Errors
    ///
    /// Out of memory.
    pub fn into_timeline(self, meter: &mut Meter) -> Result<Timeline, AllocError>
        ensures timeline { IfOk result (λ timeline. timeline ≡ self) }
        ensures counted { meter.old ≤ meter.new }
        ensures bound { (complete : List Group) → HasComplete self.held complete
            → meter.new ≤ meter.old + 3 * length complete }
    {
        let Holding {
            alloc,
            source,
            chunks,
        } = self;
        let runs = runs_of(alloc, &chunks, meter)?;
        Ok(Timeline {
            alloc,
            source,
            chunks,
            runs,
        })
    }
}
