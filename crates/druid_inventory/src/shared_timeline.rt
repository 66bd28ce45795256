//! Timelines, which inventories share. `Arc::new` may be refused memory, so a roll back cannot
//! promise a pointer: where it is refused the timeline is kept without one, and copies of the
//! inventory copy it whole until its next edit in place.
ghost use Rattle.std.specs.Prelude.{◌≡◌, IfOk, OnOk, OnErr};
ghost use Rattle.druid_timeline.specs.Holding.{held_of, IsHeld, IsServed, AddsHeld, RemovesHeld};
ghost use Rattle.druid_inventory.specs.Kept.{timeline_in};

use druid_segment_descriptor::{Descriptor, NodeNo};
use druid_segment_id::{Meter, SegmentId};
use druid_timeline::Timeline;
use std::alloc::{AllocError, Global};
use std::marker::Model;
use std::mem;
use std::sync::Arc;

// Where a timeline is kept.
#[derive(Debug, Drop)]
enum Kept {
    // A pointer, which copies share.
    Shared(Arc<Timeline, Global>),
    // In place, where no memory was left for a pointer.
    Own(Timeline),
}

// A timeline. Copies share it until one is edited. A contract sees the timeline.
#[derive(Debug, Drop)]
pub(crate) struct SharedTimeline {
    kept: Kept,
}

impl Model for SharedTimeline {
    ghost use Rattle.druid_timeline.specs.Holding.{Serving};
    ghost use Rattle.druid_inventory.specs.Kept.{timeline_in};

    ghost Value = { Serving };

    ghost view = { λ a. timeline_in a.kept };
}

impl Clone for SharedTimeline {
    ghost is_clone = { λ shared copy. copy ≡ shared };

    fn clone(&self) -> Result<SharedTimeline, AllocError> {
        match &self.kept {
            Kept::Shared(timeline) => Ok(SharedTimeline {
                kept: Kept::Shared(Arc::try_clone(timeline)?),
            }),
            Kept::Own(timeline) => Ok(SharedTimeline {
                kept: Kept::Own(timeline.try_clone()?),
            }),
        }
    }
}

// Adds a segment, which the node does not serve yet. A timeline that others share is copied first.
fn add_to_kept(kept: &mut Kept, node: NodeNo, descriptor: &Descriptor) -> Result<(), AllocError>
    requires source { descriptor.now.id.source ≡ (timeline_in kept.old).source }
    requires new { IsHeld (timeline_in kept.old).held node descriptor.now.id → ⊥ }
    ensures added { OnOk result
        (AddsHeld (timeline_in kept.old).held (timeline_in kept.new).held (held_of node descriptor.now)) }
    ensures source { OnOk result ((timeline_in kept.new).source ≡ (timeline_in kept.old).source) }
{
    let mut meter = Meter::new();
    match kept {
        Kept::Shared(pointer) => {
            let timeline = Arc::make_mut(pointer)?;
            timeline.add_absent(descriptor, node, &mut meter)
        }
        Kept::Own(timeline) => timeline.add_absent(descriptor, node, &mut meter),
    }
}

// Removes a segment that the node serves. A timeline that others share is copied first.
fn remove_from_kept(kept: &mut Kept, node: NodeNo, id: &SegmentId) -> Result<(), AllocError>
    requires { IsServed (timeline_in kept.old) node id.now }
    ensures removed { OnOk result
        (RemovesHeld (timeline_in kept.old).held (timeline_in kept.new).held node id.now) }
    ensures source { OnOk result ((timeline_in kept.new).source ≡ (timeline_in kept.old).source) }
{
    let mut meter = Meter::new();
    match kept {
        Kept::Shared(pointer) => {
            let timeline = Arc::make_mut(pointer)?;
            timeline.remove_present(id, node, &mut meter)
        }
        Kept::Own(timeline) => timeline.remove_present(id, node, &mut meter),
    }
}

// Takes the timeline out and leaves another. A timeline that others share is copied first.
fn take_kept(kept: &mut Kept, left: Timeline) -> Result<Timeline, AllocError>
    ensures ok { IfOk result (λ timeline. timeline ≡ timeline_in kept.old) }
    ensures err { OnErr result (timeline_in kept.new ≡ timeline_in kept.old) }
{
    match kept {
        Kept::Shared(pointer) => {
            let timeline = Arc::make_mut(pointer)?;
            Ok(mem::replace(timeline, left))
        }
        Kept::Own(timeline) => Ok(mem::replace(timeline, left)),
    }
}

impl SharedTimeline {
    // A timeline that no other inventory has. Where no memory is left for a pointer to it, it is kept in place, and
    // copies do not share it.
    pub(crate) fn new(alloc: Global, timeline: Timeline) -> SharedTimeline
        ensures { result ≡ timeline }
    {
        match Arc::new(alloc, timeline) {
            Ok(pointer) => SharedTimeline {
                kept: Kept::Shared(pointer),
            },
            Err(refused) => SharedTimeline {
                kept: Kept::Own(refused.value),
            },
        }
    }

    // The timeline, borrowed.
    pub(crate) fn as_timeline(&self) -> &Timeline
        ensures { result.now ≡ self.now }
    {
        match &self.kept {
            Kept::Shared(pointer) => pointer,
            Kept::Own(timeline) => timeline,
        }
    }

    // Adds a segment of its source, which the node does not serve yet. A timeline that others share is copied first.
    pub(crate) fn add(&mut self, node: NodeNo, descriptor: &Descriptor) -> Result<(), AllocError>
        requires source { descriptor.now.id.source ≡ self.old.source }
        requires new { IsHeld self.old.held node descriptor.now.id → ⊥ }
        ensures added { OnOk result (AddsHeld self.old.held self.new.held (held_of node descriptor.now)) }
        ensures source { OnOk result (self.new.source ≡ self.old.source) }
    {
        add_to_kept(&mut self.kept, node, descriptor)
    }

    // Removes a segment that the node serves. A timeline that others share is copied first.
    pub(crate) fn remove(&mut self, node: NodeNo, id: &SegmentId) -> Result<(), AllocError>
        requires { IsServed self.old node id.now }
        ensures removed { OnOk result (RemovesHeld self.old.held self.new.held node id.now) }
        ensures source { OnOk result (self.new.source ≡ self.old.source) }
    {
        remove_from_kept(&mut self.kept, node, id)
    }

    // Takes the timeline out and leaves another. A timeline that others share is copied first.
    pub(crate) fn take(&mut self, left: Timeline) -> Result<Timeline, AllocError>
        ensures ok { IfOk result (λ timeline. timeline ≡ self.old) }
        ensures err { OnErr result (self.new ≡ self.old) }
    {
        take_kept(&mut self.kept, left)
    }
}
