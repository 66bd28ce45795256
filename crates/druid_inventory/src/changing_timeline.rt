//! A timeline while what is held of its source changes: edit by edit, or swept once where many
//! changes come. A delta goes edit by edit always, since it may be rolled back.
ghost use Rattle.std.specs.Prelude.{◌≡◌, ◌↔◌, [], IsTrue, IfOk, IfSome, OnOk};
ghost use Rattle.druid_timeline.specs.Holding.{held_of, HoldsNothing, IsHeld, IsServed, AddsHeld, RemovesHeld};
ghost use Rattle.druid_inventory.specs.Ways.{serving_in};

use crate::shared_timeline::SharedTimeline;
use druid_segment_descriptor::{Descriptor, NodeNo};
use druid_segment_id::{Meter, Name, SegmentId};
use druid_timeline::Holding;
use std::alloc::{AllocError, Global};
use std::marker::Model;

// More changes than one for so many chunks are many: then one sweep over all chunks costs less than they.
const CHUNKS_PER_CHANGE: usize = 32;

// How a timeline changes.
#[derive(Debug, Drop)]
enum Way {
    // Each change edits what is visible.
    Edited(SharedTimeline),
    // What is visible is swept after all changes.
    Swept(Holding),
}

// A timeline while it changes. A contract sees the timeline.
#[derive(Debug, Drop)]
pub(crate) struct ChangingTimeline {
    way: Way,
    // How many changes were announced. It decides on the way alone.
    expected: usize,
}

impl Model for ChangingTimeline {
    ghost use Rattle.druid_timeline.specs.Holding.{Serving};
    ghost use Rattle.druid_inventory.specs.Ways.{serving_in};

    ghost Value = { Serving };

    ghost view = { λ a. serving_in a.way };
}

// What is held, to be swept, where so many changes are many. None where they are not, or where it is so already.
fn holding_for(way: &Way, changes: usize) -> Result<Option<Holding>, AllocError>
    ensures { IfOk result (λ holding. IfSome holding (λ h. h ≡ serving_in way.now)) }
{
    let Way::Edited(shared) = way else {
        return Ok(None);
    };
    let timeline = shared.as_timeline();
    if changes <= timeline.chunk_count() / CHUNKS_PER_CHANGE {
        return Ok(None);
    }
    Ok(Some(Holding::of(timeline)?))
}

// Adds a segment, which the node does not serve yet.
fn add_by(way: &mut Way, node: NodeNo, descriptor: &Descriptor) -> Result<(), AllocError>
    requires source { descriptor.now.id.source ≡ (serving_in way.old).source }
    requires new { IsHeld (serving_in way.old).held node descriptor.now.id → ⊥ }
    ensures added { OnOk result
        (AddsHeld (serving_in way.old).held (serving_in way.new).held (held_of node descriptor.now)) }
    ensures source { OnOk result ((serving_in way.new).source ≡ (serving_in way.old).source) }
{
    match way {
        Way::Edited(shared) => shared.add(node, descriptor),
        Way::Swept(holding) => holding.add_absent(descriptor, node),
    }
}

// Removes a segment that the node serves.
fn remove_by(way: &mut Way, node: NodeNo, id: &SegmentId) -> Result<(), AllocError>
    requires { IsServed (serving_in way.old) node id.now }
    ensures removed { OnOk result
        (RemovesHeld (serving_in way.old).held (serving_in way.new).held node id.now) }
    ensures source { OnOk result ((serving_in way.new).source ≡ (serving_in way.old).source) }
{
    match way {
        Way::Edited(shared) => shared.remove(node, id),
        Way::Swept(holding) => holding.remove_present(id, node),
    }
}

impl ChangingTimeline {
    // A timeline of a source of which nothing is held, which is swept after its changes.
    pub(crate) fn new(alloc: Global, source: Name) -> ChangingTimeline
        ensures { result ≡ record { source = source; held = [] } }
    {
        ChangingTimeline {
            way: Way::Swept(Holding::new(alloc, source)),
            expected: 0,
        }
    }

    // A timeline of which no change was announced.
    pub(crate) fn of(timeline: SharedTimeline) -> ChangingTimeline
        ensures { result ≡ timeline }
    {
        ChangingTimeline {
            way: Way::Edited(timeline),
            expected: 0,
        }
    }

    // Announces one change more.
    pub(crate) fn expect_change(&mut self) -> Result<(), AllocError>
        ensures { self.new ≡ self.old }
    {
        self.expected = self.expected.saturating_add(1);
        if let Some(holding) = holding_for(&self.way, self.expected)? {
            self.way = Way::Swept(holding);
        }
        Ok(())
    }

    // Whether nothing is held.
    pub(crate) fn is_empty(&self) -> bool
        ensures { IsTrue result ↔ HoldsNothing self.now.held }
    {
        match &self.way {
            Way::Edited(shared) => shared.as_timeline().is_empty(),
            Way::Swept(holding) => holding.is_empty(),
        }
    }

    // Adds a segment of its source, which the node does not serve yet.
    pub(crate) fn add(&mut self, node: NodeNo, descriptor: &Descriptor) -> Result<(), AllocError>
        requires source { descriptor.now.id.source ≡ self.old.source }
        requires new { IsHeld self.old.held node descriptor.now.id → ⊥ }
        ensures added { OnOk result (AddsHeld self.old.held self.new.held (held_of node descriptor.now)) }
        ensures source { OnOk result (self.new.source ≡ self.old.source) }
    {
        add_by(&mut self.way, node, descriptor)
    }

    // Removes a segment that the node serves.
    pub(crate) fn remove(&mut self, node: NodeNo, id: &SegmentId) -> Result<(), AllocError>
        requires { IsServed self.old node id.now }
        ensures removed { OnOk result (RemovesHeld self.old.held self.new.held node id.now) }
        ensures source { OnOk result (self.new.source ≡ self.old.source) }
    {
        remove_by(&mut self.way, node, id)
    }

    // The timeline after its changes.
    pub(crate) fn into_shared(self, alloc: Global) -> Result<SharedTimeline, AllocError>
        ensures { IfOk result (λ timeline. timeline ≡ self) }
    {
        match self.way {
            Way::Edited(shared) => Ok(shared),
            Way::Swept(holding) => {
                let timeline = holding.into_timeline(&mut Meter::new())?;
                Ok(SharedTimeline::new(alloc, timeline))
            }
        }
    }
}
