//! Changes made of a set and of the timelines over it, in place: wholly, or not at all.
ghost use Rattle.std.specs.Prelude.{◌≡◌, ◌≤◌, List, Some, OnOk, OnErr, length};
ghost use Rattle.druid_segment_descriptor.specs.Described.{Described};
ghost use Rattle.druid_segment_descriptor.specs.Reply.{max_changes};
ghost use Rattle.druid_segment_descriptor.specs.Replay.{IsSegmentSet, replay_from};
ghost use Rattle.druid_inventory.specs.Entry.{Entry};
ghost use Rattle.druid_inventory.specs.Timelines.{AreTimelines, ServesWith};

use crate::merge::{loads_of, put_in, take_out};
use crate::strict_changes::note_each;
use crate::timelines::Timelines;
use crate::transactions::replay_timelines;
use druid_segment_descriptor::{Change, Descriptor, MAX_CHANGES, NodeNo};
use std::alloc::{AllocError, Global};

// Makes changes of the set of a node and edits the timelines by them. Of each identifier the last change counts for the set.
pub(crate) fn advance_set(
    set: &mut Vec<Descriptor>,
    timelines: &mut Timelines,
    alloc: Global,
    node: NodeNo,
    changes: &[Change],
) -> Result<(), AllocError>
    requires set { IsSegmentSet set.old.items }
    requires few { length changes.now ≤ max_changes }
    requires made { (t : List Described) × (replay_from set.old.items changes.now ≡ Some t) }
    requires over { (entries : List Entry) × AreTimelines (ServesWith entries node set.old.items) timelines.old }
    ensures made { OnOk result (replay_from set.old.items changes.now ≡ Some set.new.items) }
    ensures err { OnErr result (set.new.items ≡ set.old.items) }
    ensures over { (entries : List Entry) → AreTimelines (ServesWith entries node set.old.items) timelines.old
        → AreTimelines (ServesWith entries node set.new.items) timelines.new }
{
    let mut places = [0; MAX_CHANGES];
    let count = note_each(changes, &mut places);
    let loads = loads_of(alloc, changes, &places[..count])?;
    set.reserve(loads.len())?;
    replay_timelines(timelines, alloc, node, changes)?;
    take_out(set, changes, &places[..count]);
    put_in(set, loads);
    Ok(())
}
