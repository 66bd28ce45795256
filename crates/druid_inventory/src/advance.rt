//! The entry of a node moved to another mark, and the timelines with it.
ghost use Rattle.std.specs.Prelude.{◌≡◌, ◌<◌, ◌≤◌, List, Some, OnOk, OnErr, length, map, slice_get, slice_set, vec_len};
ghost use Rattle.std.specs.Arc.{arc_value};
ghost use Rattle.druid_segment_descriptor.specs.Described.{Described};
ghost use Rattle.druid_segment_descriptor.specs.Reply.{max_changes};
ghost use Rattle.druid_segment_descriptor.specs.Replay.{replay_from};
ghost use Rattle.druid_inventory.specs.Entry.{Entry, max_nodes};
ghost use Rattle.druid_inventory.specs.Moves.{Moves, MovesAt};
ghost use Rattle.druid_inventory.specs.Timelines.{AreTimelines, AreTimelinesOf, IsInventory, ServesWith};

use crate::known::KnownNode;
use crate::timelines::{ChangingTimelines, Timelines, change_set};
use druid_segment_descriptor::{Change, Mark, NodeNo};
use std::alloc::{AllocError, Global};
use std::sync::Arc;

// The entry of a node.
pub(crate) fn entry_of(entries: &[Arc<KnownNode, Global>], node: usize) -> &KnownNode
    requires { node < length entries.now }
    ensures { slice_get (map arc_value entries.now) node ≡ Some result.now }
{
    &entries[node]
}

// Puts an entry of a node in the place of the one that is there, and changes the timelines.
pub(crate) fn put_entry(
    entries: &mut Vec<Arc<KnownNode, Global>>,
    timelines: &mut ChangingTimelines,
    alloc: Global,
    node: NodeNo,
    entry: Arc<KnownNode, Global>,
) -> Result<(), AllocError>
    requires node { node < vec_len entries.old }
    requires over { AreTimelinesOf (map arc_value entries.old.items) timelines.old }
    ensures entries { OnOk result (map arc_value entries.new.items
        ≡ slice_set (map arc_value entries.old.items) node (arc_value entry)) }
    ensures over { OnOk result (AreTimelinesOf (map arc_value entries.new.items) timelines.new) }
    ensures long { OnOk result (vec_len entries.new ≡ vec_len entries.old) }
{
    let known = entry_of(entries, node as usize);
    change_set(timelines, alloc, node, known.set(), entry.set())?;
    entries[node as usize] = entry;
    Ok(())
}

// Moves the entry of a node to another mark, by changes of its set. An entry that others share is copied first.
fn advance_known(
    entry: &mut Arc<KnownNode, Global>,
    timelines: &mut Timelines,
    alloc: Global,
    node: NodeNo,
    to: Mark,
    changes: &[Change],
) -> Result<(), AllocError>
    requires incarnation { 1 ≤ to.incarnation }
    requires few { length changes.now ≤ max_changes }
    requires made { (t : List Described) × (replay_from (arc_value entry.old).set changes.now ≡ Some t) }
    requires over { (entries : List Entry)
        × AreTimelines (ServesWith entries node (arc_value entry.old).set) timelines.old }
    ensures ok { OnOk result (Moves (arc_value entry.old) (arc_value entry.new) to changes.now) }
    ensures err { OnErr result (arc_value entry.new ≡ arc_value entry.old) }
    ensures over { (entries : List Entry)
        → AreTimelines (ServesWith entries node (arc_value entry.old).set) timelines.old
        → AreTimelines (ServesWith entries node (arc_value entry.new).set) timelines.new }
{
    let known = Arc::make_mut(entry)?;
    known.advance(timelines, alloc, node, to, changes)
}

// Moves the entry of a node to another mark, by changes of its set.
fn advance_entries(
    entries: &mut Vec<Arc<KnownNode, Global>>,
    timelines: &mut Timelines,
    alloc: Global,
    node: NodeNo,
    to: Mark,
    changes: &[Change],
) -> Result<(), AllocError>
    requires incarnation { 1 ≤ to.incarnation }
    requires few { length changes.now ≤ max_changes }
    requires made { (e : Entry) × (slice_get (map arc_value entries.old.items) node ≡ Some e)
        × (t : List Described) × (replay_from e.set changes.now ≡ Some t) }
    requires over { AreTimelinesOf (map arc_value entries.old.items) timelines.old }
    ensures ok { OnOk result
        (MovesAt (map arc_value entries.old.items) (map arc_value entries.new.items) node to changes.now) }
    ensures err { OnErr result (map arc_value entries.new.items ≡ map arc_value entries.old.items) }
    ensures over { AreTimelinesOf (map arc_value entries.new.items) timelines.new }
    ensures long { vec_len entries.new ≡ vec_len entries.old }
{
    let entry = &mut entries[node as usize];
    advance_known(entry, timelines, alloc, node, to, changes)
}

// Moves the entry of a node to another mark, by changes of its set. What other inventories share is copied first.
pub(crate) fn advance_shared(
    entries: &mut Arc<Vec<Arc<KnownNode, Global>>, Global>,
    timelines: &mut Arc<Timelines, Global>,
    alloc: Global,
    node: NodeNo,
    to: Mark,
    changes: &[Change],
) -> Result<(), AllocError>
    requires incarnation { 1 ≤ to.incarnation }
    requires few { length changes.now ≤ max_changes }
    requires made { (e : Entry) × (slice_get (map arc_value (arc_value entries.old).items) node ≡ Some e)
        × (t : List Described) × (replay_from e.set changes.now ≡ Some t) }
    requires over { IsInventory (map arc_value (arc_value entries.old).items) (arc_value timelines.old) }
    ensures ok { OnOk result (MovesAt (map arc_value (arc_value entries.old).items)
        (map arc_value (arc_value entries.new).items) node to changes.now) }
    ensures err { OnErr result
        (map arc_value (arc_value entries.new).items ≡ map arc_value (arc_value entries.old).items) }
    ensures over { IsInventory (map arc_value (arc_value entries.new).items) (arc_value timelines.new) }
{
    let entries = Arc::make_mut(entries)?;
    let timelines = Arc::make_mut(timelines)?;
    advance_entries(entries, timelines, alloc, node, to, changes)
}
