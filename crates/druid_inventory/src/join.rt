//! What two inventories are together, judged before anything is allocated.
ghost use Rattle.std.specs.Prelude.{◌≡◌, ◌≢◌, ◌↔◌, ◌≤◌, ◌<◌, ℕ, Some, IsTrue, OnOk, false, MatchOption, length, map, slice_get, slice_set, vec_len};
ghost use Rattle.std.specs.Arc.{arc_value};
ghost use Rattle.std.specs.Ordering.{is_lt};
ghost use Rattle.druid_segment_descriptor.specs.Mark.{mark_cmp};
ghost use Rattle.druid_inventory.specs.Entry.{Entry, max_nodes};
ghost use Rattle.druid_inventory.specs.Join.{names_of, later, Conflict, ConflictAt};
ghost use Rattle.druid_inventory.specs.Judged.{NoneLater};
ghost use Rattle.druid_inventory.specs.Timelines.{AreTimelinesOf};

use crate::advance::{entry_of, put_entry};
use crate::known::{KnownNode, are_same};
use crate::timelines::ChangingTimelines;
use druid_segment_descriptor::NodeNo;
use std::alloc::{AllocError, Global};
use std::sync::Arc;

// Whether the entries are of the same nodes, in one order.
pub(crate) fn are_of_same_nodes(a: &[Arc<KnownNode, Global>], b: &[Arc<KnownNode, Global>]) -> bool
    ensures { IsTrue result ↔ (names_of (map arc_value a.now) ≡ names_of (map arc_value b.now)) }
{
    if a.len() != b.len() {
        return false;
    }
    for node in 0..a.len() {
        if entry_of(a, node).name() != entry_of(b, node).name() {
            return false;
        }
    }
    true
}

// Whether two entries of a node have other sets at one mark.
fn do_conflict(a: &KnownNode, b: &KnownNode) -> bool
    ensures { IsTrue result ↔ Conflict a.now b.now }
{
    if a.mark() != b.mark() {
        return false;
    }
    !are_same(a.set(), b.set())
}

// The least node of which the entries have other sets at one mark.
pub(crate) fn first_conflict(
    a: &[Arc<KnownNode, Global>],
    b: &[Arc<KnownNode, Global>],
) -> Option<NodeNo>
    requires long { length a.now ≡ length b.now }
    requires few { length a.now ≤ max_nodes }
    ensures { MatchOption result
        ((node : ℕ) → ConflictAt (map arc_value a.now) (map arc_value b.now) node → ⊥)
        (λ node. ConflictAt (map arc_value a.now) (map arc_value b.now) node
        × ((i : ℕ) → i < node → ConflictAt (map arc_value a.now) (map arc_value b.now) i → ⊥)) }
{
    for node in 0..a.len() {
        if do_conflict(entry_of(a, node), entry_of(b, node)) {
            return Some(node as NodeNo);
        }
    }
    None
}

// Whether the second entry is of a later mark.
fn is_older(a: &KnownNode, b: &KnownNode) -> bool
    ensures { result ≡ is_lt (mark_cmp a.now.mark b.now.mark) }
{
    a.mark() < b.mark()
}

// Whether an entry of the second is later than that of its node in the first.
pub(crate) fn has_later(a: &[Arc<KnownNode, Global>], b: &[Arc<KnownNode, Global>]) -> bool
    requires { length a.now ≡ length b.now }
    ensures { result ≡ false → NoneLater (map arc_value a.now) (map arc_value b.now) }
{
    for node in 0..a.len() {
        if is_older(entry_of(a, node), entry_of(b, node)) {
            return true;
        }
    }
    false
}

// Replaces the entry of a node by this one if it is later, and changes the timelines.
pub(crate) fn catch_up(
    entries: &mut Vec<Arc<KnownNode, Global>>,
    timelines: &mut ChangingTimelines,
    alloc: Global,
    node: usize,
    entry: &Arc<KnownNode, Global>,
) -> Result<(), AllocError>
    requires node { node < vec_len entries.old }
    requires few { vec_len entries.old ≤ max_nodes }
    requires over { AreTimelinesOf (map arc_value entries.old.items) timelines.old }
    ensures entries { OnOk result ((e : Entry) × (slice_get (map arc_value entries.old.items) node ≡ Some e)
        × (map arc_value entries.new.items
        ≡ slice_set (map arc_value entries.old.items) node (later e (arc_value entry.now)))) }
    ensures over { OnOk result (AreTimelinesOf (map arc_value entries.new.items) timelines.new) }
    ensures long { OnOk result (vec_len entries.new ≡ vec_len entries.old) }
{
    if !is_older(entry_of(entries, node), entry) {
        return Ok(());
    }
    let entry = Arc::try_clone(entry)?;
    put_entry(entries, timelines, alloc, node as NodeNo, entry)
}
