//! Edits of the chunks and the runs of a timeline that are logged, so that they can be taken back.
ghost use Rattle.std.specs.Prelude.{◌≡◌, ◌<◌, ◌≤◌, ◌+◌, ◌*◌, ◌↔◌, List, [], ◌∷◌, length, map, reverse, vec_len, vec_capacity, IfSome, OnOk, OnErr};
ghost use Rattle.druid_segment_id.specs.Group.{Group, group_of};
ghost use Rattle.druid_timeline_chunks.specs.Chunks.{Chunk};
ghost use Rattle.druid_timeline.specs.Chunks.{held_in};
ghost use Rattle.druid_timeline.specs.Edited.{HasOthers};
ghost use Rattle.druid_timeline.specs.Exchanges.{CanExchange, CanUndo, HaveMembersOf, TakesBack, settled, undone};
ghost use Rattle.druid_timeline.specs.Holding.{IsCompleteIn, IsHeld, held_of, AddsHeld, RemovesHeld, RemovesOneHeld, SameHeld};
ghost use Rattle.druid_timeline.specs.Pieces.{Shown, ArePieces, cut, shown_at};

use crate::edit::{Edit, exchange};
use crate::turn::prepare_edit;
use druid_segment_descriptor::{Descriptor, NodeNo};
use druid_segment_id::{GroupKey, Meter, SegmentId};
use druid_time::Interval;
use druid_timeline_chunks::Transaction;
use std::alloc::{AllocError, Global};

// Room in a log for an edit, if there is one.
fn reserve_for(log: &mut Vec<Edit>, edit: &Option<Edit>) -> Result<(), AllocError>
    ensures same { log.new.items ≡ log.old.items }
    ensures room { OnOk result (IfSome edit.now (λ _. vec_len log.new < vec_capacity log.new)) }
{
    if edit.is_some() {
        log.reserve(1)?;
    }
    Ok(())
}

// Exchanges the runs for those of an edit, if there is one, and logs it.
fn settle_logged(runs: &mut Vec<(Interval, GroupKey)>, log: &mut Vec<Edit>, edit: Option<Edit>)
    requires can { IfSome edit (CanExchange runs.old.items (vec_capacity runs.old)) }
    requires room { IfSome edit (λ _. vec_len log.old < vec_capacity log.old) }
    ensures runs { runs.new.items ≡ settled runs.old.items edit }
    ensures back { (before : List Chunk) → TakesBack before runs.old.items (vec_capacity runs.old) log.old.items
        → TakesBack before runs.new.items (vec_capacity runs.new) log.new.items }
{
    if let Some(edit) = edit {
        log.push_reserved(exchange(runs, edit));
    }
}

// Adds a segment that the node does not serve yet, and edits the runs. A refusal changes neither.
pub(crate) fn add_logged(
    alloc: Global,
    chunks: &mut Transaction,
    runs: &mut Vec<(Interval, GroupKey)>,
    log: &mut Vec<Edit>,
    descriptor: &Descriptor,
    node: NodeNo,
    meter: &mut Meter,
) -> Result<(), AllocError>
    requires pieces { ArePieces (held_in chunks.old.now) (map shown_at runs.old.items) }
    requires back { TakesBack chunks.old.before runs.old.items (vec_capacity runs.old) log.old.items }
    requires new { IsHeld (held_in chunks.old.now) node descriptor.now.id → ⊥ }
    ensures pieces { ArePieces (held_in chunks.new.now) (map shown_at runs.new.items) }
    ensures back { TakesBack chunks.new.before runs.new.items (vec_capacity runs.new) log.new.items }
    ensures before { HaveMembersOf chunks.new.before chunks.old.before }
    ensures added { OnOk result (AddsHeld (held_in chunks.old.now) (held_in chunks.new.now) (held_of node descriptor.now)) }
    ensures err { OnErr result (SameHeld (held_in chunks.old.now) (held_in chunks.new.now)) }
    ensures counted { meter.old ≤ meter.new }
    ensures bound { (others : List Group) → HasOthers (held_in chunks.old.now) (group_of descriptor.now.id) others
        → meter.new ≤ meter.old + 3 * length others + 1 }
    ensures level { OnOk result ((IsCompleteIn (held_in chunks.old.now) (group_of descriptor.now.id)
        ↔ IsCompleteIn (held_in chunks.new.now) (group_of descriptor.now.id)) → meter.new ≡ meter.old) }
    ensures met { (IsCompleteIn (held_in chunks.old.now) (group_of descriptor.now.id) → ⊥)
        → (pieces : List Shown) → ArePieces (held_in chunks.old.now) pieces
        → meter.new ≤ meter.old + length (cut ((group_of descriptor.now.id).interval ∷ []) pieces) }
{
    let is_complete = chunks.chunks().is_complete_with(descriptor);
    let edit = prepare_edit(
        alloc,
        chunks.chunks(),
        runs,
        descriptor.id(),
        is_complete,
        meter,
    )?;
    reserve_for(log, &edit)?;
    chunks.add(descriptor, node)?;
    settle_logged(runs, log, edit);
    Ok(())
}

// Removes a segment that the node serves, and edits the runs. A refusal changes neither.
pub(crate) fn remove_logged(
    alloc: Global,
    chunks: &mut Transaction,
    runs: &mut Vec<(Interval, GroupKey)>,
    log: &mut Vec<Edit>,
    id: &SegmentId,
    node: NodeNo,
    meter: &mut Meter,
) -> Result<(), AllocError>
    requires pieces { ArePieces (held_in chunks.old.now) (map shown_at runs.old.items) }
    requires back { TakesBack chunks.old.before runs.old.items (vec_capacity runs.old) log.old.items }
    requires there { IsHeld (held_in chunks.old.now) node id.now }
    ensures pieces { ArePieces (held_in chunks.new.now) (map shown_at runs.new.items) }
    ensures back { TakesBack chunks.new.before runs.new.items (vec_capacity runs.new) log.new.items }
    ensures before { HaveMembersOf chunks.new.before chunks.old.before }
    ensures removed { OnOk result (RemovesHeld (held_in chunks.old.now) (held_in chunks.new.now) node id.now) }
    ensures one { OnOk result (RemovesOneHeld (held_in chunks.old.now) (held_in chunks.new.now) node id.now) }
    ensures err { OnErr result (SameHeld (held_in chunks.old.now) (held_in chunks.new.now)) }
    ensures counted { meter.old ≤ meter.new }
    ensures bound { (others : List Group) → HasOthers (held_in chunks.old.now) (group_of id.now) others
        → meter.new ≤ meter.old + 3 * length others + 1 }
    ensures level { OnOk result ((IsCompleteIn (held_in chunks.old.now) (group_of id.now)
        ↔ IsCompleteIn (held_in chunks.new.now) (group_of id.now)) → meter.new ≡ meter.old) }
    ensures met { (IsCompleteIn (held_in chunks.old.now) (group_of id.now) → ⊥)
        → (pieces : List Shown) → ArePieces (held_in chunks.old.now) pieces
        → meter.new ≤ meter.old + length (cut ((group_of id.now).interval ∷ []) pieces) }
{
    let is_complete = chunks.chunks().is_complete_without(id, node);
    let edit = prepare_edit(alloc, chunks.chunks(), runs, id, is_complete, meter)?;
    reserve_for(log, &edit)?;
    chunks.remove(id, node)?;
    settle_logged(runs, log, edit);
    Ok(())
}

// Takes the runs back by a log, from the last exchange to the first, without allocating.
pub(crate) fn take_back(runs: &mut Vec<(Interval, GroupKey)>, mut log: Vec<Edit>)
    requires { CanUndo (reverse log.items) runs.old.items (vec_capacity runs.old) }
    ensures { runs.new.items ≡ undone (reverse log.items) runs.old.items }
{
    while !log.is_empty() {
        let Some(edit) = log.pop() else {
            unreachable!()
        };
        exchange(runs, edit);
    }
}
