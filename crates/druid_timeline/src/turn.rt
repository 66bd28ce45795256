//! What the runs become where the completeness of one chunk turns.
ghost use Rattle.std.specs.Prelude.{◌≡◌, ◌<◌, ◌≤◌, ◌+◌, ◌*◌, ◌↔◌, ℕ, List, [], ◌∷◌, Option, false, length, map, vec_capacity, IsTrue, IfOk, IfSome, OnOk, OnErr, Contains};
ghost use Rattle.druid_segment_id.specs.Group.{Group, group_of};
ghost use Rattle.druid_timeline_chunks.specs.Chunks.{AreChunks, IsOverlapOf};
ghost use Rattle.druid_timeline.specs.Chunks.{held_in};
ghost use Rattle.druid_timeline.specs.Edited.{ArePiecesThen, HasOthers, IsWithin};
ghost use Rattle.druid_timeline.specs.Exchanges.{CanExchange, settled};
ghost use Rattle.druid_timeline.specs.Holding.{IsCompleteIn, IsHeld, held_of, AddsHeld, RemovesHeld, RemovesOneHeld, SameHeld};
ghost use Rattle.druid_timeline.specs.Pieces.{Shown, ArePieces, cut, shown_at};
ghost use Rattle.druid_timeline.specs.Skyline.{StartInOrder};

use crate::edit::{Edit, edit_overlaid, edit_swept, exchange};
use crate::overlay::hull_of;
use druid_segment_descriptor::{Descriptor, NodeNo};
use druid_segment_id::{GroupKey, Meter, SegmentId};
use druid_time::Interval;
use druid_timeline_chunks::Chunks;
use std::alloc::{AllocError, Global};

// The other complete chunks that overlap a part of a segment's interval, in the order of their starts.
fn sorted_others<'a>(
    chunks: &'a Chunks,
    id: &SegmentId,
    part: Interval,
) -> Result<Vec<&'a GroupKey>, AllocError>
    requires { IsWithin part (group_of id.now).interval }
    ensures all { IfOk result (λ found. (g : Group) → Contains (map (λ c. c.now) found.items) g
        ↔ IsOverlapOf chunks.now (group_of id.now) part g) }
    ensures sorted { IfOk result (λ found. StartInOrder (map (λ c. c.now) found.items)) }
    ensures few { IfOk result (λ found. (others : List Group) → HasOthers (held_in chunks.now) (group_of id.now) others
        → length found.items ≤ length others) }
    ensures chunks { AreChunks chunks.now }
{
    let mut found = chunks.overlapping(id, part)?;
    found.sort_unstable_by_key(|key| key.interval().start());
    Ok(found)
}

// What the runs become where a segment's chunk is complete no more. None where they show it nowhere, and so stay; else
// the other chunks are looked at from the first instant to the last at which they show it.
fn edit_without(
    alloc: Global,
    chunks: &Chunks,
    runs: &[(Interval, GroupKey)],
    id: &SegmentId,
    meter: &mut Meter,
) -> Result<Option<Edit>, AllocError>
    requires { ArePieces (held_in chunks.now) (map shown_at runs.now) }
    ensures inside { IfOk result (λ edit. IfSome edit (λ e. (e.from ≤ e.to) × (e.to ≤ length runs.now))) }
    ensures pieces { IfOk result (λ edit. ArePiecesThen (held_in chunks.now) (group_of id.now) false
        (map shown_at (settled runs.now edit))) }
    ensures counted { meter.old ≤ meter.new }
    ensures bound { (others : List Group) → HasOthers (held_in chunks.now) (group_of id.now) others
        → meter.new ≤ meter.old + 3 * length others + 1 }
{
    let own = id.group()?;
    let Some(hull) = hull_of(runs, &own) else {
        return Ok(None);
    };
    let others = sorted_others(chunks, id, hull)?;
    let edit = edit_swept(alloc, runs, hull, &others, meter)?;
    Ok(Some(edit))
}

// What the runs become where the completeness of a segment's chunk turns. Only what lies in its interval is looked at.
fn turn_of(
    alloc: Global,
    chunks: &Chunks,
    runs: &[(Interval, GroupKey)],
    id: &SegmentId,
    is_complete: bool,
    meter: &mut Meter,
) -> Result<Option<Edit>, AllocError>
    requires pieces { ArePieces (held_in chunks.now) (map shown_at runs.now) }
    requires turned { IsTrue is_complete → IsCompleteIn (held_in chunks.now) (group_of id.now) → ⊥ }
    ensures inside { IfOk result (λ edit. IfSome edit (λ e. (e.from ≤ e.to) × (e.to ≤ length runs.now))) }
    ensures pieces { IfOk result (λ edit. ArePiecesThen (held_in chunks.now) (group_of id.now) is_complete
        (map shown_at (settled runs.now edit))) }
    ensures counted { meter.old ≤ meter.new }
    ensures bound { (others : List Group) → HasOthers (held_in chunks.now) (group_of id.now) others
        → meter.new ≤ meter.old + 3 * length others + 1 }
    ensures met { IsTrue is_complete
        → meter.new ≤ meter.old + length (cut ((group_of id.now).interval ∷ []) (map shown_at runs.now)) }
{
    if !is_complete {
        return edit_without(alloc, chunks, runs, id, meter);
    }
    let own = id.group()?;
    let edit = edit_overlaid(alloc, runs, &own, meter)?;
    Ok(Some(edit))
}

// Room for so many runs in place of an edit's own.
fn reserve_place(runs: &mut Vec<(Interval, GroupKey)>, gone: usize) -> Result<(), AllocError>
    ensures same { runs.new.items ≡ runs.old.items }
    ensures place { OnOk result (gone ≤ vec_capacity runs.new) }
{
    runs.reserve(gone.saturating_sub(runs.len()))
}

// Room for what an edit adds and what it takes.
fn make_room(
    runs: &mut Vec<(Interval, GroupKey)>,
    edit: Option<Edit>,
) -> Result<Option<Edit>, AllocError>
    requires { IfSome edit (λ e. (e.from ≤ e.to) × (e.to ≤ length runs.old.items)) }
    ensures same { runs.new.items ≡ runs.old.items }
    ensures can { IfOk result (λ ready. IfSome ready (CanExchange runs.new.items (vec_capacity runs.new))) }
    ensures capacity { vec_capacity runs.old ≤ vec_capacity runs.new }
    ensures edit { IfOk result (λ ready. settled runs.old.items ready ≡ settled runs.old.items edit) }
{
    let Some(mut edit) = edit else {
        return Ok(None);
    };
    runs.reserve(edit.runs.len())?;
    let gone = edit.to - edit.from;
    reserve_place(&mut edit.runs, gone)?;
    Ok(Some(edit))
}

// Whether the completeness of a chunk turns.
fn has_turned(is_complete: bool, was_complete: bool) -> bool
    ensures { IsTrue result ↔ (was_complete ≡ is_complete → ⊥) }
{
    is_complete != was_complete
}

// What the runs become where a segment's chunk is complete or not, as the flag says, with room for that. None where that is
// what it was: then nothing is looked at. Nothing else allocates for the runs.
pub(crate) fn prepare_edit(
    alloc: Global,
    chunks: &Chunks,
    runs: &mut Vec<(Interval, GroupKey)>,
    id: &SegmentId,
    is_complete: bool,
    meter: &mut Meter,
) -> Result<Option<Edit>, AllocError>
    requires { ArePieces (held_in chunks.now) (map shown_at runs.old.items) }
    ensures same { runs.new.items ≡ runs.old.items }
    ensures can { IfOk result (λ edit. IfSome edit (CanExchange runs.new.items (vec_capacity runs.new))) }
    ensures capacity { vec_capacity runs.old ≤ vec_capacity runs.new }
    ensures pieces { IfOk result (λ edit. ArePiecesThen (held_in chunks.now) (group_of id.now) is_complete
        (map shown_at (settled runs.old.items edit))) }
    ensures counted { meter.old ≤ meter.new }
    ensures bound { (others : List Group) → HasOthers (held_in chunks.now) (group_of id.now) others
        → meter.new ≤ meter.old + 3 * length others + 1 }
    ensures level { (IsTrue is_complete ↔ IsCompleteIn (held_in chunks.now) (group_of id.now)) → meter.new ≡ meter.old }
    ensures met { (IsCompleteIn (held_in chunks.now) (group_of id.now) → ⊥)
        → meter.new ≤ meter.old + length (cut ((group_of id.now).interval ∷ []) (map shown_at runs.old.items)) }
{
    let was_complete = chunks.is_complete(id);
    if !has_turned(is_complete, was_complete) {
        return Ok(None);
    }
    let edit = turn_of(alloc, chunks, runs, id, is_complete, meter)?;
    make_room(runs, edit)
}

// Exchanges the runs for those of an edit, if there is one.
fn settle(runs: &mut Vec<(Interval, GroupKey)>, edit: Option<Edit>)
    requires { IfSome edit (CanExchange runs.old.items (vec_capacity runs.old)) }
    ensures { runs.new.items ≡ settled runs.old.items edit }
{
    if let Some(edit) = edit {
        exchange(runs, edit);
    }
}

// Adds a segment that the node does not serve yet, and edits the runs. A refusal changes neither.
pub(crate) fn add_segment(
    alloc: Global,
    chunks: &mut Chunks,
    runs: &mut Vec<(Interval, GroupKey)>,
    descriptor: &Descriptor,
    node: NodeNo,
    meter: &mut Meter,
) -> Result<(), AllocError>
    requires pieces { ArePieces (held_in chunks.old) (map shown_at runs.old.items) }
    requires new { IsHeld (held_in chunks.old) node descriptor.now.id → ⊥ }
    ensures pieces { ArePieces (held_in chunks.new) (map shown_at runs.new.items) }
    ensures added { OnOk result (AddsHeld (held_in chunks.old) (held_in chunks.new) (held_of node descriptor.now)) }
    ensures err { OnErr result (SameHeld (held_in chunks.old) (held_in chunks.new)) }
    ensures counted { meter.old ≤ meter.new }
    ensures bound { (others : List Group) → HasOthers (held_in chunks.old) (group_of descriptor.now.id) others
        → meter.new ≤ meter.old + 3 * length others + 1 }
    ensures level { OnOk result ((IsCompleteIn (held_in chunks.old) (group_of descriptor.now.id)
        ↔ IsCompleteIn (held_in chunks.new) (group_of descriptor.now.id)) → meter.new ≡ meter.old) }
    ensures met { (IsCompleteIn (held_in chunks.old) (group_of descriptor.now.id) → ⊥)
        → (pieces : List Shown) → ArePieces (held_in chunks.old) pieces
        → meter.new ≤ meter.old + length (cut ((group_of descriptor.now.id).interval ∷ []) pieces) }
{
    let is_complete = chunks.is_complete_with(descriptor);
    let edit = prepare_edit(alloc, chunks, runs, descriptor.id(), is_complete, meter)?;
    chunks.add(descriptor, node)?;
    settle(runs, edit);
    Ok(())
}

// Removes a segment that the node serves, and edits the runs. A refusal changes neither.
pub(crate) fn remove_segment(
    alloc: Global,
    chunks: &mut Chunks,
    runs: &mut Vec<(Interval, GroupKey)>,
    id: &SegmentId,
    node: NodeNo,
    meter: &mut Meter,
) -> Result<(), AllocError>
    requires pieces { ArePieces (held_in chunks.old) (map shown_at runs.old.items) }
    requires there { IsHeld (held_in chunks.old) node id.now }
    ensures pieces { ArePieces (held_in chunks.new) (map shown_at runs.new.items) }
    ensures removed { OnOk result (RemovesHeld (held_in chunks.old) (held_in chunks.new) node id.now) }
    ensures one { OnOk result (RemovesOneHeld (held_in chunks.old) (held_in chunks.new) node id.now) }
    ensures err { OnErr result (SameHeld (held_in chunks.old) (held_in chunks.new)) }
    ensures counted { meter.old ≤ meter.new }
    ensures bound { (others : List Group) → HasOthers (held_in chunks.old) (group_of id.now) others
        → meter.new ≤ meter.old + 3 * length others + 1 }
    ensures level { OnOk result ((IsCompleteIn (held_in chunks.old) (group_of id.now)
        ↔ IsCompleteIn (held_in chunks.new) (group_of id.now)) → meter.new ≡ meter.old) }
    ensures met { (IsCompleteIn (held_in chunks.old) (group_of id.now) → ⊥)
        → (pieces : List Shown) → ArePieces (held_in chunks.old) pieces
        → meter.new ≤ meter.old + length (cut ((group_of id.now).interval ∷ []) pieces) }
{
    let is_complete = chunks.is_complete_without(id, node);
    let edit = prepare_edit(alloc, chunks, runs, id, is_complete, meter)?;
    chunks.remove(id, node)?;
    settle(runs, edit);
    Ok(())
}
