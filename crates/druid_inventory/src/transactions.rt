//! Edits of the timelines of several sources, which are committed or rolled back together.
ghost use Rattle.std.specs.Prelude.{IfOk, ◌≡◌, ℕ, List, [], None, Some, IsSome, OnOk, OnErr};
ghost use Rattle.druid_segment_descriptor.specs.Described.{Described};
ghost use Rattle.druid_segment_descriptor.specs.Replay.{IsSegmentSet, replay_from};
ghost use Rattle.druid_inventory.specs.Entry.{Entry};
ghost use Rattle.druid_inventory.specs.Judged.{segment_of};
ghost use Rattle.druid_inventory.specs.Timelines.{kept, AreTimelines, ServesWith};
ghost use Rattle.druid_inventory.specs.Transactions.{edited, AreAfter, AreBefore, KeepsAfter, KeepsBefore, Begins, HasPlace, TakesHeld, ChangesHeld, Goes, TakesEdit, GoesOn, Makes, Settles};

use crate::shared_timeline::SharedTimeline;
use crate::strict_changes::segment_of;
use crate::timelines::Timelines;
use druid_segment_descriptor::{Change, NodeNo};
use druid_segment_id::{Meter, Name};
use druid_timeline::{Timeline, Transaction};
use std::alloc::{AllocError, Global};
use std::collections::BTreeMap;

// The edits of each source that is under edits. Its timeline is there, and a place is kept for it among the timelines.
type Transactions = BTreeMap<Name, Transaction>;

// Takes a timeline out of its place and begins its edits.
fn begin_kept(
    place: &mut SharedTimeline,
    edits: &mut Transactions,
    alloc: Global,
    source: &Name,
) -> Result<(), AllocError>
    requires { edited edits.old source.now ≡ None }
    ensures ok { OnOk result (Begins edits.old edits.new source.now place.old) }
    ensures place { OnErr result (place.new ≡ place.old) }
    ensures edits { OnErr result (edits.new.entries ≡ edits.old.entries) }
{
    let left = empty_timeline(alloc, source)?;
    let name = source.clone()?;
    let timeline = place.take(left)?;
    match edits.insert(name, Transaction::begin(timeline)) {
        Ok(_) => Ok(()),
        Err(refused) => {
            let entry = refused.value;
            let (_, transaction) = entry;
            *place = SharedTimeline::new(alloc, transaction.commit());
            Err(AllocError)
        }
    }
}

// A timeline of a source that holds nothing.
fn empty_timeline(alloc: Global, source: &Name) -> Result<Timeline, AllocError>
    ensures { IfOk result (λ timeline. timeline ≡ record { source = source.now; held = [] }) }
{
    Ok(Timeline::new(alloc, source.clone()?))
}

// Makes a place for a source that has none.
fn put_place(timelines: &mut Timelines, alloc: Global, source: &Name) -> Result<(), AllocError>
    ensures ok { OnOk result (HasPlace timelines.old timelines.new source.now) }
    ensures err { OnErr result (timelines.new.entries ≡ timelines.old.entries) }
{
    let name = source.clone()?;
    let empty = empty_timeline(alloc, source)?;
    timelines.insert(name, SharedTimeline::new(alloc, empty))?;
    Ok(())
}

// Makes a place for a source that has no timeline, and begins its edits.
fn begin_new(
    timelines: &mut Timelines,
    edits: &mut Transactions,
    alloc: Global,
    source: &Name,
) -> Result<(), AllocError>
    requires edits { edited edits.old source.now ≡ None }
    requires timelines { kept timelines.old source.now ≡ None }
    ensures ok { OnOk result (Begins edits.old edits.new source.now (record { source = source.now; held = [] })) }
    ensures place { OnOk result (HasPlace timelines.old timelines.new source.now) }
    ensures timelines { OnErr result ((s : List ℕ) → kept timelines.new s ≡ kept timelines.old s) }
    ensures edits { OnErr result (edits.new.entries ≡ edits.old.entries) }
{
    let name = source.clone()?;
    let empty = empty_timeline(alloc, source)?;
    put_place(timelines, alloc, source)?;
    match edits.insert(name, Transaction::begin(empty)) {
        Ok(_) => Ok(()),
        Err(_) => {
            timelines.remove(source);
            Err(AllocError)
        }
    }
}

// Begins the edits of a source, unless they have begun.
fn begin(
    timelines: &mut Timelines,
    edits: &mut Transactions,
    alloc: Global,
    source: &Name,
) -> Result<(), AllocError>
    ensures ok { OnOk result (IsSome (edited edits.new source.now)) }
    ensures after { KeepsAfter timelines.old edits.old timelines.new edits.new }
    ensures before { KeepsBefore timelines.old edits.old timelines.new edits.new }
{
    if edits.contains_key(source) {
        return Ok(());
    }
    match timelines.get_mut(source) {
        Some(place) => begin_kept(place, edits, alloc, source),
        None => begin_new(timelines, edits, alloc, source),
    }
}

// Makes a change of a timeline of its source, which takes it.
fn change_transaction(
    transaction: &mut Transaction,
    node: NodeNo,
    change: &Change,
) -> Result<(), AllocError>
    requires { TakesHeld transaction.old.now node change.now }
    ensures ok { OnOk result (ChangesHeld transaction.old.now.held transaction.new.now.held node change.now) }
    ensures goes { Goes transaction.old transaction.new }
{
    let mut meter = Meter::new();
    match change {
        Change::Load(descriptor) => transaction.add_absent(descriptor, node, &mut meter),
        Change::Drop(descriptor) => transaction.remove_present(descriptor.id(), node, &mut meter),
    }
}

// Makes a change of the timeline of its source, which is under edits and takes it.
fn change_edited(edits: &mut Transactions, node: NodeNo, change: &Change) -> Result<(), AllocError>
    requires { TakesEdit edits.old node change.now }
    ensures ok { OnOk result (GoesOn edits.old edits.new (segment_of change.now).id.source (Makes node change.now)) }
    ensures goes { GoesOn edits.old edits.new (segment_of change.now).id.source Goes }
{
    match edits.get_mut(segment_of(change).id().source()) {
        Some(transaction) => change_transaction(transaction, node, change),
        None => unreachable!(),
    }
}

// Makes changes of the set of a node, the sources of which come under edits.
fn edit_each(
    timelines: &mut Timelines,
    edits: &mut Transactions,
    alloc: Global,
    node: NodeNo,
    changes: &[Change],
) -> Result<(), AllocError>
    requires { (entries : List Entry) × (s : List Described) × (t : List Described) × IsSegmentSet s
        × (replay_from s changes.now ≡ Some t) × AreAfter entries node s timelines.old edits.old }
    ensures ok { OnOk result ((entries : List Entry) (s t : List Described) → IsSegmentSet s
        → replay_from s changes.now ≡ Some t → AreAfter entries node s timelines.old edits.old
        → AreAfter entries node t timelines.new edits.new) }
    ensures before { KeepsBefore timelines.old edits.old timelines.new edits.new }
{
    for change in changes {
        begin(timelines, edits, alloc, segment_of(change).id().source())?;
        change_edited(edits, node, change)?;
    }
    Ok(())
}

// Puts a timeline into the place that is kept for it, or takes the place away where nothing is held. Nothing fails here.
fn settle(timelines: &mut Timelines, alloc: Global, source: &Name, timeline: Timeline)
    requires source { timeline.source ≡ source.now }
    requires place { IsSome (kept timelines.old source.now) }
    ensures { Settles timelines.old timelines.new source.now timeline }
{
    if timeline.is_empty() {
        timelines.remove(source);
        return;
    }
    match timelines.get_mut(source) {
        Some(place) => *place = SharedTimeline::new(alloc, timeline),
        None => unreachable!(),
    }
}

// Ends all edits, and the timelines stay as they are.
fn commit_each(timelines: &mut Timelines, alloc: Global, mut edits: Transactions)
    requires { (entries : List Entry) × (s : List Described) × (node : ℕ) × AreAfter entries node s timelines.old edits }
    ensures { (entries : List Entry) (node : ℕ) (s : List Described) → AreAfter entries node s timelines.old edits
        → AreTimelines (ServesWith entries node s) timelines.new }
{
    while let Some((source, transaction)) = edits.pop_first() {
        settle(timelines, alloc, &source, transaction.commit());
    }
}

// Ends all edits, and the timelines are as they were.
fn roll_back_each(timelines: &mut Timelines, alloc: Global, mut edits: Transactions)
    requires { (entries : List Entry) × (s : List Described) × (node : ℕ) × AreBefore entries node s timelines.old edits }
    ensures { (entries : List Entry) (node : ℕ) (s : List Described) → AreBefore entries node s timelines.old edits
        → AreTimelines (ServesWith entries node s) timelines.new }
{
    while let Some((source, transaction)) = edits.pop_first() {
        settle(timelines, alloc, &source, transaction.roll_back());
    }
}

// Edits the timelines by changes of the set of a node: all of them, or none.
pub(crate) fn replay_timelines(
    timelines: &mut Timelines,
    alloc: Global,
    node: NodeNo,
    changes: &[Change],
) -> Result<(), AllocError>
    requires { (entries : List Entry) × (s : List Described) × (t : List Described) × IsSegmentSet s
        × (replay_from s changes.now ≡ Some t) × AreTimelines (ServesWith entries node s) timelines.old }
    ensures ok { OnOk result ((entries : List Entry) (s t : List Described) → IsSegmentSet s
        → replay_from s changes.now ≡ Some t → AreTimelines (ServesWith entries node s) timelines.old
        → AreTimelines (ServesWith entries node t) timelines.new) }
    ensures err { OnErr result ((entries : List Entry) (s : List Described)
        → AreTimelines (ServesWith entries node s) timelines.old
        → AreTimelines (ServesWith entries node s) timelines.new) }
{
    let mut edits = BTreeMap::new(alloc);
    match edit_each(timelines, &mut edits, alloc, node, changes) {
        Ok(()) => {
            commit_each(timelines, alloc, edits);
            Ok(())
        }
        Err(fault) => {
            roll_back_each(timelines, alloc, edits);
            Err(fault)
        }
    }
}
