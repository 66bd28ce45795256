//! The timelines of the data sources: built from what nodes serve, and changed where that does.
ghost use Rattle.std.specs.Prelude.{◌≡◌, ◌↔◌, ℕ, List, Contains, IsTrue, IfOk, IfSome, OnOk, Some};
ghost use Rattle.std.specs.BTreeMap as tree;
ghost use Rattle.std.specs.Ordering.{nat_cmp};
ghost use Rattle.std.specs.Cmp.Lexicographic.{slice_cmp};
ghost use Rattle.druid_segment_descriptor.specs.Replay.{IsSegmentSet};
ghost use Rattle.druid_segment_descriptor.specs.declared.change.Change.TheVariants.{Drop};
ghost use Rattle.druid_inventory.specs.Entry.{Entry};
ghost use Rattle.druid_inventory.specs.Timelines.{kept, AreTimelines, TakesSegment, TakesChange, AddsSegment, EditsOut, RemovesSegment, ServesThese, ServesWith};

use crate::changing_timeline::ChangingTimeline;
use crate::shared_timeline::SharedTimeline;
use druid_segment_descriptor::{Descriptor, NodeNo, find_segment};
use druid_segment_id::Name;
use std::alloc::{AllocError, Global};
use std::collections::BTreeMap;

// The timeline of each data source of which a node serves a segment.
pub(crate) type Timelines = BTreeMap<Name, SharedTimeline>;

// The same while they change.
pub(crate) type ChangingTimelines = BTreeMap<Name, ChangingTimeline>;

// The names of the sources, in order.
pub(crate) fn names_of(alloc: Global, timelines: &Timelines) -> Result<Vec<Name>, AllocError>
    ensures names { IfOk result (λ names. names.items ≡ tree.keys timelines.now) }
    ensures ordered { tree.IsOrdered (slice_cmp nat_cmp) timelines.now }
{
    let sources = timelines.keys();
    let mut names = Vec::with_capacity(alloc, timelines.len())?;
    for name in sources {
        names.push(name.clone()?)?;
    }
    Ok(names)
}

// The timelines, which begin to change.
pub(crate) fn begin_changes(
    alloc: Global,
    mut timelines: Timelines,
) -> Result<ChangingTimelines, AllocError>
    ensures { IfOk result (λ changing. (s : List ℕ) → kept changing s ≡ kept timelines s) }
{
    let mut changing = BTreeMap::new(alloc);
    while let Some((source, timeline)) = timelines.pop_first() {
        changing.insert(source, ChangingTimeline::of(timeline))?;
    }
    Ok(changing)
}

// The timelines after their changes.
pub(crate) fn end_changes(
    alloc: Global,
    mut changing: ChangingTimelines,
) -> Result<Timelines, AllocError>
    ensures { IfOk result (λ timelines. (s : List ℕ) → kept timelines s ≡ kept changing s) }
{
    let mut timelines = BTreeMap::new(alloc);
    while let Some((source, timeline)) = changing.pop_first() {
        timelines.insert(source, timeline.into_shared(alloc)?)?;
    }
    Ok(timelines)
}

// Announces one change more of the timeline of a source, if there is one.
fn expect_change(timelines: &mut ChangingTimelines, source: &Name) -> Result<(), AllocError>
    ensures { (s : List ℕ) → kept timelines.new s ≡ kept timelines.old s }
{
    match timelines.get_mut(source) {
        Some(timeline) => timeline.expect_change(),
        None => Ok(()),
    }
}

// Announces a change for each segment that a set has and another has not; both are in order. How many are announced
// decides on the way of a change alone.
fn expect_others(
    timelines: &mut ChangingTimelines,
    set: &[Descriptor],
    other: &[Descriptor],
) -> Result<(), AllocError>
    ensures { (s : List ℕ) → kept timelines.new s ≡ kept timelines.old s }
{
    let mut place = 0;
    for descriptor in set {
        while place < other.len() && other[place].id() < descriptor.id() {
            place += 1;
        }
        if place >= other.len() || &other[place] != descriptor {
            expect_change(timelines, descriptor.id().source())?;
        }
    }
    Ok(())
}

// Adds a segment, which the node does not serve yet; the first one of a source begins its timeline.
fn add_segment(
    timelines: &mut ChangingTimelines,
    alloc: Global,
    node: NodeNo,
    descriptor: &Descriptor,
) -> Result<(), AllocError>
    requires { IfSome (kept timelines.old descriptor.now.id.source)
        (TakesSegment descriptor.now.id.source node descriptor.now) }
    ensures { OnOk result (AddsSegment timelines.old timelines.new node descriptor.now) }
{
    let source = descriptor.id().source();
    match timelines.get_mut(source) {
        Some(timeline) => timeline.add(node, descriptor),
        None => {
            let mut timeline = ChangingTimeline::new(alloc, source.clone()?);
            timeline.add(node, descriptor)?;
            timelines.insert(source.clone()?, timeline)?;
            Ok(())
        }
    }
}

// Removes a segment that the node serves from the timeline of its source; the answer is whether nothing is left of it.
fn edit_out(
    timelines: &mut ChangingTimelines,
    node: NodeNo,
    descriptor: &Descriptor,
) -> Result<bool, AllocError>
    requires { TakesChange timelines.old node (Drop descriptor.now) }
    ensures { IfOk result (EditsOut timelines.old timelines.new node descriptor.now) }
{
    let source = descriptor.id().source();
    match timelines.get_mut(source) {
        Some(timeline) => {
            timeline.remove(node, descriptor.id())?;
            Ok(timeline.is_empty())
        }
        None => unreachable!(),
    }
}

// Removes a segment that the node serves; with the last one of a source goes its timeline.
fn remove_segment(
    timelines: &mut ChangingTimelines,
    node: NodeNo,
    descriptor: &Descriptor,
) -> Result<(), AllocError>
    requires { TakesChange timelines.old node (Drop descriptor.now) }
    ensures { OnOk result (RemovesSegment timelines.old timelines.new node descriptor.now) }
{
    let is_empty = edit_out(timelines, node, descriptor)?;
    if !is_empty {
        return Ok(());
    }
    let source = descriptor.id().source();
    timelines.remove(source);
    Ok(())
}

fn has_segment(set: &[Descriptor], descriptor: &Descriptor) -> bool
    requires { IsSegmentSet set.now }
    ensures { IsTrue result ↔ Contains set.now descriptor.now }
{
    match find_segment(set, descriptor.id()) {
        Ok(place) => &set[place] == descriptor,
        Err(_) => false,
    }
}

// Takes what the second set has not out of the timelines, where a node has the first.
fn drop_others(
    timelines: &mut ChangingTimelines,
    node: NodeNo,
    old: &[Descriptor],
    new: &[Descriptor],
) -> Result<(), AllocError>
    requires old { IsSegmentSet old.now }
    requires new { IsSegmentSet new.now }
    requires over { (entries : List Entry) × AreTimelines (ServesWith entries node old.now) timelines.old }
    ensures { OnOk result ((entries : List Entry) → AreTimelines (ServesWith entries node old.now) timelines.old
        → AreTimelines (ServesThese entries node (λ d. Contains old.now d × Contains new.now d)) timelines.new) }
{
    for descriptor in old {
        if !has_segment(new, descriptor) {
            remove_segment(timelines, node, descriptor)?;
        }
    }
    Ok(())
}

// Puts what the first set has not into the timelines, where a node has what the sets share.
fn load_others(
    timelines: &mut ChangingTimelines,
    alloc: Global,
    node: NodeNo,
    old: &[Descriptor],
    new: &[Descriptor],
) -> Result<(), AllocError>
    requires old { IsSegmentSet old.now }
    requires new { IsSegmentSet new.now }
    requires over { (entries : List Entry)
        × AreTimelines (ServesThese entries node (λ d. Contains old.now d × Contains new.now d)) timelines.old }
    ensures { OnOk result ((entries : List Entry)
        → AreTimelines (ServesThese entries node (λ d. Contains old.now d × Contains new.now d)) timelines.old
        → AreTimelines (ServesWith entries node new.now) timelines.new) }
{
    for descriptor in new {
        if !has_segment(old, descriptor) {
            add_segment(timelines, alloc, node, descriptor)?;
        }
    }
    Ok(())
}

// Changes the timelines where a node has a new set in place of an old one. Those of sources on which the sets agree stay.
pub(crate) fn change_set(
    timelines: &mut ChangingTimelines,
    alloc: Global,
    node: NodeNo,
    old: &[Descriptor],
    new: &[Descriptor],
) -> Result<(), AllocError>
    requires old { IsSegmentSet old.now }
    requires new { IsSegmentSet new.now }
    requires over { (entries : List Entry) × AreTimelines (ServesWith entries node old.now) timelines.old }
    ensures { OnOk result ((entries : List Entry) → AreTimelines (ServesWith entries node old.now) timelines.old
        → AreTimelines (ServesWith entries node new.now) timelines.new) }
{
    expect_others(timelines, old, new)?;
    expect_others(timelines, new, old)?;
    drop_others(timelines, node, old, new)?;
    load_others(timelines, alloc, node, old, new)
}
