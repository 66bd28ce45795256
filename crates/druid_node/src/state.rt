//! The state of a node. Tombstones stand in its history alone, so that a query for one is answered
//! as missing; what else the history has is held. A load puts the segment first and records it
//! last, and takes it out again where memory runs out for the record; a drop is judged before
//! anything is copied, and cannot fail after that.
ghost use Rattle.std.specs.Prelude.{◌≡◌, ◌≤◌, false, true, [], List, Some, None, IfOk, IfErr, OnOk, OnErr};
ghost use Rattle.std.specs.Arc.{arc_value};
ghost use Rattle.druid_segment_descriptor.specs.Reply.{max_changes};
ghost use Rattle.druid_segment_descriptor.specs.declared.change.Change.{Change as Event};
ghost use Rattle.druid_segment_descriptor.specs.declared.change.Change.TheVariants.{Load, Drop as Dropped};
ghost use Rattle.druid_segment_rows.specs.Segment.{Segment};
ghost use Rattle.druid_segment_descriptor.specs.Described.{Described};
ghost use Rattle.druid_sync_history.specs.Kept.{StandsFor, IsKept, frozen_count, described_named, refusal};
ghost use Rattle.druid_sync_history.specs.Answer.{answer, HasCopies, mark_after};
ghost use Rattle.druid_node.specs.State.{State, IsState, Records, Takes, Leaves, Covers, Freezes, Refuses, RefusesToDrop, RefusesToCover};
ghost use Rattle.druid_node.specs.Answers.{IsAnswerOf};
ghost use Rattle.druid_node.specs.Held.{state_of};

use crate::NodeFault;
use crate::answer::answer_of;
use crate::held::Held;
use druid_partial_text::NodeAnswer;
use druid_query::SubQuery;
use druid_segment_descriptor::{Ask, Change, Descriptor, Mark, Reply};
use druid_segment_id::SegmentId;
use druid_segment_rows::Segment;
use druid_sync_history::{History, HistoryFault};
use std::alloc::Global;
use std::marker::Model;
use std::sync::Arc;

/// The segments that a node holds, and the history of its loads and drops in this incarnation. It serves these segments and
/// some tombstones, of which only the history tells.
#[derive(Debug, Drop)]
pub struct NodeState {
    alloc: Global,
    history: History,
    // Answers that are being made may share it. It is copied before it is edited, where they do.
    held: Arc<Held, Global>,
}

impl Model for NodeState {
    ghost use Rattle.std.specs.Arc.{arc_value};
    ghost use Rattle.druid_node.specs.State.{State, IsState};

    ghost Value = { State };

    ghost view = { λ a. record { history = a.history; held = arc_value a.held } };

    ghost invariant = { λ a. IsState (record { history = a.history; held = arc_value a.held }) };
}

// Puts a segment that is not refused among those that are held, and records that. Out of memory leaves all as it was.
fn put(
    alloc: Global,
    held: &mut Held,
    history: &mut History,
    segment: Segment,
) -> Result<(), NodeFault>
    requires state { IsState (state_of history.old held.old) }
    requires taken { refusal history.old (Load segment.descriptor) ≡ None }
    ensures ok { OnOk result (Takes (state_of history.old held.old) (state_of history.new held.new) segment) }
    ensures err { IfErr result (λ fault. fault ≡ NodeFault.Memory) }
    ensures unchanged { OnErr result (state_of history.new held.new ≡ state_of history.old held.old) }
    ensures state { IsState (state_of history.new held.new) }
{
    // For the proof: reading it exposes the invariant of its type.
    let _held = held.len();
    let _mark = history.mark();
    let descriptor = segment.descriptor().clone()?;
    let id = descriptor.id().clone()?;
    held.insert(alloc, segment)?;
    match history.record(Change::Load(descriptor)) {
        Ok(()) => Ok(()),
        Err(_) => {
            held.remove(&id);
            Err(NodeFault::Memory)
        }
    }
}

// Records a drop that is not refused.
fn record_drop(history: &mut History, descriptor: Descriptor)
    requires { refusal history.old (Dropped descriptor) ≡ None }
    ensures { Records history.old history.new (Dropped descriptor) }
{
    let Ok(()) = history.record(Change::Drop(descriptor)) else {
        unreachable!()
    };
}

// Takes a segment, whose drop is not refused, out of those that are held, and records that.
fn take_out(held: &mut Held, history: &mut History, id: &SegmentId, descriptor: Descriptor)
    requires state { IsState (state_of history.old held.old) }
    requires taken { refusal history.old (Dropped descriptor) ≡ None }
    requires found { described_named id.now history.old.set ≡ Some descriptor }
    requires ordinary { descriptor.tombstone ≡ false }
    ensures left { Leaves (state_of history.old held.old) (state_of history.new held.new) descriptor }
    ensures state { IsState (state_of history.new held.new) }
{
    // For the proof: reading it exposes the invariant of its type.
    let _held = held.len();
    let _mark = history.mark();
    record_drop(history, descriptor);
    held.remove(id);
}

// Records the drop of a tombstone, which is not refused. The same segments are held.
fn uncover(held: &Held, history: &mut History, id: &SegmentId, descriptor: Descriptor)
    requires state { IsState (state_of history.old held.now) }
    requires taken { refusal history.old (Dropped descriptor) ≡ None }
    requires found { described_named id.now history.old.set ≡ Some descriptor }
    requires bare { descriptor.tombstone ≡ true }
    ensures left { Leaves (state_of history.old held.now) (state_of history.new held.now) descriptor }
    ensures state { IsState (state_of history.new held.now) }
{
    // For the proof: reading it exposes the invariant of its type.
    let _held = held.len();
    let _mark = history.mark();
    record_drop(history, descriptor);
}

// Records the load of a tombstone, which is not refused. The same segments are held. Out of memory leaves all as it was.
fn cover(held: &Held, history: &mut History, tombstone: Descriptor) -> Result<(), NodeFault>
    requires state { IsState (state_of history.old held.now) }
    requires taken { refusal history.old (Load tombstone) ≡ None }
    requires bare { tombstone.tombstone ≡ true }
    ensures ok { OnOk result (Records history.old history.new (Load tombstone)) }
    ensures err { IfErr result (λ fault. fault ≡ NodeFault.Memory) }
    ensures unchanged { OnErr result (history.new ≡ history.old) }
    ensures state { IsState (state_of history.new held.now) }
{
    // For the proof: reading it exposes the invariant of its type.
    let _held = held.len();
    let _mark = history.mark();
    match history.record(Change::Load(tombstone)) {
        Ok(()) => Ok(()),
        Err(_) => Err(NodeFault::Memory),
    }
}

impl NodeState {
    /// A node without segments, in an incarnation without changes, which keeps the last `kept` of
    /// those to come.
    ///
    /// # Errors
    ///
    /// N9.
    pub fn new(alloc: Global, incarnation: u64, kept: usize) -> Result<NodeState, NodeFault>
        requires incarnation { 1 ≤ incarnation }
        requires some { 1 ≤ kept }
        requires few { kept ≤ max_changes }
        ensures place { IfOk result (λ state. (state.history.incarnation ≡ incarnation) × (state.history.limit ≡ kept)) }
        ensures stands { IfOk result (λ state. StandsFor state.history []) }
        ensures nothing { IfOk result (λ state. state.held ≡ []) }
        ensures memory { IfErr result (λ fault. fault ≡ NodeFault.Memory) }
    {
        let Ok(history) = History::new(alloc, incarnation, kept) else {
            return Err(NodeFault::Memory);
        };
        Ok(NodeState {
            alloc,
            history,
            held: Arc::new(alloc, Held::new(alloc))?,
        })
    }

    // The allocator of what it keeps.
    pub(crate) fn alloc(&self) -> Global {
        self.alloc
    }

    // Loads a segment that is not refused. Out of memory leaves all as it was.
    fn take(&mut self, segment: Segment) -> Result<(), NodeFault>
        requires { refusal self.old.history (Load segment.descriptor) ≡ None }
        ensures ok { OnOk result (Takes self.old self.new segment) }
        ensures err { IfErr result (λ fault. fault ≡ NodeFault.Memory) }
        ensures unchanged { OnErr result (self.new ≡ self.old) }
    {
        let held = Arc::make_mut(&mut self.held)?;
        put(self.alloc, held, &mut self.history, segment)
    }

    /// Loads a segment, and records it.
    ///
    /// # Errors
    ///
    /// N4 with H1, then H3, then H4; N9 last. Leaves all as it was.
    pub fn load(&mut self, segment: Segment) -> Result<(), NodeFault>
        ensures ok { OnOk result (Takes self.old self.new segment) }
        ensures err { IfErr result (Refuses self.old.history (Load segment.descriptor)) }
        ensures unchanged { OnErr result (self.new ≡ self.old) }
    {
        match self.history.refusal_of_load(segment.descriptor()) {
            Some(fault) => Err(NodeFault::History(fault)),
            None => self.take(segment),
        }
    }

    /// Places the tombstone of that identifier among what it serves, and records that as a load.
    ///
    /// # Errors
    ///
    /// N7; then N4 with H1, then H3, then H4; N9 last. Leaves all as it was.
    pub fn place_tombstone(&mut self, id: SegmentId) -> Result<(), NodeFault>
        ensures ok { OnOk result (Covers self.old self.new id) }
        ensures err { IfErr result (RefusesToCover self.old.history id) }
        ensures unchanged { OnErr result (self.new ≡ self.old) }
    {
        let Some(tombstone) = Descriptor::tombstone(id) else {
            return Err(NodeFault::NotPartitionZero);
        };
        match self.history.refusal_of_load(&tombstone) {
            Some(fault) => Err(NodeFault::History(fault)),
            None => cover(&self.held, &mut self.history, tombstone),
        }
    }

    /// Drops the segment or the tombstone of that identifier, and records it.
    ///
    /// # Errors
    ///
    /// N4 with H2, then H4; N9 last. Leaves all as it was.
    pub fn drop_segment(&mut self, id: &SegmentId) -> Result<(), NodeFault>
        ensures ok { OnOk result ((d : Described) × (described_named id.now self.old.history.set ≡ Some d) × Leaves self.old self.new d) }
        ensures err { IfErr result (RefusesToDrop self.old.history (described_named id.now self.old.history.set)) }
        ensures unchanged { OnErr result (self.new ≡ self.old) }
    {
        let Some(found) = self.history.find(id) else {
            return Err(NodeFault::History(HistoryFault::NotServed));
        };
        if let Some(fault) = self.history.refusal_of_drop(found) {
            return Err(NodeFault::History(fault));
        }
        let descriptor = found.clone()?;
        if descriptor.is_tombstone() {
            uncover(&self.held, &mut self.history, id, descriptor);
            return Ok(());
        }
        let held = Arc::make_mut(&mut self.held)?;
        take_out(held, &mut self.history, id, descriptor);
        Ok(())
    }

    /// What the segments that it holds tell of the pieces that are asked for, and the pieces of
    /// other segments.
    ///
    /// # Errors
    ///
    /// N9.
    pub fn answer(&self, sub: &SubQuery) -> Result<NodeAnswer, NodeFault>
        ensures ok { IfOk result (IsAnswerOf self.now.held sub.now) }
        ensures err { IfErr result (λ fault. fault ≡ NodeFault.Memory) }
    {
        match answer_of(self.alloc, &self.held, sub) {
            Ok(answer) => Ok(answer),
            Err(_) => Err(NodeFault::Memory),
        }
    }

    // The segments that it holds, shared: they stay as they are, whatever it loads or drops then.
    pub(crate) fn share_held(&self) -> Result<Arc<Held, Global>, NodeFault>
        ensures ok { IfOk result (λ held. arc_value held ≡ self.now.held) }
        ensures err { IfErr result (λ fault. fault ≡ NodeFault.Memory) }
    {
        match Arc::try_clone(&self.held) {
            Ok(held) => Ok(held),
            Err(_) => Err(NodeFault::Memory),
        }
    }

    /// What it answers to a broker that follows it: all that it serves, or the changes after the
    /// broker's mark, or a page of the set that it froze, or why it has not these. `Ask::Whole` is
    /// answered the snapshot of up to 20,000 segments and tombstones. Where there are more, it
    /// freezes that set, unless one is frozen, and answers page 0 of the frozen set, at the mark at
    /// which that was frozen. `Ask::Page` is answered that page of the set that is frozen at that
    /// mark, and else a reset. A frozen set is given up once more changes than are kept came after
    /// it.
    ///
    /// # Errors
    ///
    /// N9, but never in place of a reset of an ask for changes, or of one for a page of another
    /// incarnation. Leaves all as it was.
    pub fn since(&mut self, ask: &Ask) -> Result<Reply, NodeFault>
        ensures ok { IfOk result (λ reply. (history : List Event) → StandsFor self.old.history history
            → answer self.old.history.incarnation history self.old.history.limit (frozen_count self.old.history.frozen) ask.now
            ≡ Some (reply, frozen_count self.new.history.frozen)) }
        ensures stays { Freezes self.old self.new }
        ensures err { IfErr result (λ fault. fault ≡ NodeFault.Memory) }
        ensures memory { OnErr result (HasCopies self.old.history.incarnation self.old.history.count self.old.history.limit ask.now) }
        ensures unchanged { OnErr result (self.new ≡ self.old) }
    {
        // For the proof: reading it exposes the invariant of its type.
        let _mark = self.history.mark();
        match self.history.since(ask) {
            Ok(reply) => Ok(reply),
            Err(_) => Err(NodeFault::Memory),
        }
    }

    /// The mark after its changes.
    pub fn mark(&self) -> Mark
        ensures value { result ≡ record { incarnation = self.now.history.incarnation; count = self.now.history.count } }
        ensures beyond { (history : List Event) → StandsFor self.now.history history
            → result ≡ mark_after self.now.history.incarnation history }
        ensures valid { IsState self.now }
        ensures kept { IsKept self.now.history }
    {
        self.history.mark()
    }
}
