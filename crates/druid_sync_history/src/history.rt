//! The history of one incarnation of a node. The set that it serves is a map that is edited in
//! place, so a frozen set is a copy of counted references: sharing the map would copy it at the
//! next change.
ghost use Rattle.std.specs.Prelude.{◌≡◌, ◌≢◌, ◌↔◌, ◌≤◌, ◌<◌, ◌+◌, ◌⊎◌, if◌then◌else◌, ◌++◌, [], ◌∷◌, List, length, drop, Some, None, IsTrue, IfOk, IfErr, OnOk, OnErr, IsErrOf};
ghost use Rattle.druid_segment_descriptor.specs.Reply.{max_page, max_changes};
ghost use Rattle.druid_sync_pages.specs.Pages.{pages_in};
ghost use Rattle.druid_segment_descriptor.specs.Replay.{replay, is_strict, has_room, after, IsSegmentSet};
ghost use Rattle.std.specs.Option.{option_copied};
ghost use Rattle.druid_segment_descriptor.specs.declared.change.Change.{Change as Event};
ghost use Rattle.druid_segment_descriptor.specs.declared.change.Change.TheVariants.{Load, Drop as Dropped};
ghost use Rattle.druid_segment_descriptor.specs.declared.reply.Body.TheVariants.{Delta, Snapshot};
ghost use Rattle.druid_sync_history.specs.Kept.{StandsFor, IsKept, IsDrop, described_named, frozen_after, frozen_count, last_changes, with_frozen, KeepsOrFreezes, refusal_of_set, refusal_of_count, refusal};
ghost use Rattle.druid_sync_history.specs.Answer.{answer, page_of, whole_answer, asked_page, HasCopies, cause_of, mark_after};

use crate::HistoryFault;
use crate::segments::Segments;
use circular_buffer::HeapCircularBuffer;
use druid_segment_descriptor::{
    Ask, Cause, Change, Descriptor, Descriptors, Items, MAX_PAGE, MAX_SEGMENTS, Mark, Reply,
};
use druid_segment_id::SegmentId;
use druid_sync_pages::{page_of, pages_of};
use std::alloc::{AllocError, Global};
use std::marker::Model;

// A set that is kept for its pages, and how many changes came before it.
#[derive(Debug, Drop)]
struct Frozen {
    count: u64,
    set: Descriptors,
}

impl Model for Frozen {
    ghost use Rattle.druid_sync_history.specs.Kept.{Frozen};

    ghost Value = { Frozen };

    ghost view = { λ a. record { count = a.count; set = a.set } };
}

// Whether more changes than are kept came after a set was frozen.
fn is_past(frozen: &Option<Frozen>, count: u64, limit: usize) -> bool
    ensures { frozen_after limit count frozen.now ≡ (if result then None else frozen.now) }
{
    match frozen {
        Some(frozen) => count - frozen.count.min(count) > limit as u64,
        None => false,
    }
}

// Gives the frozen set up, where more changes than are kept came after it.
fn give_up(frozen: &mut Option<Frozen>, count: u64, limit: usize)
    ensures { frozen.new ≡ frozen_after limit count frozen.old }
{
    if is_past(frozen, count, limit) {
        *frozen = None;
    }
}

// Makes the change of the set, unless it is refused.
fn change_set(
    segments: &mut Segments,
    change: &Change,
    refused: Option<HistoryFault>,
) -> Result<(), HistoryFault>
    requires strict { refused ≡ None → IsTrue (is_strict segments.old change.now) }
    requires room { refused ≡ None → IsTrue (has_room segments.old change.now) }
    ensures taken { OnOk result (refused ≡ None) }
    ensures changed { OnOk result (segments.new ≡ after segments.old change.now) }
    ensures fault { IfErr result (λ fault. (refused ≡ Some fault)
        ⊎ ((refused ≡ None) × (fault ≡ HistoryFault.Memory) × (IsDrop change.now → ⊥))) }
    ensures unchanged { OnErr result (segments.new ≡ segments.old) }
{
    if let Some(fault) = refused {
        return Err(fault);
    }
    segments.apply(change)?;
    Ok(())
}

// Keeps a change; the oldest one goes where there are as many as are kept.
fn keep(changes: &mut HeapCircularBuffer<Change>, change: Change)
    ensures kept { changes.new.items ≡ last_changes changes.old.capacity (changes.old.items ++ change ∷ []) }
    ensures capacity { changes.new.capacity ≡ changes.old.capacity }
{
    changes.push_back(change);
}

/// The changes of one incarnation of a node: how many there were, the set of segments and tombstones after them, and the
/// last of them, which brokers may ask for.
///
/// A contract sees what is kept, and says for which histories this stands.
#[derive(Debug, Drop)]
pub struct History {
    alloc: Global,
    incarnation: u64,
    count: u64,
    segments: Segments,
    changes: HeapCircularBuffer<Change>,
    frozen: Option<Frozen>,
}

impl Model for History {
    ghost use Rattle.druid_sync_history.specs.Kept.{Kept, IsKept};

    ghost Value = { Kept };

    ghost view = { λ a. record { incarnation = a.incarnation; count = a.count; set = a.segments; changes = a.changes.items; limit = a.changes.capacity; frozen = a.frozen } };

    ghost invariant = { λ a. IsKept (record { incarnation = a.incarnation; count = a.count; set = a.segments; changes = a.changes.items; limit = a.changes.capacity; frozen = a.frozen }) };
}

impl History {
    /// An incarnation without changes, which keeps the last `kept` of those to come.
    ///
    /// # Errors
    ///
    /// H9.
    pub fn new(alloc: Global, incarnation: u64, kept: usize) -> Result<History, HistoryFault>
        requires incarnation { 1 ≤ incarnation }
        requires some { 1 ≤ kept }
        requires few { kept ≤ max_changes }
        ensures place { IfOk result (λ history. (history.incarnation ≡ incarnation) × (history.limit ≡ kept)) }
        ensures stands { IfOk result (λ history. StandsFor history []) }
        ensures memory { IfErr result (λ fault. fault ≡ HistoryFault.Memory) }
    {
        Ok(History {
            alloc,
            incarnation,
            count: 0,
            segments: Segments::new(alloc),
            changes: HeapCircularBuffer::with_capacity(alloc, kept)?,
            frozen: None,
        })
    }

    /// What is served under that identifier: a segment or a tombstone.
    pub fn find(&self, id: &SegmentId) -> Option<&Descriptor>
        ensures value { option_copied result ≡ described_named id.now self.now.set }
        ensures valid { IsSegmentSet self.now.set }
    {
        self.segments.find(id)
    }

    // Why the set does not take the load.
    fn set_refusal_of_load(&self, segment: &Descriptor) -> Option<HistoryFault>
        ensures { result ≡ refusal_of_set self.now.set (Load segment.now) }
    {
        if !self.segments.lacks(segment) {
            return Some(HistoryFault::Served);
        }
        if self.segments.len() >= MAX_SEGMENTS {
            return Some(HistoryFault::Full);
        }
        None
    }

    // Why the set does not take the drop.
    fn set_refusal_of_drop(&self, segment: &Descriptor) -> Option<HistoryFault>
        ensures { result ≡ refusal_of_set self.now.set (Dropped segment.now) }
    {
        if !self.segments.holds(segment) {
            return Some(HistoryFault::NotServed);
        }
        None
    }

    // Why no change is recorded after so many.
    fn refusal_of_count(&self) -> Option<HistoryFault>
        ensures { result ≡ refusal_of_count self.now.count }
    {
        if self.count == u64::MAX {
            return Some(HistoryFault::CountAtEnd);
        }
        None
    }

    /// Why a load of the segment, or of the tombstone, would not be recorded, whatever memory there is: H1, H3 or H4, in
    /// the order of `record`. Does not allocate.
    #[tactic(auto, unfolding(crate::specs::Kept::refusal))]
    pub fn refusal_of_load(&self, segment: &Descriptor) -> Option<HistoryFault>
        ensures { result ≡ refusal self.now (Load segment.now) }
    {
        self.set_refusal_of_load(segment)
            .or(self.refusal_of_count())
    }

    /// Why a drop of the segment, or of the tombstone, would not be recorded: H2 or H4, in the order of `record`. Does not
    /// allocate.
    #[tactic(auto, unfolding(crate::specs::Kept::refusal))]
    pub fn refusal_of_drop(&self, segment: &Descriptor) -> Option<HistoryFault>
        ensures { result ≡ refusal self.now (Dropped segment.now) }
    {
        self.set_refusal_of_drop(segment)
            .or(self.refusal_of_count())
    }

    // Why the change is not recorded, whatever memory there is.
    fn refusal(&self, change: &Change) -> Option<HistoryFault>
        ensures { result ≡ refusal self.now change.now }
    {
        match change {
            Change::Load(segment) => self.refusal_of_load(segment),
            Change::Drop(segment) => self.refusal_of_drop(segment),
        }
    }

    /// Whether it would record the change, if memory suffices. Does not allocate.
    pub fn accepts(&self, change: &Change) -> bool
        ensures { IsTrue result ↔ (refusal self.now change.now ≡ None) }
    {
        self.refusal(change).is_none()
    }

    /// Records a change.
    ///
    /// # Errors
    ///
    /// Of a load H1, then H3, H4, and H9 last; of a drop H2, then H4, and never H9. Leaves all as
    /// it was.
    pub fn record(&mut self, change: Change) -> Result<(), HistoryFault>
        ensures place { OnOk result ((self.new.incarnation ≡ self.old.incarnation) × (self.new.limit ≡ self.old.limit)) }
        ensures stands { OnOk result ((history : List Event) → StandsFor self.old history
            → StandsFor self.new (history ++ change ∷ [])) }
        ensures recorded { OnOk result (refusal self.old change ≡ None) }
        ensures served { IsErrOf result HistoryFault.Served ↔ (refusal self.old change ≡ Some HistoryFault.Served) }
        ensures not_served { IsErrOf result HistoryFault.NotServed ↔ (refusal self.old change ≡ Some HistoryFault.NotServed) }
        ensures full { IsErrOf result HistoryFault.Full ↔ (refusal self.old change ≡ Some HistoryFault.Full) }
        ensures at_end { IsErrOf result HistoryFault.CountAtEnd ↔ (refusal self.old change ≡ Some HistoryFault.CountAtEnd) }
        ensures memory { IsErrOf result HistoryFault.Memory → refusal self.old change ≡ None }
        ensures drops { IsDrop change → result ≢ Err HistoryFault.Memory }
        ensures unchanged { OnErr result (self.new ≡ self.old) }
        ensures frozen { OnOk result (self.new.frozen ≡ frozen_after self.old.limit (self.old.count + 1) self.old.frozen) }
    {
        let refused = self.refusal(&change);
        if let Err(fault) = change_set(&mut self.segments, &change, refused) {
            return Err(fault);
        }
        keep(&mut self.changes, change);
        self.count += 1;
        give_up(&mut self.frozen, self.count, self.changes.capacity());
        Ok(())
    }

    /// The mark after its changes.
    pub fn mark(&self) -> Mark
        ensures value { result ≡ record { incarnation = self.now.incarnation; count = self.now.count } }
        ensures beyond { (history : List Event) → StandsFor self.now history
            → result ≡ mark_after self.now.incarnation history }
        ensures valid { 1 ≤ result.incarnation }
        ensures kept { IsKept self.now }
    {
        Mark::new(self.incarnation, self.count)
    }

    /// Copies of the segments and tombstones that are served after its changes, by identifier.
    ///
    /// # Errors
    ///
    /// Out of memory.
    pub fn set(&self) -> Result<Vec<Descriptor>, AllocError>
        ensures value { IfOk result (λ segments. segments.items ≡ self.now.set) }
        ensures replayed { IfOk result (λ segments. (history : List Event) → StandsFor self.now history
            → replay history ≡ Some segments.items) }
        ensures valid { IsSegmentSet self.now.set }
    {
        self.segments.to_vec(self.alloc)
    }

    // Why it has not the changes after a mark.
    #[tactic(auto, unfolding(crate::specs::Answer::cause_of))]
    fn cause(&self, mark: Mark) -> Option<Cause>
        ensures { result ≡ cause_of self.now.incarnation self.now.count self.now.limit mark }
    {
        if mark.incarnation() != self.incarnation {
            return Some(Cause::OtherIncarnation);
        }
        if self.count < mark.count() {
            return Some(Cause::Ahead);
        }
        if self.count - mark.count() > self.changes.capacity() as u64 {
            return Some(Cause::TooOld);
        }
        None
    }

    // Copies of the kept changes from a place on.
    fn changes_from(&self, first: usize) -> Result<Vec<Change>, AllocError>
        requires { first ≤ length self.now.changes }
        ensures { IfOk result (λ copies. copies.items ≡ drop first self.now.changes) }
    {
        let mut copies = Vec::new(self.alloc);
        for place in first..self.changes.len() {
            let Some(change) = self.changes.get(place) else {
                unreachable!();
            };
            copies.push(change.clone()?)?;
        }
        Ok(copies)
    }

    // All that is served.
    fn snapshot(&self) -> Result<Reply, AllocError>
        ensures { IfOk result (λ reply. reply ≡ Snapshot (record { incarnation = self.now.incarnation; count = self.now.count }) self.now.set) }
    {
        let segments = self.segments.to_vec(self.alloc)?;
        let Ok(reply) = Reply::snapshot(self.mark(), segments) else {
            unreachable!();
        };
        Ok(reply)
    }

    // A page of a set that was served after so many changes.
    fn page_of(&self, count: u64, page: u16, set: &[Descriptor]) -> Result<Reply, AllocError>
        requires set { IsSegmentSet set.now }
        requires many { max_page < length set.now }
        requires there { page < pages_in (length set.now) }
        ensures { IfOk result (λ reply. reply ≡ page_of self.now.incarnation count page set.now) }
    {
        let segments = page_of(self.alloc, set, page)?;
        let mark = Mark::new(self.incarnation, count);
        let Ok(reply) = Reply::page(mark, page, pages_of(set.len()) as u16, segments) else {
            unreachable!();
        };
        Ok(reply)
    }

    // Freezes all that is served, and gives its first page.
    fn freeze(&mut self) -> Result<Reply, AllocError>
        requires many { max_page < length self.old.set }
        requires none { self.old.frozen ≡ None }
        ensures page { IfOk result (λ reply. reply ≡ page_of self.old.incarnation self.old.count 0 self.old.set) }
        ensures frozen { OnOk result (self.new ≡ with_frozen self.old) }
        ensures unchanged { OnErr result (self.new ≡ self.old) }
    {
        let set = self.segments.to_vec(self.alloc)?;
        let reply = self.page_of(self.count, 0, &set)?;
        self.frozen = Some(Frozen {
            count: self.count,
            set: Items::new(set),
        });
        Ok(reply)
    }

    // All that is served: whole, or the first page of the set that is frozen, or is from now on.
    fn whole(&mut self) -> Result<Reply, AllocError>
        ensures answer { IfOk result (λ reply. (history : List Event) → StandsFor self.old history
            → whole_answer self.old.incarnation history (frozen_count self.old.frozen) self.old.set ≡ Some (reply, frozen_count self.new.frozen)) }
        ensures only { OnOk result (KeepsOrFreezes self.old self.new) }
        ensures unchanged { OnErr result (self.new ≡ self.old) }
    {
        if self.segments.len() <= MAX_PAGE {
            return self.snapshot();
        }
        match &self.frozen {
            Some(frozen) => self.page_of(frozen.count, 0, frozen.set.as_slice()),
            None => self.freeze(),
        }
    }

    // A page of the set at a mark, where it is frozen.
    fn page(&self, mark: Mark, page: u16) -> Result<Reply, AllocError>
        ensures memory { OnErr result (mark.incarnation ≡ self.now.incarnation) }
        ensures answer { IfOk result (λ reply. (history : List Event) → StandsFor self.now history
            → asked_page self.now.incarnation history (frozen_count self.now.frozen) mark page ≡ Some reply) }
    {
        if mark.incarnation() != self.incarnation {
            return Ok(Reply::reset(Cause::OtherIncarnation, self.mark()));
        }
        let Some(frozen) = &self.frozen else {
            return Ok(Reply::reset(Cause::TooOld, self.mark()));
        };
        let set = frozen.set.as_slice();
        if frozen.count != mark.count() || pages_of(set.len()) <= page as usize {
            return Ok(Reply::reset(Cause::TooOld, self.mark()));
        }
        self.page_of(frozen.count, page, set)
    }

    // The changes after a mark, which are all kept.
    fn delta(&self, mark: Mark) -> Result<Reply, AllocError>
        requires { cause_of self.now.incarnation self.now.count self.now.limit mark ≡ None }
        ensures { IfOk result (λ reply. (history : List Event) → StandsFor self.now history
            → reply ≡ Delta mark (mark_after self.now.incarnation history) (drop mark.count history)) }
    {
        let beyond = (self.count - mark.count()) as usize;
        let changes = self.changes_from(self.changes.len() - beyond)?;
        let Ok(reply) = Reply::delta(mark, self.mark(), changes) else {
            unreachable!();
        };
        Ok(reply)
    }

    /// What it answers to a broker: all that is served, or the changes after the broker's mark, or
    /// a page of the set that it froze, or why it has not these. Where all that is served is more
    /// than 20,000 segments it freezes that set, unless one is frozen, and answers the first page
    /// of it. Nothing waits.
    ///
    /// # Errors
    ///
    /// Out of memory, but never in place of a reset of an ask for changes, or of one for a page of
    /// another incarnation. Leaves all as it was.
    pub fn since(&mut self, ask: &Ask) -> Result<Reply, AllocError>
        ensures answer { IfOk result (λ reply. (history : List Event) → StandsFor self.old history
            → answer self.old.incarnation history self.old.limit (frozen_count self.old.frozen) ask.now ≡ Some (reply, frozen_count self.new.frozen)) }
        ensures stands { (history : List Event) → StandsFor self.old history → StandsFor self.new history }
        ensures place { (self.new.incarnation ≡ self.old.incarnation) × (self.new.limit ≡ self.old.limit) }
        ensures only { KeepsOrFreezes self.old self.new }
        ensures memory { OnErr result (HasCopies self.old.incarnation self.old.count self.old.limit ask.now) }
        ensures unchanged { OnErr result (self.new ≡ self.old) }
    {
        match ask {
            Ask::Whole => self.whole(),
            Ask::Since(mark) => match self.cause(*mark) {
                Some(cause) => Ok(Reply::reset(cause, self.mark())),
                None => self.delta(*mark),
            },
            Ask::Page(mark, page) => self.page(*mark, *page),
        }
    }
}
