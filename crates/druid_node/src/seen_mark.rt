//! What a node does for a caller that has seen a mark of it.
ghost use Rattle.std.specs.Prelude.{◌≡◌, Some, IfOk, IfErr, OnOk, OnErr};
ghost use Rattle.std.specs.declared.cmp.Ordering.TheVariants.{Less};
ghost use Rattle.druid_segment_descriptor.specs.Mark.{mark_cmp};
ghost use Rattle.druid_segment_descriptor.specs.declared.change.Change.TheVariants.{Load};
ghost use Rattle.druid_segment_descriptor.specs.Described.{Described};
ghost use Rattle.druid_sync_history.specs.Kept.{IsKept, described_named};
ghost use Rattle.druid_node.specs.State.{IsState, Freezes, Takes, Leaves, Covers, Refuses, RefusesToDrop, RefusesToCover};
ghost use Rattle.druid_node.specs.Seen.{mark_of, Changes, Drops, RefusesChange, IsStale, IsAtLeast, RefusesAsSeen};
ghost use Rattle.druid_node.specs.Questions.{IsBasisInTurn, IsBasisFrom, IsMadeInTurn};

use crate::basis::{Basis, answer_from_parts};
use crate::question::Question;
use crate::{Incarnation, NodeFault, NodeState};
use druid_http_wire::Response;
use druid_segment_descriptor::Mark;
use druid_segment_id::SegmentId;
use druid_segment_rows::Segment;
use std::alloc::Global;
use std::marker::{Model, PhantomData};
use std::thread::Threads;

// What a state gave for an answer, and its mark.
#[derive(Drop)]
pub(crate) struct Based {
    pub(crate) basis: Basis,
    pub(crate) mark: Mark,
}

// What a state answers to a request, and its mark.
#[derive(Drop)]
pub(crate) struct Answered {
    pub(crate) response: Response,
    pub(crate) mark: Mark,
}

// A state of that incarnation. A contract sees the state.
#[derive(Drop)]
pub(crate) struct StateIn<I: Incarnation> {
    state: NodeState,
    incarnation: PhantomData<I>,
}

impl<I: Incarnation> Model for StateIn<I> {
    ghost use Rattle.std.specs.Prelude.{◌≡◌};
    ghost use Rattle.druid_node.specs.State.{State};

    ghost Value = { State };

    ghost view = { λ a. a.state };

    ghost invariant = { λ a. a.state.history.incarnation ≡ I.number };
}

impl<I: Incarnation> StateIn<I> {
    // The state, which is of that incarnation.
    pub(crate) fn new(state: NodeState) -> StateIn<I>
        requires { state.history.incarnation ≡ I.number }
        ensures { result ≡ state }
    {
        StateIn {
            state,
            incarnation: PhantomData,
        }
    }

    // Its mark, where it is not older than what was seen.
    pub(crate) fn mark_as_seen(&self, seen: Mark) -> Result<Mark, NodeFault>
        ensures ok { IfOk result (λ mark. (mark ≡ mark_of self.now) × IsAtLeast (mark_of self.now) seen) }
        ensures err { IfErr result (λ fault. IsStale I.number (mark_of self.now) seen × (fault ≡ NodeFault.Stale (mark_of self.now))) }
        ensures own { self.now.history.incarnation ≡ I.number }
        ensures valid { IsState self.now }
        ensures kept { IsKept self.now.history }
    {
        let found = self.state.mark();
        if found < seen {
            return Err(NodeFault::Stale(found));
        }
        Ok(found)
    }

    // Loads a segment, where it is not older than what was seen, and sees that.
    pub(crate) fn load(&mut self, segment: Segment, seen: &mut Mark) -> Result<(), NodeFault>
        ensures ok { OnOk result (IsAtLeast (mark_of self.old) seen.old × Takes self.old self.new segment × (seen.new ≡ mark_of self.new)) }
        ensures changed { OnOk result (Changes I.number (λ old new. Takes old new segment) seen.old seen.new) }
        ensures raised { OnOk result (mark_cmp seen.old seen.new ≡ Less) }
        ensures own { OnOk result (seen.new.incarnation ≡ I.number) }
        ensures err { IfErr result (RefusesAsSeen I.number (Refuses self.old.history (Load segment.descriptor)) (mark_of self.old) seen.old) }
        ensures unchanged { OnErr result (self.new ≡ self.old) }
        ensures unseen { OnErr result (seen.new ≡ seen.old) }
    {
        self.mark_as_seen(*seen)?;
        self.state.load(segment)?;
        *seen = self.state.mark();
        Ok(())
    }

    // Places a tombstone, where it is not older than what was seen, and sees that.
    pub(crate) fn place_tombstone(
        &mut self,
        id: SegmentId,
        seen: &mut Mark,
    ) -> Result<(), NodeFault>
        ensures ok { OnOk result (IsAtLeast (mark_of self.old) seen.old × Covers self.old self.new id × (seen.new ≡ mark_of self.new)) }
        ensures changed { OnOk result (Changes I.number (λ old new. Covers old new id) seen.old seen.new) }
        ensures raised { OnOk result (mark_cmp seen.old seen.new ≡ Less) }
        ensures own { OnOk result (seen.new.incarnation ≡ I.number) }
        ensures err { IfErr result (RefusesAsSeen I.number (RefusesToCover self.old.history id) (mark_of self.old) seen.old) }
        ensures cause { IfErr result (RefusesChange I.number (λ old. RefusesToCover old.history id) seen.old) }
        ensures unchanged { OnErr result (self.new ≡ self.old) }
        ensures unseen { OnErr result (seen.new ≡ seen.old) }
    {
        self.mark_as_seen(*seen)?;
        self.state.place_tombstone(id)?;
        *seen = self.state.mark();
        Ok(())
    }

    // Drops a segment or a tombstone, where it is not older than what was seen, and sees that.
    pub(crate) fn drop_segment(&mut self, id: &SegmentId, seen: &mut Mark) -> Result<(), NodeFault>
        ensures ok { OnOk result (IsAtLeast (mark_of self.old) seen.old
            × ((d : Described) × (described_named id.now self.old.history.set ≡ Some d) × Leaves self.old self.new d) × (seen.new ≡ mark_of self.new)) }
        ensures changed { OnOk result (Changes I.number (λ old new. Drops old new id.now) seen.old seen.new) }
        ensures raised { OnOk result (mark_cmp seen.old seen.new ≡ Less) }
        ensures own { OnOk result (seen.new.incarnation ≡ I.number) }
        ensures err { IfErr result (RefusesAsSeen I.number (RefusesToDrop self.old.history (described_named id.now self.old.history.set)) (mark_of self.old) seen.old) }
        ensures cause { IfErr result (RefusesChange I.number
            (λ old. RefusesToDrop old.history (described_named id.now old.history.set)) seen.old) }
        ensures unchanged { OnErr result (self.new ≡ self.old) }
        ensures unseen { OnErr result (seen.new ≡ seen.old) }
    {
        self.mark_as_seen(*seen)?;
        self.state.drop_segment(id)?;
        *seen = self.state.mark();
        Ok(())
    }

    // What its answer to a question is made of, where it is not older than what was seen, and its mark. Where memory runs out for
    // that, its answer is out of memory.
    pub(crate) fn basis_of(&mut self, question: Question, seen: Mark) -> Result<Based, NodeFault>
        ensures ok { IfOk result (λ b. IsAtLeast (mark_of self.old) seen × (b.mark ≡ mark_of self.old)
            × IsBasisInTurn self.old self.new question b.basis) }
        ensures stays { Freezes self.old self.new }
        ensures from { IfOk result (λ b. IsBasisFrom I.number seen b.mark question b.basis) }
        ensures err { IfErr result (λ fault. IsStale I.number (mark_of self.old) seen × (fault ≡ NodeFault.Stale (mark_of self.old))) }
        ensures unchanged { OnErr result (self.new ≡ self.old) }
    {
        let mark = self.mark_as_seen(seen)?;
        let basis = match self.state.basis_of(question) {
            Ok(basis) => basis,
            Err(_) => Basis::Settled(Response::out_of_memory()),
        };
        Ok(Based { basis, mark })
    }
}

// The answer that is made of that on so many threads at most, or out of memory.
pub(crate) fn answer_for<R: Threads>(
    rt: &R,
    alloc: Global,
    based: Based,
    threads: usize,
) -> Answered
    ensures mark { result.mark ≡ based.mark }
    ensures made { IsMadeInTurn based.basis result.response.status result.response.body }
{
    let mark = based.mark;
    let response = match answer_from_parts(rt, alloc, based.basis, threads) {
        Ok(response) => response,
        Err(_) => Response::out_of_memory(),
    };
    Answered { response, mark }
}
