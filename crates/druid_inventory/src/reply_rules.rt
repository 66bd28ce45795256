//! What a reply makes of an entry, judged before anything is allocated.
ghost use Rattle.std.specs.Prelude.{◌≡◌, ◌+◌, ◌<◌, ◌≤◌, ◌^◌, IfOk, IfErr, OnOk, Some, length, List};
ghost use Rattle.druid_segment_descriptor.specs.Described.{Described};
ghost use Rattle.druid_segment_descriptor.specs.Reply.{IsDelta, IsSnapshot, max_changes};
ghost use Rattle.druid_segment_descriptor.specs.ReplyBody.{IsReply};
ghost use Rattle.druid_segment_descriptor.specs.Replay.{IsSegmentSet, replay_from};
ghost use Rattle.druid_segment_descriptor.specs.declared.reply.Body.TheVariants.{Delta, Snapshot};
ghost use Rattle.druid_inventory.specs.Step.{Refuses};
ghost use Rattle.druid_inventory.specs.Judged.{IsOffence};
ghost use Rattle.druid_inventory.specs.Plan.{IsPlanOf};

use crate::known::{KnownNode, are_same};
use crate::plan::Plan;
use crate::strict_changes::{find_last, is_strict_after, note_last, segment_of};
use crate::{ApplyFault, Outcome};
use druid_segment_descriptor::{Body, Change, Descriptor, MAX_CHANGES, MAX_SEGMENTS, Mark};
use std::cmp::Ordering;

// Whether changes can be made of a set, one after another: the first that offends decides. `known` changes stand before
// them in the reply.
fn judge_changes(set: &[Descriptor], changes: &[Change], known: usize) -> Result<(), ApplyFault>
    requires set { IsSegmentSet set.now }
    requires few { length changes.now ≤ max_changes }
    requires short { known + length changes.now < 2 ^ 32 }
    ensures ok { OnOk result ((t : List Described) × (replay_from set.now changes.now ≡ Some t)) }
    ensures err { IfErr result (IsOffence set.now changes.now known) }
{
    // Of each identifier that was changed, the place of its last change, by identifier.
    let mut last = [0; MAX_CHANGES];
    let mut changed = 0;
    let mut count = set.len();
    for i in 0..changes.len() {
        let change = &changes[i];
        let earlier = &changes[..i];
        let found = find_last(earlier, &last[..changed], segment_of(change).id());
        if !is_strict_after(set, earlier, &last[..changed], found, change) {
            return Err(ApplyFault::NotStrict { index: known + i });
        }
        match change {
            Change::Load(_) => {
                if count >= MAX_SEGMENTS {
                    return Err(ApplyFault::TooMany);
                }
                count += 1;
            }
            Change::Drop(_) => count -= 1,
        }
        changed = note_last(&mut last, changed, found, i as u16);
    }
    Ok(())
}

// What a delta makes of an entry.
#[tactic(auto, using(crate::proofs::PlanLemmas::known_delta))]
fn judge_delta<'a>(
    known: &KnownNode,
    from: Mark,
    to: Mark,
    changes: &'a [Change],
) -> Result<Plan<'a>, ApplyFault>
    requires { IsDelta from to changes.now }
    ensures ok { IfOk result (IsPlanOf known.now (Delta from to changes.now)) }
    ensures err { IfErr result (Refuses known.now (Delta from to changes.now)) }
{
    let held = known.mark();
    if to.incarnation() != held.incarnation() {
        return Err(ApplyFault::OtherIncarnation);
    }
    if to.count() <= held.count() {
        return Ok(Plan::Stay(Outcome::AlreadyHave));
    }
    if from.count() > held.count() {
        return Err(ApplyFault::Gap);
    }
    let skipped = (held.count() - from.count()) as usize;
    let left = &changes[skipped..];
    match judge_changes(known.set(), left, skipped) {
        Ok(()) => Ok(Plan::Replay(to, left)),
        Err(fault) => Err(fault),
    }
}

// What a snapshot makes of an entry.
#[tactic(auto, using(crate::proofs::PlanLemmas::later_snapshot, crate::proofs::PlanLemmas::same_snapshot, crate::proofs::PlanLemmas::older_snapshot))]
fn judge_snapshot<'a>(
    known: &KnownNode,
    at: Mark,
    segments: &'a [Descriptor],
) -> Result<Plan<'a>, ApplyFault>
    requires { IsSnapshot at segments.now }
    ensures ok { IfOk result (IsPlanOf known.now (Snapshot at segments.now)) }
    ensures err { IfErr result (Refuses known.now (Snapshot at segments.now)) }
{
    match known.mark().cmp(&at) {
        Ordering::Less => Ok(Plan::Replace(at, segments)),
        Ordering::Equal => {
            if !are_same(segments, known.set()) {
                return Err(ApplyFault::Conflict);
            }
            Ok(Plan::Stay(Outcome::AlreadyHave))
        }
        Ordering::Greater => Ok(Plan::Stay(Outcome::AlreadyHave)),
    }
}

// What a reply makes of an entry, or why it is refused.
#[tactic(auto, using(crate::proofs::PlanLemmas::paged, crate::proofs::PlanLemmas::reset))]
pub(crate) fn judge<'a>(known: &KnownNode, body: &'a Body) -> Result<Plan<'a>, ApplyFault>
    requires { IsReply body.now }
    ensures ok { IfOk result (IsPlanOf known.now body.now) }
    ensures err { IfErr result (Refuses known.now body.now) }
{
    match body {
        Body::Delta { from, to, changes } => judge_delta(known, *from, *to, changes.as_slice()),
        Body::Snapshot { at, segments } => judge_snapshot(known, *at, segments.as_slice()),
        Body::Page { .. } => Ok(Plan::Stay(Outcome::AskPages)),
        Body::Reset { .. } => Ok(Plan::Stay(Outcome::AskWhole)),
    }
}
