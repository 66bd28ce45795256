//! Which changes of a set are strict, one after another.
ghost use Rattle.std.specs.Prelude.{◌≡◌, ◌+◌, ◌<◌, ◌≤◌, Some, MatchResult, length, option_copied, take, List};
ghost use Rattle.std.specs.List.{insert};
ghost use Rattle.druid_segment_descriptor.specs.Described.{Described};
ghost use Rattle.druid_segment_descriptor.specs.Reply.{max_changes};
ghost use Rattle.druid_segment_descriptor.specs.Replay.{IsSegmentSet, is_strict, replay_from};
ghost use Rattle.druid_inventory.specs.Judged.{segment_of, IsHolderOf, AreLast, IsFound, noted};

use druid_segment_descriptor::{Change, Descriptor, find_segment};
use druid_segment_id::SegmentId;
use std::cmp::Ordering;

// The segment that a change loads or drops.
pub(crate) fn segment_of(change: &Change) -> &Descriptor
    ensures { result.now ≡ segment_of change.now }
{
    match change {
        Change::Load(descriptor) => descriptor,
        Change::Drop(descriptor) => descriptor,
    }
}

// Where the last change of an identifier stands among those of other identifiers, or else where it would.
pub(crate) fn find_last(changes: &[Change], last: &[u16], id: &SegmentId) -> Result<usize, usize>
    requires { (segments : List Described) × AreLast changes.now last.now segments }
    ensures { (segments : List Described) → AreLast changes.now last.now segments
        → IsFound segments id.now result }
{
    let mut low = 0;
    let mut high = last.len();
    while low < high {
        let middle = low + (high - low) / 2;
        let place = last[middle] as usize;
        let change = &changes[place];
        match segment_of(change).id().cmp(id) {
            Ordering::Less => low = middle + 1,
            Ordering::Equal => return Ok(middle),
            Ordering::Greater => high = middle,
        }
    }
    Err(low)
}

// Puts a place among the first so many places, before the one that stands there.
fn insert_place(places: &mut [u16], count: usize, at: usize, place: u16)
    requires at { at ≤ count }
    requires room { count < length places.old }
    ensures put { take (count + 1) places.new ≡ insert (take count places.old) at place }
    ensures len { length places.new ≡ length places.old }
{
    places[count] = place;
    places[at..count + 1].rotate_right(1);
}

// Notes the place of the last change of an identifier among the first so many, and says how many there are then.
pub(crate) fn note_last(
    last: &mut [u16],
    count: usize,
    found: Result<usize, usize>,
    place: u16,
) -> usize
    requires room { count < length last.old }
    requires inside { MatchResult found (λ k. k < count) (λ k. k ≤ count) }
    ensures noted { take result last.new ≡ noted (take count last.old) found place }
    ensures len { length last.new ≡ length last.old }
    ensures few { result ≤ count + 1 }
{
    match found {
        Ok(at) => {
            last[at] = place;
            count
        }
        Err(at) => {
            insert_place(last, count, at, place);
            count + 1
        }
    }
}

// Notes of each identifier that changes are of the place of its last change, by identifier, and says how many there are.
pub(crate) fn note_each(changes: &[Change], last: &mut [u16]) -> usize
    requires few { length changes.now ≤ length last.old }
    requires short { length last.old ≤ max_changes }
    ensures count { result ≤ length last.new }
    ensures len { length last.new ≡ length last.old }
    ensures noted { (segments : List Described) × AreLast changes.now (take result last.new) segments }
{
    let mut count = 0;
    for i in 0..changes.len() {
        let change = &changes[i];
        let earlier = &changes[..i];
        let found = find_last(earlier, &last[..count], segment_of(change).id());
        count = note_last(last, count, found, i as u16);
    }
    count
}

// What is held of an identifier after changes of a set. Of each identifier the last change is noted, and `found` is where
// that of this one stands.
fn held_after<'a>(
    set: &'a [Descriptor],
    changes: &'a [Change],
    last: &[u16],
    found: Result<usize, usize>,
    id: &SegmentId,
) -> Option<&'a Descriptor>
    requires set { IsSegmentSet set.now }
    requires last { (segments : List Described) × AreLast changes.now last.now segments
        × IsFound segments id.now found }
    ensures { (t : List Described) → replay_from set.now changes.now ≡ Some t
        → IsHolderOf t id.now (option_copied result) }
{
    let Ok(at) = found else {
        return match find_segment(set, id) {
            Ok(place) => Some(&set[place]),
            Err(_) => None,
        };
    };
    let place = last[at] as usize;
    match &changes[place] {
        Change::Load(descriptor) => Some(descriptor),
        Change::Drop(_) => None,
    }
}

// Whether a change is strict after others. Of each identifier the last of those is noted, and `found` is where that of this
// one's stands.
pub(crate) fn is_strict_after(
    set: &[Descriptor],
    earlier: &[Change],
    last: &[u16],
    found: Result<usize, usize>,
    change: &Change,
) -> bool
    requires set { IsSegmentSet set.now }
    requires last { (segments : List Described) × AreLast earlier.now last.now segments
        × IsFound segments (segment_of change.now).id found }
    ensures { (t : List Described) → replay_from set.now earlier.now ≡ Some t
        → result ≡ is_strict t change.now }
{
    let held = held_after(set, earlier, last, found, segment_of(change).id());
    match change {
        Change::Load(_) => held.is_none(),
        Change::Drop(descriptor) => match held {
            Some(other) => other == descriptor,
            None => false,
        },
    }
}
