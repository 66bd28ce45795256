//! A set with what goes out of it and what comes into it: each part of it moves once for those that
//! go, and once for those that come. Nothing fails here.
ghost use Rattle.std.specs.Prelude.{◌≡◌, ◌↔◌, ◌⊎◌, ◌+◌, ◌≤◌, List, Contains, IfOk, length, vec_len, vec_capacity};
ghost use Rattle.druid_segment_id.specs.Identifier.{identifier_text};
ghost use Rattle.druid_segment_descriptor.specs.Described.{Described};
ghost use Rattle.druid_segment_descriptor.specs.Reply.{AreSorted};
ghost use Rattle.druid_segment_descriptor.specs.Replay.{IsSegmentSet};
ghost use Rattle.druid_inventory.specs.Judged.{AreLast};
ghost use Rattle.druid_inventory.specs.Merged.{exchanged, IsLoaded, NoneIs};

use crate::strict_changes::segment_of;
use druid_segment_descriptor::{Change, Descriptor, find_segment};
use std::alloc::{AllocError, Global};

// Copies the segments that the changes at these places load, which rise.
pub(crate) fn loads_of(
    alloc: Global,
    changes: &[Change],
    last: &[u16],
) -> Result<Vec<Descriptor>, AllocError>
    requires { (segments : List Described) × AreLast changes.now last.now segments }
    ensures sorted { IfOk result (λ loads. AreSorted loads.items) }
    ensures all { IfOk result (λ loads. (x : Described) → Contains loads.items x ↔ IsLoaded changes.now last.now x) }
{
    let mut loads = Vec::with_capacity(alloc, last.len())?;
    for place in last {
        let place = *place as usize;
        if let Change::Load(descriptor) = &changes[place] {
            loads.push(descriptor.clone()?)?;
        }
    }
    Ok(loads)
}

// Exchanges two parts of a slice, one after the other.
fn exchange_slices(segments: &mut [Descriptor], from: usize, middle: usize, to: usize)
    requires { (from ≤ middle) × (middle ≤ to) × (to ≤ length segments.old) }
    ensures exchanged { segments.new ≡ exchanged segments.old from middle to }
    ensures len { length segments.new ≡ length segments.old }
{
    segments[from..to].rotate_left(middle - from);
}

// The same of a vector.
fn exchange_parts(set: &mut Vec<Descriptor>, from: usize, middle: usize, to: usize)
    requires { (from ≤ middle) × (middle ≤ to) × (to ≤ length set.old.items) }
    ensures exchanged { set.new.items ≡ exchanged set.old.items from middle to }
    ensures len { vec_len set.new ≡ vec_len set.old }
    ensures capacity { vec_capacity set.new ≡ vec_capacity set.old }
{
    exchange_slices(set, from, middle, to);
}

// Takes the segments out of a set of which a change at these places is. Those that go gather after those that stay.
pub(crate) fn take_out(set: &mut Vec<Descriptor>, changes: &[Change], last: &[u16])
    requires set { IsSegmentSet set.old.items }
    requires last { (segments : List Described) × AreLast changes.now last.now segments }
    ensures set { IsSegmentSet set.new.items }
    ensures left { (segments : List Described) → AreLast changes.now last.now segments
        → (x : Described) → Contains set.new.items x ↔ (Contains set.old.items x × NoneIs segments x.id) }
    ensures few { vec_len set.new ≤ vec_len set.old }
    ensures capacity { vec_capacity set.new ≡ vec_capacity set.old }
{
    let mut kept = 0;
    let mut gone = 0;
    for place in last {
        let place = *place as usize;
        let id = segment_of(&changes[place]).id();
        match find_segment(&set[kept + gone..], id) {
            Ok(next) => {
                exchange_parts(set, kept, kept + gone, kept + gone + next);
                kept += next;
                gone += 1;
            }
            Err(_) => (),
        }
    }
    let count = set.len();
    exchange_parts(set, kept, kept + gone, count);
    set.truncate(kept + (count - kept - gone));
}

// Puts segments, which rise, into a set that has room for them: those before which nothing more comes are put in place first.
pub(crate) fn put_in(set: &mut Vec<Descriptor>, mut loads: Vec<Descriptor>)
    requires set { IsSegmentSet set.old.items }
    requires rising { AreSorted loads.items }
    requires new { (x y : Described) → Contains set.old.items x → Contains loads.items y
        → identifier_text x.id ≡ identifier_text y.id → ⊥ }
    requires room { vec_len set.old + vec_len loads ≤ vec_capacity set.old }
    ensures sorted { AreSorted set.new.items }
    ensures all { (x : Described) → Contains set.new.items x
        ↔ (Contains set.old.items x ⊎ Contains loads.items x) }
{
    let mut end = set.len();
    let mut left = loads.len();
    match set.append(&mut loads) {
        Ok(()) => (),
        Err(_) => unreachable!(),
    }
    while left > 0 {
        let next = end + left - 1;
        let Err(place) = find_segment(&set[..end], set[next].id()) else {
            unreachable!()
        };
        exchange_parts(set, place, end, end + left);
        end = place;
        left -= 1;
    }
}
