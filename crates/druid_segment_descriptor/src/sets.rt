//! Sets of segments, as the lists of their descriptors by identifier.
ghost use Rattle.std.specs.Prelude.{◌≡◌, IsTrue, IfOk, IfErr, OnOk, OnErr};
ghost use Rattle.druid_segment_descriptor.specs.Reply.{AreSorted};
ghost use Rattle.druid_segment_descriptor.specs.Replay.{StandsAt, BelongsAt, is_strict, after};

use crate::{Change, Descriptor};
use druid_segment_id::SegmentId;
use std::alloc::AllocError;
use std::cmp::Ordering;

/// The place at which the segment of an identifier stands in a set. Does not allocate.
///
/// # Errors
///
/// Err where it stands at none, with the place where it belongs.
pub fn find_segment(segments: &[Descriptor], id: &SegmentId) -> Result<usize, usize>
    requires { AreSorted segments.now }
    ensures found { IfOk result (StandsAt segments.now id.now) }
    ensures absent { IfErr result (BelongsAt segments.now id.now) }
{
    let mut low = 0;
    let mut high = segments.len();
    while low < high {
        let middle = low + (high - low) / 2;
        let other = segments[middle].id();
        match other.cmp(id) {
            Ordering::Less => low = middle + 1,
            Ordering::Equal => return Ok(middle),
            Ordering::Greater => high = middle,
        }
    }
    Err(low)
}

/// Makes a strict change of a set, in place.
///
/// # Errors
///
/// Out of memory. Leaves the set as it was.
pub fn apply_change(segments: &mut Vec<Descriptor>, change: &Change) -> Result<(), AllocError>
    requires sorted { AreSorted segments.old.items }
    requires strict { IsTrue (is_strict segments.old.items change.now) }
    ensures ok { OnOk result (segments.new.items ≡ after segments.old.items change.now) }
    ensures err { OnErr result (segments.new.items ≡ segments.old.items) }
{
    match change {
        Change::Load(descriptor) => {
            let Err(place) = find_segment(segments, descriptor.id()) else {
                unreachable!()
            };
            segments.insert(place, descriptor.clone()?)?;
        }
        Change::Drop(descriptor) => {
            let Ok(place) = find_segment(segments, descriptor.id()) else {
                unreachable!()
            };
            segments.remove(place);
        }
    }
    Ok(())
}
