//! The segments that a node holds: a sorted list of counted references, which answers share. A load
//! beside an answer copies the references and no identifier; a map would copy its keys too.
ghost use Rattle.std.specs.Prelude.{◌≡◌, ◌<◌, [], length, map, None, Some, IsTrue, IsSome, IfSome, IfNone, IfOk, IfErr, OnOk, OnErr};
ghost use Rattle.std.specs.Arc.{arc_value};
ghost use Rattle.std.specs.List.{slice_get};
ghost use Rattle.std.specs.Option.{option_copied, is_some};
ghost use Rattle.druid_segment_descriptor.specs.Reply.{AreSorted};
ghost use Rattle.druid_segment_descriptor.specs.Replay.{StandsAt, BelongsAt, is_strict, has_room};
ghost use Rattle.druid_segment_descriptor.specs.declared.change.Change.TheVariants.{Load};
ghost use Rattle.druid_node.specs.State.{descriptors_of};
ghost use Rattle.druid_partial_scan.specs.Once.{segment_named};
ghost use Rattle.druid_node.specs.Held.{IsHeld, with_held, without_held};

use druid_segment_id::SegmentId;
use druid_segment_rows::Segment;
use std::alloc::{AllocError, Global};
use std::cmp::Ordering;
use std::marker::Model;
use std::sync::Arc;

// The segments, in the order of their identifiers. A copy shares them. A contract sees their list.
#[derive(Debug, Drop)]
pub(crate) struct Held {
    segments: Vec<Arc<Segment, Global>>,
}

impl Model for Held {
    ghost use Rattle.std.specs.Prelude.{List, map};
    ghost use Rattle.std.specs.Arc.{arc_value};
    ghost use Rattle.druid_segment_rows.specs.Segment.{Segment};
    ghost use Rattle.druid_node.specs.Held.{IsHeld};

    ghost Value = { List Segment };

    ghost view = { λ a. map arc_value a.segments.items };

    ghost invariant = { λ a. IsHeld (map arc_value a.segments.items) };
}

impl Clone for Held {
    ghost is_clone = { λ held copy. copy ≡ held };

    fn clone(&self) -> Result<Held, AllocError> {
        Ok(Held {
            segments: self.segments.clone()?,
        })
    }
}

fn segment_at(segments: &[Arc<Segment, Global>], place: usize) -> &Segment
    requires { place < length segments.now }
    ensures { slice_get (map arc_value segments.now) place ≡ Some result.now }
{
    &segments[place]
}

// The place at which the segment of an identifier stands, or else the place at which it would.
fn place_of(segments: &[Arc<Segment, Global>], id: &SegmentId) -> Result<usize, usize>
    requires { AreSorted (descriptors_of (map arc_value segments.now)) }
    ensures found { IfOk result (StandsAt (descriptors_of (map arc_value segments.now)) id.now) }
    ensures absent { IfErr result (BelongsAt (descriptors_of (map arc_value segments.now)) id.now) }
{
    let mut low = 0;
    let mut high = segments.len();
    while low < high {
        let middle = low + (high - low) / 2;
        let descriptor = segment_at(segments, middle).descriptor();
        match descriptor.id().cmp(id) {
            Ordering::Less => low = middle + 1,
            Ordering::Equal => return Ok(middle),
            Ordering::Greater => high = middle,
        }
    }
    Err(low)
}

impl Held {
    // No segments.
    pub(crate) fn new(alloc: Global) -> Held
        ensures { result ≡ [] }
    {
        Held {
            segments: Vec::new(alloc),
        }
    }

    // How many there are.
    pub(crate) fn len(&self) -> usize
        ensures value { result ≡ length self.now }
        ensures valid { IsHeld self.now }
    {
        self.segments.len()
    }

    // The place of the segment of that identifier.
    pub(crate) fn place(&self, id: &SegmentId) -> Option<usize>
        ensures found { IfSome result (λ place. slice_get self.now place ≡ segment_named id.now self.now) }
        ensures within { IfSome result (λ place. place < length self.now) }
        ensures none { IfNone result (segment_named id.now self.now ≡ None) }
    {
        match place_of(&self.segments, id) {
            Ok(place) => Some(place),
            Err(_) => None,
        }
    }

    // The segment at a place.
    pub(crate) fn at(&self, place: usize) -> &Segment
        requires { place < length self.now }
        ensures { slice_get self.now place ≡ Some result.now }
    {
        segment_at(&self.segments, place)
    }

    // The segment of that identifier.
    pub(crate) fn find(&self, id: &SegmentId) -> Option<&Segment>
        ensures { option_copied result ≡ segment_named id.now self.now }
    {
        match place_of(&self.segments, id) {
            Ok(place) => Some(segment_at(&self.segments, place)),
            Err(_) => None,
        }
    }

    // Whether there is a segment of that identifier.
    pub(crate) fn holds(&self, id: &SegmentId) -> bool
        ensures { result ≡ is_some (segment_named id.now self.now) }
    {
        self.find(id).is_some()
    }

    // Puts one more at its place.
    pub(crate) fn insert(&mut self, alloc: Global, segment: Segment) -> Result<(), AllocError>
        requires strict { IsTrue (is_strict (descriptors_of self.old) (Load segment.descriptor)) }
        requires room { IsTrue (has_room (descriptors_of self.old) (Load segment.descriptor)) }
        ensures inserted { OnOk result (self.new ≡ with_held segment self.old) }
        ensures unchanged { OnErr result (self.new ≡ self.old) }
    {
        let descriptor = segment.descriptor();
        let Err(place) = place_of(&self.segments, descriptor.id()) else {
            unreachable!()
        };
        let shared = Arc::new(alloc, segment)?;
        self.segments.insert(place, shared)?;
        Ok(())
    }

    // Takes the segment of that identifier out.
    pub(crate) fn remove(&mut self, id: &SegmentId)
        requires { IsSome (segment_named id.now self.old) }
        ensures removed { self.new ≡ without_held id.now self.old }
        ensures gone { segment_named id.now self.new ≡ None }
    {
        let Ok(place) = place_of(&self.segments, id) else {
            unreachable!()
        };
        self.segments.remove(place);
    }
}
