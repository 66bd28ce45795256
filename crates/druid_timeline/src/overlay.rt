//! What is visible where a chunk comes over runs, and where runs show a chunk.
ghost use Rattle.std.specs.Prelude.{◌≡◌, ◌<◌, ◌≤◌, ◌+◌, ◌↔◌, ◌⊎◌, ℕ, [], ◌∷◌, length, map, OnOk, MatchOption};
ghost use Rattle.druid_time.specs.Extent.{Extent, Has};
ghost use Rattle.druid_segment_id.specs.Group.{Group, Outranks};
ghost use Rattle.druid_timeline.specs.Edited.{IsOverlaid, IsWithin};
ghost use Rattle.druid_timeline.specs.Pieces.{AreRuns, Shows, cut, shown_at};
ghost use Rattle.druid_timeline.specs.Stretches.{EndBy};

use crate::edit::{first_after, first_to};
use crate::skyline::beats;
use crate::sweep::{push_between, push_run};
use druid_segment_id::{GroupKey, Meter};
use druid_time::Interval;
use std::alloc::AllocError;

// The first chunk where it outranks the second, else the second.
fn better<'a>(own: &'a GroupKey, other: &'a GroupKey, meter: &mut Meter) -> &'a GroupKey
    ensures better { (Outranks own.now other.now × (result.now ≡ own.now))
        ⊎ ((Outranks own.now other.now → ⊥) × (result.now ≡ other.now)) }
    ensures counted { meter.new ≡ meter.old + 1 }
{
    if beats(own, other, meter) {
        return own;
    }
    other
}

// Adds what is visible inside a chunk's interval where the chunk comes over runs: one comparison for each that overlaps
// it.
pub(crate) fn add_overlaid(
    middle: &mut Vec<(Interval, GroupKey)>,
    runs: &[(Interval, GroupKey)],
    own: &GroupKey,
    meter: &mut Meter,
) -> Result<(), AllocError>
    requires runs { AreRuns (map shown_at runs.now) }
    requires middle { AreRuns (map shown_at middle.old.items) }
    requires ends { EndBy (map shown_at middle.old.items) own.now.interval.start }
    ensures runs { OnOk result (AreRuns (map shown_at middle.new.items)) }
    ensures shows { OnOk result ((t : ℕ) (g : Group) → Shows (map shown_at middle.new.items) t g
        ↔ (Shows (map shown_at middle.old.items) t g
        ⊎ (Has own.now.interval t × IsOverlaid (map shown_at runs.now) own.now t g))) }
    ensures counted { (meter.old ≤ meter.new)
        × (meter.new ≤ meter.old + length (cut (own.now.interval ∷ []) (map shown_at runs.now))) }
{
    let part = own.interval();
    let low = first_to(runs, part.start());
    let high = first_after(runs, part.end());
    let mut from = part.start();
    for place in low..high {
        let run = &runs[place];
        if let Some(both) = part.clip(&run.0) {
            push_between(middle, from, both.start(), own)?;
            push_run(middle, both, better(own, &run.1, meter))?;
            from = both.end();
        }
    }
    push_between(middle, from, part.end(), own)
}

// The least interval with an interval and one more.
pub(crate) fn widened(hull: Option<Interval>, more: Interval) -> Option<Interval>
    ensures covers { (t : ℕ) → MatchOption hull ⊥ (λ h. Has h t) ⊎ Has more t → MatchOption result ⊥ (λ h. Has h t) }
    ensures within { (part : Extent) → MatchOption hull (Unit {0}) (λ h. IsWithin h part) → IsWithin more part
        → MatchOption result (Unit {0}) (λ h. IsWithin h part) }
{
    let Some(hull) = hull else {
        return Some(more);
    };
    Interval::new(hull.start().min(more.start()), hull.end().max(more.end()))
}

// The least interval with all instants of a chunk's interval at which runs show the chunk. None where there are none.
pub(crate) fn hull_of(runs: &[(Interval, GroupKey)], own: &GroupKey) -> Option<Interval>
    requires { AreRuns (map shown_at runs.now) }
    ensures covers { (t : ℕ) → Has own.now.interval t → Shows (map shown_at runs.now) t own.now
        → MatchOption result ⊥ (λ hull. Has hull t) }
    ensures within { MatchOption result (Unit {0}) (λ hull. IsWithin hull own.now.interval) }
{
    let part = own.interval();
    let low = first_to(runs, part.start());
    let high = first_after(runs, part.end());
    let mut hull = None;
    for place in low..high {
        let run = &runs[place];
        if let Some(both) = part.clip(&run.0) {
            if run.1 == *own {
                hull = widened(hull, both);
            }
        }
    }
    hull
}
