//! How much one edit counts at most, by the contract: v1 and v2 on each of 100 days, and then v3 on the first day; and that a
//! replica of v1 counts nothing.
ghost use Rattle.std.specs.Prelude.{◌≡◌, ◌≤◌, ◌+◌, ◌*◌, List, length};
ghost use Rattle.druid_segment_id.specs.Group.{Group, group_of};
ghost use Rattle.druid_base_tests.specs.Others.{AreAmong, IsAmong};

use crate::rows::{interval, name};
use druid_segment_descriptor::Descriptor;
use druid_segment_id::{Meter, SegmentId, Version};
use druid_time::{Instant, Interval};
use druid_timeline::Timeline;
use std::alloc::Global;
use std::process::Abort;

const DAY_MS: i64 = 86_400_000;

// The only partition of a chunk.
fn segment(rt: &impl Abort, alloc: Global, day: Interval, version: &str) -> Descriptor
    ensures { (group_of result.id).interval ≡ day }
{
    let version = Version::new(alloc, version).expect(rt, "a version");
    let id = SegmentId::new(name(rt, alloc, "wiki"), day, version, 0);
    Descriptor::new(id, 0, 1).expect(rt, "a descriptor")
}

fn add(rt: &impl Abort, timeline: &mut Timeline, segment: &Descriptor, meter: &mut Meter)
    ensures among { (g : Group) (others : List Group) → AreAmong timeline.old.held g others
        → IsAmong g others (group_of segment.now.id) → AreAmong timeline.new.held g others }
    ensures counted { (others : List Group) → AreAmong timeline.old.held (group_of segment.now.id) others
        → meter.new ≤ meter.old + 3 * length others + 1 }
{
    timeline.add(segment, 0, meter).expect(rt, "an edit");
}

fn remove(rt: &impl Abort, timeline: &mut Timeline, id: &SegmentId, meter: &mut Meter)
    ensures counted { (others : List Group) → AreAmong timeline.old.held (group_of id.now) others
        → meter.new ≤ meter.old + 3 * length others + 1 }
{
    timeline.remove(id, 0, meter).expect(rt, "an edit");
}

// Adds both versions of 99 days from an instant on.
fn add_days(rt: &impl Abort, alloc: Global, timeline: &mut Timeline, from: Instant)
    ensures { (g : Group) (others : List Group) → g.interval.end ≤ from
        → AreAmong timeline.old.held g others → AreAmong timeline.new.held g others }
{
    let mut meter = Meter::new();
    let mut start = from;
    for _day in 1..100 {
        let end = Instant::new(start.ms().wrapping_add(DAY_MS)).expect(rt, "an instant");
        let day = Interval::new(start, end).expect(rt, "a day");
        add(rt, timeline, &segment(rt, alloc, day, "v1"), &mut meter);
        add(rt, timeline, &segment(rt, alloc, day, "v2"), &mut meter);
        start = end;
    }
}

// The row: what the very first edit counts, and what adding and removing v3 on the first day do.
fn count_edits(
    rt: &impl Abort,
    alloc: Global,
    first: &mut Meter,
    third: &mut Meter,
    back: &mut Meter,
)
    ensures first { first.new ≤ first.old + 1 }
    ensures third { third.new ≤ third.old + 7 }
    ensures back { back.new ≤ back.old + 7 }
{
    let day = interval(rt, "2024-01-01/2024-01-02");
    let v1 = segment(rt, alloc, day, "v1");
    let v2 = segment(rt, alloc, day, "v2");
    let v3 = segment(rt, alloc, day, "v3");
    let mut timeline = Timeline::new(alloc, name(rt, alloc, "wiki"));
    add(rt, &mut timeline, &v1, first);
    add(rt, &mut timeline, &v2, &mut Meter::new());
    add_days(rt, alloc, &mut timeline, day.end());
    add(rt, &mut timeline, &v3, third);
    remove(rt, &mut timeline, v3.id(), back);
}

// The row: a second node loads v1 and drops it, which counts nothing.
fn count_replica(rt: &impl Abort, alloc: Global, comes: &mut Meter, goes: &mut Meter)
    ensures comes { comes.new ≡ comes.old }
    ensures goes { goes.new ≡ goes.old }
{
    let day = interval(rt, "2024-01-01/2024-01-02");
    let v1 = segment(rt, alloc, day, "v1");
    let mut timeline = Timeline::new(alloc, name(rt, alloc, "wiki"));
    let mut meter = Meter::new();
    timeline.add(&v1, 0, &mut meter).expect(rt, "an edit");
    timeline.add(&v1, 1, comes).expect(rt, "an edit");
    timeline.remove(v1.id(), 1, goes).expect(rt, "an edit");
}

#[test]
fn edit_bound(rt: HostRuntime) {
    let (mut first, mut third, mut back) = (Meter::new(), Meter::new(), Meter::new());
    count_edits(&rt, rt.alloc(), &mut first, &mut third, &mut back);
    count_replica(&rt, rt.alloc(), &mut third, &mut back);
}
