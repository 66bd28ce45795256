use crate::rows::{interval, name, parsed, segment};
use crate::tables::{assert_printed, assert_reported, assert_rows, printed};
use druid_segment_descriptor::Descriptor;
use druid_segment_id::{GroupKey, Meter};
use druid_time::IntervalSet;
use druid_timeline::{Piece, Timeline, TimelineFault};
use std::alloc::Global;
use std::fmt::Write;
use std::process::Abort;

// Segments that node 0 serves, each by interval, version, partition and core count, and the visible pieces of the day,
// each by version, stretch and partitions. A line is a case.
const CASES: &str = "2024-01-01/2024-01-02 v1 0 2 =\u{20}
2024-01-01/2024-01-02 v1 0 2,2024-01-01/2024-01-02 v1 1 2 = v1 2024-01-01T00:00:00.000Z/2024-01-02T00:00:00.000Z [0, 1];
2024-01-01/2024-01-02 v1 0 2,2024-01-01/2024-01-02 v1 1 2,2024-01-01/2024-01-02 v1 5 2 = v1 2024-01-01T00:00:00.000Z/2024-01-02T00:00:00.000Z [0, 1, 5];
2024-01-01/2024-01-02 v1 7 0 = v1 2024-01-01T00:00:00.000Z/2024-01-02T00:00:00.000Z [7];
2024-01-01/2024-01-02 v1 0 1,2024-01-01T10:00/2024-01-01T12:00 v2 0 1 = v1 2024-01-01T00:00:00.000Z/2024-01-01T10:00:00.000Z [0];v2 2024-01-01T10:00:00.000Z/2024-01-01T12:00:00.000Z [0];v1 2024-01-01T12:00:00.000Z/2024-01-02T00:00:00.000Z [0];
2024-01-01T00:00/2024-01-01T12:00 v1 0 0,2024-01-01T06:00/2024-01-01T18:00 v1 1 0 = v1 2024-01-01T00:00:00.000Z/2024-01-01T06:00:00.000Z [0];v1 2024-01-01T06:00:00.000Z/2024-01-01T18:00:00.000Z [1];
2024-01-01/2024-01-02 v9 0 1,2024-01-01/2024-01-02 v10 0 1 = v9 2024-01-01T00:00:00.000Z/2024-01-02T00:00:00.000Z [0];
2024-01-01/2024-01-02 v1 0 1,2024-01-01/2024-01-02 v2 2 3,2024-01-01/2024-01-02 v2 0 3 = v1 2024-01-01T00:00:00.000Z/2024-01-02T00:00:00.000Z [0];
2024-01-01/2024-01-02 v1 0 1,2024-01-01/2024-01-02 v2 2 3,2024-01-01/2024-01-02 v2 0 3,2024-01-01/2024-01-02 v2 1 3 = v2 2024-01-01T00:00:00.000Z/2024-01-02T00:00:00.000Z [0, 1, 2];";

// Steps on a timeline, begun without segments: `+` a segment that node 0 serves from now on, `-` one that it serves no
// more. Beside each stand the visible pieces of the day after it and, after a bar, the overshadowed chunks, or else
// the fault. A newer version cuts an older one, and goes; a newer version completes, and goes; versions hide others.
const CUTS: &str =
    "+ 2024-01-01/2024-01-02 v1 0 1 = v1 2024-01-01T00:00:00.000Z/2024-01-02T00:00:00.000Z [0];|
+ 2024-01-01T10:00/2024-01-01T12:00 v2 0 1 = v1 2024-01-01T00:00:00.000Z/2024-01-01T10:00:00.000Z [0];v2 2024-01-01T10:00:00.000Z/2024-01-01T12:00:00.000Z [0];v1 2024-01-01T12:00:00.000Z/2024-01-02T00:00:00.000Z [0];|
- 2024-01-01T10:00/2024-01-01T12:00 v2 0 1 = v1 2024-01-01T00:00:00.000Z/2024-01-02T00:00:00.000Z [0];|
- 2024-01-01T10:00/2024-01-01T12:00 v2 0 1 = L3: not there
- 2024-01-01/2024-01-02 v1 0 1 = |
- 2024-01-01/2024-01-02 v1 0 1 = L3: not there";

const COMPLETES: &str =
    "+ 2024-01-01/2024-01-02 v1 0 1 = v1 2024-01-01T00:00:00.000Z/2024-01-02T00:00:00.000Z [0];|
+ 2024-01-01/2024-01-02 v2 2 3 = v1 2024-01-01T00:00:00.000Z/2024-01-02T00:00:00.000Z [0];|
+ 2024-01-01/2024-01-02 v2 0 3 = v1 2024-01-01T00:00:00.000Z/2024-01-02T00:00:00.000Z [0];|
+ 2024-01-01/2024-01-02 v2 1 3 = v2 2024-01-01T00:00:00.000Z/2024-01-02T00:00:00.000Z [0, 1, 2];|v1 2024-01-01T00:00:00.000Z/2024-01-02T00:00:00.000Z;
- 2024-01-01/2024-01-02 v2 0 3 = v1 2024-01-01T00:00:00.000Z/2024-01-02T00:00:00.000Z [0];|
- 2024-01-01/2024-01-02 v2 0 3 = L3: not there
- 2024-01-01/2024-01-02 v1 1 1 = L3: not there
- 2024-01-01/2024-01-02 v1 0 1 = |";

const HIDES: &str =
    "+ 2024-01-01T10:00/2024-01-01T12:00 v2 0 1 = v2 2024-01-01T10:00:00.000Z/2024-01-01T12:00:00.000Z [0];|
+ 2024-01-01T10:00/2024-01-01T12:00 v10 0 1 = v2 2024-01-01T10:00:00.000Z/2024-01-01T12:00:00.000Z [0];|v10 2024-01-01T10:00:00.000Z/2024-01-01T12:00:00.000Z;
+ 2024-01-01T10:00/2024-01-01T12:00 v1 0 1 = v2 2024-01-01T10:00:00.000Z/2024-01-01T12:00:00.000Z [0];|v1 2024-01-01T10:00:00.000Z/2024-01-01T12:00:00.000Z;v10 2024-01-01T10:00:00.000Z/2024-01-01T12:00:00.000Z;
+ 2024-01-01/2024-01-02 v3 0 1 = v3 2024-01-01T00:00:00.000Z/2024-01-02T00:00:00.000Z [0];|v1 2024-01-01T10:00:00.000Z/2024-01-01T12:00:00.000Z;v10 2024-01-01T10:00:00.000Z/2024-01-01T12:00:00.000Z;v2 2024-01-01T10:00:00.000Z/2024-01-01T12:00:00.000Z;
+ 2024-01-01/2024-01-01T10:00 v2 0 1 = v3 2024-01-01T00:00:00.000Z/2024-01-02T00:00:00.000Z [0];|v2 2024-01-01T00:00:00.000Z/2024-01-01T10:00:00.000Z;v1 2024-01-01T10:00:00.000Z/2024-01-01T12:00:00.000Z;v10 2024-01-01T10:00:00.000Z/2024-01-01T12:00:00.000Z;v2 2024-01-01T10:00:00.000Z/2024-01-01T12:00:00.000Z;
- 2024-01-01T10:00/2024-01-01T12:00 v1 0 1 = v3 2024-01-01T00:00:00.000Z/2024-01-02T00:00:00.000Z [0];|v2 2024-01-01T00:00:00.000Z/2024-01-01T10:00:00.000Z;v10 2024-01-01T10:00:00.000Z/2024-01-01T12:00:00.000Z;v2 2024-01-01T10:00:00.000Z/2024-01-01T12:00:00.000Z;
- 2024-01-01/2024-01-02 v3 0 1 = v2 2024-01-01T00:00:00.000Z/2024-01-01T10:00:00.000Z [0];v2 2024-01-01T10:00:00.000Z/2024-01-01T12:00:00.000Z [0];|v10 2024-01-01T10:00:00.000Z/2024-01-01T12:00:00.000Z;";

// Loads and drops at both ends of an interval, and between them; versions of one interval that come and go in turn.
const ENDS: &str =
    "+ 2024-01-01/2024-01-02 v1 0 1 = v1 2024-01-01T00:00:00.000Z/2024-01-02T00:00:00.000Z [0];|
+ 2024-01-01/2024-01-01T02:00 v2 0 1 = v2 2024-01-01T00:00:00.000Z/2024-01-01T02:00:00.000Z [0];v1 2024-01-01T02:00:00.000Z/2024-01-02T00:00:00.000Z [0];|
+ 2024-01-01T22:00/2024-01-02 v2 0 1 = v2 2024-01-01T00:00:00.000Z/2024-01-01T02:00:00.000Z [0];v1 2024-01-01T02:00:00.000Z/2024-01-01T22:00:00.000Z [0];v2 2024-01-01T22:00:00.000Z/2024-01-02T00:00:00.000Z [0];|
+ 2024-01-01T02:00/2024-01-01T22:00 v2 0 1 = v2 2024-01-01T00:00:00.000Z/2024-01-01T02:00:00.000Z [0];v2 2024-01-01T02:00:00.000Z/2024-01-01T22:00:00.000Z [0];v2 2024-01-01T22:00:00.000Z/2024-01-02T00:00:00.000Z [0];|v1 2024-01-01T00:00:00.000Z/2024-01-02T00:00:00.000Z;
- 2024-01-01/2024-01-01T02:00 v2 0 1 = v1 2024-01-01T00:00:00.000Z/2024-01-01T02:00:00.000Z [0];v2 2024-01-01T02:00:00.000Z/2024-01-01T22:00:00.000Z [0];v2 2024-01-01T22:00:00.000Z/2024-01-02T00:00:00.000Z [0];|
- 2024-01-01T22:00/2024-01-02 v2 0 1 = v1 2024-01-01T00:00:00.000Z/2024-01-01T02:00:00.000Z [0];v2 2024-01-01T02:00:00.000Z/2024-01-01T22:00:00.000Z [0];v1 2024-01-01T22:00:00.000Z/2024-01-02T00:00:00.000Z [0];|
- 2024-01-01T02:00/2024-01-01T22:00 v2 0 1 = v1 2024-01-01T00:00:00.000Z/2024-01-02T00:00:00.000Z [0];|";

const TURNS: &str =
    "+ 2024-01-01/2024-01-02 v2 0 1 = v2 2024-01-01T00:00:00.000Z/2024-01-02T00:00:00.000Z [0];|
+ 2024-01-01/2024-01-02 v1 0 1 = v2 2024-01-01T00:00:00.000Z/2024-01-02T00:00:00.000Z [0];|v1 2024-01-01T00:00:00.000Z/2024-01-02T00:00:00.000Z;
- 2024-01-01/2024-01-02 v2 0 1 = v1 2024-01-01T00:00:00.000Z/2024-01-02T00:00:00.000Z [0];|
+ 2024-01-01/2024-01-02 v2 0 1 = v2 2024-01-01T00:00:00.000Z/2024-01-02T00:00:00.000Z [0];|v1 2024-01-01T00:00:00.000Z/2024-01-02T00:00:00.000Z;
- 2024-01-01/2024-01-02 v1 0 1 = v2 2024-01-01T00:00:00.000Z/2024-01-02T00:00:00.000Z [0];|
+ 2024-01-01T06:00/2024-01-01T18:00 v3 0 1 = v2 2024-01-01T00:00:00.000Z/2024-01-01T06:00:00.000Z [0];v3 2024-01-01T06:00:00.000Z/2024-01-01T18:00:00.000Z [0];v2 2024-01-01T18:00:00.000Z/2024-01-02T00:00:00.000Z [0];|
+ 2024-01-01T12:00/2024-01-02 v1 0 1 = v2 2024-01-01T00:00:00.000Z/2024-01-01T06:00:00.000Z [0];v3 2024-01-01T06:00:00.000Z/2024-01-01T18:00:00.000Z [0];v2 2024-01-01T18:00:00.000Z/2024-01-02T00:00:00.000Z [0];|v1 2024-01-01T12:00:00.000Z/2024-01-02T00:00:00.000Z;
- 2024-01-01/2024-01-02 v2 0 1 = v3 2024-01-01T06:00:00.000Z/2024-01-01T18:00:00.000Z [0];v1 2024-01-01T18:00:00.000Z/2024-01-02T00:00:00.000Z [0];|
+ 2024-01-01T06:00/2024-01-01T18:00 v1 0 1 = v3 2024-01-01T06:00:00.000Z/2024-01-01T18:00:00.000Z [0];v1 2024-01-01T18:00:00.000Z/2024-01-02T00:00:00.000Z [0];|v1 2024-01-01T06:00:00.000Z/2024-01-01T18:00:00.000Z;
- 2024-01-01T06:00/2024-01-01T18:00 v3 0 1 = v1 2024-01-01T06:00:00.000Z/2024-01-01T12:00:00.000Z [0];v1 2024-01-01T12:00:00.000Z/2024-01-02T00:00:00.000Z [0];|
+ 2024-01-01T06:00/2024-01-01T12:00 v2 0 1 = v2 2024-01-01T06:00:00.000Z/2024-01-01T12:00:00.000Z [0];v1 2024-01-01T12:00:00.000Z/2024-01-02T00:00:00.000Z [0];|v1 2024-01-01T06:00:00.000Z/2024-01-01T18:00:00.000Z;
- 2024-01-01T12:00/2024-01-02 v1 0 1 = v2 2024-01-01T06:00:00.000Z/2024-01-01T12:00:00.000Z [0];v1 2024-01-01T12:00:00.000Z/2024-01-01T18:00:00.000Z [0];|";

// Steps on a timeline of which a copy was made before, and beside each what is reported of the copy and of the timeline.
const COPIES: &str =
    "+ 2024-01-01/2024-01-02 v1 5 2 = v1 2024-01-01T00:00:00.000Z/2024-01-02T00:00:00.000Z [0, 1]; then v1 2024-01-01T00:00:00.000Z/2024-01-02T00:00:00.000Z [0, 1, 5];|
- 2024-01-01/2024-01-02 v1 0 2 = v1 2024-01-01T00:00:00.000Z/2024-01-02T00:00:00.000Z [0, 1]; then |";

// A segment of the source `wiki`, as a case has it.
pub(crate) fn descriptor(rt: &impl Abort, alloc: Global, row: &str) -> Descriptor {
    let (chunk, row) = row.split_once(' ').expect(rt, "no interval");
    let (version, row) = row.split_once(' ').expect(rt, "no version");
    let (partition, core) = row.split_once(' ').expect(rt, "no partition");
    let id = segment(rt, alloc, chunk, version, parsed(rt, partition));
    Descriptor::new(id, parsed(rt, core), 1).expect(rt, "too many core partitions")
}

fn timeline(rt: &impl Abort, alloc: Global, source: &str) -> Timeline {
    Timeline::new(alloc, name(rt, alloc, source))
}

// Node 0 serves the segment from now on.
fn add(timeline: &mut Timeline, descriptor: &Descriptor) -> Result<(), TimelineFault> {
    let mut meter = Meter::new();
    timeline.add(descriptor, 0, &mut meter)
}

// Node 0 does not serve the segment from now on.
fn remove(timeline: &mut Timeline, descriptor: &Descriptor) -> Result<(), TimelineFault> {
    let mut meter = Meter::new();
    timeline.remove(descriptor.id(), 0, &mut meter)
}

// A step on a timeline, as a case has it.
fn edit(
    rt: &impl Abort,
    alloc: Global,
    timeline: &mut Timeline,
    step: &str,
) -> Result<(), TimelineFault> {
    let (kind, row) = step.split_once(' ').expect(rt, "no step");
    let descriptor = descriptor(rt, alloc, row);
    if kind == "+" {
        return add(timeline, &descriptor);
    }
    remove(timeline, &descriptor)
}

fn served(rt: &impl Abort, alloc: Global, case: &str) -> Timeline {
    let mut timeline = timeline(rt, alloc, "wiki");
    for row in case.split(',') {
        add(&mut timeline, &descriptor(rt, alloc, row)).expect(rt, "a refused segment");
    }
    timeline
}

// The pieces of the day.
fn pieces(rt: &impl Abort, alloc: Global, timeline: &Timeline) -> Vec<Piece> {
    let day = interval(rt, "2024-01-01/2024-01-02");
    let set = IntervalSet::of(alloc, &[day]).expect(rt, "memory");
    timeline.lookup(&set).expect(rt, "memory")
}

pub(crate) fn push_version(rt: &impl Abort, alloc: Global, reported: &mut String, key: &GroupKey) {
    let version = key.version().text(alloc).expect(rt, "memory");
    reported.push_str(version.as_str()).expect(rt, "memory");
}

// What is reported of the pieces of the day.
fn reported(rt: &impl Abort, alloc: Global, timeline: &Timeline) -> String {
    let mut reported = String::new(alloc);
    for piece in &pieces(rt, alloc, timeline) {
        push_version(rt, alloc, &mut reported, piece.key());
        write!(reported, " {} {:?};", piece.interval(), piece.parts()).expect(rt, "memory");
    }
    reported
}

// Appends the overshadowed chunks.
fn push_hidden(rt: &impl Abort, alloc: Global, reported: &mut String, timeline: &Timeline) {
    let mut meter = Meter::new();
    for key in &timeline.overshadowed(&mut meter).expect(rt, "memory") {
        push_version(rt, alloc, reported, key);
        write!(reported, " {};", key.interval()).expect(rt, "memory");
    }
}

// The pieces of the day and the overshadowed chunks.
fn all_reported(rt: &impl Abort, alloc: Global, timeline: &Timeline) -> String {
    let mut reported = reported(rt, alloc, timeline);
    reported.push('|').expect(rt, "memory");
    push_hidden(rt, alloc, &mut reported, timeline);
    reported
}

// The result of a step on a timeline.
fn after(rt: &impl Abort, alloc: Global, timeline: &mut Timeline, step: &str) -> String {
    match edit(rt, alloc, timeline, step) {
        Ok(()) => all_reported(rt, alloc, timeline),
        Err(fault) => printed(rt, alloc, &fault),
    }
}

// Asserts the result after each of these steps on a timeline.
fn assert_steps(rt: &impl Abort, alloc: Global, steps: &str) {
    let mut timeline = timeline(rt, alloc, "wiki");
    for row in steps.lines() {
        let (step, wanted) = row.split_once(" = ").expect(rt, "no step");
        assert_reported(rt, step, after(rt, alloc, &mut timeline, step), wanted);
    }
}

// What is reported of a copy of a timeline after a step on the timeline, and of the timeline.
fn copied(rt: &impl Abort, alloc: Global, step: &str) -> String {
    let mut timeline = served(
        rt,
        alloc,
        "2024-01-01/2024-01-02 v1 0 2,2024-01-01/2024-01-02 v1 1 2",
    );
    let copy = timeline.clone().expect(rt, "memory");
    let after = after(rt, alloc, &mut timeline, step);
    let before = reported(rt, alloc, &copy);
    format!(in alloc; "{before} then {after}").expect(rt, "memory")
}

// The nodes that hold a segment, and those that serve its rows, where nodes 0 and 2 have added it to a timeline of this source,
// and node 1 a tombstone in its place.
fn replicas(rt: &impl Abort, alloc: Global, source: &str) -> String {
    let descriptor = descriptor(rt, alloc, "2024-01-01/2024-01-02 v1 0 1");
    let id = descriptor.id().clone().expect(rt, "memory");
    let tombstone = Descriptor::tombstone(id).expect(rt, "partition 0");
    let mut timeline = timeline(rt, alloc, source);
    let mut meter = Meter::new();
    let _ = timeline.add(&descriptor, 2, &mut meter);
    let _ = timeline.add(&tombstone, 1, &mut meter);
    let _ = timeline.add(&descriptor, 0, &mut meter);
    let nodes = timeline.replicas(descriptor.id()).expect(rt, "memory");
    let served = timeline.served(descriptor.id()).expect(rt, "memory");
    format!(in alloc; "{nodes:?} {served:?}").expect(rt, "memory")
}

fn answer(rt: &impl Abort, alloc: Global, case: &str) -> String {
    reported(rt, alloc, &served(rt, alloc, case))
}

#[test]
fn visible_pieces(rt: HostRuntime) {
    assert_rows(&rt, rt.alloc(), CASES, answer);
}

#[test]
fn steps(rt: HostRuntime) {
    assert_steps(&rt, rt.alloc(), CUTS);
    assert_steps(&rt, rt.alloc(), COMPLETES);
    assert_steps(&rt, rt.alloc(), HIDES);
    assert_steps(&rt, rt.alloc(), ENDS);
    assert_steps(&rt, rt.alloc(), TURNS);
}

#[test]
fn copies_are_apart(rt: HostRuntime) {
    assert_rows(&rt, rt.alloc(), COPIES, copied);
}

#[test]
fn nodes_of_a_segment(rt: HostRuntime) {
    assert_rows(
        &rt,
        rt.alloc(),
        "wiki = [0, 1, 2] [0, 2]\nwikipedia = [] []",
        replicas,
    );
}

// What becomes of a segment that is there.
fn added_twice(rt: &impl Abort, alloc: Global, row: &str) -> Result<(), TimelineFault> {
    let mut timeline = served(rt, alloc, row);
    add(&mut timeline, &descriptor(rt, alloc, row))
}

#[test]
fn a_segment_that_is_there(rt: HostRuntime) {
    let again = added_twice(&rt, rt.alloc(), "2024-01-01/2024-01-02 v1 0 1");
    assert!(rt; again == Err(TimelineFault::AlreadyThere));
}

#[test]
fn faults_print_these_texts(rt: HostRuntime) {
    let rows = [
        (TimelineFault::OtherSource, "L2: another source"),
        (TimelineFault::AlreadyThere, "L1: already there"),
        (TimelineFault::NotThere, "L3: not there"),
        (TimelineFault::Memory, "L9: out of memory"),
    ];
    assert_printed(&rt, rt.alloc(), &rows);
}
