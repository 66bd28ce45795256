//! Members, chunks and timelines.
use crate::marks::{assert_call, begin, copy_of, end};
use crate::values::{day, descriptor, name, segment};
use druid_segment_descriptor::Descriptor;
use druid_segment_id::Meter;
use druid_time::IntervalSet;
use druid_timeline::{Partitions, Timeline, TimelineFault, Transaction};
use druid_timeline_chunks::{Chunks, Transaction as ChunksTransaction};
use druid_timeline_members::Members;
use std::alloc::Global;
use std::process::Abort;

fn members(rt: &impl Abort, alloc: Global, member: &Descriptor) {
    let mut members = Members::new(alloc);
    begin(rt, alloc);
    let added = end(rt, alloc, members.add(member, 0));
    assert_call(
        rt,
        "Members::add",
        match added {
            Ok(added) => added && members.is_only(0, 0),
            Err(_) => members.is_empty(),
        },
    );
    let _ = members.add(member, 0);
    begin(rt, alloc);
    let partitions = end(rt, alloc, members.partitions());
    assert_call(
        rt,
        "Members::partitions",
        match &partitions {
            Ok(partitions) => partitions.as_slice() == [0].as_slice(),
            Err(_) => members.is_only(0, 0),
        },
    );
    let copy = copy_of(rt, alloc, &members);
    assert_call(
        rt,
        "Members::clone",
        match &copy {
            Ok(copy) => copy.is_only(0, 0),
            Err(_) => members.is_only(0, 0),
        },
    );
}

// Adds a segment of node 0, if it is not there.
fn add_to(rt: &impl Abort, alloc: Global, chunks: &mut Chunks, descriptor: &Descriptor) {
    if chunks.holds(descriptor.id(), 0) {
        return;
    }
    begin(rt, alloc);
    let added = end(rt, alloc, chunks.add(descriptor, 0));
    assert_call(
        rt,
        "Chunks::add",
        chunks.holds(descriptor.id(), 0) == added.is_ok(),
    );
}

// Takes it away, if it is there.
fn remove_from(rt: &impl Abort, alloc: Global, chunks: &mut Chunks, descriptor: &Descriptor) {
    if !chunks.holds(descriptor.id(), 0) {
        return;
    }
    begin(rt, alloc);
    let removed = end(rt, alloc, chunks.remove(descriptor.id(), 0));
    assert_call(
        rt,
        "Chunks::remove",
        chunks.holds(descriptor.id(), 0) != removed.is_ok(),
    );
}

fn chunk_reads(rt: &impl Abort, alloc: Global, chunks: &Chunks, descriptor: &Descriptor) {
    let copy = copy_of(rt, alloc, chunks);
    assert_call(
        rt,
        "Chunks::clone",
        match &copy {
            Ok(copy) => copy.holds(descriptor.id(), 0) == chunks.holds(descriptor.id(), 0),
            Err(_) => true,
        },
    );
    if let Some(chunk) = chunks.as_slice().first() {
        let copy = copy_of(rt, alloc, chunk);
        assert_call(
            rt,
            "Chunk::clone",
            match &copy {
                Ok(copy) => *copy.key() == *chunk.key(),
                Err(_) => true,
            },
        );
    }
    let part = descriptor.id().interval();
    begin(rt, alloc);
    let keys = end(rt, alloc, chunks.overlapping(descriptor.id(), part));
    assert_call(
        rt,
        "Chunks::overlapping",
        match &keys {
            Ok(keys) => keys.is_empty(),
            Err(_) => true,
        },
    );
}

// The same within a transaction, which is then taken back.
fn in_transaction(
    rt: &impl Abort,
    alloc: Global,
    chunks: Chunks,
    descriptor: &Descriptor,
) -> Chunks {
    let mut edit = ChunksTransaction::begin(chunks);
    let was = edit.chunks().holds(descriptor.id(), 0);
    begin(rt, alloc);
    let is = if was {
        let removed = end(rt, alloc, edit.remove(descriptor.id(), 0));
        removed.is_err()
    } else {
        let added = end(rt, alloc, edit.add(descriptor, 0));
        added.is_ok()
    };
    assert_call(
        rt,
        "timeline_chunks::Transaction::add",
        edit.chunks().holds(descriptor.id(), 0) == is,
    );
    let chunks = edit.roll_back();
    assert_call(
        rt,
        "timeline_chunks::Transaction::remove",
        chunks.holds(descriptor.id(), 0) == was,
    );
    chunks
}

fn chunks(rt: &impl Abort, alloc: Global, descriptor: &Descriptor) {
    let mut chunks = in_transaction(rt, alloc, Chunks::new(alloc), descriptor);
    add_to(rt, alloc, &mut chunks, descriptor);
    chunk_reads(rt, alloc, &chunks, descriptor);
    add_to(rt, alloc, &mut chunks, descriptor);
    let mut chunks = in_transaction(rt, alloc, chunks, descriptor);
    remove_from(rt, alloc, &mut chunks, descriptor);
}

// How many replicas of a segment a timeline has; where memory is refused, none is reported.
fn count(timeline: &Timeline, descriptor: &Descriptor) -> usize {
    match timeline.replicas(descriptor.id()) {
        Ok(nodes) => nodes.len(),
        Err(_) => 0,
    }
}

fn timeline_edits(rt: &impl Abort, alloc: Global, timeline: &mut Timeline, segment: &Descriptor) {
    let mut meter = Meter::new();
    begin(rt, alloc);
    let added = end(rt, alloc, timeline.add(segment, 0, &mut meter));
    assert_call(
        rt,
        "Timeline::add",
        match added {
            Ok(()) => count(timeline, segment) == 1,
            Err(fault) => fault == TimelineFault::Memory && count(timeline, segment) == 0,
        },
    );
    let _ = timeline.add(segment, 0, &mut meter);
    begin(rt, alloc);
    let removed = end(rt, alloc, timeline.remove(segment.id(), 0, &mut meter));
    assert_call(
        rt,
        "Timeline::remove",
        match removed {
            Ok(()) => count(timeline, segment) == 0,
            Err(fault) => fault == TimelineFault::Memory && count(timeline, segment) == 1,
        },
    );
    let _ = timeline.add(segment, 0, &mut meter);
}

fn timeline_reads(rt: &impl Abort, alloc: Global, timeline: &Timeline, segment: &Descriptor) {
    let set = IntervalSet::of(alloc, &[day(rt)]).expect(rt, "memory");
    begin(rt, alloc);
    let pieces = end(rt, alloc, timeline.lookup(&set));
    assert_call(
        rt,
        "Timeline::lookup",
        match &pieces {
            Ok(pieces) => pieces.len() == timeline.runs().len(),
            Err(_) => true,
        },
    );
    let mut meter = Meter::new();
    begin(rt, alloc);
    let hidden = end(rt, alloc, timeline.overshadowed(&mut meter));
    assert_call(
        rt,
        "Timeline::overshadowed",
        match &hidden {
            Ok(hidden) => hidden.len() == 1,
            Err(_) => true,
        },
    );
    begin(rt, alloc);
    let nodes = end(rt, alloc, timeline.served(segment.id()));
    assert_call(
        rt,
        "Timeline::served",
        match &nodes {
            Ok(nodes) => nodes.as_slice() == [0].as_slice(),
            Err(_) => true,
        },
    );
    begin(rt, alloc);
    let nodes = end(rt, alloc, timeline.replicas(segment.id()));
    assert_call(
        rt,
        "Timeline::replicas",
        match &nodes {
            Ok(nodes) => nodes.as_slice() == [0].as_slice(),
            Err(_) => true,
        },
    );
}

fn timeline_copies(rt: &impl Abort, alloc: Global, timeline: &Timeline) {
    let runs = timeline.runs().len();
    begin(rt, alloc);
    let copy = end(rt, alloc, timeline.try_clone());
    assert_call(
        rt,
        "Timeline::try_clone",
        match &copy {
            Ok(copy) => copy.runs().len() == runs,
            Err(_) => true,
        },
    );
    let copy = copy_of(rt, alloc, timeline);
    assert_call(
        rt,
        "Timeline::clone",
        match &copy {
            Ok(copy) => copy.runs().len() == runs,
            Err(_) => true,
        },
    );
}

// Edits within a transaction, of which the rest is taken back.
fn edit_in_transaction(
    rt: &impl Abort,
    alloc: Global,
    timeline: Timeline,
    segment: &Descriptor,
) -> Timeline {
    let mut meter = Meter::new();
    let mut edit = Transaction::begin(timeline);
    begin(rt, alloc);
    let removed = end(rt, alloc, edit.remove(segment.id(), 0, &mut meter));
    assert_call(
        rt,
        "timeline::Transaction::remove",
        match removed {
            Ok(()) => true,
            Err(fault) => fault == TimelineFault::Memory,
        },
    );
    begin(rt, alloc);
    let added = end(rt, alloc, edit.add(segment, 1, &mut meter));
    assert_call(
        rt,
        "timeline::Transaction::add",
        match added {
            Ok(()) => true,
            Err(fault) => fault == TimelineFault::Memory,
        },
    );
    let timeline = edit.roll_back();
    assert_call(
        rt,
        "then Transaction::roll_back",
        count(&timeline, segment) == 1,
    );
    timeline
}

fn partitions(rt: &impl Abort, alloc: Global) {
    let parts = vec![in alloc; 3_u16].expect(rt, "memory");
    begin(rt, alloc);
    let made = end(rt, alloc, Partitions::new(alloc, parts));
    assert_call(
        rt,
        "Partitions::new",
        match &made {
            Ok(parts) => parts.as_slice() == [3].as_slice(),
            Err(_) => true,
        },
    );
    if let Ok(parts) = &made {
        let copy = copy_of(rt, alloc, parts);
        assert_call(
            rt,
            "Partitions::clone",
            match &copy {
                Ok(copy) => copy.as_slice() == [3].as_slice(),
                Err(_) => true,
            },
        );
    }
}

// A timeline of `v0`, and of the first partition of `v1`.
fn timeline(rt: &impl Abort, alloc: Global) -> Timeline {
    let mut timeline = Timeline::new(alloc, name(rt, alloc));
    let mut meter = Meter::new();
    let older = Descriptor::new(segment(rt, alloc, "v0", 0), 1, 0).expect(rt, "a descriptor");
    timeline.add(&older, 0, &mut meter).expect(rt, "memory");
    let first = descriptor(rt, alloc, "v1", 0);
    timeline.add(&first, 0, &mut meter).expect(rt, "memory");
    timeline
}

#[test]
fn of_members(rt: HostRuntime) {
    let first = descriptor(&rt, rt.alloc(), "v1", 0);
    members(&rt, rt.alloc(), &first);
    chunks(&rt, rt.alloc(), &first);
}

#[test]
fn of_timelines(rt: HostRuntime) {
    let second = descriptor(&rt, rt.alloc(), "v1", 1);
    let mut timeline = timeline(&rt, rt.alloc());
    timeline_edits(&rt, rt.alloc(), &mut timeline, &second);
    timeline_reads(&rt, rt.alloc(), &timeline, &second);
    timeline_copies(&rt, rt.alloc(), &timeline);
    edit_in_transaction(&rt, rt.alloc(), timeline, &second);
    partitions(&rt, rt.alloc());
}
