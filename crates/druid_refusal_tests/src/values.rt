//! Instants, identifiers, descriptors and replies.
use crate::marks::{assert_call, begin, copy_of, end};
use crate::texts::prints;
use druid_segment_descriptor::{Body, Change, Descriptor, Mark, Reply, ReplyFault};
use druid_segment_id::{GroupKey, IdFault, Name, SegmentId, Version};
use druid_segment_text::{ShardFault, descriptor_value, read_descriptor};
use druid_time::{Interval, IntervalSet};
use std::alloc::Global;
use std::process::Abort;

/// An interval.
pub(crate) fn interval(rt: &impl Abort, text: &str) -> Interval {
    Interval::parse(text).expect(rt, "an interval")
}

/// The first day of 2024.
pub(crate) fn day(rt: &impl Abort) -> Interval {
    interval(rt, "2024-01-01/2024-01-02")
}

/// The name `w`.
pub(crate) fn name(rt: &impl Abort, alloc: Global) -> Name {
    Name::new(alloc, "w").expect(rt, "a name")
}

/// A segment of `w` on the first day of 2024.
pub(crate) fn segment(rt: &impl Abort, alloc: Global, version: &str, partition: u16) -> SegmentId {
    let version = Version::new(alloc, version).expect(rt, "a version");
    SegmentId::new(name(rt, alloc), day(rt), version, partition)
}

/// Its descriptor, of a chunk that has two core partitions.
pub(crate) fn descriptor(
    rt: &impl Abort,
    alloc: Global,
    version: &str,
    partition: u16,
) -> Descriptor {
    Descriptor::new(segment(rt, alloc, version, partition), 2, 7).expect(rt, "a descriptor")
}

const TEXT: &str = "w_2024-01-01T00:00:00.000Z_2024-01-02T00:00:00.000Z_v1_3";

fn times(rt: &impl Abort, alloc: Global) {
    let day = day(rt);
    begin(rt, alloc);
    let text = end(rt, alloc, day.text(alloc));
    assert_call(
        rt,
        "Interval::text",
        match &text {
            Ok(text) => text.as_str() == "2024-01-01T00:00:00.000Z/2024-01-02T00:00:00.000Z",
            Err(_) => true,
        },
    );
    begin(rt, alloc);
    let set = end(rt, alloc, IntervalSet::of(alloc, &[day, day]));
    assert_call(
        rt,
        "IntervalSet::of",
        match &set {
            Ok(set) => set.parts() == [day].as_slice(),
            Err(_) => true,
        },
    );
}

fn names(rt: &impl Abort, alloc: Global) {
    begin(rt, alloc);
    let made = end(rt, alloc, Name::new(alloc, "w"));
    assert_call(
        rt,
        "Name::new",
        match &made {
            Ok(name) => name.as_str() == "w",
            Err(fault) => *fault == IdFault::Memory,
        },
    );
    let name = name(rt, alloc);
    begin(rt, alloc);
    let text = end(rt, alloc, name.text(alloc));
    assert_call(
        rt,
        "Name::text",
        match &text {
            Ok(text) => text.as_str() == "w",
            Err(_) => name.as_str() == "w",
        },
    );
    let copy = copy_of(rt, alloc, &name);
    assert_call(
        rt,
        "Name::clone",
        match &copy {
            Ok(copy) => *copy == name,
            Err(_) => name.as_str() == "w",
        },
    );
}

fn versions(rt: &impl Abort, alloc: Global) {
    begin(rt, alloc);
    let made = end(rt, alloc, Version::new(alloc, "v1"));
    assert_call(
        rt,
        "Version::new",
        match &made {
            Ok(version) => version.len() == 2,
            Err(fault) => *fault == IdFault::Memory,
        },
    );
    let version = Version::new(alloc, "v1").expect(rt, "a version");
    begin(rt, alloc);
    let text = end(rt, alloc, version.text(alloc));
    assert_call(
        rt,
        "Version::text",
        match &text {
            Ok(text) => text.as_str() == "v1",
            Err(_) => true,
        },
    );
    let copy = copy_of(rt, alloc, &version);
    assert_call(
        rt,
        "Version::clone",
        match &copy {
            Ok(copy) => *copy == version,
            Err(_) => version.len() == 2,
        },
    );
}

fn identifier_texts(rt: &impl Abort, alloc: Global, id: &SegmentId) {
    let name = name(rt, alloc);
    begin(rt, alloc);
    let read = end(rt, alloc, SegmentId::parse(alloc, &name, TEXT));
    assert_call(
        rt,
        "SegmentId::parse",
        match &read {
            Ok(read) => *read == *id,
            Err(fault) => *fault == IdFault::Memory,
        },
    );
    begin(rt, alloc);
    let text = end(rt, alloc, id.text(alloc));
    assert_call(
        rt,
        "SegmentId::text",
        match &text {
            Ok(text) => text.as_str() == TEXT,
            Err(_) => true,
        },
    );
}

fn identifiers(rt: &impl Abort, alloc: Global, id: &SegmentId) {
    let copy = copy_of(rt, alloc, id);
    assert_call(
        rt,
        "SegmentId::clone",
        match &copy {
            Ok(copy) => *copy == *id,
            Err(_) => id.partition() == 3,
        },
    );
    begin(rt, alloc);
    let group = end(rt, alloc, id.group());
    assert_call(
        rt,
        "SegmentId::group",
        match &group {
            Ok(group) => *group.version() == *id.version(),
            Err(_) => true,
        },
    );
}

fn groups(rt: &impl Abort, alloc: Global, group: &GroupKey) {
    let copy = copy_of(rt, alloc, group);
    assert_call(
        rt,
        "GroupKey::clone",
        match &copy {
            Ok(copy) => *copy == *group,
            Err(_) => true,
        },
    );
}

// The descriptor as it is written.
const DESCRIPTOR_TEXT: &str =
    "{\"dataSource\":\"w\",\"interval\":\"2024-01-01T00:00:00.000Z/2024-01-02T00:00:00.000Z\",\"shardSpec\":{\"partitionNum\":0,\"partitions\":2,\"type\":\"numbered\"},\"size\":7,\"version\":\"v1\"}";

// Whether a reply is the delta of one change that was asked for.
fn is_delta(reply: &Reply) -> bool {
    match reply.body() {
        Body::Delta { from, to, changes } => {
            *from == Mark::new(1, 5) && *to == Mark::new(1, 6) && changes.as_slice().len() == 1
        }
        _ => false,
    }
}

// Whether it is the snapshot of two segments.
fn is_snapshot(reply: &Reply) -> bool {
    match reply.body() {
        Body::Snapshot { at, segments } => *at == Mark::new(1, 5) && segments.as_slice().len() == 2,
        _ => false,
    }
}

fn descriptors(rt: &impl Abort, alloc: Global, descriptor: &Descriptor) {
    let copy = copy_of(rt, alloc, descriptor);
    assert_call(
        rt,
        "Descriptor::clone",
        match &copy {
            Ok(copy) => *copy == *descriptor,
            Err(_) => true,
        },
    );
    begin(rt, alloc);
    let value = end(rt, alloc, descriptor_value(alloc, descriptor));
    assert_call(
        rt,
        "descriptor_value",
        prints(rt, alloc, &value, DESCRIPTOR_TEXT),
    );
    let value = descriptor_value(alloc, descriptor).expect(rt, "memory");
    begin(rt, alloc);
    let read = end(rt, alloc, read_descriptor(alloc, &value));
    assert_call(
        rt,
        "read_descriptor",
        match &read {
            Ok(read) => *read == *descriptor,
            Err(fault) => *fault == ShardFault::Memory,
        },
    );
}

fn changes(rt: &impl Abort, alloc: Global) {
    let change = Change::Load(descriptor(rt, alloc, "v1", 0));
    let copy = copy_of(rt, alloc, &change);
    assert_call(
        rt,
        "Change::clone",
        match &copy {
            Ok(copy) => matches!(copy, Change::Load(_)),
            Err(_) => true,
        },
    );
    let changes = vec![in alloc; change].expect(rt, "memory");
    begin(rt, alloc);
    let made = end(
        rt,
        alloc,
        Reply::delta(Mark::new(1, 5), Mark::new(1, 6), changes),
    );
    assert_call(
        rt,
        "Reply::delta",
        match &made {
            Ok(reply) => is_delta(reply),
            Err(fault) => *fault == ReplyFault::Memory,
        },
    );
}

fn snapshots(rt: &impl Abort, alloc: Global) {
    let (first, second) = (
        descriptor(rt, alloc, "v2", 0),
        descriptor(rt, alloc, "v1", 1),
    );
    let segments = vec![in alloc; first, second].expect(rt, "memory");
    begin(rt, alloc);
    let made = end(rt, alloc, Reply::snapshot(Mark::new(1, 5), segments));
    assert_call(
        rt,
        "Reply::snapshot",
        match &made {
            Ok(reply) => is_snapshot(reply),
            Err(fault) => *fault == ReplyFault::Memory,
        },
    );
}

#[test]
fn of_times_and_names(rt: HostRuntime) {
    times(&rt, rt.alloc());
    names(&rt, rt.alloc());
    versions(&rt, rt.alloc());
}

#[test]
fn of_identifiers(rt: HostRuntime) {
    let id = segment(&rt, rt.alloc(), "v1", 3);
    identifier_texts(&rt, rt.alloc(), &id);
    identifiers(&rt, rt.alloc(), &id);
    groups(&rt, rt.alloc(), &id.group().expect(&rt, "memory"));
}

#[test]
fn of_descriptors(rt: HostRuntime) {
    descriptors(&rt, rt.alloc(), &descriptor(&rt, rt.alloc(), "v1", 0));
    changes(&rt, rt.alloc());
    snapshots(&rt, rt.alloc());
}
