//! Segments and changes as the rows of a table have them: a segment is the number of a partition of one chunk.
use druid_segment_descriptor::{Change, Descriptor, Mark};
use druid_segment_id::{Name, SegmentId, Version};
use druid_time::Interval;
use std::alloc::Global;
use std::fmt::{Debug, Write};
use std::process::Abort;
use std::str::FromStr;

/// What a word of a row says.
pub(crate) fn parsed<T: FromStr<Err: Debug + Drop>>(rt: &impl Abort, word: &str) -> T {
    word.parse().expect(rt, "another word")
}

/// A name.
pub(crate) fn name(rt: &impl Abort, alloc: Global, text: &str) -> Name {
    Name::new(alloc, text).expect(rt, "a name")
}

/// An interval.
pub(crate) fn interval(rt: &impl Abort, text: &str) -> Interval {
    Interval::parse(text).expect(rt, "an interval")
}

/// A segment of the source `wiki`.
pub(crate) fn segment(
    rt: &impl Abort,
    alloc: Global,
    chunk: &str,
    version: &str,
    partition: u16,
) -> SegmentId {
    let version = Version::new(alloc, version).expect(rt, "a version");
    SegmentId::new(
        name(rt, alloc, "wiki"),
        interval(rt, chunk),
        version,
        partition,
    )
}

/// A partition of a chunk of `wiki` that has so many core partitions.
pub(crate) fn member(rt: &impl Abort, alloc: Global, partition: u16, core: u16) -> Descriptor {
    let id = segment(rt, alloc, "2024-01-01/2024-01-02", "v1", partition);
    Descriptor::new(id, core, 7).expect(rt, "a descriptor")
}

/// A partition of a chunk of `wiki` that has no core partitions.
pub(crate) fn descriptor(rt: &impl Abort, alloc: Global, partition: u16) -> Descriptor {
    member(rt, alloc, partition, 0)
}

/// The segment of that number: of four chunks of `wiki`, a day each, of 50,000 partitions without core partitions.
pub(crate) fn numbered(rt: &impl Abort, alloc: Global, number: u32) -> Descriptor {
    let chunk = match number / 50_000 {
        0 => "2024-01-01/2024-01-02",
        1 => "2024-01-02/2024-01-03",
        2 => "2024-01-03/2024-01-04",
        3 => "2024-01-04/2024-01-05",
        _ => "2024-01-05/2024-01-06",
    };
    let id = segment(rt, alloc, chunk, "v1", (number % 50_000) as u16);
    Descriptor::new(id, 0, 7).expect(rt, "a descriptor")
}

/// The segments of the first numbers.
pub(crate) fn first_segments(rt: &impl Abort, alloc: Global, count: u32) -> Vec<Descriptor> {
    let mut segments = Vec::new(alloc);
    for number in 0..count {
        segments
            .push(numbered(rt, alloc, number))
            .expect(rt, "memory");
    }
    segments
}

/// Of `+3` the load of partition 3, and of `-3` the drop.
pub(crate) fn change(rt: &impl Abort, alloc: Global, text: &str) -> Change {
    match text.strip_prefix('+') {
        Some(partition) => Change::Load(descriptor(rt, alloc, parsed(rt, partition))),
        None => {
            let partition = text.strip_prefix('-').expect(rt, "no change");
            Change::Drop(descriptor(rt, alloc, parsed(rt, partition)))
        }
    }
}

/// A mark, as `1 5`.
pub(crate) fn mark_reported(rt: &impl Abort, alloc: Global, mark: Mark) -> String {
    format!(in alloc; "{} {}", mark.incarnation(), mark.count()).expect(rt, "memory")
}

/// Appends the partition of a segment, after this.
pub(crate) fn push_partition(
    rt: &impl Abort,
    reported: &mut String,
    sign: &str,
    segment: &Descriptor,
) {
    write!(reported, "{sign}{}", segment.id().partition()).expect(rt, "memory");
}

/// Appends the partitions of these segments, each after a blank.
pub(crate) fn push_partitions(rt: &impl Abort, reported: &mut String, segments: &[Descriptor]) {
    for segment in segments {
        push_partition(rt, reported, " ", segment);
    }
}
