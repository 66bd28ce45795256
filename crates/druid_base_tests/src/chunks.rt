//! Chunks of which segments are added and removed, and those that overlap a segment's.
use crate::tables::assert_rows;
use crate::timeline::{descriptor, push_version};
use druid_segment_descriptor::Descriptor;
use druid_timeline_chunks::Chunks;
use std::alloc::Global;
use std::fmt::Write;
use std::process::Abort;

// Segments that node 0 serves, each by interval, version, partition and core count, and a segment; beside them the
// complete chunks that overlap it, shorter ones first: an hour under days and a year, another day that only touches, a
// version of its own interval, its own chunk, and one that is not complete.
const OVERLAPS: &str =
    "2024-01-01/2024-01-02 v1 0 1,2024-01-01T10:00/2024-01-01T12:00 v2 0 1,2024-01-01/2025-01-01 v0 0 1,2024-01-02/2024-01-03 v1 0 1,2024-01-01/2024-01-02 v3 0 2?2024-01-01T11:00/2024-01-01T13:00 v9 0 1 = v2 2024-01-01T10:00:00.000Z/2024-01-01T12:00:00.000Z;v1 2024-01-01T00:00:00.000Z/2024-01-02T00:00:00.000Z;v0 2024-01-01T00:00:00.000Z/2025-01-01T00:00:00.000Z;
2024-01-01/2024-01-02 v1 0 1,2024-01-01/2024-01-02 v2 0 1,2024-01-01/2024-01-02 v2 1 1?2024-01-01/2024-01-02 v2 1 1 = v1 2024-01-01T00:00:00.000Z/2024-01-02T00:00:00.000Z;
2024-01-01/2024-01-02 v1 1 2,2024-01-01/2024-01-02 v1 0 2?2024-01-01T23:00/2024-01-02T01:00 v1 0 1 = v1 2024-01-01T00:00:00.000Z/2024-01-02T00:00:00.000Z;
2024-01-01/2024-01-02 v1 0 1?2024-01-02/2024-01-03 v1 0 1 = ";

// Adds a segment that node 0 serves, if it does not serve it yet.
fn add(rt: &impl Abort, chunks: &mut Chunks, descriptor: &Descriptor) {
    if !chunks.holds(descriptor.id(), 0) {
        chunks.add(descriptor, 0).expect(rt, "memory");
    }
}

// Removes it, if it serves it.
fn remove(rt: &impl Abort, chunks: &mut Chunks, descriptor: &Descriptor) {
    if chunks.holds(descriptor.id(), 0) {
        chunks.remove(descriptor.id(), 0).expect(rt, "memory");
    }
}

fn served(rt: &impl Abort, alloc: Global, rows: &str) -> Chunks {
    let mut chunks = Chunks::new(alloc);
    for row in rows.split(',') {
        add(rt, &mut chunks, &descriptor(rt, alloc, row));
    }
    chunks
}

// The chunks that overlap a segment's.
fn overlaps(rt: &impl Abort, alloc: Global, case: &str) -> String {
    let (rows, row) = case.split_once('?').expect(rt, "no segment");
    let chunks = served(rt, alloc, rows);
    let other = descriptor(rt, alloc, row);
    let mut reported = String::new(alloc);
    let part = other.id().interval();
    for key in &chunks.overlapping(other.id(), part).expect(rt, "memory") {
        push_version(rt, alloc, &mut reported, key);
        write!(reported, " {};", key.interval()).expect(rt, "memory");
    }
    reported
}

// Whether nothing is left once all that was added is removed, while a copy keeps it.
fn is_emptied(rt: &impl Abort, alloc: Global, case: &str) -> bool {
    let (rows, _) = case.split_once('?').expect(rt, "no segment");
    let mut chunks = served(rt, alloc, rows);
    let copy = chunks.clone().expect(rt, "memory");
    for row in rows.split(',') {
        remove(rt, &mut chunks, &descriptor(rt, alloc, row));
    }
    chunks.is_empty() && !copy.is_empty()
}

#[test]
fn chunks_that_overlap(rt: HostRuntime) {
    assert_rows(&rt, rt.alloc(), OVERLAPS, overlaps);
    for line in OVERLAPS.lines() {
        assert!(rt; is_emptied(&rt, rt.alloc(), line), "{line}");
    }
}
