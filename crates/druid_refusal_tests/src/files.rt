//! Files of segments, of both layouts.
use crate::data::segment;
use crate::marks::{assert_call, begin, end};
use druid_segment_file::{FileFault, read_segment, segment_of, write_columns, write_segment};
use druid_segment_rows::Segment;
use std::alloc::Global;
use std::process::Abort;

// Whether a writing wrote all of a text, or was refused memory when it had written a front of it.
fn is_front(wrote: Result<(), FileFault>, bytes: &[u8], whole: &[u8]) -> bool {
    match wrote {
        Ok(()) => bytes == whole,
        Err(fault) => fault == FileFault::Memory && whole.starts_with(bytes),
    }
}

// The bytes of a segment's file, row by row.
fn write_rows(rt: &impl Abort, alloc: Global, segment: &Segment) -> Vec<u8> {
    let mut whole = Vec::new(alloc);
    write_segment(alloc, segment, &mut whole).expect(rt, "memory");
    let mut bytes = Vec::with_capacity(alloc, 10_000).expect(rt, "memory");
    begin(rt, alloc);
    let wrote = end(rt, alloc, write_segment(alloc, segment, &mut bytes));
    assert_call(rt, "write_segment", is_front(wrote, &bytes, &whole));
    whole
}

// The same by columns.
fn write_in_columns(rt: &impl Abort, alloc: Global, segment: &Segment) {
    let mut whole = Vec::new(alloc);
    write_columns(alloc, segment, &mut whole).expect(rt, "memory");
    let mut bytes = Vec::with_capacity(alloc, 10_000).expect(rt, "memory");
    begin(rt, alloc);
    let wrote = end(rt, alloc, write_columns(alloc, segment, &mut bytes));
    assert_call(rt, "write_columns", is_front(wrote, &bytes, &whole));
}

fn files(rt: &impl Abort, alloc: Global, bytes: &[u8]) {
    begin(rt, alloc);
    let read = end(rt, alloc, segment_of(alloc, bytes));
    assert_call(
        rt,
        "segment_of",
        match &read {
            Ok(segment) => segment.len() == 2,
            Err(fault) => *fault == FileFault::Memory,
        },
    );
    let mut reader = bytes;
    begin(rt, alloc);
    let read = end(rt, alloc, read_segment(alloc, &mut reader));
    assert_call(
        rt,
        "read_segment",
        match &read {
            Ok(segment) => segment.len() == 2,
            Err(fault) => *fault == FileFault::Memory,
        },
    );
}

#[test]
fn of_files(rt: HostRuntime) {
    let segment = segment(&rt, rt.alloc());
    write_in_columns(&rt, rt.alloc(), &segment);
    let bytes = write_rows(&rt, rt.alloc(), &segment);
    files(&rt, rt.alloc(), &bytes);
}
