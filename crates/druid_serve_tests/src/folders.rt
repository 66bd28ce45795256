//! Folders with files of segments.
use crate::host::Host;
use druid_segment_descriptor::Descriptor;
use druid_segment_file::write_segment;
use druid_segment_id::{Name, SegmentId, Version};
use druid_segment_rows::{Row, Schema, Segment};
use druid_time::{Instant, Interval};
use std::alloc::Global;
use std::path::{Path, PathBuf};
use std::process::Abort;
use std::rt::Files;
use std::{env, fs};

// The descriptor of a segment of the source `wiki`, the part of that number of its interval.
fn descriptor(
    rt: &impl Abort,
    alloc: Global,
    version: &str,
    interval: &str,
    part: u16,
) -> Descriptor {
    let name = Name::new(alloc, "wiki").expect(rt, "a name");
    let interval = Interval::parse(interval).expect(rt, "an interval");
    let version = Version::new(alloc, version).expect(rt, "a version");
    let id = SegmentId::new(name, interval, version, part);
    Descriptor::new(id, 1, 0).expect(rt, "a descriptor")
}

fn row(rt: &impl Abort, alloc: Global, instant: &str) -> Row {
    let time = Instant::parse(instant).expect(rt, "an instant");
    Row::new(time, Vec::new(alloc), Vec::new(alloc))
}

// A segment of the source `wiki` on the first day of 2024, or on a part of it, with a row at each of these instants.
fn segment(
    rt: &impl Abort,
    alloc: Global,
    version: &str,
    interval: &str,
    instants: &str,
) -> Segment {
    let descriptor = descriptor(rt, alloc, version, interval, 0);
    let schema = Schema::new(Vec::new(alloc), Vec::new(alloc));
    let mut rows = Vec::new(alloc);
    for instant in instants.split(' ') {
        rows.push(row(rt, alloc, instant)).expect(rt, "memory");
    }
    Segment::new(alloc, descriptor, schema, rows).expect(rt, "a segment")
}

/// The file of the older segment.
pub(crate) const OLDER_FILE: &str = "wiki_2024-01-01T00:00:00.000Z_2024-01-02T00:00:00.000Z_v1.seg";

/// The file of the newer segment.
pub(crate) const NEWER_FILE: &str = "wiki_2024-01-01T10:00:00.000Z_2024-01-01T12:00:00.000Z_v2.seg";

/// The file of a segment of the next day.
pub(crate) const LATER_FILE: &str = "wiki_2024-01-02T00:00:00.000Z_2024-01-03T00:00:00.000Z_v1.seg";

// The segment of a file.
fn segment_of(rt: &impl Abort, alloc: Global, name: &str) -> Segment {
    if name == OLDER_FILE {
        return segment(
            rt,
            alloc,
            "v1",
            "2024-01-01/2024-01-02",
            "2024-01-01T09:59:59.999 2024-01-01T10:00 2024-01-01T11:59:59.999 2024-01-01T12:00",
        );
    }
    if name == LATER_FILE {
        return segment(rt, alloc, "v1", "2024-01-02/2024-01-03", "2024-01-02");
    }
    segment(
        rt,
        alloc,
        "v2",
        "2024-01-01T10:00/2024-01-01T12:00",
        "2024-01-01T10:00 2024-01-01T11:00 2024-01-01T11:59:59.999",
    )
}

fn bytes_of(rt: &impl Abort, alloc: Global, segment: &Segment) -> Vec<u8> {
    let mut written = Vec::new(alloc);
    write_segment(alloc, segment, &mut written).expect(rt, "a file");
    written
}

/// The bytes of a file.
pub(crate) fn file_bytes(rt: &impl Abort, alloc: Global, name: &str) -> Vec<u8> {
    bytes_of(rt, alloc, &segment_of(rt, alloc, name))
}

/// The bytes of a file that has the identifier of the older segment and one row alone, outside the newer one.
pub(crate) fn fewer_bytes(rt: &impl Abort, alloc: Global) -> Vec<u8> {
    let day = "2024-01-01/2024-01-02";
    bytes_of(
        rt,
        alloc,
        &segment(rt, alloc, "v1", day, "2024-01-01T12:00"),
    )
}

/// The bytes of a file that has the identifier of the newer segment, and a row at each end of its hours.
pub(crate) fn edge_bytes(rt: &impl Abort, alloc: Global) -> Vec<u8> {
    let hours = "2024-01-01T10:00/2024-01-01T12:00";
    let rows = "2024-01-01T10:00 2024-01-01T11:59:59.999";
    bytes_of(rt, alloc, &segment(rt, alloc, "v2", hours, rows))
}

/// The file of a segment of another day, whose rows all have the same text of a thousand bytes.
pub(crate) const LONG_FILE: &str = "wiki_2024-02-01T00:00:00.000Z_2024-02-02T00:00:00.000Z_v1.seg";

// What stands in it before its rows, by columns: one dimension `d`, and as many rows as that.
const LONG_HEAD: &[u8] =
    b"DSG2\x04wiki\0\0\x01\x8d\x61\xf7\x18\0\0\0\x01\x8d\x67\x1d\x74\0\x02v1\0\0\0\x01\0\0\0\0\0\0\0\0\x01\x01d\0\0\0\x17\x70";

const LONG_ROWS: u64 = 6_000;

// The start of its interval, in milliseconds.
const LONG_START: u64 = 1_706_745_600_000;

/// The bytes of the file of long texts: a row at each second from the start, so that an answer by the second is of 6 MB.
pub(crate) fn long_bytes(rt: &impl Abort, alloc: Global) -> Vec<u8> {
    let mut bytes = Vec::new(alloc);
    let mut codes = Vec::new(alloc);
    bytes.extend_from_slice(LONG_HEAD).expect(rt, "memory");
    let mut time = LONG_START;
    for _ in 0..LONG_ROWS {
        bytes
            .extend_from_slice(&time.to_be_bytes())
            .expect(rt, "memory");
        codes.extend_from_slice(&[0, 0, 0, 1]).expect(rt, "memory");
        time = time.saturating_add(1_000);
    }
    let text = "x".repeat(alloc, 1_000).expect(rt, "memory");
    for part in [&[0, 0, 0, 1, 3, 232], text.as_bytes(), codes.as_slice()] {
        bytes.extend_from_slice(part).expect(rt, "memory");
    }
    bytes
}

/// Puts a file into a folder.
pub(crate) fn put<R: Files + Abort>(rt: &R, alloc: Global, folder: &str, name: &str, bytes: &[u8]) {
    let path = Path::new(folder).join(alloc, name).expect(rt, "memory");
    fs::write(rt, path.as_path(), bytes).expect(rt, "a file");
}

// How many folders of one name there may be: what a run that was ended left.
const MAX_LEFT: u64 = 1_000;

// The path of the folder of that name and number.
fn numbered(rt: &impl Abort, alloc: Global, top: &PathBuf, name: &str, number: u64) -> PathBuf {
    let name = format!(in alloc; "{name}_{number}").expect(rt, "memory");
    top.join(alloc, name.as_str()).expect(rt, "memory")
}

/// A new folder, whose name begins so.
pub(crate) fn fresh_folder<R: Host>(rt: &R, alloc: Global, name: &str) -> String {
    let top = env::temp_dir(rt).expect(rt, "a folder");
    for number in 0..MAX_LEFT {
        let path = numbered(rt, alloc, &top, name, number);
        if fs::create_dir(rt, path.as_path()).is_ok() {
            return String::from_str(alloc, path.as_str()).expect(rt, "memory");
        }
    }
    panic!(rt; "no folder")
}

// A segment of one row, the part of that number of its day.
fn part(rt: &impl Abort, alloc: Global, number: u16) -> Segment {
    let descriptor = descriptor(rt, alloc, "v1", "2024-01-01/2024-01-02", number);
    let schema = Schema::new(Vec::new(alloc), Vec::new(alloc));
    let rows = vec![in alloc; row(rt, alloc, "2024-01-01")].expect(rt, "memory");
    Segment::new(alloc, descriptor, schema, rows).expect(rt, "a segment")
}

/// Puts the file of the part of that number into a folder.
pub(crate) fn put_part<R: Files + Abort>(rt: &R, alloc: Global, folder: &str, number: u16) {
    let segment = part(rt, alloc, number);
    let id = segment.descriptor().id().text(alloc).expect(rt, "memory");
    let name = format!(in alloc; "{id}.seg").expect(rt, "memory");
    put(
        rt,
        alloc,
        folder,
        name.as_str(),
        &bytes_of(rt, alloc, &segment),
    );
}

/// Puts the files of so many parts of a day into a folder.
pub(crate) fn put_parts<R: Files + Abort>(rt: &R, alloc: Global, folder: &str, count: u16) {
    for number in 0..count {
        put_part(rt, alloc, folder, number);
    }
}
