use crate::rows::{name, parsed, segment};
use crate::tables::{assert_printed, assert_reported, assert_rows, printed};
use druid_segment_id::{IdFault, Name, SegmentId, Version};
use std::alloc::Global;
use std::process::Abort;

// Names, or the fault of a text that is none. The last two have 100 and 101 letters, with a digit at each tenth.
const NAMES: &str = "wiki = wiki
A-z_0.9 = A-z_0.9
 = I1: not a name
a b = I1: not a name
a/b = I1: not a name
a:b = I1: not a name
é = I1: not a name
abcdefghi1abcdefghi2abcdefghi3abcdefghi4abcdefghi5abcdefghi6abcdefghi7abcdefghi8abcdefghi9abcdefghi0 = abcdefghi1abcdefghi2abcdefghi3abcdefghi4abcdefghi5abcdefghi6abcdefghi7abcdefghi8abcdefghi9abcdefghi0
abcdefghi1abcdefghi2abcdefghi3abcdefghi4abcdefghi5abcdefghi6abcdefghi7abcdefghi8abcdefghi9abcdefghi0a = I1: not a name";

// Versions, or the fault of a text that is none. The last two have 64 and 65 letters.
const VERSIONS: &str = "v1 = v1
2024-01-01T00:00:00.000Z = 2024-01-01T00:00:00.000Z
 = I2: not a version
a_b = I2: not a version
a/b = I2: not a version
a\"b = I2: not a version
a\\b = I2: not a version
a b = I2: not a version
v\u{7f} = I2: not a version
é = I2: not a version
abcdefghi1abcdefghi2abcdefghi3abcdefghi4abcdefghi5abcdefghi6abcd = abcdefghi1abcdefghi2abcdefghi3abcdefghi4abcdefghi5abcdefghi6abcd
abcdefghi1abcdefghi2abcdefghi3abcdefghi4abcdefghi5abcdefghi6abcde = I2: not a version";

// Version and partition of segments of `wiki` of 2024-01-01, and their texts.
const IDENTIFIERS: &str = "v1 0 = wiki_2024-01-01T00:00:00.000Z_2024-01-02T00:00:00.000Z_v1
v1 3 = wiki_2024-01-01T00:00:00.000Z_2024-01-02T00:00:00.000Z_v1_3";

// A source and a text, and the version and the partition that are read there, or the fault.
const READ: &str = "wiki wiki_2024-01-01T00:00:00.000Z_2024-01-02T00:00:00.000Z_v1 = v1 0
wiki wiki_2024-01-01T00:00:00.000Z_2024-01-02T00:00:00.000Z_v1_3 = v1 3
wiki wiki_2024-01-01T00:00:00.000Z_2024-01-02T00:00:00.000Z_v1_65535 = v1 65535
wiki wiki_2024-01-01T00:00:00.000Z_2024-01-02T00:00:00.000Z_v1_0 = I6: not a partition number
wiki wiki_2024-01-01T00:00:00.000Z_2024-01-02T00:00:00.000Z_v1_03 = I6: not a partition number
wiki wiki_2024-01-01T00:00:00.000Z_2024-01-02T00:00:00.000Z_v1_+3 = I6: not a partition number
wiki wiki_2024-01-01T00:00:00.000Z_2024-01-02T00:00:00.000Z_v1_3_4 = I6: not a partition number
wiki wiki_2024-01-01T00:00:00.000Z_2024-01-02T00:00:00.000Z_v1_ = I6: not a partition number
wiki wiki_2024-01-01T00:00:00.000Z_2024-01-02T00:00:00.000Z_v1_é = I6: not a partition number
wiki wiki_2024-01-01T00:00:00.000Z_2024-01-02T00:00:00.000Z_v1_65536 = I6: not a partition number
wiki wiki_2024-01-01T00:00:00.000Z_2024-01-02T00:00:00.000Z__3 = I2: not a version
wiki wiki_2024-01-01T00:00:00.000Z_2024-01-02T00:00:00.000Z_é = I2: not a version
wiki wiki_2024-01-01T00:00:00.000Z_2024-01-02T00:00:00.000Z_ = I4: not the parts of an identifier
wiki wiki_2024-01-02T00:00:00.000Z_2024-01-01T00:00:00.000Z_v1 = I5: not an interval
wiki wiki_2024-02-30T00:00:00.000Z_2024-03-02T00:00:00.000Z_v1 = I5: not an interval
wiki wiki_2024-01-01T00:00:00.000é_2024-01-02T00:00:00.000Z_v1 = I4: not the parts of an identifier
wiki wiki_2024-01-01_2024-01-02_v1 = I4: not the parts of an identifier
wiki wiki2024-01-01T00:00:00.000Z_2024-01-02T00:00:00.000Z_v1 = I3: another source
wiki wiki = I3: another source
a_b a_b_2024-01-01T00:00:00.000Z_2024-01-02T00:00:00.000Z_v1 = v1 0
a a_b_2024-01-01T00:00:00.000Z_2024-01-02T00:00:00.000Z_v1 = I4: not the parts of an identifier
b a_b_2024-01-01T00:00:00.000Z_2024-01-02T00:00:00.000Z_v1 = I3: another source";

fn name_reported(rt: &impl Abort, alloc: Global, text: &str) -> String {
    match Name::new(alloc, text) {
        Ok(name) => {
            let copy = name.clone().expect(rt, "memory");
            copy.text(alloc).expect(rt, "memory")
        }
        Err(fault) => printed(rt, alloc, &fault),
    }
}

fn version_reported(rt: &impl Abort, alloc: Global, text: &str) -> String {
    match Version::new(alloc, text) {
        Ok(version) => {
            let copy = version.clone().expect(rt, "memory");
            copy.text(alloc).expect(rt, "memory")
        }
        Err(fault) => printed(rt, alloc, &fault),
    }
}

fn segment_of(rt: &impl Abort, alloc: Global, parts: &str) -> SegmentId {
    let (version, partition) = parts.split_once(' ').expect(rt, "no version");
    let partition = parsed(rt, partition);
    segment(rt, alloc, "2024-01-01/2024-01-02", version, partition)
}

fn text_of(rt: &impl Abort, alloc: Global, parts: &str) -> String {
    let copy = segment_of(rt, alloc, parts).clone().expect(rt, "memory");
    copy.text(alloc).expect(rt, "memory")
}

// The version and the partition.
fn parts_reported(rt: &impl Abort, alloc: Global, id: &SegmentId) -> String {
    let version = id.version().text(alloc).expect(rt, "memory");
    format!(in alloc; "{version} {}", id.partition()).expect(rt, "memory")
}

fn read(rt: &impl Abort, alloc: Global, row: &str) -> Result<SegmentId, IdFault> {
    let (source, text) = row.split_once(' ').expect(rt, "no source");
    SegmentId::parse(alloc, &name(rt, alloc, source), text)
}

fn read_reported(rt: &impl Abort, alloc: Global, row: &str) -> String {
    match read(rt, alloc, row) {
        Ok(id) => parts_reported(rt, alloc, &id),
        Err(fault) => printed(rt, alloc, &fault),
    }
}

fn version_of_group(rt: &impl Abort, alloc: Global, parts: &str) -> String {
    let group = segment_of(rt, alloc, parts).group().expect(rt, "memory");
    let copy = group.clone().expect(rt, "memory");
    copy.version().text(alloc).expect(rt, "memory")
}

#[test]
fn names(rt: HostRuntime) {
    assert_rows(&rt, rt.alloc(), NAMES, name_reported);
}

#[test]
fn versions(rt: HostRuntime) {
    assert_rows(&rt, rt.alloc(), VERSIONS, version_reported);
}

#[test]
fn identifiers(rt: HostRuntime) {
    assert_rows(&rt, rt.alloc(), IDENTIFIERS, text_of);
    assert_rows(&rt, rt.alloc(), READ, read_reported);
    let version = version_of_group(&rt, rt.alloc(), "v1 3");
    assert_reported(&rt, "the group", version, "v1");
}

#[test]
fn faults_print_as_these_texts(rt: HostRuntime) {
    let rows = [
        (IdFault::OtherSource, "I3: another source"),
        (IdFault::BadParts, "I4: not the parts of an identifier"),
        (IdFault::BadInterval, "I5: not an interval"),
        (IdFault::BadPartition, "I6: not a partition number"),
        (IdFault::Memory, "I9: out of memory"),
    ];
    assert_printed(&rt, rt.alloc(), &rows);
}
