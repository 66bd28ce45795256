//! Segment files by columns, beside the same segments by rows: each is spelled by another program or by plain loops.
use crate::kinds::KINDS;
use crate::segfile::{bytes_of, extend, letters, read, wide};
use druid_segment_file::{FileFault, write_columns, write_segment};
use druid_segment_rows::{Segment, Texts};
use std::alloc::Global;
use std::io::{Error, ErrorKind, Result as IoResult, Write};
use std::process::Abort;

// What stands between the name of the layout and the fields: the source `w`, the first day of 1970, and version `v`.
const HEAD: &str = "017700000000000000000000000005265c000176000000010000000000000000";

// Segments, spelled by another program: the fields and the number of rows, what follows by rows, and what by columns. No
// rows; nulls, empty texts, texts that stand twice, `é`, and the least and the greatest number; no dimensions; no metrics;
// neither.
fn spelled() -> &'static str {
    "020164016501016d00000000  0000000000000000
020164016502016d016e00000004 00000000000003e8010001620001800000000000000000000000000000000001000161010000017fffffffffffffff000000000005265bff00010002c3a9000000000000000003e80100016201000001ffffffffffffffff00 00000000000003e800000000000000000000000005265bff00000000000003e800000002000161000162000000020000000100000000000000020000000200000002c3a9000000000000000100000002000000010101000180000000000000007fffffffffffffffffffffffffffffff00000000
0001016d00000002 00000000000003e8010000000000000005000000000000000000 00000000000003e8000000000000000001000000000000000005
0101640000000002 000000000000000001000178000000000000000100 00000000000000000000000000000001000000010001780000000100000000
000000000002 00000000000000000000000005265bff 00000000000000000000000005265bff"
}

// The texts and the codes of the two dimensions of the second.
const BORROWED: [(usize, [&str; 2], [u32; 4]); 2] = [
    (0, ["a", "b"], [2, 1, 0, 2]),
    (1, ["", "\u{e9}"], [0, 1, 2, 1]),
];

fn segment(rt: &impl Abort, alloc: Global, bytes: &[u8]) -> Segment {
    read(alloc, bytes).expect(rt, "a segment")
}

fn in_rows(rt: &impl Abort, alloc: Global, segment: &Segment) -> Vec<u8> {
    let mut bytes = Vec::new(alloc);
    write_segment(alloc, segment, &mut bytes).expect(rt, "a written file");
    bytes
}

fn in_columns(rt: &impl Abort, alloc: Global, segment: &Segment) -> Vec<u8> {
    let mut bytes = Vec::new(alloc);
    write_columns(alloc, segment, &mut bytes).expect(rt, "a written file");
    bytes
}

// Whether the two files spell one segment: what is read of each is written as the other.
fn is_one_segment(rt: &impl Abort, alloc: Global, rows: &[u8], columns: &[u8]) -> bool {
    in_columns(rt, alloc, &segment(rt, alloc, rows)).as_slice() == columns
        && in_rows(rt, alloc, &segment(rt, alloc, columns)).as_slice() == rows
}

fn file(rt: &impl Abort, alloc: Global, layout: &[u8], fields: &str, rest: &str) -> Vec<u8> {
    let mut bytes = Vec::new(alloc);
    let head = bytes_of(rt, alloc, HEAD);
    let fields = bytes_of(rt, alloc, fields);
    let rest = bytes_of(rt, alloc, rest);
    extend(rt, &mut bytes, &[layout, &head, &fields, &rest]);
    bytes
}

fn is_spelled(rt: &impl Abort, alloc: Global, line: &str) -> bool {
    let mut parts = line.split(' ');
    let fields = parts.next().expect(rt, "fields");
    let rows = parts.next().expect(rt, "rows");
    let columns = parts.next().expect(rt, "columns");
    let rows = file(rt, alloc, b"DSG1", fields, rows);
    let columns = file(rt, alloc, b"DSG2", fields, columns);
    is_one_segment(rt, alloc, &rows, &columns)
}

#[test]
fn both_layouts(rt: HostRuntime) {
    for line in spelled().lines() {
        assert!(rt; is_spelled(&rt, rt.alloc(), line), "{line}");
    }
}

fn are_texts(found: &Texts, texts: &[&str]) -> bool {
    if found.len() != texts.len() {
        return false;
    }
    for place in 0..texts.len() {
        if found.get(place) != texts[place] {
            return false;
        }
    }
    true
}

// Whether a segment has these texts and codes.
fn borrows(segment: &Segment, place: usize, texts: &[&str], codes: &[u32]) -> bool {
    if place >= segment.schema().dimensions().len() {
        return false;
    }
    segment.codes(place) == codes && are_texts(segment.values(place), texts)
}

// The second of the segments above, in a layout.
fn second(rt: &impl Abort, alloc: Global, layout: &[u8], part: usize) -> Segment {
    let line = spelled().lines().nth(1).expect(rt, "a line");
    let fields = line.split(' ').next().expect(rt, "fields");
    let rest = line.split(' ').nth(part).expect(rt, "a part");
    segment(rt, alloc, &file(rt, alloc, layout, fields, rest))
}

#[test]
fn texts_and_codes(rt: HostRuntime) {
    let rows = second(&rt, rt.alloc(), b"DSG1", 1);
    let columns = second(&rt, rt.alloc(), b"DSG2", 2);
    for (place, texts, codes) in &BORROWED {
        assert!(rt; borrows(&rows, *place, texts, codes), "{place}");
        assert!(rt; borrows(&columns, *place, texts, codes), "{place}");
    }
}

// The columns of one row and 64 dimensions, of which every second one is null: what follows the front of `wide`.
fn wide_columns(rt: &impl Abort, alloc: Global, rows: &[u8]) -> Vec<u8> {
    let mut bytes = Vec::new(alloc);
    extend(rt, &mut bytes, &[b"DSG2", &rows[4.min(rows.len())..]]);
    bytes.truncate(244);
    for _ in 0..32u32 {
        extend(rt, &mut bytes, &[b"\0\0\0\x01\0\x01x\0\0\0\x01", &[0; 8]]);
    }
    extend(rt, &mut bytes, &[&[1, 0, 0, 0, 0, 0, 0, 0, 5]]);
    bytes
}

#[test]
fn many_dimensions(rt: HostRuntime) {
    let rows = wide(&rt, rt.alloc(), 64);
    let columns = wide_columns(&rt, rt.alloc(), &rows);
    assert!(rt; is_one_segment(&rt, rt.alloc(), &rows, &columns));
}

// Rows at 1,000 without a number, of one dimension: its texts, and a code for each row.
#[derive(Drop)]
struct Table {
    texts: Vec<Vec<u8>>,
    codes: Vec<u32>,
}

// So many rows, whose codes go on by a step, below a limit.
#[derive(Clone, Copy)]
struct Run {
    rows: u32,
    first: u32,
    step: u32,
    limit: u32,
}

// A table: twice so many texts of so many letters after two bytes that make them rise, and two runs of rows.
#[derive(Clone, Copy)]
struct Shape {
    texts: [(u32, usize); 2],
    runs: [Run; 2],
}

const TIME: [u8; 8] = [0, 0, 0, 0, 0, 0, 3, 232];

fn push_text(rt: &impl Abort, alloc: Global, texts: &mut Vec<Vec<u8>>, count: usize) {
    let place = texts.len();
    let mut text = Vec::new(alloc);
    let number = [(place / 128 % 256) as u8, (place % 128) as u8];
    let letters = letters(rt, alloc, count);
    extend(rt, &mut text, &[&number, letters.as_bytes()]);
    texts.push(text).expect(rt, "memory");
}

fn push_codes(rt: &impl Abort, codes: &mut Vec<u32>, run: &Run) {
    for n in 0..run.rows {
        let code = n.wrapping_mul(run.step).wrapping_add(run.first);
        codes
            .push(code.checked_rem(run.limit).unwrap_or(0))
            .expect(rt, "memory");
    }
}

fn table_of(rt: &impl Abort, alloc: Global, shape: &Shape) -> Table {
    let mut table = Table {
        texts: Vec::new(alloc),
        codes: Vec::new(alloc),
    };
    for (count, letters) in &shape.texts {
        for _ in 0..*count {
            push_text(rt, alloc, &mut table.texts, *letters);
        }
    }
    for run in &shape.runs {
        push_codes(rt, &mut table.codes, run);
    }
    table
}

// What stands before the rows of a table.
fn front(rt: &impl Abort, alloc: Global, layout: &[u8], table: &Table) -> Vec<u8> {
    let mut bytes = file(rt, alloc, layout, "01016401016d", "");
    extend(rt, &mut bytes, &[&table.codes.len().to_be_bytes()[4..]]);
    bytes
}

fn push_value(rt: &impl Abort, bytes: &mut Vec<u8>, text: &[u8]) {
    extend(rt, bytes, &[&text.len().to_be_bytes()[6..], text]);
}

fn by_rows(rt: &impl Abort, alloc: Global, table: &Table) -> Vec<u8> {
    let mut bytes = front(rt, alloc, b"DSG1", table);
    for code in &table.codes {
        extend(rt, &mut bytes, &[&TIME]);
        match table.texts.get((*code as usize).wrapping_sub(1)) {
            Some(text) => {
                extend(rt, &mut bytes, &[&[1]]);
                push_value(rt, &mut bytes, text);
            }
            None => extend(rt, &mut bytes, &[&[0]]),
        }
        extend(rt, &mut bytes, &[&[0]]);
    }
    bytes
}

fn by_columns(rt: &impl Abort, alloc: Global, table: &Table) -> Vec<u8> {
    let mut bytes = front(rt, alloc, b"DSG2", table);
    for _ in &table.codes {
        extend(rt, &mut bytes, &[&TIME]);
    }
    extend(rt, &mut bytes, &[&table.texts.len().to_be_bytes()[4..]]);
    for text in &table.texts {
        push_value(rt, &mut bytes, text);
    }
    for code in &table.codes {
        extend(rt, &mut bytes, &[&code.to_be_bytes()]);
    }
    for _ in &table.codes {
        extend(rt, &mut bytes, &[&[0]]);
    }
    bytes
}

// What is reported of the columns of a table, with so many bytes more: how many there are, and the fault.
fn reported(
    rt: &impl Abort,
    alloc: Global,
    shape: &Shape,
    more: usize,
) -> (usize, Option<FileFault>) {
    let mut columns = by_columns(rt, alloc, &table_of(rt, alloc, shape));
    for _ in 0..more {
        columns.push(0).expect(rt, "memory");
    }
    (columns.len(), read(alloc, &columns).err())
}

fn is_kept(rt: &impl Abort, alloc: Global, shape: &Shape) -> bool {
    let table = table_of(rt, alloc, shape);
    let rows = by_rows(rt, alloc, &table);
    is_one_segment(rt, alloc, &rows, &by_columns(rt, alloc, &table))
}

// A run of rows of one code.
const fn constant(rows: u32, first: u32) -> Run {
    Run {
        rows,
        first,
        step: 0,
        limit: u32::MAX,
    }
}

// 100,000 rows with three texts and null in turn.
fn few_texts() -> Shape {
    let run = Run {
        rows: 100_000,
        first: 0,
        step: 1,
        limit: 4,
    };
    Shape {
        texts: [(3, 1), (0, 0)],
        runs: [run, constant(0, 0)],
    }
}

// 10,000 rows, each with a text of its own, the greatest first.
fn own_texts() -> Shape {
    let run = Run {
        rows: 10_000,
        first: 10_000,
        step: 10_000,
        limit: 10_001,
    };
    Shape {
        texts: [(10_000, 0), (0, 0)],
        runs: [run, constant(0, 0)],
    }
}

// 16,148 rows, each with a text of its own, of 1,024 bytes, and the last of two bytes and so many letters: by columns
// 16,776,800 bytes and those letters.
fn long_texts(letters: usize) -> Shape {
    let run = Run {
        rows: 16_147,
        first: 1,
        step: 1,
        limit: u32::MAX,
    };
    Shape {
        texts: [(16_147, 1_022), (1, letters)],
        runs: [run, constant(1, 16_148)],
    }
}

// 100,000 rows, so many of them with a text of 156 bytes, and the others with one of 155: by rows 16,700,046 bytes, and one
// for each of the former.
fn two_texts(longer: u32) -> Shape {
    Shape {
        texts: [(1, 153), (1, 154)],
        runs: [
            constant(longer, 2),
            constant(100_000u32.saturating_sub(longer), 1),
        ],
    }
}

#[test]
fn many_rows(rt: HostRuntime) {
    for shape in [few_texts(), own_texts(), two_texts(77_170)] {
        assert!(rt; is_kept(&rt, rt.alloc(), &shape));
    }
}

// By columns it has 16,777,216 bytes.
#[test]
fn longest_columns(rt: HostRuntime) {
    assert!(rt; is_kept(&rt, rt.alloc(), &long_texts(416)));
}

// And one byte less.
#[test]
fn almost_longest_columns(rt: HostRuntime) {
    assert!(rt; is_kept(&rt, rt.alloc(), &long_texts(415)));
}

// The letters of such a file, how many bytes more it has, how many it has in all, and what is reported of it.
const LARGE_FILES: [(usize, usize, usize, Option<FileFault>); 3] = [
    (417, 0, 16_777_217, Some(FileFault::TooLong)),
    (415, 1, 16_777_216, Some(FileFault::Trailing)),
    (416, 1, 16_777_217, Some(FileFault::Trailing)),
];

#[test]
fn files_of_16_mib(rt: HostRuntime) {
    for (letters, more, len, fault) in &LARGE_FILES {
        let reported = reported(&rt, rt.alloc(), &long_texts(*letters), *more);
        assert!(rt; reported == (*len, *fault), "{reported:?}");
    }
}

// By rows it has 16,777,217 bytes.
#[test]
fn too_long_by_rows(rt: HostRuntime) {
    let reported = reported(&rt, rt.alloc(), &two_texts(77_171), 0);
    assert!(rt;
        reported == (1_300_365, Some(FileFault::TooLong)),
        "{reported:?}"
    );
}

#[test]
fn too_long_by_columns(rt: HostRuntime) {
    let table = table_of(&rt, rt.alloc(), &long_texts(417));
    let segment = segment(&rt, rt.alloc(), &by_rows(&rt, rt.alloc(), &table));
    let mut written = Vec::new(rt.alloc());
    let answered = write_columns(rt.alloc(), &segment, &mut written);
    assert!(rt; answered == Err(FileFault::TooLong) && written.is_empty());
}

// Takes so many writes of what is wanted, and then fails.
#[derive(Drop)]
struct Narrow<'a> {
    writes: usize,
    kind: ErrorKind,
    wanted: &'a [u8],
    is_wanted: bool,
}

impl Write for Narrow<'_> {
    fn write(&mut self, buf: &[u8]) -> IoResult<usize> {
        if self.writes == 0 {
            return Err(Error::new(self.kind, "full"));
        }
        self.writes -= 1;
        match self.wanted.split_at_checked(buf.len()) {
            Some((front, rest)) if front == buf => self.wanted = rest,
            _ => self.is_wanted = false,
        }
        Ok(buf.len())
    }

    fn flush(&mut self) -> IoResult<()> {
        Ok(())
    }
}

// What is reported where so many writes are taken, and how many bytes are left, if what was written is what is wanted.
fn reported_of_narrow(
    alloc: Global,
    segment: &Segment,
    wanted: &[u8],
    writes: usize,
    kind: ErrorKind,
) -> (Option<FileFault>, Option<usize>) {
    let mut writer = Narrow {
        writes,
        kind,
        wanted,
        is_wanted: true,
    };
    let fault = write_columns(alloc, segment, &mut writer).err();
    (fault, writer.is_wanted.then_some(writer.wanted.len()))
}

// The fault of a write that fails so.
fn fault_of(kind: ErrorKind) -> FileFault {
    match kind {
        ErrorKind::OutOfMemory => FileFault::Memory,
        _ => FileFault::Write,
    }
}

// How many writes are taken, and what is left then: the instants and what stands before them, the dimension, and the metric
// are written one after the other.
const LEFT: [(usize, usize); 3] = [(0, 170_050), (1, 90_004), (2, 10_000)];

#[test]
fn writers_fail(rt: HostRuntime) {
    let table = table_of(&rt, rt.alloc(), &own_texts());
    let columns = by_columns(&rt, rt.alloc(), &table);
    let segment = segment(&rt, rt.alloc(), &columns);
    for kind in &KINDS {
        for (writes, left) in &LEFT {
            let reported = reported_of_narrow(rt.alloc(), &segment, &columns, *writes, *kind);
            assert!(rt;
                reported == (Some(fault_of(*kind)), Some(*left)),
                "{reported:?}"
            );
        }
    }
    let reported = reported_of_narrow(rt.alloc(), &segment, &columns, 3, ErrorKind::Other);
    assert!(rt; reported == (None, Some(0)), "{reported:?}");
}
