use crate::kinds::KINDS;
use crate::printed::assert_prints;
use druid_segment_file::{FileFault, read_segment, write_segment};
use druid_segment_rows::Segment;
use std::alloc::Global;
use std::io::{Error, ErrorKind, Read, Result as IoResult, Write};
use std::process::Abort;

// One row of the source `w`, as other programs spell it: examples/vector.dsg.
fn vector() -> &'static str {
    "44534731017700000000000000000000000005265c00017600000001000000000000000001016401016d0000000100000000000003e801000178010000000000000005"
}

// Three rows of a day of the source `wiki`, with nulls, an empty text and texts that are not ASCII, spelled by another
// program.
fn three_rows() -> &'static str {
    "445347310477696b690000018cc251f4000000018cc7785000027631000380000000011f71fb04cb020463697479046e6f7465010468697473000000030000018cc251f4000100075ac3bc726963680001ffffffffffffffff0000018cc7784fff010000010009c3a9e282acf09d849e000000018cc251f4010000018000000000000000"
}

// The row of the vector by columns: examples/vector.dsg2.
fn column_vector() -> &'static str {
    "44534732017700000000000000000000000005265c00017600000001000000000000000001016401016d0000000100000000000003e80000000100017800000001010000000000000005"
}

// The three rows by columns, spelled by another program.
fn three_rows_by_columns() -> &'static str {
    "445347320477696b690000018cc251f4000000018cc7785000027631000380000000011f71fb04cb020463697479046e6f7465010468697473000000030000018cc251f4000000018cc7784fff0000018cc251f40100000002000000075ac3bc72696368000000020000000100000000000000010009c3a9e282acf09d849e000000000000000100000000010001ffffffffffffffff8000000000000000"
}

// Two rows by columns, with a text each, `x` and `y`, and no numbers.
fn two_texts() -> &'static str {
    "44534732017700000000000000000000000005265c00017600000001000000000000000001016401016d0000000200000000000003e800000000000003e80000000200017800017900000001000000020000"
}

fn nibble(digit: u8) -> u8 {
    match digit {
        b'0'..=b'9' => digit - b'0',
        b'a'..=b'f' => digit - b'a' + 10,
        _ => 0,
    }
}

// The byte of a pair of digits.
fn byte(pair: &[u8]) -> u8 {
    match pair {
        [high, low] => nibble(*high).wrapping_mul(16).wrapping_add(nibble(*low)),
        _ => 0,
    }
}

// The bytes of hexadecimal digits.
pub(crate) fn bytes_of(rt: &impl Abort, alloc: Global, digits: &str) -> Vec<u8> {
    let mut bytes = Vec::new(alloc);
    for pair in digits.as_bytes().chunks(2) {
        bytes.push(byte(pair)).expect(rt, "memory");
    }
    bytes
}

pub(crate) fn read(alloc: Global, mut bytes: &[u8]) -> Result<Segment, FileFault> {
    read_segment(alloc, &mut bytes)
}

fn code(fault: FileFault) -> &'static str {
    match fault {
        FileFault::Magic => "F1",
        FileFault::Cut => "F2",
        FileFault::Field => "F3",
        FileFault::RowOutside => "F4",
        FileFault::TooLong => "F5",
        FileFault::Trailing => "F6",
        FileFault::Read => "F7",
        FileFault::Write => "F8",
        FileFault::Memory => "F9",
    }
}

fn answer<T: Drop>(answered: Result<T, FileFault>) -> &'static str {
    match answered {
        Ok(_) => "ok",
        Err(fault) => code(fault),
    }
}

// The letters of the fault of these bytes, or `ok`.
fn reported(alloc: Global, bytes: &[u8]) -> &'static str {
    answer(read(alloc, bytes))
}

fn put(bytes: &mut Vec<u8>, place: usize, patch: &[u8]) {
    for (n, byte) in patch.iter().enumerate() {
        if let Some(old) = bytes.get_mut(place.wrapping_add(n)) {
            *old = *byte;
        }
    }
}

// The file, once those hexadecimal bytes stand at that place.
fn patched(rt: &impl Abort, alloc: Global, file: &str, place: usize, digits: &str) -> Vec<u8> {
    let mut bytes = bytes_of(rt, alloc, file);
    put(&mut bytes, place, &bytes_of(rt, alloc, digits));
    bytes
}

// Whether the file is reported so once the hexadecimal bytes stand at that place: `4 00 F3`.
fn is_reported(rt: &impl Abort, alloc: Global, file: &str, line: &str) -> bool {
    let mut words = line.split(' ');
    let place = words.next().expect(rt, "a place");
    let digits = words.next().expect(rt, "bytes");
    let wanted = words.next().expect(rt, "an answer");
    let place: usize = place.parse().expect(rt, "a place");
    reported(alloc, &patched(rt, alloc, file, place, digits)) == wanted
}

// F1, F4, and what is not refused.
fn few_changes() -> &'static str {
    "0 45 F1
0 44 ok
3 33 F1
46 0000000005265c00 F4
46 0000000005265bff ok
46 0000000000000000 ok
46 ffffffffffffffff F4
46 7fffffffffffffff F4"
}

// A name of no bytes, of a byte that is none of a name's, and of bytes that are no text; then the instants, the
// version, the core, the fields and the marks.
fn broken_rules() -> &'static str {
    "4 00 F3
5 20 F3
5 ff F3
6 7fffffffffffffff F3
6 0000000005265c00 F3
14 0000000000000000 F3
14 7fffffffffffffff F3
22 00 F3
23 5f F3
23 2f F3
23 22 F3
23 5c F3
23 20 F3
23 7f F3
23 ff F3
26 8000 ok
26 8001 F3
37 00 F3
38 2d F3
38 ff F3
40 00 F3
41 2e F3
41 64 F3
54 02 F3
54 ff F3
57 ff F3
58 02 F3"
}

// Each count and each length, at its limit and above it.
fn passed_limits() -> &'static str {
    "4 64 F2
4 65 F5
22 40 F2
22 41 F5
36 40 F3
36 41 F5
37 64 F2
37 65 F5
39 40 F3
39 41 F5
40 64 F2
40 65 F5
42 000186a0 F2
42 000186a1 F5
55 0400 F2
55 0401 F5"
}

// The row by columns: the layout, the number of rows, the instant, the number of texts, a text, its code, and the mark.
fn column_changes() -> &'static str {
    "3 33 F1
3 31 F6
4 00 F3
42 000186a0 F4
42 000186a1 F5
42 0000000000000000 F6
42 0000000000000001 F5
46 0000000005265c00 F4
46 0000000005265bff ok
46 7fffffffffffffff F4
54 00000002 F5
54 00000000 F3
58 0400 F2
58 0401 F5
60 ff F3
61 00000000 F3
61 00000002 F3
61 ffffffff F3
65 00 F6
65 02 F3
65 ff F3"
}

// Two rows by columns: texts that do not rise, texts that have no row, codes, and marks.
fn text_changes() -> &'static str {
    "68 7a F3
71 78 F3
71 77 F3
69 0000 F3
72 0000000200000001 ok
72 00000002 F3
72 00000000 F3
76 00000001 F3
76 00000000 F3
76 00000003 F3
80 02 F3
81 02 F3
80 01 F2"
}

#[test]
fn changed_bytes(rt: HostRuntime) {
    let tables = [
        (vector(), few_changes()),
        (vector(), broken_rules()),
        (vector(), passed_limits()),
        (column_vector(), column_changes()),
        (two_texts(), text_changes()),
    ];
    for (file, table) in tables {
        for line in table.lines() {
            assert!(rt; is_reported(&rt, rt.alloc(), file, line), "{line}");
        }
    }
}

// The first length at which the front of the bytes is not reported as cut.
fn first_uncut(alloc: Global, bytes: &[u8]) -> usize {
    for len in 0..bytes.len() {
        if reported(alloc, &bytes[..len]) != "F2" {
            return len;
        }
    }
    bytes.len()
}

// Whether each front is cut, all of it is read, and one byte more is one too many.
fn ends_there(rt: &impl Abort, alloc: Global, digits: &str) -> bool {
    let mut bytes = bytes_of(rt, alloc, digits);
    if first_uncut(alloc, &bytes) != bytes.len() || reported(alloc, &bytes) != "ok" {
        return false;
    }
    bytes.push(0).expect(rt, "memory");
    reported(alloc, &bytes) == "F6"
}

#[test]
fn cut_or_long_files(rt: HostRuntime) {
    let files = [
        vector(),
        three_rows(),
        column_vector(),
        three_rows_by_columns(),
        two_texts(),
    ];
    for file in files {
        assert!(rt; ends_there(&rt, rt.alloc(), file), "{file}");
    }
}

// Puts each of these after the bytes.
pub(crate) fn extend(rt: &impl Abort, bytes: &mut Vec<u8>, parts: &[&[u8]]) {
    for part in parts {
        bytes.extend_from_slice(part).expect(rt, "memory");
    }
}

// A row at 1,000 with a text of that many bytes, its length spelled, and a null.
fn push_long_row(rt: &impl Abort, bytes: &mut Vec<u8>, length: [u8; 2], text: &str) {
    extend(
        rt,
        bytes,
        &[
            &[0, 0, 0, 0, 0, 0, 3, 232, 1],
            &length,
            text.as_bytes(),
            &[0],
        ],
    );
}

pub(crate) fn letters(rt: &impl Abort, alloc: Global, count: usize) -> String {
    "a".repeat(alloc, count).expect(rt, "memory")
}

// A file of 46 bytes, 16,194 rows of 1,036 bytes each, and one row of 12 bytes and a text of that many.
fn large(rt: &impl Abort, alloc: Global, last: u8) -> Vec<u8> {
    let mut bytes = bytes_of(
        rt,
        alloc,
        "44534731017700000000000000000000000005265c00017600000001000000000000000001016401016d00003f43",
    );
    let text = letters(rt, alloc, 1_024);
    for _ in 0..16_194u32 {
        push_long_row(rt, &mut bytes, [4, 0], text.as_str());
    }
    let short = letters(rt, alloc, usize::from(last));
    push_long_row(rt, &mut bytes, [0, last], short.as_str());
    bytes
}

// What is reported of such a file, once it has that many bytes more.
fn reported_of_large(
    rt: &impl Abort,
    alloc: Global,
    last: u8,
    more: usize,
) -> (usize, &'static str) {
    let mut bytes = large(rt, alloc, last);
    for _ in 0..more {
        bytes.push(0).expect(rt, "memory");
    }
    (bytes.len(), reported(alloc, &bytes))
}

// Two parameters of such a file, its length, and what is reported of it.
const LARGE_FILES: [(u8, usize, usize, &str); 5] = [
    (173, 0, 16_777_215, "ok"),
    (174, 0, 16_777_216, "ok"),
    (175, 0, 16_777_217, "F5"),
    (173, 1, 16_777_216, "F6"),
    (174, 1, 16_777_217, "F6"),
];

#[test]
fn files_of_16_mib(rt: HostRuntime) {
    for (last, more, len, answer) in &LARGE_FILES {
        let reported = reported_of_large(&rt, rt.alloc(), *last, *more);
        assert!(rt; reported == (*len, *answer), "{reported:?}");
    }
}

// A file of so many rows by columns, each with one text of 1,024 bytes. In rows it has 46 bytes, and 1,036 a row.
fn repeated(rt: &impl Abort, alloc: Global, rows: u32) -> Vec<u8> {
    let mut bytes = bytes_of(rt, alloc, column_vector());
    bytes.truncate(42);
    extend(rt, &mut bytes, &[&rows.to_be_bytes()]);
    for _ in 0..rows {
        extend(rt, &mut bytes, &[&[0, 0, 0, 0, 0, 0, 3, 232]]);
    }
    let text = letters(rt, alloc, 1_024);
    extend(rt, &mut bytes, &[&[0, 0, 0, 1, 4, 0], text.as_bytes()]);
    for _ in 0..rows {
        extend(rt, &mut bytes, &[&[0, 0, 0, 1]]);
    }
    for _ in 0..rows {
        extend(rt, &mut bytes, &[&[0]]);
    }
    bytes
}

#[test]
fn columns_of_16_mib_in_rows(rt: HostRuntime) {
    for (rows, answer) in [(16_194, "ok"), (16_195, "F5")] {
        let given = reported(rt.alloc(), &repeated(&rt, rt.alloc(), rows));
        assert!(rt; given == answer, "{rows} {given}");
    }
}

fn written(rt: &impl Abort, alloc: Global, segment: &Segment) -> Vec<u8> {
    let mut bytes = Vec::new(alloc);
    write_segment(alloc, segment, &mut bytes).expect(rt, "a written file");
    bytes
}

// What is read of these bytes, and written again, is the same bytes.
fn is_written_again(rt: &impl Abort, alloc: Global, bytes: &[u8]) -> bool {
    let segment = read(alloc, bytes).expect(rt, "a segment");
    written(rt, alloc, &segment).as_slice() == bytes
}

// What is read of a file by columns, and written in rows, is that file.
fn is_written_so(rt: &impl Abort, alloc: Global, columns: &str, rows: &str) -> bool {
    let segment = read(alloc, &bytes_of(rt, alloc, columns)).expect(rt, "a segment");
    written(rt, alloc, &segment).as_slice() == bytes_of(rt, alloc, rows).as_slice()
}

// A file of 300 rows, each of a null, a text of 300 letters, an empty text, a number, a null and the least number.
fn many_rows(rt: &impl Abort, alloc: Global) -> Vec<u8> {
    let mut bytes = bytes_of(
        rt,
        alloc,
        "44534731017700000000000000000000000005265c00017600000001000000000000000003016101620163030164016501660000012c",
    );
    let text = letters(rt, alloc, 300);
    for number in 0..300u64 {
        push_many(rt, &mut bytes, &number.to_be_bytes(), text.as_bytes());
    }
    bytes
}

fn push_many(rt: &impl Abort, bytes: &mut Vec<u8>, number: &[u8], text: &[u8]) {
    extend(
        rt,
        bytes,
        &[
            number,
            &[0, 1, 1, 44],
            text,
            &[1, 0, 0, 1],
            number,
            &[0, 1, 128, 0, 0, 0, 0, 0, 0, 0],
        ],
    );
}

#[test]
fn files_written_again(rt: HostRuntime) {
    for digits in [vector(), three_rows()] {
        assert!(rt; is_written_again(&rt, rt.alloc(), &bytes_of(&rt, rt.alloc(), digits)));
    }
    for (columns, rows) in [
        (column_vector(), vector()),
        (three_rows_by_columns(), three_rows()),
    ] {
        assert!(rt; is_written_so(&rt, rt.alloc(), columns, rows), "{columns}");
    }
    let many = many_rows(&rt, rt.alloc());
    assert!(rt; many.len() > 99_000 && is_written_again(&rt, rt.alloc(), &many));
}

// A file of one row and so many dimensions, of which every second one is null: the vector's source, interval, version,
// partition, core and size stand in front.
pub(crate) fn wide(rt: &impl Abort, alloc: Global, dimensions: u8) -> Vec<u8> {
    let mut bytes = bytes_of(rt, alloc, vector());
    bytes.truncate(36);
    extend(rt, &mut bytes, &[&[dimensions]]);
    for n in 0..dimensions {
        extend(
            rt,
            &mut bytes,
            &[&[2, b'a'.wrapping_add(n / 16), b'a'.wrapping_add(n % 16)]],
        );
    }
    extend(
        rt,
        &mut bytes,
        &[&[1, 1, b'm', 0, 0, 0, 1, 0, 0, 0, 0, 0, 0, 3, 232]],
    );
    for n in 0..dimensions {
        let value: &[u8] = if n % 2 == 0 { &[1, 0, 1, b'x'] } else { &[0] };
        extend(rt, &mut bytes, &[value]);
    }
    extend(rt, &mut bytes, &[&[1, 0, 0, 0, 0, 0, 0, 0, 5]]);
    bytes
}

#[test]
fn many_dimensions(rt: HostRuntime) {
    for dimensions in [4, 17, 64] {
        let bytes = wide(&rt, rt.alloc(), dimensions);
        assert!(rt; is_written_again(&rt, rt.alloc(), &bytes), "{dimensions}");
    }
}

// Gives its bytes, a few at a time, and counts them. Then it fails, if it has a fault, gives zeros for ever, or ends.
#[derive(Drop)]
struct Source<'a> {
    bytes: &'a [u8],
    step: usize,
    fault: Option<ErrorKind>,
    is_endless: bool,
    is_interrupted: bool,
    given: usize,
}

impl Read for Source<'_> {
    fn read(&mut self, buf: &mut [u8]) -> IoResult<usize> {
        self.is_interrupted = !self.is_interrupted;
        if self.is_interrupted {
            return Err(Error::new(ErrorKind::Interrupted, "interrupted"));
        }
        if self.bytes.is_empty() && self.is_endless {
            buf.fill(0);
            self.given = self.given.wrapping_add(buf.len());
            return Ok(buf.len());
        }
        match self.fault {
            Some(kind) if self.bytes.is_empty() => Err(Error::new(kind, "broken")),
            _ => {
                let room = self.step.min(buf.len());
                let count = self.bytes.read(&mut buf[..room])?;
                self.given = self.given.wrapping_add(count);
                Ok(count)
            }
        }
    }
}

fn reader_of(bytes: &[u8], step: usize, fault: Option<ErrorKind>) -> Source<'_> {
    Source {
        bytes,
        step,
        fault,
        is_endless: false,
        is_interrupted: false,
        given: 0,
    }
}

// What is reported of a reader of the vector's first bytes that then fails.
fn reported_of_broken(
    rt: &impl Abort,
    alloc: Global,
    len: usize,
    fault: Option<ErrorKind>,
) -> &'static str {
    let bytes = bytes_of(rt, alloc, vector());
    let mut reader = reader_of(&bytes[..len.min(bytes.len())], 1, fault);
    answer(read_segment(alloc, &mut reader))
}

// How many bytes are read, what happens then, and what is reported.
const READS: [(usize, Option<ErrorKind>, &str); 5] = [
    (67, None, "ok"),
    (66, None, "F2"),
    (66, Some(ErrorKind::BrokenPipe), "F7"),
    (0, Some(ErrorKind::BrokenPipe), "F7"),
    (66, Some(ErrorKind::OutOfMemory), "F9"),
];

#[test]
fn readers_fail(rt: HostRuntime) {
    for (len, fault, wanted) in &READS {
        let reported = reported_of_broken(&rt, rt.alloc(), *len, *fault);
        assert!(rt; reported == *wanted, "{len} {fault:?}: {reported}");
    }
}

#[test]
fn no_more_is_asked(rt: HostRuntime) {
    let bytes = bytes_of(&rt, rt.alloc(), vector());
    let mut reader = reader_of(&bytes, 100, None);
    reader.is_endless = true;
    assert!(rt; answer(read_segment(rt.alloc(), &mut reader)) == "F6");
    assert!(rt; reader.given <= 16_777_217);
}

// Takes one byte at each second call, up to so many, and then fails. The calls between are interrupted.
#[derive(Drop)]
struct Narrow {
    room: usize,
    is_interrupted: bool,
    fault: Option<ErrorKind>,
}

impl Write for Narrow {
    fn write(&mut self, buf: &[u8]) -> IoResult<usize> {
        self.is_interrupted = !self.is_interrupted;
        if self.is_interrupted {
            return Err(Error::new(ErrorKind::Interrupted, "interrupted"));
        }
        if self.room == 0 || buf.is_empty() {
            return match self.fault {
                Some(kind) => Err(Error::new(kind, "full")),
                None => Ok(0),
            };
        }
        self.room -= 1;
        Ok(1)
    }

    fn flush(&mut self) -> IoResult<()> {
        Ok(())
    }
}

fn reported_of_narrow(
    rt: &impl Abort,
    alloc: Global,
    room: usize,
    fault: Option<ErrorKind>,
) -> &'static str {
    let segment = read(alloc, &bytes_of(rt, alloc, vector())).expect(rt, "a segment");
    let mut writer = Narrow {
        room,
        is_interrupted: false,
        fault,
    };
    answer(write_segment(alloc, &segment, &mut writer))
}

// How many bytes are written, what happens then, and what is reported.
const WRITES: [(usize, Option<ErrorKind>, &str); 5] = [
    (67, None, "ok"),
    (66, None, "F8"),
    (66, Some(ErrorKind::BrokenPipe), "F8"),
    (0, Some(ErrorKind::BrokenPipe), "F8"),
    (30, Some(ErrorKind::OutOfMemory), "F9"),
];

#[test]
fn writers_fail(rt: HostRuntime) {
    for (room, fault, wanted) in &WRITES {
        let reported = reported_of_narrow(&rt, rt.alloc(), *room, *fault);
        assert!(rt; reported == *wanted, "{room} {fault:?}: {reported}");
    }
}

// What is reported of a failed read and of a failed write: out of memory, or that the device failed.
fn wanted_of(kind: ErrorKind) -> (&'static str, &'static str) {
    match kind {
        ErrorKind::OutOfMemory => ("F9", "F9"),
        _ => ("F7", "F8"),
    }
}

#[test]
fn devices_fail_in_each_way(rt: HostRuntime) {
    for kind in &KINDS {
        let (of_read, of_write) = wanted_of(*kind);
        let reported = reported_of_broken(&rt, rt.alloc(), 66, Some(*kind));
        assert!(rt; reported == of_read, "{kind:?}: {reported}");
        let reported = reported_of_narrow(&rt, rt.alloc(), 30, Some(*kind));
        assert!(rt; reported == of_write, "{kind:?}: {reported}");
    }
}

const TEXTS_OF_FAULTS: [(FileFault, &str); 9] = [
    (FileFault::Magic, "F1: not a segment file"),
    (FileFault::Cut, "F2: a cut file"),
    (FileFault::Field, "F3: a bad field"),
    (FileFault::RowOutside, "F4: a row outside the interval"),
    (FileFault::TooLong, "F5: too long"),
    (FileFault::Trailing, "F6: bytes after the last row"),
    (FileFault::Read, "F7: a read failed"),
    (FileFault::Write, "F8: a write failed"),
    (FileFault::Memory, "F9: out of memory"),
];

#[test]
fn printed_faults(rt: HostRuntime) {
    assert_prints(&rt, rt.alloc(), &TEXTS_OF_FAULTS);
}
