//! Readers and writers that fail, that are interrupted, and that take a byte at a time.
use crate::kinds::KINDS;
use crate::printed::{beside, printed};
use crate::table::{Table, assert_reported, assert_row, assert_rows, is_reported};
use crate::wire::{reported_of, spelled};
use druid_http_message::WireFault;
use druid_http_wire::{read_request, read_response, write_response};
use http::StatusCode;
use std::alloc::Global;
use std::io;
use std::io::{BufRead, BufReader, ErrorKind, Read, Write};
use std::process::Abort;

// What the calls of a device do: a letter for each, of which the last is for all calls after it too. Each call is interrupted so
// many times before.
#[derive(Drop)]
struct Plan<'a> {
    letters: &'a [u8],
    kind: ErrorKind,
    interrupts: u32,
    interrupted: u32,
}

impl Plan<'_> {
    // How many bytes the next call takes: `a` all that it can, `1` one, and `0` none; `i` is interrupted, `m` fails
    // for lack of memory, `k` fails in the way of the plan, and `f` fails.
    fn take(&mut self, most: usize) -> io::Result<usize> {
        if self.interrupted < self.interrupts {
            self.interrupted = self.interrupted.saturating_add(1);
            return Err(ErrorKind::Interrupted.into());
        }
        self.interrupted = 0;
        let Some((letter, rest)) = self.letters.split_first() else {
            return Ok(most);
        };
        let letter = *letter;
        if !rest.is_empty() {
            self.letters = rest;
        }
        match letter {
            b'a' => Ok(most),
            b'1' => Ok(1),
            b'0' => Ok(0),
            b'i' => Err(ErrorKind::Interrupted.into()),
            b'm' => Err(ErrorKind::OutOfMemory.into()),
            b'k' => Err(self.kind.into()),
            _ => Err(ErrorKind::Other.into()),
        }
    }
}

#[derive(Drop)]
struct PlannedReader<'a> {
    plan: Plan<'a>,
    rest: &'a [u8],
}

impl Read for PlannedReader<'_> {
    fn read(&mut self, buf: &mut [u8]) -> io::Result<usize> {
        let room = buf.len().min(self.rest.len());
        let count = self.plan.take(room)?.min(room);
        let (front, rest) = self.rest.split_at(count);
        buf[..count].copy_from_slice(front);
        self.rest = rest;
        Ok(count)
    }
}

#[derive(Drop)]
struct PlannedWriter<'a> {
    plan: Plan<'a>,
    written: Vec<u8>,
}

impl Write for PlannedWriter<'_> {
    fn write(&mut self, buf: &[u8]) -> io::Result<usize> {
        let count = self.plan.take(buf.len())?.min(buf.len());
        self.written.extend_from_slice(&buf[..count])?;
        Ok(count)
    }

    fn flush(&mut self) -> io::Result<()> {
        Ok(())
    }
}

// The letters of a plan, how its `k` fails, and how often each of its calls is interrupted.
#[derive(Clone, Copy)]
struct Way<'a> {
    letters: &'a str,
    kind: ErrorKind,
    interrupts: u32,
}

impl<'a> Way<'a> {
    fn of(letters: &'a str) -> Way<'a> {
        Way {
            letters,
            kind: ErrorKind::Other,
            interrupts: 0,
        }
    }

    fn plan(self) -> Plan<'a> {
        Plan {
            letters: self.letters.as_bytes(),
            kind: self.kind,
            interrupts: self.interrupts,
            interrupted: 0,
        }
    }
}

// A reader of this text over a device with that plan.
fn reader_over<'a>(
    rt: &impl Abort,
    alloc: Global,
    way: Way<'a>,
    text: &'a [u8],
) -> BufReader<PlannedReader<'a>> {
    let input = PlannedReader {
        plan: way.plan(),
        rest: text,
    };
    BufReader::with_capacity(alloc, 16, input).expect(rt, "memory")
}

// What reading a request tells.
fn request_from<R: BufRead>(rt: &impl Abort, alloc: Global, reader: &mut R) -> String {
    match read_request(alloc, reader) {
        Ok(request) => beside(rt, alloc, &request.target(), &request.body().len()),
        Err(fault) => printed(rt, alloc, &fault),
    }
}

// What reading a response tells.
fn response_from<R: BufRead>(rt: &impl Abort, alloc: Global, reader: &mut R) -> String {
    match read_response(alloc, reader) {
        Ok((status, body)) => beside(rt, alloc, &status.as_u16(), &body.len()),
        Err(fault) => printed(rt, alloc, &fault),
    }
}

// The same over a device with that plan.
fn request_over(rt: &impl Abort, alloc: Global, way: Way<'_>) -> String {
    let text = spelled(rt, alloc, "|POST /q HTTP/1.1|Content-Length: 3||abc");
    request_from(rt, alloc, &mut reader_over(rt, alloc, way, &text))
}

fn response_over(rt: &impl Abort, alloc: Global, way: Way<'_>) -> String {
    let text = spelled(rt, alloc, "HTTP/1.1 200 OK|Content-Length: 4||true");
    response_from(rt, alloc, &mut reader_over(rt, alloc, way, &text))
}

// What reading a request and a response over devices with that plan tells.
fn both_over(rt: &impl Abort, alloc: Global, way: Way<'_>) -> String {
    let request = request_over(rt, alloc, way);
    let response = response_over(rt, alloc, way);
    format!(in alloc; "{request}={response}").expect(rt, "memory")
}

// Plans, and what reading tells.
struct ReaderPlans;

impl Table for ReaderPlans {
    fn holds(&self, rt: &impl Abort, alloc: Global, what: &str, wanted: &str) -> bool {
        is_reported(both_over(rt, alloc, Way::of(what)), wanted)
    }
}

#[test]
fn readers(rt: HostRuntime) {
    let rows = "a=/q 3=200 4
1=/q 3=200 4
i1iiia=/q 3=200 4
i=X2: the message could not be read=X2: the message could not be read
f=X2: the message could not be read=X2: the message could not be read
af=X2: the message could not be read=X2: the message could not be read
aaf=X2: the message could not be read=X2: the message could not be read
aaaf=/q 3=200 4
aam=X9: out of memory=X9: out of memory
111110=X1: the message is cut off=X1: the message is cut off
aa0=X1: the message is cut off=X1: the message is cut off";
    assert_rows(&rt, rt.alloc(), &ReaderPlans, rows, "=");
}

const WHOLE: &str =
    "HTTP/1.1 200 OK|Content-Type: application/json|Content-Length: 4|Connection: close||true";

// How many bytes of the whole were written.
fn written_of(rt: &impl Abort, alloc: Global, written: &[u8]) -> usize {
    let whole = spelled(rt, alloc, WHOLE);
    assert_row(rt, "another text", whole.starts_with(written));
    written.len()
}

// What writing a response over a device with that plan tells, and how much of it was written.
fn written_over(rt: &impl Abort, alloc: Global, way: Way<'_>) -> String {
    let mut writer = PlannedWriter {
        plan: way.plan(),
        written: Vec::new(alloc),
    };
    let end = write_response(StatusCode::OK, b"true", &mut writer);
    reported_of(rt, alloc, end, written_of(rt, alloc, &writer.written))
}

// Plans, and what writing tells.
struct WriterPlans;

impl Table for WriterPlans {
    fn holds(&self, rt: &impl Abort, alloc: Global, what: &str, wanted: &str) -> bool {
        is_reported(written_over(rt, alloc, Way::of(what)), wanted)
    }
}

#[test]
fn writers(rt: HostRuntime) {
    let rows = "a=ok 93
1=ok 93
iia=ok 93
i1iiia=ok 93
f=X3: the message could not be written 0
0=X3: the message could not be written 0
i=X3: the message could not be written 0
111f=X3: the message could not be written 3
m=X9: out of memory 0
11m=X9: out of memory 2
af=X3: the message could not be written 9
aaaaaaaaf=X3: the message could not be written 89
aaaaaaaa1i=X3: the message could not be written 90";
    assert_rows(&rt, rt.alloc(), &WriterPlans, rows, "=");
}

// How often each call is interrupted, and what reading and writing a byte at a time tell.
const INTERRUPTS: [(u32, &str, &str); 4] = [
    (1, "/q 3=200 4", "ok 93"),
    (5, "/q 3=200 4", "ok 93"),
    (999, "/q 3=200 4", "ok 93"),
    (
        1_000,
        "X2: the message could not be read=X2: the message could not be read",
        "X3: the message could not be written 0",
    ),
];

#[test]
fn interrupted_calls(rt: HostRuntime) {
    for (interrupts, read, written) in &INTERRUPTS {
        let mut way = Way::of("1");
        way.interrupts = *interrupts;
        assert_reported(&rt, both_over(&rt, rt.alloc(), way), read);
        assert_reported(&rt, written_over(&rt, rt.alloc(), way), written);
    }
}

// What a failed read and a failed write tell: out of memory, or that the device failed.
fn wanted_of(kind: ErrorKind) -> (&'static str, &'static str) {
    match kind {
        ErrorKind::OutOfMemory => ("X9: out of memory=X9: out of memory", "X9: out of memory 2"),
        _ => (
            "X2: the message could not be read=X2: the message could not be read",
            "X3: the message could not be written 2",
        ),
    }
}

#[test]
fn devices_fail_in_each_way(rt: HostRuntime) {
    for kind in &KINDS {
        let (of_read, of_write) = wanted_of(*kind);
        let mut way = Way::of("11k");
        way.kind = *kind;
        assert_reported(&rt, both_over(&rt, rt.alloc(), way), of_read);
        assert_reported(&rt, written_over(&rt, rt.alloc(), way), of_write);
        // In the body too.
        way.letters = "aak";
        assert_reported(&rt, both_over(&rt, rt.alloc(), way), of_read);
    }
}

#[test]
fn faults_print_this(rt: HostRuntime) {
    let connect = printed(&rt, rt.alloc(), &WireFault::Connect);
    assert_reported(&rt, connect, "X8: no connection");
    let memory = printed(&rt, rt.alloc(), &WireFault::Memory);
    assert_reported(&rt, memory, "X9: out of memory");
}
