//! Readers and writers that fail, that are interrupted, and that take a byte at a time.
use crate::tables::{assert_rows, owned};
use druid_replay::{ReplayFault, replay};
use std::alloc::Global;
use std::fmt::Display;
use std::io;
use std::io::{BufReader, ErrorKind, Read, Write};
use std::process::Abort;

// What the calls of a device do: a letter for each, of which the last is for all calls after it too.
#[derive(Drop)]
struct Plan<'a> {
    letters: &'a [u8],
}

fn planned(letters: &str) -> Plan<'_> {
    Plan {
        letters: letters.as_bytes(),
    }
}

impl Plan<'_> {
    // How many bytes the next call takes: `a` all that it can, `1` one, and `0` none; `i` is interrupted, and `f` fails.
    fn take(&mut self, most: usize) -> io::Result<usize> {
        let Some((letter, rest)) = self.letters.split_first() else {
            return Ok(most);
        };
        let letter = *letter;
        if !rest.is_empty() {
            self.letters = rest;
        }
        match letter {
            b'a' => Ok(most),
            b'1' => Ok(1),
            b'0' => Ok(0),
            b'i' => Err(ErrorKind::Interrupted.into()),
            _ => Err(ErrorKind::Other.into()),
        }
    }
}

#[derive(Drop)]
struct PlannedReader<'a> {
    plan: Plan<'a>,
    rest: &'a [u8],
}

impl Read for PlannedReader<'_> {
    fn read(&mut self, buf: &mut [u8]) -> io::Result<usize> {
        let room = buf.len().min(self.rest.len());
        let count = self.plan.take(room)?.min(room);
        let (front, rest) = self.rest.split_at(count);
        buf[..count].copy_from_slice(front);
        self.rest = rest;
        Ok(count)
    }
}

#[derive(Drop)]
struct PlannedWriter<'a> {
    plan: Plan<'a>,
    flushes: Plan<'a>,
    written: Vec<u8>,
    flushed: bool,
}

impl Write for PlannedWriter<'_> {
    fn write(&mut self, buf: &[u8]) -> io::Result<usize> {
        let count = self.plan.take(buf.len())?.min(buf.len());
        self.written.extend_from_slice(&buf[..count])?;
        Ok(count)
    }

    fn flush(&mut self) -> io::Result<()> {
        self.flushed = true;
        self.flushes.take(0)?;
        Ok(())
    }
}

const ANSWERS: &str = "{\"brokers\":1}\n{\"pieces\":[]}\n";

// A script of two lines, of which the second is answered in two writes, or one with a bad line after them.
fn script(name: &str) -> &'static str {
    match name {
        "good" =>
            "{\"count\":1,\"do\":\"brokers\",\"nodes\":[\"n\"]}\n{\"broker\":0,\"do\":\"lookup\",\"interval\":\"2024-01-01/2024-01-02\",\"source\":\"w\"}\n",
        _ =>
            "{\"count\":1,\"do\":\"brokers\",\"nodes\":[\"n\"]}\n{\"broker\":0,\"do\":\"lookup\",\"interval\":\"2024-01-01/2024-01-02\",\"source\":\"w\"}\nx",
    }
}

fn beside<T: Display>(rt: &impl Abort, alloc: Global, value: &T, count: usize) -> String {
    format!(in alloc; "{value} {count}").expect(rt, "memory")
}

fn end_reported(
    rt: &impl Abort,
    alloc: Global,
    end: Result<(), ReplayFault>,
    written: &[u8],
) -> String {
    if !ANSWERS.as_bytes().starts_with(written) {
        return owned(rt, alloc, "other answers");
    }
    match end {
        Ok(()) => beside(rt, alloc, &"ok", written.len()),
        Err(fault) => beside(rt, alloc, &fault, written.len()),
    }
}

// How a run of a script ends over devices with these plans, and how many bytes of the answers were written.
fn end_of(
    rt: &impl Abort,
    alloc: Global,
    name: &str,
    reads: &str,
    writer: &mut PlannedWriter<'_>,
) -> String {
    let input = PlannedReader {
        plan: planned(reads),
        rest: script(name).as_bytes(),
    };
    let mut reader = BufReader::with_capacity(alloc, 16, input).expect(rt, "memory");
    let end = replay(alloc, &mut reader, writer);
    assert!(rt; writer.flushed, "{name} {reads}");
    end_reported(rt, alloc, end, &writer.written)
}

// The same of a row: the script, and the plans for reads, writes and flushes.
fn end_over(rt: &impl Abort, alloc: Global, row: &str) -> String {
    let (name, plans) = row.split_once(' ').expect(rt, "no reads");
    let (reads, plans) = plans.split_once(' ').expect(rt, "no writes");
    let (writes, flushes) = plans.split_once(' ').expect(rt, "no flushes");
    let mut writer = PlannedWriter {
        plan: planned(writes),
        flushes: planned(flushes),
        written: Vec::new(alloc),
        flushed: false,
    };
    end_of(rt, alloc, name, reads, &mut writer)
}

#[test]
fn devices(rt: HostRuntime) {
    let rows = "good a a a = ok 28
good 1 1 a = ok 28
good i1iia i1iia a = ok 28
good fa a a = line 1: device 0
good aaafa a a = line 2: device 14
good aaai a a = line 2: device 14
good a fa a = line 1: device 0
good a 0a a = line 1: device 0
good a 10a a = line 1: device 1
good a 111fa a = line 1: device 3
good a aa0a a = line 2: device 25
good a ai a = line 2: device 14
good a a f = line 3: device 28
bad a a a = line 3: bad command 28
bad a a f = line 3: device 28";
    assert_rows(&rt, rt.alloc(), rows, end_over);
}

// The words of a command line.
// Asserts how the run of an input ends, and what it writes.
fn assert_replayed(
    rt: &impl Abort,
    alloc: Global,
    mut input: &[u8],
    ended: Result<(), ReplayFault>,
    answers: &[u8],
) {
    let mut written = Vec::new(alloc);
    assert!(rt; replay(alloc, &mut input, &mut written) == ended);
    assert!(rt; written.as_slice() == answers);
}

#[test]
fn whole_runs(rt: HostRuntime) {
    let (good, bad) = (script("good").as_bytes(), script("bad").as_bytes());
    let answers = ANSWERS.as_bytes();
    assert_replayed(&rt, rt.alloc(), b"", Ok(()), b"");
    assert_replayed(&rt, rt.alloc(), good, Ok(()), answers);
    let third = Err(ReplayFault::BadCommand(3));
    assert_replayed(&rt, rt.alloc(), bad, third, answers);
}

// So many bytes of one letter.
fn repeated(rt: &impl Abort, alloc: Global, letter: u8, count: usize) -> Vec<u8> {
    let mut bytes = Vec::new(alloc);
    bytes.resize(count, letter).expect(rt, "memory");
    bytes
}

#[test]
fn long_bad_lines(rt: HostRuntime) {
    for count in [1_000usize, 1_001, 70_000] {
        let line = repeated(&rt, rt.alloc(), b'x', count);
        let bad = Err(ReplayFault::BadCommand(1));
        assert_replayed(&rt, rt.alloc(), &line, bad, b"");
    }
}

// A line and that many times another.
fn line_and_more(rt: &impl Abort, alloc: Global, first: &str, more: &str, count: usize) -> Vec<u8> {
    let mut bytes = Vec::new(alloc);
    bytes
        .extend_from_slice(first.as_bytes())
        .expect(rt, "memory");
    for _ in 0..count {
        bytes
            .extend_from_slice(more.as_bytes())
            .expect(rt, "memory");
    }
    bytes
}

#[test]
fn many_lines(rt: HostRuntime) {
    let brokers = "{\"count\":1,\"do\":\"brokers\",\"nodes\":[\"n\"]}\n";
    let marks = "{\"broker\":0,\"do\":\"marks\"}\n";
    let marked = "{\"marks\":[{\"counter\":0,\"hash\":0}]}\n";
    let mut input = line_and_more(&rt, rt.alloc(), brokers, marks, 20_000);
    let answers = line_and_more(&rt, rt.alloc(), "{\"brokers\":1}\n", marked, 20_000);
    input.push(b'x').expect(&rt, "memory");
    let bad = Err(ReplayFault::BadCommand(20_002));
    assert_replayed(&rt, rt.alloc(), &input, bad, &answers);
}
