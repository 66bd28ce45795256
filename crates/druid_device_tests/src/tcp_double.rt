//! Links over sockets for which doubles stand in: calls that are interrupted, that wait too long and that fail, and a clock
//! that cannot be read.
ghost use Rattle.std.specs.Prelude.{◌≡◌, ◌∷◌};
ghost use Rattle.druid_link.specs.Links.{came_of};

use crate::kinds::KINDS;
use crate::link::REQUEST;
use crate::printed::printed;
use druid_http_message::WireFault;
use druid_link::{Link, TcpLink};
use druid_link_health::{Asker, Health, MonitoredLink};
use std::alloc::Global;
use std::cell::{Cell, RefCell};
use std::io;
use std::io::{ErrorKind, Read, Write};
use std::net::{Net, OpenListener, OpenStream, SocketAddr};
use std::os::fd::{AsRawFd, RawFd};
use std::process::Abort;
use std::rc::Rc;
use std::sync::Arc;
use std::time::{Clock, Duration};

// What each call does before it succeeds: it fails so many times in this way. Then it takes so many bytes at most.
#[derive(Clone, Copy)]
struct Habit {
    kind: ErrorKind,
    times: u32,
    piece: usize,
}

impl Habit {
    // How many bytes a call takes of so many, where so many calls have failed since one succeeded.
    fn take(&self, failed: &mut u32, most: usize) -> io::Result<usize> {
        if *failed < self.times {
            *failed = failed.saturating_add(1);
            return Err(self.kind.into());
        }
        *failed = 0;
        Ok(self.piece.min(most))
    }
}

// A clock that goes on by so many seconds with each reading and fails after so many readings, and what sockets did.
#[derive(Drop)]
struct Tape {
    step: u64,
    now: Cell<u64>,
    readings: Cell<u64>,
    // The seconds that calls may wait, one after another.
    waits: RefCell<Vec<u64>>,
    sent: RefCell<Vec<u8>>,
    writes: Cell<u64>,
    reads: Cell<u64>,
}

// A network in which each connection is made, and each server answers with so many bytes.
#[derive(Drop)]
struct Double {
    tape: Rc<Tape>,
    writing: Habit,
    reading: Habit,
    answer: usize,
}

#[derive(Drop)]
struct Socket {
    tape: Rc<Tape>,
    writing: Habit,
    failed_writes: u32,
    reading: Habit,
    failed_reads: u32,
    left: usize,
}

#[derive(Drop)]
struct NoListener;

fn one_more(count: &Cell<u64>) {
    count.set(count.get().saturating_add(1));
}

impl Tape {
    fn wait(&self, time: Option<Duration>) -> io::Result<()> {
        let seconds = match time {
            Some(time) => time.as_secs(),
            None => u64::MAX,
        };
        if let Ok(mut waits) = self.waits.try_borrow_mut() {
            waits.push(seconds)?;
        }
        Ok(())
    }
}

impl Clock for Double {
    fn monotonic(&self) -> io::Result<Duration> {
        let readings = self.tape.readings.get();
        if readings == 0 {
            return Err(ErrorKind::Other.into());
        }
        self.tape.readings.set(readings.saturating_sub(1));
        let now = self.tape.now.get();
        self.tape.now.set(now.saturating_add(self.tape.step));
        Ok(Duration::from_secs(now))
    }

    fn since_1970(&self) -> io::Result<Duration> {
        Err(ErrorKind::Unsupported.into())
    }
}

impl Net for Double {
    type Stream = Socket;

    type Listener = NoListener;

    fn bind(&self, _addr: SocketAddr) -> io::Result<NoListener> {
        Err(ErrorKind::Unsupported.into())
    }

    fn connect(&self, _addr: SocketAddr) -> io::Result<Socket> {
        Err(ErrorKind::Unsupported.into())
    }

    fn connect_timeout(&self, _addr: SocketAddr, timeout: Duration) -> io::Result<Socket> {
        self.tape.wait(Some(timeout))?;
        Ok(Socket {
            tape: self.tape.clone()?,
            writing: self.writing,
            failed_writes: 0,
            reading: self.reading,
            failed_reads: 0,
            left: self.answer,
        })
    }
}

impl OpenListener for NoListener {
    type Stream = Socket;

    fn accept(&self) -> io::Result<(Socket, SocketAddr)> {
        Err(ErrorKind::Unsupported.into())
    }
}

impl AsRawFd for NoListener {
    fn as_raw_fd(&self) -> RawFd {
        -1
    }
}

impl AsRawFd for Socket {
    fn as_raw_fd(&self) -> RawFd {
        -1
    }
}

impl OpenStream for Socket {
    fn set_read_timeout(&self, dur: Option<Duration>) -> io::Result<()> {
        self.tape.wait(dur)
    }

    fn set_write_timeout(&self, dur: Option<Duration>) -> io::Result<()> {
        self.tape.wait(dur)
    }
}

impl Read for Socket {
    fn read(&mut self, buf: &mut [u8]) -> io::Result<usize> {
        one_more(&self.tape.reads);
        let room = buf.len().min(self.left);
        let count = self.reading.take(&mut self.failed_reads, room)?.min(room);
        buf[..count].fill(b'x');
        self.left = self.left.saturating_sub(count);
        Ok(count)
    }
}

impl Write for Socket {
    fn write(&mut self, buf: &[u8]) -> io::Result<usize> {
        one_more(&self.tape.writes);
        let count = self
            .writing
            .take(&mut self.failed_writes, buf.len())?
            .min(buf.len());
        if let Ok(mut sent) = self.tape.sent.try_borrow_mut() {
            sent.extend_from_slice(&buf[..count])?;
        }
        Ok(count)
    }

    fn flush(&mut self) -> io::Result<()> {
        Ok(())
    }
}

// How the sockets write and read, how long the answer is, how many readings the clock gives, and their step in seconds.
#[derive(Clone, Copy)]
struct Plan {
    writing: Habit,
    reading: Habit,
    answer: usize,
    readings: u64,
    step: u64,
}

const WELL: Habit = Habit {
    kind: ErrorKind::Other,
    times: 0,
    piece: 65_536,
};

const PLAN: Plan = Plan {
    writing: WELL,
    reading: WELL,
    answer: 3,
    readings: 1_000_000,
    step: 0,
};

fn network(rt: &impl Abort, alloc: Global, plan: &Plan) -> (Double, Rc<Tape>) {
    let tape = Tape {
        step: plan.step,
        now: Cell::new(0),
        readings: Cell::new(plan.readings),
        waits: RefCell::new(Vec::new(alloc)),
        sent: RefCell::new(Vec::new(alloc)),
        writes: Cell::new(0),
        reads: Cell::new(0),
    };
    let tape = Rc::new(alloc, tape).expect(rt, "memory");
    let network = Double {
        tape: tape.clone().expect(rt, "memory"),
        writing: plan.writing,
        reading: plan.reading,
        answer: plan.answer,
    };
    (network, tape)
}

// How many bytes came, or the fault by its number.
fn came_of(rt: &impl Abort, alloc: Global, came: Result<Vec<u8>, WireFault>) -> String {
    match came {
        Ok(bytes) => printed(rt, alloc, &bytes.len()),
        Err(WireFault::Read) => printed(rt, alloc, &"X2"),
        Err(WireFault::Write) => printed(rt, alloc, &"X3"),
        Err(WireFault::Connect) => printed(rt, alloc, &"X8"),
        Err(fault) => printed(rt, alloc, &fault),
    }
}

// How much was sent, which is a front of the request.
fn sent_on(rt: &impl Abort, tape: &Tape) -> usize {
    let sent = tape.sent.try_borrow().expect(rt, "what was sent");
    assert!(rt; REQUEST.starts_with(sent.as_slice()), "another request");
    sent.len()
}

// What an exchange gives, how many faults are counted, how much of the request was sent, in how many writes, and how many
// reads there were.
fn reported<L: Link>(rt: &impl Abort, alloc: Global, link: &mut L, tape: &Tape) -> String {
    let came = came_of(rt, alloc, link.exchange(alloc, REQUEST));
    let sent = sent_on(rt, tape);
    let (writes, reads) = (tape.writes.get(), tape.reads.get());
    format!(in alloc; "{came} {} {sent} {writes} {reads}", link.faults()).expect(rt, "memory")
}

// A link over a double, whose exchanges may take ten seconds.
fn linked(rt: &impl Abort, alloc: Global, network: Double) -> TcpLink<Double> {
    let address = printed(rt, alloc, &"127.0.0.1:1");
    TcpLink::new(network, address).with_limit(Duration::from_secs(10))
}

fn reported_of(rt: &impl Abort, alloc: Global, plan: &Plan) -> String {
    let (network, tape) = network(rt, alloc, plan);
    reported(rt, alloc, &mut linked(rt, alloc, network), &tape)
}

fn assert_plan(rt: &impl Abort, alloc: Global, plan: &Plan, wanted: &str) {
    let reported = reported_of(rt, alloc, plan);
    assert!(rt; reported.as_str() == wanted, "{reported}, and not {wanted}");
}

// With calls that fail so before each that succeeds, and take so many bytes then.
fn with_writes(kind: ErrorKind, times: u32, piece: usize) -> Plan {
    let mut plan = PLAN;
    plan.writing = Habit { kind, times, piece };
    plan
}

fn with_reads(kind: ErrorKind, times: u32, piece: usize) -> Plan {
    let mut plan = PLAN;
    plan.reading = Habit { kind, times, piece };
    plan
}

// How often each call is interrupted, how much it takes then, and what an exchange tells of such writes and of such reads.
const INTERRUPTED: [(u32, usize, &str, &str); 6] = [
    (0, 65_536, "3 0 18 1 2", "3 0 18 1 2"),
    (1, 7, "3 0 18 6 2", "3 0 18 1 4"),
    (5, 7, "3 0 18 18 2", "3 0 18 1 12"),
    (999, 7, "3 0 18 3000 2", "3 0 18 1 2000"),
    (5, 1, "3 0 18 108 2", "3 0 18 1 24"),
    (1_000, 7, "X3 1 0 1000 0", "X2 1 18 1 1000"),
];

#[test]
fn interrupted_calls(rt: HostRuntime) {
    for (times, piece, written, read) in &INTERRUPTED {
        let plan = with_writes(ErrorKind::Interrupted, *times, *piece);
        assert_plan(&rt, rt.alloc(), &plan, written);
        let plan = with_reads(ErrorKind::Interrupted, *times, *piece);
        assert_plan(&rt, rt.alloc(), &plan, read);
    }
}

// What an exchange tells where each write fails so: only an interrupted one is made once more.
fn failed_write(kind: ErrorKind) -> &'static str {
    match kind {
        ErrorKind::Interrupted => "X3 1 0 1000 0",
        ErrorKind::TimedOut | ErrorKind::WouldBlock => "X2 1 0 1 0",
        _ => "X3 1 0 1 0",
    }
}

// The same of reads.
fn failed_read(kind: ErrorKind) -> &'static str {
    match kind {
        ErrorKind::Interrupted => "X2 1 18 1 1000",
        _ => "X2 1 18 1 1",
    }
}

#[test]
fn calls_that_fail(rt: HostRuntime) {
    for kind in &KINDS {
        let plan = with_writes(*kind, u32::MAX, 7);
        assert_plan(&rt, rt.alloc(), &plan, failed_write(*kind));
        let plan = with_reads(*kind, u32::MAX, 7);
        assert_plan(&rt, rt.alloc(), &plan, failed_read(*kind));
    }
    let plan = with_writes(ErrorKind::Other, 0, 0);
    assert_plan(&rt, rt.alloc(), &plan, "X3 1 0 1 0");
}

// After how many readings the clock fails, and what an exchange tells of a server that gives a byte at each read.
const READINGS: [(u64, &str); 6] = [
    (0, "X8 1 0 0 0"),
    (1, "X8 1 0 0 0"),
    (2, "X2 1 0 0 0"),
    (3, "X2 1 18 1 0"),
    (4, "X2 1 18 1 1"),
    (9, "X2 1 18 1 6"),
];

// A clock that cannot be read ends an exchange at once.
#[test]
fn clock_that_fails(rt: HostRuntime) {
    for (readings, wanted) in &READINGS {
        let mut plan = with_reads(ErrorKind::Other, 0, 1);
        plan.answer = 1_000;
        plan.readings = *readings;
        assert_plan(&rt, rt.alloc(), &plan, wanted);
    }
}

// Whether the calls of an exchange may wait so many seconds, one after another.
fn has_waits(rt: &impl Abort, tape: &Tape, wanted: &[u64]) -> bool {
    let waits = tape.waits.try_borrow().expect(rt, "the waits");
    waits.as_slice() == wanted
}

// Each call may wait for what is left of the limit, and the last ends with it.
#[test]
fn time_that_is_left(rt: HostRuntime) {
    let mut plan = with_reads(ErrorKind::Other, 0, 1);
    plan.answer = 1_000;
    plan.step = 1;
    let (network, tape) = network(&rt, rt.alloc(), &plan);
    let mut link = linked(&rt, rt.alloc(), network);
    let reported = reported(&rt, rt.alloc(), &mut link, &tape);
    assert!(rt; reported.as_str() == "X2 1 18 1 7", "{reported}");
    assert!(rt;
        has_waits(&rt, &tape, &[9, 8, 7, 6, 5, 4, 3, 2, 1]),
        "other waits"
    );
}

// A network whose clock goes on by a second with each reading, and whose servers give a byte at each read.
fn slow_network(rt: &impl Abort, alloc: Global) -> (Double, Rc<Tape>) {
    let mut plan = with_reads(ErrorKind::Other, 0, 1);
    plan.answer = 1_000;
    plan.step = 1;
    network(rt, alloc, &plan)
}

// What an exchange tells over a link that was hastened and then hastened so, and whether its calls may wait so many seconds.
fn assert_hastened<L: Link>(
    rt: &impl Abort,
    alloc: Global,
    link: &mut L,
    tape: &Tape,
    millis: Option<u64>,
    wanted: &str,
    waits: &[u64],
) {
    link.hasten(Some(2_000));
    link.hasten(millis);
    let reported = reported(rt, alloc, link, tape);
    assert!(rt; reported.as_str() == wanted, "{reported}");
    assert!(rt; has_waits(rt, tape, waits), "other waits");
}

// The last that hastened a link counts, and the limit where it is less.
#[test]
fn time_that_is_left_of_a_query(rt: HostRuntime) {
    let (network, tape) = slow_network(&rt, rt.alloc());
    let mut link = linked(&rt, rt.alloc(), network);
    assert_hastened(
        &rt,
        rt.alloc(),
        &mut link,
        &tape,
        Some(5_000),
        "X2 1 18 1 1",
        &[3, 2, 1],
    );
}

#[test]
fn time_of_a_query_beyond_the_limit(rt: HostRuntime) {
    for millis in [None, Some(60_000), Some(u64::MAX)] {
        let (network, tape) = slow_network(&rt, rt.alloc());
        let mut link = linked(&rt, rt.alloc(), network);
        assert_hastened(
            &rt,
            rt.alloc(),
            &mut link,
            &tape,
            millis,
            "X2 1 18 1 7",
            &[9, 8, 7, 6, 5, 4, 3, 2, 1],
        );
    }
}

// An exchange has a millisecond at least. (The clock stands still, so it ends in time.)
#[test]
fn time_of_a_query_that_is_over(rt: HostRuntime) {
    let (network, tape) = network(&rt, rt.alloc(), &PLAN);
    let mut link = linked(&rt, rt.alloc(), network);
    link.hasten(Some(0));
    let reported = reported(&rt, rt.alloc(), &mut link, &tape);
    assert!(rt; reported.as_str() == "3 0 18 1 2", "{reported}");
}

// A monitored link hastens the link inside.
#[test]
fn monitored_link_is_hastened(rt: HostRuntime) {
    let (network, tape) = slow_network(&rt, rt.alloc());
    let health = Arc::new(
        rt.alloc(),
        Health::new(rt.alloc(), 1, 0).expect(&rt, "memory"),
    )
    .ok()
    .expect(&rt, "memory");
    let inside = linked(&rt, rt.alloc(), network);
    let mut link = MonitoredLink::new(inside, &rt, 0, Asker::Query, health);
    assert_hastened(
        &rt,
        rt.alloc(),
        &mut link,
        &tape,
        Some(5_000),
        "X2 1 18 1 1",
        &[3, 2, 1],
    );
}

// Two exchanges: the link keeps both, the last first.
fn exchanged_twice<N: Net + Clock>(
    alloc: Global,
    link: &mut TcpLink<N>,
    first: &[u8],
    second: &[u8],
) -> (Result<Vec<u8>, WireFault>, Result<Vec<u8>, WireFault>)
    ensures { link.new.made ≡ record { request = second.now; came = came_of result.1 }
        ∷ record { request = first.now; came = came_of result.0 } ∷ link.old.made }
{
    let came = link.exchange(alloc, first);
    let came_next = link.exchange(alloc, second);
    (came, came_next)
}

fn has_sent(rt: &impl Abort, tape: &Tape, wanted: &[u8]) -> bool {
    let sent = tape.sent.try_borrow().expect(rt, "what was sent");
    sent.as_slice() == wanted
}

// Whether it is what each server answers.
fn is_answer(came: &Result<Vec<u8>, WireFault>) -> bool {
    match came {
        Ok(bytes) => bytes.as_slice() == b"xxx".as_slice(),
        Err(_) => false,
    }
}

// What a link keeps of two exchanges was sent, and came.
#[test]
fn exchanges_are_kept(rt: HostRuntime) {
    let (network, tape) = network(&rt, rt.alloc(), &PLAN);
    let mut link = linked(&rt, rt.alloc(), network);
    let (came, came_next) = exchanged_twice(rt.alloc(), &mut link, b"north", b"south");
    assert!(rt; has_sent(&rt, &tape, b"northsouth"), "another request");
    assert!(rt; is_answer(&came) && is_answer(&came_next), "another answer");
}
