//! What is logged.
use druid_segment_descriptor::Mark;
use druid_telemetry_log::{
    Event, Fall, Level, Log, Outage, ROOM, Refusals, Report, code_in, line_of, open, write_lines,
};
use druid_time::Instant;
use std::alloc::Global;
use std::io::{ErrorKind, Write};
use std::process::Abort;
use std::sync::Wait;
use std::thread::{Threads, join};
use std::time::Clock;
use std::{io, str};

// Asserts the line of an event of a server `n0` at an instant, at a level.
fn assert_line(rt: &impl Abort, alloc: Global, level: Level, event: &Event<'_>, wanted: &str) {
    let at = Instant::parse("2024-05-02T09:30:00.250Z").expect(rt, "an instant");
    let line = line_of(alloc, level, at, "n0", event).expect(rt, "memory");
    let line = line.as_ref().map_or("", |line| line.as_str());
    assert!(rt; line == wanted, "{line}");
}

#[test]
fn lines_of_files(rt: HostRuntime) {
    let alloc = rt.alloc();
    let event = Event::Loaded { file: "a.seg" };
    let wanted =
        "{\"at\":\"2024-05-02T09:30:00.250Z\",\"event\":\"loaded\",\"file\":\"a.seg\",\"server\":\"n0\"}\n";
    assert_line(&rt, alloc, Level::Info, &event, wanted);
    assert_line(&rt, alloc, Level::Debug, &event, wanted);
    assert_line(&rt, alloc, Level::Off, &event, "");
    let event = Event::Dropped { file: "\"\n" };
    let wanted =
        "{\"at\":\"2024-05-02T09:30:00.250Z\",\"event\":\"dropped\",\"file\":\"\\\"\\n\",\"server\":\"n0\"}\n";
    assert_line(&rt, alloc, Level::Info, &event, wanted);
    let event = Event::Refused {
        file: "a.seg",
        code: "N2: F4",
    };
    let wanted =
        "{\"at\":\"2024-05-02T09:30:00.250Z\",\"code\":\"N2: F4\",\"event\":\"refused\",\"file\":\"a.seg\",\"server\":\"n0\"}\n";
    assert_line(&rt, alloc, Level::Info, &event, wanted);
}

#[test]
fn lines_of_nodes(rt: HostRuntime) {
    let alloc = rt.alloc();
    let event = Event::Lost {
        node: "n1",
        code: "K1: X8",
    };
    let wanted =
        "{\"at\":\"2024-05-02T09:30:00.250Z\",\"code\":\"K1: X8\",\"event\":\"lost\",\"node\":\"n1\",\"server\":\"n0\"}\n";
    assert_line(&rt, alloc, Level::Info, &event, wanted);
    let event = Event::Found {
        node: "n1",
        failed: 7,
    };
    let wanted =
        "{\"at\":\"2024-05-02T09:30:00.250Z\",\"event\":\"found\",\"failed\":7,\"node\":\"n1\",\"server\":\"n0\"}\n";
    assert_line(&rt, alloc, Level::Info, &event, wanted);
    let event = Event::Fell {
        node: "n1",
        held: Mark::new(5, 12),
        shown: Mark::new(1, 3),
    };
    let wanted =
        "{\"at\":\"2024-05-02T09:30:00.250Z\",\"event\":\"fell\",\"held\":{\"counter\":12,\"hash\":5},\"node\":\"n1\",\"server\":\"n0\",\"shown\":{\"counter\":3,\"hash\":1}}\n";
    assert_line(&rt, alloc, Level::Info, &event, wanted);
    let event = Event::Oversize {
        node: "n1",
        code: "TooLarge",
        exchanges: 2,
    };
    let wanted =
        "{\"at\":\"2024-05-02T09:30:00.250Z\",\"code\":\"TooLarge\",\"event\":\"oversize\",\"exchanges\":2,\"node\":\"n1\",\"server\":\"n0\"}\n";
    assert_line(&rt, alloc, Level::Info, &event, wanted);
}

#[test]
fn lines_of_connections(rt: HostRuntime) {
    let alloc = rt.alloc();
    let event = Event::Answered {
        route: "query",
        status: 200,
        milliseconds: 12,
        bytes: 340,
    };
    let wanted =
        "{\"at\":\"2024-05-02T09:30:00.250Z\",\"bytes\":340,\"event\":\"answered\",\"milliseconds\":12,\"route\":\"query\",\"server\":\"n0\",\"status\":200}\n";
    assert_line(&rt, alloc, Level::Debug, &event, wanted);
    assert_line(&rt, alloc, Level::Info, &event, "");
    let event = Event::Missed { lines: 2 };
    let wanted =
        "{\"at\":\"2024-05-02T09:30:00.250Z\",\"event\":\"missed\",\"lines\":2,\"server\":\"n0\"}\n";
    assert_line(&rt, alloc, Level::Info, &event, wanted);
}

#[test]
fn levels(rt: HostRuntime) {
    for (text, level) in [
        ("info", Level::Info),
        ("debug", Level::Debug),
        ("", Level::Off),
        ("Info", Level::Off),
        ("debug ", Level::Off),
    ] {
        assert!(&rt; Level::of_text(text) == level, "{text}");
    }
}

// Turns by a letter each, `f` one that failed, and what is logged of each: `b` it begins, a digit it ends after so many, `-` nothing.
#[test]
fn outages(rt: HostRuntime) {
    let mut outage = Outage::new();
    for (turn, logged) in "ssfffsssfsf".chars().zip("--b--3--b1b".chars()) {
        let report = match outage.turn(turn == 'f') {
            Report::Nothing => '-',
            Report::Begins => 'b',
            Report::Ends(1) => '1',
            Report::Ends(3) => '3',
            Report::Ends(_) => '?',
        };
        assert!(&rt; report == logged, "{report} {logged}");
    }
}

#[test]
fn falls(rt: HostRuntime) {
    let mut fall = Fall::new();
    for (shown, logged) in [
        (None, false),
        (Some(Mark::new(1, 0)), true),
        (Some(Mark::new(1, 1)), false),
        (Some(Mark::new(2, 0)), true),
        (None, false),
        (Some(Mark::new(2, 0)), true),
    ] {
        assert!(&rt; fall.show(shown) == logged);
    }
}

#[test]
fn refusals(rt: HostRuntime) {
    let mut refusals = Refusals::new(rt.alloc());
    for (name, code, logged) in [
        ("a.seg", "N2: F4", true),
        ("a.seg", "N2: F4", false),
        ("b.seg", "N2: F4", true),
        ("a.seg", "N2: F2", true),
        ("a.seg", "N2: F2", false),
        ("b.seg", "N2: F4", false),
    ] {
        assert!(&rt; refusals.refuse(name, code) == Ok(logged), "{name} {code}");
    }
    refusals.forget("a.seg");
    assert!(&rt; refusals.refuse("b.seg", "N2: F4") == Ok(false));
    assert!(&rt; refusals.refuse("a.seg", "N2: F2") == Ok(true));
}

#[test]
fn codes(rt: HostRuntime) {
    for (text, code) in [
        ("N2: F4: a row outside the interval", "N2: F4"),
        ("K1: X8: no connection", "K1: X8"),
        ("K4: status 503", "K4"),
        ("N6: no such file", "N6"),
        ("K1", "K1"),
        ("no code", ""),
    ] {
        assert!(&rt; code_in(text) == code, "{text}");
    }
}

// Tells of one event so often.
fn emit_often<R: Abort + Wait + Clock>(
    rt: &R,
    alloc: Global,
    level: Level,
    count: usize,
) -> String {
    let (log, lines) = open(alloc, level).expect(rt, "memory");
    for _ in 0..count {
        log.emit(rt, alloc, "n0", &Event::Loaded { file: "a.seg" });
    }
    drop(log);
    let mut out = Vec::new(alloc);
    if let Some(lines) = lines {
        write_lines(rt, alloc, &lines, &mut out);
    }
    let text = str::from_utf8(&out).expect(rt, "a text");
    String::from_str(alloc, text).expect(rt, "memory")
}

// What follows the instant in each line of a text: the lines and how many of them end so.
fn count_of(text: &str, end: &str) -> (usize, usize) {
    let ended = text.lines().filter(|line| line.ends_with(end)).count();
    (text.lines().count(), ended)
}

#[test]
fn queues(rt: HostRuntime) {
    let loaded = "\"event\":\"loaded\",\"file\":\"a.seg\",\"server\":\"n0\"}";
    let text = emit_often(&rt, rt.alloc(), Level::Info, 3);
    assert!(&rt; count_of(text.as_str(), loaded) == (3, 3), "{text}");
    assert!(&rt; emit_often(&rt, rt.alloc(), Level::Off, 3).as_str() == "");
    let text = emit_often(&rt, rt.alloc(), Level::Debug, ROOM + 6);
    assert!(&rt; count_of(text.as_str(), loaded) == (ROOM + 1, ROOM));
    let missed = "\"event\":\"missed\",\"lines\":6,\"server\":\"log\"}";
    assert!(&rt; count_of(text.as_str(), missed) == (ROOM + 1, 1));
}

// A writer that takes nothing.
#[derive(Drop)]
struct Closed;

impl Write for Closed {
    fn write(&mut self, _buf: &[u8]) -> io::Result<usize> {
        Err(ErrorKind::BrokenPipe.into())
    }

    fn flush(&mut self) -> io::Result<()> {
        Err(ErrorKind::BrokenPipe.into())
    }
}

// A writer that is closed ends nothing: all that tells goes on, and so does what takes lines, until the log is gone.
fn emitted_to_nobody<R: Abort + Wait + Clock>(rt: &R, alloc: Global) {
    let (log, lines) = open(alloc, Level::Info).expect(rt, "memory");
    for _ in 0..5 {
        log.emit(rt, alloc, "n0", &Event::Loaded { file: "a.seg" });
    }
    drop(log);
    if let Some(lines) = lines {
        write_lines(rt, alloc, &lines, &mut Closed);
    }
}

#[test]
fn closed_writers(rt: HostRuntime) {
    emitted_to_nobody(&rt, rt.alloc());
}

// Tells of so many connections.
fn report_connections<R: Wait + Clock>(rt: &R, alloc: Global, log: Log, count: u64) {
    for bytes in 0..count {
        let event = Event::Answered {
            route: "health",
            status: 200,
            milliseconds: 0,
            bytes,
        };
        log.emit(rt, alloc, "n0", &event);
    }
}

// What is written of so many connections by a thread beside the one that tells of them.
fn written_beside<R: Abort + Wait + Clock + Threads + Sync>(
    rt: &R,
    alloc: Global,
    count: u64,
) -> Vec<u8> {
    let (log, lines) = open(alloc, Level::Debug).expect(rt, "memory");
    let lines = lines.expect(rt, "a queue");
    let mut out = Vec::new(alloc);
    join(
        rt,
        move || report_connections(rt, alloc, log, count),
        || write_lines(rt, alloc, &lines, &mut out),
    );
    out
}

// Each line comes, since there is room for all.
#[test]
fn threads(rt: HostRuntime) {
    let out = written_beside(&rt, rt.alloc(), 100);
    let text = str::from_utf8(&out).expect(&rt, "a text");
    let answered = "\"route\":\"health\",\"server\":\"n0\",\"status\":200}";
    assert!(&rt; count_of(text, answered) == (100, 100));
}
