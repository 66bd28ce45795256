//! Lines on their way to a writer: a queue that is full before anybody waits, and the thread that
//! writes what stands in it. The kit's `log` is not used: here an event is a value, whose line is
//! exact.
ghost use Rattle.std.specs.Prelude.{◌≡◌, ◌↔◌, ◌⊎◌, ◌++◌, List, ℕ, None, IfOk};
ghost use Rattle.std.specs.Io.KnownBytes.{Appends};
ghost use Rattle.druid_stream.specs.Fronts.{AppendsFront};
ghost use Rattle.druid_telemetry_log.specs.declared.level.Level.TheVariants.{Off};

use crate::event::Event;
use crate::level::Level;
use crate::line::line_of;
use crossbeam_channel::{Receiver, Sender, bounded};
use druid_stream::write_text;
use druid_time::Instant;
use std::alloc::{AllocError, Global};
use std::io::Write;
use std::sync::atomic::{AtomicU64, Ordering};
use std::sync::{Arc, Wait};
use std::time::{Clock, SystemTime, UNIX_EPOCH};

/// The most lines that wait for the writer.
pub const ROOM: usize = 1_024;

/// Where events are logged: a queue of lines, which threads share.
#[derive(Drop)]
pub struct Log {
    level: Level,
    queue: Option<Sender<String>>,
    // The lines that found no room since the last that was written.
    missed: Arc<AtomicU64, Global>,
}

/// The other end: what the thread that writes takes lines from.
#[derive(Drop)]
pub struct Lines {
    queue: Receiver<String>,
    missed: Arc<AtomicU64, Global>,
}

/// A log of that level, and its other end: of `Off` none, since nothing is logged.
///
/// # Errors
///
/// Out of memory.
pub fn open(alloc: Global, level: Level) -> Result<(Log, Option<Lines>), AllocError>
    ensures level { IfOk result (λ opened. opened.0.level ≡ level) }
    ensures lines { IfOk result (λ opened. (opened.1 ≡ None) ↔ (level ≡ Off)) }
{
    let missed = Arc::new(alloc, AtomicU64::new(0))?;
    if level == Level::Off {
        let log = Log {
            level,
            queue: None,
            missed,
        };
        return Ok((log, None));
    }
    let (sender, receiver) = bounded(alloc, ROOM)?;
    let lines = Lines {
        queue: receiver,
        missed: Arc::try_clone(&missed)?,
    };
    let log = Log {
        level,
        queue: Some(sender),
        missed,
    };
    Ok((log, Some(lines)))
}

/// The instant of now; 1970 where the clock cannot be read.
pub fn now<C: Clock>(clock: &C) -> Instant {
    let Ok(time) = SystemTime::now(clock) else {
        return at_ms(0);
    };
    match time.duration_since(UNIX_EPOCH) {
        Ok(since) => at_ms(u64::try_from(since.as_millis()).unwrap_or(0)),
        Err(_) => at_ms(0),
    }
}

// The instant of so many milliseconds after 1970, and 1970 where they are too many.
fn at_ms(ms: u64) -> Instant {
    match Instant::new(i64::try_from(ms).unwrap_or(0)) {
        Some(instant) => instant,
        None => Instant::new(0).unwrap(),
    }
}

impl Log {
    /// How much is logged.
    pub fn level(&self) -> Level
        ensures { result ≡ self.now.level }
    {
        self.level
    }

    /// Tells of an event of a server. It does not wait for the writer: where the queue is full, or memory runs out, the line is
    /// lost, and counted for the next `Missed`.
    pub fn emit<R: Wait + Clock>(&self, rt: &R, alloc: Global, server: &str, event: &Event<'_>) {
        let Some(queue) = &self.queue else {
            return;
        };
        match line_of(alloc, self.level, now(rt), server, event) {
            Ok(None) => {}
            Ok(Some(line)) => {
                if queue.try_send(rt, line).is_err() {
                    self.missed.fetch_add(1, Ordering::SeqCst);
                }
            }
            Err(_) => {
                self.missed.fetch_add(1, Ordering::SeqCst);
            }
        }
    }
}

// Writes a line; a writer that fails is passed over.
fn write_line<W: Write>(line: &str, out: &mut W)
    ensures { Appends (W.contents out.old) (W.contents out.new) line.now ⊎ AppendsFront (W.contents out.old) (W.contents out.new) line.now }
{
    match write_text(out, line.as_bytes()) {
        Ok(()) => {}
        Err(_) => {}
    }
}

// Writes how many lines were lost, if some were.
fn write_missed<C: Clock, W: Write>(clock: &C, alloc: Global, lines: u64, out: &mut W) {
    if lines == 0 {
        return;
    }
    let event = Event::Missed { lines };
    if let Ok(Some(line)) = line_of(alloc, Level::Info, now(clock), "log", &event) {
        write_line(line.as_str(), out);
    }
}

/// Writes lines as they come, until the log is gone: what the thread of a log does. A writer that fails or is closed ends nothing,
/// and one that blocks holds this thread alone.
pub fn write_lines<R: Wait + Clock, W: Write>(rt: &R, alloc: Global, lines: &Lines, out: &mut W) {
    for _ in rt.forever() {
        match lines.queue.recv(rt) {
            Ok(line) => {
                write_missed(rt, alloc, lines.missed.swap(0, Ordering::SeqCst), out);
                write_line(line.as_str(), out);
                let _ = out.flush();
            }
            Err(_) => return,
        }
    }
}
