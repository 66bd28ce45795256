//! The log of the program, and the thread that writes it.
ghost use Rattle.std.specs.Prelude.{◌≡◌, IfOk};
ghost use Rattle.druid_telemetry_log.specs.Levels.{level_of_text};

use druid_serve_base::DeviceFailed;
use druid_telemetry_log::{Level, Lines, Log, open, write_lines};
use std::alloc::Global;
use std::io::Write;
use std::sync::{Arc, Wait};
use std::thread;
use std::thread::Threads;
use std::time::Clock;

// Starts the thread that writes lines.
fn start_writer<
    R: Wait + Threads + Clock + Copy + Send + Sync + 'static,
    E: Write + Drop + Send + 'static,
>(rt: &R, alloc: Global, lines: Lines, out: E) -> Result<(), DeviceFailed> {
    let rt = *rt;
    let job = move || {
        let mut out = out;
        write_lines(&rt, alloc, &lines, &mut out);
    };
    match thread::spawn(&rt, job) {
        Ok(thread) => {
            drop(thread);
            Ok(())
        }
        Err(_) => Err(DeviceFailed),
    }
}

/// A log of the level that a text names, `info` or `debug`, whose lines a thread writes to the writer as they come; of any other text
/// nothing is logged, and there is no thread.
///
/// # Errors
///
/// `DeviceFailed`: no thread, or memory.
pub fn start_log<
    R: Wait + Threads + Clock + Copy + Send + Sync + 'static,
    E: Write + Drop + Send + 'static,
>(rt: &R, alloc: Global, level: &str, out: E) -> Result<Arc<Log, Global>, DeviceFailed>
    ensures { IfOk result (λ log. log.value.level ≡ level_of_text level.now) }
{
    let (log, lines) = open(alloc, Level::of_text(level))?;
    if let Some(lines) = lines {
        start_writer(rt, alloc, lines, out)?;
    }
    Ok(Arc::new(alloc, log)?)
}
