//! What a server tells of its connections: counts, and lines of the log.
ghost use Rattle.std.specs.Prelude.{◌≡◌, IfOk, string_bytes};
ghost use Rattle.druid_telemetry_metrics.specs.Routes.{path_in, route_at};

use druid_telemetry_log::{Event, Level, Log};
use druid_telemetry_metrics::{Meter, Readings, Route, route_of_head};
use std::alloc::{AllocError, Global};
use std::io::BufRead;
use std::sync::{Arc, Wait};
use std::time::{Clock, Instant};

/// A connection of which the first bytes have come, or whose client ended it.
#[derive(Drop)]
pub struct Taken {
    route: Route,
    // When they came; None where the clock cannot be read.
    since: Option<Instant>,
}

impl Taken {
    // One whose first bytes are these, which came now.
    fn new<C: Clock>(clock: &C, head: &[u8]) -> Taken
        ensures { result.route ≡ route_at (path_in head.now) }
    {
        Taken {
            route: route_of_head(head),
            since: Instant::now(clock).ok(),
        }
    }
}

/// What a server tells of itself: the name that it has in the log and in its metrics, what it counts, and where it logs. Threads
/// count and log by it without waiting for each other. Cells and queues are not values, so of what is counted or logged no
/// contract speaks.
#[derive(Drop)]
pub struct Telemetry {
    name: String,
    meter: Arc<Meter, Global>,
    log: Arc<Log, Global>,
}

// The microseconds since then, where both clocks could be read, and else 0.
fn micros_since<C: Clock>(clock: &C, since: &Option<Instant>) -> u64 {
    let Some(since) = since else {
        return 0;
    };
    match since.elapsed(clock) {
        Ok(elapsed) => u64::try_from(elapsed.as_micros()).unwrap_or(u64::MAX),
        Err(_) => 0,
    }
}

impl Telemetry {
    /// That of a server of that name, which has counted nothing, over a log.
    ///
    /// # Errors
    ///
    /// Out of memory.
    pub fn new(alloc: Global, name: &str, log: &Arc<Log, Global>) -> Result<Telemetry, AllocError>
        ensures name { IfOk result (λ telemetry. string_bytes telemetry.name ≡ name.now) }
        ensures log { IfOk result (λ telemetry. telemetry.log.value ≡ log.now.value) }
    {
        Ok(Telemetry {
            name: String::from_str(alloc, name)?,
            meter: Arc::new(alloc, Meter::new(alloc)?)?,
            log: Arc::try_clone(log)?,
        })
    }

    /// The same, for another thread.
    ///
    /// # Errors
    ///
    /// Out of memory.
    pub fn share(&self) -> Result<Telemetry, AllocError>
        ensures name { IfOk result (λ telemetry. string_bytes telemetry.name ≡ string_bytes self.now.name) }
        ensures log { IfOk result (λ telemetry. telemetry.log.value ≡ self.now.log.value) }
    {
        Ok(Telemetry {
            name: self.name.clone()?,
            meter: Arc::try_clone(&self.meter)?,
            log: Arc::try_clone(&self.log)?,
        })
    }

    /// The name.
    pub fn name(&self) -> &str
        ensures { result.now ≡ string_bytes self.now.name }
    {
        self.name.as_str()
    }

    /// How much it logs.
    pub fn level(&self) -> Level
        ensures { result ≡ self.now.log.value.level }
    {
        self.log.level()
    }

    /// What was counted so far.
    ///
    /// # Errors
    ///
    /// Out of memory.
    pub fn read(&self, alloc: Global) -> Result<Readings, AllocError> {
        self.meter.read(alloc)
    }

    /// Tells of an event.
    pub fn emit<R: Wait + Clock>(&self, rt: &R, alloc: Global, event: &Event<'_>) {
        self.log.emit(rt, alloc, self.name.as_str(), event);
    }

    /// Counts a connection, waits for its first bytes, and notes when they came and what they ask
    /// for. They stay unread.
    ///
    /// # Errors
    ///
    /// None where the reader fails before they come, as where the client keeps silent: that is
    /// counted as one that was not answered.
    pub fn take<C: Clock, B: BufRead>(&self, clock: &C, reader: &mut B) -> Option<Taken> {
        self.meter.take();
        match reader.fill_buf() {
            Ok(head) => Some(Taken::new(clock, head)),
            Err(_) => {
                self.meter.answer(Route::Other, None, 0, 0);
                None
            }
        }
    }

    /// Counts a connection whose request was read whole, and notes when that came to a worker and what it asks for.
    pub fn take_whole<C: Clock>(&self, clock: &C, request: &[u8]) -> Taken
        ensures { result.route ≡ route_at (path_in request.now) }
    {
        self.meter.take();
        Taken::new(clock, request)
    }

    /// Counts and tells what became of a connection: the status that was written, if an answer was, and how many bytes were.
    pub fn end<R: Wait + Clock>(
        &self,
        rt: &R,
        alloc: Global,
        taken: &Taken,
        status: Option<u16>,
        bytes: u64,
    ) {
        let micros = micros_since(rt, &taken.since);
        self.meter.answer(taken.route, status, bytes, micros);
        let event = Event::Answered {
            route: taken.route.text(),
            status: status.unwrap_or(0),
            milliseconds: micros / 1_000,
            bytes,
        };
        self.emit(rt, alloc, &event);
    }
}
