//! What a server counts while it answers, in cells that no writer waits for.
ghost use Rattle.std.specs.Prelude.{◌≡◌, ◌+◌, ◌<◌, ◌≤◌, Some, IfOk, length, vec_len, slice_get};
ghost use Rattle.druid_telemetry_metrics.specs.Families.{number_at};
ghost use Rattle.druid_telemetry_metrics.specs.Routes.{cell_of, bucket_of};

use crate::route::{Route, status_place};
use std::alloc::{AllocError, Global};
use std::marker::Model;
use std::sync::atomic::{AtomicU64, Ordering};

/// The bounds of the buckets of durations, in microseconds.
pub const BOUNDS: [u64; 13] = [
    1_000, 5_000, 10_000, 25_000, 50_000, 100_000, 250_000, 500_000, 1_000_000, 2_500_000,
    5_000_000, 10_000_000, 30_000_000,
];

/// Numbers that threads raise and read in single steps, none of which waits or allocates. What they hold no contract says.
#[derive(Drop)]
pub struct Counts {
    cells: Vec<AtomicU64>,
}

impl Counts {
    /// So many numbers, each 0.
    ///
    /// # Errors
    ///
    /// Out of memory.
    pub fn new(alloc: Global, count: usize) -> Result<Counts, AllocError>
        ensures { IfOk result (λ counts. vec_len counts.cells ≡ count) }
    {
        let mut cells = Vec::with_capacity(alloc, count)?;
        for _place in 0..count {
            cells.push(AtomicU64::new(0))?;
        }
        Ok(Counts { cells })
    }

    /// How many there are.
    pub fn len(&self) -> usize
        ensures { result ≡ vec_len self.now.cells }
    {
        self.cells.len()
    }

    /// Raises the number at a place, where there is one.
    pub fn add(&self, place: usize, more: u64) {
        if let Some(cell) = self.cells.get(place) {
            cell.fetch_add(more, Ordering::SeqCst);
        }
    }

    /// Sets the number at a place, where there is one.
    pub fn set(&self, place: usize, number: u64) {
        if let Some(cell) = self.cells.get(place) {
            cell.store(number, Ordering::SeqCst);
        }
    }

    /// The number at a place, 0 where there is none.
    pub fn number(&self, place: usize) -> u64 {
        match self.cells.get(place) {
            Some(cell) => cell.load(Ordering::SeqCst),
            None => 0,
        }
    }

    /// The numbers, one read after another.
    ///
    /// # Errors
    ///
    /// Out of memory.
    pub fn read(&self, alloc: Global) -> Result<Vec<u64>, AllocError>
        ensures { IfOk result (λ numbers. vec_len numbers ≡ vec_len self.now.cells) }
    {
        let mut numbers = Vec::with_capacity(alloc, self.cells.len())?;
        for cell in &self.cells {
            numbers.push(cell.load(Ordering::SeqCst))?;
        }
        Ok(numbers)
    }
}

/// The bucket of a duration: how many of the bounds it is above.
pub fn bucket_of(micros: u64) -> usize
    ensures value { result ≡ bucket_of micros }
    ensures few { result ≤ 13 }
{
    BOUNDS.iter().filter(|bound| **bound < micros).count()
}

/// The cell in which the answer of a route with a status is counted; no status where nothing was written.
pub fn cell_of(route: Route, status: Option<u16>) -> usize
    ensures value { result ≡ cell_of route status }
    ensures few { result < 56 }
{
    7 * route.place() + status_place(status)
}

// The places of the sums: the connections that were taken, the bytes that were written, and the microseconds that answers took.
const CONNECTIONS: usize = 0;

const BYTES: usize = 1;

const MICROS: usize = 2;

/// What a server counts.
#[derive(Drop)]
pub struct Meter {
    sums: Counts,
    // By route and status.
    answers: Counts,
    // By bucket, those above the last bound at the end.
    durations: Counts,
}

impl Meter {
    /// One that has counted nothing.
    ///
    /// # Errors
    ///
    /// Out of memory.
    pub fn new(alloc: Global) -> Result<Meter, AllocError>
        ensures answers { IfOk result (λ meter. vec_len meter.answers.cells ≡ 56) }
        ensures durations { IfOk result (λ meter. vec_len meter.durations.cells ≡ 14) }
    {
        Ok(Meter {
            sums: Counts::new(alloc, 3)?,
            answers: Counts::new(alloc, 56)?,
            durations: Counts::new(alloc, 14)?,
        })
    }

    /// Counts a connection, as it is taken.
    pub fn take(&self) {
        self.sums.add(CONNECTIONS, 1);
    }

    /// Counts what became of a connection: its route, the status that was written, if one was, how many bytes were, and how many
    /// microseconds it took from the first byte on.
    pub fn answer(&self, route: Route, status: Option<u16>, bytes: u64, micros: u64) {
        self.sums.add(BYTES, bytes);
        self.sums.add(MICROS, micros);
        self.answers.add(cell_of(route, status), 1);
        self.durations.add(bucket_of(micros), 1);
    }

    /// What was counted so far: each number is one that it had while this was called.
    ///
    /// # Errors
    ///
    /// Out of memory.
    pub fn read(&self, alloc: Global) -> Result<Readings, AllocError>
        ensures answers { IfOk result (λ readings. length readings.answers ≡ vec_len self.now.answers.cells) }
        ensures durations { IfOk result (λ readings. length readings.durations ≡ vec_len self.now.durations.cells) }
    {
        Ok(Readings {
            connections: self.sums.number(CONNECTIONS),
            bytes: self.sums.number(BYTES),
            micros: self.sums.number(MICROS),
            answers: self.answers.read(alloc)?,
            durations: self.durations.read(alloc)?,
        })
    }
}

/// What a server had counted when it was read.
#[derive(Debug, Drop)]
pub struct Readings {
    connections: u64,
    bytes: u64,
    micros: u64,
    // By the cell of their route and status.
    answers: Vec<u64>,
    // By bucket.
    durations: Vec<u64>,
}

impl Model for Readings {
    ghost use Rattle.druid_telemetry_metrics.specs.Families as specs;

    ghost Value = { specs.Readings };

    ghost view = { λ a. record { connections = a.connections; bytes = a.bytes; micros = a.micros; answers = a.answers.items; durations = a.durations.items } };
}

// The number at a place, 0 where there is none.
pub(crate) fn number_at(numbers: &[u64], place: usize) -> u64
    ensures { result ≡ number_at numbers.now place }
{
    numbers.get(place).copied().unwrap_or(0)
}

impl Readings {
    /// The connections that were taken.
    pub fn connections(&self) -> u64
        ensures { result ≡ self.now.connections }
    {
        self.connections
    }

    /// The bytes that were written.
    pub fn bytes(&self) -> u64
        ensures { result ≡ self.now.bytes }
    {
        self.bytes
    }

    /// The microseconds that answers took, together.
    pub fn micros(&self) -> u64
        ensures { result ≡ self.now.micros }
    {
        self.micros
    }

    /// How often a route was answered with a status; no status where nothing was written.
    pub fn answers(&self, route: Route, status: Option<u16>) -> u64
        ensures { result ≡ number_at self.now.answers (cell_of route status) }
    {
        number_at(&self.answers, cell_of(route, status))
    }

    /// How many answers each bucket of durations has; that after the last bound's took longer than it.
    pub fn durations(&self) -> &[u64]
        ensures { result.now ≡ self.now.durations }
    {
        &self.durations
    }
}
