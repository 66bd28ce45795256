//! The threads of a front: one accepts connections, and others wait for their clients.
ghost use Rattle.std.specs.Prelude.{◌≡◌, ℕ, List, IfOk, IfSome, vec_len};
ghost use Rattle.std.specs.Io.KnownBytes.{Appends};
ghost use Rattle.druid_http_wire.specs.Missing.{IsAnswerable};
ghost use Rattle.druid_serve_front.specs.Answers.{IsAnswer};

use crate::connection_end::close_answered;
use crate::jobs::{Job, JobAnswer, Jobs};
use crate::request::{ANSWER_SECONDS, read_whole};
use crate::seats::{Seat, Seats};
use crossbeam_channel::{Receiver, RecvTimeoutError, Sender, TryRecvError, bounded};
use druid_link::{Timer, send_all};
use std::alloc::{AllocError, Global};
use std::io::Write;
use std::net::{OpenStream, Shutdown, TcpListener, TcpStream};
use std::sync::{Condvar, Mutex, Wait};
use std::thread;
use std::time::{Clock, Duration, Instant};

// How long the acceptor rests after no connection could be accepted, in milliseconds: the cause may last.
const REST_MILLISECONDS: u64 = 10;

// After how many milliseconds it looks again whether a connection is to be closed for the one that waits.
const LOOK_MILLISECONDS: u64 = 10;

// After how many seconds a front thread that waits for its answer looks whether there are workers.
const WORKER_SECONDS: u64 = 1;

// A connection, and its stream once more, by which another thread can shut it down.
#[derive(Drop)]
struct Arrival {
    stream: TcpStream,
    twin: TcpStream,
}

// What lies under the lock.
#[derive(Drop)]
struct Hall {
    seats: Seats,
    // What was accepted, until a thread takes it.
    arrival: Option<Arrival>,
    // The stream of each thread's connection once more.
    twins: Vec<Option<TcpStream>>,
}

/// What the threads of a front share. So many front threads hold so many connections: each with one request in memory, and one
/// answer, within the limits of the formats. One more connection waits in the hand of the thread that accepts, and others with the
/// system.
#[derive(Drop)]
pub struct Front {
    hall: Mutex<Hall>,
    // A connection was accepted.
    accepted: Condvar,
    // A thread took it.
    taken: Condvar,
    queue: Sender<Job>,
    // Nothing comes by it: once the workers are gone it is cut off.
    workers: Receiver<u8>,
}

/// The place of a front thread.
#[derive(Drop)]
pub struct Place {
    number: usize,
}

/// A connection that a front thread holds.
#[derive(Drop)]
pub struct Connection {
    place: usize,
    stream: TcpStream,
    start: Instant,
}

/// A front of so many threads, a place for each, and where workers find its jobs.
///
/// # Errors
///
/// Out of memory.
pub fn open(alloc: Global, threads: u16) -> Result<(Front, Vec<Place>, Jobs), AllocError>
    ensures { IfOk result (λ front. vec_len front.1 ≡ threads) }
{
    let count = threads as usize;
    let mut twins = Vec::with_capacity(alloc, count)?;
    let mut places = Vec::with_capacity(alloc, count)?;
    for number in 0..count {
        twins.push(None)?;
        places.push(Place { number })?;
    }
    let (sender, receiver) = bounded(alloc, count.max(1))?;
    let (life, workers) = bounded(alloc, 1)?;
    let hall = Hall {
        seats: Seats::new(alloc, count)?,
        arrival: None,
        twins,
    };
    let front = Front {
        hall: Mutex::new(hall),
        accepted: Condvar::new(),
        taken: Condvar::new(),
        queue: sender,
        workers: workers,
    };
    Ok((front, places, Jobs::new(receiver, life)))
}

// The time of a wait. None where the clock cannot be read.
fn nanos<C: Clock>(clock: &C) -> Option<u64> {
    match clock.monotonic() {
        Ok(time) => u64::try_from(time.as_nanos()).ok(),
        Err(_) => None,
    }
}

impl Hall {
    // Shuts down the connection that is to be closed for the one that waits, if one is.
    fn make_room<C: Clock>(&mut self, clock: &C) {
        let Some(now) = nanos(clock) else {
            return;
        };
        let Some(place) = self.seats.close_longest(now) else {
            return;
        };
        if let Some(Some(twin)) = self.twins.get(place) {
            let _ = twin.shutdown(Shutdown::Both);
        }
    }

    // Seats the connection that was accepted. None where there is none, or the clock cannot be read: then it is closed.
    fn seat<C: Clock>(&mut self, clock: &C, place: usize) -> Option<Connection> {
        let Arrival { stream, twin } = self.arrival.take()?;
        let Ok(start) = Instant::now(clock) else {
            return None;
        };
        let since = nanos(clock)?;
        self.seats.set(place, Seat::Waits(since));
        self.hold(place, Some(twin));
        Some(Connection {
            place,
            stream,
            start,
        })
    }

    // Keeps the stream of that place's connection once more, or lets it go.
    fn hold(&mut self, place: usize, twin: Option<TcpStream>) {
        if place < self.twins.len() {
            self.twins[place] = twin;
        }
    }
}

impl Front {
    /// Accepts connections for ever, and gives each to a thread that is free. Where none is, the connection is shut down of the
    /// thread that waits longest for its client, once that is a tenth of a second. What one thread does.
    pub fn accept_on<R: Wait + Clock>(&self, rt: &R, listener: &TcpListener) {
        for stream in listener.incoming() {
            match stream {
                Ok(stream) => self.admit(rt, stream),
                Err(_) => thread::sleep(rt, Duration::from_millis(REST_MILLISECONDS)),
            }
        }
    }

    // Waits until a thread has taken the connection, and makes room for it where none is free.
    fn admit<R: Wait + Clock>(&self, rt: &R, stream: TcpStream) {
        let Ok(twin) = stream.try_clone() else {
            return;
        };
        let hall = self.hall.lock(rt);
        let mut hall = self
            .taken
            .wait_while(rt, hall, |hall| hall.arrival.is_some());
        hall.arrival = Some(Arrival { stream, twin });
        self.accepted.notify_one();
        for _ in rt.forever() {
            if hall.arrival.is_none() {
                return;
            }
            hall.make_room(rt);
            let look = Duration::from_millis(LOOK_MILLISECONDS);
            hall = self.taken.wait_timeout(rt, hall, look).0;
        }
    }

    /// Waits for a connection: from now on the thread at that place waits for its client. (What lies under the lock no clause can say.)
    pub fn next<R: Wait + Clock>(&self, rt: &R, place: &Place) -> Connection {
        for _ in rt.forever() {
            let hall = self.hall.lock(rt);
            let mut hall = self
                .accepted
                .wait_while(rt, hall, |hall| hall.arrival.is_none());
            let seated = hall.seat(rt, place.number);
            drop(hall);
            self.taken.notify_all();
            if let Some(connection) = seated {
                return connection;
            }
        }
        unreachable!()
    }

    /// Reads the request of a connection whole, hands it to a worker, writes the answer, and closes
    /// the connection: the status of the answer, where it was written whole. (What a socket gets no
    /// clause can say; `send` says it of any stream.)
    ///
    /// # Errors
    ///
    /// None where the request does not come whole within its time, the connection was closed for
    /// another's sake, no worker answered, the answer was not taken, the clock cannot be read, or
    /// memory runs out. The connection is closed; the client may have some front of the answer.
    pub fn serve<R: Wait + Clock>(
        &self,
        rt: &R,
        alloc: Global,
        connection: Connection,
    ) -> Option<u16> {
        let Connection {
            place,
            stream,
            start,
        } = connection;
        let mut stream = stream;
        let status = self.converse(rt, alloc, place, start, &mut stream);
        if let Some(status) = status {
            close_answered(rt, status, stream);
        }
        self.leave(rt, place);
        status
    }

    // Reads a request and writes its answer, and gives its status.
    fn converse<R: Wait + Clock>(
        &self,
        rt: &R,
        alloc: Global,
        place: usize,
        start: Instant,
        stream: &mut TcpStream,
    ) -> Option<u16> {
        let request = read_whole(rt, alloc, start, stream)?;
        if !self.asks(rt, place) {
            return None;
        }
        let answer = self.ask(rt, alloc, request)?;
        if !self.waits(rt, place) {
            return None;
        }
        send(rt, &answer, stream)
    }

    // From now on the thread waits for a worker, where its connection was not closed for another's sake.
    fn asks<R: Wait>(&self, rt: &R, place: usize) -> bool {
        let mut hall = self.hall.lock(rt);
        if hall.seats.at(place) == Some(Seat::Closed) {
            return false;
        }
        hall.seats.set(place, Seat::Asks);
        true
    }

    // From now on the thread waits for its client again, where the clock can be read.
    fn waits<R: Wait + Clock>(&self, rt: &R, place: usize) -> bool {
        let Some(since) = nanos(rt) else {
            return false;
        };
        let mut hall = self.hall.lock(rt);
        hall.seats.set(place, Seat::Waits(since));
        true
    }

    // From now on the thread is free.
    fn leave<R: Wait>(&self, rt: &R, place: usize) {
        let mut hall = self.hall.lock(rt);
        hall.seats.set(place, Seat::Free);
        hall.hold(place, None);
    }

    // Hands a request to a worker, and waits for its answer. None where the worker lets the job go, the workers are gone, or memory
    // runs out.
    fn ask<R: Wait + Clock>(&self, rt: &R, alloc: Global, request: Vec<u8>) -> Option<JobAnswer>
        requires { IsAnswerable request.items }
    {
        let Ok((reply, answers)) = bounded(alloc, 1) else {
            return None;
        };
        if self.queue.send(rt, Job::new(request, reply)).is_err() {
            return None;
        }
        for _ in rt.forever() {
            match answers.recv_timeout(rt, Duration::from_secs(WORKER_SECONDS)) {
                Ok(answer) => return Some(answer),
                Err(RecvTimeoutError::Disconnected) => return None,
                Err(RecvTimeoutError::Timeout) => {
                    if self.are_workers_gone(rt) {
                        return None;
                    }
                }
            }
        }
        unreachable!()
    }

    fn are_workers_gone<R: Wait>(&self, rt: &R) -> bool {
        matches!(self.workers.try_recv(rt), Err(TryRecvError::Disconnected))
    }
}

// Writes an answer within its time, and gives its status where it was written whole.
fn send<C: Clock, S: Write + OpenStream>(
    clock: &C,
    answer: &JobAnswer,
    stream: &mut S,
) -> Option<u16>
    ensures { IfSome result (λ sent. (bytes : List ℕ) × IsAnswer sent bytes × Appends (S.contents stream.old) (S.contents stream.new) bytes) }
{
    let Ok(start) = Instant::now(clock) else {
        return None;
    };
    let timer = Timer::new(start, Duration::from_secs(ANSWER_SECONDS));
    match send_all(clock, &timer, stream, answer.bytes()) {
        Ok(()) => Some(answer.status()),
        Err(_) => None,
    }
}
