//! The front threads of a server, where it has some: they wait for its clients, and its workers
//! answer jobs.
ghost use Rattle.std.specs.Prelude.{◌≡◌, nat_le, IfOk};
ghost use Rattle.druid_serve_base.specs.Sources.{has_front};

use crate::fault::DeviceFailed;
use crate::gate::Gate;
use druid_serve_front::{Front, Jobs, Place, open};
use std::alloc::{AllocError, Global};
use std::net::TcpListener;
use std::sync::{Arc, Wait};
use std::thread;
use std::thread::Threads;
use std::time::Clock;

// What a front thread does: one connection after another, of which those count that were answered and came once the gate was open.
fn wait_for_clients<R: Wait + Clock>(
    rt: &R,
    alloc: Global,
    front: &Front,
    place: &Place,
    gate: &Gate,
) {
    for _ in rt.forever() {
        let connection = front.next(rt, place);
        let counts = gate.is_open(rt);
        if front.serve(rt, alloc, connection).is_some() && counts {
            gate.add(rt);
        }
    }
}

// Starts the front thread of a place.
fn start_place<R: Wait + Threads + Clock + Copy + Send + Sync + 'static>(
    rt: &R,
    alloc: Global,
    front: &Arc<Front, Global>,
    place: Place,
    gate: &Arc<Gate, Global>,
) -> Result<(), DeviceFailed> {
    let rt = *rt;
    let front = Arc::try_clone(front)?;
    let gate = Arc::try_clone(gate)?;
    let job = move || wait_for_clients(&rt, alloc, &front, &place, &gate);
    match thread::spawn(&rt, job) {
        Ok(thread) => {
            drop(thread);
            Ok(())
        }
        Err(_) => Err(DeviceFailed),
    }
}

// Starts the thread that accepts the connections of a front.
fn start_accepting<R: Wait + Threads + Clock + Copy + Send + Sync + 'static>(
    rt: &R,
    front: Arc<Front, Global>,
    listener: &Arc<TcpListener, Global>,
) -> Result<(), DeviceFailed> {
    let rt = *rt;
    let listener = Arc::try_clone(listener)?;
    match thread::spawn(&rt, move || front.accept_on(&rt, &listener)) {
        Ok(thread) => {
            drop(thread);
            Ok(())
        }
        Err(_) => Err(DeviceFailed),
    }
}

// Starts so many front threads over a listener, and last the one that accepts, so that where this fails nobody does; and gives where
// workers find their jobs. They go on until the program ends. (That a thread does its part no clause can say.)
fn start_front<R: Wait + Threads + Clock + Copy + Send + Sync + 'static>(
    rt: &R,
    alloc: Global,
    listener: &Arc<TcpListener, Global>,
    threads: u16,
    gate: &Arc<Gate, Global>,
) -> Result<Arc<Jobs, Global>, DeviceFailed> {
    let (front, places, jobs) = open(alloc, threads)?;
    let front = Arc::new(alloc, front)?;
    let jobs = Arc::new(alloc, jobs)?;
    for place in places {
        start_place(rt, alloc, &front, place, gate)?;
    }
    start_accepting(rt, front, listener)?;
    Ok(jobs)
}

/// Where a worker's requests come from.
#[derive(Drop)]
pub enum Source {
    /// Connections of a listener, whose clients the worker waits for.
    Connections(Arc<TcpListener, Global>),
    /// Jobs of a front, whose threads wait for clients.
    Front(Arc<Jobs, Global>),
}

impl Source {
    /// The source of a server's workers: its listener where it has no front threads, and else a front of so many, which are started
    /// and count at the gate the connections that they answered.
    ///
    /// # Errors
    ///
    /// `DeviceFailed`: a thread, or memory. Threads that were started stay, and no connection is
    /// accepted (tested).
    pub fn open<R: Wait + Threads + Clock + Copy + Send + Sync + 'static>(
        rt: &R,
        alloc: Global,
        threads: u16,
        listener: Arc<TcpListener, Global>,
        gate: &Arc<Gate, Global>,
    ) -> Result<Source, DeviceFailed>
        ensures { IfOk result (λ source. has_front source ≡ nat_le 1 threads) }
    {
        if threads == 0 {
            return Ok(Source::Connections(listener));
        }
        let jobs = start_front(rt, alloc, &listener, threads, gate)?;
        Ok(Source::Front(jobs))
    }

    /// The same, for another thread.
    ///
    /// # Errors
    ///
    /// Out of memory.
    pub fn share(&self) -> Result<Source, AllocError>
        ensures { IfOk result (λ source. has_front source ≡ has_front self.now) }
    {
        match self {
            Source::Connections(listener) => Ok(Source::Connections(Arc::try_clone(listener)?)),
            Source::Front(jobs) => Ok(Source::Front(Arc::try_clone(jobs)?)),
        }
    }
}
