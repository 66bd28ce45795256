//! What comes from outside: sockets, and those who connect to them. That a worker rests and goes on
//! where accepting fails is read in the code alone: over loopback it does not fail.
ghost use Rattle.std.specs.Prelude.{List};
ghost use Rattle.std.specs.List.{FoldsTo};

use crate::fault::DeviceFailed;
use std::alloc::Global;
use std::net::{Net, SocketAddr, TcpListener, TcpStream};
use std::sync::Wait;
use std::thread;
use std::time::{Clock, Duration};

/// How long one read or one write waits for whoever connected, in seconds. Then the connection is given up, so one that keeps
/// silent holds a worker for no longer.
pub const PEER_SECONDS: u64 = 30;

// How long a worker rests after no connection could be accepted, in milliseconds: the cause may last.
const REST_MILLISECONDS: u64 = 10;

/// A listener at an address.
///
/// # Errors
///
/// `DeviceFailed`, also where the text is no address.
pub fn listen<R: Net<Listener = TcpListener, Stream = TcpStream>>(
    rt: &R,
    address: &str,
) -> Result<TcpListener, DeviceFailed> {
    let Ok(address) = address.parse::<SocketAddr>() else {
        return Err(DeviceFailed);
    };
    match TcpListener::bind(rt, address) {
        Ok(listener) => Ok(listener),
        Err(_) => Err(DeviceFailed),
    }
}

// Limits how long one read or one write of a connection waits, and tells whether that could be done.
pub(crate) fn limit_to(stream: &TcpStream, limit: Duration) -> bool {
    let limit = Some(limit);
    stream.set_read_timeout(limit).is_ok() && stream.set_write_timeout(limit).is_ok()
}

/// Limits how long a connection waits.
///
/// # Errors
///
/// False where that cannot be done.
pub fn limit(stream: &TcpStream) -> bool {
    limit_to(stream, Duration::from_secs(PEER_SECONDS))
}

/// Answers the connections of a listener, one after another, by a worker that each answer takes and gives back; it rests where none
/// could be accepted.
pub fn answer_each<R: Wait + Clock, W, F: Fn(W, TcpStream) -> W>(
    rt: &R,
    listener: &TcpListener,
    worker: W,
    answer: F,
) -> W
    requires { (before : W) (stream : _) → F.pre answer before stream }
    ensures { (streams : List _) × FoldsTo (λ before stream after. F.post answer before stream after) worker streams result }
{
    let mut worker = worker;
    for stream in listener.incoming() {
        match stream {
            Ok(stream) => worker = answer(worker, stream),
            Err(_) => thread::sleep(rt, Duration::from_millis(REST_MILLISECONDS)),
        }
    }
    worker
}
