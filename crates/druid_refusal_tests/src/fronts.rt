//! Fronts: opened, shared by workers, and a request that is served over a socket of this machine.
ghost use Rattle.std.specs.Prelude.{◌≡◌, [], IfSome};
ghost use Rattle.druid_serve_front.specs.Answers.{IsAnswer};

use crate::marks::{assert_call, begin, end};
use druid_http_wire::{Response, send_response};
use druid_serve_base::{DeviceFailed, Gate, Source};
use druid_serve_front::{Front, Job, Jobs, Place, Seats, answer_jobs, open};
use http::StatusCode;
use std::alloc::{AllocError, Global};
use std::io::{Read, Write};
use std::net::{Net, TcpListener, TcpStream};
use std::process::Abort;
use std::sync::{Arc, Wait};
use std::thread;
use std::thread::Threads;
use std::time::Clock;

// What a front asks of the machine that it runs on, all but its sockets.
trait Host: Wait + Threads + Clock + Abort + Copy + Send + Sync + 'static {}

impl<R: Wait + Threads + Clock + Abort + Copy + Send + Sync + 'static> Host for R {}

fn opens(rt: &impl Abort, alloc: Global) {
    begin(rt, alloc);
    let opened = end(rt, alloc, open(alloc, 3));
    assert_call(
        rt,
        "serve_front::open",
        match &opened {
            Ok((_, places, _)) => places.len() == 3,
            Err(AllocError) => true,
        },
    );
    begin(rt, alloc);
    let seats = end(rt, alloc, Seats::new(alloc, 3));
    assert_call(
        rt,
        "Seats::new",
        match &seats {
            Ok(seats) => seats.at(2).is_some(),
            Err(AllocError) => true,
        },
    );
}

fn shares(rt: &impl Abort, alloc: Global) {
    let (_front, _places, jobs) = open(alloc, 1).expect(rt, "memory");
    let source = Source::Front(Arc::new(alloc, jobs).expect(rt, "memory"));
    begin(rt, alloc);
    let shared = end(rt, alloc, source.share());
    assert_call(
        rt,
        "Source::share",
        matches!(&shared, Ok(Source::Front(_)) | Err(AllocError)),
    );
}

// A request, and the text that answers it.
const REQUEST: &[u8] = b"POST / HTTP/1.1\r\nContent-Length: 3\r\n\r\nabc";

const TEXT: &str = "def";

// Writes the answer. None where memory runs out.
#[tactic(auto, using(druid_serve_front::proofs::AnswerLemmas::sent_is_answer))]
fn write_answer(alloc: Global, bytes: &mut Vec<u8>) -> Option<u16>
    requires { bytes.old.items ≡ [] }
    ensures { IfSome result (λ status. IsAnswer status bytes.new.items) }
{
    let text = String::from_str(alloc, TEXT).ok()?;
    let response = Response::of_text(StatusCode::OK, text);
    match send_response(&response, bytes) {
        Ok(status) => Some(status),
        Err(_) => None,
    }
}

// Answers a job, or lets it go.
fn answer<R: Wait>(rt: &R, alloc: Global, job: Job) {
    let mut bytes = Vec::new(alloc);
    if let Some(status) = write_answer(alloc, &mut bytes) {
        job.answer(rt, status, bytes);
    }
}

// What a worker does: how many jobs it took.
fn work<R: Wait>(rt: &R, alloc: Global, jobs: &Jobs) -> u64 {
    answer_jobs(rt, jobs, 0, |count: u64, job: Job| {
        answer(rt, alloc, job);
        count.saturating_add(1)
    })
}

// A front of one place, whose connections the test serves, and where it is.
#[derive(Drop)]
struct Standing {
    front: Arc<Front, Global>,
    place: Place,
    address: String,
}

// Starts the thread that accepts the connections of a front, and a worker, which end with the program.
fn start<R: Host + Net<Listener = TcpListener, Stream = TcpStream>>(
    rt: &R,
    alloc: Global,
) -> Standing {
    let listener = TcpListener::bind(rt, "127.0.0.1:0").expect(rt, "a listener");
    let address = listener.local_addr().expect(rt, "an address");
    let address = format!(in alloc; "{address}").expect(rt, "memory");
    let (front, places, jobs) = open(alloc, 1).expect(rt, "memory");
    let mut places = places;
    let place = places.pop().expect(rt, "a place");
    let front = Arc::new(alloc, front).expect(rt, "memory");
    let (host, shared) = (*rt, Arc::try_clone(&front).expect(rt, "memory"));
    thread::spawn(rt, move || shared.accept_on(&host, &listener)).expect(rt, "a thread");
    thread::spawn(rt, move || drop(work(&host, alloc, &jobs))).expect(rt, "a thread");
    Standing {
        front,
        place,
        address,
    }
}

// What a request comes to: the status that is given, and all that its client got until the connection was closed.
#[derive(Drop)]
struct Served {
    status: Option<u16>,
    came: Vec<u8>,
}

// Serves a request, between marks where it is to be.
fn serve<R: Host + Net<Listener = TcpListener, Stream = TcpStream>>(
    rt: &R,
    alloc: Global,
    standing: &Standing,
    is_marked: bool,
) -> Served {
    let mut client = TcpStream::connect(rt, standing.address.as_str()).expect(rt, "a connection");
    client.write_all(REQUEST).expect(rt, "a request");
    let connection = standing.front.next(rt, &standing.place);
    if is_marked {
        begin(rt, alloc);
    }
    let status = standing.front.serve(rt, alloc, connection);
    if is_marked {
        end(rt, alloc, ());
    }
    let mut came = Vec::new(alloc);
    client.read_to_end(&mut came).expect(rt, "an end");
    Served { status, came }
}

// Whether a request was answered so.
fn is_whole(served: &Served, whole: &[u8]) -> bool {
    served.status == Some(200) && served.came.as_slice() == whole
}

// Where memory runs out, of the front thread or of the worker, the connection is closed without an answer, and the next is served.
fn serves<R: Host + Net<Listener = TcpListener, Stream = TcpStream>>(rt: &R, alloc: Global) {
    let standing = start(rt, alloc);
    let first = serve(rt, alloc, &standing, false);
    let whole = first.came.as_slice();
    assert_call(
        rt,
        "before Front::serve",
        first.status == Some(200) && whole.ends_with(b"\r\n\r\ndef"),
    );
    let second = serve(rt, alloc, &standing, true);
    assert_call(
        rt,
        "of Front::serve",
        is_whole(&second, whole) || second.status.is_none() && second.came.is_empty(),
    );
    let third = serve(rt, alloc, &standing, false);
    assert_call(rt, "then Front::serve", is_whole(&third, whole));
}

// Where it is refused, the listener is left to whoever else has it: no connection is accepted.
fn sources<R: Host + Net<Listener = TcpListener, Stream = TcpStream>>(rt: &R, alloc: Global) {
    let listener = TcpListener::bind(rt, "127.0.0.1:0").expect(rt, "a listener");
    let address = listener.local_addr().expect(rt, "an address");
    let listener = Arc::new(alloc, listener).expect(rt, "memory");
    let kept = Arc::try_clone(&listener).expect(rt, "memory");
    let gate = Arc::new(alloc, Gate::new()).expect(rt, "memory");
    begin(rt, alloc);
    let opened = end(rt, alloc, Source::open(rt, alloc, 2, listener, &gate));
    let holds = match &opened {
        Ok(source) => matches!(source, Source::Front(_)),
        Err(DeviceFailed) => {
            let client = TcpStream::connect(rt, address).expect(rt, "a connection");
            kept.set_nonblocking(true).expect(rt, "a listener");
            let accepted = kept.accept();
            drop(client);
            accepted.is_ok()
        }
    };
    assert_call(rt, "of Source::open", holds);
}

#[test]
fn of_fronts(rt: HostRuntime) {
    opens(&rt, rt.alloc());
    shares(&rt, rt.alloc());
}

#[test]
fn of_connections(rt: HostRuntime) {
    serves(&rt, rt.alloc());
}

#[test]
fn of_sources(rt: HostRuntime) {
    sources(&rt, rt.alloc());
}
