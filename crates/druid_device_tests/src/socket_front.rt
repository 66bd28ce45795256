//! A front over a socket of this machine, and a worker that it feeds.
ghost use Rattle.std.specs.Prelude.{◌≡◌, [], IfSome};
ghost use Rattle.druid_serve_front.specs.Answers.{IsAnswer};

use druid_http_message::{Request, WireFault};
use druid_http_wire::{Response, read_request, refuse_request, send_response};
use druid_serve_front::{Front, Job, Jobs, Place, answer_jobs, open};
use http::StatusCode;
use std::alloc::Global;
use std::net::{Net, TcpListener, TcpStream};
use std::process::Abort;
use std::sync::{Arc, Wait};
use std::thread;
use std::thread::Threads;
use std::time::Clock;

// How many bytes an answer to `/large` has: more than sockets hold.
const LARGE: usize = 6_000_000;

/// What tests ask of the machine that they run on, all but its sockets.
pub(crate) trait Host: Wait + Threads + Clock + Abort + Copy + Send + Sync + 'static {}

impl<R: Wait + Threads + Clock + Abort + Copy + Send + Sync + 'static> Host for R {}

// The answer to a request, by its path.
fn response_to(alloc: Global, request: &Request) -> Option<Response> {
    match request.path() {
        "/large" => {
            let text = String::from_utf8(vec![in alloc; b'x'; LARGE].ok()?).ok()?;
            Some(Response::of_text(StatusCode::OK, text))
        }
        "/none" => None,
        _ => {
            let body = String::from_utf8_lossy(alloc, request.body()).ok()?;
            Some(Response::of_text(StatusCode::OK, body))
        }
    }
}

// Writes the answer to a request that was read, or was not.
#[tactic(auto, using(druid_serve_front::proofs::AnswerLemmas::sent_is_answer))]
fn write_answer(alloc: Global, read: Result<Request, WireFault>, bytes: &mut Vec<u8>) -> Option<u16>
    requires { bytes.old.items ≡ [] }
    ensures { IfSome result (λ status. IsAnswer status bytes.new.items) }
{
    match read {
        Ok(request) => {
            let response = response_to(alloc, &request)?;
            match send_response(&response, bytes) {
                Ok(status) => Some(status),
                Err(_) => None,
            }
        }
        Err(fault) => match refuse_request(fault, bytes) {
            Ok(status) => Some(status),
            Err(_) => None,
        },
    }
}

// Answers a job, or lets it go.
fn answer<R: Wait>(rt: &R, alloc: Global, job: Job) {
    let mut bytes = Vec::new(alloc);
    let mut request = job.request();
    let read = read_request(alloc, &mut request);
    if let Some(status) = write_answer(alloc, read, &mut bytes) {
        job.answer(rt, status, bytes);
    }
}

// What a worker does: how many jobs it took.
fn work<R: Wait>(rt: &R, alloc: Global, jobs: &Jobs) -> u64 {
    answer_jobs(rt, jobs, 0, |count: u64, job: Job| {
        answer(rt, alloc, job);
        count.saturating_add(1)
    })
}

// What a front thread does.
fn wait_for_clients<R: Wait + Clock>(rt: &R, alloc: Global, front: &Front, place: &Place) {
    for _ in rt.forever() {
        let connection = front.next(rt, place);
        let _ = front.serve(rt, alloc, connection);
    }
}

fn start<R: Host, F: FnOnce() + Send + 'static>(rt: &R, job: F)
    requires { F.pre job }
{
    match thread::spawn(rt, job) {
        Ok(thread) => drop(thread),
        Err(_) => panic!(rt; "no thread"),
    }
}

fn start_thread<R: Host>(rt: &R, alloc: Global, front: &Arc<Front, Global>, place: Place) {
    let (host, front) = (*rt, Arc::try_clone(front).expect(rt, "memory"));
    start(rt, move || wait_for_clients(&host, alloc, &front, &place));
}

/// Starts a front of so many threads and a worker, which end with the program, and gives their address.
pub(crate) fn started<R: Host + Net<Listener = TcpListener, Stream = TcpStream>>(
    rt: &R,
    alloc: Global,
    threads: u16,
) -> String {
    let listener = TcpListener::bind(rt, "127.0.0.1:0").expect(rt, "a listener");
    let address = listener.local_addr().expect(rt, "an address");
    let address = format!(in alloc; "{address}").expect(rt, "memory");
    let (front, places, jobs) = open(alloc, threads).expect(rt, "memory");
    let front = Arc::new(alloc, front).expect(rt, "memory");
    for place in places {
        start_thread(rt, alloc, &front, place);
    }
    let host = *rt;
    start(rt, move || drop(work(&host, alloc, &jobs)));
    start(rt, move || front.accept_on(&host, &listener));
    address
}

/// A connection to an address.
pub(crate) fn connected<N: Net<Stream = TcpStream> + Abort>(net: &N, address: &str) -> TcpStream {
    TcpStream::connect(net, address).expect(net, "a connection")
}
