//! The status address of a server: what it answers whatever holds the server's other workers.
ghost use Rattle.std.specs.Prelude.{◌≡◌, ◌⊎◌, IfOk, bytes_eq, codes};
ghost use Rattle.std.specs.Io.KnownBytes.{Appends};
ghost use Rattle.druid_http_message.specs.Requests.{path_of};
ghost use Rattle.druid_telemetry_metrics.specs.Routes.{route_at};
ghost use Rattle.druid_http_wire.specs.Served.{Gets, Reports};
ghost use Rattle.druid_telemetry_metrics.specs.Response.{response_text};
ghost use Rattle.druid_serve_base.specs.StatusAnswers.{AnswersLoad, AnswersMetrics, AnswersStatus, IsAnsweredThere, IsPage, IsRefusedThere, IsWritten, ReportsLoad, loaded_text};
ghost use Rattle.druid_serve_base.specs.declared.status.StatusAnswer.TheVariants.{Short};

use crate::fault::DeviceFailed;
use crate::sockets::{answer_each, limit_to};
use druid_http_message::{Request, WireFault};
use druid_http_wire::{Response, read_request, refuse_request, send_response};
use druid_serve_front::close_answered;
use druid_stream::write_text;
use druid_telemetry_metrics::{Route, metrics_response};
use http::StatusCode;
use std::alloc::{AllocError, Global};
use std::io::{BufRead, BufReader, BufWriter, Write};
use std::net::{TcpListener, TcpStream};
use std::sync::Wait;
use std::thread;
use std::thread::Threads;
use std::time::{Clock, Duration};

/// How long one read or one write of a status address waits for whoever connected, in seconds.
pub const STATUS_SECONDS: u64 = 5;

/// What a server tells at its status address.
pub trait Status {
    ghost use Rattle.std.specs.Prelude.{◌≡◌, Bool, Option, is_some};

    /// Whether it follows nodes.
    ghost follows: { Bool };

    /// Its metrics, in the text form that Prometheus reads.
    ///
    /// # Errors
    ///
    /// Out of memory.
    fn metrics(&self, alloc: Global) -> Result<Vec<u8>, AllocError>;

    /// Whether each node that it follows was synced; None where it follows none.
    fn is_loaded(&self) -> Option<bool>
        ensures { is_some result ≡ Self.follows };
}

/// An answer of a status address.
#[derive(Drop)]
pub enum StatusAnswer {
    /// As servers answer everywhere.
    Short(Response),
    /// A page of metrics.
    Page(Vec<u8>),
}

// Whether each node was synced.
fn load_status(loaded: bool) -> Response
    ensures { Reports 200 (loaded_text loaded) result.status result.body }
{
    if loaded {
        Response::of_static(StatusCode::OK, "{\"inventoryInitialized\":true}")
    } else {
        Response::of_static(StatusCode::OK, "{\"inventoryInitialized\":false}")
    }
}

// The answer to a request for whether each node was synced.
fn answer_load(request: &Request, loaded: bool) -> Response
    ensures { Gets request.now ReportsLoad result.status result.body }
{
    if !request.has_method("GET") {
        return Response::other_method();
    }
    load_status(loaded)
}

// The metrics of a server.
fn page_of<S: Status>(alloc: Global, status: &S) -> StatusAnswer
    ensures { IsPage result }
{
    match status.metrics(alloc) {
        Ok(page) => StatusAnswer::Page(page),
        Err(_) => StatusAnswer::Short(Response::out_of_memory()),
    }
}

// The answer to a request for the metrics of a server.
fn answer_metrics<S: Status>(alloc: Global, request: &Request, status: &S) -> StatusAnswer
    ensures { AnswersMetrics (bytes_eq request.now.method (codes "GET")) result }
{
    if !request.has_method("GET") {
        return StatusAnswer::Short(Response::other_method());
    }
    page_of(alloc, status)
}

// The answer to a request at the route of the load status.
fn answer_loaded<S: Status>(request: &Request, status: &S) -> Response
    ensures { AnswersLoad S.follows request.now (Short result) }
{
    match status.is_loaded() {
        Some(loaded) => answer_load(request, loaded),
        None => Response::no_route(),
    }
}

// What a server answers to a request at a route.
fn answer_route<S: Status>(
    alloc: Global,
    route: Route,
    request: &Request,
    status: &S,
) -> StatusAnswer
    ensures { AnswersStatus S.follows route request.now result }
{
    match route {
        Route::Health => StatusAnswer::Short(Response::health(request)),
        Route::Metrics => answer_metrics(alloc, request, status),
        Route::LoadStatus => StatusAnswer::Short(answer_loaded(request, status)),
        Route::Query | Route::Datasources | Route::Segments | Route::Inventory | Route::Other =>
            StatusAnswer::Short(Response::no_route()),
    }
}

/// What a server answers to a request at its status address: `GET` of `/status/health` with `true`, of `/metrics` with its metrics,
/// and, where it follows nodes, of `/druid/broker/v1/loadstatus` with whether each was synced. Another method there is answered
/// 405, and another path 404; 500 where memory runs out for the metrics.
pub fn answer_status<S: Status>(alloc: Global, request: &Request, status: &S) -> StatusAnswer
    ensures { AnswersStatus S.follows (route_at (path_of request.now.target)) request.now result }
{
    let route = Route::of_path(request.path().as_bytes());
    answer_route(alloc, route, request, status)
}

// Writes a page of metrics.
fn send_page<W: Write>(alloc: Global, page: &[u8], writer: &mut W) -> Result<u16, WireFault>
    ensures { IfOk result (λ sent. Appends (W.contents writer.old) (W.contents writer.new) (response_text page.now) × (sent ≡ 200)) }
{
    let text = metrics_response(alloc, page)?;
    match write_text(writer, &text) {
        Ok(()) => Ok(200),
        Err(_) => Err(WireFault::Write),
    }
}

// Writes an answer, and gives the status that was written.
fn send_status<W: Write>(
    alloc: Global,
    answer: &StatusAnswer,
    writer: &mut W,
) -> Result<u16, WireFault>
    ensures { IfOk result (IsWritten (W.contents writer.old) (W.contents writer.new) answer.now) }
{
    match answer {
        StatusAnswer::Short(response) => send_response(response, writer),
        StatusAnswer::Page(page) => send_page(alloc, page, writer),
    }
}

/// Reads one request of a status address and writes the answer, and gives the status that was
/// written. Where no request was read, X4 to X7 are answered 400 with their number. Nothing is
/// flushed.
///
/// # Errors
///
/// X1, X2 or X9 where no request was read; X3 or X9 of the writer (no clause).
pub fn serve_status_one<S: Status, B: BufRead, W: Write>(
    alloc: Global,
    status: &S,
    reader: &mut B,
    writer: &mut W,
) -> Result<u16, WireFault>
    ensures { IfOk result (λ sent.
        IsAnsweredThere S.follows (B.remaining reader.old) (B.remaining reader.new) (W.contents writer.old) (W.contents writer.new) sent
        ⊎ IsRefusedThere (B.remaining reader.old) (W.contents writer.old) (W.contents writer.new) sent) }
{
    match read_request(alloc, reader) {
        Ok(request) => {
            let answer = answer_status(alloc, &request, status);
            send_status(alloc, &answer, writer)
        }
        Err(fault) => refuse_request(fault, writer),
    }
}

// Answers one connection, and gives the status that was written, if an answer was.
fn answer<S: Status>(alloc: Global, status: &S, stream: &TcpStream) -> Option<u16> {
    if !limit_to(stream, Duration::from_secs(STATUS_SECONDS)) {
        return None;
    }
    let mut reader = BufReader::new(alloc, stream).ok()?;
    let mut writer = BufWriter::new(alloc, stream).ok()?;
    let sent = serve_status_one(alloc, status, &mut reader, &mut writer).ok()?;
    writer.flush().ok()?;
    Some(sent)
}

/// Starts a thread that answers at a status address for as long as connections come.
///
/// # Errors
///
/// `DeviceFailed`: no thread.
pub fn start_status<
    R: Wait + Threads + Clock + Copy + Send + Sync + 'static,
    S: Status + Drop + Send + 'static,
>(rt: &R, alloc: Global, listener: TcpListener, status: S) -> Result<(), DeviceFailed> {
    let rt = *rt;
    match thread::spawn(&rt, move || serve_status(&rt, alloc, &status, &listener)) {
        Ok(thread) => {
            drop(thread);
            Ok(())
        }
        Err(_) => Err(DeviceFailed),
    }
}

// Answers the connections of a status address, one after another, for as long as they come.
fn serve_status<R: Wait + Clock, S: Status>(
    rt: &R,
    alloc: Global,
    status: &S,
    listener: &TcpListener,
) {
    answer_each(rt, listener, (), |_: (), stream: TcpStream| {
        if let Some(sent) = answer(alloc, status, &stream) {
            close_answered(rt, sent, stream);
        }
    });
}
