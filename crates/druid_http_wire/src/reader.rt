//! Messages, read from a `BufRead`, so that nothing after the body is taken of the reader.
ghost use Rattle.std.specs.Prelude.{◌≡◌, ◌↔◌, ◌⊎◌, ◌+◌, ℕ, List, true, Some, OnOk, OnErr, IfOk, IfErr, IfSome};
ghost use Rattle.std.specs.IoError.{error_kind};
ghost use Rattle.httparse.specs.Spans.{span_bytes};
ghost use Rattle.druid_stream.specs.Taken.{TakesAtMost};
ghost use Rattle.druid_http_wire.specs.Frame.{IsFramed};
ghost use Rattle.druid_http_wire.specs.Limits.{max_head, max_body, most_taken};
ghost use Rattle.druid_http_wire.specs.Bodies.{EndsBody};
ghost use Rattle.druid_http_wire.specs.HeadParts.{ReportsRequest, LacksHead, LacksBody};
ghost use Rattle.druid_http_wire.specs.Messages.{IsRequest, IsResponse, HasFault, IsOfBytes, RequestSays, ResponseSays};

use crate::body::read_body;
use crate::frame::{HeadEnd, find_head};
use crate::framed::split_head;
use crate::head::{RequestParts, parse_request_head, parse_response_head};
use druid_http_message::{Request, WireFault};
use http::method::MethodError;
use http::{Method, StatusCode};
use std::alloc::Global;
use std::io::{BufRead, Error, ErrorKind};
use std::str;

// The fault of a failed read: `Memory` where it ran out of memory, and `Read` where it failed for anything else.
fn read_fault(error: &Error) -> WireFault
    ensures memory { (result ≡ WireFault.Memory) ↔ (error_kind error.now ≡ ErrorKind.OutOfMemory) }
    ensures fault { (result ≡ WireFault.Read) ⊎ (result ≡ WireFault.Memory) }
{
    match error.kind() {
        ErrorKind::OutOfMemory => WireFault::Memory,
        _ => WireFault::Read,
    }
}

// Reads a head, and the blank lines before it, which are not kept but count.
fn take_head<R: BufRead>(reader: &mut R, head: &mut Vec<u8>) -> Result<(), WireFault>
    ensures ok { OnOk result (IfSome (R.remaining reader.old)
        (λ input. (rest : List ℕ) × (R.remaining reader.new ≡ Some rest) × IsFramed input head.new.items rest)) }
    ensures err { IfErr result (λ fault. IfSome (R.remaining reader.old) (λ input. LacksHead input fault)) }
    ensures taken { TakesAtMost (max_head + 2) (R.remaining reader.old) (R.remaining reader.new) }
{
    match find_head(reader, head) {
        Ok(HeadEnd::Head) => Ok(()),
        Ok(HeadEnd::Ended) => Err(WireFault::Cut),
        Ok(HeadEnd::TooLong) => Err(WireFault::HeadTooLong),
        Err(error) => Err(read_fault(&error)),
    }
}

// Reads a body of so many bytes, and nothing after it.
fn take_body<R: BufRead>(reader: &mut R, body: &mut Vec<u8>, length: usize) -> Result<(), WireFault>
    ensures ok { OnOk result (IfSome (R.remaining reader.old)
        (λ input. EndsBody true input length body.new.items (R.remaining reader.new))) }
    ensures err { IfErr result (λ fault. IfSome (R.remaining reader.old) (λ input. LacksBody input length fault)) }
    ensures taken { TakesAtMost length (R.remaining reader.old) (R.remaining reader.new) }
{
    match read_body(reader, body, length) {
        Ok(true) => Ok(()),
        Ok(false) => Err(WireFault::Cut),
        Err(error) => Err(read_fault(&error)),
    }
}

// The request of a head that was read, and a body. Only memory can run out.
fn request_of(
    alloc: Global,
    head: &[u8],
    parts: RequestParts,
    body: Vec<u8>,
) -> Result<Request, WireFault>
    requires { ReportsRequest head.now parts }
    ensures ok { IfOk result (λ request. (request.method ≡ span_bytes head.now parts.method)
        × (request.target ≡ span_bytes head.now parts.target) × (request.body ≡ body.items)) }
    ensures err { IfErr result (λ fault. fault ≡ WireFault.Memory) }
{
    let method = match Method::from_bytes(alloc, parts.method.of(head)) {
        Ok(method) => method,
        Err(MethodError::OutOfMemory) => return Err(WireFault::Memory),
        Err(MethodError::Invalid) => unreachable!(),
    };
    let Ok(target) = str::from_utf8(parts.target.of(head)) else {
        unreachable!()
    };
    let target = String::from_str(alloc, target)?;
    Ok(Request::new(method, target, body))
}

/// Reads a request: a head of the grammar, after blank lines, and exactly its body. What follows
/// stays unread. The limit of a head counts the blank lines before it.
///
/// # Errors
///
/// Of several faults any: X1 where the input ends in it, X5 where its head passes a limit, X4 where
/// the head is none or names its length twice or badly, X6 where its body is coded or a `POST`
/// names no length, X7 where the length passes the limit. X2 and X9 may come in place of any. No
/// more than a head and a body may have is taken of the reader; where the head is refused, no more
/// than it may have and two bytes.
pub fn read_request<R: BufRead>(alloc: Global, reader: &mut R) -> Result<Request, WireFault>
    ensures ok { IfOk result (λ request. IfSome (R.remaining reader.old)
        (λ input. (rest : List ℕ) × (R.remaining reader.new ≡ Some rest) × IsRequest input request rest)) }
    ensures err { IfErr result (λ fault. IfSome (R.remaining reader.old) (λ input. HasFault RequestSays input fault)) }
    ensures taken { TakesAtMost (max_head + max_body) (R.remaining reader.old) (R.remaining reader.new) }
    ensures refused { IfErr result (λ fault. TakesAtMost (most_taken fault) (R.remaining reader.old) (R.remaining reader.new)) }
{
    let mut head = Vec::new(alloc);
    match take_head(reader, &mut head) {
        Ok(()) => {}
        Err(fault) => return Err(fault),
    }
    let parts = match parse_request_head(&head) {
        Ok(parts) => parts,
        Err(fault) => return Err(fault),
    };
    let mut body = Vec::new(alloc);
    match take_body(reader, &mut body, parts.length) {
        Ok(()) => {}
        Err(fault) => return Err(fault),
    }
    request_of(alloc, &head, parts, body)
}

/// Reads a response, its status and its body, as `read_request` does a request.
///
/// # Errors
///
/// Those of `read_request`; X4 of a status below 100 too.
pub fn read_response<R: BufRead>(
    alloc: Global,
    reader: &mut R,
) -> Result<(StatusCode, Vec<u8>), WireFault>
    ensures ok { IfOk result (λ response. IfSome (R.remaining reader.old)
        (λ input. (rest : List ℕ) × (R.remaining reader.new ≡ Some rest) × IsResponse input response.0 response.1.items rest)) }
    ensures err { IfErr result (λ fault. IfSome (R.remaining reader.old) (λ input. HasFault ResponseSays input fault)) }
    ensures taken { TakesAtMost (max_head + max_body) (R.remaining reader.old) (R.remaining reader.new) }
    ensures refused { IfErr result (λ fault. TakesAtMost (most_taken fault) (R.remaining reader.old) (R.remaining reader.new)) }
{
    let mut head = Vec::new(alloc);
    match take_head(reader, &mut head) {
        Ok(()) => {}
        Err(fault) => return Err(fault),
    }
    let parts = match parse_response_head(&head) {
        Ok(parts) => parts,
        Err(fault) => return Err(fault),
    };
    let mut body = Vec::new(alloc);
    match take_body(reader, &mut body, parts.length) {
        Ok(()) => {}
        Err(fault) => return Err(fault),
    }
    Ok((parts.status, body))
}

/// The status and the body, which is borrowed, of the response that stands in these bytes; what
/// follows the body is passed over. Does not allocate.
///
/// # Errors
///
/// Of several faults any: X1 where the bytes end in it, X5 where its head passes a limit, X4 where
/// the head is none, names its length twice or badly, or has a status below 100, X6 where its body
/// is coded or it names no length, X7 where the length passes the limit.
pub fn response_of(bytes: &[u8]) -> Result<(StatusCode, &[u8]), WireFault>
    ensures ok { IfOk result (λ response. (rest : List ℕ) × IsResponse bytes.now response.0 response.1.now rest) }
    ensures err { IfErr result (λ fault. HasFault ResponseSays bytes.now fault) }
    ensures none { OnErr result ((status : ℕ) (body rest : List ℕ) → ¬ (IsResponse bytes.now status body rest)) }
    ensures never { IfErr result IsOfBytes }
{
    let (head, rest) = match split_head(bytes) {
        Ok(parts) => parts,
        Err(fault) => return Err(fault),
    };
    let parts = match parse_response_head(head) {
        Ok(parts) => parts,
        Err(fault) => return Err(fault),
    };
    if rest.len() < parts.length {
        return Err(WireFault::Cut);
    }
    let (body, _) = rest.split_at(parts.length);
    Ok((parts.status, body))
}
