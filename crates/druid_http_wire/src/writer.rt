//! Messages, written to a writer piece by piece, which does not allocate, and the bytes of
//! requests. Who writes to a socket buffers.
ghost use Rattle.std.specs.Prelude.{◌≡◌, ◌↔◌, ◌≤◌, ◌⊎◌, ◌-◌, ◌^◌, min, length, decimal, IfOk, IfErr, OnOk, OnErr};
ghost use Rattle.std.specs.Io.KnownBytes.{Appends};
ghost use Rattle.std.specs.IoError.{error_kind};
ghost use Rattle.druid_stream.specs.Fronts.{AppendsFront};
ghost use Rattle.druid_http_wire.specs.Limits.{max_body};
ghost use Rattle.druid_http_wire.specs.Written.{joined, phrase_of, request_text, response_text, answer_text, LacksRequest};

use crate::limits::MAX_BODY;
use crate::response::error_pieces;
use druid_http_message::{Request, WireFault};
use druid_stream::write_text;
use http::StatusCode;
use itoa::Buffer;
use std::alloc::{AllocError, Global};
use std::io;
use std::io::{Error, ErrorKind, Write};

// What stands before the status of a response.
const BEFORE_STATUS: &[u8] = b"HTTP/1.1 ";

// What a head has between its first fields and the length of the body.
const BEFORE_LENGTH: &[u8] = b"Content-Type: application/json\r\nContent-Length: ";

// What it has after the length, up to the end of the empty line.
const AFTER_LENGTH: &[u8] = b"\r\nConnection: close\r\n\r\n";

// Writes pieces, one after another, as one text.
fn write_pieces<W: Write>(writer: &mut W, pieces: &[&[u8]]) -> io::Result<()>
    ensures ok { OnOk result (Appends (W.contents writer.old) (W.contents writer.new) (joined pieces.now)) }
    ensures err { OnErr result
        (AppendsFront (W.contents writer.old) (W.contents writer.new) (joined pieces.now)) }
{
    for piece in pieces {
        write_text(writer, piece)?;
    }
    Ok(())
}

// The fault of a failed write: `Memory` where it ran out of memory, and `Write` where it failed for anything else.
fn write_fault(error: &Error) -> WireFault
    ensures memory { (result ≡ WireFault.Memory) ↔ (error_kind error.now ≡ ErrorKind.OutOfMemory) }
    ensures fault { (result ≡ WireFault.Write) ⊎ (result ≡ WireFault.Memory) }
{
    match error.kind() {
        ErrorKind::OutOfMemory => WireFault::Memory,
        _ => WireFault::Write,
    }
}

// The phrase of a status, which is empty where it has none. It is borrowed no longer than the status is, so that the pieces of
// a text are borrowed alike.
fn phrase_of(status: &StatusCode) -> &[u8]
    ensures { result.now ≡ phrase_of status.now }
{
    status.canonical_reason().unwrap_or("").as_bytes()
}

// The pieces of a request's text, with the length of its body in digits.
fn request_pieces<'a>(request: &'a Request, digits: &'a str) -> [&'a [u8]; 8]
    requires { digits.now ≡ decimal (length request.now.body) }
    ensures { joined result ≡ request_text request.now }
{
    [
        request.method().as_str().as_bytes(),
        b" ",
        request.target().as_bytes(),
        b" HTTP/1.1\r\nHost: localhost\r\n",
        BEFORE_LENGTH,
        digits.as_bytes(),
        AFTER_LENGTH,
        request.body(),
    ]
}

// Writes the text of a request, whatever its length.
fn write_request_text<W: Write>(request: &Request, writer: &mut W) -> io::Result<()>
    ensures ok { OnOk result (Appends (W.contents writer.old) (W.contents writer.new) (request_text request.now)) }
    ensures err { OnErr result
        (AppendsFront (W.contents writer.old) (W.contents writer.new) (request_text request.now)) }
{
    let mut digits = Buffer::new();
    let pieces = request_pieces(request, digits.format(request.body().len()));
    write_pieces(writer, &pieces)
}

// Writes the text of a response, whatever the length of its body.
fn write_response_text<W: Write>(
    status: StatusCode,
    body: &[&[u8]],
    count: usize,
    writer: &mut W,
) -> io::Result<()>
    requires { count ≡ length (joined body.now) }
    ensures ok { OnOk result (Appends (W.contents writer.old) (W.contents writer.new) (response_text status (joined body.now))) }
    ensures err { OnErr result
        (AppendsFront (W.contents writer.old) (W.contents writer.new) (response_text status (joined body.now))) }
{
    let mut code_digits = Buffer::new();
    let code = code_digits.format(status.as_u16()).as_bytes();
    let mut length_digits = Buffer::new();
    let digits = length_digits.format(count).as_bytes();
    write_pieces(
        writer,
        &[
            BEFORE_STATUS,
            code,
            b" ",
            phrase_of(&status),
            b"\r\n",
            BEFORE_LENGTH,
            digits,
            AFTER_LENGTH,
        ],
    )?;
    write_pieces(writer, body)
}

// How long pieces are together, or the most that a number can be where they are longer.
pub(crate) fn length_of(pieces: &[&[u8]]) -> usize
    ensures { result ≡ min (length (joined pieces.now)) (2 ^ 64 - 1) }
{
    let mut length: usize = 0;
    for piece in pieces {
        length = length.saturating_add(piece.len());
    }
    length
}

// Pieces, one after another, in room for all of them.
pub(crate) fn join_pieces(alloc: Global, pieces: &[&[u8]]) -> Result<Vec<u8>, AllocError>
    ensures { IfOk result (λ bytes. bytes.items ≡ joined pieces.now) }
{
    let mut bytes = Vec::with_capacity(alloc, length_of(pieces))?;
    for piece in pieces {
        bytes.extend_from_slice(piece)?;
    }
    Ok(bytes)
}

/// The text of a request, whatever the length of its body.
///
/// # Errors
///
/// Out of memory.
pub fn request_bytes(alloc: Global, request: &Request) -> Result<Vec<u8>, AllocError>
    ensures { IfOk result (λ bytes. bytes.items ≡ request_text request.now) }
{
    let mut digits = Buffer::new();
    let pieces = request_pieces(request, digits.format(request.body().len()));
    join_pieces(alloc, &pieces)
}

/// Writes a request, and does not allocate. Nothing is flushed.
///
/// # Errors
///
/// X7 where its body passes the limit, and nothing is written. X3 or X9 of the writer, which has
/// some front of the request, and not the whole.
pub fn write_request<W: Write>(request: &Request, writer: &mut W) -> Result<(), WireFault>
    ensures ok { OnOk result (Appends (W.contents writer.old) (W.contents writer.new) (request_text request.now)) }
    ensures short { OnOk result (length request.now.body ≤ max_body) }
    ensures err { IfErr result (LacksRequest request.now (W.contents writer.old) (W.contents writer.new)) }
{
    if MAX_BODY < request.body().len() {
        return Err(WireFault::BodyTooLong);
    }
    match write_request_text(request, writer) {
        Ok(()) => Ok(()),
        Err(error) => Err(write_fault(&error)),
    }
}

// Writes a response, whatever the length of its body.
fn write_whole<W: Write>(
    status: StatusCode,
    body: &[&[u8]],
    count: usize,
    writer: &mut W,
) -> Result<(), WireFault>
    requires { count ≡ length (joined body.now) }
    ensures ok { OnOk result (Appends (W.contents writer.old) (W.contents writer.new) (response_text status (joined body.now))) }
    ensures err { OnErr result (AppendsFront (W.contents writer.old) (W.contents writer.new) (response_text status (joined body.now))) }
    ensures faults { IfErr result (λ fault. (fault ≡ WireFault.Write) ⊎ (fault ≡ WireFault.Memory)) }
{
    match write_response_text(status, body, count, writer) {
        Ok(()) => Ok(()),
        Err(error) => Err(write_fault(&error)),
    }
}

// Writes a response whose body is in pieces of so many bytes together, as `write_response` does.
pub(crate) fn write_body<W: Write>(
    status: StatusCode,
    body: &[&[u8]],
    count: usize,
    writer: &mut W,
) -> Result<(), WireFault>
    requires { count ≡ min (length (joined body.now)) (2 ^ 64 - 1) }
    ensures ok { OnOk result (Appends (W.contents writer.old) (W.contents writer.new) (answer_text status (joined body.now))) }
    ensures err { OnErr result (AppendsFront (W.contents writer.old) (W.contents writer.new) (answer_text status (joined body.now))) }
    ensures faults { IfErr result (λ fault. (fault ≡ WireFault.Write) ⊎ (fault ≡ WireFault.Memory)) }
{
    if count <= MAX_BODY {
        return write_whole(status, body, count, writer);
    }
    let refusal = error_pieces("TooLarge");
    write_whole(
        StatusCode::INTERNAL_SERVER_ERROR,
        &refusal,
        length_of(&refusal),
        writer,
    )
}

/// Writes a response, and does not allocate. In place of one whose body passes the limit, status
/// 500 and `{"error":"TooLarge"}` are written. Nothing is flushed.
///
/// # Errors
///
/// X3 or X9 of the writer, which has some front of the text, and not the whole.
pub fn write_response<W: Write>(
    status: StatusCode,
    body: &[u8],
    writer: &mut W,
) -> Result<(), WireFault>
    ensures ok { OnOk result (Appends (W.contents writer.old) (W.contents writer.new) (answer_text status body.now)) }
    ensures err { OnErr result (AppendsFront (W.contents writer.old) (W.contents writer.new) (answer_text status body.now)) }
    ensures faults { IfErr result (λ fault. (fault ≡ WireFault.Write) ⊎ (fault ≡ WireFault.Memory)) }
{
    let pieces = [body];
    write_body(status, &pieces, body.len(), writer)
}
