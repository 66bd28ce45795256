//! What all servers write.
ghost use Rattle.std.specs.Prelude.{◌≡◌, ◌⊎◌, ℕ, List, Some, None, IfOk, IfErr, nat_le, if◌then◌else◌, option_map};
ghost use Rattle.std.specs.Io.KnownBytes.{Keeps};
ghost use Rattle.druid_http_wire.specs.Response.{error_text};
ghost use Rattle.druid_http_wire.specs.Served.{refusal_text, IsSent, IsCutShort};

use crate::Response;
use crate::limits::MAX_BODY;
use crate::writer::{length_of, write_body};
use druid_http_message::WireFault;
use http::StatusCode;
use std::io::Write;

// The status that is written with a body of so many bytes.
fn status_sent(status: StatusCode, count: usize) -> u16
    ensures { result ≡ (if nat_le count 16777216 then status else 500) }
{
    if count <= MAX_BODY {
        status.as_u16()
    } else {
        500
    }
}

/// Writes a response as `write_response` does its status and body, and gives the status that was written.
///
/// # Errors
///
/// Those of `write_response`.
pub fn send_response<W: Write>(response: &Response, writer: &mut W) -> Result<u16, WireFault>
    ensures ok { IfOk result (IsSent (W.contents writer.old) (W.contents writer.new) response.now.status response.now.body) }
    ensures err { IfErr result (IsCutShort (W.contents writer.old) (W.contents writer.new) response.now.status response.now.body) }
{
    let status = response.status();
    let pieces = response.pieces();
    let count = length_of(&pieces);
    match write_body(status, &pieces, count, writer) {
        Ok(()) => Ok(status_sent(status, count)),
        Err(fault) => Err(fault),
    }
}

// The code that is answered where no request was read.
fn refusal_code(fault: WireFault) -> Option<&'static str>
    ensures { option_map (λ code. error_text code.now) result ≡ refusal_text fault }
{
    match fault {
        WireFault::BadHead => Some("X4"),
        WireFault::HeadTooLong => Some("X5"),
        WireFault::NoLength => Some("X6"),
        WireFault::BodyTooLong => Some("X7"),
        WireFault::Cut => None,
        WireFault::Read => None,
        WireFault::Write => None,
        WireFault::Connect => None,
        WireFault::Memory => None,
    }
}

/// Answers where no request was read, and gives the status that was written: X4 to X7 are answered
/// 400 with their number.
///
/// # Errors
///
/// Any other fault is given back, with nothing written. X3 or X9 of the writer, which has some
/// front of the answer, and not the whole.
pub fn refuse_request<W: Write>(fault: WireFault, writer: &mut W) -> Result<u16, WireFault>
    ensures ok { IfOk result (λ sent. (text : List ℕ) × (refusal_text fault ≡ Some text)
        × IsSent (W.contents writer.old) (W.contents writer.new) 400 text sent) }
    ensures err { IfErr result (λ reported.
        ((reported ≡ fault) × (refusal_text fault ≡ None) × Keeps (W.contents writer.old) (W.contents writer.new))
        ⊎ ((text : List ℕ) × (refusal_text fault ≡ Some text)
        × IsCutShort (W.contents writer.old) (W.contents writer.new) 400 text reported)) }
{
    match refusal_code(fault) {
        Some(code) => {
            let refusal = Response::of_error(StatusCode::BAD_REQUEST, code);
            send_response(&refusal, writer)
        }
        None => Err(fault),
    }
}
