//! The response that carries metrics. It is written here, since what servers write else is JSON,
//! and Prometheus goes by the type of content.
ghost use Rattle.std.specs.Prelude.{◌≡◌, IfOk};
ghost use Rattle.druid_telemetry_metrics.specs.Response.{before_length, response_text};

use crate::text::{digits_of, join};
use std::alloc::{AllocError, Global};

// What stands before the length of the body.
fn before_length(_body: &[u8]) -> &[u8]
    ensures { result.now ≡ before_length }
{
    b"HTTP/1.1 200 OK\r\nContent-Type: text/plain; version=0.0.4; charset=utf-8\r\nContent-Length: "
}

/// The whole response with a text of metrics, as it is written to a connection: status 200, with the type of content that Prometheus
/// asks for.
///
/// # Errors
///
/// Out of memory.
pub fn metrics_response(alloc: Global, body: &[u8]) -> Result<Vec<u8>, AllocError>
    ensures { IfOk result (λ text. text.items ≡ response_text body.now) }
{
    let length = digits_of(alloc, body.len() as u64)?;
    let end = b"\r\nConnection: close\r\n\r\n";
    join(alloc, &[before_length(body), &length, end, body])
}
