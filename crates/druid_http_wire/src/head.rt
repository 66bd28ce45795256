//! Heads of messages, once they are framed.
ghost use Rattle.std.specs.Prelude.{◌≡◌, ◌≤◌, length, map, All, IfOk, IfErr, Err};
ghost use Rattle.httparse.specs.Spans.{IsHeaderWithin, header_bytes, IsRequestWithin, IsResponseWithin, IsRequestOf, IsResponseOf};
ghost use Rattle.druid_http_wire.specs.Messages.{body_length, RequestSays, ResponseSays};
ghost use Rattle.druid_http_wire.specs.HeadParts.{ReportsRequest, ReportsResponse};

use crate::length::{Length, is_coded, length_in};
use crate::limits::MAX_FIELDS;
use druid_http_message::WireFault;
use http::StatusCode;
use httparse::spans::{
    EMPTY_HEADER_SPAN, HeaderSpan, RequestSpans, ResponseSpans, Span, parse_request, parse_response,
};
use httparse::{Error, Status};

/// What the head of a request says.
#[derive(Clone, Copy, Debug)]
pub(crate) struct RequestParts {
    pub(crate) method: Span,
    pub(crate) target: Span,
    // How many bytes the body has.
    pub(crate) length: usize,
}

/// What the head of a response says.
#[derive(Clone, Copy, Debug)]
pub(crate) struct ResponseParts {
    pub(crate) status: StatusCode,
    // How many bytes the body has.
    pub(crate) length: usize,
}

// The length of the body, which some messages need.
fn body_length(head: &[u8], fields: &[HeaderSpan], needed: bool) -> Result<usize, WireFault>
    requires { All (IsHeaderWithin (length head.now)) fields.now }
    ensures { result ≡ body_length needed (map (header_bytes head.now) fields.now) }
{
    if is_coded(head, fields) {
        return Err(WireFault::NoLength);
    }
    match length_in(head, fields) {
        Length::Unsaid => {
            if needed {
                Err(WireFault::NoLength)
            } else {
                Ok(0)
            }
        }
        Length::Unclear => Err(WireFault::BadHead),
        Length::TooLong => Err(WireFault::BodyTooLong),
        Length::Is(length) => Ok(length),
    }
}

// What a head says that was found at the front of some bytes, if it is the whole of them.
fn whole_request(
    head: &[u8],
    fields: &[HeaderSpan],
    spans: RequestSpans,
) -> Result<RequestParts, WireFault>
    requires within { IsRequestWithin head.now fields.now spans }
    requires found { IsRequestOf head.now fields.now spans }
    requires room { length fields.now ≤ 64 }
    ensures ok { IfOk result (ReportsRequest head.now) }
    ensures err { IfErr result (λ fault. RequestSays head.now (Err fault)) }
{
    if spans.len != head.len() {
        return Err(WireFault::BadHead);
    }
    let needed = spans.method.of(head) == b"POST".as_slice();
    match body_length(head, &fields[..spans.headers], needed) {
        Ok(length) => Ok(RequestParts {
            method: spans.method,
            target: spans.path,
            length,
        }),
        Err(fault) => Err(fault),
    }
}

// What a framed head says, if it is the head of a request. Does not allocate.
pub(crate) fn parse_request_head(head: &[u8]) -> Result<RequestParts, WireFault>
    ensures ok { IfOk result (ReportsRequest head.now) }
    ensures err { IfErr result (λ fault. RequestSays head.now (Err fault)) }
{
    let mut fields = [EMPTY_HEADER_SPAN; MAX_FIELDS];
    match parse_request(head, &mut fields) {
        Ok(Status::Complete(spans)) => whole_request(head, &fields, spans),
        Ok(Status::Partial) => Err(WireFault::BadHead),
        Err(Error::TooManyHeaders) => Err(WireFault::HeadTooLong),
        Err(_) => Err(WireFault::BadHead),
    }
}

// The same of a response.
fn whole_response(
    head: &[u8],
    fields: &[HeaderSpan],
    spans: ResponseSpans,
) -> Result<ResponseParts, WireFault>
    requires within { IsResponseWithin head.now fields.now spans }
    requires found { IsResponseOf head.now fields.now spans }
    requires room { length fields.now ≤ 64 }
    ensures ok { IfOk result (ReportsResponse head.now) }
    ensures err { IfErr result (λ fault. ResponseSays head.now (Err fault)) }
{
    if spans.len != head.len() {
        return Err(WireFault::BadHead);
    }
    let Ok(status) = StatusCode::from_u16(spans.code) else {
        return Err(WireFault::BadHead);
    };
    match body_length(head, &fields[..spans.headers], true) {
        Ok(length) => Ok(ResponseParts { status, length }),
        Err(fault) => Err(fault),
    }
}

// What a framed head says, if it is the head of a response. Does not allocate.
pub(crate) fn parse_response_head(head: &[u8]) -> Result<ResponseParts, WireFault>
    ensures ok { IfOk result (ReportsResponse head.now) }
    ensures err { IfErr result (λ fault. ResponseSays head.now (Err fault)) }
{
    let mut fields = [EMPTY_HEADER_SPAN; MAX_FIELDS];
    match parse_response(head, &mut fields) {
        Ok(Status::Complete(spans)) => whole_response(head, &fields, spans),
        Ok(Status::Partial) => Err(WireFault::BadHead),
        Err(Error::TooManyHeaders) => Err(WireFault::HeadTooLong),
        Err(_) => Err(WireFault::BadHead),
    }
}
