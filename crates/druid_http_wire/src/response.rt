//! What a server answers. A body is owned, fixed, or the code of a fault, and written in pieces, so
//! that a server says without memory that it has none. What stands round a code is spelled here
//! alone; the name of a field is written as JSON, which may have to escape it.
ghost use Rattle.std.specs.Prelude.{◌≡◌, IfOk, codes, string_bytes};
ghost use Rattle.serde_json.specs.View.{view};
ghost use Rattle.druid_http_wire.specs.Response.{error_text, field_data, field_text, text_of};
ghost use Rattle.druid_http_wire.specs.Served.{Reports, Gets, IsOutOfMemory};
ghost use Rattle.druid_http_wire.specs.Written.{joined};

use crate::writer::join_pieces;
use druid_http_message::Request;
use http::StatusCode;
use serde_json::{Value, json};
use std::alloc::{AllocError, Global};
use std::marker::Model;

#[derive(Drop)]
enum Body {
    Fixed(&'static str),
    Made(String),
    // What tells a client of a fault, by its code.
    Error(&'static str),
}

// What stands round the code of a fault in the text that tells a client of it.
const BEFORE_CODE: &[u8] = b"{\"error\":\"";

const AFTER_CODE: &[u8] = b"\"}";

// The text that tells a client of a fault, in pieces.
pub(crate) fn error_pieces(code: &str) -> [&[u8]; 3]
    ensures { joined result ≡ error_text code.now }
{
    [BEFORE_CODE, code.as_bytes(), AFTER_CODE]
}

fn field_value(alloc: Global, code: &str, field: &str) -> Result<Value, AllocError>
    ensures { IfOk result (λ v. view v ≡ field_data code.now field.now) }
{
    json!(in alloc; {
        "error": code,
        "field": field,
    })
}

// The text that tells a client of a fault in a field.
fn field_text(alloc: Global, code: &str, field: &str) -> Result<String, AllocError>
    ensures { IfOk result (λ text. string_bytes text ≡ field_text code.now field.now) }
{
    field_value(alloc, code, field)?.to_string(alloc)
}

// What is in a body: its text, or the code that it tells.
fn text_of(body: &Body) -> &[u8]
    ensures { result.now ≡ text_of body.now }
{
    match body {
        Body::Fixed(text) => text.as_bytes(),
        Body::Made(text) => text.as_bytes(),
        Body::Error(code) => code.as_bytes(),
    }
}

/// A status and a body. One with a fixed body, or of an error, does not allocate.
#[derive(Drop)]
pub struct Response {
    status: StatusCode,
    body: Body,
}

impl Model for Response {
    ghost use Rattle.druid_http_wire.specs.Response.{Response, body_of};

    ghost Value = { Response };

    ghost view = { λ a. record { status = a.status; body = body_of a.body } };
}

impl Response {
    /// A response with a fixed body.
    pub fn of_static(status: StatusCode, text: &'static str) -> Response
        ensures { Reports status text.now result.status result.body }
    {
        Response {
            status,
            body: Body::Fixed(text),
        }
    }

    /// A response with a body that was made for it.
    pub fn of_text(status: StatusCode, text: String) -> Response
        ensures { Reports status (string_bytes text) result.status result.body }
    {
        Response {
            status,
            body: Body::Made(text),
        }
    }

    /// A response that tells of a fault by its code, `{"error":"X4"}` and so on.
    pub fn of_error(status: StatusCode, code: &'static str) -> Response
        ensures { Reports status (error_text code.now) result.status result.body }
    {
        Response {
            status,
            body: Body::Error(code),
        }
    }

    /// A response that tells of a fault in a field, `{"error":"Q3","field":"filter"}` and so on.
    ///
    /// # Errors
    ///
    /// Out of memory.
    pub fn of_field(
        alloc: Global,
        status: StatusCode,
        code: &str,
        field: &str,
    ) -> Result<Response, AllocError>
        ensures { IfOk result (λ r. Reports status (field_text code.now field.now) r.status r.body) }
    {
        let text = field_text(alloc, code, field)?;
        Ok(Response::of_text(status, text))
    }

    /// The response to a request for the health of a server: `true`, where it gets that.
    pub fn health(request: &Request) -> Response
        ensures { Gets request.now (Reports 200 (codes "true")) result.status result.body }
    {
        if !request.has_method("GET") {
            return Response::other_method();
        }
        Response::of_static(StatusCode::OK, "true")
    }

    /// The response to a method that the path does not take.
    pub fn other_method() -> Response
        ensures { Reports 405 (codes "{\"error\":\"Method\"}") result.status result.body }
    {
        Response::of_error(StatusCode::METHOD_NOT_ALLOWED, "Method")
    }

    /// The response to a path that leads nowhere.
    pub fn no_route() -> Response
        ensures { Reports 404 (codes "{\"error\":\"NoRoute\"}") result.status result.body }
    {
        Response::of_error(StatusCode::NOT_FOUND, "NoRoute")
    }

    /// The response to parameters that are no ask.
    pub fn no_ask() -> Response
        ensures { Reports 400 (codes "{\"error\":\"Y6\"}") result.status result.body }
    {
        Response::of_error(StatusCode::BAD_REQUEST, "Y6")
    }

    /// The response where memory runs out.
    pub fn out_of_memory() -> Response
        ensures { IsOutOfMemory result.status result.body }
    {
        Response::of_error(StatusCode::INTERNAL_SERVER_ERROR, "Memory")
    }

    /// The status.
    pub fn status(&self) -> StatusCode
        ensures { result ≡ self.now.status }
    {
        self.status
    }

    // The body, in pieces.
    pub(crate) fn pieces(&self) -> [&[u8]; 3]
        ensures { joined result ≡ self.now.body }
    {
        let text = text_of(&self.body);
        match &self.body {
            Body::Fixed(_) => [b"", text, b""],
            Body::Made(_) => [b"", text, b""],
            Body::Error(_) => [BEFORE_CODE, text, AFTER_CODE],
        }
    }

    /// The status, and the body in a vector of its own.
    ///
    /// # Errors
    ///
    /// Out of memory, unless the body is owned (read in the code).
    pub fn into_parts(self, alloc: Global) -> Result<(StatusCode, Vec<u8>), AllocError>
        ensures { IfOk result (λ r. Reports self.status self.body r.0 r.1.items) }
    {
        let Response { status, body } = self;
        match body {
            Body::Fixed(text) => Ok((status, text.as_bytes().to_vec(alloc)?)),
            Body::Made(text) => Ok((status, text.into_bytes())),
            Body::Error(code) => Ok((status, join_pieces(alloc, &error_pieces(code))?)),
        }
    }
}
