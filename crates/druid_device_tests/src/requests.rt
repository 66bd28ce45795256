//! Requests, taken apart and refused.
use crate::printed::{beside, printed, text_of};
use crate::table::{Table, assert_reported, assert_row, assert_rows, halves, is_reported};
use crate::wire::spelled;
use druid_http_message::{Request, WireFault};
use druid_http_wire::{read_request, refuse_request};
use std::alloc::Global;
use std::process::Abort;

fn method_of(request: &Request) -> &'static str {
    if request.has_method("GET") {
        "GET"
    } else {
        "another"
    }
}

// The parts of a request's target, and whether its method is `GET`.
fn parts_of(rt: &impl Abort, alloc: Global, request: &Request) -> String {
    let path = request.path();
    let parameters = request.parameters();
    let method = method_of(request);
    format!(in alloc; "{method} [{path}] [{parameters}]").expect(rt, "memory")
}

// The status beside the body of a response.
fn refusal(rt: &impl Abort, alloc: Global, status: u16, written: &[u8]) -> String {
    let text = text_of(rt, alloc, written);
    let (_, body) = halves(rt, text.as_str(), "\r\n\r\n");
    beside(rt, alloc, &status, &body)
}

// The status and the body of what is written of a fault, or the fault itself where nothing is.
fn refused(rt: &impl Abort, alloc: Global, fault: WireFault) -> String {
    let mut written = Vec::new(alloc);
    match refuse_request(fault, &mut written) {
        Ok(status) => refusal(rt, alloc, status, &written),
        Err(fault) => {
            assert_row(rt, "something was written", written.is_empty());
            printed(rt, alloc, &fault)
        }
    }
}

fn reported_of(rt: &impl Abort, alloc: Global, text: &[u8]) -> String {
    let mut rest = text;
    match read_request(alloc, &mut rest) {
        Ok(request) => parts_of(rt, alloc, &request),
        Err(fault) => refused(rt, alloc, fault),
    }
}

// Texts of requests, and the parts of each or what is written of its fault.
struct Parts;

impl Table for Parts {
    fn holds(&self, rt: &impl Abort, alloc: Global, what: &str, wanted: &str) -> bool {
        is_reported(reported_of(rt, alloc, &spelled(rt, alloc, what)), wanted)
    }
}

#[test]
fn requests_taken_apart(rt: HostRuntime) {
    let rows = "GET /a HTTP/1.1|| = GET [/a] []
GET /a?b=c&d HTTP/1.1|| = GET [/a] [b=c&d]
GET /a?b?c HTTP/1.1|| = GET [/a] [b?c]
GET ? HTTP/1.1|| = GET [] []
GET /a? HTTP/1.1|| = GET [/a] []
get /a HTTP/1.1|| = another [/a] []
PUT /a HTTP/1.1|| = another [/a] []
GET = X1: the message is cut off
GET|| = 400 {\"error\":\"X4\"}
POST / HTTP/1.1|| = 400 {\"error\":\"X6\"}
GET / HTTP/1.1|Content-Length: 16777217||a = 400 {\"error\":\"X7\"}";
    assert_rows(&rt, rt.alloc(), &Parts, rows, " = ");
    let long = refused(&rt, rt.alloc(), WireFault::HeadTooLong);
    assert_reported(&rt, long, "400 {\"error\":\"X5\"}");
    let memory = refused(&rt, rt.alloc(), WireFault::Memory);
    assert_reported(&rt, memory, "X9: out of memory");
}
