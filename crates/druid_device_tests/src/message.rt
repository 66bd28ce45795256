//! Requests of many sizes: with ample memory each is written, and read as the same request.
use crate::printed::{beside, printed};
use crate::table::assert_reported;
use crate::wire::patterned;
use druid_http_message::Request;
use druid_http_wire::{read_request, request_bytes};
use http::Method;
use std::alloc::Global;
use std::process::Abort;

// How long a target and a body are.
const SIZES: [usize; 9] = [0, 1, 2, 3, 5, 17, 65, 1_000, 16_000];

// The most bytes of a head, and of a body.
const HEAD: usize = 16_384;

const BODY: usize = 16_777_216;

// A request whose target has so many parameters' bytes and whose body is so long.
fn request(rt: &impl Abort, alloc: Global, parameters: usize, body: usize) -> Request {
    let method = Method::from_bytes(alloc, b"POST").expect(rt, "a method");
    let parameters = "x".repeat(alloc, parameters).expect(rt, "memory");
    let target = format!(in alloc; "/q?{parameters}").expect(rt, "memory");
    Request::new(method, target, patterned(rt, alloc, body))
}

fn is_same(first: &Request, second: &Request) -> bool {
    first.has_method("POST")
        && first.path() == "/q"
        && first.method().as_str() == second.method().as_str()
        && first.target() == second.target()
        && first.parameters() == second.parameters()
        && first.body() == second.body()
}

fn text_of(rt: &impl Abort, alloc: Global, request: &Request) -> Vec<u8> {
    request_bytes(alloc, request).expect(rt, "memory")
}

// What a request is read as, once it is written.
fn read_back(rt: &impl Abort, alloc: Global, request: &Request) -> String {
    let text = text_of(rt, alloc, request);
    let mut rest = text.as_slice();
    match read_request(alloc, &mut rest) {
        Ok(read) => beside(rt, alloc, &is_same(&read, request), &rest.len()),
        Err(fault) => printed(rt, alloc, &fault),
    }
}

fn assert_read_back(rt: &impl Abort, alloc: Global, parameters: usize, body: usize, wanted: &str) {
    let request = request(rt, alloc, parameters, body);
    assert_reported(rt, read_back(rt, alloc, &request), wanted);
}

#[test]
fn calls_succeed_with_memory(rt: HostRuntime) {
    for size in &SIZES {
        assert_read_back(&rt, rt.alloc(), *size, 0, "true 0");
        assert_read_back(&rt, rt.alloc(), 0, *size, "true 0");
    }
    assert_read_back(&rt, rt.alloc(), 0, BODY, "true 0");
    // The head of a request without parameters and without a body.
    let head = text_of(&rt, rt.alloc(), &request(&rt, rt.alloc(), 0, 0)).len();
    let most = HEAD.saturating_sub(head);
    assert_read_back(&rt, rt.alloc(), most, 0, "true 0");
    let above = most.saturating_add(1);
    assert_read_back(&rt, rt.alloc(), above, 0, "X5: the head is too long");
}
