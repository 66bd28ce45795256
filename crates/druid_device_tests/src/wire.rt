//! Messages, read and written.
use crate::printed::{beside, printed, text_of};
use crate::table::{Table, assert_reported, assert_row, assert_rows, halves, is_reported};
use druid_http_message::{Request, WireFault};
use druid_http_wire::{
    Response, read_request, read_response, request_bytes, response_of, send_response,
    write_request, write_response,
};
use http::{Method, StatusCode};
use std::alloc::Global;
use std::process::Abort;

// Texts that are read as requests, and what each is: its method, its target, its body and what is left, or its fault. `|`
// stands for a carriage return and a line feed, `_` for a line feed and `^` for a carriage return alone, `%` for a control
// byte, `@` for the byte 127, and `~` for a byte that is no text.
const REQUESTS: &str = " = X1: the message is cut off
| = X1: the message is cut off
GET = X1: the message is cut off
GET / HTTP/1.1 = X1: the message is cut off
GET / HTTP/1.1| = X1: the message is cut off
GET / HTTP/1.1|^ = X1: the message is cut off
GET / HTTP/1.1|Host: h| = X1: the message is cut off
GET / HTTP/1.1|| = GET / [] []
GET / HTTP/1.0|| = GET / [] []
GET / HTTP/1.1__ = GET / [] []
GET / HTTP/1.1|_ = GET / [] []
GET / HTTP/1.1_|x = GET / [] [x]
||_|GET / HTTP/1.1||GET = GET / [] [GET]
GET /status/health HTTP/1.1|Host: h|Accept: */*|| = GET /status/health [] []
GET /a?b=c&d=%25 HTTP/1.1|| = X4: not a head of a message
GET /a?b=c&d=e HTTP/1.1|A: b_c: d|| = GET /a?b=c&d=e [] []
GET /é HTTP/1.1|| = GET /é [] []
GET http://h/ HTTP/1.1|| = GET http://h/ [] []
GET * HTTP/1.1|| = GET * [] []
PUT / HTTP/1.1|| = PUT / [] []
HEAD / HTTP/1.1|| = HEAD / [] []
BREW /pot HTTP/1.1|| = BREW /pot [] []
get / HTTP/1.1|| = get / [] []
A-METHOD-OF-MORE-BYTES / HTTP/1.1|| = A-METHOD-OF-MORE-BYTES / [] []
POST /q HTTP/1.1|Content-Length: 3||abc = POST /q [abc] []
POST /q HTTP/1.1|content-length:3||abcdef = POST /q [abc] [def]
POST /q HTTP/1.1|CONTENT-LENGTH:   3  ||abc = POST /q [abc] []
POST /q HTTP/1.1|A:|Content-Length: 003|B: ~||a|b = POST /q [a|] [b]
POST /q HTTP/1.1|Content-Length: 00000000000000000003||abc = POST /q [abc] []
POST /q HTTP/1.1|Content-Length: 0||abc = POST /q [] [abc]
GET /q HTTP/1.1|Content-Length: 2||abc = GET /q [ab] [c]
post / HTTP/1.1|| = post / [] []
POST /q HTTP/1.1|Content-Length: 4||abc = X1: the message is cut off
POST /q HTTP/1.1|Content-Length: 16777216||abc = X1: the message is cut off
POST /q HTTP/1.1|Content-Length: 1|| = X1: the message is cut off
GET / HTTP/2.0|| = X4: not a head of a message
GET /|| = X4: not a head of a message
GET|| = X4: not a head of a message
x_| = X4: not a head of a message
GET  / HTTP/1.1|| = X4: not a head of a message
 GET / HTTP/1.1|| = X4: not a head of a message
GET / HTTP/1.1 || = X4: not a head of a message
GET / HTTP/1.1^x|| = X4: not a head of a message
GET / HTTP/1.1^|| = X4: not a head of a message
G(T / HTTP/1.1|| = X4: not a head of a message
GET /a%b HTTP/1.1|| = X4: not a head of a message
GET /a@b HTTP/1.1|| = X4: not a head of a message
GET /~ HTTP/1.1|| = X4: not a head of a message
GET / HTTP/1.1|A|| = X4: not a head of a message
GET / HTTP/1.1|A : b|| = X4: not a head of a message
GET / HTTP/1.1|A b: c|| = X4: not a head of a message
GET / HTTP/1.1|: b|| = X4: not a head of a message
GET / HTTP/1.1|A: b| c|| = X4: not a head of a message
GET / HTTP/1.1| A: b|| = X4: not a head of a message
GET / HTTP/1.1|A: b^c|| = X4: not a head of a message
GET / HTTP/1.1|A: b%|| = X4: not a head of a message
GET / HTTP/1.1|A: b@|| = X4: not a head of a message
HTTP/1.1 200 OK|Content-Length: 0|| = X4: not a head of a message
GET / HTTP/1.1|Content-Length: 1|Content-Length: 1||a = X4: not a head of a message
GET / HTTP/1.1|Content-Length: 1|A: b|content-length: 2||ab = X4: not a head of a message
GET / HTTP/1.1|Content-Length: 000000000000000000003||abc = X4: not a head of a message
GET / HTTP/1.1|Content-Length:||a = X4: not a head of a message
GET / HTTP/1.1|Content-Length: +1||a = X4: not a head of a message
GET / HTTP/1.1|Content-Length: -1||a = X4: not a head of a message
GET / HTTP/1.1|Content-Length: 0x1||a = X4: not a head of a message
GET / HTTP/1.1|Content-Length: 1,1||a = X4: not a head of a message
GET / HTTP/1.1|Content-Length: 1 1||a = X4: not a head of a message
GET / HTTP/1.1|Content-Length: 1%||a = X4: not a head of a message
GET% / HTTP/1.1|| = X4: not a head of a message
^^GET / HTTP/1.1|| = X4: not a head of a message
POST / HTTP/1.1|| = X6: no length of the body
POST / HTTP/1.1|Transfer-Encoding: chunked||0|| = X6: no length of the body
POST / HTTP/1.1|Content-Length: 1|TRANSFER-ENCODING: chunked||a = X6: no length of the body
GET / HTTP/1.1|transfer-encoding: identity|| = X6: no length of the body
GET / HTTP/1.1|Content-Length: 16777217||a = X7: the body is too long
GET / HTTP/1.1|Content-Length: 18446744073709551616||a = X7: the body is too long
GET / HTTP/1.1|Content-Length: 18446744073709551617||a = X7: the body is too long
GET / HTTP/1.1|Content-Length: 99999999999999999999||a = X7: the body is too long";

// Texts that are read as responses, and what each is: its status, its body and what is left, or its fault.
const RESPONSES: &str = " = X1: the message is cut off
HTTP/1.1 200 OK|Content-Length: 4| = X1: the message is cut off
HTTP/1.1 200 OK|Content-Length: 4||true = 200 [true] []
|HTTP/1.0 404 Not Found_Content-Length: 0_^_x = 404 [] [x]
HTTP/1.1 200|Content-Length: 0|| = 200 [] []
HTTP/1.1 599 |Content-Length: 1||ab = 599 [a] [b]
HTTP/1.1 999 é~ x|Content-Length: 0|| = 999 [] []
HTTP/1.1 100 Continue|Content-Length: 0|| = 100 [] []
HTTP/1.1 200 OK|Content-Length: 3||ab = X1: the message is cut off
HTTP/1.1 099 Low|Content-Length: 0|| = X4: not a head of a message
HTTP/1.1 000 None|Content-Length: 0|| = X4: not a head of a message
HTTP/1.1 20 OK|Content-Length: 0|| = X4: not a head of a message
HTTP/1.1 2000 OK|Content-Length: 0|| = X4: not a head of a message
HTTP/1.1 2x0 OK|Content-Length: 0|| = X4: not a head of a message
HTTP/1.1|Content-Length: 0|| = X4: not a head of a message
http/1.1 200 OK|Content-Length: 0|| = X4: not a head of a message
GET / HTTP/1.1|Content-Length: 0|| = X4: not a head of a message
HTTP/1.1 200 OK|Content-Length: 1|Content-Length: 1||a = X4: not a head of a message
HTTP/1.1 200 OK|Content-Length: 1x||a = X4: not a head of a message
HTTP/1.1 200 OK|Content-Length:||a = X4: not a head of a message
HTTP/1.1 200 OK|Content-Length: 1 1||a = X4: not a head of a message
HTTP/1.1 200 O%K|Content-Length: 0|| = X4: not a head of a message
HTTP/1.1 200 O^K|Content-Length: 0|| = X4: not a head of a message
HTTP/1.1 200 OK|Content-Length: 0|A: b@|| = X4: not a head of a message
HTTP/1.1 200 OK|| = X6: no length of the body
HTTP/1.1 200 OK|Content-Length: 1|Transfer-Encoding: chunked||a = X6: no length of the body
HTTP/1.1 200 OK|transfer-encoding: chunked||0|| = X6: no length of the body
HTTP/1.1 200 OK|Content-Length: 16777217||a = X7: the body is too long
HTTP/1.1 200 OK|Content-Length: 99999999999999999999||a = X7: the body is too long";

// The byte that a letter stands for which stands for one.
fn byte_of(letter: u8) -> u8 {
    match letter {
        b'_' => b'\n',
        b'^' => b'\r',
        b'%' => 1,
        b'@' => 127,
        b'~' => 255,
        _ => letter,
    }
}

// The bytes that a text stands for.
pub(crate) fn spelled(rt: &impl Abort, alloc: Global, text: &str) -> Vec<u8> {
    let text = text.replace(alloc, "|", "\r\n").expect(rt, "memory");
    let mut bytes = text.into_bytes();
    for byte in bytes.iter_mut() {
        *byte = byte_of(*byte);
    }
    bytes
}

// The bytes as a text of a table, which shows a line end as `|`.
fn shown(rt: &impl Abort, alloc: Global, bytes: &[u8]) -> String {
    let text = text_of(rt, alloc, bytes);
    text.as_str()
        .replace(alloc, "\r\n", "|")
        .expect(rt, "memory")
}

// The result, and what is left after it.
fn with_rest(rt: &impl Abort, alloc: Global, reported: String, rest: &[u8]) -> String {
    let left = shown(rt, alloc, rest);
    format!(in alloc; "{reported} [{left}]").expect(rt, "memory")
}

// A request, without what is left after it.
fn shown_request(rt: &impl Abort, alloc: Global, request: &Request) -> String {
    let method = request.method().as_str();
    let target = request.target();
    let body = shown(rt, alloc, request.body());
    format!(in alloc; "{method} {target} [{body}]").expect(rt, "memory")
}

// What a text is, read as a request.
fn request_in(rt: &impl Abort, alloc: Global, text: &[u8]) -> String {
    let mut rest = text;
    match read_request(alloc, &mut rest) {
        Ok(request) => with_rest(rt, alloc, shown_request(rt, alloc, &request), rest),
        Err(fault) => printed(rt, alloc, &fault),
    }
}

// A response, without what is left after it.
fn shown_response(rt: &impl Abort, alloc: Global, status: StatusCode, body: &[u8]) -> String {
    let code = printed(rt, alloc, &status.as_u16());
    let body = shown(rt, alloc, body);
    format!(in alloc; "{code} [{body}]").expect(rt, "memory")
}

// What a text is, read as a response.
fn response_in(rt: &impl Abort, alloc: Global, text: &[u8]) -> String {
    let mut rest = text;
    match read_response(alloc, &mut rest) {
        Ok((status, body)) => with_rest(rt, alloc, shown_response(rt, alloc, status, &body), rest),
        Err(fault) => printed(rt, alloc, &fault),
    }
}

// What the response is that stands in these bytes.
fn found_in(rt: &impl Abort, alloc: Global, text: &[u8]) -> String {
    match response_of(text) {
        Ok((status, body)) => shown_response(rt, alloc, status, body),
        Err(fault) => printed(rt, alloc, &fault),
    }
}

// Texts that are read as requests, and what each is.
struct RequestTexts;

impl Table for RequestTexts {
    fn holds(&self, rt: &impl Abort, alloc: Global, what: &str, wanted: &str) -> bool {
        is_reported(request_in(rt, alloc, &spelled(rt, alloc, what)), wanted)
    }
}

// Texts that are read as responses, and what each is.
struct ResponseTexts;

impl Table for ResponseTexts {
    fn holds(&self, rt: &impl Abort, alloc: Global, what: &str, wanted: &str) -> bool {
        is_reported(response_in(rt, alloc, &spelled(rt, alloc, what)), wanted)
    }
}

// What stands before the last such text in what is reported, or all of it where there is none.
fn without_last<'a>(reported: &'a str, between: &str) -> &'a str {
    match reported.rsplit_once(between) {
        Some((front, _)) => front,
        None => reported,
    }
}

// The same where their bytes are at hand. What follows a response is not reported.
struct ResponseBytes;

impl Table for ResponseBytes {
    fn holds(&self, rt: &impl Abort, alloc: Global, what: &str, wanted: &str) -> bool {
        let reported = found_in(rt, alloc, &spelled(rt, alloc, what));
        is_reported(reported, without_last(wanted, " ["))
    }
}

#[test]
fn messages_that_are_read(rt: HostRuntime) {
    assert_rows(&rt, rt.alloc(), &RequestTexts, REQUESTS, " = ");
    assert_rows(&rt, rt.alloc(), &ResponseTexts, RESPONSES, " = ");
    assert_rows(&rt, rt.alloc(), &ResponseBytes, RESPONSES, " = ");
}

fn is_cut(reported: String) -> bool {
    is_reported(reported, "X1: the message is cut off")
}

fn is_cut_front(rt: &impl Abort, alloc: Global, front: &[u8], is_response: bool) -> bool {
    if is_response {
        is_cut(response_in(rt, alloc, front)) && is_cut(found_in(rt, alloc, front))
    } else {
        is_cut(request_in(rt, alloc, front))
    }
}

// Asserts that each front of a message that is not the whole is cut, read as a request or as a response.
fn assert_cut_everywhere(rt: &impl Abort, alloc: Global, text: &str, is_response: bool) {
    let whole = spelled(rt, alloc, text);
    for i in 0..whole.len() {
        let is_cut = is_cut_front(rt, alloc, &whole[..i], is_response);
        assert_row(rt, text, is_cut);
    }
}

#[test]
fn cut_messages(rt: HostRuntime) {
    let request = "|POST /q HTTP/1.1|Host: h|Content-Length: 3||abc";
    assert_cut_everywhere(&rt, rt.alloc(), request, false);
    let response = "HTTP/1.1 200 OK|Content-Length: 4||true";
    assert_cut_everywhere(&rt, rt.alloc(), response, true);
}

// How the head of a request begins, and how that of a response does.
const REQUEST_LINE: &str = "GET / HTTP/1.1|";

const RESPONSE_LINES: &str = "HTTP/1.1 200 OK|Content-Length: 0|";

fn number(rt: &impl Abort, text: &str) -> usize {
    text.parse().expect(rt, "a number")
}

fn repeated(rt: &impl Abort, alloc: Global, part: &str, count: usize) -> String {
    part.repeat(alloc, count).expect(rt, "memory")
}

// What is to stand after these lines of a head so that it has so many bytes: one long field.
fn long_field(rt: &impl Abort, alloc: Global, lines: &str, length: usize) -> String {
    // Seven are those of the field's name and of the two line ends.
    let least = spelled(rt, alloc, lines).len().saturating_add(7);
    let value = repeated(rt, alloc, "x", length.saturating_sub(least));
    format!(in alloc; "A: {value}|").expect(rt, "memory")
}

// Fields after these lines of a head: so many, or one that makes it so many bytes.
fn fields(rt: &impl Abort, alloc: Global, lines: &str, kind: &str, size: usize) -> String {
    if kind == "bytes" {
        long_field(rt, alloc, lines, size)
    } else {
        repeated(rt, alloc, "A: b|", size)
    }
}

// A head after these lines: what is large in it and how large, and how many blank lines stand before it.
fn large_head(rt: &impl Abort, alloc: Global, lines: &str, what: &str) -> Vec<u8> {
    let (kind, sizes) = halves(rt, what, " ");
    let (size, blank) = halves(rt, sizes, " ");
    let blank = repeated(rt, alloc, "|", number(rt, blank));
    let fields = fields(rt, alloc, lines, kind, number(rt, size));
    let head = format!(in alloc; "{blank}{lines}{fields}|").expect(rt, "memory");
    spelled(rt, alloc, head.as_str())
}

// Requests with large heads, and what each is.
struct LargeRequests;

impl Table for LargeRequests {
    fn holds(&self, rt: &impl Abort, alloc: Global, what: &str, wanted: &str) -> bool {
        let text = large_head(rt, alloc, REQUEST_LINE, what);
        is_reported(request_in(rt, alloc, &text), wanted)
    }
}

// The same of responses.
struct LargeResponses;

impl Table for LargeResponses {
    fn holds(&self, rt: &impl Abort, alloc: Global, what: &str, wanted: &str) -> bool {
        let text = large_head(rt, alloc, RESPONSE_LINES, what);
        // What is left after a response that is read is reported too.
        let read = response_in(rt, alloc, &text);
        is_reported(found_in(rt, alloc, &text), wanted)
            && without_last(read.as_str(), " [") == wanted
    }
}

// Of a head that is too long: how many bytes come before the input ends, and what that is, as a request and as a response.
struct CutHeads;

impl Table for CutHeads {
    fn holds(&self, rt: &impl Abort, alloc: Global, what: &str, wanted: &str) -> bool {
        let count = number(rt, what);
        let mut request = large_head(rt, alloc, REQUEST_LINE, "bytes 20000 0");
        request.truncate(count);
        let mut response = large_head(rt, alloc, RESPONSE_LINES, "bytes 20000 0");
        response.truncate(count);
        is_reported(request_in(rt, alloc, &request), wanted)
            && is_reported(found_in(rt, alloc, &response), wanted)
    }
}

// The fault where there is one, and how many bytes of a text were read.
fn fault_beside(
    rt: &impl Abort,
    alloc: Global,
    fault: Option<WireFault>,
    text: &[u8],
    rest: &[u8],
) -> String {
    let read = text.len().saturating_sub(rest.len());
    match fault {
        Some(fault) => beside(rt, alloc, &fault, &read),
        None => beside(rt, alloc, &"no fault", &read),
    }
}

fn request_fault(rt: &impl Abort, alloc: Global, text: &[u8]) -> String {
    let mut rest = text;
    let fault = read_request(alloc, &mut rest).err();
    fault_beside(rt, alloc, fault, text, rest)
}

fn response_fault(rt: &impl Abort, alloc: Global, text: &[u8]) -> String {
    let mut rest = text;
    let fault = read_response(alloc, &mut rest).err();
    fault_beside(rt, alloc, fault, text, rest)
}

// So many line feeds and nothing else: the fault, and how many of them are read, as a request and as a response.
struct LineFeeds;

impl Table for LineFeeds {
    fn holds(&self, rt: &impl Abort, alloc: Global, what: &str, wanted: &str) -> bool {
        let text = vec![in alloc; b'\n'; number(rt, what)].expect(rt, "memory");
        let found = found_in(rt, alloc, &text);
        is_reported(request_fault(rt, alloc, &text), wanted)
            && is_reported(response_fault(rt, alloc, &text), wanted)
            && is_reported(found, without_last(wanted, " "))
    }
}

// Blank lines count, and a client that sends nothing else is not read for ever.
#[test]
fn blank_lines(rt: HostRuntime) {
    let rows = "0 = X1: the message is cut off 0
1 = X1: the message is cut off 1
16384 = X1: the message is cut off 16384
16385 = X5: the head is too long 16385
20000 = X5: the head is too long 16385";
    assert_rows(&rt, rt.alloc(), &LineFeeds, rows, " = ");
}

#[test]
fn cut_heads(rt: HostRuntime) {
    let rows = "16383 = X1: the message is cut off
16384 = X1: the message is cut off
16385 = X5: the head is too long
19999 = X5: the head is too long";
    assert_rows(&rt, rt.alloc(), &CutHeads, rows, " = ");
}

#[test]
fn limits(rt: HostRuntime) {
    let requests = "bytes 16383 0 = GET / [] []
bytes 16384 0 = GET / [] []
bytes 16382 1 = GET / [] []
bytes 16383 1 = X5: the head is too long
bytes 16384 9000 = X5: the head is too long
bytes 100 8142 = GET / [] []
bytes 100 8143 = X5: the head is too long
bytes 16385 0 = X5: the head is too long
bytes 16386 0 = X5: the head is too long
bytes 50000 1 = X5: the head is too long
fields 64 0 = GET / [] []
fields 65 0 = X5: the head is too long
fields 200 0 = X5: the head is too long";
    assert_rows(&rt, rt.alloc(), &LargeRequests, requests, " = ");
    let responses = "bytes 16384 0 = 200 []
bytes 16382 1 = 200 []
bytes 16383 1 = X5: the head is too long
bytes 16384 9000 = X5: the head is too long
bytes 100 8142 = 200 []
bytes 100 8143 = X5: the head is too long
bytes 16385 0 = X5: the head is too long
bytes 16386 0 = X5: the head is too long
bytes 50000 1 = X5: the head is too long
fields 63 0 = 200 []
fields 64 0 = X5: the head is too long";
    assert_rows(&rt, rt.alloc(), &LargeResponses, responses, " = ");
}

fn response_bytes(rt: &impl Abort, alloc: Global, status: StatusCode, body: &[u8]) -> Vec<u8> {
    let mut written = Vec::new(alloc);
    write_response(status, body, &mut written).expect(rt, "the response is written");
    written
}

fn status(rt: &impl Abort, code: &str) -> StatusCode {
    let code = code.parse().expect(rt, "a number");
    StatusCode::from_u16(code).expect(rt, "a status")
}

// The response with that status and body.
fn written_response(rt: &impl Abort, alloc: Global, what: &str) -> Vec<u8> {
    let (code, body) = halves(rt, what, " ");
    response_bytes(rt, alloc, status(rt, code), body.as_bytes())
}

fn is_same(first: Vec<u8>, second: Vec<u8>) -> bool {
    first.as_slice() == second.as_slice()
}

// Statuses and bodies, and how each response is written.
struct WrittenResponses;

impl Table for WrittenResponses {
    fn holds(&self, rt: &impl Abort, alloc: Global, what: &str, wanted: &str) -> bool {
        is_same(
            written_response(rt, alloc, what),
            spelled(rt, alloc, wanted),
        )
    }
}

fn method(rt: &impl Abort, alloc: Global, name: &str) -> Method {
    Method::from_bytes(alloc, name.as_bytes()).expect(rt, "a method")
}

fn request(rt: &impl Abort, alloc: Global, name: &str, target: &str, body: Vec<u8>) -> Request {
    let target = String::from_str(alloc, target).expect(rt, "memory");
    Request::new(method(rt, alloc, name), target, body)
}

fn is_written(alloc: Global, request: &Request, wanted: &[u8]) -> bool {
    let mut written = Vec::new(alloc);
    write_request(request, &mut written).is_ok() && written.as_slice() == wanted
}

fn has_bytes(rt: &impl Abort, alloc: Global, request: &Request, wanted: &[u8]) -> bool {
    let bytes = request_bytes(alloc, request).expect(rt, "memory");
    bytes.as_slice() == wanted
}

// The request of that method, target and body.
fn request_of(rt: &impl Abort, alloc: Global, what: &str) -> Request {
    let (method, rest) = halves(rt, what, " ");
    let (target, body) = halves(rt, rest, " ");
    let body = body.as_bytes().to_vec(alloc).expect(rt, "memory");
    request(rt, alloc, method, target, body)
}

fn is_request_text(rt: &impl Abort, alloc: Global, request: &Request, wanted: &[u8]) -> bool {
    is_written(alloc, request, wanted) && has_bytes(rt, alloc, request, wanted)
}

// Methods, targets and bodies, and how each request is written.
struct WrittenRequests;

impl Table for WrittenRequests {
    fn holds(&self, rt: &impl Abort, alloc: Global, what: &str, wanted: &str) -> bool {
        let request = request_of(rt, alloc, what);
        is_request_text(rt, alloc, &request, &spelled(rt, alloc, wanted))
    }
}

#[test]
fn written_texts(rt: HostRuntime) {
    let responses =
        "200 true = HTTP/1.1 200 OK|Content-Type: application/json|Content-Length: 4|Connection: close||true
200  = HTTP/1.1 200 OK|Content-Type: application/json|Content-Length: 0|Connection: close||
400 {} = HTTP/1.1 400 Bad Request|Content-Type: application/json|Content-Length: 2|Connection: close||{}
404 {} = HTTP/1.1 404 Not Found|Content-Type: application/json|Content-Length: 2|Connection: close||{}
405 {} = HTTP/1.1 405 Method Not Allowed|Content-Type: application/json|Content-Length: 2|Connection: close||{}
500 {} = HTTP/1.1 500 Internal Server Error|Content-Type: application/json|Content-Length: 2|Connection: close||{}
503 {} = HTTP/1.1 503 Service Unavailable|Content-Type: application/json|Content-Length: 2|Connection: close||{}";
    assert_rows(&rt, rt.alloc(), &WrittenResponses, responses, " = ");
    let requests =
        "GET /status/health  = GET /status/health HTTP/1.1|Host: localhost|Content-Type: application/json|Content-Length: 0|Connection: close||
POST /q abcdefghijkl = POST /q HTTP/1.1|Host: localhost|Content-Type: application/json|Content-Length: 12|Connection: close||abcdefghijkl";
    assert_rows(&rt, rt.alloc(), &WrittenRequests, requests, " = ");
}

// A body of so many bytes.
pub(crate) fn large(rt: &impl Abort, alloc: Global, length: usize) -> Vec<u8> {
    vec![in alloc; b'x'; length].expect(rt, "memory")
}

/// So many bytes, of which neighbours differ.
pub(crate) fn patterned(rt: &impl Abort, alloc: Global, length: usize) -> Vec<u8> {
    let mut pattern = [0u8; 251];
    let mut next: u8 = 0;
    for byte in pattern.iter_mut() {
        *byte = next;
        next = next.wrapping_add(1);
    }
    let mut bytes = large(rt, alloc, length);
    for part in bytes.chunks_mut(251) {
        let count = part.len().min(251);
        part[..count].copy_from_slice(&pattern[..count]);
    }
    bytes
}

fn is_text(written: &[u8], head: &[u8], count: usize) -> bool {
    written.starts_with(head) && written.len() == head.len().saturating_add(count)
}

// Asserts that a response with a body of so many bytes is written with that head, and that much of a body.
fn assert_large_response(rt: &impl Abort, alloc: Global, length: usize, head: &str, count: usize) {
    let written = response_bytes(rt, alloc, StatusCode::OK, &large(rt, alloc, length));
    assert_row(
        rt,
        head,
        is_text(&written, &spelled(rt, alloc, head), count),
    );
}

// The status that is written with a body of so many bytes; 0 where none is.
fn large_status(rt: &impl Abort, alloc: Global, length: usize) -> u16 {
    let body = String::from_utf8(large(rt, alloc, length)).expect(rt, "a text");
    let response = Response::of_text(StatusCode::OK, body);
    let mut written = Vec::new(alloc);
    send_response(&response, &mut written).unwrap_or(0)
}

/// What the end of writing tells, beside how many bytes are written.
pub(crate) fn reported_of(
    rt: &impl Abort,
    alloc: Global,
    end: Result<(), WireFault>,
    count: usize,
) -> String {
    match end {
        Ok(()) => beside(rt, alloc, &"ok", &count),
        Err(fault) => beside(rt, alloc, &fault, &count),
    }
}

fn written_of(rt: &impl Abort, alloc: Global, request: &Request) -> String {
    let mut written = Vec::new(alloc);
    let end = write_request(request, &mut written);
    reported_of(rt, alloc, end, written.len())
}

fn length_of(rt: &impl Abort, alloc: Global, request: &Request) -> usize {
    request_bytes(alloc, request).expect(rt, "memory").len()
}

// What writing a request with a body of so many bytes tells, how many bytes are written, and how many its text has.
fn large_request(rt: &impl Abort, alloc: Global, length: usize) -> String {
    let request = request(rt, alloc, "POST", "/", large(rt, alloc, length));
    let written = written_of(rt, alloc, &request);
    beside(rt, alloc, &written, &length_of(rt, alloc, &request))
}

#[test]
fn large_bodies(rt: HostRuntime) {
    let whole =
        "HTTP/1.1 200 OK|Content-Type: application/json|Content-Length: 16777216|Connection: close||";
    assert_large_response(&rt, rt.alloc(), 16_777_216, whole, 16_777_216);
    let other =
        "HTTP/1.1 500 Internal Server Error|Content-Type: application/json|Content-Length: 20|Connection: close||{\"error\":\"TooLarge\"}";
    assert_large_response(&rt, rt.alloc(), 16_777_217, other, 0);
    let status = large_status(&rt, rt.alloc(), 16_777_216);
    assert_row(&rt, "a status with the longest body", status == 200);
    let status = large_status(&rt, rt.alloc(), 16_777_217);
    assert_row(&rt, "a status with a longer body", status == 500);
    let request = large_request(&rt, rt.alloc(), 16_777_216);
    assert_reported(&rt, request, "ok 16777329 16777329");
    let request = large_request(&rt, rt.alloc(), 16_777_217);
    assert_reported(&rt, request, "X7: the body is too long 0 16777330");
}
