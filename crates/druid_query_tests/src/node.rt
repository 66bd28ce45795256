//! Data nodes over folders in memory, and what they answer to messages.
use crate::printed::{assert_prints, filled, printed};
use druid_folder::Folder;
use druid_folder_store::MemoryFolder;
use druid_node::{DataNode, Incarnation, NodeFault, NodeState};
use druid_segment_descriptor::Mark;
use druid_segment_file::{read_segment, write_columns, write_segment};
use druid_segment_id::{Name, SegmentId};
use druid_segment_rows::Segment;
use std::alloc::Global;
use std::process::Abort;
use std::sync::Wait;
use std::thread::Threads;

// One row of the source `w` at a second of 1970, of `x` and 5, as another program spells it: examples/vector.dsg.
fn vector() -> &'static str {
    "44534731017700000000000000000000000005265c00017600000001000000000000000001016401016d0000000100000000000003e801000178010000000000000005"
}

/// The name of its file.
const VECTOR_FILE: &str = "w_1970-01-01T00:00:00.000Z_1970-01-02T00:00:00.000Z_v.seg";

// Three rows of a day of the source `wiki`, spelled by another program.
fn three_rows() -> &'static str {
    "445347310477696b690000018cc251f4000000018cc7785000027631000380000000011f71fb04cb020463697479046e6f7465010468697473000000030000018cc251f4000100075ac3bc726963680001ffffffffffffffff0000018cc7784fff010000010009c3a9e282acf09d849e000000018cc251f4010000018000000000000000"
}

const THREE_FILE: &str = "wiki_2024-01-01T00:00:00.000Z_2024-01-02T00:00:00.000Z_v1_3.seg";

fn nibble(digit: u8) -> u8 {
    match digit {
        b'0'..=b'9' => digit - b'0',
        b'a'..=b'f' => digit - b'a' + 10,
        _ => 0,
    }
}

// The byte of a pair of digits.
fn byte(pair: &[u8]) -> u8 {
    match pair {
        [high, low] => nibble(*high).wrapping_mul(16).wrapping_add(nibble(*low)),
        _ => 0,
    }
}

// The bytes of hexadecimal digits.
fn bytes_of(rt: &impl Abort, alloc: Global, digits: &str) -> Vec<u8> {
    let mut bytes = Vec::new(alloc);
    for pair in digits.as_bytes().chunks(2) {
        bytes.push(byte(pair)).expect(rt, "memory");
    }
    bytes
}

fn segment(rt: &impl Abort, alloc: Global, digits: &str) -> Segment {
    let bytes = bytes_of(rt, alloc, digits);
    read_segment(alloc, &mut bytes.as_slice()).expect(rt, "a segment")
}

/// The layout of a file.
#[derive(Clone, Copy)]
pub(crate) enum Layout {
    ByRows,
    ByColumns,
}

/// Both.
pub(crate) const LAYOUTS: [Layout; 2] = [Layout::ByRows, Layout::ByColumns];

/// The file of a segment.
pub(crate) fn file_of(
    rt: &impl Abort,
    alloc: Global,
    layout: Layout,
    segment: &Segment,
) -> Vec<u8> {
    let mut bytes = Vec::new(alloc);
    let written = match layout {
        Layout::ByRows => write_segment(alloc, segment, &mut bytes),
        Layout::ByColumns => write_columns(alloc, segment, &mut bytes),
    };
    written.expect(rt, "a written file");
    bytes
}

// Puts the segment of these digits, written again, into a file.
fn put(
    rt: &impl Abort,
    alloc: Global,
    layout: Layout,
    folder: &mut MemoryFolder,
    name: &str,
    digits: &str,
) {
    let bytes = file_of(rt, alloc, layout, &segment(rt, alloc, digits));
    folder.write(name, &bytes).expect(rt, "a write");
}

// A folder of two files, and two that are no files of segments.
fn folder(rt: &impl Abort, alloc: Global, layout: Layout) -> MemoryFolder {
    let mut folder = MemoryFolder::new(alloc);
    put(rt, alloc, layout, &mut folder, VECTOR_FILE, vector());
    put(rt, alloc, layout, &mut folder, THREE_FILE, three_rows());
    put(rt, alloc, layout, &mut folder, "other.seg", vector());
    folder.write("broken.seg", b"DSG").expect(rt, "a write");
    folder
}

/// The incarnation of the nodes here.
pub(crate) struct First;

impl Incarnation for First {
    ghost number = { 1 };
}

/// A node of incarnation 1 without segments, which keeps two changes and counts a query on so many threads.
pub(crate) fn node_of(rt: &impl Abort, alloc: Global, threads: usize) -> DataNode<First> {
    DataNode::new(NodeState::new(alloc, 1, 2).expect(rt, "memory"), threads)
}

/// The same, which counts on one.
pub(crate) fn empty_node(rt: &impl Abort, alloc: Global) -> DataNode<First> {
    node_of(rt, alloc, 1)
}

/// The same node, with the segment of `w`, from a file of that layout.
pub(crate) fn node<R: Abort + Wait>(rt: &R, alloc: Global, layout: Layout) -> DataNode<First> {
    let node = empty_node(rt, alloc);
    load(rt, alloc, layout, &node, VECTOR_FILE, &mut Mark::never()).expect(rt, "a segment");
    node
}

// What a file of the folder above tells.
fn load<R: Abort + Wait>(
    rt: &R,
    alloc: Global,
    layout: Layout,
    node: &DataNode<First>,
    name: &str,
    seen: &mut Mark,
) -> Result<(), NodeFault> {
    node.load_file(rt, &mut folder(rt, alloc, layout), name, seen)
}

// What it tells where the device fails.
fn load_in_vain<R: Abort + Wait>(
    rt: &R,
    alloc: Global,
    layout: Layout,
    node: &DataNode<First>,
    name: &str,
    seen: &mut Mark,
) -> Result<(), NodeFault> {
    let mut failing = folder(rt, alloc, layout);
    failing.fuse(0);
    node.load_file(rt, &mut failing, name, seen)
}

// The segment of `w` of that text.
fn id_of(rt: &impl Abort, alloc: Global, text: &str) -> SegmentId {
    let source = Name::new(alloc, "w").expect(rt, "a name");
    SegmentId::parse(alloc, &source, text).expect(rt, "an identifier")
}

// What dropping a segment of `w` tells, by the text of its identifier.
fn drop_named<R: Abort + Wait>(
    rt: &R,
    alloc: Global,
    node: &DataNode<First>,
    id: &str,
    seen: &mut Mark,
) -> Result<(), NodeFault> {
    node.drop_segment(rt, &id_of(rt, alloc, id), seen)
}

/// A text in which `|` stands for a carriage return and a line feed, `_` for a line feed, `^` for a carriage return, `%` for
/// a control byte, and `~` for a byte that is no text.
pub(crate) fn spelled(rt: &impl Abort, alloc: Global, text: &str) -> Vec<u8> {
    let mut out = Vec::new(alloc);
    for byte in text.bytes() {
        let pushed = match byte {
            b'|' => out.extend_from_slice(b"\r\n"),
            b'_' => out.extend_from_slice(b"\n"),
            b'^' => out.extend_from_slice(b"\r"),
            b'%' => out.extend_from_slice(&[1]),
            b'~' => out.extend_from_slice(&[255]),
            _ => out.extend_from_slice(&[byte]),
        };
        pushed.expect(rt, "memory");
    }
    out
}

fn status_line(status: u16) -> &'static str {
    match status {
        200 => "HTTP/1.1 200 OK",
        400 => "HTTP/1.1 400 Bad Request",
        404 => "HTTP/1.1 404 Not Found",
        405 => "HTTP/1.1 405 Method Not Allowed",
        _ => "HTTP/1.1 500 Internal Server Error",
    }
}

// The whole response of that status and body.
fn response(rt: &impl Abort, alloc: Global, status: u16, body: &str) -> String {
    let line = status_line(status);
    let length = body.len();
    format!(in alloc;
        "{line}\r\nContent-Type: application/json\r\nContent-Length: {length}\r\nConnection: close\r\n\r\n{body}"
    ).expect(rt, "memory")
}

// Whether these bytes are the response of that status, and that is the one of `200 true`.
fn is_response(rt: &impl Abort, alloc: Global, status: u16, bytes: &[u8], wanted: &str) -> bool {
    let (code, body) = wanted.split_once(" ").expect(rt, "a status");
    code.parse() == Ok(status) && response(rt, alloc, status, body).as_bytes() == bytes
}

/// Whether the node answers the message so: `200 true`, or the fault, where nothing is written.
pub(crate) fn answers<R: Abort + Wait + Threads>(
    rt: &R,
    alloc: Global,
    node: &DataNode<First>,
    mut message: &[u8],
    wanted: &str,
    seen: &mut Mark,
) -> bool {
    let mut written = Vec::new(alloc);
    match node.serve_one(rt, &mut message, &mut written, seen) {
        Ok(status) => is_response(rt, alloc, status, &written, wanted),
        Err(fault) => written.is_empty() && printed(rt, alloc, &fault).as_str() == wanted,
    }
}

fn is_answered<R: Abort + Wait + Threads>(
    rt: &R,
    alloc: Global,
    node: &DataNode<First>,
    row: &str,
    seen: &mut Mark,
) -> bool {
    let (text, wanted) = row.split_once(" = ").expect(rt, "a row");
    let message = spelled(rt, alloc, text);
    answers(rt, alloc, node, &message, wanted, seen)
}

// Messages to a node with the segment of `w`, and what it answers.
const MESSAGES: &str = "GET /status/health HTTP/1.1|| = 200 true
GET /status/health HTTP/1.0|Host: h|| = 200 true
GET /status/health?verbose=1 HTTP/1.1|| = 200 true
GET /status/health? HTTP/1.1|| = 200 true
GET /status/health?a?b HTTP/1.1|| = 200 true
||GET /status/health HTTP/1.1||GET / HTTP/1.1|| = 200 true
GET /status/health HTTP/1.1|Content-Length: 3||abc = 200 true
GET /status/health HTTP/1.1|Content-Length: 3||abcdef = 200 true
GET /status/health HTTP/1.1__ = 200 true
HEAD /status/health HTTP/1.1|| = 405 {\"error\":\"Method\"}
POST /status/health HTTP/1.1|Content-Length: 0|| = 405 {\"error\":\"Method\"}
get /status/health HTTP/1.1|| = 405 {\"error\":\"Method\"}
BREW /status/health HTTP/1.1|| = 405 {\"error\":\"Method\"}
GET /status/health/ HTTP/1.1|| = 404 {\"error\":\"NoRoute\"}
GET /status HTTP/1.1|| = 404 {\"error\":\"NoRoute\"}
GET /status/Health HTTP/1.1|| = 404 {\"error\":\"NoRoute\"}
GET //status/health HTTP/1.1|| = 404 {\"error\":\"NoRoute\"}
GET http://h/status/health HTTP/1.1|| = 404 {\"error\":\"NoRoute\"}
GET / HTTP/1.1|| = 404 {\"error\":\"NoRoute\"}
GET * HTTP/1.1|| = 404 {\"error\":\"NoRoute\"}
GET ? HTTP/1.1|| = 404 {\"error\":\"NoRoute\"}
GET /é HTTP/1.1|| = 404 {\"error\":\"NoRoute\"}
PUT /nowhere HTTP/1.1|| = 404 {\"error\":\"NoRoute\"}
POST /nowhere HTTP/1.1|Content-Length: 2||{} = 404 {\"error\":\"NoRoute\"}
GET /druid-internal/v1/segments?counter=0 HTTP/1.1|| = 400 {\"error\":\"Y6\"}
GET /druid-internal/v1/segments?hash=1 HTTP/1.1|| = 400 {\"error\":\"Y6\"}
GET /druid-internal/v1/segments?counter=0&hash=0 HTTP/1.1|| = 400 {\"error\":\"Y6\"}
GET /druid-internal/v1/segments?counter=00&hash=1 HTTP/1.1|| = 400 {\"error\":\"Y6\"}
GET /druid-internal/v1/segments?counter=1&hash=1&hash=1 HTTP/1.1|| = 400 {\"error\":\"Y6\"}
GET /druid-internal/v1/segments?counter=18446744073709551616&hash=1 HTTP/1.1|| = 400 {\"error\":\"Y6\"}
POST /druid-internal/v1/segments HTTP/1.1|Content-Length: 0|| = 405 {\"error\":\"Method\"}
DELETE /druid-internal/v1/segments?counter=0 HTTP/1.1|| = 405 {\"error\":\"Method\"}
GET /druid-internal/v1/segments/ HTTP/1.1|| = 404 {\"error\":\"NoRoute\"}
GET /druid/v2 HTTP/1.1|| = 405 {\"error\":\"Method\"}
GET /druid/v2/ HTTP/1.1|| = 405 {\"error\":\"Method\"}
PUT /druid/v2 HTTP/1.1|Content-Length: 2||{} = 405 {\"error\":\"Method\"}
POST /druid/v2// HTTP/1.1|Content-Length: 2||{} = 404 {\"error\":\"NoRoute\"}
POST /druid/v2 HTTP/1.1|Content-Length: 0|| = 400 {\"error\":\"Q1\"}
POST /druid/v2 HTTP/1.1|Content-Length: 1||~ = 400 {\"error\":\"Q1\"}
POST /druid/v2 HTTP/1.1|Content-Length: 1||{} = 400 {\"error\":\"Q1\"}
POST /druid/v2 HTTP/1.1|Content-Length: 2||{} = 400 {\"error\":\"Q2\"}
POST /druid/v2/?pretty HTTP/1.1|Content-Length: 2||[] = 400 {\"error\":\"Q2\"}
 = N5: X1: the message is cut off
| = N5: X1: the message is cut off
GET = N5: X1: the message is cut off
GET /status/health HTTP/1.1 = N5: X1: the message is cut off
GET /status/health HTTP/1.1|Host: h| = N5: X1: the message is cut off
POST /druid/v2 HTTP/1.1|Content-Length: 3||{} = N5: X1: the message is cut off
POST /druid/v2 HTTP/1.1|Content-Length: 16777216||{} = N5: X1: the message is cut off
GET /status/health HTTP/1.1^x|| = 400 {\"error\":\"X4\"}
GET /status/health|| = 400 {\"error\":\"X4\"}
GET  /status/health HTTP/1.1|| = 400 {\"error\":\"X4\"}
GET /status/health HTTP/2.0|| = 400 {\"error\":\"X4\"}
G(T /status/health HTTP/1.1|| = 400 {\"error\":\"X4\"}
GET /~ HTTP/1.1|| = 400 {\"error\":\"X4\"}
GET /a%b HTTP/1.1|| = 400 {\"error\":\"X4\"}
GET / HTTP/1.1|A: b%|| = 400 {\"error\":\"X4\"}
GET / HTTP/1.1|A b: c|| = 400 {\"error\":\"X4\"}
GET / HTTP/1.1|Content-Length: 1|Content-Length: 1||a = 400 {\"error\":\"X4\"}
GET / HTTP/1.1|Content-Length: +1||a = 400 {\"error\":\"X4\"}
HTTP/1.1 200 OK|Content-Length: 0|| = 400 {\"error\":\"X4\"}
POST /druid/v2 HTTP/1.1|| = 400 {\"error\":\"X6\"}
POST /druid/v2 HTTP/1.1|Transfer-Encoding: chunked||0|| = 400 {\"error\":\"X6\"}
GET /status/health HTTP/1.1|transfer-encoding: identity|| = 400 {\"error\":\"X6\"}
POST /druid/v2 HTTP/1.1|Content-Length: 16777217||{} = 400 {\"error\":\"X7\"}
POST /druid/v2 HTTP/1.1|Content-Length: 99999999999999999999||{} = 400 {\"error\":\"X7\"}";

#[test]
fn messages(rt: HostRuntime) {
    let node = node(&rt, rt.alloc(), Layout::ByRows);
    for row in MESSAGES.lines() {
        assert!(rt;
            is_answered(&rt, rt.alloc(), &node, row, &mut Mark::never()),
            "{row}"
        );
    }
}

const UNREADABLE: &str = "GET /status/health|| = 400 {\"error\":\"X4\"}";

const READABLE: &str = "GET /status/health HTTP/1.1|| = 200 true";

// Of what is no request nothing is seen, and what comes after it is answered as if it had not been.
#[test]
fn unreadable_is_not_seen(rt: HostRuntime) {
    let node = node(&rt, rt.alloc(), Layout::ByRows);
    let mut seen = Mark::never();
    assert!(rt; is_answered(&rt, rt.alloc(), &node, UNREADABLE, &mut seen));
    assert!(rt; seen == Mark::never());
    assert!(rt; is_answered(&rt, rt.alloc(), &node, READABLE, &mut seen));
    assert!(rt; seen == Mark::new(1, 1));
    assert!(rt; is_answered(&rt, rt.alloc(), &node, UNREADABLE, &mut seen));
    assert!(rt; seen == Mark::new(1, 1));
}

// The fields of a head: so many, or one in a head of so many bytes, of which 36 are not of its value.
fn fields(rt: &impl Abort, alloc: Global, kind: &str, size: usize) -> String {
    if kind == "fields" {
        return "A: b\r\n".repeat(alloc, size).expect(rt, "memory");
    }
    let value = "x"
        .repeat(alloc, size.saturating_sub(36))
        .expect(rt, "memory");
    format!(in alloc; "A: {value}\r\n").expect(rt, "memory")
}

// A head of so many bytes, or of so many fields.
fn head(rt: &impl Abort, alloc: Global, kind: &str, size: usize) -> String {
    let fields = fields(rt, alloc, kind, size);
    format!(in alloc; "GET /status/health HTTP/1.1\r\n{fields}\r\n").expect(rt, "memory")
}

fn is_head_answered<R: Abort + Wait + Threads>(
    rt: &R,
    alloc: Global,
    node: &DataNode<First>,
    row: &str,
) -> bool {
    let (what, wanted) = row.split_once(" = ").expect(rt, "a row");
    let (kind, size) = what.split_once(" ").expect(rt, "a size");
    let head = head(rt, alloc, kind, size.parse().expect(rt, "a size"));
    answers(rt, alloc, node, head.as_bytes(), wanted, &mut Mark::never())
}

const HEADS: &str = "bytes 16384 = 200 true
bytes 16385 = 400 {\"error\":\"X5\"}
fields 64 = 200 true
fields 65 = 400 {\"error\":\"X5\"}";

#[test]
fn long_heads(rt: HostRuntime) {
    let node = node(&rt, rt.alloc(), Layout::ByRows);
    for row in HEADS.lines() {
        assert!(rt; is_head_answered(&rt, rt.alloc(), &node, row), "{row}");
    }
}

// The load and the drop of the segment of `w`, for which `@` and `#` stand in the tables below.
const LOAD: &str =
    "{\"action\":\"load\",\"dataSource\":\"w\",\"interval\":\"1970-01-01T00:00:00.000Z/1970-01-02T00:00:00.000Z\",\"shardSpec\":{\"partitionNum\":0,\"partitions\":1,\"type\":\"numbered\"},\"size\":0,\"version\":\"v\"}";

const DROP: &str =
    "{\"action\":\"drop\",\"dataSource\":\"w\",\"interval\":\"1970-01-01T00:00:00.000Z/1970-01-02T00:00:00.000Z\",\"shardSpec\":{\"partitionNum\":0,\"partitions\":1,\"type\":\"numbered\"},\"size\":0,\"version\":\"v\"}";

fn with_changes(rt: &impl Abort, alloc: Global, text: &str) -> String {
    let text = filled(rt, alloc, text, '@', LOAD);
    filled(rt, alloc, text.as_str(), '#', DROP)
}

// Whether the node answers an ask so.
fn is_reported<R: Abort + Wait + Threads>(
    rt: &R,
    alloc: Global,
    node: &DataNode<First>,
    row: &str,
    seen: &mut Mark,
) -> bool {
    let (parameters, wanted) = row.split_once(" = ").expect(rt, "a row");
    let message = format!(in alloc; "GET /druid-internal/v1/segments{parameters} HTTP/1.1\r\n\r\n");
    let message = message.expect(rt, "memory");
    let wanted = with_changes(rt, alloc, wanted);
    answers(rt, alloc, node, message.as_bytes(), wanted.as_str(), seen)
}

// Asserts that the node answers each ask so.
fn assert_reported<R: Abort + Wait + Threads>(
    rt: &R,
    alloc: Global,
    node: &DataNode<First>,
    rows: &str,
    seen: &mut Mark,
) {
    for row in rows.lines() {
        assert!(rt; is_reported(rt, alloc, node, row, seen), "{row}");
    }
}

const FRESH: &str =
    " = 200 {\"counter\":{\"counter\":0,\"hash\":1},\"from\":null,\"requests\":[],\"resetCause\":null,\"resetCounter\":false}
?counter=0&hash=1 = 200 {\"counter\":{\"counter\":0,\"hash\":1},\"from\":{\"counter\":0,\"hash\":1},\"requests\":[],\"resetCause\":null,\"resetCounter\":false}
?counter=0 = 400 {\"error\":\"Y6\"}";

#[test]
fn fresh_node(rt: HostRuntime) {
    let node = empty_node(&rt, rt.alloc());
    assert_reported(&rt, rt.alloc(), &node, FRESH, &mut Mark::never());
}

const AFTER_LOAD: &str =
    " = 200 {\"counter\":{\"counter\":1,\"hash\":1},\"from\":null,\"requests\":[@],\"resetCause\":null,\"resetCounter\":false}
?x=y&counter=-1 = 200 {\"counter\":{\"counter\":1,\"hash\":1},\"from\":null,\"requests\":[@],\"resetCause\":null,\"resetCounter\":false}
?hash=1&counter=0 = 200 {\"counter\":{\"counter\":1,\"hash\":1},\"from\":{\"counter\":0,\"hash\":1},\"requests\":[@],\"resetCause\":null,\"resetCounter\":false}
?counter=1&hash=1 = 200 {\"counter\":{\"counter\":1,\"hash\":1},\"from\":{\"counter\":1,\"hash\":1},\"requests\":[],\"resetCause\":null,\"resetCounter\":false}
?counter=2&hash=1 = 200 {\"counter\":{\"counter\":1,\"hash\":1},\"from\":null,\"requests\":[],\"resetCause\":\"Ahead\",\"resetCounter\":true}
?counter=0&hash=2 = 200 {\"counter\":{\"counter\":1,\"hash\":1},\"from\":null,\"requests\":[],\"resetCause\":\"OtherIncarnation\",\"resetCounter\":true}
?counter=1&hash=1&page=0 = 200 {\"counter\":{\"counter\":1,\"hash\":1},\"from\":null,\"requests\":[],\"resetCause\":\"TooOld\",\"resetCounter\":true}
?counter=1&hash=2&page=0 = 200 {\"counter\":{\"counter\":1,\"hash\":1},\"from\":null,\"requests\":[],\"resetCause\":\"OtherIncarnation\",\"resetCounter\":true}
?counter=1&hash=1&page=65536 = 400 {\"error\":\"Y6\"}
?page=0 = 400 {\"error\":\"Y6\"}";

const AFTER_DROP: &str =
    " = 200 {\"counter\":{\"counter\":2,\"hash\":1},\"from\":null,\"requests\":[],\"resetCause\":null,\"resetCounter\":false}
?counter=0&hash=1 = 200 {\"counter\":{\"counter\":2,\"hash\":1},\"from\":{\"counter\":0,\"hash\":1},\"requests\":[@,#],\"resetCause\":null,\"resetCounter\":false}
?counter=1&hash=1 = 200 {\"counter\":{\"counter\":2,\"hash\":1},\"from\":{\"counter\":1,\"hash\":1},\"requests\":[#],\"resetCause\":null,\"resetCounter\":false}";

const AFTER_MORE: &str =
    "?counter=0&hash=1 = 200 {\"counter\":{\"counter\":3,\"hash\":1},\"from\":null,\"requests\":[],\"resetCause\":\"TooOld\",\"resetCounter\":true}";

// What is done to the node: a file is loaded, from a device that works or one that fails, a tombstone is placed, or a segment
// is dropped, these two by the text of the identifier.
fn done<R: Abort + Wait>(
    rt: &R,
    alloc: Global,
    layout: Layout,
    node: &DataNode<First>,
    step: &str,
    seen: &mut Mark,
) -> Result<(), NodeFault> {
    let (what, name) = step.split_once(" ").expect(rt, "a name");
    match what {
        "load" => load(rt, alloc, layout, node, name, seen),
        "fail" => load_in_vain(rt, alloc, layout, node, name, seen),
        "place" => node.place_tombstone(rt, id_of(rt, alloc, name), seen),
        _ => drop_named(rt, alloc, node, name, seen),
    }
}

// Whether a row holds: what is done, and what that tells.
fn is_done<R: Abort + Wait>(
    rt: &R,
    alloc: Global,
    layout: Layout,
    node: &DataNode<First>,
    row: &str,
    seen: &mut Mark,
) -> bool {
    let (step, wanted) = row.split_once(" = ").expect(rt, "a row");
    match done(rt, alloc, layout, node, step, seen) {
        Ok(()) => wanted == "ok",
        Err(fault) => printed(rt, alloc, &fault).as_str() == wanted,
    }
}

const FIRST: &str = "load w_1970-01-01T00:00:00.000Z_1970-01-02T00:00:00.000Z_v.seg = ok";

// What is refused leaves the node as it was.
const REFUSED: &str =
    "load w_1970-01-01T00:00:00.000Z_1970-01-02T00:00:00.000Z_v.seg = N4: H1: served already
load other.seg = N3: a segment under another name
load broken.seg = N2: F2: a cut file
load none.seg = N6: no such file
fail w_1970-01-01T00:00:00.000Z_1970-01-02T00:00:00.000Z_v.seg = N1: the device failed
fail wiki_2024-01-01T00:00:00.000Z_2024-01-02T00:00:00.000Z_v1_3.seg = N1: the device failed
drop w_1970-01-01T00:00:00.000Z_1970-01-02T00:00:00.000Z_v_1 = N4: H2: not served";

const DROPPED: &str = "drop w_1970-01-01T00:00:00.000Z_1970-01-02T00:00:00.000Z_v = ok";

const LOADED: &str =
    "drop w_1970-01-01T00:00:00.000Z_1970-01-02T00:00:00.000Z_v = N4: H2: not served
load wiki_2024-01-01T00:00:00.000Z_2024-01-02T00:00:00.000Z_v1_3.seg = ok";

// Asserts that the rows hold, and that the node then answers so.
fn assert_goes_on<R: Abort + Wait + Threads>(
    rt: &R,
    alloc: Global,
    layout: Layout,
    node: &DataNode<First>,
    (steps, reported): &(&str, &str),
    seen: &mut Mark,
) {
    for row in steps.lines() {
        assert!(rt; is_done(rt, alloc, layout, node, row, seen), "{row}");
    }
    assert_reported(rt, alloc, node, reported, seen);
}

// What is done one after the other, and what is answered then.
const STEPS: [(&str, &str); 4] = [
    (FIRST, AFTER_LOAD),
    (REFUSED, AFTER_LOAD),
    (DROPPED, AFTER_DROP),
    (LOADED, AFTER_MORE),
];

// Whether a node goes through all of it, from files of that layout.
fn assert_steps<R: Abort + Wait + Threads>(rt: &R, alloc: Global, layout: Layout) {
    let node = empty_node(rt, alloc);
    let mut seen = Mark::never();
    for rows in &STEPS {
        assert_goes_on(rt, alloc, layout, &node, rows, &mut seen);
    }
    let mut ahead = Mark::new(9, 0);
    assert_reported(
        rt,
        alloc,
        &node,
        " = N8: older than what was seen",
        &mut ahead,
    );
    assert!(rt; seen == Mark::new(1, 3) && ahead == Mark::new(9, 0));
}

#[test]
fn node_after_load(rt: HostRuntime) {
    for layout in LAYOUTS {
        assert_steps(&rt, rt.alloc(), layout);
    }
}

// Whether a folder was synced, whether a stop keeps what was not, and what is then told of the file of `w`: a file that was written
// since the last sync is empty where a stop does not keep it.
const STOPS: [(bool, bool, &str); 4] = [
    (true, true, "ok"),
    (true, false, "ok"),
    (false, true, "ok"),
    (false, false, "N2: F2: a cut file"),
];

// What a node that is started over a folder tells of the file of `w`.
fn started<R: Abort + Wait>(rt: &R, alloc: Global, folder: &mut MemoryFolder) -> String {
    let node = empty_node(rt, alloc);
    match node.load_file(rt, folder, VECTOR_FILE, &mut Mark::never()) {
        Ok(()) => printed(rt, alloc, &"ok"),
        Err(fault) => printed(rt, alloc, &fault),
    }
}

// Whether a stop leaves that. It falls after a start that tells this of the file, or before any where this is empty.
fn leaves<R: Abort + Wait>(
    rt: &R,
    alloc: Global,
    before: &str,
    (is_synced, keep, wanted): (bool, bool, &str),
) -> bool {
    let mut files = folder(rt, alloc, Layout::ByRows);
    if is_synced {
        files.sync().expect(rt, "a sync");
    }
    if before.starts_with("N1") {
        files.fuse(0);
    }
    let is_as_before = before.is_empty() || started(rt, alloc, &mut files).as_str() == before;
    files.stop(keep).expect(rt, "a stop");
    is_as_before && started(rt, alloc, &mut files).as_str() == wanted
}

// A stop before the only call of a load, at it, and after it.
#[test]
fn stopped_loads(rt: HostRuntime) {
    for before in ["", "N1: the device failed", "ok"] {
        for (is_synced, keep, wanted) in STOPS {
            assert!(rt;
                leaves(&rt, rt.alloc(), before, (is_synced, keep, wanted)),
                "{before}: {is_synced} {keep}"
            );
        }
    }
}

const PLACED: &str =
    "place w_1970-01-01T00:00:00.000Z_1970-01-02T00:00:00.000Z_v_1 = N7: a tombstone of another partition than 0
place w_1970-01-01T00:00:00.000Z_1970-01-02T00:00:00.000Z_v = ok
place w_1970-01-01T00:00:00.000Z_1970-01-02T00:00:00.000Z_v = N4: H1: served already
load w_1970-01-01T00:00:00.000Z_1970-01-02T00:00:00.000Z_v.seg = N4: H1: served already";

const AFTER_PLACING: &str =
    " = 200 {\"counter\":{\"counter\":1,\"hash\":1},\"from\":null,\"requests\":[{\"action\":\"load\",\"dataSource\":\"w\",\"interval\":\"1970-01-01T00:00:00.000Z/1970-01-02T00:00:00.000Z\",\"shardSpec\":{\"partitionNum\":0,\"partitions\":1,\"type\":\"numbered\"},\"size\":0,\"tombstone\":true,\"version\":\"v\"}],\"resetCause\":null,\"resetCounter\":false}";

// A tombstone that was dropped makes room for the segment.
const REPLACED: &str = "drop w_1970-01-01T00:00:00.000Z_1970-01-02T00:00:00.000Z_v = ok
load w_1970-01-01T00:00:00.000Z_1970-01-02T00:00:00.000Z_v.seg = ok";

const AFTER_REPLACING: &str =
    " = 200 {\"counter\":{\"counter\":3,\"hash\":1},\"from\":null,\"requests\":[@],\"resetCause\":null,\"resetCounter\":false}";

// A query for the segment of `w`, and what a node answers that holds it as a tombstone, and then with its row.
const ASKED: &str =
    "{\"queryType\":\"timeseries\",\"dataSource\":\"w\",\"granularity\":\"all\",\"intervals\":{\"type\":\"segments\",\"segments\":[{\"chunk\":\"1970-01-01/1970-01-02\",\"itvl\":\"1970-01-01/1970-01-02\",\"part\":0,\"ver\":\"v\"}]},\"queryIntervals\":[\"1970-01-01/1970-01-02\"],\"aggregations\":[{\"type\":\"count\",\"name\":\"n\"}]}";

const MISSED: &str =
    "200 {\"missing\":[{\"chunk\":\"1970-01-01T00:00:00.000Z/1970-01-02T00:00:00.000Z\",\"itvl\":\"1970-01-01T00:00:00.000Z/1970-01-02T00:00:00.000Z\",\"part\":0,\"ver\":\"v\"}],\"rows\":[]}";

const COUNTED: &str = "200 {\"missing\":[],\"rows\":[[0,[],[1]]]}";

// Asserts that the node answers that query so.
fn assert_asked<R: Abort + Wait + Threads>(
    rt: &R,
    alloc: Global,
    node: &DataNode<First>,
    wanted: &str,
    seen: &mut Mark,
) {
    let length = ASKED.len();
    let head = format!(in alloc;
        "POST /druid/v2 HTTP/1.1\r\nContent-Length: {length}\r\n\r\n{ASKED}"
    );
    let message = head.expect(rt, "memory");
    assert!(rt;
        answers(rt, alloc, node, message.as_bytes(), wanted, seen),
        "{wanted}"
    );
}

#[test]
fn tombstones_have_no_rows(rt: HostRuntime) {
    let node = empty_node(&rt, rt.alloc());
    let mut seen = Mark::never();
    let placed = (PLACED, AFTER_PLACING);
    assert_goes_on(&rt, rt.alloc(), Layout::ByRows, &node, &placed, &mut seen);
    assert_asked(&rt, rt.alloc(), &node, MISSED, &mut seen);
    let replaced = (REPLACED, AFTER_REPLACING);
    assert_goes_on(&rt, rt.alloc(), Layout::ByRows, &node, &replaced, &mut seen);
    assert_asked(&rt, rt.alloc(), &node, COUNTED, &mut seen);
}

const TEXTS_OF_FAULTS: [(NodeFault, &str); 3] = [
    (
        NodeFault::NotPartitionZero,
        "N7: a tombstone of another partition than 0",
    ),
    (NodeFault::Device, "N1: the device failed"),
    (NodeFault::Memory, "N9: out of memory"),
];

#[test]
fn faults_print_this(rt: HostRuntime) {
    assert_prints(&rt, rt.alloc(), &TEXTS_OF_FAULTS);
}
