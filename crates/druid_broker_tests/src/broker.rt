//! What brokers answer to messages.
ghost use Rattle.std.specs.Prelude.{◌≡◌};

use crate::cluster::{
    Cluster, Failure, Handle, Server, Setup, answered, followed, made_by_two, posted, set, set_up,
    written,
};
use crate::tables::{assert_holds, assert_reported, halves, printed, replaced};
use druid_inventory_views::Publication;
use std::alloc::Global;
use std::marker::Brand;
use std::process::Abort;

// Clusters, and queries over their first day of 2024, with their answers. A cluster is its nodes, between which `|` stands, each
// with its segments, between which `+` stands: the version, the hours of the chunk, the partition and how many the chunk has; the
// names of the dimension and of the metric; and the rows, each the milliseconds of the day, the value and the number. A tombstone
// is `tombstone` and its version, hours and partition; `drop` and those drop what is served. `!` in front of a node: it fails once
// the broker has followed it. `@` stands for the keys of a `timeseries` over the day, `#` for those of a `groupBy`, and `~` for the
// whole day.
const ANSWERS: &str =
    r#"v1/0/24/0/1 d:m 35999999/a/1 36000000/a/1 43199999/a/1 43200000/a/1 + v2/10/12/0/1 d:m 36000000/a/1 43199999/a/1 => @,"aggregations":[{"type":"count","name":"n"}]} = 200 [{"result":{"n":4},"timestamp":"2024-01-01T00:00:00.000Z"}]
v1/0/24/0/1 d:m 35999999/a/1 36000000/a/1 43199999/a/1 43200000/a/1 | v2/10/12/0/1 d:m 36000000/a/1 43199999/a/1 => @,"aggregations":[{"type":"count","name":"n"}]} = 200 [{"result":{"n":4},"timestamp":"2024-01-01T00:00:00.000Z"}]
v1/0/24/0/1 d:m 0/a/1 | v1/0/24/0/1 d:m 0/a/1 => @,"aggregations":[{"type":"count","name":"n"}]} = 200 [{"result":{"n":1},"timestamp":"2024-01-01T00:00:00.000Z"}]
!v1/0/24/0/1 d:m 0/a/1 | v1/0/24/0/1 d:m 0/a/1 => @,"aggregations":[{"type":"count","name":"n"}]} = 200 [{"result":{"n":1},"timestamp":"2024-01-01T00:00:00.000Z"}]
v1/0/24/0/1 d:m 0/a/1 | !v1/0/24/0/1 d:m 0/a/1 => @,"aggregations":[{"type":"count","name":"n"}]} = 200 [{"result":{"n":1},"timestamp":"2024-01-01T00:00:00.000Z"}]
!v1/0/24/0/1 d:m 0/a/1 | !v1/0/24/0/1 d:m 0/a/1 => @,"aggregations":[{"type":"count","name":"n"}]} = 503 {"error":"SegmentsMissing","missing":[{"chunk":"2024-01-01T00:00:00.000Z/2024-01-02T00:00:00.000Z","itvl":"2024-01-01T00:00:00.000Z/2024-01-02T00:00:00.000Z","part":0,"ver":"v1"}],"partial":[]}
v1/0/24/0/1 d:m 0/a/1 => @,"dataSource":"x","aggregations":[{"type":"count","name":"n"}]} = 200 []
v1/0/24/0/2 d:m 0/a/1 => @,"aggregations":[{"type":"count","name":"n"}]} = 200 []
v1/0/24/0/2 d:m 0/a/9223372036854775807 | v1/0/24/1/2 d:m 0/a/1 => @,"aggregations":[{"type":"longSum","name":"s","fieldName":"m"},{"type":"longMin","name":"l","fieldName":"f"},{"type":"longSum","name":"f","fieldName":"f"}]} = 200 [{"result":{"f":null,"l":null,"s":-9223372036854775808},"timestamp":"2024-01-01T00:00:00.000Z"}]
v1/0/24/1/2 d:m 0/a/1 | v1/0/24/0/2 d:m 0/a/9223372036854775807 => @,"aggregations":[{"type":"longSum","name":"s","fieldName":"m"},{"type":"longMin","name":"l","fieldName":"f"},{"type":"longSum","name":"f","fieldName":"f"}]} = 200 [{"result":{"f":null,"l":null,"s":-9223372036854775808},"timestamp":"2024-01-01T00:00:00.000Z"}]
v1/0/24/0/2 d:m 0/a/1 0//1 | v1/0/24/1/2 e:m 0/x/1 => #,"dimensions":["d"],"aggregations":[{"type":"count","name":"n"}]} = 200 [{"event":{"d":null,"n":1},"timestamp":"2024-01-01T00:00:00.000Z","version":"v1"},{"event":{"d":"","n":1},"timestamp":"2024-01-01T00:00:00.000Z","version":"v1"},{"event":{"d":"a","n":1},"timestamp":"2024-01-01T00:00:00.000Z","version":"v1"}]
v1/0/24/0/3 d:m 0/a/1 + v1/0/24/1/3 d:m 0/a/2 | !v1/0/24/1/3 d:m 0/a/2 + v1/0/24/2/3 d:m 0/a/4 => @,"aggregations":[{"type":"longSum","name":"s","fieldName":"m"}]} = 503 {"error":"SegmentsMissing","missing":[{"chunk":"2024-01-01T00:00:00.000Z/2024-01-02T00:00:00.000Z","itvl":"2024-01-01T00:00:00.000Z/2024-01-02T00:00:00.000Z","part":2,"ver":"v1"}],"partial":[{"result":{"s":3},"timestamp":"2024-01-01T00:00:00.000Z"}]}
!v1/0/24/0/1 d:m 0/a/1 | v2/10/12/0/1 d:m 36000000/a/1 => @,"intervals":["2024-01-01T09/2024-01-01T13:00","2024-01-01T23:00/2024-01-02"],"aggregations":[]} = 400 {"error":"Q4"}
!v1/0/24/0/1 d:m 0/a/1 | v2/10/12/0/1 d:m 36000000/a/1 => @,"intervals":["2024-01-01T23:00/2024-01-03","2024-01-01T09:00/2024-01-01T13:00"],"aggregations":[{"type":"count","name":"n"}]} = 503 {"error":"SegmentsMissing","missing":[{"chunk":"2024-01-01T00:00:00.000Z/2024-01-02T00:00:00.000Z","itvl":"2024-01-01T09:00:00.000Z/2024-01-01T10:00:00.000Z","part":0,"ver":"v1"},{"chunk":"2024-01-01T00:00:00.000Z/2024-01-02T00:00:00.000Z","itvl":"2024-01-01T12:00:00.000Z/2024-01-01T13:00:00.000Z","part":0,"ver":"v1"},{"chunk":"2024-01-01T00:00:00.000Z/2024-01-02T00:00:00.000Z","itvl":"2024-01-01T23:00:00.000Z/2024-01-02T00:00:00.000Z","part":0,"ver":"v1"}],"partial":[{"result":{"n":1},"timestamp":"2024-01-01T09:00:00.000Z"}]}
v1/0/24/0/1 d:m 35999999/a/1 36000000/a/1 43199999/a/1 43200000/a/1 + tombstone v2/10/12/0 => @,"aggregations":[{"type":"count","name":"n"}]} = 200 [{"result":{"n":2},"timestamp":"2024-01-01T00:00:00.000Z"}]
v1/0/24/0/1 d:m 35999999/a/1 36000000/a/1 43199999/a/1 43200000/a/1 | !tombstone v2/10/12/0 => @,"aggregations":[{"type":"count","name":"n"}]} = 200 [{"result":{"n":2},"timestamp":"2024-01-01T00:00:00.000Z"}]
v1/0/24/0/1 d:m 35999999/a/1 36000000/a/1 43199999/a/1 43200000/a/1 | tombstone v2/10/12/0 + drop v2/10/12/0 => @,"aggregations":[{"type":"count","name":"n"}]} = 200 [{"result":{"n":4},"timestamp":"2024-01-01T00:00:00.000Z"}]
!v1/0/24/0/1 d:m 35999999/a/1 36000000/a/1 43199999/a/1 43200000/a/1 | tombstone v2/10/12/0 => @,"aggregations":[{"type":"count","name":"n"}]} = 503 {"error":"SegmentsMissing","missing":[{"chunk":"2024-01-01T00:00:00.000Z/2024-01-02T00:00:00.000Z","itvl":"2024-01-01T00:00:00.000Z/2024-01-01T10:00:00.000Z","part":0,"ver":"v1"},{"chunk":"2024-01-01T00:00:00.000Z/2024-01-02T00:00:00.000Z","itvl":"2024-01-01T12:00:00.000Z/2024-01-02T00:00:00.000Z","part":0,"ver":"v1"}],"partial":[]}
tombstone v1/0/24/0 => @,"aggregations":[{"type":"count","name":"n"}]} = 200 []
v1/0/24/0/1 d:m 0/a/1 | tombstone v1/0/24/0 => @,"aggregations":[{"type":"count","name":"n"}]} = 200 [{"result":{"n":1},"timestamp":"2024-01-01T00:00:00.000Z"}]
v1/0/24/0/1 d:m 0/a/1 => @,"queryType":"topN"} = 400 {"error":"Q2"}
v1/0/24/0/1 d:m 0/a/1 => @,"descending":true} = 400 {"error":"Q3","field":"descending"}
v1/0/24/0/1 d:m 0/a/1 => @,"intervals":"2024-01-01/P1D"} = 400 {"error":"Q4"}
v1/0/24/0/1 d:m 0/a/1 => @,"aggregations":[{"type":"count","name":"n"},{"type":"count","name":"n"}]} = 400 {"error":"Q6"}
v1/0/24/0/1 d:m 0/a/1 => [] = 400 {"error":"Q2"}
v1/0/24/0/1 d:m 0/a/1 => [ = 400 {"error":"Q1"}"#;

const COMMON: &str =
    "{\"dataSource\":\"w\",\"granularity\":\"all\",\"intervals\":\"2024-01-01/2024-01-02\",\"queryType\":";

// A query of a kind over the day.
fn with_kind(rt: &impl Abort, alloc: Global, kind: &str, rest: &str) -> String {
    format!(in alloc; "{COMMON}\"{kind}\"{rest}").expect(rt, "memory")
}

/// The query that a short text stands for.
pub(crate) fn query(rt: &impl Abort, alloc: Global, text: &str) -> String {
    if let Some(rest) = text.strip_prefix("@") {
        return with_kind(rt, alloc, "timeseries", rest);
    }
    if let Some(rest) = text.strip_prefix("#") {
        return with_kind(rt, alloc, "groupBy", rest);
    }
    printed(rt, alloc, &text)
}

// The places of the nodes that the text of a cluster marks.
fn marked(rt: &impl Abort, alloc: Global, nodes: &str) -> Vec<usize> {
    let mut places = Vec::new(alloc);
    for (place, node) in nodes.split(" | ").enumerate() {
        if node.starts_with("!") {
            places.push(place).expect(rt, "memory");
        }
    }
    places
}

// What a broker over these parts answers to the query at a turn, once the nodes at these places fail. (Its signature has no
// `&str`: no ghost member can be picked at a call of one that has.)
fn answer_to<R: Handle, J: Publication>(
    rt: R,
    alloc: Global,
    setup: Setup<R>,
    failing: Vec<usize>,
    query: String,
    turn: u64,
) -> String
    requires book { setup.list ≡ J.book }
    requires opening { setup.inventory ≡ J.opening }
{
    let mut made: Cluster<R, J> = followed(rt, alloc, setup, 64);
    for place in failing {
        set(&mut made, place, Server::Failing(Failure::Read));
    }
    posted(alloc, &mut made, turn, query.as_str())
}

/// What a broker over that cluster answers to the query, at a turn.
pub(crate) fn answer_of<R: Handle>(
    rt: R,
    alloc: Global,
    nodes: &str,
    asked: &str,
    turn: u64,
) -> String {
    let setup = set_up(rt, alloc, replaced(&rt, alloc, nodes, "!", "").as_str());
    let failing = marked(&rt, alloc, nodes);
    let query = query(&rt, alloc, asked);
    answer_to::<R, Brand>(rt, alloc, setup, failing, query, turn)
}

// Asserts that the query of a line is answered so, at a turn.
fn assert_line<R: Handle>(rt: R, alloc: Global, line: &str, turn: u64) {
    let (nodes, rest) = halves(&rt, line, " => ");
    let (asked, wanted) = halves(&rt, rest, " = ");
    assert_reported(&rt, line, answer_of(rt, alloc, nodes, asked, turn), wanted);
}

#[test]
fn answers(rt: HostRuntime) {
    for line in ANSWERS.lines() {
        assert_line(&rt, rt.alloc(), line, 0);
        assert_line(&rt, rt.alloc(), line, 1);
    }
}

// Other messages, to a broker that has followed the first of two nodes, and what it answers. `|` stands for a carriage return and
// a line feed, and `#` for so many bytes that a head with `A:#` has 16,384 bytes.
const MESSAGES: &str = "GET /status/health HTTP/1.1|| = 200 true
GET /druid/v2/datasources HTTP/1.1|| = 200 [\"w\"]
GET /druid/broker/v1/loadstatus HTTP/1.1|| = 200 {\"inventoryInitialized\":false}
GET /druid-internal/v1/inventory/0 HTTP/1.1|| = 200 {\"counter\":{\"counter\":1,\"hash\":1},\"from\":null,\"requests\":[{\"action\":\"load\",\"dataSource\":\"w\",\"interval\":\"2024-01-01T00:00:00.000Z/2024-01-02T00:00:00.000Z\",\"shardSpec\":{\"partitionNum\":0,\"partitions\":1,\"type\":\"numbered\"},\"size\":0,\"version\":\"v1\"}],\"resetCause\":null,\"resetCounter\":false}
GET /druid-internal/v1/inventory/1 HTTP/1.1|| = 404 {\"error\":\"V3\"}
GET /druid-internal/v1/inventory/2 HTTP/1.1|| = 404 {\"error\":\"V2\"}
GET /druid-internal/v1/inventory/00 HTTP/1.1|| = 404 {\"error\":\"V2\"}
GET /druid-internal/v1/inventory/x HTTP/1.1|| = 404 {\"error\":\"V2\"}
GET /druid-internal/v1/inventory/18446744073709551616 HTTP/1.1|| = 404 {\"error\":\"V2\"}
GET /druid-internal/v1/inventory/65536 HTTP/1.1|| = 404 {\"error\":\"V2\"}
GET /druid-internal/v1/inventory/0?page=0 HTTP/1.1|| = 400 {\"error\":\"Y6\"}
GET /druid-internal/v1/inventory/1?counter=x HTTP/1.1|| = 400 {\"error\":\"Y6\"}
GET /druid-internal/v1/inventory/x?hash=1 HTTP/1.1|| = 400 {\"error\":\"Y6\"}
GET /druid-internal/v1/inventory/1?counter=1&hash=1 HTTP/1.1|| = 404 {\"error\":\"V3\"}
GET /druid-internal/v1/inventory/2?counter=1&hash=1&page=0 HTTP/1.1|| = 404 {\"error\":\"V2\"}
GET /druid-internal/v1/inventory/0?counter=1&hash=1&page=0 HTTP/1.1|| = 200 {\"counter\":{\"counter\":1,\"hash\":1},\"from\":null,\"requests\":[],\"resetCause\":\"TooOld\",\"resetCounter\":true}
GET /druid-internal/v1/inventory/0?counter=1&hash=2&page=0 HTTP/1.1|| = 200 {\"counter\":{\"counter\":1,\"hash\":1},\"from\":null,\"requests\":[],\"resetCause\":\"OtherIncarnation\",\"resetCounter\":true}
GET /druid-internal/v1/inventory/0/ HTTP/1.1|| = 404 {\"error\":\"NoRoute\"}
GET /druid-internal/v1/inventory/ HTTP/1.1|| = 404 {\"error\":\"NoRoute\"}
GET /druid-internal/v1/inventory HTTP/1.1|| = 404 {\"error\":\"NoRoute\"}
GET /druid-internal/v1/segments HTTP/1.1|| = 404 {\"error\":\"NoRoute\"}
GET /druid/v2/datasources/ HTTP/1.1|| = 404 {\"error\":\"NoRoute\"}
GET / HTTP/1.1|| = 404 {\"error\":\"NoRoute\"}
POST /status/health HTTP/1.1|Content-Length: 0|| = 405 {\"error\":\"Method\"}
POST /druid/v2/datasources HTTP/1.1|Content-Length: 0|| = 405 {\"error\":\"Method\"}
HEAD /druid/broker/v1/loadstatus HTTP/1.1|| = 405 {\"error\":\"Method\"}
PUT /druid-internal/v1/inventory/7 HTTP/1.1|| = 405 {\"error\":\"Method\"}
GET /druid/v2 HTTP/1.1|| = 405 {\"error\":\"Method\"}
GET /druid/v2/ HTTP/1.1|| = 405 {\"error\":\"Method\"}
POST /druid/v2 HTTP/1.1|Content-Length: 2||[] = 400 {\"error\":\"Q2\"}
POST /druid/v2/?pretty HTTP/1.1|Content-Length: 2||[] = 400 {\"error\":\"Q2\"}
POST /druid/v2 HTTP/1.1|| = 400 {\"error\":\"X6\"}
GET / HTTP/9|| = 400 {\"error\":\"X4\"}
GET /status/health HTTP/1.1|A:#|| = 200 true
GET /status/health HTTP/1.1|A: #|| = 400 {\"error\":\"X5\"}
POST /druid/v2 HTTP/1.1|Content-Length: 16777217|| = 400 {\"error\":\"X7\"}";

/// The bytes of the message that a short text stands for.
pub(crate) fn message(rt: &impl Abort, alloc: Global, text: &str) -> String {
    let text = replaced(rt, alloc, text, "|", "\r\n");
    let filling = "x".repeat(alloc, 16_349).expect(rt, "memory");
    replaced(rt, alloc, text.as_str(), "#", filling.as_str())
}

// Asserts that a broker answers the message of a line so.
fn assert_message<R: Handle, J: Publication>(alloc: Global, made: &mut Cluster<R, J>, line: &str) {
    let rt = made.rt;
    let (text, wanted) = halves(&rt, line, " = ");
    let message = message(&rt, alloc, text);
    assert_reported(
        &rt,
        line,
        answered(alloc, made, 0, message.as_bytes()),
        wanted,
    );
}

const HEALTH: &[u8] =
    b"HTTP/1.1 200 OK\r\nContent-Type: application/json\r\nContent-Length: 4\r\nConnection: close\r\n\r\ntrue";

// Asserts that a broker writes these bytes where it is asked how it is.
fn assert_health<R: Handle, J: Publication>(alloc: Global, made: &mut Cluster<R, J>) {
    let rt = made.rt;
    let bytes = written(alloc, made, 0, b"GET /status/health HTTP/1.1\r\n\r\n");
    assert_holds(&rt, "the bytes of health", bytes.as_slice() == HEALTH);
}

fn assert_all<R: Handle, J: Publication>(alloc: Global, made: &mut Cluster<R, J>) {
    for line in MESSAGES.lines() {
        assert_message(alloc, made, line);
    }
    assert_health(alloc, made);
}

// Asserts what a broker over these parts answers, once it has followed the first node.
fn assert_messages<R: Handle, J: Publication>(rt: R, alloc: Global, setup: Setup<R>)
    requires book { setup.list ≡ J.book }
    requires opening { setup.inventory ≡ J.opening }
{
    let mut made: Cluster<R, J> = followed(rt, alloc, setup, 1);
    assert_all(alloc, &mut made);
}

fn assert_answers<R: Handle>(rt: R, alloc: Global) {
    let setup = set_up(rt, alloc, "v1/0/24/0/1 d:m 0/a/1 | .");
    assert_messages::<R, Brand>(rt, alloc, setup);
}

#[test]
fn messages(rt: HostRuntime) {
    assert_answers(&rt, rt.alloc());
}

// What a server that is no data node answers, in the place of one or of both of the replicas that have the only row. `*` stands for
// the instant of the row's bucket, `%` for the piece that is asked for, `&` for the piece and a comma a thousand times, and `^` for a
// byte that no UTF-8 has.
const HOSTILE: &str = " = 
HTTP/1.1 200 OK| = 
HTTP/1.1 200 OK|Content-Length: 40||{} = 
HTTP/1.1 200 OK||{} = 
HTTP/1.1 200 OK|Content-Length: 16777217||{} = 
HTTP/1.1 200 OK|Content-Length: 33||{\"missing\":[],\"rows\":[[*,[],[1]]] = 
HTTP/1.1 204 No Content|Content-Length: 0|| = 
HTTP/1.1 500 Internal Server Error|Content-Length: # = {\"missing\":[],\"rows\":[[*,[],[1]]]}
HTTP/1.1 201 Created|Content-Length: # = {\"missing\":[],\"rows\":[[*,[],[1]]]}
HTTP/1.1 200 OK|Content-Length: # = {
HTTP/1.1 200 OK|Content-Length: # = []
HTTP/1.1 200 OK|Content-Length: # = {\"missing\":[],\"rows\":[[0]]}
HTTP/1.1 200 OK|Content-Length: # = {\"missing\":[],\"rows\":[[*,[],[1,2]]]}
HTTP/1.1 200 OK|Content-Length: # = {\"missing\":[],\"rows\":[[*,[\"a\"],[1]]]}
HTTP/1.1 200 OK|Content-Length: # = {\"missing\":[],\"rows\":[[0,[],[1]]]}
HTTP/1.1 200 OK|Content-Length: # = {\"missing\":[],\"rows\":[[*,[],[1]],[*,[],[1]]]}
HTTP/1.1 200 OK|Content-Length: # = {\"missing\":[{\"chunk\":\"2024-01-01/2024-01-02\",\"itvl\":\"2024-01-01/2024-01-02\",\"part\":1,\"ver\":\"v1\"}],\"rows\":[[*,[],[1]]]}
HTTP/1.1 200 OK|Content-Length: # = {\"missing\":[{\"chunk\":\"2024-01-01/2024-01-02\",\"itvl\":\"2024-01-01/2024-01-01T12:00\",\"part\":0,\"ver\":\"v1\"}],\"rows\":[]}
HTTP/1.1 200 OK|Content-Length: # = {\"missing\":[%],\"rows\":[]}
HTTP/1.1 200 OK|Content-Length: # = {\"missing\":[%,%],\"rows\":[]}
HTTP/1.1 200 OK|Content-Length: # = {\"missing\":[&%],\"rows\":[]}
HTTP/1.1 200 OK|Content-Length: # = ^
HTTP/1.1 200 OK|Content-Length: # = {\"missing\":[],\"rows\":[[*,[],[1]]],\"by\":\"^\"}
HTTP/1.1 200 OK|Content-Length: # = {\"missing\":[%],\"rows\":[[*,[],[1]]],\"by\":\"^\"}";

const PIECE: &str =
    "{\"chunk\":\"2024-01-01/2024-01-02\",\"itvl\":\"2024-01-01/2024-01-02\",\"part\":0,\"ver\":\"v1\"}";

/// The answer to a count of the only row.
pub(crate) const COUNTED: &str =
    "200 [{\"result\":{\"n\":1},\"timestamp\":\"2024-01-01T00:00:00.000Z\"}]";

const NOT_COUNTED: &str =
    "503 {\"error\":\"SegmentsMissing\",\"missing\":[{\"chunk\":\"2024-01-01T00:00:00.000Z/2024-01-02T00:00:00.000Z\",\"itvl\":\"2024-01-01T00:00:00.000Z/2024-01-02T00:00:00.000Z\",\"part\":0,\"ver\":\"v1\"}],\"partial\":[]}";

// The head of an answer, in which `#` is the length of the body and the empty line.
fn hostile_head(rt: &impl Abort, alloc: Global, head: &str, length: usize) -> String {
    let end = format!(in alloc; "{length}||").expect(rt, "memory");
    let head = replaced(rt, alloc, head, "#", end.as_str());
    replaced(rt, alloc, head.as_str(), "|", "\r\n")
}

// The body that a short text stands for.
fn hostile_body(rt: &impl Abort, alloc: Global, text: &str) -> String {
    let many = "%,".repeat(alloc, 1000).expect(rt, "memory");
    let body = replaced(rt, alloc, text, "*", "1704067200000");
    let body = replaced(rt, alloc, body.as_str(), "&", many.as_str());
    replaced(rt, alloc, body.as_str(), "%", PIECE)
}

// An answer: its head and its body.
fn hostile(rt: &impl Abort, alloc: Global, head: &str, body: &str) -> Vec<u8> {
    let body = hostile_body(rt, alloc, body);
    let head = hostile_head(rt, alloc, head, body.as_str().len());
    let text = format!(in alloc; "{head}{body}").expect(rt, "memory");
    let mut bytes = text.into_bytes();
    for byte in &mut bytes {
        if *byte == b'^' {
            *byte = 0xff;
        }
    }
    bytes
}

/// What a broker answers to a count at a turn.
pub(crate) fn counted<R: Handle, J: Publication>(
    alloc: Global,
    made: &mut Cluster<R, J>,
    turn: u64,
) -> String {
    let count = "@,\"aggregations\":[{\"type\":\"count\",\"name\":\"n\"}]}";
    let query = query(&made.rt, alloc, count);
    posted(alloc, made, turn, query.as_str())
}

// Whether a count is answered so at a turn, and each of the two links was asked once.
fn is_asked_once<R: Handle, J: Publication>(
    alloc: Global,
    made: &mut Cluster<R, J>,
    turn: u64,
    wanted: &str,
) -> bool {
    made_by_two(made);
    let reported = counted(alloc, made, turn);
    made_by_two(made) == (1, 1) && reported.as_str() == wanted
}

// Puts a server that answers these bytes after a link.
fn set_bytes<R: Handle, J: Publication>(
    alloc: Global,
    made: &mut Cluster<R, J>,
    place: usize,
    bytes: &[u8],
) {
    let bytes = bytes.to_vec(alloc).expect(&made.rt, "memory");
    set(made, place, Server::Bytes(bytes));
}

// Whether a broker with two replicas counts the row where one of them answers these bytes, and lists it as missing where both
// do.
fn passes<R: Handle, J: Publication>(
    alloc: Global,
    made: &mut Cluster<R, J>,
    bytes: &[u8],
) -> bool {
    set_bytes(alloc, made, 0, bytes);
    let counts = is_asked_once(alloc, made, 0, COUNTED);
    set_bytes(alloc, made, 1, bytes);
    counts && is_asked_once(alloc, made, 1, NOT_COUNTED)
}

// The same of a broker over these parts.
fn passes_on<R: Handle, J: Publication>(rt: R, alloc: Global, setup: Setup<R>, bytes: &[u8]) -> bool
    requires book { setup.list ≡ J.book }
    requires opening { setup.inventory ≡ J.opening }
{
    let mut made: Cluster<R, J> = followed(rt, alloc, setup, 2);
    passes(alloc, &mut made, bytes)
}

/// Two nodes that serve the same segment of one row.
pub(crate) const TWO_REPLICAS: &str = "v1/0/24/0/1 d:m 0/a/1 | v1/0/24/0/1 d:m 0/a/1";

fn is_passed_on<R: Handle>(rt: R, alloc: Global, bytes: &[u8]) -> bool {
    let setup = set_up(rt, alloc, TWO_REPLICAS);
    passes_on::<R, Brand>(rt, alloc, setup, bytes)
}

// Whether a broker with two replicas counts the row where the first of them fails so, and lists it as missing where both do.
fn passes_over<R: Handle, J: Publication>(
    alloc: Global,
    made: &mut Cluster<R, J>,
    failure: Failure,
) -> bool {
    set(made, 0, Server::Failing(failure));
    let counts = is_asked_once(alloc, made, 0, COUNTED);
    set(made, 1, Server::Failing(failure));
    counts && is_asked_once(alloc, made, 1, NOT_COUNTED)
}

// Whether the broker runs out of memory where the first link that it asks does, and asks no other then.
fn lacks_memory<R: Handle, J: Publication>(alloc: Global, made: &mut Cluster<R, J>) -> bool {
    made_by_two(made);
    set(made, 0, Server::Failing(Failure::Memory));
    let lacks = counted(alloc, made, 0).as_str() == NO_MEMORY && made_by_two(made) == (1, 0);
    lacks && counted(alloc, made, 1).as_str() == COUNTED && made_by_two(made) == (0, 1)
}

const NO_MEMORY: &str = "500 {\"error\":\"Memory\"}";

// Whether a broker over these parts does so where a link fails so.
fn fails_as_it_should<R: Handle, J: Publication>(
    rt: R,
    alloc: Global,
    setup: Setup<R>,
    failure: Failure,
) -> bool
    requires book { setup.list ≡ J.book }
    requires opening { setup.inventory ≡ J.opening }
{
    let mut made: Cluster<R, J> = followed(rt, alloc, setup, 2);
    match failure {
        Failure::Memory => lacks_memory(alloc, &mut made),
        _ => passes_over(alloc, &mut made, failure),
    }
}

fn is_failure_met<R: Handle>(rt: R, alloc: Global, failure: Failure) -> bool {
    let setup = set_up(rt, alloc, TWO_REPLICAS);
    fails_as_it_should::<R, Brand>(rt, alloc, setup, failure)
}

#[test]
fn failing_links(rt: HostRuntime) {
    let failures = [
        Failure::Read,
        Failure::Write,
        Failure::BodyTooLong,
        Failure::Connect,
        Failure::Memory,
    ];
    for failure in failures {
        assert!(rt; is_failure_met(&rt, rt.alloc(), failure), "{failure:?}");
    }
}

// Whether the first of two replicas is asked at an even turn alone, and the second at an odd one.
fn takes_turns<R: Handle, J: Publication>(alloc: Global, made: &mut Cluster<R, J>) -> bool {
    made_by_two(made);
    let even = counted(alloc, made, 0).as_str() == COUNTED && made_by_two(made) == (1, 0);
    even && counted(alloc, made, 1).as_str() == COUNTED && made_by_two(made) == (0, 1)
}

// The same of a broker over these parts.
fn turns_on<R: Handle, J: Publication>(rt: R, alloc: Global, setup: Setup<R>) -> bool
    requires book { setup.list ≡ J.book }
    requires opening { setup.inventory ≡ J.opening }
{
    let mut made: Cluster<R, J> = followed(rt, alloc, setup, 2);
    takes_turns(alloc, &mut made)
}

fn turns<R: Handle>(rt: R, alloc: Global) -> bool {
    let setup = set_up(rt, alloc, TWO_REPLICAS);
    turns_on::<R, Brand>(rt, alloc, setup)
}

#[test]
fn queries_take_turns(rt: HostRuntime) {
    assert!(rt; turns(&rt, rt.alloc()));
}

fn is_hostile<R: Handle>(rt: R, alloc: Global, line: &str) -> bool {
    let (head, body) = halves(&rt, line, " = ");
    is_passed_on(rt, alloc, &hostile(&rt, alloc, head, body))
}

#[test]
fn hostile_answers(rt: HostRuntime) {
    for line in HOSTILE.lines() {
        assert_holds(&rt, line, is_hostile(&rt, rt.alloc(), line));
    }
}

#[test]
fn many_brackets(rt: HostRuntime) {
    let head = b"HTTP/1.1 200 OK\r\nContent-Length: 16777216\r\n\r\n";
    let mut bytes = head.to_vec(rt.alloc()).expect(&rt, "memory");
    for _ in 0..16_777_216 {
        bytes.push(b'[').expect(&rt, "memory");
    }
    assert!(rt; is_passed_on(&rt, rt.alloc(), &bytes));
}
