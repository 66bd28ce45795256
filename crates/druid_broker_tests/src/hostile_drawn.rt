//! Messages that are spoiled at random: to a broker, of a node that it asks, and of a node that it follows. Each is answered by the
//! value or by a refusal that is written down, and a refusal leaves what is published.
ghost use Rattle.std.specs.Prelude.{◌≡◌, ◌<◌, length};

use crate::broker::{COUNTED, TWO_REPLICAS, counted, message};
use crate::cluster::{
    Cluster, Handle, Server, Setup, followed, made_by_two, message_of, set, set_up, try_message,
};
use crate::drawn::Draws;
use crate::follow::whole_reply;
use crate::hostile_turns::{Turn, state, take_turn, whole_line};
use crate::tables::{assert_holds, printed};
use druid_http_message::WireFault;
use druid_http_wire::response_of;
use druid_inventory_views::Publication;
use druid_link::MemoryLink;
use druid_segment_descriptor::Mark;
use std::alloc::Global;
use std::marker::Brand;
use std::process::Abort;
use std::str;

// How many brokers there are, each of which gets 25 requests, 25 answers and 10 replies: 2,040 draws. More of them beside the gate:
// tests/README.md.
const BROKERS: u64 = 34;

// Requests to a broker, as the messages of `broker.rt`.
const REQUESTS: &str = "GET /status/health HTTP/1.1||
GET /druid/v2/datasources HTTP/1.1|Accept: */*||
GET /druid/broker/v1/loadstatus HTTP/1.1||
GET /druid-internal/v1/inventory/0 HTTP/1.1|Content-Length: 0||";

// A query that is posted.
const QUERY: &str =
    "{\"dataSource\":\"w\",\"granularity\":\"all\",\"intervals\":[\"2024-01-01/2024-01-02\"],\"queryType\":\"groupBy\",\"dimensions\":[\"d\"],\"filter\":{\"type\":\"not\",\"field\":{\"type\":\"selector\",\"dimension\":\"d\",\"value\":null}},\"aggregations\":[{\"type\":\"count\",\"name\":\"n\"}]}";

// Bodies of replies of a node that is at (1, 1).
const REPLIES: &str =
    "{\"counter\":{\"counter\":2,\"hash\":1},\"from\":{\"counter\":1,\"hash\":1},\"requests\":[$],%
{\"counter\":{\"counter\":2,\"hash\":1},\"from\":{\"counter\":1,\"hash\":1},\"requests\":[*],%
{\"counter\":{\"counter\":1,\"hash\":1},\"from\":{\"counter\":1,\"hash\":1},\"requests\":[],%
{\"counter\":{\"counter\":3,\"hash\":2},\"from\":null,\"requests\":[$],%
{\"counter\":{\"counter\":3,\"hash\":2},\"from\":null,\"requests\":[],?";

// What stands before the count of a node's answer to a count over the day, which is its only bucket.
const ROW: &str = "\"rows\":[[1704067200000,[],[";

// The starts of what a broker answers with these statuses, but for 200.
const LAWFUL: &str =
    "400 {\"error\":\"Q\n400 {\"error\":\"X\n404 {\"error\":\"NoRoute\"}\n404 {\"error\":\"V\n405 {\"error\":\"Method\"}";

// One of the lines of a text.
fn drawn_line<'a>(rt: &impl Abort, draws: &mut Draws, text: &'a str) -> &'a str {
    let count = text.lines().count().max(1);
    text.lines().nth(draws.below(count)).expect(rt, "a line")
}

// Spoils bytes at a place: cuts them off there, puts any byte there, or a digit, or a sign of JSON, leaves one out, or puts all that
// comes after it there once more.
fn spoil_at(rt: &impl Abort, alloc: Global, draws: &mut Draws, bytes: &mut Vec<u8>, place: usize)
    requires { place < length bytes.old.items }
{
    match draws.below(6) {
        0 => bytes.truncate(place),
        1 => bytes[place] = draws.below(256) as u8,
        2 => bytes[place] = b"0123456789"[draws.below(10)],
        3 => bytes[place] = b"{}[]\",:-"[draws.below(8)],
        4 => {
            bytes.remove(place);
        }
        _ => {
            let rest = bytes[place..].to_vec(alloc).expect(rt, "memory");
            bytes.extend_from_slice(&rest).expect(rt, "memory");
        }
    }
}

// The bytes of a message, half of the time spoiled at one to three places.
fn draw_bytes(rt: &impl Abort, alloc: Global, draws: &mut Draws, bytes: Vec<u8>) -> Vec<u8> {
    let mut bytes = bytes;
    for _ in 0..draws.below(6).saturating_sub(2) {
        let length = bytes.len();
        if length != 0 {
            let place = draws.below(length);
            spoil_at(rt, alloc, draws, &mut bytes, place);
        }
    }
    bytes
}

// The body of a message, which may be spoiled; where it is no text then, it is left out.
fn draw_body(rt: &impl Abort, alloc: Global, draws: &mut Draws, body: &str) -> String {
    let bytes = body.as_bytes().to_vec(alloc).expect(rt, "memory");
    let bytes = draw_bytes(rt, alloc, draws, bytes);
    String::from_utf8(bytes).unwrap_or(String::new(alloc))
}

fn drawn_request(rt: &impl Abort, alloc: Global, draws: &mut Draws) -> Vec<u8> {
    let text = if draws.below(3) == 0 {
        message(rt, alloc, drawn_line(rt, draws, REQUESTS))
    } else {
        let body = draw_body(rt, alloc, draws, QUERY);
        message_of(rt, alloc, body.as_str())
    };
    draw_bytes(rt, alloc, draws, text.into_bytes())
}

// The reply to an ask or to a subquery, whose body this is.
fn drawn_reply(rt: &impl Abort, alloc: Global, draws: &mut Draws, body: &str) -> Vec<u8> {
    let body = draw_body(rt, alloc, draws, body);
    let bytes = whole_reply(rt, alloc, "200", body.as_str());
    draw_bytes(rt, alloc, draws, bytes)
}

// The body of a node's answer to a count: without a row, or with a count.
fn drawn_answer(rt: &impl Abort, alloc: Global, draws: &mut Draws) -> String {
    if draws.below(4) == 0 {
        return printed(rt, alloc, &"{\"missing\":[],\"rows\":[]}");
    }
    let count = draws.below(1_000_000_000);
    format!(in alloc; "{{\"missing\":[],{ROW}{count}]]]}}").expect(rt, "memory")
}

// What a broker answers that takes these bytes of a node: with the count of their row, or without a row. No spoiled row has another
// instant: `all` is one bucket.
fn reported(rt: &impl Abort, alloc: Global, bytes: &[u8]) -> String {
    let text = String::from_utf8_lossy(alloc, bytes).expect(rt, "memory");
    let Some((_, rest)) = text.as_str().split_once(ROW) else {
        return printed(rt, alloc, &"200 []");
    };
    let count = rest.split(']').next().unwrap_or("").trim();
    format!(in alloc;
        "200 [{{\"result\":{{\"n\":{count}}},\"timestamp\":\"2024-01-01T00:00:00.000Z\"}}]"
    ).expect(rt, "memory")
}

// What a broker answers to requests without a body.
const VALUES: &str = "true\n[\"w\"]\n{\"inventoryInitialized\":true}\n[]";

// What it knows of a node.
const ENTRY: &str = "{\"counter\":{\"counter\":1,\"hash\":1},\"from\":null,\"requests\":[{";

// Whether an event has the one row's value, or null of a dimension that it has not, where the query names a dimension.
fn names_one(query: &str, event: &str) -> bool {
    event.contains(":\"a\"") || event.contains(":null") || !query.contains("\"dimensions\":[\"")
}

// Whether an event counts one row, where the query has an aggregator.
fn counts_one(query: &str, event: &str) -> bool {
    event.contains(":1,") || event.contains(":1}") || !query.contains("\"aggregations\":[{")
}

// Whether a body is the answer to a query over the one row that there is.
fn is_one_row(query: &str, body: &str) -> bool {
    body.split("{\"event\":{").count() == 2
        && body.ends_with(",\"version\":\"v1\"}]")
        && names_one(query, body)
        && counts_one(query, body)
}

// Whether a body may come with status 200.
fn is_value(request: &str, body: &str) -> bool {
    VALUES.lines().any(|value| value == body)
        || body.starts_with(ENTRY)
        || body.starts_with("[{\"event\":{") && is_one_row(request, body)
}

// Whether a response is one of those that a broker may give to a request, of the status that is reported.
fn is_lawful(rt: &impl Abort, alloc: Global, request: &[u8], code: u16, written: &[u8]) -> bool {
    let Ok((status, body)) = response_of(written) else {
        return false;
    };
    let body = str::from_utf8(body).unwrap_or("");
    if status.as_u16() != code {
        return false;
    }
    if code == 200 {
        return is_value(str::from_utf8(request).unwrap_or(""), body);
    }
    let text = format!(in alloc; "{code} {body}").expect(rt, "memory");
    LAWFUL.lines().any(|front| text.as_str().starts_with(front))
}

// Whether a broker answers a request lawfully, or writes nothing where it is cut off.
fn serves<R: Handle, J: Publication>(
    alloc: Global,
    cluster: &mut Cluster<R, J>,
    draws: &mut Draws,
) -> bool {
    let rt = cluster.rt;
    let request = drawn_request(&rt, alloc, draws);
    let mut written = Vec::new(alloc);
    match try_message(alloc, cluster, 1, &request, &mut written) {
        Ok(code) => is_lawful(&rt, alloc, &request, code, &written),
        Err(WireFault::Cut) => written.is_empty(),
        Err(_) => false,
    }
}

// Whether a broker takes what a node answers to a count and answers what its bytes say, or else asks the other node, whose row it
// counts. An answer that is not spoiled has to be taken.
fn gathers<R: Handle, J: Publication>(
    alloc: Global,
    cluster: &mut Cluster<R, J>,
    draws: &mut Draws,
) -> bool {
    let rt = cluster.rt;
    let answer = drawn_answer(&rt, alloc, draws);
    let bytes = drawn_reply(&rt, alloc, draws, answer.as_str());
    let spoiled = bytes != whole_reply(&rt, alloc, "200", answer.as_str());
    let reported = reported(&rt, alloc, &bytes);
    set(cluster, 0, Server::Bytes(bytes));
    made_by_two(cluster);
    let counted = counted(alloc, cluster, 0);
    match made_by_two(cluster) {
        (1, 0) => counted.as_str() == reported.as_str(),
        asked => spoiled && asked == (1, 1) && counted.as_str() == COUNTED,
    }
}

// Whether this is what a turn reports that does not move.
fn is_lawful_outcome(outcome: &str) -> bool {
    ["AlreadyHave", "AskWhole", "K1: X", "K2: Y", "K3: A", "K4: "]
        .iter()
        .any(|front| outcome.starts_with(front))
}

// Whether a broker that gets a reply moves to a later mark, or leaves its state.
fn follows<R: Handle, J: Publication>(
    alloc: Global,
    cluster: &mut Cluster<R, J>,
    draws: &mut Draws,
) -> bool {
    let rt = cluster.rt;
    let body = whole_line(&rt, alloc, drawn_line(&rt, draws, REPLIES));
    let bytes = drawn_reply(&rt, alloc, draws, body.as_str());
    let seeds = draws.below(2) == 0;
    let before = state(&rt, alloc, cluster.publisher.inventory());
    let mark = cluster.publisher.inventory().mark(0);
    let link = MemoryLink::new(vec![in alloc; bytes].expect(&rt, "memory"), 1);
    let turn = Turn { seeds, node: 0 };
    let outcome = take_turn(&rt, alloc, &mut cluster.publisher, turn, link);
    let after = cluster.publisher.inventory();
    if outcome.as_str() == "Moved" {
        return after.mark(0) > mark;
    }
    state(&rt, alloc, after).as_str() == before.as_str() && is_lawful_outcome(outcome.as_str())
}

// Asserts it of the draws of a broker.
fn assert_draws<R: Handle, J: Publication>(rt: R, alloc: Global, setup: Setup<R>, seed: u64)
    requires book { setup.list ≡ J.book }
    requires opening { setup.inventory ≡ J.opening }
{
    let mut cluster: Cluster<R, J> = followed(rt, alloc, setup, 2);
    let mut draws = Draws::new(seed);
    for _ in 0..25 {
        assert_holds(&rt, "a request", serves(alloc, &mut cluster, &mut draws));
        assert_holds(&rt, "an answer", gathers(alloc, &mut cluster, &mut draws));
    }
    for _ in 0..10 {
        assert_holds(&rt, "a reply", follows(alloc, &mut cluster, &mut draws));
    }
}

fn assert_drawn<R: Handle>(rt: R, alloc: Global, seed: u64) {
    let setup = set_up(rt, alloc, TWO_REPLICAS);
    assert_draws::<R, Brand>(rt, alloc, setup, seed);
}

#[test]
fn drawn_messages(rt: HostRuntime) {
    for seed in 0..BROKERS {
        assert_drawn(&rt, rt.alloc(), seed);
    }
}
