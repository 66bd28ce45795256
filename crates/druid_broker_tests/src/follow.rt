//! How brokers follow nodes and seed each other.
ghost use Rattle.std.specs.Prelude.{◌≡◌};

use crate::cluster::{Cluster, Handle, Setup, answered, followed, set_up};
use crate::published::SNAPSHOT;
use crate::tables::{assert_reported, halves, printed, replaced};
use druid_broker_follow::{fetch_entry, seed_turn, sync_turn};
use druid_inventory::{Inventory, Outcome};
use druid_inventory_views::{Opened, Publication, Publisher, open};
use druid_link::MemoryLink;
use druid_segment_descriptor::{Body, NodeNo, Reply};
use druid_segment_id::Name;
use std::alloc::Global;
use std::marker::Brand;
use std::process::Abort;
use std::sync::Wait;

// Replies in turn, and what following the node tells: the outcome, or the fault. A reply is a status and a body; with `-` in front
// its last byte is cut off. With `!` in front it is these bytes, in which `|` stands for a carriage return and a line feed, and `#`
// for 64 fields. `@` stands for the load of a segment. The mark that is then held stands after.
const TURNS: &str =
    "200 {\"counter\":{\"counter\":5,\"hash\":1},\"from\":null,\"requests\":[@],\"resetCause\":null,\"resetCounter\":false} = Moved 1 5
-200 {\"counter\":{\"counter\":5,\"hash\":1},\"from\":{\"counter\":5,\"hash\":1},\"requests\":[],\"resetCause\":null,\"resetCounter\":false} = K1: X1: the message is cut off 1 5
200 {\"counter\":{\"counter\":5,\"hash\":1},\"from\":{\"counter\":5,\"hash\":1},\"requests\":[],\"resetCause\":null,\"resetCounter\":false} = AlreadyHave 1 5
!HTTP/1.1 099 X|Content-Length: 0|| = K1: X4: not a head of a message 1 5
!HTTP/1.1 200 OK|Content-Length: 0|Content-Length: 0|| = K1: X4: not a head of a message 1 5
!HTTP/1.1 200 OK|#Content-Length: 0|| = K1: X5: the head is too long 1 5
!HTTP/1.1 200 OK|| = K1: X6: no length of the body 1 5
!HTTP/1.1 200 OK|Transfer-Encoding: chunked|Content-Length: 0|| = K1: X6: no length of the body 1 5
!HTTP/1.1 200 OK|Content-Length: 16777217|| = K1: X7: the body is too long 1 5
404 {} = K4: status 404 1 5
200 [ = K2: Y1: not JSON 1 5
200 [] = K2: Y2: not a reply 1 5
200 {\"counter\":{\"counter\":6,\"hash\":1},\"from\":{\"counter\":5,\"hash\":1},\"requests\":[],\"resetCause\":null,\"resetCounter\":false} = K2: Y3: a delta of another length 1 5
200 {\"counter\":{\"counter\":8,\"hash\":1},\"from\":{\"counter\":7,\"hash\":1},\"requests\":[@],\"resetCause\":null,\"resetCounter\":false} = K3: A2: a gap 1 5
200 {\"counter\":{\"counter\":6,\"hash\":1},\"from\":{\"counter\":5,\"hash\":1},\"requests\":[@],\"resetCause\":null,\"resetCounter\":false} = K3: A4: not a strict change: 0 1 5
 = K1: X1: the message is cut off 1 5
200 {\"counter\":{\"counter\":9,\"hash\":2},\"from\":null,\"requests\":[],\"resetCause\":\"OtherIncarnation\",\"resetCounter\":true};200 {\"counter\":{\"counter\":9,\"hash\":2},\"from\":null,\"requests\":[],\"resetCause\":null,\"resetCounter\":false} = Moved 2 9
200 {\"counter\":{\"counter\":0,\"hash\":3},\"from\":null,\"requests\":[],\"resetCause\":\"OtherIncarnation\",\"resetCounter\":true};200 {\"counter\":{\"counter\":0,\"hash\":3},\"from\":null,\"requests\":[],\"resetCause\":\"Ahead\",\"resetCounter\":true} = AskWhole 2 9
200 {\"counter\":{\"counter\":0,\"hash\":3},\"from\":null,\"requests\":[],\"resetCause\":\"OtherIncarnation\",\"resetCounter\":true} = K1: X1: the message is cut off 2 9";

const LOAD: &str =
    "{\"action\":\"load\",\"dataSource\":\"w\",\"interval\":\"2024-01-01/2024-01-02\",\"shardSpec\":{\"partitionNum\":0,\"partitions\":1,\"type\":\"numbered\"},\"size\":0,\"version\":\"v1\"}";

/// The bytes of a reply with this status and body.
pub(crate) fn whole_reply(rt: &impl Abort, alloc: Global, code: &str, body: &str) -> Vec<u8> {
    let body = replaced(rt, alloc, body, "@", LOAD);
    let length = body.as_str().len();
    format!(in alloc; "HTTP/1.1 {code} X\r\nContent-Length: {length}\r\n\r\n{body}")
        .expect(rt, "memory")
        .into_bytes()
}

// The bytes of what may be no reply.
fn raw_reply(rt: &impl Abort, alloc: Global, text: &str) -> Vec<u8> {
    let fields = "A: b|".repeat(alloc, 64).expect(rt, "memory");
    let text = replaced(rt, alloc, text, "#", fields.as_str());
    replaced(rt, alloc, text.as_str(), "|", "\r\n").into_bytes()
}

/// The bytes of a reply.
pub(crate) fn reply(rt: &impl Abort, alloc: Global, text: &str) -> Vec<u8> {
    if let Some(raw) = text.strip_prefix("!") {
        return raw_reply(rt, alloc, raw);
    }
    let Some((status, body)) = text.split_once(" ") else {
        return Vec::new(alloc);
    };
    let Some(code) = status.strip_prefix("-") else {
        return whole_reply(rt, alloc, status, body);
    };
    let mut bytes = whole_reply(rt, alloc, code, body);
    bytes.pop();
    bytes
}

/// A link that gives these replies.
pub(crate) fn link(rt: &impl Abort, alloc: Global, text: &str) -> MemoryLink {
    let mut replies = Vec::new(alloc);
    for one in text.split(';') {
        replies.push(reply(rt, alloc, one)).expect(rt, "memory");
    }
    MemoryLink::new(replies, 64)
}

/// An inventory of one node.
pub(crate) fn one_node(rt: &impl Abort, alloc: Global) -> Inventory {
    let name = Name::new(alloc, "n0").expect(rt, "a name");
    let names = vec![in alloc; name].expect(rt, "memory");
    Inventory::new(alloc, names).expect(rt, "an inventory")
}

/// The mark of a node: `1 5`.
pub(crate) fn mark_text(
    rt: &impl Abort,
    alloc: Global,
    inventory: &Inventory,
    node: NodeNo,
) -> String {
    let mark = inventory.mark(node).expect(rt, "a node");
    let incarnation = mark.incarnation();
    let count = mark.count();
    format!(in alloc; "{incarnation} {count}").expect(rt, "memory")
}

/// What an outcome is called.
pub(crate) fn outcome_of(outcome: Outcome) -> &'static str {
    match outcome {
        Outcome::Moved => "Moved",
        Outcome::AlreadyHave => "AlreadyHave",
        Outcome::AskWhole => "AskWhole",
        Outcome::AskPages => "AskPages",
    }
}

// What following the node tells.
fn followed_once<R: Wait + Abort + Drop, J: Publication>(
    rt: &R,
    alloc: Global,
    publisher: &mut Publisher<J, R>,
    replies: &str,
) -> String {
    let mut link = link(rt, alloc, replies);
    if publisher.inventory().node_count() == 0 {
        panic!(rt; "no node");
    }
    match sync_turn(alloc, 0, &mut link, publisher) {
        Ok((outcome, _)) => printed(rt, alloc, &outcome_of(outcome)),
        Err(fault) => printed(rt, alloc, &fault),
    }
}

// What following the node tells, and the mark that is then held.
fn reported_of<R: Wait + Abort + Drop, J: Publication>(
    rt: &R,
    alloc: Global,
    publisher: &mut Publisher<J, R>,
    replies: &str,
) -> String {
    let reported = followed_once(rt, alloc, publisher, replies);
    let mark = mark_text(rt, alloc, publisher.inventory(), 0);
    format!(in alloc; "{reported} {mark}").expect(rt, "memory")
}

// Asserts that the replies of a line are followed so.
fn assert_line<R: Wait + Abort + Drop, J: Publication>(
    rt: &R,
    alloc: Global,
    publisher: &mut Publisher<J, R>,
    line: &str,
) {
    let (replies, wanted) = halves(rt, line, " = ");
    assert_reported(rt, line, reported_of(rt, alloc, publisher, replies), wanted);
}

fn assert_lines<R: Wait + Abort + Drop + Copy, J: Publication>(
    rt: &R,
    alloc: Global,
    list: Opened,
    inventory: Inventory,
)
    requires book { list ≡ J.book }
    requires opening { inventory ≡ J.opening }
{
    let (mut publisher, _views) = open::<J, R>(alloc, *rt, list, inventory, 1).expect(rt, "memory");
    for line in TURNS.lines() {
        assert_line(rt, alloc, &mut publisher, line);
    }
}

fn assert_turns<R: Wait + Abort + Drop + Copy>(rt: &R, alloc: Global) {
    let inventory = one_node(rt, alloc);
    assert_lines::<R, Brand>(rt, alloc, Opened::new(), inventory);
}

#[test]
fn turns(rt: HostRuntime) {
    assert_turns(&rt, rt.alloc());
}

// Seeds a broker that has followed nothing with this entry, and gives whether it moved.
fn moves<R: Handle, J: Publication>(
    rt: R,
    alloc: Global,
    publisher: &mut Publisher<J, R>,
    entry: &str,
) -> bool {
    let mut first = link(&rt, alloc, entry);
    if publisher.inventory().node_count() == 0 {
        panic!(rt; "no node");
    }
    let (outcome, _) = seed_turn(alloc, 0, &mut first, publisher).expect(&rt, "a turn");
    outcome == Outcome::Moved
}

// Whether a broker that has followed nothing is seeded with what another knows of its first node.
fn is_seeded<R: Handle, J: Publication, K: Publication>(
    rt: R,
    alloc: Global,
    setup: Setup<R>,
    list: Opened,
    inventory: Inventory,
) -> bool
    requires peer_book { setup.list ≡ J.book }
    requires peer { setup.inventory ≡ J.opening }
    requires book { list ≡ K.book }
    requires opening { inventory ≡ K.opening }
{
    let mut peer: Cluster<R, J> = followed(rt, alloc, setup, 1);
    let request = b"GET /druid-internal/v1/inventory/0 HTTP/1.1\r\n\r\n";
    let entry = answered(alloc, &mut peer, 0, request);
    let (mut publisher, _views) = open::<K, R>(alloc, rt, list, inventory, 1).expect(&rt, "memory");
    moves(rt, alloc, &mut publisher, entry.as_str())
        && publisher.inventory() == peer.publisher.inventory()
}

fn seeds_of<R: Handle>(rt: R, alloc: Global) -> bool {
    let setup = set_up(rt, alloc, "v1/0/24/0/1 d:m 0/a/1");
    let inventory = one_node(&rt, alloc);
    is_seeded::<R, Brand, Brand>(rt, alloc, setup, Opened::new(), inventory)
}

#[test]
fn seeds(rt: HostRuntime) {
    assert!(rt; seeds_of(&rt, rt.alloc()));
}

// What a reply says, if it is a snapshot: its mark, and how many segments it has.
fn snapshot_text(rt: &impl Abort, alloc: Global, reply: &Reply) -> String {
    let Body::Snapshot { at, segments } = reply.body() else {
        panic!(rt; "no snapshot");
    };
    let (incarnation, count) = (at.incarnation(), at.count());
    let segments = segments.as_slice().len();
    format!(in alloc; "{incarnation} {count}: {segments}").expect(rt, "memory")
}

// What a peer tells of the first node.
fn fetched(rt: &impl Abort, alloc: Global, peer: &mut MemoryLink) -> String {
    match fetch_entry(alloc, peer, 0) {
        Ok(reply) => snapshot_text(rt, alloc, &reply),
        Err(fault) => printed(rt, alloc, &fault),
    }
}

// What a peer tells that was synced with the node.
#[test]
fn synced_peer(rt: HostRuntime) {
    let mut peer = link(&rt, rt.alloc(), SNAPSHOT);
    let reported = fetched(&rt, rt.alloc(), &mut peer);
    assert_reported(&rt, "a synced peer", reported, "1 3: 1");
}

// What a peer tells that was never synced with the node.
#[test]
fn unsynced_peer(rt: HostRuntime) {
    let mut peer = link(&rt, rt.alloc(), "404 {\"error\":\"V3\"}");
    let reported = fetched(&rt, rt.alloc(), &mut peer);
    assert_reported(&rt, "an unsynced peer", reported, "K4: status 404");
}
