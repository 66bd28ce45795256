//! Nodes that serve more segments than a page has: how brokers follow them, tell of them, and seed each other with them.
ghost use Rattle.std.specs.Prelude.{◌≡◌};

use crate::cluster::{Cluster, Handle, Setup, answered, followed, set_up};
use crate::follow::{mark_text, one_node, reply, whole_reply};
use crate::hostile_turns::{Turn, take_turn};
use crate::many_pieces::reply_of;
use crate::tables::{assert_reported, halves};
use druid_inventory::Inventory;
use druid_inventory_views::{Opened, Publication, Publisher, open};
use druid_link::MemoryLink;
use std::alloc::Global;
use std::marker::Brand;
use std::process::Abort;
use std::sync::Wait;

// Turns of a broker, one after another: the numbers of the replies, after which the link fails; what the turn reports, and then the
// mark of the node and how many segments it serves. 0, 1 and 2 are the pages of a snapshot of 40,001 segments, and 3 is the second
// page at the mark after it; 4 is a second page that begins with the last segment of the first, 5 is the last page without its last
// byte, and 6 a snapshot of one segment.
const TURNS: &str = "6 = Moved 1 5: 1
 = K1: X2: the message could not be read 1 5: 1
0 = K1: X2: the message could not be read 1 5: 1
01 = K1: X2: the message could not be read 1 5: 1
015 = K1: X1: the message is cut off 1 5: 1
1 = K5: another page 1 5: 1
02 = K5: another page 1 5: 1
03 = K5: another page 1 5: 1
06 = K5: another page 1 5: 1
042 = K3: A7: the pages of a snapshot differ 1 5: 1
012 = Moved 1 7: 40001
012 = AlreadyHave 1 7: 40001
6 = AlreadyHave 1 7: 40001";

// Of each page above its number, the count of its mark, and its partitions from one on and before another. Those with five digits
// rise as their identifiers do.
const PAGES: [(u16, u64, u16, u16); 6] = [
    (0, 7, 10_000, 30_000),
    (1, 7, 30_000, 50_000),
    (2, 7, 50_000, 50_001),
    (1, 8, 30_000, 50_000),
    (1, 7, 29_999, 49_999),
    (2, 7, 50_000, 50_001),
];

const ONE: &str =
    "200 {\"counter\":{\"counter\":5,\"hash\":1},\"from\":null,\"requests\":[@],\"resetCause\":null,\"resetCounter\":false}";

// The loads of these partitions.
fn loads(rt: &impl Abort, alloc: Global, first: u16, end: u16) -> String {
    let mut loads = String::new(alloc);
    for partition in first..end {
        let comma = if partition == first { "" } else { "," };
        let load = format!(in alloc;
            "{comma}{{\"action\":\"load\",\"dataSource\":\"w\",\"interval\":\"2024-01-01/2024-01-02\",\"shardSpec\":{{\"partitionNum\":{partition},\"partitions\":1,\"type\":\"numbered\"}},\"size\":0,\"version\":\"v1\"}}"
        ).expect(rt, "memory");
        loads.push_str(load.as_str()).expect(rt, "memory");
    }
    loads
}

// The bytes of a page of three.
fn page_reply(rt: &impl Abort, alloc: Global, page: u16, count: u64, loads: &str) -> Vec<u8> {
    let body = format!(in alloc;
        "{{\"counter\":{{\"counter\":{count},\"hash\":1}},\"from\":null,\"page\":{page},\"pages\":3,\"requests\":[{loads}],\"resetCause\":null,\"resetCounter\":false}}"
    ).expect(rt, "memory");
    whole_reply(rt, alloc, "200", body.as_str())
}

// The replies that have numbers in the table.
fn replies(rt: &impl Abort, alloc: Global) -> Vec<Vec<u8>> {
    let mut replies = Vec::new(alloc);
    for (page, count, first, end) in PAGES {
        let loads = loads(rt, alloc, first, end);
        replies
            .push(page_reply(rt, alloc, page, count, loads.as_str()))
            .expect(rt, "memory");
    }
    if let Some(last) = replies.last_mut() {
        last.pop();
    }
    replies.push(reply(rt, alloc, ONE)).expect(rt, "memory");
    replies
}

// A link that gives the replies of these numbers, and then fails.
fn link_of(rt: &impl Abort, alloc: Global, replies: &[Vec<u8>], numbers: &str) -> MemoryLink {
    let mut given = Vec::new(alloc);
    for number in numbers.bytes() {
        let place = usize::from(number.saturating_sub(b'0'));
        let bytes = replies.get(place).expect(rt, "a reply");
        given
            .push(bytes.to_vec(alloc).expect(rt, "memory"))
            .expect(rt, "memory");
    }
    let fuse = given.len() as u64;
    MemoryLink::new(given, fuse)
}

// Asserts what each turn of the table reports, of a node or of a peer.
fn assert_turns<R: Wait + Abort + Drop + Copy, J: Publication>(
    rt: &R,
    alloc: Global,
    list: Opened,
    inventory: Inventory,
    seeds: bool,
)
    requires book { list ≡ J.book }
    requires opening { inventory ≡ J.opening }
{
    let (mut publisher, _views) = open::<J, R>(alloc, *rt, list, inventory, 1).expect(rt, "memory");
    let replies = replies(rt, alloc);
    for line in TURNS.lines() {
        let (numbers, wanted) = halves(rt, line, " = ");
        let link = link_of(rt, alloc, &replies, numbers);
        let outcome = take_turn(rt, alloc, &mut publisher, Turn { seeds, node: 0 }, link);
        let mark = mark_text(rt, alloc, publisher.inventory(), 0);
        let served = publisher.inventory().segments(0).expect(rt, "a node").len();
        let reported = format!(in alloc; "{outcome} {mark}: {served}").expect(rt, "memory");
        assert_reported(rt, line, reported, wanted);
    }
}

fn assert_pages<R: Wait + Abort + Drop + Copy>(rt: &R, alloc: Global, seeds: bool) {
    let inventory = one_node(rt, alloc);
    assert_turns::<R, Brand>(rt, alloc, Opened::new(), inventory, seeds);
}

#[test]
fn turns_in_pages(rt: HostRuntime) {
    for seeds in [false, true] {
        assert_pages(&rt, rt.alloc(), seeds);
    }
}

// The query strings of asks for a node with 45,000 segments, and what a broker answers, with the number of loads in the place of
// these. The first three are the pages.
const ENTRY: &str =
    " = 200 {\"counter\":{\"counter\":45000,\"hash\":1},\"from\":null,\"page\":0,\"pages\":3,\"requests\":[20000],\"resetCause\":null,\"resetCounter\":false}
?counter=45000&hash=1&page=1 = 200 {\"counter\":{\"counter\":45000,\"hash\":1},\"from\":null,\"page\":1,\"pages\":3,\"requests\":[20000],\"resetCause\":null,\"resetCounter\":false}
?counter=45000&hash=1&page=2 = 200 {\"counter\":{\"counter\":45000,\"hash\":1},\"from\":null,\"page\":2,\"pages\":3,\"requests\":[5000],\"resetCause\":null,\"resetCounter\":false}
?counter=45000&hash=1 = 200 {\"counter\":{\"counter\":45000,\"hash\":1},\"from\":null,\"page\":0,\"pages\":3,\"requests\":[20000],\"resetCause\":null,\"resetCounter\":false}
?counter=45000&hash=1&page=3 = 200 {\"counter\":{\"counter\":45000,\"hash\":1},\"from\":null,\"requests\":[0],\"resetCause\":\"TooOld\",\"resetCounter\":true}
?counter=44999&hash=1&page=1 = 200 {\"counter\":{\"counter\":45000,\"hash\":1},\"from\":null,\"requests\":[0],\"resetCause\":\"TooOld\",\"resetCounter\":true}";

// An answer, with the number of loads in the place of these.
fn shortened(rt: &impl Abort, alloc: Global, answer: &str) -> String {
    let (front, rest) = halves(rt, answer, "[");
    let (loads, end) = halves(rt, rest, "]");
    let count = loads.split("\"action\":\"load\"").count().saturating_sub(1);
    format!(in alloc; "{front}[{count}]{end}").expect(rt, "memory")
}

// What a broker answers to the asks, as replies, once it knows 45,000 segments of its node: each is asserted.
fn entry_of<R: Handle, J: Publication>(alloc: Global, peer: &mut Cluster<R, J>) -> Vec<Vec<u8>> {
    let rt = peer.rt;
    let known = reply_of(&rt, alloc, 45_000);
    let (_, receipt) = peer.publisher.publish(0, &known).expect(&rt, "a receipt");
    peer.view.learn(&receipt);
    let mut replies = Vec::new(alloc);
    for line in ENTRY.lines() {
        let (query, wanted) = halves(&rt, line, " = ");
        let request = format!(in alloc;
            "GET /druid-internal/v1/inventory/0{query} HTTP/1.1\r\n\r\n"
        ).expect(&rt, "memory");
        let answer = answered(alloc, peer, 0, request.as_bytes());
        assert_reported(&rt, line, shortened(&rt, alloc, answer.as_str()), wanted);
        replies
            .push(reply(&rt, alloc, answer.as_str()))
            .expect(&rt, "memory");
    }
    replies
}

// Whether a broker that is seeded with the pages that another answers knows what that one does.
fn is_seeded<R: Handle, J: Publication, K: Publication>(
    rt: R,
    alloc: Global,
    setup: Setup<R>,
    list: Opened,
    inventory: Inventory,
) -> bool
    requires peer_book { setup.list ≡ J.book }
    requires peer { setup.inventory ≡ J.opening }
    requires book { list ≡ K.book }
    requires opening { inventory ≡ K.opening }
{
    let mut peer: Cluster<R, J> = followed(rt, alloc, setup, 0);
    let replies = entry_of(alloc, &mut peer);
    let (mut publisher, _views) = open::<K, R>(alloc, rt, list, inventory, 1).expect(&rt, "memory");
    let link = MemoryLink::new(replies, 3);
    let turn = Turn {
        seeds: true,
        node: 0,
    };
    let outcome = take_turn(&rt, alloc, &mut publisher, turn, link);
    outcome.as_str() == "Moved" && publisher.inventory() == peer.publisher.inventory()
}

fn seeded<R: Handle>(rt: R, alloc: Global) -> bool {
    let setup = set_up(rt, alloc, ".");
    let inventory = one_node(&rt, alloc);
    is_seeded::<R, Brand, Brand>(rt, alloc, setup, Opened::new(), inventory)
}

#[test]
fn seeds_in_pages(rt: HostRuntime) {
    assert!(rt; seeded(&rt, rt.alloc()));
}
