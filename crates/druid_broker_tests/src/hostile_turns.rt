//! Turns of a broker whose link fails at each exchange, whose replies are cut at each byte, come twice, or are another node's.
ghost use Rattle.std.specs.Prelude.{◌≡◌};

use crate::broker::answer_of;
use crate::cluster::inventory;
use crate::follow::{mark_text, outcome_of, reply};
use crate::tables::{all_replaced, assert_reported, halves, printed, replaced};
use druid_broker_follow::{TurnFault, seed_turn, sync_turn};
use druid_inventory::{Inventory, Outcome};
use druid_inventory_views::{Opened, Publication, Publisher, Receipt, open};
use druid_link::MemoryLink;
use druid_segment_descriptor::NodeNo;
use druid_segment_id::Name;
use std::alloc::Global;
use std::marker::Brand;
use std::process::Abort;
use std::sync::Wait;

// Turns of a broker with two nodes, one after another: the node, with `p` in front where a peer is asked for its entry, and the replies
// as in the turns of `turns.rt`. `%` stands for the end of a reply that is no reset, `?` for the end of a reset, `$` for the load of a
// segment `v2` from 10:00 to 12:00, `*` for the drop of `v1`, and `^` for 200 brackets and as many that close them. Then what the turn
// reports, and the state after it: the mark of each node, and the visible ranges, in which `~` stands for the day, and `&` for the day
// with `v2` in it.
const TURNS: &str =
    r#"0 200 {"counter":{"counter":5,"hash":1},"from":null,"requests":[@],% = Moved = 1 5 0 0 ~ v1
0 !HTTP/1.1 200 OK|Content-Length: 117||{"counter":{"counter":5,"hash":1},"from":{"counter":5,"hash":1},"requests":[],% = AlreadyHave = 1 5 0 0 ~ v1
0 503 {} = K4: status 503 = 1 5 0 0 ~ v1
0 200 ^ = K2: Y1: not JSON = 1 5 0 0 ~ v1
0 200 {"counter":{"counter":6,"hash":1},"from":{"counter":5,"hash":1},"requests":[@],% = K3: A4: not a strict change: 0 = 1 5 0 0 ~ v1
0 200 {"counter":{"counter":7,"hash":1},"from":{"counter":5,"hash":1},"requests":[*,*],% = K3: A4: not a strict change: 1 = 1 5 0 0 ~ v1
0 200 {"counter":{"counter":6,"hash":1},"from":{"counter":5,"hash":1},"requests":[$],% = Moved = 1 6 0 0 &
p1 200 {"counter":{"counter":5,"hash":1},"from":null,"requests":[@],% = Moved = 1 6 1 5 &
1 200 {"counter":{"counter":7,"hash":1},"from":{"counter":6,"hash":1},"requests":[$],% = K3: A2: a gap = 1 6 1 5 &
p1 404 {"error":"V3"} = K4: status 404 = 1 6 1 5 &
0 200 {"counter":{"counter":0,"hash":2},"from":null,"requests":[],% = Moved = 2 0 1 5 ~ v1
0 200 {"counter":{"counter":7,"hash":1},"from":{"counter":6,"hash":1},"requests":[*],% = K3: A3: another incarnation = 2 0 1 5 ~ v1
p0 200 {"counter":{"counter":0,"hash":2},"from":null,"requests":[@],% = K3: A5: a conflict = 2 0 1 5 ~ v1
p0 200 {"counter":{"counter":6,"hash":1},"from":null,"requests":[@,$],% = AlreadyHave = 2 0 1 5 ~ v1
1 200 {"counter":{"counter":0,"hash":3},"from":null,"requests":[],?;200 {"counter":{"counter":0,"hash":3},"from":null,"requests":[],? = AskWhole = 2 0 1 5 ~ v1
1 200 {"counter":{"counter":9,"hash":3},"from":null,"requests":[],?;200 {"counter":{"counter":9,"hash":3},"from":null,"requests":[$],% = Moved = 2 0 3 9 2024-01-01T10:00:00.000Z/2024-01-01T12:00:00.000Z v2"#;

const CUT: &str = "K1: X1: the message is cut off";

const FAILED: &str = "K1: X2: the message could not be read";

/// A turn: whether a peer is asked, and of which node.
#[derive(Clone, Copy)]
pub(crate) struct Turn {
    pub(crate) seeds: bool,
    pub(crate) node: NodeNo,
}

// The turn that the first word of a line says.
fn turn_of(word: &str) -> Turn {
    Turn {
        seeds: word.starts_with("p"),
        node: if word.ends_with("1") { 1 } else { 0 },
    }
}

fn replies_of(rt: &impl Abort, alloc: Global, texts: &str) -> Vec<Vec<u8>> {
    let mut replies = Vec::new(alloc);
    for text in texts.split(';') {
        replies.push(reply(rt, alloc, text)).expect(rt, "memory");
    }
    replies
}

fn brackets(rt: &impl Abort, alloc: Global) -> String {
    let mut text = "[".repeat(alloc, 200).expect(rt, "memory");
    let close = "]".repeat(alloc, 200).expect(rt, "memory");
    text.push_str(close.as_str()).expect(rt, "memory");
    text
}

// The signs of a line beside `^`, and what each of them stands for.
const SIGNS: [(&str, &str); 6] = [
    ("%", "\"resetCause\":null,\"resetCounter\":false}"),
    ("?", "\"resetCause\":\"Ahead\",\"resetCounter\":true}"),
    (
        "$",
        "{\"action\":\"load\",\"dataSource\":\"w\",\"interval\":\"2024-01-01T10:00/2024-01-01T12:00\",\"shardSpec\":{\"partitionNum\":0,\"partitions\":1,\"type\":\"numbered\"},\"size\":0,\"version\":\"v2\"}",
    ),
    (
        "*",
        "{\"action\":\"drop\",\"dataSource\":\"w\",\"interval\":\"2024-01-01/2024-01-02\",\"shardSpec\":{\"partitionNum\":0,\"partitions\":1,\"type\":\"numbered\"},\"size\":0,\"version\":\"v1\"}",
    ),
    ("~", "2024-01-01T00:00:00.000Z/2024-01-02T00:00:00.000Z"),
    (
        "&",
        "2024-01-01T00:00:00.000Z/2024-01-01T10:00:00.000Z v1 2024-01-01T10:00:00.000Z/2024-01-01T12:00:00.000Z v2 2024-01-01T12:00:00.000Z/2024-01-02T00:00:00.000Z v1",
    ),
];

/// The line that a short one stands for.
pub(crate) fn whole_line(rt: &impl Abort, alloc: Global, line: &str) -> String {
    let line = all_replaced(rt, alloc, line, &SIGNS);
    replaced(rt, alloc, line.as_str(), "^", brackets(rt, alloc).as_str())
}

/// The marks of two nodes, and the visible ranges of the source `w`.
pub(crate) fn state(rt: &impl Abort, alloc: Global, inventory: &Inventory) -> String {
    let mut text = mark_text(rt, alloc, inventory, 0);
    text.push_str(" ").expect(rt, "memory");
    let other = mark_text(rt, alloc, inventory, 1);
    text.push_str(other.as_str()).expect(rt, "memory");
    let name = Name::new(alloc, "w").expect(rt, "a name");
    if let Some(timeline) = inventory.timeline(&name) {
        for (interval, chunk) in timeline.runs() {
            let version = chunk.version().text(alloc).expect(rt, "memory");
            let range = format!(in alloc; " {interval} {version}").expect(rt, "memory");
            text.push_str(range.as_str()).expect(rt, "memory");
        }
    }
    text
}

fn outcome_text<J: Publication>(
    rt: &impl Abort,
    alloc: Global,
    turn: Result<(Outcome, Receipt<J>), TurnFault>,
) -> String {
    match turn {
        Ok((outcome, _)) => printed(rt, alloc, &outcome_of(outcome)),
        Err(fault) => printed(rt, alloc, &fault),
    }
}

/// What a turn over a link reports.
pub(crate) fn take_turn<R: Wait + Abort + Drop, J: Publication>(
    rt: &R,
    alloc: Global,
    publisher: &mut Publisher<J, R>,
    turn: Turn,
    link: MemoryLink,
) -> String {
    let mut link = link;
    if publisher.inventory().node_count() <= turn.node {
        panic!(rt; "no node");
    }
    if turn.seeds {
        return outcome_text(rt, alloc, seed_turn(alloc, turn.node, &mut link, publisher));
    }
    outcome_text(rt, alloc, sync_turn(alloc, turn.node, &mut link, publisher))
}

// Asserts what a turn over a link reports, and the state after it.
fn assert_turn<R: Wait + Abort + Drop, J: Publication>(
    rt: &R,
    alloc: Global,
    publisher: &mut Publisher<J, R>,
    turn: Turn,
    link: MemoryLink,
    wanted: (&str, &str),
) {
    let outcome = take_turn(rt, alloc, publisher, turn, link);
    let after = state(rt, alloc, publisher.inventory());
    let same = outcome.as_str() == wanted.0 && after.as_str() == wanted.1;
    assert!(rt; same, "{outcome} {after}, not {}", wanted.0);
}

// A link that gives each of the replies so often in a row, number `place` cut at that length, and fails from the exchange `fuse` on.
fn link_of(
    rt: &impl Abort,
    alloc: Global,
    replies: &[Vec<u8>],
    often: usize,
    cut: (usize, usize),
    fuse: u64,
) -> MemoryLink {
    let mut all = Vec::new(alloc);
    for (place, reply) in replies.iter().enumerate() {
        let mut bytes = reply.repeat(alloc, often).expect(rt, "memory");
        if place == cut.0 {
            bytes.truncate(cut.1);
        }
        all.push(bytes).expect(rt, "memory");
    }
    MemoryLink::new(all, fuse)
}

// Asserts that a turn is refused, and leaves the state, where its link fails at any exchange or any of its replies is cut at any byte.
fn assert_stays<R: Wait + Abort + Drop, J: Publication>(
    rt: &R,
    alloc: Global,
    publisher: &mut Publisher<J, R>,
    turn: Turn,
    replies: &[Vec<u8>],
) {
    let before = state(rt, alloc, publisher.inventory());
    let before = before.as_str();
    for (place, reply) in replies.iter().enumerate() {
        let failing = link_of(rt, alloc, replies, 1, (place, reply.len()), place as u64);
        assert_turn(rt, alloc, publisher, turn, failing, (FAILED, before));
        for length in 0..reply.len() {
            let cut = link_of(rt, alloc, replies, 1, (place, length), u64::MAX);
            assert_turn(rt, alloc, publisher, turn, cut, (CUT, before));
        }
    }
}

// Asserts that a turn reports what it should where each reply has more bytes after it, and where it comes again.
fn assert_repeats<R: Wait + Abort + Drop, J: Publication>(
    rt: &R,
    alloc: Global,
    publisher: &mut Publisher<J, R>,
    turn: Turn,
    replies: &[Vec<u8>],
    wanted: (&str, &str),
) {
    let doubled = link_of(rt, alloc, replies, 2, (usize::MAX, 0), u64::MAX);
    assert_turn(rt, alloc, publisher, turn, doubled, wanted);
    let outcome = match wanted.0 {
        "Moved" => "AlreadyHave",
        other => other,
    };
    let again = link_of(rt, alloc, replies, 1, (usize::MAX, 0), u64::MAX);
    assert_turn(rt, alloc, publisher, turn, again, (outcome, wanted.1));
}

fn assert_line<R: Wait + Abort + Drop, J: Publication>(
    rt: &R,
    alloc: Global,
    publisher: &mut Publisher<J, R>,
    line: &str,
) {
    let line = whole_line(rt, alloc, line);
    let (text, wanted) = halves(rt, line.as_str(), " = ");
    let (word, texts) = halves(rt, text, " ");
    let replies = replies_of(rt, alloc, texts);
    assert_stays(rt, alloc, publisher, turn_of(word), &replies);
    let wanted = halves(rt, wanted, " = ");
    assert_repeats(rt, alloc, publisher, turn_of(word), &replies, wanted);
}

fn assert_lines<R: Wait + Abort + Drop + Copy, J: Publication>(
    rt: &R,
    alloc: Global,
    list: Opened,
    inventory: Inventory,
)
    requires book { list ≡ J.book }
    requires opening { inventory ≡ J.opening }
{
    let (mut publisher, _views) = open::<J, R>(alloc, *rt, list, inventory, 1).expect(rt, "memory");
    for line in TURNS.lines() {
        assert_line(rt, alloc, &mut publisher, line);
    }
}

fn assert_hostile<R: Wait + Abort + Drop + Copy>(rt: &R, alloc: Global) {
    let inventory = inventory(rt, alloc, 2);
    assert_lines::<R, Brand>(rt, alloc, Opened::new(), inventory);
}

#[test]
fn hostile_replies(rt: HostRuntime) {
    assert_hostile(&rt, rt.alloc());
}

// Brackets in the place of a query.
#[test]
fn hostile_query(rt: HostRuntime) {
    let query = brackets(&rt, rt.alloc());
    let answer = answer_of(&rt, rt.alloc(), ".", query.as_str(), 0);
    assert_reported(&rt, "brackets", answer, "400 {\"error\":\"Q1\"}");
}
