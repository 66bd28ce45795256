//! Rounds of exchanges of which each fails in turn, and answers that are cut at each byte, come twice, or are another node's.
ghost use Rattle.std.specs.Prelude.{◌≡◌};

use crate::broker::query;
use crate::cluster::{Cluster, Handle, Server, Setup, followed, link_at, posted, set, set_up};
use crate::follow::whole_reply;
use crate::scatter::{PIECE, gather_text};
use crate::tables::{all_replaced, assert_reported, halves};
use druid_inventory_views::Publication;
use druid_link::MemoryLink;
use std::alloc::Global;
use std::marker::Brand;
use std::process::Abort;

const SUM: &str = "@,\"aggregations\":[{\"type\":\"longSum\",\"name\":\"s\",\"fieldName\":\"m\"}]}";

// One row on two replicas.
const REPLICAS: &str = "v1/0/24/0/1 d:m 0/a/1 | v1/0/24/0/1 d:m 0/a/1 | .";

// Three partitions, each on two of three nodes. The number of partition k is 2 to the k.
const PARTITIONS: &str =
    "v1/0/24/0/3 d:m 0/a/1 + v1/0/24/2/3 d:m 0/a/4 | v1/0/24/0/3 d:m 0/a/1 + v1/0/24/1/3 d:m 0/a/2 | v1/0/24/1/3 d:m 0/a/2 + v1/0/24/2/3 d:m 0/a/4";

// The signs of a short text: `<7>` is the row of the sum 7, `(1)` the segment slice of partition 1, and `*` the instant of the row's
// bucket.
const SIGNS: [(&str, &str); 5] = [
    ("<", "{\"result\":{\"s\":"),
    (">", "},\"timestamp\":\"2024-01-01T00:00:00.000Z\"}"),
    (
        "(",
        "{\"chunk\":\"2024-01-01T00:00:00.000Z/2024-01-02T00:00:00.000Z\",\"itvl\":\"2024-01-01T00:00:00.000Z/2024-01-02T00:00:00.000Z\",\"part\":",
    ),
    (")", ",\"ver\":\"v1\"}"),
    ("*", "1704067200000"),
];

// Asserts what a broker answers to the sum at a turn: the text that a short one stands for.
fn assert_sum<R: Handle, J: Publication>(
    alloc: Global,
    cluster: &mut Cluster<R, J>,
    turn: u64,
    wanted: &str,
) {
    let rt = cluster.rt;
    let query = query(&rt, alloc, SUM);
    let answer = posted(alloc, cluster, turn, query.as_str());
    let whole = all_replaced(&rt, alloc, wanted, &SIGNS);
    assert_reported(&rt, wanted, answer, whole.as_str());
}

// The replicas of a partition: the node that is asked for it first, and the other.
type Nodes = (usize, usize);

// Of each of three nodes, whether its first exchange fails and whether its second does.
type Failing = [[bool; 2]; 3];

// Which exchanges fail in a draw: the binary digits of its number.
fn failing_in(number: u64) -> Failing {
    let mut failing = [[false; 2]; 3];
    let mut left = number;
    for node in 0..3 {
        failing[node] = [left % 2 == 1, left / 2 % 2 == 1];
        left /= 4;
    }
    failing
}

fn fails(failing: &Failing, node: usize, exchange: usize) -> bool {
    if node < 3 && exchange < 2 {
        return failing[node][exchange];
    }
    false
}

// Whether neither replica gives a partition. A node that is asked in the first round makes its second exchange in the other.
fn is_missing(partitions: &[Nodes], nodes: Nodes, failing: &Failing) -> bool {
    let (first, second) = nodes;
    let asked = partitions.iter().any(|other| other.0 == second);
    let exchange = if asked { 1 } else { 0 };
    fails(failing, first, 0) && fails(failing, second, exchange)
}

// The partitions that are missing, and the sum of the numbers of the others: `(0),(2)` and 2.
fn missing_and_sum(
    rt: &impl Abort,
    alloc: Global,
    partitions: &[Nodes],
    failing: &Failing,
) -> (String, u64) {
    let mut missing = String::new(alloc);
    let mut sum = 0_u64;
    let mut number = 1_u64;
    for (partition, nodes) in partitions.iter().enumerate() {
        if is_missing(partitions, *nodes, failing) {
            let between = if missing.as_str().is_empty() { "" } else { "," };
            let slice = format!(in alloc; "{between}({partition})").expect(rt, "memory");
            missing.push_str(slice.as_str()).expect(rt, "memory");
        } else {
            sum = sum.wrapping_add(number);
        }
        number = number.wrapping_add(number);
    }
    (missing, sum)
}

// What a broker has to answer, as a short text.
fn answer_wanted(
    rt: &impl Abort,
    alloc: Global,
    partitions: &[Nodes],
    failing: &Failing,
) -> String {
    let (missing, sum) = missing_and_sum(rt, alloc, partitions, failing);
    let rows = if sum == 0 {
        String::new(alloc)
    } else {
        format!(in alloc; "<{sum}>").expect(rt, "memory")
    };
    if missing.as_str().is_empty() {
        return format!(in alloc; "200 [{rows}]").expect(rt, "memory");
    }
    format!(in alloc;
        "503 {{\"error\":\"SegmentsMissing\",\"missing\":[{missing}],\"partial\":[{rows}]}}"
    ).expect(rt, "memory")
}

// Asserts what a broker answers at a turn, where these exchanges fail.
fn assert_answer<R: Handle, J: Publication>(
    alloc: Global,
    cluster: &mut Cluster<R, J>,
    partitions: &[Nodes],
    turn: u64,
    failing: &Failing,
) {
    for place in 0..3 {
        link_at(cluster, place).fail_in_turn(failing[place]);
    }
    let wanted = answer_wanted(&cluster.rt, alloc, partitions, failing);
    assert_sum(alloc, cluster, turn, wanted.as_str());
}

// Asserts it where any exchanges fail, at two turns, of which the second asks the other replica of each partition first.
fn assert_each<R: Handle, J: Publication>(
    rt: R,
    alloc: Global,
    setup: Setup<R>,
    partitions: Vec<Nodes>,
)
    requires book { setup.list ≡ J.book }
    requires opening { setup.inventory ≡ J.opening }
{
    let mut cluster: Cluster<R, J> = followed(rt, alloc, setup, 3);
    let mut turned = Vec::new(alloc);
    for (first, second) in partitions.iter() {
        turned.push((*second, *first)).expect(&rt, "memory");
    }
    for number in 0..64_u64 {
        let failing = failing_in(number);
        assert_answer(alloc, &mut cluster, &partitions, 0, &failing);
        assert_answer(alloc, &mut cluster, &turned, 1, &failing);
    }
}

fn assert_exchanges<R: Handle>(rt: R, alloc: Global, nodes: &str, partitions: &[Nodes]) {
    let setup = set_up(rt, alloc, nodes);
    let partitions = partitions.to_vec(alloc).expect(&rt, "memory");
    assert_each::<R, Brand>(rt, alloc, setup, partitions);
}

#[test]
fn each_exchange_fails(rt: HostRuntime) {
    assert_exchanges(&rt, rt.alloc(), REPLICAS, &[(0, 1)]);
    assert_exchanges(&rt, rt.alloc(), PARTITIONS, &[(0, 1), (1, 2), (0, 2)]);
}

// What the first two of three nodes answer to whatever they are asked, in place of their own partitions 0 and 2, and 1. What a broker
// answers then: rows that read are counted, and an answer about segment slices that were not asked sends the partitions to their other
// node.
const SWAPPED: &str =
    r#"{"missing":[],"rows":[[*,[],[2]]]} | {"missing":[],"rows":[[*,[],[5]]]} = 200 [<7>]
{"missing":[],"rows":[[*,[],[5]]]} | {"missing":[],"rows":[[*,[],[5]]]} = 200 [<10>]
{"missing":[(2)],"rows":[[*,[],[1]]]} | {"missing":[(2)],"rows":[[*,[],[1]]]} = 200 [<7>]
{"missing":[(1)],"rows":[]} | {"missing":[(1)],"rows":[]} = 503 {"error":"SegmentsMissing","missing":[(0)],"partial":[<6>]}"#;

// Puts an answer with this body, as a short text, after a link.
fn set_answer<R: Handle, J: Publication>(
    alloc: Global,
    cluster: &mut Cluster<R, J>,
    place: usize,
    body: &str,
) {
    let rt = cluster.rt;
    let body = all_replaced(&rt, alloc, body, &SIGNS);
    let bytes = whole_reply(&rt, alloc, "200", body.as_str());
    set(cluster, place, Server::Bytes(bytes));
}

fn assert_swapped<R: Handle, J: Publication>(
    alloc: Global,
    cluster: &mut Cluster<R, J>,
    line: &str,
) {
    let rt = cluster.rt;
    let (answers, wanted) = halves(&rt, line, " = ");
    let (first, second) = halves(&rt, answers, " | ");
    set_answer(alloc, cluster, 0, first);
    set_answer(alloc, cluster, 1, second);
    assert_sum(alloc, cluster, 0, wanted);
}

fn assert_lines<R: Handle, J: Publication>(rt: R, alloc: Global, setup: Setup<R>)
    requires book { setup.list ≡ J.book }
    requires opening { setup.inventory ≡ J.opening }
{
    let mut cluster: Cluster<R, J> = followed(rt, alloc, setup, 3);
    for line in SWAPPED.lines() {
        assert_swapped(alloc, &mut cluster, line);
    }
}

fn assert_all_swapped<R: Handle>(rt: R, alloc: Global) {
    let setup = set_up(rt, alloc, PARTITIONS);
    assert_lines::<R, Brand>(rt, alloc, setup);
}

#[test]
fn swapped_answers(rt: HostRuntime) {
    assert_all_swapped(&rt, rt.alloc());
}

// How many bytes an answer with one number has, of one digit.
const WHOLE: usize = 84;

// A link that gives so many bytes of an answer with this number, which stands there twice, until its fuse.
fn link_of(rt: &impl Abort, alloc: Global, number: u64, length: usize, fuse: u64) -> MemoryLink {
    let body = format!(in alloc;
        "{{\"missing\":[],\"rows\":[[1704088800000,[],[{number}]]]}}"
    ).expect(rt, "memory");
    let answer = whole_reply(rt, alloc, "200", body.as_str());
    let mut bytes = answer.repeat(alloc, 2).expect(rt, "memory");
    bytes.truncate(length);
    MemoryLink::new(vec![in alloc; bytes].expect(rt, "memory"), fuse)
}

// Asserts what is gathered where the node that is asked first answers so many bytes of a 9 until its fuse, and the other so many of
// a 5.
fn assert_cut<R: Handle>(
    rt: R,
    alloc: Global,
    length: usize,
    fuse: u64,
    other: usize,
    wanted: &str,
) {
    let asked = link_of(&rt, alloc, 9, length, fuse);
    let answer = gather_text(rt, alloc, link_of(&rt, alloc, 5, other, 1), asked);
    assert_reported(&rt, wanted, answer, wanted);
}

#[test]
fn cut_answers(rt: HostRuntime) {
    let (nine, five) = ("2024-01-01T06:00:00.000Z 9", "2024-01-01T06:00:00.000Z 5");
    for length in 0..WHOLE {
        assert_cut(&rt, rt.alloc(), length, 1, WHOLE, five);
        assert_cut(&rt, rt.alloc(), length, 1, length, PIECE);
    }
    for length in WHOLE..=WHOLE + WHOLE {
        assert_cut(&rt, rt.alloc(), length, 1, 0, nine);
    }
    assert_cut(&rt, rt.alloc(), WHOLE, 0, WHOLE, five);
    assert_cut(&rt, rt.alloc(), WHOLE, 0, 0, PIECE);
}
