//! The exchanges of a round are made at the same time: a link answers once all of them have begun.
ghost use Rattle.std.specs.Prelude.{◌≡◌};

use crate::broker::query;
use crate::cluster::{
    Cluster, Handle, Setup, TestLink, followed, message_of, reaches, reported_response, set_up,
    try_linked,
};
use crate::scatter::{count, gathered};
use crate::tables::assert_reported;
use druid_http_message::WireFault;
use druid_inventory::Inventory;
use druid_inventory_views::{Publication, Publisher, View};
use druid_link::Link;
use std::alloc::Global;
use std::fmt::Write;
use std::marker::Brand;
use std::process::Abort;
use std::sync::{Arc, Mutex, Wait};
use std::thread;
use std::time::{Clock, Duration};

// How many times a link looks whether the others were asked, a millisecond apart.
const LOOKS: u64 = 10_000;

// A round: how many of its exchanges have not begun, and whether one of them waited for those as
// long as it may.
#[derive(Drop)]
struct Round {
    left: u64,
    is_late: bool,
}

type SharedRound = Arc<Mutex<Round>, Global>;

// A link whose exchange ends once all of its round have begun.
#[derive(Drop)]
struct GateLink<R: Handle + Clock> {
    rt: R,
    link: TestLink<R>,
    round: SharedRound,
    // Whether it fails then.
    fails: bool,
    faults: u64,
}

// Takes one off.
fn begin(rt: &impl Wait, round: &Mutex<Round>) {
    let mut round = round.lock(rt);
    round.left = round.left.saturating_sub(1);
}

// Whether all have begun. None where that is still to be seen.
fn is_open(rt: &impl Wait, round: &Mutex<Round>) -> Option<bool> {
    let round = round.lock(rt);
    if round.left == 0 {
        return Some(true);
    }
    if round.is_late {
        return Some(false);
    }
    None
}

fn end(rt: &impl Wait, round: &Mutex<Round>) {
    round.lock(rt).is_late = true;
}

// Whether all have begun before there was no more time for it. Where one has waited for nothing,
// the others of its round do not wait.
fn opens<R: Wait + Clock>(rt: &R, round: &Mutex<Round>) -> bool {
    for _ in 0..LOOKS {
        if let Some(open) = is_open(rt, round) {
            return open;
        }
        thread::sleep(rt, Duration::from_millis(1));
    }
    end(rt, round);
    false
}

impl<R: Handle + Clock> Link for GateLink<R> {
    ghost exchanges = { λ link request came next. Unit {0} };

    ghost faults = { λ link. link.faults };

    fn exchange(&mut self, alloc: Global, request: &[u8]) -> Result<Vec<u8>, WireFault> {
        begin(&self.rt, &self.round);
        if opens(&self.rt, &self.round) && !self.fails {
            if let Ok(bytes) = self.link.exchange(alloc, request) {
                return Ok(bytes);
            }
        }
        self.faults = self.faults.saturating_add(1);
        Err(WireFault::Connect)
    }

    fn hasten(&mut self, _millis: Option<u64>) {}

    fn faults(&self) -> u64 {
        self.faults
    }
}

// A chunk of partitions, each with one row and a node of its own, which is asked in the first
// round. The first so many of these nodes fail once all were asked, and the first so many of their
// partitions have another node, which is asked in the second.
#[derive(Clone, Copy)]
struct Trial {
    partitions: u64,
    failing: u64,
    spares: u64,
}

// How many partitions there are, nodes that fail, and other nodes.
const TRIALS: [(u64, u64, u64); 14] = [
    (1, 0, 0),
    (2, 0, 0),
    (3, 0, 0),
    (4, 0, 0),
    (5, 0, 0),
    (8, 0, 0),
    (64, 0, 0),
    (2, 1, 0),
    (5, 2, 0),
    (64, 63, 0),
    (1, 1, 1),
    (5, 3, 2),
    (5, 5, 5),
    (32, 32, 32),
];

const DAY: &str = "2024-01-01T00:00:00.000Z/2024-01-02T00:00:00.000Z";

const BUCKET: &str = "2024-01-01T00:00:00.000Z";

const COUNT: &str = "@,\"aggregations\":[{\"type\":\"count\",\"name\":\"n\"}]}";

// Adds a node that serves that partition.
fn push_node(rt: &impl Abort, text: &mut String, partition: u64, partitions: u64) {
    let between = if text.as_str().is_empty() { "" } else { " | " };
    write!(
        text,
        "{between}v1/0/24/{partition}/{partitions} d:m 25200000/a/1"
    )
    .expect(rt, "memory");
}

// The nodes of a trial: those that are asked first, and then the others.
fn nodes_of(rt: &impl Abort, alloc: Global, trial: Trial) -> String {
    let mut text = String::new(alloc);
    for partition in 0..trial.partitions {
        push_node(rt, &mut text, partition, trial.partitions);
    }
    for partition in 0..trial.spares {
        push_node(rt, &mut text, partition, trial.partitions);
    }
    text
}

// A round of so many exchanges.
fn round_of(rt: &impl Abort, alloc: Global, left: u64) -> SharedRound {
    let round = Round {
        left,
        is_late: false,
    };
    Arc::new(alloc, Mutex::new(round)).expect(rt, "memory")
}

// A link of that round.
fn gate_link<R: Handle + Clock>(
    rt: R,
    link: TestLink<R>,
    round: &SharedRound,
    fails: bool,
) -> GateLink<R> {
    GateLink {
        rt,
        link,
        round: Arc::try_clone(round).expect(&rt, "memory"),
        fails,
        faults: 0,
    }
}

// The links of a trial, to the nodes that these lead to.
fn gate_links<R: Handle + Clock>(
    rt: R,
    alloc: Global,
    links: Vec<TestLink<R>>,
    trial: Trial,
) -> Vec<GateLink<R>> {
    let first = round_of(&rt, alloc, trial.partitions);
    let second = round_of(&rt, alloc, trial.spares);
    let mut gates = Vec::new(alloc);
    for (place, link) in links.into_iter().enumerate() {
        let place = place as u64;
        let gate = if place < trial.partitions {
            gate_link(rt, link, &first, place < trial.failing)
        } else {
            gate_link(rt, link, &second, false)
        };
        gates.push(gate).expect(&rt, "memory");
    }
    gates
}

// How many rows are gathered over such links, and how many pieces are missing.
fn gathered_text<R: Handle + Clock>(
    rt: R,
    alloc: Global,
    inventory: &Inventory,
    links: &mut [GateLink<R>],
) -> String {
    let answer = gathered(rt, alloc, inventory, &count(&rt, alloc), 0, links);
    let missing = answer.missing().len();
    let group = answer.partial().groups().first().expect(&rt, "a group");
    let rows = group.numbers().first().expect(&rt, "a number").unwrap_or(0);
    format!(in alloc; "{rows} rows, {missing} missing").expect(&rt, "memory")
}

// What a broker answers over such links.
fn served_text<R: Handle + Clock, J: Publication>(
    rt: R,
    alloc: Global,
    view: &mut View<J>,
    links: &mut [GateLink<R>],
) -> String {
    if !reaches(view, links.len()) {
        panic!(rt; "fewer links than nodes");
    }
    let query = query(&rt, alloc, COUNT);
    let message = message_of(&rt, alloc, query.as_str());
    let mut written = Vec::new(alloc);
    try_linked(rt, alloc, view, links, 0, message.as_bytes(), &mut written).expect(
        &rt,
        "an answer",
    );
    reported_response(&rt, alloc, &written)
}

// The links of a trial over these parts, and what follows the nodes.
fn gated<R: Handle + Clock, J: Publication>(
    rt: R,
    alloc: Global,
    setup: Setup<R>,
    trial: Trial,
) -> (Publisher<J, R>, View<J>, Vec<GateLink<R>>)
    requires book { setup.list ≡ J.book }
    requires opening { setup.inventory ≡ J.opening }
{
    let cluster: Cluster<R, J> = followed(rt, alloc, setup, 64);
    let Cluster {
        publisher,
        view,
        links,
        ..
    } = cluster;
    (publisher, view, gate_links(rt, alloc, links, trial))
}

fn gathered_over<R: Handle + Clock, J: Publication>(
    rt: R,
    alloc: Global,
    setup: Setup<R>,
    trial: Trial,
) -> String
    requires book { setup.list ≡ J.book }
    requires opening { setup.inventory ≡ J.opening }
{
    let (publisher, _view, mut links) = gated::<R, J>(rt, alloc, setup, trial);
    gathered_text(rt, alloc, publisher.inventory(), &mut links)
}

fn served_over<R: Handle + Clock, J: Publication>(
    rt: R,
    alloc: Global,
    setup: Setup<R>,
    trial: Trial,
) -> String
    requires book { setup.list ≡ J.book }
    requires opening { setup.inventory ≡ J.opening }
{
    // Views read as long as the publisher is there.
    let (publisher, mut view, mut links) = gated::<R, J>(rt, alloc, setup, trial);
    let served = served_text(rt, alloc, &mut view, &mut links);
    drop(publisher);
    served
}

// How many rows are given, and how many pieces are missing.
fn wanted_counts(rt: &impl Abort, alloc: Global, trial: Trial) -> String {
    let missing = trial.failing.saturating_sub(trial.spares);
    let rows = trial.partitions.saturating_sub(missing);
    format!(in alloc; "{rows} rows, {missing} missing").expect(rt, "memory")
}

// The pieces that are missing, as an answer lists them.
fn missing_text(rt: &impl Abort, alloc: Global, trial: Trial) -> String {
    let mut text = String::new(alloc);
    for part in trial.spares..trial.failing {
        let between = if text.as_str().is_empty() { "" } else { "," };
        write!(
            text,
            "{between}{{\"chunk\":\"{DAY}\",\"itvl\":\"{DAY}\",\"part\":{part},\"ver\":\"v1\"}}"
        )
        .expect(rt, "memory");
    }
    text
}

fn wanted_answer(rt: &impl Abort, alloc: Global, trial: Trial) -> String {
    let missing = trial.failing.saturating_sub(trial.spares);
    let rows = trial.partitions.saturating_sub(missing);
    let row = format!(in alloc; "[{{\"result\":{{\"n\":{rows}}},\"timestamp\":\"{BUCKET}\"}}]");
    let row = row.expect(rt, "memory");
    if missing == 0 {
        return format!(in alloc; "200 {row}").expect(rt, "memory");
    }
    let missing = missing_text(rt, alloc, trial);
    let text = format!(in alloc;
        "503 {{\"error\":\"SegmentsMissing\",\"missing\":[{missing}],\"partial\":{row}}}"
    );
    text.expect(rt, "memory")
}

fn trial_of(numbers: &(u64, u64, u64)) -> Trial {
    let (partitions, failing, spares) = *numbers;
    Trial {
        partitions,
        failing,
        spares,
    }
}

fn setup_of<R: Handle>(rt: R, alloc: Global, trial: Trial) -> Setup<R> {
    let nodes = nodes_of(&rt, alloc, trial);
    set_up(rt, alloc, nodes.as_str())
}

fn assert_gathered<R: Handle + Clock>(rt: R, alloc: Global, trial: Trial) {
    let setup = setup_of(rt, alloc, trial);
    let wanted = wanted_counts(&rt, alloc, trial);
    let gathered = gathered_over::<R, Brand>(rt, alloc, setup, trial);
    assert_reported(&rt, wanted.as_str(), gathered, wanted.as_str());
}

fn assert_served<R: Handle + Clock>(rt: R, alloc: Global, trial: Trial) {
    let setup = setup_of(rt, alloc, trial);
    let wanted = wanted_answer(&rt, alloc, trial);
    let served = served_over::<R, Brand>(rt, alloc, setup, trial);
    assert_reported(&rt, wanted.as_str(), served, wanted.as_str());
}

#[test]
fn gate_gather(rt: HostRuntime) {
    for numbers in &TRIALS {
        assert_gathered(&rt, rt.alloc(), trial_of(numbers));
    }
}

#[test]
fn gate_serve_one(rt: HostRuntime) {
    for numbers in &TRIALS {
        assert_served(&rt, rt.alloc(), trial_of(numbers));
    }
}
