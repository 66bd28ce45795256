//! Turns of a thread that shares a publisher: a turn that fails ends nothing, and as many are made as are asked for.
ghost use Rattle.std.specs.Prelude.{◌≡◌, ◌<◌, IsTrue, length};

use crate::cluster::Handle;
use crate::follow::{link, mark_text, one_node};
use crate::tables::{assert_reported, halves};
use druid_broker_follow::{Observe, TurnCount, Turned, follow_observed, follow_on_observed};
use druid_inventory::Inventory;
use druid_inventory_views::{Opened, Publication, Publisher, View, open};
use druid_link::MemoryLink;
use druid_segment_descriptor::NodeNo;
use std::alloc::Global;
use std::cell::Cell;
use std::marker::Brand;
use std::process::Abort;
use std::sync::Mutex;
use std::time::Clock;

// How many turns, and the replies of a node to them, as in `follow`; then how many turns were made, how many of them failed, and the
// mark that is then read. Where there are no more replies a turn fails.
const TURNS: &str =
    "0:200 {\"counter\":{\"counter\":3,\"hash\":1},\"from\":null,\"requests\":[@],\"resetCause\":null,\"resetCounter\":false} = 0 0 0 0
1:200 {\"counter\":{\"counter\":3,\"hash\":1},\"from\":null,\"requests\":[@],\"resetCause\":null,\"resetCounter\":false};200 {\"counter\":{\"counter\":3,\"hash\":1},\"from\":{\"counter\":3,\"hash\":1},\"requests\":[],\"resetCause\":null,\"resetCounter\":false} = 1 0 1 3
2:200 {\"counter\":{\"counter\":3,\"hash\":1},\"from\":null,\"requests\":[@],\"resetCause\":null,\"resetCounter\":false};200 {\"counter\":{\"counter\":3,\"hash\":1},\"from\":{\"counter\":3,\"hash\":1},\"requests\":[],\"resetCause\":null,\"resetCounter\":false} = 2 0 1 3
4:200 {\"counter\":{\"counter\":3,\"hash\":1},\"from\":null,\"requests\":[@],\"resetCause\":null,\"resetCounter\":false} = 4 3 1 3
3:404 {};200 [;200 {\"counter\":{\"counter\":3,\"hash\":1},\"from\":null,\"requests\":[@],\"resetCause\":null,\"resetCounter\":false} = 3 2 1 3
3:200 {\"counter\":{\"counter\":3,\"hash\":1},\"from\":null,\"requests\":[@],\"resetCause\":null,\"resetCounter\":false};200 {\"counter\":{\"counter\":8,\"hash\":1},\"from\":{\"counter\":7,\"hash\":1},\"requests\":[@],\"resetCause\":null,\"resetCounter\":false};200 {\"counter\":{\"counter\":9,\"hash\":2},\"from\":null,\"requests\":[],\"resetCause\":null,\"resetCounter\":false} = 3 1 2 9";

// What was seen of turns: how many, how many of them failed, and how many showed a mark below the one that was held.
#[derive(Clone, Copy, Drop)]
struct Seen {
    turns: u64,
    failed: u64,
    fell: u64,
}

impl Seen {
    fn new() -> Seen {
        Seen {
            turns: 0,
            failed: 0,
            fell: 0,
        }
    }
}

impl Observe for Seen {
    fn turn(&mut self, turned: &Turned) {
        self.turns = self.turns.saturating_add(1);
        if turned.outcome.is_err() {
            self.failed = self.failed.saturating_add(1);
        }
        if let Some(marks) = &turned.marks
            && marks.fell()
        {
            self.fell = self.fell.saturating_add(1);
        }
    }
}

/// Whether a view reads of a node.
#[tactic(auto, using(druid_inventory::proofs::JoinLemmas::fewer_names))]
pub(crate) fn has_node<J: Publication>(view: &mut View<J>, node: NodeNo) -> bool
    ensures { IsTrue result → node < length J.opening }
{
    let Ok(found) = view.read() else {
        return false;
    };
    if found.node_count() <= node {
        return false;
    }
    true
}

// Follows a node for so many turns, or without an end until as many were made.
fn followed_for<R: Handle + Clock, J: Publication>(
    rt: R,
    alloc: Global,
    turns: u64,
    endless: bool,
    view: &mut View<J>,
    link: &mut MemoryLink,
    publisher: &Mutex<Publisher<J, R>>,
    seen: &mut Seen,
) -> Option<TurnCount>
    requires { 0 < length J.opening }
{
    if !endless {
        return Some(follow_observed(&rt, alloc, 0, turns, view, link, publisher, seen));
    }
    let made = Cell::new(0_u64);
    let ends = || {
        let before = made.get();
        made.set(before.saturating_add(1));
        before >= turns
    };
    follow_on_observed(&rt, alloc, 0, 0, view, link, publisher, seen, ends);
    None
}

// What is made of so many turns, and the mark that a view reads then.
fn turned<R: Handle + Clock, J: Publication>(
    rt: R,
    alloc: Global,
    opened: Opened,
    inventory: Inventory,
    turns: u64,
    endless: bool,
    link: MemoryLink,
    seen: &mut Seen,
) -> String
    requires book { opened ≡ J.book }
    requires opening { inventory ≡ J.opening }
{
    let (publisher, mut views) = open::<J, R>(alloc, rt, opened, inventory, 1).expect(
        &rt, "memory",
    );
    let mut view = views.pop().expect(&rt, "a view");
    if !has_node(&mut view, 0) {
        panic!(rt; "no node");
    }
    let publisher = Mutex::new(publisher);
    let mut link = link;
    let count = followed_for(
        rt, alloc, turns, endless, &mut view, &mut link, &publisher, seen,
    );
    let found = view.read().ok().expect(&rt, "a reading");
    let mark = mark_text(&rt, alloc, &found, 0);
    let text = match count {
        Some(count) => format!(in alloc; "{} {} {mark}", count.made, count.failed),
        None => format!(in alloc; "{mark}"),
    };
    text.expect(&rt, "memory")
}

// What is made of the turns of a line.
fn reported<R: Handle + Clock>(
    rt: R,
    alloc: Global,
    line: &str,
    endless: bool,
    seen: &mut Seen,
) -> String {
    let (turns, replies) = halves(&rt, line, ":");
    let turns = turns.parse::<u64>().expect(&rt, "a number");
    let link = link(&rt, alloc, replies);
    let inventory = one_node(&rt, alloc);
    turned::<R, Brand>(
        rt,
        alloc,
        Opened::new(),
        inventory,
        turns,
        endless,
        link,
        seen,
    )
}

#[test]
fn turns_in_number(rt: HostRuntime) {
    for line in TURNS.lines() {
        let (given, wanted) = halves(&rt, line, " = ");
        let reported = reported(&rt, rt.alloc(), given, false, &mut Seen::new());
        assert_reported(&rt, line, reported, wanted);
    }
}

// The same marks, where only `ends` tells when to end.
#[test]
fn turns_without_an_end(rt: HostRuntime) {
    for line in TURNS.lines() {
        let (given, wanted) = halves(&rt, line, " = ");
        let reported = reported(&rt, rt.alloc(), given, true, &mut Seen::new());
        assert!(rt; wanted.ends_with(reported.as_str()), "{line}");
    }
}

// Turns, and then how many were seen, how many of them failed, and how many showed a mark below the one that was held: of a node
// that lost its folder and so begins again at its first incarnation, and of one that goes on.
const FALLS: &str =
    "2:200 {\"counter\":{\"counter\":3,\"hash\":5},\"from\":null,\"requests\":[@],\"resetCause\":null,\"resetCounter\":false};200 {\"counter\":{\"counter\":1,\"hash\":1},\"from\":null,\"requests\":[],\"resetCause\":\"OtherIncarnation\",\"resetCounter\":true};200 {\"counter\":{\"counter\":1,\"hash\":1},\"from\":null,\"requests\":[@],\"resetCause\":null,\"resetCounter\":false} = 2 0 1
2:200 {\"counter\":{\"counter\":3,\"hash\":1},\"from\":null,\"requests\":[@],\"resetCause\":null,\"resetCounter\":false};200 {\"counter\":{\"counter\":3,\"hash\":1},\"from\":{\"counter\":3,\"hash\":1},\"requests\":[],\"resetCause\":null,\"resetCounter\":false} = 2 0 0
3:404 {};200 {\"counter\":{\"counter\":3,\"hash\":1},\"from\":null,\"requests\":[@],\"resetCause\":null,\"resetCounter\":false} = 3 2 0";

#[test]
fn turns_that_are_seen(rt: HostRuntime) {
    for line in FALLS.lines() {
        let (given, wanted) = halves(&rt, line, " = ");
        let mut seen = Seen::new();
        let _ = reported(&rt, rt.alloc(), given, false, &mut seen);
        let Seen {
            turns,
            failed,
            fell,
        } = seen;
        let text = format!(in rt.alloc(); "{turns} {failed} {fell}").expect(&rt, "memory");
        assert_reported(&rt, line, text, wanted);
    }
}
