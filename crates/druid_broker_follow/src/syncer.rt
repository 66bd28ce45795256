//! A thread that follows a node, turn after turn. Of a loop that nothing leaves every `ensures`
//! holds, and so says nothing: with `ends`, `follow_on` says that it returned because that was
//! true, and a caller whose `ends` never is goes on for ever.
ghost use Rattle.std.specs.Prelude.{◌≡◌, ◌<◌, ◌≤◌, ◌+◌, ◌-◌, ◌^◌, true, List, length};
ghost use Rattle.std.specs.Result.{is_err};
ghost use mathlib.Core.List.{IsPrefix};
ghost use Rattle.druid_broker_follow.specs.Turns.{Turn, IsSharedTurn, MakesTurns, count_of, failures_after};
ghost use Rattle.druid_broker_follow.specs.Rests.{next_rest};

use crate::TurnFault;
use crate::observer::{Observe, Unobserved};
use crate::rest::next_rest;
use crate::shared::observed_turn;
use crate::turn_count::TurnCount;
use druid_inventory::Outcome;
use druid_inventory_views::{Publication, Publisher, View};
use druid_link::Link;
use druid_segment_descriptor::NodeNo;
use std::alloc::Global;
use std::sync::{Mutex, Wait};
use std::thread;
use std::time::{Clock, Duration};

// One more, where a turn failed.
fn failures_after(turn: &Result<Outcome, TurnFault>, failed: u64) -> u64
    requires { failed < 2 ^ 64 - 1 }
    ensures count { result ≡ failures_after turn.now failed }
    ensures few { result ≤ failed + 1 }
{
    match turn {
        Ok(_) => failed,
        Err(_) => failed + 1,
    }
}

/// Follows a node: makes so many turns, one after another, and gives how many it made and how many of them failed. One that fails
/// leaves what is published as it was, and the next asks again. The observer sees each.
pub fn follow_observed<W: Wait, J: Publication, R: Wait + Drop, L: Link, O: Observe>(
    rt: &W,
    alloc: Global,
    node: NodeNo,
    turns: u64,
    view: &mut View<J>,
    link: &mut L,
    publisher: &Mutex<Publisher<J, R>>,
    observer: &mut O,
) -> TurnCount
    requires { node < length J.opening }
    ensures turns { (gave : List Turn) × MakesTurns L.exchanges J.opening node gave view.old view.new link.old link.new
        × (length gave ≡ turns) × (result ≡ count_of gave) }
    ensures view { IsPrefix view.old view.new }
{
    let mut failed = 0;
    for _turn in 0..turns {
        let turn = observed_turn(rt, alloc, node, view, link, publisher, observer);
        failed = failures_after(&turn, failed);
    }
    TurnCount {
        made: turns,
        failed,
    }
}

/// Follows a node: makes so many turns, one after another, and gives how many it made and how many of them failed. One that fails
/// leaves what is published as it was, and the next asks again.
pub fn follow<W: Wait, J: Publication, R: Wait + Drop, L: Link>(
    rt: &W,
    alloc: Global,
    node: NodeNo,
    turns: u64,
    view: &mut View<J>,
    link: &mut L,
    publisher: &Mutex<Publisher<J, R>>,
) -> TurnCount
    requires { node < length J.opening }
    ensures turns { (gave : List Turn) × MakesTurns L.exchanges J.opening node gave view.old view.new link.old link.new
        × (length gave ≡ turns) × (result ≡ count_of gave) }
    ensures view { IsPrefix view.old view.new }
{
    follow_observed(
        rt,
        alloc,
        node,
        turns,
        view,
        link,
        publisher,
        &mut Unobserved,
    )
}

// A rest of so many milliseconds and a turn: how long the next rest is.
fn turn_after<W: Wait + Clock, J: Publication, R: Wait + Drop, L: Link, O: Observe>(
    rt: &W,
    alloc: Global,
    node: NodeNo,
    every: u64,
    rest: u64,
    view: &mut View<J>,
    link: &mut L,
    publisher: &Mutex<Publisher<J, R>>,
    observer: &mut O,
) -> u64
    requires { node < length J.opening }
    ensures { (turn : Turn) × IsSharedTurn L.exchanges J.opening node view.old view.new link.old link.new turn
        × (result ≡ next_rest rest every (is_err turn)) }
{
    thread::sleep(rt, Duration::from_millis(rest));
    let turn = observed_turn(rt, alloc, node, view, link, publisher, observer);
    next_rest(rest, every, turn.is_err())
}

/// Follows a node for ever, or until `ends` says so: that is asked first, and after it come a rest of `every` milliseconds and a turn,
/// again and again. After a turn that failed the rests grow, as `next_rest` says. One that fails leaves what is published as it was. The
/// observer sees each turn.
pub fn follow_on_observed<
    W: Wait + Clock,
    J: Publication,
    R: Wait + Drop,
    L: Link,
    O: Observe,
    F: Fn() -> bool,
>(
    rt: &W,
    alloc: Global,
    node: NodeNo,
    every: u64,
    view: &mut View<J>,
    link: &mut L,
    publisher: &Mutex<Publisher<J, R>>,
    observer: &mut O,
    ends: F,
)
    requires node { node < length J.opening }
    requires ends { F.IsAlwaysCallable ends }
    ensures ended { F.post ends true }
    ensures turns { (gave : List Turn) × MakesTurns L.exchanges J.opening node gave view.old view.new link.old link.new }
    ensures view { IsPrefix view.old view.new }
{
    let mut rest = every;
    for _ in rt.forever() {
        if ends() {
            return;
        }
        rest = turn_after(
            rt, alloc, node, every, rest, view, link, publisher, observer,
        );
    }
    unreachable!()
}

/// Follows a node for ever, or until `ends` says so: that is asked first, and after it come a rest of `every` milliseconds and a turn,
/// again and again. After a turn that failed the rests grow, as `next_rest` says. One that fails leaves what is published as it was.
pub fn follow_on<W: Wait + Clock, J: Publication, R: Wait + Drop, L: Link, F: Fn() -> bool>(
    rt: &W,
    alloc: Global,
    node: NodeNo,
    every: u64,
    view: &mut View<J>,
    link: &mut L,
    publisher: &Mutex<Publisher<J, R>>,
    ends: F,
)
    requires node { node < length J.opening }
    requires ends { F.IsAlwaysCallable ends }
    ensures ended { F.post ends true }
    ensures turns { (gave : List Turn) × MakesTurns L.exchanges J.opening node gave view.old view.new link.old link.new }
    ensures view { IsPrefix view.old view.new }
{
    follow_on_observed(
        rt,
        alloc,
        node,
        every,
        view,
        link,
        publisher,
        &mut Unobserved,
        ends,
    )
}
