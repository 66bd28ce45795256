use crate::rows::{change, mark_reported, parsed, push_partition, push_partitions};
use crate::tables::{assert_printed, assert_reported, assert_rows, owned, printed};
use druid_segment_descriptor::{Ask, Body, Cause, Change, Descriptor, Mark, Reply};
use druid_sync_history::{History, HistoryFault};
use std::alloc::Global;
use std::fmt::Write;
use std::process::Abort;

// Five changes: a partition is loaded or dropped.
const CHANGES: &str = "+0 +1 -0 +3 +2";

// An incarnation and a count, and the answer of a node of incarnation 1 that keeps two of these changes.
const ANSWERS: &str = "1 3 = delta 1 3 1 5 +3 +2
1 4 = delta 1 4 1 5 +2
1 5 = delta 1 5 1 5
1 2 = reset 1 5 TooOld
1 0 = reset 1 5 TooOld
1 6 = reset 1 5 Ahead
2 5 = reset 1 5 OtherIncarnation
2 9 = reset 1 5 OtherIncarnation";

// A change after these, and the fault, or the set after it.
const RECORDED: &str = "+1 = H1: served already
-0 = H2: not served
-9 = H2: not served
+0 = set 0 1 2 3
-1 = set 2 3";

// A node of incarnation 1 that keeps two changes.
fn five_changes(rt: &impl Abort, alloc: Global) -> History {
    let mut history = History::new(alloc, 1, 2).expect(rt, "memory");
    for text in CHANGES.split(' ') {
        history
            .record(change(rt, alloc, text))
            .expect(rt, "a refused change");
    }
    history
}

fn push_changes(rt: &impl Abort, reported: &mut String, changes: &[Change]) {
    for change in changes {
        match change {
            Change::Load(segment) => push_partition(rt, reported, " +", segment),
            Change::Drop(segment) => push_partition(rt, reported, " -", segment),
        }
    }
}

fn delta_reported(
    rt: &impl Abort,
    alloc: Global,
    from: Mark,
    to: Mark,
    changes: &[Change],
) -> String {
    let mut reported = kind_reported(rt, alloc, "delta", from);
    write!(reported, " {} {}", to.incarnation(), to.count()).expect(rt, "memory");
    push_changes(rt, &mut reported, changes);
    reported
}

fn snapshot_reported(rt: &impl Abort, alloc: Global, at: Mark, segments: &[Descriptor]) -> String {
    let mut reported = kind_reported(rt, alloc, "snapshot", at);
    push_partitions(rt, &mut reported, segments);
    reported
}

fn reset_reported(rt: &impl Abort, alloc: Global, cause: Cause, at: Mark) -> String {
    let mut reported = kind_reported(rt, alloc, "reset", at);
    write!(reported, " {cause:?}").expect(rt, "memory");
    reported
}

// A kind of reply and a mark.
fn kind_reported(rt: &impl Abort, alloc: Global, kind: &str, mark: Mark) -> String {
    let mark = mark_reported(rt, alloc, mark);
    format!(in alloc; "{kind} {mark}").expect(rt, "memory")
}

fn reply_reported(rt: &impl Abort, alloc: Global, reply: &Reply) -> String {
    match reply.body() {
        Body::Delta { from, to, changes } => {
            delta_reported(rt, alloc, *from, *to, changes.as_slice())
        }
        Body::Snapshot { at, segments } => snapshot_reported(rt, alloc, *at, segments.as_slice()),
        Body::Page { at, .. } => kind_reported(rt, alloc, "page", *at),
        Body::Reset { cause, at } => reset_reported(rt, alloc, *cause, *at),
    }
}

// What the node answers to an ask.
fn answered(rt: &impl Abort, alloc: Global, ask: &Ask) -> String {
    let reply = five_changes(rt, alloc).since(ask).expect(rt, "memory");
    reply_reported(rt, alloc, &reply)
}

fn answer_since(rt: &impl Abort, alloc: Global, mark: &str) -> String {
    let (incarnation, count) = mark.split_once(' ').expect(rt, "no mark");
    let mark = Mark::new(parsed(rt, incarnation), parsed(rt, count));
    answered(rt, alloc, &Ask::Since(mark))
}

// The set that the node has.
fn set_reported(rt: &impl Abort, alloc: Global, history: &History) -> String {
    let set = history.set().expect(rt, "memory");
    let mut reported = owned(rt, alloc, "set");
    push_partitions(rt, &mut reported, set.as_slice());
    reported
}

// The set after the five changes and one more, or why that one is refused.
fn set_after(rt: &impl Abort, alloc: Global, text: &str) -> String {
    let mut history = five_changes(rt, alloc);
    match history.record(change(rt, alloc, text)) {
        Ok(()) => set_reported(rt, alloc, &history),
        Err(fault) => printed(rt, alloc, &fault),
    }
}

#[test]
fn changes_that_are_recorded(rt: HostRuntime) {
    let reported = answered(&rt, rt.alloc(), &Ask::Whole);
    assert_reported(&rt, "the whole", reported, "snapshot 1 5 1 2 3");
    let mark = five_changes(&rt, rt.alloc()).mark();
    assert!(rt; mark == Mark::new(1, 5));
    assert_rows(&rt, rt.alloc(), RECORDED, set_after);
}

#[test]
fn history_answers(rt: HostRuntime) {
    assert_rows(&rt, rt.alloc(), ANSWERS, answer_since);
}

#[test]
fn texts_of_faults(rt: HostRuntime) {
    let rows = [
        (HistoryFault::Full, "H3: too many segments"),
        (HistoryFault::CountAtEnd, "H4: too many changes"),
        (HistoryFault::Memory, "H9: out of memory"),
    ];
    assert_printed(&rt, rt.alloc(), &rows);
}
