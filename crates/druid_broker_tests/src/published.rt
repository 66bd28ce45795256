//! What views read of what is published.
ghost use Rattle.std.specs.Prelude.{◌≡◌, ◌≤◌};

use crate::follow::{link, mark_text, one_node};
use crate::tables::{assert_reported, printed};
use druid_broker_follow::fetch;
use druid_inventory::Inventory;
use druid_inventory_views::{Opened, Publication, Publisher, View, open};
use druid_segment_descriptor::Reply;
use std::alloc::Global;
use std::marker::Brand;
use std::process::Abort;
use std::sync::Wait;

/// A snapshot with one segment at (1, 3).
pub(crate) const SNAPSHOT: &str =
    "200 {\"counter\":{\"counter\":3,\"hash\":1},\"from\":null,\"requests\":[@],\"resetCause\":null,\"resetCounter\":false}";

// A delta after it, which drops the segment.
const DELTA: &str =
    "200 {\"counter\":{\"counter\":4,\"hash\":1},\"from\":{\"counter\":3,\"hash\":1},\"requests\":[{\"action\":\"drop\",\"dataSource\":\"w\",\"interval\":\"2024-01-01/2024-01-02\",\"shardSpec\":{\"partitionNum\":0,\"partitions\":1,\"type\":\"numbered\"},\"size\":0,\"version\":\"v1\"}],\"resetCause\":null,\"resetCounter\":false}";

// A delta that fits nowhere.
const GAP: &str =
    "200 {\"counter\":{\"counter\":8,\"hash\":1},\"from\":{\"counter\":7,\"hash\":1},\"requests\":[@],\"resetCause\":null,\"resetCounter\":false}";

fn reply<R: Wait + Abort + Drop, J: Publication>(
    rt: &R,
    alloc: Global,
    publisher: &Publisher<J, R>,
    text: &str,
) -> Reply {
    let mut link = link(rt, alloc, text);
    if publisher.inventory().node_count() == 0 {
        panic!(rt; "no node");
    }
    fetch(alloc, publisher.inventory(), 0, &mut link).expect(rt, "a reply")
}

// The mark of the first node that a view reads, and how many segments it serves: `1 3: 1`.
fn read<J: Publication>(rt: &impl Abort, alloc: Global, view: &mut View<J>) -> String {
    let found = match view.read() {
        Ok(found) => found,
        Err(fault) => return printed(rt, alloc, &fault),
    };
    let mark = mark_text(rt, alloc, &found, 0);
    let segments = found.segments(0).expect(rt, "a node").len();
    format!(in alloc; "{mark}: {segments}").expect(rt, "memory")
}

// What is reported of a reply that is not published.
fn refused<R: Wait + Abort + Drop, J: Publication>(
    rt: &R,
    alloc: Global,
    publisher: &mut Publisher<J, R>,
    text: &str,
) -> String {
    let reply = reply(rt, alloc, publisher, text);
    match publisher.publish(0, &reply) {
        Ok(_) => printed(rt, alloc, &"published"),
        Err(fault) => printed(rt, alloc, &fault),
    }
}

// Publishes a reply, and tells the view of its receipt.
fn publish_to<R: Wait + Abort + Drop, J: Publication>(
    rt: &R,
    alloc: Global,
    publisher: &mut Publisher<J, R>,
    view: &mut View<J>,
    text: &str,
) {
    let reply = reply(rt, alloc, publisher, text);
    let (_, receipt) = publisher.publish(0, &reply).expect(rt, "a receipt");
    view.learn(&receipt);
}

// What both views read.
fn both<J: Publication>(
    rt: &impl Abort,
    alloc: Global,
    reported: &mut View<J>,
    unreported: &mut View<J>,
) -> String {
    let first = read(rt, alloc, reported);
    let other = read(rt, alloc, unreported);
    format!(in alloc; "{first} {other}").expect(rt, "memory")
}

// What the views read before anything is published, once a snapshot is, once a delta is, once it is again, which moves nothing,
// once a reply was refused, and once the publisher is gone. The receipts are given to the first of them alone.
fn views_read<R: Wait + Abort + Drop, J: Publication>(
    rt: &R,
    alloc: Global,
    publisher: Publisher<J, R>,
    reported: &mut View<J>,
    unreported: &mut View<J>,
) -> String {
    let mut publisher = publisher;
    let before = both(rt, alloc, reported, unreported);
    publish_to(rt, alloc, &mut publisher, reported, SNAPSHOT);
    let snapshot = both(rt, alloc, reported, unreported);
    publish_to(rt, alloc, &mut publisher, reported, DELTA);
    let delta = both(rt, alloc, reported, unreported);
    publish_to(rt, alloc, &mut publisher, reported, DELTA);
    let again = both(rt, alloc, reported, unreported);
    let refused = refused(rt, alloc, &mut publisher, GAP);
    let after = both(rt, alloc, reported, unreported);
    drop(publisher);
    let gone = both(rt, alloc, reported, unreported);
    format!(in alloc; "{before}, {snapshot}, {delta}, {again}, {refused}, {after}, {gone}").expect(
        rt, "memory",
    )
}

// The same of the two views of a new publisher.
fn both_read<R: Wait + Abort + Drop + Copy, J: Publication>(
    rt: &R,
    alloc: Global,
    opened: Opened,
    inventory: Inventory,
) -> String
    requires book { opened ≡ J.book }
    requires opening { inventory ≡ J.opening }
{
    let (publisher, mut views) = open::<J, R>(alloc, *rt, opened, inventory, 2).expect(
        rt, "memory",
    );
    let mut reported = views.pop().expect(rt, "a view");
    let mut unreported = views.pop().expect(rt, "a view");
    views_read(rt, alloc, publisher, &mut reported, &mut unreported)
}

fn read_of<R: Wait + Abort + Drop + Copy>(rt: &R, alloc: Global) -> String {
    let opened = Opened::new();
    let inventory = one_node(rt, alloc);
    both_read::<R, Brand>(rt, alloc, opened, inventory)
}

// Whether each of so many views of a new publisher reads a snapshot that was published, and then as many deltas.
fn all_read<R: Wait + Abort + Drop + Copy, J: Publication>(
    rt: &R,
    alloc: Global,
    opened: Opened,
    inventory: Inventory,
    places: u16,
) -> bool
    requires book { opened ≡ J.book }
    requires opening { inventory ≡ J.opening }
    requires some { 1 ≤ places }
    requires few { places ≤ 80 }
{
    let (publisher, mut views) = open::<J, R>(alloc, *rt, opened, inventory, places).expect(
        rt, "memory",
    );
    let mut publisher = publisher;
    for text in [SNAPSHOT, DELTA] {
        let reply = reply(rt, alloc, &publisher, text);
        publisher.publish(0, &reply).expect(rt, "a receipt");
        for view in &mut views {
            let reported = read(rt, alloc, view);
            if reported.as_str() != wanted(text) {
                return false;
            }
        }
    }
    true
}

// What is read after a reply.
fn wanted(text: &str) -> &'static str {
    if text == SNAPSHOT { "1 3: 1" } else { "1 4: 0" }
}

// The same of a number of views from 1 to 80.
fn are_read<R: Wait + Abort + Drop + Copy>(rt: &R, alloc: Global, places: u16) -> bool {
    let opened = Opened::new();
    let inventory = one_node(rt, alloc);
    all_read::<R, Brand>(rt, alloc, opened, inventory, places.clamp(1, 80))
}

#[test]
fn sizes_of_publications(rt: HostRuntime) {
    for places in [1_u16, 2, 3, 5, 17, 65, 80] {
        assert!(rt; are_read(&rt, rt.alloc(), places), "{places} views");
    }
}

#[test]
fn two_views(rt: HostRuntime) {
    let read = read_of(&rt, rt.alloc());
    assert_reported(
        &rt,
        "two views",
        read,
        "0 0: 0 0 0: 0, 1 3: 1 1 3: 1, 1 4: 0 1 4: 0, 1 4: 0 1 4: 0, B1: A2: a gap, 1 4: 0 1 4: 0, B3: no reading B3: no reading",
    );
}
