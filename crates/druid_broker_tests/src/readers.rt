//! Views that read while two threads publish.
ghost use Rattle.std.specs.Prelude.{◌≡◌};

use crate::follow::one_node;
use crate::tables::assert_holds;
use druid_inventory::Inventory;
use druid_inventory_views::{Opened, Publication, Publisher, Receipt, View, open};
use druid_segment_descriptor::{Mark, Reply};
use std::alloc::Global;
use std::marker::Brand;
use std::process::Abort;
use std::sync::{Arc, Mutex, Wait};
use std::thread::{Threads, spawn};

// How many snapshots each of two threads publishes, at marks whose counts are odd, or even from 2 on.
const WRITES: u64 = 60;

// The count of the last mark.
const LAST: u64 = 120;

// How often a thread reads at most, until it reads the last mark.
const MOST_READS: u64 = 1_000_000_000;

/// The mark of the first node that a view reads.
pub(crate) fn mark_read<J: Publication>(view: &mut View<J>) -> Option<Mark> {
    view.read().ok()?.mark(0)
}

// Whether each read finds a mark, none falls, and the last mark is read in the end.
fn follows<J: Publication>(view: &mut View<J>) -> bool {
    let mut last = Mark::never();
    for _turn in 0..MOST_READS {
        match mark_read(view) {
            Some(mark) if mark.count() == LAST => return true,
            Some(mark) if mark >= last => last = mark,
            _ => return false,
        }
    }
    false
}

// Publishes a snapshot without segments at a mark.
fn published<R: Wait + Abort + Drop, J: Publication>(
    rt: &R,
    alloc: Global,
    publisher: &Mutex<Publisher<J, R>>,
    count: u64,
) -> Receipt<J> {
    let reply = Reply::snapshot(Mark::new(1, count), Vec::new(alloc)).expect(rt, "a snapshot");
    let mut publisher = publisher.lock(rt);
    let (_, receipt) = publisher.publish(0, &reply).expect(rt, "a receipt");
    receipt
}

// Whether a view reads back each mark that is published and whose receipt it learns: every other one from the first on.
fn reads_back<R: Wait + Abort + Drop, J: Publication>(
    rt: &R,
    alloc: Global,
    publisher: &Mutex<Publisher<J, R>>,
    view: &mut View<J>,
    first: u64,
) -> bool {
    for turn in 0..WRITES {
        let count = first.wrapping_add(turn).wrapping_add(turn);
        let receipt = published(rt, alloc, publisher, count);
        view.learn(&receipt);
        match mark_read(view) {
            Some(mark) if mark.count() >= count => {}
            _ => return false,
        }
    }
    true
}

// Whether two views that learn no receipt follow two others that publish, each in a thread of its own.
fn read_in_threads<
    R: Wait + Abort + Drop + Copy + Threads + Send + Sync + 'static,
    J: Publication + Send + Sync + 'static,
>(rt: &R, alloc: Global, opened: Opened, inventory: Inventory) -> bool
    requires book { opened ≡ J.book }
    requires opening { inventory ≡ J.opening }
{
    let (publisher, mut views) = open::<J, R>(alloc, *rt, opened, inventory, 4).expect(
        rt, "memory",
    );
    let publisher = Arc::new(alloc, Mutex::new(publisher))
        .ok()
        .expect(rt, "memory");
    let other = Arc::try_clone(&publisher).ok().expect(rt, "memory");
    let mut first = views.pop().expect(rt, "a view");
    let mut second = views.pop().expect(rt, "a view");
    let mut odd = views.pop().expect(rt, "a view");
    let mut even = views.pop().expect(rt, "a view");
    let handle = *rt;
    let one = spawn(rt, move || follows(&mut first))
        .ok()
        .expect(rt, "a thread");
    let two = spawn(rt, move || follows(&mut second))
        .ok()
        .expect(rt, "a thread");
    let writes = move || reads_back(&handle, alloc, &other, &mut odd, 1);
    let three = spawn(rt, writes).ok().expect(rt, "a thread");
    let even = reads_back(rt, alloc, &publisher, &mut even, 2);
    let (one, two, odd) = (one.join(rt), two.join(rt), three.join(rt));
    one && two && odd && even
}

fn reads_of<R: Wait + Abort + Drop + Copy + Threads + Send + Sync + 'static>(
    rt: &R,
    alloc: Global,
) -> bool {
    let opened = Opened::new();
    let inventory = one_node(rt, alloc);
    read_in_threads::<R, Brand>(rt, alloc, opened, inventory)
}

#[test]
fn in_threads(rt: HostRuntime) {
    assert_holds(&rt, "views in threads", reads_of(&rt, rt.alloc()));
}
