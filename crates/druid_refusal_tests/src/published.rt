//! What is published, and what views read of it.
ghost use Rattle.std.specs.Prelude.{◌≡◌};

use crate::marks::{assert_call, begin, end};
use crate::replies::{inventory, is_at, snapshot};
use druid_inventory::{Inventory, Outcome};
use druid_inventory_views::{Opened, Publication, PublishFault, Publisher, View, open};
use druid_segment_descriptor::Reply;
use std::alloc::Global;
use std::marker::Brand;
use std::process::Abort;
use std::sync::Wait;

// Publishes a reply that moves the node to a count, from the one before it.
fn publish<R: Abort + Wait + Drop, J: Publication>(
    rt: &R,
    alloc: Global,
    publisher: &mut Publisher<J, R>,
    view: &mut View<J>,
    reply: &Reply,
    count: u64,
) {
    begin(rt, alloc);
    let reported = end(rt, alloc, publisher.publish(0, reply));
    let holds = match &reported {
        Ok((outcome, _)) => *outcome == Outcome::Moved && is_at(publisher.inventory(), count),
        Err(fault) => *fault == PublishFault::Memory
            && is_at(publisher.inventory(), count.saturating_sub(1)),
    };
    assert_call(rt, "Publisher::publish", holds);
    let receipt = match reported {
        Ok((_, receipt)) => receipt,
        Err(_) => publisher.publish(0, reply).expect(rt, "a receipt").1,
    };
    view.learn(&receipt);
}

// Shows what is published, where it is not shown.
fn show_again<R: Abort + Wait + Drop, J: Publication>(
    rt: &R,
    alloc: Global,
    publisher: &mut Publisher<J, R>,
) {
    begin(rt, alloc);
    let shown = end(rt, alloc, publisher.show_again());
    assert_call(
        rt,
        "Publisher::show_again",
        match shown {
            Ok(()) => true,
            Err(fault) => fault == PublishFault::Memory,
        },
    );
}

fn read<J: Publication>(rt: &impl Abort, alloc: Global, view: &mut View<J>, count: u64) {
    begin(rt, alloc);
    let found = end(rt, alloc, view.read());
    assert_call(
        rt,
        "View::read",
        match &found {
            Ok(found) => is_at(found, count),
            Err(fault) => *fault == PublishFault::Memory,
        },
    );
    assert_call(
        rt,
        "then View::read",
        match &view.read() {
            Ok(found) => is_at(found, count),
            Err(_) => false,
        },
    );
}

fn open_and_publish<R: Abort + Wait + Drop + Copy, J: Publication>(
    rt: &R,
    alloc: Global,
    list: Opened,
    inventory: Inventory,
)
    requires book { list ≡ J.book }
    requires opening { inventory ≡ J.opening }
{
    begin(rt, alloc);
    let made = end(rt, alloc, open::<J, R>(alloc, *rt, list, inventory, 2));
    match made {
        Ok((mut publisher, mut views)) => {
            let mut view = views.pop().expect(rt, "a view");
            publish(
                rt,
                alloc,
                &mut publisher,
                &mut view,
                &snapshot(rt, alloc, "v1", 1),
                1,
            );
            read(rt, alloc, &mut view, 1);
            publish(
                rt,
                alloc,
                &mut publisher,
                &mut view,
                &snapshot(rt, alloc, "v2", 2),
                2,
            );
            show_again(rt, alloc, &mut publisher);
            read(rt, alloc, &mut view, 2);
        }
        Err(fault) => assert_call(rt, "inventory_views::open", fault == PublishFault::Memory),
    }
}

fn of_open<R: Abort + Wait + Drop + Copy>(rt: &R, alloc: Global) {
    let inventory = inventory(rt, alloc);
    open_and_publish::<R, Brand>(rt, alloc, Opened::new(), inventory);
}

#[test]
fn of_views(rt: HostRuntime) {
    of_open(&rt, rt.alloc());
}
