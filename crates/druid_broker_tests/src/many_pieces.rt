//! Plans of many pieces, and what is gathered of them.
use crate::cluster::{Handle, inventory};
use crate::follow::link;
use crate::scatter::{count, gathered, piece_text};
use druid_broker_scatter::{Answer, plan};
use druid_inventory::Inventory;
use druid_segment_descriptor::{Descriptor, Mark, Reply};
use druid_segment_id::{Name, SegmentId, Version};
use druid_time::Interval;
use std::alloc::Global;
use std::process::Abort;

// The descriptor of a partition of the day, whose chunk is whole with any of them.
fn partition(rt: &impl Abort, alloc: Global, number: u16) -> Descriptor {
    let source = Name::new(alloc, "w").expect(rt, "a name");
    let day = Interval::parse("2024-01-01/2024-01-02").expect(rt, "a day");
    let version = Version::new(alloc, "v1").expect(rt, "a version");
    let id = SegmentId::new(source, day, version, number);
    Descriptor::new(id, 0, 0).expect(rt, "a descriptor")
}

/// What a node tells that serves so many partitions.
pub(crate) fn reply_of(rt: &impl Abort, alloc: Global, partitions: u16) -> Reply {
    let mut segments = Vec::new(alloc);
    for number in 0..partitions {
        segments
            .push(partition(rt, alloc, number))
            .expect(rt, "memory");
    }
    let at = Mark::new(1, u64::from(partitions));
    Reply::snapshot(at, segments).expect(rt, "a reply")
}

// An inventory of a node that serves so many partitions.
fn serving(rt: &impl Abort, alloc: Global, partitions: u16) -> Inventory {
    let reply = reply_of(rt, alloc, partitions);
    let (new, _) = inventory(rt, alloc, 1)
        .apply(0, &reply)
        .expect(rt, "a step");
    new
}

// The piece of a partition, as `piece_text` has it: the identifier of partition 0 has no number.
fn wanted_piece(rt: &impl Abort, alloc: Global, number: usize) -> String {
    let id = "w_2024-01-01T00:00:00.000Z_2024-01-02T00:00:00.000Z_v1";
    let piece = "2024-01-01T06:00:00.000Z/2024-01-01T12:00:00.000Z";
    match number {
        0 => format!(in alloc; "{id} {piece}").expect(rt, "memory"),
        _ => format!(in alloc; "{id}_{number} {piece}").expect(rt, "memory"),
    }
}

// Asserts that a plan has the piece of each partition, in order, on the only node.
fn assert_planned(rt: &impl Abort, alloc: Global, inventory: &Inventory, partitions: u16) {
    let plan = plan(alloc, inventory, &count(rt, alloc)).expect(rt, "a plan");
    assert!(rt;
        plan.pairs().len() == usize::from(partitions),
        "{partitions}"
    );
    for (number, pair) in plan.pairs().iter().enumerate() {
        let reported = piece_text(rt, alloc, pair.asked());
        let wanted = wanted_piece(rt, alloc, number);
        assert!(rt;
            reported == wanted && pair.nodes() == [0].as_slice(),
            "{reported}"
        );
    }
}

// Asserts that the piece of each partition is missing, in order.
fn assert_missing(rt: &impl Abort, alloc: Global, answer: &Answer, partitions: u16) {
    assert!(rt;
        answer.missing().len() == usize::from(partitions),
        "{partitions}"
    );
    for (number, piece) in answer.missing().iter().enumerate() {
        let reported = piece_text(rt, alloc, piece);
        assert!(rt; reported == wanted_piece(rt, alloc, number), "{reported}");
    }
}

// What is gathered where the only node answers so; nothing is a lost answer.
fn answer_of<R: Handle>(rt: R, alloc: Global, inventory: &Inventory, reported: &str) -> Answer {
    let mut links = vec![in alloc; link(&rt, alloc, reported)].expect(&rt, "memory");
    gathered(rt, alloc, inventory, &count(&rt, alloc), 1, &mut links)
}

const ANSWER: &str = "200 {\"missing\":[],\"rows\":[[1704088800000,[],[7]]]}";

// Asserts that so many partitions are planned, are all missing where their node is lost, and are else all given.
fn assert_partitions<R: Handle>(rt: R, alloc: Global, partitions: u16) {
    let inventory = serving(&rt, alloc, partitions);
    assert_planned(&rt, alloc, &inventory, partitions);
    let lost = answer_of(rt, alloc, &inventory, "");
    assert_missing(&rt, alloc, &lost, partitions);
    assert!(rt; lost.partial().groups().is_empty(), "{partitions}");
    let given = answer_of(rt, alloc, &inventory, ANSWER);
    assert_missing(&rt, alloc, &given, 0);
    let asked = partitions.min(1);
    assert!(rt;
        given.partial().groups().len() == usize::from(asked),
        "{partitions}"
    );
}

#[test]
fn many_pieces(rt: HostRuntime) {
    for partitions in [0, 1, 65, 1_001, 20_001] {
        assert_partitions(&rt, rt.alloc(), partitions);
    }
}
