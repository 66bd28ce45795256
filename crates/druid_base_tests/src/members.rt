//! Members of a chunk.
use crate::rows::member;
use druid_timeline_members::Members;
use std::alloc::Global;
use std::process::Abort;

// Adds a node that serves a partition of so many core partitions.
fn add(
    rt: &impl Abort,
    alloc: Global,
    members: &mut Members,
    partition: u16,
    core: u16,
    node: u16,
) -> bool {
    members
        .add(&member(rt, alloc, partition, core), node)
        .expect(rt, "memory")
}

// The partitions of which there is a member, after one is added.
fn one_member(rt: &impl Abort, alloc: Global) -> Vec<u16> {
    let mut members = Members::new(alloc);
    assert!(rt; add(rt, alloc, &mut members, 3, 4, 2));
    members.partitions().expect(rt, "memory")
}

#[test]
fn partitions_of_members(rt: HostRuntime) {
    let partitions = one_member(&rt, rt.alloc());
    assert!(rt; partitions.as_slice() == [3].as_slice());
}

// How many members there are, and their core.
fn counted(rt: &impl Abort, members: &Members) -> (usize, u16) {
    let partitions = members.partitions().expect(rt, "memory");
    (partitions.len(), members.core())
}

// Whether members stay once a node serves a partition no more, and a copy from before keeps it.
fn is_taken_out(rt: &impl Abort, alloc: Global) -> bool {
    let mut members = Members::new(alloc);
    for (partition, core, node) in [(0, 1, 2), (3, 4, 2), (3, 4, 5), (7, 9, 2)] {
        add(rt, alloc, &mut members, partition, core, node);
    }
    let copy = members.clone().expect(rt, "memory");
    members.remove(7, 2)
        && !members.remove(7, 2)
        && counted(rt, &members) == (2, 4)
        && counted(rt, &copy) == (3, 9)
}

#[test]
fn members_taken_out(rt: HostRuntime) {
    assert!(rt; is_taken_out(&rt, rt.alloc()));
}
