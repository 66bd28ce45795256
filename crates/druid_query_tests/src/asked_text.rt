//! Pieces that a node is asked for, as JSON.
use crate::subquery::subquery;
use druid_query_slice_text::{asked_value, asked_values, read_asked};
use std::alloc::Global;
use std::process::Abort;

// Whether each piece is written and read again.
fn are_pieces_back(rt: &impl Abort, alloc: Global) -> bool {
    let subquery = subquery(rt, alloc);
    for slice in subquery.asked() {
        let value = asked_value(alloc, slice).expect(rt, "memory");
        let read = read_asked(alloc, subquery.query().source(), &value).expect(rt, "a piece");
        let Some(other) = read else {
            return false;
        };
        if other != *slice {
            return false;
        }
    }
    asked_values(alloc, subquery.asked())
        .expect(rt, "memory")
        .len()
        == 1
}

#[test]
fn pieces_read_again(rt: HostRuntime) {
    assert!(rt; are_pieces_back(&rt, rt.alloc()));
}
