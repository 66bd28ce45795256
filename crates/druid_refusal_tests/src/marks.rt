//! The marks round a call: blocks of sizes that nothing else asks for, after the first of which `tests/refuse` counts allocations, until
//! the second.
use std::alloc::{AllocError, Global};
use std::process::Abort;

const BEGIN: usize = 77_777;

const END: usize = 77_776;

// Takes a block and gives it back.
fn take(rt: &impl Abort, alloc: Global, size: usize) {
    let mut block: Vec<u8> = Vec::with_capacity(alloc, size).expect(rt, "memory");
    block.push(1).expect(rt, "memory");
}

/// Before a call.
pub(crate) fn begin(rt: &impl Abort, alloc: Global) {
    take(rt, alloc, BEGIN);
}

/// After the call that answered this.
pub(crate) fn end<T>(rt: &impl Abort, alloc: Global, answer: T) -> T {
    take(rt, alloc, END);
    answer
}

/// A copy that is made between the marks.
pub(crate) fn copy_of<T: Clone>(
    rt: &impl Abort,
    alloc: Global,
    value: &T,
) -> Result<T, AllocError> {
    begin(rt, alloc);
    let copy: Result<T, AllocError> = value.clone();
    end(rt, alloc, copy)
}

/// Asserts what holds after a call: it gave its value, or it was refused memory and all is as before.
pub(crate) fn assert_call(rt: &impl Abort, call: &str, holds: bool) {
    assert!(rt; holds, "{call}");
}
