//! Links in memory.
use crate::printed::{printed, text_of};
use crate::table::{Table, assert_reported, assert_rows, is_reported};
use crate::wire::large;
use druid_link::{Link, MAX_EXCHANGE, MemoryLink};
use std::alloc::Global;
use std::process::Abort;

fn bytes_of(rt: &impl Abort, alloc: Global, text: &str) -> Vec<u8> {
    text.as_bytes().to_vec(alloc).expect(rt, "memory")
}

// A link that gives this reply and then `two`, and fails from that exchange on.
fn link_of(rt: &impl Abort, alloc: Global, first: Vec<u8>, fuse: u64) -> MemoryLink {
    let mut replies = Vec::new(alloc);
    replies.push(first).expect(rt, "memory");
    replies
        .push(bytes_of(rt, alloc, "two"))
        .expect(rt, "memory");
    MemoryLink::new(replies, fuse)
}

// The request of most exchanges.
pub(crate) const REQUEST: &[u8] = b"GET / HTTP/1.1\r\n\r\n";

// What an exchange of this request gives.
pub(crate) fn exchanged_for<L: Link>(
    rt: &impl Abort,
    alloc: Global,
    link: &mut L,
    request: &[u8],
) -> String {
    match link.exchange(alloc, request) {
        Ok(bytes) => text_of(rt, alloc, &bytes),
        Err(fault) => printed(rt, alloc, &fault),
    }
}

// What an exchange gives.
fn exchanged<L: Link>(rt: &impl Abort, alloc: Global, link: &mut L) -> String {
    exchanged_for(rt, alloc, link, REQUEST)
}

fn push(rt: &impl Abort, reported: &mut String, text: String) {
    reported.push_str(text.as_str()).expect(rt, "memory");
}

// What four exchanges give, and how often the device has failed then.
fn four_exchanges<L: Link>(rt: &impl Abort, alloc: Global, link: &mut L) -> String {
    let mut reported = String::new(alloc);
    for _ in 0..4 {
        push(rt, &mut reported, exchanged(rt, alloc, link));
        push(rt, &mut reported, printed(rt, alloc, &", "));
    }
    push(rt, &mut reported, printed(rt, alloc, &link.faults()));
    reported
}

// Before how many exchanges a device fails, and what four give.
struct Fuses;

impl Table for Fuses {
    fn holds(&self, rt: &impl Abort, alloc: Global, what: &str, wanted: &str) -> bool {
        let fuse = what.parse().expect(rt, "a number");
        let mut link = link_of(rt, alloc, bytes_of(rt, alloc, "one"), fuse);
        is_reported(four_exchanges(rt, alloc, &mut link), wanted)
    }
}

#[test]
fn exchanges_up_to_a_fuse(rt: HostRuntime) {
    let rows = "9 = one, two, , , 0
4 = one, two, , , 0
3 = one, two, , X2: the message could not be read, 1
1 = one, X2: the message could not be read, X2: the message could not be read, X2: the message could not be read, 3
0 = X2: the message could not be read, X2: the message could not be read, X2: the message could not be read, X2: the message could not be read, 4";
    assert_rows(&rt, rt.alloc(), &Fuses, rows, " = ");
}

// How many bytes an exchange gives, or its fault.
fn exchanged_length<L: Link>(rt: &impl Abort, alloc: Global, link: &mut L) -> String {
    match link.exchange(alloc, b"") {
        Ok(bytes) => printed(rt, alloc, &bytes.len()),
        Err(fault) => printed(rt, alloc, &fault),
    }
}

// How many bytes a reply gives that has so many more than an exchange may give, or its fault; and what comes after it.
fn large_reply(rt: &impl Abort, alloc: Global, more: usize) -> String {
    let reply = large(rt, alloc, MAX_EXCHANGE.saturating_add(more));
    let mut link = link_of(rt, alloc, reply, 9);
    let first = exchanged_length(rt, alloc, &mut link);
    let next = exchanged(rt, alloc, &mut link);
    format!(in alloc; "{first}, {next}").expect(rt, "memory")
}

#[test]
fn large_replies(rt: HostRuntime) {
    assert_reported(&rt, large_reply(&rt, rt.alloc(), 0), "16793600, two");
    let reported = large_reply(&rt, rt.alloc(), 1);
    assert_reported(&rt, reported, "X7: the body is too long, two");
}
