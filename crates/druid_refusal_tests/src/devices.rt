//! Folders in memory, the number of an incarnation, and links in memory.
use crate::marks::{assert_call, begin, end};
use druid_folder::{Folder, StoreFault};
use druid_folder_incarnation::next_incarnation;
use druid_folder_store::MemoryFolder;
use druid_http_message::WireFault;
use druid_link::{Link, MemoryLink};
use std::alloc::Global;
use std::process::Abort;

// How many bytes a file has that is there.
fn length<F: Folder>(rt: &impl Abort, alloc: Global, folder: &mut F, name: &str) -> Option<usize> {
    let bytes = folder.read(alloc, name).expect(rt, "memory")?;
    Some(bytes.len())
}

// Whether a call was done, or was refused memory.
fn is_done(reported: Result<(), StoreFault>, done: bool, undone: bool) -> bool {
    match reported {
        Ok(()) => done,
        Err(fault) => fault == StoreFault::Memory && undone,
    }
}

fn write<F: Folder>(rt: &impl Abort, alloc: Global, folder: &mut F) {
    begin(rt, alloc);
    let reported = end(rt, alloc, folder.write("a", b"12"));
    let found = length(rt, alloc, folder, "a");
    assert_call(
        rt,
        "MemoryFolder::write",
        is_done(reported, found == Some(2), found.is_none()),
    );
    folder.write("a", b"12").expect(rt, "memory");
}

fn reads<F: Folder>(rt: &impl Abort, alloc: Global, folder: &mut F) {
    begin(rt, alloc);
    let read = end(rt, alloc, folder.read(alloc, "a"));
    assert_call(
        rt,
        "MemoryFolder::read",
        match &read {
            Ok(Some(bytes)) => bytes.len() == 2,
            Ok(None) => false,
            Err(fault) => *fault == StoreFault::Memory,
        },
    );
    begin(rt, alloc);
    let names = end(rt, alloc, folder.list(alloc));
    assert_call(
        rt,
        "MemoryFolder::list",
        match &names {
            Ok(names) => names.len() == 1,
            Err(fault) => *fault == StoreFault::Memory,
        },
    );
}

fn renames<F: Folder>(rt: &impl Abort, alloc: Global, folder: &mut F) {
    begin(rt, alloc);
    let reported = end(rt, alloc, folder.rename("a", "b"));
    let found = length(rt, alloc, folder, "b");
    assert_call(
        rt,
        "MemoryFolder::rename",
        is_done(reported, found == Some(2), found.is_none()),
    );
    let _ = folder.rename("a", "b");
}

fn removes<F: Folder>(rt: &impl Abort, alloc: Global, folder: &mut F) {
    begin(rt, alloc);
    let reported = end(rt, alloc, folder.remove("b"));
    let found = length(rt, alloc, folder, "b");
    assert_call(
        rt,
        "MemoryFolder::remove",
        is_done(reported, found.is_none(), found == Some(3)),
    );
}

fn syncs(rt: &impl Abort, alloc: Global, folder: &mut MemoryFolder) {
    begin(rt, alloc);
    let reported = end(rt, alloc, folder.sync());
    assert_call(rt, "MemoryFolder::sync", is_done(reported, true, true));
    folder.write("b", b"123").expect(rt, "memory");
    begin(rt, alloc);
    let reported = end(rt, alloc, folder.stop(true));
    let found = length(rt, alloc, folder, "b");
    assert_call(
        rt,
        "MemoryFolder::stop",
        found == Some(3) && is_done(reported, true, true),
    );
}

fn numbers(rt: &impl Abort, alloc: Global) {
    let mut folder = MemoryFolder::new(alloc);
    folder.write("incarnation", b"7\n").expect(rt, "memory");
    begin(rt, alloc);
    let number = end(rt, alloc, next_incarnation(alloc, &mut folder));
    let next = next_incarnation(alloc, &mut folder);
    assert_call(
        rt,
        "next_incarnation",
        match number {
            Ok(number) => number == 8 && next == Ok(9),
            Err(fault) => fault == StoreFault::Memory && (next == Ok(8) || next == Ok(9)),
        },
    );
}

fn exchange<L: Link>(rt: &impl Abort, alloc: Global, link: &mut L) {
    let before = link.faults();
    begin(rt, alloc);
    let answer = end(rt, alloc, link.exchange(alloc, b"?"));
    assert_call(
        rt,
        "MemoryLink::exchange",
        link.faults() == before
            && match &answer {
                Ok(bytes) => bytes.as_slice() == b"!".as_slice(),
                Err(fault) => *fault == WireFault::Memory,
            },
    );
}

#[test]
fn of_folders(rt: HostRuntime) {
    let mut folder = MemoryFolder::new(rt.alloc());
    write(&rt, rt.alloc(), &mut folder);
    reads(&rt, rt.alloc(), &mut folder);
    renames(&rt, rt.alloc(), &mut folder);
    syncs(&rt, rt.alloc(), &mut folder);
    removes(&rt, rt.alloc(), &mut folder);
    numbers(&rt, rt.alloc());
}

#[test]
fn of_links(rt: HostRuntime) {
    let reply = b"!".to_vec(rt.alloc()).expect(&rt, "memory");
    let replies = vec![in rt.alloc(); reply].expect(&rt, "memory");
    exchange(&rt, rt.alloc(), &mut MemoryLink::new(replies, 64));
}
