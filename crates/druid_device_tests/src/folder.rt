//! Folders of many sizes: with ample memory each call answers.
use crate::wire::patterned;
use druid_folder::Folder;
use druid_folder_store::MemoryFolder;
use std::alloc::Global;
use std::process::Abort;

// How many files a folder has, and how long each is.
const SIZES: [usize; 8] = [0, 1, 2, 3, 5, 17, 65, 1_000];

// The name of the file of a number: the number, and then so many letters.
fn name_of(rt: &impl Abort, alloc: Global, length: usize, number: usize) -> String {
    let letters = "n".repeat(alloc, length).expect(rt, "memory");
    format!(in alloc; "{number}{letters}").expect(rt, "memory")
}

// Writes so many files of these bytes, and reads each.
fn write_all<F: Folder>(
    rt: &impl Abort,
    alloc: Global,
    folder: &mut F,
    count: usize,
    bytes: &[u8],
) {
    for number in 0..count {
        let name = name_of(rt, alloc, count, number);
        folder.write(name.as_str(), bytes).expect(rt, "a write");
        let found = folder.read(alloc, name.as_str()).expect(rt, "a read");
        assert!(rt; found.expect(rt, "a file").as_slice() == bytes);
    }
}

// Gives each another name, and then removes it.
fn remove_all<F: Folder>(rt: &impl Abort, alloc: Global, folder: &mut F, count: usize) {
    for number in 0..count {
        let name = name_of(rt, alloc, count, number);
        folder.rename(name.as_str(), "m").expect(rt, "another name");
        folder.remove("m").expect(rt, "a removal");
    }
}

fn listed<F: Folder>(rt: &impl Abort, alloc: Global, folder: &mut F) -> usize {
    folder.list(alloc).expect(rt, "a list").len()
}

fn try_size(rt: &impl Abort, alloc: Global, size: usize) {
    let mut folder = MemoryFolder::new(alloc);
    write_all(rt, alloc, &mut folder, size, &patterned(rt, alloc, size));
    assert_eq!(rt; listed(rt, alloc, &mut folder), size);
    folder.sync().expect(rt, "a sync");
    folder.stop(false).expect(rt, "a stop");
    remove_all(rt, alloc, &mut folder, size);
    folder.stop(true).expect(rt, "a stop");
    assert_eq!(rt; listed(rt, alloc, &mut folder), 0);
    assert_eq!(rt; folder.faults(), 0);
}

#[test]
fn calls_succeed_with_memory(rt: HostRuntime) {
    for size in &SIZES {
        try_size(&rt, rt.alloc(), *size);
    }
}
