use crate::printed::{assert_prints, printed};
use crate::wire::patterned;
use druid_folder::{Folder, StoreFault, is_file_name};
use druid_folder_incarnation::next_incarnation;
use druid_folder_store::{DiskFolder, MemoryFolder};
use std::alloc::Global;
use std::marker::Brand;
use std::path::PathBuf;
use std::process::Abort;
use std::{env, fs, io, process};

// Whether a folder has a file of this text under that name.
fn has<F: Folder>(rt: &impl Abort, alloc: Global, folder: &mut F, name: &str, text: &str) -> bool {
    match folder.read(alloc, name).expect(rt, "a read") {
        Some(found) => found.as_slice() == text.as_bytes(),
        None => false,
    }
}

// What a folder answers as the next number, as the text of the file that has it, or the fault as it is printed.
fn next_of<F: Folder>(rt: &impl Abort, alloc: Global, folder: &mut F) -> String {
    match next_incarnation(alloc, folder) {
        Ok(number) => format!(in alloc; "{number}\n").expect(rt, "memory"),
        Err(fault) => printed(rt, alloc, &fault),
    }
}

// Whether a folder answers that, and its file then has that text.
pub(crate) fn answers<F: Folder>(
    rt: &impl Abort,
    alloc: Global,
    folder: &mut F,
    answer: &str,
    after: &str,
) -> bool {
    next_of(rt, alloc, folder).as_str() == answer && has(rt, alloc, folder, "incarnation", after)
}

const TEXTS_OF_FAULTS: [(StoreFault, &str); 5] = [
    (StoreFault::Device, "O1: the device failed"),
    (StoreFault::BadNumber, "O2: a bad incarnation number"),
    (StoreFault::AtEnd, "O3: the last incarnation number"),
    (StoreFault::BadName, "O4: no name of a file"),
    (StoreFault::Memory, "O9: out of memory"),
];

#[test]
fn printed_faults(rt: HostRuntime) {
    assert_prints(&rt, rt.alloc(), &TEXTS_OF_FAULTS);
}

// Names that files can have, and others, with a line feed between two.
const NAMES: &str = "a\na.seg\n...\n.a\na b\n\u{e9}\n-\n~";

const NO_NAMES: &str = "\n.\n..\n/\na/b\n/a\na/\n../a\na\0\n\0";

// Asserts that each of these is a name of a file, or that none is.
fn assert_names(rt: &impl Abort, names: &str, are_names: bool) {
    for name in names.split('\n') {
        assert!(rt; is_file_name(name) == are_names, "{name:?}");
    }
}

#[test]
fn names_of_files(rt: HostRuntime) {
    assert_names(&rt, NAMES, true);
    assert_names(&rt, NO_NAMES, false);
}

// Whether these are the names of a folder, each with a space after it.
fn lists<F: Folder>(rt: &impl Abort, alloc: Global, folder: &mut F, names: &str) -> bool {
    let mut text = String::new(alloc);
    for name in folder.list(alloc).expect(rt, "a list") {
        text.push_str(name.as_str()).expect(rt, "memory");
        text.push(' ').expect(rt, "memory");
    }
    text.as_str() == names
}

// Whether a folder has no such file.
fn lacks<F: Folder>(alloc: Global, folder: &mut F, name: &str) -> bool {
    folder.read(alloc, name) == Ok(None)
}

fn write<F: Folder>(rt: &impl Abort, folder: &mut F, name: &str, text: &str) {
    folder.write(name, text.as_bytes()).expect(rt, "a write");
}

fn rename<F: Folder>(rt: &impl Abort, folder: &mut F, from: &str, to: &str) {
    folder.rename(from, to).expect(rt, "another name");
}

fn remove<F: Folder>(rt: &impl Abort, folder: &mut F, name: &str) {
    folder.remove(name).expect(rt, "a removal");
}

// Writes three files, one of them twice.
fn write_three<F: Folder>(rt: &impl Abort, folder: &mut F) {
    write(rt, folder, "b", "old");
    write(rt, folder, "b", "second");
    write(rt, folder, "a.seg", "");
    write(rt, folder, "c", "third");
}

// Renames `b` by way of `d` to `c`, which is there.
fn move_second<F: Folder>(rt: &impl Abort, folder: &mut F) {
    folder.sync().expect(rt, "a sync");
    rename(rt, folder, "b", "d");
    rename(rt, folder, "d", "c");
}

// Whether a file that is not there cannot be renamed, which counts as a failure.
fn refuses_to_move<F: Folder>(folder: &mut F) -> bool {
    folder.rename("b", "c") == Err(StoreFault::Device) && folder.faults() == 1
}

// Removes what is left, one file twice.
fn remove_rest<F: Folder>(rt: &impl Abort, folder: &mut F) {
    remove(rt, folder, "a.seg");
    remove(rt, folder, "a.seg");
    remove(rt, folder, "c");
}

// Puts an empty folder through each of its calls, with the numbers at the end.
fn try_all<F: Folder>(rt: &impl Abort, alloc: Global, folder: &mut F) {
    write_three(rt, folder);
    assert!(rt; lists(rt, alloc, folder, "a.seg b c "));
    assert!(rt; has(rt, alloc, folder, "b", "second"));
    move_second(rt, folder);
    assert!(rt; lists(rt, alloc, folder, "a.seg c "));
    assert!(rt; lacks(alloc, folder, "b"));
    assert!(rt; refuses_to_move(folder));
    assert!(rt; has(rt, alloc, folder, "c", "second"));
    remove_rest(rt, folder);
    assert!(rt; lists(rt, alloc, folder, ""));
    assert!(rt; answers(rt, alloc, folder, "1\n", "1\n"));
    assert!(rt; answers(rt, alloc, folder, "2\n", "2\n"));
}

// Each call that may run out of memory gives its answer, here and on a disk.
#[test]
fn calls_succeed_with_memory(rt: HostRuntime) {
    try_all(&rt, rt.alloc(), &mut MemoryFolder::new(rt.alloc()));
}

// A folder that after its sync wrote two files, one of them anew, moved one and removed one.
fn unsynced(rt: &impl Abort, alloc: Global) -> MemoryFolder {
    let mut folder = MemoryFolder::new(alloc);
    write_three(rt, &mut folder);
    folder.sync().expect(rt, "a sync");
    write(rt, &mut folder, "b", "new");
    write(rt, &mut folder, "d", "first");
    rename(rt, &mut folder, "c", "e");
    remove(rt, &mut folder, "a.seg");
    folder
}

// Whether a stop leaves these names, `b` with this text, and the third file under that name.
fn is_left(
    rt: &impl Abort,
    alloc: Global,
    keep: bool,
    (names, text, third): (&str, &str, &str),
) -> bool {
    let mut folder = unsynced(rt, alloc);
    folder.stop(keep).expect(rt, "a stop");
    lists(rt, alloc, &mut folder, names)
        && has(rt, alloc, &mut folder, "b", text)
        && has(rt, alloc, &mut folder, third, "third")
}

#[test]
fn stops(rt: HostRuntime) {
    assert!(rt; is_left(&rt, rt.alloc(), true, ("b d e ", "new", "e")));
    assert!(rt; is_left(&rt, rt.alloc(), false, ("a.seg b c d ", "", "c")));
}

// A call under a name that no file can have has no number for the fuse: the first after it fails, and no other.
#[test]
fn fuses_pass_over_names(rt: HostRuntime) {
    let mut folder = MemoryFolder::new(rt.alloc());
    folder.fuse(0);
    assert!(rt; folder.write("a/b", b"x") == Err(StoreFault::BadName));
    assert!(rt; folder.rename("a", "..") == Err(StoreFault::BadName));
    assert!(rt; folder.remove("") == Err(StoreFault::BadName));
    assert!(rt; lacks(rt.alloc(), &mut folder, "/") && folder.faults() == 0);
    assert!(rt; folder.write("a", b"x") == Err(StoreFault::Device));
    assert!(rt; folder.write("a", b"x") == Ok(()) && folder.faults() == 1);
}

// The path of a folder of this run, for one test.
pub(crate) fn path_for(rt: &HostRuntime, test: &str) -> io::Result<PathBuf> {
    let name = format!(in rt.alloc(); "druid_store_{}_{test}", process::id(rt.process()))?;
    Ok(env::temp_dir(rt)?.join(rt.alloc(), name.as_str())?)
}

// A folder on the disk, which is made.
fn fresh_folder(rt: &HostRuntime, path: &PathBuf) -> io::Result<DiskFolder<HostRuntime, Brand>> {
    fs::create_dir(rt, path.as_path())?;
    let path = String::from_str(rt.alloc(), path.as_str())?;
    Ok(DiskFolder::new(rt.clone()?, path))
}

#[test]
fn calls_succeed_with_memory_on_disk(rt: HostRuntime) {
    let path = path_for(&rt, "calls").expect(&rt, "a path");
    let mut folder = fresh_folder(&rt, &path).expect(&rt, "a folder");
    try_all(&rt, rt.alloc(), &mut folder);
    fs::remove_dir_all(&rt, path.as_str()).expect(&rt, "a removal");
}

// How many bytes a file has, and how many of them a read gives.
const SIZES: [(usize, usize); 4] = [
    (1_048_576, 1_048_576),
    (16_777_216, 16_777_216),
    (16_777_217, 16_777_217),
    (16_777_218, 16_777_217),
];

// Whether a read of a file of these bytes gives so many of them, from the first on.
fn gives<F: Folder>(
    rt: &impl Abort,
    alloc: Global,
    folder: &mut F,
    bytes: &[u8],
    read: usize,
) -> bool {
    folder.write("b", bytes).expect(rt, "a write");
    let found = folder.read(alloc, "b").expect(rt, "a read");
    let found = found.expect(rt, "a file");
    found.len() == read && found.as_slice() == &bytes[..read.min(bytes.len())]
}

#[test]
fn long_files(rt: HostRuntime) {
    let path = path_for(&rt, "long").expect(&rt, "a path");
    let mut folder = fresh_folder(&rt, &path).expect(&rt, "a folder");
    let bytes = patterned(&rt, rt.alloc(), 16_777_218);
    for (size, read) in &SIZES {
        let bytes = &bytes[..bytes.len().min(*size)];
        assert!(rt; gives(&rt, rt.alloc(), &mut folder, bytes, *read), "{size}");
    }
    fs::remove_dir_all(&rt, path.as_str()).expect(&rt, "a removal");
}

// How many files a folder of many files has.
const MANY: u32 = 300;

// Writes many files, with the last name in order first, and gives the names as they are to be listed.
fn write_many<F: Folder>(rt: &impl Abort, alloc: Global, folder: &mut F) -> String {
    let mut names = String::new(alloc);
    for number in 0..MANY {
        let last = 9_999 - number;
        let name = format!(in alloc; "f{last}.seg").expect(rt, "memory");
        write(rt, folder, name.as_str(), "x");
        let first = 10_000 - MANY + number;
        let listed = format!(in alloc; "f{first}.seg ").expect(rt, "memory");
        names.push_str(listed.as_str()).expect(rt, "memory");
    }
    names
}

// Whether a folder of many files lists each of them.
fn lists_many<F: Folder>(rt: &impl Abort, alloc: Global, folder: &mut F) -> bool {
    let names = write_many(rt, alloc, folder);
    lists(rt, alloc, folder, names.as_str())
}

#[test]
fn many_files(rt: HostRuntime) {
    let path = path_for(&rt, "many").expect(&rt, "a path");
    let mut folder = fresh_folder(&rt, &path).expect(&rt, "a folder");
    assert!(rt; lists_many(&rt, rt.alloc(), &mut folder));
    fs::remove_dir_all(&rt, path.as_str()).expect(&rt, "a removal");
    assert!(rt; lists_many(&rt, rt.alloc(), &mut MemoryFolder::new(rt.alloc())));
}
