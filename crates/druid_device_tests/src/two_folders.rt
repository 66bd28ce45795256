//! Two folders on disks, each on a device of its own: each keeps its file, and both are honest.
ghost use Rattle.std.specs.Prelude.{◌≡◌, ◌≤◌, [], true, length};
ghost use Rattle.druid_folder.specs.Folder.{max_file};
ghost use Rattle.druid_folder_store.specs.Disk.{calls_made};
ghost use Rattle.druid_folder_store.specs.Honest.{HonestIn};
ghost use Rattle.druid_device_tests.specs.TwoFolders.{keeping, Keeps};

use crate::store::path_for;
use druid_folder::Folder;
use druid_folder_store::{Device, DiskFolder, honest_model};
use std::alloc::Global;
use std::fs;
use std::marker::Brand;
use std::process::Abort;
use std::rt::Files;

// Writes a file of these bytes, makes it stable and reads it: whether all that succeeds, and gives the bytes.
fn keep<R: Files + AllocGlobal + Clone + Drop, D: Device>(
    alloc: Global,
    folder: &mut DiskFolder<R, D>,
    bytes: &[u8],
) -> bool
    ensures { result ≡ true → calls_made folder.new ≡ keeping bytes.now (calls_made folder.old) }
{
    if folder.write("a", bytes).is_err() {
        return false;
    }
    if folder.sync().is_err() {
        return false;
    }
    match folder.read(alloc, "a") {
        Ok(Some(found)) => found.as_slice() == bytes,
        _ => false,
    }
}

// Does so in a new folder, whose device is honest in these calls: then the folder is honest, and keeps the file.
#[tactic(auto, using(crate::proofs::TwoFolders::keeps_after))]
fn keep_first<R: Files + AllocGlobal + Clone + Drop, D: Device>(
    alloc: Global,
    folder: &mut DiskFolder<R, D>,
    bytes: &[u8],
) -> bool
    requires no_calls { calls_made folder.old ≡ [] }
    requires device { HonestIn D.content D.left D.during (keeping bytes.now []) }
    ensures { result ≡ true → Keeps (⟦<DiskFolder<R, D> as Folder>⟧.is_honest folder.new)
        (⟦<DiskFolder<R, D> as Folder>⟧.content folder.new)
        (⟦<DiskFolder<R, D> as Folder>⟧.may_leave folder.new) bytes.now }
{
    keep(alloc, folder, bytes)
}

// Keeps a file in each of two new folders.
fn kept_apart<R: Files + AllocGlobal + Copy, D: Device, E: Device>(
    rt: &R,
    alloc: Global,
    path: String,
    other_path: String,
    bytes: &[u8],
    other: &[u8],
) -> bool
    requires device { HonestIn D.content D.left D.during (keeping bytes.now []) }
    requires other_device { HonestIn E.content E.left E.during (keeping other.now []) }
{
    let mut first: DiskFolder<R, D> = DiskFolder::new(*rt, path);
    let mut second: DiskFolder<R, E> = DiskFolder::new(*rt, other_path);
    keep_first(alloc, &mut first, bytes) && keep_first(alloc, &mut second, other)
}

// The same, with a device for each that is honest in its calls.
#[tactic(auto, using(crate::proofs::TwoFolders::right_keeping))]
fn two_devices<R: Files + AllocGlobal + Copy>(
    rt: &R,
    alloc: Global,
    path: String,
    other_path: String,
    bytes: &[u8],
    other: &[u8],
) -> bool
    requires few { length bytes.now ≤ max_file }
    requires other_few { length other.now ≤ max_file }
{
    honest_model();
    kept_apart::<R, Brand, Brand>(rt, alloc, path, other_path, bytes, other)
}

#[test]
fn two_folders_keep_their_files(rt: HostRuntime) {
    let path = path_for(&rt, "first").expect(&rt, "a path");
    let other_path = path_for(&rt, "second").expect(&rt, "a path");
    fs::create_dir(&rt, path.as_path()).expect(&rt, "a folder");
    fs::create_dir(&rt, other_path.as_path()).expect(&rt, "a folder");
    let first = String::from_str(rt.alloc(), path.as_str()).expect(&rt, "memory");
    let second = String::from_str(rt.alloc(), other_path.as_str()).expect(&rt, "memory");
    assert!(rt; two_devices(&rt, rt.alloc(), first, second, b"north", b"south"));
    fs::remove_dir_all(&rt, path.as_str()).expect(&rt, "a removal");
    fs::remove_dir_all(&rt, other_path.as_str()).expect(&rt, "a removal");
}
