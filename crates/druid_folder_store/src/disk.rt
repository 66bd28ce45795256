//! Folders of the system. `sync` syncs the folder, so that a rename survives a power cut: each
//! `write` syncs its own file. After a failed write or sync each later `sync` is O1 without a call
//! of the system: Linux gives the bytes that it could not write to whoever reads, and a second
//! `fsync` succeeds. That a later write of that file would make up for it is left out: renames move
//! names, and what writes (a start) ends at the first failure. `read` and `list` ask for a status
//! first, which keeps them off pipes and devices; `write` has no such guard, since no open of the
//! kit refuses to wait or to follow a link.
ghost use Rattle.std.specs.Prelude.{◌≡◌, ◌∷◌, ◌&&◌, IsErrOf, OnOk, OnErr, ◌+◌, ◌≤◌, [], length, codes, bytes_eq, if◌then◌else◌, false, None, Ok, IfOk, IfErr, IfSome, MatchResult, All, string_bytes};
ghost use Rattle.std.specs.Result.{is_ok};
ghost use Rattle.druid_folder_store.specs.Disk.{calls_made, disk_failures};
ghost use Rattle.druid_folder_store.specs.Event.{did_list, did_read, did_write, did_sync, did_rename, did_remove};
ghost use Rattle.druid_folder_store.specs.Noted.{names_answered, file_answered};
ghost use Rattle.druid_folder_store.specs.System.{ReportsFile, ReportsRemoved, ReportsEntry, ReportsFault};
ghost use Rattle.druid_folder.specs.declared.fault.StoreFault.TheVariants.{Memory};
ghost use Rattle.druid_folder.specs.FileName.{is_file_name, IsFileName};
ghost use Rattle.druid_folder.specs.Folder.{Torn, Follows, AreInOrder, max_file, names_of, faults_after, IsOwnFault};

use crate::Device;
use crate::log::{Calls, FolderNote};
use crate::name::put_in_order;
use druid_folder::{Folder, MAX_FILE, StoreFault, is_file_name};
use std::alloc::{AllocError, Global};
use std::fs::{DirEntry, Metadata, OpenFile};
use std::io::{ErrorKind, Read, Write};
use std::marker::PhantomData;
use std::path::{Path, PathBuf};
use std::rt::Files;
use std::{fs, io};

/// A folder of the operating system.
///
/// It keeps, for proofs alone, the calls that were made on it and what each answered. It has been
/// honest so far where the device `D` did with each of them what an honest device does, and nobody
/// else changed the folder. Each folder has a device of its own, which is picked where a call
/// passes `Brand` to the function that makes the folder. That the real device is honest is a
/// premise of whoever relies on it: no proof says what a real file gives back, nor what a stop
/// leaves of it.
///
/// Each `write` syncs its file, and `sync` the folder. Once a write or a sync failed, each later
/// `sync` is O1: the system may go on to give what it could not put onto the device, and a second
/// sync does not tell. A folder made anew begins anew: what is there when it is made is to be on
/// the device.
#[derive(Drop)]
pub struct DiskFolder<R: Files + AllocGlobal + Clone + Drop, D: Device> {
    rt: R,
    path: String,
    faults: u64,
    calls: Calls,
    device: PhantomData<D>,
}

impl<R: Files + AllocGlobal + Clone + Drop, D: Device> DiskFolder<R, D> {
    /// The folder at that path, which is not looked at before the first call. An empty path is the
    /// working folder.
    pub fn new(rt: R, path: String) -> DiskFolder<R, D>
        ensures faults { ⟦<DiskFolder<R, D> as Folder>⟧.faults result ≡ 0 }
        ensures no_calls { calls_made result ≡ [] }
    {
        DiskFolder {
            rt,
            path,
            faults: 0,
            calls: Calls::new(),
            device: PhantomData,
        }
    }
}

// Each method notes the call, with what it was given and what it answers; what a folder's clauses
// say of an honest one follows. A name that no file can have makes no call.
impl<R: Files + AllocGlobal + Clone + Drop, D: Device> Folder for DiskFolder<R, D> {
    ghost use Rattle.std.specs.Prelude.{length};
    ghost use Rattle.druid_folder_store.specs.Disk.{calls_made, disk_failures};
    ghost use Rattle.druid_folder_store.specs.Honest.{HonestIn, ElapsesOver, LeftFrom, AreKept};
    ghost use Rattle.druid_folder_store.specs.HonestLaws.{honest_content, left_counts, left_alone};

    ghost is_honest = { λ d. HonestIn D.content D.left D.during (calls_made d) };

    ghost content = { λ d. D.content (length (calls_made d)) };

    ghost may_leave = { λ d. D.left (length (calls_made d)) };

    ghost moment = { λ d. length (calls_made d) };

    ghost left_since = { λ d. LeftFrom D.left D.during (length (calls_made d)) };

    ghost faults = { disk_failures };

    ghost may_stay = { λ d honest. honest_content D.content D.left D.during (calls_made d) honest };

    ghost counts_now = { λ d t c honest le left.
        left_counts D.left D.during (length (calls_made d)) t c le left };

    ghost only_now = { λ d c honest left.
        left_alone D.left D.during (length (calls_made d)) c left };

    fn list(&mut self, alloc: Global) -> Result<Vec<String>, StoreFault>
        ensures noted { calls_made self.new ≡ did_list (names_answered result) ∷ calls_made self.old }
        ensures file_names { IfOk result (λ names. All IsFileName (names_of names.items)) }
        ensures order { IfOk result (λ names. AreInOrder (names_of names.items)) }
        ensures counted { disk_failures self.new ≡ faults_after result (disk_failures self.old) }
        ensures fault { IfErr result IsOwnFault }
    {
        let found = files_in(&self.rt, alloc, folder_path(&self.path));
        let answer = count_fault(&mut self.faults, found);
        self.calls = self.calls.then(&FolderNote::List(&answer));
        answer
    }

    fn read(&mut self, alloc: Global, name: &str) -> Result<Option<Vec<u8>>, StoreFault>
        ensures noted { calls_made self.new
            ≡ did_read name.now (file_answered result) ∷ calls_made self.old }
        ensures no_name { is_file_name name.now ≡ false
            → MatchResult result (λ found. found ≡ None) (λ e. e ≡ Memory) }
        ensures bound { IfOk result (λ found.
            IfSome found (λ bytes. length bytes.items ≤ max_file + 1)) }
        ensures counted { disk_failures self.new ≡ faults_after result (disk_failures self.old) }
        ensures fault { IfErr result IsOwnFault }
    {
        let found = read_named(&self.rt, alloc, &self.path, name);
        let answer = count_fault(&mut self.faults, found);
        self.calls = self.calls.then(&FolderNote::Read(name, &answer));
        answer
    }

    fn write(&mut self, name: &str, bytes: &[u8]) -> Result<(), StoreFault>
        ensures noted { IsFileName name.now → calls_made self.new
            ≡ did_write name.now bytes.now (is_ok result) ∷ calls_made self.old }
        ensures bad_name { is_file_name name.now ≡ false → IsErrOf result StoreFault.BadName }
        ensures not_noted { is_file_name name.now ≡ false → calls_made self.new ≡ calls_made self.old }
        ensures failed { HonestIn D.content D.left D.during (calls_made self.new)
            → OnErr result (Torn name.now (D.content (length (calls_made self.old)))
            (D.content (length (calls_made self.new)))) }
        ensures stop { HonestIn D.content D.left D.during (calls_made self.new)
            → Follows (Torn name.now) (D.left (length (calls_made self.old)))
            (D.left (length (calls_made self.new))) }
        ensures time { HonestIn D.content D.left D.during (calls_made self.new)
            → ElapsesOver D.left D.during (calls_made self.old) (calls_made self.new) }
        ensures counted { disk_failures self.new ≡ faults_after result (disk_failures self.old) }
        ensures fault { IsFileName name.now → IfErr result IsOwnFault }
    {
        if !is_file_name(name) {
            return Err(StoreFault::BadName);
        }
        let done = write_named(&self.rt, &self.path, name, bytes);
        let answer = count_fault(&mut self.faults, done);
        self.calls = self
            .calls
            .then(&FolderNote::Write(name, bytes, answer.is_ok()));
        answer
    }

    fn sync(&mut self) -> Result<(), StoreFault>
        ensures noted { calls_made self.new ≡ did_sync (is_ok result) ∷ calls_made self.old }
        ensures kept { OnOk result (AreKept (calls_made self.old)) }
        ensures counted { disk_failures self.new ≡ faults_after result (disk_failures self.old) }
        ensures fault { IfErr result IsOwnFault }
    {
        let done = if self.calls.all_kept {
            sync_folder(&self.rt, folder_path(&self.path))
        } else {
            Err(io::Error::from(ErrorKind::Other))
        };
        let answer = count_fault(&mut self.faults, done);
        self.calls = self.calls.then(&FolderNote::Sync(answer.is_ok()));
        answer
    }

    fn rename(&mut self, from: &str, to: &str) -> Result<(), StoreFault>
        ensures noted { IsFileName from.now → IsFileName to.now → calls_made self.new
            ≡ did_rename from.now to.now (is_ok result) ∷ calls_made self.old }
        ensures bad_name { (is_file_name from.now && is_file_name to.now) ≡ false
            → IsErrOf result StoreFault.BadName }
        ensures not_noted { (is_file_name from.now && is_file_name to.now) ≡ false
            → calls_made self.new ≡ calls_made self.old }
        ensures time { HonestIn D.content D.left D.during (calls_made self.new)
            → ElapsesOver D.left D.during (calls_made self.old) (calls_made self.new) }
        ensures counted { disk_failures self.new ≡ faults_after result (disk_failures self.old) }
        ensures fault { IsFileName from.now → IsFileName to.now
            → IfErr result IsOwnFault }
    {
        if !is_file_name(from) || !is_file_name(to) {
            return Err(StoreFault::BadName);
        }
        let done = rename_named(&self.rt, &self.path, from, to);
        let answer = count_fault(&mut self.faults, done);
        self.calls = self
            .calls
            .then(&FolderNote::Rename(from, to, answer.is_ok()));
        answer
    }

    fn remove(&mut self, name: &str) -> Result<(), StoreFault>
        ensures noted { IsFileName name.now → calls_made self.new
            ≡ did_remove name.now (is_ok result) ∷ calls_made self.old }
        ensures bad_name { is_file_name name.now ≡ false → IsErrOf result StoreFault.BadName }
        ensures not_noted { is_file_name name.now ≡ false → calls_made self.new ≡ calls_made self.old }
        ensures time { HonestIn D.content D.left D.during (calls_made self.new)
            → ElapsesOver D.left D.during (calls_made self.old) (calls_made self.new) }
        ensures counted { disk_failures self.new ≡ faults_after result (disk_failures self.old) }
        ensures fault { IsFileName name.now → IfErr result IsOwnFault }
    {
        if !is_file_name(name) {
            return Err(StoreFault::BadName);
        }
        let done = remove_named(&self.rt, &self.path, name);
        let answer = count_fault(&mut self.faults, done);
        self.calls = self.calls.then(&FolderNote::Remove(name, answer.is_ok()));
        answer
    }

    fn faults(&self) -> u64 {
        self.faults
    }
}

// What a call of the system answered, as the folder's answer. A failure of the device counts.
fn count_fault<T>(faults: &mut u64, answer: io::Result<T>) -> Result<T, StoreFault>
    ensures reported { ReportsFault answer result }
    ensures counted { faults.new ≡ faults_after result faults.old }
    ensures fault { IfErr result IsOwnFault }
{
    match answer {
        Ok(x) => Ok(x),
        Err(error) if error.kind() == ErrorKind::OutOfMemory => Err(StoreFault::Memory),
        Err(_) => {
            *faults = faults.saturating_add(1);
            Err(StoreFault::Device)
        }
    }
}

// Whether a status tells of a file. A folder, a pipe or a device is none.
fn reports_file(status: io::Result<Metadata>) -> io::Result<bool>
    ensures { ReportsFile status result }
{
    match status {
        Ok(status) => Ok(status.is_file()),
        Err(error) if error.kind() == ErrorKind::NotFound => Ok(false),
        Err(error) => Err(error),
    }
}

// The removal of what is not there is done.
fn reports_removed(removal: io::Result<()>) -> io::Result<()>
    ensures { ReportsRemoved removal result }
{
    match removal {
        Err(error) if error.kind() == ErrorKind::NotFound => Ok(()),
        answer => answer,
    }
}

// An entry of a folder. A name that is no text is passed over.
fn reports_entry<T>(entry: io::Result<T>) -> io::Result<Option<T>>
    ensures { ReportsEntry entry result }
{
    match entry {
        Ok(entry) => Ok(Some(entry)),
        Err(error) if error.kind() == ErrorKind::InvalidFilename => Ok(None),
        Err(error) => Err(error),
    }
}

// The path of a folder: an empty one is the working folder.
fn folder_path(path: &str) -> &str
    ensures { result.now ≡ (if bytes_eq path.now [] then codes "." else path.now) }
{
    if path.is_empty() { "." } else { path }
}

fn path_of(alloc: Global, folder: &str, name: &str) -> Result<PathBuf, AllocError> {
    Path::new(folder).join(alloc, name)
}

// The name of an entry, if a file can have it and the entry is one.
fn name_of_file<R: Files>(
    rt: &R,
    alloc: Global,
    entry: &DirEntry<R, Global>,
) -> io::Result<Option<String>>
    ensures { IfOk result (λ found. IfSome found (λ name. IsFileName (string_bytes name))) }
{
    let name = entry.file_name();
    if !is_file_name(name) || !reports_file(fs::metadata(rt, entry.path()))? {
        return Ok(None);
    }
    Ok(Some(String::from_str(alloc, name)?))
}

// Adds that name to others.
#[tactic(auto, using(crate::proofs::Order::valid_push))]
fn add_file<R: Files + Drop>(
    rt: &R,
    alloc: Global,
    names: &mut Vec<String>,
    entry: io::Result<DirEntry<R, Global>>,
) -> io::Result<()>
    requires { All IsFileName (names_of names.old.items) }
    ensures { All IsFileName (names_of names.new.items) }
{
    if let Some(entry) = reports_entry(entry)? {
        if let Some(name) = name_of_file(rt, alloc, &entry)? {
            names.push(name)?;
        }
    }
    Ok(())
}

// The names of the files of a folder, in the order of their bytes.
fn files_in<R: Files + AllocGlobal + Clone + Drop>(
    rt: &R,
    alloc: Global,
    path: &str,
) -> io::Result<Vec<String>>
    ensures file_names { IfOk result (λ names. All IsFileName (names_of names.items)) }
    ensures order { IfOk result (λ names. AreInOrder (names_of names.items)) }
{
    let mut names = Vec::new(alloc);
    for entry in fs::read_dir(rt, path)? {
        add_file(rt, alloc, &mut names, entry)?;
    }
    put_in_order(&mut names);
    Ok(names)
}

// The first bytes of a file: as many as it may have, and one more.
fn read_front<R: Files>(rt: &R, alloc: Global, path: Path<'_>) -> io::Result<Vec<u8>>
    ensures { IfOk result (λ bytes. length bytes.items ≤ max_file + 1) }
{
    let mut part = fs::open(rt, path)?.take(MAX_FILE as u64 + 1);
    let mut bytes = Vec::new(alloc);
    part.read_to_end(&mut bytes)?;
    bytes.truncate(MAX_FILE + 1);
    Ok(bytes)
}

// The bytes of a file. None where no file has the name, or can have it.
fn read_named<R: Files>(
    rt: &R,
    alloc: Global,
    folder: &str,
    name: &str,
) -> io::Result<Option<Vec<u8>>>
    ensures no_name { is_file_name name.now ≡ false → result ≡ Ok None }
    ensures bound { IfOk result (λ found. IfSome found (λ bytes. length bytes.items ≤ max_file + 1)) }
{
    if !is_file_name(name) {
        return Ok(None);
    }
    let path = path_of(alloc, folder, name)?;
    if !reports_file(fs::metadata(rt, path.as_path()))? {
        return Ok(None);
    }
    Ok(Some(read_front(rt, alloc, path.as_path())?))
}

// The bytes are on the device before it answers.
fn write_named<R: Files + AllocGlobal>(
    rt: &R,
    folder: &str,
    name: &str,
    bytes: &[u8],
) -> io::Result<()> {
    let path = path_of(rt.alloc(), folder, name)?;
    let mut file = fs::create(rt, path.as_path())?;
    file.write_all(bytes)?;
    file.sync_all()
}

// The names of the files, and which file each of them is, are on the device before it answers.
fn sync_folder<R: Files>(rt: &R, path: &str) -> io::Result<()> {
    fs::open(rt, path)?.sync_all()
}

fn rename_named<R: Files + AllocGlobal>(
    rt: &R,
    folder: &str,
    from: &str,
    to: &str,
) -> io::Result<()> {
    let from = path_of(rt.alloc(), folder, from)?;
    let to = path_of(rt.alloc(), folder, to)?;
    fs::rename(rt, from.as_path(), to.as_path())
}

fn remove_named<R: Files + AllocGlobal>(rt: &R, folder: &str, name: &str) -> io::Result<()> {
    let path = path_of(rt.alloc(), folder, name)?;
    reports_removed(fs::remove_file(rt, path.as_path()))
}
