//! The calls of a folder in memory, which reads its files off them, in time that grows with their
//! number.
ghost use Rattle.std.specs.Prelude.{◌≡◌, ◌∷◌, [], ◌++◌, ◌+◌, ◌-◌, ◌^◌, ◌≤◌, min, true, false, List, ℕ, Some, IfOk, string_bytes, length, vec_capacity, OnOk, OnErr, IfErr};
ghost use Rattle.std.specs.Option.{option_copied, option_map};
ghost use Rattle.druid_folder.specs.declared.fault.StoreFault.TheVariants.{Memory};
ghost use Rattle.druid_folder.specs.Folder.{Content, AreNames, Only, nothing, max_file, names_of, read_part};
ghost use Rattle.druid_folder.specs.FileName.{IsFileName};
ghost use Rattle.druid_folder_store.specs.Record.{done, puts, calls_of, failures_of, content_after, IsLeft, file_from, is_sync, lost, lost_after, stopped};

use crate::name::{FileName, put_in_order};
use druid_folder::{Folder, MAX_FILE, StoreFault, is_file_name};
use std::alloc::{AllocError, Global};

// A call on a folder, with what it was given.
#[derive(Drop)]
enum Call {
    Looked,
    Wrote(FileName, Vec<u8>),
    Synced,
    Renamed(FileName, FileName),
    Removed(FileName),
    Failed,
}

// The calls of a folder in memory. Its files are what those calls made of them.
#[derive(Drop)]
pub(crate) struct CallRecord {
    alloc: Global,
    calls: Vec<Call>,
    faults: u64,
}

impl CallRecord {
    // A folder without files.
    pub(crate) fn new(alloc: Global) -> CallRecord
        ensures honest { ⟦<CallRecord as Folder>⟧.is_honest result }
        ensures content { ⟦<CallRecord as Folder>⟧.content result ≡ nothing }
        ensures stop { Only nothing (⟦<CallRecord as Folder>⟧.may_leave result) }
        ensures faults { ⟦<CallRecord as Folder>⟧.faults result ≡ 0 }
    {
        CallRecord {
            alloc,
            calls: Vec::new(alloc),
            faults: 0,
        }
    }

    // Counts a failure of the device.
    pub(crate) fn fail(&mut self) -> StoreFault
        ensures fault { result ≡ StoreFault.Device }
        ensures calls { calls_of self.new ≡ calls_of self.old }
        ensures faults { failures_of self.new ≡ min (failures_of self.old + 1) (2 ^ 64 - 1) }
    {
        self.faults = self.faults.saturating_add(1);
        StoreFault::Device
    }

    // What a stop leaves: all that is read, or no more than what was synced.
    pub(crate) fn stop(&mut self, keep: bool) -> Result<(), StoreFault>
        ensures stopped { OnOk result
            (content_after nothing (calls_of self.new) ≡ stopped keep (calls_of self.old)) }
        ensures left { OnOk result
            (IsLeft (calls_of self.old) (content_after nothing (calls_of self.new))) }
        ensures stable { OnOk result
            (Only (content_after nothing (calls_of self.new)) (IsLeft (calls_of self.new))) }
        ensures refused { OnErr result (calls_of self.new ≡ calls_of self.old) }
        ensures fault { IfErr result (λ e. e ≡ Memory) }
        ensures faults { failures_of self.new ≡ failures_of self.old }
    {
        self.calls.reserve(1)?;
        settle(&mut self.calls, keep);
        self.calls.push_reserved(Call::Synced);
        Ok(())
    }
}

impl Folder for CallRecord {
    ghost use Rattle.std.specs.Prelude.{◌≡◌, length};
    ghost use Rattle.druid_folder.specs.Folder.{nothing};
    ghost use Rattle.druid_folder_store.specs.Record.{calls_of, failures_of, content_after, IsLeft, LeftSince};
    ghost use Rattle.druid_folder_store.specs.RecordLaws.{content_may_stay, now_counts, now_alone};

    ghost is_honest = { λ m. Unit {0} };

    ghost content = { λ m. content_after nothing (calls_of m) };

    ghost may_leave = { λ m. IsLeft (calls_of m) };

    ghost moment = { λ m. length (calls_of m) };

    ghost left_since = { λ m. LeftSince (calls_of m) };

    ghost faults = { failures_of };

    ghost may_stay = { λ m h. content_may_stay (calls_of m) };

    ghost counts_now = { λ m t c h le left. now_counts (calls_of m) t c le left };

    ghost only_now = { λ m c h left. now_alone (calls_of m) c left };

    fn list(&mut self, alloc: Global) -> Result<Vec<String>, StoreFault> {
        note(&mut self.calls, Call::Looked)?;
        let mut names = names_in(alloc, &self.calls)?;
        put_in_order(&mut names);
        Ok(names)
    }

    fn read(&mut self, alloc: Global, name: &str) -> Result<Option<Vec<u8>>, StoreFault> {
        note(&mut self.calls, Call::Looked)?;
        match find(&self.calls, name.as_bytes()) {
            None => Ok(None),
            Some(bytes) => Ok(Some(read_part(alloc, bytes)?)),
        }
    }

    fn write(&mut self, name: &str, bytes: &[u8]) -> Result<(), StoreFault> {
        if !is_file_name(name) {
            return Err(StoreFault::BadName);
        }
        let name = FileName::new(self.alloc, name)?;
        let bytes = bytes.to_vec(self.alloc)?;
        note(&mut self.calls, Call::Wrote(name, bytes))?;
        Ok(())
    }

    fn sync(&mut self) -> Result<(), StoreFault> {
        note(&mut self.calls, Call::Synced)?;
        Ok(())
    }

    fn rename(&mut self, from: &str, to: &str) -> Result<(), StoreFault> {
        if !is_file_name(from) || !is_file_name(to) {
            return Err(StoreFault::BadName);
        }
        if find(&self.calls, from.as_bytes()).is_none() {
            note(&mut self.calls, Call::Failed)?;
            self.faults = self.faults.saturating_add(1);
            return Err(StoreFault::Device);
        }
        let call = rename_call(self.alloc, from, to)?;
        note(&mut self.calls, call)?;
        Ok(())
    }

    fn remove(&mut self, name: &str) -> Result<(), StoreFault> {
        if !is_file_name(name) {
            return Err(StoreFault::BadName);
        }
        let name = FileName::new(self.alloc, name)?;
        note(&mut self.calls, Call::Removed(name))?;
        Ok(())
    }

    fn faults(&self) -> u64 {
        self.faults
    }
}

// A rename, with names of its own.
fn rename_call(alloc: Global, from: &str, to: &str) -> Result<Call, AllocError>
    requires from { IsFileName from.now }
    requires to { IsFileName to.now }
    ensures { IfOk result (λ call. (old new : FileName) × (call ≡ Call.Renamed old new)
        × (string_bytes old.text ≡ from.now) × (string_bytes new.text ≡ to.now)) }
{
    let from = FileName::new(alloc, from)?;
    let to = FileName::new(alloc, to)?;
    Ok(Call::Renamed(from, to))
}

// The names of the files, after these calls. A name may come more than once.
fn names_in(alloc: Global, calls: &[Call]) -> Result<Vec<String>, AllocError>
    ensures { IfOk result
        (λ names. AreNames (content_after nothing calls.now) (names_of names.items)) }
{
    let mut names = Vec::new(alloc);
    for call in calls {
        if let Some(name) = file_of(call) {
            if find(calls, name.text.as_bytes()).is_some() {
                names.push(String::from_str(alloc, name.text.as_str())?)?;
            }
        }
    }
    Ok(names)
}

// The name under which a call may have put a file.
fn file_of(call: &Call) -> Option<&FileName>
    ensures { option_map (λ name. string_bytes name.now.text) result ≡ puts call.now }
{
    match call {
        Call::Wrote(name, _) | Call::Renamed(_, name) => Some(name),
        _ => None,
    }
}

// What a read gives of these bytes.
fn read_part(alloc: Global, bytes: &[u8]) -> Result<Vec<u8>, AllocError>
    ensures part { IfOk result (λ part. Some part.items ≡ read_part (Some bytes.now)) }
    ensures bound { IfOk result (λ part. length part.items ≤ max_file + 1) }
{
    if bytes.len() <= MAX_FILE {
        return Vec::from_slice(alloc, bytes);
    }
    Vec::from_slice(alloc, &bytes[..MAX_FILE + 1])
}

// Puts a call after the others.
fn note(calls: &mut Vec<Call>, call: Call) -> Result<(), StoreFault>
    ensures ok { OnOk result (calls.new.items ≡ calls.old.items ++ call ∷ []) }
    ensures err { OnErr result (calls.new.items ≡ calls.old.items) }
    ensures fault { IfErr result (λ e. e ≡ Memory) }
{
    calls.push(call)?;
    Ok(())
}

// What a call made of the file of a name.
enum Source<'a> {
    Bytes(&'a [u8]),
    NoFile,
    // The file that had this name before the call.
    Before(&'a [u8]),
}

fn source_of<'a>(call: &'a Call, name: &'a [u8]) -> Source<'a>
    ensures { (files : Content) → done call.now files name.now ≡ file_from result files }
{
    match call {
        Call::Wrote(at, bytes) if name == at.text.as_bytes() => Source::Bytes(bytes.as_slice()),
        Call::Renamed(from, to) if name == to.text.as_bytes() => Source::Before(
            from.text.as_bytes(),
        ),
        Call::Renamed(from, _) if name == from.text.as_bytes() => Source::NoFile,
        Call::Removed(at) if name == at.text.as_bytes() => Source::NoFile,
        _ => Source::Before(name),
    }
}

// The bytes of the file of a name, after these calls.
fn find<'a>(calls: &'a [Call], name: &'a [u8]) -> Option<&'a [u8]>
    ensures { option_copied result ≡ content_after nothing calls.now name.now }
{
    let mut wanted = name;
    let mut rest = calls;
    while let Some((call, before)) = rest.split_last() {
        match source_of(call, wanted) {
            Source::Bytes(bytes) => return Some(bytes),
            Source::NoFile => return None,
            Source::Before(name) => wanted = name,
        }
        rest = before;
    }
    None
}

// Undoes what a stop does not keep.
fn settle(calls: &mut Vec<Call>, keep: bool)
    ensures stopped { content_after nothing calls.new.items ≡ stopped keep calls.old.items }
    ensures length { length calls.new.items ≡ length calls.old.items }
    ensures capacity { vec_capacity calls.new ≡ vec_capacity calls.old }
{
    if !keep {
        lose_unsynced(calls);
    }
}

// Undoes the calls since the last sync, but for the files that they wrote, which are left empty.
fn lose_unsynced(calls: &mut [Call])
    ensures { content_after nothing calls.new ≡ lost_after nothing nothing calls.old }
{
    let mut i = calls.len();
    while i > 0 {
        i -= 1;
        if is_sync(&calls[i]) {
            return;
        }
        lose(&mut calls[i]);
    }
}

fn is_sync(call: &Call) -> bool
    ensures { result ≡ is_sync call.now }
{
    match call {
        Call::Synced => true,
        _ => false,
    }
}

// Undoes a call that is no sync, but for a file that it wrote, which is left empty.
fn lose(call: &mut Call)
    requires { is_sync call.old ≡ false }
    ensures { (files kept : Content) → done call.new kept ≡ lost call.old files kept }
{
    if let Call::Wrote(_, bytes) = call {
        bytes.clear();
        return;
    }
    *call = Call::Looked;
}
