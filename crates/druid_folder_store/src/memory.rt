//! Folders in memory, for tests: they are always honest.
ghost use Rattle.std.specs.Prelude.{◌≡◌, true, false, Some, None, IfErr, OnOk, OnErr};
ghost use Rattle.druid_folder.specs.declared.fault.StoreFault.TheVariants.{Memory};
ghost use Rattle.druid_folder.specs.Folder.{Only, SameLeft, nothing};
ghost use Rattle.druid_folder_store.specs.Fuse.{fuse_of, fuse_after, fails, lost_of};

use crate::record::CallRecord;
use druid_folder::{Folder, StoreFault, is_file_name};
use std::alloc::Global;

/// A folder in memory, which is honest. It keeps each call but those of `faults` and the one that
/// `fuse` has fail, and its files are what those calls made of them: a call that finds no memory
/// for that is O9 and changes nothing. `stop` leaves it as a stop does.
#[derive(Drop)]
pub struct MemoryFolder {
    files: CallRecord,
    fuse: Option<u64>,
}

impl MemoryFolder {
    /// A folder without files.
    pub fn new(alloc: Global) -> MemoryFolder
        ensures honest { ⟦<MemoryFolder as Folder>⟧.is_honest result }
        ensures content { ⟦<MemoryFolder as Folder>⟧.content result ≡ nothing }
        ensures stop { Only nothing (⟦<MemoryFolder as Folder>⟧.may_leave result) }
        ensures faults { ⟦<MemoryFolder as Folder>⟧.faults result ≡ 0 }
        ensures fuse { fuse_of result ≡ None }
    {
        MemoryFolder {
            files: CallRecord::new(alloc),
            fuse: None,
        }
    }

    /// Of the calls made after this, numbered from 0, call `k` fails: it is O1, does not do its
    /// work, and counts in `faults`. A call that is O4, a read under a name that no file can have,
    /// and `faults` have no number. A later `fuse` replaces this one.
    pub fn fuse(&mut self, k: u64)
        ensures fuse { fuse_of self.new ≡ Some k }
        ensures content { ⟦<MemoryFolder as Folder>⟧.content self.new
            ≡ ⟦<MemoryFolder as Folder>⟧.content self.old }
        ensures stop { SameLeft (⟦<MemoryFolder as Folder>⟧.may_leave self.old)
            (⟦<MemoryFolder as Folder>⟧.may_leave self.new) }
        ensures faults { ⟦<MemoryFolder as Folder>⟧.faults self.new
            ≡ ⟦<MemoryFolder as Folder>⟧.faults self.old }
        ensures honest { ⟦<MemoryFolder as Folder>⟧.is_honest self.new }
    {
        self.fuse = Some(k);
    }

    /// Makes it the folder after a stop. Where the stop keeps what was not synced, all is there;
    /// where it does not, what was not synced is undone, and a file written since is there and
    /// empty. The fuse stays.
    ///
    /// # Errors
    ///
    /// O9. Leaves all as it was.
    pub fn stop(&mut self, keep: bool) -> Result<(), StoreFault>
        ensures kept { keep ≡ true → ⟦<MemoryFolder as Folder>⟧.content self.new
            ≡ ⟦<MemoryFolder as Folder>⟧.content self.old }
        ensures lost { keep ≡ false → OnOk result
            (⟦<MemoryFolder as Folder>⟧.content self.new ≡ lost_of self.old) }
        ensures left { OnOk result (⟦<MemoryFolder as Folder>⟧.may_leave self.old
            (⟦<MemoryFolder as Folder>⟧.content self.new)) }
        ensures stable { OnOk result (Only (⟦<MemoryFolder as Folder>⟧.content self.new)
            (⟦<MemoryFolder as Folder>⟧.may_leave self.new)) }
        ensures refused { OnErr result (⟦<MemoryFolder as Folder>⟧.content self.new
            ≡ ⟦<MemoryFolder as Folder>⟧.content self.old) }
        ensures refused_left { OnErr result (SameLeft (⟦<MemoryFolder as Folder>⟧.may_leave self.old)
            (⟦<MemoryFolder as Folder>⟧.may_leave self.new)) }
        ensures fault { IfErr result (λ e. e ≡ Memory) }
        ensures faults { ⟦<MemoryFolder as Folder>⟧.faults self.new
            ≡ ⟦<MemoryFolder as Folder>⟧.faults self.old }
        ensures fuse { fuse_of self.new ≡ fuse_of self.old }
        ensures honest { ⟦<MemoryFolder as Folder>⟧.is_honest self.new }
    {
        self.files.stop(keep)
    }
}

impl Folder for MemoryFolder {
    ghost use Rattle.std.specs.Prelude.{length};
    ghost use Rattle.druid_folder.specs.Folder.{nothing};
    ghost use Rattle.druid_folder_store.specs.Fuse.{calls_in, failures_in};
    ghost use Rattle.druid_folder_store.specs.Record.{content_after, IsLeft, LeftSince};
    ghost use Rattle.druid_folder_store.specs.RecordLaws.{content_may_stay, now_counts, now_alone};

    ghost is_honest = { λ m. Unit {0} };

    ghost content = { λ m. content_after nothing (calls_in m) };

    ghost may_leave = { λ m. IsLeft (calls_in m) };

    ghost moment = { λ m. length (calls_in m) };

    ghost left_since = { λ m. LeftSince (calls_in m) };

    ghost faults = { failures_in };

    ghost may_stay = { λ m h. content_may_stay (calls_in m) };

    ghost counts_now = { λ m t c h le left. now_counts (calls_in m) t c le left };

    ghost only_now = { λ m c h left. now_alone (calls_in m) c left };

    fn list(&mut self, alloc: Global) -> Result<Vec<String>, StoreFault> {
        if burns(&mut self.fuse) {
            return Err(self.files.fail());
        }
        self.files.list(alloc)
    }

    fn read(&mut self, alloc: Global, name: &str) -> Result<Option<Vec<u8>>, StoreFault> {
        if is_file_name(name) && burns(&mut self.fuse) {
            return Err(self.files.fail());
        }
        self.files.read(alloc, name)
    }

    fn write(&mut self, name: &str, bytes: &[u8]) -> Result<(), StoreFault> {
        if is_file_name(name) && burns(&mut self.fuse) {
            return Err(self.files.fail());
        }
        self.files.write(name, bytes)
    }

    fn sync(&mut self) -> Result<(), StoreFault> {
        if burns(&mut self.fuse) {
            return Err(self.files.fail());
        }
        self.files.sync()
    }

    fn rename(&mut self, from: &str, to: &str) -> Result<(), StoreFault> {
        if is_file_name(from) && is_file_name(to) && burns(&mut self.fuse) {
            return Err(self.files.fail());
        }
        self.files.rename(from, to)
    }

    fn remove(&mut self, name: &str) -> Result<(), StoreFault> {
        if is_file_name(name) && burns(&mut self.fuse) {
            return Err(self.files.fail());
        }
        self.files.remove(name)
    }

    fn faults(&self) -> u64 {
        self.files.faults()
    }
}

// Whether the call that begins is the one that fails. The fuse goes on to the next.
fn burns(fuse: &mut Option<u64>) -> bool
    ensures now { result ≡ fails fuse.old }
    ensures next { fuse.new ≡ fuse_after fuse.old }
{
    match *fuse {
        None => false,
        Some(0) => {
            *fuse = None;
            true
        }
        Some(k) => {
            *fuse = Some(k - 1);
            false
        }
    }
}
