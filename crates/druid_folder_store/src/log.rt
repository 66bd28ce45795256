//! The calls made on a folder of the system, for proofs.
ghost use Rattle.std.specs.Prelude.{◌≡◌, true, List, [], ◌∷◌};
ghost use Rattle.std.specs.Borrow.{ftrue};
ghost use Rattle.druid_folder_store.specs.Event.{Event};
ghost use Rattle.druid_folder_store.specs.Honest.{is_kept, AreKept};

use druid_folder::StoreFault;
use std::marker::Model;

// The calls made on a folder of the system, the newest first, each with its answer. Only proofs
// read it: it takes no room, and its methods do nothing at run time. That a note tells what was
// done is the author's word, which tests check over a double of the system's files.
#[derive(Drop)]
pub(crate) struct FolderLog {
    pub ghost events: { List Event },
}

impl Model for FolderLog {
    ghost also_owns = { λ _. ftrue };
}

// It owns nothing.
unsafe impl Send for FolderLog {}

// A call, with what it was given and what it answered.
#[derive(Clone, Copy, Drop)]
pub(crate) enum FolderNote<'a> {
    List(&'a Result<Vec<String>, StoreFault>),
    Read(&'a str, &'a Result<Option<Vec<u8>>, StoreFault>),
    Write(&'a str, &'a [u8], bool),
    Sync(bool),
    Rename(&'a str, &'a str, bool),
    Remove(&'a str, bool),
}

impl FolderLog {
    ghost use Rattle.druid_folder_store.specs.Noted.{event_of};

    pub(crate) fn new() -> FolderLog
        ensures { result.events ≡ [] }
    {
        FolderLog {}
    }

    pub(crate) fn then(&self, _note: &FolderNote<'_>) -> FolderLog
        ensures { result.events ≡ event_of _note.now ∷ self.now.events }
    {
        FolderLog {}
    }
}

impl FolderNote<'_> {
    ghost use Rattle.druid_folder_store.specs.Noted.{event_of};

    // Whether it was no write and no sync that failed.
    fn is_kept(&self) -> bool
        ensures { result ≡ is_kept (event_of self.now) }
    {
        match *self {
            FolderNote::Write(_, _, done) | FolderNote::Sync(done) => done,
            _ => true,
        }
    }
}

// The calls made on a folder of the system, and whether no write and no sync among them failed.
#[derive(Drop)]
pub(crate) struct Calls {
    pub(crate) log: FolderLog,
    pub(crate) all_kept: bool,
    ghost valid: { all_kept ≡ true → AreKept log.events },
}

impl Calls {
    ghost use Rattle.druid_folder_store.specs.Noted.{event_of};

    pub(crate) fn new() -> Calls
        ensures { result.log.events ≡ [] }
    {
        Calls {
            log: FolderLog::new(),
            all_kept: true,
        }
    }

    // These, and one more.
    pub(crate) fn then(&self, note: &FolderNote<'_>) -> Calls
        ensures { result.log.events ≡ event_of note.now ∷ self.now.log.events }
    {
        Calls {
            log: self.log.then(note),
            all_kept: self.all_kept && note.is_kept(),
        }
    }
}
