use druid_folder::{Folder, StoreFault};
use druid_folder_store::DiskFolder;
use std::alloc::{Allocator, Global};
use std::cell::{Cell, RefCell};
use std::fs::{Metadata, OpenFile, OpenOptions};
use std::io::{ErrorKind, Read, Seek, SeekFrom, Write};
use std::marker::Brand;
use std::process::Abort;
use std::rc::Rc;
use std::rt::Files;
use std::{io, str};

// What was called, each call with a space after it, and which call is to fail.
#[derive(Drop)]
struct Tape {
    made: RefCell<String>,
    before_failure: Cell<u64>,
    kind: ErrorKind,
}

impl Tape {
    fn call(&self, what: &str, path: &str) -> io::Result<()> {
        if let Ok(mut made) = self.made.try_borrow_mut() {
            made.push_str(what)?;
            made.push_str(path)?;
            made.push(' ')?;
        }
        let before = self.before_failure.get();
        self.before_failure.set(before.saturating_sub(1));
        if before == 1 {
            return Err(io::Error::from(self.kind));
        }
        Ok(())
    }
}

// A file system in which each path is a file of three bytes, and each folder has the same five files, and one whose name is
// no text.
#[derive(Clone, Drop)]
struct Double {
    alloc: Global,
    tape: Rc<Tape>,
}

// An open file, which takes a byte at a time, and gives as many as are left.
#[derive(Drop)]
struct Opened {
    tape: Rc<Tape>,
    left: usize,
}

// The names in an open folder.
#[derive(Drop)]
struct Entries {
    tape: Rc<Tape>,
    is_read: bool,
}

impl Alloc for Double {
    type A = Global;

    fn alloc(&self) -> Global {
        self.alloc
    }
}

impl Files for Double {
    type File = Opened;

    type Dir = Entries;

    fn open_file(&self, how: &OpenOptions, path: &str) -> io::Result<Opened> {
        let what = if how.asks_truncate() {
            "create:"
        } else {
            "open:"
        };
        self.tape.call(what, path)?;
        Ok(Opened {
            tape: self.tape.clone()?,
            left: 3,
        })
    }

    fn open_dir(&self, path: &str) -> io::Result<Entries> {
        self.tape.call("folder:", path)?;
        Ok(Entries {
            tape: self.tape.clone()?,
            is_read: false,
        })
    }

    fn metadata(&self, path: &str) -> io::Result<Metadata> {
        self.tape.call("status:", path)?;
        Ok(Metadata::of_file(3))
    }

    fn symlink_metadata(&self, path: &str) -> io::Result<Metadata> {
        self.metadata(path)
    }

    fn copy(&self, _from: &str, _to: &str) -> io::Result<u64> {
        Err(io::Error::from(ErrorKind::Unsupported))
    }

    fn rename(&self, from: &str, to: &str) -> io::Result<()> {
        self.tape.call("from:", from)?;
        self.tape.call("to:", to)
    }

    fn remove_file(&self, path: &str) -> io::Result<()> {
        self.tape.call("remove:", path)
    }

    fn create_dir(&self, _path: &str) -> io::Result<()> {
        Err(io::Error::from(ErrorKind::Unsupported))
    }

    fn remove_dir(&self, _path: &str) -> io::Result<()> {
        Err(io::Error::from(ErrorKind::Unsupported))
    }

    fn remove_dir_all<B: Allocator>(&self, _alloc: B, _path: &str) -> io::Result<()> {
        Err(io::Error::from(ErrorKind::Unsupported))
    }
}

impl Read for Opened {
    fn read(&mut self, buf: &mut [u8]) -> io::Result<usize> {
        self.tape.call("read", "")?;
        if self.left == 0 || buf.is_empty() {
            return Ok(0);
        }
        buf[0] = b'x';
        self.left -= 1;
        Ok(1)
    }
}

impl Read for Entries {
    fn read(&mut self, buf: &mut [u8]) -> io::Result<usize> {
        self.tape.call("read", "")?;
        let names = b"e\0c\0\xff\0a\0d\0b\0";
        if self.is_read || buf.len() < names.len() {
            return Ok(0);
        }
        self.is_read = true;
        buf[..names.len()].copy_from_slice(names);
        Ok(names.len())
    }
}

impl Write for Opened {
    fn write(&mut self, buf: &[u8]) -> io::Result<usize> {
        self.tape.call("write", "")?;
        Ok(buf.len().min(1))
    }

    fn flush(&mut self) -> io::Result<()> {
        Ok(())
    }
}

impl Seek for Opened {
    fn seek(&mut self, _to: SeekFrom) -> io::Result<u64> {
        Err(io::Error::from(ErrorKind::Unsupported))
    }
}

impl OpenFile for Opened {
    fn metadata(&self) -> io::Result<Metadata> {
        self.tape.call("status", "")?;
        Ok(Metadata::of_file(3))
    }

    fn set_len(&self, _size: u64) -> io::Result<()> {
        Err(io::Error::from(ErrorKind::Unsupported))
    }

    fn sync_all(&self) -> io::Result<()> {
        self.tape.call("sync", "")
    }

    fn sync_data(&self) -> io::Result<()> {
        self.tape.call("data", "")
    }
}

// A folder over a double of which that call, counted from 1, fails in that way. None does for 0.
fn folder_at(
    rt: &impl Abort,
    alloc: Global,
    path: &str,
    failing: u64,
    kind: ErrorKind,
) -> (DiskFolder<Double, Brand>, Rc<Tape>) {
    let tape = Tape {
        made: RefCell::new(String::new(alloc)),
        before_failure: Cell::new(failing),
        kind,
    };
    let tape = Rc::new(alloc, tape).expect(rt, "memory");
    let double = Double {
        alloc,
        tape: tape.clone().expect(rt, "memory"),
    };
    let path = String::from_str(alloc, path).expect(rt, "memory");
    (DiskFolder::new(double, path), tape)
}

// The same at one path.
fn folder_of(
    rt: &impl Abort,
    alloc: Global,
    failing: u64,
    kind: ErrorKind,
) -> (DiskFolder<Double, Brand>, Rc<Tape>) {
    folder_at(rt, alloc, "d", failing, kind)
}

// What a call on a folder answers, as a text: names and bytes as they are, and a fault as it is printed.
fn answer_of<F: Folder>(rt: &impl Abort, alloc: Global, folder: &mut F, call: &str) -> String {
    let answer = match call {
        "list" => names_listed(rt, alloc, folder),
        "read" => bytes_read(rt, alloc, folder),
        "write" => done(rt, alloc, folder.write("a", b"pq")),
        "sync" => done(rt, alloc, folder.sync()),
        "rename" => done(rt, alloc, folder.rename("a", "b")),
        _ => done(rt, alloc, folder.remove("a")),
    };
    match answer {
        Ok(text) => text,
        Err(fault) => format!(in alloc; "{fault}, {}", folder.faults()).expect(rt, "memory"),
    }
}

fn owned(rt: &impl Abort, alloc: Global, text: &str) -> String {
    String::from_str(alloc, text).expect(rt, "memory")
}

fn names_listed<F: Folder>(
    rt: &impl Abort,
    alloc: Global,
    folder: &mut F,
) -> Result<String, StoreFault> {
    let mut text = String::new(alloc);
    for name in folder.list(alloc)? {
        text.push_str(name.as_str()).expect(rt, "memory");
    }
    Ok(text)
}

fn bytes_read<F: Folder>(
    rt: &impl Abort,
    alloc: Global,
    folder: &mut F,
) -> Result<String, StoreFault> {
    match folder.read(alloc, "a") {
        Ok(Some(bytes)) => Ok(owned(rt, alloc, str::from_utf8(&bytes).unwrap_or("no text"))),
        Ok(None) => Ok(owned(rt, alloc, "no file")),
        Err(fault) => Err(fault),
    }
}

fn done(
    rt: &impl Abort,
    alloc: Global,
    answer: Result<(), StoreFault>,
) -> Result<String, StoreFault> {
    match answer {
        Ok(()) => Ok(owned(rt, alloc, "done")),
        Err(fault) => Err(fault),
    }
}

// The text of the calls that a tape keeps.
fn made_on(rt: &impl Abort, alloc: Global, tape: &Tape) -> String {
    let made = tape.made.try_borrow().expect(rt, "the calls");
    owned(rt, alloc, made.as_str())
}

// Asserts that a call on the folder at that path answers that, with those calls of the system. The file takes a byte at a time.
fn assert_makes(rt: &impl Abort, alloc: Global, path: &str, call: &str, answer: &str, calls: &str) {
    let (mut folder, tape) = folder_at(rt, alloc, path, 0, ErrorKind::Other);
    let given = answer_of(rt, alloc, &mut folder, call);
    assert!(rt; given.as_str() == answer, "{call}: {given}");
    let made = made_on(rt, alloc, &tape);
    assert!(rt; made.as_str() == calls, "{call}: {made}");
}

// What a call answers where one call of the system fails in that way.
fn answer_with(
    rt: &impl Abort,
    alloc: Global,
    call: &str,
    failing: u64,
    kind: ErrorKind,
) -> String {
    let (mut folder, _tape) = folder_of(rt, alloc, failing, kind);
    answer_of(rt, alloc, &mut folder, call)
}

// A call, what it answers, and the calls of the system.
const CALLS_MADE: [(&str, &str, &str); 6] = [
    (
        "list",
        "abcde",
        "folder:d/ read status:d/e status:d/c status:d/a status:d/d status:d/b read ",
    ),
    ("read", "xxx", "status:d/a open:d/a read read read read "),
    ("write", "done", "create:d/a write write sync "),
    ("sync", "done", "open:d sync "),
    ("rename", "done", "from:d/a to:d/b "),
    ("remove", "done", "remove:d/a "),
];

#[test]
fn calls_of_the_system(rt: HostRuntime) {
    for (call, answer, calls) in &CALLS_MADE {
        assert_makes(&rt, rt.alloc(), "d", call, answer, calls);
    }
}

// The same of a folder whose path is empty: it is the working folder, and not the root.
const CALLS_WITHOUT_A_PATH: [(&str, &str, &str); 6] = [
    (
        "list",
        "abcde",
        "folder:./ read status:./e status:./c status:./a status:./d status:./b read ",
    ),
    ("read", "xxx", "status:a open:a read read read read "),
    ("write", "done", "create:a write write sync "),
    ("sync", "done", "open:. sync "),
    ("rename", "done", "from:a to:b "),
    ("remove", "done", "remove:a "),
];

#[test]
fn working_folder(rt: HostRuntime) {
    for (call, answer, calls) in &CALLS_WITHOUT_A_PATH {
        assert_makes(&rt, rt.alloc(), "", call, answer, calls);
    }
}

// Whether a call answers O1, once counted, whichever of that many calls of the system fails.
fn fails_at_each(rt: &impl Abort, alloc: Global, call: &str, calls: u64) -> bool {
    for failing in 1..=calls {
        let answer = answer_with(rt, alloc, call, failing, ErrorKind::PermissionDenied);
        if answer.as_str() != "O1: the device failed, 1" {
            return false;
        }
    }
    true
}

#[test]
fn each_call_of_the_system_fails(rt: HostRuntime) {
    for (call, _answer, calls) in &CALLS_MADE {
        let number = calls.matches(' ').count() as u64;
        assert!(rt; fails_at_each(&rt, rt.alloc(), call, number), "{call}");
    }
}

// A call, which call of the system finds nothing, and the answer.
const CALLS_IN_VAIN: [(&str, u64, &str); 8] = [
    ("list", 1, "O1: the device failed, 1"),
    ("list", 3, "abcd"),
    ("read", 1, "no file"),
    ("read", 2, "O1: the device failed, 1"),
    ("write", 1, "O1: the device failed, 1"),
    ("sync", 1, "O1: the device failed, 1"),
    ("rename", 1, "O1: the device failed, 1"),
    ("remove", 1, "done"),
];

#[test]
fn nothing_of_the_name(rt: HostRuntime) {
    for (call, failing, answer) in &CALLS_IN_VAIN {
        let given = answer_with(&rt, rt.alloc(), call, *failing, ErrorKind::NotFound);
        assert!(rt; given.as_str() == *answer, "{call}: {given}");
    }
}

// Which call of the system a call fails at, and what the folder answers to a sync after it.
const SYNCS_AFTER: [(&str, u64, &str); 10] = [
    ("write", 0, "done"),
    ("write", 1, "O1: the device failed, 2"),
    ("write", 2, "O1: the device failed, 2"),
    ("write", 4, "O1: the device failed, 2"),
    ("sync", 1, "O1: the device failed, 2"),
    ("sync", 2, "O1: the device failed, 2"),
    ("list", 1, "done"),
    ("read", 2, "done"),
    ("rename", 1, "done"),
    ("remove", 1, "done"),
];

// How many calls of the system a tape keeps.
fn count_of(rt: &impl Abort, alloc: Global, tape: &Tape) -> usize {
    made_on(rt, alloc, tape).matches(' ').count()
}

// What a folder answers to a sync after that call, and how many calls of the system the sync makes.
fn syncs_after(rt: &impl Abort, alloc: Global, call: &str, failing: u64) -> (String, usize) {
    let (mut folder, tape) = folder_of(rt, alloc, failing, ErrorKind::Other);
    answer_of(rt, alloc, &mut folder, call);
    let before = count_of(rt, alloc, &tape);
    let answer = answer_of(rt, alloc, &mut folder, "sync");
    (answer, count_of(rt, alloc, &tape).wrapping_sub(before))
}

#[test]
fn a_sync_after_a_failed_one_or_a_failed_write_fails(rt: HostRuntime) {
    for (call, failing, answer) in &SYNCS_AFTER {
        let (given, made) = syncs_after(&rt, rt.alloc(), call, *failing);
        assert!(rt; given.as_str() == *answer, "{call} {failing}: {given}");
        let wanted = if given.as_str() == "done" { 2 } else { 0 };
        assert!(rt; made == wanted, "{call} {failing}: {made}");
    }
}

// A write that succeeds does not make up for one that failed: what failed may be another file.
#[test]
fn a_write_after_a_failed_one_makes_no_sync(rt: HostRuntime) {
    let (mut folder, _tape) = folder_of(&rt, rt.alloc(), 4, ErrorKind::Other);
    answer_of(&rt, rt.alloc(), &mut folder, "write");
    let write = answer_of(&rt, rt.alloc(), &mut folder, "write");
    assert!(rt; write.as_str() == "done", "{write}");
    let sync = answer_of(&rt, rt.alloc(), &mut folder, "sync");
    assert!(rt; sync.as_str() == "O1: the device failed, 2", "{sync}");
}
