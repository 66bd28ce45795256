//! The number of a node's incarnation.
use crate::store::answers;
use druid_folder::{Folder, StoreFault};
use druid_folder_incarnation::next_incarnation;
use druid_folder_store::MemoryFolder;
use std::alloc::Global;
use std::process::Abort;

// A folder in memory whose file has these bytes.
fn folder_with(rt: &impl Abort, alloc: Global, bytes: &[u8]) -> MemoryFolder {
    let mut folder = MemoryFolder::new(alloc);
    folder.write("incarnation", bytes).expect(rt, "a write");
    folder
}

// The text of a file, the answer, and the text afterwards.
const NUMBERS: [(&str, &str, &str); 8] = [
    ("7\n", "8\n", "8\n"),
    ("99\n", "100\n", "100\n"),
    ("999\n", "1000\n", "1000\n"),
    ("9876\n", "9877\n", "9877\n"),
    (
        "1234567890123456789\n",
        "1234567890123456790\n",
        "1234567890123456790\n",
    ),
    (
        "18446744073709551614\n",
        "18446744073709551615\n",
        "18446744073709551615\n",
    ),
    (
        "18446744073709551615\n",
        "O3: the last incarnation number",
        "18446744073709551615\n",
    ),
    ("07\n", "O2: a bad incarnation number", "07\n"),
];

// Whether a folder in memory whose file has the first text before answers so.
fn answers_after(rt: &impl Abort, alloc: Global, before: &str, answer: &str, after: &str) -> bool {
    let mut folder = folder_with(rt, alloc, before.as_bytes());
    answers(rt, alloc, &mut folder, answer, after)
}

#[test]
fn next_numbers(rt: HostRuntime) {
    let alloc = rt.alloc();
    assert!(rt; answers(&rt, alloc, &mut MemoryFolder::new(alloc), "1\n", "1\n"));
    for (before, answer, after) in &NUMBERS {
        assert!(rt;
            answers_after(&rt, alloc, before, answer, after),
            "{before:?}"
        );
    }
}

// Each start has the number after that of the one before, however many there were.
#[test]
fn many_starts(rt: HostRuntime) {
    let mut folder = MemoryFolder::new(rt.alloc());
    for number in 1..=1_100 {
        assert_eq!(rt; next_incarnation(rt.alloc(), &mut folder), Ok(number));
    }
}

// Which folder call of a start fails (read, write, sync, rename, sync), and the number of the next start.
const FAILING_CALLS: [(u64, u64); 5] = [(0, 8), (1, 8), (2, 8), (3, 8), (4, 9)];

// Whether a start of which that call fails is O1, once counted, and the next has this number.
fn fails_at(rt: &impl Abort, alloc: Global, call: u64, next: u64) -> bool {
    let mut folder = folder_with(rt, alloc, b"7\n");
    folder.fuse(call);
    next_incarnation(alloc, &mut folder) == Err(StoreFault::Device)
        && folder.faults() == 1
        && next_incarnation(alloc, &mut folder) == Ok(next)
}

#[test]
fn failing_incarnation(rt: HostRuntime) {
    for (call, next) in &FAILING_CALLS {
        assert!(rt; fails_at(&rt, rt.alloc(), *call, *next), "{call}");
    }
}

// Before which folder call of a start a stop falls, or after the last one; whether it keeps what was not synced; and the
// number of the next start. It is above 7, and above 8 where that was handed out.
const STOPS: [(u64, bool, u64); 12] = [
    (0, false, 8),
    (0, true, 8),
    (1, false, 8),
    (1, true, 8),
    (2, false, 8),
    (2, true, 8),
    (3, false, 8),
    (3, true, 8),
    (4, false, 8),
    (4, true, 9),
    (5, false, 9),
    (5, true, 9),
];

// Whether a start that does so many of its five calls has the number 8.
fn starts(alloc: Global, folder: &mut MemoryFolder, calls: u64) -> bool {
    if calls < 5 {
        folder.fuse(calls);
    }
    next_incarnation(alloc, folder) == Ok(8)
}

// Whether the next start after such a stop has this number.
fn goes_on(rt: &impl Abort, alloc: Global, calls: u64, keep: bool, next: u64) -> bool {
    let mut folder = folder_with(rt, alloc, b"7\n");
    folder.sync().expect(rt, "a sync");
    let is_started = starts(alloc, &mut folder, calls);
    folder.stop(keep).expect(rt, "a stop");
    is_started == (calls == 5) && next_incarnation(alloc, &mut folder) == Ok(next)
}

#[test]
fn stopped_starts(rt: HostRuntime) {
    for (calls, keep, next) in &STOPS {
        assert!(rt;
            goes_on(&rt, rt.alloc(), *calls, *keep, *next),
            "{calls} {keep}"
        );
    }
}

// Whether these bytes are no number.
fn is_bad(rt: &impl Abort, alloc: Global, bytes: &[u8]) -> bool {
    let mut folder = folder_with(rt, alloc, bytes);
    next_incarnation(alloc, &mut folder) == Err(StoreFault::BadNumber)
}

const TEXTS_WITHOUT_A_NUMBER: [&str; 16] = [
    "",
    "\n",
    "0\n",
    "+7\n",
    "-7\n",
    " 7\n",
    "7 \n",
    "7\r\n",
    "7",
    "8\n\n",
    "8\n8\n",
    "0x8\n",
    "8.0\n",
    "18446744073709551616\n",
    "100000000000000000000\n",
    "\u{667}\n",
];

#[test]
fn files_without_a_number(rt: HostRuntime) {
    for text in &TEXTS_WITHOUT_A_NUMBER {
        assert!(rt; is_bad(&rt, rt.alloc(), text.as_bytes()), "at {text:?}");
    }
    assert!(rt; is_bad(&rt, rt.alloc(), &[55, 255, 10]));
}
