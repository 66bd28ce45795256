//! Files that a node loads once it stands, and those that it finds by looks at its folder.
use crate::host::reporter;
use druid_folder::Folder;
use druid_folder_store::MemoryFolder;
use druid_node::{DataNode, Incarnation, NodeState};
use druid_segment_descriptor::Mark;
use druid_serve_node::{KnownFiles, Watch};
use std::alloc::Global;
use std::process::Abort;
use std::str;
use std::sync::Wait;
use std::thread::Threads;

// The incarnation of the node here.
struct First;

impl Incarnation for First {
    ghost number = { 1 };
}

// The file of a segment of the source `w`, as other programs spell it: examples/vector.dsg.
const FILE: &[u8] =
    b"DSG1\x01w\0\0\0\0\0\0\0\0\0\0\0\0\x05\x26\x5c\0\x01v\0\0\0\x01\0\0\0\0\0\0\0\0\x01\x01d\x01\x01m\0\0\0\x01\0\0\0\0\0\0\x03\xe8\x01\0\x01x\x01\0\0\0\0\0\0\0\x05";

const NAME: &str = "w_1970-01-01T00:00:00.000Z_1970-01-02T00:00:00.000Z_v.seg";

// What a node tells that serves that segment alone.
const SERVED: &str =
    "\r\n\r\n{\"counter\":{\"counter\":1,\"hash\":1},\"from\":null,\"requests\":[{\"action\":\"load\",\"dataSource\":\"w\",\"interval\":\"1970-01-01T00:00:00.000Z/1970-01-02T00:00:00.000Z\",\"shardSpec\":{\"partitionNum\":0,\"partitions\":1,\"type\":\"numbered\"},\"size\":0,\"version\":\"v\"}],\"resetCause\":null,\"resetCounter\":false}";

// A folder of that file, and of one that is no segment.
fn folder(rt: &impl Abort, alloc: Global) -> MemoryFolder {
    let mut folder = MemoryFolder::new(alloc);
    folder.write("other", b"no segment").expect(rt, "a file");
    folder.write(NAME, FILE).expect(rt, "a file");
    folder
}

// What is to be loaded later: a file that is not there, one that is refused, and the segment's.
fn names(rt: &impl Abort, alloc: Global) -> Vec<String> {
    let mut names = Vec::new(alloc);
    for name in ["none.seg", "other", NAME] {
        let name = String::from_str(alloc, name).expect(rt, "memory");
        names.push(name).expect(rt, "memory");
    }
    names
}

// A node without segments.
fn node(rt: &impl Abort, alloc: Global) -> DataNode<First> {
    DataNode::new(NodeState::new(alloc, 1, 10).expect(rt, "a node"), 1)
}

// What a node tells of its segments.
fn reported<R: Wait + Threads + Abort>(rt: &R, alloc: Global, node: &DataNode<First>) -> String {
    let mut reader = b"GET /druid-internal/v1/segments HTTP/1.1\r\n\r\n".as_slice();
    let mut written = Vec::new(alloc);
    let served = node.serve_one(rt, &mut reader, &mut written, &mut Mark::never());
    assert!(rt; served.is_ok());
    let text = str::from_utf8(&written).expect(rt, "a text");
    String::from_str(alloc, text).expect(rt, "memory")
}

#[test]
fn loads_later(rt: HostRuntime) {
    let node = node(&rt, rt.alloc());
    let names = names(&rt, rt.alloc());
    let mut folder = folder(&rt, rt.alloc());
    let mut watch = Watch::new(KnownFiles::new(rt.alloc()), Mark::new(1, 0));
    let mut reporter = reporter(&rt, rt.alloc());
    let tried = watch.try_due(&rt, &node, &mut folder, 0, &names, &mut reporter);
    assert!(&rt; tried.is_ok());
    assert!(&rt; watch.seen() == Mark::new(1, 1));
    let reported = reported(&rt, rt.alloc(), &node);
    assert!(rt; reported.as_str().ends_with(SERVED), "{reported}");
}

// Does to a folder what a word says: the file comes whole or cut, or goes.
fn change(rt: &impl Abort, folder: &mut MemoryFolder, word: &str) {
    match word {
        "cut" => folder.write(NAME, b"DSG1").expect(rt, "a file"),
        "whole" => folder.write(NAME, FILE).expect(rt, "a file"),
        "away" => folder.remove(NAME).expect(rt, "a folder"),
        _ => (),
    }
}

// Whether a node is at the mark of a row's count, and serves the segment or none.
fn is_as(rt: &impl Abort, alloc: Global, reported: &str, wanted: &str) -> bool {
    let (count, served) = wanted.split_once(' ').expect(rt, "no row");
    let mark = format!(in alloc; "{{\"counter\":{count},\"hash\":1}}").expect(rt, "memory");
    reported.contains(mark.as_str())
        && reported.contains("\"action\":\"load\"") == (served == "served")
}

// Looks, one after another, over a folder that changes before each. A file that is refused at looks 2 and 3 is tried again at look 5
// alone; one that is away is dropped at once, and loaded at once when it comes back.
#[test]
fn looks(rt: HostRuntime) {
    let rows = "nothing -> 0 none
cut -> 0 none
nothing -> 0 none
whole -> 0 none
nothing -> 1 served
nothing -> 1 served
away -> 2 none
nothing -> 2 none
whole -> 3 served";
    let alloc = rt.alloc();
    let node = node(&rt, alloc);
    let mut folder = MemoryFolder::new(alloc);
    folder.write("other", FILE).expect(&rt, "a file");
    let mut watch = Watch::new(KnownFiles::new(alloc), Mark::new(1, 0));
    let mut reporter = reporter(&rt, alloc);
    let mut look = 0_u64;
    for row in rows.lines() {
        look = look.saturating_add(1);
        let (word, wanted) = row.split_once(" -> ").expect(&rt, "no row");
        change(&rt, &mut folder, word);
        let looked = watch.look(&rt, alloc, &node, &mut folder, look, &mut reporter);
        assert!(&rt; looked.is_ok());
        let reported = reported(&rt, alloc, &node);
        assert!(&rt;
            is_as(&rt, alloc, reported.as_str(), wanted),
            "{look}: {reported}"
        );
    }
}
