//! Scripts of commands, as rows of lines and their answers.
use druid_replay::{ReplayFault, replay};
use std::alloc::Global;
use std::process::Abort;

// Names, and what each stands for: parts of a reply, and changes.
const NAMED: &str = r#"brokers = {"count":1,"do":"brokers","nodes":["n0","n1"]}
node0 = {"broker":0,"do":"reply","node":0,"reply":
node1 = {"broker":0,"do":"reply","node":1,"reply":
second0 = {"broker":1,"do":"reply","node":0,"reply":
second1 = {"broker":1,"do":"reply","node":1,"reply":
at1 = {"counter":{"counter":1,"hash":1},"from":null,"requests":[
at2 = {"counter":{"counter":2,"hash":1},"from":null,"requests":[
at4 = {"counter":{"counter":4,"hash":1},"from":null,"requests":[
page1 = {"counter":{"counter":1,"hash":1},"from":null,"page":0,"pages":2,"requests":[
last1 = {"counter":{"counter":1,"hash":1},"from":null,"page":1,"pages":2,"requests":[
to = {"counter":{"counter":
from = ,"hash":1},"from":{"counter":
by = ,"hash":1},"requests":[
end = ],"resetCause":null,"resetCounter":false}
begun = ],"resetCause":"TooOld","resetCounter":true}
load = {"action":"load","dataSource":"wiki","interval":"2024-01-01/2024-01-02",
drop = {"action":"drop","dataSource":"wiki","interval":"2024-01-01/2024-01-02",
load2 = {"action":"load","dataSource":"wiki","interval":"2024-01-01T10:00/2024-01-01T12:00",
drop2 = {"action":"drop","dataSource":"wiki","interval":"2024-01-01T10:00/2024-01-01T12:00",
v2 = "shardSpec":{"partitionNum":0,"partitions":1,"type":"numbered"},"size":0,"version":"v2"}
tomb2 = "shardSpec":{"partitionNum":0,"partitions":1,"type":"numbered"},"size":0,"tombstone":true,"version":"v2"}
p0of1 = "shardSpec":{"partitionNum":0,"partitions":1,"type":"numbered"},"size":0,"version":"v1"}
p1of1 = "shardSpec":{"partitionNum":1,"partitions":1,"type":"numbered"},"size":0,"version":"v1"}
p0of2 = "shardSpec":{"partitionNum":0,"partitions":2,"type":"numbered"},"size":0,"version":"v1"}
p1of2 = "shardSpec":{"partitionNum":1,"partitions":2,"type":"numbered"},"size":0,"version":"v1"}
hashed = "shardSpec":{"partitionNum":0,"partitions":1,"type":"hashed"},"size":0,"version":"v1"}
lookup = {"broker":0,"do":"lookup","interval":"2024-01-01/2024-01-03","source":"wiki"}
day = 2024-01-01T00:00:00.000Z/2024-01-02T00:00:00.000Z
morning = 2024-01-01T00:00:00.000Z/2024-01-01T10:00:00.000Z
noon = 2024-01-01T10:00:00.000Z/2024-01-01T12:00:00.000Z
rest = 2024-01-01T12:00:00.000Z/2024-01-02T00:00:00.000Z
moved1 = {"mark":{"counter":1,"hash":1},"outcome":"Moved"}
moved2 = {"mark":{"counter":2,"hash":1},"outcome":"Moved"}"#;

/// What a name in a row stands for.
pub(crate) fn named(name: &str) -> &'static str {
    for row in NAMED.lines() {
        if let Some((known, text)) = row.split_once(" = ")
            && known == name
        {
            return text;
        }
    }
    "?"
}

/// Appends a text.
pub(crate) fn push(rt: &impl Abort, text: &mut String, more: &str) {
    text.push_str(more).expect(rt, "memory");
}

// Appends a part of a row: what stands before a `;` is the name of something.
fn push_part(rt: &impl Abort, text: &mut String, part: &str) {
    match part.split_once(';') {
        Some((name, rest)) => {
            push(rt, text, named(name));
            push(rt, text, rest);
        }
        None => push(rt, text, part),
    }
}

/// Appends a text, in which `@name;` stands for what it names.
pub(crate) fn push_row(rt: &impl Abort, text: &mut String, row: &str) {
    for part in row.split('@') {
        push_part(rt, text, part);
    }
    push(rt, text, "\n");
}

/// Asserts how a run over an input ends, and what it writes.
pub(crate) fn assert_run(
    rt: &impl Abort,
    alloc: Global,
    input: &[u8],
    end: Result<(), ReplayFault>,
    answers: &[u8],
) {
    let mut reader = input;
    let mut written = Vec::new(alloc);
    let got = replay(alloc, &mut reader, &mut written);
    assert!(rt; got == end && written.as_slice() == answers);
}

// How a script ends: `bad` in place of the answer to its last line ends it there.
fn end_of(rows: &str) -> Result<(), ReplayFault> {
    if rows.ends_with(" => bad") {
        return Err(ReplayFault::BadCommand(rows.lines().count() as u64));
    }
    Ok(())
}

/// Asserts that the lines of a script, one after another, are answered as the rows say: `LINE => ANSWER`, and in the last
/// row `bad` ends it.
pub(crate) fn assert_answered(rt: &impl Abort, alloc: Global, rows: &str) {
    let mut script = String::new(alloc);
    let mut wanted = String::new(alloc);
    for row in rows.lines() {
        let (line, answer) = row.split_once(" => ").expect(rt, "no row");
        push_row(rt, &mut script, line);
        if answer != "bad" {
            push_row(rt, &mut wanted, answer);
        }
    }
    let end = end_of(rows);
    assert_run(rt, alloc, script.as_bytes(), end, wanted.as_bytes());
}

/// Asserts that node 0's reply is refused for its length: it begins so, and has one change and so many more.
pub(crate) fn assert_too_many(rt: &impl Abort, alloc: Global, begun: &str, more: u64) {
    let mut rows = String::new(alloc);
    push(rt, &mut rows, "@brokers; => {\"brokers\":1}\n@node0;");
    push(rt, &mut rows, begun);
    push(rt, &mut rows, "@load;@p0of1;");
    for _ in 0..more {
        push(rt, &mut rows, ",@load;@p0of1;");
    }
    push(rt, &mut rows, "@end;} => {\"refused\":\"Y5\"}");
    assert_answered(rt, alloc, rows.as_str());
}
