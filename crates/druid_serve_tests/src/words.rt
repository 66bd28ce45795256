//! What the program does with its words, and what it reports of its end.
use crate::host::{Host, environment};
use druid_program::{Ending, run};
use std::alloc::Global;
use std::io::{ErrorKind, Write};
use std::net::{Net, TcpListener, TcpStream};
use std::process::Abort;
use std::str;

const USAGE: &str = "usage: druid_cluster replay | druid_cluster serve CONFIG\n";

fn words_of(rt: &impl Abort, alloc: Global, line: &str) -> Vec<String> {
    let mut words = Vec::new(alloc);
    for word in line.split_whitespace() {
        let word = String::from_str(alloc, word).expect(rt, "memory");
        words.push(word).expect(rt, "memory");
    }
    words
}

// The program with these words over an input, which reports to that writer; and what it printed.
fn ended<R: Host + Net<Listener = TcpListener, Stream = TcpStream>, E: Write>(
    rt: &R,
    alloc: Global,
    words: &str,
    mut input: &[u8],
    errors: &mut E,
    explain: bool,
) -> (Ending, Vec<u8>) {
    let words = words_of(rt, alloc, words);
    let mut out = Vec::new(alloc);
    let environment = environment(rt, alloc, explain);
    let ending = run(
        rt,
        alloc,
        Ok(words),
        &environment,
        &mut input,
        &mut out,
        errors,
    );
    (ending, out)
}

// Asserts the status, the print and the report of words over an input.
fn assert_ended<R: Host + Net<Listener = TcpListener, Stream = TcpStream>>(
    rt: &R,
    alloc: Global,
    words: &str,
    input: &str,
    explain: bool,
    wanted: (u8, &str, &str),
) {
    let mut errors = Vec::new(alloc);
    let (ending, out) = ended(rt, alloc, words, input.as_bytes(), &mut errors, explain);
    let (status, printed, reported) = wanted;
    let report = str::from_utf8(&errors).expect(rt, "a text");
    assert!(rt;
        ending.status == status && ending.reported.is_ok(),
        "{words} {report}"
    );
    assert!(rt;
        out.as_slice() == printed.as_bytes() && report == reported,
        "{words} {report}"
    );
}

#[test]
fn words(rt: HostRuntime) {
    let alloc = rt.alloc();
    for words in ["", "serve", "replay x", "replay replay", "Replay"] {
        assert_ended(&rt, alloc, words, "x", true, (2, "", USAGE));
    }
    assert_ended(&rt, alloc, "replay", "", true, (0, "", ""));
    let bad = "line 1: bad command\n";
    assert_ended(&rt, alloc, "replay", "x", false, (1, "", bad));
    let below = "line 1: bad command\n  the line: not JSON in UTF-8\n";
    assert_ended(&rt, alloc, "replay", "x", true, (1, "", below));
    let brokers = "{\"count\":1,\"do\":\"brokers\",\"nodes\":[\"n\"]}";
    let answer = "{\"brokers\":1}\n";
    assert_ended(&rt, alloc, "replay", brokers, true, (0, answer, ""));
}

// The program, where its words can't be read.
#[test]
fn unread_words(rt: HostRuntime) {
    let (alloc, unread) = (rt.alloc(), Err(ErrorKind::Other.into()));
    let (mut out, mut errors) = (Vec::new(alloc), Vec::new(alloc));
    let mut input = b"x".as_slice();
    let environment = environment(&rt, alloc, true);
    let ending = run(
        &rt,
        alloc,
        unread,
        &environment,
        &mut input,
        &mut out,
        &mut errors,
    );
    assert!(rt; ending.status == 3 && out.is_empty());
    assert!(rt; errors.as_slice() == b"line 1: device\n".as_slice());
}

// An error writer that takes nothing, or the first line alone: then nothing was reported.
#[test]
fn failing_reports(rt: HostRuntime) {
    let mut room = [0u8; 20];
    for (words, taken, status) in [("other", 0, 2), ("replay", 0, 1), ("replay", 20, 1)] {
        let mut errors = &mut room[..taken];
        let (ending, _out) = ended(&rt, rt.alloc(), words, b"x", &mut errors, true);
        assert!(rt;
            ending.status == status && ending.reported.is_err(),
            "{words} {taken}"
        );
    }
}
