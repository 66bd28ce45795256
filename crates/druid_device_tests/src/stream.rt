//! Lines and texts over streams: that calls succeed with ample memory, and where a limit lies.
use crate::printed::text_of;
use crate::table::{Table, assert_row, assert_rows, is_reported};
use druid_stream::{Next, Part, next_line, next_part, write_text};
use std::alloc::Global;
use std::process::Abort;

// The most bytes of a line in these tables.
const LIMIT: usize = 3;

// What is found after the lines that were returned.
fn reported_beyond(rt: &impl Abort, reported: String, found: &str) -> String {
    let mut reported = reported;
    reported.push_str(found).expect(rt, "memory");
    reported
}

// A line after those that were returned.
fn line_beyond(rt: &impl Abort, alloc: Global, reported: String, line: &[u8]) -> String {
    let reported = reported_beyond(rt, reported, text_of(rt, alloc, line).as_str());
    reported_beyond(rt, reported, ",")
}

// The lines of a text, each with a comma after it, and how reading them ends.
fn lines_in(rt: &impl Abort, alloc: Global, text: &[u8]) -> String {
    let mut rest = text;
    let mut line = Vec::new(alloc);
    let mut reported = String::new(alloc);
    for _ in 0..9 {
        match next_line(&mut rest, &mut line, LIMIT).expect(rt, "a line") {
            Next::Line => reported = line_beyond(rt, alloc, reported, &line),
            Next::TooLong => return reported_beyond(rt, reported, "too long"),
            Next::End => return reported_beyond(rt, reported, "end"),
        }
    }
    reported
}

// Texts, with `|` for a line feed, and their lines.
struct LineTexts;

impl Table for LineTexts {
    fn holds(&self, rt: &impl Abort, alloc: Global, what: &str, wanted: &str) -> bool {
        let text = what.replace(alloc, "|", "\n").expect(rt, "memory");
        is_reported(lines_in(rt, alloc, text.as_bytes()), wanted)
    }
}

#[test]
fn lines(rt: HostRuntime) {
    let rows = "=end
|=,end
a=a,end
ab|c=ab,c,end
abc|=abc,end
abc=abc,end
abcd=too long
abcd|e=too long
a||bc|=a,,bc,end";
    assert_rows(&rt, rt.alloc(), &LineTexts, rows, "=");
}

// Whether a part of a line with room for two bytes takes these, and leaves those.
fn is_part(
    rt: &impl Abort,
    alloc: Global,
    text: &[u8],
    part: Part,
    taken: &[u8],
    left: &[u8],
) -> bool {
    let mut rest = text;
    let mut line = Vec::new(alloc);
    let found = next_part(&mut rest, &mut line, 2).expect(rt, "a part");
    found == part && line.as_slice() == taken && rest == left
}

#[test]
fn parts_of_lines(rt: HostRuntime) {
    let alloc = rt.alloc();
    assert_row(
        &rt,
        "a feed",
        is_part(&rt, alloc, b"a\nb", Part::Feed, b"a", b"b"),
    );
    assert_row(
        &rt,
        "no room",
        is_part(&rt, alloc, b"abc\n", Part::More, b"ab", b"c\n"),
    );
    assert_row(
        &rt,
        "no feed",
        is_part(&rt, alloc, b"ab", Part::More, b"ab", b""),
    );
    assert_row(
        &rt,
        "the end",
        is_part(&rt, alloc, b"", Part::Ended, b"", b""),
    );
}

#[test]
fn texts(rt: HostRuntime) {
    let mut written = Vec::new(rt.alloc());
    write_text(&mut written, b"ab").expect(&rt, "a text");
    write_text(&mut written, b"").expect(&rt, "a text");
    write_text(&mut written, b"c").expect(&rt, "a text");
    assert_row(&rt, "another text", written.as_slice() == b"abc".as_slice());
}
