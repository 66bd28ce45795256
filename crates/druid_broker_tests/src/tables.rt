//! Texts, and lines of tables.
use std::alloc::Global;
use std::fmt::Display;
use std::process::Abort;

/// What a value prints. It is of no type in particular, since what a proof knows of the texts of one is long.
pub(crate) fn printed<T: Display>(rt: &impl Abort, alloc: Global, value: &T) -> String {
    format!(in alloc; "{value}").expect(rt, "memory")
}

/// The text with another in each place of a part.
pub(crate) fn replaced(rt: &impl Abort, alloc: Global, text: &str, part: &str, by: &str) -> String {
    text.replace(alloc, part, by).expect(rt, "memory")
}

/// The text with each of these parts replaced by what stands beside it, one after another.
pub(crate) fn all_replaced(
    rt: &impl Abort,
    alloc: Global,
    text: &str,
    parts: &[(&str, &str)],
) -> String {
    let mut text = printed(rt, alloc, &text);
    for (part, by) in parts {
        text = replaced(rt, alloc, text.as_str(), part, by);
    }
    text
}

/// What stands before the first such text in a line, and what after it.
pub(crate) fn halves<'a>(rt: &impl Abort, line: &'a str, between: &str) -> (&'a str, &'a str) {
    line.split_once(between).expect(rt, "no line")
}

/// Asserts that this is the fault of a line.
pub(crate) fn assert_reported(rt: &impl Abort, line: &str, reported: String, wanted: &str) {
    assert!(rt; reported.as_str() == wanted, "{line}");
}

/// Asserts that this holds of a line.
pub(crate) fn assert_holds(rt: &impl Abort, line: &str, holds: bool) {
    assert!(rt; holds, "{line}");
}
