//! Prints values by way of a type parameter, so that a proof does not open their `Display`.
use std::alloc::Global;
use std::fmt::Display;
use std::process::Abort;

/// What a value prints. It is of no type in particular, since what a proof knows of the texts of one is long.
pub(crate) fn printed<T: Display>(rt: &impl Abort, alloc: Global, value: &T) -> String {
    format!(in alloc; "{value}").expect(rt, "memory")
}

/// Asserts that each value prints the text beside it.
pub(crate) fn assert_prints<T: Display>(rt: &impl Abort, alloc: Global, values: &[(T, &str)]) {
    for (value, text) in values {
        let reported = printed(rt, alloc, value);
        assert!(rt; reported.as_str() == *text, "{reported}");
    }
}

/// A text with another in the places of a letter.
pub(crate) fn filled(
    rt: &impl Abort,
    alloc: Global,
    text: &str,
    letter: char,
    other: &str,
) -> String {
    let mut whole = String::new(alloc);
    for each in text.chars() {
        let pushed = if each == letter {
            whole.push_str(other)
        } else {
            whole.push(each)
        };
        pushed.expect(rt, "memory");
    }
    whole
}
