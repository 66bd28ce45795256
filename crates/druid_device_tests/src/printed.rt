//! Prints values by way of a type parameter, so that a proof does not open their `Display`.
use std::alloc::Global;
use std::fmt::Display;
use std::process::Abort;

/// What a value prints. It is of no type in particular, since what a proof knows of the texts of one is long.
pub(crate) fn printed<T: Display>(rt: &impl Abort, alloc: Global, value: &T) -> String {
    format!(in alloc; "{value}").expect(rt, "memory")
}

/// Asserts that each value prints the text beside it.
pub(crate) fn assert_prints<T: Display>(rt: &impl Abort, alloc: Global, values: &[(T, &str)]) {
    for (value, text) in values {
        let reported = printed(rt, alloc, value);
        assert!(rt; reported.as_str() == *text, "{reported}");
    }
}

/// What two values print, one beside the other.
pub(crate) fn beside<T: Display, U: Display>(
    rt: &impl Abort,
    alloc: Global,
    first: &T,
    second: &U,
) -> String {
    format!(in alloc; "{first} {second}").expect(rt, "memory")
}

/// The text of these bytes.
pub(crate) fn text_of(rt: &impl Abort, alloc: Global, bytes: &[u8]) -> String {
    String::from_utf8_lossy(alloc, bytes).expect(rt, "memory")
}
