//! Prints values by way of a type parameter, so that a proof does not open their `Display`, and tables of what is reported.
use std::alloc::Global;
use std::fmt::Display;
use std::process::Abort;

/// A text of its own.
pub(crate) fn owned(rt: &impl Abort, alloc: Global, text: &str) -> String {
    String::from_str(alloc, text).expect(rt, "memory")
}

/// What a value prints. It is of no type in particular, since what a proof knows of the texts of one is long.
pub(crate) fn printed<T: Display>(rt: &impl Abort, alloc: Global, value: &T) -> String {
    format!(in alloc; "{value}").expect(rt, "memory")
}

/// Asserts that what is reported of a text is what is wanted.
pub(crate) fn assert_reported(rt: &impl Abort, text: &str, reported: String, wanted: &str) {
    assert!(rt; reported.as_str() == wanted, "at {text}: {reported}");
}

/// Asserts what is reported of the text of each row `TEXT = WANTED`.
pub(crate) fn assert_rows<R: Abort, F: Fn(&R, Global, &str) -> String>(
    rt: &R,
    alloc: Global,
    rows: &str,
    reported: F,
)
    requires { F.IsAlwaysCallable reported }
{
    for row in rows.lines() {
        let (text, wanted) = row.split_once(" = ").expect(rt, "no row");
        assert_reported(rt, text, reported(rt, alloc, text), wanted);
    }
}

/// Asserts that each of these values prints as the text beside it.
pub(crate) fn assert_printed<T: Display>(rt: &impl Abort, alloc: Global, rows: &[(T, &str)]) {
    for (value, wanted) in rows {
        assert_reported(rt, wanted, printed(rt, alloc, value), wanted);
    }
}
