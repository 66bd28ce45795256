//! Tables of rows.
use std::alloc::Global;
use std::process::Abort;

/// What the rows of a table say.
pub(crate) trait Table {
    /// Whether the second half of a row is what its first gives.
    fn holds(&self, rt: &impl Abort, alloc: Global, what: &str, wanted: &str) -> bool;
}

/// What stands before the first such text in a row, and what after it.
pub(crate) fn halves<'a>(rt: &impl Abort, row: &'a str, between: &str) -> (&'a str, &'a str) {
    row.split_once(between).expect(rt, "no row")
}

/// Whether this is the fault.
pub(crate) fn is_reported(reported: String, wanted: &str) -> bool {
    reported.as_str() == wanted
}

/// Asserts that this holds of a row.
pub(crate) fn assert_row(rt: &impl Abort, row: &str, holds: bool) {
    assert!(rt; holds, "{row}");
}

/// Asserts that this is the fault.
pub(crate) fn assert_reported(rt: &impl Abort, reported: String, wanted: &str) {
    assert!(rt; reported.as_str() == wanted, "{reported}");
}

/// Asserts that each row holds. Its halves stand to both sides of the first such text in it.
pub(crate) fn assert_rows(
    rt: &impl Abort,
    alloc: Global,
    table: &impl Table,
    rows: &str,
    between: &str,
) {
    for row in rows.lines() {
        let (what, wanted) = halves(rt, row, between);
        assert_row(rt, row, table.holds(rt, alloc, what, wanted));
    }
}
