use thiserror::Error;

/// Why a text names no instant or no interval.
#[derive(Clone, Copy, Debug, PartialEq, Eq, Drop, Error)]
pub enum TimeFault {
    /// C1: the text has none of the forms.
    #[error("C1: not a time")]
    NotATime,
    /// C2: the form is right, and the calendar has no such day, or the day no such time.
    #[error("C2: no such date or time")]
    OutOfRange,
    /// C3: the start is not before the end.
    #[error("C3: an empty interval")]
    Empty,
}
