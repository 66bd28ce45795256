//! Why a text is no query.
ghost use Rattle.std.specs.Prelude.{◌≡◌, option_map};
ghost use Rattle.druid_query.specs.Refused.{code_of, field_of};

use thiserror::Error;

/// Why a text is no query.
#[derive(Clone, Copy, Debug, PartialEq, Eq, Drop, Error)]
pub enum QueryFault {
    /// Q1: no JSON in UTF-8.
    #[error("Q1: not JSON")]
    NotJson,
    /// Q2: no object, or a query of another type.
    #[error("Q2: no query of a known type")]
    UnknownType,
    /// Q3: the field of that key has another shape.
    #[error("Q3: {0} has another shape")]
    Field(&'static str),
    /// Q4: a text that names no interval.
    #[error("Q4: not an interval")]
    BadInterval,
    /// Q5: more of something than a query may have.
    #[error("Q5: a limit is passed")]
    LimitPassed,
    /// Q6: two columns of the result have one name.
    #[error("Q6: a doubled name")]
    DoubledName,
    /// Q9: out of memory.
    #[error("Q9: out of memory")]
    Memory,
}

impl QueryFault {
    /// The code of it in the text of a response.
    pub fn code(self) -> &'static str
        ensures { result.now ≡ code_of self }
    {
        match self {
            QueryFault::NotJson => "Q1",
            QueryFault::UnknownType => "Q2",
            QueryFault::Field(_) => "Q3",
            QueryFault::BadInterval => "Q4",
            QueryFault::LimitPassed => "Q5",
            QueryFault::DoubledName => "Q6",
            QueryFault::Memory => "Memory",
        }
    }

    /// The key of the field that it names.
    pub fn field(self) -> Option<&'static str>
        ensures { option_map (λ key. key.now) result ≡ field_of self }
    {
        match self {
            QueryFault::Field(key) => Some(key),
            QueryFault::NotJson
            | QueryFault::UnknownType
            | QueryFault::BadInterval
            | QueryFault::LimitPassed
            | QueryFault::DoubledName
            | QueryFault::Memory => None,
        }
    }
}
