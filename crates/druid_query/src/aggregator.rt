//! What a query asks of each group of rows.
ghost use Rattle.std.specs.Prelude.{◌≡◌, IfOk, option_map};

use druid_base::copy_text;
use std::alloc::{AllocError, Global};
use std::marker::Model;

/// What an aggregator tells of a group of rows.
#[derive(Clone, Copy, Debug, PartialEq, Eq, Drop)]
pub enum AggregatorKind {
    /// How many rows there are.
    Count,
    /// The sum of a field's values, wrapped to 64 bits.
    LongSum,
    /// The least of a field's values.
    LongMin,
    /// The greatest of a field's values.
    LongMax,
}

/// What is reported of each group of rows, and its name in the result.
#[derive(Debug, Drop)]
pub struct Aggregator {
    name: String,
    kind: AggregatorKind,
    field: Option<String>,
}

impl Model for Aggregator {
    ghost use Rattle.std.specs.Prelude.{string_bytes, option_map};
    ghost use Rattle.druid_query.specs.Query.{Aggregator};

    ghost Value = { Aggregator };

    ghost view = { λ a. record {
      name = string_bytes a.name;
      kind = a.kind;
      field = option_map string_bytes a.field;
    } };
}

impl Aggregator {
    /// An aggregator of that name and kind, over that field.
    ///
    /// # Errors
    ///
    /// Out of memory.
    pub fn new(
        alloc: Global,
        name: &str,
        kind: AggregatorKind,
        field: Option<&str>,
    ) -> Result<Aggregator, AllocError>
        ensures { IfOk result (λ made. made ≡ record { name = name.now; kind = kind; field = option_map (λ s. s.now) field.entry }) }
    {
        let name = String::from_str(alloc, name)?;
        let field = copy_text(alloc, field)?;
        Ok(Aggregator { name, kind, field })
    }

    /// Its name in the result.
    pub fn name(&self) -> &str
        ensures { result.now ≡ self.now.name }
    {
        self.name.as_str()
    }

    /// What it tells.
    pub fn kind(&self) -> AggregatorKind
        ensures { result ≡ self.now.kind }
    {
        self.kind
    }

    /// The field that it looks at; to count takes none.
    pub fn field(&self) -> Option<&str>
        ensures { option_map (λ s. s.now) result ≡ self.now.field }
    {
        self.field.as_deref()
    }
}
