//! The values of a dimension, as rows come.
ghost use Rattle.std.specs.Prelude.{◌≡◌, [], ◌∷◌, ◌++◌, take, IfOk, OnOk, OnErr};
ghost use Rattle.std.specs.Option.{option_map};

use crate::column::Column;
use crate::numbering::Numbering;
use std::alloc::{AllocError, Global};
use std::marker::Model;

// The values of a dimension as rows come: each has the number of its text, or 0 for null.
#[derive(Debug, Drop)]
pub(crate) struct ColumnBuilder {
    texts: Numbering,
    codes: Vec<u32>,
}

impl Model for ColumnBuilder {
    ghost use Rattle.std.specs.Prelude.{◌≤◌, List, Option, ℕ, length, map, All};
    ghost use Rattle.druid_segment_rows.specs.Columns.{value_at};

    ghost Value = { List (Option (List ℕ)) };

    ghost view = { λ a. map (value_at a.texts) a.codes.items };

    ghost invariant = { λ a. All (λ code. code ≤ length a.texts) a.codes.items };
}

impl ColumnBuilder {
    // No values.
    pub(crate) fn new(alloc: Global) -> ColumnBuilder
        ensures { result ≡ [] }
    {
        ColumnBuilder {
            texts: Numbering::new(alloc),
            codes: Vec::new(alloc),
        }
    }

    // Adds a value after the others, or nothing.
    pub(crate) fn push(&mut self, value: Option<&str>) -> Result<(), AllocError>
        ensures ok { OnOk result (self.new ≡ self.old ++ option_map (λ text. text.now) value.entry ∷ []) }
        ensures err { OnErr result (self.new ≡ self.old) }
    {
        let code = self.texts.code_of(value)?;
        self.codes.push(code)?;
        Ok(())
    }

    // Keeps that many of the first values.
    pub(crate) fn truncate(&mut self, len: usize)
        ensures { self.new ≡ take len self.old }
    {
        self.codes.truncate(len);
    }

    // The column of these values.
    pub(crate) fn finish(self) -> Result<Column, AllocError>
        ensures { IfOk result (λ column. column ≡ self) }
    {
        let ColumnBuilder { texts, mut codes } = self;
        codes.shrink_to_fit();
        let values = texts.sort(&mut codes)?;
        Ok(Column::new(values, codes))
    }
}
