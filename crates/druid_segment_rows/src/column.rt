//! The values of a dimension, as codes into its dictionary.
ghost use Rattle.std.specs.Prelude.{◌≡◌, List, ℕ, ◌<◌, ◌≤◌, length, map, slice_index_or, None, All};
ghost use Rattle.std.specs.Option.{option_map};
ghost use Rattle.druid_segment_rows.specs.Columns.{IsDictionary, AreCodes, value_at};

use crate::texts::Texts;
use std::marker::Model;

/// The values of a dimension, a text or null for each row. Each text is kept once: 0 is the code of null, and k that of
/// the k-th text in the order of bytes.
#[derive(Debug, Drop)]
pub struct Column {
    values: Texts,
    codes: Vec<u32>,
}

impl Model for Column {
    ghost use Rattle.std.specs.Prelude.{◌*◌, ◌≤◌, List, Option, ℕ, length, map, All};
    ghost use Rattle.druid_segment_rows.specs.Columns.{IsDictionary, value_at};

    ghost Value = { List (Option (List ℕ)) };

    ghost view = { λ a. map (value_at a.values) a.codes.items };

    ghost invariant = { λ a. IsDictionary (map (value_at a.values) a.codes.items) a.values
        × All (λ code. code ≤ length a.values) a.codes.items };
}

impl Column {
    /// The column of these codes: 0 stands for null, and k for the k-th of the values, which are those that occur,
    /// rising by their bytes. Does not allocate.
    pub fn new(values: Texts, codes: Vec<u32>) -> Column
        requires dictionary { IsDictionary (map (value_at values) codes.items) values }
        requires bounded { All (λ code. code ≤ length values) codes.items }
        ensures { result ≡ map (value_at values) codes.items }
    {
        Column { values, codes }
    }

    // The value of the row at that place. None for null.
    pub(crate) fn get(&self, row: usize) -> Option<&str>
        requires { row < length self.now }
        ensures { option_map (λ text. text.now) result ≡ slice_index_or self.now row None }
    {
        match self.codes[row] {
            0 => None,
            code => Some(self.values.get(code as usize - 1)),
        }
    }

    // The texts that occur, each once, in order.
    pub(crate) fn values(&self) -> &Texts
        ensures { IsDictionary self.now result.now }
    {
        &self.values
    }

    // A code for each row.
    pub(crate) fn codes(&self) -> &[u32]
        ensures { (texts : List (List ℕ)) → IsDictionary self.now texts → AreCodes texts self.now result.now }
    {
        &self.codes
    }
}
