//! The values of a metric, in 8 bytes each, and a byte more for each row up to the last that has null.
ghost use Rattle.std.specs.Prelude.{◌≡◌, ◌<◌, ◌≤◌, ℤ, pos, List, [], ◌∷◌, ◌++◌, length, take, slice_index_or, None, Some, false, IfOk, OnOk, OnErr};
ghost use Rattle.druid_segment_rows.specs.Metrics.{unless_null};
ghost use Rattle.druid_segment_rows.specs.Rows.{AreWords};

use std::alloc::{AllocError, Global};
use std::marker::Model;

/// The values of a metric, a number or null for each row.
#[derive(Debug, Drop)]
pub struct Numbers {
    // 0 where the value is null.
    numbers: Vec<i64>,
    // Whether it is null, for the rows up to the last of which it is.
    nulls: Vec<bool>,
}

impl Model for Numbers {
    ghost use Rattle.std.specs.Prelude.{◌≤◌, List, Option, ℤ, length, All, FitsSigned};
    ghost use Rattle.std.specs.Int.{w64};
    ghost use Rattle.druid_segment_rows.specs.Metrics.{unless_null};

    ghost Value = { List (Option ℤ) };

    ghost view = { λ a. unless_null a.numbers.items a.nulls.items };

    ghost invariant = { λ a. (length a.nulls.items ≤ length a.numbers.items) × All (FitsSigned w64) a.numbers.items };
}

fn number_at(numbers: &[i64], row: usize) -> i64
    requires { row < length numbers.now }
    ensures { result ≡ slice_index_or numbers.now row (pos 0) }
{
    numbers[row]
}

// Whether the row at that place is marked as null.
fn is_marked(nulls: &[bool], row: usize) -> bool
    ensures { result ≡ slice_index_or nulls.now row false }
{
    match nulls.get(row) {
        Some(is_null) => *is_null,
        None => false,
    }
}

// Marks the rows after the last that is marked, up to that many, as those that have a number.
fn mark_numbers(nulls: &mut Vec<bool>, rows: usize) -> Result<(), AllocError>
    requires { length nulls.old.items ≤ rows }
    ensures same { (numbers : List ℤ) → unless_null numbers nulls.new.items ≡ unless_null numbers nulls.old.items }
    ensures end { length nulls.new.items ≤ rows }
    ensures all { OnOk result (length nulls.new.items ≡ rows) }
{
    for _ in nulls.len()..rows {
        nulls.push(false)?;
    }
    Ok(())
}

impl Numbers {
    // No values.
    pub(crate) fn new(alloc: Global) -> Numbers
        ensures { result ≡ [] }
    {
        Numbers {
            numbers: Vec::new(alloc),
            nulls: Vec::new(alloc),
        }
    }

    /// No values, with room for so many numbers.
    ///
    /// # Errors
    ///
    /// Out of memory.
    pub fn with_capacity(alloc: Global, rows: usize) -> Result<Numbers, AllocError>
        ensures { IfOk result (λ numbers. numbers ≡ []) }
    {
        Ok(Numbers {
            numbers: Vec::with_capacity(alloc, rows)?,
            nulls: Vec::new(alloc),
        })
    }

    /// Adds a value after the others.
    ///
    /// # Errors
    ///
    /// Out of memory, and nothing is added.
    pub fn push(&mut self, value: Option<i64>) -> Result<(), AllocError>
        ensures ok { OnOk result (self.new ≡ self.old ++ value ∷ []) }
        ensures err { OnErr result (self.new ≡ self.old) }
    {
        match value {
            Some(number) => self.push_number(number),
            None => self.push_null(),
        }
    }

    fn push_number(&mut self, number: i64) -> Result<(), AllocError>
        ensures ok { OnOk result (self.new ≡ self.old ++ Some number ∷ []) }
        ensures err { OnErr result (self.new ≡ self.old) }
    {
        self.numbers.push(number)?;
        Ok(())
    }

    fn push_null(&mut self) -> Result<(), AllocError>
        ensures ok { OnOk result (self.new ≡ self.old ++ None ∷ []) }
        ensures err { OnErr result (self.new ≡ self.old) }
    {
        self.numbers.reserve(1)?;
        mark_numbers(&mut self.nulls, self.numbers.len())?;
        self.nulls.push(true)?;
        self.numbers.push_reserved(0);
        Ok(())
    }

    // Keeps that many of the first values.
    pub(crate) fn truncate(&mut self, len: usize)
        ensures { self.new ≡ take len self.old }
    {
        self.numbers.truncate(len);
        self.nulls.truncate(len);
    }

    // Gives back the memory that they do not need.
    pub(crate) fn shrink(&mut self)
        ensures { self.new ≡ self.old }
    {
        self.numbers.shrink_to_fit();
        self.nulls.shrink_to_fit();
    }

    /// How many there are.
    pub fn len(&self) -> usize
        ensures { result ≡ length self.now }
    {
        self.numbers.len()
    }

    /// The value of the row at that place. None for null.
    pub fn get(&self, row: usize) -> Option<i64>
        requires { row < length self.now }
        ensures { result ≡ slice_index_or self.now row None }
    {
        if is_marked(&self.nulls, row) {
            return None;
        }
        Some(number_at(&self.numbers, row))
    }

    // For the proof: reading them exposes the invariant of their type.
    pub(crate) fn read(&self)
        ensures { AreWords self.now }
    {
        let _ = self.numbers.len();
    }
}
