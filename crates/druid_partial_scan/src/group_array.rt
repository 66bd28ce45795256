//! Groups in an array, each at the number that the codes of its values make.
ghost use Rattle.std.specs.Prelude.{◌≡◌, ◌<◌, ◌+◌, ◌-◌, ◌≤◌, ◌++◌, map, set, length, take, drop, All, Some, None, IfOk, OnOk, slice_index_or, replicate, option_map};
ghost use Rattle.druid_partial_scan.specs.Cells.{number_from, HasNumber, join_into, joined_with, is_there, joined_cell, joined_cells};
ghost use Rattle.druid_partial.specs.Joined.{join_numbers};

use crate::cells::{NumberColumn, join_row, number_at};
use druid_partial::join_numbers;
use druid_query::AggregatorKind;
use std::alloc::{AllocError, Global};
use std::marker::Model;

// Writes a row's numbers.
fn write_row(columns: &[NumberColumn<'_>], row: usize, numbers: &mut [Option<i64>])
    requires row { All (HasNumber row) columns.now }
    requires long { length columns.now ≡ length numbers.now }
    ensures { numbers.new ≡ map (number_from row) columns.now }
{
    for place in 0..numbers.len() {
        numbers[place] = number_at(&columns[place], row);
    }
}

// Joins a row's numbers to those of a cell.
fn join_at(
    kinds: &[AggregatorKind],
    columns: &[NumberColumn<'_>],
    row: usize,
    numbers: &mut [Option<i64>],
    from: usize,
    to: usize,
)
    requires row { All (HasNumber row) columns.now }
    requires order { from ≤ to }
    requires inside { to ≤ length numbers.now }
    ensures { numbers.new ≡ take from numbers.old
        ++ join_into kinds.now (map (number_from row) columns.now) (take (to - from) (drop from numbers.old)) ++ drop to numbers.old }
{
    join_row(kinds, columns, row, &mut numbers[from..to]);
}

// Writes a row's numbers for those of a cell.
fn write_at(
    columns: &[NumberColumn<'_>],
    row: usize,
    numbers: &mut [Option<i64>],
    from: usize,
    to: usize,
)
    requires row { All (HasNumber row) columns.now }
    requires order { from ≤ to }
    requires inside { to ≤ length numbers.now }
    requires long { length columns.now ≡ to - from }
    ensures { numbers.new ≡ take from numbers.old ++ map (number_from row) columns.now ++ drop to numbers.old }
{
    write_row(columns, row, &mut numbers[from..to]);
}

// Joins numbers to those of a cell.
fn join_numbers_at(
    kinds: &[AggregatorKind],
    more: &[Option<i64>],
    numbers: &mut [Option<i64>],
    from: usize,
    to: usize,
)
    requires order { from ≤ to }
    requires inside { to ≤ length numbers.now }
    ensures { numbers.new ≡ take from numbers.old
        ++ join_numbers kinds.now (take (to - from) (drop from numbers.old)) more.now ++ drop to numbers.old }
{
    join_numbers(kinds, &mut numbers[from..to], more);
}

// Writes numbers for those of a cell.
fn write_numbers_at(more: &[Option<i64>], numbers: &mut [Option<i64>], from: usize, to: usize)
    requires order { from ≤ to }
    requires inside { to ≤ length numbers.now }
    requires long { length more.now ≡ to - from }
    ensures { numbers.new ≡ take from numbers.old ++ more.now ++ drop to numbers.old }
{
    numbers[from..to].copy_from_slice(more);
}

// Copies of the numbers of a cell.
fn copied(
    alloc: Global,
    numbers: &[Option<i64>],
    from: usize,
    to: usize,
) -> Result<Vec<Option<i64>>, AllocError>
    requires order { from ≤ to }
    requires inside { to ≤ length numbers.now }
    ensures { IfOk result (λ copies. copies.items ≡ take (to - from) (drop from numbers.now)) }
{
    let mut copies = Vec::with_capacity(alloc, to - from)?;
    for place in from..to {
        copies.push(numbers[place])?;
    }
    Ok(copies)
}

// Groups, each at the number of its cell: what is kept of a group once, and its numbers. Those of all stand in one array, so
// that a row of a group that is there reads its mark and its numbers alone.
#[derive(Drop)]
pub(crate) struct Cells<K> {
    width: usize,
    filled: Vec<bool>,
    kept: Vec<Option<K>>,
    numbers: Vec<Option<i64>>,
}

impl<K> Model for Cells<K> {
    ghost use Rattle.druid_partial_scan.specs.Cells.{Cells, groups_from, AreParts};

    ghost Value = { Cells K };

    ghost view = { λ a. record { width = a.width; groups = groups_from a.width a.kept.items a.numbers.items } };

    ghost invariant = { λ a. AreParts a.width a.filled.items a.kept.items a.numbers.items };
}

// No groups.
fn none_kept<K: Drop>(alloc: Global, room: usize) -> Result<Vec<Option<K>>, AllocError>
    ensures { IfOk result (λ cells. cells.items ≡ replicate room None) }
{
    let mut cells = Vec::with_capacity(alloc, room)?;
    for _ in 0..room {
        cells.push(None)?;
    }
    Ok(cells)
}

impl<K: Drop> Cells<K> {
    // No groups.
    pub(crate) fn new(alloc: Global, room: usize, width: usize) -> Result<Cells<K>, AllocError>
        ensures { IfOk result (λ made. made ≡ record { width = width; groups = replicate room None }) }
    {
        let Some(count) = room.checked_mul(width) else {
            return Err(AllocError);
        };
        let filled = vec![in alloc; false; room]?;
        let kept = none_kept(alloc, room)?;
        let numbers = vec![in alloc; None; count]?;
        Ok(Cells {
            width,
            filled,
            kept,
            numbers,
        })
    }

    // How many cells there are.
    pub(crate) fn room(&self) -> usize
        ensures { result ≡ length self.now.groups }
    {
        self.kept.len()
    }

    // Joins a row to the group of a cell. False where there is none.
    pub(crate) fn join(
        &mut self,
        kinds: &[AggregatorKind],
        columns: &[NumberColumn<'_>],
        cell: usize,
        row: usize,
    ) -> bool
        requires row { All (HasNumber row) columns.now }
        requires cell { cell < length self.now.groups }
        ensures width { self.new.width ≡ self.old.width }
        ensures there { result ≡ is_there (slice_index_or self.old.groups cell None) }
        ensures groups { self.new.groups ≡ set self.old.groups cell
            (joined_with kinds.now (map (number_from row) columns.now) (slice_index_or self.old.groups cell None)) }
    {
        if !self.filled[cell] {
            return false;
        }
        let from = cell * self.width;
        let to = from + self.width;
        join_at(kinds, columns, row, &mut self.numbers, from, to);
        true
    }

    // Puts a group of one row into a cell.
    pub(crate) fn put(&mut self, columns: &[NumberColumn<'_>], cell: usize, row: usize, kept: K)
        requires row { All (HasNumber row) columns.now }
        requires cell { cell < length self.now.groups }
        requires width { length columns.now ≡ self.now.width }
        ensures width { self.new.width ≡ self.old.width }
        ensures groups { self.new.groups ≡ set self.old.groups cell (Some (kept, map (number_from row) columns.now)) }
    {
        let from = cell * self.width;
        let to = from + self.width;
        write_at(columns, row, &mut self.numbers, from, to);
        self.kept[cell] = Some(kept);
        self.filled[cell] = true;
    }

    // Joins a group to that of a cell, which keeps what it has; where there is none, it is put there.
    fn join_group(
        &mut self,
        kinds: &[AggregatorKind],
        cell: usize,
        kept: K,
        numbers: &[Option<i64>],
    )
        requires cell { cell < length self.now.groups }
        requires width { length numbers.now ≡ self.now.width }
        ensures width { self.new.width ≡ self.old.width }
        ensures groups { self.new.groups ≡ set self.old.groups cell
            (joined_cell kinds.now (slice_index_or self.old.groups cell None) (Some (kept, numbers.now))) }
    {
        let from = cell * self.width;
        let to = from + self.width;
        if self.filled[cell] {
            join_numbers_at(kinds, numbers, &mut self.numbers, from, to);
            return;
        }
        write_numbers_at(numbers, &mut self.numbers, from, to);
        self.kept[cell] = Some(kept);
        self.filled[cell] = true;
    }

    // Joins the groups of other cells, of the same room, to those here.
    pub(crate) fn join_cells(&mut self, kinds: &[AggregatorKind], other: Cells<K>)
        requires width { other.width ≡ self.now.width }
        requires room { length other.groups ≡ length self.now.groups }
        ensures width { self.new.width ≡ self.old.width }
        ensures groups { self.new.groups ≡ joined_cells kinds.now self.old.groups other.groups }
    {
        let width = other.width;
        let numbers = other.numbers;
        let mut others = other.kept;
        for cell in 0..others.len() {
            if let Some(kept) = others[cell].take() {
                let from = cell * width;
                self.join_group(kinds, cell, kept, &numbers[from..from + width]);
            }
        }
    }

    // Takes the group of a cell, if there is one.
    pub(crate) fn take(
        &mut self,
        alloc: Global,
        cell: usize,
    ) -> Result<Option<(K, Vec<Option<i64>>)>, AllocError>
        requires { cell < length self.now.groups }
        ensures found { IfOk result (λ found. option_map (λ g. (g.0, g.1.items)) found ≡ slice_index_or self.old.groups cell None) }
        ensures groups { OnOk result (self.new.groups ≡ set self.old.groups cell None) }
    {
        let Some(kept) = self.kept[cell].take() else {
            return Ok(None);
        };
        self.filled[cell] = false;
        let from = cell * self.width;
        let to = from + self.width;
        let numbers = copied(alloc, &self.numbers, from, to)?;
        Ok(Some((kept, numbers)))
    }
}
