//! Codes of a dimension's values, and the number that those of a row make.
ghost use Rattle.std.specs.Prelude.{◌≡◌, ◌<◌, ◌^◌, All, IfSome, Some, None, length, map, option_map, slice_index_or};
ghost use Rattle.druid_partial_scan.specs.Cells.{code_at, look, cell_from, room_from, HasCode};

use std::marker::Model;

// The codes of the rows' values of a dimension: 0 for null, and the others in the order of the values. Without codes, all
// are null. Where there is a table, it has the code that stands for each.
#[derive(Drop)]
pub(crate) struct Column<'a> {
    size: usize,
    codes: Option<&'a [u32]>,
    table: Option<Vec<usize>>,
}

impl<'a> Model for Column<'a> {
    ghost use Rattle.std.specs.Prelude.{map, option_map};
    ghost use Rattle.druid_partial_scan.specs.Cells.{Column, look};

    ghost Value = { Column };

    ghost view = { λ a. record { size = a.size; codes = option_map (λ codes. map (look a.table) codes.now) a.codes } };
}

// The code of a row.
pub(crate) fn code_in(codes: &[u32], row: usize) -> usize
    requires { row < length codes.now }
    ensures { result ≡ slice_index_or codes.now row 0 }
{
    codes[row] as usize
}

// The code that stands for one.
fn look(table: &Option<Vec<usize>>, code: usize) -> usize
    ensures { result ≡ look table.now code }
{
    match table {
        Some(table) => entry_of(table, code),
        None => code,
    }
}

fn entry_of(table: &[usize], code: usize) -> usize
    ensures { result ≡ slice_index_or table.now code 0 }
{
    match table.get(code) {
        Some(code) => *code,
        None => 0,
    }
}

impl<'a> Column<'a> {
    // How many codes there may be, and that of each row.
    pub(crate) fn new(size: usize, codes: Option<&'a [u32]>) -> Column<'a>
        ensures { result ≡ record { size = size; codes = option_map (λ codes. codes.now) codes.entry } }
    {
        Column {
            size,
            codes,
            table: None,
        }
    }

    // The same of codes that stand for others by a table.
    pub(crate) fn through(size: usize, codes: &'a [u32], table: Vec<usize>) -> Column<'a>
        ensures { result ≡ record { size = size; codes = Some (map (look (Some table)) codes.now) } }
    {
        Column {
            size,
            codes: Some(codes),
            table: Some(table),
        }
    }

    fn size(&self) -> usize
        ensures { result ≡ self.now.size }
    {
        self.size
    }

    fn code(&self, row: usize) -> usize
        requires { IfSome self.now.codes (λ codes. row < length codes) }
        ensures { result ≡ code_at self.now row }
    {
        match self.codes {
            Some(codes) => look(&self.table, code_in(codes, row)),
            None => 0,
        }
    }
}

// How many cells there are. None where that is more than a word.
pub(crate) fn room_of(columns: &[Column<'_>]) -> Option<usize>
    ensures { IfSome result (λ room. room ≡ room_from columns.now 1) }
{
    let mut room: usize = 1;
    for column in columns {
        room = room.checked_mul(column.size())?;
    }
    Some(room)
}

// The cell of a row.
pub(crate) fn cell_of(columns: &[Column<'_>], row: usize) -> usize
    requires codes { All (HasCode row) columns.now }
    requires room { room_from columns.now 1 < 2 ^ 64 }
    ensures value { result ≡ cell_from columns.now row 0 }
    ensures inside { result < room_from columns.now 1 }
{
    let mut cell = 0;
    for column in columns {
        cell = cell * column.size() + column.code(row);
    }
    cell
}
