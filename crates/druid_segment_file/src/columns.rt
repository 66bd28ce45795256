//! Readers of columns. They judge, and keep no more than lengths and marks, in arrays on the stack
//! of one function (300 KB), so that each fault comes before memory is taken.
ghost use Rattle.std.specs.Prelude.{◌≡◌, ◌↔◌, ◌≤◌, ◌<◌, ◌*◌, ◌+◌, length, map, sum, All, IsTrue, IfOk};
ghost use Rattle.std.specs.Option.{option_map};
ghost use Rattle.druid_segment_rows.specs.Numbering.{with_mark};
ghost use Rattle.druid_segment_rows.specs.Segment.{max_fields, max_rows};
ghost use Rattle.druid_segment_file.specs.Parts.{each_at, row_time_at};
ghost use Rattle.druid_segment_file.specs.ColumnReader.{is_above, value_text_at, value_texts_at, code_at, coded_at, dimension_at, mark_at, metric_at, columns_at, decoded};
ghost use Rattle.druid_segment_file.specs.Reader.{TakesAs};
ghost use Rattle.druid_segment_file.specs.Builder.{Skips};
ghost use Rattle.druid_segment_file.specs.FileRules.{Finds, code_length, AreMarked, ones, texts_length, numbers_length, columns_length};
ghost use Rattle.druid_segment_file.specs.Borrowed.{bytes_of};

use crate::FileFault;
use crate::cursor::{Cursor, at_most};
use crate::rows::Shape;
use druid_segment_rows::MAX_ROWS;
use druid_time::Interval;

// Whether the text stands above the one before it, by their bytes.
fn is_above(last: Option<&str>, text: &str) -> bool
    ensures { result ≡ is_above (option_map bytes_of last.entry) text.now }
{
    match last {
        None => true,
        Some(last) => last < text,
    }
}

// Marks the text of a code.
fn mark_text(code: u32, marks: &mut [u8])
    requires { code ≤ length marks.old }
    ensures { marks.new ≡ with_mark marks.old code }
{
    if code != 0 {
        marks[code as usize - 1] = 1;
    }
}

fn are_all_marked(marks: &[u8]) -> bool
    ensures { IsTrue result ↔ All (λ mark. 0 < mark) marks.now }
{
    marks.iter().all(|mark| *mark > 0)
}

// The length of what a code stands for in a spelling in rows.
fn code_length(code: u32, lens: &[u16]) -> usize
    requires { code ≤ length lens.now }
    ensures value { result ≡ code_length lens.now code }
    ensures bound { result ≤ 65538 }
{
    match code {
        0 => 1,
        code => 3 + usize::from(lens[code as usize - 1]),
    }
}

impl<'a> Cursor<'a> {
    // A text of a dictionary, after that one.
    #[tactic(auto, unfolding(crate::specs::ColumnReader::value_text_at, crate::specs::Parts::accepted))]
    pub(crate) fn value_text(&mut self, last: Option<&str>) -> Result<&'a str, FileFault>
        ensures { TakesAs (λ text. text.now) self.old self.new result
            (value_text_at self.old.short (option_map bytes_of last.entry) self.old.rest) }
    {
        let text = self.text()?;
        if !is_above(last, text) {
            return Err(FileFault::Field);
        }
        Ok(text)
    }

    // The code of null, or of one of so many texts.
    #[tactic(auto, unfolding(crate::specs::ColumnReader::code_at, crate::specs::Parts::accepted))]
    pub(crate) fn code(&mut self, count: usize) -> Result<u32, FileFault>
        ensures { TakesAs (λ code. code) self.old self.new result (code_at self.old.short count self.old.rest) }
    {
        let code = self.u32()?;
        if code as usize > count {
            return Err(FileFault::Field);
        }
        Ok(code)
    }

    // Whether a row has a number.
    #[tactic(auto, unfolding(crate::specs::ColumnReader::mark_at, crate::specs::Parts::byte_at))]
    pub(crate) fn mark(&mut self) -> Result<bool, FileFault>
        ensures { TakesAs (λ mark. mark) self.old self.new result (mark_at self.old.short self.old.rest) }
    {
        match self.byte()? {
            0 => Ok(false),
            1 => Ok(true),
            _ => Err(FileFault::Field),
        }
    }

    // Passes over the instants of that many rows.
    fn skip_times(&mut self, interval: Interval, rows: usize) -> Result<(), FileFault>
        ensures { Skips self.old self.new result (each_at (row_time_at self.old.short interval) rows self.old.rest) }
    {
        for _ in 0..rows {
            if let Err(fault) = self.row_time(interval) {
                return Err(fault);
            }
        }
        Ok(())
    }

    // Passes over as many texts as there are places for their lengths.
    fn skip_texts(&mut self, lens: &mut [u16]) -> Result<(), FileFault>
        ensures found { Finds (λ _ texts. lens.new ≡ map length texts) self.old self.new result
            (value_texts_at self.old.short (length lens.old) None self.old.rest) }
        ensures len { length lens.new ≡ length lens.old }
    {
        let mut last = None;
        for place in 0..lens.len() {
            let text = self.value_text(last)?;
            lens[place] = text.len() as u16;
            last = Some(text);
        }
        Ok(())
    }

    // The length in rows of the values that the codes of that many rows stand for. Each text that has a row is marked.
    fn codes_length(
        &mut self,
        rows: usize,
        lens: &[u16],
        marks: &mut [u8],
    ) -> Result<usize, FileFault>
        requires rows { rows ≤ max_rows }
        requires len { length marks.old ≡ length lens.now }
        requires none { All (λ mark. mark ≡ 0) marks.old }
        ensures found { Finds (λ len codes. (len ≡ sum (map (code_length lens.now) codes)) × AreMarked codes marks.new)
            self.old self.new result (each_at (code_at self.old.short (length lens.now)) rows self.old.rest) }
        ensures len { length marks.new ≡ length marks.old }
        ensures bound { IfOk result (λ len. len ≤ 6553800000) }
    {
        let mut len = 0;
        for _ in 0..rows {
            let code = self.code(lens.len())?;
            mark_text(code, marks);
            len += code_length(code, lens);
        }
        Ok(len)
    }

    // How many of that many rows have a number.
    pub(crate) fn count_marks(&mut self, rows: usize) -> Result<usize, FileFault>
        requires { rows ≤ max_rows }
        ensures found { Finds (λ count marks. count ≡ ones marks) self.old self.new result
            (each_at (mark_at self.old.short) rows self.old.rest) }
        ensures bound { IfOk result (λ count. count ≤ rows) }
    {
        let mut count = 0;
        for _ in 0..rows {
            if self.mark()? {
                count += 1;
            }
        }
        Ok(count)
    }

    // The length in rows of a dimension of that many rows.
    fn texts_length(
        &mut self,
        rows: usize,
        lens: &mut [u16],
        marks: &mut [u8],
    ) -> Result<usize, FileFault>
        requires rows { rows ≤ max_rows }
        requires len { length marks.old ≡ length lens.old }
        requires none { All (λ mark. mark ≡ 0) marks.old }
        ensures found { Finds (λ len coded. len ≡ texts_length (decoded coded)) self.old self.new result
            (coded_at self.old.short (length lens.old) rows self.old.rest) }
        ensures bound { IfOk result (λ len. len ≤ 6553800000) }
    {
        self.skip_texts(lens)?;
        let len = self.codes_length(rows, lens, marks)?;
        if !are_all_marked(marks) {
            return Err(FileFault::Field);
        }
        Ok(len)
    }

    // The same in places that may have more room than so many texts need.
    fn coded_length(
        &mut self,
        count: usize,
        rows: usize,
        lens: &mut [u16],
        marks: &mut [u8],
    ) -> Result<usize, FileFault>
        requires rows { rows ≤ max_rows }
        requires lens { count ≤ length lens.old }
        requires marks { count ≤ length marks.old }
        requires none { All (λ mark. mark ≡ 0) marks.old }
        ensures found { Finds (λ len coded. len ≡ texts_length (decoded coded)) self.old self.new result
            (coded_at self.old.short count rows self.old.rest) }
        ensures bound { IfOk result (λ len. len ≤ 6553800000) }
    {
        self.texts_length(rows, &mut lens[..count], &mut marks[..count])
    }

    #[tactic(auto, unfolding(crate::specs::ColumnReader::dimension_at))]
    fn dimension_length(&mut self, rows: usize) -> Result<usize, FileFault>
        requires { rows ≤ max_rows }
        ensures found { Finds (λ len coded. len ≡ texts_length (decoded coded)) self.old self.new result
            (dimension_at self.old.short rows self.old.rest) }
        ensures bound { IfOk result (λ len. len ≤ 6553800000) }
    {
        let texts = self.u32()? as usize;
        let count = at_most(rows, texts)?;
        let mut lens = [0; MAX_ROWS];
        let mut marks = [0; MAX_ROWS];
        self.coded_length(count, rows, &mut lens, &mut marks)
    }

    // The length in rows of that many dimensions.
    fn dimensions_length(&mut self, dimensions: usize, rows: usize) -> Result<usize, FileFault>
        requires dimensions { dimensions ≤ max_fields }
        requires rows { rows ≤ max_rows }
        ensures found { Finds (λ len all. len ≡ sum (map (λ coded. texts_length (decoded coded)) all)) self.old self.new result
            (each_at (dimension_at self.old.short rows) dimensions self.old.rest) }
        ensures bound { IfOk result (λ len. len ≤ 419443200000) }
    {
        let mut len = 0;
        for _ in 0..dimensions {
            len += self.dimension_length(rows)?;
        }
        Ok(len)
    }

    fn metric_length(&mut self, rows: usize) -> Result<usize, FileFault>
        requires { rows ≤ max_rows }
        ensures found { Finds (λ len numbers. len ≡ numbers_length numbers) self.old self.new result
            (metric_at self.old.short rows self.old.rest) }
        ensures bound { IfOk result (λ len. len ≤ 900000) }
    {
        let present = 8 * self.count_marks(rows)?;
        self.bytes(present)?;
        Ok(rows + present)
    }

    // The length in rows of that many metrics.
    fn metrics_length(&mut self, metrics: usize, rows: usize) -> Result<usize, FileFault>
        requires metrics { metrics ≤ max_fields }
        requires rows { rows ≤ max_rows }
        ensures found { Finds (λ len all. len ≡ sum (map numbers_length all)) self.old self.new result
            (each_at (metric_at self.old.short rows) metrics self.old.rest) }
        ensures bound { IfOk result (λ len. len ≤ 57600000) }
    {
        let mut len = 0;
        for _ in 0..metrics {
            len += self.metric_length(rows)?;
        }
        Ok(len)
    }

    // The length of the rows of these columns in a spelling in rows, without their number. Each column is judged, and
    // none kept.
    #[tactic(auto, unfolding(crate::specs::ColumnReader::columns_at))]
    pub(crate) fn columns_length(&mut self, shape: Shape, rows: usize) -> Result<usize, FileFault>
        requires { rows ≤ max_rows }
        ensures found { Finds (λ len columns. len ≡ columns_length columns) self.old self.new result
            (columns_at self.old.short shape rows self.old.rest) }
        ensures bound { IfOk result (λ len. len ≤ 1000000000000) }
    {
        self.skip_times(shape.interval, rows)?;
        let texts = self.dimensions_length(shape.dimensions, rows)?;
        let numbers = self.metrics_length(shape.metrics, rows)?;
        Ok(8 * rows + texts + numbers)
    }
}
