//! The layouts of segment files, and what a file in each begins with.
ghost use Rattle.std.specs.Prelude.{◌≡◌, ◌+◌, length, drop, Err, IfOk, IfErr};
ghost use Rattle.druid_segment_file.specs.Reader.{content_at};
ghost use Rattle.druid_segment_file.specs.Builder.{content_of};

use crate::FileFault;
use crate::byte_parts::{COLUMN_MAGIC, MAGIC};
use crate::cursor::Cursor;

// Whether the rows follow each other, or their columns.
#[derive(Clone, Copy)]
pub(crate) enum Layout {
    ByRows,
    ByColumns,
}

impl<'a> Cursor<'a> {
    // The layout that the bytes begin with the name of.
    #[tactic(auto, unfolding(crate::specs::Reader::content_at, crate::specs::Reader::content_in, crate::specs::Parts::bytes_at))]
    pub(crate) fn layout(&mut self) -> Result<Layout, FileFault>
        ensures content { IfOk result (λ layout. content_at self.old.short self.old.rest ≡ content_of layout self.new.short self.new.rest) }
        ensures rest { IfOk result (λ layout. self.new.rest ≡ drop 4 self.old.rest) }
        ensures len { IfOk result (λ layout. length self.old.rest ≡ 4 + length self.new.rest) }
        ensures short { IfOk result (λ layout. self.new.short ≡ self.old.short) }
        ensures fault { IfErr result (λ fault. content_at self.old.short self.old.rest ≡ Err fault) }
    {
        let name = self.bytes(MAGIC.len())?;
        if name == MAGIC.as_slice() {
            return Ok(Layout::ByRows);
        }
        if name == COLUMN_MAGIC.as_slice() {
            return Ok(Layout::ByColumns);
        }
        Err(FileFault::Magic)
    }
}
