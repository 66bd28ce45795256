//! Segment files, read. The bytes are read whole, so F7 and F9 of the reader come before a fault of
//! the text; then they are judged from left to right without memory, and only what spells a segment
//! is built: after a fault of the text there is no F9.
ghost use Rattle.std.specs.Prelude.{◌≡◌, ◌≢◌, ◌↔◌, ◌⊎◌, ◌+◌, ◌≤◌, ◌<◌, ℕ, List, length, take, slice_index_or, Some, Ok, Err, IfOk, IfErr, IfSome, OnErr};
ghost use Rattle.std.specs.Io.KnownBytes.{Consumes, IsAtEnd, Keeps};
ghost use Rattle.std.specs.IoError.{error_kind};
ghost use Rattle.druid_stream.specs.Taken.{TakesAtMost};
ghost use Rattle.druid_segment_rows.specs.Segment.{Segment, IsSegment, max_text};
ghost use Rattle.druid_segment_file.specs.ByteParts.{spelling, Fits};
ghost use Rattle.druid_segment_file.specs.ColumnBytes.{IsColumnSpelling};
ghost use Rattle.druid_segment_file.specs.Layouts.{IsFileOf};
ghost use Rattle.druid_segment_file.specs.Parts.{shape_of, row_count_at};
ghost use Rattle.druid_segment_file.specs.ColumnReader.{column_content_at};
ghost use Rattle.druid_segment_file.specs.Reader.{GivesInMemory, GivesOfReader, TakesAs, row_content_at, content_at, short_of, segment_at};
ghost use Rattle.druid_segment_file.specs.Builder.{IsHead, IsWhole, IsWholeByColumns, IsJudged, CanBuild, IsBuilt};

use crate::FileFault;
use crate::column_builder::Columns;
use crate::cursor::{Cursor, at_most};
use crate::fields::FieldNames;
use crate::head::Announcement;
use crate::layout::Layout;
use crate::rows::{Shape, want_of_memory, with_rows};
use druid_segment_rows::{MAX_ROWS, MAX_TEXT, Segment, SegmentBuilder};
use druid_stream::{MAX_TRIES, is_interrupted};
use std::alloc::{AllocError, Global};
use std::io;
use std::io::{Error, ErrorKind, Read};

// How many bytes are read at once.
const PART: usize = 16_384;

// The fault of a failed read: `Memory` where it ran out of memory, and `Read` where it failed for anything else.
fn read_fault(error: &Error) -> FileFault
    ensures memory { (result ≡ FileFault.Memory) ↔ (error_kind error.now ≡ ErrorKind.OutOfMemory) }
    ensures fault { (result ≡ FileFault.Read) ⊎ (result ≡ FileFault.Memory) }
{
    match error.kind() {
        ErrorKind::OutOfMemory => FileFault::Memory,
        _ => FileFault::Read,
    }
}

// Reads what comes next, and no bytes at the end of the input. An interrupted read is retried, 1,000 times in a row at most.
#[tactic(auto, using(crate::proofs::TakenLemmas::kept_reads, crate::proofs::TakenLemmas::kept_twice))]
fn read_some<R: Read>(reader: &mut R, part: &mut [u8]) -> io::Result<usize>
    ensures bound { IfOk result (λ n. n ≤ length part.new) }
    ensures room { length part.new ≡ length part.old }
    ensures taken { IfOk result
        (λ n. Consumes (R.remaining reader.old) (R.remaining reader.new) (take n part.new)) }
    ensures end { IfOk result (λ n. n ≡ 0 → 0 < length part.old → IsAtEnd (R.remaining reader.new)) }
    ensures err { OnErr result (Keeps (R.remaining reader.old) (R.remaining reader.new)) }
{
    for _ in 0..MAX_TRIES {
        match reader.read(part) {
            Ok(count) => return Ok(count),
            Err(error) => {
                if !is_interrupted(&error) {
                    return Err(error);
                }
            }
        }
    }
    Err(ErrorKind::Interrupted.into())
}

// The front of what a reader has, by which it is known whether there is more than a segment may have.
fn first_bytes<R: Read>(alloc: Global, reader: &mut R) -> Result<Vec<u8>, FileFault>
    ensures front { IfOk result (λ front. IfSome (R.remaining reader.old) (λ bytes. front.items ≡ take (max_text + 1) bytes)) }
    ensures taken { TakesAtMost (max_text + 1) (R.remaining reader.old) (R.remaining reader.new) }
    ensures faults { IfErr result (λ fault. (fault ≡ FileFault.Read) ⊎ (fault ≡ FileFault.Memory)) }
{
    let mut bytes = Vec::new(alloc);
    let mut part = [0u8; PART];
    while bytes.len() <= MAX_TEXT {
        let room = PART.min(MAX_TEXT + 1 - bytes.len());
        let space = &mut part[..room];
        let count = match read_some(reader, space) {
            Ok(count) => count,
            Err(error) => return Err(read_fault(&error)),
        };
        if count == 0 {
            return Ok(bytes);
        }
        bytes.extend_from_slice(&space[..count])?;
    }
    Ok(bytes)
}

// A segment whose bytes were judged. What stands before the rows is read, and the rows are not.
#[derive(Drop)]
struct Judged<'a> {
    layout: Layout,
    announcement: Announcement<'a>,
    fields: FieldNames<'a>,
    count: usize,
    rows: &'a [u8],
}

// For the proof: each is a byte.
fn are_bytes(bytes: &[u8])
    ensures { (place : ℕ) → slice_index_or bytes.now place 0 < 256 }
{
    let _ = bytes.len();
}

// How the rows of a segment are read.
#[tactic(auto, using(crate::proofs::BuildLemmas::length_borrowed))]
fn shape_of(announcement: &Announcement<'_>, fields: &FieldNames<'_>) -> Shape
    ensures { result ≡ shape_of announcement.now fields.now }
{
    Shape {
        interval: announcement.interval(),
        dimensions: fields.dimensions().len(),
        metrics: fields.metrics().len(),
    }
}

impl<'a> Cursor<'a> {
    // How many rows there are.
    #[tactic(auto, unfolding(crate::specs::Parts::row_count_at))]
    fn row_count(&mut self) -> Result<usize, FileFault>
        ensures { TakesAs (λ count. count) self.old self.new result (row_count_at self.old.short self.old.rest) }
    {
        at_most(MAX_ROWS, self.u32()? as usize)
    }

    // What stands before the rows, after the name of the layout.
    #[tactic(auto, unfolding(crate::specs::Reader::row_content_at, crate::specs::ColumnReader::column_content_at, crate::specs::Parts::rows_at, crate::specs::Parts::row_count_at))]
    fn head(&mut self, layout: Layout) -> Result<Judged<'a>, FileFault>
        ensures layout { IfOk result (λ j. j.layout ≡ layout) }
        ensures head { IfOk result (λ j. IsHead self.old.short self.old.rest j.announcement j.fields j.count self.new.rest) }
        ensures rows { IfOk result (λ j. j.rows.now ≡ self.new.rest) }
        ensures short { IfOk result (λ j. self.new.short ≡ self.old.short) }
        ensures row_fault { IfErr result (λ fault. row_content_at self.old.short self.old.rest ≡ Err fault) }
        ensures column_fault { IfErr result (λ fault. column_content_at self.old.short self.old.rest ≡ Err fault) }
    {
        let announcement = match self.announcement() {
            Ok(announcement) => announcement,
            Err(fault) => return Err(fault),
        };
        let fields = self.fields()?;
        let count = self.row_count()?;
        Ok(Judged {
            layout,
            announcement,
            fields,
            count,
            rows: self.rest(),
        })
    }

    // A segment in rows, of which all is judged, and the rows are not kept.
    fn validate_rows(&mut self) -> Result<Judged<'a>, FileFault>
        ensures layout { IfOk result (λ j. j.layout ≡ Layout.ByRows) }
        ensures whole { IfOk result (λ j. IsWhole self.old.short self.old.rest j.announcement j.fields j.count j.rows.now self.new.rest) }
        ensures fault { IfErr result (λ fault. row_content_at self.old.short self.old.rest ≡ Err fault) }
    {
        let judged = self.head(Layout::ByRows)?;
        let shape = shape_of(&judged.announcement, &judged.fields);
        self.skip_rows(shape, judged.count)?;
        Ok(judged)
    }

    // A segment by columns, of which all is judged, and the columns are not kept.
    fn validate_columns(&mut self) -> Result<Judged<'a>, FileFault>
        ensures layout { IfOk result (λ j. j.layout ≡ Layout.ByColumns) }
        ensures whole { IfOk result (λ j. IsWholeByColumns self.old.short self.old.rest j.announcement j.fields j.count j.rows.now self.new.rest) }
        ensures fault { IfErr result (λ fault. column_content_at self.old.short self.old.rest ≡ Err fault) }
    {
        let bytes = self.rest();
        are_bytes(bytes);
        let judged = self.head(Layout::ByColumns)?;
        let shape = shape_of(&judged.announcement, &judged.fields);
        let len = self.columns_length(shape, judged.count)?;
        if 4 + bytes.len() - judged.rows.len() + len > MAX_TEXT {
            return Err(FileFault::TooLong);
        }
        Ok(judged)
    }

    // A segment in either layout.
    fn validate(&mut self) -> Result<Judged<'a>, FileFault>
        ensures whole { IfOk result (λ j. IsJudged self.old.short self.old.rest j.layout j.announcement j.fields j.count j.rows.now self.new.rest) }
        ensures fault { IfErr result (λ fault. content_at self.old.short self.old.rest ≡ Err fault) }
    {
        match self.layout()? {
            Layout::ByRows => self.validate_rows(),
            Layout::ByColumns => self.validate_columns(),
        }
    }
}

impl Judged<'_> {
    // The segment of these rows.
    fn of_rows(&self, alloc: Global, short: FileFault) -> Result<Segment, AllocError>
        requires { CanBuild Layout.ByRows short self.now.announcement self.now.fields self.now.count self.now.rows.now }
        ensures { IfOk result (IsBuilt Layout.ByRows short self.now.announcement self.now.fields self.now.count self.now.rows.now) }
    {
        let shape = shape_of(&self.announcement, &self.fields);
        let descriptor = self.announcement.descriptor(alloc)?;
        match SegmentBuilder::new(alloc, descriptor, self.fields.schema(alloc)?) {
            Ok(builder) => with_rows(builder, shape, self.count, self.rows, short)?.finish(),
            Err(fault) => Err(want_of_memory(fault)),
        }
    }

    // The segment of these columns.
    fn of_columns(&self, alloc: Global, short: FileFault) -> Result<Segment, AllocError>
        requires { CanBuild Layout.ByColumns short self.now.announcement self.now.fields self.now.count self.now.rows.now }
        ensures { IfOk result (IsBuilt Layout.ByColumns short self.now.announcement self.now.fields self.now.count self.now.rows.now) }
    {
        let shape = shape_of(&self.announcement, &self.fields);
        let mut cursor = Cursor::new(self.rows, short);
        let columns = cursor.columns(alloc, shape, self.count)?;
        let descriptor = self.announcement.descriptor(alloc)?;
        let schema = self.fields.schema(alloc)?;
        let Columns {
            times,
            dimensions,
            metrics,
        } = columns;
        Ok(Segment::of_columns(alloc, descriptor, schema, times, dimensions, metrics))
    }

    fn segment(&self, alloc: Global, short: FileFault) -> Result<Segment, AllocError>
        requires { CanBuild self.now.layout short self.now.announcement self.now.fields self.now.count self.now.rows.now }
        ensures { IfOk result (IsBuilt self.now.layout short self.now.announcement self.now.fields self.now.count self.now.rows.now) }
    {
        match self.layout {
            Layout::ByRows => self.of_rows(alloc, short),
            Layout::ByColumns => self.of_columns(alloc, short),
        }
    }
}

// The fault where a part passes the end of what a file may have, or of the bytes.
fn short_of(bytes: &[u8]) -> FileFault
    ensures { result ≡ short_of max_text bytes.now }
{
    if bytes.len() > MAX_TEXT {
        FileFault::TooLong
    } else {
        FileFault::Cut
    }
}

/// The segment that the bytes spell in either layout, all of them. They are judged before anything
/// is allocated.
///
/// # Errors
///
/// F1 to F6 as of `read_segment`; F9 only of bytes that spell a segment.
pub fn segment_of(alloc: Global, bytes: &[u8]) -> Result<Segment, FileFault>
    ensures found { IfOk result (IsFileOf bytes.now) }
    ensures valid { IfOk result IsSegment }
    ensures exact { GivesInMemory result (segment_at bytes.now) }
{
    let short = short_of(bytes);
    let mut cursor = Cursor::new(&bytes[..bytes.len().min(MAX_TEXT)], short);
    let judged = cursor.validate()?;
    if !cursor.is_at_end() {
        return Err(FileFault::Trailing);
    }
    if bytes.len() > MAX_TEXT {
        return Err(FileFault::Trailing);
    }
    Ok(judged.segment(alloc, short)?)
}

/// The segment that the bytes of a reader spell in either layout, `DSG1` or `DSG2`, all of them to
/// its end. No more than 16,777,217 bytes are read.
///
/// # Errors
///
/// The first from the left of F1, F2, F3, F4, F5 and F6. By columns a part breaks a rule also where
/// a text does not stand above the one before it, where a code is above the number of texts, where
/// a text has no row, which is reported after the last code of its dimension, and where a mark is
/// neither 0 nor 1; a dimension with more texts than rows is F5, and so is, once the last part is
/// read, a segment that takes more than 16,777,216 bytes in `DSG1`. F7 and F9 may come in place of
/// any: F9 for the bytes as they come, before they are judged, and for the segment once they spell
/// one (read in the code).
pub fn read_segment<R: Read>(alloc: Global, reader: &mut R) -> Result<Segment, FileFault>
    // What is read is spelled so, each byte of it, and the input ends there.
    ensures found { IfOk result (λ segment. IfSome (R.remaining reader.old) (λ bytes. IsFileOf bytes segment)) }
    ensures valid { IfOk result IsSegment }
    // What is spelled so is read, unless the reader fails or memory runs out.
    ensures only { (s : Segment) → IsSegment s → Fits s → R.remaining reader.old ≡ Some (spelling s) → GivesOfReader result (Ok s) }
    ensures columns { (s : Segment) (bytes : List ℕ) → IsSegment s → Fits s → IsColumnSpelling bytes s → length bytes ≤ max_text → R.remaining reader.old ≡ Some bytes → GivesOfReader result (Ok s) }
    ensures taken { TakesAtMost (max_text + 1) (R.remaining reader.old) (R.remaining reader.new) }
    // Which fault it is.
    ensures exact { IfSome (R.remaining reader.old) (λ bytes. GivesOfReader result (segment_at bytes)) }
    ensures no_write { result ≢ Err FileFault.Write }
{
    let bytes = first_bytes(alloc, reader)?;
    segment_of(alloc, &bytes)
}
