//! The parts of a spelling, each put after what was spelled before.
ghost use Rattle.std.specs.Prelude.{◌≡◌, ◌<◌, ◌≤◌, ◌++◌, length, map, All, IfOk, IfSome, OnOk};
ghost use Rattle.std.specs.Option.{option_map};
ghost use Rattle.std.specs.List.{flat_map};
ghost use Rattle.druid_segment_rows.specs.Rows.{texts_of, max_value};
ghost use Rattle.druid_segment_rows.specs.Segment.{row_at};
ghost use Rattle.druid_segment_file.specs.ByteParts.{instant, interval, short_text, names, descriptor, text_value, number_value, row};
ghost use Rattle.druid_segment_file.specs.ColumnBytes.{column_magic};
ghost use Rattle.druid_segment_file.specs.Heading.{heading, heading_after};

use druid_segment_descriptor::Descriptor;
use druid_segment_rows::Segment;
use druid_time::{Instant, Interval};
use std::alloc::{AllocError, Global};

// What a file begins with.
pub(crate) const MAGIC: [u8; 4] = *b"DSG1";

// What a file of the layout by columns begins with.
pub(crate) const COLUMN_MAGIC: [u8; 4] = *b"DSG2";

pub(crate) fn append_instant(out: &mut Vec<u8>, time: Instant) -> Result<(), AllocError>
    ensures { OnOk result (out.new.items ≡ out.old.items ++ instant time) }
{
    out.extend_from_slice(&time.ms().to_be_bytes())
}

fn append_interval(out: &mut Vec<u8>, extent: Interval) -> Result<(), AllocError>
    ensures { OnOk result (out.new.items ≡ out.old.items ++ interval extent) }
{
    append_instant(out, extent.start())?;
    append_instant(out, extent.end())?;
    Ok(())
}

// A text after its length, which is one byte.
fn append_short_text(out: &mut Vec<u8>, text: &str) -> Result<(), AllocError>
    requires { length text.now < 256 }
    ensures { OnOk result (out.new.items ≡ out.old.items ++ short_text text.now) }
{
    out.push(text.len() as u8)?;
    out.extend_from_slice(text.as_bytes())
}

// Names after their number, which is one byte.
fn append_names(out: &mut Vec<u8>, texts: &[String]) -> Result<(), AllocError>
    requires count { length texts.now < 256 }
    requires each { All (λ name. length name < 256) (texts_of texts.now) }
    ensures { OnOk result (out.new.items ≡ out.old.items ++ names (texts_of texts.now)) }
{
    out.push(texts.len() as u8)?;
    for text in texts {
        append_short_text(out, text.as_str())?;
    }
    Ok(())
}

fn append_descriptor(
    alloc: Global,
    out: &mut Vec<u8>,
    announcement: &Descriptor,
) -> Result<(), AllocError>
    ensures { OnOk result (out.new.items ≡ out.old.items ++ descriptor announcement.now) }
{
    let id = announcement.id();
    let version = id.version().text(alloc)?;
    append_short_text(out, id.source().as_str())?;
    append_interval(out, id.interval())?;
    append_short_text(out, version.as_str())?;
    out.extend_from_slice(&id.partition().to_be_bytes())?;
    out.extend_from_slice(&announcement.core().to_be_bytes())?;
    out.extend_from_slice(&announcement.size().to_be_bytes())?;
    Ok(())
}

// What stands before the first row.
pub(crate) fn heading(alloc: Global, segment: &Segment) -> Result<Vec<u8>, AllocError>
    ensures { IfOk result (λ out. out.items ≡ heading segment.now) }
{
    heading_after(alloc, &MAGIC, segment)
}

// By columns, what stands before the instants.
pub(crate) fn column_heading(alloc: Global, segment: &Segment) -> Result<Vec<u8>, AllocError>
    ensures { IfOk result (λ out. out.items ≡ heading_after column_magic segment.now) }
{
    heading_after(alloc, &COLUMN_MAGIC, segment)
}

// What stands up to the number of rows, after these first bytes.
fn heading_after(alloc: Global, first: &[u8], segment: &Segment) -> Result<Vec<u8>, AllocError>
    ensures { IfOk result (λ out. out.items ≡ heading_after first.now segment.now) }
{
    let schema = segment.schema();
    let mut out = Vec::new(alloc);
    out.extend_from_slice(first)?;
    append_descriptor(alloc, &mut out, segment.descriptor())?;
    append_names(&mut out, schema.dimensions())?;
    append_names(&mut out, schema.metrics())?;
    out.extend_from_slice(&(segment.len() as u32).to_be_bytes())?;
    Ok(out)
}

// A text after its mark and its length, or the mark of null.
fn append_text_value(out: &mut Vec<u8>, value: Option<&str>) -> Result<(), AllocError>
    requires { IfSome (option_map (λ text. text.now) value) (λ text. length text ≤ max_value) }
    ensures { OnOk result (out.new.items
        ≡ out.old.items ++ text_value (option_map (λ text. text.now) value.entry)) }
{
    let Some(text) = value else {
        out.push(0)?;
        return Ok(());
    };
    out.push(1)?;
    out.extend_from_slice(&(text.len() as u16).to_be_bytes())?;
    out.extend_from_slice(text.as_bytes())
}

// A number after its mark, or the mark of null.
fn append_number_value(out: &mut Vec<u8>, value: Option<i64>) -> Result<(), AllocError>
    ensures { OnOk result (out.new.items ≡ out.old.items ++ number_value value) }
{
    let Some(number) = value else {
        out.push(0)?;
        return Ok(());
    };
    out.push(1)?;
    out.extend_from_slice(&number.to_be_bytes())
}

fn append_dimensions(out: &mut Vec<u8>, segment: &Segment, place: usize) -> Result<(), AllocError>
    requires { place < length segment.now.rows }
    ensures { OnOk result (out.new.items
        ≡ out.old.items ++ flat_map text_value (row_at segment.now place).dimensions) }
{
    for dimension in 0..segment.schema().dimensions().len() {
        append_text_value(out, segment.dimension(place, dimension))?;
    }
    Ok(())
}

fn append_metrics(out: &mut Vec<u8>, segment: &Segment, place: usize) -> Result<(), AllocError>
    requires { place < length segment.now.rows }
    ensures { OnOk result (out.new.items
        ≡ out.old.items ++ flat_map number_value (row_at segment.now place).metrics) }
{
    for metric in 0..segment.schema().metrics().len() {
        append_number_value(out, segment.metric(place, metric))?;
    }
    Ok(())
}

pub(crate) fn append_row(
    out: &mut Vec<u8>,
    segment: &Segment,
    place: usize,
) -> Result<(), AllocError>
    requires { place < length segment.now.rows }
    ensures { OnOk result (out.new.items ≡ out.old.items ++ row (row_at segment.now place)) }
{
    append_instant(out, segment.time(place))?;
    append_dimensions(out, segment, place)?;
    append_metrics(out, segment, place)
}
