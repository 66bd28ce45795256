//! Segments written by columns, in the layout `DSG2`.
ghost use Rattle.std.specs.Prelude.{◌≡◌, ◌↔◌, ◌*◌, ◌⊎◌, ◌<◌, ◌≤◌, ◌++◌, List, ℕ, length, All, OnOk, OnErr, IfOk, IfErr, IsErrOf};
ghost use Rattle.std.specs.Int.{w32, to_be_bytes};
ghost use Rattle.std.specs.Io.KnownBytes.{Appends};
ghost use Rattle.std.specs.List.{flat_map, range_with_len};
ghost use Rattle.druid_stream.specs.Fronts.{AppendsFront};
ghost use Rattle.druid_segment_rows.specs.Rows.{max_value};
ghost use Rattle.druid_segment_rows.specs.Segment.{max_text};
ghost use Rattle.druid_segment_file.specs.ByteParts.{instant};
ghost use Rattle.druid_segment_file.specs.ColumnBytes.{Coded, AreCoded, value, dimension, mark, present, metric, numbers_of, column_spelling, IsColumnSpelling};
ghost use Rattle.druid_segment_file.specs.Heading.{column_front};
ghost use Rattle.druid_segment_file.specs.Written.{AppendsUpTo};

use crate::FileFault;
use crate::byte_parts::{append_instant, column_heading};
use crate::columns_room::is_short;
use crate::writer::{write_gathered, write_out};
use druid_segment_rows::{Numbers, Segment, Texts};
use druid_time::Instant;
use std::alloc::{AllocError, Global};
use std::io::Write;

fn append_times(out: &mut Vec<u8>, times: &[Instant]) -> Result<(), AllocError>
    ensures { OnOk result (out.new.items ≡ out.old.items ++ flat_map instant times.now) }
{
    for time in times {
        append_instant(out, *time)?;
    }
    Ok(())
}

// A text after its length, which is two bytes.
fn append_value(out: &mut Vec<u8>, text: &str) -> Result<(), AllocError>
    requires { length text.now ≤ max_value }
    ensures { OnOk result (out.new.items ≡ out.old.items ++ value text.now) }
{
    out.extend_from_slice(&(text.len() as u16).to_be_bytes())?;
    out.extend_from_slice(text.as_bytes())
}

fn append_values(out: &mut Vec<u8>, texts: &Texts) -> Result<(), AllocError>
    requires { All (λ text. length text ≤ max_value) texts.now }
    ensures { OnOk result (out.new.items ≡ out.old.items ++ flat_map value texts.now) }
{
    for place in 0..texts.len() {
        append_value(out, texts.get(place))?;
    }
    Ok(())
}

fn append_codes(out: &mut Vec<u8>, codes: &[u32]) -> Result<(), AllocError>
    ensures { OnOk result (out.new.items ≡ out.old.items ++ flat_map (to_be_bytes w32) codes.now) }
{
    for code in codes {
        out.extend_from_slice(&code.to_be_bytes())?;
    }
    Ok(())
}

// The texts of a dictionary after their number, which is the last four bytes of a length, and a code for each row.
fn append_dimension(out: &mut Vec<u8>, texts: &Texts, codes: &[u32]) -> Result<(), AllocError>
    requires { All (λ text. length text ≤ max_value) texts.now }
    ensures { OnOk result (out.new.items
        ≡ out.old.items ++ dimension (record { texts = texts.now; codes = codes.now })) }
{
    out.extend_from_slice(&texts.len().to_be_bytes()[4..])?;
    append_values(out, texts)?;
    append_codes(out, codes)
}

fn append_mark(out: &mut Vec<u8>, number: Option<i64>) -> Result<(), AllocError>
    ensures { OnOk result (out.new.items ≡ out.old.items ++ mark number) }
{
    match number {
        Some(_) => out.push(1)?,
        None => out.push(0)?,
    }
    Ok(())
}

// The number, where there is one.
fn append_present(out: &mut Vec<u8>, number: Option<i64>) -> Result<(), AllocError>
    ensures { OnOk result (out.new.items ≡ out.old.items ++ present number) }
{
    match number {
        Some(number) => out.extend_from_slice(&number.to_be_bytes()),
        None => Ok(()),
    }
}

fn append_marks(out: &mut Vec<u8>, numbers: &Numbers) -> Result<(), AllocError>
    ensures ok { OnOk result (out.new.items ≡ out.old.items ++ flat_map mark numbers.now) }
    ensures some { OnErr result (0 < length numbers.now) }
{
    for row in 0..numbers.len() {
        append_mark(out, numbers.get(row))?;
    }
    Ok(())
}

fn append_numbers(out: &mut Vec<u8>, numbers: &Numbers) -> Result<(), AllocError>
    ensures ok { OnOk result (out.new.items ≡ out.old.items ++ flat_map present numbers.now) }
    ensures some { OnErr result (0 < length numbers.now) }
{
    for row in 0..numbers.len() {
        append_present(out, numbers.get(row))?;
    }
    Ok(())
}

// A mark for each row, and then the numbers that there are.
fn append_metric(out: &mut Vec<u8>, numbers: &Numbers) -> Result<(), AllocError>
    ensures ok { OnOk result (out.new.items ≡ out.old.items ++ metric numbers.now) }
    ensures some { OnErr result (0 < length numbers.now) }
{
    append_marks(out, numbers)?;
    append_numbers(out, numbers)
}

// Writes the dimensions after what was gathered, and gathers the last of them.
fn write_dimensions<W: Write>(
    writer: &mut W,
    gathered: &mut Vec<u8>,
    segment: &Segment,
) -> Result<(), FileFault>
    ensures ok { (dimensions : List Coded) → AreCoded segment.now dimensions
        → OnOk result (AppendsUpTo (W.contents writer.old) (W.contents writer.new) (gathered.old.items ++ flat_map dimension dimensions) gathered.new.items) }
    ensures err { (dimensions : List Coded) → AreCoded segment.now dimensions
        → OnErr result (AppendsFront (W.contents writer.old) (W.contents writer.new) (gathered.old.items ++ flat_map dimension dimensions)) }
    ensures faults { IfErr result (λ fault. (fault ≡ FileFault.Write) ⊎ (fault ≡ FileFault.Memory)) }
{
    for place in 0..segment.schema().dimensions().len() {
        write_gathered(writer, gathered)?;
        append_dimension(gathered, segment.values(place), segment.codes(place))?;
    }
    Ok(())
}

// Writes the metrics after what was gathered, and gathers the last of them.
fn write_metrics<W: Write>(
    writer: &mut W,
    gathered: &mut Vec<u8>,
    segment: &Segment,
) -> Result<(), FileFault>
    ensures ok { OnOk result (AppendsUpTo (W.contents writer.old) (W.contents writer.new)
        (gathered.old.items ++ flat_map (λ place. metric (numbers_of segment.now.rows place)) (range_with_len 0 (length segment.now.fields.metrics))) gathered.new.items) }
    ensures err { OnErr result (AppendsFront (W.contents writer.old) (W.contents writer.new)
        (gathered.old.items ++ flat_map (λ place. metric (numbers_of segment.now.rows place)) (range_with_len 0 (length segment.now.fields.metrics)))) }
    ensures faults { IfErr result (λ fault. (fault ≡ FileFault.Write) ⊎ (fault ≡ FileFault.Memory)) }
{
    for place in 0..segment.schema().metrics().len() {
        write_gathered(writer, gathered)?;
        append_metric(gathered, segment.numbers(place))?;
    }
    Ok(())
}

// What stands before the dimensions.
fn front(alloc: Global, segment: &Segment) -> Result<Vec<u8>, AllocError>
    ensures { IfOk result (λ out. out.items ≡ column_front segment.now) }
{
    let mut out = column_heading(alloc, segment)?;
    append_times(&mut out, segment.times())?;
    Ok(out)
}

// Writes the spelling.
fn write_parts<W: Write>(alloc: Global, segment: &Segment, writer: &mut W) -> Result<(), FileFault>
    ensures ok { (dimensions : List Coded) → AreCoded segment.now dimensions
        → OnOk result (Appends (W.contents writer.old) (W.contents writer.new) (column_spelling segment.now dimensions)) }
    ensures err { (dimensions : List Coded) → AreCoded segment.now dimensions
        → OnErr result (AppendsFront (W.contents writer.old) (W.contents writer.new) (column_spelling segment.now dimensions)) }
    ensures faults { IfErr result (λ fault. (fault ≡ FileFault.Write) ⊎ (fault ≡ FileFault.Memory)) }
{
    let mut gathered = front(alloc, segment)?;
    write_dimensions(writer, &mut gathered, segment)?;
    write_metrics(writer, &mut gathered, segment)?;
    write_out(writer, &gathered)
}

// For the proof: its dimensions are coded by what it lends of each.
fn read_dimensions(segment: &Segment)
    ensures { (dimensions : List Coded) × AreCoded segment.now dimensions }
{
    for place in 0..segment.schema().dimensions().len() {
        let (_, _) = (segment.values(place), segment.codes(place));
    }
}

/// Writes the spelling of a segment by columns, in the layout `DSG2`. An interrupted write is
/// retried, 1,000 times in a row at most. At most 64 KiB and one column are gathered before a
/// write. Nothing is flushed.
///
/// # Errors
///
/// F5 where it has more than 16,777,216 bytes: nothing is written. F8, or F9 of the writer too: it
/// has some front of the spelling, and not the whole.
pub fn write_columns<W: Write>(
    alloc: Global,
    segment: &Segment,
    writer: &mut W,
) -> Result<(), FileFault>
    ensures ok { OnOk result ((bytes : List ℕ) × IsColumnSpelling bytes segment.now
        × (length bytes ≤ max_text)
        × Appends (W.contents writer.old) (W.contents writer.new) bytes) }
    ensures err { OnErr result ((bytes : List ℕ) × IsColumnSpelling bytes segment.now
        × AppendsFront (W.contents writer.old) (W.contents writer.new) bytes) }
    ensures too_long { IsErrOf result FileFault.TooLong
        ↔ ((bytes : List ℕ) → IsColumnSpelling bytes segment.now → max_text < length bytes) }
    ensures unwritten { IsErrOf result FileFault.TooLong → W.contents writer.new ≡ W.contents writer.old }
    ensures faults { IfErr result (λ fault. (fault ≡ FileFault.Write) ⊎ (fault ≡ FileFault.Memory) ⊎ (fault ≡ FileFault.TooLong)) }
{
    read_dimensions(segment);
    if !is_short(segment) {
        return Err(FileFault::TooLong);
    }
    write_parts(alloc, segment, writer)
}
