//! Segments written by rows, in the layout `DSG1`.
ghost use Rattle.std.specs.Prelude.{◌≡◌, ◌≢◌, ◌↔◌, ◌⊎◌, ◌<◌, length, Err, OnOk, OnErr, IfErr};
ghost use Rattle.std.specs.Io.KnownBytes.{Appends};
ghost use Rattle.std.specs.IoError.{error_kind};
ghost use Rattle.druid_stream.specs.Fronts.{AppendsFront};
ghost use Rattle.druid_segment_file.specs.ByteParts.{spelling};
ghost use Rattle.druid_segment_file.specs.Written.{AppendsUpTo};

use crate::FileFault;
use crate::byte_parts::{append_row, heading};
use druid_segment_rows::Segment;
use druid_stream::write_text;
use std::alloc::Global;
use std::io::{Error, ErrorKind, Write};

// So many bytes are gathered before they are written out.
const GATHERED: usize = 65_536;

// The fault of a failed write: `Memory` where it ran out of memory, and `Write` where it failed for anything else.
fn write_fault(error: &Error) -> FileFault
    ensures memory { (result ≡ FileFault.Memory) ↔ (error_kind error.now ≡ ErrorKind.OutOfMemory) }
    ensures fault { (result ≡ FileFault.Write) ⊎ (result ≡ FileFault.Memory) }
{
    match error.kind() {
        ErrorKind::OutOfMemory => FileFault::Memory,
        _ => FileFault::Write,
    }
}

// Writes all of the bytes.
pub(crate) fn write_out<W: Write>(writer: &mut W, bytes: &[u8]) -> Result<(), FileFault>
    ensures ok { OnOk result (Appends (W.contents writer.old) (W.contents writer.new) bytes.now) }
    ensures err { OnErr result (AppendsFront (W.contents writer.old) (W.contents writer.new) bytes.now) }
    ensures faults { IfErr result (λ fault. (fault ≡ FileFault.Write) ⊎ (fault ≡ FileFault.Memory)) }
{
    match write_text(writer, bytes) {
        Ok(()) => Ok(()),
        Err(error) => Err(write_fault(&error)),
    }
}

// Writes out what was gathered, once it is enough for a write.
pub(crate) fn write_gathered<W: Write>(
    writer: &mut W,
    gathered: &mut Vec<u8>,
) -> Result<(), FileFault>
    ensures ok { OnOk result (AppendsUpTo (W.contents writer.old) (W.contents writer.new) gathered.old.items gathered.new.items) }
    ensures few { OnOk result (length gathered.new.items < 65536) }
    ensures err { OnErr result (AppendsFront (W.contents writer.old) (W.contents writer.new) gathered.old.items) }
    ensures faults { IfErr result (λ fault. (fault ≡ FileFault.Write) ⊎ (fault ≡ FileFault.Memory)) }
{
    if gathered.len() < GATHERED {
        return Ok(());
    }
    write_out(writer, gathered)?;
    gathered.clear();
    Ok(())
}

/// Writes the spelling of a segment. An interrupted write is retried, 1,000 times in a row at most.
/// Nothing is flushed.
///
/// # Errors
///
/// F8, or F9 of the writer too: it has some front of the spelling, and not the whole.
pub fn write_segment<W: Write>(
    alloc: Global,
    segment: &Segment,
    writer: &mut W,
) -> Result<(), FileFault>
    ensures ok { OnOk result (Appends (W.contents writer.old) (W.contents writer.new) (spelling segment.now)) }
    ensures err { OnErr result (AppendsFront (W.contents writer.old) (W.contents writer.new) (spelling segment.now)) }
    ensures faults { IfErr result (λ fault. (fault ≡ FileFault.Write) ⊎ (fault ≡ FileFault.Memory)) }
{
    let mut gathered = heading(alloc, segment)?;
    for row in 0..segment.len() {
        write_gathered(writer, &mut gathered)?;
        append_row(&mut gathered, segment, row)?;
    }
    write_out(writer, &gathered)
}
