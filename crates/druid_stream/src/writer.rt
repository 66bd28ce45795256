//! Texts, written to their end.
ghost use Rattle.std.specs.Prelude.{◌≤◌, length, take, IfOk, OnOk, OnErr};
ghost use Rattle.std.specs.Io.KnownBytes.{Appends, Keeps};
ghost use Rattle.druid_stream.specs.Fronts.{AppendsFront};

use crate::interrupted::{MAX_TRIES, is_interrupted};
use std::io;
use std::io::{ErrorKind, Write};

// Writes a front of a text, of one byte at least, and gives its length.
#[tactic(auto, using(crate::proofs::WriteLemmas::kept_twice, crate::proofs::WriteLemmas::kept_appends))]
fn write_some<W: Write>(writer: &mut W, text: &[u8]) -> io::Result<usize>
    ensures bound { IfOk result (λ n. n ≤ length text.now) }
    ensures progress { IfOk result (λ n. 1 ≤ n) }
    ensures ok { IfOk result
        (λ n. Appends (W.contents writer.old) (W.contents writer.new) (take n text.now)) }
    ensures err { OnErr result (Keeps (W.contents writer.old) (W.contents writer.new)) }
{
    for _ in 0..MAX_TRIES {
        match writer.write(text) {
            Ok(0) => return Err(ErrorKind::WriteZero.into()),
            Ok(written) => return Ok(written),
            Err(error) => {
                if !is_interrupted(&error) {
                    return Err(error);
                }
            }
        }
    }
    Err(ErrorKind::Interrupted.into())
}

/// Writes a text. An interrupted write is retried, 1,000 times in a row at most.
///
/// # Errors
///
/// The writer's error, also where it takes nothing: it has some front of the text, and not the
/// whole.
pub fn write_text<W: Write>(writer: &mut W, text: &[u8]) -> io::Result<()>
    ensures ok { OnOk result (Appends (W.contents writer.old) (W.contents writer.new) text.now) }
    ensures err { OnErr result
        (AppendsFront (W.contents writer.old) (W.contents writer.new) text.now) }
{
    let mut rest = text;
    while !rest.is_empty() {
        let written = write_some(writer, rest)?;
        let (_, left) = rest.split_at(written);
        rest = left;
    }
    Ok(())
}
