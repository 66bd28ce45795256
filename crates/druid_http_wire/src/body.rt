//! The body of a message, read as it comes.
ghost use Rattle.std.specs.Prelude.{◌≡◌, IfOk, IfSome, OnErr};
ghost use Rattle.std.specs.Io.KnownBytes.{Keeps};
ghost use Rattle.druid_stream.specs.Taken.{TakesAtMost};
ghost use Rattle.druid_http_wire.specs.Bodies.{IsTaken, EndsBody};

use druid_stream::{MAX_TRIES, is_interrupted};
use std::io;
use std::io::{BufRead, ErrorKind};

// Appends what the reader has at hand, but no more bytes than there is room for. False at the end of the input.
fn append_bytes<R: BufRead>(reader: &mut R, body: &mut Vec<u8>, room: usize) -> io::Result<bool>
    ensures more { IfOk result (λ more. IsTaken more body.old.items body.new.items room
        (R.remaining reader.old) (R.remaining reader.new)) }
    ensures err { OnErr result (Keeps (R.remaining reader.old) (R.remaining reader.new)) }
{
    let available = match reader.fill_buf() {
        Ok(available) => available,
        Err(error) => {
            return if is_interrupted(&error) {
                Ok(true)
            } else {
                Err(error)
            };
        }
    };
    let more = !available.is_empty();
    let taken = available.len().min(room);
    body.extend_from_slice(&available[..taken])?;
    reader.consume(taken);
    Ok(more)
}

// The same, with another try where the reader is interrupted and nothing was at hand.
fn next_bytes<R: BufRead>(reader: &mut R, body: &mut Vec<u8>, room: usize) -> io::Result<bool>
    ensures more { IfOk result (λ more. IsTaken more body.old.items body.new.items room
        (R.remaining reader.old) (R.remaining reader.new)) }
    ensures err { OnErr result (Keeps (R.remaining reader.old) (R.remaining reader.new)) }
{
    for _ in 0..MAX_TRIES {
        let before = body.len();
        let more = append_bytes(reader, body, room)?;
        if !more {
            return Ok(false);
        }
        if body.len() != before {
            return Ok(true);
        }
    }
    Err(ErrorKind::Interrupted.into())
}

// Reads a body of so many bytes, and nothing after it, with memory for what has come. False where the input ends before.
pub(crate) fn read_body<R: BufRead>(
    reader: &mut R,
    body: &mut Vec<u8>,
    length: usize,
) -> io::Result<bool>
    ensures whole { IfOk result (λ whole. IfSome (R.remaining reader.old)
        (λ input. EndsBody whole input length body.new.items (R.remaining reader.new))) }
    ensures taken { TakesAtMost length (R.remaining reader.old) (R.remaining reader.new) }
{
    body.clear();
    for _ in 0..u64::MAX {
        if length <= body.len() {
            return Ok(true);
        }
        if !next_bytes(reader, body, length - body.len())? {
            return Ok(false);
        }
    }
    Err(ErrorKind::TimedOut.into())
}
