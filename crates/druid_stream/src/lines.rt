//! Lines, read one by one.
ghost use Rattle.std.specs.Prelude.{◌≡◌, ◌≢◌, ◌≤◌, ◌<◌, ◌+◌, ◌++◌, length, take, All, Ok, IfOk, IfSome, OnErr};
ghost use Rattle.std.specs.Io.KnownBytes.{Keeps};
ghost use Rattle.druid_stream.specs.Parts.{feed_of, IsPart};
ghost use Rattle.druid_stream.specs.Lines.{Finds};

use crate::interrupted::{MAX_TRIES, is_interrupted};
use std::io;
use std::io::{BufRead, ErrorKind};

/// What follows some bytes of a line.
#[derive(Clone, Copy, Debug, PartialEq, Eq, Drop)]
pub enum Part {
    /// There may be more of it.
    More,
    /// Its line feed.
    Feed,
    /// The end of the input.
    Ended,
}

impl Part {
    // The length of the line feed, where it is one.
    fn feed_len(self) -> usize
        ensures { result ≡ length (feed_of self) }
    {
        match self {
            Part::Feed => 1,
            Part::More | Part::Ended => 0,
        }
    }
}

// How many bytes there are before the first line feed, but no more than there is room for, and what stands after them.
fn scan(bytes: &[u8], room: usize) -> (usize, Part)
    ensures bound { result.0 + length (feed_of result.1) ≤ length bytes.now }
    ensures short { result.0 ≤ room }
    ensures plain { All (λ b. b ≢ 10) (take result.0 bytes.now) }
    ensures taken { take (result.0 + length (feed_of result.1)) bytes.now
        ≡ take result.0 bytes.now ++ feed_of result.1 }
    ensures ended { result.1 ≡ Part.Ended → length bytes.now ≡ 0 }
{
    if bytes.is_empty() {
        return (0, Part::Ended);
    }
    for i in 0..bytes.len() {
        if bytes[i] == b'\n' {
            return (i, Part::Feed);
        }
        if i == room {
            return (i, Part::More);
        }
    }
    (bytes.len(), Part::More)
}

// Appends what the reader has at hand of a line, but no more bytes than there is room for, and takes the line feed.
fn append_part<R: BufRead>(reader: &mut R, line: &mut Vec<u8>, room: usize) -> io::Result<Part>
    ensures part { IfOk result (λ part. IsPart part line.old.items line.new.items room
        (R.remaining reader.old) (R.remaining reader.new)) }
    ensures err { OnErr result (Keeps (R.remaining reader.old) (R.remaining reader.new)) }
{
    let available = match reader.fill_buf() {
        Ok(available) => available,
        Err(error) => {
            return if is_interrupted(&error) {
                Ok(Part::More)
            } else {
                Err(error)
            };
        }
    };
    let (end, part) = scan(available, room);
    line.extend_from_slice(&available[..end])?;
    reader.consume(end + part.feed_len());
    Ok(part)
}

/// Appends what the reader has at hand of a line, but no more bytes than there is room for, and
/// takes the line feed after them. An interrupted read is retried, 1,000 times in a row at most.
///
/// # Errors
///
/// The reader's error, or out of memory. Nothing is taken of the reader; of `line` no clause
/// speaks.
pub fn next_part<R: BufRead>(reader: &mut R, line: &mut Vec<u8>, room: usize) -> io::Result<Part>
    ensures part { IfOk result (λ part. IsPart part line.old.items line.new.items room
        (R.remaining reader.old) (R.remaining reader.new)) }
    ensures progress { IfOk result
        (λ part. part ≡ Part.More → length line.old.items < length line.new.items) }
    ensures err { OnErr result (Keeps (R.remaining reader.old) (R.remaining reader.new)) }
{
    for _ in 0..MAX_TRIES {
        let before = line.len();
        let part = append_part(reader, line, room)?;
        match part {
            Part::More => {
                if line.len() != before {
                    return Ok(part);
                }
            }
            Part::Feed | Part::Ended => return Ok(part),
        }
    }
    Err(ErrorKind::Interrupted.into())
}

/// What reading on finds.
#[derive(Clone, Copy, Debug, PartialEq, Eq, Drop)]
pub enum Next {
    /// A line.
    Line,
    /// A line of more bytes than the limit.
    TooLong,
    /// The end of the input.
    End,
}

/// Reads the next line, without its line feed, in place of what `line` had. Of a line of more bytes than the limit it keeps
/// one byte more than that, and the reader stands somewhere in it. An interrupted read is retried, 1,000 times in a row at most.
///
/// # Errors
///
/// The reader's error, or out of memory; what it leaves no clause says.
pub fn next_line<R: BufRead>(reader: &mut R, line: &mut Vec<u8>, limit: usize) -> io::Result<Next>
    ensures found { IfOk result (λ next. IfSome (R.remaining reader.old)
        (λ xs. Finds limit next xs line.new.items (R.remaining reader.new))) }
    ensures within { result ≡ Ok Next.Line → length line.new.items ≤ limit }
    ensures kept { IfOk result (λ _. length line.new.items ≤ limit + 1) }
{
    line.clear();
    for _ in 0..u64::MAX {
        let room = (limit - line.len()).saturating_add(1);
        let part = next_part(reader, line, room)?;
        if line.len() > limit {
            return Ok(Next::TooLong);
        }
        match part {
            Part::More => {}
            Part::Feed => return Ok(Next::Line),
            Part::Ended => {
                if line.is_empty() {
                    return Ok(Next::End);
                }
                return Ok(Next::Line);
            }
        }
    }
    Err(ErrorKind::TimedOut.into())
}
