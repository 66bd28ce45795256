//! Where the head of a message ends. A head is framed before it is parsed, so that `httparse` looks
//! at it once, whole, and each refusal is of that head.
ghost use Rattle.std.specs.Prelude.{◌≡◌, ◌↔◌, ◌+◌, ◌≤◌, ◌==◌, length, drop, IsTrue, IfOk, IfSome};
ghost use Rattle.druid_stream.specs.Taken.{TakesAtMost};
ghost use Rattle.druid_http_wire.specs.Frame.{IsBlank};
ghost use Rattle.druid_http_wire.specs.Limits.{max_head};
ghost use Rattle.druid_http_wire.specs.Parts.{IsLine, Finds};

use crate::limits::MAX_HEAD;
use druid_stream::{Part, next_part};
use std::io;
use std::io::{BufRead, ErrorKind};

/// What reading a head finds.
#[derive(Clone, Copy, Debug, PartialEq, Eq, Drop)]
pub(crate) enum HeadEnd {
    // A head, up to its end.
    Head,
    // The end of the input.
    Ended,
    // More bytes than a head may have.
    TooLong,
}

// Whether what follows a place is a blank line.
pub(crate) fn is_blank(head: &[u8], start: usize) -> bool
    requires { start ≤ length head.now }
    ensures { IsTrue result ↔ IsBlank (drop start head.now) }
{
    let (_, line) = head.split_at(start);
    matches!(line, [] | [b'\r'])
}

// Appends the next line, without its line feed, but no more than one byte more than there is room for: `More` where it has
// as many as that, and another byte comes after them. A line feed may be taken after that byte.
fn read_line<R: BufRead>(reader: &mut R, head: &mut Vec<u8>, room: usize) -> io::Result<Part>
    ensures part { IfOk result (λ part. IsLine part head.old.items head.new.items room
        (R.remaining reader.old) (R.remaining reader.new)) }
    ensures taken { TakesAtMost (room + 2) (R.remaining reader.old) (R.remaining reader.new) }
{
    let start = head.len();
    for _ in 0..u64::MAX {
        let taken = head.len() - start;
        if room < taken {
            return Ok(Part::More);
        }
        let part = next_part(reader, head, (room - taken).saturating_add(1))?;
        match part {
            Part::More => {}
            Part::Feed => {
                if room <= head.len() - start {
                    return Ok(Part::More);
                }
                return Ok(Part::Feed);
            }
            Part::Ended => return Ok(Part::Ended),
        }
    }
    Err(ErrorKind::TimedOut.into())
}

// Reads blank lines, which are not kept but count, and after them a head, up to and with the blank line that ends it. No more
// than the limit and two bytes are taken.
pub(crate) fn find_head<R: BufRead>(reader: &mut R, head: &mut Vec<u8>) -> io::Result<HeadEnd>
    ensures found { IfOk result (λ found. IfSome (R.remaining reader.old)
        (λ input. Finds found input head.new.items (R.remaining reader.new))) }
    ensures taken { TakesAtMost (max_head + 2) (R.remaining reader.old) (R.remaining reader.new) }
{
    head.clear();
    // The bytes of the blank lines before the head.
    let mut passed = 0;
    for _ in 0..u64::MAX {
        let start = head.len();
        let part = read_line(reader, head, MAX_HEAD - passed - start)?;
        match part {
            Part::More => return Ok(HeadEnd::TooLong),
            Part::Ended => return Ok(HeadEnd::Ended),
            Part::Feed => {}
        }
        let blank = is_blank(head, start);
        head.push(b'\n')?;
        if blank {
            if start > 0 {
                return Ok(HeadEnd::Head);
            }
            passed += head.len();
            head.clear();
        }
    }
    Err(ErrorKind::TimedOut.into())
}
