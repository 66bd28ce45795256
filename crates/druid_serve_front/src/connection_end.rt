//! How a connection ends whose request was refused before all of it was read. Of a body that goes
//! on past what is read on, the answer may still be lost.
ghost use Rattle.druid_stream.specs.Taken.{TakesAtMost};
ghost use Rattle.druid_serve_front.specs.ConnectionEnds.{max_closing};

use druid_link::{Timer, receive_some};
use std::io::Read;
use std::net::{OpenStream, Shutdown, TcpStream};
use std::time::{Clock, Duration, Instant};

/// The longest that a connection whose request was refused is read on, in seconds.
pub const CLOSING_SECONDS: u64 = 1;

/// The most bytes that are read of it then, and thrown away: 32 MiB.
pub const MAX_CLOSING: usize = 33_554_432;

// The status of a refusal.
const REFUSED: u16 = 400;

// How many bytes are read at once.
const PART: usize = 16_384;

// Reads on what the other side sends, and throws it away: until it closes or fails, for a second, and at most 32 MiB.
fn read_on<C: Clock, S: Read + OpenStream>(clock: &C, stream: &mut S)
    ensures { TakesAtMost max_closing (S.remaining stream.old) (S.remaining stream.new) }
{
    let Ok(start) = Instant::now(clock) else {
        return;
    };
    let timer = Timer::new(start, Duration::from_secs(CLOSING_SECONDS));
    let mut part = [0u8; PART];
    let mut taken = 0;
    while taken <= MAX_CLOSING - PART {
        let Ok(count) = receive_some(clock, &timer, stream, &mut part) else {
            return;
        };
        if count == 0 {
            return;
        }
        taken += count;
    }
}

/// Closes a connection that was answered with that status. After a refusal, whose request may not have been read whole, it writes no
/// more, so that whoever reads the answer comes to its end, and what is still sent is read on for a second and up to 32 MiB: a
/// connection that is closed over bytes that were not read is reset, and with it the answer may be lost.
pub fn close_answered<C: Clock>(clock: &C, status: u16, stream: TcpStream) {
    if status != REFUSED || stream.shutdown(Shutdown::Write).is_err() {
        return;
    }
    let mut stream = stream;
    read_on(clock, &mut stream);
}
