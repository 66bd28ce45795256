//! What is sent and received over a stream within a time. Before each call the stream's timeout is
//! set to what is left: a timeout alone would begin anew with each byte, and a server that sends
//! one a second could hold a caller for as long as it likes.
ghost use Rattle.std.specs.Prelude.{◌≡◌, ◌↔◌, ◌≤◌, ◌<◌, ◌⊎◌, length, take, IfOk, IfErr, OnOk, OnErr};
ghost use Rattle.std.specs.Io.KnownBytes.{Appends, Consumes, IsAtEnd, Keeps};
ghost use Rattle.std.specs.IoError.{error_kind};
ghost use Rattle.druid_stream.specs.Fronts.{AppendsFront};

use druid_http_message::WireFault;
use druid_stream::{MAX_TRIES, is_interrupted};
use std::io::{Error, ErrorKind, Read, Write};
use std::net::OpenStream;
use std::time::{Clock, Duration, Instant};

/// A time that runs from a start.
#[derive(Clone, Copy, Drop)]
pub struct Timer {
    start: Instant,
    limit: Duration,
}

impl Timer {
    /// The time of that length which begins then.
    pub fn new(start: Instant, limit: Duration) -> Timer
        ensures start { result.start ≡ start }
        ensures limit { result.limit ≡ limit }
    {
        Timer { start, limit }
    }

    // What is left of it, which is not zero. `None` once it is over, or where the clock cannot be read.
    pub(crate) fn time_left<C: Clock>(&self, clock: &C) -> Option<Duration> {
        let Ok(elapsed) = self.start.elapsed(clock) else {
            return None;
        };
        let left = self.limit.checked_sub(elapsed)?;
        if left.is_zero() { None } else { Some(left) }
    }
}

// What a failed write tells: `Read` where it waited until its timeout was over, since the exchange took too long then, and
// `Write` where it failed for anything else.
fn send_fault(error: &Error) -> WireFault
    ensures late { (result ≡ WireFault.Read) ↔
        ((error_kind error.now ≡ ErrorKind.TimedOut) ⊎ (error_kind error.now ≡ ErrorKind.WouldBlock)) }
    ensures fault { (result ≡ WireFault.Read) ⊎ (result ≡ WireFault.Write) }
{
    match error.kind() {
        ErrorKind::TimedOut | ErrorKind::WouldBlock => WireFault::Read,
        _ => WireFault::Write,
    }
}

// Writes a front of a text, of one byte at least, within the time, and gives its length. `Read` where the time is over.
#[tactic(auto, using(druid_stream::proofs::WriteLemmas::kept_twice, druid_stream::proofs::WriteLemmas::kept_appends))]
fn send_some<C: Clock, S: Write + OpenStream>(
    clock: &C,
    timer: &Timer,
    stream: &mut S,
    text: &[u8],
) -> Result<usize, WireFault>
    ensures bound { IfOk result (λ n. n ≤ length text.now) }
    ensures progress { IfOk result (λ n. 1 ≤ n) }
    ensures ok { IfOk result
        (λ n. Appends (S.contents stream.old) (S.contents stream.new) (take n text.now)) }
    ensures err { IfErr result (λ fault. (fault ≡ WireFault.Read) ⊎ (fault ≡ WireFault.Write)) }
    ensures kept { OnErr result (Keeps (S.contents stream.old) (S.contents stream.new)) }
{
    for _ in 0..MAX_TRIES {
        let Some(left) = timer.time_left(clock) else {
            return Err(WireFault::Read);
        };
        if stream.set_write_timeout(Some(left)).is_err() {
            return Err(WireFault::Write);
        }
        match stream.write(text) {
            Ok(0) => return Err(WireFault::Write),
            Ok(written) => return Ok(written),
            Err(error) => {
                if !is_interrupted(&error) {
                    return Err(send_fault(&error));
                }
            }
        }
    }
    Err(WireFault::Write)
}

/// Writes a text within the time.
///
/// # Errors
///
/// X2 where the time is over before it is written whole, or the clock cannot be read; X3 where the
/// stream fails. It has some front of the text, and not the whole.
pub fn send_all<C: Clock, S: Write + OpenStream>(
    clock: &C,
    timer: &Timer,
    stream: &mut S,
    text: &[u8],
) -> Result<(), WireFault>
    ensures ok { OnOk result (Appends (S.contents stream.old) (S.contents stream.new) text.now) }
    ensures err { IfErr result (λ fault. (fault ≡ WireFault.Read) ⊎ (fault ≡ WireFault.Write)) }
    ensures front { OnErr result (AppendsFront (S.contents stream.old) (S.contents stream.new) text.now) }
{
    let mut rest = text;
    while !rest.is_empty() {
        let written = match send_some(clock, timer, stream, rest) {
            Ok(written) => written,
            Err(fault) => return Err(fault),
        };
        let (_, left) = rest.split_at(written);
        rest = left;
    }
    Ok(())
}

/// Reads what comes next, within the time: no bytes where the other side closed.
///
/// # Errors
///
/// X2 where the time is over, the clock cannot be read, or the stream fails. Nothing was taken.
pub fn receive_some<C: Clock, S: Read + OpenStream>(
    clock: &C,
    timer: &Timer,
    stream: &mut S,
    part: &mut [u8],
) -> Result<usize, WireFault>
    ensures ok { IfOk result (λ n. n ≤ length part.new) }
    ensures room { length part.new ≡ length part.old }
    ensures taken { IfOk result
        (λ n. Consumes (S.remaining stream.old) (S.remaining stream.new) (take n part.new)) }
    ensures end { IfOk result (λ n. n ≡ 0 → 0 < length part.old → IsAtEnd (S.remaining stream.new)) }
    ensures err { IfErr result (λ fault. fault ≡ WireFault.Read) }
    ensures kept { OnErr result (Keeps (S.remaining stream.old) (S.remaining stream.new)) }
{
    for _ in 0..MAX_TRIES {
        let Some(left) = timer.time_left(clock) else {
            return Err(WireFault::Read);
        };
        if stream.set_read_timeout(Some(left)).is_err() {
            return Err(WireFault::Read);
        }
        match stream.read(part) {
            Ok(count) => return Ok(count),
            Err(error) => {
                if !is_interrupted(&error) {
                    return Err(WireFault::Read);
                }
            }
        }
    }
    Err(WireFault::Read)
}
