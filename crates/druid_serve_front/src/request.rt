//! A request, read whole from a client, and an answer, written to it: both within a time.
ghost use Rattle.std.specs.Prelude.{◌≡◌, ◌≤◌, ◌+◌, ◌++◌, ℕ, List, [], length, IfSome};
ghost use Rattle.std.specs.Io.KnownBytes.{Consumes};
ghost use Rattle.druid_http_wire.specs.Limits.{max_head, max_body};
ghost use Rattle.druid_http_wire.specs.Missing.{IsAnswerable};
ghost use Rattle.druid_serve_front.specs.Requests.{Awaits};

use druid_http_wire::{MAX_HEAD, Missing, missing_of};
use druid_link::{Timer, receive_some};
use std::alloc::Global;
use std::io::Read;
use std::net::OpenStream;
use std::time::{Clock, Duration, Instant};

/// How long the head of a request may take from its connection, in seconds.
pub const HEAD_SECONDS: u64 = 5;

/// How long a whole request may take from its connection, in seconds.
pub const REQUEST_SECONDS: u64 = 120;

/// How long an answer may take to be written, in seconds.
pub const ANSWER_SECONDS: u64 = 120;

// How many bytes are read at once.
const PART: usize = 16_384;

// Reads what comes next and appends it, no more than there is room for, and one byte at least. None where the other side closed, the
// stream failed, or the time is over.
fn read_some<C: Clock, S: Read + OpenStream>(
    clock: &C,
    timer: &Timer,
    stream: &mut S,
    bytes: &mut Vec<u8>,
    part: &mut [u8],
) -> Option<()>
    ensures grown { IfSome result (λ _. (more : List ℕ) × (bytes.new.items ≡ bytes.old.items ++ more) × (1 ≤ length more) × (length more ≤ length part.new)
        × Consumes (S.remaining stream.old) (S.remaining stream.new) more) }
    ensures room { length part.new ≡ length part.old }
{
    let Ok(count) = receive_some(clock, timer, stream, part) else {
        return None;
    };
    if count == 0 {
        return None;
    }
    match bytes.extend_from_slice(&part[..count]) {
        Ok(()) => Some(()),
        Err(_) => None,
    }
}

// Reads until the head is there, and what came with it, within the time: how many bytes of the body are still missing.
#[tactic(auto, using(crate::proofs::ReadLemmas::awaits_nothing, crate::proofs::ReadLemmas::awaits_more))]
fn read_head<C: Clock, S: Read + OpenStream>(
    clock: &C,
    timer: &Timer,
    stream: &mut S,
    bytes: &mut Vec<u8>,
) -> Option<usize>
    requires empty { bytes.old.items ≡ [] }
    ensures { IfSome result (λ count. Awaits bytes.new.items count × Consumes (S.remaining stream.old) (S.remaining stream.new) bytes.new.items) }
{
    let mut part = [0u8; MAX_HEAD + 1];
    for _turn in 0..=MAX_HEAD {
        let room = MAX_HEAD + 1 - bytes.len();
        read_some(clock, timer, stream, bytes, &mut part[..room])?;
        match missing_of(bytes) {
            Missing::Nothing => return Some(0),
            Missing::Body(count) => return Some(count),
            Missing::Head => {}
        }
    }
    unreachable!()
}

// Reads so many bytes more, within the time.
fn read_body<C: Clock, S: Read + OpenStream>(
    clock: &C,
    timer: &Timer,
    stream: &mut S,
    bytes: &mut Vec<u8>,
    count: usize,
) -> Option<()>
    ensures { IfSome result (λ _. (more : List ℕ) × (bytes.new.items ≡ bytes.old.items ++ more) × (length more ≡ count)
        × Consumes (S.remaining stream.old) (S.remaining stream.new) more) }
{
    let mut part = [0u8; PART];
    let mut left = count;
    while left > 0 {
        let room = left.min(PART);
        let before = bytes.len();
        read_some(clock, timer, stream, bytes, &mut part[..room])?;
        left -= bytes.len() - before;
    }
    Some(())
}

/// Reads a request whole: its head within `HEAD_SECONDS` of the start and all of it within `REQUEST_SECONDS`, or so much of it as is
/// answered with X4 to X7; some of what follows it may be read too. None where the other side closed before that, the stream failed,
/// the time is over, the clock cannot be read, or memory runs out.
pub(crate) fn read_whole<C: Clock, S: Read + OpenStream>(
    clock: &C,
    alloc: Global,
    start: Instant,
    stream: &mut S,
) -> Option<Vec<u8>>
    ensures whole { IfSome result (λ bytes. IsAnswerable bytes.items) }
    ensures bound { IfSome result (λ bytes. length bytes.items ≤ max_head + max_body) }
    ensures taken { IfSome result (λ bytes. Consumes (S.remaining stream.old) (S.remaining stream.new) bytes.items) }
{
    let head = Timer::new(start, Duration::from_secs(HEAD_SECONDS));
    let whole = Timer::new(start, Duration::from_secs(REQUEST_SECONDS));
    let mut bytes = Vec::new(alloc);
    let count = read_head(clock, &head, stream, &mut bytes)?;
    read_body(clock, &whole, stream, &mut bytes, count)?;
    Some(bytes)
}
