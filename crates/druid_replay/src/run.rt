//! Whole runs. A device that fails is known by its line: where the flush fails, by that which ended
//! the run or, where all were answered, by the one after the last.
ghost use Rattle.std.specs.Prelude.{◌≡◌, ◌≢◌, ◌≤◌, length, take, ◌+◌, IfOk, IfErr, OnOk, OnErr};
ghost use Rattle.std.specs.Io.KnownBytes.{Appends, Keeps};
ghost use Rattle.std.specs.IoError.{error_kind};
ghost use Rattle.druid_replay.specs.Answers.{line_text};
ghost use Rattle.druid_replay.specs.Execution.{IsAnswered, max_line};
ghost use Rattle.druid_replay.specs.Runs.{done, broken_at, Writes, EndsBy, EndsFor, ReportsLine};
ghost use Rattle.druid_replay.specs.declared.answer.CommandAnswer.{CommandAnswer};

use crate::answer_writer::write_answer;
use crate::brokers::Brokers;
use crate::execution::serve_line;
use crate::fault::ReplayFault;
use crate::reason::{BadLine, Reason, ReplayStop};
use druid_stream::{Next, next_line};
use std::alloc::Global;
use std::io;
use std::io::{BufRead, ErrorKind, Write};

// The most bytes of a line, its line feed left out.
const MAX_LINE: usize = 16_777_216;

// What failed where a device gave this error: memory, or the device.
fn reason_of(error: &io::Error, device: Reason) -> Reason
    ensures memory { error_kind error.now ≡ ErrorKind.OutOfMemory → result ≡ Reason.Memory }
    ensures device { error_kind error.now ≢ ErrorKind.OutOfMemory → result ≡ device }
{
    match error.kind() {
        ErrorKind::OutOfMemory => Reason::Memory,
        _ => device,
    }
}

// Writes the answer to a line, and gives the brokers that stand after it.
#[tactic(auto, using(crate::proofs::RunLemmas::reported_front, crate::proofs::RunLemmas::reported_nothing))]
fn answer_to<W: Write>(
    alloc: Global,
    state: Option<Brokers>,
    line: &[u8],
    number: u64,
    writer: &mut W,
) -> Result<Option<Brokers>, ReplayStop>
    requires { length line.now ≤ max_line }
    ensures ok { IfOk result (λ next. (answer : CommandAnswer) × IsAnswered state line.now answer next
        × Appends (W.contents writer.old) (W.contents writer.new) (line_text answer)) }
    ensures err { IfErr result
        (λ stop. ReportsLine state line.now number (W.contents writer.old) (W.contents writer.new) stop.fault stop.reason) }
{
    let Ok(served) = serve_line(alloc, state, line) else {
        return Err(ReplayStop::device(number, Reason::Memory));
    };
    let (answer, next) = match served {
        Ok(served) => served,
        Err(bad) => return Err(ReplayStop::bad(number, bad)),
    };
    match write_answer(alloc, &answer, writer) {
        Ok(()) => Ok(next),
        Err(error) => Err(ReplayStop::device(number, reason_of(&error, Reason::Output))),
    }
}

// Answers the lines of an input, and gives how many there are.
#[tactic(auto, using(crate::proofs::RunLemmas::starts, crate::proofs::RunLemmas::ends, crate::proofs::RunLemmas::stops, crate::proofs::RunLemmas::stops_long))]
fn answer_lines<R: BufRead, W: Write>(
    alloc: Global,
    reader: &mut R,
    writer: &mut W,
) -> Result<u64, ReplayStop>
    ensures ok { IfOk result (λ count.
        Writes (R.remaining reader.old) (W.contents writer.old) (W.contents writer.new) done
        × Writes (R.remaining reader.old) (W.contents writer.old) (W.contents writer.new)
        (broken_at (count + 1))) }
    ensures err { IfErr result
        (λ stop. EndsFor (R.remaining reader.old) (W.contents writer.old) (W.contents writer.new) stop.fault stop.reason) }
{
    let mut state = None;
    let mut line = Vec::new(alloc);
    for count in 0..u64::MAX {
        match next_line(reader, &mut line, MAX_LINE) {
            Ok(Next::Line) => {}
            Ok(Next::TooLong) => return Err(ReplayStop::bad(count + 1, BadLine::TooLong)),
            Ok(Next::End) => return Ok(count),
            Err(error) => return Err(ReplayStop::device(
                count + 1,
                reason_of(&error, Reason::Input),
            )),
        }
        match answer_to(alloc, state, &line, count + 1, writer) {
            Ok(next) => state = next,
            Err(stop) => return Err(stop),
        }
    }
    match next_line(reader, &mut line, MAX_LINE) {
        Ok(Next::End) => Ok(u64::MAX),
        _ => Err(ReplayStop::device(u64::MAX, Reason::TooManyLines)),
    }
}

/// As `replay`, and says what ended the run too: of a bad line the first thing that is wrong with
/// it, of a device which it was (which is tested).
///
/// # Errors
///
/// Those of `replay`.
#[tactic(auto, using(crate::proofs::RunLemmas::flushed, crate::proofs::RunLemmas::ended_flushed))]
pub fn replay_explained<R: BufRead, W: Write>(
    alloc: Global,
    reader: &mut R,
    writer: &mut W,
) -> Result<(), ReplayStop>
    ensures ok { OnOk result
        (Writes (R.remaining reader.old) (W.contents writer.old) (W.contents writer.new) done) }
    ensures err { IfErr result
        (λ stop. EndsFor (R.remaining reader.old) (W.contents writer.old) (W.contents writer.new) stop.fault stop.reason) }
{
    let end = answer_lines(alloc, reader, writer);
    let flushed = writer.flush();
    match end {
        Ok(count) if flushed.is_err() => Err(ReplayStop::device(
            count.saturating_add(1),
            Reason::Output,
        )),
        Ok(_) => Ok(()),
        Err(stop) if flushed.is_err() => Err(ReplayStop {
            fault: ReplayFault::Device(stop.fault.line()),
            reason: Reason::Output,
        }),
        Err(stop) => Err(stop),
    }
}

/// Answers each line of an input by a line, in order, until the input ends or a line is bad, which
/// no answer tells. What was written is flushed at the end, whatever it is. No more than one line
/// of the input is kept. But for devices and memory, what it writes is determined by the input (law
/// `one_run`).
///
/// # Errors
///
/// `BadCommand` of a line that is longer than 16 MiB, no JSON or no command; `Device`, in place of
/// any, where a read or a write fails, memory runs out, or there are more than 2^64 - 1 lines (read
/// in the code). The lines before are answered, and at `Device` a front of the answer to that line
/// may be written, which is not the whole. Where the flush fails, `Device` tells the line that
/// ended the run. What a line is refused is an answer, and changes nothing.
pub fn replay<R: BufRead, W: Write>(
    alloc: Global,
    reader: &mut R,
    writer: &mut W,
) -> Result<(), ReplayFault>
    ensures ok { OnOk result
        (Writes (R.remaining reader.old) (W.contents writer.old) (W.contents writer.new) done) }
    ensures err { IfErr result
        (EndsBy (R.remaining reader.old) (W.contents writer.old) (W.contents writer.new)) }
{
    match replay_explained(alloc, reader, writer) {
        Ok(()) => Ok(()),
        Err(stop) => Err(stop.fault),
    }
}
