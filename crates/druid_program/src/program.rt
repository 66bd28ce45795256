//! What the program does with its words, its input and its two outputs.
ghost use Rattle.std.specs.Prelude.{◌≡◌, ◌∷◌, ◌++◌, [], ⊤, Result, Err, IfOk, OnOk, OnErr, map, string_bytes};
ghost use Rattle.std.specs.Io.KnownBytes.{Appends, Keeps};
ghost use Rattle.druid_replay.specs.Runs.{Replays};
ghost use Rattle.druid_replay.specs.Faults.{fault_text as replay_text};
ghost use Rattle.druid_replay.specs.declared.fault.ReplayFault.{ReplayFault};
ghost use Rattle.druid_serve_base.specs.Ends.{fault_text as serve_text};
ghost use Rattle.druid_serve_base.specs.declared.serve_fault.ServeFault.{ServeFault};
ghost use Rattle.druid_serve.specs.Served.{IsConfig, IsServed, ServesAs};
ghost use Rattle.druid_program.specs.Ends.{usage_line, replay_status, replay_line, serve_status, serve_line};
ghost use Rattle.druid_program.specs.Exits.{status_of, exit_of_serve};
ghost use Rattle.druid_program.specs.Reasons.{Reports};
ghost use Rattle.druid_program.specs.Words.{AsksForReplay, AsksForServe};

use crate::config_file::config_bytes;
use crate::report::report;
use crate::{Ending, Environment, Exit, asks_for_replay, asks_for_serve};
use druid_replay::{Reason, ReplayFault, replay_explained};
use druid_serve::serve;
use druid_serve_base::{Host, ServeFault, Stop};
use std::alloc::Global;
use std::fs::File;
use std::io;
use std::io::{BufRead, Write};
use std::net::{Net, TcpListener, TcpStream};
use std::rt::Files;

// All was done, and nothing is reported.
fn done() -> Ending
    ensures { result.status ≡ 0 }
{
    Ending {
        status: Exit::Done.status(),
        reported: Ok(()),
    }
}

// The end at words that ask for nothing: it reports what may be asked for.
fn report_usage<E: Write>(errors: &mut E) -> Ending
    ensures status { result.status ≡ 2 }
    ensures reported { OnOk result.reported
        (Appends (E.contents errors.old) (E.contents errors.new) usage_line) }
{
    Ending {
        status: Exit::Usage.status(),
        reported: writeln!(
            errors,
            "usage: druid_cluster replay | druid_cluster serve CONFIG"
        ),
    }
}

// The end at words that can't be read, which is that of a device at the first line.
fn report_unread<E: Write>(alloc: Global, errors: &mut E) -> Ending
    ensures status { result.status ≡ 3 }
    ensures reported { OnOk result.reported (Appends (E.contents errors.old) (E.contents errors.new)
        (replay_text (ReplayFault.Device 1) ++ 10 ∷ [])) }
{
    let fault = ReplayFault::Device(1);
    report(alloc, errors, fault.into(), &fault, None::<&Reason>, false)
}

// Answers the commands of the input, and reports a fault.
fn replay_all<R: BufRead, W: Write, E: Write>(
    alloc: Global,
    reader: &mut R,
    writer: &mut W,
    errors: &mut E,
    explain: bool,
) -> Ending
    ensures { (end : Result ⊤ ReplayFault)
        × Replays (R.remaining reader.old) (W.contents writer.old) (W.contents writer.new) end
        × (result.status ≡ replay_status end)
        × OnOk result.reported (Reports explain (E.contents errors.old) (E.contents errors.new) (replay_line end)) }
{
    match replay_explained(alloc, reader, writer) {
        Ok(()) => done(),
        Err(stop) => {
            let fault = stop.fault;
            report(
                alloc,
                errors,
                fault.into(),
                &fault,
                Some(&stop.reason),
                explain,
            )
        }
    }
}

// Reports why a cluster is not served.
fn report_stop<E: Write>(
    alloc: Global,
    errors: &mut E,
    stop: Stop<ServeFault>,
    explain: bool,
) -> Ending
    ensures status { result.status ≡ status_of (exit_of_serve stop.fault) }
    ensures reported { OnOk result.reported
        (Reports explain (E.contents errors.old) (E.contents errors.new) (serve_text stop.fault ++ 10 ∷ [])) }
{
    let fault = stop.fault;
    report(
        alloc,
        errors,
        fault.into(),
        &fault,
        stop.reason.as_ref(),
        explain,
    )
}

/// Serves the cluster of a config, prints the answers to its queries, and ends once each broker
/// answered the connections from outside that the config asks for; a cluster without an end does
/// not return (`druid_serve::serve`). Where the environment names a part of the cluster, that is
/// served. Where the environment asks for it, what kept the cluster stands below the fault that is
/// reported, in a line that is indented, unless memory ran out for it. Status 0 only where the
/// bytes are a config, and of each of its queries something was printed.
///
/// # Errors
///
/// Those of `druid_serve::serve`, on the error writer: status 1 of a config or a folder, 3 of a
/// device.
pub fn serve_config<
    R: Files<File = File>
        + Net<Listener = TcpListener, Stream = TcpStream>
        + AllocGlobal
        + Host
        + Copy
        + Send
        + Sync
        + 'static,
    W: Write,
    E: Write,
>(
    rt: &R,
    alloc: Global,
    config: &[u8],
    environment: &Environment,
    out: &mut W,
    errors: &mut E,
) -> Ending
where
    R::Dir: Send,
    ensures served { (end : Result ⊤ ServeFault) × ServesAs config.now environment.now.part end
        × (result.status ≡ serve_status end)
        × OnOk result.reported (Reports environment.now.explain (E.contents errors.old) (E.contents errors.new) (serve_line end)) }
    ensures printed { (result.status ≡ 0) → IsServed config.now environment.now.part (W.contents out.old) (W.contents out.new) }
    ensures nothing { (IsConfig config.now environment.now.part → ⊥) → W.contents out.new ≡ W.contents out.old }
{
    let (part, log) = (environment.part(), environment.log());
    match serve(rt, alloc, config, part, log, out, errors) {
        Ok(()) => done(),
        Err(stop) => report_stop(alloc, errors, stop, environment.explains()),
    }
}

// Serves the cluster of the config at a path: the end is that of its bytes, or a device's where they can't be read.
fn serve_file<
    R: Files<File = File>
        + Net<Listener = TcpListener, Stream = TcpStream>
        + AllocGlobal
        + Host
        + Copy
        + Send
        + Sync
        + 'static,
    W: Write,
    E: Write,
>(
    rt: &R,
    alloc: Global,
    path: &str,
    environment: &Environment,
    writer: &mut W,
    errors: &mut E,
) -> Ending
where
    R::Dir: Send,
    ensures { (end : Result ⊤ ServeFault) × (result.status ≡ serve_status end)
        × OnOk result.reported (Reports environment.now.explain (E.contents errors.old) (E.contents errors.new) (serve_line end)) }
{
    match config_bytes(rt, alloc, path) {
        Ok(config) => serve_config(rt, alloc, &config, environment, writer, errors),
        Err(stop) => report_stop(alloc, errors, stop, environment.explains()),
    }
}

/// The whole program, over its arguments, what the environment asks, standard input, standard
/// output and standard error. `replay` alone answers the commands of the input, and `serve CONFIG`
/// serves the cluster of the config at that path; each reports a fault on the error writer, and
/// below it, where the environment asks for it, what ended the run or kept the cluster, in a line
/// that is indented, unless memory ran out for it.
///
/// # Errors
///
/// Status 3, as a device that fails at line 1, where the arguments could not be read; 2, with the
/// usage line, where they are other words: nothing is read or written but that. 1 of a bad command,
/// 3 of a device. Of `serve` 3 where the file cannot be read, 1 of more than 16 MiB (both tested),
/// then those of `serve_config`.
pub fn run<
    R: Files<File = File>
        + Net<Listener = TcpListener, Stream = TcpStream>
        + AllocGlobal
        + Host
        + Copy
        + Send
        + Sync
        + 'static,
    I: BufRead,
    W: Write,
    E: Write,
>(
    rt: &R,
    alloc: Global,
    words: io::Result<Vec<String>>,
    environment: &Environment,
    reader: &mut I,
    writer: &mut W,
    errors: &mut E,
) -> Ending
where
    R::Dir: Send,
    ensures unread { OnErr words ((result.status ≡ 3)
        × Keeps (I.remaining reader.old) (I.remaining reader.new)
        × Keeps (W.contents writer.old) (W.contents writer.new)
        × OnOk result.reported (Appends (E.contents errors.old) (E.contents errors.new)
        (replay_text (ReplayFault.Device 1) ++ 10 ∷ []))) }
    ensures usage { IfOk words (λ list. (AsksForReplay (map string_bytes list.items) → ⊥)
        → (AsksForServe (map string_bytes list.items) → ⊥) → (result.status ≡ 2)
        × Keeps (I.remaining reader.old) (I.remaining reader.new)
        × Keeps (W.contents writer.old) (W.contents writer.new)
        × OnOk result.reported (Appends (E.contents errors.old) (E.contents errors.new) usage_line)) }
    ensures served { IfOk words (λ list. AsksForServe (map string_bytes list.items)
        → (end : Result ⊤ ServeFault) × (result.status ≡ serve_status end)
        × OnOk result.reported (Reports environment.now.explain (E.contents errors.old) (E.contents errors.new) (serve_line end))) }
    ensures replayed { IfOk words (λ list. AsksForReplay (map string_bytes list.items)
        → (end : Result ⊤ ReplayFault)
        × Replays (I.remaining reader.old) (W.contents writer.old) (W.contents writer.new) end
        × (result.status ≡ replay_status end)
        × OnOk result.reported (Reports environment.now.explain (E.contents errors.old) (E.contents errors.new) (replay_line end))) }
{
    let Ok(words) = words else {
        return report_unread(alloc, errors);
    };
    if asks_for_replay(&words) {
        return replay_all(alloc, reader, writer, errors, environment.explains());
    }
    if asks_for_serve(&words) {
        return serve_file(rt, alloc, words[1].as_str(), environment, writer, errors);
    }
    report_usage(errors)
}
