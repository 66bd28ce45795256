//! The program `druid_cluster`: `druid_cluster replay` answers the commands on standard input, and
//! `druid_cluster serve CONFIG` serves the cluster of a config. Buffers are made here, so that the
//! contract of `run` speaks of the writer that the program uses, and nothing stays in a buffer that
//! the call drops. Where memory for them is refused it ends with status 3 and reports nothing.
#![tactic(auto)]

use druid_program::{Environment, Exit, asks_for_explanation, run, start_log};
use std::io::{BufReader, BufWriter};
use std::process::ExitCode;
use std::{env, io};

// The program's arguments.
fn words(rt: &HostRuntime) -> io::Result<Vec<String>> {
    let mut args = env::args(rt)?;
    let _program = args.next();
    let mut words = Vec::new(rt.alloc());
    for word in args {
        words.push(word)?;
    }
    Ok(words)
}

// Whether the environment asks for what was wrong, below what is reported.
fn explains(rt: &HostRuntime) -> bool {
    match env::var(rt, "DRUID_CLUSTER_EXPLAIN") {
        Ok(value) => asks_for_explanation(value.as_str()),
        Err(_) => false,
    }
}

// How much the environment asks to log.
fn level(rt: &HostRuntime) -> String {
    env::var(rt, "DRUID_CLUSTER_LOG").unwrap_or(String::new(rt.alloc()))
}

// The part of a cluster that the environment names, if it names one.
fn part(rt: &HostRuntime) -> Option<String> {
    env::var(rt, "DRUID_CLUSTER_PART").ok()
}

fn main(rt: HostRuntime) -> ExitCode {
    let mut errors = rt.stderr();
    let reader = BufReader::new(rt.alloc(), rt.reader());
    let writer = BufWriter::new(rt.alloc(), io::writer(&rt));
    let log = start_log(&rt, rt.alloc(), level(&rt).as_str(), rt.stderr());
    let (Ok(mut reader), Ok(mut writer), Ok(log)) = (reader, writer, log) else {
        return ExitCode::from(Exit::Device.status());
    };
    let environment = Environment::new(explains(&rt), part(&rt), log);
    let words = words(&rt);
    let ending = run(
        &rt,
        rt.alloc(),
        words,
        &environment,
        &mut reader,
        &mut writer,
        &mut errors,
    );
    ExitCode::from(ending.status)
}
