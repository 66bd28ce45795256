//! What tests ask of the machine that they run on, and addresses of it.
use druid_program::Environment;
use druid_serve_base::Telemetry;
use druid_serve_node::Reporter;
use druid_telemetry_log::{Level, Log, open};
use druid_telemetry_metrics::NodeMeter;
use std::alloc::Global;
use std::fs::File;
use std::net::{Net, TcpListener, TcpStream};
use std::process::Abort;
use std::rt::{Env, Files};
use std::sync::{Arc, Wait};
use std::thread::Threads;
use std::time::Clock;

/// A machine on which a cluster is served, all but its sockets: the borrow checker does not cover a test that passes the runtime
/// where the types of sockets are known by a supertrait alone, so `Net` is named beside it.
pub(crate) trait Host: Files<File = File, Dir: Send>
    + Env
    + AllocGlobal
    + Wait
    + Threads
    + Clock
    + Abort
    + Copy
    + Send
    + Sync
    + 'static {}

impl<
    R: Files<File = File, Dir: Send>
        + Env
        + AllocGlobal
        + Wait
        + Threads
        + Clock
        + Abort
        + Copy
        + Send
        + Sync
        + 'static,
> Host for R {}

/// A listener at an address of this machine where nobody listened.
pub(crate) fn listener<R: Net<Listener = TcpListener, Stream = TcpStream> + Abort>(
    rt: &R,
) -> TcpListener {
    TcpListener::bind(rt, "127.0.0.1:0").expect(rt, "a listener")
}

/// Where a listener is.
pub(crate) fn address_of(rt: &impl Abort, alloc: Global, listener: &TcpListener) -> String {
    let address = listener.local_addr().expect(rt, "an address");
    format!(in alloc; "{address}").expect(rt, "memory")
}

/// An address of this machine where nobody listens.
pub(crate) fn free_address<R: Net<Listener = TcpListener, Stream = TcpStream> + Abort>(
    rt: &R,
    alloc: Global,
) -> String {
    address_of(rt, alloc, &listener(rt))
}

/// A log of which nothing is written.
pub(crate) fn quiet_log(rt: &impl Abort, alloc: Global) -> Arc<Log, Global> {
    let (log, _lines) = open(alloc, Level::Off).expect(rt, "memory");
    Arc::new(alloc, log).expect(rt, "memory")
}

/// An environment that asks for nothing but explanations, where it does.
pub(crate) fn environment(rt: &impl Abort, alloc: Global, explain: bool) -> Environment {
    Environment::new(explain, None, quiet_log(rt, alloc))
}

/// A reporter of a node, whose log is quiet.
pub(crate) fn reporter(rt: &impl Abort, alloc: Global) -> Reporter {
    let telemetry = Telemetry::new(alloc, "n0", &quiet_log(rt, alloc)).expect(rt, "memory");
    let meter = NodeMeter::new(alloc).expect(rt, "memory");
    let meter = Arc::new(alloc, meter).expect(rt, "memory");
    Reporter::new(alloc, telemetry, &meter).expect(rt, "memory")
}
