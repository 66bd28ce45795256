//! What servers count and log.
ghost use Rattle.std.specs.Prelude.{false};

use crate::marks::{assert_call, begin, end};
use druid_http_message::WireFault;
use druid_link_health::Health;
use druid_serve_base::{Status, Telemetry, serve_status_one};
use druid_serve_node::Reporter;
use druid_telemetry_log::{Event, Level, Log, Refusals, line_of, open};
use druid_telemetry_metrics::{
    Counts, Family, FollowMeter, Histogram, Kind, Meter, NodeMeter, NodeState, Readings, Route,
    broker_page, metrics_response, node_page, render,
};
use druid_time::Instant;
use std::alloc::{AllocError, Global};
use std::process::Abort;
use std::sync::Arc;

// Whether a call gave a list of so many, or was refused memory.
fn has_count<T>(given: &Result<Vec<T>, AllocError>, count: usize) -> bool {
    match given {
        Ok(list) => list.len() == count,
        Err(AllocError) => true,
    }
}

// What a server counted: one query.
fn counted(rt: &impl Abort, alloc: Global) -> Meter {
    let meter = Meter::new(alloc).expect(rt, "memory");
    meter.answer(Route::Query, Some(200), 9, 5);
    meter
}

fn counts(rt: &impl Abort, alloc: Global) {
    begin(rt, alloc);
    let made = end(rt, alloc, Counts::new(alloc, 3));
    assert_call(
        rt,
        "Counts::new",
        match &made {
            Ok(counts) => counts.len() == 3,
            Err(AllocError) => true,
        },
    );
    let counts = Counts::new(alloc, 3).expect(rt, "memory");
    begin(rt, alloc);
    let read = end(rt, alloc, counts.read(alloc));
    assert_call(rt, "Counts::read", has_count(&read, 3));
}

fn meters(rt: &impl Abort, alloc: Global) {
    begin(rt, alloc);
    let made = end(rt, alloc, Meter::new(alloc));
    assert_call(rt, "Meter::new", matches!(&made, Ok(_) | Err(AllocError)));
    let meter = counted(rt, alloc);
    begin(rt, alloc);
    let read = end(rt, alloc, meter.read(alloc));
    assert_call(
        rt,
        "Meter::read",
        match &read {
            Ok(readings) => readings.bytes() == 9,
            Err(AllocError) => true,
        },
    );
}

fn of_a_node(rt: &impl Abort, alloc: Global, readings: &Readings) {
    let state = NodeState {
        incarnation: 1,
        changes: 2,
        segments: 3,
        rows: 4,
        bytes: 5,
    };
    let whole = node_page(alloc, "n0", readings, &state).expect(rt, "memory");
    begin(rt, alloc);
    let page = end(rt, alloc, node_page(alloc, "n0", readings, &state));
    assert_call(rt, "node_page", has_count(&page, whole.len()));
}

fn of_a_broker(rt: &impl Abort, alloc: Global, readings: &Readings) {
    begin(rt, alloc);
    let made = end(rt, alloc, FollowMeter::new(alloc));
    assert_call(
        rt,
        "FollowMeter::new",
        matches!(&made, Ok(_) | Err(AllocError)),
    );
    let meter = FollowMeter::new(alloc).expect(rt, "memory");
    meter.turn("Moved");
    begin(rt, alloc);
    let read = end(rt, alloc, meter.read(alloc, "n0", Vec::new(alloc)));
    assert_call(
        rt,
        "FollowMeter::read",
        match &read {
            Ok(followed) => followed.node == "n0" && followed.turns.len() == 11,
            Err(AllocError) => true,
        },
    );
    let followed = [
        meter
            .read(alloc, "n0", Vec::new(alloc))
            .expect(rt, "memory"),
    ];
    let whole = broker_page(alloc, "b", readings, &followed).expect(rt, "memory");
    begin(rt, alloc);
    let page = end(rt, alloc, broker_page(alloc, "b", readings, &followed));
    assert_call(rt, "broker_page", has_count(&page, whole.len()));
}

fn texts(rt: &impl Abort, alloc: Global) {
    let families = [Family::new("f", "What it is.", Kind::Gauge, Vec::new(alloc))];
    let histograms = [Histogram::new("h", "How long.", Vec::new(alloc))];
    let whole = render(alloc, &families, &histograms).expect(rt, "memory");
    begin(rt, alloc);
    let text = end(rt, alloc, render(alloc, &families, &histograms));
    assert_call(rt, "render", has_count(&text, whole.len()));
    let whole = metrics_response(alloc, b"a 1\n").expect(rt, "memory");
    begin(rt, alloc);
    let response = end(rt, alloc, metrics_response(alloc, b"a 1\n"));
    assert_call(rt, "metrics_response", has_count(&response, whole.len()));
}

fn logs(rt: &impl Abort, alloc: Global) {
    begin(rt, alloc);
    let opened = end(rt, alloc, open(alloc, Level::Info));
    assert_call(
        rt,
        "telemetry_log::open",
        match &opened {
            Ok((_, lines)) => lines.is_some(),
            Err(AllocError) => true,
        },
    );
}

fn lines(rt: &impl Abort, alloc: Global) {
    let at = Instant::parse("2024-05-02").expect(rt, "an instant");
    let event = Event::Loaded { file: "a.seg" };
    begin(rt, alloc);
    let line = end(rt, alloc, line_of(alloc, Level::Info, at, "n0", &event));
    assert_call(
        rt,
        "line_of",
        match &line {
            Ok(line) => line.is_some(),
            Err(AllocError) => true,
        },
    );
    let mut refusals = Refusals::new(alloc);
    begin(rt, alloc);
    let logged = end(rt, alloc, refusals.refuse("a.seg", "N2: F4"));
    let noted = refusals.refuse("a.seg", "N2: F4").expect(rt, "memory");
    assert_call(
        rt,
        "Refusals::refuse",
        match logged {
            Ok(logged) => logged && !noted,
            Err(AllocError) => noted,
        },
    );
}

#[test]
fn of_metrics(rt: HostRuntime) {
    let alloc = rt.alloc();
    counts(&rt, alloc);
    meters(&rt, alloc);
    let readings = counted(&rt, alloc).read(alloc).expect(&rt, "memory");
    of_a_node(&rt, alloc, &readings);
    of_a_broker(&rt, alloc, &readings);
    texts(&rt, alloc);
}

fn health(rt: &impl Abort, alloc: Global) {
    begin(rt, alloc);
    let made = end(rt, alloc, Health::new(alloc, 2, 30_000));
    assert_call(
        rt,
        "Health::new",
        match &made {
            Ok(health) => health.ails(1) == Some(false) && health.ails(2).is_none(),
            Err(AllocError) => true,
        },
    );
}

// A log of which nothing is written.
fn quiet_log(rt: &impl Abort, alloc: Global) -> Arc<Log, Global> {
    let (log, _lines) = open(alloc, Level::Off).expect(rt, "memory");
    Arc::new(alloc, log).expect(rt, "memory")
}

// Whether a call gave telemetry of that name, or was refused memory.
fn is_of(given: &Result<Telemetry, AllocError>, name: &str) -> bool {
    match given {
        Ok(telemetry) => telemetry.name() == name,
        Err(AllocError) => true,
    }
}

fn telemetry(rt: &impl Abort, alloc: Global) {
    let log = quiet_log(rt, alloc);
    begin(rt, alloc);
    let made = end(rt, alloc, Telemetry::new(alloc, "n0", &log));
    assert_call(rt, "Telemetry::new", is_of(&made, "n0"));
    let telemetry = Telemetry::new(alloc, "n0", &log).expect(rt, "memory");
    begin(rt, alloc);
    let shared = end(rt, alloc, telemetry.share());
    assert_call(rt, "Telemetry::share", is_of(&shared, "n0"));
    begin(rt, alloc);
    let read = end(rt, alloc, telemetry.read(alloc));
    assert_call(
        rt,
        "Telemetry::read",
        match &read {
            Ok(readings) => readings.connections() == 0,
            Err(AllocError) => true,
        },
    );
    reports(rt, alloc, telemetry);
}

fn reports(rt: &impl Abort, alloc: Global, telemetry: Telemetry) {
    begin(rt, alloc);
    let made = end(rt, alloc, NodeMeter::new(alloc));
    assert_call(
        rt,
        "NodeMeter::new",
        match &made {
            Ok(meter) => meter.read().segments == 0,
            Err(AllocError) => true,
        },
    );
    let meter = NodeMeter::new(alloc).expect(rt, "memory");
    let meter = Arc::new(alloc, meter).expect(rt, "memory");
    begin(rt, alloc);
    let reporter = end(rt, alloc, Reporter::new(alloc, telemetry, &meter));
    assert_call(
        rt,
        "Reporter::new",
        matches!(&reporter, Ok(_) | Err(AllocError)),
    );
}

// A server without metrics, which follows no nodes.
struct Silent;

impl Status for Silent {
    ghost follows = { false };

    fn metrics(&self, alloc: Global) -> Result<Vec<u8>, AllocError> {
        Ok(Vec::new(alloc))
    }

    fn is_loaded(&self) -> Option<bool> {
        None
    }
}

fn statuses(rt: &impl Abort, alloc: Global) {
    let mut written = Vec::with_capacity(alloc, 1_000).expect(rt, "memory");
    let mut reader = b"GET /metrics HTTP/1.1\r\n\r\n".as_slice();
    begin(rt, alloc);
    let served = end(
        rt,
        alloc,
        serve_status_one(alloc, &Silent, &mut reader, &mut written),
    );
    assert_call(
        rt,
        "serve_status_one",
        match served {
            Ok(status) => status == 200,
            Err(fault) => fault == WireFault::Memory,
        },
    );
}

#[test]
fn of_servers(rt: HostRuntime) {
    telemetry(&rt, rt.alloc());
    statuses(&rt, rt.alloc());
}

#[test]
fn of_health(rt: HostRuntime) {
    health(&rt, rt.alloc());
}

#[test]
fn of_a_log(rt: HostRuntime) {
    logs(&rt, rt.alloc());
    lines(&rt, rt.alloc());
}
