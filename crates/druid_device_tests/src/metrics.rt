//! What servers count, and its text.
use druid_telemetry_metrics::{
    Family, FollowMeter, Kind, Label, Meter, NodeState, Number, ROUTES, Route, STATUSES, Sample,
    broker_page, bucket_of, cell_of, metrics_response, node_page, render, route_of_head,
    status_place, status_text,
};
use std::alloc::Global;
use std::process::Abort;
use std::str;

// Asserts that a page is these texts, one after another.
fn assert_page(rt: &impl Abort, page: &[u8], wanted: &[&str]) {
    let mut rest = str::from_utf8(page).expect(rt, "a text");
    for part in wanted {
        rest = match rest.strip_prefix(*part) {
            Some(after) => after,
            None => {
                assert!(rt; false, "{part} is not where this begins: {rest}");
                rest
            }
        };
    }
    assert!(rt; rest.is_empty(), "{rest}");
}

// What a server counted: two queries and what was no request.
fn counted(rt: &impl Abort, alloc: Global) -> Meter {
    let meter = Meter::new(alloc).expect(rt, "memory");
    for (route, status, bytes, micros) in [
        (Route::Query, Some(200), 120, 4_000),
        (Route::Query, Some(503), 7, 1_000),
        (Route::Other, None, 0, 30_000_001),
    ] {
        meter.take();
        meter.answer(route, status, bytes, micros);
    }
    meter
}

// (tests/metrics/promtool.py reads this text, and has promtool look at it.)
const OF_CONNECTIONS: &str = "# HELP druid_cluster_connections_total Connections that were taken.
# TYPE druid_cluster_connections_total counter
druid_cluster_connections_total{server=\"s0\"} 3
# HELP druid_cluster_answers_total Connections that ended, by route and by the status that was written.
# TYPE druid_cluster_answers_total counter
druid_cluster_answers_total{server=\"s0\",route=\"query\",status=\"200\"} 1
druid_cluster_answers_total{server=\"s0\",route=\"query\",status=\"503\"} 1
druid_cluster_answers_total{server=\"s0\",route=\"other\",status=\"none\"} 1
# HELP druid_cluster_written_bytes_total Bytes that were written to connections.
# TYPE druid_cluster_written_bytes_total counter
druid_cluster_written_bytes_total{server=\"s0\"} 127
";

// (tests/metrics/promtool.py reads this text too.)
const OF_DURATIONS: &str =
    "# HELP druid_cluster_answer_seconds How long connections took, from their first byte to their last.
# TYPE druid_cluster_answer_seconds histogram
druid_cluster_answer_seconds_bucket{server=\"s0\",le=\"0.001000\"} 1
druid_cluster_answer_seconds_bucket{server=\"s0\",le=\"0.005000\"} 2
druid_cluster_answer_seconds_bucket{server=\"s0\",le=\"0.010000\"} 2
druid_cluster_answer_seconds_bucket{server=\"s0\",le=\"0.025000\"} 2
druid_cluster_answer_seconds_bucket{server=\"s0\",le=\"0.050000\"} 2
druid_cluster_answer_seconds_bucket{server=\"s0\",le=\"0.100000\"} 2
druid_cluster_answer_seconds_bucket{server=\"s0\",le=\"0.250000\"} 2
druid_cluster_answer_seconds_bucket{server=\"s0\",le=\"0.500000\"} 2
druid_cluster_answer_seconds_bucket{server=\"s0\",le=\"1.000000\"} 2
druid_cluster_answer_seconds_bucket{server=\"s0\",le=\"2.500000\"} 2
druid_cluster_answer_seconds_bucket{server=\"s0\",le=\"5.000000\"} 2
druid_cluster_answer_seconds_bucket{server=\"s0\",le=\"10.000000\"} 2
druid_cluster_answer_seconds_bucket{server=\"s0\",le=\"30.000000\"} 2
druid_cluster_answer_seconds_bucket{server=\"s0\",le=\"+Inf\"} 3
druid_cluster_answer_seconds_sum{server=\"s0\"} 30.005001
druid_cluster_answer_seconds_count{server=\"s0\"} 3
";

// (tests/metrics/promtool.py reads this text too.)
const OF_A_NODE: &str = "# HELP druid_cluster_node_incarnation The incarnation of the node.
# TYPE druid_cluster_node_incarnation gauge
druid_cluster_node_incarnation{server=\"s0\"} 3
# HELP druid_cluster_node_changes The count of the node's mark: its loads and drops in this incarnation.
# TYPE druid_cluster_node_changes gauge
druid_cluster_node_changes{server=\"s0\"} 12
# HELP druid_cluster_node_segments Segments that the node loaded and did not drop.
# TYPE druid_cluster_node_segments gauge
druid_cluster_node_segments{server=\"s0\"} 10
# HELP druid_cluster_node_rows Rows of the segments that the node holds.
# TYPE druid_cluster_node_rows gauge
druid_cluster_node_rows{server=\"s0\"} 70000
# HELP druid_cluster_node_file_bytes Bytes of the segment files that the node holds.
# TYPE druid_cluster_node_file_bytes gauge
druid_cluster_node_file_bytes{server=\"s0\"} 16777216
";

#[test]
fn page_of_a_node(rt: HostRuntime) {
    let state = NodeState {
        incarnation: 3,
        changes: 12,
        segments: 10,
        rows: 70_000,
        bytes: 16_777_216,
    };
    let alloc = rt.alloc();
    let readings = counted(&rt, alloc).read(alloc).expect(&rt, "memory");
    let page = node_page(alloc, "s0", &readings, &state).expect(&rt, "memory");
    assert_page(&rt, &page, &[OF_CONNECTIONS, OF_A_NODE, OF_DURATIONS]);
}

// (tests/metrics/promtool.py reads this text too.)
const OF_A_BROKER: &str =
    "# HELP druid_cluster_turns_total Turns with a node that is followed, by how they ended.
# TYPE druid_cluster_turns_total counter
druid_cluster_turns_total{server=\"s0\",node=\"n0\",end=\"Moved\"} 5
druid_cluster_turns_total{server=\"s0\",node=\"n0\",end=\"K9\"} 1
# HELP druid_cluster_exchanges_total Exchanges with a node, of turns and of queries, by how they ended.
# TYPE druid_cluster_exchanges_total counter
druid_cluster_exchanges_total{server=\"s0\",node=\"n0\",end=\"X8\"} 2
# HELP druid_cluster_followed_incarnation The incarnation of the mark that is held of a node, 0 where it was never synced.
# TYPE druid_cluster_followed_incarnation gauge
druid_cluster_followed_incarnation{server=\"s0\",node=\"n0\"} 3
# HELP druid_cluster_followed_changes The count of the mark that is held of a node.
# TYPE druid_cluster_followed_changes gauge
druid_cluster_followed_changes{server=\"s0\",node=\"n0\"} 12
# HELP druid_cluster_followed_heard_timestamp_seconds When a turn with a node last did not fail, in seconds since 1970; 0 where none has.
# TYPE druid_cluster_followed_heard_timestamp_seconds gauge
druid_cluster_followed_heard_timestamp_seconds{server=\"s0\",node=\"n0\"} 1714642200.250000
";

#[test]
fn page_of_a_broker(rt: HostRuntime) {
    let alloc = rt.alloc();
    let meter = FollowMeter::new(alloc).expect(&rt, "memory");
    for end in [
        "Moved", "Moved", "K9", "Moved", "K7", "Moved", "Moved", "X1",
    ] {
        meter.turn(end);
    }
    meter.hold(2, 40);
    meter.hold(3, 12);
    meter.hear(1_714_642_200_250);
    let mut exchanges = Vec::new(alloc);
    for count in [0, 0, 0, 0, 0, 0, 0, 0, 2, 0] {
        exchanges.push(count).expect(&rt, "memory");
    }
    let followed = [meter.read(alloc, "n0", exchanges).expect(&rt, "memory")];
    let readings = counted(&rt, alloc).read(alloc).expect(&rt, "memory");
    let page = broker_page(alloc, "s0", &readings, &followed).expect(&rt, "memory");
    assert_page(&rt, &page, &[OF_CONNECTIONS, OF_A_BROKER, OF_DURATIONS]);
}

// A family of a sample with a label of that value, and one without a label.
fn labelled<'a>(rt: &impl Abort, alloc: Global, help: &'a str, value: &'a str) -> Family<'a> {
    let mut labels = Vec::new(alloc);
    labels.push(Label::new("l", value)).expect(rt, "memory");
    let mut samples = Vec::new(alloc);
    let first = Sample::new(labels, Number::Micros(1));
    samples.push(first).expect(rt, "memory");
    let second = Sample::new(Vec::new(alloc), Number::Whole(u64::MAX));
    samples.push(second).expect(rt, "memory");
    Family::new("f", help, Kind::Gauge, samples)
}

#[test]
fn escaped_texts(rt: HostRuntime) {
    let family = labelled(&rt, rt.alloc(), "a \"b\" \\ c\nd", "a \"b\" \\ c\nd");
    let wanted =
        "# HELP f a \"b\" \\\\ c\\nd\n# TYPE f gauge\nf{l=\"a \\\"b\\\" \\\\ c\\nd\"} 0.000001\nf 18446744073709551615\n";
    let text = render(rt.alloc(), &[family], &[]).expect(&rt, "memory");
    assert_page(&rt, &text, &[wanted]);
    let none = render(rt.alloc(), &[], &[]).expect(&rt, "memory");
    assert!(&rt; none.is_empty());
}

#[test]
fn routes(rt: HostRuntime) {
    let rows = "GET /status/health HTTP/1.1 = health
GET /metrics?a=b HTTP/1.1 = metrics
POST /druid/v2 HTTP/1.1 = query
POST /druid/v2/ HTTP/1.1 = query
POST /druid/v2/?pretty HTTP/1.1 = query
GET /druid/v2/datasources HTTP/1.1 = datasources
GET /druid/broker/v1/loadstatus HTTP/1.1 = loadstatus
GET /druid-internal/v1/segments?counter=-1 HTTP/1.1 = segments
GET /druid-internal/v1/inventory/0 HTTP/1.1 = inventory
GET /druid-internal/v1/inventory HTTP/1.1 = other
GET /druid/v3 HTTP/1.1 = other
GET /metrics = metrics
GET = other
GET /met = other";
    for row in rows.lines() {
        let (head, wanted) = row.split_once(" = ").expect(&rt, "a row");
        let route = route_of_head(head.as_bytes());
        assert!(&rt; route.text() == wanted, "{row}");
    }
    assert!(&rt; route_of_head(b"").text() == "other");
}

#[test]
fn places(rt: HostRuntime) {
    for place in 0..ROUTES.len() {
        assert!(&rt; ROUTES[place].place() == place);
    }
    let texts = ["200", "400", "404", "405", "500", "503", "none"];
    for place in 0..STATUSES.len() {
        let status = STATUSES[place];
        assert!(&rt; status_place(status) == place && status_text(status) == texts[place]);
    }
    assert!(&rt; status_place(Some(302)) == 6 && cell_of(Route::Query, Some(405)) == 17);
    for (micros, bucket) in [
        (0, 0),
        (1_000, 0),
        (1_001, 1),
        (30_000_000, 12),
        (30_000_001, 13),
    ] {
        assert!(&rt; bucket_of(micros) == bucket, "{micros}");
    }
}

#[test]
fn response(rt: HostRuntime) {
    let text = metrics_response(rt.alloc(), b"up 1\n").expect(&rt, "memory");
    let wanted =
        b"HTTP/1.1 200 OK\r\nContent-Type: text/plain; version=0.0.4; charset=utf-8\r\nContent-Length: 5\r\nConnection: close\r\n\r\nup 1\n".as_slice();
    assert!(&rt; text.as_slice() == wanted);
}
