use crate::rows::{interval, parsed};
use crate::tables::{assert_rows, owned, printed};
use druid_time::{Granularity, Instant, Interval, IntervalSet};
use std::alloc::Global;
use std::process::Abort;

// A text, and the milliseconds since 1970 of the instant that it names, or its fault.
const INSTANTS: &str = "2024-01-01T10:00 = 1704103200000
2024-02-30 = C2: no such date or time
2024-2-3 = C1: not a time
2018-05-21 = 1526860800000
2018-05-21T16:07 = 1526918820000
2018-05-21T16:07Z = 1526918820000
2018-05-21T16:07:09 = 1526918829000
2018-05-21T16:07:09Z = 1526918829000
2018-05-21T16:07:09.123 = 1526918829123
2018-05-21T16:07:09.123Z = 1526918829123
2000-02-29 = 951782400000
2024-02-29 = 1709164800000
1900-03-01 = -2203891200000
1582-10-10 = -12219724800000
0001-01-01 = -62135596800000
0000-01-01 = -62167219200000
9999-12-31T23:59:59.999 = 253402300799999
1900-02-29 = C2: no such date or time
2023-02-29 = C2: no such date or time
2024-04-31 = C2: no such date or time
2024-00-10 = C2: no such date or time
2024-13-10 = C2: no such date or time
2024-01-00 = C2: no such date or time
2024-01-32 = C2: no such date or time
2024-01-01T24:00 = C2: no such date or time
2024-01-01T23:60 = C2: no such date or time
2024-01-01T23:59:60 = C2: no such date or time
 = C1: not a time
2024 = C1: not a time
2024-01 = C1: not a time
2024-01-01Z = C1: not a time
2024-01-01T10 = C1: not a time
2024-01-01 10:00 = C1: not a time
2024-01-01T10:00z = C1: not a time
2024-01-01T10:00:00.1 = C1: not a time
2024-01-01T10:00:00,123 = C1: not a time
2024-01-01T10:00:00.000ZZ = C1: not a time
-024-01-01 = C1: not a time
2024/01/01 = C1: not a time
20240-1-01 = C1: not a time
２4-01-01 = C1: not a time";

// Milliseconds since 1970, and the printed form of the instant there.
const PRINTED: &str = "-1 = 1969-12-31T23:59:59.999Z
0 = 1970-01-01T00:00:00.000Z
1526918829123 = 2018-05-21T16:07:09.123Z
951782400000 = 2000-02-29T00:00:00.000Z
-62167219200000 = 0000-01-01T00:00:00.000Z
253402300799999 = 9999-12-31T23:59:59.999Z
-62167219200001 = none
253402300800000 = none";

// Milliseconds since 1970, and where the buckets by second, minute, hour and day start that have the instant.
const BUCKETS: &str = "-1 = -1000 -60000 -3600000 -86400000
0 = 0 0 0 0
999 = 0 0 0 0
1704103201001 = 1704103201000 1704103200000 1704103200000 1704067200000
-62167219200000 = -62167219200000 -62167219200000 -62167219200000 -62167219200000
253402300799999 = 253402300799000 253402300740000 253402297200000 253402214400000";

// A text, and the printed form of the interval that it names, or its fault.
const INTERVALS: &str =
    "2024-01-01/2024-01-02T00:00:00Z = 2024-01-01T00:00:00.000Z/2024-01-02T00:00:00.000Z
2024-01-02/2024-01-02 = C3: an empty interval
2024-01-01 = C1: not a time
2024-01-01/2024-01-02/2024-01-03 = C1: not a time
2024-01-01/P1D = C1: not a time
2024-01-32/P1D = C2: no such date or time
P1D/2024-01-32 = C1: not a time
2024-01-01/2024-01-32 = C2: no such date or time
2024-01-02/2024-01-01 = C3: an empty interval
2024-01-01T00:00/2024-01-01 = C3: an empty interval";

// Intervals with a space between, and the parts of the set of their instants, each with a space after it.
const SETS: &str = " =\u{20}
2024-01-01T00:00/2024-01-01T06:00 2024-01-01T06:00/2024-01-01T12:00 = 2024-01-01T00:00:00.000Z/2024-01-01T12:00:00.000Z\u{20}
2024-01-03/2024-01-04 2024-01-01T06:00/2024-01-01T12:00 2024-01-01T00:00/2024-01-01T06:00 = 2024-01-01T00:00:00.000Z/2024-01-01T12:00:00.000Z 2024-01-03T00:00:00.000Z/2024-01-04T00:00:00.000Z\u{20}";

fn instant_reported(rt: &impl Abort, alloc: Global, text: &str) -> String {
    match Instant::parse(text) {
        Ok(instant) => printed(rt, alloc, &instant.ms()),
        Err(fault) => printed(rt, alloc, &fault),
    }
}

fn written(rt: &impl Abort, alloc: Global, instant: Instant) -> String {
    let mut text = [0; 24];
    instant.write(&mut text);
    String::from_utf8_lossy(alloc, &text).expect(rt, "memory")
}

fn printed_form(rt: &impl Abort, alloc: Global, ms: &str) -> String {
    match Instant::new(parsed(rt, ms)) {
        Some(instant) => written(rt, alloc, instant),
        None => owned(rt, alloc, "none"),
    }
}

// Where the bucket of that size starts.
fn start(rt: &impl Abort, instant: Instant, granularity: Granularity) -> i64 {
    instant.bucket(granularity).expect(rt, "no bucket").ms()
}

fn buckets_reported(rt: &impl Abort, alloc: Global, ms: &str) -> String {
    let instant = Instant::new(parsed(rt, ms)).expect(rt, "no instant");
    let second = start(rt, instant, Granularity::Second);
    let minute = start(rt, instant, Granularity::Minute);
    let hour = start(rt, instant, Granularity::Hour);
    let day = start(rt, instant, Granularity::Day);
    format!(in alloc; "{second} {minute} {hour} {day}").expect(rt, "memory")
}

fn interval_reported(rt: &impl Abort, alloc: Global, text: &str) -> String {
    match Interval::parse(text) {
        Ok(interval) => interval.text(alloc).expect(rt, "memory"),
        Err(fault) => printed(rt, alloc, &fault),
    }
}

// The set of the instants of these intervals, and a copy of it.
fn set(rt: &impl Abort, alloc: Global, text: &str) -> IntervalSet {
    let mut intervals = Vec::new(alloc);
    for part in text.split_whitespace() {
        intervals.push(interval(rt, part)).expect(rt, "memory");
    }
    let set = IntervalSet::of(alloc, &intervals).expect(rt, "memory");
    set.clone().expect(rt, "memory")
}

fn push_part(rt: &impl Abort, alloc: Global, reported: &mut String, part: &Interval) {
    let text = part.text(alloc).expect(rt, "memory");
    reported.push_str(text.as_str()).expect(rt, "memory");
    reported.push(' ').expect(rt, "memory");
}

fn parts(rt: &impl Abort, alloc: Global, text: &str) -> String {
    let mut reported = String::new(alloc);
    for part in set(rt, alloc, text).parts() {
        push_part(rt, alloc, &mut reported, part);
    }
    reported
}

#[test]
fn instants(rt: HostRuntime) {
    assert_rows(&rt, rt.alloc(), INSTANTS, instant_reported);
}

#[test]
fn printed_instants(rt: HostRuntime) {
    assert_rows(&rt, rt.alloc(), PRINTED, printed_form);
}

#[test]
fn buckets(rt: HostRuntime) {
    assert_rows(&rt, rt.alloc(), BUCKETS, buckets_reported);
}

#[test]
fn intervals(rt: HostRuntime) {
    assert_rows(&rt, rt.alloc(), INTERVALS, interval_reported);
}

#[test]
fn sets_of_intervals(rt: HostRuntime) {
    assert_rows(&rt, rt.alloc(), SETS, parts);
}
