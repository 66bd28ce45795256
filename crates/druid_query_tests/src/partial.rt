//! What queries answer over rows of segments, put together in either order.
ghost use Rattle.druid_partial.specs.Partials.{IsPartialFor};

use druid_partial::{Partial, kinds_of, merge};
use druid_partial_scan::partial_of;
use druid_partial_text::result_text;
use druid_query::{AggregatorKind, Query};
use druid_query_text::read_query;
use druid_segment_descriptor::Descriptor;
use druid_segment_id::{Name, SegmentId, Version};
use druid_segment_rows::{Row, Schema, Segment};
use druid_time::{Instant, Interval};
use std::alloc::Global;
use std::process::Abort;

// A query, the segments that it is asked of, and its result. `@` stands for the keys of a `timeseries` over the first two
// days of 2024, and `#` for those of a `groupBy`; a later key of the same name counts. A segment of the first day is the
// names of its dimensions and of its metrics, and its rows: the milliseconds of the day, the values, and the numbers. `-` is
// null, and `+` stands between two segments.
const RESULTS: &str =
    r#"@,"aggregations":[{"type":"longSum","name":"s","fieldName":"m"}]} => d:m 0/x/9223372036854775807 + d:m 0/x/1 = [{"result":{"s":-9223372036854775808},"timestamp":"2024-01-01T00:00:00.000Z"}]
@,"aggregations":[{"type":"longMin","name":"a","fieldName":"f"},{"type":"longSum","name":"b","fieldName":"f"}]} => d:m 0/x/1 + d:m 0/x/2 = [{"result":{"a":null,"b":null},"timestamp":"2024-01-01T00:00:00.000Z"}]
#,"dimensions":["d"],"aggregations":[{"type":"count","name":"n"}]} => d:m 0/a/1 0//1 + e:m 5/x/1 = [{"event":{"d":null,"n":1},"timestamp":"2024-01-01T00:00:00.000Z","version":"v1"},{"event":{"d":"","n":1},"timestamp":"2024-01-01T00:00:00.000Z","version":"v1"},{"event":{"d":"a","n":1},"timestamp":"2024-01-01T00:00:00.000Z","version":"v1"}]
#,"dimensions":["d"],"aggregations":[{"type":"count","name":"n"}]} => d:m 0/-/1 0//1 0/a/1 = [{"event":{"d":null,"n":1},"timestamp":"2024-01-01T00:00:00.000Z","version":"v1"},{"event":{"d":"","n":1},"timestamp":"2024-01-01T00:00:00.000Z","version":"v1"},{"event":{"d":"a","n":1},"timestamp":"2024-01-01T00:00:00.000Z","version":"v1"}]
#,"dimensions":["m"],"aggregations":[{"type":"longSum","name":"s","fieldName":"d"}]} => d:m 0/a/1 = [{"event":{"m":null,"s":null},"timestamp":"2024-01-01T00:00:00.000Z","version":"v1"}]
@,"aggregations":[{"type":"count","name":"n"}]} => d:m = []
@,"granularity":"hour","aggregations":[{"type":"count","name":"n"}]} => d:m 3600000/a/1 3599999/a/1 + d:m 7199999/a/1 = [{"result":{"n":1},"timestamp":"2024-01-01T00:00:00.000Z"},{"result":{"n":2},"timestamp":"2024-01-01T01:00:00.000Z"}]
@,"intervals":["2024-01-01T12:00/2024-01-02","2024-01-01T06:00/2024-01-01T07:00"],"aggregations":[{"type":"count","name":"n"}]} => d:m 43200000/a/1 = [{"result":{"n":1},"timestamp":"2024-01-01T06:00:00.000Z"}]
@,"aggregations":[{"type":"longMin","name":"a","fieldName":"m"},{"type":"longMax","name":"b","fieldName":"m"},{"type":"count","name":"c"}]} => d:m 0/a/3 0/a/- 0/a/-4 + d:m 0/a/9 = [{"result":{"a":-4,"b":9,"c":4},"timestamp":"2024-01-01T00:00:00.000Z"}]
@,"aggregations":[{"type":"longSum","name":"s","fieldName":"n"},{"type":"longMin","name":"t","fieldName":"m"}]} => d:m,n 0/a/1/2 0/b/4/- = [{"result":{"s":2,"t":1},"timestamp":"2024-01-01T00:00:00.000Z"}]
@,"aggregations":[{"type":"longSum","name":"s","fieldName":"m"}]} => d:m 0/a/- + e:f 0/a/7 = [{"result":{"s":null},"timestamp":"2024-01-01T00:00:00.000Z"}]
@,"filter":{"type":"not","field":{"type":"selector","dimension":"d","value":"a"}},"aggregations":[{"type":"count","name":"n"}]} => d:m 0/a/1 0/-/1 0//1 = [{"result":{"n":2},"timestamp":"2024-01-01T00:00:00.000Z"}]
@,"filter":{"type":"in","dimension":"d","values":["b",null,"c"]},"aggregations":[{"type":"count","name":"n"}]} => d:m 0/a/1 0/-/1 0/c/1 0//1 + e:m 0/b/1 = [{"result":{"n":3},"timestamp":"2024-01-01T00:00:00.000Z"}]
@,"filter":{"type":"in","dimension":"d","values":[]},"aggregations":[{"type":"count","name":"n"}]} => d:m 0/a/1 0/-/1 = []
@,"filter":{"type":"or","fields":[{"type":"and","fields":[{"type":"selector","dimension":"d","value":"a"},{"type":"selector","dimension":"e","value":"x"}]},{"type":"selector","dimension":"e","value":null}]},"aggregations":[{"type":"longSum","name":"s","fieldName":"m"}]} => d,e:m 0/a/x/1 0/a/y/2 0/b/-/4 0/b/x/8 + d:m 0/z/16 = [{"result":{"s":21},"timestamp":"2024-01-01T00:00:00.000Z"}]
#,"granularity":"day","dimensions":["e",{"type":"default","dimension":"d","outputName":"x"}],"aggregations":[{"type":"count","name":"n"}]} => d,e:m 0/b/x/1 0/a/y/1 0/a/x/1 + d,e:m 1/a/x/1 = [{"event":{"e":"x","n":2,"x":"a"},"timestamp":"2024-01-01T00:00:00.000Z","version":"v1"},{"event":{"e":"x","n":1,"x":"b"},"timestamp":"2024-01-01T00:00:00.000Z","version":"v1"},{"event":{"e":"y","n":1,"x":"a"},"timestamp":"2024-01-01T00:00:00.000Z","version":"v1"}]
#,"aggregations":[]} => d:m 0/a/1 = [{"event":{},"timestamp":"2024-01-01T00:00:00.000Z","version":"v1"}]
#,"dimensions":["d"]} => d:m 0/\u{0}"\é/1 = [{"event":{"d":"\\u{0}\"\\é"},"timestamp":"2024-01-01T00:00:00.000Z","version":"v1"}]"#;

const COMMON: &str =
    "{\"dataSource\":\"w\",\"granularity\":\"all\",\"intervals\":\"2024-01-01/2024-01-03\",\"queryType\":";

// The text of a query of that type.
fn typed(rt: &impl Abort, alloc: Global, kind: &str, rest: &str) -> String {
    format!(in alloc; "{COMMON}\"{kind}\"{rest}").expect(rt, "memory")
}

/// A query, as a row has it.
pub(crate) fn query(rt: &impl Abort, alloc: Global, text: &str) -> Query {
    let text = match text.strip_prefix("@") {
        Some(rest) => typed(rt, alloc, "timeseries", rest),
        None => typed(
            rt,
            alloc,
            "groupBy",
            text.strip_prefix("#").expect(rt, "a query"),
        ),
    };
    read_query(alloc, text.as_str().as_bytes()).expect(rt, "a query")
}

fn owned(rt: &impl Abort, alloc: Global, text: &str) -> String {
    String::from_str(alloc, text).expect(rt, "memory")
}

fn names(rt: &impl Abort, alloc: Global, words: &str) -> Vec<String> {
    let mut names = Vec::new(alloc);
    for word in words.split(',') {
        names.push(owned(rt, alloc, word)).expect(rt, "memory");
    }
    names
}

fn value(rt: &impl Abort, alloc: Global, word: &str) -> Option<String> {
    match word {
        "-" => None,
        _ => Some(owned(rt, alloc, word)),
    }
}

fn number(rt: &impl Abort, word: &str) -> Option<i64> {
    match word {
        "-" => None,
        _ => Some(word.parse().expect(rt, "a number")),
    }
}

// The instant so many milliseconds after the begin of the first day.
fn instant(rt: &impl Abort, digits: &str) -> Instant {
    let start = Instant::parse("2024-01-01").expect(rt, "an instant");
    let ms: i64 = digits.parse().expect(rt, "milliseconds");
    Instant::new(start.ms().saturating_add(ms)).expect(rt, "an instant")
}

fn row(rt: &impl Abort, alloc: Global, text: &str, count: usize) -> Row {
    let mut words = text.split('/');
    let time = instant(rt, words.next().expect(rt, "an instant"));
    let mut values = Vec::new(alloc);
    let mut numbers = Vec::new(alloc);
    for word in words {
        if values.len() < count {
            values.push(value(rt, alloc, word)).expect(rt, "memory");
        } else {
            numbers.push(number(rt, word)).expect(rt, "memory");
        }
    }
    Row::new(time, values, numbers)
}

fn day(rt: &impl Abort) -> Interval {
    Interval::parse("2024-01-01/2024-01-02").expect(rt, "an interval")
}

fn descriptor(rt: &impl Abort, alloc: Global) -> Descriptor {
    let source = Name::new(alloc, "w").expect(rt, "a name");
    let version = Version::new(alloc, "v").expect(rt, "a version");
    let id = SegmentId::new(source, day(rt), version, 0);
    Descriptor::new(id, 1, 0).expect(rt, "a descriptor")
}

fn rows(rt: &impl Abort, alloc: Global, texts: &str, count: usize) -> Vec<Row> {
    let mut rows = Vec::new(alloc);
    for text in texts.split_terminator(' ') {
        rows.push(row(rt, alloc, text, count)).expect(rt, "memory");
    }
    rows
}

/// The segment of that descriptor whose fields and rows a text has.
pub(crate) fn segment_of(
    rt: &impl Abort,
    alloc: Global,
    descriptor: Descriptor,
    text: &str,
) -> Segment {
    let (names_of, texts) = text.split_once(" ").unwrap_or((text, ""));
    let (dimensions, metrics) = names_of.split_once(":").expect(rt, "a schema");
    let dimensions = names(rt, alloc, dimensions);
    let rows = rows(rt, alloc, texts, dimensions.len());
    let schema = Schema::new(dimensions, names(rt, alloc, metrics));
    Segment::new(alloc, descriptor, schema, rows).expect(rt, "a segment")
}

/// The segment of version `v` of the first day.
pub(crate) fn segment(rt: &impl Abort, alloc: Global, text: &str) -> Segment {
    segment_of(rt, alloc, descriptor(rt, alloc), text)
}

fn part(rt: &impl Abort, alloc: Global, query: &Query, text: &str) -> Partial
    ensures { IsPartialFor query.now result }
{
    let segment = segment(rt, alloc, text);
    partial_of(alloc, query, &segment, day(rt)).expect(rt, "memory")
}

/// What two partials tell.
pub(crate) fn both(
    rt: &impl Abort,
    alloc: Global,
    query: &Query,
    first: Partial,
    second: Partial,
) -> Partial
    requires first { IsPartialFor query.now first }
    requires second { IsPartialFor query.now second }
    ensures { IsPartialFor query.now result }
{
    merge(alloc, first, second).expect(rt, "memory")
}

/// What the segments tell, each put after those before it or in front of them.
pub(crate) fn reported(
    rt: &impl Abort,
    alloc: Global,
    query: &Query,
    segments: &str,
    in_front: bool,
) -> Partial
    ensures { IsPartialFor query.now result }
{
    let mut whole = Partial::empty(alloc, query).expect(rt, "memory");
    for text in segments.split(" + ") {
        let next = part(rt, alloc, query, text);
        whole = if in_front {
            both(rt, alloc, query, next, whole)
        } else {
            both(rt, alloc, query, whole, next)
        };
    }
    whole
}

fn is_result(rt: &impl Abort, alloc: Global, line: &str, in_front: bool) -> bool {
    let (asked, rest) = line.split_once(" => ").expect(rt, "a query");
    let (segments, wanted) = rest.split_once(" = ").expect(rt, "a result");
    let query = query(rt, alloc, asked);
    let partial = reported(rt, alloc, &query, segments, in_front);
    let text = result_text(alloc, &query, &partial).expect(rt, "memory");
    text.as_str() == wanted
}

// What the aggregators of each kind tell.
fn are_kinds(rt: &impl Abort, alloc: Global) -> bool {
    let asked = query(
        rt,
        alloc,
        "@,\"aggregations\":[{\"type\":\"longMax\",\"name\":\"a\",\"fieldName\":\"m\"},{\"type\":\"count\",\"name\":\"b\"},{\"type\":\"longMin\",\"name\":\"c\",\"fieldName\":\"m\"},{\"type\":\"longSum\",\"name\":\"d\",\"fieldName\":\"m\"}]}",
    );
    let wanted = [
        AggregatorKind::LongMax,
        AggregatorKind::Count,
        AggregatorKind::LongMin,
        AggregatorKind::LongSum,
    ];
    let kinds = kinds_of(alloc, &asked).expect(rt, "memory");
    kinds.as_slice() == wanted.as_slice()
}

#[test]
fn results(rt: HostRuntime) {
    for line in RESULTS.lines() {
        for in_front in [false, true] {
            assert!(rt; is_result(&rt, rt.alloc(), line, in_front), "{line}");
        }
    }
    assert!(rt; are_kinds(&rt, rt.alloc()));
}
