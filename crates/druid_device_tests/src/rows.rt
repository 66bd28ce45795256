use crate::printed::assert_prints;
use druid_segment_descriptor::Descriptor;
use druid_segment_id::{Name, SegmentId, Version};
use druid_segment_rows::{Filter, Row, RowFault, Schema, Segment, SegmentBuilder, matches};
use druid_time::{Instant, Interval};
use std::alloc::Global;
use std::fmt::Debug;
use std::process::Abort;
use std::str::FromStr;

// Segments of one row of the day that begins with 1970: the names of the dimensions and of the metrics, the instant, the
// values and the numbers, and what is reported of it. `*7` is seven letters, `#7` seven names, and `-` null.
const JUDGED: &str = "AZ_az,*100;09;0;x,-;5;ok
;m;0;x;5;U1
a-b;m;0;x;5;U1
\u{e9};m;0;x;5;U1
*101;m;0;x;5;U1
x;x;0;x;5;U1
d,d;m;0;x,x;5;U1
d;m,m;0;x;5,5;U1
d;m;-1;x;5;U2
d;m;86399999;x;5;ok
d;m;86400000;x;5;U2
d,e;m;0;x;5;U3
d;m,n;0;x;5;U3
d;m;0;*1024;5;ok
d;m;0;*1025;5;U4
#64;m;0;x;5;U3
#65;m;0;x;5;U4
d;#64;0;x;5;U3
d;#65;0;x;5;U4
d,-;m;86400000;*1025;5;U1
d,e;m;86400000;*1025;5;U4
d,e;m;86400000;x;5;U3
d;m;86400000;x;5;U2";

fn instant(rt: &impl Abort, ms: i64) -> Instant {
    Instant::new(ms).expect(rt, "an instant")
}

fn segment_id(rt: &impl Abort, alloc: Global) -> SegmentId {
    SegmentId::new(
        Name::new(alloc, "w").expect(rt, "a name"),
        Interval::parse("1970-01-01/1970-01-02").expect(rt, "an interval"),
        Version::new(alloc, "v").expect(rt, "a version"),
        0,
    )
}

fn descriptor(rt: &impl Abort, alloc: Global) -> Descriptor {
    Descriptor::new(segment_id(rt, alloc), 1, 0).expect(rt, "a descriptor")
}

fn letters(rt: &impl Abort, alloc: Global, count: usize) -> String {
    "a".repeat(alloc, count).expect(rt, "memory")
}

fn number<T: FromStr<Err: Debug>>(rt: &impl Abort, digits: &str) -> T {
    digits.parse().expect(rt, "a number")
}

fn text_of(rt: &impl Abort, alloc: Global, word: &str) -> String {
    match word.strip_prefix("*") {
        Some(count) => letters(rt, alloc, number(rt, count)),
        None => String::from_str(alloc, word).expect(rt, "memory"),
    }
}

fn many_names(rt: &impl Abort, alloc: Global, count: usize) -> Vec<String> {
    let mut names = Vec::new(alloc);
    for length in 0..count {
        names
            .push(letters(rt, alloc, length.saturating_add(1)))
            .expect(rt, "memory");
    }
    names
}

fn listed_names(rt: &impl Abort, alloc: Global, words: &str) -> Vec<String> {
    let mut names = Vec::new(alloc);
    for word in words.split(',') {
        names.push(text_of(rt, alloc, word)).expect(rt, "memory");
    }
    names
}

fn names(rt: &impl Abort, alloc: Global, words: &str) -> Vec<String> {
    match words.strip_prefix("#") {
        Some(count) => many_names(rt, alloc, number(rt, count)),
        None => listed_names(rt, alloc, words),
    }
}

fn text_or_null(rt: &impl Abort, alloc: Global, word: &str) -> Option<String> {
    match word {
        "-" => None,
        _ => Some(text_of(rt, alloc, word)),
    }
}

fn number_or_null(rt: &impl Abort, word: &str) -> Option<i64> {
    match word {
        "-" => None,
        _ => Some(number(rt, word)),
    }
}

fn texts(rt: &impl Abort, alloc: Global, words: &str) -> Vec<Option<String>> {
    let mut texts = Vec::new(alloc);
    for word in words.split(',') {
        texts
            .push(text_or_null(rt, alloc, word))
            .expect(rt, "memory");
    }
    texts
}

fn numbers(rt: &impl Abort, alloc: Global, words: &str) -> Vec<Option<i64>> {
    let mut numbers = Vec::new(alloc);
    for word in words.split(',') {
        numbers.push(number_or_null(rt, word)).expect(rt, "memory");
    }
    numbers
}

fn schema(rt: &impl Abort, alloc: Global, dimensions: &str, metrics: &str) -> Schema {
    Schema::new(names(rt, alloc, dimensions), names(rt, alloc, metrics))
}

fn row(rt: &impl Abort, alloc: Global, ms: &str, values: &str, counts: &str) -> Row {
    Row::new(
        instant(rt, number(rt, ms)),
        texts(rt, alloc, values),
        numbers(rt, alloc, counts),
    )
}

fn code(fault: RowFault) -> &'static str {
    match fault {
        RowFault::Tombstone => "U5",
        RowFault::BadSchema => "U1",
        RowFault::RowOutside => "U2",
        RowFault::RowShape => "U3",
        RowFault::TooLong => "U4",
        RowFault::Memory => "U9",
    }
}

fn reported<T: Drop>(answered: Result<T, RowFault>) -> &'static str {
    match answered {
        Ok(_) => "ok",
        Err(fault) => code(fault),
    }
}

// A call with a long contract stands alone, so that no other function carries what it says.
fn new_segment(
    rt: &impl Abort,
    alloc: Global,
    schema: Schema,
    row: Row,
) -> Result<Segment, RowFault> {
    let mut rows = Vec::new(alloc);
    rows.push(row).expect(rt, "memory");
    Segment::new(alloc, descriptor(rt, alloc), schema, rows)
}

fn new_builder(rt: &impl Abort, alloc: Global, schema: Schema) -> Result<SegmentBuilder, RowFault> {
    SegmentBuilder::new(alloc, descriptor(rt, alloc), schema)
}

fn push(builder: &mut SegmentBuilder, row: &Row) -> Result<(), RowFault> {
    builder.push(row)
}

fn push_values(
    rt: &impl Abort,
    builder: &mut SegmentBuilder,
    ms: i64,
    text: Option<&str>,
    number: Option<i64>,
) -> Result<(), RowFault> {
    builder.push_values(instant(rt, ms), &[text], &[number])
}

// Pushes a row, which alone is there.
fn push_first(rt: &impl Abort, alloc: Global, schema: Schema, row: &Row) -> Result<(), RowFault> {
    let mut builder = new_builder(rt, alloc, schema)?;
    push(&mut builder, row)
}

// Whether a row is reported so, both ways, in a segment of these names.
fn is_row_reported(
    rt: &impl Abort,
    alloc: Global,
    (dimensions, metrics): (&str, &str),
    row: Row,
    wanted: &str,
) -> bool {
    reported(push_first(rt, alloc, schema(rt, alloc, dimensions, metrics), &row)) == wanted
        && reported(new_segment(rt, alloc, schema(rt, alloc, dimensions, metrics), row)) == wanted
}

// Whether a line of the table is reported so.
fn is_reported(rt: &impl Abort, alloc: Global, line: &str) -> bool {
    let mut parts = line.split(';');
    let dimensions = parts.next().expect(rt, "dimensions");
    let metrics = parts.next().expect(rt, "metrics");
    let ms = parts.next().expect(rt, "an instant");
    let values = parts.next().expect(rt, "values");
    let counts = parts.next().expect(rt, "numbers");
    let wanted = parts.next().expect(rt, "an answer");
    let one = row(rt, alloc, ms, values, counts);
    is_row_reported(rt, alloc, (dimensions, metrics), one, wanted)
}

#[test]
fn one_row(rt: HostRuntime) {
    for line in JUDGED.lines() {
        assert!(rt; is_reported(&rt, rt.alloc(), line), "{line}");
    }
}

const TEXTS_OF_FAULTS: [(RowFault, &str); 6] = [
    (RowFault::Tombstone, "U5: a tombstone"),
    (RowFault::BadSchema, "U1: a bad schema"),
    (RowFault::RowOutside, "U2: a row outside the interval"),
    (RowFault::RowShape, "U3: a row of another shape"),
    (RowFault::TooLong, "U4: too long"),
    (RowFault::Memory, "U9: out of memory"),
];

#[test]
fn printed_faults(rt: HostRuntime) {
    assert_prints(&rt, rt.alloc(), &TEXTS_OF_FAULTS);
}

// A tombstone has no rows, whatever schema is given.
#[test]
fn tombstones_are_no_segments(rt: HostRuntime) {
    let alloc = rt.alloc();
    for metric in ["n", "x"] {
        let tombstone = Descriptor::tombstone(segment_id(&rt, alloc)).expect(&rt, "partition 0");
        let built = SegmentBuilder::new(alloc, tombstone, schema(&rt, alloc, "x", metric));
        assert!(rt; reported(built) == "U5");
        let tombstone = Descriptor::tombstone(segment_id(&rt, alloc)).expect(&rt, "partition 0");
        let made = Segment::new(
            alloc,
            tombstone,
            schema(&rt, alloc, "x", metric),
            Vec::new(alloc),
        );
        assert!(rt; reported(made) == "U5");
    }
}

// Whether the readers of a segment tell this of a row.
fn has_row(
    segment: &Segment,
    row: usize,
    ms: i64,
    text: Option<&str>,
    number: Option<i64>,
) -> bool {
    if row >= segment.len()
        || segment.schema().dimensions().is_empty()
        || segment.schema().metrics().is_empty()
    {
        return false;
    }
    segment.time(row).ms() == ms
        && segment.dimension(row, 0) == text
        && segment.metric(row, 0) == number
}

fn is_text(found: Option<&Option<String>>, text: Option<&str>) -> bool {
    match (found, text) {
        (Some(Some(value)), Some(text)) => value.as_str() == text,
        (Some(None), None) => true,
        _ => false,
    }
}

// Whether a copy of a row has these values.
fn copies_row(
    rt: &impl Abort,
    segment: &Segment,
    row: usize,
    text: Option<&str>,
    number: Option<i64>,
) -> bool {
    if row >= segment.len() {
        return false;
    }
    let copy = segment.row(row).expect(rt, "memory");
    is_text(copy.dimensions().first(), text) && copy.metrics().first() == Some(&number)
}

fn builder(rt: &impl Abort, alloc: Global) -> SegmentBuilder {
    new_builder(rt, alloc, schema(rt, alloc, "d", "m")).expect(rt, "a builder")
}

// Three rows: a null and a number, an empty text and the least number, and a text that is not ASCII and null.
fn three_rows(rt: &impl Abort, alloc: Global) -> Segment {
    let mut builder = builder(rt, alloc);
    push(&mut builder, &row(rt, alloc, "7", "-", "5")).expect(rt, "a first row");
    push_values(rt, &mut builder, 0, Some(""), Some(i64::MIN)).expect(rt, "a second row");
    push_values(rt, &mut builder, 9, Some("\u{e9}t\u{e9}"), None).expect(rt, "a third row");
    builder.finish().expect(rt, "memory")
}

// The instants, the texts and the numbers of the three.
const THREE_ROWS: [(i64, Option<&str>, Option<i64>); 3] = [
    (7, None, Some(5)),
    (0, Some(""), Some(i64::MIN)),
    (9, Some("\u{e9}t\u{e9}"), None),
];

// Whether the readers and a copy both tell this of a row.
fn is_row(
    rt: &impl Abort,
    segment: &Segment,
    row: usize,
    (ms, text, number): &(i64, Option<&str>, Option<i64>),
) -> bool {
    has_row(segment, row, *ms, *text, *number) && copies_row(rt, segment, row, *text, *number)
}

// The filter that a row passes where `d` is not null.
fn not_null(rt: &impl Abort, alloc: Global) -> Filter {
    let null = Filter::Selector(text_of(rt, alloc, "d"), None);
    Filter::Not(Box::new(alloc, null).expect(rt, "memory"))
}

fn passes(rt: &impl Abort, segment: &Segment, row: usize, filter: &Filter) -> bool {
    if row >= segment.len() {
        return false;
    }
    let copy = segment.row(row).expect(rt, "memory");
    matches(filter, segment.schema(), &copy)
}

#[test]
fn rows_and_filters(rt: HostRuntime) {
    let segment = three_rows(&rt, rt.alloc());
    let filter = not_null(&rt, rt.alloc());
    for (row, reported) in THREE_ROWS.iter().enumerate() {
        assert!(rt; is_row(&rt, &segment, row, reported), "{row}");
        assert!(rt;
            passes(&rt, &segment, row, &filter) == reported.1.is_some(),
            "{row}"
        );
    }
}

// Pushes a row that is equal to those before it.
fn push_equal(rt: &impl Abort, builder: &mut SegmentBuilder) -> Result<(), RowFault> {
    push_values(rt, builder, 0, Some("x"), Some(5))
}

#[test]
fn most_rows(rt: HostRuntime) {
    let mut builder = builder(&rt, rt.alloc());
    for _ in 0..100_000u32 {
        push_equal(&rt, &mut builder).expect(&rt, "a row");
    }
    assert!(rt; reported(push_equal(&rt, &mut builder)) == "U4");
}
