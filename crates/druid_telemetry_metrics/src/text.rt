//! Families and histograms as the text in which Prometheus reads them.
ghost use Rattle.std.specs.Prelude.{◌≡◌, ◌++◌, ◌<◌, IfOk, OnOk, flat_map, codes, decimal};
ghost use Rattle.druid_telemetry_metrics.specs.Pieces.{joined};
ghost use Rattle.druid_telemetry_metrics.specs.Text.{escaped_byte, escaped, label_text, more_labels, labels_text, bucket_labels, six_digits, seconds, number_text, kind_text, line, sample_line, head, family_text, with_more, counted, bucket_line, bucket_lines, ends_text, spread_lines, histogram_text, page_text};

use crate::family::{Bucket, Family, Histogram, Kind, Label, Number, Sample, Spread};
use itoa::Buffer;
use std::alloc::{AllocError, Global};

// Pieces, one after another.
pub(crate) fn join(alloc: Global, pieces: &[&[u8]]) -> Result<Vec<u8>, AllocError>
    ensures { IfOk result (λ text. text.items ≡ joined pieces.now) }
{
    let mut text = Vec::new(alloc);
    for piece in pieces {
        text.extend_from_slice(piece)?;
    }
    Ok(text)
}

// Puts a byte of a text, escaped where it has to be.
fn put_escaped(byte: u8, quoted: bool, out: &mut Vec<u8>) -> Result<(), AllocError>
    ensures { OnOk result (out.new.items ≡ out.old.items ++ escaped_byte quoted byte) }
{
    if byte == b'\\' {
        return out.extend_from_slice(b"\\\\");
    }
    if byte == b'\n' {
        return out.extend_from_slice(b"\\n");
    }
    if quoted && byte == b'"' {
        return out.extend_from_slice(b"\\\"");
    }
    out.push(byte)?;
    Ok(())
}

// A text in which backslashes and line feeds are escaped, and in quotation marks these too.
fn escaped(alloc: Global, quoted: bool, text: &str) -> Result<Vec<u8>, AllocError>
    ensures { IfOk result (λ bytes. bytes.items ≡ escaped quoted text.now) }
{
    let bytes = text.as_bytes();
    let mut out = Vec::with_capacity(alloc, bytes.len())?;
    for byte in bytes {
        put_escaped(*byte, quoted, &mut out)?;
    }
    Ok(out)
}

fn label_text(alloc: Global, label: &Label<'_>) -> Result<Vec<u8>, AllocError>
    ensures { IfOk result (λ text. text.items ≡ label_text label.now) }
{
    let value = escaped(alloc, true, label.value())?;
    join(alloc, &[label.name().as_bytes(), b"=\"", &value, b"\""])
}

// A comma and a label.
fn next_label(alloc: Global, label: &Label<'_>) -> Result<Vec<u8>, AllocError>
    ensures { IfOk result (λ text. text.items ≡ codes "," ++ label_text label.now) }
{
    let text = label_text(alloc, label)?;
    let mut next = Vec::from_slice(alloc, b",")?;
    next.extend_from_slice(&text)?;
    Ok(next)
}

// Labels, with a comma before each.
fn more_labels(alloc: Global, labels: &[Label<'_>]) -> Result<Vec<u8>, AllocError>
    ensures { IfOk result (λ text. text.items ≡ more_labels labels.now) }
{
    let mut text = Vec::new(alloc);
    for label in labels {
        let next = next_label(alloc, label)?;
        text.extend_from_slice(&next)?;
    }
    Ok(text)
}

// Labels, with braces around them where there are any.
fn labels_text(alloc: Global, labels: &[Label<'_>]) -> Result<Vec<u8>, AllocError>
    ensures { IfOk result (λ text. text.items ≡ labels_text labels.now) }
{
    let Some((first, rest)) = labels.split_first() else {
        return Ok(Vec::new(alloc));
    };
    let first = label_text(alloc, first)?;
    let rest = more_labels(alloc, rest)?;
    join(alloc, &[b"{", &first, &rest, b"}"])
}

// Labels and a bound.
fn bucket_labels(alloc: Global, labels: &[Label<'_>], bound: &[u8]) -> Result<Vec<u8>, AllocError>
    ensures { IfOk result (λ text. text.items ≡ bucket_labels labels.now bound.now) }
{
    let Some((first, rest)) = labels.split_first() else {
        return join(alloc, &[b"{le=\"", bound, b"\"}"]);
    };
    let first = label_text(alloc, first)?;
    let rest = more_labels(alloc, rest)?;
    join(alloc, &[b"{", &first, &rest, b",le=\"", bound, b"\"}"])
}

pub(crate) fn digits_of(alloc: Global, number: u64) -> Result<Vec<u8>, AllocError>
    ensures { IfOk result (λ text. text.items ≡ decimal number) }
{
    let mut buffer = Buffer::new();
    Vec::from_slice(alloc, buffer.format(number).as_bytes())
}

// The six digits of a number below 1,000,000.
fn six_digits(alloc: Global, number: u64) -> Result<Vec<u8>, AllocError>
    requires { number < 1000000 }
    ensures { IfOk result (λ text. text.items ≡ six_digits number) }
{
    let mut buffer = Buffer::new();
    let digits = buffer.format(1_000_000 + number).as_bytes();
    match digits.split_first() {
        Some((_, six)) => Vec::from_slice(alloc, six),
        None => Ok(Vec::new(alloc)),
    }
}

// Microseconds as seconds.
fn seconds(alloc: Global, micros: u64) -> Result<Vec<u8>, AllocError>
    ensures { IfOk result (λ text. text.items ≡ seconds micros) }
{
    let whole = digits_of(alloc, micros / 1_000_000)?;
    let rest = six_digits(alloc, micros % 1_000_000)?;
    join(alloc, &[&whole, b".", &rest])
}

fn number_text(alloc: Global, number: Number) -> Result<Vec<u8>, AllocError>
    ensures { IfOk result (λ text. text.items ≡ number_text number) }
{
    match number {
        Number::Whole(count) => digits_of(alloc, count),
        Number::Micros(micros) => seconds(alloc, micros),
    }
}

fn kind_text(kind: Kind) -> &'static str
    ensures { result.now ≡ kind_text kind }
{
    match kind {
        Kind::Counter => "counter",
        Kind::Gauge => "gauge",
    }
}

// A line: the name of a sample, its labels and its number.
fn line(alloc: Global, name: &[u8], labels: &[u8], number: &[u8]) -> Result<Vec<u8>, AllocError>
    ensures { IfOk result (λ text. text.items ≡ line name.now labels.now number.now) }
{
    join(alloc, &[name, labels, b" ", number, b"\n"])
}

fn sample_line(alloc: Global, name: &str, sample: &Sample<'_>) -> Result<Vec<u8>, AllocError>
    ensures { IfOk result (λ text. text.items ≡ sample_line name.now sample.now) }
{
    let labels = labels_text(alloc, sample.labels())?;
    let number = number_text(alloc, sample.number())?;
    line(alloc, name.as_bytes(), &labels, &number)
}

fn sample_lines(alloc: Global, name: &str, samples: &[Sample<'_>]) -> Result<Vec<u8>, AllocError>
    ensures { IfOk result (λ text. text.items ≡ flat_map (sample_line name.now) samples.now) }
{
    let mut text = Vec::new(alloc);
    for sample in samples {
        let line = sample_line(alloc, name, sample)?;
        text.extend_from_slice(&line)?;
    }
    Ok(text)
}

// The head of a family or of a histogram.
fn head(alloc: Global, name: &str, help: &str, kind: &str) -> Result<Vec<u8>, AllocError>
    ensures { IfOk result (λ text. text.items ≡ head name.now help.now kind.now) }
{
    let help = escaped(alloc, false, help)?;
    let name = name.as_bytes();
    let kind = kind.as_bytes();
    join(
        alloc,
        &[
            b"# HELP ",
            name,
            b" ",
            &help,
            b"\n# TYPE ",
            name,
            b" ",
            kind,
            b"\n",
        ],
    )
}

fn family_text(alloc: Global, family: &Family<'_>) -> Result<Vec<u8>, AllocError>
    ensures { IfOk result (λ text. text.items ≡ family_text family.now) }
{
    let kind = kind_text(family.kind());
    let mut text = head(alloc, family.name(), family.help(), kind)?;
    let lines = sample_lines(alloc, family.name(), family.samples())?;
    text.extend_from_slice(&lines)?;
    Ok(text)
}

fn family_texts(alloc: Global, families: &[Family<'_>]) -> Result<Vec<u8>, AllocError>
    ensures { IfOk result (λ text. text.items ≡ flat_map family_text families.now) }
{
    let mut text = Vec::new(alloc);
    for family in families {
        let one = family_text(alloc, family)?;
        text.extend_from_slice(&one)?;
    }
    Ok(text)
}

// The line of a bucket: how many were at most its bound.
fn bucket_line(
    alloc: Global,
    name: &str,
    labels: &[Label<'_>],
    bound: &[u8],
    count: u64,
) -> Result<Vec<u8>, AllocError>
    ensures { IfOk result (λ text. text.items ≡ bucket_line name.now labels.now bound.now count) }
{
    let labels = bucket_labels(alloc, labels, bound)?;
    let count = digits_of(alloc, count)?;
    let name = name.as_bytes();
    join(alloc, &[name, b"_bucket", &labels, b" ", &count, b"\n"])
}

// The line of a bucket with a bound.
fn bounded_line(
    alloc: Global,
    name: &str,
    labels: &[Label<'_>],
    bound: u64,
    count: u64,
) -> Result<Vec<u8>, AllocError>
    ensures { IfOk result (λ text. text.items ≡ bucket_line name.now labels.now (seconds bound) count) }
{
    let bound = seconds(alloc, bound)?;
    bucket_line(alloc, name, labels, &bound, count)
}

// The lines of the buckets with bounds, and how many they count together.
fn bucket_lines(
    alloc: Global,
    name: &str,
    labels: &[Label<'_>],
    buckets: &[Bucket],
) -> Result<(Vec<u8>, u64), AllocError>
    ensures lines { IfOk result (λ r. r.0.items ≡ bucket_lines name.now labels.now 0 buckets.now) }
    ensures count { IfOk result (λ r. r.1 ≡ counted 0 buckets.now) }
{
    let mut text = Vec::new(alloc);
    let mut count = 0u64;
    for bucket in buckets {
        count = count.saturating_add(bucket.count());
        let line = bounded_line(alloc, name, labels, bucket.bound(), count)?;
        text.extend_from_slice(&line)?;
    }
    Ok((text, count))
}

// The lines of the sum and of the count.
fn ends_text(
    alloc: Global,
    name: &str,
    spread: &Spread<'_>,
    all: u64,
) -> Result<Vec<u8>, AllocError>
    ensures { IfOk result (λ text. text.items ≡ ends_text name.now spread.now all) }
{
    let labels = labels_text(alloc, spread.labels())?;
    let sum = seconds(alloc, spread.sum())?;
    let all = digits_of(alloc, all)?;
    let name = name.as_bytes();
    join(
        alloc,
        &[
            name, b"_sum", &labels, b" ", &sum, b"\n", name, b"_count", &labels, b" ", &all, b"\n",
        ],
    )
}

fn spread_lines(alloc: Global, name: &str, spread: &Spread<'_>) -> Result<Vec<u8>, AllocError>
    ensures { IfOk result (λ text. text.items ≡ spread_lines name.now spread.now) }
{
    let bounded = bucket_lines(alloc, name, spread.labels(), spread.buckets())?;
    let all = bounded.1.saturating_add(spread.over());
    let last = bucket_line(alloc, name, spread.labels(), b"+Inf", all)?;
    let ends = ends_text(alloc, name, spread, all)?;
    join(alloc, &[&bounded.0, &last, &ends])
}

fn spread_texts(alloc: Global, name: &str, spreads: &[Spread<'_>]) -> Result<Vec<u8>, AllocError>
    ensures { IfOk result (λ text. text.items ≡ flat_map (spread_lines name.now) spreads.now) }
{
    let mut text = Vec::new(alloc);
    for spread in spreads {
        let one = spread_lines(alloc, name, spread)?;
        text.extend_from_slice(&one)?;
    }
    Ok(text)
}

fn histogram_text(alloc: Global, histogram: &Histogram<'_>) -> Result<Vec<u8>, AllocError>
    ensures { IfOk result (λ text. text.items ≡ histogram_text histogram.now) }
{
    let mut text = head(alloc, histogram.name(), histogram.help(), "histogram")?;
    let lines = spread_texts(alloc, histogram.name(), histogram.spreads())?;
    text.extend_from_slice(&lines)?;
    Ok(text)
}

fn histogram_texts(alloc: Global, histograms: &[Histogram<'_>]) -> Result<Vec<u8>, AllocError>
    ensures { IfOk result (λ text. text.items ≡ flat_map histogram_text histograms.now) }
{
    let mut text = Vec::new(alloc);
    for histogram in histograms {
        let one = histogram_text(alloc, histogram)?;
        text.extend_from_slice(&one)?;
    }
    Ok(text)
}

/// The text of families, and after them of histograms, as Prometheus reads it (version 0.0.4): each
/// with its head, and then a line for each sample. Values of labels and sentences are escaped;
/// microseconds stand as seconds; each bucket counts those of the buckets before it too, the last
/// all.
///
/// # Errors
///
/// Out of memory.
pub fn render(
    alloc: Global,
    families: &[Family<'_>],
    histograms: &[Histogram<'_>],
) -> Result<Vec<u8>, AllocError>
    ensures { IfOk result (λ text. text.items ≡ page_text families.now histograms.now) }
{
    let mut text = family_texts(alloc, families)?;
    let more = histogram_texts(alloc, histograms)?;
    text.extend_from_slice(&more)?;
    Ok(text)
}
