//! Families of samples, as values, from whatever source: so their text is defined apart from who
//! counts. Times are whole microseconds, since a sum of floats would have no exact text.
ghost use Rattle.std.specs.Prelude.{◌≡◌};

use std::marker::Model;

/// What a family counts.
#[derive(Clone, Copy, Debug, PartialEq, Eq, Drop)]
pub enum Kind {
    /// What only rises while its server lives; its name ends with `_total`.
    Counter,
    /// What rises and falls.
    Gauge,
}

/// A number of a sample.
#[derive(Clone, Copy, Debug, PartialEq, Eq, Drop)]
pub enum Number {
    /// A count, or bytes.
    Whole(u64),
    /// Microseconds, printed as seconds.
    Micros(u64),
}

/// A label of a sample. Its name is a name of letters, digits and `_`, other than `le`.
#[derive(Drop)]
pub struct Label<'a> {
    name: &'a str,
    value: &'a str,
}

impl<'a> Model for Label<'a> {
    ghost use Rattle.druid_telemetry_metrics.specs.Text as specs;

    ghost Value = { specs.Label };

    ghost view = { λ a. record { name = a.name.now; value = a.value.now } };
}

impl<'a> Label<'a> {
    /// The label of that name and that value.
    pub fn new(name: &'a str, value: &'a str) -> Label<'a>
        ensures { result ≡ record { name = name.now; value = value.now } }
    {
        Label { name, value }
    }

    /// Its name.
    pub fn name(&self) -> &str
        ensures { result.now ≡ self.now.name }
    {
        self.name
    }

    /// Its value.
    pub fn value(&self) -> &str
        ensures { result.now ≡ self.now.value }
    {
        self.value
    }
}

/// A number with labels, no two of one name.
#[derive(Drop)]
pub struct Sample<'a> {
    labels: Vec<Label<'a>>,
    number: Number,
}

impl<'a> Model for Sample<'a> {
    ghost use Rattle.druid_telemetry_metrics.specs.Text as specs;

    ghost Value = { specs.Sample };

    ghost view = { λ a. record { labels = a.labels.items; number = a.number } };
}

impl<'a> Sample<'a> {
    /// The sample of these labels.
    pub fn new(labels: Vec<Label<'a>>, number: Number) -> Sample<'a>
        ensures { result ≡ record { labels = labels.entry.items; number = number } }
    {
        Sample { labels, number }
    }

    /// Its labels, in order.
    pub fn labels(&self) -> &[Label<'a>]
        ensures { result.now ≡ self.now.labels }
    {
        self.labels.as_slice()
    }

    /// Its number.
    pub fn number(&self) -> Number
        ensures { result ≡ self.now.number }
    {
        self.number
    }
}

/// What is reported of one thing: each sample has other labels.
#[derive(Drop)]
pub struct Family<'a> {
    name: &'a str,
    help: &'a str,
    kind: Kind,
    samples: Vec<Sample<'a>>,
}

impl<'a> Model for Family<'a> {
    ghost use Rattle.druid_telemetry_metrics.specs.Text as specs;

    ghost Value = { specs.Family };

    ghost view = { λ a. record { name = a.name.now; help = a.help.now; kind = a.kind; samples = a.samples.items } };
}

impl<'a> Family<'a> {
    /// The family of these samples.
    pub fn new(name: &'a str, help: &'a str, kind: Kind, samples: Vec<Sample<'a>>) -> Family<'a>
        ensures { result ≡ record { name = name.now; help = help.now; kind = kind; samples = samples.entry.items } }
    {
        Family {
            name,
            help,
            kind,
            samples,
        }
    }

    /// Its name.
    pub fn name(&self) -> &str
        ensures { result.now ≡ self.now.name }
    {
        self.name
    }

    /// What it is, in a sentence.
    pub fn help(&self) -> &str
        ensures { result.now ≡ self.now.help }
    {
        self.help
    }

    /// What it counts.
    pub fn kind(&self) -> Kind
        ensures { result ≡ self.now.kind }
    {
        self.kind
    }

    /// Its samples, in order.
    pub fn samples(&self) -> &[Sample<'a>]
        ensures { result.now ≡ self.now.samples }
    {
        self.samples.as_slice()
    }
}

/// How often something took at most so many microseconds, and longer than the bucket before it says.
#[derive(Clone, Copy, Debug, PartialEq, Eq, Drop)]
pub struct Bucket {
    bound: u64,
    count: u64,
}

impl Model for Bucket {
    ghost use Rattle.druid_telemetry_metrics.specs.Text as specs;

    ghost Value = { specs.Bucket };

    ghost view = { λ a. record { bound = a.bound; count = a.count } };

    ghost inverse = { λ b. record { bound = b.bound; count = b.count } };
}

impl Bucket {
    /// The bucket of that bound.
    pub fn new(bound: u64, count: u64) -> Bucket
        ensures { result ≡ record { bound = bound; count = count } }
    {
        Bucket { bound, count }
    }

    /// Its bound, in microseconds.
    pub fn bound(&self) -> u64
        ensures { result ≡ self.now.bound }
    {
        self.bound
    }

    /// How often.
    pub fn count(&self) -> u64
        ensures { result ≡ self.now.count }
    {
        self.count
    }
}

/// How long something took: its buckets by rising bounds, how often it took longer than the last, and the sum in microseconds.
#[derive(Drop)]
pub struct Spread<'a> {
    labels: Vec<Label<'a>>,
    buckets: Vec<Bucket>,
    over: u64,
    sum: u64,
}

impl<'a> Model for Spread<'a> {
    ghost use Rattle.druid_telemetry_metrics.specs.Text as specs;

    ghost Value = { specs.Spread };

    ghost view = { λ a. record { labels = a.labels.items; buckets = a.buckets.items; over = a.over; sum = a.sum } };
}

impl<'a> Spread<'a> {
    /// The spread of these buckets.
    pub fn new(labels: Vec<Label<'a>>, buckets: Vec<Bucket>, over: u64, sum: u64) -> Spread<'a>
        ensures { result ≡ record { labels = labels.entry.items; buckets = buckets.items; over = over; sum = sum } }
    {
        Spread {
            labels,
            buckets,
            over,
            sum,
        }
    }

    /// Its labels, in order.
    pub fn labels(&self) -> &[Label<'a>]
        ensures { result.now ≡ self.now.labels }
    {
        self.labels.as_slice()
    }

    /// Its buckets, in order.
    pub fn buckets(&self) -> &[Bucket]
        ensures { result.now ≡ self.now.buckets }
    {
        self.buckets.as_slice()
    }

    /// How often it took longer than the last bound.
    pub fn over(&self) -> u64
        ensures { result ≡ self.now.over }
    {
        self.over
    }

    /// How long it took together, in microseconds.
    pub fn sum(&self) -> u64
        ensures { result ≡ self.now.sum }
    {
        self.sum
    }
}

/// What is reported of how long one thing took: each spread has other labels.
#[derive(Drop)]
pub struct Histogram<'a> {
    name: &'a str,
    help: &'a str,
    spreads: Vec<Spread<'a>>,
}

impl<'a> Model for Histogram<'a> {
    ghost use Rattle.druid_telemetry_metrics.specs.Text as specs;

    ghost Value = { specs.Histogram };

    ghost view = { λ a. record { name = a.name.now; help = a.help.now; spreads = a.spreads.items } };
}

impl<'a> Histogram<'a> {
    /// The histogram of these spreads.
    pub fn new(name: &'a str, help: &'a str, spreads: Vec<Spread<'a>>) -> Histogram<'a>
        ensures { result ≡ record { name = name.now; help = help.now; spreads = spreads.entry.items } }
    {
        Histogram {
            name,
            help,
            spreads,
        }
    }

    /// Its name.
    pub fn name(&self) -> &str
        ensures { result.now ≡ self.now.name }
    {
        self.name
    }

    /// What it is, in a sentence.
    pub fn help(&self) -> &str
        ensures { result.now ≡ self.now.help }
    {
        self.help
    }

    /// Its spreads, in order.
    pub fn spreads(&self) -> &[Spread<'a>]
        ensures { result.now ≡ self.now.spreads }
    {
        self.spreads.as_slice()
    }
}
