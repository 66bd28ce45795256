ghost use Rattle.std.specs.Prelude.{◌≡◌};
ghost use Rattle.druid_time.specs.Granularity.{bucket_length};

/// How long the buckets are that instants fall into.
#[derive(Clone, Copy, Debug, PartialEq, Eq, Drop)]
pub enum Granularity {
    /// One bucket with all instants.
    All,
    /// Buckets of a second.
    Second,
    /// Buckets of a minute.
    Minute,
    /// Buckets of an hour.
    Hour,
    /// Buckets of a day.
    Day,
}

impl Granularity {
    /// The milliseconds of a bucket.
    ///
    /// # Errors
    ///
    /// None of `All` alone.
    pub fn length(self) -> Option<u64>
        ensures { result ≡ bucket_length self }
    {
        match self {
            Granularity::All => None,
            Granularity::Second => Some(1_000),
            Granularity::Minute => Some(60_000),
            Granularity::Hour => Some(3_600_000),
            Granularity::Day => Some(86_400_000),
        }
    }
}
