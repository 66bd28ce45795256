//! Which instants label the buckets of a query.
ghost use Rattle.std.specs.Prelude.{◌≡◌, ◌↔◌, IsTrue};
ghost use Rattle.druid_query.specs.Query.{Query};
ghost use Rattle.druid_partial.specs.Partials.{earliest, IsBucketOf};
ghost use Rattle.druid_partial.specs.First.{joined, first_of};

use druid_query::Query;
use druid_time::{Instant, Interval};

// The earlier of an instant that was found, if one was, and another one.
fn earlier(found: Option<Instant>, start: Instant) -> Option<Instant>
    ensures { result ≡ joined found start }
{
    match found {
        Some(instant) if instant <= start => Some(instant),
        _ => Some(start),
    }
}

// The earliest instant of intervals, if there are any.
#[tactic(auto, using(crate::proofs::BucketLemmas::first_next))]
fn first_of(intervals: &[Interval]) -> Option<Instant>
    ensures { result ≡ first_of intervals.now }
{
    let mut first = None;
    for interval in intervals {
        first = earlier(first, interval.start());
    }
    first
}

/// The earliest instant that a query asks for.
#[tactic(auto, using(crate::proofs::BucketLemmas::first_there, crate::proofs::BucketLemmas::query_asks, crate::proofs::BucketLemmas::not_none))]
pub fn earliest(query: &Query) -> Instant
    ensures { result ≡ earliest query.now.intervals }
{
    // Known of each query: it asks for some interval.
    let _ = query.kind();
    let Some(first) = first_of(query.intervals()) else {
        unreachable!()
    };
    first
}

/// Whether an instant labels a bucket of a query, whose earliest instant is given.
pub fn is_bucket(query: &Query, first: Instant, label: Instant) -> bool
    requires { first ≡ earliest query.now.intervals }
    ensures { IsTrue result ↔ IsBucketOf query.now label }
{
    match label.bucket(query.granularity()) {
        Some(bucket) => bucket == label,
        None => first == label,
    }
}
