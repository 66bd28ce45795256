//! Identifiers read from texts.
ghost use Rattle.std.specs.Prelude.{◌≡◌, ◌≤◌, length, IfSome, IfOk, option_map};
ghost use Rattle.std.specs.List.{position_or_len};
ghost use Rattle.druid_time.specs.Extent.{IsExtent};
ghost use Rattle.druid_segment_id.specs.Identifier.{IsIdentifier};
ghost use Rattle.druid_segment_id.specs.Names.{IsVersion};
ghost use Rattle.druid_segment_id.specs.Parsed.{is_underscore, rest_at, tail_at, printed_at, interval_at, version_at, partition_number, partition_at, identifier_at, Gives};

use crate::{IdFault, Name, SegmentId, Version};
use druid_base::number_of;
use druid_time::{Instant, Interval};
use std::alloc::Global;
use std::str;

// The bytes of a printed instant.
const INSTANT: usize = 24;

// Where the version begins, after two instants and two `_`.
const VERSION: usize = 50;

// What follows the source and `_`.
#[tactic(auto, unfolding(crate::specs::Parsed::rest_at))]
fn rest_of<'a>(source: &str, text: &'a [u8]) -> Option<&'a [u8]>
    ensures { option_map (λ rest. rest.now) result ≡ rest_at source.now text.now }
{
    let beyond = text.strip_prefix(source.as_bytes())?;
    beyond.strip_prefix(b"_")
}

// What follows the interval.
#[tactic(auto, using(crate::proofs::ParsedLemmas::tail_facts), unfolding(crate::specs::Parsed::tail_at))]
fn tail_of(rest: &[u8]) -> Option<&[u8]>
    ensures value { option_map (λ tail. tail.now) result ≡ tail_at rest.now }
    ensures long { IfSome result (λ tail. 51 ≤ length rest.now) }
{
    if rest.len() <= VERSION {
        return None;
    }
    if rest[INSTANT] != b'_' || rest[VERSION - 1] != b'_' {
        return None;
    }
    Some(&rest[VERSION..])
}

// The instant whose printed form this is.
#[tactic(auto, using(crate::proofs::ParsedLemmas::instant_facts))]
fn instant_of(printed: &[u8]) -> Option<Instant>
    requires { length printed.now ≡ 24 }
    ensures { result ≡ printed_at printed.now }
{
    let Ok(text) = str::from_utf8(printed) else {
        return None;
    };
    Instant::parse(text).ok()
}

// The interval between the two instants.
#[tactic(auto, unfolding(crate::specs::Parsed::interval_at))]
fn interval_of(rest: &[u8]) -> Option<Interval>
    requires { 51 ≤ length rest.now }
    ensures value { result ≡ interval_at rest.now }
    ensures valid { IfSome result IsExtent }
{
    let start = instant_of(&rest[..INSTANT])?;
    let end = instant_of(&rest[INSTANT + 1..VERSION - 1])?;
    Interval::new(start, end)
}

// Where the first `_` stands, or else how long the text is.
#[tactic(auto, using(crate::proofs::ParsedLemmas::place_facts))]
fn underscore_place(text: &[u8]) -> usize
    ensures within { result ≤ length text.now }
    ensures place { result ≡ position_or_len is_underscore text.now }
{
    for (place, byte) in text.iter().enumerate() {
        if *byte == b'_' {
            return place;
        }
    }
    text.len()
}

// The version ends before the next `_`.
#[tactic(auto, using(crate::proofs::ParsedLemmas::version_facts), unfolding(crate::specs::Parsed::version_at))]
fn version_of(tail: &[u8]) -> Option<&str>
    ensures value { option_map (λ version. version.now) result ≡ version_at tail.now }
    ensures valid { IfSome result (λ version. IsVersion version.now) }
{
    let Ok(version) = str::from_utf8(&tail[..underscore_place(tail)]) else {
        return None;
    };
    if Version::accepts(version) {
        Some(version)
    } else {
        None
    }
}

// The number of a partition, from 1 to 65,535, that prints as these digits.
#[tactic(auto, unfolding(crate::specs::Parsed::partition_number))]
fn partition_number(digits: &[u8]) -> Option<u16>
    ensures { result ≡ partition_number digits.now }
{
    let number = number_of(digits)?;
    if 1 <= number && number < 65_536 {
        Some(number as u16)
    } else {
        None
    }
}

// The partition follows the version and `_`. Without these it is 0.
#[tactic(auto, using(crate::proofs::ParsedLemmas::partition_facts))]
fn partition_of(tail: &[u8]) -> Option<u16>
    ensures { result ≡ partition_at tail.now }
{
    let place = underscore_place(tail);
    if place == tail.len() {
        return Some(0);
    }
    partition_number(&tail[place + 1..])
}

impl SegmentId {
    /// The identifier of that source that the text spells.
    ///
    /// # Errors
    ///
    /// I3; then I4; then I5, unless it has an interval in the printed form; then I2; then I6; I9
    /// last.
    #[tactic(auto, unfolding(crate::specs::Parsed::identifier_at))]
    pub fn parse(alloc: Global, source: &Name, text: &str) -> Result<SegmentId, IdFault>
        ensures value { Gives result (identifier_at source.now text.now) }
        ensures valid { IfOk result IsIdentifier }
    {
        let Some(rest) = rest_of(source.as_str(), text.as_bytes()) else {
            return Err(IdFault::OtherSource);
        };
        let Some(tail) = tail_of(rest) else {
            return Err(IdFault::BadParts);
        };
        let Some(interval) = interval_of(rest) else {
            return Err(IdFault::BadInterval);
        };
        let Some(version) = version_of(tail) else {
            return Err(IdFault::BadVersion);
        };
        let Some(partition) = partition_of(tail) else {
            return Err(IdFault::BadPartition);
        };
        let version = Version::copy_of(alloc, version)?;
        Ok(SegmentId::new(source.clone()?, interval, version, partition))
    }
}
