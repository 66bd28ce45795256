//! Numbers in decimal digits: of partitions, asks, places, addresses and incarnations. A length of
//! HTTP may begin with zeros, so `druid_http_wire` reads its own.
ghost use Rattle.std.specs.Prelude.{◌≡◌};
ghost use Rattle.druid_base.specs.Numbers.{number_at};

use std::str;

// The number below 2^64 that prints as this text.
#[tactic(auto, using(crate::proofs::NumberLemmas::number_facts))]
fn number_in(digits: &str) -> Option<u64>
    ensures { result ≡ number_at digits.now }
{
    let Ok(number) = digits.parse::<u64>() else {
        return None;
    };
    let mut printed = itoa::Buffer::new();
    if printed.format(number) != digits {
        return None;
    }
    Some(number)
}

/// The number below 2^64 that prints as these bytes: decimal digits, none of them a leading zero.
/// Does not allocate.
///
/// # Errors
///
/// None where no number does.
#[tactic(auto, using(crate::proofs::NumberLemmas::text_facts))]
pub fn number_of(digits: &[u8]) -> Option<u64>
    ensures { result ≡ number_at digits.now }
{
    let Ok(digits) = str::from_utf8(digits) else {
        return None;
    };
    number_in(digits)
}
