//! The fields of a config, read out of JSON. Nothing here allocates.
ghost use Rattle.std.specs.Prelude.{◌≡◌, ◌≤◌, IsTrue, IfSome, codes, option_map};
ghost use Rattle.serde_json.specs.View.{view};
ghost use Rattle.druid_segment_id.specs.Names.{is_name};
ghost use Rattle.druid_serve_config.specs.Configs.{network_at, address_at, another_at, name_at, tombstone_at, some_at, count_at, rest_at, patience_at, front_at, threads_at, is_endless, connections_at, place_at, object_at, IsRest, IsPatience};
ghost use Rattle.druid_serve_config.specs.Limits.{max_front, max_threads};
ghost use Rattle.druid_segment_text.specs.Json.{source_at, interval_at, version_at};

use crate::address::is_address;
use crate::limits::{MAX_COUNT, MAX_FRONT, MAX_PATIENCE, MAX_REST, MAX_THREADS, USUAL_PATIENCE};
use druid_base::{number_field, text_field};
use druid_segment_id::{Name, Version};
use druid_time::Interval;
use serde_json::Value;
use std::marker::Model;

// Whether addresses may be those of any machine, false where there is no such key.
pub(crate) fn network_field(value: &Value) -> Option<bool>
    ensures { result ≡ network_at (view value.now) }
{
    match value.get("network") {
        Some(there) => there.as_bool(),
        None => Some(false),
    }
}

// The address at a key: of this machine alone, or of any.
fn address_at<'a>(value: &'a Value, key: &str, network: bool) -> Option<&'a str>
    ensures { option_map (λ s. s.now) result ≡ address_at network key.now (view value.now) }
{
    let text = text_field(value, key)?;
    if is_address(network, text) {
        Some(text)
    } else {
        None
    }
}

// The address of a server.
pub(crate) fn address_field(value: &Value, network: bool) -> Option<&str>
    ensures { option_map (λ s. s.now) result ≡ address_at network (codes "address") (view value.now) }
{
    address_at(value, "address", network)
}

// Another address of a server, where there is such a key.
pub(crate) fn another_field<'a>(
    value: &'a Value,
    key: &str,
    network: bool,
) -> Option<Option<&'a str>>
    ensures { option_map (λ o. option_map (λ s. s.now) o) result ≡ another_at network key.now (view value.now) }
{
    let Some(_) = value.get(key) else {
        return Some(None);
    };
    let text = address_at(value, key, network)?;
    Some(Some(text))
}

// The name of a node.
pub(crate) fn name_field(value: &Value) -> Option<&str>
    ensures value { option_map (λ s. s.now) result ≡ name_at (view value.now) }
    ensures valid { IfSome result (λ s. IsTrue (is_name s.now)) }
{
    let text = text_field(value, "name")?;
    if Name::accepts(text) {
        Some(text)
    } else {
        None
    }
}

// The chunk that JSON names for a tombstone, with borrowed texts.
#[derive(Drop)]
pub(crate) struct NamedChunk<'a> {
    pub(crate) source: &'a str,
    pub(crate) interval: Interval,
    pub(crate) version: &'a str,
}

impl<'a> Model for NamedChunk<'a> {
    ghost use Rattle.druid_segment_id.specs.Identifier.{Identifier};

    ghost Value = { Identifier };

    ghost view = { λ a. record { source = a.source.now; interval = a.interval; version = a.version.now; partition = 0 } };
}

fn source_field(value: &Value) -> Option<&str>
    ensures { option_map (λ s. s.now) result ≡ source_at (view value.now) }
{
    let text = text_field(value, "dataSource")?;
    if Name::accepts(text) {
        Some(text)
    } else {
        None
    }
}

fn interval_field(value: &Value) -> Option<Interval>
    ensures { result ≡ interval_at (view value.now) }
{
    Interval::parse(text_field(value, "interval")?).ok()
}

fn version_field(value: &Value) -> Option<&str>
    ensures { option_map (λ s. s.now) result ≡ version_at (view value.now) }
{
    let text = text_field(value, "version")?;
    if Version::accepts(text) {
        Some(text)
    } else {
        None
    }
}

// The chunk of a tombstone.
#[tactic(auto, unfolding(crate::specs::Configs::tombstone_at))]
pub(crate) fn chunk_field(value: &Value) -> Option<NamedChunk<'_>>
    ensures { result ≡ tombstone_at (view value.now) }
{
    let source = source_field(value)?;
    let interval = interval_field(value)?;
    let version = version_field(value)?;
    Some(NamedChunk {
        source,
        interval,
        version,
    })
}

// The number at a key, where it is 1 at least and at most the limit.
pub(crate) fn some_field(value: &Value, key: &str, limit: u16) -> Option<u16>
    ensures value { result ≡ some_at limit key.now (view value.now) }
    ensures some { IfSome result (λ n. 1 ≤ n) }
    ensures few { IfSome result (λ n. n ≤ limit) }
{
    let number = number_field(value, key)?;
    if 1 <= number && number <= limit as u64 {
        Some(number as u16)
    } else {
        None
    }
}

// The number at a key, where it is at most 1,000,000.
pub(crate) fn count_field(value: &Value, key: &str) -> Option<u64>
    ensures { result ≡ count_at key.now (view value.now) }
{
    let number = number_field(value, key)?;
    if number <= MAX_COUNT {
        Some(number)
    } else {
        None
    }
}

// The rest in milliseconds at a key, 1 to 3,600,000, where there is such a key.
pub(crate) fn rest_field(value: &Value, key: &str) -> Option<Option<u64>>
    ensures value { result ≡ rest_at key.now (view value.now) }
    ensures rest { IfSome result (λ rest. IfSome rest IsRest) }
{
    let Some(_) = value.get(key) else {
        return Some(None);
    };
    let rest = number_field(value, key)?;
    if 1 <= rest && rest <= MAX_REST {
        Some(Some(rest))
    } else {
        None
    }
}

// The patience with nodes in milliseconds, 1 to 3,600,000, 30,000 where there is no such key.
pub(crate) fn patience_field(value: &Value) -> Option<u64>
    ensures value { result ≡ patience_at (view value.now) }
    ensures patience { IfSome result IsPatience }
{
    let Some(_) = value.get("patience") else {
        return Some(USUAL_PATIENCE);
    };
    let patience = number_field(value, "patience")?;
    if 1 <= patience && patience <= MAX_PATIENCE {
        Some(patience)
    } else {
        None
    }
}

// How many front threads a server has, at most 256, 0 where there is no such key.
pub(crate) fn front_field(value: &Value) -> Option<u16>
    ensures value { result ≡ front_at (view value.now) }
    ensures few { IfSome result (λ n. n ≤ max_front) }
{
    let Some(_) = value.get("front") else {
        return Some(0);
    };
    let front = number_field(value, "front")?;
    if front <= MAX_FRONT as u64 {
        Some(front as u16)
    } else {
        None
    }
}

// How many threads of a node count one query, 1 to 16, 1 where there is no such key.
pub(crate) fn threads_field(value: &Value) -> Option<u16>
    ensures value { result ≡ threads_at (view value.now) }
    ensures some { IfSome result (λ n. 1 ≤ n) }
    ensures few { IfSome result (λ n. n ≤ max_threads) }
{
    let Some(_) = value.get("threads") else {
        return Some(1);
    };
    some_field(value, "threads", MAX_THREADS)
}

// Whether a cluster does not end: `every` is there, and no `connections`.
pub(crate) fn is_endless(value: &Value) -> bool
    ensures { result ≡ is_endless (view value.now) }
{
    value.get("connections").is_none() && value.get("every").is_some()
}

// How many connections each broker answers before the end, 0 where there is none.
pub(crate) fn connections_field(value: &Value) -> Option<u64>
    ensures { result ≡ connections_at (view value.now) }
{
    if is_endless(value) {
        Some(0)
    } else {
        count_field(value, "connections")
    }
}

// The place of the broker that a query is for, where there are so many brokers.
pub(crate) fn place_field(value: &Value, brokers: usize) -> Option<usize>
    ensures { result ≡ place_at brokers (view value.now) }
{
    let broker = number_field(value, "broker")?;
    if broker < brokers as u64 {
        Some(broker as usize)
    } else {
        None
    }
}

// The JSON of a query.
pub(crate) fn object_field(value: &Value) -> Option<&Value>
    ensures { option_map (λ v. view v.now) result ≡ object_at (view value.now) }
{
    let query = value.get("query")?;
    if query.is_object() { Some(query) } else { None }
}
