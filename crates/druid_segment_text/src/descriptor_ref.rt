//! Descriptors, read out of JSON.
ghost use Rattle.std.specs.Prelude.{◌≡◌, ◌≢◌, true, IfOk, IfSome, option_map};
ghost use Rattle.serde_json.specs.View.{view};
ghost use Rattle.druid_segment_descriptor.specs.Described.{IsWholeChunk};
ghost use Rattle.druid_segment_text.specs.Json.{descriptor_at, segment_at, place_at, interval_at, source_at, version_at, flag_at, tombstone_at, Gives};

use crate::{ShardFault, SharedTexts};
use druid_base::{limited_field, number_field, text_field};
use druid_segment_descriptor::{Descriptor, MAX_CORE, Shard};
use druid_segment_id::{Name, SegmentId, Version};
use druid_time::Interval;
use serde_json::Value;
use std::alloc::{AllocError, Global};
use std::marker::Model;

// The shard spec: an object, then its type, then its two numbers.
#[tactic(auto, unfolding(crate::specs::Json::place_at))]
fn shard_field(value: &Value) -> Result<Shard, ShardFault>
    ensures read { Gives result (place_at (view value.now)) }
    ensures memory { result ≢ Err ShardFault.Memory }
{
    let Some(spec) = value.get("shardSpec") else {
        return Err(ShardFault::BadShard);
    };
    if !spec.is_object() {
        return Err(ShardFault::BadShard);
    }
    if text_field(spec, "type") != Some("numbered") {
        return Err(ShardFault::ShardType);
    }
    let Some(partition) = limited_field(spec, "partitionNum", u16::MAX) else {
        return Err(ShardFault::BadShard);
    };
    let Some(core) = limited_field(spec, "partitions", MAX_CORE) else {
        return Err(ShardFault::BadShard);
    };
    Shard::new(partition, core).ok_or(ShardFault::BadShard)
}

// The interval, in any form in which one is read.
fn interval_field(value: &Value) -> Option<Interval>
    ensures { result ≡ interval_at (view value.now) }
{
    Interval::parse(text_field(value, "interval")?).ok()
}

// The name of the data source.
fn source_field(value: &Value) -> Option<&str>
    ensures { option_map (λ s. s.now) result ≡ source_at (view value.now) }
{
    let text = text_field(value, "dataSource")?;
    if Name::accepts(text) {
        Some(text)
    } else {
        None
    }
}

fn version_field(value: &Value) -> Option<&str>
    ensures { option_map (λ s. s.now) result ≡ version_at (view value.now) }
{
    let text = text_field(value, "version")?;
    if Version::accepts(text) {
        Some(text)
    } else {
        None
    }
}

// What the value at `tombstone` says: absent, null and false are one.
fn flag(value: Option<&Value>) -> Option<bool>
    ensures { result ≡ flag_at (option_map (λ v. view v.now) value.entry) }
{
    match value {
        None | Some(Value::Null) => Some(false),
        Some(value) => value.as_bool(),
    }
}

/// A descriptor that a JSON value is, with texts that are borrowed from it.
///
/// A contract sees the descriptor.
#[derive(Drop)]
pub struct DescriptorRef<'a> {
    source: &'a str,
    interval: Interval,
    version: &'a str,
    shard: Shard,
    size: u64,
    tombstone: bool,
}

impl<'a> Model for DescriptorRef<'a> {
    ghost use Rattle.std.specs.Prelude.{◌≡◌, true};
    ghost use Rattle.druid_segment_descriptor.specs.Described.{Described, IsWholeChunk};

    ghost Value = { Described };

    ghost view = { λ a. record {
      id = record { source = a.source.now; interval = a.interval; version = a.version.now; partition = a.shard.partition };
      core = a.shard.core;
      size = a.size;
      tombstone = a.tombstone;
    } };

    ghost invariant = { λ a. a.tombstone ≡ true → (a.shard.partition ≡ 0) × (a.shard.core ≡ 1) × (a.size ≡ 0) };
}

// The descriptor but for its flag.
#[tactic(auto, unfolding(crate::specs::Json::segment_at))]
fn segment_of(value: &Value) -> Result<DescriptorRef<'_>, ShardFault>
    ensures read { Gives result (segment_at (view value.now)) }
    ensures memory { result ≢ Err ShardFault.Memory }
{
    let Some(source) = source_field(value) else {
        return Err(ShardFault::BadField("dataSource"));
    };
    let Some(interval) = interval_field(value) else {
        return Err(ShardFault::BadField("interval"));
    };
    let Some(version) = version_field(value) else {
        return Err(ShardFault::BadField("version"));
    };
    let Some(size) = number_field(value, "size") else {
        return Err(ShardFault::BadField("size"));
    };
    match shard_field(value) {
        Ok(shard) => Ok(DescriptorRef {
            source,
            interval,
            version,
            shard,
            size,
            tombstone: false,
        }),
        Err(fault) => Err(fault),
    }
}

// Whether it is a tombstone. None where the flag is none, or stands at a segment that cannot be one.
fn tombstone_field(value: &Value, segment: &DescriptorRef<'_>) -> Option<bool>
    ensures flag { result ≡ tombstone_at segment.now (view value.now) }
    ensures whole { IfSome result (λ flag. flag ≡ true → IsWholeChunk segment.now) }
{
    if !flag(value.get("tombstone"))? {
        return Some(false);
    }
    let shard = segment.shard;
    if shard.partition() == 0 && shard.core() == 1 && segment.size == 0 {
        Some(true)
    } else {
        None
    }
}

impl<'a> DescriptorRef<'a> {
    /// The descriptor that a value is. Does not allocate.
    ///
    /// # Errors
    ///
    /// Those of `read_descriptor` but S9.
    #[tactic(auto, unfolding(crate::specs::Json::descriptor_at))]
    pub fn of(value: &'a Value) -> Result<DescriptorRef<'a>, ShardFault>
        ensures read { Gives result (descriptor_at (view value.now)) }
        ensures memory { result ≢ Err ShardFault.Memory }
    {
        let mut descriptor = match segment_of(value) {
            Ok(segment) => segment,
            Err(fault) => return Err(fault),
        };
        match tombstone_field(value, &descriptor) {
            Some(tombstone) => {
                descriptor.tombstone = tombstone;
                Ok(descriptor)
            }
            None => Err(ShardFault::BadTombstone),
        }
    }

    /// A copy, which shares its name and its version with those that were copied before.
    ///
    /// # Errors
    ///
    /// Out of memory. `texts` may be used again.
    pub fn to_owned_in(&self, texts: &mut SharedTexts<'a>) -> Result<Descriptor, AllocError>
        ensures { IfOk result (λ copy. copy ≡ self.now) }
    {
        let source = texts.name(self.source)?;
        let version = texts.version(self.version)?;
        let id = SegmentId::new(source, self.interval, version, self.shard.partition());
        if self.tombstone {
            let Some(tombstone) = Descriptor::tombstone(id) else {
                unreachable!()
            };
            return Ok(tombstone);
        }
        let Some(segment) = Descriptor::new(id, self.shard.core(), self.size) else {
            unreachable!()
        };
        Ok(segment)
    }
}

/// Reads a descriptor. Other keys are passed over.
///
/// # Errors
///
/// S3 for `dataSource`, `interval`, `version` and `size`, in this order; then S2 where `shardSpec`
/// is no object, S1 where its `type` is not `numbered`, and S2 where its numbers are out of range;
/// then S4 where `tombstone` is neither a boolean nor null, or is true with another partition than
/// 0, core count than 1 or size than 0. S9 last.
pub fn read_descriptor(alloc: Global, value: &Value) -> Result<Descriptor, ShardFault>
    ensures { Gives result (descriptor_at (view value.now)) }
{
    let descriptor = match DescriptorRef::of(value) {
        Ok(descriptor) => descriptor,
        Err(fault) => return Err(fault),
    };
    match descriptor.to_owned_in(&mut SharedTexts::new(alloc)) {
        Ok(descriptor) => Ok(descriptor),
        Err(AllocError) => Err(ShardFault::Memory),
    }
}
