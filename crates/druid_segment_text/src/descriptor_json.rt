//! Descriptors, written as JSON.
ghost use Rattle.std.specs.Prelude.{◌≡◌, false, true, IfOk};
ghost use Rattle.serde_json.specs.View.{view};
ghost use Rattle.druid_segment_text.specs.Json.{shard_data, flagged_data, descriptor_data};

use druid_segment_descriptor::Descriptor;
use serde_json::{Value, json, put};
use std::alloc::{AllocError, Global};

/// The JSON of a numbered shard spec.
///
/// # Errors
///
/// Out of memory.
pub fn shard_value(alloc: Global, descriptor: &Descriptor) -> Result<Value, AllocError>
    ensures { IfOk result (λ v. view v ≡ shard_data descriptor.now.id.partition descriptor.now.core) }
{
    json!(in alloc; {
        "partitionNum": descriptor.id().partition(),
        "partitions": descriptor.core(),
        "type": "numbered",
    })
}

// The JSON of an ordinary segment.
#[tactic(auto, unfolding(crate::specs::Json::flagged_data))]
fn segment_value(alloc: Global, descriptor: &Descriptor) -> Result<Value, AllocError>
    ensures { IfOk result (λ v. view v ≡ flagged_data false descriptor.now) }
{
    let id = descriptor.id();
    json!(in alloc; {
        "dataSource": id.source().as_str(),
        "interval": id.interval().text(alloc)?,
        "shardSpec": shard_value(alloc, descriptor)?,
        "size": descriptor.size(),
        "version": id.version().text(alloc)?,
    })
}

// The JSON of a tombstone.
#[tactic(auto, unfolding(crate::specs::Json::flagged_data))]
fn tombstone_value(alloc: Global, descriptor: &Descriptor) -> Result<Value, AllocError>
    ensures { IfOk result (λ v. view v ≡ flagged_data true descriptor.now) }
{
    match segment_value(alloc, descriptor)? {
        Value::Object(mut members) => {
            put(&mut members, alloc, "tombstone", Value::Bool(true))?;
            Ok(Value::Object(members))
        }
        _ => unreachable!(),
    }
}

/// The JSON of a descriptor: `dataSource`, `interval`, `shardSpec`, `size`, `"tombstone":true` where it is one, and
/// `version`.
///
/// # Errors
///
/// Out of memory.
pub fn descriptor_value(alloc: Global, descriptor: &Descriptor) -> Result<Value, AllocError>
    ensures { IfOk result (λ v. view v ≡ descriptor_data descriptor.now) }
{
    if descriptor.is_tombstone() {
        tombstone_value(alloc, descriptor)
    } else {
        segment_value(alloc, descriptor)
    }
}
