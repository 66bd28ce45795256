ghost use Rattle.std.specs.Prelude.{◌≤◌, IfOk};
ghost use Rattle.serde_json.specs.Data.{depth};
ghost use Rattle.serde_json.specs.Read.{max_depth};
ghost use Rattle.serde_json.specs.View.{view};
ghost use Rattle.druid_base.specs.Json.{IsParsed};

use crate::JsonFault;
use serde_json::Value;
use std::alloc::Global;
use std::str;

/// The value of bytes that are JSON in UTF-8; it nests at most 127 deep.
///
/// # Errors
///
/// `NotJson` of bytes that are none. `Memory`, of bytes in UTF-8 alone, may come in its place:
/// parsing allocates as it goes.
pub fn parse_json(alloc: Global, bytes: &[u8]) -> Result<Value, JsonFault>
    ensures parsed { IsParsed bytes.now result }
    ensures nests { IfOk result (λ v. depth (view v) ≤ max_depth) }
{
    match Value::from_slice(alloc, bytes) {
        Ok(value) => Ok(value),
        Err(error) => {
            if error.is_memory() && str::from_utf8(bytes).is_ok() {
                Err(JsonFault::Memory)
            } else {
                Err(JsonFault::NotJson)
            }
        }
    }
}
