//! Configs, read.
ghost use Rattle.std.specs.Prelude.{◌≤◌, IfOk, OnErr, IsUtf8};
ghost use Rattle.serde_json.specs.Data.{depth};
ghost use Rattle.serde_json.specs.Read.{max_depth};
ghost use Rattle.serde_json.specs.View.{view};
ghost use Rattle.druid_serve_config.specs.Configs.{config_at};
ghost use Rattle.druid_serve_config.specs.Read.{Gives, IsReadOf, IsFoundIn};

use crate::builder::build_config;
use crate::field_rules::bad_field_of;
use crate::{BadField, Config, ConfigFault};
use druid_base::{JsonFault, parse_json};
use serde_json::Value;
use std::alloc::{AllocError, Global};

/// Reads a config. The value nests at most 127 deep, as each that was read out of a text does.
/// Other keys are passed over.
///
/// # Errors
///
/// `Refused` where the value is none; `Memory` last.
pub fn config_of(alloc: Global, value: &Value) -> Result<Config, ConfigFault>
    requires { depth (view value.now) ≤ max_depth }
    ensures { Gives result (config_at (view value.now)) }
{
    if bad_field_of(value).is_some() {
        return Err(ConfigFault::Refused);
    }
    match build_config(alloc, value) {
        Ok(config) => Ok(config),
        Err(AllocError) => Err(ConfigFault::Memory),
    }
}

/// Reads a config out of a text.
///
/// # Errors
///
/// `Refused` where the bytes are no JSON in UTF-8, or the value is no config. Parsing allocates as
/// it goes: of bytes in UTF-8 `Memory` may come in its place.
pub fn read_config(alloc: Global, bytes: &[u8]) -> Result<Config, ConfigFault>
    ensures { IsReadOf bytes.now result }
{
    match parse_json(alloc, bytes) {
        Ok(value) => config_of(alloc, &value),
        Err(JsonFault::NotJson) => Err(ConfigFault::Refused),
        Err(JsonFault::Memory) => Err(ConfigFault::Memory),
    }
}

/// The first field of bytes that is wrong, as `bad_field_of` finds it; None exactly where they are
/// a config.
///
/// # Errors
///
/// Out of memory, of bytes in UTF-8 alone.
pub fn bad_field_in(alloc: Global, bytes: &[u8]) -> Result<Option<BadField>, AllocError>
    ensures found { IfOk result (IsFoundIn bytes.now) }
    ensures memory { OnErr result (IsUtf8 bytes.now) }
{
    match parse_json(alloc, bytes) {
        Ok(value) => Ok(bad_field_of(&value)),
        Err(JsonFault::NotJson) => Ok(Some(BadField::Json)),
        Err(JsonFault::Memory) => Err(AllocError),
    }
}
