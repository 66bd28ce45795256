//! How long the answer to a query may take.
ghost use Rattle.std.specs.Prelude.{◌≡◌, None, IfOk, IfErr, IsTrue, IsUtf8, option_and_then, codes};
ghost use Rattle.serde_json.specs.Data.{Data};
ghost use Rattle.serde_json.specs.Find.{get};
ghost use Rattle.serde_json.specs.View.{view};
ghost use Rattle.druid_base.specs.Json.{ReadsAs};
ghost use Rattle.druid_base.specs.Fields.{number_at};
ghost use Rattle.druid_query_context.specs.Timeouts.{timeout_at, timeout_in, may_say_timeout, stands_in, some_time};

use druid_base::{JsonFault, number_field, parse_json};
use serde_json::Value;
use std::alloc::{AllocError, Global};

const BACKSLASH: u8 = b'\\';

// Whether a word begins somewhere in a text.
fn stands_in(word: &[u8], text: &[u8]) -> bool
    ensures { result ≡ stands_in word.now text.now }
{
    let mut rest = text;
    while let Some((_, after)) = rest.split_first() {
        if rest.starts_with(word) {
            return true;
        }
        rest = after;
    }
    false
}

// Whether a text may have a key `timeout`. Most have none, and need not be parsed for it.
fn may_say_timeout(text: &[u8]) -> bool
    ensures { result ≡ may_say_timeout text.now }
{
    stands_in(b"timeout", text) || text.contains(&BACKSLASH)
}

fn some_time(millis: u64) -> Option<u64>
    ensures { result ≡ some_time millis }
{
    if millis == 0 { None } else { Some(millis) }
}

#[tactic(auto, unfolding(crate::specs::Timeouts::timeout_at))]
fn timeout_at(value: &Value) -> Option<u64>
    ensures { result ≡ timeout_at (view value.now) }
{
    some_time(number_field(value.get("context")?, "timeout")?)
}

/// The milliseconds that a query leaves for its answer, at least 1: the whole number at `timeout`
/// in the object at `context`. `None` where the bytes are no JSON, or have no such number there, or
/// 0; and of a text that neither spells `timeout` nor has a backslash (that none of these has such
/// a key is not proved).
///
/// # Errors
///
/// Out of memory, only of bytes in UTF-8 that may have a timeout.
pub fn timeout_of(alloc: Global, bytes: &[u8]) -> Result<Option<u64>, AllocError>
    ensures read { IfOk result (λ timeout. (d : Data) → ReadsAs bytes.now d → timeout ≡ timeout_in bytes.now d) }
    ensures none { IfOk result (λ timeout. ((d : Data) → ReadsAs bytes.now d → ⊥) → timeout ≡ None) }
    ensures memory { IfErr result (λ _. IsUtf8 bytes.now × IsTrue (may_say_timeout bytes.now)) }
{
    if !may_say_timeout(bytes) {
        return Ok(None);
    }
    match parse_json(alloc, bytes) {
        Ok(value) => Ok(timeout_at(&value)),
        Err(JsonFault::NotJson) => Ok(None),
        Err(JsonFault::Memory) => Err(AllocError),
    }
}
