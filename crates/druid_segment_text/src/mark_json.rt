ghost use Rattle.std.specs.Prelude.{◌≡◌, IfOk};
ghost use Rattle.serde_json.specs.View.{view};
ghost use Rattle.druid_segment_descriptor.specs.Mark.{IsWord};
ghost use Rattle.druid_segment_text.specs.Json.{mark_data};

use druid_segment_descriptor::Mark;
use serde_json::{Value, json};
use std::alloc::{AllocError, Global};

/// The JSON of a mark: its count as `counter`, and its incarnation as `hash`.
///
/// # Errors
///
/// Out of memory.
#[tactic(auto, unfolding(crate::specs::Json::mark_data))]
pub fn mark_value(alloc: Global, mark: Mark) -> Result<Value, AllocError>
    ensures value { IfOk result (λ v. view v ≡ mark_data mark) }
    ensures words { IfOk result (λ _. IsWord mark) }
{
    json!(in alloc; {
        "counter": mark.count(),
        "hash": mark.incarnation(),
    })
}
