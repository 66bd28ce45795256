//! Partials and results, written.
ghost use Rattle.std.specs.Prelude.{◌≡◌, ◌++◌, Some, All, IfOk, OnOk, string_bytes};
ghost use Rattle.serde_json.specs.Read.{read};
ghost use Rattle.druid_partial_text.specs.Written.{group_data, partial_data, partial_text, IsHeld};
ghost use Rattle.druid_partial_text.specs.Tokens.{tokens_of};

use crate::tokens::{push_numbers, push_values, text_of};
use druid_partial::{Group, Partial};
use json::Writer;
use std::alloc::{AllocError, Global};

// The bytes that a text starts with room for.
pub(crate) const FIRST_ROOM: usize = 128;

// Writes a group of a partial.
#[tactic(auto, using(crate::proofs::TokenLemmas::group_written))]
fn push_group(out: &mut Writer, group: &Group) -> Result<(), AllocError>
    ensures ok { OnOk result (out.new.tokens ≡ out.old.tokens ++ tokens_of (group_data group.now)) }
    ensures before { out.new.before ≡ out.old.before }
    ensures held { OnOk result (IsHeld group.now) }
{
    out.begin_array()?;
    out.i64(group.bucket().ms())?;
    push_values(out, group.values())?;
    push_numbers(out, group.numbers())?;
    out.end_array()
}

// Writes the groups of a partial.
#[tactic(auto, using(crate::proofs::TokenLemmas::group_next, crate::proofs::TokenLemmas::groups_first, crate::proofs::TokenLemmas::groups_last))]
pub(crate) fn push_groups(out: &mut Writer, groups: &[Group]) -> Result<(), AllocError>
    ensures ok { OnOk result (out.new.tokens ≡ out.old.tokens ++ tokens_of (partial_data groups.now)) }
    ensures before { out.new.before ≡ out.old.before }
    ensures held { OnOk result (All IsHeld groups.now) }
{
    out.begin_array()?;
    for group in groups {
        push_group(out, group)?;
    }
    out.end_array()
}

/// The text of a partial: a list of `[ms,[text or null, ..],[number or null, ..]]`, in the order of a result, each with the
/// first instant of its bucket, and with the values and the numbers in the order of the query.
///
/// # Errors
///
/// Out of memory.
#[tactic(auto, using(crate::proofs::TokenLemmas::partial_printed, crate::proofs::TextBackLemmas::partial_read))]
pub fn partial_text(alloc: Global, partial: &Partial) -> Result<String, AllocError>
    ensures text { IfOk result (λ text. string_bytes text ≡ partial_text partial.now.groups) }
    ensures read_back { IfOk result (λ text. read (string_bytes text) ≡ Some (partial_data partial.now.groups)) }
{
    let mut out = Writer::new(Vec::with_capacity(alloc, FIRST_ROOM)?);
    push_groups(&mut out, partial.groups())?;
    Ok(text_of(out))
}
