//! Answers of nodes, read.
ghost use Rattle.std.specs.Prelude.{◌≡◌, List, Some, IsSome, IfOk, IfSome, IfNone};
ghost use Rattle.serde_json.specs.View.{view, items_view};
ghost use Rattle.druid_base.specs.Each.{each_of};
ghost use Rattle.druid_query.specs.Asked.{Asked, asked_at};
ghost use Rattle.druid_partial.specs.Groups.{Group};
ghost use Rattle.druid_partial.specs.Partials.{kinds_of};
ghost use Rattle.druid_partial_text.specs.Borrowed.{AreRows};
ghost use Rattle.druid_partial_text.specs.Answers.{ListsAnswer, IsAnswer, IsAnswerOf};
ghost use Rattle.druid_partial_text.specs.Missed.{AreLists, BothReport};

use crate::missing::{are_pieces, missing_in};
use crate::partial_reader::{partial_in, rows_in};
use crate::whole_answer::answer_in_form;
use crate::{NodeAnswer, PartialFault};
use druid_base::{JsonFault, list_field, parse_json};
use druid_query::SubQuery;
use serde_json::Value;
use std::alloc::{AllocError, Global};

// The lists of an answer, each of whose members reads.
#[derive(Drop)]
struct Listed<'a> {
    missing: &'a [Value],
    rows: &'a [Value],
}

// Does not allocate.
#[tactic(auto, using(crate::proofs::MissedLemmas::no_missing, crate::proofs::MissedLemmas::no_rows, crate::proofs::MissedLemmas::no_pieces, crate::proofs::MissedLemmas::other_rows, crate::proofs::MissedLemmas::lists_read))]
fn listed_in<'a>(sub: &SubQuery, value: &'a Value) -> Option<Listed<'a>>
    ensures some { IfSome result (λ l. AreLists sub.now (view value.now) (items_view l.missing.now) (items_view l.rows.now)) }
    ensures none { IfNone result (ListsAnswer sub.now (view value.now) → ⊥) }
{
    let missing = list_field(value, "missing")?;
    let rows = value.get("rows")?;
    if !are_pieces(sub.query().source(), missing) {
        return None;
    }
    let rows = rows_in(sub.query(), rows)?;
    Some(Listed { missing, rows })
}

// The answer that the lists tell. None where a piece was not asked for, or a key stands twice.
#[tactic(auto, using(crate::proofs::MissedLemmas::none_missed, crate::proofs::MissedLemmas::none_reported))]
fn answer_in(
    alloc: Global,
    sub: &SubQuery,
    missing: &[Value],
    rows: &[Value],
) -> Result<Option<NodeAnswer>, AllocError>
    requires pieces { IsSome (each_of (asked_at sub.now.query.source) (items_view missing.now)) }
    requires rows { AreRows sub.now.query (items_view rows.now) }
    ensures kinds { IfOk result (λ read. IfSome read (λ a. a.partial.kinds ≡ kinds_of sub.now.query)) }
    ensures both { IfOk result (λ read. IfSome read
        (λ a. BothReport sub.now (items_view missing.now) (items_view rows.now) a.missing a.partial.groups)) }
    ensures none { IfOk result (λ read. IfNone read ((pieces : List Asked) (groups : List Group)
        → BothReport sub.now (items_view missing.now) (items_view rows.now) pieces groups → ⊥)) }
{
    let Some(pieces) = missing_in(alloc, sub, missing)? else {
        return Ok(None);
    };
    let Some(partial) = partial_in(alloc, sub.query(), rows)? else {
        return Ok(None);
    };
    Ok(Some(NodeAnswer::new(partial, pieces)))
}

/// The answer of a node that a value is.
///
/// # Errors
///
/// P2 where the value has another shape than `node_answer_text` writes, `read_partial` refuses its
/// rows as P2, or a piece that it lists as missing was not asked for. P9 last, but for two rows of
/// one key and for a piece that was not asked for.
#[tactic(auto, using(crate::proofs::MissedLemmas::no_lists, crate::proofs::MissedLemmas::lists_answer, crate::proofs::MissedLemmas::not_both, crate::proofs::MissedLemmas::both_reported))]
pub fn answer_of(alloc: Global, sub: &SubQuery, value: &Value) -> Result<NodeAnswer, PartialFault>
    ensures { IsAnswer sub.now (view value.now) result }
{
    let Some(listed) = listed_in(sub, value) else {
        return Err(PartialFault::Shape);
    };
    match answer_in(alloc, sub, listed.missing, listed.rows) {
        Ok(Some(answer)) => Ok(answer),
        Ok(None) => Err(PartialFault::Shape),
        Err(_) => Err(PartialFault::Memory),
    }
}

/// Reads the answer of a node to a query.
///
/// # Errors
///
/// P1; then those of `answer_of`. Parsing allocates as it goes: of bytes in UTF-8 P9 may come in
/// place of any. An answer that misses nothing and stands as it is written takes no tree.
pub fn read_node_answer(
    alloc: Global,
    sub: &SubQuery,
    bytes: &[u8],
) -> Result<NodeAnswer, PartialFault>
    ensures { IsAnswerOf sub.now bytes.now result }
{
    match answer_in_form(alloc, sub, bytes) {
        Ok(Some(answer)) => return Ok(answer),
        Ok(None) => {}
        Err(_) => return Err(PartialFault::Memory),
    }
    match parse_json(alloc, bytes) {
        Ok(value) => answer_of(alloc, sub, &value),
        Err(JsonFault::NotJson) => Err(PartialFault::NotJson),
        Err(JsonFault::Memory) => Err(PartialFault::Memory),
    }
}
