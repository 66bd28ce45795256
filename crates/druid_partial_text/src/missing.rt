//! The pieces that an answer of a node lists as missing.
ghost use Rattle.std.specs.Prelude.{◌≡◌, ◌↔◌, List, Some, IsSome, IsTrue, is_some, IfOk, IfSome, IfNone, Contains};
ghost use Rattle.std.specs.BTreeSet.{contains};
ghost use Rattle.std.specs.List.{list_all};
ghost use Rattle.serde_json.specs.View.{view, items_view};
ghost use Rattle.druid_base.specs.Each.{each_of};
ghost use Rattle.druid_query.specs.Asked.{Asked, asked_at};
ghost use Rattle.druid_query.specs.SubQuery.{SubQuery};
ghost use Rattle.druid_query.specs.PieceOrder.{piece_cmp};
ghost use Rattle.druid_partial_text.specs.Missed.{AreMissed};

use crate::piece_ref::PieceRef;
use druid_query::{SegmentSlice, SubQuery};
use druid_query_slice_text::{is_asked, read_asked};
use druid_segment_id::Name;
use serde_json::Value;
use std::alloc::{AllocError, Global};
use std::collections::BTreeSet;

// Whether each is a piece of a segment of the source. Does not allocate.
pub(crate) fn are_pieces(source: &Name, values: &[Value]) -> bool
    ensures { result ≡ list_all (λ value. is_some (asked_at source.now (view value))) values.now }
{
    values.iter().all(|value| is_asked(source, value))
}

// The pieces.
#[tactic(auto, using(crate::proofs::MissedLemmas::piece_reads, crate::proofs::MissedLemmas::pieces_more, crate::proofs::MissedLemmas::pieces_last))]
fn pieces_in(
    alloc: Global,
    source: &Name,
    values: &[Value],
) -> Result<Vec<SegmentSlice>, AllocError>
    requires { IsSome (each_of (asked_at source.now) (items_view values.now)) }
    ensures { IfOk result (λ all. each_of (asked_at source.now) (items_view values.now) ≡ Some all.items) }
{
    let mut all = Vec::with_capacity(alloc, values.len())?;
    for value in values {
        let Some(piece) = read_asked(alloc, source, value)? else {
            unreachable!()
        };
        all.push(piece)?;
    }
    Ok(all)
}

// These pieces, in order.
fn in_order<'a>(
    alloc: Global,
    asked: &'a [SegmentSlice],
) -> Result<BTreeSet<PieceRef<'a>>, AllocError>
    ensures { IfOk result (λ pieces. (a : Asked) → IsTrue (contains piece_cmp pieces a) ↔ Contains asked.now a) }
{
    let mut pieces = BTreeSet::new(alloc);
    for piece in asked {
        pieces.insert(PieceRef::of(piece))?;
    }
    Ok(pieces)
}

// Whether each of the missing pieces was asked for. Those that were asked for are put in order, if any is missing, and each
// that is missing is looked up there.
#[tactic(auto, using(crate::proofs::MissedLemmas::among_none))]
fn were_asked<'a>(
    alloc: Global,
    asked: &'a [SegmentSlice],
    missing: &'a [SegmentSlice],
) -> Result<bool, AllocError>
    ensures { IfOk result (λ were. IsTrue were ↔ ((a : Asked) → Contains missing.now a → Contains asked.now a)) }
{
    if missing.is_empty() {
        return Ok(true);
    }
    let pieces = in_order(alloc, asked)?;
    for piece in missing {
        if !pieces.contains(&PieceRef::of(piece)) {
            return Ok(false);
        }
    }
    Ok(true)
}

// The pieces that are listed as missing. None where one was not asked for.
#[tactic(auto, using(crate::proofs::MissedLemmas::missed, crate::proofs::MissedLemmas::not_missed))]
pub(crate) fn missing_in(
    alloc: Global,
    sub: &SubQuery,
    values: &[Value],
) -> Result<Option<Vec<SegmentSlice>>, AllocError>
    requires { IsSome (each_of (asked_at sub.now.query.source) (items_view values.now)) }
    ensures some { IfOk result (λ read. IfSome read (λ v. AreMissed sub.now (items_view values.now) v.items)) }
    ensures none { IfOk result (λ read. IfNone read
        ((missing : List Asked) → AreMissed sub.now (items_view values.now) missing → ⊥)) }
{
    let missing = pieces_in(alloc, sub.query().source(), values)?;
    if were_asked(alloc, sub.asked(), &missing)? {
        Ok(Some(missing))
    } else {
        Ok(None)
    }
}
