//! What a client gets where pieces are missing.
ghost use Rattle.std.specs.Prelude.{◌≡◌, ◌++◌, IfOk, OnOk, string_bytes};
ghost use Rattle.druid_partial_text.specs.Answers.{shortfall_of, shortfall_text};
ghost use Rattle.druid_partial_text.specs.Named.{rows_by};
ghost use Rattle.druid_partial.specs.Partials.{IsPartialFor};
ghost use Rattle.druid_partial_text.specs.Tokens.{tokens_of};

use crate::answer_writer::push_pieces;
use crate::partial_writer::FIRST_ROOM;
use crate::results::{ResultColumns, columns_of, push_rows};
use crate::tokens::text_of;
use druid_partial::Partial;
use druid_query::{Query, QueryType, SegmentSlice};
use json::Writer;
use std::alloc::{AllocError, Global};

fn push_shortfall(
    alloc: Global,
    out: &mut Writer,
    kind: QueryType,
    columns: &ResultColumns,
    missing: &[SegmentSlice],
    partial: &Partial,
) -> Result<(), AllocError>
    ensures ok { OnOk result (out.new.tokens ≡ out.old.tokens
        ++ tokens_of (shortfall_of missing.now (rows_by kind columns.now.entries partial.now.groups))) }
    ensures before { out.new.before ≡ out.old.before }
{
    out.begin_object()?;
    out.key("error")?;
    out.string("SegmentsMissing")?;
    out.key("missing")?;
    push_pieces(alloc, out, missing)?;
    out.key("partial")?;
    push_rows(out, kind, columns, partial.groups())?;
    out.end_object()
}

/// What a client gets where pieces are missing: `{"error":"SegmentsMissing","missing":[..],"partial":[..]}`, with the pieces
/// as in a query to a node, and the rows as `result_text` writes them.
///
/// # Errors
///
/// Out of memory.
#[tactic(auto, using(crate::proofs::ResultLemmas::shortfall_printed))]
pub fn shortfall_text(
    alloc: Global,
    query: &Query,
    missing: &[SegmentSlice],
    partial: &Partial,
) -> Result<String, AllocError>
    requires { IsPartialFor query.now partial.now }
    ensures { IfOk result (λ text. string_bytes text ≡ shortfall_text query.now missing.now partial.now.groups) }
{
    let columns = columns_of(alloc, query)?;
    let mut out = Writer::new(Vec::with_capacity(alloc, FIRST_ROOM)?);
    push_shortfall(alloc, &mut out, query.kind(), &columns, missing, partial)?;
    Ok(text_of(out))
}
