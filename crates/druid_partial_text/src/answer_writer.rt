//! Answers of nodes, written.
ghost use Rattle.std.specs.Prelude.{◌≡◌, ◌++◌, Some, All, IfOk, OnOk, string_bytes};
ghost use Rattle.serde_json.specs.Data.{array};
ghost use Rattle.serde_json.specs.Read.{read};
ghost use Rattle.druid_query.specs.Asked.{asked_data};
ghost use Rattle.druid_query.specs.SubQuery.{pieces_data};
ghost use Rattle.druid_partial_text.specs.Answers.{answer_data, answer_text};
ghost use Rattle.druid_partial_text.specs.Missed.{IsOfSegment};
ghost use Rattle.druid_partial_text.specs.Tokens.{tokens_of};
ghost use Rattle.druid_partial_text.specs.Written.{IsHeld};

use crate::NodeAnswer;
use crate::partial_writer::{FIRST_ROOM, push_groups};
use crate::tokens::text_of;
use druid_query::SegmentSlice;
use json::Writer;
use std::alloc::{AllocError, Global};

// Writes a piece of a segment.
fn push_asked(alloc: Global, out: &mut Writer, asked: &SegmentSlice) -> Result<(), AllocError>
    ensures ok { OnOk result (out.new.tokens ≡ out.old.tokens ++ tokens_of (asked_data asked.now)) }
    ensures before { out.new.before ≡ out.old.before }
    ensures held { OnOk result (IsOfSegment asked.now) }
{
    let segment = asked.id();
    out.begin_object()?;
    out.key("chunk")?;
    out.string(segment.interval().text(alloc)?.as_str())?;
    out.key("itvl")?;
    out.string(asked.interval().text(alloc)?.as_str())?;
    out.key("part")?;
    out.u64(segment.partition() as u64)?;
    out.key("ver")?;
    out.string(segment.version().text(alloc)?.as_str())?;
    out.end_object()
}

/// Writes pieces of segments.
#[tactic(auto, using(crate::proofs::AnswerLemmas::piece_next, crate::proofs::AnswerLemmas::pieces_first, crate::proofs::AnswerLemmas::pieces_last))]
pub(crate) fn push_pieces(
    alloc: Global,
    out: &mut Writer,
    asked: &[SegmentSlice],
) -> Result<(), AllocError>
    ensures ok { OnOk result (out.new.tokens ≡ out.old.tokens ++ tokens_of (array (pieces_data asked.now))) }
    ensures before { out.new.before ≡ out.old.before }
    ensures held { OnOk result (All IsOfSegment asked.now) }
{
    out.begin_array()?;
    for piece in asked {
        push_asked(alloc, out, piece)?;
    }
    out.end_array()
}

// Writes an answer.
fn push_answer(alloc: Global, out: &mut Writer, answer: &NodeAnswer) -> Result<(), AllocError>
    ensures ok { OnOk result (out.new.tokens
        ≡ out.old.tokens ++ tokens_of (answer_data answer.now.missing answer.now.partial.groups)) }
    ensures before { out.new.before ≡ out.old.before }
    ensures pieces { OnOk result (All IsOfSegment answer.now.missing) }
    ensures groups { OnOk result (All IsHeld answer.now.partial.groups) }
{
    out.begin_object()?;
    out.key("missing")?;
    push_pieces(alloc, out, answer.missing())?;
    out.key("rows")?;
    push_groups(out, answer.partial().groups())?;
    out.end_object()
}

/// The text of an answer: `{"missing":[..],"rows":[..]}`, with the pieces that the node has not as in a query to it, and with
/// the rows as `partial_text` writes them.
///
/// # Errors
///
/// Out of memory.
#[tactic(auto, using(crate::proofs::AnswerLemmas::answer_printed, crate::proofs::AnswerTextLemmas::answer_read))]
pub fn node_answer_text(alloc: Global, answer: &NodeAnswer) -> Result<String, AllocError>
    ensures text { IfOk result (λ text. string_bytes text ≡ answer_text answer.now) }
    ensures read_back { IfOk result (λ text. read (string_bytes text)
        ≡ Some (answer_data answer.now.missing answer.now.partial.groups)) }
{
    let mut out = Writer::new(Vec::with_capacity(alloc, FIRST_ROOM)?);
    push_answer(alloc, &mut out, answer)?;
    Ok(text_of(out))
}
