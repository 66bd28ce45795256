//! Visible pieces, as JSON that is written a token at a time.
ghost use Rattle.std.specs.Prelude.{◌≡◌, ◌++◌, IfOk, OnOk};
ghost use Rattle.serde_json.specs.Written.{compact_text, comma_if};
ghost use Rattle.druid_segment_text.specs.Tokens.{tokens_of};
ghost use Rattle.druid_replay.specs.Answers.{parts_data, piece_data};

use druid_timeline::Piece;
use json::Writer;
use std::alloc::{AllocError, Global};

// The bytes that the text of a piece starts with room for.
const FIRST_ROOM: usize = 256;

// Writes the partitions of a piece.
#[tactic(auto, using(crate::proofs::TokenLemmas::part_next, crate::proofs::TokenLemmas::parts_first, crate::proofs::TokenLemmas::parts_last))]
fn push_parts(out: &mut Writer, parts: &[u16]) -> Result<(), AllocError>
    ensures ok { OnOk result (out.new.tokens ≡ out.old.tokens ++ tokens_of (parts_data parts.now)) }
    ensures before { out.new.before ≡ out.old.before }
{
    out.begin_array()?;
    for part in parts {
        out.u64(*part as u64)?;
    }
    out.end_array()
}

fn push_piece(alloc: Global, out: &mut Writer, piece: &Piece) -> Result<(), AllocError>
    ensures ok { OnOk result (out.new.tokens ≡ out.old.tokens ++ tokens_of (piece_data piece.now)) }
    ensures before { out.new.before ≡ out.old.before }
{
    let chunk = piece.key();
    out.begin_object()?;
    out.key("chunk")?;
    out.string(chunk.interval().text(alloc)?.as_str())?;
    out.key("interval")?;
    out.string(piece.interval().text(alloc)?.as_str())?;
    out.key("parts")?;
    push_parts(out, piece.parts())?;
    out.key("version")?;
    out.string(chunk.version().text(alloc)?.as_str())?;
    out.end_object()
}

fn comma(later: bool) -> &'static [u8]
    ensures { result.now ≡ comma_if later }
{
    if later { b"," } else { b"" }
}

/// The text of a piece, after a comma where another stands before it.
#[tactic(auto, using(crate::proofs::TokenLemmas::piece_printed))]
pub(crate) fn piece_text(alloc: Global, piece: &Piece, later: bool) -> Result<Vec<u8>, AllocError>
    ensures { IfOk result (λ text. text.items ≡ comma_if later ++ compact_text (piece_data piece.now)) }
{
    let mut text = Vec::with_capacity(alloc, FIRST_ROOM)?;
    text.extend_from_slice(comma(later))?;
    let mut out = Writer::new(text);
    push_piece(alloc, &mut out, piece)?;
    Ok(out.into_inner())
}
