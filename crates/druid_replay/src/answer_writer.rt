//! Answers, written as they are made.
ghost use Rattle.std.specs.Prelude.{◌++◌, OnOk, OnErr};
ghost use Rattle.std.specs.Io.KnownBytes.{Appends};
ghost use Rattle.serde_json.specs.Written.{compact_text, comma_if};
ghost use Rattle.druid_stream.specs.Fronts.{AppendsFront};
ghost use Rattle.druid_replay.specs.Answers.{piece_data, line_text};
ghost use Rattle.druid_replay.specs.declared.answer.CommandAnswer.TheVariants.{Found};

use crate::answer::{CommandAnswer, answer_line};
use crate::pieces::piece_text;
use druid_stream::write_text;
use druid_timeline::Piece;
use std::alloc::{AllocError, Global};
use std::io;
use std::io::Write;

// Writes the text of a piece, after a comma where another stands before it.
fn write_piece<W: Write>(
    alloc: Global,
    piece: &Piece,
    later: bool,
    writer: &mut W,
) -> io::Result<()>
    ensures ok { OnOk result (Appends (W.contents writer.old) (W.contents writer.new)
        (comma_if later ++ compact_text (piece_data piece.now))) }
    ensures err { OnErr result (AppendsFront (W.contents writer.old) (W.contents writer.new)
        (comma_if later ++ compact_text (piece_data piece.now))) }
{
    let text = piece_text(alloc, piece, later)?;
    write_text(writer, &text)
}

// Writes the line of the pieces that were found, with memory for one at a time.
fn write_pieces<W: Write>(alloc: Global, pieces: &[Piece], writer: &mut W) -> io::Result<()>
    ensures ok { OnOk result
        (Appends (W.contents writer.old) (W.contents writer.new) (line_text (Found pieces.now))) }
    ensures err { OnErr result (AppendsFront (W.contents writer.old) (W.contents writer.new)
        (line_text (Found pieces.now))) }
{
    write_text(writer, b"{\"pieces\":[")?;
    for i in 0..pieces.len() {
        write_piece(alloc, &pieces[i], 0 < i, writer)?;
    }
    write_text(writer, b"]}\n")
}

/// Writes the line of an answer. Where the writer fails or memory runs out, the writer has got some front of the line,
/// and not the whole.
pub fn write_answer<W: Write>(
    alloc: Global,
    answer: &CommandAnswer,
    writer: &mut W,
) -> io::Result<()>
    ensures ok { OnOk result
        (Appends (W.contents writer.old) (W.contents writer.new) (line_text answer.now)) }
    ensures err { OnErr result
        (AppendsFront (W.contents writer.old) (W.contents writer.new) (line_text answer.now)) }
{
    if let CommandAnswer::Found(pieces) = answer {
        return write_pieces(alloc, pieces.as_slice(), writer);
    }
    let text = answer_line(alloc, answer)?;
    write_text(writer, text.as_bytes())
}
