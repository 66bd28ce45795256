//! Requests, served.
ghost use Rattle.std.specs.Prelude.{◌≡◌, ◌≢◌, ◌⊎◌, ℕ, List, Some, IfOk, IfErr, OnOk, OnErr};
ghost use Rattle.std.specs.Io.KnownBytes.{Keeps};
ghost use Rattle.std.specs.declared.cmp.Ordering.TheVariants.{Greater};
ghost use Rattle.druid_segment_descriptor.specs.Mark.{Point, mark_cmp};
ghost use Rattle.druid_http_message.specs.declared.fault.WireFault.{WireFault};
ghost use Rattle.druid_http_wire.specs.Served.{refusal_text, IsSent, IsCutShort};
ghost use Rattle.druid_node.specs.Seen.{IsStale, AnswersFrom, AnswersSince, IsServedAsSeen, IsPassedBy, IsUnserved};

use crate::{DataNode, Incarnation, NodeFault};
use druid_http_message::{Request, WireFault};
use druid_http_wire::{read_request, refuse_request, send_response};
use druid_segment_descriptor::Mark;
use std::io::{BufRead, Write};
use std::sync::Wait;
use std::thread::Threads;

// Answers where no request was read.
fn refuse_unread<W: Write>(fault: WireFault, writer: &mut W) -> Result<u16, NodeFault>
    ensures ok { IfOk result (λ sent. (text : List ℕ) × (refusal_text fault ≡ Some text)
        × IsSent (W.contents writer.old) (W.contents writer.new) 400 text sent) }
    ensures err { IfErr result (λ given. (reported : WireFault) × (given ≡ NodeFault.Wire reported)
        × (((reported ≡ fault) × (refusal_text fault ≡ None) × Keeps (W.contents writer.old) (W.contents writer.new))
        ⊎ ((text : List ℕ) × (refusal_text fault ≡ Some text)
        × IsCutShort (W.contents writer.old) (W.contents writer.new) 400 text reported))) }
{
    match refuse_request(fault, writer) {
        Ok(status) => Ok(status),
        Err(reported) => Err(NodeFault::Wire(reported)),
    }
}

impl<I: Incarnation> DataNode<I> {
    // Answers a request.
    fn serve<R: Wait + Threads, W: Write>(
        &self,
        rt: &R,
        request: &Request,
        writer: &mut W,
        seen: &mut Mark,
    ) -> Result<u16, NodeFault>
        ensures ok { IfOk result (λ sent. (status : ℕ) × (body : List ℕ) × AnswersFrom I.number seen.old seen.new request.now status body
            × IsSent (W.contents writer.old) (W.contents writer.new) status body sent) }
        ensures risen { OnOk result (mark_cmp seen.old seen.new ≢ Greater) }
        ensures err { IfErr result (λ given.
            ((found : Point) × IsStale I.number found seen.old × (given ≡ NodeFault.Stale found) × (W.contents writer.new ≡ W.contents writer.old))
            ⊎ ((reported : WireFault) × (given ≡ NodeFault.Wire reported) × (status : ℕ) × (body : List ℕ) × AnswersSince I.number seen.old request.now status body
            × IsCutShort (W.contents writer.old) (W.contents writer.new) status body reported)) }
        ensures unseen { OnErr result (seen.new ≡ seen.old) }
    {
        let answered = match self.respond(rt, request, *seen) {
            Ok(answered) => answered,
            Err(fault) => return Err(fault),
        };
        match send_response(&answered.response, writer) {
            Ok(status) => {
                *seen = answered.mark;
                Ok(status)
            }
            Err(fault) => Err(NodeFault::Wire(fault)),
        }
    }

    /// Reads a request and writes the answer, and gives the status that was written: what
    /// `NodeState::respond` answers in a state that is not older than what was seen, or 500 and
    /// `{"error":"Memory"}` where memory runs out for that; and it sees that state's mark. An ask
    /// for all of more than 20,000 segments and tombstones freezes these, as `NodeState::since`
    /// does, and is answered page 0 of them. X4 to X7 of the request are answered 400 with their
    /// number, and nothing is seen. Nothing is flushed.
    ///
    /// # Errors
    ///
    /// N5 with X1, X2 or X9 where no request was read, and nothing is written; then N8, and nothing
    /// is written, and the reader stands after the request; then N5 with X3 or X9 of the writer,
    /// which has some front of the answer, and not the whole, and the set that was asked for may be
    /// frozen. Leaves `seen`.
    pub fn serve_one<R: BufRead, W: Write>(
        &self,
        rt: &(impl Wait + Threads),
        reader: &mut R,
        writer: &mut W,
        seen: &mut Mark,
    ) -> Result<u16, NodeFault>
        ensures ok { IfOk result (IsServedAsSeen I.number seen.old seen.new (R.remaining reader.old) (R.remaining reader.new) (W.contents writer.old) (W.contents writer.new)) }
        ensures risen { OnOk result (mark_cmp seen.old seen.new ≢ Greater) }
        ensures err { IfErr result (λ fault.
            IsPassedBy I.number seen.old (R.remaining reader.old) (R.remaining reader.new) (W.contents writer.old) (W.contents writer.new) fault
            ⊎ IsUnserved I.number seen.old (R.remaining reader.old) (R.remaining reader.new) (W.contents writer.old) (W.contents writer.new) fault) }
        ensures unseen { OnErr result (seen.new ≡ seen.old) }
    {
        match read_request(self.alloc(), reader) {
            Ok(request) => self.serve(rt, &request, writer, seen),
            Err(fault) => refuse_unread(fault, writer),
        }
    }
}
