//! What a node's state answers to requests.
ghost use Rattle.std.specs.Prelude.{◌≡◌, IfOk, IfErr, OnErr};
ghost use Rattle.druid_node.specs.State.{Freezes};
ghost use Rattle.druid_node.specs.Routes.{Responds};
ghost use Rattle.druid_node.specs.Questions.{IsBasisOf, IsOpen, IsUnmade};

use crate::basis::{Basis, answer_from};
use crate::question::{Question, question_of};
use crate::{NodeFault, NodeState};
use druid_http_message::Request;
use http::StatusCode;

impl NodeState {
    // What its answer to a question is made of. Out of memory leaves all as it was.
    pub(crate) fn basis_of(&mut self, question: Question) -> Result<Basis, NodeFault>
        ensures ok { IfOk result (IsBasisOf self.old self.new question) }
        ensures unmade { IfOk result (λ basis. IsUnmade basis → IsOpen question) }
        ensures stays { Freezes self.old self.new }
        ensures err { IfErr result (λ fault. fault ≡ NodeFault.Memory) }
        ensures open { OnErr result (IsOpen question) }
        ensures unchanged { OnErr result (self.new ≡ self.old) }
    {
        match question {
            Question::Settled(response) => Ok(Basis::Settled(response)),
            Question::Reply(ask) => match self.since(&ask) {
                Ok(reply) => Ok(Basis::Reply(reply)),
                Err(fault) => Err(fault),
            },
            Question::Answer(sub) => match self.share_held() {
                Ok(held) => Ok(Basis::Held(held, sub)),
                Err(fault) => Err(fault),
            },
        }
    }

    /// The status and the body that it answers to a request. `GET /status/health` is answered
    /// `true`; `GET /druid-internal/v1/segments` with what `since` tells, where the parameters
    /// spell an ask; `POST /druid/v2` and `POST /druid/v2/` with what `answer` tells, where the
    /// body reads as a subquery. What is not read so is answered 400 with the number of its fault,
    /// another method on these paths 405, and another path 404. Only an ask for all that is served
    /// may freeze that, as `since` does; no other answer changes anything.
    ///
    /// # Errors
    ///
    /// N9 (that only an answer which allocates meets it no clause says). The set that is served may
    /// be frozen then; all else is as it was.
    pub fn respond(&mut self, request: &Request) -> Result<(StatusCode, Vec<u8>), NodeFault>
        ensures ok { IfOk result (λ r. Responds self.old self.new request.now r.0 r.1.items) }
        ensures stays { Freezes self.old self.new }
        ensures err { IfErr result (λ fault. fault ≡ NodeFault.Memory) }
    {
        let question = match question_of(self.alloc(), request) {
            Ok(question) => question,
            Err(fault) => return Err(fault),
        };
        let basis = match self.basis_of(question) {
            Ok(basis) => basis,
            Err(fault) => return Err(fault),
        };
        let response = match answer_from(self.alloc(), basis) {
            Ok(response) => response,
            Err(fault) => return Err(fault),
        };
        match response.into_parts(self.alloc()) {
            Ok(parts) => Ok(parts),
            Err(_) => Err(NodeFault::Memory),
        }
    }
}
