//! Links to data nodes of this process.
ghost use Rattle.std.specs.Prelude.{◌≡◌, ◌≤◌, ◌⊎◌, ℕ, List, IfOk, IfErr, length};
ghost use Rattle.druid_segment_descriptor.specs.Reply.{max_page};
ghost use Rattle.druid_link.specs.Limits.{max_exchange};
ghost use Rattle.druid_http_wire.specs.Limits.{max_body};
ghost use Rattle.druid_http_wire.specs.Messages.{IsRequest};
ghost use Rattle.druid_http_wire.specs.Written.{answer_text};
ghost use Rattle.druid_node.specs.Routes.{RespondsInTurn};
ghost use Rattle.druid_laws_tests.specs.Exchanges.{IsAnswered};

use druid_http_message::{Request, WireFault};
use druid_http_wire::{MAX_BODY, read_request, write_response};
use druid_link::{Link, MAX_EXCHANGE};
use druid_node::NodeState;
use http::StatusCode;
use std::alloc::Global;
use std::marker::Model;

/// A link to a data node that one message carries. A contract sees the node's state, which no exchange changes.
#[derive(Drop)]
pub struct NodeLink {
    state: NodeState,
}

impl Model for NodeLink {
    ghost use Rattle.std.specs.Prelude.{◌≤◌, length};
    ghost use Rattle.druid_segment_descriptor.specs.Reply.{max_page};
    ghost use Rattle.druid_node.specs.State.{State};

    ghost Value = { State };

    ghost view = { λ a. a.state };

    ghost invariant = { λ a. length a.state.history.set ≤ max_page };
}

impl NodeLink {
    /// A link to this node.
    pub fn new(state: NodeState) -> NodeLink
        requires { length state.history.set ≤ max_page }
        ensures { result ≡ state }
    {
        NodeLink { state }
    }
}

impl Link for NodeLink {
    ghost use Rattle.druid_laws_tests.specs.Exchanges.{ExchangesWithNode};

    ghost exchanges = { ExchangesWithNode };

    ghost faults = { λ link. 0 };

    fn exchange(&mut self, alloc: Global, request: &[u8]) -> Result<Vec<u8>, WireFault> {
        let text = answer_to(alloc, &mut self.state, request)?;
        if MAX_EXCHANGE < text.len() {
            return Err(WireFault::BodyTooLong);
        }
        Ok(text)
    }

    fn hasten(&mut self, _millis: Option<u64>) {}

    fn faults(&self) -> u64 {
        0
    }
}

// The text of an answer.
fn text_of(alloc: Global, status: StatusCode, body: &[u8]) -> Result<Vec<u8>, WireFault>
    ensures ok { IfOk result (λ text. text.items ≡ answer_text status body.now) }
    ensures fault { IfErr result (λ fault. fault ≡ WireFault.Memory) }
{
    let mut text = Vec::new(alloc);
    match write_response(status, body, &mut text) {
        Ok(()) => Ok(text),
        Err(_) => Err(WireFault::Memory),
    }
}

// What a node answers to a request.
fn response_to(
    alloc: Global,
    state: &mut NodeState,
    request: &Request,
) -> Result<Vec<u8>, WireFault>
    requires { length state.old.history.set ≤ max_page }
    ensures ok { IfOk result (λ text. (status : ℕ) × (body : List ℕ)
        × RespondsInTurn state.old state.old request.now status body × (text.items ≡ answer_text status body)) }
    ensures same { state.new ≡ state.old }
    ensures fault { IfErr result (λ fault. fault ≡ WireFault.Memory) }
{
    match state.respond(request) {
        Ok(answer) => text_of(alloc, answer.0, &answer.1),
        Err(_) => Err(WireFault::Memory),
    }
}

// What a node answers to the request that these bytes begin with. `BodyTooLong` where they are no request, which no counted fault
// tells.
fn answer_to(alloc: Global, state: &mut NodeState, bytes: &[u8]) -> Result<Vec<u8>, WireFault>
    requires { length state.old.history.set ≤ max_page }
    ensures ok { IfOk result (λ text. IsAnswered state.old bytes.now text.items) }
    ensures same { state.new ≡ state.old }
    ensures fault { IfErr result (λ fault. (fault ≡ WireFault.BodyTooLong) ⊎ (fault ≡ WireFault.Memory)) }
{
    if MAX_BODY < bytes.len() {
        return Err(WireFault::BodyTooLong);
    }
    let mut reader = bytes;
    match read_request(alloc, &mut reader) {
        Ok(request) => response_to(alloc, state, &request),
        Err(_) => Err(WireFault::BodyTooLong),
    }
}
