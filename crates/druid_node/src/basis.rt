//! What an answer is made of. No state is at hand where it is made.
ghost use Rattle.std.specs.Prelude.{◌≡◌, IfOk, IfErr, OnErr};
ghost use Rattle.druid_sync_text.specs.Back.{IsReadBack};
ghost use Rattle.druid_sync_text.specs.Written.{reply_text};
ghost use Rattle.druid_http_wire.specs.Served.{Reports};
ghost use Rattle.druid_partial_text.specs.Answers.{answer_text};
ghost use Rattle.druid_node.specs.Questions.{IsMadeOf, IsUnmade};

use crate::NodeFault;
use crate::answer::{answer_in_parts, answer_of};
use crate::held::Held;
use druid_http_wire::Response;
use druid_partial_text::{NodeAnswer, node_answer_text};
use druid_query::SubQuery;
use druid_segment_descriptor::Reply;
use druid_sync_text::reply_text;
use http::StatusCode;
use std::alloc::Global;
use std::sync::Arc;
use std::thread::Threads;

/// What a state gave for an answer.
#[derive(Drop)]
pub(crate) enum Basis {
    // The answer.
    Settled(Response),
    // The reply of its history.
    Reply(Reply),
    // The segments that it held, shared with it, and the subquery.
    Held(Arc<Held, Global>, SubQuery),
}

fn answer_with(alloc: Global, reply: &Reply) -> Result<Response, NodeFault>
    ensures ok { IfOk result (λ r. IsReadBack reply.now × Reports 200 (reply_text reply.now) r.status r.body) }
    ensures err { IfErr result (λ fault. fault ≡ NodeFault.Memory) }
{
    match reply_text(alloc, reply) {
        Ok(text) => Ok(Response::of_text(StatusCode::OK, text)),
        Err(_) => Err(NodeFault::Memory),
    }
}

// The response of an answer to a subquery.
fn answer_sub(alloc: Global, answer: &NodeAnswer) -> Result<Response, NodeFault>
    ensures ok { IfOk result (λ r. Reports 200 (answer_text answer.now) r.status r.body) }
    ensures err { IfErr result (λ fault. fault ≡ NodeFault.Memory) }
{
    match node_answer_text(alloc, answer) {
        Ok(text) => Ok(Response::of_text(StatusCode::OK, text)),
        Err(_) => Err(NodeFault::Memory),
    }
}

// The answer that is made of it.
pub(crate) fn answer_from(alloc: Global, basis: Basis) -> Result<Response, NodeFault>
    ensures ok { IfOk result (λ r. IsMadeOf basis r.status r.body) }
    ensures err { IfErr result (λ fault. fault ≡ NodeFault.Memory) }
    ensures unmade { OnErr result (IsUnmade basis) }
{
    match basis {
        Basis::Settled(response) => Ok(response),
        Basis::Reply(reply) => answer_with(alloc, &reply),
        Basis::Held(held, sub) => answer_sub(alloc, &answer_of(alloc, &held, &sub)?),
    }
}

// The same, of which pieces of segments are counted on so many threads at most.
pub(crate) fn answer_from_parts<R: Threads>(
    rt: &R,
    alloc: Global,
    basis: Basis,
    threads: usize,
) -> Result<Response, NodeFault>
    ensures ok { IfOk result (λ r. IsMadeOf basis r.status r.body) }
    ensures err { IfErr result (λ fault. fault ≡ NodeFault.Memory) }
    ensures unmade { OnErr result (IsUnmade basis) }
{
    match basis {
        Basis::Held(held, sub) => {
            answer_sub(alloc, &answer_in_parts(rt, alloc, &held, &sub, threads)?)
        }
        basis => answer_from(alloc, basis),
    }
}
