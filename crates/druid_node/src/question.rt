//! What a request asks of a node's state. No state is at hand where that is read.
ghost use Rattle.std.specs.Prelude.{◌≡◌, ◌≢◌, IsSome, IfOk, IfErr, OnErr};
ghost use Rattle.druid_sync_text.specs.Asks.{ask_at};
ghost use Rattle.druid_http_message.specs.Requests.{path_of};
ghost use Rattle.druid_query.specs.Refused.{refusal_text};
ghost use Rattle.druid_http_wire.specs.Served.{Reports};
ghost use Rattle.druid_node.specs.Routes.{AnswersAsk, AnswersQuery, AnswersAt, Responds, TakesMemory, route_of};
ghost use Rattle.druid_node.specs.Questions.{Asks, IsOpen};

use crate::NodeFault;
use crate::routes::{Route, route_of};
use druid_http_message::Request;
use druid_http_wire::Response;
use druid_query::{QueryFault, SubQuery};
use druid_query_text::read_subquery;
use druid_segment_descriptor::Ask;
use druid_sync_text::read_ask;
use http::StatusCode;
use std::alloc::Global;

/// A question to a state.
#[derive(Drop)]
pub(crate) enum Question {
    // None: each state answers so.
    Settled(Response),
    // What its history replies to an ask.
    Reply(Ask),
    // What the segments that it holds answer to a subquery.
    Answer(SubQuery),
}

// What is no subquery.
fn refuse(alloc: Global, fault: QueryFault) -> Result<Question, NodeFault>
    ensures ok { IfOk result (λ q. (fault ≢ QueryFault.Memory) × Asks q (λ old new status body. (new ≡ old) × Reports 400 (refusal_text fault) status body)) }
    ensures err { IfErr result (λ fault. fault ≡ NodeFault.Memory) }
{
    match fault {
        QueryFault::Memory => Err(NodeFault::Memory),
        QueryFault::Field(key) => {
            match Response::of_field(alloc, StatusCode::BAD_REQUEST, fault.code(), key) {
                Ok(response) => Ok(Question::Settled(response)),
                Err(_) => Err(NodeFault::Memory),
            }
        }
        QueryFault::NotJson
        | QueryFault::UnknownType
        | QueryFault::BadInterval
        | QueryFault::LimitPassed
        | QueryFault::DoubledName => {
            Ok(Question::Settled(Response::of_error(StatusCode::BAD_REQUEST, fault.code())))
        }
    }
}

fn of_parameters(parameters: &str) -> Question
    ensures asks { Asks result (λ old new. AnswersAsk old new parameters.now) }
    ensures takes { IsOpen result → IsSome (ask_at parameters.now) }
{
    match read_ask(parameters) {
        Ok(ask) => Question::Reply(ask),
        Err(_) => Question::Settled(Response::no_ask()),
    }
}

fn of_body(alloc: Global, body: &[u8]) -> Result<Question, NodeFault>
    ensures ok { IfOk result (λ q. Asks q (λ old new status text. (new ≡ old) × AnswersQuery old.held body.now status text)) }
    ensures err { IfErr result (λ fault. fault ≡ NodeFault.Memory) }
{
    match read_subquery(alloc, body) {
        Ok(sub) => Ok(Question::Answer(sub)),
        Err(fault) => refuse(alloc, fault),
    }
}

fn segments(request: &Request) -> Question
    ensures asks { Asks result (λ old new. AnswersAt Route.Segments old new request.now) }
    ensures takes { IsOpen result → TakesMemory Route.Segments request.now }
{
    if !request.has_method("GET") {
        return Question::Settled(Response::other_method());
    }
    of_parameters(request.parameters())
}

fn query(alloc: Global, request: &Request) -> Result<Question, NodeFault>
    ensures ok { IfOk result (λ q. Asks q (λ old new. AnswersAt Route.Query old new request.now)) }
    ensures err { IfErr result (λ fault. fault ≡ NodeFault.Memory) }
    ensures takes { IfOk result (λ q. IsOpen q → TakesMemory Route.Query request.now) }
    ensures memory { OnErr result (TakesMemory Route.Query request.now) }
{
    if !request.has_method("POST") {
        return Ok(Question::Settled(Response::other_method()));
    }
    of_body(alloc, request.body())
}

fn question_at(alloc: Global, route: Route, request: &Request) -> Result<Question, NodeFault>
    ensures ok { IfOk result (λ q. Asks q (λ old new. AnswersAt route old new request.now)) }
    ensures err { IfErr result (λ fault. fault ≡ NodeFault.Memory) }
    ensures takes { IfOk result (λ q. IsOpen q → TakesMemory route request.now) }
    ensures memory { OnErr result (TakesMemory route request.now) }
{
    match route {
        Route::Health => Ok(Question::Settled(Response::health(request))),
        Route::Segments => Ok(segments(request)),
        Route::Query => query(alloc, request),
        Route::Nowhere => Ok(Question::Settled(Response::no_route())),
    }
}

// What the request asks of a state. Only a query allocates.
pub(crate) fn question_of(alloc: Global, request: &Request) -> Result<Question, NodeFault>
    ensures ok { IfOk result (λ q. Asks q (λ old new. Responds old new request.now)) }
    ensures err { IfErr result (λ fault. fault ≡ NodeFault.Memory) }
    ensures takes { IfOk result (λ q. IsOpen q → TakesMemory (route_of (path_of request.now.target)) request.now) }
    ensures memory { OnErr result (TakesMemory (route_of (path_of request.now.target)) request.now) }
{
    question_at(alloc, route_of(request.path()), request)
}
