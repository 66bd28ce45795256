//! What a request asks of a broker. No inventory is at hand where that is read.
ghost use Rattle.std.specs.Prelude.{◌≡◌, ◌⊎◌, true, false, IfOk, IfErr, codes, bytes_eq};
ghost use Rattle.druid_http_message.specs.Requests.{path_of};
ghost use Rattle.druid_http_wire.specs.Served.{Reports};
ghost use Rattle.druid_broker.specs.Borrowed.{borrowed_route};
ghost use Rattle.druid_broker.specs.Routes.{entry, query, route_of};
ghost use Rattle.druid_broker.specs.Questions.{Asks, Settles};

use crate::inventory_response::unknown_node;
use crate::query_response::refuse_query;
use crate::routes::{Route, Routes};
use druid_base::number_of;
use druid_http_message::Request;
use druid_http_wire::Response;
use druid_query::Query;
use druid_query_context::timeout_of;
use druid_query_text::read_query;
use druid_segment_descriptor::Ask;
use druid_sync_text::read_ask;
use std::alloc::Global;

/// A question to an inventory.
#[derive(Drop)]
pub(crate) enum Question {
    // The data sources.
    Sources,
    // Whether each node was synced.
    LoadStatus,
    // What is known of the node of that number, as it is asked for.
    Entry(u64, Ask),
    // The rows of a query, whose exchanges may take so many milliseconds together.
    Rows(Query, Option<u64>),
}

fn posted(alloc: Global, request: &Request) -> Result<Question, Response>
    ensures ok { IfOk result (Asks query request.now) }
    ensures err { IfErr result (λ r. Settles query request.now r.status r.body) }
{
    if !request.has_method("POST") {
        return Err(Response::other_method());
    }
    let asked = match read_query(alloc, request.body()) {
        Ok(asked) => asked,
        Err(fault) => return Err(refuse_query(alloc, fault)),
    };
    match timeout_of(alloc, request.body()) {
        Ok(timeout) => Ok(Question::Rows(asked, timeout)),
        Err(_) => Err(Response::out_of_memory()),
    }
}

fn got(request: &Request, question: Question) -> Result<Question, Response>
    ensures ok { IfOk result (λ q. (q ≡ question) × (bytes_eq request.now.method (codes "GET") ≡ true)) }
    ensures err { IfErr result (λ r. (bytes_eq request.now.method (codes "GET") ≡ false)
        × Reports 405 (codes "{\"error\":\"Method\"}") r.status r.body) }
{
    if request.has_method("GET") {
        Ok(question)
    } else {
        Err(Response::other_method())
    }
}

fn got_entry(number: &[u8], request: &Request) -> Result<Question, Response>
    ensures ok { IfOk result (Asks (entry number.now) request.now) }
    ensures err { IfErr result (λ r. Settles (entry number.now) request.now r.status r.body) }
{
    if !request.has_method("GET") {
        return Err(Response::other_method());
    }
    let Ok(ask) = read_ask(request.parameters()) else {
        return Err(Response::no_ask());
    };
    match number_of(number) {
        Some(number) => Ok(Question::Entry(number, ask)),
        None => Err(unknown_node()),
    }
}

fn question_at(alloc: Global, route: &Route<'_>, request: &Request) -> Result<Question, Response>
    ensures ok { IfOk result (Asks (borrowed_route route.now) request.now) }
    ensures err { IfErr result (λ r. Settles (borrowed_route route.now) request.now r.status r.body) }
{
    match route {
        Route::Health => Err(Response::health(request)),
        Route::Query => posted(alloc, request),
        Route::Sources => got(request, Question::Sources),
        Route::LoadStatus => got(request, Question::LoadStatus),
        Route::Entry(number) => got_entry(number, request),
        Route::Nowhere => Err(Response::no_route()),
    }
}

/// The question that a request puts to an inventory, or what is answered whatever is known. Only a
/// query allocates.
pub(crate) fn question_of(
    alloc: Global,
    routes: &Routes,
    request: &Request,
) -> Result<Question, Response>
    ensures ok { IfOk result (Asks (route_of (path_of request.now.target)) request.now) }
    ensures err { IfErr result (λ r. Settles (route_of (path_of request.now.target)) request.now r.status r.body) }
{
    question_at(alloc, &routes.route_of(request.path()), request)
}
