//! What is answered to queries.
ghost use Rattle.std.specs.Prelude.{◌≡◌, ◌≢◌, ◌↔◌, ◌≤◌, ◌⊎◌, ℕ, true, Ok, List, length, IfOk, OnErr};
ghost use Rattle.druid_partial.specs.Partials.{IsPartialFor};
ghost use Rattle.druid_query.specs.Read.{IsReadOf};
ghost use Rattle.druid_query.specs.Refused.{refusal_text};
ghost use Rattle.druid_broker_scatter.specs.Gathered.{Exchange, AreMade, AreAsked, IsGathered};
ghost use Rattle.druid_broker_scatter.specs.Rounds.{AreLinked};
ghost use Rattle.druid_http_wire.specs.Served.{Reports, IsOutOfMemory};
ghost use Rattle.druid_broker.specs.Queries.{ReportsRows, AnswersRows, AsksRows, NamesField};
ghost use Rattle.druid_broker.specs.Routes.{AnswersPost};

use druid_broker_scatter::{Answer, GatherFault, Pick, Plan, gather, plan};
use druid_http_wire::Response;
use druid_inventory::Inventory;
use druid_link::Link;
use druid_partial_text::{result_text, shortfall_text};
use druid_query::{Query, QueryFault};
use http::StatusCode;
use std::alloc::{AllocError, Global};
use std::thread::Threads;

/// A turn, and how it orders the replicas of a segment slice.
#[derive(Drop)]
pub(crate) struct Turn<'a, P> {
    /// Tells one query from the next.
    pub(crate) number: u64,
    /// The order.
    pub(crate) pick: &'a P,
}

/// The answer to what is no query. Memory is taken only to name a field.
pub(crate) fn refuse_query(alloc: Global, fault: QueryFault) -> Response
    ensures refused { (fault ≢ QueryFault.Memory)
        → Reports 400 (refusal_text fault) result.status result.body ⊎ (NamesField fault × IsOutOfMemory result.status result.body) }
    ensures memory { fault ≡ QueryFault.Memory → IsOutOfMemory result.status result.body }
{
    match fault {
        QueryFault::Memory => Response::out_of_memory(),
        QueryFault::Field(key) => {
            match Response::of_field(alloc, StatusCode::BAD_REQUEST, fault.code(), key) {
                Ok(response) => response,
                Err(_) => Response::out_of_memory(),
            }
        }
        QueryFault::NotJson
        | QueryFault::UnknownType
        | QueryFault::BadInterval
        | QueryFault::LimitPassed
        | QueryFault::DoubledName => Response::of_error(StatusCode::BAD_REQUEST, fault.code()),
    }
}

// What is reported of what was gathered.
fn rows_response(alloc: Global, query: &Query, answer: &Answer) -> Result<Response, AllocError>
    requires { IsPartialFor query.now answer.now.partial }
    ensures { IfOk result (λ r. ReportsRows query.now answer.now.missing answer.now.partial.groups r.status r.body) }
{
    let (missing, partial) = (answer.missing(), answer.partial());
    if missing.is_empty() {
        let text = result_text(alloc, query, partial)?;
        return Ok(Response::of_text(StatusCode::OK, text));
    }
    let text = shortfall_text(alloc, query, missing, partial)?;
    Ok(Response::of_text(StatusCode::SERVICE_UNAVAILABLE, text))
}

// Gives the exchanges over these links so much time, in milliseconds from now.
fn hasten_all<L: Link>(links: &mut [L], millis: Option<u64>)
    ensures { links.new ≡ links.old }
{
    for link in links.iter_mut() {
        link.hasten(millis);
    }
}

// What is gathered where the exchanges have so much time together, in milliseconds, beside the limit of each.
fn gather_within<T: Threads + Sync, P: Pick, L: Link + Send>(
    rt: &T,
    alloc: Global,
    query: &Query,
    pairs: &Plan,
    turn: &Turn<'_, P>,
    timeout: Option<u64>,
    links: &mut [L],
) -> Result<Answer, GatherFault>
    requires { AreLinked (length links.old) pairs.now }
    ensures ok { IfOk result (λ answer. (exchanges : List Exchange) × AreMade L.exchanges query.now exchanges links.old links.new
        × IsGathered (P.orders turn.now.pick.now turn.now.number) query.now pairs.now exchanges answer.missing answer.partial.groups) }
    ensures of_query { IfOk result (λ answer. IsPartialFor query.now answer.partial) }
    ensures err { OnErr result ((exchanges : List Exchange) × AreMade L.exchanges query.now exchanges links.old links.new
        × AreAsked (P.orders turn.now.pick.now turn.now.number) query.now pairs.now exchanges) }
{
    hasten_all(links, timeout);
    let gathered = gather(rt, alloc, query, pairs, turn.number, turn.pick, links);
    hasten_all(links, None);
    gathered
}

/// The answer to a query, whatever bytes it was read of: its rows, of what the nodes of the inventory serve, gathered over their
/// links. With a timeout, in milliseconds, each exchange has what is left of it, and a millisecond at least.
pub(crate) fn answer_query<T: Threads + Sync, P: Pick, L: Link + Send>(
    rt: &T,
    alloc: Global,
    inventory: &Inventory,
    query: &Query,
    turn: &Turn<'_, P>,
    timeout: Option<u64>,
    links: &mut [L],
) -> Response
    requires { length inventory.now ≤ length links.old }
    ensures { (bytes : List ℕ) → IsReadOf bytes (Ok query.now)
        → AnswersPost L.exchanges (P.orders turn.now.pick.now turn.now.number) true inventory.now bytes links.old links.new result.status result.body }
{
    let Ok(pairs) = plan(alloc, inventory, query) else {
        return Response::out_of_memory();
    };
    let Ok(gathered) = gather_within(rt, alloc, query, &pairs, turn, timeout, links) else {
        return Response::out_of_memory();
    };
    match rows_response(alloc, query, &gathered) {
        Ok(response) => response,
        Err(_) => Response::out_of_memory(),
    }
}
