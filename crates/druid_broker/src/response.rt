//! What a broker answers to requests. Where no inventory decides, the view is not read: health and
//! refusals are answered without a reading too. Links are a parameter beside the turn: a struct
//! that held a `&mut` of them would need a clause, at each function that takes it, that its
//! reference is still the one that it had.
ghost use Rattle.std.specs.Prelude.{◌≡◌, ◌≤◌, ◌⊎◌, length};
ghost use Rattle.druid_broker.specs.Questions.{Answers};
ghost use Rattle.druid_broker.specs.Routes.{OrOutOfMemory, AnswersSources};
ghost use Rattle.druid_broker.specs.Views.{AnswersUnread, RespondsBy};

use crate::inventory_response::{load_status_response, node_response, sources_response};
use crate::query_response::{Turn, answer_query};
use crate::question::{Question, question_of};
use crate::routes::Routes;
use druid_broker_scatter::Pick;
use druid_http_message::Request;
use druid_http_wire::Response;
use druid_inventory::Inventory;
use druid_inventory_views::{Publication, PublishFault, View};
use druid_link::Link;
use http::StatusCode;
use std::alloc::Global;
use std::sync::Wait;
use std::thread::Threads;

fn sources(alloc: Global, inventory: &Inventory) -> Response
    ensures { OrOutOfMemory (AnswersSources inventory.now) result.status result.body }
{
    match sources_response(alloc, inventory) {
        Ok(response) => response,
        Err(_) => Response::out_of_memory(),
    }
}

// What an inventory answers to a question.
fn answer<T: Threads + Sync, P: Pick, L: Link + Send>(
    rt: &T,
    alloc: Global,
    inventory: &Inventory,
    question: &Question,
    turn: &Turn<'_, P>,
    links: &mut [L],
) -> Response
    requires { length inventory.now ≤ length links.old }
    ensures { Answers L.exchanges (P.orders turn.now.pick.now turn.now.number) question.now inventory.now links.old links.new result.status result.body }
{
    match question {
        Question::Sources => sources(alloc, inventory),
        Question::LoadStatus => load_status_response(inventory),
        Question::Entry(number, ask) => node_response(alloc, inventory, *number, ask),
        Question::Rows(query, timeout) => {
            answer_query(rt, alloc, inventory, query, turn, *timeout, links)
        }
    }
}

// The response to a failed read of the view: 500, `NoReading` where what was found is older than
// what the view knows.
fn answer_unread(fault: PublishFault) -> Response
    requires { (fault ≡ PublishFault.NoReading) ⊎ (fault ≡ PublishFault.Memory) }
    ensures { AnswersUnread result.status result.body }
{
    match fault {
        PublishFault::NoReading => {
            Response::of_error(StatusCode::INTERNAL_SERVER_ERROR, "NoReading")
        }
        PublishFault::Memory => Response::out_of_memory(),
        PublishFault::Apply(_) => unreachable!(),
    }
}

/// What a broker answers to a request by way of a view. The view is read where the answer takes the
/// inventory, and only there.
pub(crate) fn respond<T: Threads + Wait + Sync, J: Publication, P: Pick, L: Link + Send>(
    rt: &T,
    alloc: Global,
    routes: &Routes,
    view: &mut View<J>,
    request: &Request,
    turn: &Turn<'_, P>,
    links: &mut [L],
) -> Response
    requires { length J.opening ≤ length links.old }
    ensures { RespondsBy L.exchanges (P.orders turn.now.pick.now turn.now.number) J.opening view.old view.new links.old links.new request.now result.status result.body }
{
    let question = match question_of(alloc, routes, request) {
        Ok(question) => question,
        Err(response) => return response,
    };
    match view.read() {
        Ok(inventory) => answer(rt, alloc, &inventory, &question, turn, links),
        Err(fault) => answer_unread(fault),
    }
}
