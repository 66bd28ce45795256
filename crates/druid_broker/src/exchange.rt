//! Requests, served.
ghost use Rattle.std.specs.Prelude.{◌≡◌, ◌≤◌, length, IfOk, IfErr};
ghost use mathlib.Core.List.{IsPrefix};
ghost use Rattle.druid_http_wire.specs.Served.{IsServed, FailsToServe};
ghost use Rattle.druid_broker.specs.Views.{RespondsBy};

use crate::query_response::Turn;
use crate::response::respond;
use crate::routes::Routes;
use druid_broker_scatter::Pick;
use druid_http_message::WireFault;
use druid_http_wire::{read_request, refuse_request, send_response};
use druid_inventory_views::{Publication, View};
use druid_link::Link;
use std::alloc::Global;
use std::io::{BufRead, Write};
use std::sync::Wait;
use std::thread::Threads;

/// Reads one request and writes the answer, and gives the status that was written. Link k leads to
/// node k, and only a query that is posted uses links. What is answered is by the inventory of what
/// the view has seen after the call; the view goes on where the answer takes an inventory, and only
/// there.
///
/// `POST` of a query to `/druid/v2` or `/druid/v2/` is answered with its rows, as its nodes tell
/// them; 503 with what is missing beside them where no replica gave a piece. Where its context has
/// a `timeout`, each exchange ends within what is left of that time, and one with a millisecond at
/// least. 400 with the number of the fault where the body is no query. `GET` is answered on
/// `/druid/v2/datasources` with the data sources in order, on `/druid/broker/v1/loadstatus` with
/// whether each node was synced, on `/druid-internal/v1/inventory/{node}` with what is known of the
/// node, and on `/status/health` with `true`. Another method there is answered 405, and another
/// path 404. 500 and `{"error":"Memory"}` where memory ran out for the answer, and
/// `{"error":"NoReading"}` where the view was given no reading.
///
/// What is known of a node is the reply to the ask that the query string is, as a node has it: all
/// of it up to 20,000 segments, and else the first page; or the page that is asked for, or a reset
/// where it is not to be had. 400 with Y6 where the query string is no ask, whatever the node, and
/// no inventory is taken then; 404 with V2 or V3 where nothing is known. X4 to X7 of the request
/// are answered 400 with their number. Nothing is flushed.
///
/// # Errors
///
/// X1, X2 or X9 where no request was read: nothing is written, and the view and the links are as
/// they were. X3 or X9 of the writer, which has some front of the answer, and not the whole: the
/// view's list is the same or longer, and the links have made the exchanges of `gather`.
pub fn serve_one<
    T: Threads + Wait + Sync,
    R: BufRead,
    W: Write,
    J: Publication,
    P: Pick,
    L: Link + Send,
>(
    rt: &T,
    alloc: Global,
    routes: &Routes,
    reader: &mut R,
    writer: &mut W,
    view: &mut View<J>,
    turn: u64,
    pick: &P,
    links: &mut [L],
) -> Result<u16, WireFault>
    requires { length J.opening ≤ length links.old }
    ensures ok { IfOk result (IsServed (RespondsBy L.exchanges (P.orders pick.now turn) J.opening view.old view.new links.old links.new)
        ((view.new ≡ view.old) × (links.new ≡ links.old))
        (R.remaining reader.old) (R.remaining reader.new) (W.contents writer.old) (W.contents writer.new)) }
    ensures err { IfErr result (FailsToServe (RespondsBy L.exchanges (P.orders pick.now turn) J.opening view.old view.new links.old links.new)
        ((view.new ≡ view.old) × (links.new ≡ links.old))
        (R.remaining reader.old) (R.remaining reader.new) (W.contents writer.old) (W.contents writer.new)) }
    ensures view { IsPrefix view.old view.new }
{
    match read_request(alloc, reader) {
        Ok(request) => {
            let turn = Turn { number: turn, pick };
            let response = respond(rt, alloc, routes, view, &request, &turn, links);
            send_response(&response, writer)
        }
        Err(fault) => refuse_request(fault, writer),
    }
}
