//! Queries, asked of data nodes.
ghost use Rattle.std.specs.Prelude.{List, IfOk, OnErr, length};
ghost use Rattle.druid_partial.specs.Partials.{IsPartialFor};
ghost use Rattle.druid_broker_scatter.specs.Gathered.{Exchange, AreMade, AreAsked, IsGathered};
ghost use Rattle.druid_broker_scatter.specs.Rounds.{AreLinked};

use crate::gathering::Gathering;
use crate::pending::{most_nodes, waiting_for};
use crate::{Answer, GatherFault, Pick, Plan};
use druid_link::Link;
use druid_partial::Partial;
use druid_query::Query;
use std::alloc::Global;
use std::thread::Threads;

/// Answers a query from the pieces of a plan. Each piece is asked of one node after another, in the
/// order that `pick` gives them, until one gives it; a round sends each node one request for all
/// that is asked of it. The nodes of a round are asked all at once, each on a thread of its own,
/// which reads the answer, and has ended when it returns: a node that waits keeps no other waiting.
/// `rt` starts the threads. One of the nodes is asked by the thread that calls, so a single node
/// needs no other; where none can be started, the nodes are asked one after another. A piece that
/// no node gave is missing.
///
/// # Errors
///
/// G9, out of memory of a link and for an answer too. The links have made exchanges: each piece was
/// asked of its nodes alone, of each once at most and in that order.
pub fn gather<P: Pick, L: Link + Send, R: Threads + Sync>(
    rt: &R,
    alloc: Global,
    query: &Query,
    plan: &Plan,
    turn: u64,
    pick: &P,
    links: &mut [L],
) -> Result<Answer, GatherFault>
    requires { AreLinked (length links.old) plan.now }
    ensures ok { IfOk result (λ answer. (exchanges : List Exchange) × AreMade L.exchanges query.now exchanges links.old links.new
        × IsGathered (P.orders pick.now turn) query.now plan.now exchanges answer.missing answer.partial.groups) }
    ensures of_query { IfOk result (λ answer. IsPartialFor query.now answer.partial) }
    ensures err { OnErr result ((exchanges : List Exchange) × AreMade L.exchanges query.now exchanges links.old links.new
        × AreAsked (P.orders pick.now turn) query.now plan.now exchanges) }
{
    let waiting = waiting_for(alloc, plan, turn, pick)?;
    let rounds = most_nodes(&waiting);
    let mut gathering = Gathering::new(waiting, Partial::empty(alloc, query)?);
    for round in 0..rounds {
        gathering = gathering.round(rt, alloc, query, round, links)?;
    }
    gathering.into_answer(alloc)
}
