//! What was gathered so far.
ghost use Rattle.std.specs.Prelude.{◌≡◌, ◌⊎◌, List, [], Any, IfOk, OnErr, length};
ghost use Rattle.druid_partial.specs.Partials.{IsPartialFor};
ghost use Rattle.druid_broker_scatter.specs.Gathered.{Exchange, AreMade};
ghost use Rattle.druid_broker_scatter.specs.Pending.{AreBelow, Goes, AsksOn, MayLackMemory, pieces_of};

use crate::exchange::{add_reported, ask_all};
use crate::pending::{PendingSlice, into_pieces, keep_missed};
use crate::requests::exchanges_for;
use crate::{Answer, GatherFault};
use druid_link::Link;
use druid_partial::Partial;
use druid_query::Query;
use std::alloc::Global;
use std::marker::Model;
use std::thread::Threads;

// The pieces that wait for an answer, and what was answered of the others.
#[derive(Debug, Drop)]
pub(crate) struct Gathering {
    waiting: Vec<PendingSlice>,
    partial: Partial,
}

impl Model for Gathering {
    ghost use Rattle.druid_broker_scatter.specs.Pending.{State};

    ghost Value = { State };

    ghost view = { λ a. record { waiting = a.waiting.items; partial = a.partial } };
}

impl Gathering {
    // These pieces wait, and that was answered.
    pub(crate) fn new(waiting: Vec<PendingSlice>, partial: Partial) -> Gathering
        ensures { result ≡ record { waiting = waiting.items; partial = partial } }
    {
        Gathering { waiting, partial }
    }

    // After a round: each piece that waits is asked of the next node in its order.
    pub(crate) fn round<L: Link + Send, R: Threads + Sync>(
        self,
        rt: &R,
        alloc: Global,
        query: &Query,
        round: usize,
        links: &mut [L],
    ) -> Result<Gathering, GatherFault>
        requires of_query { IsPartialFor query.now self.partial }
        requires linked { AreBelow (length links.old) self.waiting }
        ensures ok { IfOk result (λ new. (more : List Exchange) × AreMade L.exchanges query.now more links.old links.new
            × Goes query.now round self new more) }
        ensures linked { IfOk result (λ new. AreBelow (length links.new) new.waiting) }
        ensures of_query { IfOk result (λ new. IsPartialFor query.now new.partial) }
        ensures err { OnErr result ((more : List Exchange) × AreMade L.exchanges query.now more links.old links.new
            × AsksOn query.now round self more × ((more ≡ []) ⊎ Any (λ e. MayLackMemory e.came) more)) }
    {
        let Gathering {
            mut waiting,
            partial,
        } = self;
        let mut exchanges = exchanges_for(alloc, query, &waiting, round)?;
        let reported = ask_all(rt, &alloc, query, exchanges.as_mut_slice(), links, 0)?;
        keep_missed(&mut waiting, round, &exchanges);
        let partial = add_reported(alloc, query, partial, reported)?;
        Ok(Gathering { waiting, partial })
    }

    pub(crate) fn into_answer(self, alloc: Global) -> Result<Answer, GatherFault>
        ensures missing { IfOk result (λ answer. answer.missing ≡ pieces_of self.waiting) }
        ensures partial { IfOk result (λ answer. answer.partial ≡ self.partial) }
    {
        let missing = into_pieces(alloc, self.waiting)?;
        Ok(Answer::new(self.partial, missing))
    }
}
