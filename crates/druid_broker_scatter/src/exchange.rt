//! The exchanges of a round, each read on the thread that makes it, and what they tell, merged by pairs on those threads.
ghost use denote.Param.Send.{IsSync, IsSend};
ghost use Rattle.std.specs.Prelude.{◌≡◌, ◌⊎◌, ◌++◌, ◌∷◌, [], ℕ, List, All, length, map, IsSome, IfOk, IfSome, IfNone, OnErr};
ghost use Rattle.std.specs.BTreeSet.{contains};
ghost use Rattle.druid_query.specs.Asked.{Asked};
ghost use Rattle.druid_query.specs.Query.{Query};
ghost use Rattle.druid_partial.specs.Groups.{Group, IsMerge, IsResult};
ghost use Rattle.druid_partial.specs.Partials.{IsPartial, IsPartialFor, kinds_of};
ghost use Rattle.druid_link.specs.Links.{Came, came_of};
ghost use Rattle.druid_broker_scatter.specs.Gathered.{Answers, IsLost};
ghost use Rattle.druid_broker_scatter.specs.Exchanges.{ask_in, missed_in};
ghost use Rattle.druid_broker_scatter.specs.Pending.{AreSent, BothRead, HaveLinks, MayLackMemory, Reads, ReportsIf, ReportsPlaces, at_cmp, exchange_of, sub_request};

use crate::GatherFault;
use crate::answer::answer_of;
use crate::pending::{Places, places_of};
use crate::requests::Exchange;
use druid_http_message::WireFault;
use druid_link::Link;
use druid_partial::{Partial, merge};
use druid_query::{Query, SubQuery};
use std::alloc::Global;
use std::thread::{Threads, join_mut};

// Where the pieces stand that the answer misses, and what it tells; None where what came is no answer.
fn read(
    alloc: Global,
    sub: &SubQuery,
    came: &Result<Vec<u8>, WireFault>,
) -> Result<Option<(Places, Partial)>, GatherFault>
    ensures some { IfOk result (λ read. IfSome read (λ r. (missing : List Asked)
        × ((node : ℕ) → Answers sub.now.query (exchange_of sub.now (came_of came.now) node) missing r.1.groups)
        × ReportsPlaces (contains at_cmp r.0) missing)) }
    ensures none { IfOk result (λ read. IfNone read ((node : ℕ)
        → IsLost sub.now.query (exchange_of sub.now (came_of came.now) node))) }
    ensures of_query { IfOk result (λ read. IfSome read (λ r. IsPartialFor sub.now.query r.1)) }
    ensures valid { IfOk result (λ read. IfSome read (λ r. IsPartial r.1)) }
    ensures err { OnErr result (MayLackMemory (came_of came.now)) }
{
    let Some(answer) = answer_of(alloc, sub, came)? else {
        return Ok(None);
    };
    let (partial, missing) = answer.into_parts();
    // For the proof: reading it exposes the invariant of its type.
    let _ = partial.groups();
    let places = places_of(alloc, &missing)?;
    Ok(Some((places, partial)))
}

// What a node's answer tells, if it answers. The bytes are gone when it returns.
fn ask_one<L: Link>(
    alloc: Global,
    query: &Query,
    exchange: &mut Exchange,
    link: &mut L,
) -> Result<Option<Partial>, GatherFault>
    requires { exchange.old.sub.query ≡ query.now }
    ensures { (came : Came) × L.exchanges link.old (sub_request exchange.old.sub) came link.new
        × Reads query.now (exchange_of exchange.old.sub came exchange.old.node ∷ []) (missed_in exchange.new ∷ []) result }
{
    let came = link.exchange(alloc, &exchange.bytes);
    match read(alloc, &exchange.sub, &came) {
        Ok(Some((places, partial))) => {
            exchange.missed = Some(places);
            Ok(Some(partial))
        }
        Ok(None) => {
            exchange.missed = None;
            Ok(None)
        }
        Err(fault) => Err(fault),
    }
}

// The merge of two partials; one without groups changes nothing.
fn merge_both(alloc: Global, left: Partial, right: Partial) -> Result<Partial, GatherFault>
    requires { left.kinds ≡ right.kinds }
    ensures groups { IfOk result (λ both. IsMerge left.kinds left.groups right.groups both.groups) }
    ensures of_query { (query : Query) → IsPartialFor query left → IsPartialFor query right → IfOk result (IsPartialFor query) }
{
    if left.groups().is_empty() {
        let _ = right.groups();
        return Ok(right);
    }
    if right.groups().is_empty() {
        return Ok(left);
    }
    match merge(alloc, left, right) {
        Ok(both) => Ok(both),
        Err(_) => Err(GatherFault::Memory),
    }
}

// What two halves tell, if they tell anything.
fn merge_reported(
    alloc: Global,
    query: &Query,
    left: Option<Partial>,
    right: Option<Partial>,
) -> Result<Option<Partial>, GatherFault>
    requires left { IfSome left (IsPartialFor query.now) }
    requires right { IfSome right (IsPartialFor query.now) }
    ensures reported { IfOk result (λ both. (a b : List Group) → ReportsIf query.now a left → ReportsIf query.now b right
        → ReportsIf query.now (a ++ b) both) }
    ensures some { IfOk result (λ both. IfSome both (λ p. IsPartialFor query.now p × (IsSome left ⊎ IsSome right))) }
    ensures err { OnErr result (IsSome left) }
{
    match (left, right) {
        (Some(left), Some(right)) => Ok(Some(merge_both(alloc, left, right)?)),
        (Some(left), None) => Ok(Some(left)),
        (None, right) => Ok(right),
    }
}

// A partial, and what a round tells beside it, if that is anything.
pub(crate) fn add_reported(
    alloc: Global,
    query: &Query,
    partial: Partial,
    reported: Option<Partial>,
) -> Result<Partial, GatherFault>
    requires of_query { IsPartialFor query.now partial }
    requires reported { IfSome reported (IsPartialFor query.now) }
    ensures reported { IfOk result (λ new. (a b : List Group) → IsResult (kinds_of query.now) a partial.groups → ReportsIf query.now b reported
        → IsResult (kinds_of query.now) (a ++ b) new.groups) }
    ensures of_query { IfOk result (IsPartialFor query.now) }
    ensures err { OnErr result (IsSome reported) }
{
    match reported {
        Some(reported) => merge_both(alloc, partial, reported),
        None => Ok(partial),
    }
}

// What both halves of a round came to, where both were made.
fn both(
    alloc: Global,
    query: &Query,
    left: Result<Option<Partial>, GatherFault>,
    right: Result<Option<Partial>, GatherFault>,
) -> Result<Option<Partial>, GatherFault>
    requires left { IfOk left (λ p. IfSome p (IsPartialFor query.now)) }
    requires right { IfOk right (λ p. IfSome p (IsPartialFor query.now)) }
    ensures { BothRead query.now left right result }
{
    match (left, right) {
        (Ok(left), Ok(right)) => merge_reported(alloc, query, left, right),
        (Err(fault), _) => Err(fault),
        (_, Err(fault)) => Err(fault),
    }
}

// Makes the exchanges over the links, of which the first is that of node `first`, and gives what the answers tell: the halves at
// once, the front one on a thread of its own. An answer is read on the thread that asked for it, and two halves are merged on the
// thread that waited for both. Where the pieces stand that an answer misses goes to a place that is there already.
pub(crate) fn ask_all<L: Link + Send, R: Threads + Sync>(
    rt: &R,
    alloc: &Global,
    query: &Query,
    exchanges: &mut [Exchange],
    links: &mut [L],
    first: usize,
) -> Result<Option<Partial>, GatherFault>
    requires linked { HaveLinks first (length links.old) (map ask_in exchanges.old) }
    requires of_query { All (λ x. x.sub.query ≡ query.now) exchanges.old }
    ensures { AreSent L.exchanges query.now first (map ask_in exchanges.old) links.old links.new (map missed_in exchanges.new) result }
{
    if exchanges.is_empty() {
        return Ok(None);
    }
    if exchanges.len() == 1 {
        let place = exchanges[0].node as usize - first;
        return ask_one(*alloc, query, &mut exchanges[0], &mut links[place]);
    }
    let (front, back) = exchanges.split_at_mut(exchanges.len() / 2);
    let next = back[0].node as usize;
    let (front_links, back_links) = links.split_at_mut(next - first);
    let (left, right) = join_mut(
        rt,
        &mut || -> Result<Option<Partial>, GatherFault>
            requires { IsSync R.row × IsSend L.row × HaveLinks first (length front_links.now) (map ask_in front.now) × All (λ x. x.sub.query ≡ query.now) front.now }
            ensures { AreSent L.exchanges query.entry.now first (map ask_in front.entry.now) front_links.entry.now front_links.exit.now (map missed_in front.exit.now) result }
        { ask_all(rt, alloc, query, front, front_links, first) },
        &mut || -> Result<Option<Partial>, GatherFault>
            requires { IsSync R.row × IsSend L.row × HaveLinks next (length back_links.now) (map ask_in back.now) × All (λ x. x.sub.query ≡ query.now) back.now }
            ensures { AreSent L.exchanges query.entry.now next (map ask_in back.entry.now) back_links.entry.now back_links.exit.now (map missed_in back.exit.now) result }
        { ask_all(rt, alloc, query, back, back_links, next) },
    );
    both(*alloc, query, left, right)
}
