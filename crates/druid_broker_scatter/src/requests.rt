//! The exchanges of a round, as they are made ready. A request has no limit: past 16 MiB the node refuses it, and its pieces go
//! on to the next replica and are missing in the end.
ghost use Rattle.std.specs.Prelude.{◌≡◌, ◌++◌, ◌∷◌, ◌==◌, ℕ, All, [], IfOk, OnOk, cond, map};
ghost use Rattle.druid_broker_scatter.specs.Slices.{NoneEmpty, slices_of};
ghost use Rattle.druid_broker_scatter.specs.Pending.{IsRound, sub_request, wanted_of};

use crate::pending::{PendingSlice, Places};
use druid_http_message::Request;
use druid_http_wire::request_bytes;
use druid_query::{Query, SegmentSlice, SubQuery};
use druid_query_text::subquery_text;
use druid_segment_descriptor::NodeNo;
use http::Method;
use std::alloc::{AllocError, Global};
use std::collections::BTreeMap;

// An exchange with a node: its subquery, the bytes that ask it, and where the pieces stand that its answer misses; None until
// there is one.
#[derive(Debug, Drop)]
pub(crate) struct Exchange {
    pub(crate) node: NodeNo,
    pub(crate) sub: SubQuery,
    pub(crate) bytes: Vec<u8>,
    pub(crate) missed: Option<Places>,
    ghost asks: { bytes.items ≡ sub_request sub },
}

// The pieces that a round wants, by their nodes.
type Slices = BTreeMap<NodeNo, Vec<SegmentSlice>>;

// Adds a piece to those of a node.
fn add_slice(
    alloc: Global,
    slices: &mut Slices,
    node: NodeNo,
    asked: &SegmentSlice,
) -> Result<(), AllocError>
    ensures added { OnOk result ((n : ℕ) → slices_of slices.new n ≡ slices_of slices.old n ++ cond (node == n) (asked.now ∷ []) []) }
    ensures none_empty { NoneEmpty slices.old → NoneEmpty slices.new }
{
    let slice = asked.clone()?;
    if let Some(others) = slices.get_mut(&node) {
        others.push(slice)?;
        return Ok(());
    }
    let mut first = Vec::new(alloc);
    first.push(slice)?;
    slices.insert(node, first)?;
    Ok(())
}

// What the round asks each node for: all in one pass over what waits.
fn slices_for(alloc: Global, waiting: &[PendingSlice], round: usize) -> Result<Slices, AllocError>
    ensures wanted { IfOk result (λ slices. (node : ℕ) → slices_of slices node ≡ wanted_of round waiting.now node) }
    ensures none_empty { IfOk result NoneEmpty }
{
    let mut slices = BTreeMap::new(alloc);
    for piece in waiting {
        if let Some(node) = piece.turn(round) {
            add_slice(alloc, &mut slices, node, piece.asked())?;
        }
    }
    Ok(slices)
}

// The bytes that ask a subquery.
fn request_for(alloc: Global, sub: &SubQuery) -> Result<Vec<u8>, AllocError>
    ensures { IfOk result (λ bytes. bytes.items ≡ sub_request sub.now) }
{
    let target = String::from_str(alloc, "/druid/v2/")?;
    let body = subquery_text(alloc, sub)?.into_bytes();
    request_bytes(alloc, &Request::new(Method::POST, target, body))
}

// The exchange that asks a node for pieces.
fn exchange_for(
    alloc: Global,
    query: &Query,
    node: NodeNo,
    asked: Vec<SegmentSlice>,
) -> Result<Exchange, AllocError>
    ensures node { IfOk result (λ x. x.node ≡ node) }
    ensures asked { IfOk result (λ x. x.sub.asked ≡ asked.items) }
    ensures of_query { IfOk result (λ x. x.sub.query ≡ query.now) }
{
    let sub = SubQuery::new(query.clone()?, asked);
    let bytes = request_for(alloc, &sub)?;
    Ok(Exchange {
        node,
        sub,
        bytes,
        missed: None,
    })
}

// The exchanges of a round, in the order of the nodes.
pub(crate) fn exchanges_for(
    alloc: Global,
    query: &Query,
    waiting: &[PendingSlice],
    round: usize,
) -> Result<Vec<Exchange>, AllocError>
    ensures round { IfOk result (λ exchanges. IsRound round waiting.now (map (λ x. (x.node, x.sub.asked)) exchanges.items)) }
    ensures of_query { IfOk result (λ exchanges. All (λ x. x.sub.query ≡ query.now) exchanges.items) }
{
    let slices = slices_for(alloc, waiting, round)?;
    let mut exchanges = Vec::with_capacity(alloc, slices.len())?;
    for (node, asked) in slices {
        exchanges.push(exchange_for(alloc, query, node, asked)?)?;
    }
    Ok(exchanges)
}
