//! Pieces that wait for an answer.
ghost use Rattle.std.specs.Prelude.{◌≡◌, ◌≤◌, Contains, IfOk, filter, length, map, slice_get};
ghost use Rattle.std.specs.List.Sorted.{IsPermutation, IsStrictlyIncreasing};
ghost use Rattle.std.specs.BTreeSet.{contains};
ghost use Rattle.druid_broker_scatter.specs.Exchanges.{missed_in};
ghost use Rattle.druid_broker_scatter.specs.Pending.{PendingSlice, StandsOnce, AreOrdered, ReportsPlaces, stays, at_cmp, place_of, pieces_of};

use crate::requests::Exchange;
use crate::{Pair, Pick, Plan};
use druid_query::SegmentSlice;
use druid_segment_descriptor::NodeNo;
use druid_time::Instant;
use std::alloc::{AllocError, Global};
use std::collections::BTreeSet;
use std::marker::Model;

// The start of a piece, and the partition of its segment: a plan has one piece there.
type Place = (Instant, u16);

// The places of pieces.
pub(crate) type Places = BTreeSet<Place>;

fn place_of(asked: &SegmentSlice) -> Place
    ensures { result ≡ place_of asked.now }
{
    (asked.interval().start(), asked.id().partition())
}

// The nodes, as they are picked.
fn order_of<P: Pick>(
    alloc: Global,
    nodes: &[NodeNo],
    turn: u64,
    pick: &P,
) -> Result<Vec<NodeNo>, AllocError>
    ensures ordered { IfOk result (λ order. order.items ≡ P.orders pick.now turn nodes.now) }
    ensures permuted { IfOk result (λ order. IsPermutation nodes.now order.items) }
{
    let mut order = Vec::from_slice(alloc, nodes)?;
    pick.order(turn, order.as_mut_slice());
    Ok(order)
}

// A piece, and the order in which its replicas are asked.
#[derive(Debug, Drop)]
pub(crate) struct PendingSlice {
    asked: SegmentSlice,
    order: Vec<NodeNo>,
}

impl Model for PendingSlice {
    ghost use Rattle.druid_broker_scatter.specs.Pending.{PendingSlice};

    ghost Value = { PendingSlice };

    ghost view = { λ a. record { asked = a.asked; order = a.order.items } };
}

impl PendingSlice {
    // The piece of a pair, with its nodes as they are picked.
    #[tactic(auto, using(crate::proofs::WaitLemmas::once_picked))]
    fn of<P: Pick>(
        alloc: Global,
        pair: &Pair,
        turn: u64,
        pick: &P,
    ) -> Result<PendingSlice, AllocError>
        ensures asked { IfOk result (λ w. w.asked ≡ pair.now.asked) }
        ensures ordered { IfOk result (λ w. w.order ≡ P.orders pick.now turn pair.now.nodes) }
        ensures permuted { IfOk result (λ w. IsPermutation pair.now.nodes w.order) }
        ensures once { IfOk result (λ w. StandsOnce w.order) }
    {
        let order = order_of(alloc, pair.nodes(), turn, pick)?;
        Ok(PendingSlice {
            asked: pair.asked().clone()?,
            order,
        })
    }

    // The piece.
    pub(crate) fn asked(&self) -> &SegmentSlice
        ensures { result.now ≡ self.now.asked }
    {
        &self.asked
    }

    // The node that the round asks for it.
    pub(crate) fn turn(&self, round: usize) -> Option<NodeNo>
        ensures { result ≡ slice_get self.now.order round }
    {
        self.order.get(round).copied()
    }

    // How many nodes serve it.
    fn node_count(&self) -> usize
        ensures { result ≡ length self.now.order }
    {
        self.order.len()
    }

    // The piece itself.
    fn into_asked(self) -> SegmentSlice
        ensures { result ≡ self.asked }
    {
        self.asked
    }
}

// The pieces of a plan, each with its nodes as they are picked.
pub(crate) fn waiting_for<P: Pick>(
    alloc: Global,
    plan: &Plan,
    turn: u64,
    pick: &P,
) -> Result<Vec<PendingSlice>, AllocError>
    ensures { IfOk result (λ waits. AreOrdered (P.orders pick.now turn) plan.now waits.items) }
{
    let pairs = plan.pairs();
    let mut waits = Vec::with_capacity(alloc, pairs.len())?;
    for pair in pairs {
        waits.push(PendingSlice::of(alloc, pair, turn, pick)?)?;
    }
    Ok(waits)
}

// The most nodes that a piece has.
pub(crate) fn most_nodes(waiting: &[PendingSlice]) -> usize
    ensures { (w : PendingSlice) → Contains waiting.now w → length w.order ≤ result }
{
    let mut most = 0;
    for piece in waiting {
        let count = piece.node_count();
        if most < count {
            most = count;
        }
    }
    most
}

// Where each of these pieces stands in a plan.
pub(crate) fn places_of(alloc: Global, asked: &[SegmentSlice]) -> Result<Places, AllocError>
    ensures { IfOk result (λ places. ReportsPlaces (contains at_cmp places) asked.now) }
{
    let mut places = BTreeSet::new(alloc);
    for piece in asked {
        places.insert(place_of(piece))?;
    }
    Ok(places)
}

// Whether a piece still waits: the round asked no node for it, or one that did not answer, or whose answer misses it.
fn stays(piece: &PendingSlice, round: usize, exchanges: &[Exchange]) -> bool
    requires { IsStrictlyIncreasing (map (λ m. m.0) (map missed_in exchanges.now)) }
    ensures { result ≡ stays round (map missed_in exchanges.now) piece.now }
{
    let Some(node) = piece.turn(round) else {
        return true;
    };
    let Ok(place) = exchanges.binary_search_by_key(&node, |exchange| exchange.node) else {
        return true;
    };
    match &exchanges[place].missed {
        Some(places) => places.contains(&place_of(piece.asked())),
        None => true,
    }
}

// Lets go of what the round's answers gave: in one pass over what waits.
pub(crate) fn keep_missed(waiting: &mut Vec<PendingSlice>, round: usize, exchanges: &[Exchange])
    requires { IsStrictlyIncreasing (map (λ m. m.0) (map missed_in exchanges.now)) }
    ensures { waiting.new.items ≡ filter (stays round (map missed_in exchanges.now)) waiting.old.items }
{
    waiting.retain(|piece| stays(piece, round, exchanges));
}

pub(crate) fn into_pieces(
    alloc: Global,
    waiting: Vec<PendingSlice>,
) -> Result<Vec<SegmentSlice>, AllocError>
    ensures { IfOk result (λ pieces. pieces.items ≡ pieces_of waiting.items) }
{
    let mut pieces = Vec::with_capacity(alloc, waiting.len())?;
    for piece in waiting {
        pieces.push(piece.into_asked())?;
    }
    Ok(pieces)
}
