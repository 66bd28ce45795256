//! Plans, made of an inventory.
ghost use Rattle.std.specs.Prelude.{◌≡◌, ◌++◌, ◌<◌, ◌^◌, All, Contains, filter, IfOk, OnOk};
ghost use Rattle.druid_segment_id.specs.Identifier.{IsIdentifier};
ghost use Rattle.druid_timeline.specs.Pieces.{ArePartitions};
ghost use Rattle.druid_broker_scatter.specs.Plan.{IsPlanOf, asked_of};
ghost use Rattle.druid_broker_scatter.specs.Planned.{asked_for, asked_in, has_nodes, IsServedBy};

use crate::{GatherFault, Pair, Plan};
use druid_inventory::Inventory;
use druid_query::{Query, SegmentSlice};
use druid_segment_id::{Name, SegmentId};
use druid_time::IntervalSet;
use druid_timeline::{Piece, Timeline};
use std::alloc::{AllocError, Global};

// The pair of a partition of a visible chunk. A partition that is held as a tombstone alone has no nodes.
fn pair_of(
    timeline: &Timeline,
    source: &Name,
    piece: &Piece,
    partition: u16,
) -> Result<Pair, AllocError>
    ensures asked { IfOk result (λ pair. pair.asked
        ≡ (record { source = source.now; interval = piece.now.group.interval; version = piece.now.group.version; partition = partition }, piece.now.interval)) }
    ensures served { IfOk result (IsServedBy timeline.now) }
{
    let key = piece.key();
    let segment = SegmentId::new(
        source.clone()?,
        key.interval(),
        key.version().clone()?,
        partition,
    );
    let nodes = timeline.served(&segment)?;
    let slice = SegmentSlice::new(segment, piece.interval());
    Ok(Pair::new(slice, nodes))
}

// Adds the pairs of a piece, one for each partition of its chunk.
fn add_pairs(
    pairs: &mut Vec<Pair>,
    timeline: &Timeline,
    source: &Name,
    piece: &Piece,
) -> Result<(), AllocError>
    ensures asked { OnOk result (asked_of pairs.new.items ≡ asked_of pairs.old.items ++ asked_for source.now piece.now) }
    ensures served { OnOk result (All (IsServedBy timeline.now) pairs.old.items → All (IsServedBy timeline.now) pairs.new.items) }
{
    for partition in piece.parts() {
        pairs.push(pair_of(timeline, source, piece, *partition)?)?;
    }
    Ok(())
}

fn pairs_of(
    alloc: Global,
    timeline: &Timeline,
    source: &Name,
    pieces: &[Piece],
) -> Result<Vec<Pair>, AllocError>
    ensures asked { IfOk result (λ pairs. asked_of pairs.items ≡ asked_in source.now pieces.now) }
    ensures served { IfOk result (λ pairs. All (IsServedBy timeline.now) pairs.items) }
{
    let mut pairs = Vec::with_capacity(alloc, pieces.len())?;
    for piece in pieces {
        add_pairs(&mut pairs, timeline, source, piece)?;
    }
    Ok(pairs)
}

// Lets go of the pairs of which no node serves rows.
fn keep_served(pairs: &mut Vec<Pair>)
    ensures { pairs.new.items ≡ filter has_nodes pairs.old.items }
{
    pairs.retain(|pair| !pair.nodes().is_empty());
}

/// From which pieces of which segments the query is answered, and which nodes serve rows of each, as far as the inventory
/// tells: the chunks that are visible in the intervals of the query, each in just the pieces in which it is visible. What is
/// held as a tombstone alone overshadows, but is not asked for.
///
/// # Errors
///
/// G9.
pub fn plan(alloc: Global, inventory: &Inventory, query: &Query) -> Result<Plan, GatherFault>
    ensures ok { IfOk result (λ plan. IsPlanOf inventory.now query.now plan) }
{
    let source = query.source();
    let Some(timeline) = inventory.timeline(source) else {
        return Ok(Plan::new(Vec::new(alloc)));
    };
    let set = IntervalSet::of(alloc, query.intervals())?;
    let pieces = timeline.lookup(&set)?;
    let mut pairs = pairs_of(alloc, timeline, source, &pieces)?;
    keep_served(&mut pairs);
    Ok(Plan::new(pairs))
}
