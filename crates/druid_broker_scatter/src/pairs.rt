//! Which pieces of which segments a query is answered from.
ghost use Rattle.std.specs.Prelude.{◌≡◌};
ghost use Rattle.std.specs.List.Sorted.{IsStrictlyIncreasing, IsStrictlySortedBy};
ghost use Rattle.druid_broker_scatter.specs.Plan.{asked_of, place_cmp};

use druid_query::SegmentSlice;
use druid_segment_descriptor::NodeNo;
use std::marker::Model;

/// A piece of a segment that is asked for, and the nodes that serve the segment, rising.
#[derive(Debug, Drop)]
pub struct Pair {
    asked: SegmentSlice,
    nodes: Vec<NodeNo>,
}

impl Model for Pair {
    ghost use Rattle.std.specs.List.Sorted.{IsStrictlyIncreasing};
    ghost use Rattle.druid_broker_scatter.specs.Plan.{Pair};

    ghost Value = { Pair };

    ghost view = { λ a. record { asked = a.asked; nodes = a.nodes.items } };

    ghost invariant = { λ a. IsStrictlyIncreasing a.nodes.items };
}

impl Pair {
    // The pair of a piece and the nodes that serve its segment.
    pub(crate) fn new(asked: SegmentSlice, nodes: Vec<NodeNo>) -> Pair
        requires { IsStrictlyIncreasing nodes.items }
        ensures { result ≡ record { asked = asked; nodes = nodes.items } }
    {
        Pair { asked, nodes }
    }

    /// The piece.
    pub fn asked(&self) -> &SegmentSlice
        ensures { result.now ≡ self.now.asked }
    {
        &self.asked
    }

    /// The nodes that serve its segment, rising.
    pub fn nodes(&self) -> &[NodeNo]
        ensures value { result.now ≡ self.now.nodes }
        ensures rising { IsStrictlyIncreasing self.now.nodes }
    {
        &self.nodes
    }
}

/// What a query is answered from: each piece once, by its start, and then by its partition.
#[derive(Debug, Drop)]
pub struct Plan {
    pairs: Vec<Pair>,
}

impl Model for Plan {
    ghost use Rattle.std.specs.Prelude.{List};
    ghost use Rattle.std.specs.List.Sorted.{IsStrictlySortedBy};
    ghost use Rattle.druid_broker_scatter.specs.Plan.{Pair, asked_of, place_cmp};

    ghost Value = { List Pair };

    ghost view = { λ a. a.pairs.items };

    ghost invariant = { λ a. IsStrictlySortedBy place_cmp (asked_of a.pairs.items) };
}

impl Plan {
    pub(crate) fn new(pairs: Vec<Pair>) -> Plan
        requires { IsStrictlySortedBy place_cmp (asked_of pairs.items) }
        ensures { result ≡ pairs.items }
    {
        Plan { pairs }
    }

    /// The pairs, in order.
    pub fn pairs(&self) -> &[Pair]
        ensures value { result.now ≡ self.now }
        ensures ordered { IsStrictlySortedBy place_cmp (asked_of self.now) }
    {
        &self.pairs
    }
}
