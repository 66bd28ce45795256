//! Partial results. They are sorted lists and no maps: so they are read, written and merged in
//! order, and a contract's value is the one list that the rows have.
ghost use Rattle.std.specs.Prelude.{◌≡◌, [], IfOk};
ghost use Rattle.druid_partial.specs.Groups.{IsResult};
ghost use Rattle.druid_partial.specs.Partials.{Partial, IsPartial, IsPartialFor, kinds_of};

use crate::Group;
use druid_query::{AggregatorKind, Query};
use std::alloc::{AllocError, Global};
use std::marker::Model;

/// What a query tells of some rows: its groups, in order, each with a number or null for each aggregator. Partials of one
/// query over different rows are merged into that over all of them.
#[derive(Debug, Drop)]
pub struct Partial {
    kinds: Vec<AggregatorKind>,
    groups: Vec<Group>,
}

impl Model for Partial {
    ghost use Rattle.druid_partial.specs.Partials.{Partial, IsPartial};

    ghost Value = { Partial };

    ghost view = { λ a. record { kinds = a.kinds.items; groups = a.groups.items } };

    ghost invariant = { λ a. IsPartial (record { kinds = a.kinds.items; groups = a.groups.items }) };
}

/// What each aggregator of the query tells.
///
/// # Errors
///
/// Out of memory.
pub fn kinds_of(alloc: Global, query: &Query) -> Result<Vec<AggregatorKind>, AllocError>
    ensures { IfOk result (λ kinds. kinds.items ≡ kinds_of query.now) }
{
    query
        .aggregations()
        .iter()
        .map(|aggregator| aggregator.kind())
        .collect(alloc)
}

impl Partial {
    /// The partial of these groups, which are in order and have a number or null for each of the kinds.
    pub fn new(kinds: Vec<AggregatorKind>, groups: Vec<Group>) -> Partial
        requires { IsPartial (record { kinds = kinds.items; groups = groups.items }) }
        ensures { result ≡ record { kinds = kinds.items; groups = groups.items } }
    {
        Partial { kinds, groups }
    }

    /// What the query tells of no rows.
    ///
    /// # Errors
    ///
    /// Out of memory.
    #[tactic(auto, using(crate::proofs::OrderLemmas::no_groups, crate::proofs::OrderLemmas::no_rows))]
    pub fn empty(alloc: Global, query: &Query) -> Result<Partial, AllocError>
        ensures groups { IfOk result (λ partial. partial.groups ≡ []) }
        ensures of_no_rows { IfOk result (λ partial. IsResult (kinds_of query.now) [] partial.groups) }
        ensures of_query { IfOk result (IsPartialFor query.now) }
    {
        Ok(Partial::new(kinds_of(alloc, query)?, Vec::new(alloc)))
    }

    /// Its groups, by bucket and then by the values of the dimensions in their order, null before texts.
    pub fn groups(&self) -> &[Group]
        ensures value { result.now ≡ self.now.groups }
        ensures valid { IsPartial self.now }
    {
        &self.groups
    }

    // What each number of a group tells.
    pub(crate) fn kinds(&self) -> &[AggregatorKind]
        ensures { result.now ≡ self.now.kinds }
    {
        &self.kinds
    }

    pub(crate) fn into_parts(self) -> (Vec<AggregatorKind>, Vec<Group>)
        ensures kinds { result.0.items ≡ self.kinds }
        ensures groups { result.1.items ≡ self.groups }
        ensures valid { IsPartial self }
    {
        (self.kinds, self.groups)
    }
}
