//! Queries to a node, each with the segment slices that it is to be answered from.
ghost use Rattle.std.specs.Prelude.{◌≡◌};

use crate::{Query, SegmentSlice};
use std::marker::Model;

/// A query to a node, and the segment slices that it is to be answered from.
#[derive(Debug, Drop)]
pub struct SubQuery {
    query: Query,
    asked: Vec<SegmentSlice>,
}

impl Model for SubQuery {
    ghost use Rattle.std.specs.Coded.{codes};
    ghost use Rattle.druid_filter.specs.FilterCode.{coded_condition};
    ghost use Rattle.druid_query.specs.SubQuery.{SubQuery};

    ghost Value = { SubQuery };

    ghost coded = { Prim.hlevel (codes, coded_condition) };

    ghost view = { λ a. record { query = a.query; asked = a.asked.items } };
}

impl SubQuery {
    /// That query, to be answered from those slices. Its text is read back where a slice is asked for, each is of a segment of
    /// the query's data source and lies inside it, and no two of one segment overlap.
    pub fn new(query: Query, asked: Vec<SegmentSlice>) -> SubQuery
        ensures { result ≡ record { query = query; asked = asked.items } }
    {
        SubQuery { query, asked }
    }

    /// The query.
    pub fn query(&self) -> &Query
        ensures { result.now ≡ self.now.query }
    {
        &self.query
    }

    /// The slices, in the order in which they are asked for.
    pub fn asked(&self) -> &[SegmentSlice]
        ensures { result.now ≡ self.now.asked }
    {
        &self.asked
    }
}
