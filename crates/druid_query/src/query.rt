//! Queries. Copies share their parts, so that each request to a node has the query itself without a
//! copy of its filter.
ghost use Rattle.std.specs.Prelude.{◌≡◌, IfOk, option_map};
ghost use Rattle.druid_filter.specs.Filters.{says};
ghost use Rattle.druid_query.specs.Query.{query_of};
ghost use Rattle.druid_query.specs.Read.{IsQuery};

use crate::{Aggregator, Dimension, QueryType};
use druid_filter::Filter;
use druid_segment_id::Name;
use druid_time::{Granularity, Interval};
use std::alloc::{AllocError, Global};
use std::marker::Model;
use std::sync::Arc;

// The parts of a query.
#[derive(Debug, Drop)]
struct QueryParts {
    kind: QueryType,
    source: Name,
    granularity: Granularity,
    intervals: Vec<Interval>,
    filter: Option<Filter>,
    dimensions: Vec<Dimension>,
    aggregations: Vec<Aggregator>,
}

impl Model for QueryParts {
    ghost use Rattle.std.specs.Prelude.{option_map};
    ghost use Rattle.std.specs.Coded.{codes};
    ghost use Rattle.druid_filter.specs.FilterCode.{coded_condition};
    ghost use Rattle.druid_filter.specs.Filters.{says};
    ghost use Rattle.druid_query.specs.Query.{Query, query_of};
    ghost use Rattle.druid_query.specs.Read.{IsQuery};

    ghost Value = { Query };

    ghost coded = { Prim.hlevel (codes, coded_condition) };

    ghost view = { λ a. query_of a.kind a.source a.granularity a.intervals.items (option_map says a.filter) a.dimensions.items a.aggregations.items };

    ghost invariant = { λ a. IsQuery (query_of a.kind a.source a.granularity a.intervals.items (option_map says a.filter) a.dimensions.items a.aggregations.items) };
}

/// A query, as it was read. Copies share its parts.
#[derive(Debug, Drop)]
pub struct Query {
    parts: Arc<QueryParts, Global>,
}

impl Model for Query {
    ghost use Rattle.std.specs.Arc.{arc_value};
    ghost use Rattle.std.specs.Coded.{codes};
    ghost use Rattle.druid_filter.specs.FilterCode.{coded_condition};
    ghost use Rattle.druid_query.specs.Query.{Query};

    ghost Value = { Query };

    ghost coded = { Prim.hlevel (codes, coded_condition) };

    ghost view = { λ a. arc_value a.parts };
}

impl Query {
    /// A query of these parts. Requires that some JSON reads as it.
    ///
    /// # Errors
    ///
    /// Out of memory.
    pub fn new(
        alloc: Global,
        kind: QueryType,
        source: Name,
        granularity: Granularity,
        intervals: Vec<Interval>,
        filter: Option<Filter>,
        dimensions: Vec<Dimension>,
        aggregations: Vec<Aggregator>,
    ) -> Result<Query, AllocError>
        requires { IsQuery (query_of kind source granularity intervals.items (option_map says filter) dimensions.items aggregations.items) }
        ensures { IfOk result (λ query. query
            ≡ query_of kind source granularity intervals.items (option_map says filter) dimensions.items aggregations.items) }
    {
        let parts = QueryParts {
            kind,
            source,
            granularity,
            intervals,
            filter,
            dimensions,
            aggregations,
        };
        Ok(Query {
            parts: Arc::new(alloc, parts)?,
        })
    }

    /// How it groups rows.
    pub fn kind(&self) -> QueryType
        ensures value { result ≡ self.now.kind }
        ensures read { IsQuery self.now }
    {
        self.parts.kind
    }

    /// The data source.
    pub fn source(&self) -> &Name
        ensures { result.now ≡ self.now.source }
    {
        &self.parts.source
    }

    /// How long its buckets are.
    pub fn granularity(&self) -> Granularity
        ensures { result ≡ self.now.granularity }
    {
        self.parts.granularity
    }

    /// The intervals, as they stand in the query. They may overlap, and mean their union.
    pub fn intervals(&self) -> &[Interval]
        ensures { result.now ≡ self.now.intervals }
    {
        &self.parts.intervals
    }

    /// Which rows it asks for; all where there is none.
    pub fn filter(&self) -> Option<&Filter>
        ensures { option_map (λ filter. says filter.now) result ≡ self.now.filter }
    {
        self.parts.filter.as_ref()
    }

    /// The dimensions that rows are grouped by. None in a `timeseries`.
    pub fn dimensions(&self) -> &[Dimension]
        ensures { result.now ≡ self.now.dimensions }
    {
        &self.parts.dimensions
    }

    /// What is reported of each group.
    pub fn aggregations(&self) -> &[Aggregator]
        ensures { result.now ≡ self.now.aggregations }
    {
        &self.parts.aggregations
    }
}

impl Clone for Query {
    ghost is_clone = { λ query copy. copy ≡ query };

    fn clone(&self) -> Result<Query, AllocError> {
        Ok(Query {
            parts: Arc::try_clone(&self.parts)?,
        })
    }
}
