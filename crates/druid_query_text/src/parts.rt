//! The parts of a query, with borrowed texts: each is judged before anything is built, and built of
//! what was judged: no field is looked for twice. Queries and subqueries differ in where their
//! intervals stand, which each judges and writes for itself.
ghost use Rattle.std.specs.Prelude.{◌≡◌, IfOk, option_map};
ghost use Rattle.serde_json.specs.View.{view};
ghost use Rattle.druid_filter.specs.Filters.{says};
ghost use Rattle.druid_query.specs.Fields.{interval_of};
ghost use Rattle.druid_query.specs.Read.{IsQuery};
ghost use Rattle.druid_query_text.specs.Found.{Finds, readings};
ghost use Rattle.druid_query_text.specs.Parts.{head_at, tail_at, query_by};

use crate::aggregator::{aggregator_items, aggregator_list};
use crate::dimension::{dimension_items, dimension_list};
use crate::distinct::are_distinct;
use crate::fields::{check_no_more, granularity_of, kind_of, source_of};
use crate::filter::{filter_field, filter_of};
use crate::interval::interval_list;
use druid_filter::Filter;
use druid_query::{Aggregator, Dimension, Query, QueryFault, QueryType};
use druid_segment_id::Name;
use druid_time::Granularity;
use serde_json::Value;
use std::alloc::{AllocError, Global};
use std::marker::Model;

// What stands before the intervals.
#[derive(Drop)]
pub(crate) struct Head<'a> {
    kind: QueryType,
    source: &'a str,
    granularity: Granularity,
}

impl<'a> Model for Head<'a> {
    ghost use Rattle.druid_query_text.specs.Parts.{Head};

    ghost Value = { Head };

    ghost view = { λ a. record { kind = a.kind; source = a.source.now; granularity = a.granularity } };
}

impl<'a> Head<'a> {
    // What stands before the intervals of a value, or the first refusal.
    pub(crate) fn of(value: &'a Value) -> Result<Head<'a>, QueryFault>
        ensures { Finds result (head_at (view value.now)) }
    {
        let Some(kind) = kind_of(value) else {
            return Err(QueryFault::UnknownType);
        };
        let source = source_of(value)?;
        let granularity = granularity_of(value)?;
        Ok(Head {
            kind,
            source,
            granularity,
        })
    }

    pub(crate) fn kind(&self) -> QueryType
        ensures { result ≡ self.now.kind }
    {
        self.kind
    }

    pub(crate) fn source(&self) -> &'a str
        ensures { result.now ≡ self.now.source }
    {
        self.source
    }

    // The source's name.
    fn name(&self, alloc: Global) -> Result<Name, AllocError>
        ensures { IfOk result (λ name. name ≡ self.now.source) }
    {
        // A text that is a name makes one, unless memory runs out.
        let Ok(name) = Name::new(alloc, self.source) else {
            return Err(AllocError);
        };
        Ok(name)
    }
}

// What stands after the intervals.
#[derive(Drop)]
pub(crate) struct Tail<'a> {
    filter: Option<&'a Value>,
    dimensions: &'a [Value],
    aggregations: &'a [Value],
}

impl<'a> Model for Tail<'a> {
    ghost use Rattle.std.specs.Prelude.{option_and_then, IfSome};
    ghost use Rattle.druid_query.specs.Fields.{dimension_at, aggregator_at};
    ghost use Rattle.druid_query.specs.Filters.{filter_at};
    ghost use Rattle.druid_query_text.specs.Found.{read_of, readings, Reads};
    ghost use Rattle.druid_query_text.specs.Parts.{Tail};
    ghost use Rattle.std.specs.Coded.{codes};
    ghost use Rattle.druid_filter.specs.FilterCode.{coded_condition};

    ghost Value = { Tail };

    ghost coded = { Prim.hlevel (codes, coded_condition) };

    ghost view = { λ a. record {
      filter = option_and_then (λ v. read_of filter_at v.now) a.filter;
      dimensions = readings dimension_at a.dimensions.now;
      aggregations = readings aggregator_at a.aggregations.now;
    } };

    ghost invariant = { λ a. IfSome a.filter (λ v. Reads filter_at v.now) };
}

impl<'a> Tail<'a> {
    // What stands after the intervals of a value, or the first refusal.
    pub(crate) fn of(kind: QueryType, value: &'a Value) -> Result<Tail<'a>, QueryFault>
        ensures { Finds result (tail_at kind (view value.now)) }
    {
        let filter = filter_field(value)?;
        let dimensions = dimension_items(kind, value)?;
        let aggregations = aggregator_items(value)?;
        check_no_more(value)?;
        if !are_distinct(dimensions, aggregations) {
            return Err(QueryFault::DoubledName);
        }
        Ok(Tail {
            filter,
            dimensions,
            aggregations,
        })
    }

    // The filter, built.
    fn filter(&self, alloc: Global) -> Result<Option<Filter>, AllocError>
        ensures { IfOk result (λ filter. option_map says filter ≡ self.now.filter) }
    {
        match self.filter {
            Some(value) => Ok(Some(filter_of(alloc, value)?)),
            None => Ok(None),
        }
    }

    fn dimensions(&self, alloc: Global) -> Result<Vec<Dimension>, AllocError>
        ensures { IfOk result (λ all. all.items ≡ self.now.dimensions) }
    {
        dimension_list(alloc, self.dimensions)
    }

    fn aggregations(&self, alloc: Global) -> Result<Vec<Aggregator>, AllocError>
        ensures { IfOk result (λ all. all.items ≡ self.now.aggregations) }
    {
        aggregator_list(alloc, self.aggregations)
    }
}

// A query, with borrowed parts.
#[derive(Drop)]
pub(crate) struct QueryRef<'a> {
    head: Head<'a>,
    intervals: &'a [Value],
    tail: Tail<'a>,
}

impl<'a> Model for QueryRef<'a> {
    ghost use Rattle.druid_query.specs.Fields.{interval_of};
    ghost use Rattle.druid_query.specs.Query.{Query, query_of};
    ghost use Rattle.std.specs.Coded.{codes};
    ghost use Rattle.druid_filter.specs.FilterCode.{coded_condition};
    ghost use Rattle.druid_query_text.specs.Found.{readings};

    ghost Value = { Query };

    ghost coded = { Prim.hlevel (codes, coded_condition) };

    ghost view = { λ a. query_of a.head.kind a.head.source a.head.granularity (readings interval_of a.intervals.now)
        a.tail.filter a.tail.dimensions a.tail.aggregations };
}

impl<'a> QueryRef<'a> {
    // The query of these parts, where each of the intervals is the text of one.
    pub(crate) fn new(head: Head<'a>, intervals: &'a [Value], tail: Tail<'a>) -> QueryRef<'a>
        ensures { result ≡ query_by head.entry (readings interval_of intervals.now) tail.entry }
    {
        QueryRef {
            head,
            intervals,
            tail,
        }
    }

    // A copy.
    pub(crate) fn to_owned_in(&self, alloc: Global) -> Result<Query, AllocError>
        requires { IsQuery self.now }
        ensures { IfOk result (λ query. query ≡ self.now) }
    {
        let source = self.head.name(alloc)?;
        let intervals = interval_list(alloc, self.intervals)?;
        let filter = self.tail.filter(alloc)?;
        let dimensions = self.tail.dimensions(alloc)?;
        let aggregations = self.tail.aggregations(alloc)?;
        Query::new(
            alloc,
            self.head.kind,
            source,
            self.head.granularity,
            intervals,
            filter,
            dimensions,
            aggregations,
        )
    }
}
