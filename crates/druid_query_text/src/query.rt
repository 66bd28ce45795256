//! Queries, read and written.
ghost use Rattle.std.specs.Prelude.{◌≡◌, Some, IfOk, OnOk, option_map, option_and_then, codes, string_bytes};
ghost use Rattle.serde_json.specs.Find.{get};
ghost use Rattle.serde_json.specs.View.{view, items_view, members_view};
ghost use Rattle.druid_query.specs.Fields.{interval_texts, interval_of};
ghost use Rattle.druid_query.specs.Refusal.{Gives};
ghost use Rattle.druid_query.specs.Read.{intervals_at, query_at, IsReadOf};
ghost use Rattle.druid_query_text.specs.Found.{FindsBy, Finds, readings};
ghost use Rattle.serde_json.specs.Data.{array, string, object, put};
ghost use Rattle.serde_json.specs.Read.{read};
ghost use Rattle.druid_query.specs.Written.{kinded_data, query_data, query_text};
ghost use Rattle.druid_query_text.specs.Members.{dimensions_put};

use crate::aggregator::aggregations_value;
use crate::dimension::dimensions_value;
use crate::fields::{granularity_text, kind_text};
use crate::filter::wanted_value;
use crate::interval::{interval_items, interval_texts, intervals_value};
use crate::parts::{Head, QueryRef, Tail};
use druid_base::{JsonFault, parse_json};
use druid_query::{Query, QueryFault, QueryType};
use serde_json::{Map, Value, put};
use std::alloc::{AllocError, Global};

fn interval_field(value: &Value) -> Option<&[Value]>
    ensures { option_map (λ vs. items_view vs.now) result ≡ option_and_then interval_texts (get (codes "intervals") (view value.now)) }
{
    interval_texts(value.get("intervals")?)
}

#[tactic(auto, unfolding(druid_query::specs::Read::intervals_at))]
fn intervals_of(value: &Value) -> Result<&[Value], QueryFault>
    ensures { FindsBy (λ vs. readings interval_of vs.now) result (intervals_at (view value.now)) }
{
    interval_items(interval_field(value), "intervals")
}

// The query that a value is, or its first refusal.
fn parts_of(value: &Value) -> Result<QueryRef<'_>, QueryFault>
    ensures { Finds result (query_at (view value.now)) }
{
    let head = Head::of(value)?;
    let intervals = intervals_of(value)?;
    let tail = Tail::of(head.kind(), value)?;
    Ok(QueryRef::new(head, intervals, tail))
}

/// Reads a query. Keys of which no refusal speaks are passed over.
///
/// # Errors
///
/// Q2; then field by field, in the order `dataSource`, `granularity`, `intervals`, `filter`,
/// `dimensions`, `aggregations`, `descending`: Q3 for another shape, then Q4 for a text that is no
/// interval, then Q5 for a limit; then Q3 for `postAggregations`, `virtualColumns`, `having`,
/// `limitSpec`, `limit` and `subtotalsSpec`; then Q6; Q9 last.
pub fn query_of(alloc: Global, value: &Value) -> Result<Query, QueryFault>
    ensures { Gives result (query_at (view value.now)) }
{
    let parts = parts_of(value)?;
    match parts.to_owned_in(alloc) {
        Ok(query) => Ok(query),
        Err(AllocError) => Err(QueryFault::Memory),
    }
}

/// Reads a query out of a text.
///
/// # Errors
///
/// Q1; then those of `query_of`. Parsing allocates as it goes: of bytes in UTF-8 Q9 may come in
/// place of any.
pub fn read_query(alloc: Global, bytes: &[u8]) -> Result<Query, QueryFault>
    ensures { IsReadOf bytes.now result }
{
    match parse_json(alloc, bytes) {
        Ok(value) => query_of(alloc, &value),
        Err(JsonFault::NotJson) => Err(QueryFault::NotJson),
        Err(JsonFault::Memory) => Err(QueryFault::Memory),
    }
}

// The dimensions; a `timeseries` has none.
fn put_dimensions(
    alloc: Global,
    query: &Query,
    members: &mut Map<String, Value>,
) -> Result<(), AllocError>
    ensures { OnOk result (members_view members.new.entries
        ≡ dimensions_put query.now.kind query.now.dimensions (members_view members.old.entries)) }
{
    match query.kind() {
        QueryType::Timeseries => Ok(()),
        QueryType::GroupBy => {
            let dimensions = dimensions_value(alloc, query.dimensions())?;
            put(members, alloc, "dimensions", Value::Array(dimensions))
        }
    }
}

// The members of a query, with this at `intervals`.
pub(crate) fn members_of(
    alloc: Global,
    query: &Query,
    intervals: Value,
) -> Result<Map<String, Value>, AllocError>
    ensures { IfOk result (λ members. object (members_view members.entries) ≡ kinded_data query.now.kind query.now (view intervals)) }
{
    let mut members = Map::new(alloc);
    let aggregations = aggregations_value(alloc, query.aggregations())?;
    put(
        &mut members,
        alloc,
        "aggregations",
        Value::Array(aggregations),
    )?;
    let source = Value::try_from_str(alloc, query.source().as_str())?;
    put(&mut members, alloc, "dataSource", source)?;
    put_dimensions(alloc, query, &mut members)?;
    let filter = wanted_value(alloc, query.filter())?;
    put(&mut members, alloc, "filter", filter)?;
    let granularity = Value::try_from_str(alloc, granularity_text(query.granularity()))?;
    put(&mut members, alloc, "granularity", granularity)?;
    put(&mut members, alloc, "intervals", intervals)?;
    let kind = Value::try_from_str(alloc, kind_text(query.kind()))?;
    put(&mut members, alloc, "queryType", kind)?;
    Ok(members)
}

/// The JSON of a query.
///
/// # Errors
///
/// Out of memory.
pub fn query_value(alloc: Global, query: &Query) -> Result<Value, AllocError>
    ensures { IfOk result (λ v. view v ≡ query_data query.now) }
{
    let intervals = intervals_value(alloc, query.intervals())?;
    let members = members_of(alloc, query, Value::Array(intervals))?;
    Ok(Value::Object(members))
}

/// The text of a query: its JSON, compact, with the keys in the order of their bytes. The data source is written as its name,
/// the granularity in lower case, the intervals as a list, each dimension as an object, and null where there is no filter.
///
/// # Errors
///
/// Out of memory.
#[tactic(auto, using(crate::proofs::PlainLemmas::query_plain, crate::proofs::DepthLemmas::query_deep))]
pub fn query_text(alloc: Global, query: &Query) -> Result<String, AllocError>
    ensures text { IfOk result (λ text. string_bytes text ≡ query_text query.now) }
    ensures read_back { IfOk result (λ text. read (string_bytes text) ≡ Some (query_data query.now)) }
{
    // What it ensures is that some JSON reads as the query, so that it nests no deeper than a reader takes.
    let _ = query.kind();
    query_value(alloc, query)?.to_string(alloc)
}
