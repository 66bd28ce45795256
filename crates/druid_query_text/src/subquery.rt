//! Subqueries, read and written.
ghost use Rattle.std.specs.Prelude.{◌≡◌, Some, IfOk, option_map, option_and_then, codes, string_bytes};
ghost use Rattle.serde_json.specs.Find.{get};
ghost use Rattle.serde_json.specs.View.{view, items_view};
ghost use Rattle.druid_query.specs.Asked.{asked_items, inside_at};
ghost use Rattle.druid_query.specs.Fields.{listed_texts, interval_of};
ghost use Rattle.druid_query.specs.Read.{IsQuery, IsReadBy};
ghost use Rattle.druid_query.specs.SubQuery.{pieces_at, query_intervals_at, span_at, subquery_at, before_search, GivesSub, segments_data, subquery_data, subquery_text};
ghost use Rattle.druid_query_text.specs.Found.{FindsBy, FindsAfter, EachReads, readings};
ghost use Rattle.druid_query_text.specs.Parts.{span_by};
ghost use Rattle.serde_json.specs.Read.{read};

use crate::interval::{interval_items, intervals_value, listed_texts};
use crate::parts::{Head, QueryRef, Tail};
use crate::query::members_of;
use druid_base::{JsonFault, parse_json};
use druid_query::{QueryFault, SegmentSlice, SubQuery};
use druid_query_slice_text::{are_apart, are_inside, asked_items, asked_list, asked_values};
use serde_json::{Value, json, put};
use std::alloc::{AllocError, Global};
use std::marker::Model;

fn asked_field(value: &Value) -> Option<&[Value]>
    ensures { option_map (λ vs. items_view vs.now) result ≡ option_and_then asked_items (get (codes "intervals") (view value.now)) }
{
    asked_items(value.get("intervals")?)
}

// The pieces, before they are searched for two that overlap.
#[tactic(auto, unfolding(druid_query::specs::SubQuery::pieces_at), using(crate::proofs::SubLemmas::no_pieces, crate::proofs::SubLemmas::not_inside, crate::proofs::SubLemmas::inside, crate::proofs::ListLemmas::all_read))]
fn pieces_of<'a>(source: &str, value: &'a Value) -> Result<&'a [Value], QueryFault>
    ensures read { FindsBy (λ vs. readings (inside_at source.now) vs.now) result (pieces_at source.now (view value.now)) }
    ensures each { IfOk result (λ vs. EachReads (inside_at source.now) vs.now) }
{
    let Some(items) = asked_field(value) else {
        return Err(QueryFault::Field("intervals"));
    };
    if !are_inside(source, items) {
        return Err(QueryFault::BadInterval);
    }
    Ok(items)
}

fn query_interval_field(value: &Value) -> Option<&[Value]>
    ensures { option_map (λ vs. items_view vs.now) result ≡ option_and_then listed_texts (get (codes "queryIntervals") (view value.now)) }
{
    listed_texts(value.get("queryIntervals")?)
}

#[tactic(auto, unfolding(druid_query::specs::SubQuery::query_intervals_at))]
fn query_intervals_of(value: &Value) -> Result<&[Value], QueryFault>
    ensures { FindsBy (λ vs. readings interval_of vs.now) result (query_intervals_at (view value.now)) }
{
    interval_items(query_interval_field(value), "queryIntervals")
}

// The pieces, and then the query's own intervals. Out of memory comes of the search for pieces that overlap.
fn span_of<'a>(
    alloc: Global,
    source: &str,
    value: &'a Value,
) -> Result<(&'a [Value], &'a [Value]), QueryFault>
    ensures read { FindsAfter (λ slices. span_by source.now slices.0.now slices.1.now) (pieces_at source.now (view value.now)) result
        (span_at source.now (view value.now)) }
    ensures each { IfOk result (λ slices. EachReads (inside_at source.now) slices.0.now) }
{
    let asked = pieces_of(source, value)?;
    let Ok(apart) = are_apart(alloc, source, asked) else {
        return Err(QueryFault::Memory);
    };
    if !apart {
        return Err(QueryFault::BadInterval);
    }
    let intervals = query_intervals_of(value)?;
    Ok((asked, intervals))
}

// A subquery, with borrowed parts.
#[derive(Drop)]
struct SubQueryRef<'a> {
    query: QueryRef<'a>,
    asked: &'a [Value],
}

impl<'a> Model for SubQueryRef<'a> {
    ghost use Rattle.druid_query.specs.Asked.{inside_at};
    ghost use Rattle.druid_query.specs.SubQuery.{SubQuery};
    ghost use Rattle.druid_query_text.specs.Found.{readings, EachReads};
    ghost use Rattle.std.specs.Coded.{codes};
    ghost use Rattle.druid_filter.specs.FilterCode.{coded_condition};

    ghost Value = { SubQuery };

    ghost coded = { Prim.hlevel (codes, coded_condition) };

    ghost view = { λ a. record { query = a.query; asked = readings (inside_at a.query.source) a.asked.now } };

    ghost invariant = { λ a. EachReads (inside_at a.query.source) a.asked.now };
}

impl<'a> SubQueryRef<'a> {
    // The subquery that a value is, or its first refusal.
    fn of(alloc: Global, value: &'a Value) -> Result<SubQueryRef<'a>, QueryFault>
        ensures { FindsAfter (λ sub. sub) (before_search (view value.now)) result (subquery_at (view value.now)) }
    {
        let head = Head::of(value)?;
        let (asked, intervals) = span_of(alloc, head.source(), value)?;
        let tail = Tail::of(head.kind(), value)?;
        Ok(SubQueryRef {
            query: QueryRef::new(head, intervals, tail),
            asked,
        })
    }

    // A copy.
    #[tactic(auto, using(crate::proofs::ListLemmas::all_readings))]
    fn to_owned_in(&self, alloc: Global) -> Result<SubQuery, AllocError>
        requires { IsQuery self.now.query }
        ensures { IfOk result (λ sub. sub ≡ self.now) }
    {
        let query = self.query.to_owned_in(alloc)?;
        let asked = asked_list(alloc, query.source(), self.asked)?;
        Ok(SubQuery::new(query, asked))
    }
}

/// Reads a subquery: a query where `intervals` holds an object of the type `segments` with the
/// pieces that are asked for, and `queryIntervals`, which is read after it, a list of the query's
/// own intervals.
///
/// # Errors
///
/// Those of `query_of`, in its order; of the pieces Q3 where none is asked for or one has another
/// shape, its `part` and `ver` included; then Q4 where a text is no interval, a piece is not inside
/// its segment, or two pieces of one segment overlap. To find the last allocates: Q9 may come in
/// place of it and of what follows it.
pub fn subquery_of(alloc: Global, value: &Value) -> Result<SubQuery, QueryFault>
    ensures { GivesSub (view value.now) result }
{
    let parts = SubQueryRef::of(alloc, value)?;
    match parts.to_owned_in(alloc) {
        Ok(subquery) => Ok(subquery),
        Err(AllocError) => Err(QueryFault::Memory),
    }
}

/// Reads a subquery out of a text.
///
/// # Errors
///
/// Q1; then those of `subquery_of`. Parsing allocates as it goes: of bytes in UTF-8 Q9 may come in
/// place of any.
pub fn read_subquery(alloc: Global, bytes: &[u8]) -> Result<SubQuery, QueryFault>
    ensures { IsReadBy subquery_at bytes.now result }
{
    match parse_json(alloc, bytes) {
        Ok(value) => subquery_of(alloc, &value),
        Err(JsonFault::NotJson) => Err(QueryFault::NotJson),
        Err(JsonFault::Memory) => Err(QueryFault::Memory),
    }
}

#[tactic(auto, unfolding(druid_query::specs::SubQuery::segments_data))]
fn segments_value(alloc: Global, asked: &[SegmentSlice]) -> Result<Value, AllocError>
    ensures { IfOk result (λ v. view v ≡ segments_data asked.now) }
{
    let segments = asked_values(alloc, asked)?;
    json!(in alloc; {
        "segments": Value::Array(segments),
        "type": "segments",
    })
}

/// The JSON of a subquery.
///
/// # Errors
///
/// Out of memory.
pub fn subquery_value(alloc: Global, subquery: &SubQuery) -> Result<Value, AllocError>
    ensures { IfOk result (λ v. view v ≡ subquery_data subquery.now) }
{
    let query = subquery.query();
    let segments = segments_value(alloc, subquery.asked())?;
    let mut members = members_of(alloc, query, segments)?;
    let intervals = intervals_value(alloc, query.intervals())?;
    put(
        &mut members,
        alloc,
        "queryIntervals",
        Value::Array(intervals),
    )?;
    Ok(Value::Object(members))
}

/// The text of a subquery: that of its query, where `intervals` holds the pieces, as an object of the type `segments`, and
/// `queryIntervals` the intervals of the query.
///
/// # Errors
///
/// Out of memory.
#[tactic(auto, using(crate::proofs::PlainLemmas::subquery_plain, crate::proofs::DepthLemmas::subquery_deep))]
pub fn subquery_text(alloc: Global, subquery: &SubQuery) -> Result<String, AllocError>
    ensures text { IfOk result (λ text. string_bytes text ≡ subquery_text subquery.now) }
    ensures read_back { IfOk result (λ text. read (string_bytes text) ≡ Some (subquery_data subquery.now)) }
{
    // What it ensures is that some JSON reads as the query, so that it nests no deeper than a reader takes.
    let _ = subquery.query().kind();
    subquery_value(alloc, subquery)?.to_string(alloc)
}
