//! The fields of a query that are no lists, read out of JSON and written. Nothing here allocates.
ghost use Rattle.std.specs.Prelude.{◌≡◌, codes, option_map, option_and_then};
ghost use Rattle.serde_json.specs.View.{view};
ghost use Rattle.serde_json.specs.Find.{get};
ghost use Rattle.druid_query.specs.Fields.{kind_at, typed_text, source_text, granularity_named, all_at, granularity_of, is_empty, is_empty_or_absent, is_null_or_false, is_off};
ghost use Rattle.druid_query.specs.Read.{source_at, granularity_at, no_more_at};
ghost use Rattle.druid_query_text.specs.Found.{FindsBy, Finds};
ghost use Rattle.druid_query.specs.Written.{granularity_text};
ghost use Rattle.druid_query_text.specs.Members.{kind_text};

use druid_base::text_field;
use druid_query::{QueryFault, QueryType, is_label};
use druid_segment_id::Name;
use druid_time::Granularity;
use serde_json::Value;

#[tactic(auto, unfolding(druid_query::specs::Fields::kind_at))]
pub(crate) fn kind_of(value: &Value) -> Option<QueryType>
    ensures { result ≡ kind_at (view value.now) }
{
    match text_field(value, "queryType")? {
        "timeseries" => Some(QueryType::Timeseries),
        "groupBy" => Some(QueryType::GroupBy),
        _ => None,
    }
}

// The text at a key, where the value has that type.
pub(crate) fn typed_text<'a>(value: &'a Value, kind: &str, key: &str) -> Option<&'a str>
    ensures { option_map (λ s. s.now) result ≡ typed_text kind.now key.now (view value.now) }
{
    if text_field(value, "type")? == kind {
        text_field(value, key)
    } else {
        None
    }
}

// The name of a data source.
#[tactic(auto, unfolding(druid_query::specs::Fields::source_text))]
fn source_text(value: &Value) -> Option<&str>
    ensures { option_map (λ s. s.now) result ≡ source_text (view value.now) }
{
    match value.as_str() {
        Some(text) => Some(text),
        None => typed_text(value, "table", "name"),
    }
}

fn source_field(value: &Value) -> Option<&str>
    ensures { option_map (λ s. s.now) result ≡ option_and_then source_text (get (codes "dataSource") (view value.now)) }
{
    source_text(value.get("dataSource")?)
}

#[tactic(auto, unfolding(druid_query::specs::Read::source_at))]
pub(crate) fn source_of(value: &Value) -> Result<&str, QueryFault>
    ensures { FindsBy (λ s. s.now) result (source_at (view value.now)) }
{
    let Some(text) = source_field(value) else {
        return Err(QueryFault::Field("dataSource"));
    };
    if Name::accepts(text) {
        return Ok(text);
    }
    if is_label(text) {
        return Err(QueryFault::Field("dataSource"));
    }
    Err(QueryFault::LimitPassed)
}

fn granularity_named(text: &str) -> Option<Granularity>
    ensures { result ≡ granularity_named text.now }
{
    if text.eq_ignore_ascii_case("all") {
        return Some(Granularity::All);
    }
    if text.eq_ignore_ascii_case("second") {
        return Some(Granularity::Second);
    }
    if text.eq_ignore_ascii_case("minute") {
        return Some(Granularity::Minute);
    }
    if text.eq_ignore_ascii_case("hour") {
        return Some(Granularity::Hour);
    }
    if text.eq_ignore_ascii_case("day") {
        return Some(Granularity::Day);
    }
    None
}

fn all_of(value: &Value) -> Option<Granularity>
    ensures { result ≡ all_at (view value.now) }
{
    if text_field(value, "type")? == "all" {
        Some(Granularity::All)
    } else {
        None
    }
}

#[tactic(auto, unfolding(druid_query::specs::Fields::granularity_of))]
fn granularity_in(value: &Value) -> Option<Granularity>
    ensures { result ≡ granularity_of (view value.now) }
{
    match value.as_str() {
        Some(text) => granularity_named(text),
        None => all_of(value),
    }
}

fn granularity_field(value: &Value) -> Option<Granularity>
    ensures { result ≡ option_and_then granularity_of (get (codes "granularity") (view value.now)) }
{
    granularity_in(value.get("granularity")?)
}

#[tactic(auto, unfolding(druid_query::specs::Read::granularity_at))]
pub(crate) fn granularity_of(value: &Value) -> Result<Granularity, QueryFault>
    ensures { Finds result (granularity_at (view value.now)) }
{
    match granularity_field(value) {
        Some(granularity) => Ok(granularity),
        None => Err(QueryFault::Field("granularity")),
    }
}

#[tactic(auto, using(crate::proofs::EmptyLemmas::empty_null, crate::proofs::EmptyLemmas::empty_array, crate::proofs::EmptyLemmas::empty_object, crate::proofs::EmptyLemmas::not_empty))]
fn is_empty(value: &Value) -> bool
    ensures { result ≡ is_empty (view value.now) }
{
    if value.is_null() {
        return true;
    }
    if let Some(values) = value.as_array() {
        return values.is_empty();
    }
    if let Some(members) = value.as_object() {
        return members.is_empty();
    }
    false
}

// Whether a key is absent, or holds nothing.
fn is_left_out(value: &Value, key: &str) -> bool
    ensures { result ≡ is_empty_or_absent (get key.now (view value.now)) }
{
    match value.get(key) {
        Some(value) => is_empty(value),
        None => true,
    }
}

fn is_null_or_false(value: &Value) -> bool
    ensures { result ≡ is_null_or_false (view value.now) }
{
    match value {
        Value::Null => true,
        Value::Bool(on) => !*on,
        _ => false,
    }
}

// Whether a key is absent, null or false.
fn is_off(value: &Value, key: &str) -> bool
    ensures { result ≡ is_off (get key.now (view value.now)) }
{
    match value.get(key) {
        Some(value) => is_null_or_false(value),
        None => true,
    }
}

// What other queries have: each is left out.
#[tactic(auto, unfolding(druid_query::specs::Read::no_more_at))]
pub(crate) fn check_no_more(value: &Value) -> Result<(), QueryFault>
    ensures { Finds result (no_more_at (view value.now)) }
{
    if !is_off(value, "descending") {
        return Err(QueryFault::Field("descending"));
    }
    if !is_left_out(value, "postAggregations") {
        return Err(QueryFault::Field("postAggregations"));
    }
    if !is_left_out(value, "virtualColumns") {
        return Err(QueryFault::Field("virtualColumns"));
    }
    if !is_left_out(value, "having") {
        return Err(QueryFault::Field("having"));
    }
    if !is_left_out(value, "limitSpec") {
        return Err(QueryFault::Field("limitSpec"));
    }
    if !is_left_out(value, "limit") {
        return Err(QueryFault::Field("limit"));
    }
    if !is_left_out(value, "subtotalsSpec") {
        return Err(QueryFault::Field("subtotalsSpec"));
    }
    Ok(())
}

pub(crate) fn granularity_text(granularity: Granularity) -> &'static str
    ensures { result.now ≡ granularity_text granularity }
{
    match granularity {
        Granularity::All => "all",
        Granularity::Second => "second",
        Granularity::Minute => "minute",
        Granularity::Hour => "hour",
        Granularity::Day => "day",
    }
}

pub(crate) fn kind_text(kind: QueryType) -> &'static str
    ensures { result.now ≡ kind_text kind }
{
    match kind {
        QueryType::Timeseries => "timeseries",
        QueryType::GroupBy => "groupBy",
    }
}
