//! Filters, read out of JSON and written. They are walked three times: for their shape, for the
//! limits, and to be built.
ghost use Rattle.std.specs.Prelude.{◌&&◌, map, length, nat_le, string_bytes, Ok, ◌≡◌, ◌-◌, ◌≤◌, Some, IfOk, IsSome, IfSome, option_map, option_and_then, is_some};
ghost use Rattle.std.specs.List.{list_all};
ghost use Rattle.serde_json.specs.View.{view, items_view};
ghost use Rattle.druid_base.specs.Each.{each_of};
ghost use Rattle.druid_base.specs.Fields.{text_or_null};
ghost use Rattle.druid_query.specs.Filters.{filter_at, each_filter};
ghost use Rattle.druid_query_text.specs.Levels.{selector_layer, among_layer, layer_named, layer_at, layer_of, leaf, left_after, all_left, fits_among};
ghost use Rattle.druid_query_text.specs.Found.{FindsBy, Reads, read_of, holds_in};
ghost use Rattle.druid_query.specs.Read.{filter_field};
ghost use Rattle.druid_query.specs.Query.{is_label, is_short, fits_filter};
ghost use Rattle.druid_filter.specs.Filters.{says, each_says, has, has_among};
ghost use Rattle.druid_filter.specs.Values.{nullable_texts_of};
ghost use Rattle.serde_json.specs.View.{items_of};
ghost use Rattle.druid_query.specs.Written.{value_data, selector_data, among_data, fields_data, not_data, filter_data, filters_data, wanted_data};

use druid_base::{are_texts_or_null, copy_text, list_field, text_field, text_or_null};
use druid_filter::Filter;
use druid_query::{MAX_LEVELS, MAX_MEMBERS, MAX_VALUES, QueryFault, is_label, is_short};
use serde_json::{Value, json};
use std::alloc::{AllocError, Global};

// A filter seen one level deep, with borrowed texts.
#[derive(Drop)]
enum FilterLevel<'a> {
    Selector(&'a str, Option<&'a str>),
    Among(&'a str, &'a [Value]),
    All(&'a [Value]),
    Any(&'a [Value]),
    Not(&'a Value),
}

fn selector_level(value: &Value) -> Option<FilterLevel<'_>>
    ensures { option_map layer_of result ≡ selector_layer (view value.now) }
{
    let dimension = text_field(value, "dimension")?;
    let wanted = text_or_null(value.get("value")?)?;
    Some(FilterLevel::Selector(dimension, wanted))
}

fn among_level(value: &Value) -> Option<FilterLevel<'_>>
    ensures { option_map layer_of result ≡ among_layer (view value.now) }
{
    let dimension = text_field(value, "dimension")?;
    let values = list_field(value, "values")?;
    Some(FilterLevel::Among(dimension, values))
}

#[tactic(auto, unfolding(crate::specs::Levels::layer_named))]
fn level_named<'a>(kind: &str, value: &'a Value) -> Option<FilterLevel<'a>>
    ensures { option_map layer_of result ≡ layer_named kind.now (view value.now) }
{
    match kind {
        "selector" => selector_level(value),
        "in" => among_level(value),
        "and" => Some(FilterLevel::All(list_field(value, "fields")?)),
        "or" => Some(FilterLevel::Any(list_field(value, "fields")?)),
        "not" => Some(FilterLevel::Not(value.get("field")?)),
        _ => None,
    }
}

#[tactic(auto, unfolding(crate::specs::Levels::layer_at))]
fn level_of(value: &Value) -> Option<FilterLevel<'_>>
    ensures { option_map layer_of result ≡ layer_at (view value.now) }
{
    level_named(text_field(value, "type")?, value)
}

// Whether a value is a filter.
#[cycle(is_filter)]
fn is_filter(value: &Value) -> bool
    ensures { result ≡ is_some (filter_at (view value.now)) }
{
    match level_of(value) {
        None => false,
        Some(FilterLevel::Selector(_dimension, _wanted)) => true,
        Some(FilterLevel::Among(_dimension, values)) => are_texts_or_null(values),
        Some(FilterLevel::All(fields)) => are_filters(fields),
        Some(FilterLevel::Any(fields)) => are_filters(fields),
        Some(FilterLevel::Not(field)) => is_filter(field),
    }
}

#[cycle(is_filter)]
fn are_filters(values: &[Value]) -> bool
    ensures { result ≡ is_some (each_filter (items_view values.now)) }
{
    for value in values {
        if !is_filter(value) {
            return false;
        }
    }
    true
}

fn fits_selector(dimension: &str, wanted: Option<&str>) -> bool
    ensures { result ≡ (is_label dimension.now && is_short (option_map (λ s. s.now) wanted.entry)) }
{
    is_label(dimension) && is_short(wanted)
}

fn is_short_value(value: &Value) -> bool
    ensures { result ≡ holds_in is_short (text_or_null (view value.now)) }
{
    match text_or_null(value) {
        Some(value) => is_short(value),
        None => false,
    }
}

fn are_short(values: &[Value]) -> bool
    ensures { result ≡ list_all (λ value. holds_in is_short (text_or_null (view value))) values.now }
{
    values.iter().all(|value| is_short_value(value))
}

fn are_few(values: &[Value]) -> bool
    ensures { result ≡ nat_le (length values.now) 1000 }
{
    values.len() <= MAX_VALUES
}

fn fits_among(dimension: &str, values: &[Value]) -> bool
    ensures { result ≡ fits_among dimension.now (items_view values.now) }
{
    if !is_label(dimension) {
        return false;
    }
    if !are_few(values) {
        return false;
    }
    are_short(values)
}

fn leaf(fits: bool, room: usize) -> Option<usize>
    requires { 1 ≤ room }
    ensures { result ≡ leaf fits room }
{
    if fits { Some(room - 1) } else { None }
}

// The places that a filter leaves of these, where it nests no deeper than this and its texts are within their limits.
#[cycle(room_after)]
fn room_after(value: &Value, deep: usize, room: usize) -> Option<usize>
    ensures { result ≡ option_and_then (λ c. left_after c deep room) (filter_at (view value.now)) }
{
    if deep == 0 {
        return None;
    }
    if room == 0 {
        return None;
    }
    match level_of(value) {
        None => None,
        Some(FilterLevel::Selector(dimension, wanted)) => leaf(
            fits_selector(dimension, wanted),
            room,
        ),
        Some(FilterLevel::Among(dimension, values)) => leaf(fits_among(dimension, values), room),
        Some(FilterLevel::All(fields)) => room_after_all(fields, deep - 1, room - 1),
        Some(FilterLevel::Any(fields)) => room_after_all(fields, deep - 1, room - 1),
        Some(FilterLevel::Not(field)) => room_after(field, deep - 1, room - 1),
    }
}

#[cycle(room_after)]
fn room_after_all(values: &[Value], deep: usize, room: usize) -> Option<usize>
    ensures { result ≡ option_and_then (λ cs. all_left cs deep room) (each_filter (items_view values.now)) }
{
    let mut left = room;
    for value in values {
        match room_after(value, deep, left) {
            Some(rest) => left = rest,
            None => return None,
        }
    }
    Some(left)
}

// Whether a value is a filter that passes no limit.
fn fits_filter(value: &Value) -> bool
    ensures { result ≡ holds_in fits_filter (filter_at (view value.now)) }
{
    room_after(value, MAX_LEVELS, MAX_MEMBERS).is_some()
}

// The filter of a query, if there is one.
#[tactic(auto, unfolding(druid_query::specs::Read::filter_field, druid_query::specs::Read::wanted_filter), using(crate::proofs::ListLemmas::no_filter, crate::proofs::ListLemmas::filter_passes, crate::proofs::ListLemmas::filter_fits))]
pub(crate) fn filter_field(value: &Value) -> Result<Option<&Value>, QueryFault>
    ensures read { FindsBy (option_and_then (λ v. read_of filter_at v.now)) result (filter_field (view value.now)) }
    ensures each { IfOk result (λ filter. IfSome filter (λ v. Reads filter_at v.now)) }
{
    let Some(filter) = value.get("filter") else {
        return Ok(None);
    };
    if filter.is_null() {
        return Ok(None);
    }
    if !is_filter(filter) {
        return Err(QueryFault::Field("filter"));
    }
    if !fits_filter(filter) {
        return Err(QueryFault::LimitPassed);
    }
    Ok(Some(filter))
}

fn selector_of(alloc: Global, dimension: &str, wanted: Option<&str>) -> Result<Filter, AllocError>
    ensures { IfOk result (λ f. says f ≡ has dimension.now (option_map (λ s. s.now) wanted.entry)) }
{
    let dimension = String::from_str(alloc, dimension)?;
    let wanted = copy_text(alloc, wanted)?;
    Ok(Filter::Selector(dimension, wanted))
}

// The values, each of which is a text or null.
fn values_of(alloc: Global, values: &[Value]) -> Result<Vec<Option<String>>, AllocError>
    requires { IsSome (each_of text_or_null (items_view values.now)) }
    ensures { IfOk result (λ wanted. each_of text_or_null (items_view values.now) ≡ Some (nullable_texts_of wanted.items)) }
{
    let mut wanted = Vec::with_capacity(alloc, values.len())?;
    for value in values {
        let Some(text) = text_or_null(value) else {
            unreachable!()
        };
        wanted.push(copy_text(alloc, text)?)?;
    }
    Ok(wanted)
}

fn among_of(alloc: Global, dimension: &str, values: &[Value]) -> Result<Filter, AllocError>
    requires { IsSome (each_of text_or_null (items_view values.now)) }
    ensures { IfOk result (λ f. option_map (has_among dimension.now) (each_of text_or_null (items_view values.now)) ≡ Some (says f)) }
{
    let dimension = String::from_str(alloc, dimension)?;
    let wanted = values_of(alloc, values)?;
    Ok(Filter::Among(dimension, wanted))
}

// The filter that a value is. It was judged before to be one.
#[cycle(filter_of)]
pub(crate) fn filter_of(alloc: Global, value: &Value) -> Result<Filter, AllocError>
    requires { IsSome (filter_at (view value.now)) }
    ensures { IfOk result (λ f. filter_at (view value.now) ≡ Some (says f)) }
{
    match level_of(value) {
        None => unreachable!(),
        Some(FilterLevel::Selector(dimension, wanted)) => selector_of(alloc, dimension, wanted),
        Some(FilterLevel::Among(dimension, values)) => among_of(alloc, dimension, values),
        Some(FilterLevel::All(fields)) => Ok(Filter::All(filters_of(alloc, fields)?)),
        Some(FilterLevel::Any(fields)) => Ok(Filter::Any(filters_of(alloc, fields)?)),
        Some(FilterLevel::Not(field)) => Ok(Filter::Not(Box::new(
            alloc,
            filter_of(alloc, field)?,
        )?)),
    }
}

#[cycle(filter_of)]
fn filters_of(alloc: Global, values: &[Value]) -> Result<Vec<Filter>, AllocError>
    requires { IsSome (each_filter (items_view values.now)) }
    ensures { IfOk result (λ fs. each_filter (items_view values.now) ≡ Some (each_says fs.items)) }
{
    let mut filters = Vec::with_capacity(alloc, values.len())?;
    for value in values {
        filters.push(filter_of(alloc, value)?)?;
    }
    Ok(filters)
}

fn value_value(alloc: Global, value: &Option<String>) -> Result<Value, AllocError>
    ensures { IfOk result (λ v. view v ≡ value_data (option_map string_bytes value.now)) }
{
    match value {
        Some(text) => Ok(Value::String(String::from_str(alloc, text.as_str())?)),
        None => Ok(Value::Null),
    }
}

fn values_value(alloc: Global, values: &[Option<String>]) -> Result<Vec<Value>, AllocError>
    ensures { IfOk result (λ vs. items_view vs.items ≡ items_of (map value_data (nullable_texts_of values.now))) }
{
    let mut all = Vec::with_capacity(alloc, values.len())?;
    for value in values {
        all.push(value_value(alloc, value)?)?;
    }
    Ok(all)
}

#[tactic(auto, unfolding(druid_query::specs::Written::selector_data))]
fn selector_value(
    alloc: Global,
    dimension: &str,
    value: &Option<String>,
) -> Result<Value, AllocError>
    ensures { IfOk result (λ v. view v ≡ selector_data dimension.now (option_map string_bytes value.now)) }
{
    let value = value_value(alloc, value)?;
    json!(in alloc; {
        "dimension": dimension,
        "type": "selector",
        "value": value,
    })
}

#[tactic(auto, unfolding(druid_query::specs::Written::among_data))]
fn among_value(
    alloc: Global,
    dimension: &str,
    values: &[Option<String>],
) -> Result<Value, AllocError>
    ensures { IfOk result (λ v. view v ≡ among_data dimension.now (nullable_texts_of values.now)) }
{
    let values = values_value(alloc, values)?;
    json!(in alloc; {
        "dimension": dimension,
        "type": "in",
        "values": Value::Array(values),
    })
}

#[tactic(auto, unfolding(druid_query::specs::Written::fields_data))]
fn fields_value(alloc: Global, kind: &str, fields: Vec<Value>) -> Result<Value, AllocError>
    ensures { IfOk result (λ v. view v ≡ fields_data kind.now (items_view fields.items)) }
{
    json!(in alloc; {
        "fields": Value::Array(fields),
        "type": kind,
    })
}

#[tactic(auto, unfolding(druid_query::specs::Written::not_data))]
fn not_value(alloc: Global, field: Value) -> Result<Value, AllocError>
    ensures { IfOk result (λ v. view v ≡ not_data (view field)) }
{
    json!(in alloc; {
        "field": field,
        "type": "not",
    })
}

// The JSON of a filter.
#[cycle(filter_value)]
fn filter_value(alloc: Global, filter: &Filter) -> Result<Value, AllocError>
    ensures { IfOk result (λ v. view v ≡ filter_data (says filter.now)) }
{
    match filter {
        Filter::Selector(dimension, value) => selector_value(alloc, dimension.as_str(), value),
        Filter::Among(dimension, values) => among_value(alloc, dimension.as_str(), values),
        Filter::All(filters) => fields_value(alloc, "and", filter_values(alloc, filters)?),
        Filter::Any(filters) => fields_value(alloc, "or", filter_values(alloc, filters)?),
        Filter::Not(filter) => not_value(alloc, filter_value(alloc, filter)?),
    }
}

#[cycle(filter_value)]
fn filter_values(alloc: Global, filters: &[Filter]) -> Result<Vec<Value>, AllocError>
    ensures { IfOk result (λ vs. items_view vs.items ≡ filters_data (each_says filters.now)) }
{
    let mut all = Vec::with_capacity(alloc, filters.len())?;
    for filter in filters {
        all.push(filter_value(alloc, filter)?)?;
    }
    Ok(all)
}

pub(crate) fn wanted_value(alloc: Global, filter: Option<&Filter>) -> Result<Value, AllocError>
    ensures { IfOk result (λ v. view v ≡ wanted_data (option_map (λ f. says f.now) filter.entry)) }
{
    match filter {
        Some(filter) => filter_value(alloc, filter),
        None => Ok(Value::Null),
    }
}
