//! Dimensions, read out of JSON and written.
ghost use Rattle.std.specs.Prelude.{◌≡◌, IfOk, option_map};
ghost use Rattle.serde_json.specs.Find.{get};
ghost use Rattle.serde_json.specs.View.{view, items_view};
ghost use Rattle.druid_query.specs.Fields.{text_or, default_dimension, dimension_at};
ghost use Rattle.druid_query.specs.Query.{fits_dimension};
ghost use Rattle.druid_query.specs.Read.{listed_dimensions, dimensions_at};
ghost use Rattle.druid_query_text.specs.Found.{FindsBy, EachReads, readings};
ghost use Rattle.druid_query.specs.Written.{dimension_data, dimensions_data};

use crate::fields::typed_text;
use crate::item::{Item, are_fit, items_field};
use druid_query::{Dimension, MAX_DIMENSIONS, QueryFault, QueryType, is_label};
use serde_json::{Value, json};
use std::alloc::{AllocError, Global};
use std::marker::Model;

// A dimension, with borrowed texts.
#[derive(Drop)]
pub(crate) struct DimensionRef<'a> {
    dimension: &'a str,
    output_name: &'a str,
}

impl<'a> Model for DimensionRef<'a> {
    ghost use Rattle.druid_query.specs.Query.{Dimension};

    ghost Value = { Dimension };

    ghost view = { λ a. record { dimension = a.dimension.now; output_name = a.output_name.now } };
}

impl<'a> DimensionRef<'a> {
    pub(crate) fn output_name(&self) -> &'a str
        ensures { result.now ≡ self.now.output_name }
    {
        self.output_name
    }

    // A copy.
    fn to_owned_in(&self, alloc: Global) -> Result<Dimension, AllocError>
        ensures { IfOk result (λ copy. copy ≡ self.now) }
    {
        Dimension::new(alloc, self.dimension, self.output_name)
    }
}

impl<'a> Item<'a> for DimensionRef<'a> {
    ghost at = { dimension_at };

    ghost fits = { fits_dimension };

    fn of(value: &'a Value) -> Option<DimensionRef<'a>>
        ensures { result ≡ dimension_at (view value.now) }
    {
        dimension_of(value)
    }

    fn is_fit(&self) -> bool
        ensures { result ≡ fits_dimension self.now }
    {
        is_label(self.dimension) && is_label(self.output_name)
    }
}

// The text at a key, or this one where there is no such key.
fn text_or<'a>(value: &'a Value, key: &str, otherwise: &'a str) -> Option<&'a str>
    ensures { option_map (λ s. s.now) result ≡ text_or otherwise.now (get key.now (view value.now)) }
{
    match value.get(key) {
        Some(value) => value.as_str(),
        None => Some(otherwise),
    }
}

#[tactic(auto, unfolding(druid_query::specs::Fields::default_dimension))]
fn default_dimension(value: &Value) -> Option<DimensionRef<'_>>
    ensures { result ≡ default_dimension (view value.now) }
{
    let dimension = typed_text(value, "default", "dimension")?;
    let output_name = text_or(value, "outputName", dimension)?;
    Some(DimensionRef {
        dimension,
        output_name,
    })
}

#[tactic(auto, unfolding(druid_query::specs::Fields::dimension_at))]
pub(crate) fn dimension_of(value: &Value) -> Option<DimensionRef<'_>>
    ensures { result ≡ dimension_at (view value.now) }
{
    match value.as_str() {
        Some(name) => Some(DimensionRef {
            dimension: name,
            output_name: name,
        }),
        None => default_dimension(value),
    }
}

#[tactic(auto, unfolding(druid_query::specs::Read::listed_dimensions), using(crate::proofs::ListLemmas::no_list, crate::proofs::ListLemmas::bad_item, crate::proofs::ListLemmas::dimensions_unfit, crate::proofs::ListLemmas::dimensions_fit, crate::proofs::ListLemmas::each_reads))]
fn listed_dimensions(value: &Value) -> Result<&[Value], QueryFault>
    ensures read { FindsBy (λ vs. readings dimension_at vs.now) result (listed_dimensions (view value.now)) }
    ensures each { IfOk result (λ vs. EachReads dimension_at vs.now) }
{
    let Some(items) = items_field(value, "dimensions") else {
        return Err(QueryFault::Field("dimensions"));
    };
    match are_fit::<DimensionRef<'_>>(items, MAX_DIMENSIONS) {
        Some(true) => Ok(items),
        Some(false) => Err(QueryFault::LimitPassed),
        None => Err(QueryFault::Field("dimensions")),
    }
}

// The items of the dimensions; a `timeseries` has none.
pub(crate) fn dimension_items(kind: QueryType, value: &Value) -> Result<&[Value], QueryFault>
    ensures read { FindsBy (λ vs. readings dimension_at vs.now) result (dimensions_at kind (view value.now)) }
    ensures each { IfOk result (λ vs. EachReads dimension_at vs.now) }
{
    match kind {
        QueryType::Timeseries => Ok(&[]),
        QueryType::GroupBy => listed_dimensions(value),
    }
}

// The dimensions that the items are; each was judged to be one.
pub(crate) fn dimension_list(alloc: Global, items: &[Value]) -> Result<Vec<Dimension>, AllocError>
    ensures { IfOk result (λ all. all.items ≡ readings dimension_at items.now) }
{
    let mut all = Vec::with_capacity(alloc, items.len())?;
    for item in items {
        let Some(dimension) = dimension_of(item) else {
            continue;
        };
        all.push(dimension.to_owned_in(alloc)?)?;
    }
    Ok(all)
}

#[tactic(auto, unfolding(druid_query::specs::Written::dimension_data))]
fn dimension_value(alloc: Global, dimension: &Dimension) -> Result<Value, AllocError>
    ensures { IfOk result (λ v. view v ≡ dimension_data dimension.now) }
{
    json!(in alloc; {
        "dimension": dimension.dimension(),
        "outputName": dimension.output_name(),
        "type": "default",
    })
}

pub(crate) fn dimensions_value(
    alloc: Global,
    dimensions: &[Dimension],
) -> Result<Vec<Value>, AllocError>
    ensures { IfOk result (λ vs. items_view vs.items ≡ dimensions_data dimensions.now) }
{
    let mut all = Vec::with_capacity(alloc, dimensions.len())?;
    for dimension in dimensions {
        all.push(dimension_value(alloc, dimension)?)?;
    }
    Ok(all)
}
