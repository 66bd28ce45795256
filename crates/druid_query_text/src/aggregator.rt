//! Aggregators, read out of JSON and written.
ghost use Rattle.std.specs.Prelude.{◌≡◌, IfOk, option_map};
ghost use Rattle.serde_json.specs.View.{view, items_view};
ghost use Rattle.druid_query.specs.Fields.{aggregator_named, field_for, aggregator_at};
ghost use Rattle.druid_query.specs.Query.{is_label_if, fits_aggregator};
ghost use Rattle.druid_query.specs.Read.{aggregations_at};
ghost use Rattle.druid_query_text.specs.Found.{FindsBy, EachReads, readings};
ghost use Rattle.druid_query.specs.Written.{aggregator_text, counting_data, of_field_data, aggregator_data, aggregations_data};

use crate::item::{Item, are_fit, items_field};
use druid_base::text_field;
use druid_query::{Aggregator, AggregatorKind, MAX_AGGREGATORS, QueryFault, is_label};
use serde_json::{Value, json};
use std::alloc::{AllocError, Global};
use std::marker::Model;

// An aggregator, with borrowed texts.
#[derive(Drop)]
pub(crate) struct AggregatorRef<'a> {
    name: &'a str,
    kind: AggregatorKind,
    field: Option<&'a str>,
}

impl<'a> Model for AggregatorRef<'a> {
    ghost use Rattle.std.specs.Prelude.{option_map};
    ghost use Rattle.druid_query.specs.Query.{Aggregator};

    ghost Value = { Aggregator };

    ghost view = { λ a. record {
      name = a.name.now;
      kind = a.kind;
      field = option_map (λ s. s.now) a.field;
    } };
}

impl<'a> AggregatorRef<'a> {
    pub(crate) fn name(&self) -> &'a str
        ensures { result.now ≡ self.now.name }
    {
        self.name
    }

    // A copy.
    fn to_owned_in(&self, alloc: Global) -> Result<Aggregator, AllocError>
        ensures { IfOk result (λ copy. copy ≡ self.now) }
    {
        Aggregator::new(alloc, self.name, self.kind, self.field)
    }
}

impl<'a> Item<'a> for AggregatorRef<'a> {
    ghost at = { aggregator_at };

    ghost fits = { fits_aggregator };

    fn of(value: &'a Value) -> Option<AggregatorRef<'a>>
        ensures { result ≡ aggregator_at (view value.now) }
    {
        aggregator_of(value)
    }

    fn is_fit(&self) -> bool
        ensures { result ≡ fits_aggregator self.now }
    {
        is_label(self.name) && is_label_if(self.field)
    }
}

fn is_label_if(text: Option<&str>) -> bool
    ensures { result ≡ is_label_if (option_map (λ s. s.now) text.entry) }
{
    match text {
        Some(text) => is_label(text),
        None => true,
    }
}

fn aggregator_named(text: &str) -> Option<AggregatorKind>
    ensures { result ≡ aggregator_named text.now }
{
    match text {
        "count" => Some(AggregatorKind::Count),
        "longSum" => Some(AggregatorKind::LongSum),
        "longMin" => Some(AggregatorKind::LongMin),
        "longMax" => Some(AggregatorKind::LongMax),
        _ => None,
    }
}

// The field of an aggregator of that kind. None where it lacks one.
fn field_for(kind: AggregatorKind, value: &Value) -> Option<Option<&str>>
    ensures { option_map (option_map (λ s. s.now)) result ≡ field_for kind (view value.now) }
{
    match kind {
        AggregatorKind::Count => Some(None),
        AggregatorKind::LongSum => Some(Some(text_field(value, "fieldName")?)),
        AggregatorKind::LongMin => Some(Some(text_field(value, "fieldName")?)),
        AggregatorKind::LongMax => Some(Some(text_field(value, "fieldName")?)),
    }
}

#[tactic(auto, unfolding(druid_query::specs::Fields::aggregator_at))]
pub(crate) fn aggregator_of(value: &Value) -> Option<AggregatorRef<'_>>
    ensures { result ≡ aggregator_at (view value.now) }
{
    let kind = aggregator_named(text_field(value, "type")?)?;
    let name = text_field(value, "name")?;
    let field = field_for(kind, value)?;
    Some(AggregatorRef { name, kind, field })
}

// The items of the aggregations.
#[tactic(auto, unfolding(druid_query::specs::Read::aggregations_at), using(crate::proofs::ListLemmas::no_list, crate::proofs::ListLemmas::bad_item, crate::proofs::ListLemmas::aggregators_unfit, crate::proofs::ListLemmas::aggregators_fit, crate::proofs::ListLemmas::each_reads))]
pub(crate) fn aggregator_items(value: &Value) -> Result<&[Value], QueryFault>
    ensures read { FindsBy (λ vs. readings aggregator_at vs.now) result (aggregations_at (view value.now)) }
    ensures each { IfOk result (λ vs. EachReads aggregator_at vs.now) }
{
    let Some(items) = items_field(value, "aggregations") else {
        return Err(QueryFault::Field("aggregations"));
    };
    match are_fit::<AggregatorRef<'_>>(items, MAX_AGGREGATORS) {
        Some(true) => Ok(items),
        Some(false) => Err(QueryFault::LimitPassed),
        None => Err(QueryFault::Field("aggregations")),
    }
}

// The aggregators that the items are; each was judged to be one.
pub(crate) fn aggregator_list(alloc: Global, items: &[Value]) -> Result<Vec<Aggregator>, AllocError>
    ensures { IfOk result (λ all. all.items ≡ readings aggregator_at items.now) }
{
    let mut all = Vec::with_capacity(alloc, items.len())?;
    for item in items {
        let Some(aggregator) = aggregator_of(item) else {
            continue;
        };
        all.push(aggregator.to_owned_in(alloc)?)?;
    }
    Ok(all)
}

fn aggregator_text(kind: AggregatorKind) -> &'static str
    ensures { result.now ≡ aggregator_text kind }
{
    match kind {
        AggregatorKind::Count => "count",
        AggregatorKind::LongSum => "longSum",
        AggregatorKind::LongMin => "longMin",
        AggregatorKind::LongMax => "longMax",
    }
}

#[tactic(auto, unfolding(druid_query::specs::Written::counting_data))]
fn counting_value(alloc: Global, kind: &str, name: &str) -> Result<Value, AllocError>
    ensures { IfOk result (λ v. view v ≡ counting_data kind.now name.now) }
{
    json!(in alloc; {
        "name": name,
        "type": kind,
    })
}

#[tactic(auto, unfolding(druid_query::specs::Written::of_field_data))]
fn of_field_value(alloc: Global, kind: &str, name: &str, field: &str) -> Result<Value, AllocError>
    ensures { IfOk result (λ v. view v ≡ of_field_data kind.now name.now field.now) }
{
    json!(in alloc; {
        "fieldName": field,
        "name": name,
        "type": kind,
    })
}

fn aggregator_value(alloc: Global, aggregator: &Aggregator) -> Result<Value, AllocError>
    ensures { IfOk result (λ v. view v ≡ aggregator_data aggregator.now) }
{
    let kind = aggregator_text(aggregator.kind());
    match aggregator.field() {
        Some(field) => of_field_value(alloc, kind, aggregator.name(), field),
        None => counting_value(alloc, kind, aggregator.name()),
    }
}

pub(crate) fn aggregations_value(
    alloc: Global,
    aggregators: &[Aggregator],
) -> Result<Vec<Value>, AllocError>
    ensures { IfOk result (λ vs. items_view vs.items ≡ aggregations_data aggregators.now) }
{
    let mut all = Vec::with_capacity(alloc, aggregators.len())?;
    for aggregator in aggregators {
        all.push(aggregator_value(alloc, aggregator)?)?;
    }
    Ok(all)
}
