//! Intervals, read out of JSON and written.
ghost use Rattle.std.specs.Prelude.{◌≡◌, true, IfOk, option_map};
ghost use Rattle.serde_json.specs.View.{view, items_view};
ghost use Rattle.druid_query.specs.Fields.{texts_among, listed_at, interval_texts, listed_texts, interval_of};
ghost use Rattle.druid_query.specs.Read.{list_of, fit_intervals};
ghost use Rattle.druid_query.specs.Refusal.{bad_field, bad_interval};
ghost use Rattle.druid_query_text.specs.Found.{FindsBy, readings};
ghost use Rattle.druid_query.specs.Written.{intervals_data};

use crate::item::{Item, are_fit};
use druid_base::{are_texts, list_field, text_field};
use druid_query::{MAX_INTERVALS, QueryFault};
use druid_time::Interval;
use serde_json::Value;
use std::alloc::{AllocError, Global};
use std::slice;

// The values, where there are some and each is a text.
#[tactic(auto, using(crate::proofs::EmptyLemmas::texts_there, crate::proofs::EmptyLemmas::no_texts, crate::proofs::EmptyLemmas::not_texts))]
fn texts_among(values: &[Value]) -> Option<&[Value]>
    ensures { option_map (λ vs. items_view vs.now) result ≡ texts_among (items_view values.now) }
{
    if values.is_empty() {
        return None;
    }
    if !are_texts(values) {
        return None;
    }
    Some(values)
}

fn listed_of(value: &Value) -> Option<&[Value]>
    ensures { option_map (λ vs. items_view vs.now) result ≡ listed_at (view value.now) }
{
    if text_field(value, "type")? == "intervals" {
        list_field(value, "intervals")
    } else {
        None
    }
}

// The texts of one interval, of a list or of an object.
#[tactic(auto, unfolding(druid_query::specs::Fields::interval_texts))]
pub(crate) fn interval_texts(value: &Value) -> Option<&[Value]>
    ensures { option_map (λ vs. items_view vs.now) result ≡ interval_texts (view value.now) }
{
    if value.is_string() {
        return Some(slice::from_ref(value));
    }
    if let Some(values) = value.as_array() {
        return texts_among(values.as_slice());
    }
    texts_among(listed_of(value)?)
}

// The texts of a list alone.
#[tactic(auto, unfolding(druid_query::specs::Fields::listed_texts))]
pub(crate) fn listed_texts(value: &Value) -> Option<&[Value]>
    ensures { option_map (λ vs. items_view vs.now) result ≡ listed_texts (view value.now) }
{
    let values = value.as_array()?;
    texts_among(values.as_slice())
}

fn interval_of(value: &Value) -> Option<Interval>
    ensures { result ≡ interval_of (view value.now) }
{
    Interval::parse(value.as_str()?).ok()
}

impl<'a> Item<'a> for Interval {
    ghost at = { interval_of };

    ghost fits = { λ _. true };

    fn of(value: &'a Value) -> Option<Interval>
        ensures { result ≡ interval_of (view value.now) }
    {
        interval_of(value)
    }

    fn is_fit(&self) -> bool
        ensures { result ≡ true }
    {
        true
    }
}

// The texts at a key, where there are some and each names an interval.
#[tactic(auto, using(crate::proofs::ListLemmas::no_list, crate::proofs::ListLemmas::bad_item, crate::proofs::ListLemmas::intervals_unfit, crate::proofs::ListLemmas::intervals_fit))]
pub(crate) fn interval_items<'a>(
    texts: Option<&'a [Value]>,
    key: &'static str,
) -> Result<&'a [Value], QueryFault>
    ensures { FindsBy (λ vs. readings interval_of vs.now) result
        (list_of (option_map (λ vs. items_view vs.now) texts.entry) (bad_field key.now) interval_of bad_interval fit_intervals) }
{
    let Some(texts) = texts else {
        return Err(QueryFault::Field(key));
    };
    match are_fit::<Interval>(texts, MAX_INTERVALS) {
        Some(true) => Ok(texts),
        Some(false) => Err(QueryFault::LimitPassed),
        None => Err(QueryFault::BadInterval),
    }
}

// The intervals that the texts name; each was judged to name one.
pub(crate) fn interval_list(alloc: Global, texts: &[Value]) -> Result<Vec<Interval>, AllocError>
    ensures { IfOk result (λ all. all.items ≡ readings interval_of texts.now) }
{
    let mut all = Vec::with_capacity(alloc, texts.len())?;
    for text in texts {
        let Some(interval) = interval_of(text) else {
            continue;
        };
        all.push(interval)?;
    }
    Ok(all)
}

pub(crate) fn intervals_value(
    alloc: Global,
    intervals: &[Interval],
) -> Result<Vec<Value>, AllocError>
    ensures { IfOk result (λ vs. items_view vs.items ≡ intervals_data intervals.now) }
{
    let mut all = Vec::with_capacity(alloc, intervals.len())?;
    for interval in intervals {
        all.push(Value::String(interval.text(alloc)?))?;
    }
    Ok(all)
}
