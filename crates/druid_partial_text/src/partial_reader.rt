//! Partials, read out of JSON.
ghost use Rattle.std.specs.Prelude.{◌≡◌, ◌↔◌, All, IsTrue, IsSome, IfOk, IfSome, IfNone, Some, string_bytes, List, length, map, option_map, option_and_then};
ghost use Rattle.std.specs.Option.{IsSomeAnd};
ghost use Rattle.std.specs.List.{AllAdjacentBelow};
ghost use Rattle.std.specs.List.Sorted.{IsPermutation, IsSortedByKey};
ghost use Rattle.serde_json.specs.Data.{array};
ghost use Rattle.serde_json.specs.View.{view, items_view};
ghost use Rattle.druid_filter.specs.Values.{nullable_texts_of};
ghost use Rattle.druid_base.specs.Each.{each_of};
ghost use Rattle.druid_base.specs.Fields.{text_or_null};
ghost use Rattle.druid_partial.specs.Groups.{Group, key_of, key_cmp, InOrder, AreWords};
ghost use Rattle.druid_partial.specs.Partials.{earliest, kinds_of, IsGroupFor, IsPartialFor};
ghost use Rattle.druid_partial_text.specs.Read.{integer_at, number_or_null, instant_of, three_of, parts_at, group_of, group_at, Lists, ReportsGroups, IsRead};
ghost use Rattle.druid_partial_text.specs.Borrowed.{three_borrowed, parts_borrowed, IsNumberFor, AreNumbersFor, HasWords, AreRows, IsBefore};

use crate::PartialFault;
use druid_base::{are_texts_or_null, text_or_null};
use druid_partial::{Group, Partial, earliest, is_bucket, kinds_of};
use druid_query::{Aggregator, AggregatorKind, Query};
use druid_time::Instant;
use serde_json::Value;
use std::alloc::{AllocError, Global};
use std::cmp::Ordering;

// What an aggregator tells.
#[tactic(auto, unfolding(crate::specs::Read::number_or_null))]
fn number_of(value: &Value) -> Option<Option<i64>>
    ensures value { result ≡ number_or_null (view value.now) }
{
    if value.is_null() {
        return Some(None);
    }
    Some(Some(value.as_i64()?))
}

// The instant that is so many milliseconds after 1970.
#[tactic(auto, using(crate::proofs::ReadLemmas::instant_new))]
pub(crate) fn instant_of(ms: i64) -> Option<Instant>
    ensures { result ≡ instant_of ms }
{
    Instant::new(ms)
}

fn instant_at(value: &Value) -> Option<Instant>
    ensures { result ≡ option_and_then instant_of (integer_at (view value.now)) }
{
    instant_of(value.as_i64()?)
}

// The three items of a list of three.
#[derive(Drop)]
struct Three<'a> {
    first: &'a Value,
    second: &'a Value,
    third: &'a Value,
}

#[tactic(auto, using(crate::proofs::ReadLemmas::not_three, crate::proofs::ReadLemmas::three_there))]
fn three_of(values: &[Value]) -> Option<Three<'_>>
    ensures { option_map three_borrowed result ≡ three_of (items_view values.now) }
{
    if values.len() != 3 {
        return None;
    }
    Some(Three {
        first: &values[0],
        second: &values[1],
        third: &values[2],
    })
}

// A row, with borrowed lists.
#[derive(Drop)]
struct Borrowed<'a> {
    bucket: Instant,
    values: &'a [Value],
    numbers: &'a [Value],
}

#[tactic(auto, unfolding(crate::specs::Read::parts_at))]
fn parts_of(value: &Value) -> Option<Borrowed<'_>>
    ensures { option_map parts_borrowed result ≡ parts_at (view value.now) }
{
    let three = three_of(value.as_array()?.as_slice())?;
    let bucket = instant_at(three.first)?;
    let values = three.second.as_array()?.as_slice();
    let numbers = three.third.as_array()?.as_slice();
    Some(Borrowed {
        bucket,
        values,
        numbers,
    })
}

// Whether an aggregator may tell it: to count is never null.
#[tactic(auto, using(crate::proofs::RowLemmas::number_reported, crate::proofs::RowLemmas::null_reported, crate::proofs::RowLemmas::null_counted, crate::proofs::RowLemmas::none_reported))]
fn is_number_for(aggregator: &Aggregator, value: &Value) -> bool
    ensures { IsTrue result ↔ IsNumberFor aggregator.now.kind (view value.now) }
{
    match number_of(value) {
        Some(Some(_)) => true,
        Some(None) => aggregator.kind() != AggregatorKind::Count,
        None => false,
    }
}

// Whether each aggregator may tell the number in its place, and there are no more.
#[tactic(auto, using(crate::proofs::RowLemmas::numbers_reported, crate::proofs::RowLemmas::numbers_at, crate::proofs::RowLemmas::numbers_many))]
fn are_numbers(aggregations: &[Aggregator], values: &[Value]) -> bool
    ensures { IsTrue result
        ↔ IsSomeAnd (each_of number_or_null (items_view values.now)) (AreNumbersFor (map (λ a. a.kind) aggregations.now)) }
{
    if values.len() != aggregations.len() {
        return false;
    }
    for i in 0..values.len() {
        if !is_number_for(&aggregations[i], &values[i]) {
            return false;
        }
    }
    true
}

// Whether what stands in a row is a group for the query, whose earliest instant is given.
#[tactic(auto, using(crate::proofs::RowLemmas::label_of, crate::proofs::RowLemmas::many_of, crate::proofs::RowLemmas::values_of, crate::proofs::RowLemmas::numbers_of, crate::proofs::RowLemmas::group_is))]
fn is_group(query: &Query, first: Instant, row: &Borrowed) -> bool
    requires { first ≡ earliest query.now.intervals }
    ensures { IsTrue result ↔ IsSomeAnd (group_of (parts_borrowed row.now)) (IsGroupFor query.now) }
{
    if !is_bucket(query, first, row.bucket) {
        return false;
    }
    if row.values.len() != query.dimensions().len() {
        return false;
    }
    if !are_texts_or_null(row.values) {
        return false;
    }
    are_numbers(query.aggregations(), row.numbers)
}

// Whether a value is a row of a partial of the query.
fn is_row(query: &Query, first: Instant, value: &Value) -> bool
    requires { first ≡ earliest query.now.intervals }
    ensures { IsTrue result ↔ IsSomeAnd (group_at (view value.now)) (IsGroupFor query.now) }
{
    match parts_of(value) {
        Some(row) => is_group(query, first, &row),
        None => false,
    }
}

// Whether all are rows of a partial of the query. Does not allocate.
#[tactic(auto, using(crate::proofs::RowLemmas::rows_all, crate::proofs::RowLemmas::rows_at))]
fn are_rows(query: &Query, values: &[Value]) -> bool
    ensures { IsTrue result ↔ AreRows query.now (items_view values.now) }
{
    let first = earliest(query);
    for value in values {
        if !is_row(query, first, value) {
            return false;
        }
    }
    true
}

// The values of a row, copied.
#[tactic(auto, using(crate::proofs::MadeLemmas::values_more, crate::proofs::MadeLemmas::values_last, crate::proofs::MadeLemmas::value_reads))]
fn values_in(alloc: Global, values: &[Value]) -> Result<Vec<Option<String>>, AllocError>
    requires { IsSome (each_of text_or_null (items_view values.now)) }
    ensures { IfOk result (λ made. each_of text_or_null (items_view values.now) ≡ Some (nullable_texts_of made.items)) }
{
    let mut made = Vec::with_capacity(alloc, values.len())?;
    for value in values {
        made.push(copy_of(alloc, value)?)?;
    }
    Ok(made)
}

// A value of a dimension, copied.
fn copy_of(alloc: Global, value: &Value) -> Result<Option<String>, AllocError>
    requires { IsSome (text_or_null (view value.now)) }
    ensures { IfOk result (λ made. text_or_null (view value.now) ≡ Some (option_map string_bytes made)) }
{
    match text_or_null(value) {
        Some(Some(text)) => Ok(Some(String::from_str(alloc, text)?)),
        Some(None) => Ok(None),
        None => unreachable!(),
    }
}

// The numbers of a row.
#[tactic(auto, using(crate::proofs::MadeLemmas::numbers_more, crate::proofs::MadeLemmas::numbers_last))]
fn numbers_in(alloc: Global, values: &[Value]) -> Result<Vec<Option<i64>>, AllocError>
    requires { IsSome (each_of number_or_null (items_view values.now)) }
    ensures read { IfOk result (λ made. each_of number_or_null (items_view values.now) ≡ Some made.items) }
    ensures words { IfOk result (λ made. AreWords made.items) }
{
    let mut made = Vec::with_capacity(alloc, values.len())?;
    for value in values {
        let Some(number) = number_of(value) else {
            unreachable!()
        };
        made.push(number)?;
    }
    Ok(made)
}

// The group that a row tells.
#[tactic(auto, using(crate::proofs::MadeLemmas::group_made, crate::proofs::MadeLemmas::no_parts, crate::proofs::MadeLemmas::values_read, crate::proofs::MadeLemmas::numbers_read))]
fn group_in(alloc: Global, value: &Value) -> Result<Group, AllocError>
    requires { IsSome (group_at (view value.now)) }
    ensures read { IfOk result (λ group. group_at (view value.now) ≡ Some group) }
    ensures words { IfOk result HasWords }
{
    let Some(row) = parts_of(value) else {
        unreachable!()
    };
    let values = values_in(alloc, row.values)?;
    let numbers = numbers_in(alloc, row.numbers)?;
    Ok(Group::new(row.bucket, values, numbers))
}

// The groups that rows tell.
#[tactic(auto, using(crate::proofs::MadeLemmas::groups_more, crate::proofs::MadeLemmas::groups_last, crate::proofs::MadeLemmas::row_reads))]
fn groups_in(alloc: Global, values: &[Value]) -> Result<Vec<Group>, AllocError>
    requires { IsSome (each_of group_at (items_view values.now)) }
    ensures read { IfOk result (λ groups. each_of group_at (items_view values.now) ≡ Some groups.items) }
    ensures words { IfOk result (λ groups. All HasWords groups.items) }
{
    let mut groups = Vec::with_capacity(alloc, values.len())?;
    for value in values {
        groups.push(group_in(alloc, value)?)?;
    }
    Ok(groups)
}

// Sorts groups by their keys.
fn sort_by_key(groups: &mut Vec<Group>)
    ensures permutation { IsPermutation groups.old.items groups.new.items }
    ensures sorted { IsSortedByKey key_of key_cmp groups.new.items }
{
    groups.sort_unstable_by(
        |one: &Group, other: &Group| -> Ordering
            ensures { result ≡ key_cmp one.now.key other.now.key }
        { one.cmp_key(other) },
    );
}

// Whether each key is below the next.
fn is_ascending(groups: &[Group]) -> bool
    ensures { IsTrue result ↔ AllAdjacentBelow IsBefore groups.now (length groups.now) }
{
    for i in 1..groups.len() {
        if groups[i - 1].cmp_key(&groups[i]) != Ordering::Less {
            return false;
        }
    }
    true
}

// Groups in the order of a result, unless a key stands twice.
#[tactic(auto, using(crate::proofs::MadeLemmas::ascending, crate::proofs::MadeLemmas::not_ascending))]
pub(crate) fn in_order(mut groups: Vec<Group>) -> Option<Vec<Group>>
    ensures some { IfSome result (λ made. IsPermutation groups.items made.items) }
    ensures ordered { IfSome result (λ made. InOrder made.items) }
    ensures none { IfNone result ((rows : List Group) → IsPermutation groups.items rows → InOrder rows → ⊥) }
{
    sort_by_key(&mut groups);
    if is_ascending(&groups) {
        Some(groups)
    } else {
        None
    }
}

// The rows of a partial of the query that a value lists. Does not allocate.
#[tactic(auto, using(crate::proofs::MadeLemmas::no_list, crate::proofs::MadeLemmas::no_such_rows, crate::proofs::MadeLemmas::is_list))]
pub(crate) fn rows_in<'a>(query: &Query, value: &'a Value) -> Option<&'a [Value]>
    ensures is { IfSome result (λ rows. view value.now ≡ array (items_view rows.now)) }
    ensures each { IfSome result (λ rows. AreRows query.now (items_view rows.now)) }
    ensures none { IfNone result ((rows : List Group) → Lists query.now (view value.now) rows → ⊥) }
{
    let rows = value.as_array()?;
    if are_rows(query, rows) {
        Some(rows.as_slice())
    } else {
        None
    }
}

// The partial that rows of the query tell. None where a key stands twice.
#[tactic(auto, using(crate::proofs::MadeLemmas::rows_read, crate::proofs::MadeLemmas::doubled, crate::proofs::MadeLemmas::reported))]
pub(crate) fn partial_in(
    alloc: Global,
    query: &Query,
    rows: &[Value],
) -> Result<Option<Partial>, AllocError>
    requires { AreRows query.now (items_view rows.now) }
    ensures kinds { IfOk result (λ read. IfSome read (λ p. p.kinds ≡ kinds_of query.now)) }
    ensures groups { IfOk result (λ read. IfSome read (λ p. ReportsGroups query.now (array (items_view rows.now)) p.groups)) }
    ensures of_query { IfOk result (λ read. IfSome read (IsPartialFor query.now)) }
    ensures none { IfOk result (λ read. IfNone read
        ((groups : List Group) → ReportsGroups query.now (array (items_view rows.now)) groups → ⊥)) }
{
    let kinds = kinds_of(alloc, query)?;
    let groups = groups_in(alloc, rows)?;
    match in_order(groups) {
        Some(groups) => Ok(Some(Partial::new(kinds, groups))),
        None => Ok(None),
    }
}

/// Reads a partial of a query. The rows may stand in any order.
///
/// # Errors
///
/// P2 where the value has another shape than `partial_text` writes, a row has not as many values
/// and numbers as the query asks, its time is no bucket of the query, a number is no whole number
/// of 64 bits, a count is null, or two rows have one key. P9 last, but for two rows of one key.
#[tactic(auto, using(crate::proofs::MadeLemmas::no_rows, crate::proofs::MadeLemmas::rows_listed, crate::proofs::MadeLemmas::not_reported, crate::proofs::MadeLemmas::is_reported))]
pub fn read_partial(alloc: Global, query: &Query, value: &Value) -> Result<Partial, PartialFault>
    ensures read { IsRead query.now (view value.now) result }
    ensures of_query { IfOk result (IsPartialFor query.now) }
{
    let Some(rows) = rows_in(query, value) else {
        return Err(PartialFault::Shape);
    };
    match partial_in(alloc, query, rows) {
        Ok(Some(partial)) => Ok(partial),
        Ok(None) => Err(PartialFault::Shape),
        Err(_) => Err(PartialFault::Memory),
    }
}
