//! Results, written.
ghost use Rattle.std.specs.Prelude.{◌≡◌, ◌++◌, ℕ, IfOk, OnOk, length, option_map, option_and_then, slice_get, slice_index_or, string_bytes};
ghost use Rattle.serde_json.specs.Data.{object, put};
ghost use Rattle.druid_time.specs.Texts.{instant_text};
ghost use Rattle.druid_query.specs.Query.{Dimension, Aggregator};
ghost use Rattle.druid_partial.specs.Groups.{Group, number_at};
ghost use Rattle.druid_partial.specs.Partials.{IsPartialFor, IsGroupFor};
ghost use Rattle.druid_partial_text.specs.Written.{with_values, with_numbers, label_data, timeseries_row, group_by_row, row_data, result_data, result_text};
ghost use Rattle.druid_partial_text.specs.Tokens.{tokens_of};
ghost use Rattle.druid_partial_text.specs.Named.{column_data, members_by, NamesValues, NamesNumbers, ReportsBy, row_by, rows_by};

use crate::partial_writer::FIRST_ROOM;
use crate::tokens::{push_number, push_value, text_of};
use druid_partial::{Group, Partial};
use druid_query::{Aggregator, Dimension, Query, QueryType};
use druid_time::Instant;
use json::Writer;
use std::alloc::{AllocError, Global};
use std::collections::BTreeMap;

// What stands at a name in each row of a result: the value or the number at that place of a group.
#[derive(Drop)]
pub(crate) enum ResultColumn {
    Value(usize),
    Number(usize),
}

// What stands at each name, by name.
pub(crate) type ResultColumns = BTreeMap<String, ResultColumn>;

// Sets what stands at a name.
fn set_column(
    alloc: Global,
    columns: &mut ResultColumns,
    name: &str,
    column: ResultColumn,
) -> Result<(), AllocError>
    ensures { OnOk result ((g : Group) → members_by g columns.new.entries ≡ put name.now (column_data g column) (members_by g columns.old.entries)) }
{
    let name = String::from_str(alloc, name)?;
    drop(columns.insert(name, column)?);
    Ok(())
}

// Sets the values of the dimensions at their output names.
fn set_values(
    alloc: Global,
    columns: &mut ResultColumns,
    dimensions: &[Dimension],
) -> Result<(), AllocError>
    ensures { OnOk result (NamesValues dimensions.now columns.old.entries columns.new.entries) }
{
    for i in 0..dimensions.len() {
        set_column(
            alloc,
            columns,
            dimensions[i].output_name(),
            ResultColumn::Value(i),
        )?;
    }
    Ok(())
}

// Sets the numbers of the aggregators at their names.
fn set_numbers(
    alloc: Global,
    columns: &mut ResultColumns,
    aggregations: &[Aggregator],
) -> Result<(), AllocError>
    ensures { OnOk result (NamesNumbers aggregations.now columns.old.entries columns.new.entries) }
{
    for i in 0..aggregations.len() {
        set_column(
            alloc,
            columns,
            aggregations[i].name(),
            ResultColumn::Number(i),
        )?;
    }
    Ok(())
}

// What stands at each name in a row of a result of the query.
pub(crate) fn columns_of(alloc: Global, query: &Query) -> Result<ResultColumns, AllocError>
    ensures { IfOk result (λ columns. ReportsBy query.now columns.entries) }
{
    let mut columns = BTreeMap::new(alloc);
    set_values(alloc, &mut columns, query.dimensions())?;
    set_numbers(alloc, &mut columns, query.aggregations())?;
    Ok(columns)
}

// The number at a place of a group; null where it has none.
fn number_in(group: &Group, place: usize) -> Option<i64>
    ensures { result ≡ number_at place group.now }
{
    match group.numbers().get(place) {
        Some(number) => *number,
        None => None,
    }
}

// Writes what a column tells of a group; null where the group has no such place.
fn push_column(out: &mut Writer, column: &ResultColumn, group: &Group) -> Result<(), AllocError>
    ensures ok { OnOk result (out.new.tokens ≡ out.old.tokens ++ tokens_of (column_data group.now column.now)) }
    ensures before { out.new.before ≡ out.old.before }
{
    match column {
        ResultColumn::Value(place) => match group.values().get(*place) {
            Some(value) => push_value(out, value),
            None => out.null(),
        },
        ResultColumn::Number(place) => push_number(out, number_in(group, *place)),
    }
}

// Writes what a result tells of a group, by name.
#[tactic(auto, using(crate::proofs::NamedLemmas::column_next, crate::proofs::NamedLemmas::columns_first, crate::proofs::NamedLemmas::columns_last))]
fn push_columns(out: &mut Writer, columns: &ResultColumns, group: &Group) -> Result<(), AllocError>
    ensures ok { OnOk result (out.new.tokens ≡ out.old.tokens ++ tokens_of (object (members_by group.now columns.now.entries))) }
    ensures before { out.new.before ≡ out.old.before }
{
    out.begin_object()?;
    for (name, column) in columns.iter() {
        out.key(name.as_str())?;
        push_column(out, column, group)?;
    }
    out.end_object()
}

// Writes the first instant of a bucket.
fn push_label(out: &mut Writer, bucket: Instant) -> Result<(), AllocError>
    ensures ok { OnOk result (out.new.tokens ≡ out.old.tokens ++ tokens_of (label_data bucket)) }
    ensures before { out.new.before ≡ out.old.before }
{
    let mut text = [b' '; 24];
    bucket.write(&mut text);
    out.string(str::from_utf8(&text).unwrap())
}

// Writes a row of a `timeseries`.
fn push_timeseries(
    out: &mut Writer,
    columns: &ResultColumns,
    group: &Group,
) -> Result<(), AllocError>
    ensures ok { OnOk result (out.new.tokens ≡ out.old.tokens
        ++ tokens_of (timeseries_row (object (members_by group.now columns.now.entries)) group.now.key.bucket)) }
    ensures before { out.new.before ≡ out.old.before }
{
    out.begin_object()?;
    out.key("result")?;
    push_columns(out, columns, group)?;
    out.key("timestamp")?;
    push_label(out, group.bucket())?;
    out.end_object()
}

// Writes a row of a `groupBy`.
fn push_group_by(out: &mut Writer, columns: &ResultColumns, group: &Group) -> Result<(), AllocError>
    ensures ok { OnOk result (out.new.tokens ≡ out.old.tokens
        ++ tokens_of (group_by_row (object (members_by group.now columns.now.entries)) group.now.key.bucket)) }
    ensures before { out.new.before ≡ out.old.before }
{
    out.begin_object()?;
    out.key("event")?;
    push_columns(out, columns, group)?;
    out.key("timestamp")?;
    push_label(out, group.bucket())?;
    out.key("version")?;
    out.string("v1")?;
    out.end_object()
}

// Writes a row of a result.
fn push_row(
    out: &mut Writer,
    kind: QueryType,
    columns: &ResultColumns,
    group: &Group,
) -> Result<(), AllocError>
    ensures ok { OnOk result (out.new.tokens ≡ out.old.tokens ++ tokens_of (row_by kind columns.now.entries group.now)) }
    ensures before { out.new.before ≡ out.old.before }
{
    match kind {
        QueryType::Timeseries => push_timeseries(out, columns, group),
        QueryType::GroupBy => push_group_by(out, columns, group),
    }
}

// Writes the rows of a result.
#[tactic(auto, using(crate::proofs::ResultLemmas::row_next, crate::proofs::ResultLemmas::rows_first, crate::proofs::ResultLemmas::rows_last))]
pub(crate) fn push_rows(
    out: &mut Writer,
    kind: QueryType,
    columns: &ResultColumns,
    groups: &[Group],
) -> Result<(), AllocError>
    ensures ok { OnOk result (out.new.tokens ≡ out.old.tokens ++ tokens_of (rows_by kind columns.now.entries groups.now)) }
    ensures before { out.new.before ≡ out.old.before }
{
    out.begin_array()?;
    for group in groups {
        push_row(out, kind, columns, group)?;
    }
    out.end_array()
}

/// The text of a result of the query: a list of rows in order. A `timeseries` has
/// `{"result":{..},"timestamp":t}` for each, and a `groupBy` `{"event":{..},"timestamp":t,"version":"v1"}`, with the values
/// at their output names and the numbers at the names of their aggregators.
///
/// # Errors
///
/// Out of memory.
#[tactic(auto, using(crate::proofs::ResultLemmas::result_printed))]
pub fn result_text(alloc: Global, query: &Query, partial: &Partial) -> Result<String, AllocError>
    requires { IsPartialFor query.now partial.now }
    ensures { IfOk result (λ text. string_bytes text ≡ result_text query.now partial.now.groups) }
{
    let columns = columns_of(alloc, query)?;
    let mut out = Writer::new(Vec::with_capacity(alloc, FIRST_ROOM)?);
    push_rows(&mut out, query.kind(), &columns, partial.groups())?;
    Ok(text_of(out))
}
