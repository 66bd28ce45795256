//! Whether a row passes a filter. Of a name that stands twice in a schema, which no segment has,
//! the first place counts.
ghost use Rattle.std.specs.Prelude.{◌≡◌, option_map, string_bytes};
ghost use Rattle.std.specs.List.{list_any};
ghost use Rattle.druid_filter.specs.Filters.{same_value, passes, all_pass, any_passes, value_in, says, each_says};
ghost use Rattle.druid_segment_rows.specs.Rows.{texts_of, nullable_texts_of};

use crate::{Row, Schema};
use druid_filter::Filter;

// The row's value of the dimension of that name.
fn value_of<'a>(names: &[String], values: &'a [Option<String>], name: &str) -> Option<&'a str>
    ensures { option_map (λ s. s.now) result ≡ value_in (texts_of names.now) (nullable_texts_of values.now) name.now }
{
    for place in 0..names.len() {
        if names[place].as_str() == name {
            return match values.get(place) {
                Some(value) => value.as_deref(),
                None => None,
            };
        }
    }
    None
}

fn is_value(value: Option<&str>, wanted: &Option<String>) -> bool
    ensures { result ≡ same_value (option_map (λ s. s.now) value.entry) (option_map string_bytes wanted.now) }
{
    match (value, wanted) {
        (Some(value), Some(wanted)) => value == wanted.as_str(),
        (None, None) => true,
        _ => false,
    }
}

fn is_among(value: Option<&str>, wanted: &[Option<String>]) -> bool
    ensures { result ≡ list_any (same_value (option_map (λ s. s.now) value.entry)) (nullable_texts_of wanted.now) }
{
    for one in wanted {
        if is_value(value, one) {
            return true;
        }
    }
    false
}

/// Whether the row passes the filter.
#[cycle(matches)]
pub fn matches(filter: &Filter, schema: &Schema, row: &Row) -> bool
    ensures { result ≡ passes (value_in schema.now.dimensions row.now.dimensions) (says filter.now) }
{
    match filter {
        Filter::Selector(name, wanted) => is_value(
            value_of(schema.dimensions(), row.dimensions(), name.as_str()),
            wanted,
        ),
        Filter::Among(name, wanted) => is_among(
            value_of(schema.dimensions(), row.dimensions(), name.as_str()),
            wanted,
        ),
        Filter::All(filters) => matches_all(filters, schema, row),
        Filter::Any(filters) => matches_any(filters, schema, row),
        Filter::Not(filter) => !matches(filter, schema, row),
    }
}

#[cycle(matches)]
fn matches_all(filters: &[Filter], schema: &Schema, row: &Row) -> bool
    ensures { result ≡ all_pass (value_in schema.now.dimensions row.now.dimensions) (each_says filters.now) }
{
    for filter in filters {
        if !matches(filter, schema, row) {
            return false;
        }
    }
    true
}

#[cycle(matches)]
fn matches_any(filters: &[Filter], schema: &Schema, row: &Row) -> bool
    ensures { result ≡ any_passes (value_in schema.now.dimensions row.now.dimensions) (each_says filters.now) }
{
    for filter in filters {
        if matches(filter, schema, row) {
            return true;
        }
    }
    false
}
