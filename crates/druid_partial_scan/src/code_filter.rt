//! Filters over the rows of one segment, by the codes of their values.
ghost use Rattle.std.specs.Prelude.{◌≡◌, ◌<◌, ◌≤◌, List, Option, ℕ, None, IfOk, IfSome, length, slice_get, slice_index_or, false, not, option_map, string_bytes};
ghost use Rattle.std.specs.List.{list_any};
ghost use Rattle.std.specs.List.Sorted.{IsStrictlySortedBy};
ghost use Rattle.std.specs.Ordering.{nat_cmp};
ghost use Rattle.std.specs.Cmp.Lexicographic.{slice_cmp};
ghost use Rattle.druid_filter.specs.Filters.{same_value, passes, all_pass, any_passes, says, each_says};
ghost use Rattle.druid_segment_rows.specs.Columns.{value_at};
ghost use Rattle.druid_segment_rows.specs.Rows.{nullable_texts_of};
ghost use Rattle.druid_partial_scan.specs.Places.{place_in};
ghost use Rattle.druid_partial_scan.specs.Rows.{passes_if};
ghost use Rattle.druid_partial_scan.specs.CodeFilters.{code_is, code_among, holds, all_hold, any_holds, judge_if, value_of, IsCodeOf};

use crate::field_sources::place_of;
use druid_filter::Filter;
use druid_query::Query;
use druid_segment_rows::{Segment, Texts};
use std::alloc::{AllocError, Global};
use std::cmp::Ordering;

// A filter whose names and values are looked up in a segment.
#[derive(Drop)]
pub(crate) enum CodeFilter<'a> {
    // All rows pass, or none does.
    Same(bool),
    // The row has this code.
    Is(&'a [u32], usize),
    // The row's code is marked.
    Among(&'a [u32], Vec<bool>),
    // The row passes each of these.
    All(Vec<CodeFilter<'a>>),
    // It passes one of these.
    Any(Vec<CodeFilter<'a>>),
    // It does not pass this one.
    Not(Box<CodeFilter<'a>>),
}

// The code of a value, if these texts have it: 0 for null, and k for the k-th.
fn code_of(texts: &Texts, wanted: &Option<String>) -> Option<usize>
    ensures code { IsStrictlySortedBy (slice_cmp nat_cmp) texts.now
        → IsCodeOf texts.now (option_map string_bytes wanted.now) result }
    ensures inside { IfSome result (λ code. code ≤ length texts.now) }
{
    let Some(text) = wanted else {
        return Some(0);
    };
    let mut low = 0;
    let mut high = texts.len();
    while low < high {
        let middle = low + (high - low) / 2;
        match texts.get(middle).cmp(text.as_str()) {
            Ordering::Less => low = middle + 1,
            Ordering::Equal => return Some(middle + 1),
            Ordering::Greater => high = middle,
        }
    }
    None
}

// Whether null is one of these values.
fn has_null(wanted: &[Option<String>]) -> bool
    ensures { result ≡ list_any (same_value None) (nullable_texts_of wanted.now) }
{
    for value in wanted {
        if value.is_none() {
            return true;
        }
    }
    false
}

// A mark for each code of these texts: whether its value is among those.
fn marks_of(
    alloc: Global,
    texts: &Texts,
    wanted: &[Option<String>],
) -> Result<Vec<bool>, AllocError>
    ensures { IfOk result (λ marks. IsStrictlySortedBy (slice_cmp nat_cmp) texts.now → (code : ℕ) → code ≤ length texts.now
        → slice_index_or marks.items code false ≡ list_any (same_value (value_at texts.now code)) (nullable_texts_of wanted.now)) }
{
    let mut marks = vec![in alloc; false; texts.len() + 1]?;
    for value in wanted {
        if let Some(code) = code_of(texts, value) {
            marks[code] = true;
        }
    }
    Ok(marks)
}

pub(crate) fn dimension_of(segment: &Segment, name: &str) -> Option<usize>
    ensures place { result ≡ place_in segment.now.fields.dimensions name.now }
    ensures inside { IfSome result (λ place. place < length segment.now.fields.dimensions) }
{
    place_of(segment.schema().dimensions(), name)
}

// The dimension of that name has that value.
fn selector_of<'a>(segment: &'a Segment, name: &str, wanted: &Option<String>) -> CodeFilter<'a>
    ensures { (row : ℕ) → row < length segment.now.rows
        → holds result row ≡ same_value (value_of segment.now row name.now) (option_map string_bytes wanted.now) }
{
    let Some(place) = dimension_of(segment, name) else {
        return CodeFilter::Same(wanted.is_none());
    };
    let codes = segment.codes(place);
    match code_of(segment.values(place), wanted) {
        Some(code) => CodeFilter::Is(codes, code),
        None => CodeFilter::Same(false),
    }
}

// It has one of these values.
fn among_of<'a>(
    alloc: Global,
    segment: &'a Segment,
    name: &str,
    wanted: &[Option<String>],
) -> Result<CodeFilter<'a>, AllocError>
    ensures { IfOk result (λ code_filter. (row : ℕ) → row < length segment.now.rows
        → holds code_filter row ≡ list_any (same_value (value_of segment.now row name.now)) (nullable_texts_of wanted.now)) }
{
    let Some(place) = dimension_of(segment, name) else {
        return Ok(CodeFilter::Same(has_null(wanted)));
    };
    let marks = marks_of(alloc, segment.values(place), wanted)?;
    Ok(CodeFilter::Among(segment.codes(place), marks))
}

// It does not pass that filter.
#[tactic(auto, using(crate::proofs::CodeFilterLemmas::holds_not))]
fn negation_of(alloc: Global, code_filter: CodeFilter<'_>) -> Result<CodeFilter<'_>, AllocError>
    ensures { IfOk result (λ negation. (row : ℕ) → holds negation row ≡ not (holds code_filter.entry row)) }
{
    Ok(CodeFilter::Not(Box::new(alloc, code_filter)?))
}

// The filter, over the rows of that segment.
#[cycle(code_filter_of)]
fn code_filter_of<'a>(
    alloc: Global,
    segment: &'a Segment,
    filter: &Filter,
) -> Result<CodeFilter<'a>, AllocError>
    ensures { IfOk result (λ code_filter. (row : ℕ) → row < length segment.now.rows
        → holds code_filter row ≡ passes (value_of segment.now row) (says filter.now)) }
{
    match filter {
        Filter::Selector(name, wanted) => Ok(selector_of(segment, name.as_str(), wanted)),
        Filter::Among(name, wanted) => among_of(alloc, segment, name.as_str(), wanted),
        Filter::All(filters) => Ok(CodeFilter::All(code_filters_of(alloc, segment, filters)?)),
        Filter::Any(filters) => Ok(CodeFilter::Any(code_filters_of(alloc, segment, filters)?)),
        Filter::Not(filter) => negation_of(alloc, code_filter_of(alloc, segment, filter)?),
    }
}

#[cycle(code_filter_of)]
fn code_filters_of<'a>(
    alloc: Global,
    segment: &'a Segment,
    filters: &[Filter],
) -> Result<Vec<CodeFilter<'a>>, AllocError>
    ensures all { IfOk result (λ code_filters. (row : ℕ) → row < length segment.now.rows
        → all_hold code_filters.items row ≡ all_pass (value_of segment.now row) (each_says filters.now)) }
    ensures any { IfOk result (λ code_filters. (row : ℕ) → row < length segment.now.rows
        → any_holds code_filters.items row ≡ any_passes (value_of segment.now row) (each_says filters.now)) }
{
    let mut code_filters = Vec::with_capacity(alloc, filters.len())?;
    for filter in filters {
        code_filters.push(code_filter_of(alloc, segment, filter)?)?;
    }
    Ok(code_filters)
}

// The query's filter, over the rows of that segment.
pub(crate) fn filter_of<'a>(
    alloc: Global,
    query: &Query,
    segment: &'a Segment,
) -> Result<Option<CodeFilter<'a>>, AllocError>
    ensures { IfOk result (λ code_filter. (row : ℕ) → row < length segment.now.rows
        → judge_if code_filter row ≡ passes_if (value_of segment.now row) query.now.filter) }
{
    match query.filter() {
        Some(filter) => {
            let code_filter = code_filter_of(alloc, segment, filter)?;
            Ok(Some(code_filter))
        }
        None => Ok(None),
    }
}

// What marks say of each code: where none is set, that it is not among them.
fn marked_constant(marks: &[bool]) -> Option<bool>
    ensures { IfSome result (λ answer. (code : Option ℕ) → code_among code marks.now ≡ answer) }
{
    if marks.contains(&true) {
        None
    } else {
        Some(false)
    }
}

// What all of these answer together, as far as it is seen without a row.
#[cycle(constant_of)]
fn all_constant(code_filters: &[CodeFilter<'_>]) -> Option<bool>
    ensures { IfSome result (λ answer. (row : ℕ) → all_hold code_filters.now row ≡ answer) }
{
    let mut constant = Some(true);
    for code_filter in code_filters {
        match constant_of(code_filter) {
            Some(true) => {}
            Some(false) => return Some(false),
            None => constant = None,
        }
    }
    constant
}

// What one of these at least answers.
#[cycle(constant_of)]
fn any_constant(code_filters: &[CodeFilter<'_>]) -> Option<bool>
    ensures { IfSome result (λ answer. (row : ℕ) → any_holds code_filters.now row ≡ answer) }
{
    let mut constant = Some(false);
    for code_filter in code_filters {
        match constant_of(code_filter) {
            Some(false) => {}
            Some(true) => return Some(true),
            None => constant = None,
        }
    }
    constant
}

// What it answers of each row, where that is seen without a row.
#[cycle(constant_of)]
pub(crate) fn constant_of(code_filter: &CodeFilter<'_>) -> Option<bool>
    ensures { IfSome result (λ answer. (row : ℕ) → holds code_filter.now row ≡ answer) }
{
    match code_filter {
        CodeFilter::Same(answer) => Some(*answer),
        CodeFilter::Is(_, _) => None,
        CodeFilter::Among(_, marks) => marked_constant(marks),
        CodeFilter::All(code_filters) => all_constant(code_filters),
        CodeFilter::Any(code_filters) => any_constant(code_filters),
        CodeFilter::Not(code_filter) => Some(!constant_of(code_filter)?),
    }
}

fn has_code(codes: &[u32], row: usize, wanted: usize) -> bool
    ensures { result ≡ code_is (slice_get codes.now row) wanted }
{
    match codes.get(row) {
        Some(code) => *code as usize == wanted,
        None => false,
    }
}

fn is_marked(marks: &[bool], code: usize) -> bool
    ensures { result ≡ slice_index_or marks.now code false }
{
    match marks.get(code) {
        Some(mark) => *mark,
        None => false,
    }
}

fn has_marked(codes: &[u32], row: usize, marks: &[bool]) -> bool
    ensures { result ≡ code_among (slice_get codes.now row) marks.now }
{
    match codes.get(row) {
        Some(code) => is_marked(marks, *code as usize),
        None => false,
    }
}

// Whether the row passes.
#[cycle(holds)]
pub(crate) fn holds(code_filter: &CodeFilter<'_>, row: usize) -> bool
    ensures { result ≡ holds code_filter.now row }
{
    match code_filter {
        CodeFilter::Same(answer) => *answer,
        CodeFilter::Is(codes, wanted) => has_code(codes, row, *wanted),
        CodeFilter::Among(codes, marks) => has_marked(codes, row, marks),
        CodeFilter::All(code_filters) => all_hold(code_filters, row),
        CodeFilter::Any(code_filters) => any_holds(code_filters, row),
        CodeFilter::Not(code_filter) => !holds(code_filter, row),
    }
}

#[cycle(holds)]
fn all_hold(code_filters: &[CodeFilter<'_>], row: usize) -> bool
    ensures { result ≡ all_hold code_filters.now row }
{
    for code_filter in code_filters {
        if !holds(code_filter, row) {
            return false;
        }
    }
    true
}

#[cycle(holds)]
fn any_holds(code_filters: &[CodeFilter<'_>], row: usize) -> bool
    ensures { result ≡ any_holds code_filters.now row }
{
    for code_filter in code_filters {
        if holds(code_filter, row) {
            return true;
        }
    }
    false
}
