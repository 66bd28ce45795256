//! Answers that miss nothing, read token by token where they stand as `node_answer_text` writes them. What stands
//! otherwise is read as a tree.
ghost use Rattle.std.specs.Prelude.{◌≡◌, ◌↔◌, ◌≤◌, ◌<◌, ◌==◌, ◌∷◌, [], ℤ, All, IsUtf8, IsSome, IsTrue, IfOk, IfSome, OnErr, Some, Ok, true, false, codes, length, map, option_map, option_and_then, slice_index, string_bytes};
ghost use Rattle.json.specs.Token.{begin_array, end_array, begin_object, end_object, key};
ghost use Rattle.json.specs.Lex.{tokens};
ghost use Rattle.serde_json.specs.Find.{as_i64};
ghost use Rattle.serde_json.specs.Read.{number_of, number_from};
ghost use Rattle.druid_filter.specs.Values.{nullable_texts_of};
ghost use Rattle.druid_base.specs.Fields.{text_or_null};
ghost use Rattle.druid_query.specs.declared.aggregator.AggregatorKind.TheVariants.{Count};
ghost use Rattle.druid_partial.specs.Groups.{AreWords};
ghost use Rattle.druid_partial.specs.Partials.{earliest, IsBucketOf, IsGroupFor};
ghost use Rattle.druid_partial_text.specs.Answers.{IsAnswerOf};
ghost use Rattle.druid_partial_text.specs.Borrowed.{AreNumbersFor, HasWords};
ghost use Rattle.druid_partial_text.specs.Read.{instant_of, integer_at, number_or_null, group_at};
ghost use Rattle.druid_partial_text.specs.Spelt.{Spells, SpellsRest, SpellsAnswer};

use crate::NodeAnswer;
use crate::partial_reader::{in_order, instant_of};
use druid_partial::{Group, Partial, earliest, is_bucket, kinds_of};
use druid_query::{Aggregator, AggregatorKind, Query, SubQuery};
use druid_time::Instant;
use fast_float::Numeral;
use json::{Reader, Scratch, Token};
use std::alloc::{AllocError, Global};

// A whole number without a sign; None where it is none of 63 bits.
fn unsigned(numeral: &Numeral<'_>) -> Option<i64>
    ensures { IfSome result (λ n. option_and_then as_i64 (number_from false numeral.now) ≡ Some n) }
{
    let number = numeral.to_u64()?;
    if number <= i64::MAX as u64 {
        Some(number as i64)
    } else {
        None
    }
}

// A whole number below 0, after its sign; None where it is none of 64 bits.
fn negative(numeral: &Numeral<'_>) -> Option<i64>
    ensures { IfSome result (λ n. option_and_then as_i64 (number_from true numeral.now) ≡ Some n) }
{
    let number = numeral.to_i64(true)?;
    if number < 0 { Some(number) } else { None }
}

fn has_minus(bytes: &[u8]) -> bool
    ensures value { result ≡ (slice_index bytes.now 0 == 45) }
    ensures some { IsTrue result → 0 < length bytes.now }
{
    !bytes.is_empty() && bytes[0] == b'-'
}

// The whole number that the text of a number is; None where it is none of 64 bits.
fn integer_in(text: &str) -> Option<i64>
    ensures { IfSome result (λ n. option_and_then as_i64 (number_of text.now) ≡ Some n) }
{
    let bytes = text.as_bytes();
    if has_minus(bytes) {
        negative(&Numeral::scan(&bytes[1..]))
    } else {
        unsigned(&Numeral::scan(bytes))
    }
}

fn begins_array(reader: &mut Reader<'_>) -> bool
    ensures { IsTrue result → reader.old ≡ begin_array ∷ reader.new }
{
    matches!(reader.next(), Some(Token::BeginArray))
}

fn ends_array(reader: &mut Reader<'_>) -> bool
    ensures { IsTrue result → reader.old ≡ end_array ∷ reader.new }
{
    matches!(reader.next(), Some(Token::EndArray))
}

fn has_key(reader: &mut Reader<'_>, name: &str) -> bool
    ensures { IsTrue result → reader.old ≡ key name.now ∷ reader.new }
{
    match reader.next() {
        Some(Token::Key(found)) => found == name,
        _ => false,
    }
}

// A text or null.
fn value_in(alloc: Global, reader: &mut Reader<'_>) -> Result<Option<Option<String>>, AllocError>
    ensures { IfOk result (λ read. IfSome read (λ value.
        Spells text_or_null 0 reader.old reader.new (option_map string_bytes value))) }
{
    match reader.next() {
        Some(Token::String(text)) => Ok(Some(Some(String::from_str(alloc, text)?))),
        Some(Token::Null) => Ok(Some(None)),
        _ => Ok(None),
    }
}

// So many texts or nulls, and the end of their list.
#[tactic(auto, using(crate::proofs::SpeltLemmas::items_none, crate::proofs::SpeltLemmas::texts_more, crate::proofs::SpeltLemmas::items_end))]
fn values_in(
    alloc: Global,
    reader: &mut Reader<'_>,
    count: usize,
) -> Result<Option<Vec<Option<String>>>, AllocError>
    ensures rest { IfOk result (λ read. IfSome read (λ values.
        SpellsRest text_or_null 0 reader.old reader.new (nullable_texts_of values.items))) }
    ensures count { IfOk result (λ read. IfSome read (λ values. length values.items ≡ count)) }
{
    let mut values = Vec::with_capacity(alloc, count)?;
    for _ in 0..count {
        let Some(value) = value_in(alloc, reader)? else {
            return Ok(None);
        };
        values.push(value)?;
    }
    if ends_array(reader) {
        Ok(Some(values))
    } else {
        Ok(None)
    }
}

// A whole number or null.
#[tactic(auto, using(crate::proofs::SpeltLemmas::spells_number, crate::proofs::SpeltLemmas::spells_no_number))]
fn number_in(reader: &mut Reader<'_>) -> Option<Option<i64>>
    ensures { IfSome result (Spells number_or_null 0 reader.old reader.new) }
{
    match reader.next() {
        Some(Token::Number(text)) => Some(Some(integer_in(text)?)),
        Some(Token::Null) => Some(None),
        _ => None,
    }
}

// So many whole numbers or nulls, and the end of their list.
#[tactic(auto, using(crate::proofs::SpeltLemmas::items_none, crate::proofs::SpeltLemmas::items_more, crate::proofs::SpeltLemmas::items_end))]
fn numbers_in(
    alloc: Global,
    reader: &mut Reader<'_>,
    count: usize,
) -> Result<Option<Vec<Option<i64>>>, AllocError>
    ensures rest { IfOk result (λ read. IfSome read (λ numbers.
        SpellsRest number_or_null 0 reader.old reader.new numbers.items)) }
    ensures count { IfOk result (λ read. IfSome read (λ numbers. length numbers.items ≡ count)) }
    ensures words { IfOk result (λ read. IfSome read (λ numbers. AreWords numbers.items)) }
{
    let mut numbers = Vec::with_capacity(alloc, count)?;
    for _ in 0..count {
        let Some(number) = number_in(reader) else {
            return Ok(None);
        };
        numbers.push(number)?;
    }
    if ends_array(reader) {
        Ok(Some(numbers))
    } else {
        Ok(None)
    }
}

// Whether it may be what the aggregator tells: to count is never null.
fn is_counted(aggregator: &Aggregator, number: &Option<i64>) -> bool
    ensures { IsTrue result ↔ (aggregator.now.kind ≡ Count → IsSome number.now) }
{
    aggregator.kind() != AggregatorKind::Count || number.is_some()
}

// Whether no count is null.
fn are_counted(aggregations: &[Aggregator], numbers: &[Option<i64>]) -> bool
    requires { length numbers.now ≡ length aggregations.now }
    ensures { IsTrue result → AreNumbersFor (map (λ a. a.kind) aggregations.now) numbers.now }
{
    for i in 0..numbers.len() {
        if !is_counted(&aggregations[i], &numbers[i]) {
            return false;
        }
    }
    true
}

// A bucket of the query.
fn bucket_in(query: &Query, first: Instant, reader: &mut Reader<'_>) -> Option<Instant>
    requires { first ≡ earliest query.now.intervals }
    ensures spells { IfSome result (Spells (λ d. option_and_then instant_of (integer_at d)) 0 reader.old reader.new) }
    ensures bucket { IfSome result (IsBucketOf query.now) }
{
    let Some(Token::Number(text)) = reader.next() else {
        return None;
    };
    let ms = integer_in(text)?;
    let bucket = instant_of(ms)?;
    if is_bucket(query, first, bucket) {
        Some(bucket)
    } else {
        None
    }
}

// The group of a row, whose first bracket has been read.
fn group_in(
    alloc: Global,
    query: &Query,
    first: Instant,
    reader: &mut Reader<'_>,
) -> Result<Option<Group>, AllocError>
    requires { first ≡ earliest query.now.intervals }
    ensures spells { IfOk result (λ read. IfSome read (Spells group_at 2 (begin_array ∷ reader.old) reader.new)) }
    ensures each { IfOk result (λ read. IfSome read (IsGroupFor query.now)) }
    ensures words { IfOk result (λ read. IfSome read HasWords) }
{
    let Some(bucket) = bucket_in(query, first, reader) else {
        return Ok(None);
    };
    if !begins_array(reader) {
        return Ok(None);
    }
    let Some(values) = values_in(alloc, reader, query.dimensions().len())? else {
        return Ok(None);
    };
    if !begins_array(reader) {
        return Ok(None);
    }
    let Some(numbers) = numbers_in(alloc, reader, query.aggregations().len())? else {
        return Ok(None);
    };
    if !ends_array(reader) || !are_counted(query.aggregations(), &numbers) {
        return Ok(None);
    }
    Ok(Some(Group::new(bucket, values, numbers)))
}

// The groups of rows, and the end of their list; no more than a limit.
#[tactic(auto, using(crate::proofs::SpeltLemmas::items_none, crate::proofs::SpeltLemmas::items_more, crate::proofs::SpeltLemmas::items_end))]
fn groups_in(
    alloc: Global,
    query: &Query,
    reader: &mut Reader<'_>,
    limit: usize,
) -> Result<Option<Vec<Group>>, AllocError>
    ensures rest { IfOk result (λ read. IfSome read (λ groups. SpellsRest group_at 2 reader.old reader.new groups.items)) }
    ensures each { IfOk result (λ read. IfSome read (λ groups. All (IsGroupFor query.now) groups.items)) }
    ensures words { IfOk result (λ read. IfSome read (λ groups. All HasWords groups.items)) }
{
    let first = earliest(query);
    let mut groups = Vec::new(alloc);
    for _ in 0..limit {
        match reader.next() {
            Some(Token::EndArray) => return Ok(Some(groups)),
            Some(Token::BeginArray) => {
                let Some(group) = group_in(alloc, query, first, reader)? else {
                    return Ok(None);
                };
                groups.push(group)?;
            }
            _ => return Ok(None),
        }
    }
    Ok(None)
}

// Whether an answer begins so that it misses nothing, up to its first row.
fn begins_rows(reader: &mut Reader<'_>) -> bool
    ensures { IsTrue result → reader.old ≡ begin_object ∷ key (codes "missing") ∷ begin_array ∷ end_array
        ∷ key (codes "rows") ∷ begin_array ∷ reader.new }
{
    matches!(reader.next(), Some(Token::BeginObject))
        && has_key(reader, "missing")
        && begins_array(reader)
        && ends_array(reader)
        && has_key(reader, "rows")
        && begins_array(reader)
}

// Whether the object ends, and the text with it.
fn ends_answer(reader: &mut Reader<'_>) -> bool
    ensures { IsTrue result → reader.old ≡ end_object ∷ [] }
{
    matches!(reader.next(), Some(Token::EndObject)) && reader.next().is_none()
}

// The groups of the rows of a text that is such an answer, as they stand there.
fn groups_of(alloc: Global, query: &Query, text: &str) -> Result<Option<Vec<Group>>, AllocError>
    ensures spells { IfOk result (λ read. IfSome read (λ groups. SpellsAnswer (tokens text.now) groups.items)) }
    ensures each { IfOk result (λ read. IfSome read (λ groups. All (IsGroupFor query.now) groups.items)) }
    ensures words { IfOk result (λ read. IfSome read (λ groups. All HasWords groups.items)) }
{
    let mut scratch = Scratch::new(alloc);
    let mut reader = Reader::new(text, &mut scratch)?;
    if !begins_rows(&mut reader) {
        return Ok(None);
    }
    let Some(groups) = groups_in(alloc, query, &mut reader, text.len())? else {
        return Ok(None);
    };
    if ends_answer(&mut reader) {
        Ok(Some(groups))
    } else {
        Ok(None)
    }
}

/// The answer that bytes are which stand as `node_answer_text` writes an answer that misses nothing; None where they
/// stand otherwise, or a key stands twice.
///
/// # Errors
///
/// Out of memory, of bytes in UTF-8.
pub(crate) fn answer_in_form(
    alloc: Global,
    sub: &SubQuery,
    bytes: &[u8],
) -> Result<Option<NodeAnswer>, AllocError>
    ensures ok { IfOk result (λ read. IfSome read (λ answer. IsAnswerOf sub.now bytes.now (Ok answer))) }
    ensures utf8 { OnErr result (IsUtf8 bytes.now) }
{
    let Ok(text) = str::from_utf8(bytes) else {
        return Ok(None);
    };
    let Some(groups) = groups_of(alloc, sub.query(), text)? else {
        return Ok(None);
    };
    let Some(groups) = in_order(groups) else {
        return Ok(None);
    };
    let kinds = kinds_of(alloc, sub.query())?;
    Ok(Some(NodeAnswer::new(Partial::new(kinds, groups), Vec::new(alloc))))
}
