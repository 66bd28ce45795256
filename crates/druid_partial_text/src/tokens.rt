//! JSON written a token at a time: what partials and results are made of.
ghost use Rattle.std.specs.Prelude.{◌≡◌, ◌++◌, [], OnOk, option_map, string_bytes};
ghost use Rattle.json.specs.Lex.{tokens as tokens_in};
ghost use Rattle.json.specs.Print.{print};
ghost use Rattle.druid_filter.specs.Values.{nullable_texts_of};
ghost use Rattle.druid_query.specs.Written.{value_data};
ghost use Rattle.druid_partial_text.specs.Written.{number_data, values_data, numbers_data};
ghost use Rattle.druid_partial_text.specs.Tokens.{tokens_of};

use json::Writer;
use std::alloc::AllocError;

/// Writes a value of a dimension.
pub(crate) fn push_value(out: &mut Writer, value: &Option<String>) -> Result<(), AllocError>
    ensures ok { OnOk result
        (out.new.tokens ≡ out.old.tokens ++ tokens_of (value_data (option_map string_bytes value.now))) }
    ensures before { out.new.before ≡ out.old.before }
{
    match value {
        Some(text) => out.string(text.as_str()),
        None => out.null(),
    }
}

/// Writes what an aggregator tells.
#[tactic(auto, using(crate::proofs::TokenLemmas::number_tokens))]
pub(crate) fn push_number(out: &mut Writer, number: Option<i64>) -> Result<(), AllocError>
    ensures ok { OnOk result (out.new.tokens ≡ out.old.tokens ++ tokens_of (number_data number)) }
    ensures before { out.new.before ≡ out.old.before }
{
    match number {
        Some(number) => out.i64(number),
        None => out.null(),
    }
}

// Writes the values of a group.
#[tactic(auto, using(crate::proofs::TokenLemmas::value_next, crate::proofs::TokenLemmas::values_first, crate::proofs::TokenLemmas::values_last))]
pub(crate) fn push_values(out: &mut Writer, values: &[Option<String>]) -> Result<(), AllocError>
    ensures ok { OnOk result
        (out.new.tokens ≡ out.old.tokens ++ tokens_of (values_data (nullable_texts_of values.now))) }
    ensures before { out.new.before ≡ out.old.before }
{
    out.begin_array()?;
    for value in values {
        push_value(out, value)?;
    }
    out.end_array()
}

// Writes the numbers of a group.
#[tactic(auto, using(crate::proofs::TokenLemmas::number_next, crate::proofs::TokenLemmas::numbers_first, crate::proofs::TokenLemmas::numbers_last))]
pub(crate) fn push_numbers(out: &mut Writer, numbers: &[Option<i64>]) -> Result<(), AllocError>
    ensures ok { OnOk result (out.new.tokens ≡ out.old.tokens ++ tokens_of (numbers_data numbers.now)) }
    ensures before { out.new.before ≡ out.old.before }
{
    out.begin_array()?;
    for number in numbers {
        push_number(out, *number)?;
    }
    out.end_array()
}

/// The text that was written into an empty buffer.
pub(crate) fn text_of(out: Writer) -> String
    requires { out.before ≡ [] }
    ensures text { string_bytes result ≡ print out.tokens }
    ensures read_back { tokens_in (string_bytes result) ≡ out.tokens }
{
    let Ok(text) = String::from_utf8(out.into_inner()) else {
        unreachable!()
    };
    text
}
