//! Fields of JSON objects. Nothing here allocates.
ghost use Rattle.std.specs.Prelude.{◌≡◌, is_some, option_map};
ghost use Rattle.std.specs.List.{list_all};
ghost use Rattle.serde_json.specs.Find.{as_str};
ghost use Rattle.serde_json.specs.View.{view, items_view};
ghost use Rattle.druid_base.specs.Fields.{text_at, number_at, limited_at, list_at, text_or_null};

use serde_json::Value;

/// The text at a key of an object.
///
/// # Errors
///
/// None where there is no such key or it holds no text.
pub fn text_field<'a>(value: &'a Value, key: &str) -> Option<&'a str>
    ensures { option_map (λ s. s.now) result ≡ text_at key.now (view value.now) }
{
    value.get(key).and_then(Value::as_str)
}

/// The whole number at a key of an object, below 2^64.
///
/// # Errors
///
/// None where there is no such number.
pub fn number_field(value: &Value, key: &str) -> Option<u64>
    ensures { result ≡ number_at key.now (view value.now) }
{
    value.get(key).and_then(Value::as_u64)
}

/// The whole number at a key of an object, where it is at most the limit.
///
/// # Errors
///
/// None where there is no such number.
pub fn limited_field(value: &Value, key: &str, limit: u16) -> Option<u16>
    ensures { result ≡ limited_at limit key.now (view value.now) }
{
    let number = number_field(value, key)?;
    if number <= limit as u64 {
        Some(number as u16)
    } else {
        None
    }
}

/// The values of the list at a key of an object.
///
/// # Errors
///
/// None where there is no such key or it holds no list.
pub fn list_field<'a>(value: &'a Value, key: &str) -> Option<&'a [Value]>
    ensures { option_map (λ vs. items_view vs.now) result ≡ list_at key.now (view value.now) }
{
    let values = value.get(key).and_then(Value::as_array)?;
    Some(values.as_slice())
}

/// Whether each value is a text.
pub fn are_texts(values: &[Value]) -> bool
    ensures { result ≡ list_all (λ value. is_some (as_str (view value))) values.now }
{
    values.iter().all(|value| value.is_string())
}

/// The text that a value is, or null, which is `Some(None)`.
///
/// # Errors
///
/// None where it is neither.
#[tactic(auto, unfolding(crate::specs::Fields::text_or_null))]
pub fn text_or_null(value: &Value) -> Option<Option<&str>>
    ensures { option_map (option_map (λ s. s.now)) result ≡ text_or_null (view value.now) }
{
    if value.is_null() {
        return Some(None);
    }
    Some(Some(value.as_str()?))
}

/// Whether each value is a text or null.
pub fn are_texts_or_null(values: &[Value]) -> bool
    ensures { result ≡ list_all (λ value. is_some (text_or_null (view value))) values.now }
{
    values.iter().all(|value| text_or_null(value).is_some())
}
