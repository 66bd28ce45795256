//! Names and values within their limits.
ghost use Rattle.std.specs.Prelude.{◌≡◌, option_map};
ghost use Rattle.druid_query.specs.Query.{is_label, is_short};

use crate::{MAX_LABEL, MAX_VALUE};

/// Whether a text is as long as a name in a query may be.
pub fn is_label(text: &str) -> bool
    ensures { result ≡ is_label text.now }
{
    1 <= text.len() && text.len() <= MAX_LABEL
}

/// Whether a value is as long as one in a filter may be; null is.
pub fn is_short(value: Option<&str>) -> bool
    ensures { result ≡ is_short (option_map (λ s. s.now) value.entry) }
{
    match value {
        Some(text) => text.len() <= MAX_VALUE,
        None => true,
    }
}
