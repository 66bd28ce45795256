//! The items of the lists of a query, read out of JSON. Nothing here allocates.
ghost use Rattle.std.specs.Prelude.{◌≡◌, ◌&&◌, Bool, Option, nat_le, length, option_map};
ghost use Rattle.std.specs.List.{list_all};
ghost use Rattle.serde_json.specs.Data.{Data};
ghost use Rattle.serde_json.specs.Find.{get};
ghost use Rattle.serde_json.specs.View.{view, items_view};
ghost use Rattle.druid_base.specs.Each.{each_of};
ghost use Rattle.druid_query.specs.Fields.{items_or_none};

use serde_json::Value;

// An interval, a dimension or an aggregator, with borrowed texts.
pub(crate) trait Item<'a>: Sized + Drop {
    // What a value is read as.
    ghost at: { Data → Option Self };

    // Whether its texts are within their limits.
    ghost fits: { Self → Bool };

    fn of(value: &'a Value) -> Option<Self>
        ensures { result ≡ at (view value.now) };

    fn is_fit(&self) -> bool
        ensures { result ≡ fits self.now };
}

// The list at a key, empty where there is no such key. None where it holds no list.
pub(crate) fn items_field<'a>(value: &'a Value, key: &str) -> Option<&'a [Value]>
    ensures { option_map (λ vs. items_view vs.now) result ≡ items_or_none (get key.now (view value.now)) }
{
    match value.get(key) {
        Some(value) => match value.as_array() {
            Some(values) => Some(values.as_slice()),
            None => None,
        },
        None => Some(&[]),
    }
}

// Whether there are no more items than this, and each is within its limits. None where one does not read.
pub(crate) fn are_fit<'a, I: Item<'a>>(values: &'a [Value], most: usize) -> Option<bool>
    ensures { result ≡ option_map (λ items. nat_le (length values.now) most && list_all I.fits items) (each_of I.at (items_view values.now)) }
{
    let mut fit = values.len() <= most;
    for value in values {
        let item = I::of(value)?;
        let fits = item.is_fit();
        fit = fit && fits;
    }
    Some(fit)
}
