//! Texts of which none stands twice, over a trait: they are borrowed from names, from a schema or
//! from JSON that is not read yet, and nothing is copied to compare them.
ghost use Rattle.std.specs.Prelude.{◌≡◌, ◌↔◌, ◌+◌, ◌<◌, true, IsTrue, ℕ, List, [], IfSome, is_none, length, drop, slice_index_or};
ghost use Rattle.std.specs.List.{list_any};
ghost use Rattle.std.specs.Str.{bytes_eq};
ghost use Rattle.druid_base.specs.Distinct.{AreDistinct, are_distinct};

/// Texts one after another, borrowed from what has them.
pub trait TextList {
    /// The texts.
    ghost texts: { Self → List (List ℕ) };

    /// How many there are.
    fn count(&self) -> usize
        ensures { result ≡ length (texts self.now) };

    /// The text at a place, from 0.
    fn text(&self, place: usize) -> &str
        requires { place < length (texts self.now) }
        ensures { result.now ≡ slice_index_or (texts self.now) place [] };
}

// Whether the text at a place, of so many, stands at a later one.
fn stands_later<T: TextList>(texts: &T, place: usize, count: usize) -> bool
    requires within { place < count }
    requires all { count ≡ length (T.texts texts.now) }
    ensures { result ≡ list_any (bytes_eq (slice_index_or (T.texts texts.now) place [])) (drop (place + 1) (T.texts texts.now)) }
{
    for later in place + 1..count {
        if texts.text(place) == texts.text(later) {
            return true;
        }
    }
    false
}

/// The place of a text that stands at a later one too. Compares each two of them, and does not
/// allocate.
///
/// # Errors
///
/// None where no text stands twice.
pub fn doubled_text<T: TextList>(texts: &T) -> Option<usize>
    ensures test { is_none result ≡ are_distinct (T.texts texts.now) }
    ensures doubled { IfSome result (λ place.
        list_any (bytes_eq (slice_index_or (T.texts texts.now) place [])) (drop (place + 1) (T.texts texts.now)) ≡ true) }
{
    let count = texts.count();
    for place in 0..count {
        if stands_later(texts, place, count) {
            return Some(place);
        }
    }
    None
}

/// Whether no text stands twice, judged as `doubled_text` does.
pub fn are_distinct<T: TextList>(texts: &T) -> bool
    ensures test { result ≡ are_distinct (T.texts texts.now) }
    ensures distinct { IsTrue result ↔ AreDistinct (T.texts texts.now) }
{
    doubled_text(texts).is_none()
}
