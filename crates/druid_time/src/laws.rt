//! Facts about the definitions that the contracts cite.
ghost use Rattle.std.specs.Prelude.{◌≡◌, ℕ, List, Ok, Some};
ghost use Rattle.std.specs.Ordering.{nat_cmp};
ghost use Rattle.std.specs.Cmp.Lexicographic.{slice_cmp};
ghost use Rattle.druid_time.specs.Civil.{Civil, IsCivil, civil_of, instant_of, new_year_1970};
ghost use Rattle.druid_time.specs.Extent.{Extent, IsExtent, AreParts, SameInstants};
ghost use Rattle.druid_time.specs.Granularity.{bucket_length, bucket_at, StartsBucket};
ghost use Rattle.druid_time.specs.Instant.{IsInstant, unix_epoch};
ghost use Rattle.druid_time.specs.Texts.{instant_at, instant_text, extent_at, extent_text};
ghost use Rattle.druid_time.specs.declared.granularity.Granularity.{Granularity};

/// Each instant has a date and a time of the calendar, which name it, and each date and time of
/// the calendar names an instant, which has them. 1970 begins where milliseconds are counted from.
pub fn calendar_is_exact()
    ensures instants { (t : ℕ) → IsInstant t → IsCivil (civil_of t) × (instant_of (civil_of t) ≡ t) }
    ensures dates { (c : Civil) → IsCivil c
        → IsInstant (instant_of c) × (civil_of (instant_of c) ≡ c) }
    ensures epoch { instant_of new_year_1970 ≡ unix_epoch }
{}

/// A printed instant or interval is read back.
pub fn texts_are_read_back()
    ensures instants { (t : ℕ) → IsInstant t → instant_at (instant_text t) ≡ Ok t }
    ensures intervals { (e : Extent) → IsExtent e → extent_at (extent_text e) ≡ Ok e }
{}

/// Printed instants stand in the order of the instants.
pub fn texts_keep_order()
    ensures { (s t : ℕ) → IsInstant s → IsInstant t
        → slice_cmp nat_cmp (instant_text s) (instant_text t) ≡ nat_cmp s t }
{}

/// A set of instants has one list of parts.
pub fn one_list_of_parts()
    ensures { (xs ys : List Extent) → AreParts xs → AreParts ys → SameInstants xs ys → xs ≡ ys }
{}

/// Each bucket starts at the greatest multiple of its length that is not above its instants, counted from 1970.
pub fn buckets_count_from_1970()
    ensures { (granularity : Granularity) (length t b : ℕ) → bucket_length granularity ≡ Some length
        → bucket_at granularity t ≡ Some b → StartsBucket length t b }
{}
