//! Facts that hold of all dictionaries.
ghost use Rattle.std.specs.Prelude.{◌≡◌, ℕ, ◌≤◌, List, Option, length};
ghost use Rattle.druid_segment_rows.specs.Columns.{IsDictionary, value_at};

/// The same values have one dictionary, and in it each value has one code.
pub fn values_have_one_dictionary()
    ensures dictionary { (values : List (Option (List ℕ))) (texts others : List (List ℕ))
        → IsDictionary values texts → IsDictionary values others → texts ≡ others }
    ensures code { (values : List (Option (List ℕ))) (texts : List (List ℕ)) (a b : ℕ) → IsDictionary values texts
        → a ≤ length texts → b ≤ length texts → value_at texts a ≡ value_at texts b → a ≡ b }
{}
