//! Facts that hold of all results. A group is what one row tells, or what some rows of one key tell
//! together, so results are merged by the definition that makes them.
ghost use Rattle.std.specs.Prelude.{◌≡◌, List, [], ◌++◌};
ghost use Rattle.druid_query.specs.declared.aggregator.AggregatorKind.{AggregatorKind};
ghost use Rattle.druid_partial.specs.Groups.{Group, IsResult, IsMerge};

/// Rows have one result.
pub fn one_result()
    ensures { (kinds : List AggregatorKind) (rows x y : List Group) → IsResult kinds rows x → IsResult kinds rows y → x ≡ y }
{}

/// The merge of the results of two lists of rows is the result of both lists together.
pub fn merge_is_the_result_of_both()
    ensures { (kinds : List AggregatorKind) (a b x y z : List Group) → IsResult kinds a x → IsResult kinds b y
        → IsMerge kinds x y z → IsResult kinds (a ++ b) z }
{}

/// It does not matter which of two results is merged into which.
pub fn merges_commute()
    ensures { (kinds : List AggregatorKind) (x y z : List Group) → IsMerge kinds x y z → IsMerge kinds y x z }
{}

/// Where three results are merged, it does not matter which two come first.
pub fn merges_regroup()
    ensures { (kinds : List AggregatorKind) (a b c x y z xy yz left right : List Group) → IsResult kinds a x
        → IsResult kinds b y → IsResult kinds c z → IsMerge kinds x y xy → IsMerge kinds xy z left
        → IsMerge kinds y z yz → IsMerge kinds x yz right → left ≡ right }
{}

/// A merge with the result of no rows changes nothing.
pub fn no_rows_change_nothing()
    ensures { (kinds : List AggregatorKind) (rows x y z : List Group) → IsResult kinds rows x → IsResult kinds [] y
        → IsMerge kinds x y z → z ≡ x }
{}
