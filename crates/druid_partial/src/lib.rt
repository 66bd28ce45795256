//! Partial results of queries, and merges of them.
#![tactic(auto)]

mod answer;
mod buckets;
mod group;
mod laws;
mod merged_partial;
mod numbers;
mod partial;

pub use answer::Answer;
pub use buckets::{earliest, is_bucket};
pub use group::Group;
pub use laws::{
    merge_is_the_result_of_both, merges_commute, merges_regroup, no_rows_change_nothing, one_result,
};
pub use merged_partial::{MergeRefused, merge};
pub use numbers::{join_number, join_numbers};
pub use partial::{Partial, kinds_of};
