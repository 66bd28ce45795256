//! The texts of the pieces of segments that a node is asked for.
#![tactic(auto)]

mod laws;
mod slices;

pub use laws::{asked_are_read_back, pieces_are_judged};
pub use slices::{
    are_apart, are_inside, asked_items, asked_list, asked_value, asked_values, is_asked, read_asked,
};
