//! What several crates have in common: JSON out of bytes, fields of JSON objects, copies of texts,
//! numbers in digits, and texts of which none stands twice.
#![tactic(auto)]

mod distinct;
mod fault;
mod fields;
mod json;
mod number;
mod text;

pub use distinct::{TextList, are_distinct, doubled_text};
pub use fault::JsonFault;
pub use fields::{
    are_texts, are_texts_or_null, limited_field, list_field, number_field, text_field, text_or_null,
};
pub use json::parse_json;
pub use number::number_of;
pub use text::copy_text;
