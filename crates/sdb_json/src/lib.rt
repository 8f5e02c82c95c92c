//! JSON values to read: those of `serde_json`, and trees of `json`, which borrow from the text that
//! was parsed.
#![tactic(auto)]

mod json_data;
mod number;
mod parse;
mod serde_value;
mod tree;

pub use json::{Scratch, Value as JsonTree};
pub use json_data::JsonData;
pub use parse::parse_json;
