//! The text of a JSON value, written in parts.
#![tactic(auto)]

mod append;
mod level;
mod levels;
mod value_text;

pub use levels::ValueText;
