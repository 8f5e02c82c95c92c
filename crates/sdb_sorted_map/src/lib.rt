//! A sorted map: the members of an object as one chunked list, sorted by the bytes of their keys.
#![tactic(auto)]

mod iter;
mod map_entry;
mod map_key;
mod search;
mod sorted_map;
mod value_mut;

pub use iter::Iter;
pub use map_entry::MapEntry;
pub use map_key::MapKey;
pub use sorted_map::SortedMap;
