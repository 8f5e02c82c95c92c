//! The trait of JSON values that can be read.
ghost use Rattle.std.specs.Prelude.{◌≡◌, IfOk, OnErr, is_some, map, option_and_then, option_map, true};
ghost use Rattle.serde_json.specs.Data.{Data};
ghost use Rattle.serde_json.specs.Find.{as_array, as_bool, as_i64, as_null, as_number, as_object, as_str, as_u64, get};
ghost use Rattle.serde_json.specs.View.{items_of};
ghost use Rattle.sdb_json.specs.TreeData.{sorted_members};

use std::alloc::{AllocError, Global};
use std::collections::BTreeMap;

/// A readable JSON value (RFC 8259) with the semantics of `serde_json`. An object has each key
/// once, with its last value.
pub trait JsonData {
    // The value as the data that `serde_json` would hold.
    ghost json: { Self → Data };

    /// Returns whether the value is `null`.
    fn is_null(&self) -> bool
        ensures { result ≡ is_some (as_null (json self.now)) };

    /// Returns the boolean, if the value is one.
    fn as_bool(&self) -> Option<bool>
        ensures { result ≡ as_bool (json self.now) };

    /// Returns whether the value is a number.
    fn is_number(&self) -> bool
        ensures { result ≡ is_some (as_number (json self.now)) };

    /// Returns the number, if the value is an integer from 0 to 2^64 - 1.
    fn as_u64(&self) -> Option<u64>
        ensures { result ≡ option_and_then as_u64 (as_number (json self.now)) };

    /// Returns the number, if the value is an integer from -2^63 to 2^63 - 1.
    fn as_i64(&self) -> Option<i64>
        ensures { result ≡ option_and_then as_i64 (as_number (json self.now)) };

    /// Returns the string, if the value is one.
    fn as_str(&self) -> Option<&str>
        ensures { option_map (λ s. s.now) result ≡ as_str (json self.now) };

    /// Returns the items, if the value is an array.
    fn as_array(&self) -> Option<&[Self]>
        ensures { option_map (λ items. items_of (map json items.now)) result ≡ as_array (json self.now) };

    /// Returns whether the value is an object.
    fn is_object(&self) -> bool
        ensures { result ≡ is_some (as_object (json self.now)) };

    /// Returns the members sorted by key, if the value is an object. It allocates an entry for each
    /// member.
    ///
    /// # Errors
    ///
    /// [`AllocError`] if an allocation fails.
    fn members(&self, alloc: Global) -> Result<Option<BTreeMap<&str, &Self>>, AllocError>
        ensures members { IfOk result (λ m. option_map (λ members. sorted_members json members.entries) m
            ≡ as_object (json self.now)) }
        ensures memory { OnErr result (is_some (as_object (json self.now)) ≡ true) };

    /// Returns the member of that key, if the value is an object that has it.
    fn get(&self, key: &str) -> Option<&Self>
        ensures { option_map (λ member. json member.now) result ≡ get key.now (json self.now) };
}
