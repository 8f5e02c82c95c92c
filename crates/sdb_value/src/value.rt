//! The values of documents.
ghost use Rattle.std.specs.Prelude.{◌≡◌, ◌+ℤ◌, IfOk, IsFalse, IsTrue, OnOk, map, min, option_map, true};
ghost use Rattle.sdb_value.specs.Uniqueness.{all_true, is_unique, is_frozen, is_shared_json, map_unique, object_unique};
ghost use Rattle.sdb_value.specs.FromJson.{checked_whole};
ghost use Rattle.sdb_value.specs.Size.{size};
ghost use Rattle.sdb_value.specs.Value.{as_object, depth, list, null, object};
ghost use Rattle.sdb_value.specs.View.{value_of, items_value, map_value, object_value};

use crate::clone_modes::{CloneMode, clone_frozen, clone_preserving, copy};
use crate::depth_and_size::{depth_of, size_of};
use crate::freeze::freeze_value;
use crate::numbers::MAX;
use sdb_chunks::{ChunkedVec, TryClone};
use sdb_rope::Rope;
use std::alloc::{AllocError, Global};
use std::collections::BTreeMap;
use std::marker::Model;

/// An integer from -9007199254740991 to 9007199254740991, the range that a double holds exactly
/// (RFC 8259, section 6).
#[derive(Clone, Copy, PartialEq, Eq, Debug, Drop)]
pub struct Whole {
    value: i64,
}

impl Model for Whole {
    ghost use Rattle.std.specs.Prelude.{◌≤ℤ◌, ℤ, pos, negsuc};

    ghost Value = { ℤ };

    ghost view = { λ w. w.value };

    ghost invariant = { λ w. (negsuc 9007199254740990 ≤ℤ w.value) × (w.value ≤ℤ pos 9007199254740991) };

    ghost inverse = { λ z. record { value = z } };
}

impl Whole {
    /// The greatest value, 9007199254740991. The least is `-Whole::MAX`.
    pub const MAX: i64 = MAX as i64;

    /// Creates the integer, or returns `None` if it is outside the range from -9007199254740991 to
    /// 9007199254740991.
    pub fn new(value: i64) -> Option<Whole>
        ensures { result ≡ checked_whole value }
    {
        if value < -Whole::MAX || value > Whole::MAX {
            return None;
        }
        Some(Whole { value })
    }

    /// Returns the number.
    pub fn get(self) -> i64
        ensures { result ≡ self }
    {
        self.value
    }

    /// Returns the sum, or `None` if it is outside the range from -9007199254740991 to
    /// 9007199254740991.
    pub fn checked_add(self, other: Whole) -> Option<Whole>
        ensures { result ≡ checked_whole (self +ℤ other) }
    {
        Whole::new(self.get() + other.get())
    }
}

/// The items of a list, in chunks that clones share.
pub type List = ChunkedVec<Json>;

/// The members of an object, sorted by the bytes of their keys, in chunks that clones share.
pub type Members = sdb_sorted_map::SortedMap<Json>;

/// The value of a document (RFC 8259, section 3), with integers only. Its texts, lists and objects
/// are unique or shared with clones. A change is copy-on-write: it copies shared parts on its path
/// and changes unique ones in place.
///
/// ```
/// let value = from_value(alloc, &Value::from_str(alloc, r#"{"n":1}"#)?)?;
/// assert!(rt; matches!(&value, Json::Object(members) if members.len() == 1));
/// let text = to_value(alloc, &value)?.to_string(alloc)?;
/// assert_eq!(rt; text.as_str(), r#"{"n":1}"#);
/// ```
pub enum Json {
    /// `null`.
    Null,
    /// `true` or `false`.
    Bool(bool),
    /// An integer within ±9007199254740991.
    Int(Whole),
    /// A text. Its offsets count UTF-16 code units ([`crate::units`]).
    Text(Rope),
    /// A list, indexed from 0.
    List(List),
    /// An object, with members sorted by the bytes of their keys.
    Object(Members),
}

// Written by hand: a derived `Drop` would be unfolded over all kinds of values in each proof that
// drops a value.
impl Drop for Json {
    fn drop(self) {
        match self {
            Json::Null | Json::Bool(_) | Json::Int(_) => {}
            Json::Text(text) => drop(text),
            Json::List(items) => drop(items),
            Json::Object(members) => drop(members),
        }
    }
}

impl Json {
    /// Creates a list that keeps the vector's memory.
    pub fn list(items: Vec<Json>) -> Json
        ensures value { value_of result ≡ list (items_value items.items) }
        ensures unique { all_true (map is_unique items.items) ≡ true → is_unique result ≡ true }
    {
        Json::List(ChunkedVec::from_vec(items))
    }

    /// Creates a list in chunks. Up to 20 items keep the vector's memory.
    ///
    /// # Errors
    ///
    /// [`AllocError`] if an allocation fails.
    pub fn from_items(alloc: Global, items: Vec<Json>) -> Result<Json, AllocError>
        ensures value { IfOk result (λ v. value_of v ≡ list (items_value items.items)) }
        ensures unique { all_true (map is_unique items.items) ≡ true → IfOk result (λ v. is_unique v ≡ true) }
    {
        Ok(Json::List(ChunkedVec::from_vec_chunked(alloc, items)?))
    }

    /// Creates an object from a map.
    ///
    /// # Errors
    ///
    /// [`AllocError`] if an allocation fails.
    pub fn object(alloc: Global, members: BTreeMap<String, Json>) -> Result<Json, AllocError>
        ensures value { IfOk result (λ v. value_of v ≡ object (map_value members.entries)) }
        ensures unique { map_unique members.entries ≡ true → IfOk result (λ v. is_unique v ≡ true) }
    {
        Ok(Json::from_members(Members::from_map(alloc, members)?))
    }

    /// Creates an object from its members.
    pub fn from_members(members: Members) -> Json
        ensures value { value_of result ≡ object (object_value members) }
        ensures unique { is_unique result ≡ object_unique members }
    {
        Json::Object(members)
    }

    /// Returns whether the value is `null`.
    pub fn is_null(&self) -> bool
        ensures null { IsTrue result → value_of self.now ≡ null }
        ensures on_false { IsFalse result → value_of self.now ≡ null → ⊥ }
    {
        match self {
            Json::Null => true,
            _ => false,
        }
    }

    /// Returns whether a text, list or object is shared as a whole, so that a clone is a pointer.
    pub fn is_shared(&self) -> bool
        ensures { result ≡ is_shared_json self.now }
    {
        match self {
            Json::Text(text) => text.is_shared(),
            Json::List(items) => items.is_shared(),
            Json::Object(members) => members.is_shared(),
            _ => false,
        }
    }

    /// Returns the members, or `None` for another kind of value.
    #[tactic(auto, using(crate::proofs::ViewLemmas::seen_object))]
    pub fn members(&self) -> Option<&Members>
        ensures { option_map (λ m. object_value m.now) result ≡ as_object (value_of self.now) }
    {
        match self {
            Json::Object(members) => Some(members),
            _ => None,
        }
    }

    /// Clones the value. Shared parts are cloned by pointer, all others are copied.
    ///
    /// # Errors
    ///
    /// [`AllocError`] if an allocation fails.
    pub fn try_clone(&self, alloc: Global) -> Result<Json, AllocError>
        ensures value { IfOk result (λ v. value_of v ≡ value_of self.now) }
        ensures unique { IfOk result (λ v. is_unique v ≡ is_unique self.now) }
    {
        clone_preserving(alloc, self)
    }

    /// Copies the value, so that the copy is unique.
    ///
    /// # Errors
    ///
    /// [`AllocError`] if an allocation fails.
    pub fn deep_clone(&self, alloc: Global) -> Result<Json, AllocError>
        ensures value { IfOk result (λ v. value_of v ≡ value_of self.now) }
        ensures unique { IfOk result (λ v. is_unique v ≡ true) }
    {
        copy(alloc, self, CloneMode::Unique)
    }

    /// Clones the value so that the clone is frozen: its next clone is a pointer. Only parts that
    /// aren't shared yet are copied.
    ///
    /// # Errors
    ///
    /// [`AllocError`] if an allocation fails.
    pub fn frozen_clone(&self, alloc: Global) -> Result<Json, AllocError>
        ensures value { IfOk result (λ v. value_of v ≡ value_of self.now) }
        ensures frozen { IfOk result (λ v. is_frozen v ≡ true) }
    {
        clone_frozen(alloc, self)
    }

    /// Freezes the value in place, so that a clone is a pointer. The cost is one allocation for
    /// each text, list, object and chunk that isn't shared yet; shared parts are skipped.
    ///
    /// # Errors
    ///
    /// [`AllocError`] if an allocation fails. The value is then equal, but may be frozen in part.
    pub fn freeze(&mut self, alloc: Global) -> Result<(), AllocError>
        ensures value { value_of self.new ≡ value_of self.old }
        ensures frozen { OnOk result (is_frozen self.new ≡ true) }
    {
        freeze_value(alloc, self)
    }

    /// Returns the nesting depth of lists and objects, at most `u64::MAX`. That of a list or object
    /// is one more than its deepest item's, that of any other value 0.
    pub fn depth(&self) -> u64
        ensures { result ≡ min (depth (value_of self.now)) 18446744073709551615 }
    {
        depth_of(self)
    }

    /// Returns the size, at most the limit: the number of values in it, including itself, and the
    /// bytes of its texts and keys. It stops at the limit.
    pub fn size(&self, limit: u64) -> u64
        ensures { result ≡ min limit (size (value_of self.now)) }
    {
        size_of(self, limit)
    }
}

impl TryClone for Json {
    ghost use Rattle.std.specs.Prelude.{Bool};
    ghost use Rattle.sdb_value.specs.Value.{Value};
    ghost use Rattle.sdb_value.specs.Uniqueness.{value_model};

    ghost Model = { Value × Bool };

    ghost model = { value_model };

    fn try_clone(&self, alloc: Global) -> Result<Json, AllocError> {
        clone_preserving(alloc, self)
    }
}
