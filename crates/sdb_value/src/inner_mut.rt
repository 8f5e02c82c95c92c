//! Mutable borrows of a value's inside.
ghost use Rattle.std.specs.Prelude.{◌≡◌, option_map, IfSome};
ghost use Rattle.std.specs.Option.{OnSome};
ghost use Rattle.std.specs.Borrow.{LendsSo, sem};
ghost use Rattle.sdb_rope.specs.Rope.{rope_bytes, is_unique_rope};
ghost use Rattle.sdb_value.specs.Uniqueness.{is_unique, object_unique, list_unique};
ghost use Rattle.sdb_value.specs.Rows.{json_row, list_row, members_row, text_row};
ghost use Rattle.sdb_value.specs.Value.{text, list, object, as_text, as_list, as_object};
ghost use Rattle.sdb_value.specs.View.{value_of, object_value, list_value};

use crate::value::{Json, List, Members};
use sdb_rope::Rope;

/// Borrows the text, or returns `None` for another kind of value. A change through the borrow
/// changes the value.
#[tactic(auto, using(crate::proofs::UniquenessLemmas::unique_text))]
pub fn text_mut(value: &mut Json) -> Option<&mut Rope>
    ensures* writes_back { sem 𝓛 (LendsSo json_row text_row value.entry result
        (λ n w. OnSome result ((value_of n ≡ text (rope_bytes w)) × (is_unique n ≡ is_unique_rope w)))
        (λ n. (value_of n ≡ value_of value.old) × (is_unique n ≡ is_unique value.old))) }
    ensures value { option_map (λ v. rope_bytes v.now) result ≡ as_text (value_of value.old) }
    ensures unique { IfSome result (λ v. is_unique_rope v.now ≡ is_unique value.old) }
{
    if let Json::Text(text) = value {
        Some(text)
    } else {
        None
    }
}

/// Borrows the list, or returns `None` for another kind of value. A change through the borrow
/// changes the value.
#[tactic(auto, using(crate::proofs::ViewLemmas::seen_list, crate::proofs::UniquenessLemmas::unique_list))]
pub fn list_mut(value: &mut Json) -> Option<&mut List>
    ensures* writes_back { sem 𝓛 (LendsSo json_row list_row value.entry result
        (λ n w. OnSome result ((value_of n ≡ list (list_value w)) × (is_unique n ≡ list_unique w)))
        (λ n. (value_of n ≡ value_of value.old) × (is_unique n ≡ is_unique value.old))) }
    ensures value { option_map (λ v. list_value v.now) result ≡ as_list (value_of value.old) }
    ensures unique { IfSome result (λ v. list_unique v.now ≡ is_unique value.old) }
{
    if let Json::List(items) = value {
        Some(items)
    } else {
        None
    }
}

/// Borrows the object, or returns `None` for another kind of value. A change through the borrow
/// changes the value.
#[tactic(auto, using(crate::proofs::ViewLemmas::seen_object, crate::proofs::UniquenessLemmas::unique_object))]
pub fn object_mut(value: &mut Json) -> Option<&mut Members>
    ensures* writes_back { sem 𝓛 (LendsSo json_row members_row value.entry result
        (λ n w. OnSome result ((value_of n ≡ object (object_value w)) × (is_unique n ≡ object_unique w)))
        (λ n. (value_of n ≡ value_of value.old) × (is_unique n ≡ is_unique value.old))) }
    ensures value { option_map (λ v. object_value v.now) result ≡ as_object (value_of value.old) }
    ensures unique { IfSome result (λ v. object_unique v.now ≡ is_unique value.old) }
{
    if let Json::Object(members) = value {
        Some(members)
    } else {
        None
    }
}
