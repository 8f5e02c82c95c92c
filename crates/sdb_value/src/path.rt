//! Paths in a value.
ghost use Rattle.std.specs.Prelude.{◌≡◌, ◌∷◌, true, false, Some, option_map, IfOk, IfSome, OnErr, MatchOption};
ghost use Rattle.sdb_value.specs.Change.{ReplacedAt, AbsentAt};
ghost use Rattle.sdb_sorted_map.specs.SearchModel.{vec_keys};
ghost use Rattle.sdb_value.specs.Uniqueness.{is_unique, entries_unique, list_unique, object_unique};
ghost use Rattle.sdb_value.specs.Value.{Value, value_at, child, item_at, member_at, key, index, list, object};
ghost use Rattle.sdb_value.specs.View.{value_of, plain_step, plain_path, list_value, object_value, values_of_entries};

use crate::inner_mut::{list_mut, object_mut};
use crate::list_edits::{put_item_back, take_list_item};
use crate::object_edits::{put_member_back, take_member};
use crate::value::{Json, List, Members};
use sdb_chunks::ChunkedVec;
use sdb_sorted_map::MapEntry;
use std::alloc::{AllocError, Global};
use std::mem::replace;

/// A step of a path: to a member of an object or an item of a list.
#[derive(PartialEq, Drop)]
pub enum Step {
    /// The member with this key.
    Key(String),
    /// The item at this index, from 0 on.
    Index(u64),
}

/// The steps from the root of a document.
///
/// ```
/// // `value` is {"l":[true]}.
/// let mut path = Vec::new(alloc);
/// path.push(Step::Key(String::from_str(alloc, "l")?))?;
/// path.push(Step::Index(0))?;
/// assert!(rt; matches!(find(&value, &path), Some(Json::Bool(true))));
/// ```
pub type Path = Vec<Step>;

/// Returns the value at a path. Returns `None` if a key is missing, an index is out of range, or a
/// step meets another kind of value.
pub fn find<'v>(value: &'v Json, path: &[Step]) -> Option<&'v Json>
    ensures { option_map (λ v. value_of v.now) result ≡ value_at (value_of value.now) (plain_path path.now) }
{
    match path {
        [] => Some(value),
        [first, rest @ ..] => find(child_at(value, first)?, rest),
    }
}

/// Borrows the value at a path mutably. It returns `None` if the path doesn't exist, or if a part
/// on the path is shared, which a unique value excludes. Only [`change_at`] states the effect of a
/// change on the whole value.
#[tactic(auto, using(crate::proofs::UniquenessLemmas::levels))]
pub fn find_mut<'v>(value: &'v mut Json, path: &[Step]) -> Option<&'v mut Json>
    ensures unique { is_unique value.old ≡ true
        → option_map (λ v. value_of v.now) result ≡ value_at (value_of value.old) (plain_path path.now) }
    // What is found in a shared value is its value at the path too.
    ensures found { IfSome result (λ v. value_at (value_of value.old) (plain_path path.now) ≡ Some (value_of v.now)) }
{
    let Some((first, rest)) = path.split_first() else {
        return Some(value);
    };
    match first {
        Step::Index(index) => find_mut(item_mut(list_mut(value)?, *index)?, rest),
        Step::Key(key) => find_mut(member_mut(object_mut(value)?, key.as_str())?, rest),
    }
}

// Returns the member or the item of one step.
#[tactic(auto, using(crate::proofs::ViewLemmas::seen_list, crate::proofs::ViewLemmas::seen_object))]
fn child_at<'v>(value: &'v Json, step: &Step) -> Option<&'v Json>
    ensures { option_map (λ v. value_of v.now) result ≡ child (plain_step step.now) (value_of value.now) }
{
    match value {
        Json::List(items) => match step {
            Step::Index(index) => item(items, *index),
            Step::Key(_) => None,
        },
        Json::Object(members) => match step {
            Step::Key(key) => member(members, key.as_str()),
            Step::Index(_) => None,
        },
        _ => None,
    }
}

fn item(items: &List, number: u64) -> Option<&Json>
    ensures { option_map (λ v. value_of v.now) result ≡ item_at number (list_value items.now) }
{
    items.get(number as usize)
}

fn member<'v>(members: &'v Members, name: &str) -> Option<&'v Json>
    ensures { option_map (λ v. value_of v.now) result ≡ member_at name.now (object_value members.now) }
{
    members.get(name)
}

// Borrows the item at an index, if it is unique.
fn item_mut(items: &mut List, number: u64) -> Option<&mut Json>
    ensures value { list_unique items.old ≡ true
        → option_map (λ v. value_of v.now) result ≡ item_at number (list_value items.old) }
    ensures unique { list_unique items.old ≡ true → IfSome result (λ v. is_unique v.now ≡ true) }
    ensures found { IfSome result (λ v. item_at number (list_value items.old) ≡ Some (value_of v.now)) }
{
    items.get_mut(number as usize)
}

// Borrows the value of a key, if it is unique.
fn member_mut<'v>(members: &'v mut Members, name: &str) -> Option<&'v mut Json>
    ensures value { object_unique members.old ≡ true
        → option_map (λ v. value_of v.now) result ≡ member_at name.now (object_value members.old) }
    ensures unique { object_unique members.old ≡ true → IfSome result (λ v. is_unique v.now ≡ true) }
    ensures found { IfSome result (λ v. member_at name.now (object_value members.old) ≡ Some (value_of v.now)) }
{
    members.get_mut(name)
}

/// A change of the value at a path.
pub trait Change {
    /// The result of the change.
    type Output;

    // `relation self before after output`: how the change relates the values before and after, and
    // its output.
    ghost relation: { Self → Value → Value → Self.Output → Type 0 };

    // Whether the change leaves a unique value unique.
    ghost keeps_unique: { Self → Type 0 };

    // A fact about the output if the value was unique.
    ghost result_unique: { Self → Self.Output → Type 0 };

    /// Changes the value in place.
    fn change(self, target: &mut Json) -> Self::Output
        ensures made { relation self (value_of target.old) (value_of target.new) result }
        ensures unique { keeps_unique self → is_unique target.old ≡ true → is_unique target.new ≡ true }
        ensures result_unique { is_unique target.old ≡ true → result_unique self result };
}

/// Applies a change to the value at a path, and leaves all other parts unchanged. Shared parts on
/// the path are copied. If no part on it is shared, it copies nothing and doesn't allocate.
///
/// Returns `None`, with the value unchanged, if a key is missing, an index is out of range, or a
/// step meets another kind of value.
///
/// # Errors
///
/// [`AllocError`] if an allocation fails. The value is then unchanged.
#[cycle(change)]
pub fn change_at<C: Change + Drop>(
    alloc: Global,
    value: &mut Json,
    path: &[Step],
    change: C,
) -> Result<Option<C::Output>, AllocError>
    ensures changed { IfOk result (λ o. MatchOption o
        (AbsentAt (value_of value.old) (plain_path path.now) (value_of value.new))
        (λ r. ReplacedAt (λ u v. C.Change.relation change u v r)
        (value_of value.old) (plain_path path.now) (value_of value.new))) }
    ensures err { OnErr result (value_of value.new ≡ value_of value.old) }
    ensures unique { C.Change.keeps_unique change → is_unique value.old ≡ true → is_unique value.new ≡ true }
    ensures shared_on_err { OnErr result (is_unique value.old ≡ false) }
    ensures result_unique { is_unique value.old ≡ true
        → IfOk result (λ o. IfSome o (λ r. C.Change.result_unique change r)) }
{
    let Some((first, rest)) = path.split_first() else {
        return Ok(Some(change.change(value)));
    };
    match first {
        Step::Index(index) => match list_mut(value) {
            Some(items) => change_item(alloc, items, *index, rest, change),
            None => Ok(None),
        },
        Step::Key(key) => match object_mut(value) {
            Some(members) => change_member(alloc, members, key.as_str(), rest, change),
            None => Ok(None),
        },
    }
}

// Applies the change inside an item. The item is taken out and put back, since the toolchain keeps
// no promise for a borrow from a chunked list.
#[cycle(change)]
fn change_item<C: Change + Drop>(
    alloc: Global,
    items: &mut List,
    number: u64,
    rest: &[Step],
    change: C,
) -> Result<Option<C::Output>, AllocError>
    ensures changed { IfOk result (λ o. MatchOption o
        (AbsentAt (list (list_value items.old)) (index number ∷ plain_path rest.now) (list (list_value items.new)))
        (λ r. ReplacedAt (λ u v. C.Change.relation change u v r)
        (list (list_value items.old)) (index number ∷ plain_path rest.now) (list (list_value items.new)))) }
    ensures err { OnErr result (list_value items.new ≡ list_value items.old) }
    ensures unique { C.Change.keeps_unique change → list_unique items.old ≡ true → list_unique items.new ≡ true }
    ensures shared_on_err { OnErr result (list_unique items.old ≡ false) }
    ensures result_unique { list_unique items.old ≡ true
        → IfOk result (λ o. IfSome o (λ r. C.Change.result_unique change r)) }
{
    let Some(mut item) = take_list_item(alloc, items, number)? else {
        return Ok(None);
    };
    let done = change_at(alloc, &mut item, rest, change);
    put_item_back(alloc, items, number, item);
    done
}

// Applies the change inside a member.
#[cycle(change)]
fn change_member<C: Change + Drop>(
    alloc: Global,
    members: &mut Members,
    name: &str,
    rest: &[Step],
    change: C,
) -> Result<Option<C::Output>, AllocError>
    ensures changed { IfOk result (λ o. MatchOption o
        (AbsentAt (object (object_value members.old)) (key name.now ∷ plain_path rest.now)
        (object (object_value members.new)))
        (λ r. ReplacedAt (λ u v. C.Change.relation change u v r)
        (object (object_value members.old)) (key name.now ∷ plain_path rest.now)
        (object (object_value members.new)))) }
    ensures err { OnErr result (object_value members.new ≡ object_value members.old) }
    ensures unique { C.Change.keeps_unique change → object_unique members.old ≡ true
        → object_unique members.new ≡ true }
    ensures shared_on_err { OnErr result (object_unique members.old ≡ false) }
    ensures result_unique { object_unique members.old ≡ true
        → IfOk result (λ o. IfSome o (λ r. C.Change.result_unique change r)) }
{
    match members.position_of(name) {
        Ok(index) => {
            let mut entries = replace(members, Members::new(alloc)).into_chunks();
            let done = change_value(alloc, &mut entries, index, rest, change);
            *members = Members::from_entries(entries);
            done
        }
        Err(_) => Ok(None),
    }
}

// Applies the change inside a member's value. The member is taken out and put back.
#[cycle(change)]
fn change_value<C: Change + Drop>(
    alloc: Global,
    entries: &mut ChunkedVec<MapEntry<Json>>,
    number: usize,
    rest: &[Step],
    change: C,
) -> Result<Option<C::Output>, AllocError>
    ensures changed { IfOk result (λ o. MatchOption o
        (AbsentAt (list (values_of_entries entries.old)) (index number ∷ plain_path rest.now)
        (list (values_of_entries entries.new)))
        (λ r. ReplacedAt (λ u v. C.Change.relation change u v r)
        (list (values_of_entries entries.old)) (index number ∷ plain_path rest.now)
        (list (values_of_entries entries.new)))) }
    ensures names { vec_keys entries.new ≡ vec_keys entries.old }
    ensures err { OnErr result (values_of_entries entries.new ≡ values_of_entries entries.old) }
    ensures unique { C.Change.keeps_unique change → entries_unique entries.old ≡ true
        → entries_unique entries.new ≡ true }
    ensures shared_on_err { OnErr result (entries_unique entries.old ≡ false) }
    ensures result_unique { entries_unique entries.old ≡ true
        → IfOk result (λ o. IfSome o (λ r. C.Change.result_unique change r)) }
{
    let Some(mut member) = take_member(alloc, entries, number)? else {
        return Ok(None);
    };
    let done = change_at(alloc, &mut member.value, rest, change);
    put_member_back(alloc, entries, number, member);
    done
}
