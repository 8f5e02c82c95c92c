//! The effect of each act on the value at its path.
ghost use Rattle.std.specs.Prelude.{◌≡◌, ◌+ℤ◌, false, true, if◌then◌else◌, IfOk};
ghost use Rattle.sdb_value.specs.Uniqueness.{is_unique};
ghost use Rattle.sdb_value.specs.FromJson.{checked_whole};
ghost use Rattle.sdb_rope.specs.Utf16.{insert_text, remove_text};
ghost use Rattle.sdb_value.specs.Value.{insert_item, remove_item, replace_item, put_member, without_member};
ghost use Rattle.sdb_value.specs.View.{value_of};
ghost use Rattle.sdb_component.specs.View.{plain_act};
ghost use Rattle.sdb_apply.specs.Apply.{apply_act, map_number, map_text, map_list, map_object};
ghost use Rattle.sdb_apply.specs.declared.op_apply.ApplyFault.TheVariants.{NotApplied};
ghost use Rattle.sdb_apply.specs.Outcome.{IsApplyOutcome, may_allocate, act_allocates};

use crate::op_apply::ApplyFault;
use sdb_component::{Act, NonEmptyText};
use sdb_value::{
    Json, Whole, insert_item, list_mut, object_mut, put_at_key, remove_at_key, remove_item,
    replace_item, text_mut,
};
use std::alloc::{AllocError, Global};

pub(crate) fn apply_act(alloc: Global, target: &mut Json, act: &Act) -> Result<(), ApplyFault>
    ensures outcome { IsApplyOutcome (may_allocate (act_allocates (plain_act act.now)) (is_unique target.old)) result
        (apply_act (plain_act act.now) (value_of target.old)) (value_of target.old) (value_of target.new) }
    ensures unique { is_unique target.old ≡ true → is_unique target.new ≡ true }
{
    match act {
        Act::Na(amount) => add_number(target, *amount),
        Act::Si(offset, piece) => insert_text(alloc, target, *offset, piece),
        Act::Sd(offset, piece) => delete_text(alloc, target, *offset, piece),
        Act::Li(index, value) => insert_list_item(alloc, target, *index, value),
        Act::Ld(index, _removed) => delete_list_item(alloc, target, *index),
        Act::Lr(index, _removed, value) => replace_list_item(alloc, target, *index, value),
        Act::Oi(key, value) => set_member(alloc, target, key.as_str(), value),
        Act::Od(key, _removed) => remove_member(alloc, target, key.as_str()),
        Act::Or(key, _removed, value) => set_member(alloc, target, key.as_str(), value),
    }
}

fn add_number(target: &mut Json, amount: Whole) -> Result<(), ApplyFault>
    ensures outcome { IsApplyOutcome (may_allocate false (is_unique target.old)) result
        (map_number (λ n. checked_whole (n +ℤ amount)) (value_of target.old)) (value_of target.old)
        (value_of target.new) }
    ensures unique { is_unique target.old ≡ true → is_unique target.new ≡ true }
{
    if let Json::Int(n) = target {
        match n.checked_add(amount) {
            Some(sum) => {
                *n = sum;
                return Ok(());
            }
            None => {}
        }
    }
    Err(ApplyFault::NotApplied)
}

fn insert_text(
    alloc: Global,
    target: &mut Json,
    offset: u64,
    piece: &NonEmptyText,
) -> Result<(), ApplyFault>
    ensures outcome { IsApplyOutcome (may_allocate true (is_unique target.old)) result
        (map_text (insert_text offset piece.now) (value_of target.old)) (value_of target.old) (value_of target.new) }
    ensures unique { is_unique target.old ≡ true → is_unique target.new ≡ true }
{
    match text_mut(target) {
        Some(text) => applied_if(text.insert(alloc, offset, piece.as_str())?),
        None => Err(ApplyFault::NotApplied),
    }
}

fn delete_text(
    alloc: Global,
    target: &mut Json,
    offset: u64,
    piece: &NonEmptyText,
) -> Result<(), ApplyFault>
    ensures outcome { IsApplyOutcome (may_allocate false (is_unique target.old)) result
        (map_text (remove_text offset piece.now) (value_of target.old)) (value_of target.old) (value_of target.new) }
    ensures unique { is_unique target.old ≡ true → is_unique target.new ≡ true }
{
    match text_mut(target) {
        Some(text) => applied_if(text.remove(alloc, offset, piece.as_str())?),
        None => Err(ApplyFault::NotApplied),
    }
}

fn insert_list_item(
    alloc: Global,
    target: &mut Json,
    index: u64,
    value: &Json,
) -> Result<(), ApplyFault>
    ensures outcome { IsApplyOutcome (may_allocate true (is_unique target.old)) result
        (map_list (insert_item index (value_of value.now)) (value_of target.old)) (value_of target.old)
        (value_of target.new) }
    ensures unique { is_unique target.old ≡ true → is_unique target.new ≡ true }
{
    let copy = clone_for_insert(alloc, target, value)?;
    match list_mut(target) {
        Some(items) => applied_if(insert_item(alloc, items, index, copy)?),
        None => Err(ApplyFault::NotApplied),
    }
}

fn delete_list_item(alloc: Global, target: &mut Json, index: u64) -> Result<(), ApplyFault>
    ensures outcome { IsApplyOutcome (may_allocate false (is_unique target.old)) result
        (map_list (remove_item index) (value_of target.old)) (value_of target.old) (value_of target.new) }
    ensures unique { is_unique target.old ≡ true → is_unique target.new ≡ true }
{
    match list_mut(target) {
        Some(items) => applied_if(remove_item(alloc, items, index)?),
        None => Err(ApplyFault::NotApplied),
    }
}

fn replace_list_item(
    alloc: Global,
    target: &mut Json,
    index: u64,
    value: &Json,
) -> Result<(), ApplyFault>
    ensures outcome { IsApplyOutcome (may_allocate true (is_unique target.old)) result
        (map_list (replace_item index (value_of value.now)) (value_of target.old)) (value_of target.old)
        (value_of target.new) }
    ensures unique { is_unique target.old ≡ true → is_unique target.new ≡ true }
{
    let copy = clone_for_insert(alloc, target, value)?;
    match list_mut(target) {
        Some(items) => applied_if(replace_item(alloc, items, index, copy)?),
        None => Err(ApplyFault::NotApplied),
    }
}

fn set_member(alloc: Global, target: &mut Json, key: &str, value: &Json) -> Result<(), ApplyFault>
    ensures outcome { IsApplyOutcome (may_allocate true (is_unique target.old)) result
        (map_object (put_member key.now (value_of value.now)) (value_of target.old)) (value_of target.old)
        (value_of target.new) }
    ensures unique { is_unique target.old ≡ true → is_unique target.new ≡ true }
{
    let name = String::from_str(alloc, key)?;
    let copy = clone_for_insert(alloc, target, value)?;
    match object_mut(target) {
        Some(object) => Ok(put_at_key(alloc, object, name, copy)?),
        None => Err(ApplyFault::NotApplied),
    }
}

fn remove_member(alloc: Global, target: &mut Json, key: &str) -> Result<(), ApplyFault>
    ensures outcome { IsApplyOutcome (may_allocate false (is_unique target.old)) result
        (map_object (without_member key.now) (value_of target.old)) (value_of target.old) (value_of target.new) }
    ensures unique { is_unique target.old ≡ true → is_unique target.new ≡ true }
{
    match object_mut(target) {
        Some(object) => {
            remove_at_key(alloc, object, key)?;
            Ok(())
        }
        None => Err(ApplyFault::NotApplied),
    }
}

// Returns the copy to insert: a cheap clone if the target is shared, a deep copy if it is unique,
// so that it stays unique.
fn clone_for_insert(alloc: Global, target: &Json, value: &Json) -> Result<Json, AllocError>
    ensures value { IfOk result (λ v. value_of v ≡ value_of value.now) }
    ensures unique { is_unique target.now ≡ true → IfOk result (λ v. is_unique v ≡ true) }
{
    if target.is_shared() {
        return value.try_clone(alloc);
    }
    value.deep_clone(alloc)
}

fn applied_if(done: bool) -> Result<(), ApplyFault>
    ensures { result ≡ (if done then Ok tt else Err NotApplied) }
{
    if done {
        Ok(())
    } else {
        Err(ApplyFault::NotApplied)
    }
}
