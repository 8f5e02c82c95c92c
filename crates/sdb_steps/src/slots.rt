//! The slots of a session: the number of its queue for each key.
ghost use Rattle.std.specs.Prelude.{◌≡◌, true, None, Some, IfOk, OnOk, OnErr, option_map};
ghost use Rattle.std.specs.Map.{lookup};
ghost use Rattle.std.specs.BTreeMap.{is_at};
ghost use Rattle.std.specs.Option.{is_some};
ghost use Rattle.sdb_oplog.specs.Keys.{plain_key, compare_keys};
ghost use Rattle.sdb_oplog.specs.Keys.{with_value_at_key};
ghost use Rattle.sdb_steps.specs.StateView.{queue_slots_in};

use sdb_oplog::Key;
use sdb_subscribe::SubId;
use std::alloc::AllocError;
use std::collections::BTreeMap;

// The slots of one session by key.
pub(crate) type QueueSlots = BTreeMap<Key, Option<SubId>>;

// Returns the number of the key's queue.
pub(crate) fn queue_of(slots: &QueueSlots, key: &Key) -> Option<SubId>
    ensures { result ≡ queue_slots_in slots.now.entries (plain_key key.now) }
{
    match slots.get(key) {
        Some(slot) => *slot,
        None => None,
    }
}

// Ensures a slot for the key, so that filling it can't fail. Returns the number of the queue in it.
pub(crate) fn reserve_slot(slots: &mut QueueSlots, key: &Key) -> Result<Option<SubId>, AllocError>
    ensures number { IfOk result (λ o. o ≡ queue_slots_in slots.old.entries (plain_key key.now)) }
    ensures made { OnOk result
        (is_some (lookup (is_at (λ k. compare_keys (plain_key key.now) (plain_key k))) slots.new.entries) ≡ true) }
    ensures unchanged { queue_slots_in slots.new.entries ≡ queue_slots_in slots.old.entries }
{
    match slots.get(key) {
        Some(slot) => Ok(*slot),
        None => {
            let _ = slots.insert(key.try_clone()?, None)?;
            Ok(None)
        }
    }
}

// Fills a reserved slot.
pub(crate) fn fill_slot(slots: &mut QueueSlots, key: &Key, id: SubId)
    requires { is_some (lookup (is_at (λ k. compare_keys (plain_key key.now) (plain_key k))) slots.old.entries) ≡ true }
    ensures { queue_slots_in slots.new.entries
        ≡ with_value_at_key (queue_slots_in slots.old.entries) (plain_key key.now) (Some id) }
{
    match slots.get_mut(key) {
        Some(slot) => *slot = Some(id),
        None => unreachable!(),
    }
}

// Removes the slot of the key.
pub(crate) fn drop_slot(slots: &mut QueueSlots, key: &Key)
    ensures { queue_slots_in slots.new.entries
        ≡ with_value_at_key (queue_slots_in slots.old.entries) (plain_key key.now) None }
{
    let _ = slots.remove(key);
}

// Removes the slot of the key if it is empty.
pub(crate) fn drop_empty_slot(slots: &mut QueueSlots, key: &Key)
    ensures { queue_slots_in slots.new.entries ≡ queue_slots_in slots.old.entries }
{
    if queue_of(slots, key).is_none() {
        drop_slot(slots, key);
    }
}
