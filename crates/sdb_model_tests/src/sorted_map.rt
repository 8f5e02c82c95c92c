//! Tests of sorted maps against `BTreeMap`.

use crate::chunks::{Number, chunk_count};
use crate::helpers::{scatter, text_of};
use sdb_chunks::{ChunkedVec, TryClone};
use sdb_sorted_map::{MapEntry, MapKey, SortedMap};
use std::alloc::Global;
use std::collections::BTreeMap;
use std::process::Abort;

// Returns one of 5,003 keys.
fn key_of_step(rt: &impl Abort, alloc: Global, step: u64) -> String {
    text_of(rt, alloc, &scatter(step, 5_003))
}

// Inserts into both maps, and returns whether the old values agree.
fn insert_in_both(
    rt: &impl Abort,
    alloc: Global,
    map: &mut SortedMap<Number>,
    plain: &mut BTreeMap<String, u64>,
    step: u64,
) -> bool {
    let old = map
        .insert(alloc, key_of_step(rt, alloc, step), Number(step))
        .expect(rt, "out of memory");
    let was: Result<_, _> = plain.insert(key_of_step(rt, alloc, step), step);
    old.map(|number| number.0) == was.expect(rt, "out of memory")
}

// Removes from both maps, and returns whether the removed values agree.
fn remove_from_both(
    rt: &impl Abort,
    alloc: Global,
    map: &mut SortedMap<Number>,
    plain: &mut BTreeMap<String, u64>,
    step: u64,
) -> bool {
    let key = key_of_step(rt, alloc, step);
    let value = map.remove(alloc, key.as_str()).expect(rt, "out of memory");
    value.map(|number| number.0) == plain.remove(key.as_str())
}

// Returns whether both maps have equal entries in equal order.
fn is_equal(map: &SortedMap<Number>, plain: &BTreeMap<String, u64>) -> bool {
    let mut others = plain.iter();
    for (key, value) in map.iter() {
        match others.next() {
            Some((other, number)) => {
                if key != other.as_str() || value.0 != *number {
                    return false;
                }
            }
            None => return false,
        }
    }
    others.next().is_none()
}

fn insert_all(
    rt: &impl Abort,
    alloc: Global,
    map: &mut SortedMap<Number>,
    plain: &mut BTreeMap<String, u64>,
) {
    for step in 0..8_000 {
        assert!(rt; insert_in_both(rt, alloc, map, plain, step), "{step}");
    }
}

fn remove_all(
    rt: &impl Abort,
    alloc: Global,
    map: &mut SortedMap<Number>,
    plain: &mut BTreeMap<String, u64>,
) {
    for step in 3_000..9_000 {
        assert!(rt; remove_from_both(rt, alloc, map, plain, step), "{step}");
    }
}

// Freezes the map. The chunks of a large map are then grouped.
pub(crate) fn freeze_map(
    rt: &impl Abort,
    alloc: Global,
    map: SortedMap<Number>,
) -> SortedMap<Number> {
    let mut repr = map.into_chunks().into_repr();
    repr.freeze(alloc).expect(rt, "out of memory");
    SortedMap::from_entries(ChunkedVec::from_repr(repr))
}

// Returns a shared clone, so that a change of one of the maps copies on write.
pub(crate) fn clone_frozen_map(rt: &impl Abort, map: &SortedMap<Number>) -> SortedMap<Number> {
    let clone = map.clone_shared().expect(rt, "out of memory");
    clone.expect(rt, "a frozen map")
}

// Rebuilds the map from the vector of its entries.
fn rebuild(rt: &impl Abort, alloc: Global, map: SortedMap<Number>) -> SortedMap<Number> {
    let entries = map.into_chunks().into_vec(alloc);
    SortedMap::from_sorted(alloc, entries.expect(rt, "out of memory")).expect(rt, "out of memory")
}

#[test]
fn a_map_of_many_chunks_equals_a_btree_map(rt: HostRuntime) {
    let mut plain = BTreeMap::new(rt.alloc());
    let mut map = SortedMap::new(rt.alloc());
    insert_all(&rt, rt.alloc(), &mut map, &mut plain);
    assert!(rt; chunk_count(map.chunks()) > 40 && is_equal(&map, &plain));
    remove_all(&rt, rt.alloc(), &mut map, &mut plain);
    assert!(rt; !map.is_shared() && is_equal(&map, &plain));
    let map = rebuild(&rt, rt.alloc(), map);
    assert!(rt; is_equal(&map, &plain));
}

#[test]
fn changes_of_a_frozen_map_leave_its_clone_unchanged(rt: HostRuntime) {
    let mut plain = BTreeMap::new(rt.alloc());
    let mut map = SortedMap::new(rt.alloc());
    insert_all(&rt, rt.alloc(), &mut map, &mut plain);
    let mut map = freeze_map(&rt, rt.alloc(), map);
    let clone = clone_frozen_map(&rt, &map);
    assert!(rt; map.chunks().is_grouped() && clone.is_shared() && is_equal(&clone, &plain));
    remove_all(&rt, rt.alloc(), &mut map, &mut plain);
    assert!(rt; is_equal(&map, &plain) && clone.get("17").is_some() && clone.len() == 5_003);
    insert_all(&rt, rt.alloc(), &mut map, &mut plain);
    assert!(rt; is_equal(&map, &plain));
    let clone = rebuild(&rt, rt.alloc(), clone);
    assert!(rt; !clone.is_shared() && clone.get("17").is_some() && clone.len() == 5_003);
}

#[test]
fn a_map_from_a_btree_map_has_its_entries(rt: HostRuntime) {
    let mut plain = BTreeMap::new(rt.alloc());
    for step in 0..300 {
        let old: Result<_, _> = plain.insert(key_of_step(&rt, rt.alloc(), step), Number(step));
        drop(old.expect(&rt, "out of memory"));
    }
    let map = SortedMap::from_map(rt.alloc(), plain).expect(&rt, "out of memory");
    assert!(rt; map.len() == 300 && chunk_count(map.chunks()) == 15);
    let second = key_of_step(&rt, rt.alloc(), 1);
    assert!(rt;
        map.get(second.as_str()).map(|number| number.0) == Some(1) && map.get("").is_none()
    );
}

// Returns a map with the keys "a" and "c".
fn two_entries(rt: &impl Abort, alloc: Global) -> SortedMap<Number> {
    let mut map = SortedMap::new(alloc);
    for (key, number) in [("c", 3), ("a", 1)] {
        let old = map.insert(alloc, text_of(rt, alloc, &key), Number(number));
        assert!(rt; old.expect(rt, "out of memory").is_none());
    }
    map
}

#[test]
fn positions_of_keys_are_found(rt: HostRuntime) {
    let map = two_entries(&rt, rt.alloc());
    assert!(rt;
        matches!(map.position_of("a"), Ok(0))
            && matches!(map.position_of("c"), Ok(1))
            && matches!(map.position_of("b"), Err(1))
            && matches!(map.position_of("d"), Err(2))
    );
}

fn change_value(map: &mut SortedMap<Number>, key: &str) -> bool {
    match map.get_mut(key) {
        Some(number) => {
            number.0 = 9;
            true
        }
        None => false,
    }
}

#[test]
fn get_mut_changes_a_value_of_a_unique_map(rt: HostRuntime) {
    let mut map = two_entries(&rt, rt.alloc());
    assert!(rt;
        change_value(&mut map, "c")
            && !change_value(&mut map, "b")
            && map.get("c").map(|number| number.0) == Some(9)
            && map.get("a").map(|number| number.0) == Some(1)
    );
    let mut map = freeze_map(&rt, rt.alloc(), map);
    assert!(rt; !change_value(&mut map, "c") && map.len() == 2);
}

#[test]
fn a_clone_of_an_entry_equals_it(rt: HostRuntime) {
    let entry = MapEntry {
        key: MapKey::new(text_of(&rt, rt.alloc(), &"a key of more than one word")),
        value: Number(7),
    };
    let clone = entry.try_clone(rt.alloc()).expect(&rt, "out of memory");
    assert!(rt; clone.key.as_str() == entry.key.as_str() && clone.value.0 == 7);
}

// Checks a key of so many letters: its text, its clone, and the key made from a `String`.
fn keeps_its_text(rt: &impl Abort, alloc: Global, letter: char, count: u64) -> bool {
    let mut text = String::new(alloc);
    for _ in 0..count {
        text.push(letter).expect(rt, "out of memory");
    }
    let key = MapKey::from_str(alloc, text.as_str()).expect(rt, "out of memory");
    let clone = key.try_clone(alloc).expect(rt, "out of memory");
    let same = key.as_str() == text.as_str() && clone.as_str() == text.as_str();
    let moved = MapKey::new(text);
    same && moved.as_str() == key.as_str()
}

#[test]
fn keys_of_every_length_keep_their_text(rt: HostRuntime) {
    for count in 0..90 {
        assert!(rt;
            keeps_its_text(&rt, rt.alloc(), 'k', count)
                && keeps_its_text(&rt, rt.alloc(), '\u{e9}', count)
        );
    }
    assert!(rt;
        keeps_its_text(&rt, rt.alloc(), '\u{20ac}', 13)
            && keeps_its_text(&rt, rt.alloc(), '\u{1f511}', 10)
    );
}
