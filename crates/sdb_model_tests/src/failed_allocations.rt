//! Tests of calls in which an allocation fails: the state afterwards, and a retry. Run directly, no
//! allocation fails; `tests/failed_allocations.py` fails each allocation of each test in turn.
use crate::chunks::{Number, freeze_list, list_of_numbers};
use crate::helpers::{json, json_prints_as, op, op_prints_as, with_repeated};
use crate::sorted_map::{clone_frozen_map, freeze_map};
use sdb_apply::{ApplyFault, apply, apply_atomic};
use sdb_chunks::{ChunkedVec, Repr};
use sdb_component::Op;
use sdb_rope::Rope;
use sdb_sorted_map::SortedMap;
use sdb_subscribe::Queues;
use sdb_transform::{Crossed, Fault, cross};
use std::alloc::Global;
use std::process::Abort;

// Allocates a buffer of 7,919 bytes. The script recognizes the size, and fails only allocations
// between two marks.
fn mark(rt: &impl Abort, alloc: Global) -> usize {
    let chunk: Vec<u8> = Vec::with_capacity(alloc, 7_919).expect(rt, "out of memory");
    chunk.capacity()
}

const OPERATION: &str = r#"[{"p":["n"],"na":1},{"p":["l",1],"li":[2]},{"p":["m"],"oi":"x"}]"#;

// The value before the operation, and after each of its components.
const VALUES: [&str; 4] = [
    r#"{"l":[1],"n":0}"#,
    r#"{"l":[1],"n":1}"#,
    r#"{"l":[1,[2]],"n":1}"#,
    r#"{"l":[1,[2]],"m":"x","n":1}"#,
];

// Returns the number of components that are applied, and checks the value after them.
fn apply_between_marks(rt: &impl Abort, alloc: Global, op: &Op) -> usize {
    let mut value = json(rt, alloc, VALUES[0]);
    mark(rt, alloc);
    let outcome = apply(alloc, &mut value, op);
    mark(rt, alloc);
    let count = match outcome {
        Ok(()) => 3,
        Err(refused) => {
            assert!(rt; refused.why == ApplyFault::OutOfMemory);
            refused.at
        }
    };
    assert!(rt; json_prints_as(rt, alloc, &value, VALUES.get(count).expect(rt, "a value")));
    count
}

#[test]
fn apply_is_retried_after_an_allocation_failure(rt: HostRuntime) {
    let op = op(&rt, rt.alloc(), OPERATION);
    assert!(rt;
        apply_between_marks(&rt, rt.alloc(), &op) == 3
            || apply_between_marks(&rt, rt.alloc(), &op) == 3
    );
}

// A failed atomic apply leaves the value unchanged, and a retry succeeds.
#[test]
fn apply_atomic_changes_nothing_if_an_allocation_fails(rt: HostRuntime) {
    let op = op(&rt, rt.alloc(), OPERATION);
    let mut value = json(&rt, rt.alloc(), VALUES[0]);
    mark(&rt, rt.alloc());
    let outcome = apply_atomic(rt.alloc(), &mut value, &op);
    mark(&rt, rt.alloc());
    if let Err(fault) = outcome {
        assert!(rt;
            fault == ApplyFault::OutOfMemory
                && json_prints_as(&rt, rt.alloc(), &value, VALUES[0])
                && apply_atomic(rt.alloc(), &mut value, &op).is_ok()
        );
    }
    assert!(rt; json_prints_as(&rt, rt.alloc(), &value, VALUES[3]));
}

// Transforms the operations against each other between two marks, and again if an allocation
// failed.
fn cross_between_marks(rt: &impl Abort, alloc: Global, left: &Op, right: &Op) -> Crossed {
    mark(rt, alloc);
    let outcome = cross(alloc, left, right);
    mark(rt, alloc);
    match outcome {
        Ok(crossed) => crossed,
        Err(fault) => {
            assert!(rt; fault == Fault::OutOfMemory);
            cross(alloc, left, right).expect(rt, "out of memory")
        }
    }
}

#[test]
fn cross_is_retried_after_an_allocation_failure(rt: HostRuntime) {
    let left = op(
        &rt,
        rt.alloc(),
        r#"[{"p":["l",0],"li":1},{"p":["t",0],"si":"ab"}]"#,
    );
    let right = op(
        &rt,
        rt.alloc(),
        r#"[{"p":["l",0],"li":2},{"p":["t",0],"si":"c"}]"#,
    );
    let crossed = cross_between_marks(&rt, rt.alloc(), &left, &right);
    let after = r#"[{"li":1,"p":["l",0]},{"p":["t",0],"si":"ab"}]"#;
    assert!(rt; op_prints_as(&rt, rt.alloc(), &crossed.left, after));
    let after = r#"[{"li":2,"p":["l",1]},{"p":["t",2],"si":"c"}]"#;
    assert!(rt; op_prints_as(&rt, rt.alloc(), &crossed.right, after) && crossed.pairs == 4);
}

// Returns a text of so many chunks that freezing makes two groups of them.
fn long_rope(rt: &impl Abort, alloc: Global) -> (Rope, String) {
    let plain = with_repeated(rt, alloc, "", "0123456789abcdef", 8_000);
    let text = Rope::from_str(alloc, plain.as_str()).expect(rt, "out of memory");
    (text, plain)
}

fn is_text(rt: &impl Abort, alloc: Global, text: &Rope, plain: &str) -> bool {
    let shown = text.to_string(alloc).expect(rt, "out of memory");
    shown.as_str() == plain
}

#[test]
fn a_rope_is_unchanged_if_freezing_it_fails(rt: HostRuntime) {
    let (mut text, plain) = long_rope(&rt, rt.alloc());
    mark(&rt, rt.alloc());
    let outcome = text.freeze(rt.alloc());
    mark(&rt, rt.alloc());
    if outcome.is_err() {
        assert!(rt;
            is_text(&rt, rt.alloc(), &text, plain.as_str()) && text.freeze(rt.alloc()).is_ok()
        );
    }
    assert!(rt; text.is_shared() && is_text(&rt, rt.alloc(), &text, plain.as_str()));
}

#[test]
fn a_frozen_rope_is_unchanged_if_an_insertion_fails(rt: HostRuntime) {
    let (mut text, plain) = long_rope(&rt, rt.alloc());
    text.freeze(rt.alloc()).expect(&rt, "out of memory");
    mark(&rt, rt.alloc());
    let outcome = text.insert(rt.alloc(), 100_000, "x");
    mark(&rt, rt.alloc());
    if outcome.is_err() {
        assert!(rt;
            is_text(&rt, rt.alloc(), &text, plain.as_str())
                && text.insert(rt.alloc(), 100_000, "x").unwrap_or(false)
        );
    }
    let prefix = plain.get(..100_000).expect(&rt, "within");
    let suffix = plain.get(100_000..).expect(&rt, "within");
    let old = with_repeated(&rt, rt.alloc(), prefix, "x", 1);
    let longer = with_repeated(&rt, rt.alloc(), old.as_str(), suffix, 1);
    assert!(rt; is_text(&rt, rt.alloc(), &text, longer.as_str()));
}

// The removed text spans two groups.
#[test]
fn a_frozen_rope_is_unchanged_if_a_removal_fails(rt: HostRuntime) {
    let (mut text, plain) = long_rope(&rt, rt.alloc());
    text.freeze(rt.alloc()).expect(&rt, "out of memory");
    let old = plain.get(60_000..90_000).expect(&rt, "within");
    mark(&rt, rt.alloc());
    let outcome = text.remove(rt.alloc(), 60_000, old);
    mark(&rt, rt.alloc());
    if outcome.is_err() {
        assert!(rt;
            is_text(&rt, rt.alloc(), &text, plain.as_str())
                && text.remove(rt.alloc(), 60_000, old).unwrap_or(false)
        );
    }
    let suffix = plain.get(90_000..).expect(&rt, "within");
    let prefix = plain.get(..60_000).expect(&rt, "within");
    let left = with_repeated(&rt, rt.alloc(), prefix, suffix, 1);
    assert!(rt; is_text(&rt, rt.alloc(), &text, left.as_str()));
}

// Returns whether the items are the numbers below the count, in order.
fn has_numbers_below(list: &ChunkedVec<Number>, count: u64) -> bool {
    list.iter().map(|item| item.0).eq(0..count)
}

#[test]
fn a_list_is_unchanged_if_freezing_it_fails(rt: HostRuntime) {
    let mut repr = list_of_numbers(&rt, rt.alloc(), 4_000).into_repr();
    mark(&rt, rt.alloc());
    let outcome = repr.freeze(rt.alloc());
    mark(&rt, rt.alloc());
    if outcome.is_err() {
        let list = ChunkedVec::from_repr(repr);
        assert!(rt; has_numbers_below(&list, 4_000));
        repr = list.into_repr();
        assert!(rt; repr.freeze(rt.alloc()).is_ok());
    }
    assert!(rt;
        matches!(&repr, Repr::Groups(_)) && has_numbers_below(&ChunkedVec::from_repr(repr), 4_000)
    );
}

// Returns a shared clone, so that a change of one of the lists copies on write.
fn clone_frozen_list(rt: &impl Abort, list: &ChunkedVec<Number>) -> ChunkedVec<Number> {
    let clone = list.clone_shared().expect(rt, "out of memory");
    clone.expect(rt, "a shared list")
}

#[test]
fn a_frozen_list_is_unchanged_if_an_insertion_fails(rt: HostRuntime) {
    let list = list_of_numbers(&rt, rt.alloc(), 4_000);
    let mut list = freeze_list(&rt, rt.alloc(), list);
    let clone = clone_frozen_list(&rt, &list);
    mark(&rt, rt.alloc());
    let outcome = list.insert(rt.alloc(), 4_000, Number(4_000));
    mark(&rt, rt.alloc());
    if outcome.is_err() {
        assert!(rt;
            has_numbers_below(&list, 4_000)
                && list
                    .insert(rt.alloc(), 4_000, Number(4_000))
                    .unwrap_or(false)
        );
    }
    assert!(rt;
        list.is_grouped() && has_numbers_below(&list, 4_001) && has_numbers_below(&clone, 4_000)
    );
}

#[test]
fn a_frozen_list_is_unchanged_if_a_removal_fails(rt: HostRuntime) {
    let list = list_of_numbers(&rt, rt.alloc(), 4_000);
    let mut list = freeze_list(&rt, rt.alloc(), list);
    let clone = clone_frozen_list(&rt, &list);
    mark(&rt, rt.alloc());
    let outcome = list.remove(rt.alloc(), 3_999);
    mark(&rt, rt.alloc());
    if outcome.is_err() {
        assert!(rt; has_numbers_below(&list, 4_000) && list.remove(rt.alloc(), 3_999).is_ok());
    }
    assert!(rt;
        list.is_grouped() && has_numbers_below(&list, 3_999) && has_numbers_below(&clone, 4_000)
    );
}

fn padded_key(rt: &impl Abort, alloc: Global, number: u64) -> String {
    let mut key = String::new(alloc);
    for digit in [1_000, 100, 10, 1] {
        let at = char::from_digit((number / digit % 10) as u32, 10).expect(rt, "a digit");
        key.push(at).expect(rt, "out of memory");
    }
    key
}

// Returns a frozen map with so many keys that its chunks are grouped.
fn frozen_map(rt: &impl Abort, alloc: Global) -> SortedMap<Number> {
    let mut map = SortedMap::new(alloc);
    for number in 0..2_000 {
        let old = map.insert(alloc, padded_key(rt, alloc, number), Number(number));
        drop(old.expect(rt, "out of memory"));
    }
    freeze_map(rt, alloc, map)
}

// Returns whether the values are the numbers below the count, in order.
fn has_values_below(map: &SortedMap<Number>, count: u64) -> bool {
    map.iter().map(|entry| entry.1.0).eq(0..count)
}

#[test]
fn a_frozen_map_is_unchanged_if_an_insertion_fails(rt: HostRuntime) {
    let mut map = frozen_map(&rt, rt.alloc());
    let clone = clone_frozen_map(&rt, &map);
    let next = padded_key(&rt, rt.alloc(), 2_000);
    mark(&rt, rt.alloc());
    let outcome = map.insert(rt.alloc(), next, Number(2_000));
    mark(&rt, rt.alloc());
    if outcome.is_err() {
        assert!(rt; has_values_below(&map, 2_000));
        let next = padded_key(&rt, rt.alloc(), 2_000);
        assert!(rt; map.insert(rt.alloc(), next, Number(2_000)).is_ok());
    }
    assert!(rt; has_values_below(&map, 2_001) && has_values_below(&clone, 2_000));
    assert!(rt;
        map.chunks().is_grouped()
            && map.get("1234").map(|number| number.0) == Some(1_234)
            && map.get("2000").map(|number| number.0) == Some(2_000)
    );
}

#[test]
fn a_frozen_map_is_unchanged_if_a_removal_fails(rt: HostRuntime) {
    let mut map = frozen_map(&rt, rt.alloc());
    let clone = clone_frozen_map(&rt, &map);
    mark(&rt, rt.alloc());
    let outcome = map.remove(rt.alloc(), "1999");
    mark(&rt, rt.alloc());
    if outcome.is_err() {
        assert!(rt; has_values_below(&map, 2_000));
        assert!(rt; map.remove(rt.alloc(), "1999").is_ok());
    }
    assert!(rt; has_values_below(&map, 1_999) && has_values_below(&clone, 2_000));
}

// A failed open leaves the queues unchanged, and a retry succeeds.
#[test]
fn open_changes_nothing_if_an_allocation_fails(rt: HostRuntime) {
    let mut queues = Queues::new(rt.alloc());
    mark(&rt, rt.alloc());
    let opened = queues.open(0, 7).is_ok();
    mark(&rt, rt.alloc());
    if !opened {
        assert!(rt; queues.next_id() == 0 && queues.count() == 0);
        assert!(rt; queues.open(0, 7).is_ok());
    }
    assert!(rt; queues.next_id() == 1 && queues.count() == 1);
}
