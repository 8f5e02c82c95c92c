//! Tests of `sdb_apply`: components and operations, applied in order or atomically.
use crate::helpers::{
    check_rows, component, displays_as, json, json_equals, json_of, json_prints_as, op_of,
    parse_value,
};
use sdb_apply::{ApplyFault, Refused, apply, apply_atomic, apply_one};
use sdb_component::Component;
use serde_json::Value;
use std::alloc::Global;
use std::process::Abort;

// Rows of a value, an operation, the index of its first component that cannot be applied, and the
// value afterwards.
const OPERATIONS: &str = r#"[
  [5, [{"p":[],"na":1}], null, 6],
  [5, [{"p":[],"na":-7}], null, -2],
  [9007199254740990, [{"p":[],"na":1}], null, 9007199254740991],
  [9007199254740991, [{"p":[],"na":1}], 0, 9007199254740991],
  [-9007199254740991, [{"p":[],"na":-1}], 0, -9007199254740991],
  ["5", [{"p":[],"na":1}], 0, "5"],
  ["ab", [{"p":[0],"si":"x"}], null, "xab"],
  ["ab", [{"p":[2],"si":"x"}], null, "abx"],
  ["ab", [{"p":[3],"si":"x"}], 0, "ab"],
  ["a😀b", [{"p":[2],"si":"x"}], 0, "a😀b"],
  ["a😀b", [{"p":[3],"si":"x"}], null, "a😀xb"],
  ["aéb", [{"p":[2],"si":"x"}], null, "aéxb"],
  [[1], [{"p":[0],"si":"x"}], 0, [1]],
  ["ab", [{"p":[1],"sd":"b"}], null, "a"],
  ["ab", [{"p":[1],"sd":"x"}], 0, "ab"],
  ["ab", [{"p":[1],"sd":"bc"}], 0, "ab"],
  ["a😀b", [{"p":[1],"sd":"😀"}], null, "ab"],
  ["a😀b", [{"p":[2],"sd":"b"}], 0, "a😀b"],
  ["ab", [{"p":[9],"sd":""}], null, "ab"],
  [null, [{"p":[0],"sd":"a"}], 0, null],
  [[1,2,3], [{"p":[0],"li":4}], null, [4,1,2,3]],
  [[1,2,3], [{"p":[3],"li":4}], null, [1,2,3,4]],
  [[1,2,3], [{"p":[4],"li":4}], 0, [1,2,3]],
  [{}, [{"p":[0],"li":4}], 0, {}],
  [[1,2,3], [{"p":[0],"ld":99}], null, [2,3]],
  [[1,2,3], [{"p":[3],"ld":3}], 0, [1,2,3]],
  ["ab", [{"p":[0],"ld":"a"}], 0, "ab"],
  [[1,2,3], [{"p":[1],"ld":9,"li":"q"}], null, [1,"q",3]],
  [[1,2,3], [{"p":[3],"ld":9,"li":"q"}], 0, [1,2,3]],
  [true, [{"p":[0],"ld":9,"li":"q"}], 0, true],
  [{}, [{"p":["z"],"oi":[]}], null, {"z":[]}],
  [{"z":1}, [{"p":["z"],"oi":2}], null, {"z":2}],
  [[], [{"p":["z"],"oi":2}], 0, []],
  [{"y":1,"z":2}, [{"p":["z"],"od":9}], null, {"y":1}],
  [{"y":1}, [{"p":["z"],"od":2}], null, {"y":1}],
  [1, [{"p":["z"],"od":2}], 0, 1],
  [{}, [{"p":["z"],"od":1,"oi":2}], null, {"z":2}],
  [{"z":7}, [{"p":["z"],"od":1,"oi":2}], null, {"z":2}],
  [[], [{"p":["z"],"od":1,"oi":2}], 0, []],
  [{"a":[{"n":1}]}, [{"p":["a",0,"n"],"na":1}], null, {"a":[{"n":2}]}],
  [{"a":[[]]}, [{"p":["a",0,0],"li":1}], null, {"a":[[1]]}],
  [{"a":[[]]}, [{"p":["b",0,0],"li":1}], 0, {"a":[[]]}],
  [{"a":[[]]}, [{"p":["a",1,0],"li":1}], 0, {"a":[[]]}],
  [{"a":[[]]}, [{"p":["a","0",0],"li":1}], 0, {"a":[[]]}],
  [{"a":[[]]}, [{"p":[0,0,0],"li":1}], 0, {"a":[[]]}],
  [5, [], null, 5],
  [{"n":1,"t":"ab"}, [{"p":["n"],"na":1},{"p":["t",0],"sd":"x"},{"p":["n"],"na":1}], 1, {"n":2,"t":"ab"}],
  [[], [{"p":[0],"li":"ab"},{"p":[0,2],"si":"c"},{"p":[0,0],"sd":"a"}], null, ["bc"]]
]"#;

// Returns the index of the component that was not applied.
pub(crate) fn refused_at(rt: &impl Abort, applied: Result<(), Refused>) -> Option<u64> {
    match applied {
        Ok(()) => None,
        Err(refusal) => {
            assert!(rt; refusal.why == ApplyFault::NotApplied);
            Some(refusal.at as u64)
        }
    }
}

// Checks the outcome of `apply` for a row, and the value afterwards.
fn applies_as_listed(rt: &impl Abort, alloc: Global, row: &[Value]) -> bool {
    let [before, steps, at, after] = row else {
        return false;
    };
    let mut value = json_of(rt, alloc, before);
    let applied = apply(alloc, &mut value, &op_of(rt, alloc, steps));
    refused_at(rt, applied) == at.as_u64() && json_equals(rt, alloc, &value, after)
}

#[test]
fn operations_are_applied_or_refused(rt: HostRuntime) {
    assert!(rt; check_rows(&rt, rt.alloc(), OPERATIONS, applies_as_listed) == 48);
}

// Rows of a value, an operation, whether it is applied atomically, and the value afterwards.
const ATOMIC_OPERATIONS: &str = r#"[
  [5, [], true, 5],
  [[1], [{"p":[0],"na":1}], true, [2]],
  [[1], [{"p":[1],"na":1}], false, [1]],
  [{"b":[["x"],[]]}, [{"p":["b",0,0],"ld":"x"},{"p":["b",1,0],"li":"x"}], true, {"b":[[],["x"]]}],
  [{"b":[["x"],[]]}, [{"p":["b",0,0],"ld":"x"},{"p":["b",1,1],"li":"x"}], false, {"b":[["x"],[]]}],
  [{"b":[["x"],[]]}, [{"p":["b",0,0],"ld":"x"},{"p":["b",2,0],"li":"x"}], false, {"b":[["x"],[]]}],
  [{"a":1,"t":"ab"}, [{"p":["a"],"na":1},{"p":["t",1],"sd":"x"}], false, {"a":1,"t":"ab"}],
  [{"t":"ab"}, [{"p":["t",0],"sd":"a"},{"p":["t",0],"sd":"b"},{"p":["t",0],"sd":"b"}], false, {"t":"ab"}]
]"#;

// Checks `apply_atomic` for a row on a unique value and on a frozen one, whose clone stays
// unchanged.
fn applies_atomically_as_listed(rt: &impl Abort, alloc: Global, row: &[Value]) -> bool {
    let [before, steps, done, after] = row else {
        return false;
    };
    let op = op_of(rt, alloc, steps);
    let mut value = json_of(rt, alloc, before);
    let first = apply_atomic(alloc, &mut value, &op).is_ok();
    let is_changed = json_equals(rt, alloc, &value, after);
    let mut shared = json_of(rt, alloc, before);
    shared.freeze(alloc).expect(rt, "out of memory");
    let clone = shared.frozen_clone(alloc).expect(rt, "out of memory");
    let second = apply_atomic(alloc, &mut shared, &op).is_ok();
    let is_clone_unchanged = json_equals(rt, alloc, &clone, before);
    let is_frozen_changed = json_equals(rt, alloc, &shared, after);
    is_changed
        && is_clone_unchanged
        && is_frozen_changed
        && Some(first) == done.as_bool()
        && first == second
}

#[test]
fn an_atomic_operation_is_applied_completely_or_not_at_all(rt: HostRuntime) {
    assert!(rt;
        check_rows(
            &rt,
            rt.alloc(),
            ATOMIC_OPERATIONS,
            applies_atomically_as_listed
        ) == 8
    );
}

// Parses an operation and returns its only component.
fn parse_component(rt: &impl Abort, alloc: Global, text: &str) -> Component {
    component(rt, alloc, &parse_value(rt, alloc, text))
}

// An insert is applied, and one after the end is refused.
#[test]
fn a_component_is_applied_or_refused(rt: HostRuntime) {
    let insert = parse_component(&rt, rt.alloc(), r#"[{"p":["l",1],"li":2}]"#);
    let past = parse_component(&rt, rt.alloc(), r#"[{"p":["l",3],"li":4}]"#);
    let mut value = json(&rt, rt.alloc(), r#"{"l":[1]}"#);
    assert!(rt;
        apply_one(rt.alloc(), &mut value, &insert).is_ok()
            && json_prints_as(&rt, rt.alloc(), &value, r#"{"l":[1,2]}"#)
            && apply_one(rt.alloc(), &mut value, &past).is_err()
            && json_prints_as(&rt, rt.alloc(), &value, r#"{"l":[1,2]}"#)
    );
}

#[test]
fn faults_display_their_texts(rt: HostRuntime) {
    let refused = "operation can not be applied";
    assert!(rt;
        displays_as(&rt, rt.alloc(), &ApplyFault::NotApplied, refused)
            && displays_as(&rt, rt.alloc(), &ApplyFault::OutOfMemory, "out of memory")
    );
}
