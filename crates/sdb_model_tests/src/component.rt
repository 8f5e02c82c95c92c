//! Tests of `sdb_component`: operations that are parsed, cloned, weighed and printed. The lines of
//! the server test the refusals.
use crate::helpers::{
    check_rows, component, displays_as, op, op_equals, op_of, op_prints_as, parse_value, text_of,
};
use json::Writer;
use sdb_component::{Component, Op, OpFault, Path, weight, write_op};
use sdb_value::paths_equal;
use serde_json::Value;
use std::alloc::Global;
use std::process::Abort;

// Rows of an operation, and its printed form.
const SHAPES: &str = r#"[
  [[], []],
  [[{"p":[],"na":-1}], [{"na":-1,"p":[]}]],
  [[{"si":"a","p":["k",3]}], [{"p":["k",3],"si":"a"}]],
  [[{"p":[0],"sd":"b"}], [{"p":[0],"sd":"b"}]],
  [[{"p":[1],"li":{"b":1,"a":null}}], [{"li":{"a":null,"b":1},"p":[1]}]],
  [[{"p":["a",2],"ld":[true]}], [{"ld":[true],"p":["a",2]}]],
  [[{"p":[1],"ld":9,"li":"q"}], [{"ld":9,"li":"q","p":[1]}]],
  [[{"p":["k"],"oi":"x"}], [{"oi":"x","p":["k"]}]],
  [[{"p":[0,"k"],"od":1}], [{"od":1,"p":[0,"k"]}]],
  [[{"p":["k"],"oi":2,"od":1}], [{"od":1,"oi":2,"p":["k"]}]],
  [[{"p":[9],"sd":""},{"p":[],"na":1,"z":1.5}], [{"na":1,"p":[]}]],
  [[{"p":[9007199254740991],"ld":-9007199254740991}], [{"ld":-9007199254740991,"p":[9007199254740991]}]],
  [[{"oi":null,"p":["k"]}], [{"oi":null,"p":["k"]}]],
  [[{"od":null,"oi":1,"p":["k"]}], [{"od":null,"oi":1,"p":["k"]}]],
  [[{"ld":null,"li":null,"p":[0]}], [{"ld":null,"li":null,"p":[0]}]]
]"#;

// Writes the operation without a JSON value in between.
fn written_bytes(rt: &impl Abort, alloc: Global, op: &Op) -> Vec<u8> {
    let mut out = Writer::new(Vec::new(alloc));
    write_op(op, &mut out).expect(rt, "out of memory");
    out.into_inner()
}

// Returns whether the operation is printed and written like this value.
fn is_printed_and_written(rt: &impl Abort, alloc: Global, op: &Op, wanted: &Value) -> bool {
    let wanted = text_of(rt, alloc, wanted);
    op_prints_as(rt, alloc, op, wanted.as_str())
        && written_bytes(rt, alloc, op).as_slice() == wanted.as_bytes()
}

fn is_parsed_and_printed(rt: &impl Abort, alloc: Global, row: &[Value]) -> bool {
    let [sent, wanted] = row else {
        return false;
    };
    is_printed_and_written(rt, alloc, &op_of(rt, alloc, sent), wanted)
}

#[test]
fn each_shape_is_parsed_and_printed(rt: HostRuntime) {
    check_rows(&rt, rt.alloc(), SHAPES, is_parsed_and_printed);
}

// An operation with components of all nine kinds, each in nested containers.
const NINE_SHAPES: &str = r#"[
    {"na":-3,"p":["a",0,"n"]},
    {"p":["a",1,7],"si":"aé😀"},
    {"p":["a",1,8],"sd":"x😀"},
    {"li":[1,{"k":[null,"t"]}],"p":["a",2]},
    {"ld":{"k":{"l":[true]}},"p":["a",3]},
    {"ld":[[0],-5],"li":{"m":{"n":"é"}},"p":["b","c",4]},
    {"oi":[{"o":[]},{}],"p":[5,"d"]},
    {"od":{"p":[false,[1]]},"p":["e","f"]},
    {"od":["q",{"r":1}],"oi":{"s":[2,[3]]},"p":[6,"g"]}
]"#;

#[test]
fn a_clone_equals_its_original(rt: HostRuntime) {
    let clone = op(&rt, rt.alloc(), NINE_SHAPES)
        .try_clone(rt.alloc())
        .expect(&rt, "out of memory");
    assert!(rt;
        is_printed_and_written(
            &rt,
            rt.alloc(),
            &clone,
            &parse_value(&rt, rt.alloc(), NINE_SHAPES)
        ) && clone.components().len() == 9
            && weight(&clone) == 11
    );
}

// A parsed operation of one component returns it by `into_one`; an operation made from a list does
// not.
#[test]
fn into_one_returns_the_only_component(rt: HostRuntime) {
    let one = op(&rt, rt.alloc(), r#"[{"na":1,"p":["n"]}]"#);
    let component = one.into_one().ok().expect(&rt, "one component");
    let again = Op::one(component).into_components(rt.alloc());
    let listed = Op::new(again.expect(&rt, "out of memory"));
    assert!(rt;
        op_prints_as(&rt, rt.alloc(), &listed, r#"[{"na":1,"p":["n"]}]"#)
            && listed.into_one().is_err()
    );
}

// Rows of an operation of one component, and of another operation whose path is interned.
const INTERNED_PATHS: &str = r#"[
  [[{"na":1,"p":["a",0]}], [{"na":2,"p":["a",0]}]],
  [[{"na":1,"p":["a",0]}], [{"na":2,"p":["a",1]}]],
  [[{"na":1,"p":["a",0]}], [{"na":2,"p":[]}]],
  [[{"na":1,"p":["a",0]}], [{"na":2,"p":["a",0]},{"na":3,"p":["a",0]}]]
]"#;

// Returns whether the other operation is unchanged when its path is interned.
fn is_unchanged_by_interning(rt: &impl Abort, alloc: Global, row: &[Value]) -> bool {
    let [first, other] = row else {
        return false;
    };
    let path = component(rt, alloc, first)
        .try_clone_path()
        .expect(rt, "shared");
    let interned = op_of(rt, alloc, other)
        .with_interned_path(&path)
        .expect(rt, "shared");
    op_equals(rt, alloc, &interned, other)
}

#[test]
fn an_operation_with_an_interned_path_is_unchanged(rt: HostRuntime) {
    check_rows(&rt, rt.alloc(), INTERNED_PATHS, is_unchanged_by_interning);
}

// Rows of an operation of one component, and the size of its path with the limits 3 and 9.
const PATHS: &str = r#"[
  [[{"na":1,"p":["ab",0]}], 3, 4],
  [[{"na":1,"p":[]}], 0, 0]
]"#;

// Checks that a shared path and then the last owner of it both return their steps.
fn returns_its_steps(rt: &impl Abort, alloc: Global, row: &[Value]) -> bool {
    let [first, few, all] = row else {
        return false;
    };
    let (path, _) = component(rt, alloc, first).into_parts();
    let other = path.try_clone().expect(rt, "shared");
    let copied = path.into_steps(alloc).expect(rt, "out of memory");
    let given = other.into_steps(alloc).expect(rt, "out of memory");
    let again = Path::new(alloc, given).expect(rt, "out of memory");
    paths_equal(copied.as_slice(), again.steps())
        && few.as_u64() == Some(again.size(3))
        && all.as_u64() == Some(again.size(9))
}

#[test]
fn into_steps_returns_the_steps_of_a_path(rt: HostRuntime) {
    check_rows(&rt, rt.alloc(), PATHS, returns_its_steps);
}

#[test]
fn faults_display_their_texts(rt: HostRuntime) {
    assert!(rt;
        displays_as(
            &rt,
            rt.alloc(),
            &OpFault::BadlyFormed,
            "operation is badly formed"
        ) && displays_as(&rt, rt.alloc(), &OpFault::OutOfMemory, "out of memory")
    );
}

// Rows of an operation of one component, and its size.
const SIZES: &str = r#"[
  [[{"na":-3,"p":["ab",0]}], 4],
  [[{"p":["a",7],"si":"aé😀"}], 9],
  [[{"p":[8],"sd":"x😀"}], 5],
  [[{"li":[1,[]],"p":[2]}], 3],
  [[{"ld":"abc","p":[3]}], 4],
  [[{"ld":"abc","li":{"k":0},"p":[4]}], 7],
  [[{"oi":null,"p":["abc"]}], 4],
  [[{"od":"","p":[0,"abc"]}], 5],
  [[{"od":"a","oi":[0],"p":["abc"]}], 7]
]"#;

// Returns whether the size is right with this limit.
fn has_size_up_to(component: &Component, limit: u64, wanted: u64) -> bool {
    component.size(limit) == limit.min(wanted)
}

// Returns whether the size is right with each limit.
fn has_size_at_each_limit(component: &Component, wanted: u64) -> bool {
    for limit in 0..=10 {
        if !has_size_up_to(component, limit, wanted) {
            return false;
        }
    }
    has_size_up_to(component, 18446744073709551615, wanted)
}

fn has_size(rt: &impl Abort, alloc: Global, row: &[Value]) -> bool {
    let [sent, size] = row else {
        return false;
    };
    let size = size.as_u64().expect(rt, "a size");
    has_size_at_each_limit(&component(rt, alloc, sent), size)
}

#[test]
fn sizes_are_counted_up_to_a_limit(rt: HostRuntime) {
    check_rows(&rt, rt.alloc(), SIZES, has_size);
}
