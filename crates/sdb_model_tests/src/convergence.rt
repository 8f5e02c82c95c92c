//! Tests of `sdb_transform` and `sdb_apply`: two concurrent components converge. Each, followed by
//! the other transformed against it, gives one value.
use crate::apply::refused_at;
use crate::helpers::{check_rows, component, json_equals, json_of, op_of};
use sdb_apply::apply;
use sdb_component::Op;
use sdb_transform::{Side, transform_one};
use serde_json::Value;
use std::alloc::Global;
use std::process::Abort;

// Rows of a value, the left component, the right one, and the value of both orders, or E8.
const ROWS: &str = r#"[
  [["x"], [{"li":"A","p":[0]}], [{"li":"B","p":[0]}], ["A","B","x"]],
  [[5], [{"ld":5,"li":6,"p":[0]}], [{"ld":5,"p":[0]}], [6]],
  [{"k":1}, [{"od":1,"oi":2,"p":["k"]}], [{"od":1,"oi":3,"p":["k"]}], {"k":2}],
  [{"k":1}, [{"od":1,"p":["k"]}], [{"od":1,"oi":3,"p":["k"]}], {"k":3}],
  ["abcdef", [{"p":[1],"sd":"bcde"}], [{"p":[3],"si":"XYZ"}], "aXYZf"],
  ["abcdef", [{"p":[1],"sd":"bcd"}], [{"p":[2],"sd":"cde"}], "af"],
  [[{"n":1}], [{"ld":{"n":1},"p":[0]}], [{"na":1,"p":[0,"n"]}], []],
  [[7], [{"li":"A","p":[0]}], [{"na":1,"p":[0]}], ["A",8]],
  [9007199254740990, [{"na":1,"p":[]}], [{"na":1,"p":[]}], "E8"]
]"#;

// Transforms the second component against the first one.
fn transform_after(
    rt: &impl Abort,
    alloc: Global,
    second: &Value,
    first: &Value,
    side: Side,
) -> Op {
    let (second, first) = (component(rt, alloc, second), component(rt, alloc, first));
    Op::new(transform_one(alloc, second, &first, side).expect(rt, "transformed"))
}

// Applies the first component and then the second one, transformed against it on this side, and
// checks the value.
fn leads_to(
    rt: &impl Abort,
    alloc: Global,
    before: &Value,
    (first, second): (&Value, &Value),
    side: Side,
    wanted: &Value,
) -> bool {
    let mut value = json_of(rt, alloc, before);
    let made = apply(alloc, &mut value, &op_of(rt, alloc, first));
    assert!(rt; refused_at(rt, made).is_none());
    let then = apply(
        alloc,
        &mut value,
        &transform_after(rt, alloc, second, first, side),
    );
    if refused_at(rt, then).is_none() {
        return json_equals(rt, alloc, &value, wanted);
    }
    wanted.as_str() == Some("E8")
}

fn converges(rt: &impl Abort, alloc: Global, row: &[Value]) -> bool {
    let [before, a, b, wanted] = row else {
        return false;
    };
    leads_to(rt, alloc, before, (a, b), Side::Right, wanted)
        && leads_to(rt, alloc, before, (b, a), Side::Left, wanted)
}

#[test]
fn both_orders_give_one_document(rt: HostRuntime) {
    assert!(rt; check_rows(&rt, rt.alloc(), ROWS, converges) == 9);
}
