//! Tests of `sdb_transform`: components and operations, transformed against each other.
use crate::helpers::{
    append_parts, check_rows, component, concat, displays_as, op, op_equals, op_of, op_prints_as,
    text_of, with_repeated,
};
use sdb_component::{Component, Op};
use sdb_transform::{Fault, Side, TransformedOp, cross, transform, transform_one};
use serde_json::Value;
use std::alloc::Global;
use std::process::Abort;
use std::sync::Arc;

// Rows of the tables: a component, another one, the side, and the first one transformed against the
// second, or E8.

// Selected examples.
const EXAMPLES: &str = r#"[
  [[{"p":[1],"sd":"bcde"}], [{"p":[3],"si":"XYZ"}], "either", [{"p":[1],"sd":"bc"},{"p":[4],"sd":"de"}]],
  [[{"p":[0],"sd":"a😀"}], [{"p":[2],"si":"x"}], "either", "E8"],
  [[{"p":[2],"sd":"cde"}], [{"p":[1],"sd":"bcd"}], "either", [{"p":[1],"sd":"e"}]],
  [[{"p":[3],"si":"x"}], [{"p":[3],"si":"yz"}], "left", [{"p":[3],"si":"x"}]],
  [[{"p":[3],"si":"x"}], [{"p":[3],"si":"yz"}], "right", [{"p":[5],"si":"x"}]],
  [[{"ld":1,"li":2,"p":[0]}], [{"ld":1,"p":[0]}], "either", [{"li":2,"p":[0]}]]
]"#;

// The other component changes the value that this one removes.
const CHANGED_REMOVALS: &str = r#"[
  [[{"ld":"ab","p":[1]}], [{"p":[1,1],"si":"z"}], "either", [{"ld":"azb","p":[1]}]],
  [[{"ld":{"k":1},"li":2,"p":[1]}], [{"oi":5,"p":[1,"m"]}], "either", [{"ld":{"k":1,"m":5},"li":2,"p":[1]}]],
  [[{"od":[1,2],"p":["k"]}], [{"ld":1,"p":["k",0]}], "either", [{"od":[2],"p":["k"]}]],
  [[{"od":7,"oi":8,"p":["k"]}], [{"na":3,"p":["k"]}], "either", [{"od":10,"oi":8,"p":["k"]}]],
  [[{"od":{"l":["a"]},"p":["k"]}], [{"li":"b","p":["k","l",1]}], "either", [{"od":{"l":["a","b"]},"p":["k"]}]],
  [[{"ld":{"k":1},"p":["q",0]}], [{"od":1,"p":["q",0,"k"]}], "either", [{"ld":{},"p":["q",0]}]],
  [[{"od":[1,2],"p":["k"]}], [{"p":["k",0],"si":"x"}], "either", [{"od":[1,2],"p":["k"]}]],
  [[{"ld":"ab","p":[1]}], [{"p":[1,9],"si":"z"}], "either", [{"ld":"ab","p":[1]}]],
  [[{"ld":"ab","p":[1]}], [{"p":[2,0],"si":"z"}], "either", [{"ld":"ab","p":[1]}]],
  [[{"li":"ab","p":[1]}], [{"p":[1,0],"si":"z"}], "either", [{"li":"ab","p":[1]}]],
  [[{"oi":1,"p":["k"]}], [{"na":3,"p":["k"]}], "either", [{"oi":1,"p":["k"]}]]
]"#;

// The path of this component leads through the container of the other one.
const PATHS_THROUGH_CONTAINERS: &str = r#"[
  [[{"p":[2,0],"si":"x"}], [{"li":"v","p":[1]}], "either", [{"p":[3,0],"si":"x"}]],
  [[{"p":[2,0],"si":"x"}], [{"li":"v","p":[2]}], "either", [{"p":[3,0],"si":"x"}]],
  [[{"p":[2,0],"si":"x"}], [{"li":"v","p":[3]}], "either", [{"p":[2,0],"si":"x"}]],
  [[{"p":[2,0],"si":"x"}], [{"ld":"v","p":[1]}], "either", [{"p":[1,0],"si":"x"}]],
  [[{"p":[2,0],"si":"x"}], [{"ld":"v","p":[2]}], "either", []],
  [[{"p":[2,0],"si":"x"}], [{"ld":"v","p":[3]}], "either", [{"p":[2,0],"si":"x"}]],
  [[{"p":[2,0],"si":"x"}], [{"ld":"v","li":"w","p":[1]}], "either", [{"p":[2,0],"si":"x"}]],
  [[{"p":[2,0],"si":"x"}], [{"ld":"v","li":"w","p":[2]}], "either", []],
  [[{"p":[2,0],"si":"x"}], [{"ld":"v","li":"w","p":[3]}], "either", [{"p":[2,0],"si":"x"}]],
  [[{"p":[2,0],"si":"x"}], [{"oi":1,"p":["k"]}], "either", [{"p":[2,0],"si":"x"}]],
  [[{"p":[2,0],"si":"x"}], [{"od":1,"p":["k"]}], "either", [{"p":[2,0],"si":"x"}]],
  [[{"p":[2,0],"si":"x"}], [{"od":1,"oi":2,"p":["k"]}], "either", [{"p":[2,0],"si":"x"}]],
  [[{"p":[2,0],"si":"x"}], [{"p":[1],"si":"v"}], "either", [{"p":[2,0],"si":"x"}]],
  [[{"p":[2,0],"si":"x"}], [{"p":[1],"sd":"v"}], "either", [{"p":[2,0],"si":"x"}]],
  [[{"p":[2,0],"si":"x"}], [{"na":1,"p":[]}], "either", [{"p":[2,0],"si":"x"}]],
  [[{"na":1,"p":[9007199254740991]}], [{"li":"v","p":[0]}], "either", "E8"],
  [[{"na":1,"p":[9007199254740990]}], [{"li":"v","p":[0]}], "either", [{"na":1,"p":[9007199254740991]}]],
  [[{"na":1,"p":["k","m"]}], [{"od":1,"p":["k"]}], "either", []],
  [[{"na":1,"p":["k","m"]}], [{"od":1,"p":["l"]}], "either", [{"na":1,"p":["k","m"]}]],
  [[{"na":1,"p":["k","m"]}], [{"od":1,"oi":2,"p":["k"]}], "either", []],
  [[{"na":1,"p":["k","m"]}], [{"od":1,"oi":2,"p":["l"]}], "either", [{"na":1,"p":["k","m"]}]],
  [[{"na":1,"p":["k","m"]}], [{"oi":1,"p":["k"]}], "either", [{"na":1,"p":["k","m"]}]],
  [[{"na":1,"p":["k","m"]}], [{"ld":1,"p":[0]}], "either", [{"na":1,"p":["k","m"]}]],
  [[{"na":1,"p":["k","m"]}], [{"li":1,"p":[0]}], "either", [{"na":1,"p":["k","m"]}]],
  [[{"od":1,"p":["a",3,"b","k"]}], [{"ld":9,"p":["a",1]}], "either", [{"od":1,"p":["a",2,"b","k"]}]],
  [[{"oi":1,"p":["a",3,"b","k"]}], [{"li":9,"p":["a",3]}], "either", [{"oi":1,"p":["a",4,"b","k"]}]],
  [[{"oi":1,"p":["a",3,"b","k"]}], [{"od":9,"p":["a",3,"b"]}], "either", []]
]"#;

// Both components are in one list.
const LISTS: &str = r#"[
  [[{"li":"c","p":[2]}], [{"li":"o","p":[1]}], "either", [{"li":"c","p":[3]}]],
  [[{"li":"c","p":[2]}], [{"li":"o","p":[2]}], "left", [{"li":"c","p":[2]}]],
  [[{"li":"c","p":[2]}], [{"li":"o","p":[2]}], "right", [{"li":"c","p":[3]}]],
  [[{"li":"c","p":[2]}], [{"li":"o","p":[3]}], "either", [{"li":"c","p":[2]}]],
  [[{"li":"c","p":[9007199254740991]}], [{"li":"o","p":[0]}], "either", "E8"],
  [[{"li":"c","p":[9007199254740991]}], [{"li":"o","p":[9007199254740991]}], "left", [{"li":"c","p":[9007199254740991]}]],
  [[{"li":"c","p":[9007199254740991]}], [{"li":"o","p":[9007199254740991]}], "right", "E8"],
  [[{"ld":"c","p":[2]}], [{"li":"o","p":[1]}], "either", [{"ld":"c","p":[3]}]],
  [[{"ld":"c","p":[2]}], [{"li":"o","p":[2]}], "either", [{"ld":"c","p":[3]}]],
  [[{"ld":"c","p":[2]}], [{"li":"o","p":[3]}], "either", [{"ld":"c","p":[2]}]],
  [[{"ld":"c","p":[9007199254740991]}], [{"li":"o","p":[9007199254740991]}], "either", "E8"],
  [[{"ld":"c","li":"z","p":[2]}], [{"li":"o","p":[1]}], "either", [{"ld":"c","li":"z","p":[3]}]],
  [[{"ld":"c","li":"z","p":[2]}], [{"li":"o","p":[2]}], "either", [{"ld":"c","li":"z","p":[3]}]],
  [[{"ld":"c","li":"z","p":[2]}], [{"li":"o","p":[3]}], "either", [{"ld":"c","li":"z","p":[2]}]],
  [[{"ld":"c","li":"z","p":[9007199254740991]}], [{"li":"o","p":[0]}], "either", "E8"],
  [[{"li":"c","p":[2]}], [{"ld":"o","p":[1]}], "either", [{"li":"c","p":[1]}]],
  [[{"li":"c","p":[2]}], [{"ld":"o","p":[2]}], "either", [{"li":"c","p":[2]}]],
  [[{"li":"c","p":[2]}], [{"ld":"o","p":[3]}], "either", [{"li":"c","p":[2]}]],
  [[{"ld":"c","p":[2]}], [{"ld":"o","p":[1]}], "either", [{"ld":"c","p":[1]}]],
  [[{"ld":"c","p":[2]}], [{"ld":"c","p":[2]}], "either", []],
  [[{"ld":"c","p":[2]}], [{"ld":"o","p":[3]}], "either", [{"ld":"c","p":[2]}]],
  [[{"ld":"c","li":"z","p":[2]}], [{"ld":"o","p":[1]}], "either", [{"ld":"c","li":"z","p":[1]}]],
  [[{"ld":"c","li":"z","p":[2]}], [{"ld":"c","p":[2]}], "either", [{"li":"z","p":[2]}]],
  [[{"ld":"c","li":"z","p":[2]}], [{"ld":"o","p":[3]}], "either", [{"ld":"c","li":"z","p":[2]}]],
  [[{"li":"c","p":[2]}], [{"ld":"o","li":"y","p":[1]}], "either", [{"li":"c","p":[2]}]],
  [[{"li":"c","p":[2]}], [{"ld":"o","li":"y","p":[2]}], "either", [{"li":"c","p":[2]}]],
  [[{"li":"c","p":[2]}], [{"ld":"o","li":"y","p":[3]}], "either", [{"li":"c","p":[2]}]],
  [[{"ld":"c","p":[2]}], [{"ld":"o","li":"y","p":[1]}], "either", [{"ld":"c","p":[2]}]],
  [[{"ld":"c","p":[2]}], [{"ld":"c","li":"y","p":[2]}], "either", []],
  [[{"ld":"c","p":[2]}], [{"ld":"o","li":"y","p":[3]}], "either", [{"ld":"c","p":[2]}]],
  [[{"ld":"c","li":"z","p":[2]}], [{"ld":"o","li":"y","p":[1]}], "either", [{"ld":"c","li":"z","p":[2]}]],
  [[{"ld":"c","li":"z","p":[2]}], [{"ld":"c","li":"y","p":[2]}], "left", [{"ld":"y","li":"z","p":[2]}]],
  [[{"ld":"c","li":"z","p":[2]}], [{"ld":"c","li":"y","p":[2]}], "right", []],
  [[{"ld":"c","li":"z","p":[2]}], [{"ld":"o","li":"y","p":[3]}], "either", [{"ld":"c","li":"z","p":[2]}]]
]"#;

// Both components are in one object.
const OBJECTS: &str = r#"[
  [[{"oi":2,"p":["k"]}], [{"oi":1,"p":["k"]}], "left", [{"od":1,"oi":2,"p":["k"]}]],
  [[{"oi":2,"p":["k"]}], [{"oi":1,"p":["k"]}], "right", []],
  [[{"od":0,"oi":2,"p":["k"]}], [{"oi":1,"p":["k"]}], "left", [{"od":1,"oi":2,"p":["k"]}]],
  [[{"od":0,"oi":2,"p":["k"]}], [{"oi":1,"p":["k"]}], "right", []],
  [[{"od":0,"p":["k"]}], [{"oi":1,"p":["k"]}], "either", [{"od":0,"p":["k"]}]],
  [[{"oi":2,"p":["k"]}], [{"od":0,"p":["k"]}], "either", [{"oi":2,"p":["k"]}]],
  [[{"od":0,"p":["k"]}], [{"od":0,"p":["k"]}], "either", []],
  [[{"od":0,"oi":2,"p":["k"]}], [{"od":0,"p":["k"]}], "either", [{"oi":2,"p":["k"]}]],
  [[{"oi":2,"p":["k"]}], [{"od":0,"oi":1,"p":["k"]}], "left", [{"od":1,"oi":2,"p":["k"]}]],
  [[{"oi":2,"p":["k"]}], [{"od":0,"oi":1,"p":["k"]}], "right", []],
  [[{"od":0,"oi":2,"p":["k"]}], [{"od":0,"oi":1,"p":["k"]}], "left", [{"od":1,"oi":2,"p":["k"]}]],
  [[{"od":0,"oi":2,"p":["k"]}], [{"od":0,"oi":1,"p":["k"]}], "right", []],
  [[{"od":0,"p":["k"]}], [{"od":0,"oi":1,"p":["k"]}], "either", []],
  [[{"oi":2,"p":["k"]}], [{"oi":1,"p":["m"]}], "either", [{"oi":2,"p":["k"]}]],
  [[{"oi":2,"p":["k"]}], [{"od":0,"p":["m"]}], "either", [{"oi":2,"p":["k"]}]],
  [[{"oi":2,"p":["k"]}], [{"od":0,"oi":1,"p":["m"]}], "either", [{"oi":2,"p":["k"]}]],
  [[{"od":0,"p":["k"]}], [{"oi":1,"p":["m"]}], "either", [{"od":0,"p":["k"]}]],
  [[{"od":0,"p":["k"]}], [{"od":0,"p":["m"]}], "either", [{"od":0,"p":["k"]}]],
  [[{"od":0,"p":["k"]}], [{"od":0,"oi":1,"p":["m"]}], "either", [{"od":0,"p":["k"]}]],
  [[{"od":0,"oi":2,"p":["k"]}], [{"oi":1,"p":["m"]}], "either", [{"od":0,"oi":2,"p":["k"]}]],
  [[{"od":0,"oi":2,"p":["k"]}], [{"od":0,"p":["m"]}], "either", [{"od":0,"oi":2,"p":["k"]}]],
  [[{"od":0,"oi":2,"p":["k"]}], [{"od":0,"oi":1,"p":["m"]}], "either", [{"od":0,"oi":2,"p":["k"]}]]
]"#;

// Both components are in one string.
const TEXTS: &str = r#"[
  [[{"p":[3],"si":"x"}], [{"p":[1],"si":"yz"}], "either", [{"p":[5],"si":"x"}]],
  [[{"p":[3],"si":"x"}], [{"p":[4],"si":"yz"}], "either", [{"p":[3],"si":"x"}]],
  [[{"p":[1],"si":"x"}], [{"p":[0],"si":"😀"}], "either", [{"p":[3],"si":"x"}]],
  [[{"p":[1],"si":"x"}], [{"p":[0],"si":"é"}], "either", [{"p":[2],"si":"x"}]],
  [[{"p":[9007199254740991],"si":"x"}], [{"p":[0],"si":"y"}], "either", "E8"],
  [[{"p":[9007199254740989],"si":"x"}], [{"p":[0],"si":"😀"}], "either", [{"p":[9007199254740991],"si":"x"}]],
  [[{"p":[9007199254740991],"si":"x"}], [{"p":[9007199254740991],"si":"y"}], "left", [{"p":[9007199254740991],"si":"x"}]],
  [[{"p":[9007199254740991],"si":"x"}], [{"p":[9007199254740991],"si":"y"}], "right", "E8"],
  [[{"p":[2],"si":"x"}], [{"p":[3],"sd":"abc"}], "either", [{"p":[2],"si":"x"}]],
  [[{"p":[3],"si":"x"}], [{"p":[3],"sd":"abc"}], "either", [{"p":[3],"si":"x"}]],
  [[{"p":[4],"si":"x"}], [{"p":[3],"sd":"abc"}], "either", [{"p":[3],"si":"x"}]],
  [[{"p":[6],"si":"x"}], [{"p":[3],"sd":"abc"}], "either", [{"p":[3],"si":"x"}]],
  [[{"p":[7],"si":"x"}], [{"p":[3],"sd":"abc"}], "either", [{"p":[4],"si":"x"}]],
  [[{"p":[7],"si":"x"}], [{"p":[3],"sd":"é😀"}], "either", [{"p":[4],"si":"x"}]],
  [[{"p":[1],"sd":"bcde"}], [{"p":[0],"si":"XY"}], "either", [{"p":[3],"sd":"bcde"}]],
  [[{"p":[1],"sd":"bcde"}], [{"p":[1],"si":"XY"}], "either", [{"p":[3],"sd":"bcde"}]],
  [[{"p":[1],"sd":"bcde"}], [{"p":[2],"si":"XY"}], "either", [{"p":[1],"sd":"b"},{"p":[3],"sd":"cde"}]],
  [[{"p":[1],"sd":"bcde"}], [{"p":[4],"si":"XY"}], "either", [{"p":[1],"sd":"bcd"},{"p":[3],"sd":"e"}]],
  [[{"p":[1],"sd":"bcde"}], [{"p":[5],"si":"XY"}], "either", [{"p":[1],"sd":"bcde"}]],
  [[{"p":[1],"sd":"bcde"}], [{"p":[6],"si":"XY"}], "either", [{"p":[1],"sd":"bcde"}]],
  [[{"p":[0],"sd":"a😀"}], [{"p":[1],"si":"x"}], "either", [{"p":[0],"sd":"a"},{"p":[1],"sd":"😀"}]],
  [[{"p":[0],"sd":"a😀"}], [{"p":[3],"si":"x"}], "either", [{"p":[0],"sd":"a😀"}]],
  [[{"p":[9007199254740991],"sd":"a"}], [{"p":[0],"si":"x"}], "either", "E8"],
  [[{"p":[9007199254740990],"sd":"abc"}], [{"p":[9007199254740991],"si":"xyz"}], "either", "E8"],
  [[{"p":[3],"sd":"x"}], [{"p":[0],"sd":"ab"}], "either", [{"p":[1],"sd":"x"}]],
  [[{"p":[2],"sd":"cd"}], [{"p":[0],"sd":"ab"}], "either", [{"p":[0],"sd":"cd"}]],
  [[{"p":[2],"sd":"cd"}], [{"p":[4],"sd":"ef"}], "either", [{"p":[2],"sd":"cd"}]],
  [[{"p":[2],"sd":"cd"}], [{"p":[5],"sd":"f"}], "either", [{"p":[2],"sd":"cd"}]],
  [[{"p":[1],"sd":"bcd"}], [{"p":[2],"sd":"cde"}], "either", [{"p":[1],"sd":"b"}]],
  [[{"p":[2],"sd":"c"}], [{"p":[1],"sd":"bcde"}], "either", []],
  [[{"p":[1],"sd":"bcde"}], [{"p":[2],"sd":"c"}], "either", [{"p":[1],"sd":"bde"}]],
  [[{"p":[1],"sd":"bcde"}], [{"p":[1],"sd":"bcde"}], "either", []],
  [[{"p":[0],"sd":"a😀b"}], [{"p":[2],"sd":"b"}], "either", "E8"],
  [[{"p":[1],"sd":"😀b"}], [{"p":[0],"sd":"ab"}], "either", "E8"]
]"#;

// All other pairs, and components with independent paths.
const OTHERS: &str = r#"[
  [[{"na":1,"p":[]}], [{"na":2,"p":[]}], "either", [{"na":1,"p":[]}]],
  [[{"na":1,"p":[]}], [{"p":[0],"sd":"a"}], "either", [{"na":1,"p":[]}]],
  [[{"na":1,"p":["k"]}], [{"oi":2,"p":["k"]}], "either", [{"na":1,"p":["k"]}]],
  [[{"p":[1],"si":"x"}], [{"li":1,"p":[0]}], "either", [{"p":[1],"si":"x"}]],
  [[{"p":[1],"si":"x"}], [{"od":1,"p":["k"]}], "either", [{"p":[1],"si":"x"}]],
  [[{"p":[1],"sd":"x"}], [{"ld":1,"p":[0]}], "either", [{"p":[1],"sd":"x"}]],
  [[{"p":[1],"sd":"x"}], [{"na":1,"p":[]}], "either", [{"p":[1],"sd":"x"}]],
  [[{"li":1,"p":[1]}], [{"p":[0],"sd":"a"}], "either", [{"li":1,"p":[1]}]],
  [[{"li":1,"p":[1]}], [{"oi":1,"p":["k"]}], "either", [{"li":1,"p":[1]}]],
  [[{"ld":1,"p":[1]}], [{"p":[0],"si":"a"}], "either", [{"ld":1,"p":[1]}]],
  [[{"ld":1,"p":[1]}], [{"od":1,"oi":2,"p":["k"]}], "either", [{"ld":1,"p":[1]}]],
  [[{"ld":1,"li":2,"p":[1]}], [{"na":1,"p":[]}], "either", [{"ld":1,"li":2,"p":[1]}]],
  [[{"ld":1,"li":2,"p":[1]}], [{"p":[1],"si":"a"}], "either", [{"ld":1,"li":2,"p":[1]}]],
  [[{"oi":1,"p":["k"]}], [{"li":1,"p":[0]}], "either", [{"oi":1,"p":["k"]}]],
  [[{"od":1,"p":["k"]}], [{"p":[0],"si":"a"}], "either", [{"od":1,"p":["k"]}]],
  [[{"od":1,"oi":2,"p":["k"]}], [{"ld":1,"p":[0]}], "either", [{"od":1,"oi":2,"p":["k"]}]],
  [[{"p":["a",1],"si":"x"}], [{"li":1,"p":["b",0]}], "either", [{"p":["a",1],"si":"x"}]],
  [[{"li":1,"p":["a",0]}], [{"ld":1,"p":["a",1,0]}], "either", [{"li":1,"p":["a",0]}]],
  [[{"ld":1,"p":["a",0]}], [{"ld":1,"p":["a",1,0]}], "either", [{"ld":1,"p":["a",0]}]],
  [[{"p":["a","b",1],"sd":"x"}], [{"p":["a","c",0],"si":"y"}], "either", [{"p":["a","b",1],"sd":"x"}]],
  [[{"oi":1,"p":["a","k"]}], [{"oi":2,"p":["b","k"]}], "either", [{"oi":1,"p":["a","k"]}]]
]"#;

// Returns whether the outcome is this one, or E8.
fn is_outcome(
    rt: &impl Abort,
    alloc: Global,
    transformed: Result<Vec<Component>, Fault>,
    wanted: &Value,
) -> bool {
    match transformed {
        Ok(components) => op_equals(rt, alloc, &Op::new(components), wanted),
        Err(fault) => fault == Fault::NotTransformed && wanted.as_str() == Some("E8"),
    }
}

// Returns whether the transformed component is this one, or E8.
fn is_transformed(
    rt: &impl Abort,
    alloc: Global,
    (value, other): (&Value, &Value),
    side: Side,
    wanted: &Value,
) -> bool {
    let (value, other) = (component(rt, alloc, value), component(rt, alloc, other));
    is_outcome(rt, alloc, transform_one(alloc, value, &other, side), wanted)
}

// Returns whether the row holds on each side that it names.
fn transforms_as_listed(rt: &impl Abort, alloc: Global, row: &[Value]) -> bool {
    let [value, other, side, wanted] = row else {
        return false;
    };
    let side = side.as_str().expect(rt, "a side");
    (side == "right" || is_transformed(rt, alloc, (value, other), Side::Left, wanted))
        && (side == "left" || is_transformed(rt, alloc, (value, other), Side::Right, wanted))
}

#[test]
fn each_row_of_the_tables_is_transformed(rt: HostRuntime) {
    assert!(rt;
        check_rows(&rt, rt.alloc(), EXAMPLES, transforms_as_listed) == 6
            && check_rows(&rt, rt.alloc(), CHANGED_REMOVALS, transforms_as_listed) == 11
            && check_rows(
                &rt,
                rt.alloc(),
                PATHS_THROUGH_CONTAINERS,
                transforms_as_listed
            ) == 27
            && check_rows(&rt, rt.alloc(), LISTS, transforms_as_listed) == 34
            && check_rows(&rt, rt.alloc(), OBJECTS, transforms_as_listed) == 22
            && check_rows(&rt, rt.alloc(), TEXTS, transforms_as_listed) == 34
    );
    assert!(rt; check_rows(&rt, rt.alloc(), OTHERS, transforms_as_listed) == 21);
}

// Rows of two operations, each transformed against the other one, and the number of transformed
// pairs.
const CROSSINGS: &str = r#"[
  [[], [{"li":1,"p":[0]}], [], [{"li":1,"p":[0]}], 0],
  [[{"li":1,"p":[0]}], [], [{"li":1,"p":[0]}], [], 0],
  [[{"li":"B","p":[0]}], [{"li":"A","p":[0]}], [{"li":"B","p":[0]}], [{"li":"A","p":[1]}], 1],
  [[{"p":[0],"sd":"abcdef"}], [{"p":[5],"si":"x"},{"p":[3],"si":"y"},{"p":[1],"si":"z"}],
   [{"p":[0],"sd":"a"},{"p":[1],"sd":"bc"},{"p":[2],"sd":"de"},{"p":[3],"sd":"f"}],
   [{"p":[0],"si":"x"},{"p":[0],"si":"y"},{"p":[0],"si":"z"}], 6],
  [[{"oi":1,"p":["k"]},{"na":2,"p":["k"]}], [{"oi":5,"p":["k"]},{"na":3,"p":["k"]}],
   [{"od":8,"oi":1,"p":["k"]},{"na":2,"p":["k"]}], [], 2]
]"#;

fn crosses_as_listed(rt: &impl Abort, alloc: Global, row: &[Value]) -> bool {
    let [left, right, left_after, right_after, pairs] = row else {
        return false;
    };
    let (left, right) = (op_of(rt, alloc, left), op_of(rt, alloc, right));
    let crossed = cross(alloc, &left, &right).expect(rt, "crossed");
    op_equals(rt, alloc, &crossed.left, left_after)
        && op_equals(rt, alloc, &crossed.right, right_after)
        && crossed.pairs == pairs.as_u64().expect(rt, "a count") as u128
}

#[test]
fn operations_are_crossed(rt: HostRuntime) {
    check_rows(&rt, rt.alloc(), CROSSINGS, crosses_as_listed);
}

const REFUSED_LEFT: &str = r#"[{"oi":1,"p":["k"]},{"p":["t",0],"sd":"a😀"}]"#;

const REFUSED_RIGHT: &str = r#"[{"p":["t",0],"si":"b"},{"p":["t",3],"si":"x"}]"#;

#[test]
fn one_refused_pair_refuses_both_operations(rt: HostRuntime) {
    let (left, right) = (
        op(&rt, rt.alloc(), REFUSED_LEFT),
        op(&rt, rt.alloc(), REFUSED_RIGHT),
    );
    assert!(rt; cross(rt.alloc(), &left, &right).err() == Some(Fault::NotTransformed));
    let right = Arc::new(rt.alloc(), right).expect(&rt, "out of memory");
    let transformed = transform(rt.alloc(), right, &left, Side::Right);
    assert!(rt; transformed.err() == Some(Fault::NotTransformed));
}

// Returns the first component, and 99 more with this member, at 1, 2 and so on, or at 197, 195 and
// so on.
fn hundred_components(
    rt: &impl Abort,
    alloc: Global,
    first: &str,
    member: &str,
    is_falling: bool,
) -> String {
    let mut text = text_of(rt, alloc, &first);
    for i in 1..100_u64 {
        let at = if is_falling { 199 - 2 * i } else { i };
        let at = text_of(rt, alloc, &at);
        append_parts(
            rt,
            &mut text,
            &[r#",{"p":["#, at.as_str(), "],", member, "}"],
        );
    }
    text
}

// Returns the prefix, so many letters and the suffix.
fn surround(rt: &impl Abort, alloc: Global, prefix: &str, letters: u64, suffix: &str) -> String {
    let text = with_repeated(rt, alloc, prefix, "x", letters);
    with_repeated(rt, alloc, text.as_str(), suffix, 1)
}

// Returns a row with a delete of 200 letters that inserts split, the last one first.
fn row_of_splits(rt: &impl Abort, alloc: Global) -> String {
    let left = with_repeated(rt, alloc, r#"[[[{"p":[0],"sd":""#, "a", 200);
    let right = hundred_components(rt, alloc, r#"{"p":[199],"si":"x"}"#, r#""si":"x""#, true);
    let left_after = hundred_components(rt, alloc, r#"{"p":[0],"sd":"a"}"#, r#""sd":"aa""#, false);
    let insert = r#"{"p":[0],"si":"x"}"#;
    let right_after = with_repeated(rt, alloc, insert, r#",{"p":[0],"si":"x"}"#, 99);
    let parts = [
        r#""}],["#,
        right.as_str(),
        "],[",
        left_after.as_str(),
        r#",{"p":[100],"sd":"a"}],["#,
        right_after.as_str(),
        "],5050]]",
    ];
    concat(rt, alloc, left.as_str(), &parts)
}

#[test]
fn a_delete_is_split_by_a_hundred_inserts(rt: HostRuntime) {
    assert!(rt;
        check_rows(
            &rt,
            rt.alloc(),
            row_of_splits(&rt, rt.alloc()).as_str(),
            crosses_as_listed
        ) == 1
    );
}

// Checks an insert of B against an insert of A at the same index, with and without another owner.
fn transforms_to(rt: &impl Abort, alloc: Global, side: Side, wanted: &str) -> bool {
    let other = op(rt, alloc, r#"[{"li":"A","p":[0]}]"#);
    let insert = shared_op(rt, alloc, r#"[{"li":"B","p":[0]}]"#);
    let clone = Arc::try_clone(&insert).expect(rt, "out of memory");
    is_new_op(rt, alloc, &transform(alloc, clone, &other, side), wanted)
        && is_new_op(rt, alloc, &transform(alloc, insert, &other, side), wanted)
}

fn shared_op(rt: &impl Abort, alloc: Global, text: &str) -> Arc<Op> {
    Arc::new(alloc, op(rt, alloc, text)).expect(rt, "out of memory")
}

fn is_new_op(
    rt: &impl Abort,
    alloc: Global,
    transformed: &Result<TransformedOp, Fault>,
    wanted: &str,
) -> bool {
    match transformed {
        Ok(TransformedOp::New(op)) => op_prints_as(rt, alloc, op, wanted),
        _ => false,
    }
}

// Returns whether the operation is returned as it was passed.
fn is_unchanged(rt: &impl Abort, alloc: Global, text: &str, other: &str) -> bool {
    let other = op(rt, alloc, other);
    match transform(alloc, shared_op(rt, alloc, text), &other, Side::Left) {
        Ok(TransformedOp::Unchanged(op)) => op_prints_as(rt, alloc, &op, text),
        _ => false,
    }
}

#[test]
fn operations_with_independent_paths_are_unchanged(rt: HostRuntime) {
    let move_edit = r#"[{"ld":1,"p":["a",0]},{"li":1,"p":["b",3]}]"#;
    let insert = r#"[{"li":2,"p":["c",0]}]"#;
    let increment = r#"[{"na":1,"p":["n"]}]"#;
    assert!(rt;
        is_unchanged(&rt, rt.alloc(), move_edit, insert)
            && is_unchanged(&rt, rt.alloc(), increment, increment)
            && is_unchanged(&rt, rt.alloc(), insert, increment)
            && !is_unchanged(
                &rt,
                rt.alloc(),
                r#"[{"li":2,"p":["c",1]}]"#,
                r#"[{"li":2,"p":["c",1]}]"#
            )
    );
}

#[test]
fn the_left_side_wins_a_tie(rt: HostRuntime) {
    assert!(rt;
        transforms_to(&rt, rt.alloc(), Side::Left, r#"[{"li":"B","p":[0]}]"#)
            && transforms_to(&rt, rt.alloc(), Side::Right, r#"[{"li":"B","p":[1]}]"#)
    );
}

const EDITS_WITHIN: &str = r#"[{"p":[3,0,0],"si":"yy"},{"li":1,"p":[3,1]},{"li":2,"p":[0]}]"#;

// Returns two rows, one for each side, of the removal of a value against edits within it. The value
// has a string of so many letters.
fn rows_of_removals(rt: &impl Abort, alloc: Global, letters: u64) -> String {
    let removal = surround(rt, alloc, r#"[{"ld":[""#, letters, r#"",null],"p":[3]}]"#);
    let after = surround(
        rt,
        alloc,
        r#"[{"ld":["yy"#,
        letters,
        r#"",1,null],"p":[4]}]"#,
    );
    let (removal, after, other) = (removal.as_str(), after.as_str(), r#"[{"li":2,"p":[0]}]"#);
    let left = [removal, ",", EDITS_WITHIN, ",", after, ",", other, ",3],["];
    let left = concat(rt, alloc, "[[", &left);
    let right = [EDITS_WITHIN, ",", removal, ",", other, ",", after, ",3]]"];
    concat(rt, alloc, left.as_str(), &right)
}

#[test]
fn a_removed_value_is_updated_by_edits_within_it(rt: HostRuntime) {
    for letters in [0, 1, 63, 64, 65, 4096, 100000] {
        let rows = rows_of_removals(&rt, rt.alloc(), letters);
        assert!(rt;
            check_rows(&rt, rt.alloc(), rows.as_str(), crosses_as_listed) == 2,
            "{letters}"
        );
    }
}

#[test]
fn faults_display_their_texts(rt: HostRuntime) {
    let refused = "operation can not be applied";
    assert!(rt;
        displays_as(&rt, rt.alloc(), &Fault::NotTransformed, refused)
            && displays_as(&rt, rt.alloc(), &Fault::OutOfMemory, "out of memory")
    );
}
