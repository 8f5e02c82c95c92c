//! Tests of `sdb_json`: texts parsed to trees, and the accessors of trees and of `serde_json`
//! values.
use crate::helpers::{check_rows, concat, json_prints_as, parse_value, with_repeated};
use sdb_json::{JsonData, Scratch, parse_json};
use sdb_value::from_value;
use serde_json::Value;
use std::alloc::Global;
use std::process::Abort;

// Rows of a text and of the printed value, which is null if the text is refused.
const TEXTS: &str = r#"[
  ["null", "null"],
  [" [ 1 , -2 , true ] ", "[1,-2,true]"],
  ["{\"b\":1,\"a\":{\"b\":[]}}", "{\"a\":{\"b\":[]},\"b\":1}"],
  ["{\"a\":1,\"b\":2,\"a\":3}", "{\"a\":3,\"b\":2}"],
  ["{\"a\":1.5,\"a\":{\"a\":0,\"a\":4}}", "{\"a\":{\"a\":4}}"],
  ["{\"\\u0061\":1,\"a\":2}", "{\"a\":2}"],
  ["[\"\\ud83d\\ude00\\n\\\"\",\"é\"]", "[\"😀\\n\\\"\",\"é\"]"],
  ["[9007199254740991,-9007199254740991]", "[9007199254740991,-9007199254740991]"],
  ["", null],
  ["1 2", null],
  ["[1,]", null],
  ["{\"a\"}", null],
  ["{\"a\":1", null],
  ["01", null],
  ["1e400", null],
  ["\"\\ud83d\"", null],
  ["nul", null]
]"#;

fn is_parsed_as(rt: &impl Abort, alloc: Global, row: &[Value]) -> bool {
    let [text, wanted] = row else {
        return false;
    };
    let text = text.as_str().expect(rt, "a text");
    let mut scratch = Scratch::new(alloc);
    let tree = parse_json(alloc, text, &mut scratch).expect(rt, "out of memory");
    match (tree, wanted.as_str()) {
        (Some(tree), Some(wanted)) => {
            let json = from_value(alloc, &tree).expect(rt, "out of memory or no value");
            json_prints_as(rt, alloc, &json, wanted)
        }
        (None, None) => true,
        _ => false,
    }
}

#[test]
fn texts_are_parsed_or_refused(rt: HostRuntime) {
    check_rows(&rt, rt.alloc(), TEXTS, is_parsed_as);
}

// Returns whether lists nested to this depth are accepted.
fn accepts_depth(rt: &impl Abort, alloc: Global, depth: u64) -> bool {
    let opened = with_repeated(rt, alloc, "", "[", depth);
    let text = with_repeated(rt, alloc, opened.as_str(), "]", depth);
    let mut scratch = Scratch::new(alloc);
    parse_json(alloc, text.as_str(), &mut scratch)
        .expect(rt, "out of memory")
        .is_some()
}

#[test]
fn lists_nest_at_most_127_deep(rt: HostRuntime) {
    assert!(rt; accepts_depth(&rt, rt.alloc(), 127) && !accepts_depth(&rt, rt.alloc(), 128));
}

#[test]
fn a_long_string_is_parsed(rt: HostRuntime) {
    let long = with_repeated(&rt, rt.alloc(), "", "ab\\n", 30_000);
    let text = concat(&rt, rt.alloc(), "{\"t\":\"", &[long.as_str(), "\"}"]);
    let mut scratch = Scratch::new(rt.alloc());
    let tree = parse_json(rt.alloc(), text.as_str(), &mut scratch)
        .expect(&rt, "out of memory")
        .expect(&rt, "JSON");
    let parsed = tree
        .get("t")
        .and_then(JsonData::as_str)
        .expect(&rt, "a text");
    assert!(rt; parsed.len() == 90_000 && parsed.ends_with("ab\n"));
}

const KINDS: &str = r#"{"n":null,"b":true,"i":-7,"t":"x","l":[1,[]],"o":{"k":0}}"#;

// Checks the accessor of each kind of value.
fn returns_its_kinds<D: JsonData>(rt: &impl Abort, alloc: Global, value: &D) -> bool {
    let number = value.get("i").expect(rt, "a number");
    let items = value.get("l").and_then(D::as_array).expect(rt, "a list");
    let members = value.members(alloc).expect(rt, "out of memory");
    value.get("n").is_some_and(D::is_null)
        && value.get("b").and_then(D::as_bool) == Some(true)
        && number.is_number()
        && number.as_i64() == Some(-7)
        && number.as_u64().is_none()
        && value.get("t").and_then(D::as_str) == Some("x")
        && items.len() == 2
        && members.expect(rt, "an object").len() == 6
        && value.get("x").is_none()
}

// Checks that the accessors of other kinds return nothing.
fn returns_no_other_kind<D: JsonData>(rt: &impl Abort, alloc: Global, value: &D) -> bool {
    let text = value.get("t").expect(rt, "a text");
    let members = text.members(alloc).expect(rt, "out of memory");
    !text.is_null()
        && text.as_bool().is_none()
        && !text.is_number()
        && text.as_i64().is_none()
        && value.as_str().is_none()
        && text.as_array().is_none()
        && members.is_none()
        && text.get("t").is_none()
}

#[test]
fn a_tree_returns_values_of_its_kind_only(rt: HostRuntime) {
    let mut scratch = Scratch::new(rt.alloc());
    let tree = parse_json(rt.alloc(), KINDS, &mut scratch)
        .expect(&rt, "out of memory")
        .expect(&rt, "JSON");
    assert!(rt;
        returns_its_kinds(&rt, rt.alloc(), &tree) && returns_no_other_kind(&rt, rt.alloc(), &tree)
    );
}

#[test]
fn a_value_returns_values_of_its_kind_only(rt: HostRuntime) {
    let value = parse_value(&rt, rt.alloc(), KINDS);
    assert!(rt;
        returns_its_kinds(&rt, rt.alloc(), &value) && returns_no_other_kind(&rt, rt.alloc(), &value)
    );
}
