//! JSON values and operations, parsed and printed, and tables of rows, for the tests. A failed
//! allocation or a malformed text ends the test.
use sdb_component::{Component, Op, op_value, read_op};
use sdb_value::{Json, from_value, to_value};
use serde_json::Value;
use std::alloc::Global;
use std::fmt::Display;
use std::process::Abort;

pub(crate) fn parse_value(rt: &impl Abort, alloc: Global, text: &str) -> Value {
    Value::from_str(alloc, text).expect(rt, "out of memory or no JSON")
}

pub(crate) fn json_of(rt: &impl Abort, alloc: Global, value: &Value) -> Json {
    from_value(alloc, value).expect(rt, "out of memory or no value")
}

pub(crate) fn json(rt: &impl Abort, alloc: Global, text: &str) -> Json {
    json_of(rt, alloc, &parse_value(rt, alloc, text))
}

pub(crate) fn op_of(rt: &impl Abort, alloc: Global, value: &Value) -> Op {
    read_op(alloc, value).expect(rt, "out of memory or no operation")
}

pub(crate) fn op(rt: &impl Abort, alloc: Global, text: &str) -> Op {
    op_of(rt, alloc, &parse_value(rt, alloc, text))
}

// Returns the only component of the operation.
pub(crate) fn component(rt: &impl Abort, alloc: Global, value: &Value) -> Component {
    op_of(rt, alloc, value)
        .into_one()
        .ok()
        .expect(rt, "one component")
}

pub(crate) fn text_of<T: Display>(rt: &impl Abort, alloc: Global, value: &T) -> String {
    value.to_string(alloc).expect(rt, "out of memory")
}

// Returns whether the displayed text is this one.
pub(crate) fn displays_as<T: Display>(
    rt: &impl Abort,
    alloc: Global,
    value: &T,
    wanted: &str,
) -> bool {
    text_of(rt, alloc, value).as_str() == wanted
}

pub(crate) fn json_text(rt: &impl Abort, alloc: Global, json: &Json) -> String {
    text_of(
        rt,
        alloc,
        &to_value(alloc, json).expect(rt, "out of memory"),
    )
}

// Returns whether the value is printed as this text.
pub(crate) fn json_prints_as(rt: &impl Abort, alloc: Global, json: &Json, wanted: &str) -> bool {
    json_text(rt, alloc, json).as_str() == wanted
}

// Returns whether the value is printed like this one.
pub(crate) fn json_equals(rt: &impl Abort, alloc: Global, json: &Json, wanted: &Value) -> bool {
    json_prints_as(rt, alloc, json, text_of(rt, alloc, wanted).as_str())
}

pub(crate) fn op_text(rt: &impl Abort, alloc: Global, op: &Op) -> String {
    let value = op_value(alloc, op).expect(rt, "out of memory");
    text_of(rt, alloc, &value)
}

// Returns whether the operation is printed as this text.
pub(crate) fn op_prints_as(rt: &impl Abort, alloc: Global, op: &Op, wanted: &str) -> bool {
    op_text(rt, alloc, op).as_str() == wanted
}

// Returns whether the operation is printed like this value.
pub(crate) fn op_equals(rt: &impl Abort, alloc: Global, op: &Op, wanted: &Value) -> bool {
    op_prints_as(rt, alloc, op, text_of(rt, alloc, wanted).as_str())
}

// Returns a pseudorandom number below the bound, or 0 if the bound is 0.
pub(crate) fn scatter(step: u64, bound: u64) -> u64 {
    if bound == 0 {
        return 0;
    }
    step.wrapping_mul(7919) % bound
}

// Returns the text, followed by the part so many times.
pub(crate) fn with_repeated(
    rt: &impl Abort,
    alloc: Global,
    text: &str,
    part: &str,
    count: u64,
) -> String {
    let mut text = String::from_str(alloc, text).expect(rt, "out of memory");
    for _ in 0..count {
        text.push_str(part).expect(rt, "out of memory");
    }
    text
}

// Appends the parts to the text.
pub(crate) fn append_parts(rt: &impl Abort, text: &mut String, parts: &[&str]) {
    for part in parts {
        text.push_str(part).expect(rt, "out of memory");
    }
}

// Returns the prefix, followed by the parts.
pub(crate) fn concat(rt: &impl Abort, alloc: Global, prefix: &str, parts: &[&str]) -> String {
    let mut text = text_of(rt, alloc, &prefix);
    append_parts(rt, &mut text, parts);
    text
}

// Checks that the predicate holds of each row of the table, a JSON array of arrays, and returns the
// number of rows.
pub(crate) fn check_rows<R: Abort, F: Fn(&R, Global, &[Value]) -> bool>(
    rt: &R,
    alloc: Global,
    table: &str,
    holds: F,
) -> usize
    requires { F.IsAlwaysCallable holds }
{
    let rows = parse_value(rt, alloc, table);
    let rows = rows.as_array().expect(rt, "rows");
    for row in rows {
        let items = row.as_array().expect(rt, "a row").as_slice();
        assert!(rt; holds(rt, alloc, items), "{row}");
    }
    rows.len()
}
